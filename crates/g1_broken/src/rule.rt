//! The rules, and what breaks each.
use g1_words::Kind;
use std::fmt;
use thiserror::Error;

/// A rule that is broken, with what breaks it. The text is one sentence. Addresses, sizes and tops are in words.
#[derive(Debug, Clone, Copy, PartialEq, Eq, Error)]
pub enum Broken {
    #[error("{0}")]
    Look(Look),
    #[error("a region has {words} words: a power of two, 16 to {most}")]
    RegionWords {
        words: u32,
        most: u64,
    },
    #[error("a card has {0} words: a power of two, 4 to 64")]
    CardWords(u32),
    #[error("a card has {card} words, and a region {region}: a card lies in one region")]
    CardBeyondRegion {
        card: u32,
        region: u32,
    },
    #[error("the heap has {0} regions: 1 to 4096")]
    Regions(u32),
    #[error("{regions} regions of {region_words} words have {words} words: at most {most}")]
    Words {
        regions: u32,
        region_words: u32,
        words: u64,
        most: u64,
    },
    #[error("the heap has {0} roots: at most 65536")]
    Roots(u32),
    #[error("region {current} is the current one, and the heap has {regions} regions")]
    Current {
        current: u32,
        regions: u32,
    },
    #[error("{part} ends at byte {end}, and there are {bytes} bytes")]
    Short {
        part: Part,
        end: u64,
        bytes: u64,
    },
    #[error("the remembered sets begin at byte {begin} and do not end, and there are {bytes} bytes")]
    ShortSets {
        begin: u64,
        bytes: u64,
    },
    #[error("the last word ends at byte {end}, and there are {bytes} bytes")]
    Trailing {
        end: u64,
        bytes: u64,
    },
    #[error("region {region} has the kind {kind}: 0 free, 1 ordinary, 2 humongous, 3 continuation")]
    Kind {
        region: u32,
        kind: u32,
    },
    #[error("region {region} has the flags {flags}: 0, or 1 if it is pinned")]
    Flags {
        region: u32,
        flags: u32,
    },
    #[error("region {region} is pinned, and its kind is {kind}: only an ordinary region may be pinned")]
    Pinned {
        region: u32,
        kind: Kind,
    },
    #[error("region {region} is free, and its top is {top}: 0")]
    FreeTop {
        region: u32,
        top: u32,
    },
    #[error("region {region} is {kind}, and its top is {top}: 1 to {most}")]
    Top {
        region: u32,
        kind: Kind,
        top: u32,
        most: u64,
    },
    #[error("the word at {at} is {word:#x}: a header of {size} words and {slots} slots, {place}: no object has that")]
    Header {
        at: u64,
        word: u64,
        size: u64,
        slots: u64,
        place: HeaderPlace,
    },
    #[error("the object at {at} has {size} words, more than three quarters of a region of {region_words}, and region {region} is ordinary")]
    TooLarge {
        at: u64,
        size: u64,
        region: u32,
        region_words: u64,
    },
    #[error("the object at {at} ends at {end}, behind {top}, where the top of region {region} is")]
    BehindTop {
        at: u64,
        end: u64,
        top: u64,
        region: u32,
    },
    #[error("the object at {at} has {size} words, at most three quarters of a region of {region_words}, and region {region} is humongous")]
    TooSmall {
        at: u64,
        size: u64,
        region: u32,
        region_words: u64,
    },
    #[error("region {region} has the top {top}: the object at {at} has {used} words in it")]
    RunTop {
        region: u32,
        top: u32,
        at: u64,
        used: u64,
    },
    #[error("the object at {at} takes {regions} regions, and the heap ends behind region {last}")]
    RunBeyond {
        at: u64,
        regions: u64,
        last: u64,
    },
    #[error("the object at {at} takes {regions} regions, and region {region} is {kind}")]
    RunCut {
        at: u64,
        regions: u64,
        region: u32,
        kind: Kind,
    },
    #[error("region {0} is a continuation, and no humongous object begins in front of it")]
    NoFirst(u32),
    #[error("region {region} is a continuation, and the object at {at} ends at {end}, in front of it")]
    BehindRun {
        region: u32,
        at: u64,
        end: u64,
    },
    #[error("region {region} is the current one, and its kind is {kind}: it has to be ordinary")]
    CurrentKind {
        region: u32,
        kind: Kind,
    },
    #[error("{holder} has the word {word}, which leads to {address}: {target}")]
    Stray {
        holder: Holder,
        word: u64,
        address: u64,
        target: Target,
    },
    #[error("card {card} is not in the heap, which has {cards} cards")]
    CardBeyond {
        card: u32,
        cards: u64,
    },
    #[error("card {card} lies in region {region}, which is free")]
    CardFree {
        card: u32,
        region: u64,
    },
    #[error("card {card} is at place {first} of the log and at place {again}")]
    CardTwice {
        card: u32,
        first: u32,
        again: u32,
    },
    #[error("card {card} lies in region {region} itself")]
    CardOwn {
        card: u32,
        region: u32,
    },
    #[error("card {card} stands behind card {before}: a set rises")]
    CardOrder {
        card: u32,
        before: u32,
    },
    #[error("region {region} remembers card {card}, and its kind is {kind}: its set has to be empty")]
    SetKind {
        region: u32,
        card: u32,
        kind: Kind,
    },
    #[error("{holder} has the word {word}, which leads to region {region}: card {card} is neither remembered there nor dirty")]
    Uncovered {
        holder: Holder,
        word: u64,
        region: u64,
        card: u64,
    },
    #[error("region {region} is not in the heap, which has {regions} regions")]
    GivenBeyond {
        region: u32,
        regions: u64,
    },
    #[error("region {region} is of the kind {kind}: only an ordinary region is collected")]
    GivenKind {
        region: u32,
        kind: Kind,
    },
    #[error("region {0} is pinned: a pause does not move its objects")]
    GivenPinned(u32),
    #[error("region {0} is given twice")]
    GivenTwice(u32),
}

/// What bytes look like that do not begin as an image does.
#[derive(Debug, Clone, Copy, PartialEq, Eq, Error)]
pub enum Look {
    #[error("it is empty")]
    Empty,
    #[error("it is compressed by gzip: gunzip first")]
    Gzip,
    #[error("it is compressed by zstd: unzstd first")]
    Zstd,
    #[error("it is compressed by xz: unxz first")]
    Xz,
    #[error("it is compressed by bzip2: bunzip2 first")]
    Bzip2,
    #[error("it is a zip archive: unzip first")]
    Zip,
    #[error("it is a heap dump of a Java virtual machine: 'g1heap convert' makes an image of it")]
    Dump,
    #[error("it begins with the byte order mark of UTF-8: take away these three bytes")]
    OrderMark,
    #[error("it is text in UTF-16: write it in UTF-8")]
    Utf16,
    #[error("it is an image of version {0}: this program reads the versions 1 and 2")]
    Version(char),
    #[error("it is lines of an image: 'g1heap make' makes an image of them")]
    Lines,
    #[error("it is lines of objects by name: 'g1heap make' makes an image of them")]
    Graph,
    #[error("it is a trace: 'g1heap trace' replies to it")]
    Trace,
    #[error("it is no image; 'g1heap make' makes an image of lines, and 'g1heap trace' replies to a trace")]
    Unknown,
}

/// A part of a file, of which the bytes are not all there.
#[derive(Debug, Clone, Copy, PartialEq, Eq, Error)]
pub enum Part {
    #[error("the magic")]
    Magic,
    #[error("the heading")]
    Heading,
    #[error("the table of {0} regions")]
    Table(u32),
    #[error("the list of {0} roots")]
    Roots(u32),
    #[error("the log of {0} dirty cards")]
    Log(u32),
    #[error("the list of the {0} words that the tops announce")]
    Words(u64),
}

/// Where a header is.
#[derive(Debug, Clone, Copy, PartialEq, Eq, Error)]
pub enum HeaderPlace {
    #[error("behind the object at {0}")]
    Behind(u64),
    #[error("at the start of region {0}")]
    Start(u32),
}

/// What holds a reference word.
#[derive(Debug, Clone, Copy, PartialEq, Eq, Error)]
pub enum Holder {
    #[error("root {0}")]
    Root(u32),
    #[error("slot {slot} of the object at {object}")]
    Slot { slot: u64, object: u64 },
}

/// What is at an address where no object starts.
#[derive(Debug, Clone, Copy, PartialEq, Eq, Error)]
pub enum Target {
    #[error("the heap has {0} words")]
    Beyond(u64),
    #[error("region {0} is free")]
    Free(u64),
    #[error("the top of region {region} is at {top}")]
    AboveTop { region: u64, top: u64 },
    #[error("that is word {word} of the object at {object}")]
    Inside { word: u64, object: u64 },
    #[error("no object starts there")]
    Nothing,
}
