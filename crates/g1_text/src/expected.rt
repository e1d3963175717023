ghost use Rattle.std.specs.Prelude.{◌≡◌};

use g1_words::Fault;
use std::alloc::{AllocError, AllocFailed};
use std::fmt;
use thiserror::Error;

/// What should be in a line instead of what is there.
#[derive(Clone, Copy)]
pub enum Expected {
    Text,
    Heading,
    /// Sizes that a heap can have.
    Sizes,
    Line,
    Word(&'static str),
    /// A number of this: below 2^64, or below 2^32 for a region or a card.
    Number(&'static str),
    /// The number that follows from the other lines.
    Follows(&'static str, u64),
    End,
    Reference,
    Value,
    /// A text whose hash no other one has.
    OtherText,
    Root,
    Roots(u64),
    /// A slot, counted from 0, that is null or references an object.
    Slot(u64),
    Region(u64, u64),
    NoRegion,
    Kind,
    NoContinuation,
    /// An object in a region that is ordinary or humongous.
    Object,
    NoObject,
    Size,
    AtMost(u64),
    AtLeast(u64),
    /// This many slots and this many data words behind the size.
    Content(u64, u64),
    Current,
    Dirty,
    Cards,
    NoCards,
    Graph,
    GraphLine,
    /// A name of an object.
    Name,
    NewName,
    NamedRoot,
    /// The name of what holds a root.
    Holder,
    /// A slot, counted from 0, that is null or has an object's name.
    NamedSlot(u64),
    /// At least this many regions.
    Regions(u64),
    /// Objects for which there are regions. These have so many words.
    Smaller(u64),
    /// Fewer words than these, since a heap has at most so many.
    FewerWords(u64, u64),
}

impl Expected {
    // The text where no word and no number stands in it.
    fn text(&self) -> &'static str {
        match self {
            Expected::Text => "text",
            Expected::Heading => "'heap W K N' before all other lines",
            Expected::Sizes => "the sizes of a heap",
            Expected::Line => "'root', 'dirty', 'covered', 'region', 'remembered' or 'object'",
            Expected::End => "the end of the line",
            Expected::Reference => "'-' or an address",
            Expected::OtherText =>
                "texts of which each has another hash: write this one in another way",
            Expected::Value => "a data word, such as 7, -1, 0x1f, 1.5 or \"text\"",
            Expected::Root => "'-' or the address of an object",
            Expected::NoRegion => "no region behind the last one",
            Expected::Kind => "'free', 'ordinary', 'humongous' or 'continuation'",
            Expected::NoContinuation => "no continuation where no humongous object goes on",
            Expected::Object => "an object in this region",
            Expected::NoObject => "no object here: the region above takes none, or no further one",
            Expected::Size => "SIZE/SLOTS, at least one word and fewer slots than words",
            Expected::Current => "an ordinary region as the current one",
            Expected::Dirty => "cards of regions in use, each once",
            Expected::Cards => "rising cards of other regions in use",
            Expected::NoCards => "no remembered cards beside 'covered'",
            Expected::Graph => "'graph' or 'graph W K N' before all other lines",
            Expected::GraphLine => "'root' or 'object'",
            Expected::Name => "a name, which is neither '-' nor '..'",
            Expected::NewName => "a name that no object above has",
            Expected::NamedRoot => "'-' or the name of an object",
            Expected::Holder => "one word behind 'as', which is neither '-' nor '..'",
            _ => "",
        }
    }

    // The number that alone stands in the text, and what is before and behind it.
    fn number(&self) -> Option<(&'static str, u64, &'static str)> {
        match *self {
            Expected::Roots(most) => Some(("at most ", most, " roots")),
            Expected::Slot(slot) => Some(("'-' or the address of an object in slot ", slot, "")),
            Expected::NamedSlot(slot) => Some(("'-' or the name of an object in slot ", slot, "")),
            Expected::Regions(least) => Some(("at least ", least, " regions")),
            Expected::Smaller(words) => Some((
                "objects that fit into the regions of a heap of 268435456 words: these have ",
                words,
                " words",
            )),
            Expected::AtMost(most) => Some(("an object of at most ", most, " words")),
            Expected::AtLeast(least) => Some(("an object of at least ", least, " words")),
            _ => None,
        }
    }
}

impl fmt::Display for Expected {
    fn fmt<W: fmt::Write>(&self, f: &mut fmt::Formatter<W>) -> fmt::Result {
        match self {
            Expected::Word(word) => write!(f, "'{word}'"),
            Expected::Number(what) => write!(f, "a whole number as {what}"),
            Expected::Follows(what, number) => write!(f, "{what} {number}"),
            Expected::Region(first, last) => write!(f, "a region from {first} to {last}"),
            Expected::Content(slots, data) => write!(f, "{slots} slots and {data} data words"),
            Expected::FewerWords(words, most) => write!(
                f,
                "fewer words: with this object there are {words}, and the heap has at most {most}"
            ),
            _ => match self.number() {
                Some((lead, number, tail)) => write!(f, "{lead}{number}{tail}"),
                None => f.write_str(self.text()),
            },
        }
    }
}

/// As `Display`: what is expected has one text.
impl fmt::Debug for Expected {
    fn fmt<W: fmt::Write>(&self, f: &mut fmt::Formatter<W>) -> fmt::Result {
        fmt::Display::fmt(self, f)
    }
}

impl std::error::Error for Expected {}

/// Why lines are no image.
#[derive(Debug, Clone, Copy, Error)]
pub enum Wrong {
    /// The line of this number, counted from 1.
    #[error("line {number}: expected {expected}")]
    Line { number: u64, expected: Expected },
    #[error("{0}")]
    Fault(Fault),
}

impl From<AllocError> for Wrong {
    ghost use Rattle.std.specs.Prelude.{◌≡◌};
    ghost use Rattle.g1_words.specs.declared.fault.Fault.TheVariants.{Memory as OutOfMemory};
    ghost use Rattle.g1_text.specs.declared.expected.Wrong.TheVariants.{Fault as OfFault};

    ghost from_gives = { λ _ e. e ≡ OfFault OutOfMemory };

    fn from(_error: AllocError) -> Wrong {
        Wrong::Fault(Fault::Memory)
    }
}

/// Why a line is not taken, without its number.
#[derive(Clone, Copy)]
pub(crate) enum Refusal {
    Expected(Expected),
    Memory,
}

impl Refusal {
    ghost use Rattle.std.specs.Prelude.{◌≡◌};
    ghost use Rattle.g1_text.specs.declared.expected.Expected.{Expected as Wanted};
    ghost use Rattle.g1_text.specs.Refused.{IsLineOrMemory};

    /// The same, of the line of this number.
    pub(crate) fn at(self, number: u64) -> Wrong
        ensures memory { self ≡ Refusal.Memory → result ≡ Wrong.Fault Fault.Memory }
        ensures line { IsLineOrMemory result }
        ensures number { (e : Wanted) → self ≡ Refusal.Expected e → result ≡ Wrong.Line number e }
    {
        match self {
            Refusal::Expected(expected) => Wrong::Line { number, expected },
            Refusal::Memory => Wrong::Fault(Fault::Memory),
        }
    }
}

impl From<Expected> for Refusal {
    ghost use Rattle.std.specs.Prelude.{◌≡◌};
    ghost use Rattle.g1_text.specs.declared.expected.Refusal.TheVariants.{Expected as Wanted};

    ghost from_gives = { λ d e. e ≡ Wanted d };

    fn from(expected: Expected) -> Refusal {
        Refusal::Expected(expected)
    }
}

impl From<AllocError> for Refusal {
    ghost use Rattle.std.specs.Prelude.{◌≡◌};
    ghost use Rattle.g1_text.specs.declared.expected.Refusal.TheVariants.{Memory};

    ghost from_gives = { λ _ e. e ≡ Memory };

    fn from(_error: AllocError) -> Refusal {
        Refusal::Memory
    }
}

impl<T: Drop> From<AllocFailed<T>> for Refusal {
    ghost use Rattle.std.specs.Prelude.{◌≡◌};
    ghost use Rattle.g1_text.specs.declared.expected.Refusal.TheVariants.{Memory};

    ghost from_gives = { λ _ e. e ≡ Memory };

    fn from(_error: AllocFailed<T>) -> Refusal {
        Refusal::Memory
    }
}
