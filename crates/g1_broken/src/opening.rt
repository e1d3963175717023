//! What is in front of the regions: the magic, the heading, and how many bytes there are.
use crate::rule::{Broken, Look, Part};
use g1_image::{Entry, Front, Heading, MAGIC, TextParts, Version};
use g1_words::{Geometry, Limits, MOST_ROOTS};

/// What files of other kinds begin with.
const BEGINNINGS: [(&[u8], Look); 11] = [
    (b"\x1f\x8b", Look::Gzip),
    (b"\x28\xb5\x2f\xfd", Look::Zstd),
    (b"\xfd7zXZ", Look::Xz),
    (b"BZh", Look::Bzip2),
    (b"PK\x03\x04", Look::Zip),
    (b"JAVA PROFILE", Look::Dump),
    (b"\xef\xbb\xbf", Look::OrderMark),
    (b"\xff\xfe", Look::Utf16),
    (b"\xfe\xff", Look::Utf16),
    (b"graph", Look::Graph),
    (b"#", Look::Lines),
];

/// What bytes look like that do not begin with the magic of an image.
pub(crate) fn look_of(bytes: &[u8]) -> Look {
    if bytes.is_empty() {
        return Look::Empty;
    }
    if let Some(version) = other_version(bytes) {
        return Look::Version(version);
    }
    if let Some(numbers) = bytes.strip_prefix(b"heap ") {
        return look_of_heading(numbers);
    }
    for (beginning, look) in BEGINNINGS {
        if bytes.starts_with(beginning) {
            return look;
        }
    }
    Look::Unknown
}

// The digit behind the letters with which each version's magic begins.
fn other_version(bytes: &[u8]) -> Option<char> {
    let digit = *bytes.strip_prefix(&MAGIC)?.first()?;
    if digit.is_ascii_digit() {
        Some(char::from(digit))
    } else {
        None
    }
}

// The heading of a trace has four numbers, and nothing behind them.
fn look_of_heading(numbers: &[u8]) -> Look {
    let mut spaces = 0u32;
    for byte in numbers {
        match *byte {
            b'\n' | b'\r' => break,
            b' ' => spaces = spaces.saturating_add(1),
            b'0'..=b'9' => {}
            _ => return Look::Lines,
        }
    }
    // A space is between two numbers.
    if spaces == 3 {
        Look::Trace
    } else {
        Look::Lines
    }
}

/// The number of a heading that is out of its range within these limits.
pub(crate) fn broken_heading(limits: Limits, heading: &Heading) -> Option<Broken> {
    broken_sizes(limits, heading).or(broken_counts(heading))
}

// Sizes with which any good one goes together.
const SMALLEST_REGION: u64 = 16;

const SMALLEST_CARD: u64 = 4;

fn are_sizes(limits: Limits, w: u64, k: u64, n: u64) -> bool {
    Geometry::within(limits, w, k, n).is_ok()
}

fn broken_sizes(limits: Limits, heading: &Heading) -> Option<Broken> {
    let (w, k, n) = (
        u64::from(heading.w),
        u64::from(heading.k),
        u64::from(heading.n),
    );
    if !are_sizes(limits, w, SMALLEST_CARD, 1) {
        return Some(Broken::RegionWords {
            words: heading.w,
            most: limits.region_words(),
        });
    }
    if !are_sizes(limits, limits.region_words(), k, 1) {
        return Some(Broken::CardWords(heading.k));
    }
    if !are_sizes(limits, w, k, 1) {
        return Some(Broken::CardBeyondRegion {
            card: heading.k,
            region: heading.w,
        });
    }
    if !are_sizes(limits, SMALLEST_REGION, SMALLEST_CARD, n) {
        return Some(Broken::Regions(heading.n));
    }
    if !are_sizes(limits, w, k, n) {
        return Some(Broken::Words {
            regions: heading.n,
            region_words: heading.w,
            words: w.saturating_mul(n),
            most: limits.words(),
        });
    }
    None
}

fn broken_counts(heading: &Heading) -> Option<Broken> {
    if heading.roots > MOST_ROOTS {
        return Some(Broken::Roots(heading.roots));
    }
    if heading.current > heading.n {
        return Some(Broken::Current {
            current: heading.current,
            regions: heading.n,
        });
    }
    None
}

// The bytes of the magic, and of the heading with it.
const MAGIC_BYTES: u64 = 8;

const HEADING_BYTES: u64 = 32;

/// The part of which bytes are missing.
pub(crate) fn broken_end(bytes: &[u8], parts: &TextParts<'_>) -> Broken {
    let count = bytes.len() as u64;
    match parts {
        TextParts::Front(front, rest, _) => short_words(front, rest.len() as u64, count),
        TextParts::Heading(version, heading, _) => short_front(*version, heading, count),
        _ => short_opening(count),
    }
}

fn short_opening(count: u64) -> Broken {
    if count == 0 {
        return Broken::Look(Look::Empty);
    }
    let (part, end) = if count < MAGIC_BYTES {
        (Part::Magic, MAGIC_BYTES)
    } else {
        (Part::Heading, HEADING_BYTES)
    };
    Broken::Short {
        part,
        end,
        bytes: count,
    }
}

fn short_front(version: Version, heading: &Heading, count: u64) -> Broken {
    let regions = u64::from(heading.n);
    let entries = match version {
        Version::One => 8 * regions,
        Version::Two => 12 * regions,
    };
    let table = HEADING_BYTES + entries;
    let roots = table + 8 * u64::from(heading.roots);
    let log = roots + 4 * u64::from(heading.dirty);
    let parts = [
        (Part::Table(heading.n), table),
        (Part::Roots(heading.roots), roots),
        (Part::Log(heading.dirty), log),
    ];
    for (part, end) in parts {
        if count < end {
            return Broken::Short {
                part,
                end,
                bytes: count,
            };
        }
    }
    Broken::ShortSets {
        begin: log,
        bytes: count,
    }
}

/// How many words the tops announce.
fn announced(table: &[Entry]) -> u64 {
    let mut sum = 0u64;
    for entry in table {
        sum = sum.saturating_add(u64::from(entry.top));
    }
    sum
}

// Where the words end that so many bytes, the last of all, follow or fall short of.
fn words_end(front: &Front, left: u64, count: u64) -> u64 {
    let begin = count.saturating_sub(left);
    begin.saturating_add(announced(&front.table).saturating_mul(8))
}

fn short_words(front: &Front, left: u64, count: u64) -> Broken {
    Broken::Short {
        part: Part::Words(announced(&front.table)),
        end: words_end(front, left, count),
        bytes: count,
    }
}

/// That bytes follow the last word.
pub(crate) fn broken_trail(bytes: &[u8], parts: &TextParts<'_>) -> Option<Broken> {
    let count = bytes.len() as u64;
    match parts {
        TextParts::Front(front, rest, _) => Some(Broken::Trailing {
            end: words_end(front, rest.len() as u64, count),
            bytes: count,
        }),
        _ => None,
    }
}
