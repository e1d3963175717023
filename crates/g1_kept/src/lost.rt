ghost use Rattle.std.specs.Prelude.{Some};
ghost use Rattle.g1_kept.specs.Wording.{lost_text};

use std::error::Error;
use std::fmt;

/// Where a heap doesn't keep what a pause keeps. An object is identified by its address before and,
/// where that differs, after.
#[derive(Debug, Clone, Copy, PartialEq, Eq)]
pub enum Lost {
    /// The heaps have other sizes.
    Sizes,
    /// The heaps have other numbers of roots.
    Roots,
    /// A region of the set that is not free after.
    Set(u32),
    /// A region outside the set with another kind or top.
    Region(u32),
    /// A region outside the set that was pinned and isn't.
    Unpinned(u32),
    /// A region outside the set that is pinned and wasn't.
    Pinned(u32),
    /// What references an object of the set before references one where no copy may be: in a region that was
    /// in use or, if copies may fill regions, below the old top of one.
    Copy { before: u64, after: u64 },
    /// An object with another size or number of slots.
    Header { before: u64, after: u64 },
    /// A data word that is another one.
    Data { before: u64, after: u64, word: u64 },
    /// A slot that led out of the set and has another word, or led into it and references no copy.
    Slot { before: u64, after: u64, slot: u64 },
    /// A root that references another object, or none.
    Root(u64),
}

impl fmt::Display for Lost {
    ghost output = { λ x. Some (lost_text x) };

    fn fmt<W: fmt::Write>(&self, f: &mut fmt::Formatter<W>) -> fmt::Result {
        match self {
            Lost::Sizes => write!(f, "sizes: the heaps have other regions"),
            Lost::Roots => write!(f, "roots: the heaps have other numbers of roots"),
            Lost::Set(region) => write!(f, "region {region}: in the set, and not free after"),
            Lost::Region(region) => {
                write!(
                    f,
                    "region {region}: outside the set, with another kind or top after"
                )
            }
            Lost::Unpinned(region) => {
                write!(
                    f,
                    "region {region}: outside the set, pinned before and not after"
                )
            }
            Lost::Pinned(region) => {
                write!(
                    f,
                    "region {region}: outside the set, pinned after and not before"
                )
            }
            Lost::Copy { before, after } => {
                write!(
                    f,
                    "object {before}: {after} after is in a region that was not free"
                )
            }
            Lost::Header { before, after } => {
                write!(
                    f,
                    "object {before}: {after} after has another size or number of slots"
                )
            }
            Lost::Data {
                before,
                after,
                word,
            } => {
                write!(
                    f,
                    "object {before}: data word {word} is another in {after} after"
                )
            }
            Lost::Slot {
                before,
                after,
                slot,
            } => {
                write!(
                    f,
                    "object {before}: slot {slot} in {after} after references another object, or none"
                )
            }
            Lost::Root(number) => write!(f, "root {number}: another object after, or none"),
        }
    }
}

impl Error for Lost {}
