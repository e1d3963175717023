//! Why a dump is not converted.
use g1_words::Limits;
use std::alloc::{AllocError, AllocFailed};
use std::error::Error;
use std::fmt;

/// Why there is no image of a dump.
#[derive(Debug, Drop)]
pub enum Refused {
    /// Memory ran out.
    Memory,
    /// The bytes are no dump's.
    Foreign,
    /// The bytes are those of a compressed file.
    Compressed,
    /// The bytes are a dump's of this version, which is not known.
    Version(String),
    /// The file ends within its first line.
    CutLine,
    /// Identifiers have so many bytes, which is neither 4 nor 8.
    IdBytes(u32),
    /// Something goes on behind this byte, where the record or the file ends that it is in.
    Cut {
        end: usize,
    },
    /// The end of the heap is not there.
    NoEnd,
    /// A part of the heap begins with this tag, which is not known.
    Tag {
        tag: u8,
        at: usize,
    },
    /// A value is of this type, which is not known.
    Type(u8),
    /// A class of an instance is not there.
    NoClassOf(u64),
    /// An instance has so many bytes of fields, and its class says another number.
    FieldBytes {
        found: u32,
        expected: u64,
    },
    /// Two objects have one identifier, or one has the identifier 0.
    Twice,
    /// A field was named of a class that is not there.
    NoClass {
        asked: String,
        owner: String,
    },
    /// A field was named of one of several classes of the same name.
    ManyClasses {
        asked: String,
        count: usize,
    },
    /// A field was named that its class doesn't have.
    NoField {
        asked: String,
    },
    /// A static field was named that is no reference.
    NoReference {
        asked: String,
    },
    /// What a thread holds was asked for.
    Thread {
        asked: String,
    },
    /// W, K and N are no sizes of a heap.
    Sizes,
    /// A reference leads to nothing.
    Dangling {
        path: String,
        id: u64,
    },
    /// There are more words than a heap has: so many, or at least so many.
    TooLarge {
        words: u64,
        is_whole: bool,
    },
    /// The objects fit into no heap.
    NoFit {
        words: u64,
    },
    /// The objects take more regions than there are.
    TooFew {
        words: u64,
        needed: u64,
        region_words: u64,
        regions: u64,
    },
    /// The image that was made is none: an error of this library.
    Contradiction,
}

/// The most words of an image's heap.
pub(crate) fn heap_limit() -> u64 {
    Limits::Wide.words()
}

impl Refused {
    /// The status with which a program ends.
    pub fn status(&self) -> u8 {
        match self {
            Refused::Memory => 6,
            Refused::NoClass { .. }
            | Refused::ManyClasses { .. }
            | Refused::NoField { .. }
            | Refused::NoReference { .. }
            | Refused::Thread { .. }
            | Refused::Sizes => 2,
            Refused::Dangling { .. } => 4,
            Refused::TooLarge { .. } | Refused::NoFit { .. } | Refused::TooFew { .. } => 5,
            Refused::Contradiction => 8,
            _ => 3,
        }
    }
}

impl Error for Refused {}

impl From<AllocError> for Refused {
    fn from(_error: AllocError) -> Refused {
        Refused::Memory
    }
}

impl<T: Drop> From<AllocFailed<T>> for Refused {
    fn from(_error: AllocFailed<T>) -> Refused {
        Refused::Memory
    }
}

impl fmt::Display for Refused {
    fn fmt<W: fmt::Write>(&self, f: &mut fmt::Formatter<W>) -> fmt::Result {
        match self {
            Refused::Memory => f.write_str("memory ran out"),
            Refused::Foreign => {
                f.write_str("not a heap dump: it does not begin with JAVA PROFILE 1.0.2")
            }
            Refused::Compressed => f.write_str("a compressed file: unpack it with gunzip first"),
            Refused::Version(version) => {
                write!(
                    f,
                    "version '{version}': only JAVA PROFILE 1.0.1 and 1.0.2 are known"
                )
            }
            Refused::CutLine => f.write_str("cut short: the file ends within its first line"),
            Refused::IdBytes(count) => {
                write!(f, "identifiers of {count} bytes: only 4 and 8 are known")
            }
            Refused::Cut { end } => write!(
                f,
                "cut short: a part goes on behind byte {end}, where its record or the file ends"
            ),
            Refused::NoEnd => {
                f.write_str("cut short: the file ends before the end of the heap dump")
            }
            Refused::Tag { tag, at } => write!(
                f,
                "a part of the heap has the unknown tag {tag:#04x}, at byte {at}"
            ),
            Refused::Type(kind) => write!(f, "a value has the unknown type {kind}"),
            Refused::NoClassOf(class) => {
                write!(f, "the class {class:#x} of an instance is not in the dump")
            }
            Refused::FieldBytes { found, expected } => write!(
                f,
                "an instance has {found} bytes of fields, and its class says {expected}"
            ),
            Refused::Twice => f.write_str(
                "two objects have the same identifier, or one has the identifier 0",
            ),
            _ => self.fmt_request(f),
        }
    }
}

impl Refused {
    // What is said of what was asked for, and of what does not fit.
    fn fmt_request<W: fmt::Write>(&self, f: &mut fmt::Formatter<W>) -> fmt::Result {
        match self {
            Refused::NoClass { asked, owner } => {
                write!(f, "{asked}: the dump has no class '{owner}'")
            }
            Refused::ManyClasses { asked, count } => write!(
                f,
                "{asked}: the dump has {count} classes of this name, of as many loaders"
            ),
            Refused::NoField { asked } => write!(f, "{asked}: its class has no such field"),
            Refused::NoReference { asked } => write!(f, "{asked}: this field is no reference"),
            Refused::Thread { asked } => write!(
                f,
                "{asked}: only tools/hprof2image.py converts what a thread holds"
            ),
            Refused::Sizes => {
                let (width, most) = (Limits::Wide.region_words(), heap_limit());
                write!(
                    f,
                    "W is a power of two from 16 to {width}, K one from 4 to 64 and at most W, N from 1 to 4096, and W*N at most {most}"
                )
            }
            Refused::Dangling { path, id } => write!(
                f,
                "{path} references {id:#x}, but the dump has no object there (--dangling-null takes it as null)"
            ),
            Refused::TooLarge { words, is_whole } => {
                let least = if *is_whole { "" } else { "at least " };
                let most = heap_limit();
                write!(
                    f,
                    "the objects take {least}{words} words, and a heap has at most {most}"
                )
            }
            Refused::NoFit { words } => write!(
                f,
                "the objects take {words} words, and do not fit into the regions of any heap"
            ),
            Refused::TooFew {
                words,
                needed,
                region_words,
                regions,
            } => write!(
                f,
                "the objects take {words} words, {needed} regions of {region_words}, and N is {regions}"
            ),
            _ => f.write_str("internal contradiction: what was made of the dump is no image"),
        }
    }
}
