use g1_kept::Lost;
use g1_same::{Difference, Ends, StaleEnd};
use g1_words::Fault;

/// What bytes are found to be.
#[derive(Drop)]
pub enum Verdict {
    /// What was asked of one image is so.
    Good,
    /// Two images show one graph, and the roots reach so much.
    Same { objects: u64, words: u64 },
    /// Two images differ.
    Differ { difference: Difference, ends: Ends },
    /// A word of the second image references no object, and nothing that a path leads to earlier differs.
    Stale(StaleEnd),
    /// The bytes of the first image or of the second are no image's text.
    NoImage { image: u32, fault: Fault },
    /// The lowest slot of an image that is not covered.
    Uncovered(u64),
    /// The second image doesn't keep this.
    Loss(Lost),
    /// The first region of a set that the first image doesn't allow.
    NoSet(u32),
    /// A request for memory was refused.
    Memory,
}
