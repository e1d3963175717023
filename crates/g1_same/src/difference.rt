/// How two words that one path leads to disagree. Of several ways the first one in this order is
/// reported. Addresses count words.
#[derive(Debug, Clone, Copy, PartialEq, Eq, Drop)]
pub enum How {
    /// The word before is null, the one after isn't.
    NullBefore,
    /// The word after is null, the one before isn't.
    NullAfter,
    /// One object before is two after: a path that comes before leads to `object` before and to
    /// `first` after, this one to `object` and to `second`.
    Split {
        object: u64,
        first: u64,
        second: u64,
    },
    /// Two objects before are one after: a path that comes before leads to `first` before and to
    /// `object` after, this one to `second` and to `object`.
    Joined {
        first: u64,
        second: u64,
        object: u64,
    },
    /// The objects have these sizes, in words, the header included.
    Size {
        before: u64,
        after: u64,
    },
    /// The objects have this many slots.
    Slots {
        before: u64,
        after: u64,
    },
    /// The objects' data words of this number, from 0, are not equal.
    Data {
        word: u64,
    },
}

/// The first place where two heaps differ, for whoever reads from the roots.
#[derive(Drop)]
pub enum Difference {
    /// The heaps have this many roots.
    Roots {
        before: u64,
        after: u64,
    },
    /// A root and then slots, by number from 0, lead to words that disagree. No shorter path does, and
    /// none of this length with a lower number where the two first differ.
    At {
        root: u64,
        slots: Vec<u64>,
        how: How,
    },
}
