/// What a call found, as numbers. `specs/Answered.antt` has the number of everything.
#[repr(C)]
#[derive(Clone, Copy, Drop)]
pub struct Answer {
    /// The image that the fault is of: 1 the first, 2 the second, 0 neither.
    pub image: u32,
    /// The number of the fault, or 0.
    pub fault: u32,
    /// What the fault says `at` is: 1 a region, 2 a root, 3 a slot by its address, 4 a place of the log,
    /// 0 nothing.
    pub place: u32,
    /// How two images differ: 1 roots, 2 null before, 3 null after, 4 split, 5 joined, 6 size, 7 slots,
    /// 8 data. What the second does not keep: 9 sizes, 10 roots, 11 a region of the set that is not free,
    /// 12 a region outside it, 13 a pin, 14 no pin, 15 a root, 16 a copy's place, 17 a header, 18 a data
    /// word, 19 a slot. 20 a word of the second image that references no object. 0 nothing.
    pub kind: u32,
    pub at: u64,
    /// The root that the path to the difference begins at, and how many slots follow it.
    pub root: u64,
    pub slots: u64,
    /// The reference words that the path leads to; `after` may be one that references no object.
    pub before: u64,
    pub after: u64,
    /// The numbers of the difference or of the loss, in the order in which its kind has them.
    pub first: u64,
    pub second: u64,
    pub third: u64,
    /// How much the roots reach where two images show one graph.
    pub objects: u64,
    pub words: u64,
}
