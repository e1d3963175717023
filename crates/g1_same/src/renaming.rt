/// The objects that the roots of one heap reach, and the address of each in another heap.
#[derive(Drop)]
pub struct Renaming {
    /// Their addresses, in words, in breadth-first order: what the roots name, by number, then what
    /// the slots of each of these objects name, by number, and so on.
    pub before: Vec<u64>,
    /// At the same places their addresses in the other heap.
    pub after: Vec<u64>,
}
