/// What a search found.
#[derive(Drop)]
pub struct Found {
    /// The survivors, in the order in which they are found.
    pub survivors: Vec<u64>,
    /// What one worker saw that searched alone. None if several searched.
    pub seen: Option<Seen>,
}

/// What one worker sees that searches alone.
#[derive(Drop)]
pub struct Seen {
    /// The sizes of the survivors, in the same order.
    pub sizes: Vec<u32>,
    /// The slots outside the window that reference an object in it, by address, each with its word.
    pub leads: Vec<(u64, u64)>,
}
