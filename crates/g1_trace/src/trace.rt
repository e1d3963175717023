use crate::command::Command;

/// A trace: the four numbers of its first line, and the commands of the others.
#[derive(Debug, Drop)]
pub struct Trace {
    /// Words a region.
    pub w: u64,
    /// Words a card.
    pub k: u64,
    /// Regions.
    pub n: u64,
    /// Roots.
    pub roots: u64,
    /// What the mutator does, line by line.
    pub commands: Vec<Command>,
}
