//! Which lines of a pause are wanted.

/// Which lines are wanted.
#[derive(Debug, Clone, Copy, PartialEq, Eq)]
pub enum Form {
    /// A line for each fact.
    Steps,
    /// A line for each survivor: its address before, its address after, and its words.
    Map,
}
