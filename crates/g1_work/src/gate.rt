/// The part of the work that is reported to a gate.
#[derive(Clone, Copy, Debug, PartialEq, Eq)]
pub enum Part {
    /// Chunks that workers draw, by their numbers.
    Deal,
    /// Runs of regions that workers fill, by their numbers.
    Fill,
}

/// A watcher for tests. Each piece of work is reported to it before it is done, by the thread that
/// does it, and changes no answer.
pub trait Gate {
    /// Hears that the piece of this number is done next.
    fn at(&self, part: Part, number: u64);
}

/// The gate that does nothing.
#[derive(Clone, Copy)]
pub struct Open;

impl Gate for Open {
    fn at(&self, _part: Part, _number: u64) {}
}
