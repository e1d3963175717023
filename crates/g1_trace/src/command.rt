/// One line of a trace after its first: what a mutator does. Roots, slots and data words are counted
/// from 0.
#[derive(Debug, Clone, Copy, PartialEq, Eq)]
pub enum Command {
    /// The root references a new object with this many null slots, and this many data words that
    /// are 0.
    New { root: u64, refs: u64, words: u64 },
    /// The root becomes a slot of the object that another root references.
    Get { root: u64, from: u64, slot: u64 },
    /// A slot of the root's object becomes what another root is.
    Put { root: u64, slot: u64, from: u64 },
    /// A data word of the root's object becomes the value.
    Set { root: u64, word: u64, value: u64 },
    /// Tells a data word of the root's object.
    Say { root: u64, word: u64 },
    /// Returns whether both roots name the same object, or none.
    Same { root: u64, other: u64 },
    /// The root becomes what another root is.
    Copy { root: u64, from: u64 },
    /// The root becomes null.
    Drop { root: u64 },
    /// A pause by a budget.
    Pause { budget: u64 },
}

/// What a command answers.
#[derive(Debug, Clone, Copy, PartialEq, Eq)]
pub enum Reply {
    /// It was done.
    Ok,
    /// There is no place for a new object, and nothing changed.
    Full,
    /// There is no such root, slot or data word.
    Range,
    /// The root is null.
    Null,
    /// A pause found no room for its survivors, and nothing changed.
    Room,
    /// What was asked for.
    Number(u64),
}
