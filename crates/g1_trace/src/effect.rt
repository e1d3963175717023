use crate::command::Reply;

/// What a command does to a store. A reference is 0 (null) or an object and 1.
#[derive(Clone, Copy)]
pub enum Effect {
    /// Nothing.
    Nothing,
    /// A root becomes the value.
    SetRoot { root: u64, value: u64 },
    /// A slot of an object becomes the value.
    SetSlot { object: u64, slot: u64, value: u64 },
    /// A data word of an object becomes the value.
    SetValue { object: u64, word: u64, value: u64 },
    /// A root references a new object.
    MakeNew { root: u64, refs: u64, words: u64 },
    /// A pause is made.
    MakePause { budget: u64 },
}

/// What a command replies and does if there is place.
#[derive(Clone, Copy)]
pub struct Answer {
    pub reply: Reply,
    pub effect: Effect,
}
