//! What finds an object.
ghost use Rattle.std.specs.Prelude.{◌≡◌, ◌++◌, ◌∷◌, decimal, codes, string_bytes, OnOk};
ghost use Rattle.g1_text.specs.Lines.{further};
ghost use Rattle.g1_explain.specs.Lines.{finder_words};

use g1_words::Object;
use std::alloc::AllocError;

/// A reference that leads to an object.
#[derive(Clone, Copy)]
pub(crate) enum Finder {
    /// The root of this number.
    Root { number: usize },
    /// The slot at this address, on this card.
    Card { card: u32, slot: u64 },
    /// The slot of this number of the object at an address, which has this index in the list of those that
    /// were found.
    Object { index: usize, at: u64, slot: usize },
}

/// Adds a word and the numbers of an object.
pub(crate) fn push_object(text: &mut String, word: &str, object: &Object) -> Result<(), AllocError>
    ensures { OnOk result (string_bytes text.new ≡ string_bytes text.old ++ (word.now ++ 32 ∷ (decimal object.now.at ++ 32 ∷ (decimal object.now.size ++ 47 ∷ decimal object.now.refs)))) }
{
    let Object { at, size, refs } = *object;
    write!(text, "{word} {at} {size}/{refs}")
}

/// Ends a line with what finds its object.
pub(crate) fn push_found(text: &mut String, finder: Finder) -> Result<(), AllocError>
    ensures { OnOk result (string_bytes text.new ≡ string_bytes text.old ++ further (codes "by" ∷ finder_words finder)) }
{
    match finder {
        Finder::Root { number } => writeln!(text, " by root {number}"),
        Finder::Card { card, slot } => writeln!(text, " by card {card} slot {slot}"),
        Finder::Object { at, slot, .. } => writeln!(text, " by object {at} slot {slot}"),
    }
}
