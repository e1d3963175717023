//! What stands where the path to a difference ends.
ghost use Rattle.std.specs.Prelude.{◌≡◌, ◌∷◌, ℕ, List};
ghost use Rattle.g1_same.specs.Path.{LeadsTo};
ghost use Rattle.g1_same.specs.Same.{IsClash, IsDifference};
ghost use Rattle.g1_same.specs.Ends.{AreEnds, AreValues, AreFoundValues, HasDataWord, data_word};
ghost use Rattle.g1_same.specs.Behind.{ShowsAt};

use crate::difference::{Difference, How};
use crate::pair::Pair;
use crate::walk::{Found, Place, What};
use g1_words::Heap;

/// The words that a path leads to in two heaps, null if there is no path.
#[derive(Debug, Clone, Copy, PartialEq, Eq, Drop)]
pub struct Ends {
    /// The reference word before.
    pub before: u64,
    /// The reference word after.
    pub after: u64,
    /// Of two data words that differ the one before, else 0.
    pub word_before: u64,
    /// Of two data words that differ the one after, else 0.
    pub word_after: u64,
}

// The reference word that a path leads to.
fn follow(heap: &Heap, root: u64, slots: &[u64]) -> u64
    requires { (y : ℕ) × LeadsTo heap.now (root ∷ slots.now) y }
    ensures { LeadsTo heap.now (root ∷ slots.now) result }
{
    let words = heap.words();
    let mut reference = heap.roots()[root as usize];
    for slot in slots {
        reference = words.at(reference + *slot);
    }
    reference
}

// The data word of this number of the object that a reference names.
fn value(heap: &Heap, reference: u64, number: u64) -> u64
    requires { HasDataWord heap.now reference number }
    ensures { result ≡ data_word heap.now reference number }
{
    let words = heap.words();
    let object = words.header(reference - 1);
    words.at(reference + object.refs + number)
}

// The values of two data words that differ.
fn values(heaps: Pair<'_>, how: &How, old: u64, new: u64) -> (u64, u64)
    requires { (p : List ℕ) × LeadsTo heaps.before.now p old × LeadsTo heaps.after.now p new × IsClash heaps.before.now heaps.after.now p how.now old new }
    ensures { AreValues heaps.entry.before.now heaps.entry.after.now how.now old new result.0 result.1 }
{
    match how {
        How::Data { word } => (
            value(heaps.before, old, *word),
            value(heaps.after, new, *word),
        ),
        _ => (0, 0),
    }
}

/// What stands at a difference that a walk over two heaps returned.
pub fn ends_at(before: &Heap, after: &Heap, found: &Found) -> Ends
    requires { (p : List ℕ) × ShowsAt before.now after.now p found.now }
    ensures words { (result.before ≡ found.now.place.before) × (result.after ≡ found.now.place.after) }
    ensures values { AreFoundValues before.now after.now found.now.what result }
{
    let heaps = Pair::new(before, after);
    let Place {
        before: old,
        after: new,
        ..
    } = found.place;
    let (word_before, word_after) = match &found.what {
        What::Stale(_) => (0, 0),
        What::How(how) => values(heaps, how, old, new),
    };
    Ends {
        before: old,
        after: new,
        word_before,
        word_after,
    }
}

/// What stands where the path to a difference of two heaps ends.
pub fn ends_of(before: &Heap, after: &Heap, difference: &Difference) -> Ends
    requires { IsDifference before.now after.now difference.now }
    ensures { AreEnds before.now after.now difference.now result }
{
    match difference {
        Difference::Roots { .. } => Ends {
            before: 0,
            after: 0,
            word_before: 0,
            word_after: 0,
        },
        Difference::At { root, slots, how } => {
            let heaps = Pair::new(before, after);
            let old = follow(heaps.before, *root, slots.as_slice());
            let new = follow(heaps.after, *root, slots.as_slice());
            let (word_before, word_after) = values(heaps, how, old, new);
            Ends {
                before: old,
                after: new,
                word_before,
                word_after,
            }
        }
    }
}
