ghost use Rattle.std.specs.Prelude.{◌≡◌, ◌≤◌, ◌<◌, ◌+◌, ◌*◌, ◌^◌, ℕ, List, length, slice_index, IsTrue, ◌↔◌, OnOk, IfErr, IfSome, IfNone};
ghost use Rattle.g1_words.specs.Valid.{IsReference};
ghost use Rattle.g1_image.specs.Marks.{StartsAre};
ghost use Rattle.g1_image.specs.Faults.{IsFirstBreach, IsGoodRoot, RootsAreGood};

use crate::draft::Draft;
use g1_words::{Fault, Marks, Object, Place, Words};

/// Returns whether a word is null or references an object.
pub(crate) fn is_reference(draft: &Draft, marks: &Marks, x: u64) -> bool
    requires { StartsAre draft.now marks.now }
    ensures { IsTrue result ↔ IsReference draft.now x }
{
    if x == 0 {
        return true;
    }
    if x > marks.len() as u64 {
        return false;
    }
    marks.is_set((x - 1) as usize)
}

/// Refuses the first root that references no object.
pub(crate) fn check_roots(draft: &Draft, marks: &Marks) -> Result<(), Fault>
    requires { StartsAre draft.now marks.now }
    ensures ok { OnOk result (RootsAreGood draft.now) }
    ensures err { IfErr result (λ e. (i : ℕ) × (e ≡ Fault.Reference (Place.Root i)) × IsFirstBreach (IsGoodRoot draft.now) (length draft.now.roots) i) }
{
    for (i, x) in draft.roots().iter().enumerate() {
        if !is_reference(draft, marks, *x) {
            return Err(Fault::Reference(Place::Root(i as u32)));
        }
    }
    Ok(())
}

/// Returns the first of an object's slots that references no object.
pub(crate) fn first_stray(
    draft: &Draft,
    marks: &Marks,
    words: &Words,
    object: &Object,
) -> Option<usize>
    requires marked { StartsAre draft.now marks.now }
    requires small { object.now.at + object.now.refs < 2 ^ 32 }
    ensures found { IfSome result (λ i. IsFirstBreach (λ i. IsReference draft.now (slice_index words.now.items (object.now.at + 1 + i))) object.now.refs i) }
    ensures none { IfNone result ((i : ℕ) → i < object.now.refs → IsReference draft.now (slice_index words.now.items (object.now.at + 1 + i))) }
{
    let first = object.at + 1;
    for i in 0..object.refs {
        if !is_reference(draft, marks, words.at(first + i)) {
            return Some(i as usize);
        }
    }
    None
}
