//! Stale words: roots and slots that are not null and reference no object.
ghost use Rattle.std.specs.Prelude.{◌≡◌, ◌≤◌, ◌<◌, ◌+◌, ◌*◌, ℕ, All, length, slice_index, IfOk, OnOk};
ghost use Rattle.g1_words.specs.Heap.{region, start};
ghost use Rattle.g1_words.specs.Valid.{IsValid, MayBePinned};
ghost use Rattle.g1_image.specs.Draft.{ShapedBelow};
ghost use Rattle.g1_image.specs.Marks.{StartsAre};
ghost use Rattle.g1_image.specs.Checks.{AreShapedStarts};
ghost use Rattle.g1_image.specs.Stale.{IsStaleRoot, IsStaleSlot, IsPut, Lists, nulled, without};

use crate::draft::Draft;
use crate::refs::is_reference;
use g1_words::{Heap, Marks, Words};
use std::alloc::{AllocError, Global};

/// The words of an image file that should be null or reference an object, and do neither.
#[derive(Drop)]
pub struct Stale {
    /// The number and the word of each stale root, rising.
    pub roots: Vec<(u64, u64)>,
    /// The address and the word of each stale slot, rising.
    pub slots: Vec<(u64, u64)>,
}

/// Puts a word and its place behind those that were found, if it is stale.
fn put_stale(
    draft: &Draft,
    marks: &Marks,
    at: u64,
    word: u64,
    found: &mut Vec<(u64, u64)>,
) -> Result<(), AllocError>
    requires { StartsAre draft.now marks.now }
    ensures { OnOk result (IsPut draft.now at word found.old.items found.new.items) }
{
    if !is_reference(draft, marks, word) {
        found.push((at, word))?;
    }
    Ok(())
}

fn stale_roots(alloc: Global, draft: &Draft, marks: &Marks) -> Result<Vec<(u64, u64)>, AllocError>
    requires { StartsAre draft.now marks.now }
    ensures { IfOk result (λ v. Lists (IsStaleRoot draft.now) v.items) }
{
    let mut found = Vec::new(alloc);
    for (i, x) in draft.roots().iter().enumerate() {
        put_stale(draft, marks, i as u64, *x, &mut found)?;
    }
    Ok(found)
}

fn stale_slots(alloc: Global, draft: &Draft, marks: &Marks) -> Result<Vec<(u64, u64)>, AllocError>
    requires { AreShapedStarts draft.now marks.now }
    ensures { IfOk result (λ v. Lists (IsStaleSlot draft.now) v.items) }
{
    let words = draft.words();
    let mut found = Vec::new(alloc);
    // The address after the last slot of the last object that started.
    let mut slots_end = 0;
    for at in 0..words.len() {
        if at < slots_end {
            put_stale(draft, marks, at as u64, words.at(at as u64), &mut found)?;
        } else if marks.is_set(at) {
            slots_end = at + 1 + words.header(at as u64).refs as usize;
        }
    }
    Ok(found)
}

/// The stale words of a heap whose objects are marked.
pub(crate) fn stale_words(alloc: Global, draft: &Draft, marks: &Marks) -> Result<Stale, AllocError>
    requires { AreShapedStarts draft.now marks.now }
    ensures roots { IfOk result (λ s. Lists (IsStaleRoot draft.now) s.roots.items) }
    ensures slots { IfOk result (λ s. Lists (IsStaleSlot draft.now) s.slots.items) }
{
    let roots = stale_roots(alloc, draft, marks)?;
    let slots = stale_slots(alloc, draft, marks)?;
    Ok(Stale { roots, slots })
}

/// The words, with null at each of these places.
fn with_nulls(words: Vec<u64>, found: &[(u64, u64)]) -> Vec<u64>
    requires { All (λ e. e.0 < length words.items) found.now }
    ensures { result.items ≡ nulled found.now words.items }
{
    let mut nulled = words;
    for stale in found {
        nulled[stale.0 as usize] = 0;
    }
    nulled
}

/// The words of a heap, with null at each of these addresses.
fn words_without(words: Words, found: &[(u64, u64)]) -> Words
    requires { All (λ e. e.0 < length words.items) found.now }
    ensures items { result.items ≡ nulled found.now words.items }
    ensures laid { words.laid ≤ result.laid }
{
    let mut nulled = words;
    for stale in found {
        nulled.set(stale.0, 0);
    }
    nulled
}

/// The heap of a draft whose stale words these are, with null in each of them.
pub(crate) fn heap_without(draft: Draft, stale: &Stale) -> Heap
    requires shaped { ShapedBelow draft draft.geometry.n }
    requires pins { (r : ℕ) → r < draft.geometry.n → MayBePinned draft r }
    requires zeros { (r i : ℕ) → r < draft.geometry.n → (region draft r).top ≤ i → i < draft.geometry.w → slice_index draft.words (start draft r + i) ≡ 0 }
    requires roots { Lists (IsStaleRoot draft) stale.now.roots.items }
    requires slots { Lists (IsStaleSlot draft) stale.now.slots.items }
    ensures same { result ≡ without draft stale.now.roots.items stale.now.slots.items }
    ensures valid { IsValid result }
{
    let Draft {
        geometry,
        words,
        regions,
        roots,
        current,
    } = draft;
    Heap {
        geometry,
        words: words_without(words, &stale.slots),
        regions,
        roots: with_nulls(roots, &stale.roots),
        current,
    }
}
