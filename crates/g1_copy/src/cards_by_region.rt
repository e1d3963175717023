ghost use Rattle.std.specs.Prelude.{◌≡◌, ◌<◌, ◌≤◌, ◌*◌, ◌++◌, ◌∷◌, [], ℕ, Bool, List, true, map, replicate, length, All, OnOk, IfOk, IfErr};
ghost use Rattle.std.specs.List.Sorted.{IsStrictlyIncreasing};
ghost use Rattle.g1_copy.specs.Links.{cards_by_region};

use g1_rem::{no_cards, push_once};
use g1_words::{Heap, card_of, region_of};
use std::alloc::{AllocError, Global};

/// Adds a slot's card to the list of the region that its word leads into, if that is another one.
/// If the lists are those of slots that don't lie above it, it goes to a list's end.
pub(crate) fn add_slot(
    heap: &Heap,
    slot: u64,
    word: u64,
    lists: &mut [Vec<u32>],
) -> Result<(), AllocError>
    requires inside { slot < heap.now.geometry.n * heap.now.geometry.w }
    requires some { 0 < word }
    requires within { word ≤ heap.now.geometry.n * heap.now.geometry.w }
    requires one_each { length lists.old ≡ heap.now.geometry.n }
    ensures { OnOk result ((before : List (ℕ × ℕ)) → All (λ x. x.0 ≤ slot) before → map (λ s. s.items) lists.old ≡ cards_by_region heap.now before → map (λ s. s.items) lists.new ≡ cards_by_region heap.now (before ++ (slot, word) ∷ [])) }
{
    let geometry = heap.geometry();
    let region = region_of(&geometry, word - 1);
    if region == region_of(&geometry, slot) {
        return Ok(());
    }
    push_once(&mut lists[region as usize], card_of(&geometry, slot) as u32)
}

/// Adds the cards of the slots to the lists of the regions that they lead into.
fn add_slots(heap: &Heap, slots: &[(u64, u64)], lists: &mut [Vec<u32>]) -> Result<(), AllocError>
    requires rising { IsStrictlyIncreasing (map (λ x. x.0) slots.now) }
    requires there { All (λ x. (x.0 < heap.now.geometry.n * heap.now.geometry.w) × (0 < x.1) × (x.1 ≤ heap.now.geometry.n * heap.now.geometry.w)) slots.now }
    requires none { map (λ s. s.items) lists.old ≡ replicate heap.now.geometry.n [] }
    ensures { OnOk result (map (λ s. s.items) lists.new ≡ cards_by_region heap.now slots.now) }
{
    for slot in slots {
        add_slot(heap, slot.0, slot.1, lists)?;
    }
    Ok(())
}

/// For each region the cards, rising, of those slots that lead into it from another region. The slots
/// come with their words, by rising address, and none of them is null. Linear in the slots and the
/// regions.
pub(crate) fn cards_by_region(
    alloc: Global,
    heap: &Heap,
    slots: &[(u64, u64)],
) -> Result<Vec<Vec<u32>>, AllocError>
    requires rising { IsStrictlyIncreasing (map (λ x. x.0) slots.now) }
    requires there { All (λ x. (x.0 < heap.now.geometry.n * heap.now.geometry.w) × (0 < x.1) × (x.1 ≤ heap.now.geometry.n * heap.now.geometry.w)) slots.now }
    ensures { IfOk result (λ v. map (λ s. s.items) v.items ≡ cards_by_region heap.now slots.now) }
{
    let mut lists = no_cards(alloc, heap.geometry().regions())?;
    add_slots(heap, slots, &mut lists)?;
    Ok(lists)
}
