//! What finds each object: the first reference to it, in the order of the search.
ghost use Rattle.std.specs.Prelude.{◌≡◌, ◌≤◌, ◌⊎◌, ◌++◌, ℕ, List, flat_map, length, min, slice_index, string_bytes, OnOk, IfOk};
ghost use Rattle.std.specs.List.{range_with_len};
ghost use Rattle.g1_words.specs.Heap.{word};
ghost use Rattle.g1_text.specs.Lines.{line_text, text_of};
ghost use Rattle.g1_explain.specs.declared.finder.Finder.TheVariants.{Card};
ghost use Rattle.g1_explain.specs.Finders.{lead, root_leads, found_leads};
ghost use Rattle.g1_explain.specs.Searched.{AreObjects, AreMet, AreEnough, IsSearch, finder_at, is_next, met, card_leads, slots_leads};
ghost use Rattle.g1_explain.specs.Survivors.{survivor_line, survivor_lines};

use crate::finder::{Finder, push_found, push_object};
use crate::objects::slots_at;
use crate::walkable::Walkable;
use g1_words::Heap;
use std::alloc::{AllocError, Global};

/// Adds a line for each survivor: its numbers, and what finds it.
pub(crate) fn push_survivors(
    alloc: Global,
    text: &mut String,
    walkable: &Walkable<'_>,
    cards: &[u32],
    survivors: &[u64],
) -> Result<(), AllocError>
    ensures { (set : List ℕ) → IsSearch walkable.now.heap set cards.now survivors.now → OnOk result (string_bytes text.new ≡ string_bytes text.old ++ text_of (survivor_lines walkable.now.heap set survivors.now)) }
{
    let finders = finders(alloc, walkable, cards, survivors, survivors.len())?;
    push_finders(text, walkable.heap(), survivors, &finders)
}

fn push_finders(
    text: &mut String,
    heap: &Heap,
    survivors: &[u64],
    finders: &[Finder],
) -> Result<(), AllocError>
    ensures { OnOk result (string_bytes text.new ≡ string_bytes text.old ++ flat_map (λ j. line_text (survivor_line heap.now (record { finder = finder_at finders.now j; target = slice_index survivors.now j }))) (range_with_len 0 (min (length survivors.now) (length finders.now)))) }
{
    for index in 0..survivors.len().min(finders.len()) {
        push_survivor(text, heap, survivors[index], finders[index])?;
    }
    Ok(())
}

fn push_survivor(text: &mut String, heap: &Heap, at: u64, finder: Finder) -> Result<(), AllocError>
    ensures { OnOk result (string_bytes text.new ≡ string_bytes text.old ++ line_text (survivor_line heap.now (record { finder = finder; target = at }))) }
{
    push_object(text, "survivor", &heap.words().header(at))?;
    push_found(text, finder)?;
    Ok(())
}

/// The finders of the first ones of the objects at some addresses, which `discover` found from these cards, as
/// many as are wanted. There are fewer if the cards lead to others.
pub(crate) fn finders(
    alloc: Global,
    walkable: &Walkable<'_>,
    cards: &[u32],
    found: &[u64],
    wanted: usize,
) -> Result<Vec<Finder>, AllocError>
    ensures met { AreObjects walkable.now.heap found.now → IfOk result (λ v. AreMet walkable.now.heap cards.now found.now v.items) }
    ensures enough { AreObjects walkable.now.heap found.now → IfOk result (λ v. AreEnough walkable.now.heap cards.now found.now wanted v.items) }
{
    let heap = walkable.heap();
    let mut finders = Vec::with_capacity(alloc, wanted)?;
    meet_roots(heap, found, &mut finders)?;
    meet_cards(alloc, walkable, cards, found, &mut finders)?;
    meet_objects(heap, found, wanted, &mut finders)?;
    Ok(finders)
}

// A reference word, where it is the first one to an object: that object is the next.
fn meet(
    found: &[u64],
    finders: &mut Vec<Finder>,
    word: u64,
    finder: Finder,
) -> Result<(), AllocError>
    ensures { OnOk result (finders.new.items ≡ met found.now finders.old.items (lead finder word)) }
{
    if let Some(target) = word.checked_sub(1) {
        if is_next(found, finders.len(), target) {
            finders.push(finder)?;
        }
    }
    Ok(())
}

// Whether the object at an address is the next one, of which so many were found.
fn is_next(found: &[u64], count: usize, target: u64) -> bool
    ensures { result ≡ is_next found.now count target }
{
    count < found.len() && found[count] == target
}

fn meet_roots(heap: &Heap, found: &[u64], finders: &mut Vec<Finder>) -> Result<(), AllocError>
    ensures { OnOk result (finders.new.items ≡ met found.now finders.old.items (root_leads heap.now)) }
{
    let roots = heap.roots();
    for (number, word) in roots.iter().enumerate() {
        meet(found, finders, *word, Finder::Root { number })?;
    }
    Ok(())
}

fn meet_cards(
    alloc: Global,
    walkable: &Walkable<'_>,
    cards: &[u32],
    found: &[u64],
    finders: &mut Vec<Finder>,
) -> Result<(), AllocError>
    ensures { OnOk result (finders.new.items ≡ met found.now finders.old.items (card_leads walkable.now.heap cards.now)) }
{
    for card in cards {
        let slots = walkable.slots_on(alloc, *card);
        meet_card(walkable.heap(), *card, slots.as_slice(), found, finders)?;
    }
    Ok(())
}

fn meet_card(
    heap: &Heap,
    card: u32,
    slots: &[u64],
    found: &[u64],
    finders: &mut Vec<Finder>,
) -> Result<(), AllocError>
    ensures { OnOk result (finders.new.items ≡ met found.now finders.old.items (flat_map (λ p. lead (Card card p) (word heap.now p)) slots.now)) }
{
    for slot in slots {
        let finder = Finder::Card { card, slot: *slot };
        meet(found, finders, heap.words().at(*slot), finder)?;
    }
    Ok(())
}

// The slots of the objects, one after the other, until as many finders are there as are wanted.
fn meet_objects(
    heap: &Heap,
    found: &[u64],
    wanted: usize,
    finders: &mut Vec<Finder>,
) -> Result<(), AllocError>
    ensures { AreObjects heap.now found.now → OnOk result ((m : ℕ) × (m ≤ length found.now) × ((m ≡ length found.now) ⊎ (wanted ≤ length finders.new.items)) × (finders.new.items ≡ met found.now finders.old.items (found_leads heap.now found.now m))) }
{
    let mut index = 0;
    'objects: while index < found.len() && finders.len() < wanted {
        let at = found[index];
        meet_slots(index, at, slots_at(heap, at), found, finders)?;
        index += 1;
    }
    Ok(())
}

fn meet_slots(
    index: usize,
    at: u64,
    slots: &[u64],
    found: &[u64],
    finders: &mut Vec<Finder>,
) -> Result<(), AllocError>
    ensures { OnOk result (finders.new.items ≡ met found.now finders.old.items (slots_leads index at slots.now)) }
{
    for (slot, word) in slots.iter().enumerate() {
        meet(found, finders, *word, Finder::Object { index, at, slot })?;
    }
    Ok(())
}
