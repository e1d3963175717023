//! The cards that lead into a set, and which slots on them do.
ghost use Rattle.std.specs.Prelude.{◌≡◌, ◌<◌, ◌++◌, ℕ, false, map, filter, slice_index_or, string_bytes, All, OnOk, IfOk};
ghost use Rattle.std.specs.List.{list_any};
ghost use Rattle.g1_words.specs.Heap.{word, region_of};
ghost use Rattle.g1_words.specs.Lists.{has};
ghost use Rattle.g1_words.specs.References.{named};
ghost use Rattle.g1_text.specs.Lines.{line_text, further, text_of};
ghost use Rattle.g1_explain.specs.Cards.{number_words, entry_line, set_lines};

use crate::walkable::Walkable;
use g1_words::{Heap, Marks, region_of};
use std::alloc::{AllocError, Global};

/// Ends a line with these numbers, or with a dash if there are none.
pub(crate) fn push_numbers(text: &mut String, numbers: &[u32]) -> Result<(), AllocError>
    ensures { OnOk result (string_bytes text.new ≡ string_bytes text.old ++ further (number_words numbers.now)) }
{
    if numbers.is_empty() {
        return text.push_str(" -\n");
    }
    for number in numbers {
        write!(text, " {number}")?;
    }
    text.push_str("\n")
}

// Ends a line with these addresses, or with a dash if there are none.
fn push_addresses(text: &mut String, addresses: &[u64]) -> Result<(), AllocError>
    ensures { OnOk result (string_bytes text.new ≡ string_bytes text.old ++ further (number_words addresses.now)) }
{
    if addresses.is_empty() {
        return text.push_str(" -\n");
    }
    for address in addresses {
        write!(text, " {address}")?;
    }
    text.push_str("\n")
}

// Whether the slot at an address leads into a set of regions.
fn leads(heap: &Heap, set: &Marks, slot: u64) -> bool
    ensures { result ≡ list_any (λ a. slice_index_or set.now (region_of heap.now a) false) (named (word heap.now slot)) }
{
    match heap.words().at(slot).checked_sub(1) {
        Some(target) => set.has(region_of(&heap.geometry(), target) as usize),
        None => false,
    }
}

// Those of these slots that lead into a set of regions.
fn leading(alloc: Global, heap: &Heap, set: &Marks, slots: &[u64]) -> Result<Vec<u64>, AllocError>
    ensures { IfOk result (λ v. v.items ≡ filter (λ p. list_any (λ a. slice_index_or set.now (region_of heap.now a) false) (named (word heap.now p))) slots.now) }
{
    slots
        .iter()
        .copied()
        .filter(|slot| leads(heap, set, *slot))
        .collect(alloc)
}

/// The marks of some regions.
pub(crate) fn mark_regions(alloc: Global, heap: &Heap, set: &[u32]) -> Result<Marks, AllocError>
    ensures { All (λ r. r < heap.now.geometry.n) set.now → IfOk result (λ m. (r : ℕ) → slice_index_or m r false ≡ has set.now r) }
{
    let mut marks = Marks::none(alloc, heap.geometry().regions() as usize)?;
    marks.set_each(set);
    Ok(marks)
}

/// Adds a line for the set, and one for each card: its slots that lead into the set.
pub(crate) fn push_cards(
    alloc: Global,
    text: &mut String,
    walkable: &Walkable<'_>,
    set: &[u32],
    cards: &[u32],
) -> Result<(), AllocError>
    ensures { All (λ r. r < walkable.now.heap.geometry.n) set.now → OnOk result (string_bytes text.new ≡ string_bytes text.old ++ text_of (set_lines walkable.now.heap set.now cards.now)) }
{
    text.push_str("set")?;
    push_numbers(text, set)?;
    let marks = mark_regions(alloc, walkable.heap(), set)?;
    push_entries(alloc, text, walkable, &marks, cards)
}

// Adds a line for each card: its slots that lead into the set.
fn push_entries(
    alloc: Global,
    text: &mut String,
    walkable: &Walkable<'_>,
    set: &Marks,
    cards: &[u32],
) -> Result<(), AllocError>
    ensures { OnOk result (string_bytes text.new ≡ string_bytes text.old ++ text_of (map (entry_line walkable.now.heap (λ r. slice_index_or set.now r false)) cards.now)) }
{
    for card in cards {
        push_entry(alloc, text, walkable, set, *card)?;
    }
    Ok(())
}

// The line of a card: its slots that lead into the set.
fn push_entry(
    alloc: Global,
    text: &mut String,
    walkable: &Walkable<'_>,
    set: &Marks,
    card: u32,
) -> Result<(), AllocError>
    ensures { OnOk result (string_bytes text.new ≡ string_bytes text.old ++ line_text (entry_line walkable.now.heap (λ r. slice_index_or set.now r false) card)) }
{
    let slots = walkable.slots_on(alloc, card);
    let leading = leading(alloc, walkable.heap(), set, slots.as_slice())?;
    write!(text, "card {card} slots")?;
    push_addresses(text, &leading)
}
