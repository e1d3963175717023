//! What lies on cards.
ghost use Rattle.std.specs.Prelude.{◌<◌, IsTrue};
ghost use Rattle.std.specs.List.Sorted.{IsStrictlyIncreasing};
ghost use Rattle.g1_rem.specs.Starts.{IsStartsOf, card_count};

use crate::calling::Call;
use crate::watch::Watch;
use g1_rem::{Starts, leads_into, slots_on};
use g1_words::Heap;
use std::alloc::AllocError;

/// Asks about each of the cards that are named and that the heap has.
pub(crate) fn run<R>(
    call: &Call<'_, R>,
    heap: &Heap,
    starts: &Starts,
    watch: &mut Watch,
) -> Result<(), AllocError>
    requires { IsStartsOf heap.now starts.now }
{
    for card in call.given.short_numbers(call.alloc, "cards")? {
        if u64::from(card) < heap.geometry().cards() {
            ask(call, heap, starts, card, watch);
        }
    }
    Ok(())
}

/// The object over the card's first word, the slots on the card, and whether one leads into the region.
fn ask<R>(call: &Call<'_, R>, heap: &Heap, starts: &Starts, card: u32, watch: &mut Watch)
    requires starts { IsStartsOf heap.now starts.now }
    requires card { card < card_count heap.now }
{
    watch.at("first");
    match starts.first(card) {
        Some(address) => watch.numbers(&[address]),
        None => watch.numbers::<u32>(&[]),
    }
    watch.at("slots_on");
    let slots = slots_on(call.alloc, heap, starts, card);
    watch.numbers(slots.as_slice());
    let region = u32::try_from(call.given.first("into", 0)).unwrap_or(u32::MAX);
    watch.at("leads_into");
    let leads = leads_into(call.alloc, heap, starts, region, card);
    watch.numbers(&[u8::from(leads)]);
}

/// Whether each number is above the one before it.
pub(crate) fn rises(set: &[u32]) -> bool
    ensures { IsTrue result → IsStrictlyIncreasing set.now }
{
    for i in 0..set.len() {
        if i > 0 && set[i - 1] >= set[i] {
            return false;
        }
    }
    true
}
