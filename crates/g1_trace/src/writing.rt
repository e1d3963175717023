ghost use Rattle.std.specs.Prelude.{◌≡◌, ◌≢◌, ◌<◌, ◌-◌, ◌/◌, ◌↔◌, IsTrue, length, slice_set, IfErr, OnOk, OnErr};
ghost use Rattle.g1_words.specs.Geometry.{most_words};
ghost use Rattle.g1_image.specs.Cards.{IsTracked};
ghost use Rattle.g1_trace.specs.Mutator.{log_with, logged, with_roots, with_words};

use g1_rem::Tracked;
use g1_words::{Fault, Geometry, card_of, region_of};
use indexmap::IndexSet;

/// Writes a root.
pub(crate) fn set_root(tracked: &mut Tracked, root: u64, value: u64)
    requires root { root < length tracked.old.heap.roots }
    requires kept { IsTracked (with_roots tracked.old (slice_set tracked.old.heap.roots root value)) }
    ensures { tracked.new ≡ with_roots tracked.old (slice_set tracked.old.heap.roots root value) }
{
    tracked.image.heap.roots[root as usize] = value;
}

/// Writes a data word.
pub(crate) fn set_value(tracked: &mut Tracked, at: u64, value: u64)
    requires at { at < length tracked.old.heap.words }
    requires kept { IsTracked (with_words tracked.old (slice_set tracked.old.heap.words at value) tracked.old.log) }
    ensures { tracked.new ≡ with_words tracked.old (slice_set tracked.old.heap.words at value) tracked.old.log }
{
    tracked.image.heap.words.set(at, value);
}

/// Returns whether a reference word that is written at an address references an object of another
/// region.
fn crosses(geometry: &Geometry, at: u64, value: u64) -> bool
    ensures { IsTrue result ↔ (0 < value) × (at / geometry.now.w ≢ (value - 1) / geometry.now.w) }
{
    value > 0 && region_of(geometry, at) != region_of(geometry, value - 1)
}

/// The log after a slot is written: with the slot's card, if the value references an object of
/// another region.
///
/// # Errors
///
/// `Fault::Memory` if the log can't grow, with the log as it was.
fn log_slot(log: &mut IndexSet<u32>, geometry: &Geometry, at: u64, value: u64) -> Result<(), Fault>
    requires { at < most_words }
    ensures ok { OnOk result (log.new.keys ≡ log_with geometry.now log.old.keys at value) }
    ensures same { OnErr result (log.new.keys ≡ log.old.keys) }
    ensures memory { IfErr result (λ e. e ≡ Fault.Memory) }
{
    if crosses(geometry, at, value) {
        log.insert_full(card_of(geometry, at) as u32)?;
    }
    Ok(())
}

/// Writes a slot by the write barrier: its card is logged first, if the value references an object
/// of another region and the card isn't logged yet.
///
/// # Errors
///
/// `Fault::Memory` if the log can't grow, with the image as it was.
pub(crate) fn set_slot(tracked: &mut Tracked, at: u64, value: u64) -> Result<(), Fault>
    requires at { at < length tracked.old.heap.words }
    requires small { at < most_words }
    requires kept { IsTracked (with_words tracked.old (slice_set tracked.old.heap.words at value) (logged tracked.old at value)) }
    ensures ok { OnOk result (tracked.new ≡ with_words tracked.old (slice_set tracked.old.heap.words at value) (logged tracked.old at value)) }
    ensures same { OnErr result (tracked.new ≡ tracked.old) }
    ensures memory { IfErr result (λ e. e ≡ Fault.Memory) }
{
    let image = &mut tracked.image;
    log_slot(&mut image.log, &image.heap.geometry, at, value)?;
    image.heap.words.set(at, value);
    Ok(())
}
