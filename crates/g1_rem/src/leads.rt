ghost use Rattle.std.specs.Prelude.{◌≡◌, ◌<◌, length, slice_index, Contains, ℕ};
ghost use Rattle.g1_words.specs.Valid.{IsReference};
ghost use Rattle.g1_image.specs.Cards.{is_exact};
ghost use Rattle.g1_rem.specs.Entering.{enters};
ghost use Rattle.g1_rem.specs.Leads.{IsLedInto};
ghost use Rattle.g1_rem.specs.Starts.{IsStartsOf, card_count};

use crate::slots::slots_on;
use crate::starts::Starts;
use g1_words::{Heap, region_of};
use std::alloc::Global;

/// The region, other than its own, that a slot leads into.
pub(crate) fn led_into(heap: &Heap, p: u64) -> Option<u32>
    requires slot { p < length heap.now.words }
    requires reference { IsReference heap.now (slice_index heap.now.words p) }
    ensures { IsLedInto heap.now p result }
{
    let word = heap.words().at(p);
    if word == 0 {
        return None;
    }
    let geometry = heap.geometry();
    let target = region_of(&geometry, word - 1);
    if region_of(&geometry, p) == target {
        return None;
    }
    Some(target as u32)
}

/// Whether one of the slots leads into the region from another one.
fn one_leads(heap: &Heap, slots: &[u64], region: u32) -> bool
    requires { (p : ℕ) → Contains slots.now p → (p < length heap.now.words) × IsReference heap.now (slice_index heap.now.words p) }
    ensures { result ≡ enters heap.now region slots.now }
{
    for p in slots {
        if let Some(target) = led_into(heap, *p) {
            if target == region {
                return true;
            }
        }
    }
    false
}

/// Whether a slot on the card, of another region, references an object in the region. Linear in the
/// slots on the card, and takes no memory.
///
/// # Examples
///
/// ```
/// use g1_rem::{Starts, leads_into};
/// use g1_testing::{image, pictures::humongous};
///
/// // The slot at 17 references the object at 48.
/// let image = image(alloc, humongous())?;
/// let starts = Starts::build(alloc, image.heap())?;
/// assert!(rt; leads_into(alloc, image.heap(), &starts, 3, 4));
/// assert!(rt; !leads_into(alloc, image.heap(), &starts, 3, 5));
/// ```
pub fn leads_into(alloc: Global, heap: &Heap, starts: &Starts, region: u32, card: u32) -> bool
    requires starts { IsStartsOf heap.now starts.now }
    requires card { card < card_count heap.now }
    ensures { result ≡ is_exact heap.now region card }
{
    g1_words::laws::valid(heap);
    let slots = slots_on(alloc, heap, starts, card);
    one_leads(heap, slots.as_slice(), region)
}
