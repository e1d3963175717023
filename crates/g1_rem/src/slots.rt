ghost use Rattle.std.specs.Prelude.{◌≡◌, ◌≤◌, ◌<◌, ◌+◌, ◌-◌, ◌*◌, ◌++◌, List, length, filter, flat_map};
ghost use Rattle.std.specs.List.{range_with_len};
ghost use Rattle.smallvec.specs.SmallVec.{HasRoomFor};
ghost use Rattle.g1_words.specs.declared.object.Object.{Object};
ghost use Rattle.g1_words.specs.Geometry.{most_card_words, most_words};
ghost use Rattle.g1_words.specs.Heap.{slots};
ghost use Rattle.g1_words.specs.Valid.{Tiles};
ghost use Rattle.g1_words.specs.Walk.{Reaches};
ghost use Rattle.g1_rem.specs.Starts.{IsStartsOf, card_count};
ghost use Rattle.g1_rem.specs.Slots.{slots_on, is_between};

use crate::rows::row_end;
use crate::starts::Starts;
use g1_words::{Heap, Words, region_of};
use smallvec::SmallVec;
use std::alloc::Global;

/// A thread is worth starting for the slots on this many cards: to look at them takes about a
/// millisecond, and a thread takes tens of microseconds to start.
pub const SCANNED_CARDS_A_THREAD: usize = 4096;

/// Adds the numbers from one on and below another.
fn push_range(out: &mut SmallVec<u64, 64>, from: u64, to: u64)
    requires { HasRoomFor out.old (to - from) }
    ensures items { out.new.items ≡ out.old.items ++ range_with_len from (to - from) }
    ensures capacity { out.new.capacity ≡ out.old.capacity }
{
    for p in from..to {
        out.push_reserved(p);
    }
}

/// The slots between two addresses, of the objects that fill the words between two others.
fn slots_between(
    alloc: Global,
    words: &Words,
    from: u64,
    to: u64,
    lo: u64,
    hi: u64,
) -> SmallVec<u64, 64>
    requires filled { Reaches words.now.items from to }
    requires in_words { to ≤ length words.now.items }
    requires small { to ≤ most_words }
    requires few { hi ≤ lo + most_card_words }
    ensures items { (os : List Object) → Tiles words.now.items from os to → result.items ≡ filter (is_between lo hi) (flat_map slots os) }
    ensures capacity { result.capacity ≡ most_card_words }
{
    let mut out = SmallVec::new(alloc);
    let mut at = from;
    'objects: while at < to && at < hi {
        let object = words.header(at);
        let first = (at + 1).max(lo);
        let last = (at + 1 + object.refs).min(hi);
        push_range(&mut out, first, last);
        at += object.size;
    }
    out
}

/// The addresses of the reference slots that lie on a card themselves, rising, wherever their object
/// began. A card has at most 64 words, so the list never grows: it takes no memory.
///
/// # Examples
///
/// ```
/// use g1_rem::{Starts, slots_on};
/// use g1_testing::{image, pictures::humongous};
///
/// // The object at 0 has 20 slots.
/// let image = image(alloc, humongous())?;
/// let starts = Starts::build(alloc, image.heap())?;
/// let slots = slots_on(alloc, image.heap(), &starts, 4);
/// assert_eq!(rt; slots.as_slice(), [16, 17, 18, 19].as_slice());
/// let slots = slots_on(alloc, image.heap(), &starts, 5);
/// assert_eq!(rt; slots.as_slice(), [20].as_slice());
/// ```
pub fn slots_on(alloc: Global, heap: &Heap, starts: &Starts, card: u32) -> SmallVec<u64, 64>
    requires starts { IsStartsOf heap.now starts.now }
    requires card { card < card_count heap.now }
    ensures items { result.items ≡ slots_on heap.now card }
    ensures inline { result.capacity ≡ most_card_words }
{
    let geometry = heap.geometry();
    let lo = geometry.card_start(card);
    match starts.first(card) {
        None => SmallVec::new(alloc),
        Some(first) => {
            let at = u64::from(first);
            let number = region_of(&geometry, at);
            let end = row_end(heap, number as u32, at);
            slots_between(alloc, heap.words(), at, end, lo, lo + geometry.card_words())
        }
    }
}
