//! A heap whose objects can be found from its cards.
ghost use Rattle.std.specs.Prelude.{◌≡◌, ◌<◌, Contains};
ghost use Rattle.g1_words.specs.Heap.{objects, card_of};
ghost use Rattle.g1_words.specs.Valid.{IsSlotOf};
ghost use Rattle.g1_image.specs.Image.{IsImage};
ghost use Rattle.g1_rem.specs.Slots.{slots_on};
ghost use Rattle.g1_explain.specs.Keeping.{IsReferring, ReachesHolder};

use g1_image::Image;
use g1_pause::Before;
use g1_rem::{Starts, slots_on};
use g1_words::{Heap, Object};
use smallvec::SmallVec;
use std::alloc::Global;
use std::marker::Model;

/// An image, and the starts of its heap.
#[derive(Drop)]
pub(crate) struct Walkable<'a> {
    pub(crate) image: &'a Image,
    pub(crate) starts: &'a Starts,
}

impl<'a> Model for Walkable<'a> {
    ghost use Rattle.g1_image.specs.Image.{Image as ImageOf};
    ghost use Rattle.g1_rem.specs.Starts.{IsStartsOf};

    ghost Value = { ImageOf };

    ghost view = { λ w. w.image.now };

    ghost invariant = { λ w. IsStartsOf w.image.now.heap w.starts.now };
}

impl<'a> Walkable<'a> {
    /// The image of a pause before it.
    pub(crate) fn of(before: &'a Before<'_>) -> Walkable<'a>
        ensures { result ≡ before.now }
    {
        Walkable {
            image: before.image(),
            starts: before.starts(),
        }
    }

    pub(crate) fn heap(&self) -> &'a Heap
        ensures same { result.now ≡ self.now.heap }
        ensures valid { IsImage self.now }
    {
        self.image.heap()
    }

    /// The addresses of the slots on a card, rising.
    pub(crate) fn slots_on(&self, alloc: Global, card: u32) -> SmallVec<u64, 64>
        ensures { result.items ≡ slots_on self.now.heap card }
    {
        let heap = self.image.heap();
        if u64::from(card) < heap.geometry().cards() {
            slots_on(alloc, heap, self.starts, card)
        } else {
            SmallVec::new(alloc)
        }
    }

    /// The object that holds a slot on a card: from the one over the card's first word, an object at a time.
    pub(crate) fn holder(&self, card: u32, slot: u64) -> Object
        requires card { card ≡ card_of self.now.heap slot }
        requires slot { IsReferring self.now.heap slot }
        ensures there { Contains (objects self.now.heap) result }
        ensures holds { IsSlotOf result slot }
    {
        let heap = self.image.heap();
        let Some(first) = self.starts.first(card) else {
            unreachable!()
        };
        holder_from(heap, u64::from(first), slot)
    }
}

// The object that holds a slot, from one on that stands in the same row.
fn holder_from(heap: &Heap, first: u64, slot: u64) -> Object
    requires { ReachesHolder heap.now first slot }
    ensures there { Contains (objects heap.now) result }
    ensures holds { IsSlotOf result slot }
{
    let words = heap.words();
    let mut object = words.header(first);
    'objects: while object.at + object.size <= slot {
        object = words.header(object.at + object.size);
    }
    object
}
