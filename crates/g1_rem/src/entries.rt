ghost use Rattle.std.specs.Prelude.{◌≡◌, ◌≤◌, ◌<◌, ◌+◌, ◌-◌, ℕ, List, [], ◌∷◌, ◌++◌, flat_map, length, IsTrue, OnOk, IfOk, IfErr};
ghost use Rattle.std.specs.List.{range_with_len};
ghost use Rattle.g1_words.specs.Heap.{start, objects_in, slots};
ghost use Rattle.g1_words.specs.Lists.{has};
ghost use Rattle.g1_words.specs.Valid.{Tiles};
ghost use Rattle.g1_image.specs.Image.{IsImage};
ghost use Rattle.g1_image.specs.Cards.{exact};
ghost use Rattle.g1_rem.specs.Marks.{objects_from};
ghost use Rattle.g1_rem.specs.Ahead.{is_entry, AreKnown, LeadAhead};
ghost use Rattle.g1_rem.specs.Entries.{uncovered_into, IsEntryFault};

use crate::rows::objects_end;
use g1_image::Image;
use g1_words::{Fault, Marks, card_of, region_of};
use std::alloc::{AllocError, Global};

// A mark for each card, set if the region remembers it or it is dirty.
fn known_cards(alloc: Global, image: &Image, region: u32) -> Result<Marks, AllocError>
    requires { region < image.now.heap.geometry.n }
    ensures { IfOk result (AreKnown image.now region) }
{
    let cards = image.heap().geometry().cards();
    let mut known = Marks::none(alloc, cards as usize)?;
    let set = image.remembered()[region as usize].as_slice();
    known.set_each(set);
    let log = image.log().as_slice();
    known.set_each(log);
    Ok(known)
}

// The region that slots may lead into, in an image, and the cards that it remembers or that are dirty.
#[derive(Drop)]
struct Entering<'a> {
    image: &'a Image,
    region: u32,
    known: &'a Marks,
}

impl<'a> Entering<'a> {
    // Whether a slot leads into the region from another one.
    fn is_entry(&self, slot: u64) -> bool
        requires { slot < length self.now.image.now.heap.words }
        ensures same { result ≡ is_entry self.now.image.now.heap self.now.region slot }
        ensures valid { IsImage self.now.image.now }
    {
        let heap = self.image.heap();
        let geometry = heap.geometry();
        let region = u64::from(self.region);
        match heap.words().at(slot).checked_sub(1) {
            Some(target) => {
                region_of(&geometry, target) == region && region_of(&geometry, slot) != region
            }
            None => false,
        }
    }

    // Adds the card of a slot that leads into the region, unless it was the last one.
    fn take_entry(&self, slot: u64, cards: &mut Vec<u32>) -> Result<(), Fault>
        requires known { AreKnown self.now.image.now self.now.region self.now.known.now }
        requires slot { slot < length self.now.image.now.heap.words }
        requires entry { IsTrue (is_entry self.now.image.now.heap self.now.region slot) }
        ensures ahead { (rest : List ℕ) → LeadAhead self.now.image.now self.now.region (slot ∷ rest) cards.old.items → OnOk result (LeadAhead self.now.image.now self.now.region rest cards.new.items) }
        ensures fault { (rest : List ℕ) → LeadAhead self.now.image.now self.now.region (slot ∷ rest) cards.old.items → IfErr result (IsEntryFault self.now.image.now self.now.region) }
    {
        let geometry = self.image.heap().geometry();
        let card = card_of(&geometry, slot) as u32;
        let count = cards.len();
        if count > 0 && cards[count - 1] == card {
            return Ok(());
        }
        if !self.known.has(card as usize) {
            return Err(Fault::Uncovered(slot));
        }
        cards.push(card)?;
        Ok(())
    }

    // Adds the cards of the slots from one address on and before another that lead into the region.
    fn take_slots(&self, from: u64, to: u64, cards: &mut Vec<u32>) -> Result<(), Fault>
        requires known { AreKnown self.now.image.now self.now.region self.now.known.now }
        requires order { from ≤ to }
        requires slots { to ≤ length self.now.image.now.heap.words }
        ensures ahead { (rest : List ℕ) → LeadAhead self.now.image.now self.now.region (range_with_len from (to - from) ++ rest) cards.old.items → OnOk result (LeadAhead self.now.image.now self.now.region rest cards.new.items) }
        ensures fault { (rest : List ℕ) → LeadAhead self.now.image.now self.now.region (range_with_len from (to - from) ++ rest) cards.old.items → IfErr result (IsEntryFault self.now.image.now self.now.region) }
    {
        for slot in from..to {
            if self.is_entry(slot) {
                self.take_entry(slot, cards)?;
            }
        }
        Ok(())
    }

    // Adds the cards of the slots of the objects in another region that lead into this one.
    fn take_region(&self, region: u32, cards: &mut Vec<u32>) -> Result<(), Fault>
        requires known { AreKnown self.now.image.now self.now.region self.now.known.now }
        requires other { region < self.now.image.now.heap.geometry.n }
        requires ahead { LeadAhead self.now.image.now self.now.region (flat_map slots (objects_from self.now.image.now.heap region)) cards.old.items }
        ensures ahead { OnOk result (LeadAhead self.now.image.now self.now.region (flat_map slots (objects_from self.now.image.now.heap (region + 1))) cards.new.items) }
        ensures fault { IfErr result (IsEntryFault self.now.image.now self.now.region) }
    {
        let heap = self.image.heap();
        let end = objects_end(heap, region);
        let mut at = heap.geometry().start(region);
        'objects: while at < end {
            let object = heap.words().header(at);
            self.take_slots(at + 1, at + 1 + object.refs, cards)?;
            at += object.size;
        }
        Ok(())
    }
}

/// The exact set of a region, rising: the cards from which a slot of another region references an object in it. All of
/// these slots are covered.
///
/// One pass over the slots of all objects, by rising address. No other region's set is looked up.
///
/// # Errors
///
/// `Fault::Uncovered` with the lowest slot that leads into the region and isn't covered; `Fault::Memory`.
///
/// # Examples
///
/// ```
/// use g1_rem::cards_into_region;
/// use g1_testing::{image, pictures::shared};
///
/// let image = image(alloc, shared())?;
/// let cards = cards_into_region(alloc, &image, 1)?;
/// assert_eq!(rt; cards.as_slice(), [0, 1].as_slice());
/// ```
pub fn cards_into_region(alloc: Global, image: &Image, region: u32) -> Result<Vec<u32>, Fault>
    requires { region < image.now.heap.geometry.n }
    ensures cards { IfOk result (λ v. v.items ≡ exact image.now.heap region) }
    ensures covered { IfOk result (λ v. uncovered_into image.now region ≡ []) }
    ensures fault { IfErr result (IsEntryFault image.now region) }
{
    let known = known_cards(alloc, image, region)?;
    let entering = Entering {
        image,
        region,
        known: &known,
    };
    let mut cards = Vec::new(alloc);
    for other in 0..image.heap().geometry().regions() as u32 {
        entering.take_region(other, &mut cards)?;
    }
    Ok(cards)
}
