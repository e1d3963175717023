ghost use Rattle.std.specs.Prelude.{◌≡◌, ◌≤◌, vec_len, IfOk};
ghost use Rattle.g1_words.specs.Geometry.{most_regions};
ghost use Rattle.g1_frontier.specs.Window.{AreRising, AreWindowPositions};

use g1_rem::{Starts, slots_on};
use g1_words::numbers::Numbers;
use g1_words::{Heap, region_of};
use smallvec::SmallVec;
use std::alloc::{AllocError, Global};

/// A heap, and the regions that are searched.
#[derive(Drop)]
pub struct Scope<'a> {
    pub heap: &'a Heap,
    /// None if the search has no cards.
    pub starts: Option<&'a Starts>,
    pub window: &'a [u32],
    /// By region number, one more than where the region stands in the window, or 0.
    pub positions: &'a [u32],
    pub numbering: &'a Numbering,
}

/// Which place an object of the window has, in a claim table or among marks.
#[derive(Drop)]
pub enum Numbering {
    /// Where its first word stands among the window's words.
    Words,
    /// Its number among the window's objects.
    Objects(Numbers),
}

/// Where an object of the window begins that a slot references, and its place.
#[derive(Clone, Copy, Drop)]
pub struct Target {
    pub place: u64,
    pub address: u64,
}

/// By region number, one more than where the region stands in the window, or 0.
///
/// # Errors
/// `AllocError`.
pub(crate) fn positions(alloc: Global, regions: u64, window: &[u32]) -> Result<Vec<u32>, AllocError>
    requires regions { AreRising regions window.now }
    requires few { regions ≤ most_regions }
    ensures positions { IfOk result (λ v. AreWindowPositions window.now v.items) }
    ensures count { IfOk result (λ v. vec_len v ≡ regions) }
{
    let mut positions = vec![in alloc; 0u32; regions as usize]?;
    for (index, region) in window.iter().enumerate() {
        positions[*region as usize] = index as u32 + 1;
    }
    Ok(positions)
}

impl<'a> Scope<'a> {
    ghost use Rattle.std.specs.Prelude.{◌≡◌, ◌<◌, ◌+◌, ◌*◌, true, false, [], length, IfOk, IfSome, IfNone};
    ghost use Rattle.g1_rem.specs.Starts.{card_count};
    ghost use Rattle.g1_rem.specs.Slots.{slots_on};
    ghost use Rattle.g1_frontier.specs.Window.{place};
    ghost use Rattle.g1_frontier.specs.Scope.{IsScope, inside, names_in, place_in, place_count};

    /// How many places there are.
    pub fn places(&self) -> u64
        requires scope { IsScope self.now }
        ensures { result ≡ place_count self.now }
    {
        match self.numbering {
            Numbering::Words => self.window.len() as u64 * self.heap.geometry().region_words(),
            Numbering::Objects(numbers) => numbers.count(),
        }
    }

    /// Where an address of the window stands among its words.
    fn window_word(&self, address: u64) -> Option<u64>
        requires scope { IsScope self.now }
        ensures found { IfSome result (λ p. (inside self.now address ≡ true) × (p ≡ place self.now.heap.now self.now.window.now address) × (p < length self.now.window.now * self.now.heap.now.geometry.w)) }
        ensures none { IfNone result (inside self.now address ≡ false) }
    {
        let geometry = self.heap.geometry();
        let region = region_of(&geometry, address);
        if region >= geometry.regions() {
            return None;
        }
        let position = self.positions[region as usize];
        if position == 0 {
            return None;
        }
        let width = geometry.region_words();
        // This is asked for each reference, so it divides nothing.
        let offset = address - geometry.start(region as u32);
        Some(u64::from(position - 1) * width + offset)
    }

    /// The place of the object at an address of the window.
    pub fn place(&self, address: u64) -> Option<u64>
        requires scope { IsScope self.now }
        ensures found { IfSome result (λ p. (inside self.now address ≡ true) × (p ≡ place_in self.now address)) }
        ensures none { IfNone result (inside self.now address ≡ false) }
    {
        let word = self.window_word(address)?;
        match self.numbering {
            Numbering::Words => Some(word),
            Numbering::Objects(numbers) => Some(numbers.before(word)),
        }
    }

    /// The object of the window that a reference word references.
    pub fn target(&self, word: u64) -> Option<Target>
        requires scope { IsScope self.now }
        ensures found { IfSome result (λ t. (word ≡ t.address + 1) × (inside self.now t.address ≡ true) × (t.place ≡ place_in self.now t.address)) }
        ensures none { IfNone result (names_in self.now word ≡ []) }
    {
        if word == 0 {
            return None;
        }
        let address = word - 1;
        let place = self.place(address)?;
        Some(Target { place, address })
    }

    /// The addresses of the slots on a card, rising. Without starts it makes them for this card alone. No
    /// search comes to that: it is lent them if it has cards.
    pub fn slots_on(&self, alloc: Global, card: u32) -> Result<SmallVec<u64, 64>, AllocError>
        requires scope { IsScope self.now }
        requires card { card < card_count self.now.heap.now }
        ensures { IfOk result (λ v. v.items ≡ slots_on self.now.heap.now card) }
    {
        match self.starts {
            Some(starts) => Ok(slots_on(alloc, self.heap, starts, card)),
            None => match Starts::build(alloc, self.heap) {
                Ok(starts) => Ok(slots_on(alloc, self.heap, &starts, card)),
                Err(_) => Err(AllocError),
            },
        }
    }
}
