//! What is known of a heap that may break its rules.
use g1_words::{Geometry, Heap, Kind, Object, Region, Words, region_of};

/// A heap whose regions and objects may break the rules: what is asked for need not be there. The regions may end at the
/// first whose kind has no meaning.
#[derive(Clone, Copy)]
pub struct Sketch<'a> {
    pub geometry: Geometry,
    pub regions: &'a [Region],
    pub words: &'a Words,
}

impl<'a> Sketch<'a> {
    /// A heap that keeps the rules.
    pub(crate) fn of_heap(heap: &'a Heap) -> Sketch<'a> {
        Sketch {
            geometry: heap.geometry(),
            regions: heap.regions(),
            words: heap.words(),
        }
    }

    pub(crate) fn region(&self, number: u64) -> Option<Region> {
        self.regions.get(number as usize).copied()
    }

    /// The region in which an address lies, and its number.
    pub(crate) fn region_at(&self, address: u64) -> Option<(u32, Region)> {
        let number = u32::try_from(region_of(&self.geometry, address)).ok()?;
        let region = self.region(u64::from(number))?;
        Some((number, region))
    }

    /// The address behind the last used word of a region.
    pub fn end(&self, number: u32, region: &Region) -> u64 {
        let used = u64::from(region.top).min(self.geometry.region_words());
        self.geometry.start(number).saturating_add(used)
    }

    /// The object whose slot or other word is at an address.
    pub(crate) fn holder(&self, address: u64) -> Option<Object> {
        let (number, region) = self.region_at(address)?;
        match region.kind {
            Kind::Free => None,
            Kind::Ordinary => self.object_over(number, &region, address),
            Kind::HumongousFirst => Some(self.first_object(number)),
            Kind::Continuation => Some(self.first_object(self.first_below(number)?)),
        }
    }

    /// What the first word of a region says, read as a header.
    pub(crate) fn first_object(&self, number: u32) -> Object {
        self.words.header(self.geometry.start(number))
    }

    /// The last region below one that is no continuation, if a humongous object begins in it.
    pub(crate) fn first_below(&self, number: u32) -> Option<u32> {
        for below in (0..number).rev() {
            let region = self.region(u64::from(below))?;
            if region.kind.is_humongous_first() {
                return Some(below);
            }
            if !region.kind.is_continuation() {
                return None;
            }
        }
        None
    }

    // The object of an ordinary region that has the word at an address.
    fn object_over(&self, number: u32, region: &Region, address: u64) -> Option<Object> {
        let end = self.end(number, region);
        let mut at = self.geometry.start(number);
        for _ in 0..region.top {
            let object = self.words.header(at);
            let next = at.saturating_add(object.size);
            if at >= end || object.refs >= object.size {
                return None;
            }
            if address < next {
                return Some(object);
            }
            at = next;
        }
        None
    }
}
