ghost use Rattle.std.specs.Prelude.{◌≡◌, IfOk};
ghost use Rattle.g1_words.specs.Lists.{has};
ghost use Rattle.g1_kept.specs.RegionSet.{IsMarked};

use g1_words::Marks;
use std::alloc::{AllocError, Global};
use std::marker::Model;

/// A set of regions: the list that was given, and a mark for each region of a heap.
#[derive(Drop)]
pub(crate) struct RegionSet<'a> {
    list: &'a [u32],
    marks: Marks,
}

impl<'a> Model for RegionSet<'a> {
    ghost use Rattle.std.specs.Prelude.{ℕ, List};
    ghost use Rattle.g1_kept.specs.RegionSet.{IsMarked};

    ghost Value = { List ℕ };

    ghost view = { λ s. s.list.now };

    ghost invariant = { λ s. IsMarked s.list.now s.marks };
}

// Whether a list has this region.
fn lists(list: &[u32], region: u64) -> bool
    ensures { result ≡ has list.now region }
{
    list.iter().any(|listed| region == u64::from(*listed))
}

impl<'a> RegionSet<'a> {
    /// The set of the regions of a list, marked for a heap of this many regions.
    pub(crate) fn new(
        alloc: Global,
        regions: usize,
        list: &'a [u32],
    ) -> Result<RegionSet<'a>, AllocError>
        ensures { IfOk result (λ s. s ≡ list.now) }
    {
        let mut marks = Marks::none(alloc, regions)?;
        marks.set_each(list);
        Ok(RegionSet { list, marks })
    }

    /// Whether a region is in the set.
    pub(crate) fn has(&self, region: u64) -> bool
        ensures { result ≡ has self.now region }
    {
        let place = region as usize;
        if place < self.marks.len() {
            self.marks.is_set(place)
        } else {
            lists(self.list, region)
        }
    }
}
