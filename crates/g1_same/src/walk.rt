ghost use Rattle.std.specs.Prelude.{◌≡◌, ◌<◌, ◌≤◌, ◌++◌, ◌+◌, ◌∷◌, [], suc, length, slice_set, slice_index, Contains, IfOk, OnOk};
ghost use Rattle.g1_words.specs.Geometry.{most_words};
ghost use Rattle.g1_words.specs.Heap.{object_at, objects};
ghost use Rattle.g1_same.specs.Walk.{IsTour};

use crate::difference::How;
use crate::pair::Pair;
use std::alloc::{AllocError, Global};

/// The pairs of objects that were found, how each was found, and the tables that find them.
#[derive(Drop)]
pub struct Walk {
    /// The address before of each pair.
    pub before: Vec<u64>,
    /// The address after of each pair.
    pub after: Vec<u64>,
    /// 0 if a root references the pair, else 1 more than the place of the pair whose slot does.
    pub from: Vec<u32>,
    /// The number of that root or slot.
    pub number: Vec<u32>,
    /// By address before, 1 more than the place of its pair.
    pub new_of: Vec<u32>,
    /// By address after, the same.
    pub old_of: Vec<u32>,
}

/// The way to two words: the root of this number if `from` is 0, else the slot of this number of the
/// pair before place `from`.
#[derive(Clone, Copy, Drop)]
pub struct Way {
    pub from: u32,
    pub number: u32,
}

/// Two reference words that are compared, and the way to them.
#[derive(Clone, Copy, Drop)]
pub struct Place {
    pub way: Way,
    pub before: u64,
    pub after: u64,
}

/// How the two words of a place differ.
#[derive(Debug, Clone, Copy, PartialEq, Eq, Drop)]
pub enum What {
    /// The word after is this one. It references no object, and is null in the heap.
    Stale(u64),
    How(How),
}

/// Two words that differ: where, and how.
#[derive(Clone, Copy, Drop)]
pub struct Found {
    pub place: Place,
    pub what: What,
}

/// A walk that has found nothing.
pub fn start(alloc: Global, heaps: Pair<'_>) -> Result<Walk, AllocError>
    ensures walk { IfOk result (λ w. IsTour heaps.entry.before.now heaps.entry.after.now w) }
    ensures none { IfOk result (λ w. w.before.items ≡ []) }
{
    let new_of = vec![in alloc; 0u32; heaps.before.words().len()]?;
    let old_of = vec![in alloc; 0u32; heaps.after.words().len()]?;
    Ok(Walk {
        before: Vec::new(alloc),
        after: Vec::new(alloc),
        from: Vec::new(alloc),
        number: Vec::new(alloc),
        new_of,
        old_of,
    })
}

impl Walk {
    /// Adds a pair, found by this way.
    pub fn add(&mut self, way: Way, a: u64, b: u64) -> Result<(), AllocError>
        requires a { a < length self.old.new_of.items }
        requires b { b < length self.old.old_of.items }
        requires few { length self.old.before.items ≤ most_words }
        ensures before { OnOk result (self.new.before.items ≡ self.old.before.items ++ a ∷ []) }
        ensures after { OnOk result (self.new.after.items ≡ self.old.after.items ++ b ∷ []) }
        ensures from { OnOk result (self.new.from.items ≡ self.old.from.items ++ way.from ∷ []) }
        ensures number { OnOk result (self.new.number.items ≡ self.old.number.items ++ way.number ∷ []) }
        ensures new_of { OnOk result (self.new.new_of.items ≡ slice_set self.old.new_of.items a (suc (length self.old.before.items))) }
        ensures old_of { OnOk result (self.new.old_of.items ≡ slice_set self.old.old_of.items b (suc (length self.old.before.items))) }
    {
        let place = self.before.len() as u32 + 1;
        self.before.push(a)?;
        self.after.push(b)?;
        self.from.push(way.from)?;
        self.number.push(way.number)?;
        self.new_of[a as usize] = place;
        self.old_of[b as usize] = place;
        Ok(())
    }
}
