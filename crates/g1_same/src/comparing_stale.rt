//! What comes first of two heaps of which the second has stale words.
ghost use Rattle.std.specs.Prelude.{◌≡◌, ℕ, List, length, IfNone, IfSome, IfOk, IfErr};
ghost use Rattle.g1_words.specs.declared.fault.Fault.TheVariants.{Memory};
ghost use Rattle.g1_words.specs.Graph.{SameGraph};
ghost use Rattle.g1_same.specs.Walk.{IsWalk};
ghost use Rattle.g1_same.specs.Behind.{AreByPlace, IsFound, IsNextStale, LinksBetween};
ghost use Rattle.g1_same.specs.Stale.{LeadsToStale};
ghost use Rattle.g1_same.specs.Earliest.{IsEarliestOf};

use crate::difference::Difference;
use crate::pair::Pair;
use crate::path::path_by;
use crate::searching::search;
use crate::stale::StaleWords;
use crate::walk::{Found, Walk, Way, What, start};
use g1_words::{Fault, Heap};
use std::alloc::{AllocError, Global};

/// A stale word of the second heap where a path ends: a root and then slots, by number from 0.
#[derive(Drop)]
pub struct StaleEnd {
    pub root: u64,
    pub slots: Vec<u64>,
    /// The reference word before.
    pub before: u64,
    /// The stale word.
    pub word: u64,
}

/// What comes first of two heaps.
#[derive(Drop)]
pub enum Earliest {
    Differ(Difference),
    Stale(StaleEnd),
}

// What a search from the first root found.
fn earliest_at(
    alloc: Global,
    heaps: Pair<'_>,
    walk: &Walk,
    stale: &StaleWords<'_>,
    found: &Found,
) -> Result<Earliest, AllocError>
    requires by_place { AreByPlace stale.now }
    requires walk { IsWalk heaps.before.now heaps.after.now walk.now }
    requires found { IsFound heaps.before.now heaps.after.now stale.now walk.now found.now }
    requires until { LinksBetween heaps.before.now heaps.after.now walk.now 0 0 found.now.place.way.from found.now.place.way.number }
    requires no_stale { IsNextStale heaps.before.now heaps.after.now stale.now walk.now 0 0 found.now }
    requires roots { length heaps.before.now.roots ≡ length heaps.after.now.roots }
    ensures { IfOk result (λ e. IsEarliestOf heaps.entry.before.now heaps.entry.after.now stale.now.roots.now stale.now.slots.now e) }
{
    let path = path_by(alloc, walk, found.place.way)?;
    match found.what {
        What::Stale(word) => Ok(Earliest::Stale(StaleEnd {
            root: path.root,
            slots: path.slots,
            before: found.place.before,
            word,
        })),
        What::How(how) => Ok(Earliest::Differ(Difference::At {
            root: path.root,
            slots: path.slots,
            how,
        })),
    }
}

/// The first difference of two heaps, or the first stale word of the second that a path leads to, whichever comes first.
/// None if they show one graph, and no path leads to a stale word.
///
/// # Errors
/// `Fault::Memory` if a growth was refused.
pub fn compare_stale(
    alloc: Global,
    before: &Heap,
    after: &Heap,
    stale: &StaleWords<'_>,
) -> Result<Option<Earliest>, Fault>
    requires { AreByPlace stale.now }
    ensures first { IfOk result (λ o. IfSome o (λ e. IsEarliestOf before.now after.now stale.now.roots.now stale.now.slots.now e)) }
    ensures same { IfOk result (λ o. IfNone o (SameGraph before.now after.now)) }
    ensures no_stale { IfOk result (λ o. IfNone o ((p : List ℕ) (x z : ℕ) → LeadsToStale before.now after.now stale.now.roots.now stale.now.slots.now p x z → ⊥)) }
    ensures memory { IfErr result (λ e. e ≡ Memory) }
{
    let roots = before.roots().len();
    if roots != after.roots().len() {
        return Ok(Some(Earliest::Differ(Difference::Roots {
            before: roots as u64,
            after: after.roots().len() as u64,
        })));
    }
    let heaps = Pair::new(before, after);
    let mut walk = start(alloc, heaps)?;
    let first = Way { from: 0, number: 0 };
    let met = search(heaps, stale, &mut walk, first)?;
    match met {
        Some(found) => Ok(Some(earliest_at(alloc, heaps, &walk, stale, &found)?)),
        None => Ok(None),
    }
}
