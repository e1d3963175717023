ghost use Rattle.std.specs.Prelude.{◌≡◌, [], length, IfOk, IfErr};
ghost use Rattle.g1_words.specs.declared.fault.Fault.TheVariants.{Memory};
ghost use Rattle.g1_words.specs.Graph.{SameGraph};
ghost use Rattle.g1_same.specs.Same.{IsFirstDifference, IsRenaming};
ghost use Rattle.g1_same.specs.Walk.{IsWalk};
ghost use Rattle.g1_same.specs.Behind.{IsFound, LinksBetween};

use crate::difference::Difference;
use crate::pair::Pair;
use crate::path::path_by;
use crate::renaming::Renaming;
use crate::searching::search;
use crate::stale::StaleWords;
use crate::walk::{Found, Walk, Way, What, start};
use g1_words::{Fault, Heap};
use std::alloc::{AllocError, Global};

// The first difference of two heaps, if no word is stale.
fn difference_at(
    alloc: Global,
    heaps: Pair<'_>,
    walk: &Walk,
    stale: &StaleWords<'_>,
    found: &Found,
) -> Result<Difference, AllocError>
    requires none { (stale.now.roots.now ≡ []) × (stale.now.slots.now ≡ []) }
    requires walk { IsWalk heaps.before.now heaps.after.now walk.now }
    requires found { IsFound heaps.before.now heaps.after.now stale.now walk.now found.now }
    requires until { LinksBetween heaps.before.now heaps.after.now walk.now 0 0 found.now.place.way.from found.now.place.way.number }
    requires roots { length heaps.before.now.roots ≡ length heaps.after.now.roots }
    ensures { IfOk result (λ d. IsFirstDifference heaps.entry.before.now heaps.entry.after.now d) }
{
    let path = path_by(alloc, walk, found.place.way)?;
    match found.what {
        What::Stale(_) => unreachable!(),
        What::How(how) => Ok(Difference::At {
            root: path.root,
            slots: path.slots,
            how,
        }),
    }
}

/// Whether two heaps show the same graph from the roots: the renaming that makes the one the other,
/// or the first place where they differ.
///
/// The time is linear in what the roots reach, and in the words of both heaps for two empty tables.
///
/// # Errors
/// `Fault::Memory` if a growth was refused.
pub fn compare(
    alloc: Global,
    before: &Heap,
    after: &Heap,
) -> Result<Result<Renaming, Difference>, Fault>
    ensures same { IfOk result (λ r. IfOk r (λ v. IsRenaming before.now after.now v.before.items v.after.items)) }
    ensures differ { IfOk result (λ r. IfErr r (λ d. IsFirstDifference before.now after.now d)) }
    ensures never { IfOk result (λ r. IfErr r (λ _. SameGraph before.now after.now → ⊥)) }
    ensures memory { IfErr result (λ e. e ≡ Memory) }
{
    let roots = before.roots().len();
    if roots != after.roots().len() {
        return Ok(Err(Difference::Roots {
            before: roots as u64,
            after: after.roots().len() as u64,
        }));
    }
    let heaps = Pair::new(before, after);
    let mut walk = start(alloc, heaps)?;
    let first = Way { from: 0, number: 0 };
    let none = StaleWords {
        roots: &[],
        slots: &[],
    };
    let met = search(heaps, &none, &mut walk, first)?;
    match met {
        Some(found) => Ok(Err(difference_at(alloc, heaps, &walk, &none, &found)?)),
        None => Ok(Ok(Renaming {
            before: walk.before,
            after: walk.after,
        })),
    }
}
