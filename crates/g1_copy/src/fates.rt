ghost use Rattle.std.specs.Prelude.{◌≡◌, ◌≢◌, ◌<◌, length, slice_index, All, AllPairs, IfOk, IfErr};
ghost use Rattle.g1_words.specs.Layout.{to_space};
ghost use Rattle.g1_copy.specs.Plans.{IsPauseOf};
ghost use Rattle.g1_copy.specs.Remembered.{stays};
ghost use Rattle.g1_copy.specs.Fates.{AreFates, AreReplaced};
ghost use Rattle.g1_copy.specs.declared.fates.Fate.TheVariants.{Freed, Filled};

use g1_layout::Plan;
use g1_words::Heap;
use std::alloc::{AllocError, Global};

/// What a pause does with a region.
#[derive(Clone, Copy)]
pub(crate) enum Fate {
    /// It is of the set, or of a humongous object that nothing references; free
    /// afterwards.
    Freed,
    /// Survivors are placed in it: those of the run with this index.
    Filled(usize),
    /// Its objects stay, or it stays free.
    Kept,
}

/// Each of these regions is filled by the run of its index.
fn fill(fates: &mut [Fate], to_space: &[u32])
    requires there { All (λ r. r < length fates.old) to_space.now }
    requires distinct { AllPairs (λ r q. r ≢ q) to_space.now }
    ensures { AreReplaced (length to_space.now) (slice_index to_space.now) (λ t. Filled t) fates.old fates.new }
{
    for (run, region) in to_space.iter().enumerate() {
        fates[*region as usize] = Fate::Filled(run);
    }
}

/// Each of these regions is freed.
pub(crate) fn free(fates: &mut [Fate], set: &[u32])
    requires { All (λ r. r < length fates.old) set.now }
    ensures { AreReplaced (length set.now) (slice_index set.now) (λ t. Freed) fates.old fates.new }
{
    for region in set {
        fates[*region as usize] = Fate::Freed;
    }
}

/// The fate of each region if the survivors of a set move. All that is done region by region goes
/// by this table.
pub(crate) fn fates(
    alloc: Global,
    heap: &Heap,
    set: &[u32],
    plan: &Plan,
) -> Result<Vec<Fate>, AllocError>
    requires { IsPauseOf heap.now set.now plan.now }
    ensures { IfOk result (λ v. AreFates heap.now set.now (to_space heap.now plan.now.survivors) v.items) }
{
    let regions = heap.geometry().regions() as usize;
    let mut fates = vec![in alloc; Fate::Kept; regions]?;
    fill(&mut fates, plan.to_space());
    free(&mut fates, set);
    Ok(fates)
}

/// Whether a card lies in no freed region.
pub(crate) fn stays(heap: &Heap, fates: &[Fate], card: u32) -> bool
    ensures { result ≡ stays heap.now fates.now card }
{
    let region = heap.geometry().region_of_card(card);
    !matches!(fates.get(region as usize), Some(Fate::Freed))
}
