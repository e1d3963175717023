ghost use Rattle.std.specs.Prelude.{◌≡◌, ◌<◌, length, map, filter, All, IfOk, IfErr};
ghost use Rattle.std.specs.List.Sorted.{IsStrictlyIncreasing};
ghost use Rattle.g1_words.specs.Heap.{regions};
ghost use Rattle.g1_image.specs.Cards.{refined};
ghost use Rattle.g1_image.specs.Image.{region_of_card};
ghost use Rattle.g1_words.specs.Layout.{to_space};
ghost use Rattle.g1_after.specs.Moved.{remembered_moved};
ghost use Rattle.g1_after.specs.Made.{heap_moved};
ghost use Rattle.g1_copy.specs.Plans.{IsPauseOf};
ghost use Rattle.g1_copy.specs.Gathered.{to_space_words};
ghost use Rattle.g1_copy.specs.Patches.{all_patches};
ghost use Rattle.g1_copy.specs.Fates.{AreFates, fate_at};
ghost use Rattle.g1_copy.specs.Remembered.{stays, IsJoined, AreSources, AreJoined, cards_at};

use crate::cards_by_region::cards_by_region;
use crate::copied_cards::{Copied, copied_cards};
use crate::fates::{Fate, fates, stays};
use crate::moving::Moving;
use crate::pausing::heap_of;
use g1_layout::Plan;
use g1_rem::{MERGED_CARDS_A_THREAD, Tracked, cards_in, merged};
use g1_words::{Fault, Heap};
use g1_work::{MOST_WORKERS, Make, make_each, threads_for};
use std::alloc::{AllocError, Global};
use std::thread::Threads;

/// Those of some cards that don't lie in a freed region.
fn kept_cards(
    alloc: Global,
    heap: &Heap,
    fates: &[Fate],
    cards: &[u32],
) -> Result<Vec<u32>, AllocError>
    ensures { IfOk result (λ v. v.items ≡ filter (stays heap.now fates.now) cards.now) }
{
    let mut kept = Vec::with_capacity(alloc, cards.len())?;
    for card in cards {
        if stays(heap, fates, *card) {
            kept.push(*card)?;
        }
    }
    Ok(kept)
}

/// What a region's remembered set after the pause is made of: rising lists of cards.
#[derive(Drop)]
struct Cards<'a> {
    /// Its refined set.
    refined: &'a [u32],
    /// The cards of outer slots.
    outer: &'a [u32],
    /// The cards of copied slots.
    inner: &'a [u32],
}

/// A region's remembered set after the pause.
fn join(
    alloc: Global,
    heap: &Heap,
    fates: &[Fate],
    fate: Fate,
    cards: &Cards<'_>,
) -> Result<Vec<u32>, Fault>
    requires refined { IsStrictlyIncreasing cards.now.refined.now }
    requires outer { IsStrictlyIncreasing cards.now.outer.now }
    requires inner { IsStrictlyIncreasing cards.now.inner.now }
    ensures ok { IfOk result (λ v. IsJoined heap.now fates.now fate cards.now.refined.now cards.now.outer.now cards.now.inner.now v.items) }
    ensures memory { IfErr result (λ e. e ≡ Fault.Memory) }
{
    match fate {
        Fate::Freed => Ok(Vec::new(alloc)),
        Fate::Filled(_) => merged(alloc, cards.outer, cards.inner),
        Fate::Kept => {
            let kept = kept_cards(alloc, heap, fates, cards.refined)?;
            if cards.inner.is_empty() {
                return Ok(kept);
            }
            merged(alloc, &kept, cards.inner)
        }
    }
}

/// The remembered set of each region after the pause.
#[derive(Drop)]
struct Joining<'a> {
    heap: &'a Heap,
    fates: &'a [Fate],
    /// For each region its refined set.
    remembered: &'a [Vec<u32>],
    /// For each region the cards of outer slots.
    outer: &'a [Vec<u32>],
    /// For each region the cards of copied slots.
    inner: &'a [Vec<u32>],
}

impl Make for Joining<'_> {
    type Made = Vec<u32>;

    ghost ready = { λ s r. (r < s.heap.now.geometry.n) × AreSources s.heap.now s.fates.now (map (λ v. v.items) s.remembered.now) (map (λ v. v.items) s.outer.now) (map (λ v. v.items) s.inner.now) };

    ghost makes = { λ s r v. IsJoined s.heap.now s.fates.now (fate_at s.fates.now r) (cards_at (map (λ v. v.items) s.remembered.now) r) (cards_at (map (λ v. v.items) s.outer.now) r) (cards_at (map (λ v. v.items) s.inner.now) r) v.items };

    fn make(&self, alloc: Global, region: usize) -> Result<Vec<u32>, Fault> {
        let cards = Cards {
            refined: &self.remembered[region],
            outer: &self.outer[region],
            inner: &self.inner[region],
        };
        join(alloc, self.heap, self.fates, self.fates[region], &cards)
    }
}

/// The remembered sets once the survivors have moved, one a region.
fn join_all(
    rt: &(impl Threads + Sync),
    alloc: Global,
    joining: &Joining<'_>,
    workers: u64,
) -> Result<Vec<Vec<u32>>, Fault>
    requires { AreSources joining.now.heap.now joining.now.fates.now (map (λ s. s.items) joining.now.remembered.now) (map (λ s. s.items) joining.now.outer.now) (map (λ s. s.items) joining.now.inner.now) }
    ensures ok { IfOk result (λ v. AreJoined joining.now.heap.now joining.now.fates.now (map (λ s. s.items) joining.now.remembered.now) (map (λ s. s.items) joining.now.outer.now) (map (λ s. s.items) joining.now.inner.now) (map (λ s. s.items) v.items)) }
    ensures memory { IfErr result (λ e. e ≡ Fault.Memory) }
{
    let added = cards_in(joining.outer).saturating_add(cards_in(joining.inner));
    let cards = cards_in(joining.remembered).saturating_add(added);
    let threads = threads_for(workers, cards, MERGED_CARDS_A_THREAD);
    let regions = joining.heap.geometry().regions() as usize;
    make_each(rt, alloc, threads, regions, joining)
}

/// What a pause does to a heap: the plan, and what was made of it.
#[derive(Drop)]
pub(crate) struct Changes<'a> {
    pub(crate) plan: &'a Plan,
    /// What is done with each region.
    pub(crate) fates: &'a [Fate],
    /// The slots outside the set that reference a survivor, by address, each with its new word.
    pub(crate) patches: &'a [(u64, u64)],
    /// The words of to-space.
    pub(crate) gathered: &'a [u64],
}

/// The remembered sets once the survivors have moved, by the fates of the regions.
pub(crate) fn remembered_by_fate(
    rt: &(impl Threads + Sync),
    alloc: Global,
    tracked: &Tracked,
    remembered: &[Vec<u32>],
    changes: &Changes<'_>,
    workers: u64,
) -> Result<Vec<Vec<u32>>, Fault>
    requires remembered { map (λ s. s.items) remembered.now ≡ map (refined tracked.now) (regions tracked.now.heap) }
    requires plan { IsPauseOf tracked.now.heap changes.now.plan.now.set changes.now.plan.now }
    requires fates { AreFates tracked.now.heap changes.now.plan.now.set (to_space tracked.now.heap changes.now.plan.now.survivors) changes.now.fates.now }
    requires patches { changes.now.patches.now ≡ all_patches tracked.now.heap changes.now.plan.now.set changes.now.plan.now.survivors }
    requires gathered { changes.now.gathered.now ≡ to_space_words tracked.now.heap changes.now.plan.now.survivors }
    ensures ok { IfOk result (λ v. map (λ s. s.items) v.items ≡ map (remembered_moved tracked.now changes.now.plan.now.set changes.now.plan.now.survivors (heap_moved tracked.now.heap changes.now.plan.now.set changes.now.plan.now.survivors)) (regions tracked.now.heap)) }
    ensures memory { IfErr result (λ e. e ≡ Fault.Memory) }
{
    let heap = heap_of(tracked);
    let outer = cards_by_region(alloc, heap, changes.patches)?;
    let moving = Moving {
        heap,
        plan: changes.plan,
    };
    let copied = Copied {
        moving: &moving,
        gathered: changes.gathered,
    };
    let inner = copied_cards(rt, alloc, &copied, workers)?;
    let joining = Joining {
        heap,
        fates: changes.fates,
        remembered,
        outer: &outer,
        inner: &inner,
    };
    join_all(rt, alloc, &joining, workers)
}

/// The remembered sets once the survivors have moved, one a region: of a region of the set none; of one of
/// to-space the cards of slots elsewhere that now reference an object in it; of any other its refined
/// set without the set's cards, and the to-space cards that hold a slot which references an object in
/// it.
///
/// `remembered` are the refined sets, `patches` those of all slots outside the set, and `gathered` the
/// words of to-space. Linear in the sets, the patches and the slots of the survivors. May start
/// threads.
///
/// # Errors
///
/// `Fault::Memory` alone.
///
/// # Examples
///
/// ```
/// use g1_copy::{gather, new_rem};
/// use g1_layout::place;
/// use g1_rem::{Starts, refine, verify};
/// use g1_testing::{image, pictures::shared};
///
/// let shared = image(alloc, shared())?;
/// let tracked = verify(&rt, alloc, shared).map_err(|(_, fault)| fault)?;
/// let heap = tracked.image.heap();
/// let starts = Starts::build(alloc, heap)?;
/// let remembered = refine(&rt, alloc, &tracked, &starts)?;
/// let plan = place(alloc, heap, &[1], &[21, 16])?;
/// let words = gather(&rt, alloc, heap, &plan)?;
/// let patches = [(1, 33), (5, 33)];
/// let after = new_rem(&rt, alloc, &tracked, &remembered, &[1], &plan, &patches, &words)?;
/// // The survivors went from region 1 into region 2.
/// assert_eq!(rt; after[1].len(), 0);
/// assert_eq!(rt; after[2].as_slice(), [0, 1].as_slice());
/// ```
pub fn new_rem(
    rt: &(impl Threads + Sync),
    alloc: Global,
    tracked: &Tracked,
    remembered: &[Vec<u32>],
    set: &[u32],
    plan: &Plan,
    patches: &[(u64, u64)],
    gathered: &[u64],
) -> Result<Vec<Vec<u32>>, Fault>
    requires remembered { map (λ s. s.items) remembered.now ≡ map (refined tracked.now) (regions tracked.now.heap) }
    requires plan { IsPauseOf tracked.now.heap set.now plan.now }
    requires patches { patches.now ≡ all_patches tracked.now.heap set.now plan.now.survivors }
    requires gathered { gathered.now ≡ to_space_words tracked.now.heap plan.now.survivors }
    ensures ok { IfOk result (λ v. map (λ s. s.items) v.items ≡ map (remembered_moved tracked.now set.now plan.now.survivors (heap_moved tracked.now.heap set.now plan.now.survivors)) (regions tracked.now.heap)) }
    ensures memory { IfErr result (λ e. e ≡ Fault.Memory) }
{
    let fates = fates(alloc, heap_of(tracked), set, plan)?;
    let changes = Changes {
        plan,
        fates: &fates,
        patches,
        gathered,
    };
    remembered_by_fate(rt, alloc, tracked, remembered, &changes, MOST_WORKERS)
}
