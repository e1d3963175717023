ghost use Rattle.std.specs.Prelude.{◌≡◌, ◌≤◌, ◌<◌, ◌^◌, ◌⊎◌, ℕ, length, replicate, slice_index, Contains, IfOk, IfErr};
ghost use Rattle.g1_words.specs.Heap.{object_at};
ghost use Rattle.g1_words.specs.Layout.{need, free_regions, forward, moved_to};
ghost use Rattle.g1_words.specs.Copy.{renamed, renamed_words};
ghost use Rattle.g1_layout.specs.Plan.{run_at};
ghost use Rattle.g1_copy.specs.Plans.{IsPlanOf};
ghost use Rattle.g1_copy.specs.Gathered.{placed_words, to_space_words};

use crate::headers::Headers;
use crate::moving::Moving;
use g1_layout::{Plan, Run};
use g1_words::{Fault, Heap, Object};
use g1_work::{Fill, MOST_WORKERS, Open, each_region_mut, threads_for};
use std::alloc::{AllocError, Global};
use std::thread::Threads;

/// A thread is worth starting for this many words. They are half of `WORDS_A_RUN` in filling.rt, since
/// they are not only copied: each survivor's header is read, and each reference is looked up.
const COPIED_WORDS_A_THREAD: usize = 65_536;

/// A reference word after what it references moved: null stays null.
pub(crate) fn rename_reference(plan: &Plan, reference: u64) -> u64
    requires { renamed (moved_to plan.now.survivors plan.now.places) reference < 2 ^ 64 }
    ensures { result ≡ renamed (moved_to plan.now.survivors plan.now.places) reference }
{
    if reference == 0 {
        0
    } else {
        plan.forward(reference - 1) + 1
    }
}

/// Renames the references of an object, whose words these are.
fn rename(plan: &Plan, refs: u64, words: &mut [u64])
    requires fits { refs < length words.old }
    requires in_words { (k : ℕ) → 0 < k → k ≤ refs → renamed (moved_to plan.now.survivors plan.now.places) (slice_index words.old k) < 2 ^ 64 }
    ensures slots { (k : ℕ) → 0 < k → k ≤ refs → slice_index words.new k ≡ renamed (moved_to plan.now.survivors plan.now.places) (slice_index words.old k) }
    ensures rest { (k : ℕ) → (k ≡ 0) ⊎ (refs < k) → slice_index words.new k ≡ slice_index words.old k }
{
    for k in 0..refs as usize {
        words[k + 1] = rename_reference(plan, words[k + 1]);
    }
}

/// Writes the copy of a survivor: its words, the references renamed.
fn copy(moving: &Moving<'_>, object: &Object, copy: &mut [u64])
    requires survivor { Contains moving.now.plan.survivors object.now.at }
    requires object { object.now ≡ object_at moving.now.heap object.now.at }
    requires size { length copy.old ≡ object.now.size }
    ensures { copy.new ≡ renamed_words (forward moving.now.heap moving.now.plan.survivors) moving.now.heap object.now }
{
    copy.copy_from_slice(moving.heap.words_of(object));
    rename(moving.plan, object.refs, copy);
}

/// Writes the copies of a run's survivors into its region, whose words are 0.
fn fill(moving: &Moving<'_>, run: Run, words: &mut [u64])
    requires run { (t : ℕ) × (t < need moving.now.heap moving.now.plan.survivors) × (run ≡ run_at moving.now.heap moving.now.plan.survivors t) }
    requires empty { words.old ≡ replicate moving.now.heap.geometry.w 0 }
    ensures { words.new ≡ placed_words moving.now.heap moving.now.plan.survivors run.region }
{
    let start = moving.geometry().start(run.region);
    let mut ahead = Headers::new(run.from);
    for i in run.from..run.to {
        let object = ahead.object(moving, i);
        let from = (moving.places()[i] - start) as usize;
        copy(
            moving,
            &object,
            &mut words[from..from + object.size as usize],
        );
    }
}

/// The copies of the survivors, written into the regions of to-space.
#[derive(Drop)]
struct Copies<'a> {
    moving: &'a Moving<'a>,
}

impl Fill for Copies<'_> {
    ghost ready = { λ s r xs. (r < need s.moving.now.heap s.moving.now.plan.survivors) × (xs ≡ replicate s.moving.now.heap.geometry.w 0) };

    ghost fills = { λ s r xs ys. ys ≡ placed_words s.moving.now.heap s.moving.now.plan.survivors (slice_index (free_regions s.moving.now.heap) r) };

    fn fill(&self, region: usize, words: &mut [u64]) {
        fill(self.moving, self.moving.runs()[region], words);
    }
}

/// The words of to-space after the pause, its regions one after another: each survivor at its place
/// with its references renamed, and 0 elsewhere. Linear in these words. May start threads.
///
/// # Errors
///
/// `Fault::Memory` alone.
///
/// # Examples
///
/// ```
/// use g1_copy::gather;
/// use g1_layout::place;
/// use g1_testing::{image, pictures::shared};
/// use g1_words::header_word;
///
/// let shared = image(alloc, shared())?;
/// let plan = place(alloc, shared.heap(), &[1], &[21, 16])?;
/// let words = gather(&rt, alloc, shared.heap(), &plan)?;
/// // The objects are at 32 and 34 then, and a reference to the first is 33.
/// let copies = [header_word(2, 0), 8, header_word(5, 3), 33, 33, 33, 1];
/// assert_eq!(rt; &words[..7], copies.as_slice());
/// assert_eq!(rt; &words[7..], [0; 9].as_slice());
/// ```
pub fn gather(
    rt: &(impl Threads + Sync),
    alloc: Global,
    heap: &Heap,
    plan: &Plan,
) -> Result<Vec<u64>, Fault>
    requires { IsPlanOf heap.now plan.now }
    ensures ok { IfOk result (λ v. v.items ≡ to_space_words heap.now plan.now.survivors) }
    ensures memory { IfErr result (λ e. e ≡ Fault.Memory) }
{
    g1_words::laws::valid(heap);
    let moving = Moving { heap, plan };
    Ok(gather_by(rt, alloc, &moving, MOST_WORKERS)?)
}

/// As `gather`, with this many workers at most. One if it is 0.
pub(crate) fn gather_by(
    rt: &(impl Threads + Sync),
    alloc: Global,
    moving: &Moving<'_>,
    workers: u64,
) -> Result<Vec<u64>, AllocError>
    ensures { IfOk result (λ v. v.items ≡ to_space_words moving.now.heap moving.now.plan.survivors) }
{
    let geometry = moving.geometry();
    let region_words = geometry.region_words() as usize;
    let to_space = geometry.words_of(moving.runs().len() as u64) as usize;
    let mut words = vec![in alloc; 0u64; to_space]?;
    let copies = Copies { moving };
    let threads = threads_for(workers.min(MOST_WORKERS), to_space, COPIED_WORDS_A_THREAD) as u64;
    each_region_mut(rt, threads, &mut words, region_words, &copies, &Open);
    Ok(words)
}
