ghost use Rattle.std.specs.Prelude.{◌≡◌, ◌≤◌, ◌<◌, ◌+◌, ◌*◌, ◌++◌, ◌%◌, ◌^◌, ℕ, List, length, map, slice_index, All, Contains, OnOk, IfOk, IfErr};
ghost use Rattle.g1_words.specs.declared.fault.Fault.TheVariants.{Memory};
ghost use Rattle.g1_layout.specs.Plan.{laid_before};
ghost use Rattle.g1_copy.specs.Gathered.{placed_words};
ghost use Rattle.g1_copy.specs.Links.{cards_by_region, copied_between, copied_slots, part_cards};
ghost use Rattle.g1_copy.specs.Filled.{filled_slots};
ghost use Rattle.g1_copy.specs.Remembered.{cards_at};

use crate::cards_by_region::add_slot;
use crate::moving::Moving;
use g1_layout::Run;
use g1_rem::no_cards;
use g1_words::{Fault, Geometry, Heap, header};
use g1_work::{Make, make_each, threads_for};
use std::alloc::{AllocError, Global};
use std::marker::Model;
use std::thread::Threads;

/// A thread is worth starting for this many words of to-space.
const LISTED_WORDS_A_THREAD: usize = 131_072;

/// Adds the cards of an object's slots to the lists of the regions that these lead into. The object's
/// words begin at an index of those given, and will be at a place in the heap, above the slots
/// whose cards the lists have.
fn add_object(
    heap: &Heap,
    words: &[u64],
    at: usize,
    place: u64,
    lists: &mut [Vec<u32>],
) -> Result<(), AllocError>
    requires slots { at + slice_index words.now at % 2 ^ 32 < length words.now }
    requires small { place + slice_index words.now at % 2 ^ 32 < 2 ^ 64 }
    requires inside { place + slice_index words.now at % 2 ^ 32 < heap.now.geometry.n * heap.now.geometry.w }
    requires named { (k : ℕ) → k < slice_index words.now at % 2 ^ 32 → slice_index words.now (at + k + 1) ≤ heap.now.geometry.n * heap.now.geometry.w }
    requires one_each { length lists.old ≡ heap.now.geometry.n }
    ensures { OnOk result ((before : List (ℕ × ℕ)) → All (λ x. x.0 ≤ place) before → map (λ s. s.items) lists.old ≡ cards_by_region heap.now before → map (λ s. s.items) lists.new ≡ cards_by_region heap.now (before ++ filled_slots words.now at place)) }
{
    let refs = header(words, at as u64).refs;
    for k in 0..refs {
        let word = words[at + k as usize + 1];
        if word != 0 {
            add_slot(heap, place + k + 1, word, lists)?;
        }
    }
    Ok(())
}

/// Adds the cards of the slots of one run's survivors. `words` are those of the run's region. If the
/// lists have the cards of the survivors before the run from some index on, they then have those of
/// the run's, too.
fn add_run(
    moving: &Moving<'_>,
    run: &Run,
    words: &[u64],
    lists: &mut [Vec<u32>],
) -> Result<(), AllocError>
    requires run { Contains moving.now.plan.runs run.now }
    requires words { words.now ≡ placed_words moving.now.heap moving.now.plan.survivors run.now.region }
    requires one_each { length lists.old ≡ moving.now.heap.geometry.n }
    ensures { let h = moving.now.heap in let l = moving.now.plan.survivors in OnOk result ((i : ℕ) → i ≤ run.now.from → map (λ s. s.items) lists.old ≡ cards_by_region h (copied_between h l i run.now.from) → map (λ s. s.items) lists.new ≡ cards_by_region h (copied_between h l i run.now.to)) }
{
    let start = moving.geometry().start(run.region);
    for i in run.from..run.to {
        let place = moving.places()[i];
        add_object(moving.heap, words, (place - start) as usize, place, lists)?;
    }
    Ok(())
}

/// What cards are listed of: the survivors of a plan, and the words of to-space that hold them.
#[derive(Drop)]
pub(crate) struct Copied<'a> {
    pub(crate) moving: &'a Moving<'a>,
    pub(crate) gathered: &'a [u64],
}

impl<'a> Model for Copied<'a> {
    ghost use Rattle.std.specs.Prelude.{◌≡◌};
    ghost use Rattle.g1_copy.specs.Gathered.{to_space_words};
    ghost use Rattle.g1_copy.specs.Plans.{Moving as MovingOf};

    ghost Value = { MovingOf };

    ghost view = { λ c. c.moving.now };

    ghost invariant = { λ c. c.gathered.now ≡ to_space_words c.moving.now.heap c.moving.now.plan.survivors };
}

impl<'a> Copied<'a> {
    ghost use Rattle.std.specs.Prelude.{◌≡◌};
    ghost use Rattle.g1_words.specs.Valid.{IsValid};
    ghost use Rattle.g1_copy.specs.Plans.{IsPlanOf};

    /// The runs of the plan.
    fn runs(&self) -> &'a [Run]
        ensures same { result.now ≡ self.now.plan.runs }
        ensures made { IsPlanOf self.now.heap self.now.plan }
    {
        self.moving.runs()
    }

    /// The geometry of the heap.
    fn geometry(&self) -> Geometry
        ensures same { result ≡ self.now.heap.geometry }
        ensures valid { IsValid self.now.heap }
    {
        self.moving.geometry()
    }
}

/// For each region the cards, rising, of those slots of the survivors of some runs, at their places,
/// that lead into it from another region. The runs are those from one number up to another.
fn cards_of_runs(
    alloc: Global,
    copied: &Copied<'_>,
    from: usize,
    to: usize,
) -> Result<Vec<Vec<u32>>, AllocError>
    requires order { from ≤ to }
    requires there { to ≤ length copied.now.plan.runs }
    ensures { let h = copied.now.heap in let l = copied.now.plan.survivors in IfOk result (λ v. map (λ s. s.items) v.items ≡ cards_by_region h (copied_between h l (laid_before h l from) (laid_before h l to))) }
{
    let geometry = copied.geometry();
    let region_words = geometry.region_words() as usize;
    let runs = copied.runs();
    let gathered = copied.gathered;
    let mut lists = no_cards(alloc, geometry.regions())?;
    for number in from..to {
        let first = geometry.words_of(number as u64) as usize;
        let words = &gathered[first..first + region_words];
        add_run(copied.moving, &runs[number], words, &mut lists)?;
    }
    Ok(lists)
}

/// The runs of a plan, in parts of this many.
#[derive(Drop)]
struct Parts<'a> {
    copied: &'a Copied<'a>,
    size: usize,
}

impl Make for Parts<'_> {
    type Made = Vec<Vec<u32>>;

    ghost ready = { λ s j. j * s.size ≤ length s.copied.now.plan.runs };

    ghost makes = { λ s j v. map (λ c. c.items) v.items ≡ part_cards s.copied.now.heap s.copied.now.plan s.size j };

    fn make(&self, alloc: Global, part: usize) -> Result<Vec<Vec<u32>>, Fault> {
        let runs = self.copied.runs();
        let from = part * self.size;
        let to = from + self.size.min(runs.len() - from);
        Ok(cards_of_runs(alloc, self.copied, from, to)?)
    }
}

/// Adds to each list the cards of another one.
fn append_each(lists: &mut [Vec<u32>], more: &[Vec<u32>]) -> Result<(), AllocError>
    requires same { length more.now ≡ length lists.old }
    ensures { OnOk result ((r : ℕ) → r < length more.now → cards_at (map (λ s. s.items) lists.new) r ≡ cards_at (map (λ s. s.items) lists.old) r ++ cards_at (map (λ s. s.items) more.now) r) }
{
    for (r, cards) in more.iter().enumerate() {
        lists[r].extend_from_slice(cards)?;
    }
    Ok(())
}

/// As `copied_cards`, by this many threads, each with a part of the runs. The parts stand in to-space
/// one behind the other, and no card is in two of them.
fn cards_by_threads(
    rt: &(impl Threads + Sync),
    alloc: Global,
    copied: &Copied<'_>,
    threads: usize,
) -> Result<Vec<Vec<u32>>, Fault>
    requires some { 0 < threads }
    ensures ok { IfOk result (λ v. map (λ s. s.items) v.items ≡ cards_by_region copied.now.heap (copied_slots copied.now.heap copied.now.plan.survivors)) }
    ensures memory { IfErr result (λ e. e ≡ Memory) }
{
    let runs = copied.runs().len();
    let size = runs.div_ceil(threads).max(1);
    let parts = Parts { copied, size };
    let made = make_each(rt, alloc, threads, runs.div_ceil(size), &parts)?;
    let mut lists = no_cards(alloc, copied.geometry().regions())?;
    for part in &made {
        append_each(&mut lists, part)?;
    }
    Ok(lists)
}

/// For each region the cards, rising, of those slots of the survivors, at their places, that lead into
/// it from another region, read from the words of to-space by this many workers at most. One if it is
/// 0. Linear in the slots of the survivors and, for each thread, the regions.
///
/// # Errors
///
/// `Fault::Memory` alone.
pub(crate) fn copied_cards(
    rt: &(impl Threads + Sync),
    alloc: Global,
    copied: &Copied<'_>,
    workers: u64,
) -> Result<Vec<Vec<u32>>, Fault>
    ensures ok { IfOk result (λ v. map (λ s. s.items) v.items ≡ cards_by_region copied.now.heap (copied_slots copied.now.heap copied.now.plan.survivors)) }
    ensures memory { IfErr result (λ e. e ≡ Memory) }
{
    // Each thread has a list for each region, so it has more words if there are many regions.
    let least = LISTED_WORDS_A_THREAD.max(4 * copied.geometry().regions() as usize);
    match threads_for(workers, copied.gathered.len(), least) {
        1 => Ok(cards_of_runs(alloc, copied, 0, copied.runs().len())?),
        threads => cards_by_threads(rt, alloc, copied, threads),
    }
}
