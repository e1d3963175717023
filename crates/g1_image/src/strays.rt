//! The slots of a heap, shared by threads in ranges of regions.
ghost use Rattle.std.specs.Prelude.{◌≡◌, ◌≤◌, ◌<◌, ◌⊎◌, ◌+◌, ◌*◌, OnOk, IfOk, IfErr};
ghost use Rattle.g1_words.specs.Heap.{start};
ghost use Rattle.g1_work.specs.Ranges.{IsRange};
ghost use Rattle.g1_image.specs.Draft.{ShapedBelow};
ghost use Rattle.g1_image.specs.Faults.{SlotsAreGood};
ghost use Rattle.g1_image.specs.Strays.{IsFirstStray, IsFirstStrayIn, IsFirstStrayOf, StartBefore};
ghost use Rattle.g1_image.specs.Checks.{AreShapedStarts, IsStrayFault};

use crate::draft::Draft;
use crate::refs::first_stray;
use g1_words::{Fault, Kind, Marks, Place, Region};
use g1_work::{Make, WORDS_A_THREAD, cut_regions, first_found, make_each, threads_for};
use std::alloc::Global;
use std::thread::Threads;

/// The address after the last at which an object of a region starts; the region's own start if none
/// does.
fn starts_end(draft: &Draft, r: u32) -> u64
    requires shaped { ShapedBelow draft.now draft.now.geometry.n }
    requires there { r < draft.now.geometry.n }
    ensures all { StartBefore draft.now r result }
    ensures within { result ≤ draft.now.geometry.n * draft.now.geometry.w }
{
    let start = draft.geometry().start(r);
    let Region { kind, top, .. } = draft.region(r);
    match kind {
        Kind::Ordinary => start + u64::from(top),
        Kind::HumongousFirst => start + 1,
        Kind::Free => start,
        Kind::Continuation => start,
    }
}

/// The first slot that references no object, of the objects that start between two addresses.
fn first_between(draft: &Draft, marks: &Marks, from: usize, to: usize) -> Option<u64>
    requires marked { AreShapedStarts draft.now marks.now }
    requires within { to ≤ draft.now.geometry.n * draft.now.geometry.w }
    ensures { IsFirstStray draft.now from to result }
{
    let words = draft.words();
    let mut at = from;
    while at < to {
        if marks.is_set(at) {
            let o = words.header(at as u64);
            if let Some(i) = first_stray(draft, marks, words, &o) {
                return Some((at + 1 + i) as u64);
            }
            at += o.size as usize;
        } else {
            at += 1;
        }
    }
    None
}

/// The first slot that references no object, of the objects that start in a region.
fn first_in(draft: &Draft, marks: &Marks, r: u32) -> Option<u64>
    requires marked { AreShapedStarts draft.now marks.now }
    requires there { r < draft.now.geometry.n }
    ensures { IsFirstStray draft.now (start draft.now r) (start draft.now (r + 1)) result }
{
    let from = draft.geometry().start(r);
    let to = starts_end(draft, r);
    first_between(draft, marks, from as usize, to as usize)
}

/// The first slot that references no object, of the objects that start in some regions.
fn first_of(draft: &Draft, marks: &Marks, from: u32, to: u32) -> Option<u64>
    requires marked { AreShapedStarts draft.now marks.now }
    requires order { from ≤ to }
    requires regions { to ≤ draft.now.geometry.n }
    ensures { IsFirstStray draft.now (start draft.now from) (start draft.now to) result }
{
    for r in from..to {
        if let Some(p) = first_in(draft, marks, r) {
            return Some(p);
        }
    }
    None
}

/// The first slot of each range of regions that references no object.
#[derive(Drop)]
struct Straying<'a> {
    draft: &'a Draft,
    marks: &'a Marks,
    cut: &'a [u32],
}

impl Make for Straying<'_> {
    type Made = Option<u64>;

    ghost ready = { λ s j. AreShapedStarts s.draft.now s.marks.now × IsRange s.draft.now.geometry.n s.cut.now j };

    ghost makes = { λ s j found. IsFirstStrayIn s.draft.now s.cut.now j found };

    fn make(&self, _alloc: Global, range: usize) -> Result<Option<u64>, Fault> {
        Ok(first_of(self.draft, self.marks, self.cut[range], self.cut[range + 1]))
    }
}

/// The first slot that references no object.
fn first_alone(draft: &Draft, marks: &Marks) -> Option<u64>
    requires { AreShapedStarts draft.now marks.now }
    ensures { IsFirstStrayOf draft.now result }
{
    first_of(draft, marks, 0, draft.geometry().regions() as u32)
}

/// The fault of the first slot that references no object, if there is one.
fn fault_of(draft: &Draft, found: Option<u64>) -> Result<(), Fault>
    requires { IsFirstStrayOf draft.now found }
    ensures ok { OnOk result (SlotsAreGood draft.now) }
    ensures err { IfErr result (IsStrayFault draft.now) }
{
    match found {
        Some(p) => Err(Fault::Reference(Place::Slot(p))),
        None => Ok(()),
    }
}

/// Refuses the first slot that references no object.
pub(crate) fn check_slots(draft: &Draft, marks: &Marks) -> Result<(), Fault>
    requires { AreShapedStarts draft.now marks.now }
    ensures ok { OnOk result (SlotsAreGood draft.now) }
    ensures err { IfErr result (IsStrayFault draft.now) }
{
    fault_of(draft, first_alone(draft, marks))
}

/// The first slot that references no object, by this many threads, each with a range of the regions.
fn first_by(
    rt: &(impl Threads + Sync),
    alloc: Global,
    draft: &Draft,
    marks: &Marks,
    threads: usize,
) -> Result<Option<u64>, Fault>
    requires some { 0 < threads }
    requires marked { AreShapedStarts draft.now marks.now }
    ensures ok { IfOk result (IsFirstStrayOf draft.now) }
    ensures memory { IfErr result (λ e. e ≡ Fault.Memory) }
{
    if threads == 1 {
        return Ok(first_alone(draft, marks));
    }
    let cut = cut_regions(alloc, draft.regions(), threads)?;
    let straying = Straying {
        draft,
        marks,
        cut: &cut,
    };
    let found = make_each(rt, alloc, threads, threads, &straying)?;
    Ok(first_found(&found))
}

/// As `check_slots`, with this many workers at most. One if it is 0.
pub(crate) fn check_slots_by(
    rt: &(impl Threads + Sync),
    alloc: Global,
    draft: &Draft,
    marks: &Marks,
    workers: u64,
) -> Result<(), Fault>
    requires { AreShapedStarts draft.now marks.now }
    ensures ok { OnOk result (SlotsAreGood draft.now) }
    ensures err { IfErr result (λ e. (e ≡ Fault.Memory) ⊎ IsStrayFault draft.now e) }
{
    let threads = threads_for(workers, draft.words().len(), WORDS_A_THREAD);
    let found = first_by(rt, alloc, draft, marks, threads)?;
    fault_of(draft, found)
}
