//! The regions are checked and the starts of their objects marked, in one pass, which threads share
//! in ranges of regions.
ghost use Rattle.std.specs.Prelude.{◌≡◌, ◌≤◌, ◌<◌, length, IfOk, IfErr};
ghost use Rattle.g1_work.specs.Ranges.{IsRange};
ghost use Rattle.g1_image.specs.Draft.{Latest, ShapedBelow};
ghost use Rattle.g1_image.specs.Checks.{AreShapedStarts, ShapesMayFail};
ghost use Rattle.g1_image.specs.Shapes.{AreShaped, AreShapedRanges, IsShapedRange, IsMarksBegin, IsMarksCut};

use crate::draft::Draft;
use crate::shape::mark_region;
use g1_words::{Fault, Marks};
use g1_work::{Make, WORDS_A_THREAD, cut_regions, make_each, threads_for};
use std::alloc::{AllocError, Global};
use std::thread::Threads;

/// The last region below one where a humongous object starts, and the size that its header has; 0
/// and 0 if there is none.
fn latest(draft: &Draft, r: u32) -> (u32, u64)
    requires { r ≤ draft.now.geometry.n }
    ensures order { result.0 ≤ r }
    ensures latest { ShapedBelow draft.now r → Latest draft.now r result.0 result.1 }
{
    let mut first = r;
    while 0 < first {
        first -= 1;
        if draft.region(first).kind.is_humongous_first() {
            let start = draft.geometry().start(first);
            return (first, draft.words().header(start).size);
        }
    }
    (0, 0)
}

/// Marks at the objects that start in some regions, or the first of these regions that breaks a
/// rule. It rests on all regions before them keeping theirs.
fn starts_between(
    alloc: Global,
    draft: &Draft,
    from: u32,
    to: u32,
) -> Result<Result<Marks, u32>, Fault>
    requires order { from ≤ to }
    requires regions { to ≤ draft.now.geometry.n }
    ensures ok { IfOk result (AreShaped draft.now from to) }
    ensures memory { IfErr result (λ e. e ≡ Fault.Memory) }
{
    let geometry = draft.geometry();
    let base = geometry.start(from);
    let mut marks = Marks::none(alloc, (geometry.start(to) - base) as usize)?;
    let (mut first, mut size) = latest(draft, from);
    for r in from..to {
        if !mark_region(&mut marks, base, draft, r, first, size) {
            return Ok(Err(r));
        }
        if draft.region(r).kind.is_humongous_first() {
            first = r;
            size = draft.words().header(geometry.start(r)).size;
        }
    }
    Ok(Ok(marks))
}

/// The addresses where objects start, or the first region that breaks a rule.
pub(crate) fn shaped_starts(alloc: Global, draft: &Draft) -> Result<Marks, Fault>
    ensures ok { IfOk result (AreShapedStarts draft.now) }
    ensures err { IfErr result (ShapesMayFail draft.now) }
{
    let regions = draft.geometry().regions() as u32;
    match starts_between(alloc, draft, 0, regions)? {
        Ok(marks) => Ok(marks),
        Err(r) => Err(Fault::Shape(r)),
    }
}

/// The last region, up to one, whose first word's mark is the first of 64.
fn marks_begin(draft: &Draft, region: u32) -> u32
    ensures { IsMarksBegin draft.now region result }
{
    let geometry = draft.geometry();
    let mut begin = region;
    while geometry.start(begin) % 64 != 0 {
        begin -= 1;
    }
    begin
}

/// Cuts the regions into ranges whose marks can be joined word by word, with about as many used words
/// each: the region at which each range begins, and at last the end of the heap.
fn marks_cut(alloc: Global, draft: &Draft, ranges: usize) -> Result<Vec<u32>, AllocError>
    requires { 0 < ranges }
    ensures { IfOk result (λ v. IsMarksCut draft.now ranges ranges v.items) }
{
    let mut begins = cut_regions(alloc, draft.regions(), ranges)?;
    for range in 0..ranges {
        begins[range] = marks_begin(draft, begins[range]);
    }
    Ok(begins)
}

/// The shapes of each range of regions.
#[derive(Drop)]
struct Shaping<'a> {
    draft: &'a Draft,
    begins: &'a [u32],
}

impl Make for Shaping<'_> {
    type Made = Result<Marks, u32>;

    ghost ready = { λ s j. IsRange s.draft.now.geometry.n s.begins.now j };

    ghost makes = { λ s j v. IsShapedRange s.draft.now s.begins.now j v };

    fn make(&self, alloc: Global, range: usize) -> Result<Result<Marks, u32>, Fault> {
        starts_between(
            alloc,
            self.draft,
            self.begins[range],
            self.begins[range + 1],
        )
    }
}

impl Shaping<'_> {
    /// The marks of all ranges, or the first region that breaks a rule: that of the first range with
    /// one, since all regions before this range keep their rules.
    fn join(&self, alloc: Global, parts: &[Result<Marks, u32>]) -> Result<Marks, Fault>
        requires cut { IsMarksCut self.now.draft.now (length parts.now) (length parts.now) self.now.begins.now }
        requires parts { AreShapedRanges self.now.draft.now self.now.begins.now (length parts.now) parts.now }
        ensures ok { IfOk result (AreShapedStarts self.now.draft.now) }
        ensures err { IfErr result (ShapesMayFail self.now.draft.now) }
    {
        let words = self.draft.geometry().words();
        let mut marks = Marks::with_capacity(alloc, words as usize)?;
        for part in parts {
            match part {
                Ok(behind) => marks.append(behind)?,
                Err(r) => return Err(Fault::Shape(*r)),
            }
        }
        Ok(marks)
    }
}

/// As `shaped_starts`, by this many threads.
fn shaped_by_threads(
    rt: &(impl Threads + Sync),
    alloc: Global,
    draft: &Draft,
    threads: usize,
) -> Result<Marks, Fault>
    requires { 0 < threads }
    ensures ok { IfOk result (AreShapedStarts draft.now) }
    ensures err { IfErr result (ShapesMayFail draft.now) }
{
    let begins = marks_cut(alloc, draft, threads)?;
    let shaping = Shaping {
        draft,
        begins: &begins,
    };
    let parts = make_each(rt, alloc, threads, threads, &shaping)?;
    shaping.join(alloc, &parts)
}

/// As `shaped_starts`, with this many workers at most. One if it is 0.
pub(crate) fn shaped_starts_by(
    rt: &(impl Threads + Sync),
    alloc: Global,
    draft: &Draft,
    workers: u64,
) -> Result<Marks, Fault>
    ensures ok { IfOk result (AreShapedStarts draft.now) }
    ensures err { IfErr result (ShapesMayFail draft.now) }
{
    match threads_for(workers, draft.words().len(), WORDS_A_THREAD) {
        1 => shaped_starts(alloc, draft),
        threads => shaped_by_threads(rt, alloc, draft, threads),
    }
}
