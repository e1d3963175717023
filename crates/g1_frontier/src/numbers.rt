ghost use Rattle.std.specs.Prelude.{◌≡◌, ◌<◌, ◌≤◌, ◌+◌, ◌-◌, ◌*◌, ◌^◌, length, map, min, set, replicate, true, false, IfOk, IfErr, sum_by, count_ones};
ghost use Rattle.g1_words.specs.declared.fault.Fault.TheVariants.{Memory};
ghost use Rattle.g1_words.specs.Geometry.{most_words};
ghost use Rattle.g1_words.specs.Heap.{region};
ghost use Rattle.g1_words.specs.Marks.{marks_of};
ghost use Rattle.g1_words.specs.Valid.{IsValid};
ghost use Rattle.g1_work.specs.Ranges.{ordinary_used};
ghost use Rattle.g1_work.specs.Regions.{slice_of};
ghost use Rattle.g1_frontier.specs.Window.{AreRegions};
ghost use Rattle.g1_frontier.specs.Numbers.{AreBits, AreStarts, and_marked, places_from};

use g1_rem::objects_end;
use g1_words::numbers::{Numbers, mark};
use g1_words::{Fault, Heap, size_at};
use g1_work::{Make, WORDS_A_THREAD, make_each, threads_for};
use std::alloc::{AllocError, Global};
use std::thread::Threads;

/// Sets the bits of the words at which a region's objects begin. The region's first word is the word
/// `first` of the window.
fn mark_region(heap: &Heap, region: u32, first: u64, starts: &mut Vec<u64>)
    requires region { region < heap.now.geometry.n }
    requires room { first + heap.now.geometry.w ≤ 64 * length starts.old.items }
    requires few { 64 * length starts.old.items ≤ most_words }
    ensures marked { marks_of (64 * length starts.old.items) starts.new.items ≡ and_marked (marks_of (64 * length starts.old.items) starts.old.items) (places_from heap.now first region) }
    ensures same { length starts.new.items ≡ length starts.old.items }
{
    let from = heap.geometry().start(region);
    let end = objects_end(heap, region);
    let mut at = from;
    'objects: while at < end {
        mark(starts, (first + (at - from)) as usize);
        at += size_at(heap, at);
    }
}

/// A bit for each word of the window, set if an object begins there.
fn mark_window(alloc: Global, heap: &Heap, window: &[u32]) -> Result<Vec<u64>, AllocError>
    requires { AreRegions heap.now window.now }
    ensures { IfOk result (λ v. AreBits heap.now window.now v.items) }
{
    let width = heap.geometry().region_words();
    let words = window.len() as u64 * width;
    let mut starts = vec![in alloc; 0u64; words.div_ceil(64) as usize]?;
    for (index, region) in window.iter().enumerate() {
        mark_region(heap, *region, index as u64 * width, &mut starts);
    }
    Ok(starts)
}

/// A window that is cut into parts, of each of which the bits are made.
#[derive(Drop)]
struct Parts<'a> {
    heap: &'a Heap,
    window: &'a [u32],
    /// How many regions a part has. The last one may have fewer.
    regions: usize,
}

impl Make for Parts<'_> {
    type Made = Vec<u64>;

    ghost ready = { λ s j. AreRegions s.heap.now s.window.now × (j * s.regions ≤ length s.window.now) };

    ghost makes = { λ s j v. AreBits s.heap.now (slice_of s.regions j s.window.now) v.items };

    fn make(&self, alloc: Global, part: usize) -> Result<Vec<u64>, Fault> {
        let rest = &self.window[part * self.regions..];
        Ok(mark_window(alloc, self.heap, &rest[..self.regions.min(rest.len())])?)
    }
}

/// As `mark_window`, by this many threads.
fn mark_by_threads(
    rt: &(impl Threads + Sync),
    alloc: Global,
    heap: &Heap,
    window: &[u32],
    threads: usize,
) -> Result<Vec<u64>, Fault>
    requires threads { 0 < threads }
    requires heap { IsValid heap.now }
    requires window { AreRegions heap.now window.now }
    requires some { 0 < length window.now }
    ensures ok { IfOk result (λ v. AreBits heap.now window.now v.items) }
    ensures memory { IfErr result (λ e. e ≡ Memory) }
{
    // A region has a power of two of words, at least 16. So the bits of four regions fill their words,
    // and those of the next part begin at a word of their own.
    let regions = window.len().div_ceil(threads).div_ceil(4) * 4;
    let parts = Parts {
        heap,
        window,
        regions,
    };
    let lists = make_each(rt, alloc, threads, window.len().div_ceil(regions), &parts)?;
    Ok(lists.concat(alloc)?)
}

/// How many words of a window's ordinary regions are used. A humongous object is one step of a walk,
/// whatever its size, so its words feed no thread.
fn window_words(heap: &Heap, window: &[u32]) -> usize
    requires { AreRegions heap.now window.now }
    ensures { result ≡ min (ordinary_used (map (region heap.now) window.now)) (2 ^ 64 - 1) }
{
    let mut words: usize = 0;
    for number in window {
        let region = heap.region(*number);
        if region.kind.is_ordinary() {
            words = words.saturating_add(region.top as usize);
        }
    }
    words
}

/// Numbers the objects of a window by their headers, with this many workers at most: how many begin
/// at earlier words of the window. One worker if it is 0.
///
/// Each walks over a part of the window.
///
/// # Errors
/// `Fault::Memory` if a growth was refused.
pub(crate) fn number_window(
    rt: &(impl Threads + Sync),
    alloc: Global,
    heap: &Heap,
    window: &[u32],
    workers: u64,
) -> Result<Numbers, Fault>
    requires { AreRegions heap.now window.now }
    ensures few { IfOk result (λ n. length n ≤ most_words) }
    ensures starts { IfOk result (AreStarts heap.now window.now) }
    ensures memory { IfErr result (λ e. e ≡ Memory) }
{
    g1_words::laws::valid(heap);
    let starts = match threads_for(workers, window_words(heap, window), WORDS_A_THREAD) {
        1 => mark_window(alloc, heap, window)?,
        threads => mark_by_threads(rt, alloc, heap, window, threads)?,
    };
    Ok(Numbers::new(alloc, starts.as_slice())?)
}
