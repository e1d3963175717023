ghost use Rattle.std.specs.Prelude.{◌≡◌, ℕ, ◌+◌, ◌*◌, ◌/◌, ◌%◌, ◌^◌, ◌<◌, ◌≤◌, List, length};
ghost use Rattle.std.specs.Thread.{IsSync};
ghost use Rattle.g1_work.specs.Regions.{EverySlice, EveryChange, HoldsOfSlices, IsFilled};
ghost use Rattle.g1_work.specs.Team.{AreWorkers};

use crate::fill::Fill;
use crate::gate::{Gate, Part};
use std::thread::{Threads, join_mut};

// What writes the regions: the fill, the gate that watches it, and how many words a region has.
#[derive(Drop)]
struct Writer<'a, F, G> {
    fill: &'a F,
    gate: &'a G,
    width: usize,
}

// `count` regions from `first` on, in `runs` runs, the first of which is number `run`.
#[derive(Clone, Copy)]
struct Span {
    run: usize,
    runs: usize,
    first: usize,
    count: usize,
}

/// Fills each region of a list of words in place, the regions being its slices of `width` words.
///
/// The regions are cut into as many runs as there are workers, 1 to 64, or as there are regions, if
/// these are fewer. The runs follow one another, are lent to threads disjointly, and each is
/// reported to the gate as `Fill` once before it is filled. A run for which no thread can be had is
/// filled by the thread that asked. Takes no memory and refuses nothing.
///
/// # Examples
///
/// ```
/// use g1_work::{Fill, Open, each_region_mut};
///
/// struct Numbers;
///
/// impl Fill for Numbers {
///     ghost use Rattle.std.specs.Prelude.{◌≡◌, length, replicate};
///
///     ghost ready = { λ _ _ _. Unit {0} };
///
///     ghost fills = { λ _ region before after. after ≡ replicate (length before) region };
///
///     fn fill(&self, region: usize, words: &mut [u64]) {
///         words.fill(region as u64);
///     }
/// }
///
/// let mut words = [9; 6];
/// each_region_mut(&rt, 2, &mut words, 2, &Numbers, &Open);
/// assert_eq!(rt; words, [0, 0, 1, 1, 2, 2]);
/// ```
pub fn each_region_mut<R: Threads + Sync, F: Fill + Sync, G: Gate + Sync>(
    rt: &R,
    workers: u64,
    words: &mut [u64],
    width: usize,
    fill: &F,
    gate: &G,
)
    requires workers { AreWorkers workers }
    requires width { 0 < width }
    requires whole { length words.old % width ≡ 0 }
    requires ready { EverySlice (F.ready fill.now) width words.old }
    ensures fills { EveryChange (F.fills fill.now) width words.old words.new }
    ensures size { length words.new ≡ length words.old }
{
    let count = words.len() / width;
    if count != 0 {
        let writer = Writer { fill, gate, width };
        let span = Span {
            run: 0,
            runs: (workers as usize).min(count),
            first: 0,
            count,
        };
        fill_span(rt, &writer, span, words);
    }
}

// Fills the regions of a span. The runs are halved at each step and one half goes to a new thread, so
// the stack grows as the logarithm of `runs`. The first runs have one region more where the regions
// cannot be shared evenly.
#[cycle(halves)]
fn fill_span<R: Threads + Sync, F: Fill + Sync, G: Gate + Sync>(
    rt: &R,
    writer: &Writer<'_, F, G>,
    span: Span,
    words: &mut [u64],
)
    requires runs { (0 < span.runs) × (span.runs ≤ span.count) }
    requires named { span.run + span.runs < 2 ^ 64 }
    requires cut { HoldsOfSlices (F.ready writer.now.fill.now) writer.now.width span.first span.count words.old }
    ensures { IsFilled (F.fills writer.now.fill.now) writer.now.width span.first span.count words.old words.new }
{
    if span.runs == 1 {
        writer.gate.at(Part::Fill, span.run as u64);
        fill_run(writer.fill, span.first, span.count, writer.width, words);
        return;
    }
    let low = span.runs / 2;
    let here = span.count / span.runs * low + (span.count % span.runs).min(low);
    let front = Span {
        run: span.run,
        runs: low,
        first: span.first,
        count: here,
    };
    let back = Span {
        run: span.run + low,
        runs: span.runs - low,
        first: span.first + here,
        count: span.count - here,
    };
    let (a, b) = words.split_at_mut(here * writer.width);
    fill_both(rt, writer, front, a, back, b);
}

// Apart from `fill_span`, so that what the closures require is what this function is given.
#[cycle(halves)]
fn fill_both<R: Threads + Sync, F: Fill + Sync, G: Gate + Sync>(
    rt: &R,
    writer: &Writer<'_, F, G>,
    front: Span,
    a: &mut [u64],
    back: Span,
    b: &mut [u64],
)
    requires front_runs { (0 < front.runs) × (front.runs ≤ front.count) }
    requires front_named { front.run + front.runs < 2 ^ 64 }
    requires front { HoldsOfSlices (F.ready writer.now.fill.now) writer.now.width front.first front.count a.old }
    requires back_runs { (0 < back.runs) × (back.runs ≤ back.count) }
    requires back_named { back.run + back.runs < 2 ^ 64 }
    requires back { HoldsOfSlices (F.ready writer.now.fill.now) writer.now.width back.first back.count b.old }
    ensures front { IsFilled (F.fills writer.now.fill.now) writer.now.width front.first front.count a.old a.new }
    ensures back { IsFilled (F.fills writer.now.fill.now) writer.now.width back.first back.count b.old b.new }
{
    let mut fill_front = ||
        requires { IsSync R.row × IsSync F.row × IsSync G.row × (0 < front.runs) × (front.runs ≤ front.count) × (front.run + front.runs < 2 ^ 64) × HoldsOfSlices (F.ready writer.now.fill.now) writer.now.width front.first front.count a.now }
        ensures { IsFilled (F.fills writer.entry.now.fill.now) writer.entry.now.width front.first front.count a.entry.now a.exit.now }
    { fill_span(rt, writer, front, a) };
    let mut fill_back = ||
        requires { IsSync R.row × IsSync F.row × IsSync G.row × (0 < back.runs) × (back.runs ≤ back.count) × (back.run + back.runs < 2 ^ 64) × HoldsOfSlices (F.ready writer.now.fill.now) writer.now.width back.first back.count b.now }
        ensures { IsFilled (F.fills writer.entry.now.fill.now) writer.entry.now.width back.first back.count b.entry.now b.exit.now }
    { fill_span(rt, writer, back, b) };
    join_mut(rt, &mut fill_front, &mut fill_back);
}

// Fills `count` regions from `first` on, one after another.
fn fill_run<F: Fill>(fill: &F, first: usize, count: usize, width: usize, words: &mut [u64])
    requires { HoldsOfSlices (F.ready fill.now) width first count words.old }
    ensures { IsFilled (F.fills fill.now) width first count words.old words.new }
{
    for k in 0..count {
        let at = k * width;
        fill.fill(first + k, &mut words[at..at + width]);
    }
}
