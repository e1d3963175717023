ghost use Rattle.std.specs.Prelude.{◌≡◌, ◌≤◌, ◌<◌, ◌+◌, ◌^◌, ◌%◌, ℕ, List, length, All, IsTrue};
ghost use Rattle.g1_work.specs.Regions.{EverySlice, EveryChange};
ghost use Rattle.g1_work.specs.Team.{AreWorkers};
ghost use Rattle.g1_copy.specs.Fates.{fate_at};
ghost use Rattle.g1_copy.specs.Prepared.{IsUnwritten, written};
ghost use Rattle.g1_copy.specs.Slices.{IsWritable, by_fate, patched};

use crate::fates::Fate;
use crate::preparing::Prepared;
use g1_work::{Fill, Gate, MOST_WORKERS, each_region_mut, threads_for};
use std::thread::Threads;

// A thread takes as long to start and to join as it takes to copy this many words, 1 MB.
const WORDS_A_RUN: usize = 131_072;

// A word that is copied takes as long as four that are cleared.
const CLEARED_A_COPIED: usize = 4;

// One worker is fastest for a heap of fewer words, as those of tests. Up to four are hired for it, so
// that tests see threads write.
const FEW_WORDS: usize = 8192;

const FEW_WORKERS: u64 = 4;

/// How many words are copied in the time that it takes to write what was prepared, in regions of this
/// many words.
fn words_to_copy(prepared: &Prepared, region_words: usize) -> usize {
    let mut words = prepared.patches.len();
    for fate in &prepared.fates {
        words = words.saturating_add(match fate {
            Fate::Filled(_) => region_words,
            Fate::Freed => region_words / CLEARED_A_COPIED,
            Fate::Kept => 0,
        });
    }
    words
}

/// How many of the workers write over a heap of `words` what takes as long as so many words to copy.
fn writers(workers: u64, words: usize, to_copy: usize) -> u64
    ensures { AreWorkers result }
{
    if words < FEW_WORDS {
        return workers.min(FEW_WORKERS).max(1);
    }
    threads_for(workers.min(MOST_WORKERS), to_copy, WORDS_A_RUN) as u64
}

/// Writes each patch's word at its slot, in words that begin at this address.
fn write_patches(words: &mut [u64], start: usize, patches: &[(u64, u64)])
    requires there { All (λ x. (start ≤ x.0) × (x.0 < start + length words.old)) patches.now }
    ensures { words.new ≡ patched patches.now start words.old }
{
    for (slot, word) in patches {
        words[*slot as usize - start] = *word;
    }
}

/// What is written over the regions of a heap, in regions of this many words.
#[derive(Drop)]
struct Filling<'a> {
    region_words: usize,
    fates: &'a [Fate],
    gathered: &'a [u64],
    patches: &'a [(u64, u64)],
    firsts: &'a [usize],
}

impl Fill for Filling<'_> {
    ghost ready = { λ s r xs. IsWritable s.region_words s.fates.now s.gathered.now s.patches.now s.firsts.now r xs };

    ghost fills = { λ s r xs ys. ys ≡ by_fate s.region_words s.gathered.now s.patches.now r (fate_at s.fates.now r) xs };

    fn fill(&self, region: usize, words: &mut [u64]) {
        match self.fates[region] {
            Fate::Freed => words.fill(0),
            Fate::Filled(run) => {
                let at = run * self.region_words;
                words.copy_from_slice(&self.gathered[at..at + self.region_words]);
            }
            Fate::Kept => {
                let patches = &self.patches[self.firsts[region]..self.firsts[region + 1]];
                write_patches(words, region * self.region_words, patches);
            }
        }
    }
}

/// Whether nothing is written into a region, except that it may be cleared.
fn is_unwritten(prepared: &Prepared, region: usize) -> bool
    requires fate { region < length prepared.now.fates }
    requires firsts { region + 1 < length prepared.now.firsts }
    ensures { IsTrue result → IsUnwritten prepared.now region }
{
    let filled = matches!(prepared.fates[region], Fate::Filled(_));
    !filled && prepared.firsts[region] == prepared.firsts[region + 1]
}

/// How many regions there are up to the last one that is filled or patched.
pub(crate) fn written_regions(prepared: &Prepared) -> usize
    requires { length prepared.now.firsts ≡ length prepared.now.fates + 1 }
    ensures within { result ≤ length prepared.now.fates }
    ensures others { (r : ℕ) → result ≤ r → r < length prepared.now.fates → IsUnwritten prepared.now r }
{
    let mut regions = prepared.fates.len();
    while regions > 0 && is_unwritten(prepared, regions - 1) {
        regions -= 1;
    }
    regions
}

/// Writes what was prepared over the first words of a heap, region by region, in its own place. Takes
/// no memory.
pub(crate) fn write<R: Threads + Sync, G: Gate + Sync>(
    rt: &R,
    workers: u64,
    words: &mut [u64],
    region_words: usize,
    prepared: &Prepared,
    gate: &G,
)
    requires width { 0 < region_words }
    requires whole { length words.old % region_words ≡ 0 }
    requires ready { EverySlice (IsWritable region_words prepared.now.fates prepared.now.gathered prepared.now.patches prepared.now.firsts) region_words words.old }
    ensures written { words.new ≡ written prepared.now region_words words.old }
    ensures each { EveryChange (λ r xs ys. ys ≡ by_fate region_words prepared.now.gathered prepared.now.patches r (fate_at prepared.now.fates r) xs) region_words words.old words.new }
    ensures size { length words.new ≡ length words.old }
{
    let filling = Filling {
        region_words,
        fates: &prepared.fates,
        gathered: &prepared.gathered,
        patches: &prepared.patches,
        firsts: &prepared.firsts,
    };
    let to_copy = words_to_copy(prepared, region_words);
    let writers = writers(workers, words.len(), to_copy);
    each_region_mut(rt, writers, words, region_words, &filling, gate);
}
