//! Where the objects of an image lie: each behind the one before, a humongous one in regions of its own.
use crate::refused::{Refused, heap_limit};
use crate::wanted::Sizes;
use g1_words::{Kind, Limits, Region};
use std::alloc::{AllocError, Global};

/// Objects of one size behind each other.
#[derive(Clone, Copy)]
pub(crate) struct Run {
    pub size: u64,
    pub count: u64,
}

/// Adds objects of a size behind runs.
pub(crate) fn push_run(runs: &mut Vec<Run>, size: u64, count: u64) -> Result<(), AllocError> {
    if let Some(last) = runs.last_mut()
        && last.size == size
    {
        last.count = last.count.saturating_add(count);
        return Ok(());
    }
    runs.push(Run { size, count })?;
    Ok(())
}

/// How many words runs take.
pub(crate) fn words_in(runs: &[Run]) -> u64 {
    let mut words = 0u64;
    for run in runs {
        words = words.saturating_add(run.size.saturating_mul(run.count));
    }
    words
}

/// The used regions of a heap, and the addresses of its objects.
#[derive(Drop)]
pub(crate) struct Layout {
    width: u64,
    pub regions: Vec<Region>,
    /// The address of each object, if addresses are kept.
    pub starts: Vec<u32>,
    keeps_starts: bool,
    // The region that is filled at present, and the words left in it.
    filled: usize,
    room: u64,
}

impl Layout {
    /// Lays objects in regions of this width, of which there are so many at most.
    pub(crate) fn of_runs(
        alloc: Global,
        runs: &[Run],
        width: u64,
        keeps_starts: bool,
    ) -> Result<Layout, AllocError> {
        let mut layout = Layout {
            width,
            regions: Vec::new(alloc),
            starts: Vec::new(alloc),
            keeps_starts,
            filled: 0,
            room: 0,
        };
        for run in runs {
            if run.size.saturating_mul(4) > width.saturating_mul(3) {
                for _ in 0..run.count {
                    layout.add_humongous(run.size)?;
                }
            } else {
                layout.add_run(*run)?;
            }
        }
        Ok(layout)
    }

    fn add_run(&mut self, run: Run) -> Result<(), AllocError> {
        let mut left = run.count;
        // Each region takes an object at least.
        for _ in 0..run.count {
            if left == 0 {
                break;
            }
            if run.size > self.room {
                self.filled = self.regions.len();
                self.room = self.width;
                self.add_region(Kind::Ordinary, 0)?;
            }
            let fitting = left.min(self.room.checked_div(run.size).unwrap_or(left));
            self.fill(run.size, fitting)?;
            left = left.saturating_sub(fitting);
        }
        Ok(())
    }

    // Puts so many objects into the region that is filled.
    fn fill(&mut self, size: u64, count: u64) -> Result<(), AllocError> {
        let words = size.saturating_mul(count);
        let Some(region) = self.regions.get_mut(self.filled) else {
            return Ok(());
        };
        let top = u64::from(region.top);
        region.top = number_of(top.saturating_add(words));
        self.room = self.room.saturating_sub(words);
        let start = (self.filled as u64)
            .saturating_mul(self.width)
            .saturating_add(top);
        if self.keeps_starts {
            push_starts(&mut self.starts, start, size, count)?;
        }
        Ok(())
    }

    fn add_humongous(&mut self, size: u64) -> Result<(), AllocError> {
        let start = (self.regions.len() as u64).saturating_mul(self.width);
        if self.keeps_starts {
            self.starts.push(number_of(start))?;
        }
        let mut left = size;
        let mut kind = Kind::HumongousFirst;
        // A region takes a word at least.
        for _ in 0..size {
            if left == 0 {
                break;
            }
            let top = left.min(self.width);
            self.add_region(kind, top)?;
            left = left.saturating_sub(top);
            kind = Kind::Continuation;
        }
        Ok(())
    }

    fn add_region(&mut self, kind: Kind, top: u64) -> Result<(), AllocError> {
        self.regions.push(Region {
            kind,
            top: number_of(top),
            pinned: false,
        })?;
        Ok(())
    }
}

fn push_starts(starts: &mut Vec<u32>, first: u64, size: u64, count: u64) -> Result<(), AllocError> {
    let mut start = first;
    for _ in 0..count {
        starts.push(number_of(start))?;
        start = start.saturating_add(size);
    }
    Ok(())
}

// A number of words of a heap, which has 32 bits.
fn number_of(words: u64) -> u32 {
    u32::try_from(words).unwrap_or(u32::MAX)
}

// What is chosen if nobody says W, K and N.
const LEAST_WIDTH: u64 = 4096;

const CARD: u64 = 64;

const MOST_REGIONS: u64 = 4096;

fn most_regions(width: u64, limits: Limits) -> u64 {
    MOST_REGIONS.min(limits.words().checked_div(width).unwrap_or(0))
}

/// Sizes for objects of these runs: such as the specification's limits take, if the objects fit into them.
pub(crate) fn choose(alloc: Global, runs: &[Run]) -> Result<Sizes, Refused> {
    let words = words_in(runs);
    if words > heap_limit() {
        return Err(Refused::TooLarge {
            words,
            is_whole: true,
        });
    }
    if words <= Limits::Specified.words()
        && let Some(sizes) = choose_within(alloc, runs, Limits::Specified)?
    {
        return Ok(sizes);
    }
    match choose_within(alloc, runs, Limits::Wide)? {
        Some(sizes) => Ok(sizes),
        None => Err(Refused::NoFit { words }),
    }
}

// The least width at which half of the regions stay free, or else the one that leaves most words free.
fn choose_within(alloc: Global, runs: &[Run], limits: Limits) -> Result<Option<Sizes>, Refused> {
    let mut best: Option<(u64, Sizes)> = None;
    let mut width = LEAST_WIDTH;
    for _ in 0..32u32 {
        if width > limits.region_words() {
            break;
        }
        let needed = Layout::of_runs(alloc, runs, width, false)?.regions.len() as u64;
        let most = most_regions(width, limits);
        if needed.saturating_mul(2) <= most {
            return Ok(Some(sizes_of(width, needed.saturating_mul(2).max(2))));
        }
        if needed <= most {
            let free = most.saturating_sub(needed).saturating_mul(width);
            let is_better = match &best {
                None => true,
                Some((other, _)) => free > *other,
            };
            if is_better {
                best = Some((free, sizes_of(width, most)));
            }
        }
        width = width.saturating_mul(2);
    }
    Ok(best.map(|found| found.1))
}

fn sizes_of(region_words: u64, regions: u64) -> Sizes {
    Sizes {
        region_words,
        card_words: CARD,
        regions,
    }
}

/// Lays objects in a heap of these sizes.
pub(crate) fn lay(alloc: Global, runs: &[Run], sizes: Sizes) -> Result<Layout, Refused> {
    let words = words_in(runs);
    if words > heap_limit() {
        return Err(Refused::TooLarge {
            words,
            is_whole: true,
        });
    }
    let layout = Layout::of_runs(alloc, runs, sizes.region_words, true)?;
    let needed = layout.regions.len() as u64;
    if needed > sizes.regions {
        return Err(Refused::TooFew {
            words,
            needed,
            region_words: sizes.region_words,
            regions: sizes.regions,
        });
    }
    Ok(layout)
}
