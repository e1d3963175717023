ghost use Rattle.std.specs.Prelude.{◌≡◌, ◌≤◌};

use g1_work::{Gate, Team};
use std::alloc::Global;
use std::thread::Threads;

/// How a round puts what its workers kept in the order of the ranks.
#[derive(Clone, Copy, Drop)]
pub(crate) enum Merging {
    /// Their lists are merged by rank.
    Ranks,
    /// What was kept of each chunk is taken from them, chunk by chunk.
    Chunks,
}

/// What a round runs with: threads and memory, how many workers draw how many items at once, how what
/// they keep is put in order, and the gate to which they report.
#[derive(Drop)]
pub(crate) struct Crew<'a, R, G> {
    pub rt: &'a R,
    pub alloc: Global,
    pub team: Team,
    pub merging: Merging,
    pub gate: &'a G,
}

// A thread takes as long to start as some 500 items to be looked at. So a round has a worker for
// each 2,048 items.
const ITEMS_A_WORKER: usize = 2048;

// The first rounds of a call are all that a small heap has. They may have two workers for fewer
// items, so that small heaps are shared, too.
const ROUNDS_OF_TWO: u64 = 16;

impl<'a, R: Threads + Sync, G: Gate + Sync> Crew<'a, R, G> {
    /// Whether a search goes by rounds of claims: if it has several workers, who compete for objects.
    pub fn takes_rounds(&self) -> bool {
        self.team.workers() > 1
    }

    /// Hires from the crew for a round of this many items.
    pub fn hire(&self, items: usize, round: u64) -> Crew<'a, R, G>
        ensures workers { result.team.workers ≤ self.now.team.workers }
        ensures chunk { result.team.chunk ≡ self.now.team.chunk }
    {
        let fed = (items / ITEMS_A_WORKER) as u64;
        let fewest = if round < ROUNDS_OF_TWO { 2 } else { 1 };
        let workers = self.team.workers().min(fed.max(fewest));
        Crew {
            rt: self.rt,
            alloc: self.alloc,
            team: Team::new(workers, self.team.chunk()),
            merging: self.merging,
            gate: self.gate,
        }
    }
}
