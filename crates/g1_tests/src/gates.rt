//! Gates that see workers at the same time, and count their calls.
use g1_work::{Gate, Part};
use std::sync::atomic::{AtomicBool, AtomicU64, Ordering};
use std::thread;
use std::time::{Clock, Duration};

/// Keeps the numbers of one part below `wanted` inside until all of them are there, this many times.
#[derive(Drop)]
pub(crate) struct Crowd<'a, C: Clock> {
    clock: &'a C,
    part: Part,
    wanted: u64,
    times: u64,
    come: AtomicU64,
    missed: AtomicBool,
}

/// How many milliseconds one waits for the others: after that nobody waits any more.
const NAPS: u64 = 10_000;

impl<'a, C: Clock> Crowd<'a, C> {
    pub(crate) fn new(clock: &'a C, part: Part, wanted: u64, times: u64) -> Crowd<'a, C> {
        Crowd {
            clock,
            part,
            wanted,
            times,
            come: AtomicU64::new(0),
            missed: AtomicBool::new(false),
        }
    }

    /// How often all were inside at once; 0 if one waited in vain.
    pub(crate) fn met(&self) -> u64 {
        if self.missed.load(Ordering::SeqCst) {
            return 0;
        }
        let come = self.come.load(Ordering::SeqCst);
        come.checked_div(self.wanted).unwrap_or(0)
    }

    /// Waits until this many have come.
    fn wait(&self, count: u64) {
        for _ in 0..NAPS {
            if self.come.load(Ordering::SeqCst) >= count || self.missed.load(Ordering::SeqCst) {
                return;
            }
            thread::sleep(self.clock, Duration::from_millis(1));
        }
        self.missed.store(true, Ordering::SeqCst);
    }
}

impl<'a, C: Clock> Gate for Crowd<'a, C> {
    fn at(&self, part: Part, number: u64) {
        if part != self.part || number >= self.wanted {
            return;
        }
        let before = self.come.fetch_add(1, Ordering::SeqCst);
        let met = before.checked_div(self.wanted).unwrap_or(0);
        if met < self.times {
            self.wait(met.saturating_add(1).saturating_mul(self.wanted));
        }
    }
}

/// Counts the calls of each number of a part, in bytes; those from 7 on in the last one.
#[derive(Drop)]
pub(crate) struct Counting {
    part: Part,
    calls: AtomicU64,
}

impl Counting {
    pub(crate) fn new(part: Part) -> Counting {
        let calls = AtomicU64::new(0);
        Counting { part, calls }
    }

    pub(crate) fn calls(&self) -> u64 {
        self.calls.load(Ordering::SeqCst)
    }
}

impl Gate for Counting {
    fn at(&self, part: Part, number: u64) {
        if part == self.part {
            let byte = if number < 7 { number } else { 7 };
            self.calls.fetch_add(1 << (byte * 8), Ordering::SeqCst);
        }
    }
}

/// Notes which numbers it was called for.
#[derive(Drop)]
pub(crate) struct Noting {
    noted: AtomicU64,
}

impl Noting {
    pub(crate) fn new() -> Noting {
        Noting {
            noted: AtomicU64::new(0),
        }
    }

    /// The numbers as bits.
    pub(crate) fn noted(&self) -> u64 {
        self.noted.load(Ordering::SeqCst)
    }
}

impl Gate for Noting {
    fn at(&self, _part: Part, number: u64) {
        if number < 64 {
            self.noted.fetch_or(1 << number, Ordering::SeqCst);
        }
    }
}
