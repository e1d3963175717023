//! Chunks that workers draw, and regions that they fill in place, by runs.
ghost use Rattle.std.specs.Prelude.{◌≡◌, ◌<◌, ◌+◌, ◌^◌, ◌*◌, ◌≤◌, ℕ, IfOk, slice_index, length, replicate};
ghost use Rattle.g1_words.specs.declared.fault.Fault.TheVariants.{Line};

use crate::expecting::{expect_equal, expect_list};
use crate::gates::{Counting, Noting};
use g1_words::Fault;
use g1_work::{Fill, Gate, Open, Part, Task, each_chunk, each_region_mut};
use std::alloc::Global;
use std::sync::atomic::{AtomicBool, Ordering};
use std::thread::Threads;

// Squares the chunk, and keeps one more than it.
struct Squares;

impl Task for Squares {
    type State = u64;

    type Out = u64;

    ghost ready = { λ _ _ chunk. chunk < 2 ^ 32 };

    ghost runs = { λ _ _ chunk t out. (out ≡ chunk * chunk) × (t ≡ chunk + 1) };

    ghost may_fail = { λ _ _ _. ⊥ };

    fn run(&self, state: &mut u64, chunk: u64) -> Result<u64, Fault> {
        *state = chunk + 1;
        Ok(chunk * chunk)
    }
}

// The squares of the chunks, as the contract of `each_chunk` alone gives them.
pub(crate) fn squared_chunks<R: Threads + Sync, G: Gate + Sync>(
    rt: &R,
    alloc: Global,
    workers: usize,
    chunks: u64,
    gate: &G,
) -> Result<(Vec<u64>, Vec<u64>), Fault>
    requires chunks { chunks < 2 ^ 32 }
    requires workers { (0 < workers) × (workers ≤ 64) }
    ensures len { IfOk result (λ v. length v.1.items ≡ chunks) }
    ensures squares { IfOk result (λ v. (k : ℕ) → k < chunks → slice_index v.1.items k ≡ k * k) }
{
    let states = vec![in alloc; 0; workers]?;
    let (states, outs) = each_chunk(rt, alloc, states, chunks, &Squares, gate)?;
    Ok((states, outs))
}

// Gives up on one chunk.
struct Refuses;

impl Task for Refuses {
    type State = ();

    type Out = u64;

    ghost ready = { λ _ _ _. Unit {0} };

    ghost runs = { λ _ _ chunk _ out. out ≡ chunk };

    ghost may_fail = { λ _ chunk e. (chunk ≡ 5) × (e ≡ Line 5) };

    fn run(&self, _state: &mut (), chunk: u64) -> Result<u64, Fault> {
        if chunk == 5 {
            return Err(Fault::Line(5));
        }
        Ok(chunk)
    }
}

#[test]
fn a_failed_run_is_the_answer(rt: HostRuntime) -> Result<(), Fault> {
    let states = vec![in rt.alloc(); (); 3]?;
    let told = each_chunk(&rt, rt.alloc(), states, 8, &Refuses, &Open).err();
    expect_equal(&rt, told, Some(Fault::Line(5)));
    Ok(())
}

const FIRST_EIGHT: [u64; 8] = [0, 1, 4, 9, 16, 25, 36, 49];

#[test]
fn the_gate_is_told_of_each_chunk_once(rt: HostRuntime) -> Result<(), Fault> {
    let gate = Counting::new(Part::Deal);
    let (states, outs) = squared_chunks(&rt, rt.alloc(), 3, 8, &gate)?;
    expect_equal(&rt, gate.calls(), 0x0101_0101_0101_0101);
    // The states are as many as the workers, and one of them saw the last chunk.
    let greatest = states.iter().max().copied();
    expect_equal(&rt, (states.len(), greatest), (3, Some(8)));
    expect_list(&rt, &outs, &FIRST_EIGHT);
    squared_chunks(&rt, rt.alloc(), 3, 1, &gate)?;
    expect_equal(&rt, gate.calls(), 0x0101_0101_0101_0102);
    Ok(())
}

// Gives 1 for a chunk that the gate was called for before, else 0.
#[derive(Drop)]
struct Late<'a> {
    gate: &'a Noting,
}

impl<'a> Task for Late<'a> {
    type State = ();

    type Out = u64;

    ghost ready = { λ _ _ _. Unit {0} };

    ghost runs = { λ _ _ _ _ _. Unit {0} };

    ghost may_fail = { λ _ _ _. ⊥ };

    fn run(&self, _state: &mut (), chunk: u64) -> Result<u64, Fault> {
        if chunk < 64 {
            Ok(self.gate.noted() >> chunk & 1)
        } else {
            Ok(0)
        }
    }
}

#[test]
fn the_gate_is_told_before_the_run(rt: HostRuntime) -> Result<(), Fault> {
    let alloc = rt.alloc();
    for (workers, chunks) in [(1, 1), (1, 64), (3, 64)] {
        let gate = Noting::new();
        let states = vec![in alloc; (); workers]?;
        let (_, told) = each_chunk(&rt, alloc, states, chunks, &Late { gate: &gate }, &gate)?;
        for out in &told {
            expect_equal(&rt, *out, 1);
        }
    }
    Ok(())
}

// Keeps number 0 inside until the numbers up to 7 have come.
#[derive(Drop)]
struct Waiting {
    noting: Noting,
    missed: AtomicBool,
}

const TURNS: u64 = 200_000_000;

impl Waiting {
    fn wait(&self) {
        for _ in 0..TURNS {
            if self.noting.noted() == 0xff {
                return;
            }
        }
        self.missed.store(true, Ordering::SeqCst);
    }
}

impl Gate for Waiting {
    fn at(&self, part: Part, number: u64) {
        self.noting.at(part, number);
        if number == 0 {
            self.wait();
        }
    }
}

// A worker that is kept at its chunk leaves the others to another one.
#[test]
fn one_worker_draws_while_another_waits(rt: HostRuntime) -> Result<(), Fault> {
    let gate = Waiting {
        noting: Noting::new(),
        missed: AtomicBool::new(false),
    };
    let (_, outs) = squared_chunks(&rt, rt.alloc(), 2, 8, &gate)?;
    expect_equal(&rt, gate.missed.load(Ordering::SeqCst), false);
    expect_list(&rt, &outs, &FIRST_EIGHT);
    Ok(())
}

/// Writes a region's number over its words.
pub(crate) struct Numbers;

impl Fill for Numbers {
    ghost ready = { λ _ _ _. Unit {0} };

    ghost fills = { λ _ r xs ys. ys ≡ replicate (length xs) r };

    fn fill(&self, region: usize, words: &mut [u64]) {
        words.fill(region as u64);
    }
}

#[test]
fn the_gate_is_told_of_each_run_once(rt: HostRuntime) {
    let gate = Counting::new(Part::Fill);
    each_region_mut(&rt, 3, &mut [9; 14], 2, &Numbers, &gate);
    expect_equal(&rt, gate.calls(), 0x01_0101);
    each_region_mut(&rt, 64, &mut [9; 2], 1, &Numbers, &gate);
    expect_equal(&rt, gate.calls(), 0x01_0202);
    each_region_mut(&rt, 64, &mut [9; 0], 2, &Numbers, &gate);
    expect_equal(&rt, gate.calls(), 0x01_0202);
}

// Writes over a region's words which runs the gate was called for before.
#[derive(Drop)]
struct Told<'a> {
    gate: &'a Noting,
}

impl<'a> Fill for Told<'a> {
    ghost ready = { λ _ _ _. Unit {0} };

    ghost fills = { λ _ _ _ _. Unit {0} };

    fn fill(&self, _region: usize, words: &mut [u64]) {
        words.fill(self.gate.noted());
    }
}

#[test]
fn the_gate_is_told_before_a_run_is_filled(rt: HostRuntime) {
    for workers in [1, 2, 4, 8, 64] {
        let gate = Noting::new();
        let mut words = [0; 8];
        each_region_mut(&rt, workers, &mut words, 1, &Told { gate: &gate }, &gate);
        for (region, told) in words.iter().enumerate() {
            let run = region as u64 * workers.min(8) / 8;
            expect_equal(&rt, told >> run & 1, 1);
        }
    }
}
