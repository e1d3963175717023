ghost use Rattle.std.specs.Prelude.{◌≡◌, ◌⊎◌, ◌+◌, ◌<◌, ℕ, List, Ok, IfOk, IfErr};
ghost use Rattle.g1_choose.specs.Cost.{IsCost};
ghost use Rattle.g1_work.specs.Team.{IsTeam};
ghost use Rattle.g1_trace.specs.declared.command.Reply.{Reply as ReplyOf};
ghost use Rattle.g1_trace.specs.Run.{IsRun, empty_image};
ghost use Rattle.g1_trace.specs.Running.{AreLimits, IsHeapSize};
ghost use Rattle.g1_trace.specs.Telling.{IsTold, IsRefusal, IsBegun, BeginsOutside};
ghost use Rattle.g1_trace.specs.TraceText.{sizes};

use crate::collector::Collector;
use crate::command::Reply;
use crate::laws;
use crate::mutator::Mutator;
use crate::parsing::{first_line, next_command, parse_trace, split_line};
use crate::replies::push_reply;
use crate::trace::Trace;
use g1_choose::Cost;
use g1_words::{Fault, Geometry};
use g1_work::{Gate, Team};
use std::alloc::Global;
use std::thread::Threads;

/// The heap that a trace starts from, by the numbers of its first line.
///
/// # Errors
///
/// `Fault::Geometry` if a number is outside the limits; `Fault::Memory`.
pub(crate) fn start(alloc: Global, w: u64, k: u64, n: u64, roots: u64) -> Result<Mutator, Fault>
    ensures ok { IfOk result (λ m. m ≡ empty_image (record { w = w; k = k; n = n }) roots) }
    ensures limits { IfOk result (λ m. IsHeapSize (record { w = w; k = k; n = n }) roots) }
    ensures refused { IfErr result (λ e. (e ≡ Fault.Memory) ⊎ ((e ≡ Fault.Geometry) × (IsHeapSize (record { w = w; k = k; n = n }) roots → ⊥))) }
{
    match Geometry::new(w, k, n) {
        Ok(geometry) => Mutator::new(alloc, geometry, roots),
        Err(fault) => Err(fault),
    }
}

/// The replies to a trace, one a command.
///
/// # Errors
///
/// `Fault::Geometry` if a number of its first line is outside the limits of a heap, or there are
/// more than 65,536 roots; `Fault::Memory`.
pub fn run_trace<R: Threads + Sync, G: Gate + Sync>(
    rt: &R,
    alloc: Global,
    trace: &Trace,
    cost: &Cost,
    workers: u64,
    chunk: u64,
    gate: &G,
) -> Result<Vec<Reply>, Fault>
    requires team { IsTeam workers chunk }
    requires cost { IsCost cost.now }
    ensures run { IfOk result (λ replies. IsRun cost.now (sizes trace.now) trace.now.roots trace.now.commands.items replies.items) }
    ensures only { IfOk result (λ replies. (told : List ReplyOf) → IsRun cost.now (sizes trace.now) trace.now.roots trace.now.commands.items told → told ≡ replies.items) }
    ensures limits { IfOk result (λ replies. AreLimits trace.now) }
    ensures refused { IfErr result (λ e. (e ≡ Fault.Memory) ⊎ ((e ≡ Fault.Geometry) × (AreLimits trace.now → ⊥))) }
{
    laws::traces();
    laws::one_run();
    let team = Team::new(workers, chunk);
    let collector = Collector::new(rt, alloc, cost, team, gate);
    let mut mutator = start(alloc, trace.w, trace.k, trace.n, trace.roots)?;
    let mut replies = Vec::new(alloc);
    for command in &trace.commands {
        let (next, outcome) = mutator.execute(command, &collector);
        mutator = next;
        let reply = outcome?;
        replies.push(reply)?;
    }
    Ok(replies)
}

/// What is reported of bytes whose first line has a number outside the limits: the fault of a line
/// comes first.
fn outside(alloc: Global, bytes: &[u8]) -> Fault
    requires { BeginsOutside bytes.now }
    ensures { IsRefusal bytes.now result }
{
    match parse_trace(alloc, bytes) {
        Ok(_trace) => Fault::Geometry,
        Err(fault) => fault,
    }
}

/// The heap of a trace's first line, and the lines after it.
fn begin(alloc: Global, bytes: &[u8]) -> Result<(Mutator, &[u8]), Fault>
    ensures ok { IfOk result (λ r. IsBegun bytes.now r.0 r.1.now) }
    ensures refused { IfErr result (IsRefusal bytes.now) }
{
    let Some((first, rest)) = split_line(bytes) else {
        return Err(Fault::Line(1));
    };
    let Some((w, k, n, roots)) = first_line(first) else {
        return Err(Fault::Line(1));
    };
    match start(alloc, w, k, n, roots) {
        Ok(mutator) => Ok((mutator, rest)),
        Err(Fault::Geometry) => Err(outside(alloc, bytes)),
        Err(fault) => Err(fault),
    }
}

/// The replies to the trace whose text the bytes are, a line each. Each line is read, done and
/// answered in turn, and nothing is kept of it but the reply's text.
///
/// # Errors
///
/// `Fault::Line` with the number, from 1, of the first line that isn't of its form; else
/// `Fault::Geometry` if a number of the first line is outside the limits of a heap, or there are
/// more than 65,536 roots; `Fault::Memory`.
pub fn run_text<R: Threads + Sync, G: Gate + Sync>(
    rt: &R,
    alloc: Global,
    bytes: &[u8],
    cost: &Cost,
    team: Team,
    gate: &G,
) -> Result<Vec<u8>, Fault>
    requires cost { IsCost cost.now }
    ensures told { IfOk result (λ text. IsTold cost.now bytes.now text.items) }
    ensures only { IfOk result (λ text. (other : List ℕ) → IsTold cost.now bytes.now other → other ≡ text.items) }
    ensures refused { IfErr result (IsRefusal bytes.now) }
{
    laws::traces();
    laws::one_answer();
    let collector = Collector::new(rt, alloc, cost, team, gate);
    let (mut mutator, mut rest) = begin(alloc, bytes)?;
    let mut text: Vec<u8> = Vec::new(alloc);
    let mut lines: u64 = 1;
    while rest.len() > 0 {
        let (command, more) = next_command(rest, lines + 1)?;
        let (next, outcome) = mutator.execute(&command, &collector);
        mutator = next;
        let reply = outcome?;
        push_reply(&mut text, reply)?;
        lines += 1;
        rest = more;
    }
    Ok(text)
}
