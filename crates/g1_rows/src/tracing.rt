//! Traces, and their commands one by one.
use crate::calling::Call;
use crate::watch::Watch;
use g1_trace::{Command, Mutator, Reply, Trace, parse_trace, push_reply, run_text, run_trace};
use g1_words::{Fault, Geometry};
use g1_work::{Open, Team};
use std::alloc::{AllocError, Global};
use std::thread::Threads;

/// The sizes of the trace, and how many commands it has.
pub(crate) fn parse<R>(call: &Call<'_, R>, watch: &mut Watch) -> Result<(), Fault> {
    watch.at("parse_trace");
    let trace = parse_trace(call.alloc, call.given.part(0))?;
    let commands = trace.commands.len() as u64;
    watch.numbers(&[trace.w, trace.k, trace.n, trace.roots, commands]);
    Ok(())
}

/// The whole trace, from text to text.
pub(crate) fn run_whole<R: Threads + Sync>(
    call: &Call<'_, R>,
    watch: &mut Watch,
) -> Result<(), Fault> {
    let team = Team::new(call.settings.workers(), call.settings.chunk());
    let prices = call.settings.cost();
    let bytes = call.given.part(0);
    watch.at("run_text");
    let text = run_text(call.rt, call.alloc, bytes, &prices, team, &Open)?;
    watch.bytes(text.as_slice());
    Ok(())
}

/// The replies to the whole trace, parsed first.
pub(crate) fn run_parsed<R: Threads + Sync>(
    call: &Call<'_, R>,
    watch: &mut Watch,
) -> Result<(), Fault> {
    let (workers, chunk) = (call.settings.workers(), call.settings.chunk());
    let prices = call.settings.cost();
    watch.at("run_trace");
    let trace = parse_trace(call.alloc, call.given.part(0))?;
    let replies = run_trace(call.rt, call.alloc, &trace, &prices, workers, chunk, &Open)?;
    if watch.is_over() {
        watch.bytes_made(text_of(call.alloc, replies.as_slice()));
    }
    Ok(())
}

fn text_of(alloc: Global, replies: &[Reply]) -> Result<Vec<u8>, AllocError> {
    let mut text = Vec::new(alloc);
    for reply in replies {
        push_reply(&mut text, *reply)?;
    }
    Ok(text)
}

/// Gives the commands one by one. If `step` is watched, each of them is.
pub(crate) fn run_steps<R: Threads + Sync>(
    call: &Call<'_, R>,
    watch: &mut Watch,
) -> Result<(), Fault> {
    let trace = parse_trace(call.alloc, call.given.part(0))?;
    let mut mutator = begin(call.alloc, &trace, watch)?;
    for command in &trace.commands {
        let (next, reply) = step(call, mutator, command, watch)?;
        mutator = next;
        watch.bytes_made(text_of(call.alloc, &[reply]));
    }
    Ok(())
}

fn begin(alloc: Global, trace: &Trace, watch: &mut Watch) -> Result<Mutator, Fault> {
    let geometry = Geometry::new(trace.w, trace.k, trace.n)?;
    watch.at("mutator_new");
    let mutator = Mutator::new(alloc, geometry, trace.roots)?;
    watch.is_over();
    Ok(mutator)
}

/// One command. If it is refused memory, it is given again.
fn step<R: Threads + Sync>(
    call: &Call<'_, R>,
    mutator: Mutator,
    command: &Command,
    watch: &mut Watch,
) -> Result<(Mutator, Reply), Fault> {
    watch.at("step");
    let (mutator, outcome) = give(call, mutator, command);
    let is_watched = watch.is_over();
    match outcome {
        Ok(reply) => Ok((mutator, reply)),
        Err(fault) => {
            if is_watched {
                watch.fault(&fault);
            }
            let (mutator, outcome) = give(call, mutator, command);
            Ok((mutator, outcome?))
        }
    }
}

/// What `step` promises is not needed here.
fn give<R: Threads + Sync>(
    call: &Call<'_, R>,
    mutator: Mutator,
    command: &Command,
) -> (Mutator, Result<Reply, Fault>) {
    let (workers, chunk) = (call.settings.workers(), call.settings.chunk());
    let prices = call.settings.cost();
    mutator.step(call.rt, call.alloc, command, &prices, workers, chunk, &Open)
}
