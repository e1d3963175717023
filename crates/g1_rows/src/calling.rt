//! One call by its name.
use crate::given::Given;
use crate::watch::{Answer, Watch};
use crate::{comparing, copying, pausing, pricing, reading, sharing, tracing};
use g1_pause::{Choice, Settings};
use g1_words::Fault;
use std::alloc::{AllocError, Global};
use std::thread::Threads;

/// A call, what it is given, and who makes it.
#[derive(Drop)]
pub(crate) struct Call<'a, R> {
    pub(crate) rt: &'a R,
    pub(crate) alloc: Global,
    pub(crate) name: &'a str,
    pub(crate) given: &'a Given,
    pub(crate) settings: Settings,
}

/// What a call returns, made by this many workers in chunks of this size.
pub(crate) fn answer<R: Threads + Sync>(
    rt: &R,
    alloc: Global,
    name: &str,
    given: &Given,
    team: (u64, u64),
) -> Result<Answer, AllocError> {
    let mut watch = Watch::new(alloc, name)?;
    watch.at("settings");
    let outcome = match given.pause(alloc, team.0, team.1) {
        Ok(settings) => {
            let call = Call {
                rt,
                alloc,
                name,
                given,
                settings,
            };
            make(&call, &mut watch)
        }
        Err(fault) => Err(fault),
    };
    watch.end(outcome.err())
}

/// Makes the call, and those before it that it needs.
fn make<R: Threads + Sync>(call: &Call<'_, R>, watch: &mut Watch) -> Result<(), Fault> {
    match call.name {
        "settings" => print_settings(&call.settings, watch),
        "cost" => pricing::price(call, watch),
        "total" => pricing::add(call, watch),
        "each_region_mut" => sharing::number(call, watch),
        "laid" => {
            watch.at("laid");
            watch.bytes(call.given.part(0));
        }
        _ => return try_to_make(call, watch),
    }
    Ok(())
}

/// Makes a call that may be refused.
fn try_to_make<R: Threads + Sync>(call: &Call<'_, R>, watch: &mut Watch) -> Result<(), Fault> {
    match call.name {
        "deal" => sharing::deal(call, watch),
        "claim" => sharing::claim(call, watch),
        "each_chunk" => sharing::square(call, watch),
        "merged" => reading::merge(call, watch),
        "read" => reading::receive(call, watch),
        "read_stale" => reading::receive_stale(call, watch),
        "copy" => reading::duplicate(call, watch),
        "with_dirty" => reading::add_dirty(call, watch),
        "compare" => comparing::run(call, watch),
        "parse_trace" => tracing::parse(call, watch),
        "run_text" => tracing::run_whole(call, watch),
        "run_trace" => tracing::run_parsed(call, watch),
        "mutator_new" | "step" => tracing::run_steps(call, watch),
        "evacuate" | "report" => pausing::evacuated(call, watch),
        "pause_bytes" => pausing::from_bytes(call, watch),
        "pause_run" => pausing::from_stream(call, watch),
        _ => take_steps(call, watch),
    }
}

/// Takes the steps of a pause, in an order in which each has what it asks for, until one is refused.
fn take_steps<R: Threads + Sync>(call: &Call<'_, R>, watch: &mut Watch) -> Result<(), Fault> {
    let tracked = reading::run(call, watch)?;
    match call.settings.choice() {
        Choice::Budget(budget) => pricing::run(call, &tracked, *budget, watch),
        Choice::Given(regions) => copying::run(call, tracked, regions.as_slice(), watch),
    }
}

fn print_settings(settings: &Settings, watch: &mut Watch) {
    let prices = settings.cost();
    if watch.is_over() {
        watch.named("workers", &[settings.workers()]);
        watch.named("chunk", &[settings.chunk()]);
        let prices = [prices.fixed, prices.dirty, prices.card, prices.byte];
        watch.named("prices", &prices);
        match settings.choice() {
            Choice::Budget(budget) => watch.named("budget", &[*budget]),
            Choice::Given(regions) => watch.named("regions", regions.as_slice()),
        }
    }
}
