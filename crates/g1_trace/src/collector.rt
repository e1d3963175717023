ghost use Rattle.std.specs.Prelude.{◌≡◌, IfOk, IfErr};
ghost use Rattle.g1_choose.specs.Cost.{IsCost};
ghost use Rattle.g1_trace.specs.Mutator.{IsEffect};

use crate::command::Reply;
use crate::effect::Effect;
use g1_choose::Cost;
use g1_pause::{Choice, Settings, evacuate};
use g1_rem::Tracked;
use g1_words::Fault;
use g1_work::{Gate, Team};
use std::alloc::Global;
use std::thread::Threads;

/// What makes the pauses of a trace: threads and memory, what a pause costs, and the team that shares
/// it.
#[derive(Drop)]
pub(crate) struct Collector<'a, R, G> {
    pub rt: &'a R,
    pub alloc: Global,
    pub cost: Cost,
    pub team: Team,
    pub gate: &'a G,
    ghost is_cost: { IsCost cost },
}

impl<'a, R: Threads + Sync, G: Gate + Sync> Collector<'a, R, G> {
    /// A collector whose pauses have this cost, which a team shares.
    pub(crate) fn new(
        rt: &'a R,
        alloc: Global,
        cost: &Cost,
        team: Team,
        gate: &'a G,
    ) -> Collector<'a, R, G>
        requires cost { IsCost cost.now }
        ensures { result.cost ≡ cost.now }
    {
        Collector {
            rt,
            alloc,
            cost: *cost,
            team,
            gate,
        }
    }
}

/// Makes one pause by a budget.
///
/// # Errors
///
/// `Fault::Memory`, with the image as it was.
pub(crate) fn pause<R: Threads + Sync, G: Gate + Sync>(
    collector: &Collector<'_, R, G>,
    tracked: Tracked,
    budget: u64,
) -> (Tracked, Result<Reply, Fault>)
    ensures done { IfOk result.1 (λ r. IsEffect collector.now.cost tracked (Effect.MakePause budget) Reply.Ok r result.0) }
    ensures memory { IfErr result.1 (λ e. e ≡ Fault.Memory) }
    ensures same { IfErr result.1 (λ e. result.0 ≡ tracked) }
{
    let (workers, chunk) = (collector.team.workers(), collector.team.chunk());
    let evacuated = {
        let choice = Choice::Budget(budget);
        let settings = Settings::new(workers, chunk, collector.cost, choice).unwrap();
        evacuate(
            collector.rt,
            collector.alloc,
            tracked,
            &settings,
            collector.gate,
        )
    };
    match evacuated {
        Ok((tracked, _report)) => (tracked, Ok(Reply::Ok)),
        Err((tracked, fault)) => match fault {
            Fault::Memory => (tracked, Err(Fault::Memory)),
            _ => (tracked, Ok(Reply::Room)),
        },
    }
}
