ghost use Rattle.std.specs.Prelude.{◌≡◌, ◌<◌, ◌^◌, IfOk, IfErr, vec_len, All, ℕ};
ghost use Rattle.g1_deal.specs.Dealer.{first_seat};
ghost use Rattle.g1_work.specs.Each.{IsEachRun, IsFaultOf};
ghost use Rattle.g1_work.specs.Team.{AreWorkers};
ghost use Rattle.g1_work.specs.Worker.{IsFresh, IsDone, IsHired, AreBack};

use crate::gate::{Gate, Part};
use crate::gather::gather;
use crate::merge::in_order;
use crate::task::Task;
use crate::worker::{Gathered, Worked, Worker};
use g1_deal::{DealSeat, Dealer};
use g1_words::Fault;
use std::alloc::{AllocError, Global};
use std::collections::VecDeque;
use std::thread;
use std::thread::Threads;

// What each worker of a call runs: the task, on the chunks of one dealer.
#[derive(Drop)]
struct Job<'a, T, G> {
    alloc: Global,
    dealer: &'a Dealer,
    task: &'a T,
    gate: &'a G,
}

// Draws chunks and runs the task on each, until none is left.
fn work<T: Task, G: Gate>(
    job: &Job<'_, T, G>,
    worker: Worker<T::State>,
) -> Result<Worked<T::State, T::Out>, Fault>
    requires { IsFresh (T.ready job.now.task.now) job.now.dealer.now worker }
    ensures ok { IfOk result (IsDone (T.runs job.now.task.now) job.now.dealer.now worker) }
    ensures err { IfErr result (IsFaultOf (T.may_fail job.now.task.now) job.now.dealer.now.chunks) }
{
    let Worker {
        mut seat,
        mut state,
    } = worker;
    let mut outs = VecDeque::new(job.alloc);
    while let Some(chunk) = job.dealer.take(&mut seat) {
        job.gate.at(Part::Deal, chunk);
        let out = job.task.run(&mut state, chunk)?;
        outs.push_back((chunk, out))?;
    }
    Ok(Worked { seat, state, outs })
}

// A worker for each state, from the last to the first. The first state's worker keeps the shares
// that are left.
fn hire<S: Drop>(
    alloc: Global,
    dealer: &Dealer,
    mut seat: DealSeat,
    mut states: Vec<S>,
) -> Result<Vec<Worker<S>>, AllocError>
    requires count { AreWorkers (vec_len states) }
    requires seat { seat ≡ first_seat dealer.now }
    ensures { IfOk result (λ v. IsHired dealer.now states.items v.items) }
{
    let mut workers = Vec::new(alloc);
    while states.len() > 1 {
        let Some(state) = states.pop() else {
            unreachable!()
        };
        let theirs = dealer.split(&mut seat);
        workers.push(Worker {
            seat: theirs,
            state,
        })?;
    }
    let Some(state) = states.pop() else {
        unreachable!()
    };
    workers.push(Worker { seat, state })?;
    Ok(workers)
}

// One worker after another, on the thread that asked.
fn run_in_turn<T: Task, G: Gate>(
    job: &Job<'_, T, G>,
    workers: Vec<Worker<T::State>>,
) -> Result<Vec<Result<Worked<T::State, T::Out>, Fault>>, AllocError>
    requires { All (IsFresh (T.ready job.now.task.now) job.now.dealer.now) workers.items }
    ensures { IfOk result (λ v. AreBack (T.runs job.now.task.now) (T.may_fail job.now.task.now) job.now.dealer.now workers.items v.items) }
{
    let mut results = Vec::new(job.alloc);
    for worker in workers {
        let result = work(job, worker);
        results.push(result)?;
    }
    Ok(results)
}

// Each worker in a thread of its own if one can be made, and else on the thread that asked. A thread
// costs more than a chunk, so with at most one chunk none is started.
fn run_all<R: Threads + Sync, T: Task + Sync, G: Gate + Sync>(
    rt: &R,
    job: &Job<'_, T, G>,
    workers: Vec<Worker<T::State>>,
) -> Result<Vec<Result<Worked<T::State, T::Out>, Fault>>, AllocError>
    requires { All (IsFresh (T.ready job.now.task.now) job.now.dealer.now) workers.items }
    ensures { IfOk result (λ v. AreBack (T.runs job.now.task.now) (T.may_fail job.now.task.now) job.now.dealer.now workers.items v.items) }
{
    if job.dealer.chunks() <= 1 {
        return run_in_turn(job, workers);
    }
    thread::map_vec(
        rt,
        workers,
        &|worker: Worker<T::State>| -> Result<Worked<T::State, T::Out>, Fault>
            requires { IsFresh (T.ready job.now.task.now) job.now.dealer.now worker }
            ensures ok { IfOk result (IsDone (T.runs job.entry.now.task.now) job.entry.now.dealer.now worker) }
            ensures err { IfErr result (IsFaultOf (T.may_fail job.entry.now.task.now) job.entry.now.dealer.now.chunks) }
        { work(job, worker) },
    )
}

/// Runs the task once on each chunk below `chunks`, and gives the states and the outs.
///
/// There is one worker for each state, 1 to 64. Each draws chunks until none is left, and before
/// each run reports the chunk to the gate as `Deal`. The states come back in their order, each as the
/// chunks that its worker drew, in rising order, made it; the outs are in the order of the chunks.
/// A worker for which no thread can be had does its part on the thread that asked. With at most one
/// chunk no thread is started. With fewer chunks than workers some threads are started for nothing:
/// `Team::for_chunks` leaves those out.
///
/// # Errors
/// `Memory`, or a fault that the task states for one of the chunks. The states are given up.
///
/// # Examples
///
/// ```
/// use g1_words::Fault;
/// use g1_work::{Open, Task, each_chunk};
///
/// struct Squares;
///
/// impl Task for Squares {
///     type State = ();
///
///     type Out = u64;
///
///     ghost use Rattle.std.specs.Prelude.{◌≡◌, ◌<◌, ◌*◌, ◌^◌};
///
///     ghost ready = { λ _ _ chunk. chunk < 2 ^ 32 };
///
///     ghost runs = { λ _ _ chunk _ out. out ≡ chunk * chunk };
///
///     ghost may_fail = { λ _ _ _. ⊥ };
///
///     fn run(&self, _state: &mut (), chunk: u64) -> Result<u64, Fault> {
///         Ok(chunk * chunk)
///     }
/// }
///
/// // Two workers, each with a state of its own.
/// let states = vec![in alloc; (); 2]?;
/// let (_, squares) = each_chunk(&rt, alloc, states, 5, &Squares, &Open)?;
/// assert_eq!(rt; squares.as_slice(), [0, 1, 4, 9, 16].as_slice());
/// ```
pub fn each_chunk<R: Threads + Sync, T: Task + Sync, G: Gate + Sync>(
    rt: &R,
    alloc: Global,
    states: Vec<T::State>,
    chunks: u64,
    task: &T,
    gate: &G,
) -> Result<(Vec<T::State>, Vec<T::Out>), Fault>
    requires chunks { chunks < 2 ^ 32 }
    requires workers { AreWorkers (vec_len states) }
    requires ready { All (λ s. (chunk : ℕ) → chunk < chunks → T.ready task.now s chunk) states.items }
    ensures ok { IfOk result (λ r. IsEachRun (T.runs task.now) chunks states.items r.0.items r.1.items) }
    ensures err { IfErr result (IsFaultOf (T.may_fail task.now) chunks) }
{
    let (dealer, seat) = Dealer::new(alloc, chunks)?;
    let workers = hire(alloc, &dealer, seat, states)?;
    let job = Job {
        alloc,
        dealer: &dealer,
        task,
        gate,
    };
    let results = run_all(rt, &job, workers)?;
    let Gathered {
        seat,
        states,
        parts,
    } = gather(alloc, &dealer, results)?;
    dealer.close(seat);
    let outs = in_order(alloc, parts, chunks)?;
    Ok((states, outs))
}
