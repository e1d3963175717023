ghost use Rattle.std.specs.Prelude.{◌≡◌, ◌↔◌, ℕ, List, Some, None, IsTrue, IfSome, IfNone, IfOk, IfErr, OnErr};
ghost use Rattle.g1_choose.specs.declared.parameters.Cost.{Cost as CostOf};
ghost use Rattle.g1_pause.specs.declared.settings.Choice.TheVariants.{Budget};
ghost use Rattle.g1_trace.specs.TraceText.{command_line, numbers_of, AllFit};
ghost use Rattle.g1_trace.specs.declared.session.Session.TheVariants.{Begun, Open as OpenOf};
ghost use Rattle.g1_trace.specs.declared.session.Taken.TheVariants.{Nothing, Reply as ReplyOf};
ghost use Rattle.g1_trace.specs.Session.{AreStepsFor, AsksPause, IsComment, IsDone, IsReason, IsWrong, commands_of, image_of};

use crate::collector::Collector;
use crate::command::{Command, Reply};
use crate::expected::Expected;
use crate::mutator::Mutator;
use crate::parsing::{first_line, later_line};
use crate::running::start;
use g1_image::Image;
use g1_pause::{Settings, Steps};
use g1_rem::Tracked;
use g1_words::Fault;
use g1_work::Open;
use std::alloc::Global;
use std::mem;
use std::thread::Threads;
use thiserror::Error;

/// A heap that lines work on, from the line with its sizes on.
#[derive(Drop)]
pub enum Session {
    /// The line with the sizes has not come yet.
    Begun,
    /// So many commands are done.
    Open { mutator: Mutator, commands: u64 },
}

/// What a line that was done gets.
#[derive(Debug, Clone, Copy, PartialEq, Eq)]
pub enum Taken {
    /// An empty line, a comment, or the line with the sizes: nothing is replied.
    Nothing,
    /// A command, and its reply.
    Reply(Reply),
}

/// Why a line was not done.
#[derive(Debug, Clone, Copy, Error)]
pub enum Wrong {
    /// It is not of its form.
    #[error("expected {0}")]
    Line(Expected),
    /// A size is out of its range, or memory is out.
    #[error("{0}")]
    Fault(Fault),
}

// Whether nothing is to be done for a line.
fn is_comment(line: &[u8]) -> bool
    ensures { IsTrue result ↔ IsComment line.now }
{
    match line.first() {
        None => true,
        Some(byte) => *byte == b'#',
    }
}

impl Session {
    /// A session without a line.
    pub fn new() -> Session
        ensures { result ≡ Begun }
    {
        Session::Begun
    }

    /// How many commands are done.
    pub fn commands(&self) -> u64
        ensures { result ≡ commands_of self.now }
    {
        match self {
            Session::Begun => 0,
            Session::Open { commands, .. } => *commands,
        }
    }

    /// The image of the heap, once it has sizes.
    pub fn image(&self) -> Option<&Image>
        ensures some { IfSome result (λ i. image_of self.now ≡ Some i.now) }
        ensures none { IfNone result (image_of self.now ≡ None) }
    {
        match self {
            Session::Begun => None,
            Session::Open { mutator, .. } => Some(mutator.image()),
        }
    }

    /// The pause that a line asks for, if it does: its budget, and the heap that it is to collect.
    pub fn asked_pause(&self, line: &[u8]) -> Option<(u64, &Tracked)>
        ensures some { IfSome result (λ p. AsksPause self.now line.now p.0 × (image_of self.now ≡ Some p.1.now)) }
        ensures none { IfNone result ((b : ℕ) → AsksPause self.now line.now b → ⊥) }
    {
        let Session::Open { mutator, .. } = self else {
            return None;
        };
        match later_line(line) {
            None => None,
            Some(Command::Pause { budget }) => Some((budget, mutator.tracked())),
            Some(_) => None,
        }
    }

    /// Does the pause that a line asks for, whose steps were taken of the session's heap and looked at. It takes
    /// no memory.
    pub fn carry_out_pause<R: Threads + Sync>(
        &mut self,
        rt: &R,
        settings: &Settings,
        steps: Steps,
    ) -> Reply
        requires taken { AreStepsFor settings.now.cost settings.now.choice self.old steps }
        ensures done { (line : List ℕ) (b : ℕ) → AsksPause self.old line b → settings.now.choice ≡ Budget b → IsDone settings.now.cost self.old line (ReplyOf result) self.new }
    {
        match mem::replace(self, Session::Begun) {
            Session::Begun => unreachable!(),
            Session::Open { mutator, commands } => {
                let (mutator, reply) = mutator.carry_out_pause(rt, settings, steps);
                *self = Session::Open {
                    mutator,
                    commands: commands.saturating_add(1),
                };
                reply
            }
        }
    }

    /// Does one line, without its end. If it is wrong, the session is as before.
    pub fn take<R: Threads + Sync>(
        &mut self,
        rt: &R,
        alloc: Global,
        line: &[u8],
        settings: &Settings,
    ) -> Result<Taken, Wrong>
        ensures done { IfOk result (λ a. IsDone settings.now.cost self.old line.now a self.new) }
        ensures wrong { IfErr result (IsWrong self.old line.now) }
        ensures same { OnErr result (self.new ≡ self.old) }
    {
        if is_comment(line) {
            return Ok(Taken::Nothing);
        }
        match self {
            Session::Begun => match begin(alloc, line) {
                Ok(session) => {
                    *self = session;
                    Ok(Taken::Nothing)
                }
                Err(wrong) => Err(wrong),
            },
            Session::Open { mutator, commands } => match later_line(line) {
                None => Err(Wrong::Line(Expected::of_line(line))),
                Some(Command::Pause { budget }) => take_pause(self, rt, alloc, budget, settings),
                Some(command) => match mutator.write(&command) {
                    Ok(reply) => {
                        *commands = commands.saturating_add(1);
                        Ok(Taken::Reply(reply))
                    }
                    Err(fault) => Err(Wrong::Fault(fault)),
                },
            },
        }
    }
}

// The session whose heap has the sizes of the line.
fn begin(alloc: Global, line: &[u8]) -> Result<Session, Wrong>
    ensures done { IfOk result (λ s. (k : CostOf) → IsDone k Begun line.now Nothing s) }
    ensures wrong { IfErr result (IsReason Begun line.now) }
{
    let Some((w, k, n, roots)) = first_line(line) else {
        return Err(Wrong::Line(Expected::Heap));
    };
    match start(alloc, w, k, n, roots) {
        Ok(mutator) => {
            Ok(Session::Open {
                mutator,
                commands: 0,
            })
        }
        Err(fault) => Err(Wrong::Fault(fault)),
    }
}

// Does a pause. The heap goes out of the session and by value through it.
fn take_pause<R: Threads + Sync>(
    session: &mut Session,
    rt: &R,
    alloc: Global,
    budget: u64,
    settings: &Settings,
) -> Result<Taken, Wrong>
    requires open { session.old ≡ Begun → ⊥ }
    ensures done { AllFit (numbers_of (Command.Pause budget)) → IfOk result (λ a. IsDone settings.now.cost session.old (command_line (Command.Pause budget)) a session.new) }
    ensures wrong { IfErr result (IsReason session.old (command_line (Command.Pause budget))) }
    ensures same { OnErr result (session.new ≡ session.old) }
{
    match mem::replace(session, Session::Begun) {
        Session::Begun => unreachable!(),
        Session::Open { mutator, commands } => {
            let (after, outcome) = step(
                rt,
                alloc,
                mutator,
                commands,
                &Command::Pause { budget },
                settings,
            );
            *session = after;
            outcome
        }
    }
}

// Does a command on a heap that goes by value through it.
fn step<R: Threads + Sync>(
    rt: &R,
    alloc: Global,
    mutator: Mutator,
    commands: u64,
    command: &Command,
    settings: &Settings,
) -> (Session, Result<Taken, Wrong>)
    ensures done { AllFit (numbers_of command.now) → IfOk result.1 (λ a. IsDone settings.now.cost (OpenOf mutator commands) (command_line command.now) a result.0) }
    ensures wrong { IfErr result.1 (IsReason (OpenOf mutator commands) (command_line command.now)) }
    ensures same { IfErr result.1 (λ _. result.0 ≡ OpenOf mutator commands) }
{
    let cost = settings.cost();
    let collector = Collector::new(rt, alloc, &cost, settings.team(), &Open);
    let (mutator, outcome) = mutator.execute(command, &collector);
    match outcome {
        Ok(reply) => {
            let commands = commands.saturating_add(1);
            (Session::Open { mutator, commands }, Ok(Taken::Reply(reply)))
        }
        Err(fault) => (
            Session::Open { mutator, commands },
            Err(Wrong::Fault(fault)),
        ),
    }
}
