//! A trace that is answered line by line.
ghost use Rattle.std.specs.Prelude.{◌≡◌, ◌⊎◌, ◌≤◌, ◌++◌, ◌∷◌, [], ℕ, List, Some, false, true, IfOk, IfErr, IfSome, IfNone, IsSome, OnOk, option_map};
ghost use Rattle.g1_image.specs.Source.{HoldsOfLeft};
ghost use Rattle.g1_pause.specs.Steps.{AreStepsOf};
ghost use Rattle.g1_command.specs.Lines.{left_of};
ghost use Rattle.g1_explain.specs.Steps.{AreTaken};
ghost use Rattle.g1_trace.specs.Session.{AsksPause, IsDone, commands_of, image_of};
ghost use Rattle.g1_trace.specs.Telling.{reply_line};
ghost use Rattle.g1_trace.specs.declared.session.Taken.TheVariants as taken;
ghost use Rattle.g1heap_cli.specs.Refusals.{RefusesLine};
ghost use Rattle.g1heap_cli.specs.Refuses.{IsUnsentOf, RefusesTrace, RefusesTraceBy};
ghost use Rattle.g1heap_cli.specs.Leaving.{Just, SendsBytes, SendsText, SendsTrace};
ghost use Rattle.g1heap_cli.specs.Replies.{IsTraceReply};
ghost use Rattle.g1heap_cli.specs.Traced.{RepliesToTrace, asked_command, is_live as live_of, number_text, sent_command as sent_of};
ghost use Rattle.g1heap_cli.specs.Reasons.{RefusesCost};
ghost use Rattle.g1heap_cli.specs.TraceReasons.{IsNamed, IsNoLine, IsStopped, RefusesContent, RefusesEnd, RefusesRead, RefusesSteps, RefusesTaking};
ghost use Rattle.g1heap_cli.specs.Tracing.{AddsExplanation, AddsPause, AddsReply, AddsSteps, IsAtStart, IsMade, KeepsImage, KeepsReplies, KeepsSent, TakesLine, kept as kept_of};

use crate::alone::{CHUNK, WORKERS};
use crate::files::open_file;
use crate::heard::Heard;
use crate::output::write_file;
use crate::refusal::{Hint, hint_on, is_image, no_command, of_device, of_file, wrong_line};
use g1_broken::Look;
use g1_command::{LineReader, Refusal, deliver, deliver_text};
use g1_explain::explain_steps;
use g1_image::encode;
use g1_pause::{Before, Choice, Settings, Steps, take_steps};
use g1_rem::Tracked;
use g1_trace::{Expected, Reply, Session, Taken, Wrong, push_reply};
use g1_words::{Device, Fault};
use g1_work::Open;
use g1heap_request::{ImageAfter, Output, STANDARD_STREAM, Trace};
use std::alloc::{AllocError, Global};
use std::io::{Error, Read, Write};
use std::rt::Files;
use std::thread::Threads;

// A trace to answer, and what its commands are answered with.
#[derive(Drop)]
struct Job<'a, T> {
    rt: &'a T,
    alloc: Global,
    trace: &'a Trace,
    settings: Settings,
}

// The session after the lines that were read, and what is answered and not written yet.
#[derive(Drop)]
struct State {
    session: Session,
    replies: Vec<u8>,
    /// The image after the command that was asked for.
    image: Option<Vec<u8>>,
}

/// Answers the lines of a trace. Replies and the image are written at the end, or each at once if it is
/// live.
pub fn answer_trace<T: Threads + Sync + Files, R: Read, W: Write>(
    rt: &T,
    alloc: Global,
    trace: &Trace,
    reader: &mut R,
    writer: &mut W,
) -> Result<u8, Refusal>
    ensures sends { SendsTrace (live_of trace.now) (sent_of trace.now.image) (IsTraceReply trace.now (R.remaining reader.old)) (W.contents writer.old) (W.contents writer.new) result }
    ensures refused { IfErr result (RefusesTrace trace.now (R.remaining reader.old)) }
{
    let settings = match settings_with(trace, 0) {
        Ok(settings) => settings,
        Err(fault) => return Err(Refusal::Fault(fault)),
    };
    let job = Job {
        rt,
        alloc,
        trace,
        settings,
    };
    let name = trace.name.as_str();
    if name == STANDARD_STREAM {
        return answer_heard(&job, reader, writer);
    }
    match open_file(rt, alloc, name) {
        Ok(mut file) => answer_heard(&job, &mut file, writer),
        Err(refusal) => Err(refusal),
    }
}

fn answer_heard<T: Threads + Sync + Files, R: Read, W: Write>(
    job: &Job<'_, T>,
    reader: &mut R,
    writer: &mut W,
) -> Result<u8, Refusal>
    requires cost { job.now.settings.cost ≡ job.now.trace.now.cost }
    ensures sends { SendsTrace (live_of job.now.trace.now) (sent_of job.now.trace.now.image) (RepliesToTrace job.now.trace.now (HoldsOfLeft (R.remaining reader.old))) (W.contents writer.old) (W.contents writer.new) result }
    ensures refused { IfErr result (RefusesTraceBy job.now.trace.now (HoldsOfLeft (R.remaining reader.old))) }
{
    let mut heard = Heard::new(reader);
    match answer_lines(job, &mut heard, writer) {
        Ok(status) => Ok(status),
        Err(refusal) => Err(with_name(job.alloc, job.trace, refusal, heard.reason())),
    }
}

// The refusal with the trace's name and the system's reason, if it was not read.
fn with_name(alloc: Global, trace: &Trace, refusal: Refusal, reason: Option<Error>) -> Refusal
    ensures { IsNamed trace.now.name.bytes.items refusal result }
{
    match refusal {
        Refusal::Fault(Fault::Device(Device::Input)) => {
            let fault = Fault::Device(Device::Input);
            of_device(alloc, trace.name.as_str(), fault, reason)
        }
        _ => refusal,
    }
}

fn settings_with(trace: &Trace, budget: u64) -> Result<Settings, Fault>
    ensures cost { IfOk result (λ s. s.cost ≡ trace.now.cost) }
    ensures choice { IfOk result (λ s. s.choice ≡ Choice.Budget budget) }
    ensures refused { IfErr result (λ e. RefusesCost trace.now.cost (Refusal.Fault e)) }
{
    Settings::new(WORKERS, CHUNK, trace.cost, Choice::Budget(budget))
}

fn answer_lines<T: Threads + Sync + Files, R: Read, W: Write>(
    job: &Job<'_, T>,
    reader: &mut R,
    writer: &mut W,
) -> Result<u8, Refusal>
    requires cost { job.now.settings.cost ≡ job.now.trace.now.cost }
    ensures sends { SendsTrace (live_of job.now.trace.now) (sent_of job.now.trace.now.image) (RepliesToTrace job.now.trace.now (HoldsOfLeft (R.remaining reader.old))) (W.contents writer.old) (W.contents writer.new) result }
    ensures refused { IfErr result (λ r. (r ≡ Refusal.Fault (Fault.Device Device.Input)) ⊎ RefusesTraceBy job.now.trace.now (HoldsOfLeft (R.remaining reader.old)) r) }
{
    let mut lines = match LineReader::new(job.alloc, reader) {
        Ok(lines) => lines,
        Err(fault) => return Err(Refusal::Fault(fault)),
    };
    let mut state = State {
        session: Session::new(),
        replies: Vec::new(job.alloc),
        image: None,
    };
    answer_all(job, &mut lines, &mut state, writer)
}

fn answer_all<T: Threads + Sync + Files, R: Read, W: Write>(
    job: &Job<'_, T>,
    lines: &mut LineReader<'_, R>,
    state: &mut State,
    writer: &mut W,
) -> Result<u8, Refusal>
    requires cost { job.now.settings.cost ≡ job.now.trace.now.cost }
    requires start { IsAtStart state.old }
    ensures sends { SendsTrace (live_of job.now.trace.now) (sent_of job.now.trace.now.image) (RepliesToTrace job.now.trace.now (HoldsOfLeft (left_of R.remaining lines.old))) (W.contents writer.old) (W.contents writer.new) result }
    ensures refused { IfErr result (λ r. (r ≡ Refusal.Fault (Fault.Device Device.Input)) ⊎ RefusesTraceBy job.now.trace.now (HoldsOfLeft (left_of R.remaining lines.old)) r) }
{
    let is_live = is_live(job.trace);
    let mut line = Vec::new(job.alloc);
    for number in 1..u64::MAX {
        line.clear();
        match lines.read_into(&mut line) {
            Ok(true) => {}
            Ok(false) => return finish(job, number, state, writer),
            Err(fault) => return Err(Refusal::Fault(fault)),
        }
        match take_line(job, line.as_slice(), number, state) {
            Ok(()) => {}
            Err(refusal) => return Err(refusal),
        }
        if is_live {
            match write_made(job, state, writer) {
                Ok(0) => {}
                Ok(status) => return Ok(status),
                Err(refusal) => return Err(refusal),
            }
        }
    }
    // No input is so long.
    Err(Refusal::Fault(Fault::Device(Device::Input)))
}

// The command whose image goes to standard output, or 0.
fn sent_command(trace: &Trace) -> u64
    ensures { result ≡ sent_of trace.now.image }
{
    match &trace.image {
        Some(
            ImageAfter {
                output: Output::File(_),
                ..
            },
        )
        | None => 0,
        Some(wanted) => wanted.command,
    }
}

// Whether each line is answered at once.
fn is_live(trace: &Trace) -> bool
    ensures { result ≡ live_of trace.now }
{
    trace.live && sent_command(trace) == 0
}

// Writes what is made and not written yet, the image first, and gives the status.
fn write_made<T: Files, W: Write>(
    job: &Job<'_, T>,
    state: &mut State,
    writer: &mut W,
) -> Result<u8, Refusal>
    ensures sent { SendsText (Just 0 state.old.replies.items) (W.contents writer.old) (W.contents writer.new) result }
    ensures session { state.new.session ≡ state.old.session }
    ensures done { OnOk result (state.new.replies.items ≡ []) }
    ensures refused { IfErr result (IsUnsentOf job.now.trace.now.image) }
{
    match write_image(job, state) {
        Ok(()) => {}
        Err(refusal) => return Err(refusal),
    }
    match deliver_text(0, state.replies.as_slice(), writer) {
        Ok(status) => {
            state.replies.clear();
            Ok(status)
        }
        Err(fault) => Err(Refusal::Fault(fault)),
    }
}

// Writes the image, if it is there and goes to a file.
fn write_image<T: Files>(job: &Job<'_, T>, state: &mut State) -> Result<(), Refusal>
    ensures session { state.new.session ≡ state.old.session }
    ensures replies { state.new.replies ≡ state.old.replies }
    ensures refused { IfErr result (IsUnsentOf job.now.trace.now.image) }
{
    let Some(
        ImageAfter {
            output: Output::File(name),
            ..
        },
    ) = &job.trace.image
    else {
        return Ok(());
    };
    match state.image.take() {
        Some(bytes) => write_file(job.rt, job.alloc, name.as_str(), bytes.as_slice()),
        None => Ok(()),
    }
}

// Behind the last line: writes what is made of all lines.
fn finish<T: Files, W: Write>(
    job: &Job<'_, T>,
    number: u64,
    state: &mut State,
    writer: &mut W,
) -> Result<u8, Refusal>
    requires kept { KeepsSent job.now.trace.now state.old }
    ensures sends { SendsTrace false (sent_of job.now.trace.now.image) (IsMade job.now.trace.now state.old) (W.contents writer.old) (W.contents writer.new) result }
    ensures refused { IfErr result (λ r. RefusesEnd job.now.trace.now number state.old.session r ⊎ IsUnsentOf job.now.trace.now.image r) }
{
    match check_end(job.alloc, job.trace, &state.session, number) {
        Ok(()) => {}
        Err(refusal) => return Err(refusal),
    }
    if sent_command(job.trace) > 0 {
        return send_image(state, writer);
    }
    write_made(job, state, writer)
}

// Sends the image in place of the replies.
fn send_image<W: Write>(state: &State, writer: &mut W) -> Result<u8, Refusal>
    requires { IsSome (kept_of state.now) }
    ensures sends { SendsBytes (λ s text. (s ≡ 0) × (kept_of state.now ≡ Some text)) (W.contents writer.old) (W.contents writer.new) result }
    ensures refused { IfErr result (λ r. r ≡ Refusal.Fault (Fault.Device Device.Output)) }
{
    match &state.image {
        Some(bytes) => match deliver(bytes.as_slice(), writer) {
            Ok(()) => Ok(0),
            Err(fault) => Err(Refusal::Fault(fault)),
        },
        None => unreachable!(),
    }
}

// Does a line, and adds what it is answered to what is not written yet.
fn take_line<T: Threads + Sync + Files>(
    job: &Job<'_, T>,
    line: &[u8],
    number: u64,
    state: &mut State,
) -> Result<(), Refusal>
    requires cost { job.now.settings.cost ≡ job.now.trace.now.cost }
    ensures taken { OnOk result (TakesLine job.now.trace.now line.now state.old state.new) }
    ensures refused { IfErr result (RefusesRead job.now.trace.now number state.old.session line.now) }
{
    let content = match content_of(job.alloc, job.trace, line, number) {
        Ok(content) => content,
        Err(refusal) => return Err(refusal),
    };
    match do_line(job, content, number, state) {
        Ok(Taken::Nothing) => Ok(()),
        Ok(Taken::Reply(reply)) => add_reply(job.alloc, job.trace, reply, state),
        Err(refusal) => Err(refusal),
    }
}

// A line without its end.
fn content_of<'l>(
    alloc: Global,
    trace: &Trace,
    line: &'l [u8],
    number: u64,
) -> Result<&'l [u8], Refusal>
    ensures content { IfOk result (λ c. line.now ≡ c.now ++ 10 ∷ []) }
    ensures refused { IfErr result (λ r. IsNoLine number line.now × RefusesLine trace.now.name.bytes.items number r) }
{
    if number == 1 && is_image(line) {
        return Err(wrong(alloc, trace, 1, Expected::Heap, Some(Hint::Image)));
    }
    match line.split_last() {
        Some((b'\n', content)) => Ok(content),
        _ => Err(wrong_content(alloc, trace, line, number, Expected::End)),
    }
}

// Does a line without its end. The pause that is explained is the one that is carried out.
fn do_line<T: Threads + Sync + Files>(
    job: &Job<'_, T>,
    content: &[u8],
    number: u64,
    state: &mut State,
) -> Result<Taken, Refusal>
    requires cost { job.now.settings.cost ≡ job.now.trace.now.cost }
    ensures done { IfOk result (λ t. IsDone job.now.trace.now.cost state.old.session content.now t state.new.session) }
    ensures image { state.new.image ≡ state.old.image }
    ensures replies { IfOk result (λ t. KeepsReplies job.now.trace.now.explain job.now.trace.now.cost state.old.session content.now t state.old.replies.items state.new.replies.items) }
    ensures refused { IfErr result (RefusesTaking job.now.trace.now number state.old.session content.now) }
{
    if !job.trace.explain {
        return do_plainly(job, content, number, state);
    }
    match take_explained(job, content, state) {
        Ok(Some(reply)) => Ok(Taken::Reply(reply)),
        Ok(None) => do_plainly(job, content, number, state),
        Err(refusal) => Err(refusal),
    }
}

fn do_plainly<T: Threads + Sync + Files>(
    job: &Job<'_, T>,
    content: &[u8],
    number: u64,
    state: &mut State,
) -> Result<Taken, Refusal>
    requires cost { job.now.settings.cost ≡ job.now.trace.now.cost }
    ensures done { IfOk result (λ t. IsDone job.now.trace.now.cost state.old.session content.now t state.new.session) }
    ensures image { state.new.image ≡ state.old.image }
    ensures replies { state.new.replies ≡ state.old.replies }
    ensures refused { IfErr result (RefusesContent job.now.trace.now.name.bytes.items number state.old.session content.now) }
{
    match state
        .session
        .take(job.rt, job.alloc, content, &job.settings)
    {
        Ok(taken) => Ok(taken),
        Err(Wrong::Line(expected)) => Err(wrong_content(
            job.alloc, job.trace, content, number, expected,
        )),
        Err(Wrong::Fault(fault)) => Err(of_file(job.alloc, job.trace.name.as_str(), fault)),
    }
}

// Does the pause that a line asks for, if it does. The lines that explain it come before the reply: the pause that is
// explained is the one that is carried out.
fn take_explained<T: Threads + Sync + Files>(
    job: &Job<'_, T>,
    content: &[u8],
    state: &mut State,
) -> Result<Option<Reply>, Refusal>
    ensures done { IfOk result (λ o. IfSome o (λ r. IsDone job.now.trace.now.cost state.old.session content.now (taken.Reply r) state.new.session)) }
    ensures none { IfOk result (λ o. IfNone o (state.new ≡ state.old)) }
    ensures asked { IfOk result (λ o. IfNone o ((b : ℕ) → AsksPause state.old.session content.now b → ⊥)) }
    ensures image { state.new.image ≡ state.old.image }
    ensures lines { IfOk result (λ o. IfSome o (λ r. AddsExplanation true job.now.trace.now.cost state.old.session content.now state.old.replies.items state.new.replies.items)) }
    ensures refused { IfErr result (IsStopped job.now.trace.now) }
{
    let Some((budget, tracked)) = state.session.asked_pause(content) else {
        return Ok(None);
    };
    let settings = match settings_with(job.trace, budget) {
        Ok(settings) => settings,
        Err(fault) => return Err(Refusal::Fault(fault)),
    };
    match explained_steps(job, tracked, &settings, &mut state.replies) {
        Ok(steps) => Ok(Some(state.session.carry_out_pause(job.rt, &settings, steps))),
        Err(refusal) => Err(refusal),
    }
}

// The steps of the pause of an image, whose lines are added to the replies.
fn explained_steps<T: Threads + Sync + Files>(
    job: &Job<'_, T>,
    tracked: &Tracked,
    settings: &Settings,
    replies: &mut Vec<u8>,
) -> Result<Steps, Refusal>
    ensures steps { IfOk result (λ s. AreStepsOf settings.now.cost settings.now.choice tracked.now s) }
    ensures lines { OnOk result (AddsPause settings.now.cost settings.now.choice tracked.now replies.old.items replies.new.items) }
    ensures refused { IfErr result (RefusesSteps job.now.trace.now.name.bytes.items tracked.now.heap settings.now.choice) }
{
    let name = job.trace.name.as_str();
    let before = match Before::new(job.rt, job.alloc, tracked, settings.workers()) {
        Ok(before) => before,
        Err(fault) => return Err(of_file(job.alloc, name, fault)),
    };
    // It states to the prover that the image is covered.
    let _ = before.image();
    match take_steps(job.rt, job.alloc, &before, settings, &Open) {
        Ok(steps) => match push_explanation(job, &before, settings, &steps, replies) {
            Ok(()) => Ok(steps),
            Err(refusal) => Err(refusal),
        },
        Err(fault) => Err(of_file(job.alloc, name, fault)),
    }
}

fn push_explanation<T>(
    job: &Job<'_, T>,
    before: &Before<'_>,
    settings: &Settings,
    steps: &Steps,
    replies: &mut Vec<u8>,
) -> Result<(), Refusal>
    ensures lines { AreTaken settings.now.cost settings.now.choice before.now steps.now → OnOk result (AddsSteps settings.now.cost before.now steps.now replies.old.items replies.new.items) }
    ensures memory { IfErr result (λ r. r ≡ Refusal.Fault Fault.Memory) }
{
    match explain_steps(job.alloc, before, settings, steps) {
        Ok(explanation) => {
            replies.extend_from_slice(explanation.text.as_bytes())?;
            Ok(())
        }
        // It wants memory, and nothing else.
        Err(_) => Err(Refusal::Fault(Fault::Memory)),
    }
}

// What a line is that is none of a trace, if it can be seen.
fn hint_on_line(alloc: Global, content: &[u8], number: u64) -> Result<Option<Hint>, AllocError> {
    if content.ends_with(b"\r") {
        return Ok(Some(Hint::Dos(number)));
    }
    if number > 1 {
        return Ok(None);
    }
    match hint_on(alloc, content)? {
        Some(Hint::Look(Look::Trace)) => Ok(None),
        hint => Ok(hint),
    }
}

// The refusal of a line, with what can be seen of it.
fn wrong_content(
    alloc: Global,
    trace: &Trace,
    content: &[u8],
    number: u64,
    expected: Expected,
) -> Refusal
    ensures { RefusesLine trace.now.name.bytes.items number result }
{
    match hint_on_line(alloc, content, number) {
        Ok(hint) => wrong(alloc, trace, number, expected, hint),
        Err(_) => Refusal::Fault(Fault::Memory),
    }
}

fn wrong(
    alloc: Global,
    trace: &Trace,
    number: u64,
    expected: Expected,
    hint: Option<Hint>,
) -> Refusal
    ensures { RefusesLine trace.now.name.bytes.items number result }
{
    wrong_line(alloc, trace.name.as_str(), number, &expected, hint)
}

fn add_reply(alloc: Global, trace: &Trace, reply: Reply, state: &mut State) -> Result<(), Refusal>
    ensures added { OnOk result (AddsReply trace.now reply state.old state.new) }
    ensures memory { IfErr result (λ r. r ≡ Refusal.Fault Fault.Memory) }
{
    match push_numbered(alloc, trace, &state.session, reply, &mut state.replies) {
        Ok(()) => keep_image(alloc, trace, &state.session, &mut state.image),
        Err(_) => Err(Refusal::Fault(Fault::Memory)),
    }
}

fn push_numbered(
    alloc: Global,
    trace: &Trace,
    session: &Session,
    reply: Reply,
    replies: &mut Vec<u8>,
) -> Result<(), AllocError>
    ensures { OnOk result (replies.new.items ≡ replies.old.items ++ (number_text trace.now.numbered (commands_of session.now) ++ reply_line reply)) }
{
    if trace.numbered {
        let commands = session.commands();
        let number = format!(in alloc; "{commands} ")?;
        replies.extend_from_slice(number.as_bytes())?;
    }
    push_reply(replies, reply)
}

// Keeps the image if it is that after the command that was asked for.
fn keep_image(
    alloc: Global,
    trace: &Trace,
    session: &Session,
    kept: &mut Option<Vec<u8>>,
) -> Result<(), Refusal>
    ensures keeps { OnOk result (KeepsImage trace.now.image session.now (option_map (λ v. v.items) kept.old) (option_map (λ v. v.items) kept.new)) }
    ensures memory { IfErr result (λ r. r ≡ Refusal.Fault Fault.Memory) }
{
    let Some(wanted) = &trace.image else {
        return Ok(());
    };
    match session.image() {
        Some(image) if session.commands() == wanted.command => match encode(alloc, image) {
            Ok(bytes) => {
                *kept = Some(bytes);
                Ok(())
            }
            Err(fault) => Err(Refusal::Fault(fault)),
        },
        _ => Ok(()),
    }
}

// A trace has a line with the sizes, and the command whose image is wanted.
fn check_end(alloc: Global, trace: &Trace, session: &Session, number: u64) -> Result<(), Refusal>
    ensures begun { OnOk result (IsSome (image_of session.now)) }
    ensures enough { OnOk result (asked_command trace.now.image ≤ commands_of session.now) }
    ensures refused { IfErr result (RefusesEnd trace.now number session.now) }
{
    if session.image().is_none() {
        return Err(wrong(alloc, trace, number, Expected::Heap, None));
    }
    match &trace.image {
        Some(wanted) if wanted.command > session.commands() => {
            Err(no_command(
                alloc,
                trace.name.as_str(),
                wanted.command,
                session.commands(),
            ))
        }
        _ => Ok(()),
    }
}
