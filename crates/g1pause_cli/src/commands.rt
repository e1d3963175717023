//! What the program does with a request.
ghost use Rattle.std.specs.Prelude.{◌≡◌, Ok, IfOk, IfErr, map};
ghost use Rattle.g1_image.specs.Source.{HoldsOfLeft};
ghost use Rattle.g1_answers.specs.Replies.{MayRefuse, Gives};
ghost use Rattle.g1pause_cli.specs.Requests.{IsReplayed, IsReplyTo};
ghost use Rattle.g1pause_cli.specs.Endings.{EndsByRequest, Ends};

use crate::options::{Replay, Request, parse};
use crate::usage::NAME;
use g1_answers::{send_text, settings_of, write_answer, write_image};
use g1_command::{Ending, Refusal, read_all, refuse};
use g1_image::{Sink, ToWriter};
use g1_trace::run_text;
use g1_words::{Fault, Limits};
use g1_work::Open;
use std::alloc::Global;
use std::io::{Read, Write};
use std::thread::Threads;

/// Runs the program on the words after its name, and returns how it ends: with status 0, or with that of the
/// refusal which is then reported on `errors`. The reader is read to its end, but not before the
/// words were found to be a request with numbers in their ranges; the writer is written last, and
/// not at all if there is a refusal, unless it was the writer that failed.
pub fn program<T: Threads + Sync, R: Read, W: Write, E: Write>(
    rt: &T,
    alloc: Global,
    words: &[String],
    reader: &mut R,
    writer: &mut ToWriter<W>,
    errors: &mut E,
) -> Ending
    ensures { Ends (⟦<ToWriter<W> as Sink>⟧.written writer.old) (⟦<ToWriter<W> as Sink>⟧.written writer.new) (E.contents errors.old) (E.contents errors.new) (map (λ w. w.bytes.items) words.now) (R.remaining reader.old) result }
{
    match parse(alloc, words) {
        Ok(request) => perform(rt, alloc, &request, reader, writer, errors),
        Err(refusal) => refuse(NAME, &refusal, errors),
    }
}

/// Does what a request asks for, and returns how the program ends.
pub fn perform<T: Threads + Sync, R: Read, W: Write, E: Write>(
    rt: &T,
    alloc: Global,
    request: &Request,
    reader: &mut R,
    writer: &mut ToWriter<W>,
    errors: &mut E,
) -> Ending
    ensures { HoldsOfLeft (R.remaining reader.old) (λ xs. EndsByRequest (⟦<ToWriter<W> as Sink>⟧.written writer.old) (⟦<ToWriter<W> as Sink>⟧.written writer.new) (E.contents errors.old) (E.contents errors.new) request.now xs result) }
{
    match fulfil(rt, alloc, request, reader, writer) {
        Ok(()) => Ending::done(),
        Err(fault) => refuse(NAME, &Refusal::Fault(fault), errors),
    }
}

// Does what is asked.
fn fulfil<T: Threads + Sync, R: Read, W: Write>(
    rt: &T,
    alloc: Global,
    request: &Request,
    reader: &mut R,
    writer: &mut ToWriter<W>,
) -> Result<(), Fault>
    ensures { HoldsOfLeft (R.remaining reader.old) (λ xs. Gives (IsReplyTo request.now xs) (⟦<ToWriter<W> as Sink>⟧.written writer.old) (⟦<ToWriter<W> as Sink>⟧.written writer.new) result) }
{
    match request {
        Request::Help(text) => send_text(text.as_bytes(), writer),
        Request::Answer(question) => {
            write_answer(rt, alloc, Limits::Specified, *question, reader, writer)
        }
        Request::Write(wanted) => write_image(rt, alloc, Limits::Specified, wanted, reader, writer),
        Request::Run(replay) => write_replies(rt, alloc, replay, reader, writer),
    }
}

fn write_replies<T: Threads + Sync, R: Read, W: Write>(
    rt: &T,
    alloc: Global,
    replay: &Replay,
    reader: &mut R,
    writer: &mut ToWriter<W>,
) -> Result<(), Fault>
    ensures { HoldsOfLeft (R.remaining reader.old) (λ xs. Gives (IsReplayed replay.now xs) (⟦<ToWriter<W> as Sink>⟧.written writer.old) (⟦<ToWriter<W> as Sink>⟧.written writer.new) result) }
{
    match run(rt, alloc, replay, reader) {
        Ok(replies) => send_text(replies.as_slice(), writer),
        Err(fault) => Err(fault),
    }
}

// The replies to a trace.
fn run<T: Threads + Sync, R: Read>(
    rt: &T,
    alloc: Global,
    replay: &Replay,
    reader: &mut R,
) -> Result<Vec<u8>, Fault>
    ensures text { IfOk result (λ v. HoldsOfLeft (R.remaining reader.old) (λ xs. IsReplayed replay.now xs (Ok v.items))) }
    ensures fault { IfErr result (λ e. HoldsOfLeft (R.remaining reader.old) (λ xs. MayRefuse (IsReplayed replay.now xs) e)) }
{
    let settings = settings_of(replay.sharing, replay.cost)?;
    let bytes = read_all(alloc, reader)?;
    let cost = settings.cost();
    run_text(rt, alloc, bytes.as_slice(), &cost, settings.team(), &Open)
}
