//! What the program does with a request.
ghost use Rattle.std.specs.Prelude.{◌≡◌, ◌⊎◌, ℕ, false, List, Ok, Err, IfOk, IfErr, map, ⊤};
ghost use Rattle.std.specs.Io.KnownBytes.{Keeps};
ghost use Rattle.g1heap_request.specs.declared.options.Part.TheVariants as asked;
ghost use Rattle.g1heap_cli.specs.Written.{taken_of};
ghost use Rattle.g1heap_cli.specs.Leaving.{Just, Grows, SendsText, SendsLines, SendsSame, WritesReply, HandsText, HandsBytes, HandsPrint, GoesBefore};
ghost use Rattle.g1heap_cli.specs.Printed.{IfLines, IfBroken, IsRefusalOf, reply_of};
ghost use Rattle.g1heap_cli.specs.Refuses.{Refuses, RefusesPart, RefusesLinesOf, IsUnsent};
ghost use Rattle.g1heap_cli.specs.SameReasons.{RefusesSame, OrOutput};
ghost use Rattle.g1heap_cli.specs.Refusals.{RefusesFile, IsUnread};
ghost use Rattle.g1heap_cli.specs.Streams.{HoldsOfNamed};
ghost use Rattle.g1heap_cli.specs.Reasons.{RefusesMake, MayLack};
ghost use Rattle.g1heap_cli.specs.Texts.{IsPartText, IsMade, IsGraphMade};
ghost use Rattle.g1heap_cli.specs.Lines.{RefusesLines};
ghost use Rattle.g1_image.specs.Image.{IsImageTextWithin};
ghost use Rattle.g1_text.specs.Refused.{IsLineOrMemory};
ghost use Rattle.g1_text.specs.declared.expected.Wrong.{Wrong};
ghost use Rattle.g1heap_cli.specs.Replies.{IsReplyTo, IsSameReply, IsPrintReply, IsMakeReply, IsAsked};
ghost use Rattle.g1_command.specs.Requests.{IsUsageIf};
ghost use Rattle.g1heap_cli.specs.Endings.{Leaves, IsReported, EndsByRequest, Ends, IsCalled, IsWrongCall};

use crate::answering::{answer_file, rewrite_file};
use crate::converting::convert_file;
use crate::explaining::{explain_object, explain_pause};
use crate::files::read_bytes;
use crate::heard::Heard;
use crate::hexadecimal::with_hexadecimal;
use crate::line_text::LineText;
use crate::line_writer::LineWriter;
use crate::output::write_file;
use crate::refusal::{no_object, no_region, of_bytes, of_output, refuse_lines};
use crate::sameness::compare_files;
use crate::sources::{Source, find_source};
use crate::terminals::{Terminals, allow, announce};
use crate::tracing::answer_trace;
use g1_broken_text::broken_lines;
use g1_command::{Ending, Refusal, deliver, deliver_text, refuse};
use g1_image::Image;
use g1_report::{Lines, locate};
use g1_tables::summary;
use g1_text::{image_lines, is_graph, make, make_graph, object_line, plain_lines, region_lines};
use g1_words::{Device, Fault, Limits, object_at};
use g1heap_request::{ImageFile, NAME, Output, Part, Request, Same, parse};
use std::alloc::{AllocError, Global};
use std::io::{Error, Read, Write};
use std::rt::Files;
use std::thread::Threads;

/// A call of the program: the words after its name, and which of its streams are terminals.
#[derive(Clone, Copy)]
pub struct Call<'a> {
    pub words: &'a [String],
    pub terminals: Terminals,
}

/// Runs the program, and returns how it ends: with status 0, 1 if two heaps differ, 141 if the reader of a text
/// went away, or that of the refusal which is then reported on `errors`. Files and the reader are read
/// when the words were found to be a request. The writer is written last, and not at all if there is a
/// refusal, unless it was the writer that failed, the lines are written as they are made, or the refusal is behind the
/// lines of an image that is broken.
pub fn program<T: Threads + Sync + Files, R: Read, W: Write + Drop, E: Write>(
    rt: &T,
    alloc: Global,
    call: Call<'_>,
    reader: &mut R,
    writer: &mut Heard<W>,
    errors: &mut E,
) -> Ending
    ensures { Ends (map (λ w. w.bytes.items) call.entry.words.now) call.entry.terminals (R.remaining reader.old) (⟦<Heard<W> as Write>⟧.contents writer.old) (⟦<Heard<W> as Write>⟧.contents writer.new) (E.contents errors.old) (E.contents errors.new) result }
{
    match read_call(alloc, call) {
        Ok(request) => {
            announce(call.terminals, &request, errors);
            perform(rt, alloc, &request, reader, writer, errors)
        }
        Err(refusal) => refuse(NAME, &refusal, errors),
    }
}

/// Does what a request asks for, and returns how the program ends.
pub fn perform<T: Threads + Sync + Files, R: Read, W: Write + Drop, E: Write>(
    rt: &T,
    alloc: Global,
    request: &Request,
    reader: &mut R,
    writer: &mut Heard<W>,
    errors: &mut E,
) -> Ending
    ensures { EndsByRequest (R.remaining reader.old) (⟦<Heard<W> as Write>⟧.contents writer.old) (⟦<Heard<W> as Write>⟧.contents writer.new) (E.contents errors.old) (E.contents errors.new) request.now result }
{
    match answer(rt, alloc, request, reader, writer) {
        Ok(status) => Ending {
            status,
            reported: Ok(()),
        },
        Err(refusal) => {
            let refusal = with_reason(alloc, refusal, writer.reason());
            refuse(NAME, &refusal, errors)
        }
    }
}

// The refusal with the system's reason, if standard output failed.
fn with_reason(alloc: Global, refusal: Refusal, reason: Option<Error>) -> Refusal
    ensures { IsReported refusal result }
{
    match refusal {
        Refusal::Fault(Fault::Device(Device::Output)) => of_output(alloc, reason),
        _ => refusal,
    }
}

// What a call asks for, if it may.
fn read_call(alloc: Global, call: Call<'_>) -> Result<Request, Refusal>
    ensures called { IfOk result (IsCalled (map (λ w. w.bytes.items) call.entry.words.now) call.entry.terminals.output) }
    ensures wrong { IfErr result (IsUsageIf (IsWrongCall (map (λ w. w.bytes.items) call.entry.words.now) call.entry.terminals.output)) }
{
    allow(alloc, call.terminals, parse(alloc, call.words)?)
}

// Does what is asked, and returns the status.
fn answer<T: Threads + Sync + Files, R: Read, W: Write + Drop>(
    rt: &T,
    alloc: Global,
    request: &Request,
    reader: &mut R,
    writer: &mut Heard<W>,
) -> Result<u8, Refusal>
    ensures leaves { Leaves request.now (IsReplyTo request.now (R.remaining reader.old)) (⟦<Heard<W> as Write>⟧.contents writer.old) (⟦<Heard<W> as Write>⟧.contents writer.new) result }
    ensures refused { IfErr result (Refuses request.now (R.remaining reader.old)) }
{
    match request {
        Request::Help(text) => send_text(0, text.as_bytes(), writer),
        Request::Same(same) => compare(rt, alloc, same, reader, writer),
        Request::Print {
            image,
            part,
            hex,
            output,
        } => match print_part(rt, alloc, image, *part, *hex, reader) {
            Ok(printed) => hand_over_print(rt, alloc, printed, output, writer),
            Err(refusal) => Err(refusal),
        },
        Request::Make { lines, output } => match make_from(rt, alloc, lines.as_str(), reader) {
            Ok(bytes) => hand_over(rt, alloc, bytes.as_slice(), output, writer),
            Err(refusal) => Err(refusal),
        },
        Request::Convert(asked) => match convert_file(rt, alloc, asked, reader) {
            Ok(bytes) => hand_over(rt, alloc, bytes.as_slice(), &asked.output, writer),
            Err(refusal) => Err(refusal),
        },
        Request::Explain(explain) => match explain_pause(rt, alloc, explain, reader) {
            Ok((status, text)) => {
                hand_over_text(rt, alloc, status, text.as_bytes(), &explain.output, writer)
            }
            Err(refusal) => Err(refusal),
        },
        Request::Why(why) => match explain_object(rt, alloc, why, reader) {
            Ok(text) => send_text(0, text.as_bytes(), writer),
            Err(refusal) => Err(refusal),
        },
        Request::Trace(trace) => answer_trace(rt, alloc, trace, reader, writer),
        Request::Ask(ask) => match answer_file(rt, alloc, ask, reader) {
            Ok(lines) => hand_over_text(rt, alloc, 0, lines.as_slice(), &ask.output, writer),
            Err(refusal) => Err(refusal),
        },
        Request::Rewrite(rewrite) => rewrite_file(rt, alloc, rewrite, reader, writer),
    }
}

// The lines of all differences may be longer than memory together.
fn compare<T: Threads + Sync + Files, R: Read, W: Write + Drop>(
    rt: &T,
    alloc: Global,
    same: &Same,
    reader: &mut R,
    writer: &mut Heard<W>,
) -> Result<u8, Refusal>
    ensures sends { SendsSame same.now.all (IsSameReply same.now (R.remaining reader.old)) (⟦<Heard<W> as Write>⟧.contents writer.old) (⟦<Heard<W> as Write>⟧.contents writer.new) result }
    ensures refused { IfErr result (OrOutput (RefusesSame same.now (R.remaining reader.old))) }
{
    match same.all {
        None => compare_at_once(rt, alloc, same, reader, writer),
        Some(_) => compare_in_lines(rt, alloc, same, reader, writer),
    }
}

fn compare_at_once<T: Threads + Sync + Files, R: Read, W: Write>(
    rt: &T,
    alloc: Global,
    same: &Same,
    reader: &mut R,
    writer: &mut W,
) -> Result<u8, Refusal>
    ensures sends { SendsText (IsSameReply same.now (R.remaining reader.old)) (W.contents writer.old) (W.contents writer.new) result }
    ensures refused { IfErr result (OrOutput (RefusesSame same.now (R.remaining reader.old))) }
{
    let mut answer = LineText::new(alloc);
    match compare_files(rt, alloc, same, reader, &mut answer) {
        Ok(status) => send_text(status, answer.as_bytes(), writer),
        Err(refusal) => Err(refusal),
    }
}

// The writer is in the lines until they are sent.
fn compare_in_lines<T: Threads + Sync + Files, R: Read, W: Write + Drop>(
    rt: &T,
    alloc: Global,
    same: &Same,
    reader: &mut R,
    writer: &mut Heard<W>,
) -> Result<u8, Refusal>
    ensures sends { SendsLines (IsSameReply same.now (R.remaining reader.old)) (⟦<Heard<W> as Write>⟧.contents writer.old) (⟦<Heard<W> as Write>⟧.contents writer.new) result }
    ensures refused { IfErr result (OrOutput (RefusesSame same.now (R.remaining reader.old))) }
{
    let mut answer = LineWriter::new(alloc, writer.take());
    let sent = send_lines(rt, alloc, same, reader, &mut answer);
    *writer = answer.into_writer();
    sent
}

fn send_lines<T: Threads + Sync + Files, R: Read, W: Write>(
    rt: &T,
    alloc: Global,
    same: &Same,
    reader: &mut R,
    answer: &mut LineWriter<W>,
) -> Result<u8, Refusal>
    ensures lines { IfOk result (λ s. WritesReply (IsSameReply same.now (R.remaining reader.old)) (⟦<LineWriter<W> as Lines>⟧.taken answer.old) (⟦<LineWriter<W> as Lines>⟧.taken answer.new) (taken_of W.contents (λ s. s.value) answer.new.gone answer.new.writer answer.new.text.bytes.items) (W.contents answer.new.writer) s) }
    ensures refused { IfErr result (OrOutput (RefusesSame same.now (R.remaining reader.old))) }
    ensures grown { Grows (⟦<LineWriter<W> as Lines>⟧.taken answer.old) (⟦<LineWriter<W> as Lines>⟧.taken answer.new) }
{
    match compare_files(rt, alloc, same, reader, answer) {
        Ok(status) => match answer.finish(status) {
            Ok(status) => Ok(status),
            Err(fault) => Err(Refusal::Fault(fault)),
        },
        Err(refusal) => Err(refusal),
    }
}

// The lines of an image; or those that can be read of bytes that are none, if there are any, and why they are none.
#[derive(Drop)]
enum Printed {
    Lines(String),
    Broken {
        text: Option<String>,
        refusal: Refusal,
    },
}

fn print_part<T: Threads + Sync + Files, R: Read>(
    rt: &T,
    alloc: Global,
    image: &ImageFile,
    part: Part,
    hex: bool,
    reader: &mut R,
) -> Result<Printed, Refusal>
    ensures lines { IfOk result (IfLines (IsPrintReply image.now part hex (R.remaining reader.old) 0)) }
    ensures broken { IfOk result (IfBroken (RefusesPart image.now part (R.remaining reader.old))) }
    ensures refused { IfErr result (RefusesPart image.now part (R.remaining reader.old)) }
{
    let source = match find_source(rt, alloc, image, reader) {
        Ok(source) => source,
        Err(refusal) => return Err(refusal),
    };
    match source.found(rt, alloc) {
        Ok(Ok(image)) => match print_lines(rt, alloc, &image, source.name(), part, hex) {
            Ok(text) => Ok(Printed::Lines(text)),
            Err(refusal) => Err(refusal),
        },
        Ok(Err(fault)) => match print_broken(rt, alloc, &source, part, hex, fault) {
            Ok((text, refusal)) => Ok(Printed::Broken { text, refusal }),
            Err(refusal) => Err(refusal),
        },
        Err(refusal) => Err(refusal),
    }
}

fn print_lines<T: Threads + Sync>(
    rt: &T,
    alloc: Global,
    image: &Image,
    name: &str,
    part: Part,
    hex: bool,
) -> Result<String, Refusal>
    ensures text { IfOk result (λ s. IsPartText part hex image.now s.bytes.items) }
    ensures refused { IfErr result (MayLack name.now part image.now) }
{
    let text = match lines(rt, alloc, image, name, part) {
        Ok(text) => text,
        Err(refusal) => return Err(refusal),
    };
    if !hex {
        return Ok(text);
    }
    // It states to the prover that the image is one.
    let _ = image.heap();
    match with_hexadecimal(alloc, text.as_str()) {
        Ok(text) => Ok(text),
        Err(_) => Err(Refusal::Fault(Fault::Memory)),
    }
}

fn print_broken<T: Files>(
    rt: &T,
    alloc: Global,
    source: &Source<'_>,
    part: Part,
    hex: bool,
    fault: Fault,
) -> Result<(Option<String>, Refusal), Refusal>
    ensures broken { IfOk result (λ b. RefusesFile source.now.image.now.name.bytes.items fault b.1) }
    ensures refused { IfErr result (IsUnread source.now.image.now.name.bytes.items) }
{
    let bytes = match source.bytes(rt, alloc) {
        Ok(bytes) => bytes,
        Err(refusal) => return Err(refusal),
    };
    let bytes = bytes.as_slice();
    let text = match readable_lines(alloc, source.limits(), bytes, part, hex, fault) {
        Ok(text) => text,
        Err(_) => return Err(Refusal::Fault(Fault::Memory)),
    };
    match of_bytes(alloc, source.name(), source.limits(), bytes, fault) {
        // Memory ran out, so nothing is printed.
        Refusal::Fault(_) => Err(Refusal::Fault(Fault::Memory)),
        refusal => Ok((text, refusal)),
    }
}

// The lines of an image that can be read of bytes that are none.
fn readable_lines(
    alloc: Global,
    limits: Limits,
    bytes: &[u8],
    part: Part,
    hex: bool,
    fault: Fault,
) -> Result<Option<String>, AllocError> {
    let text = match part {
        Part::Whole => broken_lines(alloc, limits, bytes, fault)?,
        _ => None,
    };
    match text {
        Some(text) if hex => Ok(Some(with_hexadecimal(alloc, text.as_str())?)),
        _ => Ok(text),
    }
}

// The status, when what is printed is where it is to go, or the refusal behind it.
fn hand_over_print<T: Files, W: Write>(
    rt: &T,
    alloc: Global,
    printed: Printed,
    output: &Output,
    writer: &mut W,
) -> Result<u8, Refusal>
    ensures hands { HandsPrint output.now (reply_of printed) (W.contents writer.old) (W.contents writer.new) result }
    ensures refused { IfErr result (λ r. IsRefusalOf printed r ⊎ IsUnsent output.now r) }
{
    match printed {
        Printed::Lines(text) => hand_over_text(rt, alloc, 0, text.as_bytes(), output, writer),
        Printed::Broken { text, refusal } => {
            match hand_over_broken(rt, alloc, &text, output, writer) {
                Ok(()) => Err(refusal),
                Err(refusal) => Err(refusal),
            }
        }
    }
}

// Lines go before a refusal, if there are any.
fn hand_over_broken<T: Files, W: Write>(
    rt: &T,
    alloc: Global,
    text: &Option<String>,
    output: &Output,
    writer: &mut W,
) -> Result<(), Refusal>
    ensures goes { GoesBefore output.now (W.contents writer.old) (W.contents writer.new) }
    ensures refused { IfErr result (IsUnsent output.now) }
{
    let Some(text) = text else {
        return Ok(());
    };
    match hand_over_text(rt, alloc, 0, text.as_bytes(), output, writer) {
        Ok(_) => Ok(()),
        Err(refusal) => Err(refusal),
    }
}

// The status, when the lines are where they are to go.
fn hand_over_text<T: Files, W: Write>(
    rt: &T,
    alloc: Global,
    status: u8,
    text: &[u8],
    output: &Output,
    writer: &mut W,
) -> Result<u8, Refusal>
    ensures hands { HandsText output.now (Just status text.now) (W.contents writer.old) (W.contents writer.new) result }
    ensures refused { IfErr result (IsUnsent output.now) }
{
    match output {
        Output::File(name) => match write_file(rt, alloc, name.as_str(), text) {
            Ok(()) => Ok(status),
            Err(refusal) => Err(refusal),
        },
        _ => send_text(status, text, writer),
    }
}

fn send_text<W: Write>(status: u8, text: &[u8], writer: &mut W) -> Result<u8, Refusal>
    ensures sends { SendsText (Just status text.now) (W.contents writer.old) (W.contents writer.new) result }
    ensures refused { IfErr result (λ r. r ≡ Refusal.Fault (Fault.Device Device.Output)) }
{
    match deliver_text(status, text, writer) {
        Ok(status) => Ok(status),
        Err(fault) => Err(Refusal::Fault(fault)),
    }
}

// The status, when the bytes are where they are to go.
fn hand_over<T: Files, W: Write>(
    rt: &T,
    alloc: Global,
    bytes: &[u8],
    output: &Output,
    writer: &mut W,
) -> Result<u8, Refusal>
    ensures hands { HandsBytes output.now (Just 0 bytes.now) (W.contents writer.old) (W.contents writer.new) result }
    ensures refused { IfErr result (IsUnsent output.now) }
{
    match output {
        Output::File(name) => match write_file(rt, alloc, name.as_str(), bytes) {
            Ok(()) => Ok(0),
            Err(refusal) => Err(refusal),
        },
        _ => match deliver(bytes, writer) {
            Ok(()) => Ok(0),
            Err(fault) => Err(Refusal::Fault(fault)),
        },
    }
}

fn lines<T: Threads + Sync>(
    rt: &T,
    alloc: Global,
    image: &Image,
    name: &str,
    part: Part,
) -> Result<String, Refusal>
    ensures text { IfOk result (λ s. IsPartText part false image.now s.bytes.items) }
    ensures refused { IfErr result (MayLack name.now part image.now) }
{
    match part {
        Part::Whole => match image_lines(alloc, image) {
            Ok(text) => Ok(text),
            Err(_) => Err(Refusal::Fault(Fault::Memory)),
        },
        // It wants memory, and nothing else.
        Part::Summary => match summary(rt, alloc, image) {
            Ok(text) => Ok(text),
            Err(_) => Err(Refusal::Fault(Fault::Memory)),
        },
        Part::Region(region) => lines_of_region(alloc, image, name, region),
        Part::Object(address) => line_of_object(alloc, image, name, address),
    }
}

fn lines_of_region(alloc: Global, image: &Image, name: &str, region: u32) -> Result<String, Refusal>
    ensures text { IfOk result (λ s. IsPartText (asked.Region region) false image.now s.bytes.items) }
    ensures refused { IfErr result (MayLack name.now (asked.Region region) image.now) }
{
    let regions = image.heap().geometry().regions();
    if u64::from(region) >= regions {
        return Err(no_region(alloc, name, region, regions));
    }
    match region_lines(alloc, image, region) {
        Ok(text) => Ok(text),
        Err(_) => Err(Refusal::Fault(Fault::Memory)),
    }
}

fn line_of_object(alloc: Global, image: &Image, name: &str, address: u64) -> Result<String, Refusal>
    ensures text { IfOk result (λ s. IsPartText (asked.Object address) false image.now s.bytes.items) }
    ensures refused { IfErr result (MayLack name.now (asked.Object address) image.now) }
{
    let heap = image.heap();
    let Some(object) = object_at(heap, address) else {
        return match locate(alloc, heap, address) {
            Ok(location) => Err(no_object(alloc, name, address, &location)),
            // It wants memory, and nothing else.
            Err(_) => Err(Refusal::Fault(Fault::Memory)),
        };
    };
    match object_line(alloc, heap, &object) {
        Ok(text) => Ok(text),
        Err(_) => Err(Refusal::Fault(Fault::Memory)),
    }
}

fn make_from<T: Files, R: Read>(
    rt: &T,
    alloc: Global,
    name: &str,
    reader: &mut R,
) -> Result<Vec<u8>, Refusal>
    ensures bytes { IfOk result (λ v. IsMakeReply name.now (R.remaining reader.old) 0 v.items) }
    ensures refused { IfErr result (RefusesLinesOf name.now (R.remaining reader.old)) }
{
    match read_bytes(rt, alloc, name, reader) {
        Ok(lines) => make_image(alloc, name, lines),
        Err(refusal) => Err(refusal),
    }
}

// Lines of objects by name begin with another word.
fn make_image(alloc: Global, name: &str, lines: Vec<u8>) -> Result<Vec<u8>, Refusal>
    ensures bytes { IfOk result (λ v. IsMade lines.items v.items) }
    ensures refused { IfErr result (RefusesMake name.now lines.items) }
{
    if is_graph(lines.as_slice()) {
        return make_named(alloc, name, lines);
    }
    match make(alloc, lines.as_slice()) {
        Ok(bytes) => Ok(bytes),
        Err(wrong) => Err(refuse_lines(alloc, name, lines.as_slice(), wrong)),
    }
}

fn make_named(alloc: Global, name: &str, lines: Vec<u8>) -> Result<Vec<u8>, Refusal>
    ensures bytes { IfOk result (λ v. IsImageTextWithin Limits.Wide v.items × IsGraphMade lines.items v.items) }
    ensures refused { IfErr result (λ r. (wrong : Wrong) × IsLineOrMemory wrong × RefusesLines name.now wrong r) }
{
    let Ok(lines) = plain_lines(alloc, lines) else {
        return Err(Refusal::Fault(Fault::Memory));
    };
    match make_graph(alloc, lines.as_slice()) {
        Ok(bytes) => Ok(bytes),
        Err(wrong) => Err(refuse_lines(alloc, name, lines.as_slice(), wrong)),
    }
}
