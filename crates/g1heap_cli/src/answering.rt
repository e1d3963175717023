//! The answers to `show`, `check`, `live`, `choose` and `pause`, of an image in a file.
ghost use Rattle.std.specs.Prelude.{◌≡◌, ◌⊎◌, ℕ, List, IfOk, IfErr};
ghost use Rattle.g1heap_cli.specs.Leaving.{MakesImage, SendsBytes, HandsBytes};
ghost use Rattle.g1heap_cli.specs.Refusals.{RefusesFile};
ghost use Rattle.g1heap_cli.specs.Reasons.{IsRefusedIn};
ghost use Rattle.g1heap_cli.specs.Refuses.{RefusesAsk, RefusesRewrite, IsUnsent, IsUnwritten, IsOfList};
ghost use Rattle.g1heap_cli.specs.Replies.{IsAsked, IsRewritten};

use crate::heard::Heard;
use crate::output::write_file;
use crate::refusal::of_device;
use crate::sources::{Source, find_collected, find_source};
use g1_answers::{ToWriter, answer, write_image};
use g1_command::Refusal;
use g1_image::Sink;
use g1_words::{Device, Fault};
use g1heap_request::{Ask, Output, Rewrite};
use std::alloc::Global;
use std::io::{Error, Read, Write};
use std::rt::Files;
use std::thread::Threads;

/// The lines that answer a question of the image in a file, or of the reader's if the name means standard input.
pub fn answer_file<T: Threads + Sync + Files, R: Read>(
    rt: &T,
    alloc: Global,
    ask: &Ask,
    reader: &mut R,
) -> Result<Vec<u8>, Refusal>
    ensures lines { IfOk result (λ v. IsAsked ask.now (R.remaining reader.old) 0 v.items) }
    ensures refused { IfErr result (RefusesAsk ask.now (R.remaining reader.old)) }
{
    let source = match find_source(rt, alloc, &ask.image, reader) {
        Ok(source) => source,
        Err(refusal) => return Err(refusal),
    };
    let mut opened = match source.open(rt, alloc) {
        Ok(opened) => opened,
        Err(refusal) => return Err(refusal),
    };
    let mut heard = Heard::new(&mut opened);
    match answer(rt, alloc, ask.image.limits, ask.question, &mut heard) {
        Ok(lines) => Ok(lines),
        Err(Fault::Device(device)) => {
            let fault = Fault::Device(device);
            Err(of_device(alloc, source.name(), fault, heard.reason()))
        }
        Err(fault) => Err(source.refuse(rt, alloc, fault)),
    }
}

/// Writes an image that is made of the one in a file, or of the reader's if the name means standard input, and returns the
/// status. To standard output it goes in pieces; a file gets it as a whole.
pub fn rewrite_file<T: Threads + Sync + Files, R: Read, W: Write + Drop>(
    rt: &T,
    alloc: Global,
    rewrite: &Rewrite,
    reader: &mut R,
    writer: &mut Heard<W>,
) -> Result<u8, Refusal>
    ensures hands { HandsBytes rewrite.now.output (IsRewritten rewrite.now (R.remaining reader.old)) (⟦<Heard<W> as Write>⟧.contents writer.old) (⟦<Heard<W> as Write>⟧.contents writer.new) result }
    ensures refused { IfErr result (λ r. RefusesRewrite rewrite.now (R.remaining reader.old) r ⊎ IsUnsent rewrite.now.output r) }
{
    match &rewrite.output {
        Output::File(name) => write_new(rt, alloc, rewrite, name.as_str(), reader),
        _ => send_new(rt, alloc, rewrite, reader, writer),
    }
}

fn write_new<T: Threads + Sync + Files, R: Read>(
    rt: &T,
    alloc: Global,
    rewrite: &Rewrite,
    name: &str,
    reader: &mut R,
) -> Result<u8, Refusal>
    ensures made { IfOk result (λ s. (text : List ℕ) × IsRewritten rewrite.now (R.remaining reader.old) s text) }
    ensures refused { IfErr result (λ r. RefusesRewrite rewrite.now (R.remaining reader.old) r ⊎ IsUnwritten name.now r) }
{
    let mut sink = ToWriter::new(Vec::new(alloc));
    match make_new(rt, alloc, rewrite, reader, &mut sink) {
        Ok(()) => {
            let bytes = sink.into_inner();
            match write_file(rt, alloc, name, bytes.as_slice()) {
                Ok(()) => Ok(0),
                Err(refusal) => Err(refusal),
            }
        }
        Err(refusal) => Err(of_list(refusal)),
    }
}

// A list takes no more bytes only if memory runs out.
fn of_list(refusal: Refusal) -> Refusal
    ensures { IsOfList refusal result }
{
    match refusal {
        Refusal::Fault(Fault::Device(Device::Output)) => Refusal::Fault(Fault::Memory),
        _ => refusal,
    }
}

// The writer is in the sink until the image is sent.
fn send_new<T: Threads + Sync + Files, R: Read, W: Write + Drop>(
    rt: &T,
    alloc: Global,
    rewrite: &Rewrite,
    reader: &mut R,
    writer: &mut Heard<W>,
) -> Result<u8, Refusal>
    ensures sends { SendsBytes (IsRewritten rewrite.now (R.remaining reader.old)) (⟦<Heard<W> as Write>⟧.contents writer.old) (⟦<Heard<W> as Write>⟧.contents writer.new) result }
    ensures refused { IfErr result (λ r. RefusesRewrite rewrite.now (R.remaining reader.old) r ⊎ (r ≡ Refusal.Fault (Fault.Device Device.Output))) }
{
    let mut sink = ToWriter::new(writer.take());
    let made = make_new(rt, alloc, rewrite, reader, &mut sink);
    *writer = sink.into_inner();
    match made {
        Ok(()) => Ok(0),
        Err(refusal) => Err(refusal),
    }
}

fn make_new<T: Threads + Sync + Files, R: Read, W: Write>(
    rt: &T,
    alloc: Global,
    rewrite: &Rewrite,
    reader: &mut R,
    writer: &mut ToWriter<W>,
) -> Result<(), Refusal>
    ensures makes { MakesImage (IsRewritten rewrite.now (R.remaining reader.old)) (⟦<ToWriter<W> as Sink>⟧.written writer.old) (⟦<ToWriter<W> as Sink>⟧.written writer.new) result }
    ensures refused { IfErr result (λ r. RefusesRewrite rewrite.now (R.remaining reader.old) r ⊎ (r ≡ Refusal.Fault (Fault.Device Device.Output))) }
{
    let source = find_collected(rt, alloc, &rewrite.image, reader)?;
    let mut opened = source.open(rt, alloc)?;
    let mut heard = Heard::new(&mut opened);
    let limits = rewrite.image.limits;
    match write_image(rt, alloc, limits, &rewrite.wanted, &mut heard, writer) {
        Ok(()) => Ok(()),
        Err(fault) => Err(refuse_new(rt, alloc, &source, fault, heard.reason())),
    }
}

// That standard output failed is no fault of the image's file.
fn refuse_new<T: Files>(
    rt: &T,
    alloc: Global,
    source: &Source<'_>,
    fault: Fault,
    reason: Option<Error>,
) -> Refusal
    ensures output { fault ≡ Fault.Device Device.Output → result ≡ Refusal.Fault fault }
    ensures refused { (fault ≡ Fault.Device Device.Output) ⊎ (RefusesFile source.now.image.now.name.bytes.items fault result ⊎ IsRefusedIn (λ v. v.items) source.now.kept source.now.image.now result) }
{
    if fault == Fault::Device(Device::Output) {
        return Refusal::Fault(fault);
    }
    match fault {
        Fault::Device(_) => of_device(alloc, source.name(), fault, reason),
        _ => source.refuse(rt, alloc, fault),
    }
}
