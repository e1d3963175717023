//! What is answered by an image.
ghost use Rattle.std.specs.Prelude.{◌≡◌, ℕ, List, Ok};
ghost use Rattle.g1_image.specs.Image.{IsTextIn};
ghost use Rattle.g1_image.specs.Source.{HoldsOfLeft};
ghost use Rattle.g1_pause.specs.Answer.{IsAnswerWithin};
ghost use Rattle.g1_answers.specs.Replies.{Gives};
ghost use Rattle.g1_answers.specs.Images.{IsRepacked, IsNewImage};

use crate::answering::read_image;
use crate::question::NewImage;
use g1_image::{FromReader, Image, Sink, ToWriter, Version, write};
use g1_pause::{Settings, pause_run_within};
use g1_words::{Fault, Limits};
use g1_work::Open;
use std::alloc::Global;
use std::io::{Read, Write};
use std::thread::Threads;

/// Writes an image that is made of the one that a reader gives, which is within these limits and is read to its end
/// first.
///
/// # Errors
///
/// `Fault::Settings`, before anything is read. Those of reading; of a pause `Fault::Uncovered`, `Fault::Set` and
/// `Fault::Room`; `Fault::Memory`. After these nothing is written. `Fault::Device(Device::Output)` if a write failed: a
/// beginning of the image may be written then.
pub fn write_image<T: Threads + Sync, R: Read, W: Write>(
    rt: &T,
    alloc: Global,
    limits: Limits,
    wanted: &NewImage,
    reader: &mut R,
    writer: &mut ToWriter<W>,
) -> Result<(), Fault>
    ensures { HoldsOfLeft (R.remaining reader.old) (λ xs. Gives (IsNewImage limits wanted.now xs) (⟦<ToWriter<W> as Sink>⟧.written writer.old) (⟦<ToWriter<W> as Sink>⟧.written writer.new) result) }
{
    let settings = wanted.settings(alloc)?;
    match wanted {
        NewImage::Repacked(_) => write_repacked(rt, alloc, limits, &settings, reader, writer),
        NewImage::Paused(_) => write_paused(rt, alloc, limits, &settings, reader, writer),
    }
}

fn write_paused<T: Threads + Sync, R: Read, W: Write>(
    rt: &T,
    alloc: Global,
    limits: Limits,
    settings: &Settings,
    reader: &mut R,
    writer: &mut ToWriter<W>,
) -> Result<(), Fault>
    ensures { HoldsOfLeft (R.remaining reader.old) (λ xs. Gives (IsAnswerWithin limits settings.now.cost settings.now.choice xs) (⟦<ToWriter<W> as Sink>⟧.written writer.old) (⟦<ToWriter<W> as Sink>⟧.written writer.new) result) }
{
    let mut source = FromReader::new(reader);
    match pause_run_within(rt, alloc, limits, &mut source, writer, settings, &Open) {
        Ok(()) => writer.flush(),
        Err(fault) => Err(fault),
    }
}

fn write_repacked<T: Threads + Sync, R: Read, W: Write>(
    rt: &T,
    alloc: Global,
    limits: Limits,
    settings: &Settings,
    reader: &mut R,
    writer: &mut ToWriter<W>,
) -> Result<(), Fault>
    ensures { HoldsOfLeft (R.remaining reader.old) (λ xs. Gives (IsRepacked limits xs) (⟦<ToWriter<W> as Sink>⟧.written writer.old) (⟦<ToWriter<W> as Sink>⟧.written writer.new) result) }
{
    let image = read_image(rt, alloc, limits, settings, reader)?;
    send_image(alloc, &image, writer)
}

fn send_image<W: Write>(alloc: Global, image: &Image, writer: &mut ToWriter<W>) -> Result<(), Fault>
    ensures { (out : List ℕ) × IsTextIn Version.Two out image.now × Gives (λ r. r ≡ Ok out) (⟦<ToWriter<W> as Sink>⟧.written writer.old) (⟦<ToWriter<W> as Sink>⟧.written writer.new) result }
{
    match write(alloc, image, writer) {
        Ok(()) => writer.flush(),
        Err(fault) => Err(fault),
    }
}
