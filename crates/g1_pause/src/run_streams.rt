//! A pause from a source to a sink.
ghost use Rattle.std.specs.Prelude.{◌≡◌};
ghost use Rattle.g1_image.specs.Source.{IsReadOut};
ghost use Rattle.g1_pause.specs.Streams.{HoldsOfLeft, RunGives, RunGivesWithin, input_mark, output_mark};

use crate::bytes::run_pause;
use crate::settings::Settings;
use g1_image::{Sink, Source, read_by_within, write};
use g1_rem::image;
use g1_words::{Fault, Limits};
use g1_work::Gate;
use std::alloc::Global;
use std::thread::Threads;

/// The whole pause from a source to a sink: reads the text of an image to its end, then writes the
/// text of the image after, both in pieces (`g1_image::read_by`, `g1_image::write`). A sink that keeps
/// bytes back is not flushed. If the source does not report its bytes, this is the run for some bytes.
///
/// # Errors
///
/// `Fault::Device(Device::Input)` if a read failed, `Fault::Memory`, and the refusals of
/// `pause_bytes`: nothing was written. `Fault::Device(Device::Output)` if a write failed: a
/// beginning of the answer was written.
///
/// # Examples
///
/// ```
/// use g1_choose::Cost;
/// use g1_pause::{Choice, FromReader, Settings, ToWriter, pause_run};
/// use g1_testing::pictures::{shared, shared_after};
/// use g1_testing::text;
/// use g1_work::Open;
///
/// let cost = Cost { fixed: 10, dirty: 1, card: 1, byte: 1 };
/// let settings = Settings::new(8, 64, cost, Choice::Given([1].to_vec(alloc)?))?;
/// let shared = text(alloc, shared())?;
/// let mut reader = FromReader::new(shared.as_slice());
/// let mut writer = ToWriter::new(Vec::new(alloc));
/// pause_run(&rt, alloc, &mut reader, &mut writer, &settings, &Open)?;
/// assert_eq!(rt; writer.into_inner(), text(alloc, shared_after())?);
/// ```
pub fn pause_run<R: Threads + Sync, I: Source, O: Sink, G: Gate + Sync>(
    rt: &R,
    alloc: Global,
    reader: &mut I,
    writer: &mut O,
    settings: &Settings,
    gate: &G,
) -> Result<(), Fault>
    ensures answer { HoldsOfLeft (I.left reader.old) (λ xs. RunGives settings.now.cost settings.now.choice xs (O.written writer.old) (O.written writer.new) result) }
    ensures end { IsReadOut (I.left reader.new) result }
    ensures input { I.failed reader.new ≡ input_mark (I.failed reader.old) result }
    ensures output { O.failed writer.new ≡ output_mark (O.failed writer.old) result }
{
    pause_run_within(rt, alloc, Limits::Specified, reader, writer, settings, gate)
}

/// As `pause_run`, within these limits.
///
/// # Errors
///
/// Those of `pause_run`.
///
/// # Examples
///
/// ```
/// use g1_choose::Cost;
/// use g1_pause::{Choice, FromReader, Settings, ToWriter, pause_run_within};
/// use g1_testing::text;
/// use g1_words::Limits;
/// use g1_work::Open;
///
/// let cost = Cost { fixed: 10, dirty: 1, card: 1, byte: 1 };
/// let settings = Settings::new(8, 64, cost, Choice::Budget(42))?;
/// // One free region of 1 MiB, which is twice what the specification allows. The pause changes nothing.
/// let empty = text(alloc, "heap 131072 64 1")?;
/// let mut writer = ToWriter::new(Vec::new(alloc));
/// let mut reader = FromReader::new(empty.as_slice());
/// let refused = pause_run_within(
///     &rt, alloc, Limits::Specified, &mut reader, &mut writer, &settings, &Open,
/// );
/// assert_eq!(rt; refused, Err(g1_words::Fault::Geometry));
/// let mut reader = FromReader::new(empty.as_slice());
/// pause_run_within(&rt, alloc, Limits::Wide, &mut reader, &mut writer, &settings, &Open)?;
/// assert_eq!(rt; writer.into_inner(), empty);
/// ```
pub fn pause_run_within<R: Threads + Sync, I: Source, O: Sink, G: Gate + Sync>(
    rt: &R,
    alloc: Global,
    limits: Limits,
    reader: &mut I,
    writer: &mut O,
    settings: &Settings,
    gate: &G,
) -> Result<(), Fault>
    ensures answer { HoldsOfLeft (I.left reader.old) (λ xs. RunGivesWithin limits settings.now.cost settings.now.choice xs (O.written writer.old) (O.written writer.new) result) }
    ensures end { IsReadOut (I.left reader.new) result }
    ensures input { I.failed reader.new ≡ input_mark (I.failed reader.old) result }
    ensures output { O.failed writer.new ≡ output_mark (O.failed writer.old) result }
{
    let before = read_by_within(rt, alloc, limits, reader, settings.workers())?;
    match run_pause(rt, alloc, before, settings, gate) {
        Ok(after) => write(alloc, image(&after), writer),
        Err(fault) => Err(fault),
    }
}
