//! The text of an image, to a sink or into a list.
ghost use Rattle.std.specs.Prelude.{◌≡◌, ◌≤◌, ◌*◌, ℕ, List, length, All, OnOk, IfOk, IfErr};
ghost use Rattle.g1_words.specs.Words.{AreLaid};
ghost use Rattle.g1_image.specs.Text.{words_text};
ghost use Rattle.g1_image.specs.Image.{used_words, IsTextIn};
ghost use Rattle.g1_image.specs.Source.{marked};
ghost use Rattle.g1_image.specs.Sink.{unsent, Sent, SendFails, Writes, output_mark};

use crate::behind::Behind;
use crate::cursor::Version;
use crate::file_parts::encode_front;
use crate::image::Image;
use crate::sink::Sink;
use crate::std_streams::ToWriter;
use g1_words::{Fault, Region};
use std::alloc::Global;

/// Sends the used words of regions of this width.
fn send_used<S: Sink>(
    behind: &mut Behind,
    sink: &mut S,
    width: usize,
    regions: &[Region],
    words: &[u64],
) -> Result<(), Fault>
    requires laid { AreLaid width regions.now (length words.now) }
    requires tops { All (λ q. q.top ≤ width) regions.now }
    ensures ok { OnOk result (Sent (S.written sink.old) (S.written sink.new) (unsent behind.old) (words_text (used_words width regions.now words.now)) (unsent behind.new)) }
    ensures err { IfErr result (SendFails (S.written sink.old) (S.written sink.new) (unsent behind.old) (words_text (used_words width regions.now words.now))) }
    ensures mark { S.failed sink.new ≡ marked (S.failed sink.old) result }
{
    let mut rest = words;
    for r in regions {
        let (region, after) = rest.split_at(rest.len().min(width));
        behind.send(sink, &region[..r.top as usize])?;
        rest = after;
    }
    Ok(())
}

/// Writes the text of an image, of version 2, to a sink: as `encode` gives it, but the words go out in
/// pieces, and the text is never in memory as a whole. All memory is taken before the first byte is
/// written. A sink that keeps bytes back is not flushed.
///
/// # Errors
///
/// `Fault::Memory`: nothing was written. `Fault::Device(Device::Output)` if a write failed: a
/// beginning of the text was written.
///
/// # Examples
///
/// ```
/// use g1_image::{ToWriter, write};
/// use g1_testing::{image, pictures::shared, text};
///
/// let mut sink = ToWriter::new(Vec::new(alloc));
/// write(alloc, &image(alloc, shared())?, &mut sink)?;
/// assert!(rt; sink.into_inner() == text(alloc, shared())?);
/// ```
pub fn write<S: Sink>(alloc: Global, image: &Image, sink: &mut S) -> Result<(), Fault>
    ensures text { (text : List ℕ) × IsTextIn Version.Two text image.now × Writes text (S.written sink.old) (S.written sink.new) result }
    ensures mark { S.failed sink.new ≡ output_mark (S.failed sink.old) result }
{
    let heap = image.heap();
    let front = encode_front(alloc, image)?;
    let mut behind = Behind::new(front)?;
    send_used(
        &mut behind,
        sink,
        heap.geometry().region_words() as usize,
        heap.regions(),
        heap.words().laid(),
    )?;
    behind.flush(sink)
}

/// The text of an image, of version 2.
///
/// # Errors
///
/// `Fault::Memory` alone.
///
/// # Examples
///
/// ```
/// use g1_image::encode;
/// use g1_testing::{image, pictures::shared, text};
///
/// let bytes = encode(alloc, &image(alloc, shared())?)?;
/// assert!(rt; bytes == text(alloc, shared())?);
/// ```
pub fn encode(alloc: Global, image: &Image) -> Result<Vec<u8>, Fault>
    ensures ok { IfOk result (λ v. IsTextIn Version.Two v.items image.now) }
    ensures err { IfErr result (λ e. e ≡ Fault.Memory) }
{
    let mut sink = ToWriter::new(Vec::new(alloc));
    match write(alloc, image, &mut sink) {
        Ok(()) => Ok(sink.into_inner()),
        // A list takes no more bytes only if memory runs out.
        Err(_) => Err(Fault::Memory),
    }
}
