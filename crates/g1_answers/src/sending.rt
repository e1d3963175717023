//! A text that goes out as it is.
ghost use Rattle.std.specs.Prelude.{◌≡◌, ℕ, IfErr};
ghost use Rattle.g1_command.specs.Deliveries.{Delivers};

use g1_image::{Sink, ToWriter};
use g1_words::{Device, Fault};
use std::io::Write;

/// Writes a text, and hands on what the writer kept back.
///
/// # Errors
///
/// `Fault::Device(Device::Output)` if a write failed: a beginning of the text may be written then.
pub fn send_text<W: Write>(text: &[u8], writer: &mut ToWriter<W>) -> Result<(), Fault>
    ensures text { Delivers text.now (⟦<ToWriter<W> as Sink>⟧.written writer.old) (⟦<ToWriter<W> as Sink>⟧.written writer.new) result }
    ensures fault { IfErr result (λ e. e ≡ Fault.Device Device.Output) }
{
    match send_all(text, writer) {
        Ok(()) => writer.flush(),
        Err(fault) => Err(fault),
    }
}

fn send_all<S: Sink>(bytes: &[u8], sink: &mut S) -> Result<(), Fault>
    ensures text { Delivers bytes.now (S.written sink.old) (S.written sink.new) result }
    ensures fault { IfErr result (λ e. e ≡ Fault.Device Device.Output) }
{
    let mut at = 0;
    while at < bytes.len() {
        match sink.write(&bytes[at..]) {
            Ok(count) => at += count,
            Err(fault) => return Err(fault),
        }
    }
    Ok(())
}
