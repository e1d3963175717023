//! Where the bytes of an image go.
ghost use Rattle.std.specs.Prelude.{◌≡◌, ℕ, ◌<◌, ◌≤◌, Bool, List, Option, IfOk, IfErr, OnOk, length, take};
ghost use Rattle.std.specs.Io.KnownBytes.{WriteAppends, Appends};
ghost use Rattle.g1_image.specs.Source.{marked};

use g1_words::{Device, Fault};

/// Where the bytes of an image go.
pub trait Sink {
    // The bytes written so far, where the sink tells them.
    ghost written: { Self → Option (List ℕ) };

    // Whether a call has failed so far.
    ghost failed: { Self → Bool };

    /// Writes the front of `bytes`, and gives how many bytes it wrote: of bytes that aren't empty at
    /// least one.
    ///
    /// # Errors
    ///
    /// `Fault::Device(Device::Output)` if the write failed; no byte was written then.
    fn write(&mut self, bytes: &[u8]) -> Result<usize, Fault>
        ensures bound { IfOk result (λ n. (n ≤ length bytes.now) × (0 < length bytes.now → 0 < n)) }
        ensures bytes { WriteAppends (written self.old) (written self.new) result bytes.now }
        ensures mark { failed self.new ≡ marked (failed self.old) result }
        ensures fault { IfErr result (λ e. e ≡ Fault.Device Device.Output) };
}

/// Writes all of `bytes` to a sink.
///
/// # Errors
///
/// `Fault::Device(Device::Output)` if a write failed: the beginning of the bytes that was written
/// before is there.
pub(crate) fn write_all<S: Sink>(sink: &mut S, bytes: &[u8]) -> Result<(), Fault>
    ensures ok { OnOk result (Appends (S.written sink.old) (S.written sink.new) bytes.now) }
    ensures err { IfErr result (λ e. (e ≡ Fault.Device Device.Output) × ((k : ℕ) × (k < length bytes.now) × Appends (S.written sink.old) (S.written sink.new) (take k bytes.now))) }
    ensures mark { S.failed sink.new ≡ marked (S.failed sink.old) result }
{
    let mut at = 0;
    while at < bytes.len() {
        at += sink.write(&bytes[at..])?;
    }
    Ok(())
}
