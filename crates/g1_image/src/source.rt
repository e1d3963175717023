//! Where the bytes of an image come from.
ghost use Rattle.std.specs.Prelude.{◌≡◌, ℕ, ◌≤◌, Bool, false, List, [], Option, Some, IfOk, IfErr, length};
ghost use Rattle.std.specs.Io.KnownBytes.{ReadConsumes};
ghost use Rattle.g1_image.specs.Source.{marked};

use g1_words::{Device, Fault};

/// Where the bytes of an image come from.
pub trait Source {
    // The bytes that are left, where the source tells them.
    ghost left: { Self → Option (List ℕ) };

    // Whether a call has failed so far.
    ghost failed: { Self → Bool };

    /// Reads into the front of `buf`, and gives how many bytes it read: none, into a buffer that
    /// isn't empty, only if none are left.
    ///
    /// # Errors
    ///
    /// `Fault::Device(Device::Input)` if the read failed; no byte is lost then.
    fn read(&mut self, buf: &mut [u8]) -> Result<usize, Fault>
        ensures bound { IfOk result (λ n. n ≤ length buf.new) }
        ensures bytes { ReadConsumes (left self.old) (left self.new) result buf.new }
        ensures mark { failed self.new ≡ marked (failed self.old) result }
        ensures fault { IfErr result (λ e. e ≡ Fault.Device Device.Input) };
}

/// What a text in memory has behind it: no byte.
#[derive(Drop)]
pub(crate) struct Nothing;

impl Source for Nothing {
    ghost left = { λ s. Some [] };

    ghost failed = { λ s. false };

    fn read(&mut self, _buf: &mut [u8]) -> Result<usize, Fault> {
        Ok(0)
    }
}
