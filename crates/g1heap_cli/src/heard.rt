//! The system's reason for a read or a write that failed.
ghost use Rattle.std.specs.Prelude.{◌≡◌, Some};
ghost use Rattle.g1heap_cli.specs.Streams.{known_of};

use std::io::{Error, ErrorKind, Read, Write};
use std::{io, mem};

/// A stream, and the reason for which the last call on it failed, if one did. A call that a signal interrupted is made
/// again.
#[derive(Drop)]
pub struct Heard<S> {
    /// None while it is elsewhere.
    stream: Option<S>,
    reason: Option<Error>,
}

impl<S> Heard<S> {
    /// A stream that has not failed.
    pub fn new(stream: S) -> Heard<S>
        ensures { result.stream ≡ Some stream }
    {
        Heard {
            stream: Some(stream),
            reason: None,
        }
    }

    /// Takes it away, until it is put back. What is left here gives nothing and takes nothing.
    pub fn take(&mut self) -> Heard<S>
        ensures { result ≡ self.old }
    {
        let away = Heard {
            stream: None,
            reason: None,
        };
        mem::replace(self, away)
    }

    /// The stream itself, if it is here.
    pub fn into_inner(self) -> Option<S>
        ensures { result ≡ self.stream }
    {
        let Heard { stream, reason: _ } = self;
        stream
    }

    /// Why the last call failed, if one did.
    pub fn reason(&self) -> Option<Error> {
        self.reason
    }

    // Keeps in mind why a call failed.
    fn keep(&mut self, error: Error)
        ensures { self.new.stream ≡ self.old.stream }
    {
        if error.kind() != ErrorKind::Interrupted {
            self.reason = Some(error);
        }
    }
}

impl<S: Read> Read for Heard<S> {
    ghost remaining = { λ h. known_of S.remaining h.stream };

    fn read(&mut self, buf: &mut [u8]) -> io::Result<usize> {
        let Some(stream) = &mut self.stream else {
            return Ok(0);
        };
        let read = stream.read(buf);
        if let Err(error) = &read {
            self.keep(*error);
        }
        read
    }
}

impl<S: Write> Write for Heard<S> {
    ghost contents = { λ h. known_of S.contents h.stream };

    fn write(&mut self, buf: &[u8]) -> io::Result<usize> {
        let Some(stream) = &mut self.stream else {
            return Ok(0);
        };
        let written = stream.write(buf);
        if let Err(error) = &written {
            self.keep(*error);
        }
        written
    }

    fn flush(&mut self) -> io::Result<()> {
        let Some(stream) = &mut self.stream else {
            return Ok(());
        };
        let flushed = stream.flush();
        if let Err(error) = &flushed {
            self.keep(*error);
        }
        flushed
    }
}
