//! The readers and writers of std as sources and sinks.
ghost use Rattle.std.specs.Prelude.{◌≡◌, false, IfErr};
ghost use Rattle.std.specs.Io.KnownBytes.{Keeps, ReadConsumes, WriteAppends};
ghost use Rattle.std.specs.Io.{ReadsAtMost, WritesAtMost};
ghost use Rattle.g1_image.specs.Source.{marked};

use crate::sink::Sink;
use crate::source::Source;
use g1_words::{Device, Fault};
use std::io;
use std::io::{ErrorKind, Read, Write};

/// How often a call is made that a signal interrupts: without end, as far as anyone can see.
const TRIES: u64 = u64::MAX;

/// One read, made again if a signal interrupted it.
fn read_again<R: Read>(reader: &mut R, buf: &mut [u8]) -> io::Result<usize>
    ensures bound { ReadsAtMost result buf.new }
    ensures bytes { ReadConsumes (R.remaining reader.old) (R.remaining reader.new) result buf.new }
{
    for _ in 0..TRIES {
        match reader.read(buf) {
            Err(e) if e.kind() == ErrorKind::Interrupted => {}
            done => return done,
        }
    }
    Err(io::Error::from(ErrorKind::Interrupted))
}

/// One write, made again if a signal interrupted it.
fn write_again<W: Write>(writer: &mut W, bytes: &[u8]) -> io::Result<usize>
    ensures bound { WritesAtMost result bytes.now }
    ensures bytes { WriteAppends (W.contents writer.old) (W.contents writer.new) result bytes.now }
{
    for _ in 0..TRIES {
        match writer.write(bytes) {
            Err(e) if e.kind() == ErrorKind::Interrupted => {}
            done => return done,
        }
    }
    Err(io::Error::from(ErrorKind::Interrupted))
}

/// A reader as a source. A read that a signal interrupted is made again, however often. A read that
/// would block has failed: nothing here waits, and a caller whose reader has nothing yet waits itself.
#[derive(Drop)]
pub struct FromReader<R> {
    inner: R,
    failed: bool,
}

impl<R: Read> FromReader<R> {
    /// The source of a reader's bytes; no call of it has failed.
    ///
    /// # Examples
    ///
    /// ```
    /// use g1_image::{FromReader, read};
    /// use g1_testing::{Stream, Trouble, pictures::one_object, text};
    /// use g1_words::{Device, Fault};
    ///
    /// // The fourth read fails.
    /// let stream = Stream::new(text(alloc, one_object())?, 3, Trouble::Error);
    /// let refused = read(alloc, &mut FromReader::new(stream)).err();
    /// assert_eq!(rt; refused, Some(Fault::Device(Device::Input)));
    /// ```
    pub fn new(inner: R) -> FromReader<R>
        ensures left { ⟦<FromReader<R> as Source>⟧.left result ≡ R.remaining inner }
        ensures mark { ⟦<FromReader<R> as Source>⟧.failed result ≡ false }
    {
        FromReader {
            inner,
            failed: false,
        }
    }
}

impl<R: Read> Source for FromReader<R> {
    ghost left = { λ s. R.remaining s.inner };

    ghost failed = { λ s. s.failed };

    fn read(&mut self, buf: &mut [u8]) -> Result<usize, Fault> {
        match read_again(&mut self.inner, buf) {
            Ok(n) => Ok(n),
            Err(_) => {
                self.failed = true;
                Err(Fault::Device(Device::Input))
            }
        }
    }
}

/// A writer as a sink. A write that a signal interrupted is made again, however often. A write that
/// would block has failed, and so has one that takes no byte.
#[derive(Drop)]
pub struct ToWriter<W> {
    inner: W,
    failed: bool,
}

impl<W: Write> ToWriter<W> {
    /// The sink into a writer; no call of it has failed.
    ///
    /// # Examples
    ///
    /// ```
    /// use g1_image::{Sink, ToWriter};
    ///
    /// let mut sink = ToWriter::new(Vec::new(alloc));
    /// assert_eq!(rt; sink.write(&[7, 9])?, 2);
    /// assert_eq!(rt; sink.into_inner().as_slice(), [7, 9].as_slice());
    /// ```
    pub fn new(inner: W) -> ToWriter<W>
        ensures written { ⟦<ToWriter<W> as Sink>⟧.written result ≡ W.contents inner }
        ensures mark { ⟦<ToWriter<W> as Sink>⟧.failed result ≡ false }
    {
        ToWriter {
            inner,
            failed: false,
        }
    }

    /// Hands on what the writer has kept back, by one call of its flush, which is not made again. The
    /// call is made after a write that failed, too: the writer may have kept back what it took before.
    ///
    /// # Errors
    ///
    /// `Fault::Device(Device::Output)` if the writer couldn't.
    ///
    /// # Examples
    ///
    /// ```
    /// use g1_image::ToWriter;
    /// use g1_testing::{Stream, Trouble};
    /// use g1_words::{Device, Fault};
    ///
    /// let stream = Stream::new(Vec::new(alloc), 0, Trouble::Error);
    /// let refused = ToWriter::new(stream).flush();
    /// assert_eq!(rt; refused, Err(Fault::Device(Device::Output)));
    /// ```
    pub fn flush(&mut self) -> Result<(), Fault>
        ensures written { Keeps (⟦<ToWriter<W> as Sink>⟧.written self.old) (⟦<ToWriter<W> as Sink>⟧.written self.new) }
        ensures mark { ⟦<ToWriter<W> as Sink>⟧.failed self.new ≡ marked (⟦<ToWriter<W> as Sink>⟧.failed self.old) result }
        ensures fault { IfErr result (λ e. e ≡ Fault.Device Device.Output) }
    {
        match self.inner.flush() {
            Ok(()) => Ok(()),
            Err(_) => {
                self.failed = true;
                Err(Fault::Device(Device::Output))
            }
        }
    }

    /// The writer itself.
    ///
    /// # Examples
    ///
    /// ```
    /// use g1_image::{Sink, ToWriter};
    ///
    /// let mut sink = ToWriter::new(Vec::new(alloc));
    /// sink.write(&[7, 9])?;
    /// assert_eq!(rt; sink.into_inner().as_slice(), [7, 9].as_slice());
    /// ```
    pub fn into_inner(self) -> W
        ensures { W.contents result ≡ ⟦<ToWriter<W> as Sink>⟧.written self }
    {
        let ToWriter { inner, failed: _ } = self;
        inner
    }
}

impl<W: Write> Sink for ToWriter<W> {
    ghost written = { λ s. W.contents s.inner };

    ghost failed = { λ s. s.failed };

    fn write(&mut self, bytes: &[u8]) -> Result<usize, Fault> {
        match write_again(&mut self.inner, bytes) {
            Ok(n) if n > 0 || bytes.is_empty() => Ok(n),
            _ => {
                self.failed = true;
                Err(Fault::Device(Device::Output))
            }
        }
    }
}
