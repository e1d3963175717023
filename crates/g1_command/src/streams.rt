//! The whole of an input, and the whole of an answer.
ghost use Rattle.std.specs.Prelude.{◌≡◌, ◌⊎◌, ℕ, List, IfOk, IfErr, IfSome, MatchResult, take};
ghost use Rattle.std.specs.Io.{WritesAtMost};
ghost use Rattle.std.specs.Io.KnownBytes.{Appends, WriteAppends};
ghost use Rattle.g1_command.specs.Deliveries.{Delivers, DeliversText};
ghost use Rattle.g1_command.specs.Lines.{left_of, ReadsLine};

use g1_words::{Device, Fault};
use std::alloc::Global;
use std::io;
use std::io::{BufRead, BufReader, ErrorKind, Read, Write};

// A reader that keeps in mind whether a read failed: a reader too may say that memory is wanting, and
// then it is the input that failed, and no growth of the bytes.
#[derive(Drop)]
struct Watched<'r, R> {
    inner: &'r mut R,
    failed: bool,
}

impl<'r, R: Read> Read for Watched<'r, R> {
    ghost remaining = { λ w. R.remaining w.inner.now };

    fn read(&mut self, buf: &mut [u8]) -> io::Result<usize> {
        match self.inner.read(buf) {
            Ok(count) => Ok(count),
            Err(error) => {
                self.failed = error.kind() != ErrorKind::Interrupted;
                Err(error)
            }
        }
    }
}

/// All bytes of a reader, to its end. A read that a signal interrupted is made again.
///
/// # Errors
///
/// `Fault::Device(Device::Input)` if a read failed, and `Fault::Memory`.
pub fn read_all<R: Read>(alloc: Global, reader: &mut R) -> Result<Vec<u8>, Fault>
    ensures bytes { IfOk result (λ v. IfSome (R.remaining reader.old) (λ xs. xs ≡ v.items)) }
    ensures fault { IfErr result (λ e. (e ≡ Fault.Memory) ⊎ (e ≡ Fault.Device Device.Input)) }
{
    let mut bytes = Vec::new(alloc);
    let mut watched = Watched {
        inner: reader,
        failed: false,
    };
    match watched.read_to_end(&mut bytes) {
        Ok(_) => Ok(bytes),
        Err(_) if watched.failed => Err(Fault::Device(Device::Input)),
        Err(_) => Err(Fault::Memory),
    }
}

/// The lines of a reader, one after the other.
#[derive(Drop)]
pub struct LineReader<'r, R> {
    inner: BufReader<Watched<'r, R>>,
}

impl<'r, R: Read> LineReader<'r, R> {
    /// Begins at the reader's next byte.
    ///
    /// # Errors
    ///
    /// `Fault::Memory`.
    pub fn new(alloc: Global, reader: &'r mut R) -> Result<LineReader<'r, R>, Fault>
        ensures left { IfOk result (λ r. left_of R.remaining r ≡ R.remaining reader.old) }
        ensures fault { IfErr result (λ e. e ≡ Fault.Memory) }
    {
        let watched = Watched {
            inner: reader,
            failed: false,
        };
        match BufReader::new(alloc, watched) {
            Ok(inner) => Ok(LineReader { inner }),
            Err(_) => Err(Fault::Memory),
        }
    }

    /// Puts the next line behind what is there, with the byte 10 that ends it; without it, if the input
    /// ends first. Returns whether there was a byte. A read that a signal interrupted is made again.
    ///
    /// # Errors
    ///
    /// `Fault::Device(Device::Input)` if a read failed, and `Fault::Memory`.
    pub fn read_into(&mut self, line: &mut Vec<u8>) -> Result<bool, Fault>
        ensures line { IfOk result (ReadsLine (left_of R.remaining self.old) (left_of R.remaining self.new) line.old.items line.new.items) }
        ensures fault { IfErr result (λ e. (e ≡ Fault.Memory) ⊎ (e ≡ Fault.Device Device.Input)) }
    {
        match self.inner.read_until(b'\n', line) {
            Ok(count) => Ok(count > 0),
            Err(_) if self.inner.get_ref().failed => Err(Fault::Device(Device::Input)),
            Err(_) => Err(Fault::Memory),
        }
    }
}

/// Writes an answer at once. A write that a signal interrupted is made again.
///
/// # Errors
///
/// `Fault::Device(Device::Output)` if a write failed: a beginning of the answer may be written then.
pub fn deliver<W: Write>(answer: &[u8], writer: &mut W) -> Result<(), Fault>
    ensures text { Delivers answer.now (W.contents writer.old) (W.contents writer.new) result }
    ensures fault { IfErr result (λ e. e ≡ Fault.Device Device.Output) }
{
    match write_whole(answer, writer) {
        Ok(()) => Ok(()),
        Err(_) => Err(Fault::Device(Device::Output)),
    }
}

/// The exit status of a program that a broken pipe ends, as a shell shows it.
pub const BROKEN_PIPE: u8 = 141;

/// Writes a text as `deliver` does, and returns its status: the given one, or `BROKEN_PIPE` if its reader
/// went away, who has read what he wanted.
///
/// # Errors
///
/// `Fault::Device(Device::Output)` if a write failed in another way.
pub fn deliver_text<W: Write>(status: u8, text: &[u8], writer: &mut W) -> Result<u8, Fault>
    ensures text { DeliversText status text.now (W.contents writer.old) (W.contents writer.new) result }
{
    match write_whole(text, writer) {
        Ok(()) => Ok(status),
        Err(error) if error.kind() == ErrorKind::BrokenPipe => Ok(BROKEN_PIPE),
        Err(_) => Err(Fault::Device(Device::Output)),
    }
}

// Writes all of the bytes, and hands on what the writer kept back.
fn write_whole<W: Write>(bytes: &[u8], writer: &mut W) -> io::Result<()>
    ensures { Delivers bytes.now (W.contents writer.old) (W.contents writer.new) result }
{
    match write_all(bytes, writer) {
        Ok(()) => writer.flush(),
        Err(error) => Err(error),
    }
}

/// Writes all of the bytes: std's call does not promise that a beginning of them stands after a failed write.
pub(crate) fn write_all<W: Write>(bytes: &[u8], writer: &mut W) -> io::Result<()>
    ensures { Delivers bytes.now (W.contents writer.old) (W.contents writer.new) result }
{
    let mut at = 0;
    while at < bytes.len() {
        match write_again(&bytes[at..], writer) {
            Ok(0) => return Err(io::Error::from(ErrorKind::WriteZero)),
            Ok(count) => at += count,
            Err(error) => return Err(error),
        }
    }
    Ok(())
}

// How often a call is made that a signal interrupts: without end, as far as anyone can see.
const TRIES: u64 = u64::MAX;

// One write, made again if a signal interrupted it.
fn write_again<W: Write>(bytes: &[u8], writer: &mut W) -> io::Result<usize>
    ensures bound { WritesAtMost result bytes.now }
    ensures bytes { WriteAppends (W.contents writer.old) (W.contents writer.new) result bytes.now }
{
    for _ in 0..TRIES {
        match writer.write(bytes) {
            Err(error) if error.kind() == ErrorKind::Interrupted => {}
            done => return done,
        }
    }
    Err(io::Error::from(ErrorKind::Interrupted))
}
