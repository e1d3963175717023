//! Bytes that were read from a source and wait to be taken.
ghost use Rattle.std.specs.Prelude.{◌≤◌, vec_len};

use crate::source::Source;
use g1_words::Fault;
use std::alloc::{AllocError, Global};

// An image may have 134 million bytes: few calls read it, and a small one doesn't take much room.
pub(crate) const PIECE: usize = 65_536;

/// The bytes that wait are in the room, from a start to an end. A source that has ended is asked no
/// more: one more read of a terminal would wait for another line.
#[derive(Drop)]
pub(crate) struct Buffer {
    room: Vec<u8>,
    start: usize,
    end: usize,
    ended: bool,
    ghost ordered: { start ≤ end },
    ghost in_room: { end ≤ vec_len room },
}

impl Buffer {
    ghost use Rattle.std.specs.Prelude.{◌≡◌, ◌≤◌, ◌<◌, ◌+◌, ◌^◌, ℕ, [], length, drop, false, vec_len, OnOk, IfOk, IfErr, IsTrue, IsFalse};
    ghost use Rattle.std.specs.Io.KnownBytes.{Keeps, IsAtEnd};
    ghost use Rattle.g1_image.specs.Reading.{IsBytes};
    ghost use Rattle.g1_image.specs.Source.{ReadFails};
    ghost use Rattle.g1_image.specs.Buffer.{buffered, to_read, SeesEnd, IsReadAhead};

    pub(crate) fn new(alloc: Global) -> Buffer
        ensures none { buffered result ≡ [] }
        ensures known { result.ended ≡ false }
    {
        Buffer {
            room: Vec::new(alloc),
            start: 0,
            end: 0,
            ended: false,
        }
    }

    /// The bytes that wait.
    pub(crate) fn bytes(&self) -> &[u8]
        ensures same { result.now ≡ buffered self.now }
        ensures are_bytes { IsBytes result.now }
    {
        let (start, end) = (self.start, self.end);
        let all = self.room.as_slice();
        &all[start..end]
    }

    /// How many bytes wait.
    pub(crate) fn len(&self) -> usize
        ensures value { result ≡ length (buffered self.now) }
        ensures bound { result < 2 ^ 63 }
    {
        self.end - self.start
    }

    /// Lets go of the first bytes.
    pub(crate) fn pass(&mut self, count: usize)
        requires { count ≤ length (buffered self.old) }
        ensures left { buffered self.new ≡ drop count (buffered self.old) }
        ensures end { self.new.ended ≡ self.old.ended }
    {
        self.start += count;
    }

    /// Moves the bytes to the front of the room.
    fn move_to_front(&mut self)
        ensures same { buffered self.new ≡ buffered self.old }
        ensures end { self.new.ended ≡ self.old.ended }
    {
        let (start, end) = (self.start, self.end);
        self.room.copy_within(start..end, 0);
        self.start = 0;
        self.end = end - start;
    }

    /// Makes the room twice as large if the bytes reach its end.
    fn grow(&mut self) -> Result<(), AllocError>
        ensures same { OnOk result (buffered self.new ≡ buffered self.old) }
        ensures room { OnOk result (self.new.end < vec_len self.new.room) }
        ensures end { self.new.ended ≡ self.old.ended }
    {
        let end = self.end;
        if end == self.room.len() {
            self.room.resize(end + end.max(PIECE), 0)?;
        }
        Ok(())
    }

    /// Reads behind the bytes, and returns whether there were any.
    fn read_on<S: Source>(&mut self, source: &mut S) -> Result<bool, Fault>
        requires known { SeesEnd self.old (S.left source.old) }
        ensures known { SeesEnd self.new (S.left source.new) }
        ensures kept { OnOk result (Keeps (to_read self.old (S.left source.old)) (to_read self.new (S.left source.new))) }
        ensures more { IfOk result (λ more. IsTrue more → length (buffered self.old) < length (buffered self.new)) }
        ensures end { IfOk result (λ more. IsFalse more → IsAtEnd (S.left source.new) × (length (buffered self.new) ≡ length (buffered self.old))) }
        ensures mark { OnOk result (S.failed source.new ≡ S.failed source.old) }
        ensures err { IfErr result (ReadFails (S.failed source.old) (S.failed source.new)) }
    {
        if self.ended {
            return Ok(false);
        }
        if self.start > 0 {
            self.move_to_front();
        }
        self.grow()?;
        let end = self.end;
        let count = source.read(&mut self.room[end..])?;
        self.end = end + count;
        self.ended = count == 0;
        Ok(count > 0)
    }

    /// Reads until this many bytes wait, and returns whether they do.
    pub(crate) fn reach<S: Source>(&mut self, source: &mut S, wanted: usize) -> Result<bool, Fault>
        requires known { SeesEnd self.old (S.left source.old) }
        ensures known { SeesEnd self.new (S.left source.new) }
        ensures ok { IfOk result (IsReadAhead (S.failed source.old) (S.failed source.new) (to_read self.old (S.left source.old)) (to_read self.new (S.left source.new)) (S.left source.new) (buffered self.new) wanted) }
        ensures err { IfErr result (ReadFails (S.failed source.old) (S.failed source.new)) }
    {
        while self.len() < wanted {
            if !self.read_on(source)? {
                return Ok(false);
            }
        }
        Ok(true)
    }

    /// Reads to the end, and keeps nothing.
    pub(crate) fn drain<S: Source>(&mut self, source: &mut S) -> Result<(), Fault>
        requires known { SeesEnd self.old (S.left source.old) }
        ensures end { OnOk result (IsAtEnd (S.left source.new)) }
        ensures mark { OnOk result (S.failed source.new ≡ S.failed source.old) }
        ensures err { IfErr result (ReadFails (S.failed source.old) (S.failed source.new)) }
    {
        for _ in 0..u64::MAX {
            let count = self.len();
            self.pass(count);
            if !self.read_on(source)? {
                return Ok(());
            }
        }
        // No memory would hold an image of so many bytes.
        Err(Fault::Memory)
    }
}
