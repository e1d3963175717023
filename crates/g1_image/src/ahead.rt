//! The bytes of a text that wait to be taken.
use crate::buffer::Buffer;
use crate::cursor::Cursor;
use crate::source::Source;
use g1_words::Fault;
use std::alloc::Global;

/// The bytes that wait: all that is left of a text in memory, or what was read of one from a source.
#[derive(Drop)]
pub(crate) enum Ahead<'a> {
    Whole(Cursor<'a>),
    Read(Buffer),
}

impl<'a> Ahead<'a> {
    ghost use Rattle.std.specs.Prelude.{◌≡◌, ◌≤◌, ◌<◌, ◌^◌, ℕ, List, Option, [], length, drop, OnOk, IfOk, IfErr};
    ghost use Rattle.std.specs.Io.KnownBytes.{IsAtEnd};
    ghost use Rattle.g1_image.specs.Reading.{IsBytes};
    ghost use Rattle.g1_image.specs.Source.{ReadFails};
    ghost use Rattle.g1_image.specs.Buffer.{IsReadAhead};
    ghost use Rattle.g1_image.specs.Ahead.{waiting, to_take, KnowsEnd};

    /// Nothing was read so far.
    pub(crate) fn nothing(alloc: Global) -> Ahead<'a>
        ensures none { waiting result ≡ [] }
        ensures known { (left : Option (List ℕ)) → KnowsEnd result left }
    {
        Ahead::Read(Buffer::new(alloc))
    }

    /// The bytes that wait.
    pub(crate) fn bytes(&self) -> &[u8]
        ensures same { result.now ≡ waiting self.now }
        ensures are_bytes { IsBytes result.now }
    {
        match self {
            Ahead::Whole(cursor) => cursor.rest(),
            Ahead::Read(buffer) => buffer.bytes(),
        }
    }

    /// How many bytes wait.
    pub(crate) fn len(&self) -> usize
        ensures value { result ≡ length (waiting self.now) }
        ensures bound { result < 2 ^ 63 }
    {
        self.bytes().len()
    }

    /// Lets go of the first bytes.
    pub(crate) fn pass(&mut self, count: usize)
        requires { count ≤ length (waiting self.old) }
        ensures left { waiting self.new ≡ drop count (waiting self.old) }
        ensures end { (left : Option (List ℕ)) → KnowsEnd self.old left → KnowsEnd self.new left }
    {
        match self {
            Ahead::Whole(cursor) => cursor.skip(count),
            Ahead::Read(buffer) => buffer.pass(count),
        }
    }

    /// Reads until this many bytes wait, and returns whether they do.
    pub(crate) fn reach<S: Source>(&mut self, source: &mut S, wanted: usize) -> Result<bool, Fault>
        requires known { KnowsEnd self.old (S.left source.old) }
        ensures known { KnowsEnd self.new (S.left source.new) }
        ensures ok { IfOk result (IsReadAhead (S.failed source.old) (S.failed source.new) (to_take self.old (S.left source.old)) (to_take self.new (S.left source.new)) (S.left source.new) (waiting self.new) wanted) }
        ensures err { IfErr result (ReadFails (S.failed source.old) (S.failed source.new)) }
    {
        match self {
            Ahead::Whole(cursor) => Ok(cursor.len() >= wanted),
            Ahead::Read(buffer) => buffer.reach(source, wanted),
        }
    }

    /// Reads to the end, and keeps nothing.
    pub(crate) fn drain<S: Source>(&mut self, source: &mut S) -> Result<(), Fault>
        requires known { KnowsEnd self.old (S.left source.old) }
        ensures end { OnOk result (IsAtEnd (S.left source.new)) }
        ensures mark { OnOk result (S.failed source.new ≡ S.failed source.old) }
        ensures err { IfErr result (ReadFails (S.failed source.old) (S.failed source.new)) }
    {
        match self {
            Ahead::Whole(_) => Ok(()),
            Ahead::Read(buffer) => buffer.drain(source),
        }
    }
}
