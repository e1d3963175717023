//! The bytes that wait to be written.
ghost use Rattle.std.specs.Prelude.{◌≡◌, ◌≤◌, vec_len};

use crate::buffer::PIECE;
use crate::sink::{Sink, write_all};
use byteorder::{ByteOrder, LittleEndian};
use g1_words::Fault;
use std::alloc::AllocError;

/// The bytes that wait are at the front of the room. All its memory is taken when it is made, so that
/// nothing else than the sink can fail once a byte was written.
#[derive(Drop)]
pub(crate) struct Behind {
    room: Vec<u8>,
    end: usize,
    ghost in_room: { end ≤ vec_len room },
    ghost enough: { 65536 ≤ vec_len room },
}

impl Behind {
    ghost use Rattle.std.specs.Prelude.{◌≡◌, ◌≤◌, ◌<◌, ◌+◌, ◌*◌, ◌++◌, [], length, take, vec_len, IfOk, OnOk, IfErr};
    ghost use Rattle.g1_image.specs.Text.{words_text};
    ghost use Rattle.g1_image.specs.Source.{marked};
    ghost use Rattle.g1_image.specs.Sink.{unsent, Sent, SendFails};

    /// Has these bytes wait.
    pub(crate) fn new(bytes: Vec<u8>) -> Result<Behind, AllocError>
        ensures { IfOk result (λ b. unsent b ≡ bytes.items) }
    {
        let mut room = bytes;
        let end = room.len();
        room.resize(end + PIECE, 0)?;
        Ok(Behind { room, end })
    }

    /// Writes the bytes that wait.
    pub(crate) fn flush<S: Sink>(&mut self, sink: &mut S) -> Result<(), Fault>
        ensures none { OnOk result (unsent self.new ≡ []) }
        ensures room { OnOk result (self.new.end ≡ 0) }
        ensures ok { OnOk result (Sent (S.written sink.old) (S.written sink.new) (unsent self.old) [] (unsent self.new)) }
        ensures err { IfErr result (SendFails (S.written sink.old) (S.written sink.new) (unsent self.old) []) }
        ensures mark { S.failed sink.new ≡ marked (S.failed sink.old) result }
    {
        let end = self.end;
        write_all(sink, &self.room[..end])?;
        self.end = 0;
        Ok(())
    }

    /// Writes the bytes that wait if there is no room behind them for a word.
    fn make_room<S: Sink>(&mut self, sink: &mut S) -> Result<(), Fault>
        ensures room { OnOk result (self.new.end + 8 ≤ vec_len self.new.room) }
        ensures ok { OnOk result (Sent (S.written sink.old) (S.written sink.new) (unsent self.old) [] (unsent self.new)) }
        ensures err { IfErr result (SendFails (S.written sink.old) (S.written sink.new) (unsent self.old) []) }
        ensures mark { S.failed sink.new ≡ marked (S.failed sink.old) result }
    {
        if self.room.len() - self.end >= 8 {
            return Ok(());
        }
        self.flush(sink)
    }

    /// Has these words wait, too.
    fn put(&mut self, words: &[u64])
        requires { self.old.end + 8 * length words.now ≤ vec_len self.old.room }
        ensures { unsent self.new ≡ unsent self.old ++ words_text words.now }
    {
        let end = self.end;
        let to = end + 8 * words.len();
        LittleEndian::write_u64_into(words, &mut self.room[end..to]);
        self.end = to;
    }

    /// Has these words wait, too, and writes what waits if the room is full.
    pub(crate) fn send<S: Sink>(&mut self, sink: &mut S, words: &[u64]) -> Result<(), Fault>
        ensures ok { OnOk result (Sent (S.written sink.old) (S.written sink.new) (unsent self.old) (words_text words.now) (unsent self.new)) }
        ensures err { IfErr result (SendFails (S.written sink.old) (S.written sink.new) (unsent self.old) (words_text words.now)) }
        ensures mark { S.failed sink.new ≡ marked (S.failed sink.old) result }
    {
        let mut rest = words;
        while !rest.is_empty() {
            self.make_room(sink)?;
            let count = rest.len().min((self.room.len() - self.end) / 8);
            let (front, after) = rest.split_at(count);
            self.put(front);
            rest = after;
        }
        Ok(())
    }
}
