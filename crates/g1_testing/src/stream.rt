use std::io;
use std::io::{ErrorKind, Read, Write};

/// What a call that doesn't go well answers.
#[derive(Clone, Copy)]
pub enum Trouble {
    /// An error, at this call alone.
    Error,
    /// An error, at this call and at all later ones.
    Broken,
    /// An error that memory ran out, at this call and at all later ones.
    OutOfMemory,
    /// An error of a call that a signal interrupted, at this call alone.
    Interrupted,
    /// No byte taken and no error, at this call alone.
    Nothing,
}

/// Gives or takes some bytes a call, counts its calls, and may have trouble at one of them, and errors before each. A flush
/// is a call too.
#[derive(Drop)]
pub struct Stream {
    pub bytes: Vec<u8>,
    pub calls: usize,
    /// How many bytes the calls that went well asked for, and the most that one of them did.
    pub asked: usize,
    pub longest: usize,
    given: usize,
    most: usize,
    turns: usize,
    trouble_at: usize,
    trouble: Trouble,
    kind: ErrorKind,
    errors: usize,
    errors_left: usize,
}

impl Stream {
    /// A stream of one byte a call that holds these bytes and has this trouble at the call of this number, counted from 0.
    pub fn new(bytes: Vec<u8>, trouble_at: usize, trouble: Trouble) -> Stream {
        Stream {
            bytes,
            calls: 0,
            asked: 0,
            longest: 0,
            given: 0,
            most: 1,
            turns: 0,
            trouble_at,
            trouble,
            kind: ErrorKind::Other,
            errors: 0,
            errors_left: 0,
        }
    }

    /// A stream without trouble that gives or takes at most this many bytes a call.
    pub fn of(bytes: Vec<u8>, most: usize) -> Stream {
        let mut stream = Stream::new(bytes, usize::MAX, Trouble::Error);
        stream.most = most;
        stream
    }

    /// The same stream with this many errors of a kind before each call except the first and a flush. They are no calls of
    /// its trouble.
    pub fn with_errors(mut self, errors: usize, kind: ErrorKind) -> Stream {
        self.errors = errors;
        self.kind = kind;
        self
    }

    /// How many bytes may move.
    fn turn(&mut self, length: usize) -> io::Result<usize> {
        let is_at = self.turns == self.trouble_at;
        let is_behind = self.turns > self.trouble_at;
        self.turns = self.turns.wrapping_add(1);
        let error = match self.trouble {
            Trouble::Broken if is_at || is_behind => ErrorKind::Other,
            Trouble::OutOfMemory if is_at || is_behind => ErrorKind::OutOfMemory,
            Trouble::Error if is_at => ErrorKind::Other,
            Trouble::Interrupted if is_at => ErrorKind::Interrupted,
            Trouble::Nothing if is_at => return Ok(0),
            _ => {
                self.asked = self.asked.wrapping_add(length);
                self.longest = self.longest.max(length);
                return Ok(self.most);
            }
        };
        Err(io::Error::from(error))
    }

    fn call(&mut self, length: usize) -> io::Result<usize> {
        self.calls = self.calls.wrapping_add(1);
        if self.errors_left > 0 {
            self.errors_left -= 1;
            return Err(io::Error::from(self.kind));
        }
        self.errors_left = self.errors;
        self.turn(length)
    }
}

impl Read for Stream {
    fn read(&mut self, buf: &mut [u8]) -> io::Result<usize> {
        let most = self.call(buf.len())?.min(buf.len());
        let from = self.given.min(self.bytes.len());
        let mut rest = &self.bytes[from..];
        let count = rest.read(&mut buf[..most])?;
        self.given = from.wrapping_add(count);
        Ok(count)
    }
}

impl Write for Stream {
    fn write(&mut self, buf: &[u8]) -> io::Result<usize> {
        let most = self.call(buf.len())?.min(buf.len());
        self.bytes.extend_from_slice(&buf[..most])?;
        Ok(most)
    }

    fn flush(&mut self) -> io::Result<()> {
        self.calls = self.calls.wrapping_add(1);
        self.turn(0)?;
        Ok(())
    }
}
