//! What a row gives to a call, or expects of it, as bytes.
//!
//! Each line is a part, except that an image takes all its lines:
//!
//! - `heap ..` and the lines of docs/HEAP_TEXT.md below it: the bytes of that image;
//! - `image NAME`: the bytes of an image that a block has drawn;
//! - `hex DIGITS`: these bytes, with spaces for the reader's eye;
//! - `text TEXT`: the bytes of the text, in which `\n` ends a line and `\t` is a tab;
//! - `times N TEXT`: the bytes of the text n times, behind those of the line above;
//! - `raw MAGIC NUMBER ..`: the magic, and numbers of 4 bytes: `=N` is a word of 8 bytes, `S/R` the header of an object
//!   of S words with R slots, `A..B` the numbers from A up to B, `A,B` both. `NUMBER*N` stands for n of that number, and
//!   `NUMBER*N*M` for those m times. `N+STEP` is n in the first of them, and a step more in each other;
//! - `| LINE`: this line and its end, also if it looks like another part;
//! - any other line: itself and its end.
use g1_testing::{raw, text};
use g1_words::Fault;
use std::alloc::{AllocError, Global};

/// The words that a line of an image begins with, below its heading.
const DRAWN: [&str; 5] = ["root", "dirty", "region", "remembered", "object"];

/// A line that is not understood.
pub(crate) const BAD: Fault = Fault::Line(0);

/// An image that has a name.
#[derive(Drop)]
pub(crate) struct Picture {
    pub(crate) name: String,
    pub(crate) bytes: Vec<u8>,
}

/// The parts that the lines say, and the lines of an image that isn't finished.
#[derive(Drop)]
struct Laying {
    parts: Vec<Vec<u8>>,
    drawing: String,
}

impl Laying {
    fn push_line(&mut self, alloc: Global, line: &str, pictures: &[Picture]) -> Result<(), Fault> {
        let word = first_word(line);
        if !DRAWN.contains(&word) {
            self.finish(alloc)?;
        }
        if word == "heap" || !self.drawing.is_empty() {
            return Ok(push_line(&mut self.drawing, line)?);
        }
        if let Some(times) = line.strip_prefix("times ") {
            return self.push_times(alloc, times);
        }
        let part = part_of(alloc, line, pictures)?;
        Ok(self.parts.push(part)?)
    }

    /// Adds a text to the last part, as often as the number before it says.
    fn push_times(&mut self, alloc: Global, line: &str) -> Result<(), Fault> {
        let (count, text) = line.split_once(' ').ok_or(BAD)?;
        let count = count.parse::<u32>().ok().ok_or(BAD)?;
        let text = unescape(alloc, text)?;
        let last = self.parts.last_mut().ok_or(BAD)?;
        for _again in 0..count {
            last.extend_from_slice(text.as_slice())?;
        }
        Ok(())
    }

    /// Lays the image whose lines end here, if there is one.
    fn finish(&mut self, alloc: Global) -> Result<(), Fault> {
        if !self.drawing.is_empty() {
            self.parts.push(text(alloc, self.drawing.as_str())?)?;
            self.drawing.clear();
        }
        Ok(())
    }
}

/// The parts that some lines say; none if there is no line.
///
/// # Errors
///
/// `Fault::Line` if a line says nothing; `Fault::Memory`.
pub(crate) fn parts_of(
    alloc: Global,
    lines: &str,
    pictures: &[Picture],
) -> Result<Vec<Vec<u8>>, Fault> {
    let mut laying = Laying {
        parts: Vec::new(alloc),
        drawing: String::new(alloc),
    };
    for line in lines.split('\n') {
        if !line.is_empty() {
            laying.push_line(alloc, line, pictures)?;
        }
    }
    laying.finish(alloc)?;
    let Laying { parts, .. } = laying;
    Ok(parts)
}

/// What a line begins with, up to a space.
pub(crate) fn first_word(line: &str) -> &str {
    line.split_once(' ').unwrap_or((line, "")).0
}

fn part_of(alloc: Global, line: &str, pictures: &[Picture]) -> Result<Vec<u8>, Fault> {
    match line.split_once(' ') {
        Some(("image", name)) => bytes_of_picture(alloc, name, pictures),
        Some(("hex", digits)) => bytes_of(alloc, digits),
        Some(("text", text)) => unescape(alloc, text),
        Some(("raw", numbers)) => raw(alloc, numbers),
        Some(("|", text)) => line_of(alloc, text),
        _ if line == "|" => line_of(alloc, ""),
        _ => line_of(alloc, line),
    }
}

fn line_of(alloc: Global, text: &str) -> Result<Vec<u8>, Fault> {
    let mut line = Vec::new(alloc);
    push_bytes(&mut line, text)?;
    Ok(line)
}

/// Adds the bytes of a line and of its end.
fn push_bytes(bytes: &mut Vec<u8>, line: &str) -> Result<(), AllocError> {
    bytes.extend_from_slice(line.as_bytes())?;
    bytes.extend_from_slice(b"\n")
}

fn bytes_of_picture(alloc: Global, name: &str, pictures: &[Picture]) -> Result<Vec<u8>, Fault> {
    match picture_of(pictures, name) {
        Some(picture) => Ok(picture.bytes.to_vec(alloc)?),
        None => Err(BAD),
    }
}

/// The image of this name.
pub(crate) fn picture_of<'a>(pictures: &'a [Picture], name: &str) -> Option<&'a Picture> {
    for picture in pictures {
        if picture.name.as_str() == name {
            return Some(picture);
        }
    }
    None
}

/// The bytes with these hexadecimal digits, two for each.
fn bytes_of(alloc: Global, digits: &str) -> Result<Vec<u8>, Fault> {
    let mut bytes = Vec::new(alloc);
    let mut high = None;
    for digit in digits.chars() {
        if digit == ' ' {
            continue;
        }
        let value = digit.to_digit(16).ok_or(BAD)?;
        match high.take() {
            None => high = Some(value),
            Some(high) => bytes.push(u8::try_from(high << 4 | value).unwrap_or(0))?,
        }
    }
    match high {
        None => Ok(bytes),
        Some(_) => Err(BAD),
    }
}

/// The bytes of a text, in which `\n` ends a line, and `\t` and `\r` are what they are elsewhere.
pub(crate) fn unescape(alloc: Global, text: &str) -> Result<Vec<u8>, Fault> {
    let mut bytes = Vec::new(alloc);
    let mut is_escaped = false;
    for byte in text.bytes() {
        if byte == b'\\' {
            is_escaped = true;
            continue;
        }
        bytes.push(match byte {
            b'n' if is_escaped => b'\n',
            b't' if is_escaped => b'\t',
            b'r' if is_escaped => b'\r',
            _ => byte,
        })?;
        is_escaped = false;
    }
    Ok(bytes)
}

/// All parts, one after another.
pub(crate) fn join(alloc: Global, parts: &[Vec<u8>]) -> Result<Vec<u8>, Fault> {
    let mut bytes = Vec::new(alloc);
    for part in parts {
        bytes.extend_from_slice(part.as_slice())?;
    }
    Ok(bytes)
}

/// Adds a line and its end.
pub(crate) fn push_line(text: &mut String, line: &str) -> Result<(), AllocError> {
    text.push_str(line)?;
    text.push_str("\n")
}

/// A trace's text and its replies, of lines `COMMAND [REPLY]`.
pub(crate) fn trace_of(alloc: Global, lines: &str) -> Result<(Vec<u8>, Vec<u8>), AllocError> {
    let mut commands = Vec::new(alloc);
    let mut replies = Vec::new(alloc);
    for line in lines.split('\n') {
        let (command, reply) = line.split_once(" [").unwrap_or((line, ""));
        if !line.is_empty() {
            push_bytes(&mut commands, command)?;
        }
        if let Some(reply) = reply.strip_suffix("]") {
            push_bytes(&mut replies, reply)?;
        }
    }
    Ok((commands, replies))
}
