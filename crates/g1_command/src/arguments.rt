//! The words of the command line.
use crate::refusal::Refusal;
use std::alloc::{AllocError, Global};
use std::env::FillError;
use std::rt::Env;

/// The words behind the program's name, as text.
///
/// # Errors
///
/// A usage text if a word is not text, and `Fault::Memory`. The program's name is word 1 there.
pub fn words<R: Env>(rt: &R, alloc: Global) -> Result<Vec<String>, Refusal> {
    let mut words = Vec::new(alloc);
    for place in 1..usize::MAX {
        let Some(bytes) = word(rt, alloc, place)? else {
            break;
        };
        match String::from_utf8(bytes) {
            Ok(word) => words.push(word)?,
            Err(error) => {
                let text = not_text(alloc, place + 1, error.as_bytes())?;
                return Err(Refusal::usage(text));
            }
        }
    }
    Ok(words)
}

// Most words fit into the first room that they get.
const ROOM: usize = 256;

// The bytes of a word. The room is doubled until they fit.
fn word<R: Env>(rt: &R, alloc: Global, place: usize) -> Result<Option<Vec<u8>>, AllocError> {
    let mut bytes = Vec::new(alloc);
    let mut room = ROOM;
    for _ in 0..usize::BITS {
        bytes.resize(room, 0)?;
        match rt.arg(place, bytes.as_mut_slice()) {
            Ok(count) => {
                bytes.truncate(count);
                return Ok(Some(bytes));
            }
            Err(FillError::TooLong) => room = room.saturating_mul(2),
            Err(FillError::NotPresent) => return Ok(None),
        }
    }
    Err(AllocError)
}

// What is text of a word stands as it is, each other byte by its number.
fn not_text(alloc: Global, number: usize, bytes: &[u8]) -> Result<String, AllocError> {
    let mut text = format!(in alloc; "error: word {number} is not text: '")?;
    for chunk in bytes.utf8_chunks() {
        write!(text, "{}{}", chunk.valid(), chunk.invalid().escape_ascii())?;
    }
    text.push_str("'\n")?;
    Ok(text)
}
