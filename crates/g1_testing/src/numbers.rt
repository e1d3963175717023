//! Bytes by their numbers.
use g1_words::Fault;
use std::alloc::Global;

/// A number that is none.
const BAD: Fault = Fault::Line(0);

/// The bytes of a magic, and of the numbers behind it, of 4 bytes each:
///
/// - `=N` is a word of 8 bytes, and `S/R` the header of an object of S words with R slots;
/// - `A..B` is the numbers from A up to B, and `A,B` both;
/// - `NUMBER*N` stands for n of that number, and `NUMBER*N*M` for those m times;
/// - `N+STEP` is n in the first of them, and a step more in each other.
///
/// # Errors
///
/// `Fault::Line` if a number is none; `Fault::Memory`.
pub fn raw(alloc: Global, numbers: &str) -> Result<Vec<u8>, Fault> {
    let (magic, numbers) = numbers.split_once(' ').unwrap_or((numbers, ""));
    let mut bytes = Vec::from_slice(alloc, magic.as_bytes())?;
    for number in numbers.split_ascii_whitespace() {
        push_groups(&mut bytes, number)?;
    }
    Ok(bytes)
}

fn push_groups(bytes: &mut Vec<u8>, text: &str) -> Result<(), Fault> {
    let (group, counts) = text.split_once('*').unwrap_or((text, "1"));
    let (count, times) = counts.split_once('*').unwrap_or((counts, "1"));
    let count = whole(count)?;
    for place in 0..count.saturating_mul(whole(times)?) {
        push_group(bytes, group, place.checked_rem(count).unwrap_or(0))?;
    }
    Ok(())
}

fn whole(text: &str) -> Result<u64, Fault> {
    match text.parse::<u64>() {
        Ok(number) => Ok(number),
        Err(_) => Err(BAD),
    }
}

/// The numbers of a group that is repeated, at this place.
fn push_group(bytes: &mut Vec<u8>, group: &str, place: u64) -> Result<(), Fault> {
    for number in group.split(',') {
        match number.split_once("..") {
            Some((from, to)) => push_range(bytes, from, to, place)?,
            None => push_one(bytes, number, place)?,
        }
    }
    Ok(())
}

fn push_range(bytes: &mut Vec<u8>, from: &str, to: &str, place: u64) -> Result<(), Fault> {
    for number in at(from, place)?..at(to, place)? {
        push_number(bytes, number)?;
    }
    Ok(())
}

fn push_one(bytes: &mut Vec<u8>, number: &str, place: u64) -> Result<(), Fault> {
    if let Some((size, slots)) = number.split_once('/') {
        push_number(bytes, at(slots, place)?)?;
        return push_number(bytes, at(size, place)?);
    }
    match number.strip_prefix("=") {
        Some(word) => Ok(bytes.extend_from_slice(&at(word, place)?.to_le_bytes())?),
        None => push_number(bytes, at(number, place)?),
    }
}

fn push_number(bytes: &mut Vec<u8>, number: u64) -> Result<(), Fault> {
    match u32::try_from(number) {
        Ok(number) => Ok(bytes.extend_from_slice(&number.to_le_bytes())?),
        Err(_) => Err(BAD),
    }
}

/// What `N` or `N+STEP` is at this place.
fn at(text: &str, place: u64) -> Result<u64, Fault> {
    let (first, step) = text.split_once('+').unwrap_or((text, "0"));
    Ok(whole(first)?.saturating_add(whole(step)?.saturating_mul(place)))
}
