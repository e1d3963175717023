//! The parts of bytes that need not be the text of an image.
ghost use Rattle.std.specs.Prelude.{IfOk};
ghost use Rattle.g1_image.specs.Faults.{FaultWithin};
ghost use Rattle.g1_image.specs.TextParts.{ArePartsIn};

use crate::ahead::Ahead;
use crate::cursor::{Cursor, Heading, Version};
use crate::decoding::{is_of_bytes, take_parts};
use crate::front::{Front, read_front};
use crate::source::Nothing;
use g1_words::{Fault, Limits, Words};
use std::alloc::{AllocError, Global};

/// What bytes have: all parts of a file, or those in front of the one that a fault ends.
#[derive(Drop)]
pub enum TextParts<'a> {
    /// The bytes end in the magic or in the heading, or begin with no magic.
    Unknown(Fault),
    /// The heading is there. Its numbers are out of their ranges, or the bytes end before the words.
    Heading(Version, Heading, Fault),
    /// All that precedes the words is there, and these bytes follow it: too few or too many.
    Front(Front, &'a [u8], Fault),
    /// The bytes are a whole file. Its words stand at their addresses.
    Whole(Front, Words),
}

/// The parts of bytes, which need not be an image's. Only their counts are judged: whether kinds, objects,
/// references and cards keep the rules of an image, `decode` reports.
///
/// # Errors
///
/// `AllocError` if a request for memory was refused.
///
/// # Examples
///
/// ```
/// use g1_image::{TextParts, parts_of};
/// use g1_testing::text;
/// use g1_words::Limits;
///
/// // No object starts at 5, which the root references.
/// let bytes = text(alloc, "heap 16 4 4
///     root 5")?;
/// let TextParts::Whole(front, words) = parts_of(alloc, Limits::Specified, &bytes)? else {
///     panic!(rt; "these are not all parts of a file");
/// };
/// assert_eq!(rt; front.roots.as_slice(), [6].as_slice());
/// assert_eq!(rt; words.len(), 64);
/// ```
pub fn parts_of<'a>(
    alloc: Global,
    limits: Limits,
    bytes: &'a [u8],
) -> Result<TextParts<'a>, AllocError>
    ensures { IfOk result (ArePartsIn limits bytes.now) }
{
    let mut text = Ahead::Whole(Cursor::new(bytes));
    match take_parts(alloc, limits, &mut Nothing, &mut text) {
        Ok((front, words)) => Ok(TextParts::Whole(front, words)),
        Err(fault) => {
            if is_of_bytes(&fault) {
                return parts_before(alloc, limits, bytes, fault);
            }
            Err(AllocError)
        }
    }
}

/// The parts in front of the one that a fault ends.
fn parts_before<'a>(
    alloc: Global,
    limits: Limits,
    bytes: &'a [u8],
    fault: Fault,
) -> Result<TextParts<'a>, AllocError>
    requires { FaultWithin limits bytes.now fault }
    ensures { IfOk result (ArePartsIn limits bytes.now) }
{
    match read_front(alloc, limits, bytes) {
        Ok((front, rest)) => Ok(TextParts::Front(front, rest, fault)),
        Err(Fault::Memory) => Err(AllocError),
        Err(_) => Ok(heading_before(bytes, fault)),
    }
}

/// The heading, if it is there, of bytes that have this fault.
fn heading_before<'a>(bytes: &'a [u8], fault: Fault) -> TextParts<'a>
    ensures { (limits : Limits) → FaultWithin limits bytes.now fault → ArePartsIn limits bytes.now result }
{
    let mut cursor = Cursor::new(bytes);
    let Ok(version) = cursor.magic() else {
        return TextParts::Unknown(fault);
    };
    match cursor.heading() {
        Some(heading) => TextParts::Heading(version, heading, fault),
        None => TextParts::Unknown(fault),
    }
}
