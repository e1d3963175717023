ghost use Rattle.std.specs.Prelude.{◌≡◌, ◌++◌, length, take, OnErr, OnOk};
ghost use Rattle.g1_trace.specs.Telling.{reply_line};

use crate::command::Reply;
use itoa::Buffer;
use std::alloc::AllocError;

/// Adds a reply's line to a text.
///
/// # Errors
///
/// `AllocError` if a growth was refused. The text then begins as it did, and may end in a part of the line.
pub fn push_reply(text: &mut Vec<u8>, reply: Reply) -> Result<(), AllocError>
    ensures ok { OnOk result (text.new.items ≡ text.old.items ++ reply_line reply) }
    ensures err { OnErr result (take (length text.old.items) text.new.items ≡ text.old.items) }
{
    match reply {
        Reply::Ok => text.extend_from_slice(b"ok\n"),
        Reply::Full => text.extend_from_slice(b"full\n"),
        Reply::Range => text.extend_from_slice(b"range\n"),
        Reply::Null => text.extend_from_slice(b"null\n"),
        Reply::Room => text.extend_from_slice(b"room\n"),
        Reply::Number(value) => push_number(text, value),
    }
}

/// Adds a number in decimal digits, and the end of the line.
fn push_number(text: &mut Vec<u8>, value: u64) -> Result<(), AllocError>
    ensures ok { OnOk result (text.new.items ≡ text.old.items ++ reply_line (Reply.Number value)) }
    ensures err { OnErr result (take (length text.old.items) text.new.items ≡ text.old.items) }
{
    let mut buffer = Buffer::new();
    text.extend_from_slice(buffer.format(value).as_bytes())?;
    text.extend_from_slice(b"\n")
}
