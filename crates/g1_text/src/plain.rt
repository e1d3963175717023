//! Lines of objects by name in plain words, as `read_graph` and `make_graph` take them.
ghost use Rattle.std.specs.Prelude.{IfOk};
ghost use Rattle.g1_text.specs.Plain.{IsPlainText};

use crate::boxes::with_boxes;
use crate::weak::without_weak;
use std::alloc::{AllocError, Global};

/// Lines of objects by name in which each slot has the name of an object, or `-`: values and places inside objects get lines
/// of their own behind the others, and a weak reference is an ordinary one if its target is strong, and null else. All
/// lines keep their numbers.
pub fn plain_lines(alloc: Global, text: Vec<u8>) -> Result<Vec<u8>, AllocError>
    ensures { IfOk result (λ v. IsPlainText text.items v.items) }
{
    let boxed = match with_boxes(alloc, text.as_slice())? {
        Some(boxed) => boxed,
        None => text,
    };
    match without_weak(alloc, boxed.as_slice())? {
        Some(plain) => Ok(plain),
        None => Ok(boxed),
    }
}
