//! The lines of a pause, or of what keeps an object, with a program's names behind them.
ghost use Rattle.std.specs.Prelude.{◌≡◌, ◌≤◌, ◌++◌, drop, length, slice_index_or, string_bytes, IfOk, IfSome, IsTrue, OnOk};
ghost use Rattle.std.specs.List.{filter_map};
ghost use Rattle.g1_report.specs.Program.{program_of, root_name, texts, AreInOrder};
ghost use Rattle.g1_report.specs.Noted.{number_said, root_note, path_note, object_note, has_path, has_object, line_note, noted_line, noted_text, spaced_words, IsOfObject, SpeaksOfObject, SpeaksOfObjects};

use crate::names::Names;
use crate::naming::{push_named_object, push_named_slots};
use crate::objects::words_at;
use g1_words::Heap;
use std::alloc::{AllocError, Global};

// The first words of the lines whose second word is the address of an object.
const OF_OBJECTS: [&str; 4] = ["survivor", "humongous", "object", "holder"];

/// These lines, with the names of what they speak of: behind a path from a root the same path by names, and behind an object
/// its type.
///
/// # Errors
///
/// Memory that ran out.
pub fn noted(
    alloc: Global,
    lines: &str,
    heap: &Heap,
    names: &Names<'_>,
) -> Result<String, AllocError>
    ensures { AreInOrder (program_of names.now) → SpeaksOfObjects heap.now lines.now → IfOk result (λ text. string_bytes text ≡ noted_text (program_of names.now) heap.now lines.now) }
{
    let mut text = String::new(alloc);
    for line in lines.split('\n') {
        push_line(alloc, &mut text, line, heap, names)?;
    }
    Ok(text)
}

// A line with its note, unless it is empty.
fn push_line(
    alloc: Global,
    text: &mut String,
    line: &str,
    heap: &Heap,
    names: &Names<'_>,
) -> Result<(), AllocError>
    ensures { AreInOrder (program_of names.now) → SpeaksOfObject heap.now (spaced_words line.now) → OnOk result (string_bytes text.new ≡ string_bytes text.old ++ noted_line (program_of names.now) heap.now line.now) }
{
    if line.is_empty() {
        return Ok(());
    }
    text.push_str(line)?;
    push_note(alloc, text, line, heap, names)?;
    text.push('\n')
}

fn push_note(
    alloc: Global,
    text: &mut String,
    line: &str,
    heap: &Heap,
    names: &Names<'_>,
) -> Result<(), AllocError>
    ensures { AreInOrder (program_of names.now) → SpeaksOfObject heap.now (spaced_words line.now) → OnOk result (string_bytes text.new ≡ string_bytes text.old ++ line_note (program_of names.now) heap.now (spaced_words line.now)) }
{
    let words = line.split(' ').collect::<Vec<&str>>(alloc)?;
    push_words_note(alloc, text, words.as_slice(), heap, names)
}

fn push_words_note(
    alloc: Global,
    text: &mut String,
    words: &[&str],
    heap: &Heap,
    names: &Names<'_>,
) -> Result<(), AllocError>
    ensures { AreInOrder (program_of names.now) → SpeaksOfObject heap.now (texts words.now) → OnOk result (string_bytes text.new ≡ string_bytes text.old ++ line_note (program_of names.now) heap.now (texts words.now)) }
{
    if has_path(words) {
        let (front, path) = words.split_at(4);
        return push_path(alloc, text, heap, names, front[3], path);
    }
    if has_object(words) {
        return push_object(text, heap, names, words[1]);
    }
    Ok(())
}

// live ADDRESS root ROOT SLOT ..
fn has_path(words: &[&str]) -> bool
    ensures value { result ≡ has_path (texts words.now) }
    ensures within { IsTrue result → 4 ≤ length words.now }
{
    words.len() >= 4 && words[0] == "live" && words[2] == "root"
}

fn has_object(words: &[&str]) -> bool
    ensures value { result ≡ has_object (texts words.now) }
    ensures within { IsTrue result → 2 ≤ length words.now }
{
    words.len() >= 2 && OF_OBJECTS.contains(&words[0])
}

// The path from a root by the slots whose numbers are among these words.
fn push_path(
    alloc: Global,
    text: &mut String,
    heap: &Heap,
    names: &Names<'_>,
    root: &str,
    path: &[&str],
) -> Result<(), AllocError>
    ensures { AreInOrder (program_of names.now) → OnOk result (string_bytes text.new ≡ string_bytes text.old ++ path_note (program_of names.now) heap.now (number_said root.now) (filter_map number_said (texts path.now))) }
{
    let Some(root) = number_said(root) else {
        return Ok(());
    };
    let slots = numbers_said(alloc, path)?;
    push_root(text, names, root)?;
    push_named_slots(alloc, text, heap, names, root, slots.as_slice())
}

// A root by its name, or by its number if it has none.
fn push_root(text: &mut String, names: &Names<'_>, root: u64) -> Result<(), AllocError>
    ensures { AreInOrder (program_of names.now) → OnOk result (string_bytes text.new ≡ string_bytes text.old ++ root_note (root_name (program_of names.now) root) root) }
{
    match names.root(root) {
        Some(name) => write!(text, " as {name}"),
        None => write!(text, " as root {root}"),
    }
}

// The numbers among words.
fn numbers_said(alloc: Global, words: &[&str]) -> Result<Vec<u64>, AllocError>
    ensures { IfOk result (λ numbers. numbers.items ≡ filter_map number_said (texts words.now)) }
{
    let mut numbers = Vec::new(alloc);
    for word in words {
        if let Some(number) = number_said(word) {
            numbers.push(number)?;
        }
    }
    Ok(numbers)
}

fn number_said(word: &str) -> Option<u64>
    ensures { result ≡ number_said word.now }
{
    word.parse::<u64>().ok()
}

fn push_object(
    text: &mut String,
    heap: &Heap,
    names: &Names<'_>,
    address: &str,
) -> Result<(), AllocError>
    ensures { AreInOrder (program_of names.now) → IfSome (number_said address.now) (IsOfObject heap.now) → OnOk result (string_bytes text.new ≡ string_bytes text.old ++ object_note (program_of names.now) heap.now (number_said address.now)) }
{
    let Some(address) = number_said(address) else {
        return Ok(());
    };
    match words_at(heap, address) {
        Some(object) => push_named_object(text, names, &object),
        None => Ok(()),
    }
}
