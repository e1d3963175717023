//! How many objects moved.
ghost use Rattle.std.specs.Prelude.{◌≡◌, ◌≤◌, ◌++◌, cond, is_some, length, count_by, option_and_then, string_bytes, Contains, IfSome, OnOk};
ghost use Rattle.g1_words.specs.Heap.{objects, object_at};
ghost use Rattle.g1_same.specs.Same.{IsRenaming};
ghost use Rattle.g1_report.specs.Program.{AreInOrder, program_of, names_told, kind_told, kind_of_object, words_at};
ghost use Rattle.g1_report.specs.Wording.{file_way, has_moved, have_moved, identifier, identifier_of, is_elsewhere, is_yes, moved_by, moved_line, names_differ, note_of, told};
ghost use Rattle.g1_report.specs.Answer.{AreByNumber, AreNamesInOrder};
ghost use Rattle.g1_report.specs.Given.{compared, listed};

use crate::comparing::{Labels, Sides, label};
use crate::names::{Kind, Names};
use crate::objects::words_at;
use g1_same::Renaming;
use g1_words::Heap;
use std::alloc::AllocError;

/// The line that says how many objects have another address, another name, or another identifier, and of how many: those
/// that have one in both heaps.
pub fn push_moved_line(
    text: &mut String,
    sides: Sides<'_>,
    renaming: &Renaming,
) -> Result<(), AllocError>
    requires { IsRenaming sides.heaps.before.now sides.heaps.after.now renaming.now.before.items renaming.now.after.items }
    ensures { AreNamesInOrder (compared sides.entry) → OnOk result (string_bytes text.new ≡ string_bytes text.old
        ++ moved_line (compared sides.entry) (have_moved (compared sides.entry) renaming.now.before.items renaming.now.after.items)) }
{
    let (moved, all) = count_moved(sides, renaming.before.as_slice(), renaming.after.as_slice());
    let what = way_word(sides);
    write!(text, "moved {moved} of {all} by {what}\n")
}

// By identifiers if both heaps have a program's names, and else by what the files have.
fn way_word(sides: Sides<'_>) -> &'static str
    ensures { result.now ≡ moved_by (compared sides.entry).names_after (compared sides.entry).objects_before }
{
    match sides.names_after {
        Some(_) => "identifier",
        None => file_way(sides.labels_before),
    }
}

fn file_way(labels: Labels<'_>) -> &'static str
    ensures { result.now ≡ file_way (listed labels.entry) }
{
    match labels {
        Some(_) => "name",
        None => "address",
    }
}

// How many objects moved, and of how many that is known.
fn count_moved(sides: Sides<'_>, before: &[u64], after: &[u64]) -> (u64, u64)
    requires lengths { length before.now ≡ length after.now }
    requires renaming { IsRenaming sides.heaps.before.now sides.heaps.after.now before.now after.now }
    ensures moved { AreNamesInOrder (compared sides.entry) → result.0 ≡ count_by is_yes (have_moved (compared sides.entry) before.now after.now) }
    ensures all { AreNamesInOrder (compared sides.entry) → result.1 ≡ count_by is_some (have_moved (compared sides.entry) before.now after.now) }
{
    let (mut moved, mut all) = (0u64, 0u64);
    for place in 0..before.len() {
        let (one_moved, one) = counts_of(has_moved(sides, before[place], after[place]));
        moved += one_moved;
        all += one;
    }
    (moved, all)
}

// What one object adds to the objects that moved, and to those of which it is known.
fn counts_of(moved: Option<bool>) -> (u64, u64)
    ensures moved { result.0 ≡ cond (is_yes moved) 1 0 }
    ensures all { result.1 ≡ cond (is_some moved) 1 0 }
    ensures at_most_one { (result.0 ≤ 1) × (result.1 ≤ 1) }
{
    match moved {
        None => (0, 0),
        Some(false) => (0, 1),
        Some(true) => (1, 1),
    }
}

// Whether an object moved, if that is known.
fn has_moved(sides: Sides<'_>, before: u64, after: u64) -> Option<bool>
    requires before { Contains (objects sides.heaps.before.now) (object_at sides.heaps.before.now before) }
    requires after { Contains (objects sides.heaps.after.now) (object_at sides.heaps.after.now after) }
    ensures { AreNamesInOrder (compared sides.entry) → result ≡ has_moved (compared sides.entry) (compared sides.entry).names_after before after }
{
    match sides.names_after {
        Some(names) => differ(
            identifier(sides.names, sides.heaps.before, before),
            identifier_in(names, sides.heaps.after, after),
        ),
        None => is_elsewhere(sides, before, after),
    }
}

// Whether an object has another address, or another name in files that have names.
fn is_elsewhere(sides: Sides<'_>, before: u64, after: u64) -> Option<bool>
    ensures { AreByNumber (compared sides.entry) → result ≡ is_elsewhere (compared sides.entry).objects_before (compared sides.entry).objects_after before after }
{
    if sides.labels_before.is_none() {
        return Some(before != after);
    }
    differ(
        label(sides.labels_before, before),
        label(sides.labels_after, after),
    )
}

// Whether two names differ, if both are there.
fn differ(old: Option<&str>, new: Option<&str>) -> Option<bool>
    ensures { result ≡ names_differ (told old.entry) (told new.entry) }
{
    match (old, new) {
        (Some(old), Some(new)) => Some(old != new),
        _ => None,
    }
}

// The identifier of the object at an address: what a program's names say of it beside its type.
fn identifier<'a>(names: Option<&Names<'a>>, heap: &Heap, address: u64) -> Option<&'a str>
    requires { Contains (objects heap.now) (object_at heap.now address) }
    ensures { IfSome (names_told names.entry) AreInOrder → told result ≡ identifier (names_told names.entry) heap.now address }
{
    match names {
        Some(names) => identifier_in(names, heap, address),
        None => None,
    }
}

fn identifier_in<'a>(names: &Names<'a>, heap: &Heap, address: u64) -> Option<&'a str>
    requires { Contains (objects heap.now) (object_at heap.now address) }
    ensures { AreInOrder (program_of names.now) → told result
        ≡ option_and_then identifier_of (kind_of_object (program_of names.now) (words_at heap.now address)) }
{
    match words_at(heap, address) {
        Some(object) => identifier_of(names.object(&object)),
        None => None,
    }
}

fn identifier_of<'a>(kind: Option<Kind<'a>>) -> Option<&'a str>
    ensures { told result ≡ option_and_then identifier_of (kind_told kind.entry) }
{
    match kind {
        Some(kind) => note_of(kind.note),
        None => None,
    }
}

// A note, unless it is empty.
fn note_of(note: &str) -> Option<&str>
    ensures { told result ≡ note_of note.now }
{
    if note.is_empty() { None } else { Some(note) }
}
