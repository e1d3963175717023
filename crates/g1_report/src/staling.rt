//! The line of a stale word.
ghost use Rattle.std.specs.Prelude.{◌≡◌, ◌++◌, ◌<◌, ◌&&◌, ◌==◌, not, is_some, Some, IfSome, OnOk, string_bytes};
ghost use Rattle.g1_words.specs.Heap.{region_of};
ghost use Rattle.g1_words.specs.Valid.{IsReference};
ghost use Rattle.g1_report.specs.Wording.{still_text, was_name, starts_at, was_text, references, was_end, region_text, behind_text, stale_text, name_in, stale_line};
ghost use Rattle.g1_report.specs.Answer.{IsByNumber, AreNamesInOrder};
ghost use Rattle.g1_report.specs.Given.{listed, compared};

use crate::comparing::{Labels, Sides, Steps, label, push_before, push_path};
use g1_words::{Heap, laws, object_at, region_of};
use std::alloc::{AllocError, Global};

/// The line of a path that leads to a stale word, where the heap before has this other word.
pub fn push_stale_line(
    alloc: Global,
    text: &mut String,
    sides: Sides<'_>,
    path: Steps<'_>,
    old: u64,
    word: u64,
) -> Result<(), AllocError>
    requires { IsReference sides.heaps.before.now old }
    ensures { AreNamesInOrder (compared sides.entry) → OnOk result (string_bytes text.new ≡ string_bytes text.old ++ stale_line (compared sides.entry) path.entry.0 path.entry.1.now old word) }
{
    text.push_str("differ stale at ")?;
    push_path(alloc, text, sides, path)?;
    push_before(text, sides, old)?;
    push_stale(text, sides, old, word)
}

// A stale word: the name that it stands for, or its number and what is there.
fn push_stale(text: &mut String, sides: Sides<'_>, old: u64, word: u64) -> Result<(), AllocError>
    ensures { AreNamesInOrder (compared sides.entry) → OnOk result (string_bytes text.new ≡ string_bytes text.old
        ++ stale_text (compared sides.entry) old word (name_in (compared sides.entry).stale word)) }
{
    match label(sides.stale_names, word) {
        Some(name) => {
            let still = still_word(was_name(sides.labels_before, old, name));
            write!(
                text,
                "; the word {still} {name}, which no object after has\n"
            )
        }
        // The places of objects that have names are not the program's own: no word after is compared with them.
        None => {
            let still = still_word(word == old && !sides.labels_before.is_some());
            write!(text, "; the word {still} {word}, ")?;
            push_behind(text, sides, old, word)
        }
    }
}

fn still_word(still: bool) -> &'static str
    ensures { result.now ≡ still_text still }
{
    if still { "still is" } else { "is" }
}

// Whether a word before references the object of this name.
fn was_name(labels: Labels<'_>, word: u64, name: &str) -> bool
    ensures { IfSome (listed labels.entry) IsByNumber → result ≡ was_name (listed labels.entry) word name.now }
{
    let Some(address) = word.checked_sub(1) else {
        return false;
    };
    match label(labels, address) {
        Some(other) => other == name,
        None => false,
    }
}

// Where a stale word leads.
fn push_behind(text: &mut String, sides: Sides<'_>, old: u64, word: u64) -> Result<(), AllocError>
    ensures { OnOk result (string_bytes text.new ≡ string_bytes text.old ++ behind_text (compared sides.entry) old word) }
{
    match word.checked_sub(1) {
        Some(address) => push_region(text, sides, old, address),
        None => text.push_str("outside the heap\n"),
    }
}

// The region that a stale word leads to, and what was there before.
fn push_region(
    text: &mut String,
    sides: Sides<'_>,
    old: u64,
    address: u64,
) -> Result<(), AllocError>
    ensures { OnOk result (string_bytes text.new ≡ string_bytes text.old ++ region_text (compared sides.entry) old address) }
{
    let geometry = sides.heaps.after.geometry();
    let number = region_of(&geometry, address);
    if number >= geometry.regions() {
        return text.push_str("outside the heap\n");
    }
    let kind = sides.heaps.after.region(number as u32).kind;
    write!(text, "in region {number}, {kind} after")?;
    push_was(text, sides.labels_before, sides.heaps.before, old, address)
}

fn push_was(
    text: &mut String,
    labels: Labels<'_>,
    before: &Heap,
    old: u64,
    address: u64,
) -> Result<(), AllocError>
    ensures { OnOk result (string_bytes text.new ≡ string_bytes text.old ++ was_end (listed labels.entry) before.now old address) }
{
    match labels {
        Some(_) => text.push_str("\n"),
        None => {
            let what = was_there(starts_at(before, address), references(old, address));
            write!(text, ", where {what}\n")
        }
    }
}

fn was_there(starts: bool, same: bool) -> &'static str
    ensures { result.now ≡ was_text starts same }
{
    match (starts, same) {
        (false, _) => "no object starts",
        (true, true) => "the object was before",
        (true, false) => "another object was before",
    }
}

fn references(word: u64, address: u64) -> bool
    ensures { result ≡ references word address }
{
    match word.checked_sub(1) {
        Some(other) => other == address,
        None => false,
    }
}

// Whether an object starts at an address.
fn starts_at(heap: &Heap, address: u64) -> bool
    ensures { result ≡ starts_at heap.now address }
{
    laws::valid(heap);
    match object_at(heap, address) {
        Some(_) => true,
        None => false,
    }
}
