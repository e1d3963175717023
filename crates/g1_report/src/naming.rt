//! A difference in the names that a program has for it.
ghost use Rattle.std.specs.Prelude.{◌≡◌, ◌++◌, map, slice_index, string_bytes, OnOk, IfOk};
ghost use Rattle.g1_report.specs.Program.{program_of, kind_told, kind_of_object, word_told, words_text, AreInOrder};
ghost use Rattle.g1_report.specs.Wording.{kind_text, word_name_text};
ghost use Rattle.g1_report.specs.Runs.{grouped};
ghost use Rattle.g1_report.specs.Gathered.{group_of};
ghost use Rattle.g1_report.specs.Steps.{object_told, word_in, slot_text, step_text, steps_text, named_path_text};

use crate::grouping::{Group, add_step, push_ends, runs_of};
use crate::names::{Kind, Names, Word};
use crate::objects::{ObjectWords, object_of};
use g1_words::Heap;
use std::alloc::{AllocError, Global};

/// The steps of a path from a root by the names of the slots: `.first[3].next x 59999 slot 2`. Steps that repeat are
/// there once, and of many only the first and the last ones.
pub fn push_named_slots(
    alloc: Global,
    text: &mut String,
    heap: &Heap,
    names: &Names<'_>,
    root: u64,
    slots: &[u64],
) -> Result<(), AllocError>
    ensures { AreInOrder (program_of names.now) → OnOk result (string_bytes text.new ≡ string_bytes text.old ++ named_path_text (program_of names.now) heap.now root slots.now) }
{
    let groups = groups_of(alloc, heap, names, root, slots)?;
    let runs = runs_of(alloc, groups.as_slice())?;
    push_ends(text, runs.as_slice())
}

// The steps of a path, equal ones in a row once.
fn groups_of(
    alloc: Global,
    heap: &Heap,
    names: &Names<'_>,
    root: u64,
    slots: &[u64],
) -> Result<Vec<Group>, AllocError>
    ensures { AreInOrder (program_of names.now) → IfOk result (λ groups. map group_of groups.items ≡ grouped (steps_text (program_of names.now) heap.now root slots.now)) }
{
    g1_words::laws::valid(heap);
    let mut groups = Vec::new(alloc);
    let mut step = String::new(alloc);
    let mut word = word_of(heap.roots(), root);
    for slot in slots {
        let object = object_of(heap, word);
        step.clear();
        push_step(&mut step, names, object, *slot)?;
        add_step(alloc, &mut groups, step.as_str())?;
        word = word_in(object, *slot);
    }
    Ok(groups)
}

// The step from an object by a slot.
fn push_step(
    text: &mut String,
    names: &Names<'_>,
    object: Option<ObjectWords<'_>>,
    slot: u64,
) -> Result<(), AllocError>
    ensures { AreInOrder (program_of names.now) → OnOk result (string_bytes text.new ≡ string_bytes text.old ++ step_text (program_of names.now) (object_told object.entry) slot) }
{
    let name = match object {
        Some(object) => names.slot(&object, slot),
        None => None,
    };
    push_slot(text, name, slot)
}

// A slot by its name, or by its number if it has none.
fn push_slot(text: &mut String, name: Option<Word<'_>>, slot: u64) -> Result<(), AllocError>
    ensures { OnOk result (string_bytes text.new ≡ string_bytes text.old ++ slot_text (word_told name.entry) slot) }
{
    let Some(Word { name, number }) = name else {
        return write!(text, " slot {slot}");
    };
    if !name.is_empty() {
        write!(text, ".{name}")?;
    }
    match number {
        Some(number) => write!(text, "[{number}]"),
        None => Ok(()),
    }
}

// The word of this number, or null if there is none.
fn word_of(words: &[u64], number: u64) -> u64
    ensures { result ≡ slice_index words.now number }
{
    words.get(number as usize).copied().unwrap_or(0)
}

// The reference word in a slot of an object, or null if there is none.
fn word_in(object: Option<ObjectWords<'_>>, slot: u64) -> u64
    ensures { result ≡ word_in (object_told object.entry) slot }
{
    match object {
        Some(object) => word_of(object.slots, slot),
        None => 0,
    }
}

/// The type of an object, and what else is said of it, in parentheses.
pub fn push_named_object(
    text: &mut String,
    names: &Names<'_>,
    object: &ObjectWords<'_>,
) -> Result<(), AllocError>
    ensures { AreInOrder (program_of names.now) → OnOk result (string_bytes text.new ≡ string_bytes text.old ++ kind_text (kind_of_object (program_of names.now) (words_text object.now))) }
{
    push_type(text, names.object(object))
}

/// A type, and what else is said of its object, in parentheses, if there is one.
pub fn push_type(text: &mut String, kind: Option<Kind<'_>>) -> Result<(), AllocError>
    ensures { OnOk result (string_bytes text.new ≡ string_bytes text.old ++ kind_text (kind_told kind.entry)) }
{
    let Some(Kind { name, note }) = kind else {
        return Ok(());
    };
    if note.is_empty() {
        write!(text, " ({name})")
    } else {
        write!(text, " ({name} {note})")
    }
}

/// The name of a data word, behind its number, if it has one.
pub fn push_word_name(text: &mut String, name: Option<Word<'_>>) -> Result<(), AllocError>
    ensures { OnOk result (string_bytes text.new ≡ string_bytes text.old ++ word_name_text (word_told name.entry)) }
{
    let Some(Word { name, number }) = name else {
        return Ok(());
    };
    match number {
        Some(number) => write!(text, ", {name}[{number}],"),
        None => write!(text, ", {name},"),
    }
}
