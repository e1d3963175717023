//! What two heaps show, in one line.
ghost use Rattle.std.specs.Prelude.{◌≡◌, ◌∷◌, ◌++◌, ◌*◌, ◌^◌, ◌<◌, ℕ, List, Option, Some, None, option_and_then, codes, decimal, length, flat_map, sum_by, string_bytes, IfSome, OnOk};
ghost use Rattle.std.specs.List.{join_with_byte};
ghost use Rattle.std.specs.Str.{byte};
ghost use Rattle.g1_words.specs.Heap.{Heap as HeapOf, object_at};
ghost use Rattle.g1_words.specs.Valid.{IsReference};
ghost use Rattle.g1_same.specs.Ends.{AreValues};
ghost use Rattle.g1_same.specs.Same.{IsDifference};
ghost use Rattle.g1_same.specs.Behind.{ShowsAt};
ghost use Rattle.g1_report.specs.Program.{program_of, names_told, kind_told, word_told, words_text, texts, root_name, kind_of_object, data_name, or_else, AreInOrder};
ghost use Rattle.g1_report.specs.Steps.{object_told};
ghost use Rattle.g1_report.specs.Wording.{told, name_in, name_of, name_of_root, root_text_of, object_text, word_text, path_text, kind_before, own_kind, like_kind, kind_after, value_text_of, quoted_text, named_value_text, value_text, word_name, how_word, met_text, numbers_text, values_text, detail_text, before_text, after_text, place_line, roots_line, same_line};
ghost use Rattle.g1_report.specs.Answer.{IsByNumber, AreNamesInOrder, IsDifferenceLine};
ghost use Rattle.g1_report.specs.Given.{listed, compared};
ghost use Rattle.g1_report.specs.Listed.{found_line};
ghost use Rattle.g1_report.specs.Taken.{Adds};

use crate::names::{Kind, Names, Word};
use crate::naming::{push_named_slots, push_type, push_word_name};
use crate::objects::{ObjectWords, object_of};
use crate::places::value_at;
use crate::staling::push_stale_line;
use g1_same::{Difference, Ends, Found, How, Pair, Path, Renaming, What, ends_at, ends_of};
use g1_words::Heap;
use std::alloc::{AllocError, Global};
use std::collections::HashMap;

/// Two heaps that are compared, and what is known of them.
#[derive(Clone, Copy)]
pub struct Sides<'a> {
    pub heaps: Pair<'a>,
    /// What the program calls the words of the first one.
    pub names: Option<&'a Names<'a>>,
    /// What it calls the objects of the second one.
    pub names_after: Option<&'a Names<'a>>,
    /// The numbers of the first one's roots of which its lines say what holds them, rising, and what that is called.
    pub holders: &'a [(u64, &'a str)],
    /// The names of the objects of each, if they have names in place of addresses.
    pub labels_before: Labels<'a>,
    pub labels_after: Labels<'a>,
    /// The texts that data words of the first one stand for, and those of the second one.
    pub texts_before: &'a HashMap<u64, &'a str>,
    pub texts_after: &'a HashMap<u64, &'a str>,
    /// The stale words of the second that stand for names, rising, and these names.
    pub stale_names: Labels<'a>,
}

/// Addresses of objects or stale words, rising, and their names, if they have names.
pub type Labels<'a> = Option<&'a [(u64, &'a str)]>;

/// The number of a root, and those of slots behind it.
pub type Steps<'a> = (u64, &'a [u64]);

/// The line that says how much is reached if two heaps show the same graph.
pub fn push_same_line(
    text: &mut String,
    before: &Heap,
    renaming: &Renaming,
) -> Result<(), AllocError>
    ensures { OnOk result (string_bytes text.new ≡ string_bytes text.old ++ same_line before.now renaming.now.before.items) }
{
    let addresses = renaming.before.as_slice();
    let objects = addresses.len();
    let words = words_of(before, addresses);
    write!(text, "same objects {objects} words {words}\n")
}

// The words of all these objects. They are fewer than those of the heap, but 128 bits need no proof of that.
fn words_of(heap: &Heap, addresses: &[u64]) -> u128
    ensures { result ≡ sum_by (λ a. (object_at heap.now a).size) addresses.now }
{
    let mut words = 0u128;
    for address in addresses {
        words += u128::from(heap.words().header(*address).size);
    }
    words
}

/// The line that says where two heaps differ: the path from a root, what is there, and how it
/// differs.
pub fn push_difference_line(
    alloc: Global,
    text: &mut String,
    sides: Sides<'_>,
    difference: &Difference,
) -> Result<(), AllocError>
    requires { IsDifference sides.heaps.before.now sides.heaps.after.now difference.now }
    ensures { AreNamesInOrder (compared sides.entry) → OnOk result (Adds (IsDifferenceLine (compared sides.entry) difference.now) (string_bytes text.old) (string_bytes text.new)) }
{
    match difference {
        Difference::Roots { before, after } => { push_roots_line(text, *before, *after) }
        Difference::At { root, slots, how } => {
            let ends = ends_of(sides.heaps.before, sides.heaps.after, difference);
            push_how_line(alloc, text, sides, (*root, slots.as_slice()), how, &ends)
        }
    }
}

fn push_roots_line(text: &mut String, before: u64, after: u64) -> Result<(), AllocError>
    ensures { OnOk result (string_bytes text.new ≡ string_bytes text.old ++ roots_line before after) }
{
    write!(text, "differ roots: {before} before, {after} after\n")
}

/// The line of a difference that a walk found, and of the path to it.
pub fn push_found_line(
    alloc: Global,
    text: &mut String,
    sides: Sides<'_>,
    path: &Path,
    found: &Found,
) -> Result<(), AllocError>
    requires { ShowsAt sides.heaps.before.now sides.heaps.after.now (path.now.root ∷ path.now.slots.items) found.now }
    ensures { AreNamesInOrder (compared sides.entry) → OnOk result (string_bytes text.new ≡ string_bytes text.old
        ++ found_line (compared sides.entry) path.now.root path.now.slots.items found.now.what found.now.place.before found.now.place.after) }
{
    let ends = ends_at(sides.heaps.before, sides.heaps.after, found);
    let path = (path.root, path.slots.as_slice());
    match &found.what {
        What::Stale(word) => push_stale_line(alloc, text, sides, path, ends.before, *word),
        What::How(how) => push_how_line(alloc, text, sides, path, how, &ends),
    }
}

// The line of a path that leads to words which disagree like this.
fn push_how_line(
    alloc: Global,
    text: &mut String,
    sides: Sides<'_>,
    path: Steps<'_>,
    how: &How,
    ends: &Ends,
) -> Result<(), AllocError>
    requires values { AreValues sides.heaps.before.now sides.heaps.after.now how.now ends.now.before ends.now.after ends.now.word_before ends.now.word_after }
    requires before { IsReference sides.heaps.before.now ends.now.before }
    requires after { IsReference sides.heaps.after.now ends.now.after }
    ensures { AreNamesInOrder (compared sides.entry) → OnOk result (string_bytes text.new ≡ string_bytes text.old ++ place_line (compared sides.entry) path.entry.0 path.entry.1.now how.now ends.now.before ends.now.after) }
{
    push_differ(text, how)?;
    push_path(alloc, text, sides, path)?;
    push_before(text, sides, ends.before)?;
    push_after(text, sides, ends.after)?;
    push_detail(text, sides, how, ends)?;
    text.push_str("\n")
}

fn push_differ(text: &mut String, how: &How) -> Result<(), AllocError>
    ensures { OnOk result (string_bytes text.new ≡ string_bytes text.old ++ (codes "differ " ++ (how_word how.now ++ codes " at "))) }
{
    let kind = how_word(how);
    write!(text, "differ {kind} at ")
}

// What `differ` says of a kind of difference.
fn how_word(how: &How) -> &'static str
    ensures { result.now ≡ how_word how.now }
{
    match how {
        How::NullBefore => "null",
        How::NullAfter => "null",
        How::Split { .. } => "split",
        How::Joined { .. } => "joined",
        How::Size { .. } => "size",
        How::Slots { .. } => "slots",
        How::Data { .. } => "data",
    }
}

/// A path by the numbers of its slots, or by the names that a program has for them.
pub fn push_path(
    alloc: Global,
    text: &mut String,
    sides: Sides<'_>,
    path: Steps<'_>,
) -> Result<(), AllocError>
    ensures { AreNamesInOrder (compared sides.entry) → OnOk result (string_bytes text.new ≡ string_bytes text.old ++ path_text (compared sides.entry) path.entry.0 path.entry.1.now) }
{
    let (root, slots) = path;
    push_root(text, sides, root)?;
    match sides.names {
        Some(names) => push_named_slots(alloc, text, sides.heaps.before, names, root, slots),
        None => push_slots(text, slots),
    }
}

fn push_slots(text: &mut String, slots: &[u64]) -> Result<(), AllocError>
    ensures { OnOk result (string_bytes text.new ≡ string_bytes text.old ++ flat_map (λ slot. codes " slot " ++ decimal slot) slots.now) }
{
    for slot in slots {
        write!(text, " slot {slot}")?;
    }
    Ok(())
}

fn push_root(text: &mut String, sides: Sides<'_>, root: u64) -> Result<(), AllocError>
    ensures { AreNamesInOrder (compared sides.entry) → OnOk result (string_bytes text.new ≡ string_bytes text.old ++ root_text_of (name_of_root (compared sides.entry).names (compared sides.entry).roots root) root) }
{
    match root_name(sides, root) {
        Some(name) => text.push_str(name),
        None => write!(text, "root {root}"),
    }
}

// The name of a root: that of the program's names, or else that of its line.
fn root_name<'a>(sides: Sides<'a>, root: u64) -> Option<&'a str>
    ensures { AreNamesInOrder (compared sides.entry) → told result ≡ name_of_root (compared sides.entry).names (compared sides.entry).roots root }
{
    match named_root(sides.names, root) {
        Some(name) => Some(name),
        None => value_at(sides.holders, root),
    }
}

fn named_root<'a>(names: Option<&Names<'a>>, root: u64) -> Option<&'a str>
    ensures { IfSome (names_told names.entry) AreInOrder → told result ≡ option_and_then (λ p. root_name p root) (names_told names.entry) }
{
    match names {
        Some(names) => names.root(root),
        None => None,
    }
}

/// What a path leads to before.
pub fn push_before(text: &mut String, sides: Sides<'_>, word: u64) -> Result<(), AllocError>
    requires { IsReference sides.heaps.before.now word }
    ensures { AreNamesInOrder (compared sides.entry) → OnOk result (string_bytes text.new ≡ string_bytes text.old ++ before_text (compared sides.entry) word) }
{
    push_word(text, ": ", sides.labels_before, word)?;
    push_type(text, kind_before(sides, word))?;
    text.push_str(" before")
}

// The kind of the object before that a word references, if a program has names.
fn kind_before<'a>(sides: Sides<'a>, word: u64) -> Option<Kind<'a>>
    requires { IsReference sides.heaps.before.now word }
    ensures { AreNamesInOrder (compared sides.entry) → kind_told result ≡ kind_before (compared sides.entry) word }
{
    match sides.names {
        Some(names) => kind_in(names, object_of(sides.heaps.before, word)),
        None => None,
    }
}

fn kind_in<'a>(names: &Names<'a>, object: Option<ObjectWords<'_>>) -> Option<Kind<'a>>
    ensures { AreInOrder (program_of names.now) → kind_told result ≡ option_and_then (kind_of_object (program_of names.now)) (object_told object.entry) }
{
    match object {
        Some(object) => names.object(&object),
        None => None,
    }
}

fn push_after(text: &mut String, sides: Sides<'_>, word: u64) -> Result<(), AllocError>
    requires { IsReference sides.heaps.after.now word }
    ensures { AreNamesInOrder (compared sides.entry) → OnOk result (string_bytes text.new ≡ string_bytes text.old ++ after_text (compared sides.entry) word) }
{
    push_word(text, ", ", sides.labels_after, word)?;
    push_type(text, kind_after(sides, word))?;
    text.push_str(" after")
}

// The kind of the object after that a word references.
fn kind_after<'a>(sides: Sides<'a>, word: u64) -> Option<Kind<'a>>
    requires { IsReference sides.heaps.after.now word }
    ensures { AreNamesInOrder (compared sides.entry) → kind_told result ≡ kind_after (compared sides.entry) word }
{
    match object_of(sides.heaps.after, word) {
        Some(object) => kind_of(sides, &object),
        None => None,
    }
}

// The kind of an object after, by its own names, or else by its first data word.
fn kind_of<'a>(sides: Sides<'a>, object: &ObjectWords<'_>) -> Option<Kind<'a>>
    ensures { AreNamesInOrder (compared sides.entry) → kind_told result ≡ or_else (own_kind (compared sides.entry) (words_text object.now)) (like_kind (compared sides.entry) (words_text object.now)) }
{
    match own_kind(sides, object) {
        Some(kind) => Some(kind),
        None => like_kind(sides, object),
    }
}

fn own_kind<'a>(sides: Sides<'a>, object: &ObjectWords<'_>) -> Option<Kind<'a>>
    ensures { AreNamesInOrder (compared sides.entry) → kind_told result ≡ own_kind (compared sides.entry) (words_text object.now) }
{
    match sides.names_after {
        Some(names) => names.object(object),
        None => None,
    }
}

fn like_kind<'a>(sides: Sides<'a>, object: &ObjectWords<'_>) -> Option<Kind<'a>>
    ensures { AreNamesInOrder (compared sides.entry) → kind_told result ≡ like_kind (compared sides.entry) (words_text object.now) }
{
    match sides.names {
        Some(names) => names.kind_labelled(object.data),
        None => None,
    }
}

fn push_word(text: &mut String, lead: &str, labels: Labels<'_>, word: u64) -> Result<(), AllocError>
    ensures { IfSome (listed labels.entry) IsByNumber → OnOk result (string_bytes text.new ≡ string_bytes text.old ++ (lead.now ++ word_text (listed labels.entry) word)) }
{
    text.push_str(lead)?;
    match word.checked_sub(1) {
        Some(address) => {
            text.push_str("object ")?;
            push_object(text, labels, address)
        }
        None => text.push_str("null"),
    }
}

// An object's address, or its name if it has one in its place.
fn push_object(text: &mut String, labels: Labels<'_>, address: u64) -> Result<(), AllocError>
    ensures { IfSome (listed labels.entry) IsByNumber → OnOk result (string_bytes text.new ≡ string_bytes text.old ++ object_text (listed labels.entry) address) }
{
    match label(labels, address) {
        Some(name) => text.push_str(name),
        None => write!(text, "{address}"),
    }
}

/// The name of an object or of a stale word, if it has one.
pub fn label<'a>(labels: Labels<'a>, address: u64) -> Option<&'a str>
    ensures { IfSome (listed labels.entry) IsByNumber → told result ≡ name_in (listed labels.entry) address }
{
    match labels {
        Some(labels) => value_at(labels, address),
        None => None,
    }
}

// How two words at one place disagree.
fn push_detail(
    text: &mut String,
    sides: Sides<'_>,
    how: &How,
    ends: &Ends,
) -> Result<(), AllocError>
    requires values { AreValues sides.heaps.before.now sides.heaps.after.now how.now ends.now.before ends.now.after ends.now.word_before ends.now.word_after }
    requires before { IsReference sides.heaps.before.now ends.now.before }
    ensures { AreNamesInOrder (compared sides.entry) → OnOk result (string_bytes text.new ≡ string_bytes text.old ++ detail_text (compared sides.entry) how.now ends.now.before ends.now.after) }
{
    let (old_names, new_names) = (sides.labels_before, sides.labels_after);
    match how {
        How::NullBefore => Ok(()),
        How::NullAfter => Ok(()),
        How::Split { object, first, .. } => {
            push_met(
                text,
                (old_names, *object, "before"),
                (new_names, *first, "after"),
            )
        }
        How::Joined { object, first, .. } => {
            push_met(
                text,
                (new_names, *object, "after"),
                (old_names, *first, "before"),
            )
        }
        How::Size { before, after } => push_numbers(text, "size", *before, *after),
        How::Slots { before, after } => push_numbers(text, "slots", *before, *after),
        How::Data { word } => push_data(text, sides, *word, ends),
    }
}

// The names of a side, the address of an object of it, and which side it is.
type Met<'a> = (Labels<'a>, u64, &'a str);

// An object that an earlier path leads to, each with the side that it is of.
fn push_met(text: &mut String, object: Met<'_>, first: Met<'_>) -> Result<(), AllocError>
    ensures { IfSome (listed object.entry.0) IsByNumber → IfSome (listed first.entry.0) IsByNumber → OnOk result (string_bytes text.new ≡ string_bytes text.old
        ++ met_text (object_text (listed object.entry.0) object.entry.1 ++ (codes " " ++ object.entry.2.now)) (object_text (listed first.entry.0) first.entry.1 ++ (codes " " ++ first.entry.2.now))) }
{
    text.push_str("; ")?;
    push_of_side(text, object)?;
    text.push_str(" is ")?;
    push_of_side(text, first)?;
    text.push_str(" on an earlier path")
}

fn push_of_side(text: &mut String, object: Met<'_>) -> Result<(), AllocError>
    ensures { IfSome (listed object.entry.0) IsByNumber → OnOk result (string_bytes text.new ≡ string_bytes text.old ++ (object_text (listed object.entry.0) object.entry.1 ++ (codes " " ++ object.entry.2.now))) }
{
    let (labels, address, when) = object;
    push_object(text, labels, address)?;
    write!(text, " {when}")
}

fn push_numbers(text: &mut String, what: &str, old: u64, new: u64) -> Result<(), AllocError>
    ensures { OnOk result (string_bytes text.new ≡ string_bytes text.old ++ numbers_text what.now old new) }
{
    write!(text, "; {what} {old} before, {new} after")
}

fn push_data(text: &mut String, sides: Sides<'_>, word: u64, ends: &Ends) -> Result<(), AllocError>
    requires { IsReference sides.heaps.before.now ends.now.before }
    ensures { AreNamesInOrder (compared sides.entry) → OnOk result (string_bytes text.new ≡ string_bytes text.old
        ++ values_text (compared sides.entry) ends.now.before word ends.now.word_before ends.now.word_after) }
{
    write!(text, "; data word {word}")?;
    push_word_name(text, word_name(sides, ends.before, word))?;
    push_value(
        text,
        sides.names,
        sides.texts_before,
        " is ",
        ends.word_before,
    )?;
    push_value(
        text,
        sides.names,
        sides.texts_after,
        " before, ",
        ends.word_after,
    )?;
    text.push_str(" after")
}

// The name that a program has for a data word of the object that is referenced before.
fn word_name<'a>(sides: Sides<'a>, reference: u64, word: u64) -> Option<Word<'a>>
    requires { IsReference sides.heaps.before.now reference }
    ensures { AreNamesInOrder (compared sides.entry) → word_told result ≡ word_name (compared sides.entry) reference word }
{
    match sides.names {
        Some(names) => data_in(names, object_of(sides.heaps.before, reference), word),
        None => None,
    }
}

fn data_in<'a>(names: &Names<'a>, object: Option<ObjectWords<'_>>, word: u64) -> Option<Word<'a>>
    ensures { AreInOrder (program_of names.now) → word_told result ≡ option_and_then (λ o. data_name (program_of names.now) o word) (object_told object.entry) }
{
    match object {
        Some(object) => names.data(&object, word),
        None => None,
    }
}

fn push_value(
    text: &mut String,
    names: Option<&Names<'_>>,
    texts: &HashMap<u64, &str>,
    lead: &str,
    word: u64,
) -> Result<(), AllocError>
    ensures { IfSome (names_told names.entry) AreInOrder → OnOk result (string_bytes text.new ≡ string_bytes text.old ++ (lead.now ++ value_text (names_told names.entry) texts.now.entries word)) }
{
    text.push_str(lead)?;
    match names {
        Some(names) => push_named_value(text, names, texts, word),
        None => push_plain_value(text, texts, word),
    }
}

// A data word: what it stands for and its number, or its number alone.
fn push_plain_value(
    text: &mut String,
    texts: &HashMap<u64, &str>,
    word: u64,
) -> Result<(), AllocError>
    ensures { OnOk result (string_bytes text.new ≡ string_bytes text.old ++ value_text None texts.now.entries word) }
{
    match texts.get(&word) {
        Some(said) => write!(text, "{said} ({word})"),
        None => write!(text, "{word}"),
    }
}

// The same where a program has names, which count more.
fn push_named_value(
    text: &mut String,
    names: &Names<'_>,
    texts: &HashMap<u64, &str>,
    word: u64,
) -> Result<(), AllocError>
    ensures { AreInOrder (program_of names.now) → OnOk result (string_bytes text.new ≡ string_bytes text.old ++ value_text (Some (program_of names.now)) texts.now.entries word) }
{
    match names.text(word) {
        Some(said) => push_text(text, said, word),
        None => push_unnamed_value(text, texts, word),
    }
}

// A data word of which a program says nothing. A number alone is there in both forms.
fn push_unnamed_value(
    text: &mut String,
    texts: &HashMap<u64, &str>,
    word: u64,
) -> Result<(), AllocError>
    ensures { OnOk result (string_bytes text.new ≡ string_bytes text.old ++ named_value_text None (name_of texts.now.entries word) word) }
{
    match texts.get(&word) {
        Some(said) => write!(text, "{said} ({word})"),
        None => write!(text, "{word} (0x{word:x})"),
    }
}

// The words of a text, and the number that stands for it.
fn push_text(text: &mut String, said: &[&str], word: u64) -> Result<(), AllocError>
    ensures { OnOk result (string_bytes text.new ≡ string_bytes text.old ++ value_text_of (Some (quoted_text (texts said.now))) word) }
{
    text.push_str("\"")?;
    push_apart(text, said)?;
    write!(text, "\" ({word})")
}

// Words with a space between each two.
fn push_apart(text: &mut String, words: &[&str]) -> Result<(), AllocError>
    ensures { OnOk result (string_bytes text.new ≡ string_bytes text.old ++ join_with_byte (byte " ") (texts words.now)) }
{
    match words.split_first() {
        Some((first, rest)) => {
            text.push_str(first)?;
            push_behind(text, rest)
        }
        None => Ok(()),
    }
}

// Words with a space in front of each.
fn push_behind(text: &mut String, words: &[&str]) -> Result<(), AllocError>
    ensures { OnOk result (string_bytes text.new ≡ string_bytes text.old ++ flat_map (λ word. codes " " ++ word.now) words.now) }
{
    for word in words {
        write!(text, " {word}")?;
    }
    Ok(())
}
