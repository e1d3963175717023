//! Values that are no objects, and places inside objects: words in the place of a slot's or a root's name. Each is read as
//! the name of an object more, whose line `with_boxes` puts behind the text.
ghost use Rattle.std.specs.Prelude.{◌≡◌, ◌∷◌, ◌++◌, [], Some, None, true, false, map, flat_map, string_bytes, IfOk, IfSome, OnOk, MatchOption};
ghost use Rattle.std.specs.List.{list_all};
ghost use Rattle.std.specs.Slice.Iter.{iter_rest};
ghost use Rattle.std.specs.Str.{is_utf8};
ghost use Rattle.g1_text.specs.Reading.{words_in, parts_of};
ghost use Rattle.g1_text.specs.Boxes.{behind_weak, boxed_text, box_line, ended, is_numeral, is_value as is_value_of, names_in, place_line, place_of_word, slot_words, slot_words_of, targets, value_line};
ghost use Rattle.g1_text.specs.Marked.{is_marked, names_found, words_found, with_all, with_marked};

use crate::reading::first_line;
use crate::words::{cut_words, size_and_slots};
use indexmap::IndexSet;
use memchr::memchr2;
use std::alloc::{AllocError, Global};
use std::slice::Iter;
use std::str;

/// The lines with a line more for each value and each place inside an object that a slot or a root has. None if there is
/// none, or if a line is no text: then the lines stay as they are.
pub fn with_boxes(alloc: Global, text: &[u8]) -> Result<Option<Vec<u8>>, AllocError>
    ensures { IfOk result (λ r. MatchOption r (boxed_text text.now ≡ text.now) (λ v. v.items ≡ boxed_text text.now)) }
{
    if !has_mark(text) {
        return Ok(None);
    }
    let Some(found) = find_words(alloc, text)? else {
        return Ok(None);
    };
    let lines = box_lines(alloc, &found)?;
    let bytes = lines.as_bytes();
    if bytes.is_empty() {
        return Ok(None);
    }
    Ok(Some(join(alloc, text, bytes)?))
}

// Each value has a `=`, and each place a `+`.
fn has_mark(bytes: &[u8]) -> bool
    ensures { result ≡ is_marked bytes.now }
{
    memchr2(b'=', b'+', bytes).is_some()
}

// The text, which ends with an LF, and lines behind it.
fn join(alloc: Global, text: &[u8], lines: &[u8]) -> Result<Vec<u8>, AllocError>
    ensures { IfOk result (λ v. v.items ≡ ended text.now ++ lines.now) }
{
    let room = text.len().saturating_add(1).saturating_add(lines.len());
    let mut joined = Vec::with_capacity(alloc, room)?;
    joined.extend_from_slice(text)?;
    joined.extend_from_slice(end_of(text))?;
    joined.extend_from_slice(lines)?;
    Ok(joined)
}

// The LF that a text wants at its end.
fn end_of(text: &[u8]) -> &'static [u8]
    ensures { ended text.now ≡ text.now ++ result.now }
{
    if text.is_empty() || text.ends_with(b"\n") {
        b""
    } else {
        b"\n"
    }
}

// The names of the objects, and the words in the places of slots and roots that may be values or places, each once.
#[derive(Drop)]
struct Found<'a> {
    names: IndexSet<&'a str>,
    words: IndexSet<&'a str>,
}

// None if a line is no text.
fn find_words<'a>(alloc: Global, text: &'a [u8]) -> Result<Option<Found<'a>>, AllocError>
    ensures utf8 { IfOk result (λ r. MatchOption r (list_all is_utf8 (parts_of text.now) ≡ false) (λ f. list_all is_utf8 (parts_of text.now) ≡ true)) }
    ensures names { IfOk result (λ r. IfSome r (λ f. names_found f ≡ with_all [] (flat_map names_in (map words_in (parts_of text.now))))) }
    ensures words { IfOk result (λ r. IfSome r (λ f. words_found f ≡ with_marked [] (flat_map slot_words_of (map words_in (parts_of text.now))))) }
{
    let mut found = Found {
        names: IndexSet::new(alloc),
        words: IndexSet::new(alloc),
    };
    let mut words = Vec::new(alloc);
    let mut rest = Some(text);
    'lines: while let Some(left) = rest {
        let (line, behind) = first_line(left);
        let Ok(line) = str::from_utf8(line) else {
            return Ok(None);
        };
        cut_words(&mut words, line)?;
        found.add_line(words.as_slice())?;
        rest = behind;
    }
    Ok(Some(found))
}

impl<'a> Found<'a> {
    // object NAME SIZE/SLOTS CONTENT ..
    // root NAME ..
    fn add_line(&mut self, words: &[&'a str]) -> Result<(), AllocError>
        ensures names { OnOk result (names_found self.new ≡ with_all (names_found self.old) (names_in (map (λ t. t.now) words.now))) }
        ensures words { OnOk result (words_found self.new ≡ with_marked (words_found self.old) (slot_words_of (map (λ t. t.now) words.now))) }
    {
        let Some((first, behind)) = words.split_first() else {
            return Ok(());
        };
        let Some((name, rest)) = behind.split_first() else {
            return Ok(());
        };
        match *first {
            "object" => {
                self.names.insert(*name)?;
                self.add_slots(rest)
            }
            "root" => self.add_word(name),
            _ => Ok(()),
        }
    }

    // SIZE/SLOTS CONTENT ..
    fn add_slots(&mut self, words: &[&'a str]) -> Result<(), AllocError>
        ensures names { OnOk result (names_found self.new ≡ names_found self.old) }
        ensures words { OnOk result (words_found self.new ≡ with_marked (words_found self.old) (slot_words (map (λ t. t.now) words.now))) }
    {
        let Some((size, content)) = words.split_first() else {
            return Ok(());
        };
        match size_and_slots(size) {
            Some((_, slots)) => self.add_targets(slots, content),
            None => Ok(()),
        }
    }

    // TARGET ..
    fn add_targets(&mut self, slots: u64, content: &[&'a str]) -> Result<(), AllocError>
        ensures names { OnOk result (names_found self.new ≡ names_found self.old) }
        ensures words { OnOk result (words_found self.new ≡ with_marked (words_found self.old) (targets slots (map (λ t. t.now) content.now))) }
    {
        let mut words = content.iter();
        for _ in 0..slots {
            let Some(word) = next_target(&mut words) else {
                return Ok(());
            };
            self.add_word(word)?;
        }
        Ok(())
    }

    fn add_word(&mut self, word: &'a str) -> Result<(), AllocError>
        ensures names { OnOk result (names_found self.new ≡ names_found self.old) }
        ensures words { OnOk result (words_found self.new ≡ with_marked (words_found self.old) (word.now ∷ [])) }
    {
        if has_mark(word.as_bytes()) {
            self.words.insert(word)?;
        }
        Ok(())
    }
}

// The word of the next target, which is that word, or `weak` and that word.
fn next_target<'a>(words: &mut Iter<'_, &'a str>) -> Option<&'a str>
    ensures { MatchOption result (behind_weak (map (λ t. t.now) (iter_rest words.old)) ≡ []) (λ w. behind_weak (map (λ t. t.now) (iter_rest words.old)) ≡ w.now ∷ map (λ t. t.now) (iter_rest words.new)) }
{
    let word = words.next()?;
    if *word != "weak" {
        return Some(*word);
    }
    words.next().copied()
}

fn box_lines(alloc: Global, found: &Found<'_>) -> Result<String, AllocError>
    ensures { IfOk result (λ s. string_bytes s ≡ flat_map (box_line (names_found found.now)) (words_found found.now)) }
{
    let mut lines = String::new(alloc);
    for word in found.words.as_slice() {
        push_box(&mut lines, &found.names, word)?;
    }
    Ok(lines)
}

// The line that stands for a word, if one does.
fn push_box(lines: &mut String, names: &IndexSet<&str>, word: &str) -> Result<(), AllocError>
    ensures { OnOk result (string_bytes lines.new ≡ string_bytes lines.old ++ box_line (map (λ t. t.now) names.now.keys) word.now) }
{
    if names.contains(&word) {
        return Ok(());
    }
    if is_value(word) {
        return push_value(lines, word);
    }
    match place_in(word) {
        Some((name, distance)) if names.contains(&name) => push_place(lines, word, name, distance),
        _ => Ok(()),
    }
}

// =TEXT
fn is_value(word: &str) -> bool
    ensures { result ≡ is_value_of word.now }
{
    word.starts_with('=') && word.len() > 1
}

// NAME+DISTANCE
fn place_in(word: &str) -> Option<(&str, &str)>
    ensures { MatchOption result (place_of_word word.now ≡ None) (λ r. place_of_word word.now ≡ Some (r.0.now, r.1.now)) }
{
    let (name, distance) = word.rsplit_once('+')?;
    if name.is_empty() || !is_digits(distance) {
        return None;
    }
    Some((name, distance))
}

// Digits alone, at least one.
fn is_digits(text: &str) -> bool
    ensures { result ≡ is_numeral text.now }
{
    for byte in text.as_bytes() {
        if !byte.is_ascii_digit() {
            return false;
        }
    }
    !text.is_empty()
}

// object =TEXT 2/0 "=TEXT"
fn push_value(lines: &mut String, word: &str) -> Result<(), AllocError>
    ensures { OnOk result (string_bytes lines.new ≡ string_bytes lines.old ++ value_line word.now) }
{
    writeln!(lines, "object {word} 2/0 \"{word}\"")
}

// object NAME+DISTANCE 3/1 NAME "+DISTANCE"
fn push_place(lines: &mut String, word: &str, name: &str, distance: &str) -> Result<(), AllocError>
    ensures { OnOk result (string_bytes lines.new ≡ string_bytes lines.old ++ place_line word.now name.now distance.now) }
{
    writeln!(lines, "object {word} 3/1 {name} \"+{distance}\"")
}
