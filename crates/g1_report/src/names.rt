//! What a program calls its roots, its objects and the words in them.
ghost use Rattle.std.specs.Prelude.{◌≡◌, ◌≤◌, ◌<◌, ◌^◌, [], length, slice_index_or, option_map, IsTrue, None, MatchOption};
ghost use Rattle.g1_text.specs.Forms.{Spells, IsBelow};
ghost use Rattle.std.specs.List.{position_or_len};
ghost use Rattle.g1_report.specs.NamesText.{line_of_no_text};
ghost use Rattle.g1_report.specs.Program.{texts, text_told, kind_told, word_told, type_alone, border, slot_names, data_names, name_of_word, name_from, last_name, before_brackets, is_data, alone};

use crate::comparing::Labels;
use crate::objects::ObjectWords;
use crate::places::{entry_at, entry_named, sort_by_name, sort_by_place, value_at};
use g1_text::data_word;
use std::alloc::{AllocError, AllocFailed, Global};
use std::str;

/// The names in a text of lines:
///
///     root NUMBER NAME
///     type TYPE slots NAME .. data NAME ..
///     label WORD TYPE
///     text WORD TEXT ..
///     object ADDRESS TYPE [NOTE]
///
/// An object of lines by name has its name in place of an address. A WORD is a data word as lines have it, and TEXT is
/// all words up to the end of its line.
/// A last name that ends with `[]` is that of its word and of all behind it. Of several lines of one number, or of one
/// type, the first counts.
#[derive(Drop)]
pub struct Names<'a> {
    // Numbers, rising.
    roots: Vec<(u64, &'a str)>,
    // Types, rising.
    types: Vec<(&'a str, Vec<&'a str>)>,
    // First data words, rising, each with the type of the objects that have it.
    labels: Vec<(u64, &'a str)>,
    // Data words, rising, each with what it stands for.
    texts: Vec<(u64, Vec<&'a str>)>,
    // Addresses, rising.
    objects: Vec<(u64, Kind<'a>)>,
    // Names of objects, rising.
    named: Vec<(&'a str, Kind<'a>)>,
    // The addresses of the objects that have names, rising, and these names.
    labels_before: Labels<'a>,
}

/// The type of an object, and what else its line says of it.
#[derive(Clone, Copy)]
pub struct Kind<'a> {
    pub name: &'a str,
    pub note: &'a str,
}

/// The name of a word, and its number among the words that have this name, if there may be several.
#[derive(Clone, Copy)]
pub struct Word<'a> {
    pub name: &'a str,
    pub number: Option<u64>,
}

/// Why a text has no names.
#[derive(Debug, Clone, Copy, PartialEq, Eq)]
pub enum WrongNames {
    /// In the line of this number, counted from 1, this is expected instead.
    Line { number: u64, expected: &'static str },
    /// Memory ran out.
    Memory,
}

impl From<AllocError> for WrongNames {
    ghost use Rattle.std.specs.Prelude.{◌≡◌};
    ghost use Rattle.g1_report.specs.declared.names.WrongNames.TheVariants.{Memory};

    ghost from_gives = { λ _ e. e ≡ Memory };

    fn from(_error: AllocError) -> WrongNames {
        WrongNames::Memory
    }
}

impl<T: Drop> From<AllocFailed<T>> for WrongNames {
    ghost use Rattle.std.specs.Prelude.{◌≡◌};
    ghost use Rattle.g1_report.specs.declared.names.WrongNames.TheVariants.{Memory};

    ghost from_gives = { λ _ e. e ≡ Memory };

    fn from(_error: AllocFailed<T>) -> WrongNames {
        WrongNames::Memory
    }
}

impl<'a> Names<'a> {
    ghost use Rattle.std.specs.Prelude.{◌≡◌, ◌∷◌, ℕ, List, codes, map, option_and_then, true, MatchOption, IfSome, IsSome, IfOk, IfErr, OnOk};
    ghost use Rattle.g1_text.specs.Reading.{words_in, parts_of};
    ghost use Rattle.g1_report.specs.Program.{program_of, text_told, kind_told, kind_said, word_told, texts, texts_told, labels_told, words_text, RiseByNumber, AreInOrder, at_name, root_name, label_name, text_of_word, kind_by_line, kind_by_label, kind_of_object, type_words, slot_name, data_name};
    ghost use Rattle.g1_report.specs.NamesText.{IsKind, IsSaid, IsTaken, SaysNothing, has_word, IsFirstWrongLine, MatchWrong, ArePutInOrder, IsNamesText, IsWrongNames};

    /// The names in these bytes, of a heap whose objects have these names, if they have names.
    ///
    /// # Errors
    ///
    /// The first line that has no name, or the first line that is no UTF-8; `WrongNames::Memory` else.
    pub fn read(
        alloc: Global,
        bytes: &'a [u8],
        labels_before: Labels<'a>,
    ) -> Result<Names<'a>, WrongNames>
        ensures names { IfOk result (λ n. IsNamesText bytes.now (labels_told labels_before.entry) (program_of n)) }
        ensures in_order { IfOk result (λ n. IfSome (labels_told labels_before.entry) RiseByNumber → AreInOrder (program_of n)) }
        ensures wrong { IfErr result (IsWrongNames bytes.now (labels_told labels_before.entry)) }
        ensures labels { IfOk result (λ n. (program_of n).labels_before ≡ labels_told labels_before.entry) }
    {
        let Ok(text) = str::from_utf8(bytes) else {
            let number = first_no_text(bytes);
            return Err(WrongNames::Line {
                number,
                expected: "text",
            });
        };
        let mut names = Names {
            roots: Vec::new(alloc),
            types: Vec::new(alloc),
            labels: Vec::new(alloc),
            texts: Vec::new(alloc),
            objects: Vec::new(alloc),
            named: Vec::new(alloc),
            labels_before,
        };
        names.add_lines(alloc, text)?;
        names.sort()?;
        Ok(names)
    }

    // Puts each list in the order in which it is searched. Lines of one key stay in their order.
    fn sort(&mut self) -> Result<(), AllocError>
        ensures { OnOk result (ArePutInOrder (program_of self.old) (program_of self.new)) }
    {
        sort_by_place(&mut self.roots)?;
        sort_by_name(&mut self.types)?;
        sort_by_place(&mut self.labels)?;
        sort_by_place(&mut self.texts)?;
        sort_by_place(&mut self.objects)?;
        sort_by_name(&mut self.named)
    }

    fn add_lines(&mut self, alloc: Global, text: &'a str) -> Result<(), WrongNames>
        ensures says { OnOk result (IsSaid (program_of self.old).labels_before (map words_in (parts_of text.now)) (program_of self.old) (program_of self.new)) }
        ensures wrong { IfErr result (λ e. MatchWrong e (IsFirstWrongLine text.now (program_of self.old).labels_before)) }
    {
        let mut number = 0u64;
        for line in text.split('\n') {
            number = number.saturating_add(1);
            if let Some(expected) = self.add_line(alloc, line)? {
                return Err(WrongNames::Line { number, expected });
            }
        }
        Ok(())
    }

    // What is expected instead of this line, if it is no line of names.
    fn add_line(&mut self, alloc: Global, line: &'a str) -> Result<Option<&'static str>, AllocError>
        ensures { IfOk result (λ r. MatchOption r (IsSaid (program_of self.old).labels_before (words_in line.now ∷ []) (program_of self.old) (program_of self.new)) (λ _. (has_word (words_in line.now) ≡ true) × SaysNothing (program_of self.old).labels_before (words_in line.now))) }
    {
        let words = line
            .split_ascii_whitespace()
            .collect::<Vec<&'a str>>(alloc)?;
        match words.as_slice() {
            [] => Ok(None),
            [first, rest @ ..] => self.add(alloc, first, rest),
        }
    }

    // What is expected instead of a word and those behind it, if they are no line of names.
    fn add(
        &mut self,
        alloc: Global,
        first: &str,
        rest: &[&'a str],
    ) -> Result<Option<&'static str>, AllocError>
        ensures { IfOk result (λ r. MatchOption r (IsTaken (first.now ∷ texts rest.now) (program_of self.old) (program_of self.new)) (λ _. SaysNothing (program_of self.old).labels_before (first.now ∷ texts rest.now))) }
    {
        match first {
            "root" => self.add_root(rest),
            "label" => self.add_label(rest),
            "type" => self.add_type(alloc, rest),
            "text" => self.add_text(alloc, rest),
            "object" => self.add_object(rest),
            _ => Ok(Some("'root', 'type', 'label', 'text' or 'object'")),
        }
    }

    fn add_root(&mut self, words: &[&'a str]) -> Result<Option<&'static str>, AllocError>
        ensures { IfOk result (λ r. MatchOption r (IsTaken (codes "root" ∷ texts words.now) (program_of self.old) (program_of self.new)) (λ _. SaysNothing (program_of self.old).labels_before (codes "root" ∷ texts words.now))) }
    {
        let [number, name] = words else {
            return Ok(Some("'root NUMBER NAME'"));
        };
        let Some(number) = whole(number) else {
            return Ok(Some("a whole number behind 'root'"));
        };
        self.roots.push((number, *name))?;
        Ok(None)
    }

    fn add_label(&mut self, words: &[&'a str]) -> Result<Option<&'static str>, AllocError>
        ensures { IfOk result (λ r. MatchOption r (IsTaken (codes "label" ∷ texts words.now) (program_of self.old) (program_of self.new)) (λ _. SaysNothing (program_of self.old).labels_before (codes "label" ∷ texts words.now))) }
    {
        let [word, name] = words else {
            return Ok(Some("'label WORD TYPE'"));
        };
        let Some(word) = data_word(word) else {
            return Ok(Some("a data word behind 'label'"));
        };
        self.labels.push((word, *name))?;
        Ok(None)
    }

    fn add_text(
        &mut self,
        alloc: Global,
        words: &[&'a str],
    ) -> Result<Option<&'static str>, AllocError>
        ensures { IfOk result (λ r. MatchOption r (IsTaken (codes "text" ∷ texts words.now) (program_of self.old) (program_of self.new)) (λ _. SaysNothing (program_of self.old).labels_before (codes "text" ∷ texts words.now))) }
    {
        match words {
            [word, text @ ..] if !text.is_empty() => {
                let Some(number) = data_word(word) else {
                    return Ok(Some("a data word behind 'text'"));
                };
                self.texts.push((number, Vec::from_slice(alloc, text)?))?;
                Ok(None)
            }
            _ => Ok(Some("'text WORD TEXT'")),
        }
    }

    fn add_type(
        &mut self,
        alloc: Global,
        words: &[&'a str],
    ) -> Result<Option<&'static str>, AllocError>
        ensures { IfOk result (λ r. MatchOption r (IsTaken (codes "type" ∷ texts words.now) (program_of self.old) (program_of self.new)) (λ _. SaysNothing (program_of self.old).labels_before (codes "type" ∷ texts words.now))) }
    {
        match words {
            [name, "slots", rest @ ..] if rest.contains(&"data") => {
                self.types.push((*name, Vec::from_slice(alloc, rest)?))?;
                Ok(None)
            }
            _ => Ok(Some("'type TYPE slots NAME .. data NAME ..'")),
        }
    }

    fn add_object(&mut self, words: &[&'a str]) -> Result<Option<&'static str>, AllocError>
        ensures { IfOk result (λ r. MatchOption r (IsTaken (codes "object" ∷ texts words.now) (program_of self.old) (program_of self.new)) (λ _. SaysNothing (program_of self.old).labels_before (codes "object" ∷ texts words.now))) }
    {
        match words {
            [address, name] => self.add_kind(address, Kind { name, note: "" }),
            [address, name, note] => self.add_kind(address, Kind { name, note }),
            _ => Ok(Some("'object ADDRESS TYPE', and at most one word more")),
        }
    }

    fn add_kind(
        &mut self,
        address: &'a str,
        kind: Kind<'a>,
    ) -> Result<Option<&'static str>, AllocError>
        ensures { (words : List (List ℕ)) → IsKind (kind_said kind.entry) words → IfOk result (λ r. MatchOption r (IsTaken (codes "object" ∷ address.now ∷ words) (program_of self.old) (program_of self.new)) (λ _. SaysNothing (program_of self.old).labels_before (codes "object" ∷ address.now ∷ words))) }
    {
        if self.labels_before.is_some() {
            return self.add_named(address, kind);
        }
        let Some(address) = whole(address) else {
            return Ok(Some("an address behind 'object'"));
        };
        self.objects.push((address, kind))?;
        Ok(None)
    }

    // The kind of the object of this name.
    fn add_named(
        &mut self,
        name: &'a str,
        kind: Kind<'a>,
    ) -> Result<Option<&'static str>, AllocError>
        ensures { IsSome (program_of self.old).labels_before → (words : List (List ℕ)) → IsKind (kind_said kind.entry) words → IfOk result (λ r. MatchOption r (IsTaken (codes "object" ∷ name.now ∷ words) (program_of self.old) (program_of self.new)) (λ _. SaysNothing (program_of self.old).labels_before (codes "object" ∷ name.now ∷ words))) }
    {
        if name == "-" || name == ".." {
            return Ok(Some("the name of an object behind 'object'"));
        }
        self.named.push((name, kind))?;
        Ok(None)
    }

    /// The name of a root.
    pub fn root(&self, number: u64) -> Option<&'a str>
        ensures { AreInOrder (program_of self.now) → text_told result ≡ root_name (program_of self.now) number }
    {
        value_at(self.roots.as_slice(), number)
    }

    /// The type whose objects have this first data word.
    pub fn label(&self, word: u64) -> Option<&'a str>
        ensures { AreInOrder (program_of self.now) → text_told result ≡ label_name (program_of self.now) word }
    {
        value_at(self.labels.as_slice(), word)
    }

    /// The words of what a data word stands for.
    pub fn text(&self, word: u64) -> Option<&[&'a str]>
        ensures { AreInOrder (program_of self.now) → texts_told result ≡ text_of_word (program_of self.now) word }
    {
        match entry_at(self.texts.as_slice(), word) {
            Some(text) => Some(text.as_slice()),
            None => None,
        }
    }

    // The kind that a line says of the object at an address, by its name if it has one.
    fn kind_at(&self, address: u64) -> Option<Kind<'a>>
        ensures { AreInOrder (program_of self.now) → kind_told result ≡ kind_by_line (program_of self.now).labels_before (program_of self.now) address }
    {
        match self.labels_before {
            Some(labels) => self.kind_named(value_at(labels, address)),
            None => value_at(self.objects.as_slice(), address),
        }
    }

    // The kind of the object of a name, if it has one.
    fn kind_named(&self, name: Option<&str>) -> Option<Kind<'a>>
        ensures { AreInOrder (program_of self.now) → kind_told result ≡ option_and_then (at_name (program_of self.now).named) (text_told name.entry) }
    {
        match name {
            Some(name) => entry_named(self.named.as_slice(), name).copied(),
            None => None,
        }
    }

    /// The kind of an object of the heap before: that of its line, or else the type of its first data word.
    pub fn object(&self, object: &ObjectWords<'_>) -> Option<Kind<'a>>
        ensures { AreInOrder (program_of self.now) → kind_told result ≡ kind_of_object (program_of self.now) (words_text object.now) }
    {
        match self.kind_at(object.at) {
            Some(kind) => Some(kind),
            None => self.kind_labelled(object.data),
        }
    }

    /// The kind of an object with these data words by the first of them.
    pub fn kind_labelled(&self, data: &[u64]) -> Option<Kind<'a>>
        ensures { AreInOrder (program_of self.now) → kind_told result ≡ kind_by_label (program_of self.now) «data».now }
    {
        match data {
            [word, ..] => type_alone(self.label(*word)),
            [] => None,
        }
    }

    /// The name of a slot of an object of the heap before.
    pub fn slot(&self, object: &ObjectWords<'_>, slot: u64) -> Option<Word<'a>>
        ensures { AreInOrder (program_of self.now) → word_told result ≡ slot_name (program_of self.now) (words_text object.now) slot }
    {
        match self.words_of(object) {
            Some(words) => numbered(slot_names(words, object.slots.len()), slot),
            None => None,
        }
    }

    /// The name of a data word of an object of the heap before.
    pub fn data(&self, object: &ObjectWords<'_>, word: u64) -> Option<Word<'a>>
        ensures { AreInOrder (program_of self.now) → word_told result ≡ data_name (program_of self.now) (words_text object.now) word }
    {
        match self.words_of(object) {
            Some(words) => numbered(data_names(words, object.slots.len()), word),
            None => None,
        }
    }

    // The words of the line of an object's type, behind `slots`.
    fn words_of(&self, object: &ObjectWords<'_>) -> Option<&[&'a str]>
        ensures { AreInOrder (program_of self.now) → texts_told result ≡ type_words (program_of self.now) (words_text object.now) }
    {
        match self.object(object) {
            Some(kind) => self.words_of_type(kind.name),
            None => None,
        }
    }

    // The words of the line of a type, behind `slots`.
    fn words_of_type(&self, name: &str) -> Option<&[&'a str]>
        ensures { AreInOrder (program_of self.now) → texts_told result ≡ at_name (program_of self.now).types name.now }
    {
        match entry_named(self.types.as_slice(), name) {
            Some(words) => Some(words.as_slice()),
            None => None,
        }
    }
}

// A type of which nothing else is said.
fn type_alone<'a>(name: Option<&'a str>) -> Option<Kind<'a>>
    ensures { kind_told result ≡ option_map type_alone (text_told name.entry) }
{
    match name {
        Some(name) => Some(Kind { name, note: "" }),
        None => None,
    }
}

// The names of slots among the words of a type.
fn slot_names<'a, 'b>(words: &'b [&'a str], slots: usize) -> &'b [&'a str]
    ensures { texts result.now ≡ slot_names (texts words.now) slots }
{
    words.split_at(border(words, slots)).0
}

// The names of data words among the words of a type.
fn data_names<'a, 'b>(words: &'b [&'a str], slots: usize) -> &'b [&'a str]
    ensures { texts result.now ≡ data_names (texts words.now) slots }
{
    let rest = words.split_at(border(words, slots)).1;
    rest.split_at(rest.len().min(1)).1
}

// The place of the word between the names of slots and those of data. A slot may be called `data`, too: so it is the
// word behind as many names as there are slots, if that is the one.
fn border(words: &[&str], slots: usize) -> usize
    ensures value { result ≡ border (texts words.now) slots }
    ensures bound { result ≤ length words.now }
{
    if has_data_at(words, slots) {
        slots
    } else {
        first_data(words)
    }
}

fn has_data_at(words: &[&str], place: usize) -> bool
    ensures value { result ≡ is_data (slice_index_or (texts words.now) place []) }
    ensures within { IsTrue result → place < length words.now }
{
    match words.get(place) {
        Some(word) => *word == "data",
        None => false,
    }
}

// The place of the first `data`, or of the end.
fn first_data(words: &[&str]) -> usize
    ensures value { result ≡ position_or_len is_data (texts words.now) }
    ensures bound { result ≤ length words.now }
{
    for place in 0..words.len() {
        if has_data_at(words, place) {
            return place;
        }
    }
    words.len()
}

// The name of the word of this number.
fn numbered<'a>(names: &[&'a str], number: u64) -> Option<Word<'a>>
    ensures { word_told result ≡ name_of_word (texts names.now) number }
{
    let last = (names.len() as u64).saturating_sub(1);
    match name_from(names, number) {
        Some(name) => Some(Word {
            name,
            number: Some(number.saturating_sub(last)),
        }),
        None => word_alone(names.get(number as usize).copied()),
    }
}

fn word_alone<'a>(name: Option<&'a str>) -> Option<Word<'a>>
    ensures { word_told result ≡ option_map alone (text_told name.entry) }
{
    match name {
        Some(name) => Some(Word { name, number: None }),
        None => None,
    }
}

// The name of all words from the last name on, if the word of this number is one of them.
fn name_from<'a>(names: &[&'a str], number: u64) -> Option<&'a str>
    ensures { text_told result ≡ name_from (texts names.now) number }
{
    let last = (names.len() as u64).saturating_sub(1);
    if last <= number {
        before_brackets(last_name(names))
    } else {
        None
    }
}

fn last_name<'a>(names: &[&'a str]) -> &'a str
    ensures { result.now ≡ last_name (texts names.now) }
{
    match names.last() {
        Some(name) => *name,
        None => "",
    }
}

// What stands before `[]` at the end of a name.
fn before_brackets(name: &str) -> Option<&str>
    ensures { text_told result ≡ before_brackets name.now }
{
    name.strip_suffix("[]")
}

// A whole number in decimal digits alone. `parse` takes a plus.
fn whole(text: &str) -> Option<u64>
    ensures { MatchOption result (IsBelow (2 ^ 64) text.now → ⊥) (λ n. Spells (2 ^ 64) n text.now) }
{
    if text.starts_with('+') {
        return None;
    }
    text.parse::<u64>().ok()
}

// The number of the line in which bytes begin that are not UTF-8.
fn first_no_text(bytes: &[u8]) -> u64
    ensures { result ≡ line_of_no_text bytes.now }
{
    match bytes.utf8_chunks().next() {
        Some(chunk) => chunk.valid().split('\n').count() as u64,
        None => 1,
    }
}
