ghost use Rattle.std.specs.Prelude.{◌≡◌, ◌<◌, ◌≤◌, ◌+◌, ◌^◌, ℕ, ◌∷◌, ◌++◌, Some, length, drop, map, not, decimal, OnOk, MatchOption};
ghost use Rattle.std.specs.Char.{is_ascii_whitespace};
ghost use Rattle.std.specs.List.{prefix_len};
ghost use Rattle.std.specs.Simd.Lanes.{mask_l};
ghost use Rattle.g1_text.specs.Reading.{words_in};
ghost use Rattle.g1_text.specs.Forms.{Spells, IsBelow, HasSize};

use crate::expected::Expected;
use crate::values::data_word;
use std::alloc::AllocError;
use std::marker::Model;
use std::simd::prelude::*;

/// Puts the words of a line into a list, instead of those that are there.
pub(crate) fn cut_words<'a>(words: &mut Vec<&'a str>, line: &'a str) -> Result<(), AllocError>
    ensures { OnOk result (map (λ t. t.now) words.new.items ≡ words_in line.now) }
{
    words.clear();
    let bytes = line.as_bytes();
    let mut at = 0usize;
    while at < bytes.len() {
        let end = word_end(bytes, at);
        if at < end {
            words.push(&line[at..end])?;
        }
        at = end + 1;
    }
    Ok(())
}

// The first white space from a place on, or the length: 16 bytes at a time, in about half of the instructions that
// `split_ascii_whitespace` takes.
fn word_end(bytes: &[u8], from: usize) -> usize
    requires { from ≤ length bytes.now }
    ensures { result ≡ from + prefix_len (λ b. not (is_ascii_whitespace b)) (drop from bytes.now) }
{
    let mut at = from;
    while bytes.len() - at >= 16 {
        let found = white_among(u8x16::from_slice(&bytes[at..]));
        if found != 0 {
            return at + found.trailing_zeros() as usize;
        }
        at += 16;
    }
    short_word_end(bytes, at)
}

// The same, one byte after the other.
fn short_word_end(bytes: &[u8], from: usize) -> usize
    requires { from ≤ length bytes.now }
    ensures { result ≡ from + prefix_len (λ b. not (is_ascii_whitespace b)) (drop from bytes.now) }
{
    let mut at = from;
    while at < bytes.len() && !bytes[at].is_ascii_whitespace() {
        at += 1;
    }
    at
}

// A bit for each of the bytes: whether it is white space.
fn white_among(bytes: u8x16) -> u64
    ensures { result ≡ mask_l (map is_ascii_whitespace bytes) }
{
    (bytes.simd_eq(u8x16::splat(b' '))
        | bytes.simd_eq(u8x16::splat(b'\t'))
        | bytes.simd_eq(u8x16::splat(b'\n'))
        | bytes.simd_eq(u8x16::splat(0x0c))
        | bytes.simd_eq(u8x16::splat(b'\r'))).to_bitmask()
}

/// The words of a line that are not read yet: those from one place up to another.
#[derive(Drop)]
pub(crate) struct Words<'a> {
    words: &'a [&'a str],
    from: usize,
    to: usize,
}

impl<'a> Model for Words<'a> {
    ghost use Rattle.std.specs.Prelude.{◌≤◌, ◌-◌, ℕ, List, map, take, drop, length};

    ghost Value = { List (List ℕ) };

    ghost view = { λ w. map (λ t. t.now) (take (w.to - w.from) (drop w.from w.words.now)) };

    ghost invariant = { λ w. (w.from ≤ w.to) × (w.to ≤ length w.words.now) };
}

impl<'a> Words<'a> {
    ghost use Rattle.std.specs.Prelude.{◌≡◌, ◌≢◌, ◌^◌, ℕ, List, [], ◌∷◌, ◌++◌, Some, None, Ok, length, map, OnOk, IfOk, IfErr, MatchOption, MatchBool, MatchResult};
    ghost use Rattle.g1_text.specs.Forms.{Spells, IsBelow, StandsFor, IsReferenceWord, Denotes, Word, Single, Labelled, ◌▸◌, HasFront, HasFirst, HasNoFirst};
    ghost use Rattle.g1_text.specs.Refused.{IsOther};

    pub(crate) fn new(words: &'a [&'a str]) -> Words<'a>
        ensures { result ≡ map (λ t. t.now) words.now }
    {
        Words {
            words,
            from: 0,
            to: words.len(),
        }
    }

    pub(crate) fn len(&self) -> usize
        ensures { result ≡ length self.now }
    {
        self.to - self.from
    }

    /// Reads the next word.
    pub(crate) fn next(&mut self) -> Option<&'a str>
        ensures { MatchOption result ((self.old ≡ []) × (self.new ≡ [])) (λ t. self.old ≡ t.now ∷ self.new) }
    {
        if self.from == self.to {
            return None;
        }
        let word = self.words[self.from];
        self.from += 1;
        Some(word)
    }

    /// Reads the next word if it is this one, and returns whether it was.
    pub(crate) fn take(&mut self, word: &str) -> bool
        ensures { MatchBool result (self.old ≡ word.now ∷ self.new) ((self.new ≡ self.old) × ((rest : List (List ℕ)) → self.old ≢ word.now ∷ rest)) }
    {
        if self.from == self.to {
            return false;
        }
        let found = self.words[self.from] == word;
        if found {
            self.from += 1;
        }
        found
    }

    /// Reads the last word if it is this one, and returns whether it was.
    pub(crate) fn take_last(&mut self, word: &str) -> bool
        ensures { MatchBool result (self.old ≡ self.new ++ word.now ∷ []) ((self.new ≡ self.old) × ((front : List (List ℕ)) → self.old ≢ front ++ word.now ∷ [])) }
    {
        if self.from == self.to {
            return false;
        }
        let found = self.words[self.to - 1] == word;
        if found {
            self.to -= 1;
        }
        found
    }

    /// Reads the next word, which has to be this one.
    pub(crate) fn word(&mut self, word: &'static str) -> Result<(), Expected>
        ensures { MatchResult result (λ _. self.old ≡ word.now ∷ self.new) (λ _. (rest : List (List ℕ)) → self.old ≢ word.now ∷ rest) }
    {
        if self.take(word) {
            Ok(())
        } else {
            Err(Expected::Word(word))
        }
    }

    /// Reads the next word if it is a number.
    pub(crate) fn take_number(&mut self) -> Option<u64>
        ensures digits { MatchOption result ((self.new ≡ self.old) × HasNoFirst (IsBelow (2 ^ 64)) self.old) (λ n. HasFirst (Spells (2 ^ 64) n) self.old self.new) }
        ensures full { (n : ℕ) (word : List ℕ) (rest : List (List ℕ)) → Spells (2 ^ 64) n word → self.old ≡ word ∷ rest → (result ≡ Some n) × (self.new ≡ rest) }
    {
        if self.from == self.to {
            return None;
        }
        let number = whole(self.words[self.from])?;
        self.from += 1;
        Some(number)
    }

    /// Reads a number of this.
    pub(crate) fn number(&mut self, what: &'static str) -> Result<u64, Expected>
        ensures digits { MatchResult result (λ n. HasFirst (Spells (2 ^ 64) n) self.old self.new) (λ _. HasNoFirst (IsBelow (2 ^ 64)) self.old) }
        ensures full { (n : ℕ) (word : List ℕ) (rest : List (List ℕ)) → Spells (2 ^ 64) n word → self.old ≡ word ∷ rest → (result ≡ Ok n) × (self.new ≡ rest) }
        ensures other { IfErr result IsOther }
    {
        self.take_number().ok_or(Expected::Number(what))
    }

    /// Reads a data word, and gives the word that it stands for.
    pub(crate) fn value(&mut self) -> Result<u64, Expected>
        ensures form { IfOk result (λ n. HasFirst (StandsFor n) self.old self.new) }
        ensures full { (n : ℕ) (word : List ℕ) (rest : List (List ℕ)) → StandsFor n word → self.old ≡ word ∷ rest → (result ≡ Ok n) × (self.new ≡ rest) }
        ensures other { IfErr result IsOther }
    {
        let Some(word) = self.next() else {
            return Err(Expected::Value);
        };
        data_word(word).ok_or(Expected::Value)
    }

    /// Reads the number of a region or of a card.
    pub(crate) fn short_number(&mut self, what: &'static str) -> Result<u32, Expected>
        ensures digits { MatchResult result (λ n. HasFirst (Spells (2 ^ 32) n) self.old self.new) (λ _. HasNoFirst (IsBelow (2 ^ 32)) self.old) }
        ensures full { (n : ℕ) (word : List ℕ) (rest : List (List ℕ)) → Spells (2 ^ 32) n word → self.old ≡ word ∷ rest → (result ≡ Ok n) × (self.new ≡ rest) }
    {
        let Some(number) = self.take_number() else {
            return Err(Expected::Number(what));
        };
        match u32::try_from(number) {
            Ok(number) => Ok(number),
            Err(_) => Err(Expected::Number(what)),
        }
    }

    /// Reads a word and the number behind it, if this word is the next.
    pub(crate) fn take_named(&mut self, word: &'static str) -> Result<Option<u64>, Expected>
        ensures digits { IfOk result (λ r. MatchOption r (self.new ≡ self.old) (λ n. HasFront (Word word.now ▸ Single (Spells (2 ^ 64) n)) self.old self.new)) }
        ensures form { OnOk result (HasFront (Labelled word.now) self.old self.new) }
        ensures absent { ((rest : List (List ℕ)) → self.old ≢ word.now ∷ rest) → (result ≡ Ok None) × (self.new ≡ self.old) }
        ensures full { (n : ℕ) (digits : List ℕ) (rest : List (List ℕ)) → Spells (2 ^ 64) n digits → self.old ≡ word.now ∷ digits ∷ rest → (result ≡ Ok (Some n)) × (self.new ≡ rest) }
    {
        if !self.take(word) {
            return Ok(None);
        }
        match self.take_number() {
            Some(number) => Ok(Some(number)),
            None => Err(Expected::Number(word)),
        }
    }

    /// Reads a dash or the address of an object, as a reference word.
    pub(crate) fn reference(&mut self) -> Result<u64, Expected>
        ensures digits { MatchResult result (λ x. HasFirst (Denotes x) self.old self.new) (λ _. HasNoFirst IsReferenceWord self.old) }
        ensures full { (x : ℕ) (word : List ℕ) (rest : List (List ℕ)) → Denotes x word → self.old ≡ word ∷ rest → (result ≡ Ok x) × (self.new ≡ rest) }
    {
        if self.take("-") {
            return Ok(0);
        }
        let Some(address) = self.take_number() else {
            return Err(Expected::Reference);
        };
        address.checked_add(1).ok_or(Expected::Reference)
    }

    /// Finds that no word is left.
    pub(crate) fn end(&self) -> Result<(), Expected>
        ensures none { MatchResult result (λ _. self.now ≡ []) (λ _. self.now ≢ []) }
        ensures other { IfErr result IsOther }
    {
        if self.len() == 0 {
            Ok(())
        } else {
            Err(Expected::End)
        }
    }
}

// A whole number in decimal digits alone. `parse` takes a plus in front of them, too, and more time.
pub(crate) fn whole(text: &str) -> Option<u64>
    ensures digits { MatchOption result (IsBelow (2 ^ 64) text.now → ⊥) (λ n. Spells (2 ^ 64) n text.now) }
    ensures full { (n : ℕ) → n < 2 ^ 64 → text.now ≡ decimal n → result ≡ Some n }
{
    let digits = text.as_bytes();
    if digits.is_empty() {
        return None;
    }
    let mut number = 0u64;
    for at in 0..digits.len() {
        let digit = digits[at].wrapping_sub(b'0');
        if digit > 9 {
            return None;
        }
        let Some(shifted) = number.checked_mul(10) else {
            return None;
        };
        let Some(more) = shifted.checked_add(u64::from(digit)) else {
            return None;
        };
        number = more;
    }
    Some(number)
}

/// An object's words and its slots, two numbers with a slash between them.
pub(crate) fn size_and_slots(text: &str) -> Option<(u64, u64)>
    ensures digits { MatchOption result ((size slots : ℕ) → HasSize size slots text.now → ⊥) (λ p. HasSize p.0 p.1 text.now) }
    ensures full { (size slots : ℕ) → size < 2 ^ 64 → slots < 2 ^ 64 → text.now ≡ decimal size ++ 47 ∷ decimal slots → result ≡ Some (size, slots) }
{
    let (size, slots) = text.split_once('/')?;
    whole(size).zip(whole(slots))
}
