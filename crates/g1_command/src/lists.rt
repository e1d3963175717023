//! The regions of `--set` and `--young`: numbers, and lists of numbers and of ranges, as 1,2,5-9.
ghost use Rattle.std.specs.Prelude.{◌≡◌, ◌≤◌, ◌<◌, ℕ, List, [], ◌∷◌, ◌++◌, drop, map, true, IsErr, IfOk, IfErr, OnOk};
ghost use Rattle.std.specs.Bool.{MatchBool};
ghost use Rattle.g1_words.specs.Lists.{has};
ghost use Rattle.g1_command.specs.Values.{IsBelow, Because};
ghost use Rattle.g1_command.specs.Tied.{AddsTied, AreTied, first_word, is_list, is_list_byte};
ghost use Rattle.g1_command.specs.Lists.{IsRegionOfImage, AreRegionsIn, AddsParts, AddNone, AddsRegions, HasTwice, IsNamed, parts_of, rising};

use crate::table::Argument;
use crate::values::{Misuse, region_in};
use g1_words::Marks;
use std::alloc::{AllocError, Global};

const OPTION: &str = "--set";

/// Ties each value of `--set` among the words to it: clap would take files that follow for regions. A word
/// behind `--set` or behind such a value is one if it is made of digits, commas and dashes, and a digit is
/// first.
pub fn tie(alloc: Global, words: &[String]) -> Result<Vec<String>, AllocError>
    ensures { IfOk result (λ tied. AreTied (map (λ w. w.bytes.items) words.now) (map (λ w. w.bytes.items) tied.items)) }
{
    let mut tied = Vec::new(alloc);
    let mut follows = Follows::Word;
    for (place, word) in words.iter().enumerate() {
        let next = word_at(words, place + 1);
        follows = tie_word(alloc, &mut tied, follows, word.as_str(), next)?;
    }
    Ok(tied)
}

// The word at a place, or an empty one behind the last.
fn word_at(words: &[String], place: usize) -> &str
    ensures { result.now ≡ first_word (drop place (map (λ w. w.bytes.items) words.now)) }
{
    match words.get(place) {
        Some(word) => word.as_str(),
        None => "",
    }
}

// What a word may be.
#[derive(Clone, Copy)]
enum Follows {
    Word,
    /// A value of `--set`, or any other word.
    Region,
    /// A file, whatever it looks like: `--` was read.
    File,
}

// Adds what becomes of a word, and returns what the next one may be.
fn tie_word(
    alloc: Global,
    tied: &mut Vec<String>,
    follows: Follows,
    word: &str,
    next: &str,
) -> Result<Follows, AllocError>
    ensures { IfOk result (λ then. AddsTied follows word.now next.now then (map (λ w. w.bytes.items) tied.old.items) (map (λ w. w.bytes.items) tied.new.items)) }
{
    match follows {
        Follows::File => keep_word(alloc, tied, word, Follows::File),
        Follows::Word => tie_other(alloc, tied, word, next),
        Follows::Region => {
            if !is_list(word) {
                return tie_other(alloc, tied, word, next);
            }
            tied.push(format!(in alloc; "{OPTION}={word}")?)?;
            Ok(Follows::Region)
        }
    }
}

// Adds what becomes of a word that is no value.
fn tie_other(
    alloc: Global,
    tied: &mut Vec<String>,
    word: &str,
    next: &str,
) -> Result<Follows, AllocError>
    ensures { IfOk result (λ then. AddsTied Follows.Word word.now next.now then (map (λ w. w.bytes.items) tied.old.items) (map (λ w. w.bytes.items) tied.new.items)) }
{
    if word == "--" {
        return keep_word(alloc, tied, word, Follows::File);
    }
    if (word == OPTION) & is_list(next) {
        return Ok(Follows::Region);
    }
    keep_word(alloc, tied, word, Follows::Word)
}

// Adds a word as it is.
fn keep_word(
    alloc: Global,
    tied: &mut Vec<String>,
    word: &str,
    then: Follows,
) -> Result<Follows, AllocError>
    ensures then { IfOk result (λ follows. follows ≡ then) }
    ensures added { OnOk result (map (λ w. w.bytes.items) tied.new.items ≡ map (λ w. w.bytes.items) tied.old.items ++ word.now ∷ []) }
{
    tied.push(String::from_str(alloc, word)?)?;
    Ok(then)
}

fn is_list(word: &str) -> bool
    ensures { result ≡ is_list word.now }
{
    let bytes = word.as_bytes();
    for byte in bytes {
        if !is_list_byte(*byte) {
            return false;
        }
    }
    match bytes.first() {
        Some(first) => first.is_ascii_digit(),
        None => false,
    }
}

fn is_list_byte(byte: u8) -> bool
    ensures { result ≡ is_list_byte byte }
{
    byte.is_ascii_digit() || byte == b',' || byte == b'-'
}

/// The regions that these lists name, in their order. Each is one that an image may have, and none is there twice; but they
/// need not be those of an image.
pub fn regions_in(alloc: Global, argument: &Argument, lists: &[&str]) -> Result<Vec<u32>, Misuse>
    ensures regions { IfOk result (λ v. AreRegionsIn (map (λ s. s.now) lists.now) v.items) }
    ensures refused { IfErr result (Because ((regions : List ℕ) → AreRegionsIn (map (λ s. s.now) lists.now) regions → ⊥)) }
{
    let mut named = Named {
        regions: Vec::new(alloc),
        seen: Marks::none(alloc, MOST as usize)?,
    };
    for list in lists {
        push_list(alloc, argument, list, &mut named)?;
    }
    let Named { regions, .. } = named;
    Ok(regions)
}

// The regions that were named, as a list and as marks.
#[derive(Drop)]
struct Named {
    regions: Vec<u32>,
    seen: Marks,
}

// No image has more regions.
const MOST: u32 = 4096;

fn push_list(
    alloc: Global,
    argument: &Argument,
    list: &str,
    named: &mut Named,
) -> Result<(), Misuse>
    requires { IsNamed named.old }
    ensures added { OnOk result (AddsParts (parts_of list.now) named.old.regions.items named.new.regions.items) }
    ensures marked { OnOk result (IsNamed named.new) }
    ensures refused { IfErr result (Because (AddNone (parts_of list.now) named.old.regions.items)) }
{
    for part in list.split(',') {
        push_part(alloc, argument, part, named)?;
    }
    Ok(())
}

fn push_part(
    alloc: Global,
    argument: &Argument,
    part: &str,
    named: &mut Named,
) -> Result<(), Misuse>
    requires { IsNamed named.old }
    ensures added { OnOk result (AddsParts (part.now ∷ []) named.old.regions.items named.new.regions.items) }
    ensures marked { OnOk result (IsNamed named.new) }
    ensures refused { IfErr result (Because (AddNone (part.now ∷ []) named.old.regions.items)) }
{
    // A region alone is a range of one.
    let (first, last) = part.split_once('-').unwrap_or((part, part));
    let first = region_of_image(alloc, argument, first)?;
    let last = region_of_image(alloc, argument, last)?;
    if first > last {
        return refuse(alloc, argument, part, "a range rises");
    }
    if !push_range(named, first, last)? {
        return refuse(alloc, argument, part, "a region is given twice");
    }
    Ok(())
}

// Adds the regions of a range, and returns whether none of them was there.
fn push_range(named: &mut Named, first: u32, last: u32) -> Result<bool, AllocError>
    requires named { IsNamed named.old }
    requires rises { first ≤ last }
    requires low { last < 4096 }
    ensures { IfOk result (λ is_new. MatchBool is_new (AddsRegions (rising first last) named.old named.new) (HasTwice (named.old.regions.items ++ rising first last))) }
{
    for region in first..=last {
        if !push_region(named, region)? {
            return Ok(false);
        }
    }
    Ok(true)
}

// A region that an image may have.
fn region_of_image(alloc: Global, argument: &Argument, text: &str) -> Result<u32, Misuse>
    ensures region { IfOk result (λ r. IsRegionOfImage r text.now) }
    ensures refused { IfErr result (Because (IsBelow 4096 text.now → ⊥)) }
{
    let region = region_in(alloc, argument, text)?;
    if region < MOST {
        Ok(region)
    } else {
        Err(argument.refuse(alloc, text)?)
    }
}

// Adds a region, and returns whether it was not there.
fn push_region(named: &mut Named, region: u32) -> Result<bool, AllocError>
    requires named { IsNamed named.old }
    requires low { region < 4096 }
    ensures { IfOk result (λ is_new. MatchBool is_new (AddsRegions (region ∷ []) named.old named.new) (has named.old.regions.items region ≡ true)) }
{
    let at = region as usize;
    if at >= named.seen.len() || named.seen.is_set(at) {
        return Ok(false);
    }
    named.seen.set(at);
    named.regions.push(region)?;
    Ok(true)
}

fn refuse(alloc: Global, argument: &Argument, part: &str, why: &str) -> Result<(), Misuse>
    ensures { IsErr result }
{
    let shown = argument.shown(alloc)?;
    Err(Misuse::Value(format!(in alloc; "invalid value '{part}' for '{shown}': {why}")?))
}
