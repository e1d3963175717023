//! The words of objects by name, once each object has an address.
ghost use Rattle.std.specs.Prelude.{◌≡◌, ◌<◌, ◌≤◌, ◌+◌, ◌^◌, ◌++◌, ◌∷◌, [], ℕ, Option, List, length, map, flat_map, drop, All, IfOk, IfErr, OnOk};
ghost use Rattle.std.specs.List.{AllZip};
ghost use Rattle.g1_text.specs.Reading.{words_in};
ghost use Rattle.g1_text.specs.Graphs.{NamedObject, NamedGraph, IsTargetName, Shortens, size_of, target_word};
ghost use Rattle.g1_text.specs.ByName.{IsEntryOf, read_holder};
ghost use Rattle.g1_text.specs.Content.{Content};
ghost use Rattle.g1_text.specs.Drafts.{content};
ghost use Rattle.g1_text.specs.Carried.{reference_for, word_for, root_value, root_targets, stale_at, stale_from, stale_slots, named_at};
ghost use Rattle.g1_text.specs.Laid.{IsAddress};
ghost use Rattle.g1_text.specs.Filled.{AreLocated, AreWordsOf, IsNoted, located, object_of};
ghost use Rattle.g1_text.specs.Refused.{IsLineOrMemory};

use crate::draft::Draft;
use crate::expected::{Expected, Refusal, Wrong};
use crate::named::Lines;
use crate::placing::{Entry, Places};
use crate::reading::{add_data, add_zeros, given_words};
use crate::words::{Words, cut_words};
use g1_words::header_word;
use std::alloc::{AllocError, Global};

/// Names that no object has, each with a number that tells where it stands, and what is expected in the first of their lines.
#[derive(Drop)]
pub(crate) struct Stale<'a> {
    pub(crate) names: Vec<(u64, &'a str)>,
    pub(crate) first: Option<(u64, Expected)>,
}

impl<'a> Stale<'a> {
    pub(crate) fn new(alloc: Global) -> Stale<'a>
        ensures { result.names.items ≡ [] }
    {
        Stale {
            names: Vec::new(alloc),
            first: None,
        }
    }

    /// Keeps a name, and what is expected in the first of the lines.
    pub(crate) fn add(
        &mut self,
        number: u64,
        name: &'a str,
        line: u64,
        expected: Expected,
    ) -> Result<(), AllocError>
        ensures names { OnOk result (map read_holder self.new.names.items ≡ map read_holder self.old.names.items ++ (number, name.now) ∷ []) }
        ensures noted { OnOk result (IsNoted self.new) }
    {
        self.names.push((number, name))?;
        match self.first {
            Some((first, _)) if first <= line => (),
            _ => self.first = Some((line, expected)),
        }
        Ok(())
    }
}

/// The words of the roots.
pub(crate) fn fill_roots<'a>(
    roots: &mut Vec<u64>,
    stale: &mut Stale<'a>,
    lines: &Lines<'a>,
    addresses: &[u64],
) -> Result<(), AllocError>
    ensures words { (g : NamedGraph) → AreLocated lines.now g addresses.now → OnOk result (roots.new.items ≡ roots.old.items ++ map (root_value g addresses.now) g.roots) }
    ensures stale { (g : NamedGraph) → AreLocated lines.now g addresses.now → OnOk result (map read_holder stale.new.names.items ≡ map read_holder stale.old.names.items ++ stale_from g 0 (root_targets g)) }
    ensures noted { IsNoted stale.old → OnOk result (IsNoted stale.new) }
{
    for (number, (line, name)) in lines.roots.iter().enumerate() {
        let word = lines.word(
            addresses,
            stale,
            number as u64,
            *name,
            *line,
            Expected::NamedRoot,
        )?;
        roots.push(word)?;
    }
    Ok(())
}

/// The address and the name of each object, in the order of their addresses.
pub(crate) fn name_objects<'a>(
    alloc: Global,
    names: &[&'a str],
    places: &Places,
) -> Result<Vec<(u64, &'a str)>, AllocError>
    ensures { (g : NamedGraph) → map (λ t. t.now) names.now ≡ map (λ o. o.name) g.objects → length places.now.addresses.items ≡ length g.objects → All (λ k. k < length g.objects) places.now.order.items → IfOk result (λ v. map read_holder v.items ≡ map named_at (located g places.now.addresses.items places.now.order.items)) }
{
    let mut named = Vec::with_capacity(alloc, names.len())?;
    for place in &places.order {
        let place = *place as usize;
        if place >= names.len().min(places.addresses.len()) {
            continue;
        }
        named.push((places.addresses[place], names[place]))?;
    }
    Ok(named)
}

/// The words of the objects, in the order of their addresses.
pub(crate) fn fill_objects<'a>(
    alloc: Global,
    stale: &mut Stale<'a>,
    draft: &mut Draft,
    lines: &Lines<'a>,
    places: &Places,
) -> Result<(), Wrong>
    ensures fault { IfErr result IsLineOrMemory }
    ensures words { (g : NamedGraph) → AreLocated lines.now g places.now.addresses.items → All (λ k. k < length g.objects) places.now.order.items → OnOk result ((wordss : List (List ℕ)) × AllZip (λ o words. AreWordsOf g places.now.addresses.items o.0 words) (located g places.now.addresses.items places.now.order.items) wordss × (content draft.new ≡ record (content draft.old) { words = (content draft.old).words ++ flat_map (λ words. words) wordss })) }
    ensures stale { (g : NamedGraph) → AreLocated lines.now g places.now.addresses.items → All (λ k. k < length g.objects) places.now.order.items → OnOk result (map read_holder stale.new.names.items ≡ map read_holder stale.old.names.items ++ flat_map (stale_slots g) (located g places.now.addresses.items places.now.order.items)) }
    ensures noted { IsNoted stale.old → OnOk result (IsNoted stale.new) }
{
    let mut words = Vec::new(alloc);
    for place in &places.order {
        let place = *place as usize;
        let count = lines.entries.len().min(places.addresses.len());
        if place >= count {
            continue;
        }
        let entry = &lines.entries[place];
        let at = places.addresses[place];
        let addresses = places.addresses.as_slice();
        if let Err(refusal) = fill_object(stale, draft, lines, addresses, entry, at, &mut words) {
            return Err(refusal.at(entry.number));
        }
    }
    Ok(())
}

fn fill_object<'a>(
    stale: &mut Stale<'a>,
    draft: &mut Draft,
    lines: &Lines<'a>,
    addresses: &[u64],
    entry: &Entry<'a>,
    at: u64,
    words: &mut Vec<&'a str>,
) -> Result<(), Refusal>
    ensures words { (g : NamedGraph) (o : NamedObject) → AreLocated lines.now g addresses.now → IsEntryOf entry.now o → IsAddress at → OnOk result ((words : List ℕ) × AreWordsOf g addresses.now o words × (content draft.new ≡ record (content draft.old) { words = (content draft.old).words ++ words })) }
    ensures stale { (g : NamedGraph) (o : NamedObject) → AreLocated lines.now g addresses.now → IsEntryOf entry.now o → IsAddress at → OnOk result (map read_holder stale.new.names.items ≡ map read_holder stale.old.names.items ++ stale_from g (at + 1) o.slots) }
    ensures noted { IsNoted stale.old → OnOk result (IsNoted stale.new) }
{
    cut_words(words, entry.line)?;
    let whole = words.as_slice();
    let (_, content) = whole.split_at(whole.len().min(3));
    fill_words(
        &mut draft.words,
        stale,
        lines,
        addresses,
        entry,
        at,
        content,
    )
}

// The words of an object, from those of its line, which was read in full before.
fn fill_words<'a>(
    out: &mut Vec<u64>,
    stale: &mut Stale<'a>,
    lines: &Lines<'a>,
    addresses: &[u64],
    entry: &Entry<'a>,
    at: u64,
    content: &[&'a str],
) -> Result<(), Refusal>
    ensures words { (g : NamedGraph) (o : NamedObject) → AreLocated lines.now g addresses.now → IsEntryOf entry.now o → map (λ t. t.now) content.now ≡ drop 3 (words_in entry.now.line.now) → OnOk result ((words : List ℕ) × AreWordsOf g addresses.now o words × (out.new.items ≡ out.old.items ++ words)) }
    ensures stale { (g : NamedGraph) (o : NamedObject) → AreLocated lines.now g addresses.now → IsEntryOf entry.now o → IsAddress at → map (λ t. t.now) content.now ≡ drop 3 (words_in entry.now.line.now) → OnOk result (map read_holder stale.new.names.items ≡ map read_holder stale.old.names.items ++ stale_from g (at + 1) o.slots) }
    ensures noted { IsNoted stale.old → OnOk result (IsNoted stale.new) }
{
    let size = u64::from(entry.size);
    let slots = u64::from(entry.slots);
    let data = size.saturating_sub(slots).saturating_sub(1);
    let (given, missing) = given_words(&mut Words::new(&*content), slots, data)?;
    let named = slots.min(given);
    let (names, numbers) = content.split_at(content.len().min(named as usize));
    out.push(header_word(size, slots))?;
    fill_slots(out, stale, lines, addresses, entry, at, names)?;
    add_data(&mut Words::new(&*numbers), out, given.saturating_sub(named))?;
    add_zeros(out, missing)?;
    Ok(())
}

// The words of the slots for which a line has names, of the object at this address.
fn fill_slots<'a>(
    out: &mut Vec<u64>,
    stale: &mut Stale<'a>,
    lines: &Lines<'a>,
    addresses: &[u64],
    entry: &Entry<'a>,
    at: u64,
    names: &[&'a str],
) -> Result<(), AllocError>
    ensures words { (g : NamedGraph) (targets : List (Option (List ℕ))) → AreLocated lines.now g addresses.now → All IsTargetName targets → map (λ t. t.now) names.now ≡ map target_word targets → OnOk result (out.new.items ≡ out.old.items ++ map (word_for g addresses.now) targets) }
    ensures stale { (g : NamedGraph) (targets : List (Option (List ℕ))) → AreLocated lines.now g addresses.now → All IsTargetName targets → map (λ t. t.now) names.now ≡ map target_word targets → IsAddress at → length names.now < 2 ^ 32 → OnOk result (map read_holder stale.new.names.items ≡ map read_holder stale.old.names.items ++ stale_from g (at + 1) targets) }
    ensures noted { IsNoted stale.old → OnOk result (IsNoted stale.new) }
{
    for (slot, name) in names.iter().enumerate() {
        let slot = slot as u64;
        let number = at.saturating_add(1).saturating_add(slot);
        let word = lines.word(
            addresses,
            stale,
            number,
            *name,
            entry.number,
            Expected::NamedSlot(slot),
        )?;
        out.push(word)?;
    }
    Ok(())
}
