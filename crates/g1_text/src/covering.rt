ghost use Rattle.std.specs.Prelude.{◌≡◌, ◌⊎◌, ◌≤◌, ◌<◌, ◌+◌, ◌-◌, ◌*◌, ◌/◌, ◌%◌, ◌^◌, ◌∷◌, ◌++◌, ℕ, List, [], Ok, length, map, flat_map, slice_index, slice_index_or, All, IfErr, OnOk, MatchResult};
ghost use Rattle.std.specs.List.{range_with_len};
ghost use Rattle.g1_words.specs.Heap.{Heap as HeapOf, region as region_in, objects_in, slots};
ghost use Rattle.g1_words.specs.Valid.{IsValid, Tiles};
ghost use Rattle.g1_image.specs.Image.{Image as ImageOf, used_words};
ghost use Rattle.g1_rem.specs.Marks.{objects_from};
ghost use Rattle.g1_text.specs.Covered.{IsCoveredContentOf, AreCoverOf, LeadEach, HasWords, IsAdded, IsLastNow};
ghost use Rattle.g1_text.specs.Drafts.{content, numbers};
ghost use Rattle.g1_text.specs.Late.{IsBeside, NoneRemembered};
ghost use Rattle.g1_text.specs.Refused.{IsLineOrMemory};

use crate::draft::{Draft, start_of};
use crate::expected::{Expected, Wrong};
use crate::making::set_line;
use g1_words::{Fault, Geometry, Kind, Region, card_of, region_of};
use std::alloc::AllocError;

/// Gives each region the cards of other regions that hold a slot which leads into it.
pub(crate) fn cover(draft: &mut Draft) -> Result<(), Wrong>
    ensures fault { IfErr result IsLineOrMemory }
    ensures kept { content draft.new ≡ record (content draft.old) { remembered = (content draft.new).remembered } }
    ensures lines { numbers draft.new ≡ numbers draft.old }
    ensures alone { OnOk result (NoneRemembered (content draft.old)) }
    ensures beside { IfErr result (IsBeside (numbers draft.old) (content draft.old)) }
    ensures exact { OnOk result (AreCoverOf (content draft.old) (content draft.new).remembered) }
    ensures sets { (i : ImageOf) → IsCoveredContentOf (content draft.old) i → MatchResult result (λ _. content draft.new ≡ record (content draft.old) { remembered = i.remembered }) (λ e. e ≡ Wrong.Fault Fault.Memory) }
{
    check_empty(draft)?;
    cover_regions(
        &mut draft.remembered,
        draft.geometry,
        draft.regions.as_slice(),
        draft.words.as_slice(),
    )?;
    Ok(())
}

// No line tells cards beside 'covered'.
fn check_empty(draft: &Draft) -> Result<(), Wrong>
    ensures fault { IfErr result IsLineOrMemory }
    ensures none { All (λ s. s.items ≡ []) draft.now.remembered.items → result ≡ Ok tt }
    ensures alone { OnOk result (All (λ s. s.items ≡ []) draft.now.remembered.items) }
    ensures beside { IfErr result (IsBeside (numbers draft.now) (content draft.now)) }
{
    for (region, set) in draft.remembered.iter().enumerate() {
        if !set.is_empty() {
            return Err(Wrong::Line {
                number: set_line(draft, region as u64),
                expected: Expected::NoCards,
            });
        }
    }
    Ok(())
}

// Takes the slots of all objects, by rising address.
fn cover_regions(
    remembered: &mut Vec<Vec<u32>>,
    geometry: Geometry,
    regions: &[Region],
    words: &[u64],
) -> Result<(), AllocError>
    ensures { (i : ImageOf) → geometry ≡ i.heap.geometry → regions.now ≡ i.heap.regions → words.now ≡ used_words i.heap.geometry.w i.heap.regions i.heap.words → LeadEach i (flat_map slots (objects_from i.heap 0)) (map (λ s. s.items) remembered.old.items) → OnOk result (LeadEach i [] (map (λ s. s.items) remembered.new.items)) }
{
    let mut unused = 0u64;
    for (number, region) in regions.iter().enumerate() {
        cover_region(remembered, geometry, number, *region, words, unused)?;
        unused = unused.saturating_add(unused_words(geometry, *region));
    }
    Ok(())
}

fn unused_words(geometry: Geometry, region: Region) -> u64
    ensures { result ≡ geometry.w - region.top }
{
    geometry
        .region_words()
        .saturating_sub(u64::from(region.top))
}

// Takes the slots of the objects that start in a region.
fn cover_region(
    remembered: &mut Vec<Vec<u32>>,
    geometry: Geometry,
    number: usize,
    region: Region,
    words: &[u64],
    unused: u64,
) -> Result<(), AllocError>
    ensures { (i : ImageOf) → geometry ≡ i.heap.geometry → number < i.heap.geometry.n → region ≡ region_in i.heap number → HasWords i.heap number words.now unused → LeadEach i (flat_map slots (objects_from i.heap number)) (map (λ s. s.items) remembered.old.items) → OnOk result (LeadEach i (flat_map slots (objects_from i.heap (number + 1))) (map (λ s. s.items) remembered.new.items)) }
{
    let start = start_of(geometry, number);
    let end = objects_end(words, unused, region, start);
    let mut at = start;
    while at < end {
        let (size, slots) = header_at(words, unused, at);
        let first = at.saturating_add(1);
        cover_slots(remembered, geometry, words, unused, first, slots)?;
        at = at.saturating_add(size);
    }
    Ok(())
}

// The address behind the objects that start in a region.
fn objects_end(words: &[u64], unused: u64, region: Region, start: u64) -> u64
    ensures { (h : HeapOf) (r : ℕ) → IsValid h → r < h.geometry.n → region ≡ region_in h r → start ≡ r * h.geometry.w → HasWords h r words.now unused → Tiles h.words start (objects_in h r) result }
{
    match region.kind {
        Kind::Ordinary => start.saturating_add(u64::from(region.top)),
        Kind::HumongousFirst => start.saturating_add(header_at(words, unused, start).0),
        Kind::Free | Kind::Continuation => start,
    }
}

// The size of the object at an address, at least one word, and how many slots it has.
fn header_at(words: &[u64], unused: u64, address: u64) -> (u64, u64)
    ensures some { 0 < result.0 }
    ensures size { 0 < slice_index words.now (address - unused) / 2 ^ 32 → result.0 ≡ slice_index words.now (address - unused) / 2 ^ 32 }
    ensures slots { result.1 ≡ slice_index words.now (address - unused) % 2 ^ 32 }
{
    let word = word_at(words, unused, address);
    let size = word / SIZE_PART;
    (if size == 0 { 1 } else { size }, word % SIZE_PART)
}

// A header is the object's size times this, plus how many slots it has.
const SIZE_PART: u64 = 4_294_967_296;

// The word at an address, below which so many words are not used.
fn word_at(words: &[u64], unused: u64, address: u64) -> u64
    ensures { result ≡ slice_index words.now (address - unused) }
{
    match words.get(address.saturating_sub(unused) as usize) {
        Some(word) => *word,
        None => 0,
    }
}

// Takes so many slots from an address on.
fn cover_slots(
    remembered: &mut Vec<Vec<u32>>,
    geometry: Geometry,
    words: &[u64],
    unused: u64,
    first: u64,
    count: u64,
) -> Result<(), AllocError>
    ensures { (i : ImageOf) (rest : List ℕ) → geometry ≡ i.heap.geometry → first + count < 2 ^ 64 → ((p : ℕ) → first ≤ p → p < first + count → slice_index words.now (p - unused) ≡ slice_index i.heap.words p) → LeadEach i (range_with_len first count ++ rest) (map (λ s. s.items) remembered.old.items) → OnOk result (LeadEach i rest (map (λ s. s.items) remembered.new.items)) }
{
    for slot in first..first.saturating_add(count) {
        let word = word_at(words, unused, slot);
        cover_slot(remembered, geometry, slot, word)?;
    }
    Ok(())
}

// Takes a slot: if it leads into another region, that region remembers the slot's card.
fn cover_slot(
    remembered: &mut Vec<Vec<u32>>,
    geometry: Geometry,
    slot: u64,
    word: u64,
) -> Result<(), AllocError>
    ensures { (i : ImageOf) (rest : List ℕ) → geometry ≡ i.heap.geometry → word ≡ slice_index i.heap.words slot → LeadEach i (slot ∷ rest) (map (λ s. s.items) remembered.old.items) → OnOk result (LeadEach i rest (map (λ s. s.items) remembered.new.items)) }
{
    let Some(target) = word.checked_sub(1) else {
        return Ok(());
    };
    let region = region_of(&geometry, target);
    if region != region_of(&geometry, slot) {
        add_card(remembered, region, card_of(&geometry, slot))?;
    }
    Ok(())
}

// Slots come by rising address, so the card of a slot is new in a set where it is not the last one.
fn add_card(remembered: &mut Vec<Vec<u32>>, region: u64, card: u64) -> Result<(), AllocError>
    ensures { region < length remembered.old.items → card < 2 ^ 32 → OnOk result (IsAdded (map (λ s. s.items) remembered.old.items) region card (map (λ s. s.items) remembered.new.items)) }
{
    let Ok(card) = u32::try_from(card) else {
        return Ok(());
    };
    let Some(set) = remembered.get_mut(region as usize) else {
        return Ok(());
    };
    push_new(set, card)
}

fn push_new(set: &mut Vec<u32>, card: u32) -> Result<(), AllocError>
    ensures { OnOk result (IsLastNow set.old.items card set.new.items) }
{
    match set.last() {
        Some(last) if *last == card => Ok(()),
        _ => {
            set.push(card)?;
            Ok(())
        }
    }
}
