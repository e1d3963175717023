//! Humongous objects: what keeps each, and which are freed.
ghost use Rattle.std.specs.Prelude.{◌≡◌, ◌↔◌, ◌==◌, ◌++◌, ◌∷◌, ◌-◌, ℕ, List, [], map, flat_map, length, decimal, slice_index_or, string_bytes, if◌then◌else◌, false, IsTrue, IfOk, OnOk};
ghost use Rattle.std.specs.List.{range_with_len, list_any};
ghost use Rattle.g1_words.specs.Heap.{regions, word, is_first};
ghost use Rattle.g1_words.specs.Lists.{has};
ghost use Rattle.g1_image.specs.Cards.{refined as refined_of, IsTracked};
ghost use Rattle.g1_text.specs.Lines.{further, text_of};
ghost use Rattle.g1_explain.specs.declared.finder.Finder.TheVariants.{Card};
ghost use Rattle.g1_explain.specs.declared.humongous.Keeper.TheVariants.{NoObject as NoKeeper, Nothing as NoReference};
ghost use Rattle.g1_explain.specs.Finders.{lead, root_leads, found_leads};
ghost use Rattle.g1_explain.specs.Humongous.{run, run_end, kept_line, freed_line, fate_lines, humongous_lines};
ghost use Rattle.g1_explain.specs.Keepers.{AreKept, leads_in, leads_at, leads_on, leads_by_cards, all_leads, first_keeper, is_nothing, kept_by, is_apart, keepers_of};
ghost use Rattle.g1_explain.specs.Searched.{AreObjects, slots_leads};

use crate::finder::{Finder, push_found};
use crate::objects::slots_at;
use crate::walkable::Walkable;
use g1_words::{Heap, Marks, region_of};
use std::alloc::{AllocError, Global};

/// What keeps the humongous object that begins in a region.
#[derive(Clone, Copy)]
pub(crate) enum Keeper {
    /// None begins there.
    NoObject,
    /// Nothing that was looked at references it.
    Nothing,
    /// The first reference to it.
    By(Finder),
}

impl Keeper {
    fn is_nothing(self) -> bool
        ensures value { result ≡ is_nothing self }
        ensures fact { IsTrue result ↔ (self ≡ Keeper.Nothing) }
    {
        matches!(self, Keeper::Nothing)
    }
}

/// By region number, what first references the humongous object that begins there: a root, else a slot
/// outside the set and outside the object on the cards of its refined set, else a survivor's slot.
pub(crate) fn keepers(
    alloc: Global,
    walkable: &Walkable<'_>,
    refined: &[Vec<u32>],
    set: &Marks,
    survivors: &[u64],
) -> Result<Vec<Keeper>, AllocError>
    ensures { (chosen : List ℕ) → IsTracked walkable.now → map (λ s. s.items) refined.now ≡ map (refined_of walkable.now) (regions walkable.now.heap) → ((r : ℕ) → slice_index_or set.now r false ≡ has chosen r) → AreObjects walkable.now.heap survivors.now → IfOk result (λ v. v.items ≡ keepers_of walkable.now.heap chosen survivors.now) }
{
    let mut keepers = no_keepers(alloc, walkable.heap())?;
    keep_each(alloc, walkable, refined, set, survivors, &mut keepers);
    Ok(keepers)
}

// Each object is kept by the first reference to it.
fn keep_each(
    alloc: Global,
    walkable: &Walkable<'_>,
    refined: &[Vec<u32>],
    set: &Marks,
    survivors: &[u64],
    keepers: &mut [Keeper],
)
    ensures { AreObjects walkable.now.heap survivors.now → AreKept (all_leads walkable.now.heap set.now (map (λ s. s.items) refined.now) survivors.now) keepers.old keepers.new }
{
    let heap = walkable.heap();
    keep_by_roots(heap, keepers);
    keep_by_cards(alloc, walkable, refined, set, keepers);
    if is_any_left(keepers) {
        keep_by_survivors(heap, survivors, keepers);
    }
}

// Whether nothing keeps one of the objects.
fn is_any_left(keepers: &[Keeper]) -> bool
    ensures { result ≡ list_any is_nothing keepers.now }
{
    keepers.iter().any(|keeper| keeper.is_nothing())
}

// The regions in which a humongous object begins, before a reference to one was found.
fn no_keepers(alloc: Global, heap: &Heap) -> Result<Vec<Keeper>, AllocError>
    ensures { IfOk result (λ v. v.items ≡ map (λ q. if is_first q.kind then NoReference else NoKeeper) heap.now.regions) }
{
    let mut keepers = Vec::with_capacity(alloc, heap.regions().len())?;
    for region in heap.regions() {
        keepers.push(if region.kind.is_humongous_first() {
            Keeper::Nothing
        } else {
            Keeper::NoObject
        })?;
    }
    Ok(keepers)
}

// A reference word keeps the humongous object that it references, if none before it does.
fn keep(heap: &Heap, keepers: &mut [Keeper], word: u64, finder: Finder)
    ensures { AreKept (leads_in heap.now (lead finder word)) keepers.old keepers.new }
{
    if let Some(target) = word.checked_sub(1) {
        let region = region_of(&heap.geometry(), target) as usize;
        if region < keepers.len() && keepers[region].is_nothing() {
            keepers[region] = Keeper::By(finder);
        }
    }
}

fn keep_by_roots(heap: &Heap, keepers: &mut [Keeper])
    ensures { AreKept (leads_in heap.now (root_leads heap.now)) keepers.old keepers.new }
{
    let roots = heap.roots();
    for (number, word) in roots.iter().enumerate() {
        keep(heap, keepers, *word, Finder::Root { number });
    }
}

fn keep_by_cards(
    alloc: Global,
    walkable: &Walkable<'_>,
    refined: &[Vec<u32>],
    set: &Marks,
    keepers: &mut [Keeper],
)
    ensures { AreKept (leads_by_cards walkable.now.heap set.now (map (λ s. s.items) refined.now)) keepers.old keepers.new }
{
    for region in 0..walkable.heap().geometry().regions() as u32 {
        let cards = cards_of(refined, region);
        keep_by_slots_on(alloc, walkable, set, region, cards, keepers);
    }
}

// The cards of a region; none if it is past the last one.
fn cards_of(refined: &[Vec<u32>], region: u32) -> &[u32]
    ensures { result.now ≡ slice_index_or (map (λ s. s.items) refined.now) region [] }
{
    match refined.get(region as usize) {
        Some(cards) => cards.as_slice(),
        None => &[],
    }
}

// The slots on these cards keep the humongous object of a region, if nothing does.
fn keep_by_slots_on(
    alloc: Global,
    walkable: &Walkable<'_>,
    set: &Marks,
    region: u32,
    cards: &[u32],
    keepers: &mut [Keeper],
)
    ensures { AreKept (λ r. if r == region then leads_on walkable.now.heap set.now region cards.now else []) keepers.old keepers.new }
{
    let number = region as usize;
    if number < keepers.len() && keepers[number].is_nothing() {
        if let Some(finder) = card_keeper(alloc, walkable, set, region, cards) {
            keepers[number] = Keeper::By(finder);
        }
    }
}

/// The first slot on these cards, outside the set and outside the object, that references the humongous
/// object of a region.
pub(crate) fn card_keeper(
    alloc: Global,
    walkable: &Walkable<'_>,
    set: &Marks,
    region: u32,
    cards: &[u32],
) -> Option<Finder>
    ensures { kept_by result ≡ first_keeper (leads_on walkable.now.heap set.now region cards.now) }
{
    for card in cards {
        if is_apart(walkable.heap(), set, region, *card) {
            let slots = walkable.slots_on(alloc, *card);
            if let Some(finder) = slot_to(walkable.heap(), *card, slots.as_slice(), region) {
                return Some(finder);
            }
        }
    }
    None
}

// Whether a card lies outside the set, and outside the humongous object of a region.
fn is_apart(heap: &Heap, set: &Marks, region: u32, card: u32) -> bool
    ensures { result ≡ is_apart heap.now set.now region card }
{
    let home = heap.geometry().region_of_card(card);
    !is_own(heap, region, home) && !set.has(home as usize)
}

// Whether a part of the humongous object of a region lies in another one.
fn is_own(heap: &Heap, region: u32, home: u64) -> bool
    ensures { result ≡ has (run heap.now region) home }
{
    u64::from(region) <= home && home < run_end(heap, region)
}

// The number behind the last region of the humongous object that begins in a region.
fn run_end(heap: &Heap, region: u32) -> u64
    ensures { result ≡ run_end heap.now region }
{
    let geometry = heap.geometry();
    let size = heap.words().header(geometry.start(region)).size;
    u64::from(region).saturating_add(geometry.regions_for(size))
}

// The first of these slots of a card that references the humongous object of a region.
fn slot_to(heap: &Heap, card: u32, slots: &[u64], region: u32) -> Option<Finder>
    ensures { kept_by result ≡ first_keeper (leads_at heap.now (flat_map (λ p. lead (Card card p) (word heap.now p)) slots.now) region) }
{
    let at = heap.geometry().start(region);
    for slot in slots {
        if heap.words().at(*slot).checked_sub(1) == Some(at) {
            return Some(Finder::Card { card, slot: *slot });
        }
    }
    None
}

fn keep_by_survivors(heap: &Heap, survivors: &[u64], keepers: &mut [Keeper])
    ensures { AreObjects heap.now survivors.now → AreKept (leads_in heap.now (found_leads heap.now survivors.now (length survivors.now))) keepers.old keepers.new }
{
    for (index, at) in survivors.iter().enumerate() {
        keep_by_slots(heap, index, *at, slots_at(heap, *at), keepers);
    }
}

fn keep_by_slots(heap: &Heap, index: usize, at: u64, slots: &[u64], keepers: &mut [Keeper])
    ensures { AreKept (leads_in heap.now (slots_leads index at slots.now)) keepers.old keepers.new }
{
    for (slot, word) in slots.iter().enumerate() {
        keep(heap, keepers, *word, Finder::Object { index, at, slot });
    }
}

/// Adds a line for each humongous object: what keeps it, or the regions that are freed with it.
pub(crate) fn push_humongous(
    text: &mut String,
    heap: &Heap,
    keepers: &[Keeper],
) -> Result<(), AllocError>
    ensures { OnOk result (string_bytes text.new ≡ string_bytes text.old ++ text_of (humongous_lines heap.now keepers.now)) }
{
    push_fates(text, heap, heap.geometry().regions() as u32, keepers)
}

// The lines of the objects that begin in the first regions.
fn push_fates(
    text: &mut String,
    heap: &Heap,
    count: u32,
    keepers: &[Keeper],
) -> Result<(), AllocError>
    ensures { OnOk result (string_bytes text.new ≡ string_bytes text.old ++ text_of (flat_map (λ r. fate_lines heap.now r (slice_index_or keepers.now r NoKeeper)) (range_with_len 0 count))) }
{
    for region in 0..count {
        let keeper = keeper_of(keepers, region);
        push_fate(text, heap, region, keeper)?;
    }
    Ok(())
}

// What keeps the object that begins in a region.
fn keeper_of(keepers: &[Keeper], region: u32) -> Keeper
    ensures { result ≡ slice_index_or keepers.now region NoKeeper }
{
    match keepers.get(region as usize) {
        Some(keeper) => *keeper,
        None => Keeper::NoObject,
    }
}

// The line of the humongous object of a region, if one begins there.
fn push_fate(text: &mut String, heap: &Heap, region: u32, keeper: Keeper) -> Result<(), AllocError>
    ensures { OnOk result (string_bytes text.new ≡ string_bytes text.old ++ text_of (fate_lines heap.now region keeper)) }
{
    let at = heap.geometry().start(region);
    match keeper {
        Keeper::NoObject => Ok(()),
        Keeper::Nothing => push_freed(text, heap, region, at),
        Keeper::By(finder) => push_kept(text, at, finder),
    }
}

// The line of the object at an address, with what keeps it.
fn push_kept(text: &mut String, at: u64, finder: Finder) -> Result<(), AllocError>
    ensures { OnOk result (string_bytes text.new ≡ string_bytes text.old ++ text_of (kept_line at finder ∷ [])) }
{
    write!(text, "humongous {at} kept")?;
    push_found(text, finder)
}

// The line of the object at an address, with its regions.
fn push_freed(text: &mut String, heap: &Heap, region: u32, at: u64) -> Result<(), AllocError>
    ensures { OnOk result (string_bytes text.new ≡ string_bytes text.old ++ text_of (freed_line heap.now region at ∷ [])) }
{
    write!(text, "humongous {at} freed")?;
    push_range(text, region as u64, run_end(heap, region))
}

// Ends a line with the numbers from the first up to the last.
fn push_range(text: &mut String, first: u64, last: u64) -> Result<(), AllocError>
    ensures { OnOk result (string_bytes text.new ≡ string_bytes text.old ++ further (map decimal (range_with_len first (last - first)))) }
{
    for number in first..last {
        write!(text, " {number}")?;
    }
    text.push_str("\n")
}
