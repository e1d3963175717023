//! What keeps an object.
ghost use Rattle.std.specs.Prelude.{◌≡◌, ◌≤◌, ◌<◌, ◌^◌, ℕ, true, false, suc, List, length, slice_index, string_bytes, Contains, IfSome, IfNone, IfOk, IfErr};
ghost use Rattle.g1_words.specs.Heap.{objects, card_of, kind, region_of, is_first};
ghost use Rattle.g1_words.specs.Live.{Live};
ghost use Rattle.g1_words.specs.Valid.{IsSlotOf};
ghost use Rattle.g1_image.specs.Cards.{exact};
ghost use Rattle.g1_text.specs.Lines.{text_of};
ghost use Rattle.g1_same.specs.Path.{LeadsTo};
ghost use Rattle.g1_explain.specs.declared.finder.Finder.TheVariants.{Card};
ghost use Rattle.g1_explain.specs.declared.paths.Entry.{Entry};
ghost use Rattle.g1_explain.specs.declared.paths.Reason.{Reason};
ghost use Rattle.g1_explain.specs.declared.paths.Reason.TheVariants as reason;
ghost use Rattle.g1_explain.specs.Searched.{AreObjects, IsSearch, IsFoundPath, IsRoute, before, finder_at};
ghost use Rattle.g1_explain.specs.Keeping.{IsReason, IsReasonFault, AreLegs, IsFirst, IsEntry, IsUnrooted, IsReferring, StartsAtSlot, path_of};
ghost use Rattle.g1_explain.specs.Lines.{reason_lines};

use crate::cards::mark_regions;
use crate::finder::Finder;
use crate::finders::finders;
use crate::humongous::card_keeper;
use crate::paths::{Entry, Leg, Reason, push_reason};
use crate::walkable::Walkable;
use g1_frontier::discover;
use g1_image::Image;
use g1_mark::live_objects;
use g1_rem::{Starts, cards_into_region};
use g1_words::{Fault, Heap, region_of};
use g1_work::{Open, Team};
use std::alloc::{AllocError, Global};
use std::thread::Threads;

// One thread searches.
const WORKERS: u64 = 1;

const CHUNK: u64 = 64;

/// What keeps the object at an address, as lines: the shortest path from a root; or the card by which its
/// region's collection would keep it; or that it is garbage.
///
/// # Errors
///
/// `Fault::Uncovered` with the lowest slot that leads into the object's region from another one and isn't
/// covered, if no root leads to the object; `Fault::Memory`.
pub fn why<R: Threads + Sync>(rt: &R, alloc: Global, image: Image, at: u64) -> Result<String, Fault>
    ensures lines { IfOk result (λ s. (r : Reason) × IsReason image at r × (string_bytes s ≡ text_of (reason_lines image at r))) }
    ensures fault { IfErr result (IsReasonFault image at) }
{
    lines_of(rt, alloc, &image, at)
}

fn lines_of<R: Threads + Sync>(
    rt: &R,
    alloc: Global,
    image: &Image,
    at: u64,
) -> Result<String, Fault>
    ensures lines { IfOk result (λ s. (r : Reason) × IsReason image.now at r × (string_bytes s ≡ text_of (reason_lines image.now at r))) }
    ensures fault { IfErr result (IsReasonFault image.now at) }
{
    let reason = reason_of(rt, alloc, image, at)?;
    let mut text = String::new(alloc);
    push_reason(&mut text, image, at, &reason)?;
    Ok(text)
}

// What keeps the object at an address.
fn reason_of<R: Threads + Sync>(
    rt: &R,
    alloc: Global,
    image: &Image,
    at: u64,
) -> Result<Reason, Fault>
    ensures reason { IfOk result (λ r. IsReason image.now at r) }
    ensures fault { IfErr result (IsReasonFault image.now at) }
{
    let starts = Starts::build(alloc, image.heap())?;
    let walkable = Walkable {
        image,
        starts: &starts,
    };
    match live_path(rt, alloc, &walkable, at)? {
        Some(path) => Ok(Reason::Live(path)),
        None => dead_reason(rt, alloc, &walkable, at),
    }
}

// The path from a root to the object, if there is one.
fn live_path<R: Threads + Sync>(
    rt: &R,
    alloc: Global,
    walkable: &Walkable<'_>,
    at: u64,
) -> Result<Option<Vec<Leg>>, Fault>
    ensures some { IfOk result (λ o. IfSome o (λ v. AreLegs walkable.now.heap v.items at × IsFirst (λ p. LeadsTo walkable.now.heap p (suc at)) (path_of v.items))) }
    ensures none { IfOk result (λ o. IfNone o (Live walkable.now.heap at → ⊥)) }
    ensures memory { IfErr result (λ e. e ≡ Fault.Memory) }
{
    let team = Team::new(WORKERS, CHUNK);
    let heap = walkable.heap();
    let live = live_objects(rt, alloc, heap, walkable.starts, team, &Open)?;
    path_to(alloc, walkable, &[], &live, at)
}

// Among those that a search found for these cards: the path to the object at an address, from its first
// object on.
fn path_to(
    alloc: Global,
    walkable: &Walkable<'_>,
    cards: &[u32],
    found: &[u64],
    at: u64,
) -> Result<Option<Vec<Leg>>, Fault>
    requires objects { AreObjects walkable.now.heap found.now }
    requires search { (set : List ℕ) × IsSearch walkable.now.heap set cards.now found.now }
    ensures some { IfOk result (λ o. IfSome o (λ v. IsFoundPath walkable.now.heap cards.now found.now at v.items)) }
    ensures none { IfOk result (λ o. IfNone o (Contains found.now at → ⊥)) }
    ensures memory { IfErr result (λ e. e ≡ Fault.Memory) }
{
    let Some(index) = index_of(found, at) else {
        return Ok(None);
    };
    let finders = finders(alloc, walkable, cards, found, index + 1)?;
    let path = path_back(alloc, walkable.heap(), found, &finders, index)?;
    Ok(Some(path))
}

fn index_of(found: &[u64], at: u64) -> Option<usize>
    ensures some { IfSome result (λ i. (i < length found.now) × (slice_index found.now i ≡ at)) }
    ensures none { IfNone result (Contains found.now at → ⊥) }
{
    for (index, address) in found.iter().enumerate() {
        if *address == at {
            return Some(index);
        }
    }
    None
}

// The legs from that of an object back to the first one, in the order of the path.
fn path_back(
    alloc: Global,
    heap: &Heap,
    found: &[u64],
    finders: &[Finder],
    index: usize,
) -> Result<Vec<Leg>, AllocError>
    requires within { index < length found.now }
    requires found_by { index < length finders.now }
    requires backward { (j : ℕ) → j ≤ index → before (finder_at finders.now j) ≤ j }
    ensures { IfOk result (λ v. IsRoute heap.now found.now finders.now (suc index) v.items) }
{
    let mut path = Vec::new(alloc);
    let mut from = index + 1;
    'legs: while from > 0 {
        let place = from - 1;
        let finder = finders[place];
        let object = heap.words().header(found[place]);
        path.push(Leg { object, finder })?;
        from = before(finder);
    }
    path.reverse();
    Ok(path)
}

// 1 more than the place of the object whose slot this finder is, or 0.
fn before(finder: Finder) -> usize
    requires { before finder < 2 ^ 64 }
    ensures { result ≡ before finder }
{
    match finder {
        Finder::Root { .. } | Finder::Card { .. } => 0,
        Finder::Object { index, .. } => index + 1,
    }
}

// An object that no root leads to: the cards that lead into its region, and the objects that would survive from
// them if that region alone were collected.
fn dead_reason<R: Threads + Sync>(
    rt: &R,
    alloc: Global,
    walkable: &Walkable<'_>,
    at: u64,
) -> Result<Reason, Fault>
    requires dead { Live walkable.now.heap at → ⊥ }
    ensures reason { IfOk result (λ r. IsReason walkable.now at r) }
    ensures fault { IfErr result (IsReasonFault walkable.now at) }
{
    let heap = walkable.heap();
    let number = region_of(&heap.geometry(), at);
    if number >= heap.geometry().regions() {
        // No object starts there.
        return Ok(Reason::Garbage);
    }
    let region = number as u32;
    let cards = cards_into_region(alloc, walkable.image, region)?;
    if heap.region(region).kind.is_humongous_first() {
        humongous_reason(alloc, walkable, region, at, &cards)
    } else {
        ordinary_reason(rt, alloc, walkable, region, at, &cards)
    }
}

// An object of an ordinary region.
fn ordinary_reason<R: Threads + Sync>(
    rt: &R,
    alloc: Global,
    walkable: &Walkable<'_>,
    region: u32,
    at: u64,
    cards: &[u32],
) -> Result<Reason, Fault>
    requires unrooted { IsUnrooted walkable.now at }
    requires within { region < walkable.now.heap.geometry.n }
    requires region { region ≡ region_of walkable.now.heap at }
    requires plain { is_first (kind walkable.now.heap region) ≡ false }
    requires cards { cards.now ≡ exact walkable.now.heap region }
    ensures reason { IfOk result (λ r. IsReason walkable.now at r) }
    ensures memory { IfErr result (λ e. e ≡ Fault.Memory) }
{
    let window = [region];
    let found = discover(
        rt,
        alloc,
        walkable.heap(),
        walkable.starts,
        &window,
        cards,
        WORKERS,
        CHUNK,
        &Open,
    )?;
    match path_to(alloc, walkable, cards, &found, at)? {
        Some(path) => Ok(kept_by(walkable, path)),
        None => Ok(Reason::Garbage),
    }
}

// A humongous object: the first slot outside that references it keeps it, or it is garbage.
fn humongous_reason(
    alloc: Global,
    walkable: &Walkable<'_>,
    region: u32,
    at: u64,
    cards: &[u32],
) -> Result<Reason, Fault>
    requires unrooted { IsUnrooted walkable.now at }
    requires within { region < walkable.now.heap.geometry.n }
    requires region { region ≡ region_of walkable.now.heap at }
    requires large { is_first (kind walkable.now.heap region) ≡ true }
    requires cards { cards.now ≡ exact walkable.now.heap region }
    ensures reason { IfOk result (λ r. IsReason walkable.now at r) }
    ensures memory { IfErr result (λ e. e ≡ Fault.Memory) }
{
    let heap = walkable.heap();
    if at != heap.geometry().start(region) {
        // No object starts there.
        return Ok(Reason::Garbage);
    }
    let none = mark_regions(alloc, heap, &[])?;
    match card_keeper(alloc, walkable, &none, region, cards) {
        None => Ok(Reason::Garbage),
        Some(finder) => {
            let object = heap.words().header(at);
            let path = vec![in alloc; Leg { object, finder }]?;
            Ok(kept_by(walkable, path))
        }
    }
}

// That a path keeps an object, to the first leg of which a slot on a card leads.
fn kept_by(walkable: &Walkable<'_>, path: Vec<Leg>) -> Reason
    requires { StartsAtSlot walkable.now.heap path.items }
    ensures { (entry : Entry) × (result ≡ reason.Kept entry path) × IsEntry walkable.now.heap entry path.items }
{
    let entry = entry_of(walkable, path[0].finder);
    Reason::Kept(entry, path)
}

// The slot on a card, and the object that holds it.
fn entry_of(walkable: &Walkable<'_>, finder: Finder) -> Entry
    requires { (slot : ℕ) × (finder ≡ Card (card_of walkable.now.heap slot) slot) × IsReferring walkable.now.heap slot }
    ensures finder { finder ≡ Card result.card result.slot }
    ensures card { result.card ≡ card_of walkable.now.heap result.slot }
    ensures holder { Contains (objects walkable.now.heap) result.holder × IsSlotOf result.holder result.slot }
{
    match finder {
        Finder::Root { .. } | Finder::Object { .. } => unreachable!(),
        Finder::Card { card, slot } => Entry {
            card,
            slot,
            holder: walkable.holder(card, slot),
        },
    }
}
