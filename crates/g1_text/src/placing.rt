ghost use Rattle.std.specs.Prelude.{◌≡◌, ◌≤◌, ◌<◌, ◌*◌, ◌^◌, ◌++◌, ◌∷◌, [], ℕ, List, None, false, length, map, nat_lt, not, slice_set, All, MatchBool, IfOk, OnOk};
ghost use Rattle.g1_words.specs.Geometry.{Geometry as GeometryOf, IsWithinBounds};
ghost use Rattle.g1_words.specs.declared.object.Object.{Object};
ghost use Rattle.g1_text.specs.Content.{begun};
ghost use Rattle.g1_text.specs.Drafts.{content};
ghost use Rattle.g1_text.specs.Laid.{AreLaid, IsLaid, IsAddress, ArePassed, ArePlaced, is_large, placed};

use crate::draft::Draft;
use crate::expected::{Expected, Refusal};
use crate::reading::add_zeros;
use g1_words::{Geometry, Kind, Limits};
use std::alloc::{AllocError, Global};

/// An object with a name, and the line that says what is in it.
#[derive(Clone, Copy)]
pub(crate) struct Entry<'a> {
    pub(crate) size: u32,
    pub(crate) slots: u32,
    pub(crate) number: u64,
    pub(crate) line: &'a str,
}

/// Where objects lie.
#[derive(Drop)]
pub(crate) struct Places {
    /// The address of each.
    pub(crate) addresses: Vec<u64>,
    /// Their places among the lines, in the order of their addresses.
    pub(crate) order: Vec<u64>,
}

const CARD_WORDS: u64 = 64;

// A heap of smaller regions never has the most words.
const LEAST_REGION_WORDS: u64 = 4096;

/// The heap of the most regions of this many words, each limit being a power of two.
fn widest(limits: Limits, region_words: u64) -> Option<Geometry> {
    let mut widest = None;
    for doublings in 0..u64::BITS {
        match Geometry::within(limits, region_words, CARD_WORDS, 1 << doublings) {
            Ok(wider) => widest = Some(wider),
            Err(_) => break,
        }
    }
    widest
}

/// The sizes of a heap for these objects, which have so many words, within the specification's limits if they fit there.
pub(crate) fn choose_sizes(entries: &[Entry<'_>], words: u64) -> Result<Geometry, Expected> {
    if let Some(sizes) = smallest_within(Limits::Specified, entries, words) {
        return Ok(sizes);
    }
    smallest_within(Limits::Wide, entries, words).ok_or(Expected::Smaller(words))
}

// The smallest regions of which half stay free, or else the smallest ones that are enough.
fn smallest_within(limits: Limits, entries: &[Entry<'_>], words: u64) -> Option<Geometry> {
    // Half of the regions can stay free only if the objects have at most half of the words.
    let may_stay_free = words.saturating_mul(2) <= limits.words();
    let mut enough = None;
    for doublings in 0..u64::BITS {
        let region_words = LEAST_REGION_WORDS << doublings;
        let Some(widest) = widest(limits, region_words) else {
            break;
        };
        let needed = regions_needed(&widest, entries);
        let roomy = needed.saturating_mul(2).max(2);
        if roomy <= widest.regions() {
            return Geometry::within(limits, region_words, CARD_WORDS, roomy).ok();
        }
        if needed <= widest.regions() && enough.is_none() {
            enough = Some(widest);
            if !may_stay_free {
                break;
            }
        }
    }
    enough
}

/// How many regions the objects take, as `place` lays them.
pub(crate) fn regions_needed(geometry: &Geometry, entries: &[Entry<'_>]) -> u64 {
    let mut regions = 0u64;
    let mut room = 0u64;
    for entry in entries {
        let size = u64::from(entry.size);
        if geometry.is_humongous(size) {
            regions = regions.saturating_add(geometry.regions_for(size));
        } else if size <= room {
            room -= size;
        } else {
            regions = regions.saturating_add(1);
            room = geometry.region_words().saturating_sub(size);
        }
    }
    regions
}

/// Lays the objects end to end, and then the humongous ones in regions of their own.
pub(crate) fn place(
    alloc: Global,
    draft: &mut Draft,
    entries: &[Entry<'_>],
) -> Result<Places, Refusal>
    ensures { (g : GeometryOf) → IsWithinBounds g.w g.k g.n → content draft.old ≡ begun g None None None → IfOk result (λ p. ArePlaced g entries.now p.addresses.items p.order.items (content draft.new)) }
{
    let mut addresses = Vec::new(alloc);
    add_zeros(&mut addresses, entries.len() as u64)?;
    let mut places = Places {
        addresses,
        order: Vec::new(alloc),
    };
    place_each(draft, entries, &mut places, false)?;
    place_each(draft, entries, &mut places, true)?;
    draft.close()?;
    Ok(places)
}

// Lays the objects that are humongous, or those that are not.
fn place_each(
    draft: &mut Draft,
    entries: &[Entry<'_>],
    places: &mut Places,
    humongous: bool,
) -> Result<(), Refusal>
    requires { length places.old.addresses.items ≡ length entries.now }
    ensures count { length places.new.addresses.items ≡ length entries.now }
    ensures passed { (g : GeometryOf) → IsWithinBounds g.w g.k g.n → All (λ k. is_large g entries.now k ≡ not humongous) places.old.order.items → All IsAddress places.old.addresses.items → IsLaid g (map (placed entries.now places.old.addresses.items) places.old.order.items) (content draft.old) → OnOk result (ArePassed g entries.now humongous (length entries.now) places.old.order.items places.new.order.items × All IsAddress places.new.addresses.items × IsLaid g (map (placed entries.now places.new.addresses.items) places.new.order.items) (content draft.new)) }
{
    for (place, entry) in entries.iter().enumerate() {
        let size = u64::from(entry.size);
        if !belongs(&draft.geometry, size, humongous) {
            continue;
        }
        let at = make_room(draft, size, humongous)?;
        set_address(&mut places.addresses, place, at);
        places.order.push(place as u64)?;
    }
    Ok(())
}

// Whether an object is humongous, or whether it is not.
fn belongs(geometry: &Geometry, size: u64, humongous: bool) -> bool
    ensures { MatchBool result (nat_lt (3 * geometry.now.w) (4 * size) ≡ humongous) (nat_lt (3 * geometry.now.w) (4 * size) ≡ not humongous) }
{
    if humongous {
        geometry.is_humongous(size)
    } else {
        !geometry.is_humongous(size)
    }
}

fn set_address(addresses: &mut Vec<u64>, place: usize, at: u64)
    requires { place < length addresses.old.items }
    ensures { addresses.new.items ≡ slice_set addresses.old.items place at }
{
    addresses[place] = at;
}

// The address of room for an object.
fn make_room(draft: &mut Draft, size: u64, humongous: bool) -> Result<u64, Refusal>
    ensures { (g : GeometryOf) (os : List Object) (refs : ℕ) → IsWithinBounds g.w g.k g.n → IsLaid g os (content draft.old) → MatchBool humongous (3 * g.w < 4 * size) (4 * size ≤ 3 * g.w) → IfOk result (λ at. IsAddress at × IsLaid g (os ++ record { at = at; size = size; refs = refs } ∷ []) (content draft.new)) }
{
    if humongous {
        make_run(draft, size)
    } else {
        make_small_room(draft, size)
    }
}

// The address of room for an ordinary object, in the last region if it is enough.
fn make_small_room(draft: &mut Draft, size: u64) -> Result<u64, Refusal>
    ensures { (g : GeometryOf) (os : List Object) (refs : ℕ) → IsWithinBounds g.w g.k g.n → IsLaid g os (content draft.old) → 4 * size ≤ 3 * g.w → IfOk result (λ at. IsAddress at × IsLaid g (os ++ record { at = at; size = size; refs = refs } ∷ []) (content draft.new)) }
{
    let at = draft.next_address();
    if draft.take_room(size).is_ok() {
        return Ok(at);
    }
    begin_region(draft, Kind::Ordinary)?;
    let at = draft.next_address();
    draft.take_room(size)?;
    Ok(at)
}

// The address of room for a humongous object, in regions of its own.
fn make_run(draft: &mut Draft, size: u64) -> Result<u64, Refusal>
    ensures { (g : GeometryOf) (os : List Object) (refs : ℕ) → IsWithinBounds g.w g.k g.n → IsLaid g os (content draft.old) → 3 * g.w < 4 * size → IfOk result (λ at. IsAddress at × IsLaid g (os ++ record { at = at; size = size; refs = refs } ∷ []) (content draft.new)) }
{
    begin_region(draft, Kind::HumongousFirst)?;
    let at = draft.next_address();
    draft.take_room(size)?;
    draft.close_run()?;
    Ok(at)
}

// Adds a region for the next object. One is left, since `regions_needed` counted them.
fn begin_region(draft: &mut Draft, kind: Kind) -> Result<(), Refusal>
    ensures { OnOk result ((length (content draft.old).regions < draft.old.geometry.n) × (content draft.new ≡ record (content draft.old) { regions = (content draft.old).regions ++ record { kind = kind; top = 0; pinned = false } ∷ [] })) }
{
    if draft.regions.len() as u64 >= draft.geometry.regions() {
        return Err(Refusal::Expected(Expected::Sizes));
    }
    draft.add_empty(kind)?;
    Ok(())
}
