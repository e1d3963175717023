ghost use Rattle.std.specs.Prelude.{◌≡◌, ◌≤◌, ◌<◌, ◌⊎◌, ◌+◌, ◌-◌, ℕ, List, ◌∷◌, None, Some, length, filter, slice_index, Contains, IfOk, IfErr};
ghost use Rattle.std.specs.List.{range_with_len};
ghost use Rattle.std.specs.List.Sorted.{IsStrictlyIncreasing};
ghost use Rattle.g1_words.specs.Valid.{IsReference};
ghost use Rattle.g1_image.specs.Cards.{uncovered};
ghost use Rattle.g1_rem.specs.Marks.{objects_from};
ghost use Rattle.g1_rem.specs.Cover.{is_bare, bare_in, bare_between, bare_in_range, AreDirty, IsFirstOf};
ghost use Rattle.g1_rem.specs.Places.{IsBehind, AreBehind, AreReadyFor};
ghost use Rattle.g1_rem.specs.Ranges.{IsRange};

use crate::leads::led_into;
use crate::ranges::{cut, threads_for_slots};
use crate::rows::objects_end;
use crate::tracked::Tracked;
use g1_image::Image;
use g1_words::{Fault, Marks, card_of};
use g1_work::{Make, first_found, make_each};
use std::alloc::{AllocError, Global};
use std::thread::Threads;

/// The place of a rising list's first card, from a place on, that isn't below one.
fn place_of(set: &[u32], from: usize, card: u32) -> usize
    requires { IsBehind set.now from card }
    ensures behind { IsBehind set.now result card }
    ensures next { result < length set.now → card ≤ slice_index set.now result }
{
    let mut place = from;
    'cards: while place < set.len() && set[place] < card {
        place += 1;
    }
    place
}

/// A mark for each card, set if the card is dirty; none at all if the log is empty.
pub(crate) fn dirty_marks(alloc: Global, image: &Image) -> Result<Marks, AllocError>
    ensures { IfOk result (AreDirty image.now) }
{
    let log = image.log().as_slice();
    let cards = if log.is_empty() {
        0
    } else {
        image.heap().geometry().cards()
    };
    let mut dirty = Marks::none(alloc, cards as usize)?;
    dirty.set_each(log);
    Ok(dirty)
}

/// Returns whether a slot isn't covered. The places in the remembered sets move on with the slots.
fn is_uncovered(image: &Image, dirty: &Marks, places: &mut [usize], p: u64) -> bool
    requires dirty { AreDirty image.now dirty.now }
    requires slot { p < length image.now.heap.words }
    requires reference { IsReference image.now.heap (slice_index image.now.heap.words p) }
    requires behind { AreBehind image.now places.old p }
    ensures uncovered { result ≡ is_bare image.now p }
    ensures behind { AreBehind image.now places.new p }
{
    let heap = image.heap();
    match led_into(heap, p) {
        None => false,
        Some(region) => {
            let card = card_of(&heap.geometry(), p) as u32;
            let set = &image.remembered()[region as usize];
            let place = place_of(set, places[region as usize], card);
            places[region as usize] = place;
            if place < set.len() && set[place] == card {
                return false;
            }
            !dirty.has(card as usize)
        }
    }
}

/// The first slot from one address on and below another that isn't covered.
fn first_between(
    image: &Image,
    dirty: &Marks,
    places: &mut [usize],
    from: u64,
    to: u64,
) -> Option<u64>
    requires dirty { AreDirty image.now dirty.now }
    requires order { from ≤ to }
    requires slots { to ≤ length image.now.heap.words }
    requires references { (p : ℕ) → from ≤ p → p < to → IsReference image.now.heap (slice_index image.now.heap.words p) }
    requires behind { AreBehind image.now places.old from }
    ensures first { IsFirstOf (filter (is_bare image.now) (range_with_len from (to - from))) result }
    ensures behind { AreBehind image.now places.new to }
{
    for p in from..to {
        if is_uncovered(image, dirty, places, p) {
            return Some(p);
        }
    }
    None
}

/// The first slot of a region's objects that isn't covered.
fn first_in(image: &Image, dirty: &Marks, places: &mut [usize], region: u32) -> Option<u64>
    requires dirty { AreDirty image.now dirty.now }
    requires region { region < image.now.heap.geometry.n }
    requires ready { AreReadyFor image.now places.old (objects_from image.now.heap region) }
    ensures first { IsFirstOf (bare_in image.now region) result }
    ensures ready { result ≡ None → AreReadyFor image.now places.new (objects_from image.now.heap (region + 1)) }
{
    let heap = image.heap();
    let end = objects_end(heap, region);
    let mut at = heap.geometry().start(region);
    'objects: while at < end {
        let object = heap.words().header(at);
        if let Some(p) = first_between(image, dirty, places, at + 1, at + 1 + object.refs) {
            return Some(p);
        }
        at += object.size;
    }
    None
}

/// The place of a rising list's first card that isn't below one.
fn first_place(set: &[u32], card: u32) -> usize
    requires { IsStrictlyIncreasing set.now }
    ensures { IsBehind set.now result card }
{
    set.partition_point(|other| *other < card)
}

/// A place in each remembered set, before which all cards are below a region's first.
fn places_at(alloc: Global, image: &Image, region: u32) -> Result<Vec<usize>, AllocError>
    requires { region ≤ image.now.heap.geometry.n }
    ensures { IfOk result (λ v. AreReadyFor image.now v.items (objects_from image.now.heap region)) }
{
    let geometry = image.heap().geometry();
    let card = card_of(&geometry, geometry.start(region)) as u32;
    let mut places = Vec::with_capacity(alloc, image.remembered().len())?;
    for set in image.remembered() {
        places.push(first_place(set, card))?;
    }
    Ok(places)
}

/// The first slot that isn't covered, of the objects that start in some regions.
fn first_of(image: &Image, dirty: &Marks, places: &mut [usize], from: u32, to: u32) -> Option<u64>
    requires dirty { AreDirty image.now dirty.now }
    requires order { from ≤ to }
    requires regions { to ≤ image.now.heap.geometry.n }
    requires ready { AreReadyFor image.now places.old (objects_from image.now.heap from) }
    ensures { IsFirstOf (bare_between image.now from to) result }
{
    for region in from..to {
        if let Some(p) = first_in(image, dirty, places, region) {
            return Some(p);
        }
    }
    None
}

/// The same, beginning with the places before the first of these regions.
fn first_among(
    alloc: Global,
    image: &Image,
    dirty: &Marks,
    from: u32,
    to: u32,
) -> Result<Option<u64>, Fault>
    requires dirty { AreDirty image.now dirty.now }
    requires order { from ≤ to }
    requires regions { to ≤ image.now.heap.geometry.n }
    ensures ok { IfOk result (IsFirstOf (bare_between image.now from to)) }
    ensures memory { IfErr result (λ e. e ≡ Fault.Memory) }
{
    let mut places = places_at(alloc, image, from)?;
    Ok(first_of(image, dirty, &mut places, from, to))
}

/// The first slot of each range of regions that isn't covered.
#[derive(Drop)]
struct Covering<'a> {
    image: &'a Image,
    dirty: &'a Marks,
    cut: &'a [u32],
}

impl Make for Covering<'_> {
    type Made = Option<u64>;

    ghost ready = { λ s j. AreDirty s.image.now s.dirty.now × IsRange s.image.now.heap.geometry.n s.cut.now j };

    ghost makes = { λ s j found. IsFirstOf (bare_in_range s.image.now s.cut.now j) found };

    fn make(&self, alloc: Global, range: usize) -> Result<Option<u64>, Fault> {
        let from = self.cut[range];
        let to = self.cut[range + 1];
        first_among(alloc, self.image, self.dirty, from, to)
    }
}

/// The lowest slot that isn't covered, as `verify` finds it, without the image in its hands.
///
/// # Errors
/// `Fault::Memory` where a growth was refused.
///
/// # Examples
///
/// ```
/// use g1_rem::first_uncovered;
/// use g1_testing::{image, pictures::shared};
///
/// let covered = image(alloc, shared())?;
/// assert_eq!(rt; first_uncovered(alloc, &covered)?, None);
/// let bare = image(alloc, "heap 16 4 4
///     region 0 ordinary
///     object 2/1 16
///     region 1 ordinary
///     object 3/0 1 2")?;
/// assert_eq!(rt; first_uncovered(alloc, &bare)?, Some(1));
/// ```
pub fn first_uncovered(alloc: Global, image: &Image) -> Result<Option<u64>, Fault>
    ensures ok { IfOk result (IsFirstOf (uncovered image.now)) }
    ensures lowest { IfOk result (λ found. (p q : ℕ) → found ≡ Some p → Contains (uncovered image.now) q → p ≤ q) }
    ensures memory { IfErr result (λ e. e ≡ Fault.Memory) }
{
    let dirty = dirty_marks(alloc, image)?;
    let regions = image.heap().geometry().regions() as u32;
    first_among(alloc, image, &dirty, 0, regions)
}

/// The lowest slot that isn't covered, by this many threads, each with a range of the regions.
fn first_by(
    rt: &(impl Threads + Sync),
    alloc: Global,
    image: &Image,
    threads: usize,
) -> Result<Option<u64>, Fault>
    requires { 0 < threads }
    ensures ok { IfOk result (IsFirstOf (uncovered image.now)) }
    ensures memory { IfErr result (λ e. e ≡ Fault.Memory) }
{
    if threads == 1 {
        return first_uncovered(alloc, image);
    }
    let dirty = dirty_marks(alloc, image)?;
    let cut = cut(alloc, image.heap(), threads)?;
    let covering = Covering {
        image,
        dirty: &dirty,
        cut: &cut,
    };
    let found = make_each(rt, alloc, threads, threads, &covering)?;
    Ok(first_found(&found))
}

/// The image with its cover kept by the type, or the very image again with the fault.
///
/// One pass over the slots by rising address: remembered sets rise too, so a place in each of them
/// moves on with the slots. Linear in the used words, the slots and the cards.
///
/// # Errors
/// `Fault::Uncovered` with the address of the lowest slot that isn't covered, `Fault::Memory` if a
/// growth was refused.
///
/// # Examples
///
/// ```
/// use g1_rem::verify;
/// use g1_testing::{image, pictures::shared};
/// use g1_words::Fault;
///
/// assert!(rt; verify(&rt, alloc, image(alloc, shared())?).is_ok());
/// let bare = image(alloc, "heap 16 4 4
///     region 0 ordinary
///     object 2/1 16
///     region 1 ordinary
///     object 3/0 1 2")?;
/// let refused = verify(&rt, alloc, bare).err();
/// assert_eq!(rt; refused.map(|(_, fault)| fault), Some(Fault::Uncovered(1)));
/// ```
pub fn verify(
    rt: &(impl Threads + Sync),
    alloc: Global,
    image: Image,
) -> Result<Tracked, (Image, Fault)>
    ensures ok { IfOk result (λ t. t ≡ image) }
    ensures same { IfErr result (λ e. e.0 ≡ image) }
    ensures fault { IfErr result (λ e. (e.1 ≡ Fault.Memory) ⊎ ((p : ℕ) × (rest : List ℕ) × (uncovered image ≡ p ∷ rest) × (e.1 ≡ Fault.Uncovered p))) }
    ensures lowest { IfErr result (λ e. (p q : ℕ) → e.1 ≡ Fault.Uncovered p → Contains (uncovered image) q → p ≤ q) }
{
    verify_by(rt, alloc, image, 1)
}

/// As `verify`, with this many workers at most. One if it is 0.
///
/// Each has a range of the regions, with a place of its own in each remembered set. The fault is that
/// of the first range that has one.
///
/// # Errors
/// Those of `verify`.
///
/// # Examples
///
/// ```
/// use g1_rem::verify_by;
/// use g1_testing::{image, pictures::humongous};
///
/// let image = image(alloc, humongous())?;
/// assert!(rt; verify_by(&rt, alloc, image, 8).is_ok());
/// ```
pub fn verify_by(
    rt: &(impl Threads + Sync),
    alloc: Global,
    image: Image,
    workers: u64,
) -> Result<Tracked, (Image, Fault)>
    ensures ok { IfOk result (λ t. t ≡ image) }
    ensures same { IfErr result (λ e. e.0 ≡ image) }
    ensures fault { IfErr result (λ e. (e.1 ≡ Fault.Memory) ⊎ ((p : ℕ) × (rest : List ℕ) × (uncovered image ≡ p ∷ rest) × (e.1 ≡ Fault.Uncovered p))) }
    ensures lowest { IfErr result (λ e. (p q : ℕ) → e.1 ≡ Fault.Uncovered p → Contains (uncovered image) q → p ≤ q) }
{
    let threads = threads_for_slots(image.heap(), workers);
    match first_by(rt, alloc, &image, threads) {
        Err(fault) => Err((image, fault)),
        Ok(Some(p)) => Err((image, Fault::Uncovered(p))),
        Ok(None) => Ok(Tracked { image }),
    }
}
