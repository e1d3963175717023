ghost use Rattle.std.specs.Prelude.{◌≡◌, ◌<◌, ◌-◌, ◌^◌, min, sum_by, ℕ, List, [], length, map, replicate, filter, All, Bool, Contains, slice_index, slice_index_or, true, OnOk, IfOk, IfErr};
ghost use Rattle.std.specs.List.{range_with_len};
ghost use Rattle.std.specs.List.Sorted.{IsStrictlyIncreasing};
ghost use Rattle.g1_words.specs.Heap.{regions};
ghost use Rattle.g1_words.specs.Lists.{has};
ghost use Rattle.g1_words.specs.Valid.{IsReference};
ghost use Rattle.g1_image.specs.Cards.{is_exact, refined};
ghost use Rattle.g1_image.specs.Image.{IsImage};
ghost use Rattle.g1_rem.specs.Cover.{AreDirty};
ghost use Rattle.g1_rem.specs.Starts.{IsStartsOf, card_count};
ghost use Rattle.g1_rem.specs.Entering.{IsGrown, AreEntering, IsRefining, AreRefining};

use crate::card_lists::{no_cards, push_once};
use crate::cover::dirty_marks;
use crate::leads::led_into;
use crate::merging::merged;
use crate::slots::slots_on;
use crate::starts::Starts;
use crate::tracked::{Tracked, image};
use g1_image::Image;
use g1_words::{Fault, Heap, Marks};
use g1_work::{MOST_WORKERS, Make, make_each, threads_for};
use std::alloc::{AllocError, Global};
use std::marker::Model;
use std::thread::Threads;

/// A thread is worth starting for this many cards that are merged: a merge takes a few nanoseconds a
/// card, and a thread takes tens of microseconds to start and an arena of its own for what it allocates.
pub const MERGED_CARDS_A_THREAD: usize = 32_768;

/// How many cards some lists have, or the greatest number if they have more.
///
/// # Examples
///
/// ```
/// use g1_rem::cards_in;
/// use g1_testing::{image, pictures::shared};
///
/// let image = image(alloc, shared())?;
/// assert_eq!(rt; cards_in(image.remembered()), 2);
/// ```
pub fn cards_in(lists: &[Vec<u32>]) -> usize
    ensures { result ≡ min (sum_by (λ s. length s.items) lists.now) (2 ^ 64 - 1) }
{
    let mut count: usize = 0;
    for list in lists {
        count = count.saturating_add(list.len());
    }
    count
}

/// The cards whose mark is set, by marks that say which cards are dirty.
fn marked_cards(alloc: Global, image: &Image, dirty: &Marks) -> Result<Vec<u32>, AllocError>
    requires image { IsImage image.now }
    requires dirty { AreDirty image.now dirty.now }
    ensures { IfOk result (λ v. v.items ≡ filter (has image.now.log) (range_with_len 0 (length dirty.now))) }
{
    let mut cards = Vec::with_capacity(alloc, image.log().len())?;
    let mut from = 0;
    'cards: while let Some(card) = dirty.next_set(from) {
        cards.push(card as u32)?;
        from = card + 1;
    }
    Ok(cards)
}

/// The dirty cards, rising.
fn dirty_cards(alloc: Global, image: &Image) -> Result<Vec<u32>, AllocError>
    requires { IsImage image.now }
    ensures rising { IfOk result (λ v. IsStrictlyIncreasing v.items) }
    ensures same { IfOk result (λ v. (c : ℕ) → has v.items c ≡ has image.now.log c) }
    ensures inside { IfOk result (λ v. All (λ c. c < card_count image.now.heap) v.items) }
{
    let dirty = dirty_marks(alloc, image)?;
    marked_cards(alloc, image, &dirty)
}

/// Adds a card to the list of each region that a slot on it leads into.
fn add_card(
    heap: &Heap,
    slots: &[u64],
    card: u32,
    entering: &mut [Vec<u32>],
) -> Result<(), AllocError>
    requires slots { (p : ℕ) → Contains slots.now p → (p < length heap.now.words) × IsReference heap.now (slice_index heap.now.words p) }
    requires one_each { length entering.old ≡ heap.now.geometry.n }
    requires below { (r : ℕ) → r < heap.now.geometry.n → All (λ c. c < card) (slice_index_or (map (λ s. s.items) entering.old) r []) }
    ensures { OnOk result (IsGrown heap.now card slots.now (map (λ s. s.items) entering.old) (map (λ s. s.items) entering.new)) }
{
    for p in slots {
        if let Some(region) = led_into(heap, *p) {
            push_once(&mut entering[region as usize], card)?;
        }
    }
    Ok(())
}

/// An image with the objects over the first words of its cards.
#[derive(Drop)]
struct Indexed<'a> {
    image: &'a Image,
    starts: &'a Starts,
}

impl<'a> Model for Indexed<'a> {
    ghost use Rattle.g1_image.specs.Image.{Image as ImageOf};
    ghost use Rattle.g1_rem.specs.Starts.{IsStartsOf};

    ghost Value = { ImageOf };

    ghost view = { λ x. x.image.now };

    ghost invariant = { λ x. IsStartsOf x.image.now.heap x.starts.now };
}

/// Adds the dirty cards to the lists of the regions that they lead into.
fn add_cards(
    alloc: Global,
    indexed: &Indexed<'_>,
    dirty: &[u32],
    entering: &mut [Vec<u32>],
) -> Result<(), AllocError>
    requires rising { IsStrictlyIncreasing dirty.now }
    requires inside { All (λ c. c < card_count indexed.now.heap) dirty.now }
    requires none { map (λ s. s.items) entering.old ≡ replicate indexed.now.heap.geometry.n [] }
    ensures { OnOk result (AreEntering indexed.now.heap dirty.now (map (λ s. s.items) entering.new)) }
{
    let heap = indexed.image.heap();
    for card in dirty {
        let slots = slots_on(alloc, heap, indexed.starts, *card);
        add_card(heap, slots.as_slice(), *card, entering)?;
    }
    Ok(())
}

/// For each region the dirty cards, rising, that hold a slot which leads into it.
fn entering_cards(alloc: Global, indexed: &Indexed<'_>) -> Result<Vec<Vec<u32>>, AllocError>
    ensures { IfOk result (λ v. AreRefining indexed.now (map (λ s. s.items) v.items)) }
{
    let image = indexed.image;
    let heap = image.heap();
    let dirty = dirty_cards(alloc, image)?;
    let mut entering = no_cards(alloc, heap.geometry().regions())?;
    add_cards(alloc, indexed, &dirty, &mut entering)?;
    Ok(entering)
}

/// A region's remembered set with the dirty cards that lead into the region.
fn refined_one(
    alloc: Global,
    image: &Image,
    region: usize,
    entering: &[u32],
) -> Result<Vec<u32>, Fault>
    requires region { region < image.now.heap.geometry.n }
    requires entering { IsRefining image.now region entering.now }
    ensures ok { IfOk result (λ v. v.items ≡ refined image.now region) }
    ensures memory { IfErr result (λ e. e ≡ Fault.Memory) }
{
    let heap = image.heap();
    merged(alloc, &image.remembered()[region], entering)
}

/// The refined remembered set of each region.
#[derive(Drop)]
struct Refining<'a> {
    image: &'a Image,
    /// For each region the dirty cards that lead into it.
    entering: &'a [Vec<u32>],
}

impl Make for Refining<'_> {
    type Made = Vec<u32>;

    ghost ready = { λ s r. (r < s.image.now.heap.geometry.n) × AreRefining s.image.now (map (λ v. v.items) s.entering.now) };

    ghost makes = { λ s r v. v.items ≡ refined s.image.now r };

    fn make(&self, alloc: Global, region: usize) -> Result<Vec<u32>, Fault> {
        refined_one(alloc, self.image, region, &self.entering[region])
    }
}

/// Each region's remembered set with the dirty cards that lead into the region.
fn refined_remembered(
    rt: &(impl Threads + Sync),
    alloc: Global,
    image: &Image,
    entering: &[Vec<u32>],
    workers: u64,
) -> Result<Vec<Vec<u32>>, Fault>
    requires { AreRefining image.now (map (λ s. s.items) entering.now) }
    ensures ok { IfOk result (λ v. map (λ s. s.items) v.items ≡ map (refined image.now) (regions image.now.heap)) }
    ensures memory { IfErr result (λ e. e ≡ Fault.Memory) }
{
    let cards = cards_in(image.remembered()).saturating_add(cards_in(entering));
    let threads = threads_for(workers, cards, MERGED_CARDS_A_THREAD);
    let regions = image.heap().geometry().regions() as usize;
    make_each(rt, alloc, threads, regions, &Refining { image, entering })
}

/// The refined remembered set of each region: its remembered set with those dirty cards that hold a
/// slot of another region which references an object in it. The log stays as it is.
///
/// Looks at the slots on the dirty cards alone, beside copying the sets. If these have many cards, up
/// to 64 threads copy them.
///
/// # Errors
/// `Fault::Memory` if a growth was refused.
///
/// # Examples
///
/// ```
/// use g1_rem::{Starts, refine, verify};
/// use g1_testing::image;
///
/// let logged = image(alloc, "heap 16 4 4
///     dirty cards 0
///     region 0 ordinary
///     object 2/1 16
///     region 1 ordinary
///     object 3/0 1 2")?;
/// let tracked = verify(&rt, alloc, logged).map_err(|(_, fault)| fault)?;
/// let starts = Starts::build(alloc, tracked.image.heap())?;
/// let refined = refine(&rt, alloc, &tracked, &starts)?;
/// assert_eq!(rt; refined[0].len(), 0);
/// assert_eq!(rt; refined[1].as_slice(), [0].as_slice());
/// ```
pub fn refine(
    rt: &(impl Threads + Sync),
    alloc: Global,
    tracked: &Tracked,
    starts: &Starts,
) -> Result<Vec<Vec<u32>>, Fault>
    requires { IsStartsOf tracked.now.heap starts.now }
    ensures ok { IfOk result (λ v. map (λ s. s.items) v.items ≡ map (refined tracked.now) (regions tracked.now.heap)) }
    ensures memory { IfErr result (λ e. e ≡ Fault.Memory) }
{
    refine_by(rt, alloc, tracked, starts, MOST_WORKERS)
}

/// As `refine`, with this many workers at most. One if it is 0.
///
/// # Errors
/// `Fault::Memory` if a growth was refused.
///
/// # Examples
///
/// ```
/// use g1_rem::{Starts, refine_by, verify};
/// use g1_testing::{image, pictures::shared};
///
/// let shared = image(alloc, shared())?;
/// let tracked = verify(&rt, alloc, shared).map_err(|(_, fault)| fault)?;
/// let starts = Starts::build(alloc, tracked.image.heap())?;
/// let refined = refine_by(&rt, alloc, &tracked, &starts, 8)?;
/// assert_eq!(rt; refined[1].as_slice(), [0, 1].as_slice());
/// ```
pub fn refine_by(
    rt: &(impl Threads + Sync),
    alloc: Global,
    tracked: &Tracked,
    starts: &Starts,
    workers: u64,
) -> Result<Vec<Vec<u32>>, Fault>
    requires { IsStartsOf tracked.now.heap starts.now }
    ensures ok { IfOk result (λ v. map (λ s. s.items) v.items ≡ map (refined tracked.now) (regions tracked.now.heap)) }
    ensures memory { IfErr result (λ e. e ≡ Fault.Memory) }
{
    let image = image(tracked);
    let indexed = Indexed { image, starts };
    let entering = entering_cards(alloc, &indexed)?;
    refined_remembered(rt, alloc, image, &entering, workers)
}
