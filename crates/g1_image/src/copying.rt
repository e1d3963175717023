//! Copies of an image: one that is equal to it, and one with more dirty cards.
ghost use Rattle.std.specs.Prelude.{◌≡◌, ◌<◌, ℕ, [], All, AllPairs, ◌≢◌, map, length, slice_index, IfOk, IfSome, IfNone, IsTrue, ◌↔◌};
ghost use Rattle.g1_image.specs.Image.{IsUsedCard, IsLog};
ghost use Rattle.g1_image.specs.Dirty.{with_dirty_cards, with_log, dirtied};

use crate::image::Image;
use g1_words::Heap;
use indexmap::IndexSet;
use std::alloc::{AllocError, Global};

fn copy_heap(alloc: Global, heap: &Heap) -> Result<Heap, AllocError>
    ensures { IfOk result (λ h. h ≡ heap.now) }
{
    Ok(Heap {
        geometry: heap.geometry(),
        words: heap.words().copy(alloc)?,
        regions: Vec::from_slice(alloc, heap.regions())?,
        roots: Vec::from_slice(alloc, heap.roots())?,
        current: heap.current(),
    })
}

fn copy_sets(alloc: Global, sets: &[Vec<u32>]) -> Result<Vec<Vec<u32>>, AllocError>
    ensures { IfOk result (λ v. map (λ s. s.items) v.items ≡ map (λ s. s.items) sets.now) }
{
    let mut copies = Vec::with_capacity(alloc, sets.len())?;
    for set in sets {
        copies.push(Vec::from_slice(alloc, set)?)?;
    }
    Ok(copies)
}

/// Puts cards behind those of a log, each unless it is there already.
fn put_cards(log: &mut IndexSet<u32>, cards: &[u32]) -> Result<(), AllocError>
    ensures { IfOk result (λ u. log.new.keys ≡ with_dirty_cards log.old.keys cards.now) }
{
    for card in cards {
        log.insert(*card)?;
    }
    Ok(())
}

fn copy_log(alloc: Global, log: &[u32]) -> Result<IndexSet<u32>, AllocError>
    requires { AllPairs (λ c d. c ≢ d) log.now }
    ensures { IfOk result (λ s. s.keys ≡ log.now) }
{
    let mut copy = IndexSet::with_capacity(alloc, log.len())?;
    put_cards(&mut copy, log)?;
    Ok(copy)
}

/// A copy of an image, with another log.
fn with_log(alloc: Global, image: &Image, log: IndexSet<u32>) -> Result<Image, AllocError>
    requires { IsLog image.now.heap log.keys }
    ensures { IfOk result (λ i. i ≡ with_log image.now log.keys) }
{
    let heap = copy_heap(alloc, image.heap())?;
    let remembered = copy_sets(alloc, image.remembered())?;
    Ok(Image {
        heap,
        remembered,
        log,
    })
}

/// A copy of an image.
///
/// # Errors
///
/// `AllocError` if a request for memory was refused.
///
/// # Examples
///
/// ```
/// use g1_image::{copy, encode};
/// use g1_testing::{image, pictures::shared, text};
///
/// let copied = copy(alloc, &image(alloc, shared())?)?;
/// assert!(rt; encode(alloc, &copied)? == text(alloc, shared())?);
/// ```
pub fn copy(alloc: Global, image: &Image) -> Result<Image, AllocError>
    ensures { IfOk result (λ i. i ≡ image.now) }
{
    let _ = image.heap();
    let log = copy_log(alloc, image.log().as_slice())?;
    with_log(alloc, image, log)
}

/// Returns whether a card lies in a used region.
fn is_used(heap: &Heap, card: u32) -> bool
    ensures { IsTrue result ↔ IsUsedCard heap.now card }
{
    let geometry = heap.geometry();
    if geometry.card_start(card) >= geometry.words() {
        return false;
    }
    let region = geometry.region_of_card(card);
    heap.region(region as u32).kind.is_used()
}

/// Returns whether all cards lie in used regions.
fn are_used(heap: &Heap, cards: &[u32]) -> bool
    ensures { IsTrue result ↔ All (IsUsedCard heap.now) cards.now }
{
    for card in cards {
        if !is_used(heap, *card) {
            return false;
        }
    }
    true
}

/// A copy of an image in which these cards are dirty, too: they stand behind those of its log in their
/// order, each unless it is there already. None if one of them is no card of a used region.
///
/// # Errors
///
/// `AllocError` if a request for memory was refused.
///
/// # Examples
///
/// ```
/// use g1_image::with_dirty;
/// use g1_testing::{image, pictures::shared};
///
/// // Regions 0 and 1 are used: they have the cards 0 to 7.
/// let image = image(alloc, shared())?;
/// let dirtied = with_dirty(alloc, &image, &[5, 0, 5])?.ok_or("a card of no used region")?;
/// assert_eq!(rt; dirtied.log().as_slice(), [5, 0].as_slice());
/// assert!(rt; with_dirty(alloc, &image, &[8])?.is_none());
/// ```
pub fn with_dirty(alloc: Global, image: &Image, cards: &[u32]) -> Result<Option<Image>, AllocError>
    ensures dirtied { IfOk result (λ r. IfSome r (λ i. i ≡ dirtied image.now cards.now)) }
    ensures used { IfOk result (λ r. IfSome r (λ i. All (IsUsedCard image.now.heap) cards.now)) }
    ensures none { IfOk result (λ r. IfNone r (All (IsUsedCard image.now.heap) cards.now → ⊥)) }
{
    if !are_used(image.heap(), cards) {
        return Ok(None);
    }
    let mut log = copy_log(alloc, image.log().as_slice())?;
    put_cards(&mut log, cards)?;
    let dirtied = with_log(alloc, image, log)?;
    Ok(Some(dirtied))
}
