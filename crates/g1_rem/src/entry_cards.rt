ghost use Rattle.std.specs.Prelude.{◌≡◌, ◌<◌, map, length, All, IfOk, IfErr};
ghost use Rattle.g1_words.specs.Marks.{AreMarked};
ghost use Rattle.g1_image.specs.Cards.{cards_where};
ghost use Rattle.g1_rem.specs.Starts.{card_count};
ghost use Rattle.g1_rem.specs.EntryCards.{cards_into, is_left, is_listed};

use g1_words::{Fault, Heap, Marks};
use std::alloc::{AllocError, Global};

/// Sets the marks of the cards in the remembered sets of these regions.
fn mark_remembered(marks: &mut Marks, remembered: &[Vec<u32>], set: &[u32])
    requires { All (λ r. r < length remembered.now) set.now }
    ensures { AreMarked (is_listed (map (λ s. s.items) remembered.now) set.now) marks.old marks.new }
{
    for region in set {
        marks.set_each(remembered[*region as usize].as_slice());
    }
}

/// The marked cards whose region isn't marked, rising.
fn left_over(
    alloc: Global,
    heap: &Heap,
    cards: &Marks,
    regions: &Marks,
) -> Result<Vec<u32>, AllocError>
    requires cards { length cards.now ≡ card_count heap.now }
    requires regions { length regions.now ≡ heap.now.geometry.n }
    ensures { IfOk result (λ v. v.items ≡ cards_where heap.now (is_left heap.now cards.now regions.now)) }
{
    let geometry = heap.geometry();
    let mut left = Vec::new(alloc);
    let mut from = 0;
    'cards: while let Some(card) = cards.next_set(from) {
        let region = geometry.region_of_card(card as u32);
        if !regions.is_set(region as usize) {
            left.push(card as u32)?;
        }
        from = card + 1;
    }
    Ok(left)
}

/// The cards outside a set of regions that are in the remembered set of one of them, rising:
/// these lead into the set. `remembered` has one entry a region.
///
/// Linear in the cards of the heap and in the remembered sets of the set's regions.
///
/// # Errors
///
/// `Fault::Memory` alone.
///
/// # Examples
///
/// ```
/// use g1_rem::cards_into;
/// use g1_testing::{image, pictures::shared};
///
/// let image = image(alloc, shared())?;
/// let cards = cards_into(alloc, image.heap(), image.remembered(), &[1])?;
/// assert_eq!(rt; cards.as_slice(), [0, 1].as_slice());
/// // Both cards lie in region 0.
/// let cards = cards_into(alloc, image.heap(), image.remembered(), &[0, 1])?;
/// assert_eq!(rt; cards.len(), 0);
/// ```
pub fn cards_into(
    alloc: Global,
    heap: &Heap,
    remembered: &[Vec<u32>],
    set: &[u32],
) -> Result<Vec<u32>, Fault>
    requires remembered { length remembered.now ≡ heap.now.geometry.n }
    requires set { All (λ r. r < heap.now.geometry.n) set.now }
    ensures ok { IfOk result (λ v. v.items ≡ cards_into heap.now (map (λ s. s.items) remembered.now) set.now) }
    ensures memory { IfErr result (λ e. e ≡ Fault.Memory) }
{
    let geometry = heap.geometry();
    let mut cards = Marks::none(alloc, geometry.cards() as usize)?;
    mark_remembered(&mut cards, remembered, set);
    let mut regions = Marks::none(alloc, geometry.regions() as usize)?;
    regions.set_each(set);
    Ok(left_over(alloc, heap, &cards, &regions)?)
}
