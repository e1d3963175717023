//! Regions whose slots need no card, since a collector looks at all of them.
ghost use Rattle.std.specs.Prelude.{◌≡◌, ◌<◌, ◌+◌, ◌-◌, ◌*◌, ◌/◌, ◌++◌, All, IfOk, IfErr, OnOk};
ghost use Rattle.std.specs.List.{range_with_len};
ghost use Rattle.g1_image.specs.Image.{IsUsedCard};
ghost use Rattle.g1_image.specs.Dirty.{dirtied};
ghost use Rattle.g1heap_cli.specs.Young.{region_cards, young_cards, LacksYoung};

use crate::refusal::{no_region, of_file};
use g1_command::Refusal;
use g1_image::{Image, with_dirty};
use g1_words::{Fault, Geometry, Heap, Stand, card_of};
use std::alloc::{AllocError, Global};

/// A copy of the image in a file, in which all cards of these regions are dirty. Free regions have none.
pub fn with_young(alloc: Global, name: &str, image: &Image, young: &[u32]) -> Result<Image, Refusal>
    ensures dirtied { IfOk result (λ i. i ≡ dirtied image.now (young_cards image.now.heap young.now)) }
    ensures refused { IfErr result (LacksYoung name.now image.now young.now) }
{
    let cards = match cards_of(alloc, name, image, young) {
        Ok(cards) => cards,
        Err(refusal) => return Err(refusal),
    };
    match with_dirty(alloc, image, cards.as_slice()) {
        Ok(Some(image)) => Ok(image),
        // The regions of all these cards are used.
        Ok(None) => Err(of_file(alloc, name, Fault::Card(Stand::Dirty(0)))),
        Err(_) => Err(Refusal::Fault(Fault::Memory)),
    }
}

// The cards of those of the regions that are used. The image has to have all of them.
fn cards_of(alloc: Global, name: &str, image: &Image, young: &[u32]) -> Result<Vec<u32>, Refusal>
    ensures cards { IfOk result (λ v. v.items ≡ young_cards image.now.heap young.now) }
    ensures used { IfOk result (λ v. All (IsUsedCard image.now.heap) v.items) }
    ensures refused { IfErr result (LacksYoung name.now image.now young.now) }
{
    let heap = image.heap();
    let geometry = heap.geometry();
    let mut cards = Vec::new(alloc);
    for region in young {
        if u64::from(*region) >= geometry.regions() {
            return Err(no_region(alloc, name, *region, geometry.regions()));
        }
        match push_region(heap, *region, &mut cards) {
            Ok(()) => {}
            Err(_) => return Err(Refusal::Fault(Fault::Memory)),
        }
    }
    Ok(cards)
}

// Adds the cards of a region, if it is used.
fn push_region(heap: &Heap, region: u32, cards: &mut Vec<u32>) -> Result<(), AllocError>
    requires { region < heap.now.geometry.n }
    ensures { OnOk result (cards.new.items ≡ cards.old.items ++ region_cards heap.now region) }
{
    if heap.region(region).kind.is_used() {
        return push_cards(&heap.geometry(), region, cards);
    }
    Ok(())
}

// Adds the cards up to those of the next region.
fn push_cards(geometry: &Geometry, region: u32, cards: &mut Vec<u32>) -> Result<(), AllocError>
    requires { region < geometry.now.n }
    ensures { OnOk result (cards.new.items ≡ cards.old.items ++ range_with_len (region * geometry.now.w / geometry.now.k) ((region + 1) * geometry.now.w / geometry.now.k - region * geometry.now.w / geometry.now.k)) }
{
    let first = card_of(geometry, geometry.start(region));
    let end = card_of(geometry, geometry.start(region + 1));
    for card in first..end {
        cards.push(card as u32)?;
    }
    Ok(())
}
