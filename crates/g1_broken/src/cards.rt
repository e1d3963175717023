//! The rules on cards, in the log and in remembered sets.
use crate::rule::Broken;
use crate::sketch::Sketch;

/// The rule that the card at a place of the log breaks.
pub(crate) fn broken_logged(sketch: &Sketch<'_>, log: &[u32], place: u32) -> Option<Broken> {
    let card = *log.get(place as usize)?;
    let broken = broken_card(sketch, card);
    if broken.is_some() {
        return broken;
    }
    broken_twice(log, card, place)
}

// A card that is in the log before this place.
fn broken_twice(log: &[u32], card: u32, place: u32) -> Option<Broken> {
    for (first, logged) in log.iter().enumerate() {
        if first as u64 >= u64::from(place) {
            return None;
        }
        if *logged == card {
            return Some(Broken::CardTwice {
                card,
                first: first as u32,
                again: place,
            });
        }
    }
    None
}

// A card that is not in the heap, or that lies in a free region.
fn broken_card(sketch: &Sketch<'_>, card: u32) -> Option<Broken> {
    let cards = sketch.geometry.cards();
    if u64::from(card) >= cards {
        return Some(Broken::CardBeyond { card, cards });
    }
    let number = sketch.geometry.region_of_card(card);
    let region = sketch.region(number)?;
    if region.kind.is_free() {
        return Some(Broken::CardFree {
            card,
            region: number,
        });
    }
    None
}

/// The rule that the remembered set of a region breaks.
pub(crate) fn broken_set(sketch: &Sketch<'_>, region: u32, cards: &[u32]) -> Option<Broken> {
    let first = *cards.first()?;
    let kind = sketch.region(u64::from(region))?.kind;
    if !kind.may_hold_cards() {
        return Some(Broken::SetKind {
            region,
            card: first,
            kind,
        });
    }
    let mut before = None;
    for card in cards {
        let broken = broken_card(sketch, *card)
            .or(broken_owner(sketch, region, *card))
            .or(broken_order(before, *card));
        if broken.is_some() {
            return broken;
        }
        before = Some(*card);
    }
    None
}

// A card of the region that remembers it.
fn broken_owner(sketch: &Sketch<'_>, region: u32, card: u32) -> Option<Broken> {
    if sketch.geometry.region_of_card(card) == u64::from(region) {
        return Some(Broken::CardOwn { card, region });
    }
    None
}

// A card that is not above the one in front of it.
fn broken_order(before: Option<u32>, card: u32) -> Option<Broken> {
    match before {
        Some(before) if before >= card => Some(Broken::CardOrder { card, before }),
        _ => None,
    }
}
