//! What a heap has to keep for a pause, beside its own rules.
use crate::references::slot_at;
use crate::rule::Broken;
use crate::sketch::Sketch;
use g1_words::{Fault, Heap, card_of, region_of};

/// The rule of covered references that the slot of a fault breaks.
pub fn rule_of_cover(heap: &Heap, fault: Fault) -> Option<Broken> {
    let Fault::Uncovered(address) = fault else {
        return None;
    };
    let sketch = Sketch::of_heap(heap);
    let holder = slot_at(&sketch, address)?;
    let word = sketch.words.at(address);
    let target = word.checked_sub(1)?;
    Some(Broken::Uncovered {
        holder,
        word,
        region: region_of(&sketch.geometry, target),
        card: card_of(&sketch.geometry, address),
    })
}

/// The rule of a collection set that the region of a fault breaks.
pub fn rule_of_set(heap: &Heap, fault: Fault) -> Option<Broken> {
    let Fault::Set(number) = fault else {
        return None;
    };
    let sketch = Sketch::of_heap(heap);
    let Some(region) = sketch.region(u64::from(number)) else {
        return Some(Broken::GivenBeyond {
            region: number,
            regions: sketch.geometry.regions(),
        });
    };
    if !region.kind.is_ordinary() {
        return Some(Broken::GivenKind {
            region: number,
            kind: region.kind,
        });
    }
    if region.pinned {
        return Some(Broken::GivenPinned(number));
    }
    Some(Broken::GivenTwice(number))
}
