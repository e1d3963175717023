//! The rule that a reference is null or leads to an object.
use crate::rule::{Broken, Holder, Target};
use crate::sketch::Sketch;
use g1_image::Stale;
use g1_words::{Fault, Heap, Kind, Object, Place};

/// A root that leads to no object.
pub(crate) fn broken_root(sketch: &Sketch<'_>, roots: &[u64], root: u32) -> Option<Broken> {
    let word = *roots.get(root as usize)?;
    broken_reference(sketch, Holder::Root(root), word)
}

/// A slot that leads to no object.
pub(crate) fn broken_slot(sketch: &Sketch<'_>, address: u64) -> Option<Broken> {
    let holder = slot_at(sketch, address)?;
    broken_reference(sketch, holder, sketch.words.at(address))
}

/// The slot at an address, by its object.
pub(crate) fn slot_at(sketch: &Sketch<'_>, address: u64) -> Option<Holder> {
    let object = sketch.holder(address)?;
    let slot = address.checked_sub(object.at)?.checked_sub(1)?;
    Some(Holder::Slot {
        slot,
        object: object.at,
    })
}

/// The rule of references that a stale word breaks. The heap has null in its place.
pub fn rule_of_stale(heap: &Heap, stale: &Stale, fault: Fault) -> Option<Broken> {
    let sketch = Sketch::of_heap(heap);
    match fault {
        Fault::Reference(Place::Root(root)) => {
            let word = word_at(stale.roots.as_slice(), u64::from(root))?;
            broken_reference(&sketch, Holder::Root(root), word)
        }
        Fault::Reference(Place::Slot(address)) => {
            let word = word_at(stale.slots.as_slice(), address)?;
            broken_reference(&sketch, slot_at(&sketch, address)?, word)
        }
        _ => None,
    }
}

// The stale word at a place.
fn word_at(stale: &[(u64, u64)], place: u64) -> Option<u64> {
    for (at, word) in stale {
        if *at == place {
            return Some(*word);
        }
    }
    None
}

fn broken_reference(sketch: &Sketch<'_>, holder: Holder, word: u64) -> Option<Broken> {
    let address = word.checked_sub(1)?;
    Some(Broken::Stray {
        holder,
        word,
        address,
        target: target_at(sketch, address),
    })
}

// What is at an address.
fn target_at(sketch: &Sketch<'_>, address: u64) -> Target {
    let Some((number, region)) = sketch.region_at(address) else {
        return Target::Beyond(sketch.geometry.words());
    };
    if matches!(region.kind, Kind::Free) {
        return Target::Free(u64::from(number));
    }
    let top = sketch.end(number, &region);
    if address >= top {
        return Target::AboveTop {
            region: u64::from(number),
            top,
        };
    }
    match sketch.holder(address) {
        Some(Object { at, .. }) => Target::Inside {
            word: address.saturating_sub(at),
            object: at,
        },
        None => Target::Nothing,
    }
}
