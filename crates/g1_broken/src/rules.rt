//! From a fault to the rule that is broken.
use crate::cards::{broken_logged, broken_set};
use crate::opening::{broken_end, broken_heading, broken_trail, look_of};
use crate::references::{broken_root, broken_slot};
use crate::rule::Broken;
use crate::shapes::broken_shape;
use crate::sketch::Sketch;
use crate::table::{broken_flags, broken_kind, known_regions};
use g1_image::{Front, TextParts, parts_of};
use g1_words::{Fault, Geometry, Limits, Place, Stand, Words};
use std::alloc::{AllocError, Global};

/// The rule of an image that bytes break, if it can be found from the fault that `decode_within` reports of them
/// within these limits.
///
/// # Errors
///
/// `AllocError` if a request for memory was refused.
pub fn rule_of_bytes(
    alloc: Global,
    limits: Limits,
    bytes: &[u8],
    fault: Fault,
) -> Result<Option<Broken>, AllocError> {
    if fault == Fault::Magic {
        return Ok(Some(Broken::Look(look_of(bytes))));
    }
    let parts = parts_of(alloc, limits, bytes)?;
    match (&parts, fault) {
        (_, Fault::Short) => Ok(Some(broken_end(bytes, &parts))),
        (_, Fault::Trailing) => Ok(broken_trail(bytes, &parts)),
        (TextParts::Heading(_, heading, _), Fault::Geometry) => Ok(broken_heading(limits, heading)),
        (TextParts::Whole(front, words), _) => rule_of_file(alloc, front, words, fault),
        _ => Ok(None),
    }
}

// The rule that a whole file breaks.
fn rule_of_file(
    alloc: Global,
    front: &Front,
    words: &Words,
    fault: Fault,
) -> Result<Option<Broken>, AllocError> {
    let table = front.table.as_slice();
    match fault {
        Fault::Kind(region) => Ok(broken_kind(table, region)),
        Fault::Flags(region) => Ok(broken_flags(table, region)),
        _ => {
            let regions = known_regions(alloc, table)?;
            let Some(geometry) = geometry_of(front) else {
                return Ok(None);
            };
            let sketch = Sketch {
                geometry,
                regions: regions.as_slice(),
                words,
            };
            Ok(rule_of_heap(&sketch, front, fault))
        }
    }
}

/// The sizes of a file, if they are within the bounds.
pub fn geometry_of(front: &Front) -> Option<Geometry> {
    let heading = front.heading;
    Geometry::within(
        Limits::Wide,
        u64::from(heading.w),
        u64::from(heading.k),
        u64::from(heading.n),
    )
    .ok()
}

// The rule that the heap or the cards of a file break.
fn rule_of_heap(sketch: &Sketch<'_>, front: &Front, fault: Fault) -> Option<Broken> {
    match fault {
        Fault::Shape(region) => broken_shape(sketch, region, front.heading.current),
        Fault::Reference(Place::Root(root)) => broken_root(sketch, front.roots.as_slice(), root),
        Fault::Reference(Place::Slot(address)) => broken_slot(sketch, address),
        Fault::Card(Stand::Dirty(place)) => broken_logged(sketch, front.log.as_slice(), place),
        Fault::Card(Stand::Region(region)) => {
            let cards = front.remembered.get(region as usize)?;
            broken_set(sketch, region, cards.as_slice())
        }
        _ => None,
    }
}
