//! The lines of bytes that are no image's.
use g1_broken::{Broken, Sketch, geometry_of, known_regions, rule_of_bytes};
use g1_image::{Front, Heading, TextParts, parts_of};
use g1_text::{push_log, push_object, push_remembered, push_root};
use g1_words::{Fault, Kind, Limits, Object, Place, Region, Stand, Words};
use std::alloc::{AllocError, Global};

/// The lines of bytes that are no image's within these limits because of this fault, as far as they can be read: those of `print`, and a
/// line `broken` with the rule directly below the line that breaks it. None if no heading is there.
///
/// # Errors
///
/// `AllocError` if a request for memory was refused.
pub fn broken_lines(
    alloc: Global,
    limits: Limits,
    bytes: &[u8],
    fault: Fault,
) -> Result<Option<String>, AllocError> {
    let Some(rule) = rule_of_bytes(alloc, limits, bytes, fault)? else {
        return Ok(None);
    };
    let mut text = String::new(alloc);
    match parts_of(alloc, limits, bytes)? {
        TextParts::Unknown(_) => return Ok(None),
        TextParts::Heading(_, heading, _) => {
            push_heading(&mut text, &heading)?;
            push_rule(&mut text, &rule)?;
        }
        TextParts::Front(front, _, _) => push_front(alloc, &mut text, &front, &rule)?,
        TextParts::Whole(front, words) => push_file(
            alloc,
            &mut text,
            &front,
            &words,
            Mark { fault, rule },
        )?,
    }
    Ok(Some(text))
}

// The rule that is broken, and the fault that says where its line belongs.
#[derive(Clone, Copy)]
struct Mark {
    fault: Fault,
    rule: Broken,
}

impl Mark {
    // Adds the line of the rule, if this is its place.
    fn push_at(&self, text: &mut String, place: Fault) -> Result<(), AllocError> {
        if self.fault == place {
            push_rule(text, &self.rule)?;
        }
        Ok(())
    }
}

fn push_rule(text: &mut String, rule: &Broken) -> Result<(), AllocError> {
    writeln!(text, "broken {rule}")
}

// The number of a root or of a region. A file counts them in 32 bits.
fn number_of(index: usize) -> u32 {
    match u32::try_from(index) {
        Ok(number) => number,
        Err(_) => u32::MAX,
    }
}

fn push_heading(text: &mut String, heading: &Heading) -> Result<(), AllocError> {
    let Heading {
        w,
        k,
        n,
        roots,
        dirty,
        current,
    } = *heading;
    write!(
        text,
        "heap {w} {k} {n} roots {roots} dirty {dirty} current "
    )?;
    if current == n {
        text.push_str("none\n")
    } else {
        writeln!(text, "{current}")
    }
}

// What precedes the words, if not as many are there as the tops announce.
fn push_front(
    alloc: Global,
    text: &mut String,
    front: &Front,
    rule: &Broken,
) -> Result<(), AllocError> {
    push_heading(text, &front.heading)?;
    for (number, root) in front.roots.iter().enumerate() {
        push_root(text, number, *root)?;
    }
    push_log(text, front.log.as_slice())?;
    let regions = known_regions(alloc, front.table.as_slice())?;
    for (number, region) in regions.iter().enumerate() {
        push_region(text, front, number_of(number), region, None)?;
    }
    push_rule(text, rule)
}

// A whole file. A kind without a meaning ends its lines.
fn push_file(
    alloc: Global,
    text: &mut String,
    front: &Front,
    words: &Words,
    mark: Mark,
) -> Result<(), AllocError> {
    push_heading(text, &front.heading)?;
    for (number, root) in front.roots.iter().enumerate() {
        push_root(text, number, *root)?;
        mark.push_at(text, Fault::Reference(Place::Root(number_of(number))))?;
    }
    push_log(text, front.log.as_slice())?;
    if matches!(mark.fault, Fault::Card(Stand::Dirty(_))) {
        push_rule(text, &mark.rule)?;
    }
    let regions = known_regions(alloc, front.table.as_slice())?;
    let Some(geometry) = geometry_of(front) else {
        return Ok(());
    };
    let sketch = Sketch {
        geometry,
        regions: regions.as_slice(),
        words,
    };
    push_regions(alloc, text, front, &sketch, mark)
}

fn push_regions(
    alloc: Global,
    text: &mut String,
    front: &Front,
    sketch: &Sketch<'_>,
    mark: Mark,
) -> Result<(), AllocError> {
    for (number, region) in sketch.regions.iter().enumerate() {
        let number = number_of(number);
        let objects = objects_of(alloc, sketch, number, region)?;
        push_region(text, front, number, region, Some(objects.len()))?;
        mark.push_at(text, Fault::Card(Stand::Region(number)))?;
        mark.push_at(text, Fault::Flags(number))?;
        push_objects(text, sketch, objects.as_slice(), mark)?;
        mark.push_at(text, Fault::Shape(number))?;
    }
    if matches!(mark.fault, Fault::Kind(_)) {
        push_rule(text, &mark.rule)?;
    }
    Ok(())
}

// The line of a region, and that of its remembered set. How many objects it has is not known without its words.
fn push_region(
    text: &mut String,
    front: &Front,
    number: u32,
    region: &Region,
    objects: Option<usize>,
) -> Result<(), AllocError> {
    let cards = match front.remembered.get(number as usize) {
        Some(cards) => cards.as_slice(),
        None => &[],
    };
    let Region { kind, top, pinned } = *region;
    write!(text, "region {number} {kind} top {top}")?;
    if let Some(objects) = objects {
        write!(text, " objects {objects}")?;
    }
    let pinned = if pinned { " pinned" } else { "" };
    writeln!(text, " cards {}{pinned}", cards.len())?;
    push_remembered(text, number, cards)
}

// The objects that start in a region, up to the first word that is no header of an object in front of its top.
fn objects_of(
    alloc: Global,
    sketch: &Sketch<'_>,
    number: u32,
    region: &Region,
) -> Result<Vec<Object>, AllocError> {
    let mut objects = Vec::new(alloc);
    let (most, end) = match region.kind {
        Kind::Free | Kind::Continuation => (0, 0),
        Kind::Ordinary => (region.top, sketch.end(number, region)),
        Kind::HumongousFirst => (1, sketch.words.laid().len() as u64),
    };
    let mut at = sketch.geometry.start(number);
    for _ in 0..most {
        let object = sketch.words.header(at);
        let next = at.saturating_add(object.size);
        if object.refs >= object.size || next > end {
            return Ok(objects);
        }
        objects.push(object)?;
        at = next;
    }
    Ok(objects)
}

fn push_objects(
    text: &mut String,
    sketch: &Sketch<'_>,
    objects: &[Object],
    mark: Mark,
) -> Result<(), AllocError> {
    let laid = sketch.words.laid().len() as u64;
    for object in objects {
        let Object { at, size, refs } = *object;
        if refs < size && size <= laid && at <= laid - size {
            push_object(text, sketch.words, object)?;
        }
        push_slot_mark(text, object, mark)?;
    }
    Ok(())
}

// The line of the rule, if a slot of this object breaks it.
fn push_slot_mark(text: &mut String, object: &Object, mark: Mark) -> Result<(), AllocError> {
    if let Fault::Reference(Place::Slot(address)) = mark.fault {
        if address > object.at && address <= object.at.saturating_add(object.refs) {
            push_rule(text, &mark.rule)?;
        }
    }
    Ok(())
}
