//! How the objects of one group are cut into references and data.
use crate::classes::{Class, Field, width_of};
use crate::dump::{Dump, Group, is_reference, words_of};
use crate::refused::Refused;
use crate::wanted::Wanted;
use sha2::{Digest, Sha256};
use std::alloc::{AllocError, Global};

/// A field of an instance.
#[derive(Clone, Copy)]
pub(crate) enum Piece {
    /// A reference, which is null in the image if it is left out.
    Reference { is_kept: bool },
    /// A value of so many bytes, which is zero in the image if it is left out.
    Value { bytes: usize, is_kept: bool },
}

/// Where references and data of an object are found in a dump.
#[derive(Drop)]
pub(crate) enum Body {
    /// Nowhere: it has none.
    Empty,
    /// In its fields.
    Fields(Vec<Piece>),
    /// References alone.
    Elements,
    /// Values of so many bytes alone.
    Values(usize),
    /// In what is known of the class with this identifier.
    Class(u64),
}

/// The shape of all objects of a group.
#[derive(Drop)]
pub(crate) struct Shape {
    pub slots: u64,
    /// The bytes of data behind the label.
    pub bytes: u64,
    pub label: u64,
    pub body: Body,
}

impl Shape {
    /// How many words an object takes: its header, its slots, its label and its data.
    pub(crate) fn size(&self) -> u64 {
        self.slots
            .saturating_add(words_of(self.bytes))
            .saturating_add(2)
    }

    /// Whether an object has nothing but a label.
    pub(crate) fn is_empty(&self) -> bool {
        matches!(self.body, Body::Empty)
    }

    fn empty(label: u64) -> Shape {
        Shape {
            slots: 0,
            bytes: 0,
            label,
            body: Body::Empty,
        }
    }
}

/// The first 8 bytes of the SHA-256 of a name, the first one lowest.
pub(crate) fn label_of(name: &str) -> u64 {
    let digest = Sha256::digest(name.as_bytes());
    match digest.as_slice().first_chunk::<8>() {
        Some(bytes) => u64::from_le_bytes(*bytes),
        None => 0,
    }
}

/// What an image of a part has in place of a class of a primitive type, which has no part of its own in a dump.
pub(crate) const PRIMITIVE: &str = "primitive.class";

const MIRROR: &str = "java.lang.Class";

/// The fields of a weak reference that a collector may clear or change.
const WEAK: [&str; 4] = [
    "java.lang.ref.Reference.referent",
    "java.lang.ref.Reference.next",
    "java.lang.ref.Reference.discovered",
    "java.lang.ref.Reference.queue",
];

/// The shapes of all groups of a dump, by their numbers.
pub(crate) fn shapes_of(
    alloc: Global,
    dump: &Dump<'_>,
    wanted: &Wanted<'_>,
) -> Result<Vec<Shape>, Refused> {
    let mut shapes = Vec::with_capacity(alloc, dump.objects.groups.len())?;
    for group in &dump.objects.groups {
        shapes.push(shape_of(alloc, dump, wanted, *group)?)?;
    }
    Ok(shapes)
}

fn shape_of(
    alloc: Global,
    dump: &Dump<'_>,
    wanted: &Wanted<'_>,
    group: Group,
) -> Result<Shape, Refused> {
    match group {
        Group::Class { id } if wanted.is_whole() => Ok(class_shape(dump, id)),
        Group::Class { id } => {
            let name = dump.class_name(alloc, id)?;
            let text = format!(in alloc; "{name}.class")?;
            Ok(Shape::empty(label_of(text.as_str())))
        }
        Group::Instance { class, .. } if !wanted.is_whole() && is_mirror(alloc, dump, class)? => {
            Ok(Shape::empty(label_of(PRIMITIVE)))
        }
        Group::Instance { class, bytes } => instance_shape(alloc, dump, wanted, class, bytes),
        Group::Objects { class, count } => Ok(Shape {
            slots: u64::from(count),
            bytes: 0,
            label: label_by(alloc, dump, wanted, class)?,
            body: Body::Elements,
        }),
        Group::Values { kind, count } => {
            let bytes = width_of(kind)?;
            Ok(Shape {
                slots: 0,
                bytes: u64::from(count).saturating_mul(bytes as u64),
                label: u64::from(kind) << 32 | u64::from(count),
                body: Body::Values(bytes),
            })
        }
    }
}

// A class of the machine's own, whose instances stand for int, void and so on.
fn is_mirror(alloc: Global, dump: &Dump<'_>, class: u64) -> Result<bool, AllocError> {
    Ok(dump.classes.get(class).is_some() && dump.class_name(alloc, class)?.as_str() == MIRROR)
}

fn class_shape(dump: &Dump<'_>, id: u64) -> Shape {
    match dump.classes.get(id) {
        Some(class) => Shape {
            slots: class.references.len() as u64,
            bytes: class.bytes.len() as u64,
            label: id,
            body: Body::Class(id),
        },
        None => Shape::empty(id),
    }
}

fn label_by(
    alloc: Global,
    dump: &Dump<'_>,
    wanted: &Wanted<'_>,
    class: u64,
) -> Result<u64, AllocError> {
    if wanted.is_whole() {
        return Ok(class);
    }
    Ok(label_of(dump.class_name(alloc, class)?.as_str()))
}

fn instance_shape(
    alloc: Global,
    dump: &Dump<'_>,
    wanted: &Wanted<'_>,
    class: u64,
    found: u32,
) -> Result<Shape, Refused> {
    let mut pieces = Vec::new(alloc);
    for owner in dump.line_of(alloc, class)?.iter() {
        push_pieces(alloc, dump, wanted, owner, &mut pieces)?;
    }
    let (slots, bytes) = count_pieces(pieces.as_slice());
    let expected = slots
        .saturating_mul(dump.ids.bytes() as u64)
        .saturating_add(bytes);
    if expected != u64::from(found) {
        return Err(Refused::FieldBytes { found, expected });
    }
    Ok(Shape {
        slots,
        bytes,
        label: label_by(alloc, dump, wanted, class)?,
        body: Body::Fields(pieces),
    })
}

// Adds the fields of a class of an instance's line.
fn push_pieces(
    alloc: Global,
    dump: &Dump<'_>,
    wanted: &Wanted<'_>,
    owner: &Class,
    pieces: &mut Vec<Piece>,
) -> Result<(), Refused> {
    let name = dump.class_name(alloc, owner.id)?;
    for field in &owner.fields {
        pieces.push(piece_of(alloc, dump, wanted, name.as_str(), *field)?)?;
    }
    Ok(())
}

fn piece_of(
    alloc: Global,
    dump: &Dump<'_>,
    wanted: &Wanted<'_>,
    owner: &str,
    field: Field,
) -> Result<Piece, Refused> {
    let name = dump.text(alloc, field.name)?;
    let is_kept = !is_left_out(alloc, wanted, owner, name.as_str())?;
    if is_reference(field.kind) {
        return Ok(Piece::Reference { is_kept });
    }
    let bytes = width_of(field.kind)?;
    Ok(Piece::Value { bytes, is_kept })
}

// How many slots the fields are, and how many bytes of data.
fn count_pieces(pieces: &[Piece]) -> (u64, u64) {
    let (mut slots, mut data) = (0u64, 0u64);
    for piece in pieces {
        match piece {
            Piece::Reference { .. } => slots = slots.saturating_add(1),
            Piece::Value { bytes, .. } => data = data.saturating_add(*bytes as u64),
        }
    }
    (slots, data)
}

fn is_left_out(
    alloc: Global,
    wanted: &Wanted<'_>,
    owner: &str,
    field: &str,
) -> Result<bool, AllocError> {
    if wanted.is_whole() {
        return Ok(false);
    }
    let name = format!(in alloc; "{owner}.{field}")?;
    if !wanted.weak && WEAK.contains(&name.as_str()) {
        return Ok(true);
    }
    Ok(
        wanted
            .without
            .iter()
            .any(|text| text.as_str() == name.as_str()),
    )
}
