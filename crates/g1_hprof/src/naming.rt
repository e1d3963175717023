//! What each object of an image is, as lines of a map of names.
use crate::classes::{Class, Field, REFERENCE, type_name, width_of};
use crate::dump::{Dump, Group};
use crate::refused::Refused;
use crate::shape::{PRIMITIVE, Shape};
use crate::walk::Found;
use crate::wanted::Wanted;
use itoa::Buffer;
use std::alloc::{AllocError, Global};
use std::collections::HashMap;

/// The lines of roots, of types when the first of their objects comes, and of objects in the order of their addresses.
pub(crate) fn write_names(
    alloc: Global,
    found: Found<'_>,
    wanted: &Wanted<'_>,
    roots: usize,
    order: &[u32],
    starts: &[u32],
) -> Result<Vec<u8>, Refused> {
    let mut out = Vec::new(alloc);
    push_roots(alloc, &mut out, wanted, roots)?;
    let mut types = Types::new(alloc, found.shapes.len())?;
    for (number, start) in order.iter().zip(starts.iter()) {
        let Some((group, _)) = found.dump.objects.find(*number) else {
            return Err(Refused::Contradiction);
        };
        types.name(alloc, found, wanted, group, &mut out)?;
        let id = found.dump.objects.ids.as_slice().get(*number as usize);
        push_object(
            &mut out,
            *start,
            types.name_of(group),
            id.copied().unwrap_or(0),
        )?;
    }
    Ok(out)
}

fn push_roots(
    alloc: Global,
    out: &mut Vec<u8>,
    wanted: &Wanted<'_>,
    roots: usize,
) -> Result<(), AllocError> {
    for number in 0..roots {
        let line = match wanted.from.get(number) {
            Some(name) => format!(in alloc; "root {number} {name}\n")?,
            None => format!(in alloc; "root {number} root{number}\n")?,
        };
        out.extend_from_slice(line.as_bytes())?;
    }
    Ok(())
}

fn push_object(out: &mut Vec<u8>, start: u32, name: &str, id: u64) -> Result<(), AllocError> {
    out.extend_from_slice(b"object ")?;
    out.extend_from_slice(Buffer::new().format(start).as_bytes())?;
    out.push(b' ')?;
    out.extend_from_slice(name.as_bytes())?;
    out.extend_from_slice(b" @0x")?;
    push_hexadecimal(out, id)?;
    out.push(b'\n')?;
    Ok(())
}

fn push_hexadecimal(out: &mut Vec<u8>, number: u64) -> Result<(), AllocError> {
    let zeros = number.leading_zeros() / 4;
    for digit in 0..16u32 {
        if digit >= zeros || digit == 15 {
            let shift = 60u32.saturating_sub(digit.saturating_mul(4));
            let nibble = (number.wrapping_shr(shift) & 0xf) as usize;
            out.push(DIGITS.get(nibble).copied().unwrap_or(b'0'))?;
        }
    }
    Ok(())
}

static DIGITS: [u8; 16] = *b"0123456789abcdef";

// What the lines of a type say of it.
#[derive(Drop)]
struct Type {
    name: String,
    // The names of its slots and data words.
    words: String,
    label: Option<u64>,
}

// A type that has lines, or the name that it gets.
#[derive(Drop)]
enum Known {
    Type(usize),
    Name(String),
}

// The types that have lines.
#[derive(Drop)]
struct Types {
    list: Vec<Type>,
    // The number of the type of each group, if it has one already.
    of_group: Vec<Option<usize>>,
    numbers: HashMap<String, usize>,
}

impl Types {
    fn new(alloc: Global, groups: usize) -> Result<Types, AllocError> {
        Ok(Types {
            list: Vec::new(alloc),
            of_group: vec![in alloc; None; groups]?,
            numbers: HashMap::new(alloc),
        })
    }

    // The name of the type of a group that was named.
    fn name_of(&self, group: u32) -> &str {
        match self.of_group.as_slice().get(group as usize) {
            Some(Some(number)) => match self.list.as_slice().get(*number) {
                Some(found) => found.name.as_str(),
                None => "",
            },
            _ => "",
        }
    }

    // Names the type of a group, with its lines if no other group has it.
    fn name(
        &mut self,
        alloc: Global,
        found: Found<'_>,
        wanted: &Wanted<'_>,
        group: u32,
        out: &mut Vec<u8>,
    ) -> Result<(), Refused> {
        let Some(place) = self.of_group.as_slice().get(group as usize) else {
            return Err(Refused::Contradiction);
        };
        if place.is_some() {
            return Ok(());
        }
        let Some(shape) = found.shapes.get(group as usize) else {
            return Err(Refused::Contradiction);
        };
        let Some(kind) = found.dump.objects.groups.as_slice().get(group as usize) else {
            return Err(Refused::Contradiction);
        };
        let described = describe(alloc, found.dump, wanted, *kind, shape)?;
        let number = self.number_of(alloc, &described, out)?;
        if let Some(place) = self.of_group.get_mut(group as usize) {
            *place = Some(number);
        }
        Ok(())
    }

    // The number of a type, which gets its lines if it has none.
    fn number_of(
        &mut self,
        alloc: Global,
        wanted: &Type,
        out: &mut Vec<u8>,
    ) -> Result<usize, Refused> {
        match self.known(alloc, wanted)? {
            Known::Type(number) => Ok(number),
            Known::Name(name) => {
                push_type(alloc, out, name.as_str(), wanted)?;
                self.add(name, wanted)
            }
        }
    }

    // The type with these words and this label, or a name for it. A name that another one has gets a number.
    fn known(&self, alloc: Global, wanted: &Type) -> Result<Known, Refused> {
        let mut name = wanted.name.clone()?;
        for number in 2..u64::MAX {
            match self.numbers.get(name.as_str()).copied() {
                None => return Ok(Known::Name(name)),
                Some(known) if self.is_at(known, wanted) => return Ok(Known::Type(known)),
                Some(_) => {
                    let first = wanted.name.as_str();
                    name = format!(in alloc; "{first}#{number}")?;
                }
            }
        }
        Err(Refused::Contradiction)
    }

    fn is_at(&self, number: usize, wanted: &Type) -> bool {
        match self.list.as_slice().get(number) {
            Some(other) => {
                other.words.as_str() == wanted.words.as_str() && other.label == wanted.label
            }
            None => false,
        }
    }

    fn add(&mut self, name: String, wanted: &Type) -> Result<usize, Refused> {
        let number = self.list.len();
        self.numbers.insert(name.clone()?, number)?;
        let words = wanted.words.clone()?;
        self.list.push(Type {
            name,
            words,
            label: wanted.label,
        })?;
        Ok(number)
    }
}

fn push_type(
    alloc: Global,
    out: &mut Vec<u8>,
    name: &str,
    wanted: &Type,
) -> Result<(), AllocError> {
    let words = wanted.words.as_str();
    let line = format!(in alloc; "type {name} {words}\n")?;
    out.extend_from_slice(line.as_bytes())?;
    if let Some(label) = wanted.label {
        let line = format!(in alloc; "label {label} {name}\n")?;
        out.extend_from_slice(line.as_bytes())?;
    }
    Ok(())
}

fn describe(
    alloc: Global,
    dump: &Dump<'_>,
    wanted: &Wanted<'_>,
    group: Group,
    shape: &Shape,
) -> Result<Type, Refused> {
    let label = Some(shape.label);
    match group {
        Group::Class { id } => {
            let class = dump.class_name(alloc, id)?;
            Ok(Type {
                name: format!(in alloc; "{class}.class")?,
                words: class_words(alloc, dump, wanted, id)?,
                label,
            })
        }
        Group::Instance { .. } if shape.is_empty() => Ok(Type {
            name: String::from_str(alloc, PRIMITIVE)?,
            words: String::from_str(alloc, "slots data class")?,
            label,
        }),
        Group::Instance { class, .. } => Ok(Type {
            name: dump.class_name(alloc, class)?,
            words: instance_words(alloc, dump, class)?,
            label,
        }),
        Group::Objects { class, .. } => Ok(Type {
            name: dump.class_name(alloc, class)?,
            words: String::from_str(alloc, "slots [] data class")?,
            label,
        }),
        Group::Values { kind, .. } => {
            let element = type_name(kind);
            Ok(Type {
                name: format!(in alloc; "{element}[]")?,
                words: format!(in alloc; "slots data length {element}[]")?,
                label: None,
            })
        }
    }
}

fn class_words(
    alloc: Global,
    dump: &Dump<'_>,
    wanted: &Wanted<'_>,
    id: u64,
) -> Result<String, AllocError> {
    let class = match dump.classes.get(id) {
        Some(class) if wanted.is_whole() => class,
        _ => return String::from_str(alloc, "slots data class"),
    };
    let mut words = String::from_str(alloc, "slots super loader signers domain")?;
    for _ in 0..class.constants {
        words.push_str(" constant")?;
    }
    for field in &class.statics {
        if field.reference.is_some() {
            words.push(' ')?;
            words.push_str(dump.text(alloc, field.name)?.as_str())?;
        }
    }
    words.push_str(" data class static[]")?;
    Ok(words)
}

// The names of the slots, and of each data word those of the fields in it.
fn instance_words(alloc: Global, dump: &Dump<'_>, class: u64) -> Result<String, Refused> {
    let mut words = Words {
        slots: String::from_str(alloc, "slots")?,
        data: String::from_str(alloc, " data class")?,
        at: 0,
    };
    for owner in dump.line_of(alloc, class)?.iter() {
        words.add_fields(alloc, dump, owner)?;
    }
    words.joined()
}

// The names of an instance's slots and data words.
#[derive(Drop)]
struct Words {
    slots: String,
    data: String,
    // How many bytes of data have names.
    at: usize,
}

impl Words {
    fn add_fields(&mut self, alloc: Global, dump: &Dump<'_>, owner: &Class) -> Result<(), Refused> {
        for field in &owner.fields {
            self.add(alloc, dump, *field)?;
        }
        Ok(())
    }

    fn add(&mut self, alloc: Global, dump: &Dump<'_>, field: Field) -> Result<(), Refused> {
        let name = dump.text(alloc, field.name)?;
        if field.kind == REFERENCE {
            self.slots.push(' ')?;
            self.slots.push_str(name.as_str())?;
            return Ok(());
        }
        let element = type_name(field.kind);
        let text = format!(in alloc; "{name}:{element}")?;
        self.add_value(text.as_str(), width_of(field.kind)?)
    }

    // Names a value of so many bytes in each word that it is in.
    fn add_value(&mut self, text: &str, width: usize) -> Result<(), Refused> {
        let gap = if self.at % 8 == 0 { " " } else { "," };
        self.data.push_str(gap)?;
        self.data.push_str(text)?;
        if (self.at % 8).saturating_add(width) > 8 {
            self.data.push(' ')?;
            self.data.push_str(text)?;
        }
        self.at = self.at.saturating_add(width);
        Ok(())
    }

    fn joined(self) -> Result<String, Refused> {
        let Words {
            mut slots,
            data,
            ..
        } = self;
        slots.push_str(data.as_str())?;
        Ok(slots)
    }
}
