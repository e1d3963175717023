//! What a dump says of its classes.
use crate::reader::Reader;
use crate::refused::Refused;
use std::alloc::Global;
use std::collections::HashMap;

/// A field of the instances of a class.
#[derive(Clone, Copy)]
pub(crate) struct Field {
    /// The identifier of its name.
    pub name: u64,
    /// The number of its type.
    pub kind: u8,
}

/// A static field of a class.
#[derive(Clone, Copy)]
pub(crate) struct Static {
    /// The identifier of its name.
    pub name: u64,
    /// What it references, 0 for null. None if it is no reference.
    pub reference: Option<u64>,
}

/// A class.
#[derive(Drop)]
pub(crate) struct Class {
    pub id: u64,
    /// The identifier of the class above it, 0 for none.
    pub above: u64,
    /// What its slots reference.
    pub references: Vec<u64>,
    /// How many of these are constants, behind the first four.
    pub constants: usize,
    pub statics: Vec<Static>,
    /// The constants and static fields that are no references, each with its lowest byte first.
    pub bytes: Vec<u8>,
    pub fields: Vec<Field>,
}

/// The classes of a dump, in its order.
#[derive(Drop)]
pub(crate) struct Classes {
    pub list: Vec<Class>,
    numbers: HashMap<u64, usize>,
}

impl Classes {
    pub(crate) fn new(alloc: Global) -> Classes {
        Classes {
            list: Vec::new(alloc),
            numbers: HashMap::new(alloc),
        }
    }

    pub(crate) fn push(&mut self, class: Class) -> Result<(), Refused> {
        self.numbers.insert(class.id, self.list.len())?;
        self.list.push(class)?;
        Ok(())
    }

    /// The class with this identifier.
    pub(crate) fn get(&self, id: u64) -> Option<&Class> {
        let number = self.numbers.get(&id)?;
        self.list.get(*number)
    }
}

/// The type of references, as dumps number types.
pub(crate) const REFERENCE: u8 = 2;

/// How many bytes a value of a type has that is no reference.
pub(crate) fn width_of(kind: u8) -> Result<usize, Refused> {
    match kind {
        4 | 8 => Ok(1),
        5 | 9 => Ok(2),
        6 | 10 => Ok(4),
        7 | 11 => Ok(8),
        _ => Err(Refused::Type(kind)),
    }
}

/// The name of such a type.
pub(crate) fn type_name(kind: u8) -> &'static str {
    match kind {
        4 => "boolean",
        5 => "char",
        6 => "float",
        7 => "double",
        8 => "byte",
        9 => "short",
        10 => "int",
        _ => "long",
    }
}

/// Reads what stands of a class behind its tag.
pub(crate) fn read_class(alloc: Global, reader: &mut Reader<'_>) -> Result<Class, Refused> {
    let id = reader.id()?;
    reader.number()?;
    let above = reader.id()?;
    let mut class = Class {
        id,
        above,
        references: Vec::new(alloc),
        constants: 0,
        statics: Vec::new(alloc),
        bytes: Vec::new(alloc),
        fields: Vec::new(alloc),
    };
    class.references.push(above)?;
    for _ in 0..3u32 {
        class.references.push(reader.id()?)?;
    }
    // Two identifiers that are kept free, and the bytes of an instance.
    reader.id()?;
    reader.id()?;
    reader.number()?;
    read_constants(&mut class, reader)?;
    read_statics(&mut class, reader)?;
    read_fields(&mut class, reader)?;
    Ok(class)
}

fn read_constants(class: &mut Class, reader: &mut Reader<'_>) -> Result<(), Refused> {
    for _ in 0..reader.short()? {
        reader.short()?;
        if let Some(id) = read_value(&mut class.bytes, reader)? {
            class.references.push(id)?;
        }
    }
    class.constants = class.references.len().saturating_sub(4);
    Ok(())
}

fn read_statics(class: &mut Class, reader: &mut Reader<'_>) -> Result<(), Refused> {
    for _ in 0..reader.short()? {
        let name = reader.id()?;
        let reference = read_value(&mut class.bytes, reader)?;
        if let Some(id) = reference {
            class.references.push(id)?;
        }
        class.statics.push(Static { name, reference })?;
    }
    Ok(())
}

fn read_fields(class: &mut Class, reader: &mut Reader<'_>) -> Result<(), Refused> {
    for _ in 0..reader.short()? {
        let name = reader.id()?;
        let kind = reader.byte()?;
        class.fields.push(Field { name, kind })?;
    }
    Ok(())
}

// Reads a type and a value of it: an identifier, which is handed back, or bytes.
fn read_value(bytes: &mut Vec<u8>, reader: &mut Reader<'_>) -> Result<Option<u64>, Refused> {
    let kind = reader.byte()?;
    if kind == REFERENCE {
        return Ok(Some(reader.id()?));
    }
    for byte in reader.take(width_of(kind)?)?.iter().rev() {
        bytes.push(*byte)?;
    }
    Ok(None)
}
