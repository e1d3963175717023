//! The parts of a dump: its texts, its classes, its roots and its objects.
use crate::classes::{Class, Classes, REFERENCE, read_class, width_of};
use crate::reader::{IdWidth, Reader};
use crate::refused::{Refused, heap_limit};
use std::alloc::{AllocError, Global};
use std::collections::HashMap;

/// What objects of one group have in common: their class or the type of their elements, and their length.
#[derive(Clone, Copy, PartialEq, Eq, Hash)]
pub(crate) enum Group {
    Class { id: u64 },
    Instance { class: u64, bytes: u32 },
    Objects { class: u64, count: u32 },
    Values { kind: u8, count: u32 },
}

/// The objects of a dump, in its order.
#[derive(Drop)]
pub(crate) struct Objects {
    pub ids: Vec<u64>,
    /// Where each begins in the file.
    pub places: Vec<u64>,
    /// The number of the group of each.
    pub group_of: Vec<u32>,
    pub groups: Vec<Group>,
    numbers: HashMap<Group, u32>,
}

/// A dump, of which objects are known by their places.
#[derive(Drop)]
pub(crate) struct Dump<'a> {
    pub file: &'a [u8],
    pub ids: IdWidth,
    texts: HashMap<u64, &'a [u8]>,
    class_names: HashMap<u64, u64>,
    pub classes: Classes,
    pub roots: Vec<u64>,
    pub objects: Objects,
    // The fewest words that the objects take, and whether all of them go into one image.
    least_words: u64,
    is_whole: bool,
    // Whether the end of the heap was seen.
    is_ended: bool,
}

// The first line of a dump. Its version is the last but one of these bytes.
const FIRST_LINE: [u8; 19] = *b"JAVA PROFILE 1.0.2\0";

const OLDER_LINE: [u8; 19] = *b"JAVA PROFILE 1.0.1\0";

// Behind the first line stand the bytes of an identifier and a time.
const HEAD: usize = 31;

// The bytes of an identifier, if the file begins as a dump does.
fn read_head(alloc: Global, file: &[u8]) -> Result<IdWidth, Refused> {
    let mut reader = Reader::new(file, FIRST_LINE.len(), IdWidth::Four);
    if !file.starts_with(&FIRST_LINE) && !file.starts_with(&OLDER_LINE) {
        return Err(foreign(alloc, file)?);
    }
    if file.len() < HEAD {
        return Err(Refused::CutLine);
    }
    match reader.number()? {
        4 => Ok(IdWidth::Four),
        8 => Ok(IdWidth::Eight),
        count => Err(Refused::IdBytes(count)),
    }
}

// What bytes are that do not begin as a dump does.
fn foreign(alloc: Global, file: &[u8]) -> Result<Refused, AllocError> {
    let head = file.get(..HEAD).unwrap_or(file);
    if head.starts_with(&[0x1f, 0x8b]) {
        return Ok(Refused::Compressed);
    }
    if !head.is_empty() && (FIRST_LINE.starts_with(head) || OLDER_LINE.starts_with(head)) {
        return Ok(Refused::CutLine);
    }
    let line = first_line(head);
    if line.len() < head.len() && line.starts_with(b"JAVA PROFILE ") {
        return Ok(Refused::Version(String::from_utf8_lossy(alloc, line)?));
    }
    Ok(Refused::Foreign)
}

// The bytes in front of the first zero.
fn first_line(bytes: &[u8]) -> &[u8] {
    for (at, byte) in bytes.iter().enumerate() {
        if *byte == 0 {
            return bytes.get(..at).unwrap_or(bytes);
        }
    }
    bytes
}

impl Objects {
    fn new(alloc: Global) -> Objects {
        Objects {
            ids: Vec::new(alloc),
            places: Vec::new(alloc),
            group_of: Vec::new(alloc),
            groups: Vec::new(alloc),
            numbers: HashMap::new(alloc),
        }
    }

    pub(crate) fn len(&self) -> usize {
        self.ids.len()
    }

    /// The group and the place of an object.
    pub(crate) fn find(&self, number: u32) -> Option<(u32, u64)> {
        let group = self.group_of.get(number as usize)?;
        let place = self.places.get(number as usize)?;
        Some((*group, *place))
    }

    fn push(&mut self, id: u64, place: usize, group: Group) -> Result<(), Refused> {
        let number = self.number_of(group)?;
        // No file has so many objects that a number of 32 bits is too small, unless memory has run out before.
        if u32::try_from(self.ids.len()).is_err() {
            return Err(Refused::Memory);
        }
        self.ids.push(id)?;
        self.places.push(place as u64)?;
        self.group_of.push(number)?;
        Ok(())
    }

    fn number_of(&mut self, group: Group) -> Result<u32, Refused> {
        if let Some(number) = self.numbers.get(&group) {
            return Ok(*number);
        }
        let Ok(number) = u32::try_from(self.groups.len()) else {
            return Err(Refused::Memory);
        };
        self.numbers.insert(group, number)?;
        self.groups.push(group)?;
        Ok(number)
    }
}

/// How many words so many bytes take.
pub(crate) fn words_of(bytes: u64) -> u64 {
    bytes / 8 + u64::from(bytes % 8 != 0)
}

impl<'a> Dump<'a> {
    /// Reads a dump. If all objects go into one image, too many of them are refused as soon as they are read.
    pub(crate) fn read(alloc: Global, file: &'a [u8], is_whole: bool) -> Result<Dump<'a>, Refused> {
        let ids = read_head(alloc, file)?;
        let mut dump = Dump {
            file,
            ids,
            texts: HashMap::new(alloc),
            class_names: HashMap::new(alloc),
            classes: Classes::new(alloc),
            roots: Vec::new(alloc),
            objects: Objects::new(alloc),
            least_words: 0,
            is_whole,
            is_ended: false,
        };
        dump.read_records(alloc, Reader::new(file, HEAD, ids))?;
        if !dump.is_ended {
            return Err(Refused::NoEnd);
        }
        Ok(dump)
    }

    fn read_records(&mut self, alloc: Global, mut reader: Reader<'a>) -> Result<(), Refused> {
        // A record takes a byte at least.
        for _ in 0..reader.len() {
            if reader.is_done() {
                return Ok(());
            }
            let tag = reader.byte()?;
            reader.number()?;
            let length = reader.number()?;
            let part = reader.part(length as usize)?;
            self.read_record(alloc, tag, part)?;
        }
        Ok(())
    }

    fn read_record(&mut self, alloc: Global, tag: u8, mut part: Reader<'a>) -> Result<(), Refused> {
        match tag {
            // A text.
            0x01 => {
                let id = part.id()?;
                self.texts.insert(id, part.rest())?;
            }
            // A class is loaded.
            0x02 => {
                part.number()?;
                let class = part.id()?;
                part.number()?;
                let name = part.id()?;
                self.class_names.insert(class, name)?;
            }
            // The heap, whole or a segment of it.
            0x0c | 0x1c => {
                self.is_ended = tag == 0x0c;
                self.read_parts(alloc, part)?;
            }
            // The end of its segments.
            0x2c => self.is_ended = true,
            _ => {}
        }
        Ok(())
    }

    fn read_parts(&mut self, alloc: Global, mut reader: Reader<'a>) -> Result<(), Refused> {
        // A part takes a byte at least.
        for _ in 0..reader.len() {
            if reader.is_done() {
                return Ok(());
            }
            let place = reader.at();
            match reader.byte()? {
                0x20 => self.read_class(alloc, place, &mut reader)?,
                0x21 => self.read_instance(place, &mut reader)?,
                0x22 => self.read_objects(place, &mut reader)?,
                0x23 => self.read_values(place, &mut reader)?,
                tag => self.read_root(tag, place, &mut reader)?,
            }
        }
        Ok(())
    }

    fn read_class(
        &mut self,
        alloc: Global,
        place: usize,
        reader: &mut Reader<'a>,
    ) -> Result<(), Refused> {
        let class = read_class(alloc, reader)?;
        let id = class.id;
        let words = (class.references.len() as u64).saturating_add(words_of(
            class.bytes.len() as u64,
        ));
        self.classes.push(class)?;
        self.add(id, place, Group::Class { id }, words)
    }

    fn read_instance(&mut self, place: usize, reader: &mut Reader<'a>) -> Result<(), Refused> {
        let id = reader.id()?;
        reader.number()?;
        let class = reader.id()?;
        let bytes = reader.number()?;
        reader.take(bytes as usize)?;
        let group = Group::Instance { class, bytes };
        self.add(id, place, group, words_of(u64::from(bytes)))
    }

    fn read_objects(&mut self, place: usize, reader: &mut Reader<'a>) -> Result<(), Refused> {
        let id = reader.id()?;
        reader.number()?;
        let count = reader.number()?;
        let class = reader.id()?;
        reader.take((count as usize).saturating_mul(self.ids.bytes()))?;
        let group = Group::Objects { class, count };
        self.add(id, place, group, u64::from(count))
    }

    fn read_values(&mut self, place: usize, reader: &mut Reader<'a>) -> Result<(), Refused> {
        let id = reader.id()?;
        reader.number()?;
        let count = reader.number()?;
        let kind = reader.byte()?;
        let bytes = (count as usize).saturating_mul(width_of(kind)?);
        reader.take(bytes)?;
        let group = Group::Values { kind, count };
        self.add(id, place, group, words_of(bytes as u64))
    }

    fn read_root(&mut self, tag: u8, place: usize, reader: &mut Reader<'a>) -> Result<(), Refused> {
        // How many bytes stand behind the identifier.
        let more = match tag {
            0xff | 0x05 | 0x07 => 0,
            0x01 => self.ids.bytes(),
            0x02 | 0x03 | 0x08 => 8,
            0x04 | 0x06 => 4,
            _ => return Err(Refused::Tag { tag, at: place }),
        };
        let id = reader.id()?;
        reader.take(more)?;
        self.roots.push(id)?;
        Ok(())
    }

    // Notes an object that has at least so many words behind its header and its label.
    fn add(&mut self, id: u64, place: usize, group: Group, words: u64) -> Result<(), Refused> {
        self.least_words = self.least_words.saturating_add(words.saturating_add(2));
        if self.is_whole && self.least_words > heap_limit() {
            return Err(Refused::TooLarge {
                words: self.least_words,
                is_whole: false,
            });
        }
        self.objects.push(id, place, group)
    }

    /// The fields of an instance, or the elements of an array of objects, that begins at this place.
    pub(crate) fn fields_at(&self, place: u64) -> Reader<'a> {
        // In front of them are the tag, two numbers and two identifiers.
        let head = self.ids.bytes().saturating_mul(2).saturating_add(9);
        Reader::new(self.file, (place as usize).saturating_add(head), self.ids)
    }

    /// The values of a primitive array that begins at this place.
    pub(crate) fn values_at(&self, place: u64) -> Reader<'a> {
        // In front of them are the tag, an identifier, two numbers and a type.
        let head = self.ids.bytes().saturating_add(10);
        Reader::new(self.file, (place as usize).saturating_add(head), self.ids)
    }

    /// A text of the dump, as the name of a field.
    pub(crate) fn text(&self, alloc: Global, id: u64) -> Result<String, AllocError> {
        match self.texts.get(&id) {
            Some(bytes) if !bytes.is_empty() => {
                without_spaces(alloc, String::from_utf8_lossy(alloc, bytes)?.as_str())
            }
            _ => format!(in alloc; "name@{id:x}"),
        }
    }

    /// The name of a class, as Java writes it.
    pub(crate) fn class_name(&self, alloc: Global, class: u64) -> Result<String, AllocError> {
        match self.class_names.get(&class) {
            Some(name) if self.texts.contains_key(name) => {
                java_name(alloc, self.text(alloc, *name)?.as_str())
            }
            _ => format!(in alloc; "class@{class:x}"),
        }
    }

    /// The classes of an instance's fields: its own, the one above it, and so on.
    pub(crate) fn line_of(&self, alloc: Global, class: u64) -> Result<Vec<&Class>, Refused> {
        let mut line = Vec::new(alloc);
        let mut id = class;
        // A line that is longer than there are classes goes in a circle.
        for _ in 0..self.classes.list.len() {
            if id == 0 {
                return Ok(line);
            }
            let Some(found) = self.classes.get(id) else {
                return Err(Refused::NoClassOf(id));
            };
            line.push(found)?;
            id = found.above;
        }
        if id == 0 {
            Ok(line)
        } else {
            Err(Refused::NoClassOf(id))
        }
    }
}

fn without_spaces(alloc: Global, text: &str) -> Result<String, AllocError> {
    text.chars()
        .map(|letter| if letter == ' ' { '_' } else { letter })
        .collect(alloc)
}

// A class's name as Java writes it: [[Ljava/lang/String; is java.lang.String[][].
fn java_name(alloc: Global, text: &str) -> Result<String, AllocError> {
    let inner = text.trim_start_matches('[');
    let depth = text.len().saturating_sub(inner.len());
    let named = if depth == 0 {
        inner
    } else {
        element_name(inner)
    };
    let mut name = named
        .chars()
        .map(|letter| if letter == '/' { '.' } else { letter })
        .collect::<String>(alloc)?;
    for _ in 0..depth {
        name.push_str("[]")?;
    }
    Ok(name)
}

// What an array of Java's inner notation has as elements.
fn element_name(inner: &str) -> &str {
    if let Some(rest) = inner.strip_prefix('L')
        && let Some(name) = rest.strip_suffix(';')
    {
        return name;
    }
    match inner {
        "Z" => "boolean",
        "C" => "char",
        "F" => "float",
        "D" => "double",
        "B" => "byte",
        "S" => "short",
        "I" => "int",
        "J" => "long",
        _ => inner,
    }
}

/// Whether a type is that of references.
pub(crate) fn is_reference(kind: u8) -> bool {
    kind == REFERENCE
}
