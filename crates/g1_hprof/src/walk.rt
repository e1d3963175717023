//! What hangs from static fields.
use crate::dump::{Dump, Group, is_reference};
use crate::index::Index;
use crate::reader::Reader;
use crate::refused::{Refused, heap_limit};
use crate::shape::{Body, Piece, Shape};
use std::alloc::{AllocError, Global};

/// A dump with what was found of it.
#[derive(Clone, Copy)]
pub(crate) struct Found<'a> {
    pub dump: &'a Dump<'a>,
    pub shapes: &'a [Shape],
    pub index: &'a Index<'a>,
}

impl<'a> Found<'a> {
    /// The shape of an object, and where its fields or elements are in the dump.
    pub(crate) fn shape_of(self, number: u32) -> Option<(&'a Shape, u64)> {
        let (group, place) = self.dump.objects.find(number)?;
        let shape = self.shapes.get(group as usize)?;
        Some((shape, place))
    }
}

/// The way to an object: the one before it, if there is one, and the number of the slot there, or of the root.
#[derive(Clone, Copy)]
struct Way {
    before: Option<u32>,
    slot: u32,
}

/// A reference that leads to nothing, and the way that it ends.
#[derive(Clone, Copy)]
pub(crate) struct Stray {
    id: u64,
    way: Way,
}

/// The objects that were reached so far.
#[derive(Drop)]
pub(crate) struct Walk<'a> {
    found: Found<'a>,
    /// Whether each object was reached.
    pub marks: Vec<bool>,
    // Those that have slots, in the order in which they were reached.
    queue: Vec<u32>,
    // The way to each object, if ways are wanted.
    ways: Vec<Way>,
    words: u64,
    /// The first reference that leads to nothing.
    pub stray: Option<Stray>,
}

impl<'a> Walk<'a> {
    /// Walks breadth first from what these identifiers name.
    pub(crate) fn run(
        alloc: Global,
        found: Found<'a>,
        starts: &[u64],
    ) -> Result<Walk<'a>, Refused> {
        Walk::run_from(alloc, found, starts, Vec::new(alloc))
    }

    // Walks, and writes the way to each object that has a place among the ways.
    fn run_from(
        alloc: Global,
        found: Found<'a>,
        starts: &[u64],
        ways: Vec<Way>,
    ) -> Result<Walk<'a>, Refused> {
        let mut walk = Walk {
            found,
            marks: vec![in alloc; false; found.dump.objects.len()]?,
            queue: Vec::new(alloc),
            ways,
            words: 0,
            stray: None,
        };
        for (slot, id) in starts.iter().enumerate() {
            walk.meet(*id, Way::new(None, slot))?;
        }
        // Each object is reached once.
        for next in 0..found.dump.objects.len() {
            let Some(number) = walk.queue.as_slice().get(next).copied() else {
                break;
            };
            walk.open(number)?;
        }
        Ok(walk)
    }

    fn open(&mut self, number: u32) -> Result<(), Refused> {
        let found = self.found;
        let Some((shape, place)) = found.shape_of(number) else {
            return Ok(());
        };
        match &shape.body {
            Body::Fields(pieces) => {
                let reader = found.dump.fields_at(place);
                self.meet_fields(number, pieces.as_slice(), reader)
            }
            Body::Elements => {
                let reader = found.dump.fields_at(place);
                self.meet_elements(number, shape.slots, reader)
            }
            _ => Ok(()),
        }
    }

    fn meet_fields(
        &mut self,
        number: u32,
        pieces: &[Piece],
        mut reader: Reader<'_>,
    ) -> Result<(), Refused> {
        let mut slot = 0usize;
        for piece in pieces {
            match piece {
                Piece::Value { bytes, .. } => {
                    reader.take(*bytes)?;
                }
                Piece::Reference { is_kept } => {
                    let id = reader.id()?;
                    if *is_kept {
                        self.meet(id, Way::new(Some(number), slot))?;
                    }
                    slot = slot.saturating_add(1);
                }
            }
        }
        Ok(())
    }

    fn meet_elements(
        &mut self,
        number: u32,
        slots: u64,
        mut reader: Reader<'_>,
    ) -> Result<(), Refused> {
        for slot in 0..slots as usize {
            let id = reader.id()?;
            self.meet(id, Way::new(Some(number), slot))?;
        }
        Ok(())
    }

    // Follows a reference.
    fn meet(&mut self, id: u64, way: Way) -> Result<(), Refused> {
        if id == 0 {
            return Ok(());
        }
        let Some(number) = self.found.index.get(id) else {
            if self.stray.is_none() {
                self.stray = Some(Stray { id, way });
            }
            return Ok(());
        };
        match self.marks.get_mut(number as usize) {
            Some(mark) if !*mark => *mark = true,
            _ => return Ok(()),
        }
        if let Some(place) = self.ways.get_mut(number as usize) {
            *place = way;
        }
        self.count(number)
    }

    // Counts the words of an object that was reached, and remembers it if it has slots.
    fn count(&mut self, number: u32) -> Result<(), Refused> {
        let Some((shape, _)) = self.found.shape_of(number) else {
            return Ok(());
        };
        self.words = self.words.saturating_add(shape.size());
        if self.words > heap_limit() {
            return Err(Refused::TooLarge {
                words: self.words,
                is_whole: false,
            });
        }
        if shape.slots > 0 {
            self.queue.push(number)?;
        }
        Ok(())
    }
}

impl Way {
    fn new(before: Option<u32>, slot: usize) -> Way {
        Way {
            before,
            slot: u32::try_from(slot).unwrap_or(u32::MAX),
        }
    }
}

/// The refusal of a reference that leads to nothing, with the path to it in Java's names. The walk is made again,
/// with the way to each object.
pub(crate) fn refuse_stray(
    alloc: Global,
    found: Found<'_>,
    names: &[String],
    starts: &[u64],
) -> Result<Refused, Refused> {
    let ways = vec![in alloc; Way::new(None, 0); found.dump.objects.len()]?;
    let walk = Walk::run_from(alloc, found, starts, ways)?;
    match walk.stray {
        Some(stray) => Ok(Refused::Dangling {
            path: walk.path_of(alloc, names, stray.way)?,
            id: stray.id,
        }),
        None => Err(Refused::Contradiction),
    }
}

impl<'a> Walk<'a> {
    // A way in Java's names, as Judge.root.cache.table[21288].value.
    fn path_of(&self, alloc: Global, names: &[String], way: Way) -> Result<String, Refused> {
        let mut steps = Vec::new(alloc);
        let mut way = way;
        for _ in 0..self.marks.len() {
            let Some(before) = way.before else {
                break;
            };
            steps.push(self.step_of(alloc, before, way.slot)?)?;
            way = self.way_to(before);
        }
        let mut path = String::new(alloc);
        path.push_str(name_at(names, way.slot))?;
        for step in steps.iter().rev() {
            path.push_str(step.as_str())?;
        }
        Ok(path)
    }

    fn way_to(&self, number: u32) -> Way {
        match self.ways.as_slice().get(number as usize) {
            Some(way) => *way,
            None => Way::new(None, 0),
        }
    }

    // A slot of an object in a path.
    fn step_of(&self, alloc: Global, number: u32, slot: u32) -> Result<String, Refused> {
        let dump = self.found.dump;
        let group = match dump.objects.find(number) {
            Some((group, _)) => dump.objects.groups.as_slice().get(group as usize),
            None => None,
        };
        match group {
            Some(Group::Instance { class, .. }) => slot_name(alloc, dump, *class, slot),
            _ => Ok(format!(in alloc; "[{slot}]")?),
        }
    }
}

fn name_at(names: &[String], number: u32) -> &str {
    match names.get(number as usize) {
        Some(name) => name.as_str(),
        None => "",
    }
}

fn slot_name(alloc: Global, dump: &Dump<'_>, class: u64, slot: u32) -> Result<String, Refused> {
    let mut left = slot;
    for owner in dump.line_of(alloc, class)?.iter() {
        for field in &owner.fields {
            if is_reference(field.kind) {
                if left == 0 {
                    let name = dump.text(alloc, field.name)?;
                    return Ok(format!(in alloc; ".{name}")?);
                }
                left = left.saturating_sub(1);
            }
        }
    }
    Err(Refused::Contradiction)
}
