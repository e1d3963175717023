//! The words of an image, and its remembered sets.
use crate::dump::Dump;
use crate::layout::Layout;
use crate::reader::Reader;
use crate::refused::Refused;
use crate::shape::{Body, Piece, Shape};
use crate::walk::Found;
use crate::wanted::Sizes;
use g1_words::Region;
use std::alloc::Global;

/// The words and the sets, which are filled object by object.
#[derive(Drop)]
pub(crate) struct Filling<'a> {
    found: Found<'a>,
    /// The reference word of each object of the dump, 0 if it is not in the image.
    words_of: Vec<u32>,
    blank: bool,
    /// The used words of all regions behind each other.
    pub words: Vec<u64>,
    // How many of them precede those of each region.
    bases: Vec<u64>,
    sets: Sets,
}

/// The remembered cards of each region.
#[derive(Drop)]
struct Sets {
    region_shift: u32,
    card_shift: u32,
    cards: Vec<Vec<u32>>,
}

impl Sets {
    // Remembers the card of a slot, if it references another region.
    fn add(&mut self, slot: u64, word: u32) -> Result<(), Refused> {
        let Some(target) = word.checked_sub(1) else {
            return Ok(());
        };
        let region = u64::from(target).wrapping_shr(self.region_shift);
        if region == slot.wrapping_shr(self.region_shift) {
            return Ok(());
        }
        let card = u32::try_from(slot.wrapping_shr(self.card_shift)).unwrap_or(u32::MAX);
        if let Some(cards) = self.cards.get_mut(region as usize)
            && cards.last() != Some(&card)
        {
            cards.push(card)?;
        }
        Ok(())
    }

    // Each set rising. A humongous object stands above some that come after it.
    fn sort(&mut self) {
        for cards in self.cards.iter_mut() {
            cards.sort_unstable();
            cards.dedup();
        }
    }
}

impl<'a> Filling<'a> {
    pub(crate) fn new(
        alloc: Global,
        found: Found<'a>,
        layout: &Layout,
        sizes: Sizes,
        words_of: Vec<u32>,
        blank: bool,
    ) -> Result<Filling<'a>, Refused> {
        let (bases, used) = bases_of(alloc, layout.regions.as_slice())?;
        let mut cards = Vec::with_capacity(alloc, sizes.regions as usize)?;
        for _ in 0..sizes.regions {
            cards.push(Vec::new(alloc))?;
        }
        Ok(Filling {
            found,
            words_of,
            blank,
            words: vec![in alloc; 0; used as usize]?,
            bases,
            sets: Sets {
                region_shift: sizes.region_words.trailing_zeros(),
                card_shift: sizes.card_words.trailing_zeros(),
                cards,
            },
        })
    }

    /// The reference word of what an identifier names, 0 if the image does not have it.
    pub(crate) fn word_of(&self, id: u64) -> u32 {
        word_of(self.found, self.words_of.as_slice(), id)
    }

    /// Writes an object of the dump to its address.
    pub(crate) fn put(&mut self, number: u32, start: u32) -> Result<(), Refused> {
        let found = self.found;
        let Some((shape, place)) = found.shape_of(number) else {
            return Err(Refused::Contradiction);
        };
        let at = self.place_of(start)?;
        let Filling {
            words,
            words_of,
            blank,
            sets,
            ..
        } = self;
        let object = object_at(words.as_mut_slice(), at, shape.size())?;
        let (slots, data) = cut_object(object, shape.slots, shape.size())?;
        if let Some((label, data)) = data.split_first_mut() {
            *label = shape.label;
            let mut slots = Slots {
                at: u64::from(start).saturating_add(1),
                words: slots,
            };
            let source = Source {
                found,
                words_of: words_of.as_slice(),
                place,
                shape,
            };
            source.put_slots(&mut slots, sets)?;
            if !*blank {
                source.put_data(data)?;
            }
        }
        Ok(())
    }

    /// Writes an array that holds roots, of which these are the reference words.
    pub(crate) fn put_roots(&mut self, roots: &[u32], start: u32) -> Result<(), Refused> {
        let at = self.place_of(start)?;
        let count = roots.len() as u64;
        let size = count.saturating_add(1);
        let object = object_at(self.words.as_mut_slice(), at, size)?;
        let (slots, _) = cut_object(object, count, size)?;
        let mut slot = u64::from(start);
        for (place, word) in slots.iter_mut().zip(roots.iter()) {
            slot = slot.saturating_add(1);
            *place = u64::from(*word);
            self.sets.add(slot, *word)?;
        }
        Ok(())
    }

    // The place among the used words of what has this address.
    fn place_of(&self, start: u32) -> Result<usize, Refused> {
        let start = u64::from(start);
        let region = start.wrapping_shr(self.sets.region_shift);
        let Some(base) = self.bases.as_slice().get(region as usize) else {
            return Err(Refused::Contradiction);
        };
        let first = region.wrapping_shl(self.sets.region_shift);
        Ok(base.saturating_add(start.saturating_sub(first)) as usize)
    }

    /// The words, and the remembered cards of each region, rising.
    pub(crate) fn finish(self) -> (Vec<u64>, Vec<Vec<u32>>) {
        let Filling {
            words,
            mut sets,
            ..
        } = self;
        sets.sort();
        let Sets { cards, .. } = sets;
        (words, cards)
    }
}

// How many used words precede those of each region, and how many there are.
fn bases_of(alloc: Global, regions: &[Region]) -> Result<(Vec<u64>, u64), Refused> {
    let mut bases = Vec::with_capacity(alloc, regions.len())?;
    let mut used = 0u64;
    for region in regions {
        bases.push(used)?;
        used = used.saturating_add(u64::from(region.top));
    }
    Ok((bases, used))
}

fn word_of(found: Found<'_>, words_of: &[u32], id: u64) -> u32 {
    if id == 0 {
        return 0;
    }
    match found.index.get(id) {
        Some(number) => words_of.get(number as usize).copied().unwrap_or(0),
        None => 0,
    }
}

fn object_at(words: &mut [u64], at: usize, size: u64) -> Result<&mut [u64], Refused> {
    let end = at.saturating_add(size as usize);
    match words.get_mut(at..end) {
        Some(object) => Ok(object),
        None => Err(Refused::Contradiction),
    }
}

// Writes the header of an object, and hands back its slots and all behind them.
fn cut_object(
    object: &mut [u64],
    slots: u64,
    size: u64,
) -> Result<(&mut [u64], &mut [u64]), Refused> {
    let Some((header, rest)) = object.split_first_mut() else {
        return Err(Refused::Contradiction);
    };
    *header = size.wrapping_shl(32) | slots;
    match rest.split_at_mut_checked(slots as usize) {
        Some(cut) => Ok(cut),
        None => Err(Refused::Contradiction),
    }
}

// The slots of an object that is written, and the address of the first.
#[derive(Drop)]
struct Slots<'w> {
    at: u64,
    words: &'w mut [u64],
}

impl<'w> Slots<'w> {
    fn set(&mut self, slot: usize, word: u32, sets: &mut Sets) -> Result<(), Refused> {
        if let Some(place) = self.words.get_mut(slot) {
            *place = u64::from(word);
        }
        sets.add(self.at.saturating_add(slot as u64), word)
    }
}

// What an object is made of.
#[derive(Clone, Copy)]
struct Source<'a> {
    found: Found<'a>,
    words_of: &'a [u32],
    place: u64,
    shape: &'a Shape,
}

impl<'a> Source<'a> {
    fn dump(&self) -> &'a Dump<'a> {
        self.found.dump
    }

    fn word_of(&self, id: u64) -> u32 {
        word_of(self.found, self.words_of, id)
    }

    fn put_slots(&self, slots: &mut Slots<'_>, sets: &mut Sets) -> Result<(), Refused> {
        match &self.shape.body {
            Body::Fields(pieces) => self.put_fields(pieces.as_slice(), slots, sets),
            Body::Elements => {
                let mut reader = self.dump().fields_at(self.place);
                for slot in 0..self.shape.slots as usize {
                    slots.set(slot, self.word_of(reader.id()?), sets)?;
                }
                Ok(())
            }
            Body::Class(id) => {
                let Some(class) = self.dump().classes.get(*id) else {
                    return Err(Refused::Contradiction);
                };
                for (slot, id) in class.references.iter().enumerate() {
                    slots.set(slot, self.word_of(*id), sets)?;
                }
                Ok(())
            }
            _ => Ok(()),
        }
    }

    fn put_fields(
        &self,
        pieces: &[Piece],
        slots: &mut Slots<'_>,
        sets: &mut Sets,
    ) -> Result<(), Refused> {
        let mut reader = self.dump().fields_at(self.place);
        let mut slot = 0usize;
        for piece in pieces {
            match piece {
                Piece::Value { bytes, .. } => {
                    reader.take(*bytes)?;
                }
                Piece::Reference { is_kept } => {
                    let id = reader.id()?;
                    if *is_kept {
                        slots.set(slot, self.word_of(id), sets)?;
                    }
                    slot = slot.saturating_add(1);
                }
            }
        }
        Ok(())
    }

    // Fills the words behind the label.
    fn put_data(&self, data: &mut [u64]) -> Result<(), Refused> {
        match &self.shape.body {
            Body::Fields(pieces) => {
                put_values(
                    data,
                    pieces.as_slice(),
                    self.dump().fields_at(self.place),
                    self.dump(),
                )
            }
            Body::Values(width) => {
                let mut reader = self.dump().values_at(self.place);
                let bytes = reader.take(self.shape.bytes as usize)?;
                copy_values(data, bytes, *width);
                Ok(())
            }
            Body::Class(id) => {
                if let Some(class) = self.dump().classes.get(*id) {
                    copy_values(data, class.bytes.as_slice(), 1);
                }
                Ok(())
            }
            _ => Ok(()),
        }
    }
}

// Packs the values of an instance into words without gaps, the first one lowest.
fn put_values(
    data: &mut [u64],
    pieces: &[Piece],
    mut reader: Reader<'_>,
    dump: &Dump<'_>,
) -> Result<(), Refused> {
    let mut at = 0usize;
    for piece in pieces {
        match piece {
            Piece::Reference { .. } => {
                reader.take(dump.ids.bytes())?;
            }
            Piece::Value { bytes, is_kept } => {
                let value = value_of(reader.take(*bytes)?);
                if *is_kept {
                    put_value(data, at, value);
                }
                at = at.saturating_add(*bytes);
            }
        }
    }
    Ok(())
}

// A number of up to 8 bytes, the highest one first.
fn value_of(bytes: &[u8]) -> u64 {
    let mut value = 0u64;
    for byte in bytes {
        value = value.wrapping_shl(8) | u64::from(*byte);
    }
    value
}

// How many bits precede a byte in its word.
fn shift_of(at: usize) -> u32 {
    match at % 8 {
        0 => 0,
        1 => 8,
        2 => 16,
        3 => 24,
        4 => 32,
        5 => 40,
        6 => 48,
        _ => 56,
    }
}

// Puts a value at a byte of the words. Its bytes there are zeros.
fn put_value(data: &mut [u64], at: usize, value: u64) {
    let word = at / 8;
    let shift = shift_of(at);
    if let Some(place) = data.get_mut(word) {
        *place |= value.wrapping_shl(shift);
    }
    if shift > 0
        && let Some(place) = data.get_mut(word.saturating_add(1))
    {
        *place |= value.wrapping_shr(64u32.saturating_sub(shift));
    }
}

// Copies the values of an array, each of which has so many bytes with the highest one first, into words that have the
// lowest one first.
fn copy_values(data: &mut [u64], bytes: &[u8], width: usize) {
    for (word, chunk) in data.iter_mut().zip(bytes.chunks(8)) {
        let value = match chunk.first_chunk::<8>() {
            Some(chunk) => u64::from_be_bytes(*chunk),
            None => padded(chunk),
        };
        *word = first_lowest(value, width);
    }
}

// Fewer than 8 bytes, the highest one first, with zeros behind them.
fn padded(bytes: &[u8]) -> u64 {
    let mut value = 0u64;
    let mut shift = 64u32;
    for byte in bytes {
        shift = shift.saturating_sub(8);
        value |= u64::from(*byte).wrapping_shl(shift);
    }
    value
}

// A word that has values of so many bytes, the first of which is highest, with the first one lowest.
fn first_lowest(word: u64, width: usize) -> u64 {
    match width {
        1 => word.swap_bytes(),
        2 => {
            let pairs = word.rotate_left(32);
            (pairs & 0x0000_ffff_0000_ffff).wrapping_shl(16)
                | (pairs.wrapping_shr(16) & 0x0000_ffff_0000_ffff)
        }
        4 => word.rotate_left(32),
        _ => word,
    }
}
