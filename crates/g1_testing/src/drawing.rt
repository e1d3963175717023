//! Images as lines: they are read into a drawing, and its bytes are laid by hand.
use g1_words::Fault;
use std::alloc::Global;
use std::str::SplitAsciiWhitespace;

/// A line that draws nothing.
const BAD: Fault = Fault::Line(0);

/// The kinds of region that no line draws: 0 is free, and 3 goes on with a humongous object.
const FREE: u32 = 0;

const CONTINUATION: u32 = 3;

/// A region: its kind and flags, how many words its objects have, and the cards that it remembers.
#[derive(Drop)]
struct Part {
    kind: u32,
    flags: u32,
    used: usize,
    remembered: Vec<u32>,
}

/// An image as far as its lines are read, with the words of all objects. It may break any rule of images.
#[derive(Drop)]
struct Drawing {
    alloc: Global,
    region_words: u32,
    card_words: u32,
    regions: u32,
    current: u32,
    roots: Vec<u64>,
    dirty: Vec<u32>,
    parts: Vec<Part>,
    words: Vec<u64>,
}

/// The bytes, of version 2, of the image that the lines draw.
///
/// # Errors
///
/// `Fault::Line` with the number of the first line that draws nothing, counted from 1; `Fault::Memory`.
pub fn text(alloc: Global, lines: &str) -> Result<Vec<u8>, Fault> {
    let mut drawing = Drawing::new(alloc);
    let mut number = 0u64;
    for line in lines.split('\n') {
        number = number.saturating_add(1);
        match drawing.read(line) {
            Ok(()) => {}
            Err(Fault::Line(_)) => return Err(Fault::Line(number)),
            Err(fault) => return Err(fault),
        }
    }
    drawing.bytes()
}

impl Drawing {
    fn new(alloc: Global) -> Drawing {
        Drawing {
            alloc,
            region_words: 0,
            card_words: 0,
            regions: 0,
            current: 0,
            roots: Vec::new(alloc),
            dirty: Vec::new(alloc),
            parts: Vec::new(alloc),
            words: Vec::new(alloc),
        }
    }

    fn read(&mut self, line: &str) -> Result<(), Fault> {
        let mut words = line.split_ascii_whitespace();
        let read = match words.next() {
            None => return Ok(()),
            Some("heap") => self.read_heap(&mut words),
            Some("root") => self.read_root(&mut words),
            Some("dirty") => push_cards(&mut self.dirty, &mut words),
            Some("region") => self.read_region(&mut words),
            Some("remembered") => self.read_remembered(&mut words),
            Some("object") => self.read_object(&mut words),
            Some(_) => Err(BAD),
        };
        if read.is_ok() && words.next().is_some() {
            return Err(BAD);
        }
        read
    }

    fn read_root(&mut self, words: &mut SplitAsciiWhitespace<'_>) -> Result<(), Fault> {
        if let Some(word) = words.next()
            && let Some(root) = reference(word)
        {
            return Ok(self.roots.push(root)?);
        }
        Err(BAD)
    }

    /// heap W K N [current C]
    fn read_heap(&mut self, words: &mut SplitAsciiWhitespace<'_>) -> Result<(), Fault> {
        self.region_words = number(words)?;
        self.card_words = number(words)?;
        self.regions = number(words)?;
        self.current = match words.next() {
            None => self.regions,
            Some("current") => number(words)?,
            Some(_) => return Err(BAD),
        };
        Ok(())
    }

    /// region R KIND [pinned]; those before it that no line draws are free, or hold the rest of a humongous object.
    fn read_region(&mut self, words: &mut SplitAsciiWhitespace<'_>) -> Result<(), Fault> {
        let region = number(words)?;
        for _free in self.parts.len()..region as usize {
            self.begin(FREE, 0)?;
        }
        let kind = match words.next() {
            Some("ordinary") => 1,
            Some("humongous") => 2,
            _ => return Err(BAD),
        };
        let flags = match words.next() {
            None => 0,
            Some("pinned") => 1,
            Some(_) => return Err(BAD),
        };
        self.begin(kind, flags)
    }

    fn begin(&mut self, kind: u32, flags: u32) -> Result<(), Fault> {
        let part = Part {
            kind,
            flags,
            used: 0,
            remembered: Vec::new(self.alloc),
        };
        Ok(self.parts.push(part)?)
    }

    /// remembered R cards CARD .., below the line of region R
    fn read_remembered(&mut self, words: &mut SplitAsciiWhitespace<'_>) -> Result<(), Fault> {
        let region = number(words)? as usize;
        let last = self.parts.len().saturating_sub(1);
        match self.parts.last_mut() {
            Some(part) if region == last => push_cards(&mut part.remembered, words),
            _ => Err(BAD),
        }
    }

    /// object SIZE/SLOTS REFERENCE .. WORD .., with ".." for null slots and data words of 0
    fn read_object(&mut self, words: &mut SplitAsciiWhitespace<'_>) -> Result<(), Fault> {
        let (size, slots) = size_and_slots(words)?;
        let Some(part) = self.parts.last_mut() else {
            return Err(BAD);
        };
        // The header is a word of its own, whatever size it says.
        let used = size.max(1) as usize;
        part.used = part.used.saturating_add(used);
        let end = self.words.len().saturating_add(used);
        self.words.push(u64::from(size) << 32 | u64::from(slots))?;
        for place in 1..size {
            let value = match words.next() {
                Some("..") => break,
                Some(word) if place <= slots => reference(word),
                Some(word) => word.parse::<u64>().ok(),
                None => None,
            };
            let Some(value) = value else {
                return Err(BAD);
            };
            self.words.push(value)?;
        }
        Ok(self.words.resize(end, 0)?)
    }

    fn bytes(&self) -> Result<Vec<u8>, Fault> {
        let mut out = Vec::from_slice(self.alloc, b"G1IMAGE2")?;
        let header = [
            self.region_words,
            self.card_words,
            self.regions,
            count(self.roots.len()),
            count(self.dirty.len()),
            self.current,
        ];
        push_all(&mut out, &header)?;
        self.push_table(&mut out)?;
        push_words(&mut out, &self.roots)?;
        push_all(&mut out, &self.dirty)?;
        self.push_remembered(&mut out)?;
        push_words(&mut out, &self.words)?;
        Ok(out)
    }

    /// The kind, the used words and the flags of each region. What is left of a humongous object goes on in the regions
    /// behind it.
    fn push_table(&self, out: &mut Vec<u8>) -> Result<(), Fault> {
        let width = self.region_words as usize;
        let mut left = 0usize;
        for region in 0..self.regions as usize {
            let (kind, used, flags) = match self.parts.get(region) {
                Some(part) if part.kind != FREE => (part.kind, part.used, part.flags),
                _ if left > 0 => (CONTINUATION, left, 0),
                _ => (FREE, 0, 0),
            };
            push_all(out, &[kind, count(used.min(width)), flags])?;
            left = used.saturating_sub(width);
        }
        Ok(())
    }

    fn push_remembered(&self, out: &mut Vec<u8>) -> Result<(), Fault> {
        for region in 0..self.regions as usize {
            let cards = match self.parts.get(region) {
                Some(part) => part.remembered.as_slice(),
                None => &[],
            };
            push_all(out, &[count(cards.len())])?;
            push_all(out, cards)?;
        }
        Ok(())
    }
}

fn number(words: &mut SplitAsciiWhitespace<'_>) -> Result<u32, Fault> {
    if let Some(word) = words.next()
        && let Ok(number) = word.parse::<u32>()
    {
        return Ok(number);
    }
    Err(BAD)
}

/// cards CARD ..
fn push_cards(cards: &mut Vec<u32>, words: &mut SplitAsciiWhitespace<'_>) -> Result<(), Fault> {
    let Some("cards") = words.next() else {
        return Err(BAD);
    };
    for word in words {
        match word.parse::<u32>() {
            Ok(card) => cards.push(card)?,
            Err(_) => return Err(BAD),
        }
    }
    Ok(())
}

/// A dash for null or an address, as a slot holds it.
fn reference(word: &str) -> Option<u64> {
    if word == "-" {
        return Some(0);
    }
    word.parse::<u64>().ok()?.checked_add(1)
}

fn size_and_slots(words: &mut SplitAsciiWhitespace<'_>) -> Result<(u32, u32), Fault> {
    if let Some(word) = words.next()
        && let Some((size, slots)) = word.split_once('/')
        && let Ok(size) = size.parse::<u32>()
        && let Ok(slots) = slots.parse::<u32>()
    {
        return Ok((size, slots));
    }
    Err(BAD)
}

/// How many there are; a test has no more than fit.
fn count(length: usize) -> u32 {
    u32::try_from(length).unwrap_or(u32::MAX)
}

fn push_all(out: &mut Vec<u8>, numbers: &[u32]) -> Result<(), Fault> {
    for number in numbers {
        out.extend_from_slice(&number.to_le_bytes())?;
    }
    Ok(())
}

fn push_words(out: &mut Vec<u8>, words: &[u64]) -> Result<(), Fault> {
    for word in words {
        out.extend_from_slice(&word.to_le_bytes())?;
    }
    Ok(())
}
