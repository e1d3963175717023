ghost use Rattle.std.specs.Prelude.{◌≡◌, ◌≤◌, ◌<◌, ◌+◌, ◌^◌, ◌++◌, ℕ, List, length, drop, slice_index, ◌≢◌, IfSome, IfNone, OnOk, IfOk, IfErr, IsTrue, ◌↔◌};
ghost use Rattle.g1_image.specs.Text.{u32 as u32_text, heading_text, digit, magic};
ghost use Rattle.g1_image.specs.Reading.{IsBytes};
ghost use Rattle.g1_image.specs.Faults.{HeadingFits, IsGoodHeading, FaultWithin};
ghost use Rattle.g1_image.specs.Stale.{IsTextFault};

use byteorder::{ByteOrder, LittleEndian};
use g1_words::{Fault, Geometry, Limits, MOST_ROOTS};
use std::marker::Model;

/// The numbers at the head of an image file.
#[derive(Clone, Copy)]
pub struct Heading {
    pub w: u32,
    pub k: u32,
    pub n: u32,
    pub roots: u32,
    pub dirty: u32,
    pub current: u32,
}

/// A region's entry in the table: its kind's number, how many of its words are used, and its flags,
/// which are 0 in a file of version 1.
#[derive(Clone, Copy)]
pub struct Entry {
    pub kind: u32,
    pub top: u32,
    pub flags: u32,
}

/// The version of an image file. Version 1 has no flags.
#[derive(Clone, Copy)]
pub enum Version {
    One,
    Two,
}

impl Version {
    /// The version whose magic ends with this byte.
    fn of_digit(byte: u8) -> Option<Version>
        ensures found { IfSome result (λ v. byte ≡ digit v) }
        ensures none { IfNone result ((v : Version) → byte ≢ digit v) }
    {
        match byte {
            b'1' => Some(Version::One),
            b'2' => Some(Version::Two),
            _ => None,
        }
    }

    /// The digit that the magic of the version ends with.
    pub(crate) fn digit(self) -> u8
        ensures { result ≡ digit self }
    {
        match self {
            Version::One => b'1',
            Version::Two => b'2',
        }
    }
}

/// What the text of an image begins with, in each version; the version's digit follows.
pub const MAGIC: [u8; 7] = *b"G1IMAGE";

/// The bytes that are left to read.
#[derive(Drop)]
pub(crate) struct Cursor<'a> {
    rest: &'a [u8],
}

impl<'a> Model for Cursor<'a> {
    ghost use Rattle.std.specs.Prelude.{ℕ, List};
    ghost use Rattle.g1_image.specs.Reading.{IsBytes};

    ghost Value = { List ℕ };

    ghost view = { λ c. c.rest.now };

    ghost invariant = { λ c. IsBytes c.rest.now };
}

impl<'a> Cursor<'a> {
    pub(crate) fn new(bytes: &'a [u8]) -> Cursor<'a>
        ensures { result ≡ bytes.now }
    {
        Cursor { rest: bytes }
    }

    /// The bytes that are left.
    pub(crate) fn rest(&self) -> &'a [u8]
        ensures same { result.now ≡ self.now }
        ensures are_bytes { IsBytes result.now }
    {
        self.rest
    }

    /// How many bytes are left.
    pub(crate) fn len(&self) -> usize
        ensures { result ≡ length self.now }
    {
        self.rest.len()
    }

    /// Passes over the first bytes.
    pub(crate) fn skip(&mut self, count: usize)
        requires { count ≤ length self.old }
        ensures { self.new ≡ drop count self.old }
    {
        let (_, rest) = self.rest.split_at(count);
        self.rest = rest;
    }

    /// Takes a number of 32 bits.
    pub(crate) fn number(&mut self) -> u32
        requires { 4 ≤ length self.old }
        ensures text { self.old ≡ u32_text result ++ self.new }
        ensures left { length self.old ≡ 4 + length self.new }
    {
        let (front, rest) = self.rest.split_at(4);
        self.rest = rest;
        LittleEndian::read_u32(front)
    }

    /// Takes a heading, if its bytes are there.
    pub(crate) fn heading(&mut self) -> Option<Heading>
        ensures found { IfSome result (λ h. HeadingFits h × (self.old ≡ heading_text h ++ self.new)) }
        ensures short { IfNone result (length self.old < 24) }
    {
        if self.len() < 24 {
            return None;
        }
        let w = self.number();
        let k = self.number();
        let n = self.number();
        let roots = self.number();
        let dirty = self.number();
        let current = self.number();
        Some(Heading {
            w,
            k,
            n,
            roots,
            dirty,
            current,
        })
    }

    /// Refuses bytes that don't begin as all magics do.
    fn check_magic(&self) -> Result<(), Fault>
        ensures ok { OnOk result ((7 ≤ length self.now) × ((k : ℕ) → k < 7 → slice_index self.now k ≡ slice_index (magic Version.One) k)) }
        ensures err { IfErr result (λ e. (limits : Limits) → FaultWithin limits self.now e) }
        ensures stage { IfErr result IsTextFault }
    {
        for i in 0..7 {
            if i >= self.rest.len() {
                return Err(Fault::Short);
            }
            if self.rest[i] != MAGIC[i] {
                return Err(Fault::Magic);
            }
        }
        Ok(())
    }

    /// Takes the magic of a version, or returns the fault of the bytes.
    pub(crate) fn magic(&mut self) -> Result<Version, Fault>
        ensures ok { IfOk result (λ v. self.old ≡ magic v ++ self.new) }
        ensures err { IfErr result (λ e. (limits : Limits) → FaultWithin limits self.old e) }
        ensures stage { IfErr result IsTextFault }
    {
        self.check_magic()?;
        if self.rest.len() < 8 {
            return Err(Fault::Short);
        }
        match Version::of_digit(self.rest[7]) {
            Some(version) => {
                self.skip(8);
                Ok(version)
            }
            None => Err(Fault::Magic),
        }
    }

    /// Takes the magic and a heading within these limits, or returns the fault of the bytes.
    pub(crate) fn opening(&mut self, limits: Limits) -> Result<(Heading, Version), Fault>
        ensures ok { IfOk result (λ x. HeadingFits x.0 × IsGoodHeading limits x.0 × (self.old ≡ magic x.1 ++ (heading_text x.0 ++ self.new))) }
        ensures err { IfErr result (FaultWithin limits self.old) }
        ensures stage { IfErr result IsTextFault }
    {
        let version = self.magic()?;
        match self.heading() {
            Some(heading) => {
                if !is_good_heading(limits, &heading) {
                    return Err(Fault::Geometry);
                }
                Ok((heading, version))
            }
            None => Err(Fault::Short),
        }
    }
}

/// Returns whether a heading is within these limits.
fn is_good_heading(limits: Limits, h: &Heading) -> bool
    ensures { IsTrue result ↔ IsGoodHeading limits h.now }
{
    match Geometry::within(limits, u64::from(h.w), u64::from(h.k), u64::from(h.n)) {
        Ok(geometry) => geometry.region_words() > 0 && h.roots <= MOST_ROOTS && h.current <= h.n,
        Err(_) => false,
    }
}
