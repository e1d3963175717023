//! Files on the command line.
ghost use Rattle.std.specs.Prelude.{◌≡◌, ◌≢◌, ◌<◌, ◌^◌, ◌⊎◌, ℕ, false, List, codes, All, None, IfOk, IfErr, IfSome, IfNone};
ghost use Rattle.g1_image.specs.Faults.{FaultWithin, MayFailWithin};
ghost use Rattle.g1_image.specs.Source.{HoldsOfLeft};
ghost use Rattle.g1_image.specs.Stale.{IsTextWithout};
ghost use Rattle.g1_words.specs.declared.fault.Place.{Place as PlaceOf};
ghost use Rattle.g1_words.specs.declared.limits.Limits.{Limits as LimitsOf};
ghost use Rattle.g1heap_cli.specs.Streams.{AreNamed, HoldsOfNamed, LeavesBehind};
ghost use Rattle.g1heap_cli.specs.Refusals.{is_of_machine, IsUnread};
ghost use Rattle.g1heap_cli.specs.Found.{RefusesBytes};
ghost use Rattle.g1heap_cli.specs.Compared.{IsContent, first_place};
ghost use Rattle.g1heap_cli.specs.SideReasons.{HasOtherFault, RefusesContent, IsUnreadSide};

use crate::heard::Heard;
use crate::refusal::{of_bytes, of_device, unopenable};
use g1_command::{Refusal, read_all};
use g1_image::{FromReader, Image, Stale, decode_within, read_stale, read_within};
use g1_text::{is_graph, plain_lines};
use g1_words::{Fault, Limits, Place};
use g1heap_request::STANDARD_STREAM;
use std::alloc::Global;
use std::fs;
use std::io::{Error, ErrorKind, Read};
use std::rt::Files;

/// All bytes of a file, or of the reader if the name means standard input.
pub fn read_bytes<T: Files, R: Read>(
    rt: &T,
    alloc: Global,
    name: &str,
    reader: &mut R,
) -> Result<Vec<u8>, Refusal>
    ensures bytes { IfOk result (λ v. AreNamed name.now (R.remaining reader.old) v.items) }
    ensures refused { IfErr result (IsUnread name.now) }
    ensures left { LeavesBehind name.now (R.remaining reader.old) (R.remaining reader.new) }
{
    if name == STANDARD_STREAM {
        return read_whole(alloc, name, reader);
    }
    match open_file(rt, alloc, name) {
        Ok(mut file) => read_whole(alloc, name, &mut file),
        Err(refusal) => Err(refusal),
    }
}

// All bytes of what has this name.
fn read_whole<R: Read>(alloc: Global, name: &str, reader: &mut R) -> Result<Vec<u8>, Refusal>
    ensures bytes { IfOk result (λ v. IfSome (R.remaining reader.old) (λ xs. xs ≡ v.items)) }
    ensures refused { IfErr result (IsUnread name.now) }
{
    let mut heard = Heard::new(reader);
    match read_all(alloc, &mut heard) {
        Ok(bytes) => Ok(bytes),
        Err(fault) => Err(of_device(alloc, name, fault, heard.reason())),
    }
}

/// What a file that is compared has.
#[derive(Drop)]
pub enum SideContent {
    /// Lines of objects by name, in plain words.
    Lines(Vec<u8>),
    Image(Image),
    /// What is no image only because words reference no object: with these words null it is one.
    Stale {
        image: Image,
        stale: Stale,
        /// The fault of what was read.
        fault: Fault,
    },
}

/// What is in a file, or what the reader gives, within these limits. A file whose fault is a reference is opened once more, and
/// read with its stale words taken for null; one whose fault is the magic is, since it may have lines behind
/// comments.
pub fn read_side<T: Files, R: Read>(
    rt: &T,
    alloc: Global,
    name: &str,
    limits: Limits,
    reader: &mut R,
) -> Result<SideContent, Refusal>
    ensures content { IfOk result (λ c. HoldsOfNamed name.now (R.remaining reader.old) (λ bytes. IsContent limits bytes c)) }
    ensures refused { IfErr result (IsUnreadSide limits name.now (R.remaining reader.old)) }
    ensures left { name.now ≢ codes "-" → R.remaining reader.new ≡ R.remaining reader.old }
{
    if name == STANDARD_STREAM {
        return read_content(alloc, name, limits, reader);
    }
    read_file_side(rt, alloc, name, limits)
}

// What is in all bytes of what has this name.
fn read_content<R: Read>(
    alloc: Global,
    name: &str,
    limits: Limits,
    reader: &mut R,
) -> Result<SideContent, Refusal>
    ensures content { IfOk result (λ c. HoldsOfNamed name.now (R.remaining reader.old) (λ bytes. IsContent limits bytes c)) }
    ensures refused { IfErr result (IsUnreadSide limits name.now (R.remaining reader.old)) }
{
    match read_whole(alloc, name, reader) {
        Ok(bytes) => found_in(alloc, name, limits, bytes),
        Err(refusal) => Err(refusal),
    }
}

// What is in a file of this name. What is no file is read to its end.
fn read_file_side<T: Files>(
    rt: &T,
    alloc: Global,
    name: &str,
    limits: Limits,
) -> Result<SideContent, Refusal>
    ensures content { IfOk result (λ c. (bytes : List ℕ) × IsContent limits bytes c) }
    ensures refused { IfErr result (IsUnreadSide limits name.now None) }
{
    if !is_file(rt, name) {
        return read_whole_side(rt, alloc, name, limits);
    }
    match read_once(rt, alloc, name, limits) {
        Ok(Ok(content)) => Ok(content),
        Ok(Err(Fault::Reference(_))) => read_stale_side(rt, alloc, name, limits),
        // Lines may begin behind the bytes that were looked at, and the rule that is broken is found in all bytes.
        Ok(Err(_)) => read_whole_side(rt, alloc, name, limits),
        Err(refusal) => Err(refusal),
    }
}

fn read_whole_side<T: Files>(
    rt: &T,
    alloc: Global,
    name: &str,
    limits: Limits,
) -> Result<SideContent, Refusal>
    ensures content { IfOk result (λ c. (bytes : List ℕ) × IsContent limits bytes c) }
    ensures refused { IfErr result (IsUnreadSide limits name.now None) }
{
    match read_bytes(rt, alloc, name, &mut [].as_slice()) {
        Ok(bytes) => found_in(alloc, name, limits, bytes),
        Err(refusal) => Err(refusal),
    }
}

// What is in a file whose fault is a reference. Its bytes may be others by now, so they are all read if they are not an
// image's but for their stale words.
fn read_stale_side<T: Files>(
    rt: &T,
    alloc: Global,
    name: &str,
    limits: Limits,
) -> Result<SideContent, Refusal>
    ensures content { IfOk result (λ c. (bytes : List ℕ) × IsContent limits bytes c) }
    ensures refused { IfErr result (IsUnreadSide limits name.now None) }
{
    let mut file = match open_file(rt, alloc, name) {
        Ok(file) => file,
        Err(refusal) => return Err(refusal),
    };
    match without_stale(alloc, name, limits, &mut file) {
        Ok(Some(content)) => Ok(content),
        Ok(None) => read_whole_side(rt, alloc, name, limits),
        Err(refusal) => Err(refusal),
    }
}

// How many bytes of a file are looked at for the first word of lines.
const HEAD: u64 = 4096;

// What is in a file, or the fault of its image, which is one of its bytes.
fn read_once<T: Files>(
    rt: &T,
    alloc: Global,
    name: &str,
    limits: Limits,
) -> Result<Result<SideContent, Fault>, Refusal>
    ensures content { IfOk result (λ r. IfOk r (λ c. (bytes : List ℕ) × IsContent limits bytes c)) }
    ensures refused { IfErr result (IsUnreadSide limits name.now None) }
{
    let mut file = match open_file(rt, alloc, name) {
        Ok(file) => file,
        Err(refusal) => return Err(refusal),
    };
    let head = match read_whole(alloc, name, &mut file.by_ref().take(HEAD)) {
        Ok(head) => head,
        Err(refusal) => return Err(refusal),
    };
    let mut heard = Heard::new(&mut file);
    let mut whole = head.as_slice().chain(&mut heard);
    if is_graph(head.as_slice()) {
        return match read_content(alloc, name, limits, &mut whole) {
            Ok(content) => Ok(Ok(content)),
            Err(refusal) => Err(refusal),
        };
    }
    match read_within(alloc, limits, &mut FromReader::new(whole)) {
        Ok(image) => Ok(Ok(SideContent::Image(image))),
        Err(fault) => match refuse_machine(alloc, name, fault, heard.reason()) {
            Some(refusal) => Err(refusal),
            None => Ok(Err(fault)),
        },
    }
}

/// Whether a name is that of a file, which can be read more than once.
pub fn is_file<T: Files>(rt: &T, name: &str) -> bool {
    match fs::metadata(rt, name) {
        Ok(found) => found.is_file(),
        Err(_) => false,
    }
}

// What is in bytes: lines of objects by name, or an image.
fn found_in(
    alloc: Global,
    name: &str,
    limits: Limits,
    bytes: Vec<u8>,
) -> Result<SideContent, Refusal>
    ensures content { IfOk result (IsContent limits bytes.items) }
    ensures refused { IfErr result (λ r. IsUnread name.now r ⊎ RefusesContent limits name.now bytes.items r) }
{
    if is_graph(bytes.as_slice()) {
        return match plain_lines(alloc, bytes) {
            Ok(lines) => Ok(SideContent::Lines(lines)),
            Err(_) => Err(Refusal::Fault(Fault::Memory)),
        };
    }
    match decode_within(alloc, limits, bytes.as_slice()) {
        Ok(image) => Ok(SideContent::Image(image)),
        Err(fault) => found_with(alloc, name, limits, bytes.as_slice(), fault),
    }
}

// What is in bytes with this fault: an image with its stale words taken for null, if there is no other fault.
fn found_with(
    alloc: Global,
    name: &str,
    limits: Limits,
    bytes: &[u8],
    fault: Fault,
) -> Result<SideContent, Refusal>
    requires { MayFailWithin limits bytes.now fault }
    ensures content { IfOk result (IsContent limits bytes.now) }
    ensures refused { IfErr result (λ r. IsUnread name.now r ⊎ (HasOtherFault limits bytes.now × RefusesBytes limits name.now bytes.now r)) }
{
    let mut reader = bytes;
    match fault {
        Fault::Reference(_) => match without_stale(alloc, name, limits, &mut reader) {
            Ok(Some(content)) => Ok(content),
            Ok(None) => Err(of_bytes(alloc, name, limits, bytes, fault)),
            Err(refusal) => Err(refusal),
        },
        _ => Err(of_bytes(alloc, name, limits, bytes, fault)),
    }
}

// What is an image with its stale words taken for null. None if it has another fault, too, or no stale word.
fn without_stale<R: Read>(
    alloc: Global,
    name: &str,
    limits: Limits,
    reader: &mut R,
) -> Result<Option<SideContent>, Refusal>
    ensures content { IfOk result (λ o. IfSome o (λ c. HoldsOfLeft (R.remaining reader.old) (λ bytes. IsContent limits bytes c))) }
    ensures other { IfOk result (λ o. IfNone o (HoldsOfLeft (R.remaining reader.old) (λ bytes. (p : PlaceOf) → FaultWithin limits bytes (Fault.Reference p) → HasOtherFault limits bytes))) }
    ensures refused { IfErr result (IsUnread name.now) }
{
    let mut heard = Heard::new(reader);
    match read_stale(alloc, limits, &mut FromReader::new(&mut heard)) {
        Ok((image, stale)) => Ok(with_stale(image, stale)),
        Err(fault) => match refuse_machine(alloc, name, fault, heard.reason()) {
            Some(refusal) => Err(refusal),
            None => Ok(None),
        },
    }
}

// The refusal of a file for a fault of the machine. None for a fault of the bytes.
fn refuse_machine(alloc: Global, name: &str, fault: Fault, reason: Option<Error>) -> Option<Refusal>
    ensures refused { IfSome result (IsUnread name.now) }
    ensures own { IfNone result (is_of_machine fault ≡ false) }
{
    match fault {
        Fault::Memory => Some(Refusal::Fault(fault)),
        Fault::Device(_) => Some(of_device(alloc, name, fault, reason)),
        _ => None,
    }
}

// The image without these stale words, of which the first is the fault. None if there are none.
fn with_stale(image: Image, stale: Stale) -> Option<SideContent>
    requires { (limits : LimitsOf) × (bytes : List ℕ) × IsTextWithout limits bytes image stale.roots.items stale.slots.items }
    ensures content { (limits : LimitsOf) (bytes : List ℕ) → IsTextWithout limits bytes image stale.roots.items stale.slots.items → IfSome result (IsContent limits bytes) }
    ensures none { (limits : LimitsOf) (bytes : List ℕ) → IsTextWithout limits bytes image stale.roots.items stale.slots.items → IfNone result ((p : PlaceOf) → FaultWithin limits bytes (Fault.Reference p) → ⊥) }
{
    let _ = image.heap();
    match first_place_of(&stale) {
        Some(place) => Some(SideContent::Stale {
            image,
            stale,
            fault: Fault::Reference(place),
        }),
        None => None,
    }
}

// Where the first of stale words is.
fn first_place_of(stale: &Stale) -> Option<Place>
    requires { All (λ (root : ℕ × ℕ). root.0 < 2 ^ 32) stale.now.roots.items }
    ensures { result ≡ first_place stale.now.roots.items stale.now.slots.items }
{
    match (stale.roots.first(), stale.slots.first()) {
        (Some((root, _)), _) => Some(Place::Root(*root as u32)),
        (None, Some((slot, _))) => Some(Place::Slot(*slot)),
        (None, None) => None,
    }
}

/// Opens a file to be read.
pub fn open_file<T: Files>(rt: &T, alloc: Global, name: &str) -> Result<T::File, Refusal>
    ensures { IfErr result (IsUnread name.now) }
{
    match fs::open(rt, name) {
        Ok(file) => Ok(file),
        Err(error) if error.kind() == ErrorKind::OutOfMemory => {
            Err(Refusal::Fault(Fault::Memory))
        }
        Err(error) => Err(unopenable(alloc, name, &error)),
    }
}
