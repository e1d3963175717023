//! The image in bytes: in memory, or in a source.
ghost use Rattle.std.specs.Prelude.{◌≡◌, ◌≢◌, ◌≤◌, ◌<◌, ◌⊎◌, ◌++◌, ℕ, List, [], length, drop, map, IfSome, OnOk, IfOk, IfErr, IsTrue, IsFalse};
ghost use Rattle.std.specs.Io.KnownBytes.{IsAtEnd, Consumes};
ghost use Rattle.g1_image.specs.Source.{HoldsOfLeft, IsReadOut, input_mark};
ghost use Rattle.g1_image.specs.Image.{IsImage, IsTextOf, IsTextWithin};
ghost use Rattle.g1_image.specs.Faults.{FaultWithin, MayFail, MayFailWithin};
ghost use Rattle.g1_image.specs.Front.{IsGoodFront, text_of, IsLaidOut, IsReachedBy};
ghost use Rattle.g1_image.specs.Stale.{IsTextFault, IsTextWithout, FaultWithout};
ghost use Rattle.g1_image.specs.Ahead.{to_take, KnowsEnd, TextFails};

use crate::ahead::Ahead;
use crate::buffer::PIECE;
use crate::cursor::Cursor;
use crate::front::{Front, read_front};
use crate::image::Image;
use crate::judging::{image_of, image_of_by, image_without};
use crate::pieces::lay_pieces;
use crate::source::{Nothing, Source};
use crate::stale::Stale;
use g1_words::{Device, Fault, Limits, Words};
use std::alloc::Global;
use std::thread::Threads;

/// Returns whether a fault of some bytes is one of all bytes that begin with them, too.
fn is_final(fault: &Fault) -> bool
    ensures { IsTrue result → (limits : Limits) (bytes more : List ℕ) → FaultWithin limits bytes fault.now → FaultWithin limits (bytes ++ more) fault.now }
{
    match fault {
        Fault::Magic => true,
        Fault::Geometry => true,
        Fault::Memory => true,
        _ => false,
    }
}

/// Returns whether a fault is one of the bytes that were read.
pub(crate) fn is_of_bytes(fault: &Fault) -> bool
    ensures yes { IsTrue result → (fault.now ≢ Fault.Memory) × (fault.now ≢ Fault.Device Device.Input) }
    ensures no { IsFalse result → (fault.now ≡ Fault.Memory) ⊎ (fault.now ≡ Fault.Device Device.Input) }
{
    !matches!(fault, Fault::Memory | Fault::Device(Device::Input))
}

/// The front that the bytes begin with, and how many bytes it has.
fn front_of(alloc: Global, limits: Limits, bytes: &[u8]) -> Result<(Front, usize), Fault>
    ensures ok { IfOk result (λ x. IsGoodFront limits x.0) }
    ensures count { IfOk result (λ x. x.1 ≤ length bytes.now) }
    ensures text { IfOk result (λ x. bytes.now ≡ text_of x.0 (drop x.1 bytes.now)) }
    ensures err { IfErr result (MayFailWithin limits bytes.now) }
    ensures stage { IfErr result IsTextFault }
{
    let (front, rest) = read_front(alloc, limits, bytes)?;
    Ok((front, bytes.len() - rest.len()))
}

/// Takes the front of the text. Twice as many bytes are read until it is among them.
fn take_front<S: Source>(
    alloc: Global,
    limits: Limits,
    source: &mut S,
    ahead: &mut Ahead,
) -> Result<Front, Fault>
    requires known { KnowsEnd ahead.old (S.left source.old) }
    ensures known { KnowsEnd ahead.new (S.left source.new) }
    ensures ok { IfOk result (λ x. IsGoodFront limits x) }
    ensures taken { IfOk result (λ x. Consumes (to_take ahead.old (S.left source.old)) (to_take ahead.new (S.left source.new)) (text_of x [])) }
    ensures mark { OnOk result (S.failed source.new ≡ S.failed source.old) }
    ensures err { IfErr result (TextFails limits (S.failed source.old) (S.failed source.new) (to_take ahead.old (S.left source.old))) }
    ensures stage { IfErr result IsTextFault }
{
    let mut wanted = PIECE;
    loop {
        let more = ahead.reach(source, wanted)?;
        match front_of(alloc, limits, ahead.bytes()) {
            Ok((front, count)) => {
                ahead.pass(count);
                return Ok(front);
            }
            Err(fault) => {
                if !more || is_final(&fault) {
                    return Err(fault);
                }
            }
        }
        wanted = 2 * ahead.len();
    }
}

/// The front and the words of the text.
pub(crate) fn take_parts<S: Source>(
    alloc: Global,
    limits: Limits,
    source: &mut S,
    ahead: &mut Ahead,
) -> Result<(Front, Words), Fault>
    requires known { KnowsEnd ahead.old (S.left source.old) }
    ensures known { KnowsEnd ahead.new (S.left source.new) }
    ensures ok { IfOk result (λ x. HoldsOfLeft (to_take ahead.old (S.left source.old)) (λ xs. IsLaidOut limits xs x.0 x.1.items)) }
    ensures laid { IfOk result (λ x. IsReachedBy x.0 x.1.laid) }
    ensures end { OnOk result (IsAtEnd (S.left source.new)) }
    ensures mark { OnOk result (S.failed source.new ≡ S.failed source.old) }
    ensures err { IfErr result (TextFails limits (S.failed source.old) (S.failed source.new) (to_take ahead.old (S.left source.old))) }
    ensures stage { IfErr result IsTextFault }
{
    let front = take_front(alloc, limits, source, ahead)?;
    let words = lay_pieces(alloc, front.heading.w, &front.table, source, ahead)?;
    if ahead.reach(source, 1)? {
        return Err(Fault::Trailing);
    }
    Ok((front, words))
}

/// The front and the words of the text that is left in a source, read to its end.
fn read_parts<S: Source>(
    alloc: Global,
    limits: Limits,
    source: &mut S,
) -> Result<(Front, Words), Fault>
    ensures ok { IfOk result (λ x. HoldsOfLeft (S.left source.old) (λ xs. IsLaidOut limits xs x.0 x.1.items)) }
    ensures laid { IfOk result (λ x. IsReachedBy x.0 x.1.laid) }
    ensures err { IfErr result (λ e. (e ≡ Fault.Device Device.Input) ⊎ HoldsOfLeft (S.left source.old) (λ xs. MayFailWithin limits xs e)) }
    ensures stage { IfErr result IsTextFault }
    ensures end { IsReadOut (S.left source.new) result }
    ensures marks { S.failed source.new ≡ input_mark (S.failed source.old) result }
{
    let mut ahead = Ahead::nothing(alloc);
    match take_parts(alloc, limits, source, &mut ahead) {
        Ok(parts) => Ok(parts),
        Err(fault) => {
            // The rest is read too, so that a read that fails there is reported.
            if is_of_bytes(&fault) {
                ahead.drain(source)?;
            }
            Err(fault)
        }
    }
}

/// The image whose text the bytes are, or the fault of the first stage that finds one. The limits are those
/// of the specification.
///
/// # Errors
///
/// `Fault::Memory`, and the fault of the bytes.
///
/// # Examples
///
/// ```
/// use g1_image::decode;
/// use g1_testing::{pictures::one_object, text};
/// use g1_words::Fault;
///
/// let bytes = text(alloc, one_object())?;
/// let image = decode(alloc, &bytes)?;
/// assert_eq!(rt; image.heap().roots(), [17].as_slice());
/// let cut = decode(alloc, &bytes[..bytes.len() - 1]).err();
/// assert_eq!(rt; cut, Some(Fault::Short));
/// ```
pub fn decode(alloc: Global, bytes: &[u8]) -> Result<Image, Fault>
    ensures ok { IfOk result (λ i. IsTextOf bytes.now i) }
    ensures err { IfErr result (MayFail bytes.now) }
{
    decode_within(alloc, Limits::Specified, bytes)
}

/// As `decode`, within these limits.
///
/// # Errors
///
/// Those of `decode`.
///
/// # Examples
///
/// ```
/// use g1_image::{decode, decode_within};
/// use g1_testing::text;
/// use g1_words::{Fault, Limits};
///
/// let bytes = text(alloc, "heap 131072 64 2")?;
/// assert_eq!(rt; decode(alloc, &bytes).err(), Some(Fault::Geometry));
/// let image = decode_within(alloc, Limits::Wide, &bytes)?;
/// assert_eq!(rt; image.heap().words().len(), 262_144);
/// ```
pub fn decode_within(alloc: Global, limits: Limits, bytes: &[u8]) -> Result<Image, Fault>
    ensures ok { IfOk result (λ i. IsTextWithin limits bytes.now i) }
    ensures err { IfErr result (MayFailWithin limits bytes.now) }
{
    let cursor = Cursor::new(bytes);
    let (front, words) = take_parts(alloc, limits, &mut Nothing, &mut Ahead::Whole(cursor))?;
    image_of(alloc, limits, front, words)
}

/// As `decode_within`, with the stale words taken for null: a root or a slot that references no object is none of the
/// faults. Returns the image with null in them, and what they were.
///
/// # Errors
///
/// Those of `decode`, except `Fault::Reference`.
///
/// # Examples
///
/// ```
/// use g1_image::{decode, decode_stale};
/// use g1_testing::text;
/// use g1_words::{Fault, Limits, Place};
///
/// // No object starts at 5.
/// let bytes = text(alloc, "heap 16 4 4
///     root 5")?;
/// let refused = decode(alloc, &bytes).err();
/// assert_eq!(rt; refused, Some(Fault::Reference(Place::Root(0))));
/// let (image, stale) = decode_stale(alloc, Limits::Specified, &bytes)?;
/// assert_eq!(rt; image.heap().roots(), [0].as_slice());
/// assert_eq!(rt; stale.roots.as_slice(), [(0, 6)].as_slice());
/// ```
pub fn decode_stale(alloc: Global, limits: Limits, bytes: &[u8]) -> Result<(Image, Stale), Fault>
    ensures ok { IfOk result (λ x. IsTextWithout limits bytes.now x.0 x.1.roots.items x.1.slots.items) }
    ensures image { IfOk result (λ x. IsImage x.0) }
    ensures err { IfErr result (λ e. (e ≡ Fault.Memory) ⊎ FaultWithout limits bytes.now e) }
{
    let cursor = Cursor::new(bytes);
    let (front, laid) = take_parts(alloc, limits, &mut Nothing, &mut Ahead::Whole(cursor))?;
    image_without(alloc, limits, front, laid)
}

/// The image whose text is left in a source, read to its end: as `decode` of those bytes, but the words
/// go straight to their places, and the text is never in memory as a whole. Their list grows with the
/// words that are there: a short text that announces a large heap takes no room for it. If the source
/// does not report its bytes, this is the image, or the fault, of some bytes.
///
/// # Errors
///
/// `Fault::Device(Device::Input)` if a read failed, `Fault::Memory`, and the fault of the bytes.
///
/// # Examples
///
/// ```
/// use g1_image::{FromReader, read};
/// use g1_testing::{pictures::one_object, text};
///
/// let bytes = text(alloc, one_object())?;
/// let image = read(alloc, &mut FromReader::new(bytes.as_slice()))?;
/// assert_eq!(rt; image.heap().roots(), [17].as_slice());
/// ```
pub fn read<S: Source>(alloc: Global, source: &mut S) -> Result<Image, Fault>
    ensures ok { IfOk result (λ i. HoldsOfLeft (S.left source.old) (λ xs. IsTextOf xs i)) }
    ensures err { IfErr result (λ e. (e ≡ Fault.Device Device.Input) ⊎ HoldsOfLeft (S.left source.old) (λ xs. MayFail xs e)) }
    ensures end { IsReadOut (S.left source.new) result }
    ensures marks { S.failed source.new ≡ input_mark (S.failed source.old) result }
{
    read_within(alloc, Limits::Specified, source)
}

/// As `read`, within these limits.
///
/// # Errors
///
/// Those of `read`.
///
/// # Examples
///
/// ```
/// use g1_image::{FromReader, read_within};
/// use g1_testing::text;
/// use g1_words::Limits;
///
/// let bytes = text(alloc, "heap 131072 64 2")?;
/// let mut source = FromReader::new(bytes.as_slice());
/// let image = read_within(alloc, Limits::Wide, &mut source)?;
/// assert_eq!(rt; image.heap().words().len(), 262_144);
/// ```
pub fn read_within<S: Source>(alloc: Global, limits: Limits, source: &mut S) -> Result<Image, Fault>
    ensures ok { IfOk result (λ i. HoldsOfLeft (S.left source.old) (λ xs. IsTextWithin limits xs i)) }
    ensures err { IfErr result (λ e. (e ≡ Fault.Device Device.Input) ⊎ HoldsOfLeft (S.left source.old) (λ xs. MayFailWithin limits xs e)) }
    ensures end { IsReadOut (S.left source.new) result }
    ensures marks { S.failed source.new ≡ input_mark (S.failed source.old) result }
{
    let (front, words) = read_parts(alloc, limits, source)?;
    image_of(alloc, limits, front, words)
}

/// As `read_within`, with the stale words taken for null: a root or a slot that references no object is none
/// of the faults. Returns the image with null in them, and what they were.
///
/// # Errors
///
/// Those of `read`, except `Fault::Reference`.
///
/// # Examples
///
/// ```
/// use g1_image::{FromReader, read_stale};
/// use g1_testing::text;
/// use g1_words::Limits;
///
/// // No object starts at 16, which the slot at 1 references.
/// let bytes = text(alloc, "heap 16 4 4
///     region 0 ordinary
///     object 2/1 16")?;
/// let mut source = FromReader::new(bytes.as_slice());
/// let (image, stale) = read_stale(alloc, Limits::Specified, &mut source)?;
/// assert_eq!(rt; image.heap().words().at(1), 0);
/// assert_eq!(rt; stale.slots.as_slice(), [(1, 17)].as_slice());
/// ```
pub fn read_stale<S: Source>(
    alloc: Global,
    limits: Limits,
    source: &mut S,
) -> Result<(Image, Stale), Fault>
    ensures ok { IfOk result (λ x. HoldsOfLeft (S.left source.old) (λ xs. IsTextWithout limits xs x.0 x.1.roots.items x.1.slots.items)) }
    ensures err { IfErr result (λ e. (e ≡ Fault.Device Device.Input) ⊎ HoldsOfLeft (S.left source.old) (λ xs. (e ≡ Fault.Memory) ⊎ FaultWithout limits xs e)) }
    ensures end { IsReadOut (S.left source.new) result }
    ensures marks { S.failed source.new ≡ input_mark (S.failed source.old) result }
{
    let (front, words) = read_parts(alloc, limits, source)?;
    image_without(alloc, limits, front, words)
}

/// As `read`, with this many workers at most. One if it is 0.
///
/// The words are read and laid by the calling thread. The workers share the search for the first
/// region that breaks a rule, the marks of the objects' starts, and the search for the first slot that
/// references no object: each has a range of the regions.
///
/// # Errors
///
/// Those of `read`.
///
/// # Examples
///
/// ```
/// use g1_image::{FromReader, read_by};
/// use g1_testing::{pictures::shared, text};
///
/// let bytes = text(alloc, shared())?;
/// let image = read_by(&rt, alloc, &mut FromReader::new(bytes.as_slice()), 8)?;
/// assert_eq!(rt; image.heap().roots(), [22, 17].as_slice());
/// ```
pub fn read_by<S: Source>(
    rt: &(impl Threads + Sync),
    alloc: Global,
    source: &mut S,
    workers: u64,
) -> Result<Image, Fault>
    ensures ok { IfOk result (λ i. HoldsOfLeft (S.left source.old) (λ xs. IsTextOf xs i)) }
    ensures err { IfErr result (λ e. (e ≡ Fault.Device Device.Input) ⊎ HoldsOfLeft (S.left source.old) (λ xs. MayFail xs e)) }
    ensures end { IsReadOut (S.left source.new) result }
    ensures marks { S.failed source.new ≡ input_mark (S.failed source.old) result }
{
    read_by_within(rt, alloc, Limits::Specified, source, workers)
}

/// As `read_by`, within these limits.
///
/// # Errors
///
/// Those of `read`.
///
/// # Examples
///
/// ```
/// use g1_image::{FromReader, read_by_within};
/// use g1_testing::text;
/// use g1_words::Limits;
///
/// let bytes = text(alloc, "heap 131072 64 2")?;
/// let mut source = FromReader::new(bytes.as_slice());
/// let image = read_by_within(&rt, alloc, Limits::Wide, &mut source, 8)?;
/// assert_eq!(rt; image.heap().words().len(), 262_144);
/// ```
pub fn read_by_within<S: Source>(
    rt: &(impl Threads + Sync),
    alloc: Global,
    limits: Limits,
    source: &mut S,
    workers: u64,
) -> Result<Image, Fault>
    ensures ok { IfOk result (λ i. HoldsOfLeft (S.left source.old) (λ xs. IsTextWithin limits xs i)) }
    ensures err { IfErr result (λ e. (e ≡ Fault.Device Device.Input) ⊎ HoldsOfLeft (S.left source.old) (λ xs. MayFailWithin limits xs e)) }
    ensures end { IsReadOut (S.left source.new) result }
    ensures marks { S.failed source.new ≡ input_mark (S.failed source.old) result }
{
    let (front, words) = read_parts(alloc, limits, source)?;
    image_of_by(rt, alloc, limits, front, words, workers)
}
