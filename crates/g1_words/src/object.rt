ghost use Rattle.std.specs.Prelude.{◌≡◌, ◌≤◌, ◌<◌, ◌+◌, ◌*◌, ◌/◌, ◌%◌, ◌^◌, ◌-◌, ℕ, List, length, map, slice_index, slice_range, Contains, IfSome, IfNone, IfOk, IfErr};
ghost use Rattle.g1_words.specs.Header.{header};
ghost use Rattle.g1_words.specs.Heap.{object_at, objects_in, objects};
ghost use Rattle.g1_words.specs.Valid.{IsObject, Tiles};
ghost use Rattle.g1_words.specs.Walk.{Reaches, StandsBetween};
ghost use Rattle.g1_words.specs.declared.object.Object.{Object};

use crate::fault::Fault;
use crate::geometry::{Geometry, over};
use crate::heap::Heap;
use crate::region::{Kind, Region};
use crate::words::Words;
use std::alloc::Global;

/// An object: its address, its size in words with the header, its number of references.
#[derive(Debug, Clone, Copy, PartialEq, Eq)]
pub struct Object {
    pub at: u64,
    pub size: u64,
    pub refs: u64,
}

/// A header word is the object's size in words times this, plus its number of reference slots.
const REFS_RANGE: u64 = 4_294_967_296;

/// What the word at an address says, read as a header: the object that starts there, if one does.
///
/// # Examples
///
/// ```
/// use g1_words::{Object, header, header_word};
///
/// let words = [0, header_word(5, 3)];
/// assert_eq!(rt; header(&words, 1), Object { at: 1, size: 5, refs: 3 });
/// ```
pub fn header(words: &[u64], at: u64) -> Object
    requires { at < length words.now }
    ensures value { result ≡ header words.now at }
    ensures at { result.at ≡ at }
    ensures word { slice_index words.now at ≡ result.size * 2 ^ 32 + result.refs }
    ensures refs { result.refs < 2 ^ 32 }
    ensures size { result.size < 2 ^ 32 }
    ensures only { (o : Object) → o.at ≡ at → IsObject words.now o → o ≡ result }
{
    object_of(words[at as usize], at)
}

/// What a word says, read as the header of the object that starts at an address.
pub(crate) fn object_of(word: u64, at: u64) -> Object
    ensures { result ≡ record { at = at; size = word / 2 ^ 32; refs = word % 2 ^ 32 } }
{
    Object {
        at,
        size: word / REFS_RANGE,
        refs: word % REFS_RANGE,
    }
}

/// The header word of an object of this many words, the header included, with this many slots.
///
/// # Examples
///
/// ```
/// use g1_words::header_word;
///
/// assert_eq!(rt; header_word(2, 1), 0x2_0000_0001);
/// ```
pub fn header_word(size: u64, refs: u64) -> u64
    requires size { size < 2 ^ 32 }
    requires refs { refs < 2 ^ 32 }
    ensures { result ≡ size * 2 ^ 32 + refs }
{
    size * REFS_RANGE + refs
}

/// The slots of an object among these words, by number.
///
/// # Examples
///
/// ```
/// use g1_words::{data, header, header_word, slots};
///
/// let words = [header_word(4, 1), 22, 1, 2];
/// let object = header(&words, 0);
/// assert_eq!(rt; slots(&words, &object), [22].as_slice());
/// assert_eq!(rt; data(&words, &object), [1, 2].as_slice());
/// ```
pub fn slots<'a>(words: &'a [u64], object: &Object) -> &'a [u64]
    requires refs { object.now.refs < object.now.size }
    requires within { object.now.at + object.now.size ≤ length words.now }
    ensures value { result.now ≡ slice_range words.now (object.now.at + 1) (object.now.at + 1 + object.now.refs) }
    ensures count { length result.now ≡ object.now.refs }
    ensures each { (i : ℕ) → i < object.now.refs → slice_index result.now i ≡ slice_index words.now (object.now.at + 1 + i) }
{
    let first = object.at as usize + 1;
    &words[first..first + object.refs as usize]
}

/// The data words of an object among these words, by number.
///
/// # Examples
///
/// ```
/// use g1_words::{data, header, header_word};
///
/// let words = [header_word(3, 0), 1, 2];
/// assert_eq!(rt; data(&words, &header(&words, 0)), [1, 2].as_slice());
/// ```
pub fn data<'a>(words: &'a [u64], object: &Object) -> &'a [u64]
    requires refs { object.now.refs < object.now.size }
    requires within { object.now.at + object.now.size ≤ length words.now }
    ensures value { result.now ≡ slice_range words.now (object.now.at + 1 + object.now.refs) (object.now.at + object.now.size) }
    ensures count { length result.now + 1 + object.now.refs ≡ object.now.size }
    ensures each { (i : ℕ) → object.now.refs + i + 1 < object.now.size → slice_index result.now i ≡ slice_index words.now (object.now.at + 1 + object.now.refs + i) }
{
    let first = object.at as usize + 1 + object.refs as usize;
    &words[first..(object.at + object.size) as usize]
}

/// The size in words, the header included, of the word at an address, read as a header.
///
/// # Examples
///
/// ```
/// use g1_testing::{image, pictures::shared};
/// use g1_words::size_at;
///
/// let image = image(alloc, shared())?;
/// assert_eq!(rt; size_at(image.heap(), 16), 5);
/// assert_eq!(rt; size_at(image.heap(), 21), 2);
/// ```
pub fn size_at(heap: &Heap, a: u64) -> u64
    requires { a < length heap.now.words }
    ensures { result ≡ (object_at heap.now a).size }
{
    heap.words().header(a).size
}

/// The object at an address among those that fill the words from one address up to another.
pub(crate) fn object_between(words: &Words, from: u64, to: u64, a: u64) -> Option<Object>
    requires filled { Reaches words.now.items from to }
    requires in_words { to ≤ length words.now.items }
    ensures found { IfSome result (λ o. (o.at ≡ a) × StandsBetween words.now.items from to o) }
    ensures none { IfNone result ((o : Object) → o.at ≡ a → StandsBetween words.now.items from to o → ⊥) }
{
    let mut at = from;
    while at < a && at < to {
        at += words.header(at).size;
    }
    if at == a && at < to {
        Some(words.header(at))
    } else {
        None
    }
}

/// The region that an address lies in, or would lie in.
///
/// # Examples
///
/// ```
/// use g1_words::{Geometry, region_of};
///
/// let geometry = Geometry::new(16, 4, 4)?;
/// assert_eq!(rt; region_of(&geometry, 63), 3);
/// assert_eq!(rt; region_of(&geometry, 640), 40);
/// ```
pub fn region_of(geometry: &Geometry, a: u64) -> u64
    ensures { result ≡ a / geometry.now.w }
{
    over(a, geometry.region_words())
}

/// The card that an address lies on, or would lie on.
///
/// # Examples
///
/// ```
/// use g1_words::{Geometry, card_of};
///
/// let geometry = Geometry::new(16, 4, 4)?;
/// assert_eq!(rt; card_of(&geometry, 63), 15);
/// assert_eq!(rt; card_of(&geometry, 640), 160);
/// ```
pub fn card_of(geometry: &Geometry, a: u64) -> u64
    ensures { result ≡ a / geometry.now.k }
{
    over(a, geometry.card_words())
}

/// The address of an object's first reference slot, and how many there are.
///
/// # Examples
///
/// ```
/// use g1_words::{Object, slots_of};
///
/// let object = Object { at: 16, size: 5, refs: 3 };
/// assert_eq!(rt; slots_of(&object), (17, 3));
/// ```
pub fn slots_of(object: &Object) -> (u64, u64)
    requires { object.now.at + 1 < 2 ^ 64 }
    ensures first { result.0 ≡ object.now.at + 1 }
    ensures count { result.1 ≡ object.now.refs }
{
    (object.at + 1, object.refs)
}

/// The object that starts at an address.
///
/// # Examples
///
/// ```
/// use g1_testing::{image, pictures::shared};
/// use g1_words::{Object, object_at};
///
/// let image = image(alloc, shared())?;
/// let found = object_at(image.heap(), 21);
/// assert_eq!(rt; found, Some(Object { at: 21, size: 2, refs: 0 }));
/// assert_eq!(rt; object_at(image.heap(), 22), None);
/// ```
pub fn object_at(heap: &Heap, a: u64) -> Option<Object>
    ensures found { IfSome result (λ o. (o ≡ object_at heap.now a) × Contains (objects heap.now) o) }
    ensures none { IfNone result (Contains (objects heap.now) (object_at heap.now a) → ⊥) }
{
    let geometry = heap.geometry();
    let number = region_of(&geometry, a);
    if number >= geometry.regions() {
        return None;
    }
    let start = geometry.start(number as u32);
    let region = heap.region(number as u32);
    match region.kind {
        Kind::Ordinary => { object_between(heap.words(), start, start + u64::from(region.top), a) }
        Kind::HumongousFirst => {
            if a == start {
                Some(heap.words().header(a))
            } else {
                None
            }
        }
        Kind::Free => None,
        Kind::Continuation => None,
    }
}

/// The addresses of the objects that fill the words from one address up to another.
pub(crate) fn starts_between(
    alloc: Global,
    words: &Words,
    from: u64,
    to: u64,
) -> Result<Vec<u64>, Fault>
    requires filled { Reaches words.now.items from to }
    requires in_words { to ≤ length words.now.items }
    ensures ok { IfOk result (λ v. (os : List Object) × Tiles words.now.items from os to × (v.items ≡ map (λ o. o.at) os)) }
    ensures memory { IfErr result (λ e. e ≡ Fault.Memory) }
{
    let mut starts = Vec::new(alloc);
    let mut at = from;
    while at < to {
        starts.push(at)?;
        at += words.header(at).size;
    }
    Ok(starts)
}

/// The addresses of the objects that start in a region, rising.
///
/// # Errors
/// `Fault::Memory` if a growth was refused.
///
/// # Examples
///
/// ```
/// use g1_testing::{image, pictures::shared};
/// use g1_words::objects_in;
///
/// let image = image(alloc, shared())?;
/// let starts = objects_in(alloc, image.heap(), 1)?;
/// assert_eq!(rt; starts.as_slice(), [16, 21].as_slice());
/// ```
pub fn objects_in(alloc: Global, heap: &Heap, region: u32) -> Result<Vec<u64>, Fault>
    requires { region < heap.now.geometry.n }
    ensures ok { IfOk result (λ v. v.items ≡ map (λ o. o.at) (objects_in heap.now region)) }
    ensures memory { IfErr result (λ e. e ≡ Fault.Memory) }
{
    let start = heap.geometry().start(region);
    let Region { kind, top, .. } = heap.region(region);
    match kind {
        Kind::Ordinary => starts_between(alloc, heap.words(), start, start + u64::from(top)),
        Kind::HumongousFirst => Ok(vec![in alloc; start]?),
        Kind::Free => Ok(Vec::new(alloc)),
        Kind::Continuation => Ok(Vec::new(alloc)),
    }
}
