//! The slots of the object at an address, also where none is.
ghost use Rattle.std.specs.Prelude.{◌≡◌, ◌<◌, ◌+◌, ℕ, length, slice_index, Contains};
ghost use Rattle.g1_words.specs.Heap.{word, objects, object_at};

use g1_words::{Heap, slots};

/// The reference words of the object at an address; none if no object of the heap can be there.
pub(crate) fn slots_at(heap: &Heap, at: u64) -> &[u64]
    ensures count { Contains (objects heap.now) (object_at heap.now at) → length result.now ≡ (object_at heap.now at).refs }
    ensures each { Contains (objects heap.now) (object_at heap.now at) → (i : ℕ) → i < length result.now → slice_index result.now i ≡ word heap.now (at + 1 + i) }
{
    let words = heap.words().laid();
    let length = words.len() as u64;
    if at >= length {
        return &[];
    }
    let object = heap.words().header(at);
    if object.refs < object.size && object.size <= length - at {
        slots(words, &object)
    } else {
        &[]
    }
}
