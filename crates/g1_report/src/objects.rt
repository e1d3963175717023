//! The objects of a heap by the words that reference them.
ghost use Rattle.std.specs.Prelude.{◌≡◌, ◌<◌, ◌≤◌, ◌+◌, Some, Contains, option_map, IsTrue, IsFalse};
ghost use Rattle.g1_words.specs.Heap.{objects, object_at};
ghost use Rattle.g1_words.specs.Valid.{IsReference};
ghost use Rattle.g1_report.specs.Program.{words_text, words_at, object_of};

use g1_words::{Heap, Object, data, laws, slots};

/// An object, with its slots and its data words.
#[derive(Clone, Copy)]
pub struct ObjectWords<'a> {
    pub at: u64,
    pub slots: &'a [u64],
    pub data: &'a [u64],
}

/// The object that a word references, or none if the word is null.
pub fn object_of<'a>(heap: &'a Heap, word: u64) -> Option<ObjectWords<'a>>
    ensures { IsReference heap.now word → option_map words_text result ≡ object_of heap.now word }
{
    laws::valid(heap);
    match word.checked_sub(1) {
        Some(at) => words_at(heap, at),
        None => None,
    }
}

/// The words of the object at an address, if one is there.
pub fn words_at<'a>(heap: &'a Heap, at: u64) -> Option<ObjectWords<'a>>
    ensures { Contains (objects heap.now) (object_at heap.now at) → option_map words_text result ≡ Some (words_at heap.now at) }
{
    let words = heap.words();
    let laid = words.laid();
    let object = words.header(at);
    if fits(&object, laid.len() as u64) {
        let (slots, data) = (slots(laid, &object), data(laid, &object));
        Some(ObjectWords { at, slots, data })
    } else {
        None
    }
}

// Whether all words of an object are among so many.
fn fits(object: &Object, words: u64) -> bool
    ensures fits { IsTrue result → (object.now.refs < object.now.size) × (object.now.at + object.now.size ≤ words) }
    ensures passes { IsFalse result → object.now.refs < object.now.size → object.now.at + object.now.size ≤ words → ⊥ }
{
    object.refs < object.size && object.size <= words.saturating_sub(object.at)
}
