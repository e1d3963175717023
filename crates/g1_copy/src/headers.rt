ghost use Rattle.std.specs.Prelude.{◌≡◌, ◌≤◌, ◌<◌, ℕ, length, slice_index, All};

use crate::moving::Moving;
use g1_words::{Object, Words, header};

/// So many headers are read at once: the processor then waits for them together, and not for one after
/// another.
const AHEAD: usize = 16;

/// The headers of the survivors from one index up to another.
#[derive(Drop)]
pub(crate) struct Headers {
    from: usize,
    to: usize,
    headers: [u64; AHEAD],
}

/// Reads the words at these addresses.
fn read(words: &Words, addresses: &[u64], headers: &mut [u64])
    requires room { length addresses.now ≤ length headers.old }
    ensures { (k : ℕ) → k < length addresses.now → slice_index headers.new k ≡ slice_index words.now.items (slice_index addresses.now k) }
{
    for (k, a) in addresses.iter().enumerate() {
        headers[k] = words.at(*a);
    }
}

impl Headers {
    ghost use Rattle.std.specs.Prelude.{◌≡◌, ◌<◌, ◌+◌, ℕ, List, length, slice_index};
    ghost use Rattle.g1_words.specs.Heap.{Heap as HeapOf, object_at};
    ghost use Rattle.g1_copy.specs.Headers.{AreAhead};

    /// None is read, and the survivor at an index is the next.
    pub(crate) fn new(from: usize) -> Headers
        ensures { (h : HeapOf) (l : List ℕ) → AreAhead h l from result }
    {
        Headers {
            from,
            to: from,
            headers: [0; AHEAD],
        }
    }

    /// The survivor at an index. Its header, and those of the next ones, are read if none is left.
    pub(crate) fn object(&mut self, moving: &Moving<'_>, i: usize) -> Object
        requires index { i < length moving.now.plan.survivors }
        requires ahead { AreAhead moving.now.heap moving.now.plan.survivors i self.old }
        ensures object { result ≡ object_at moving.now.heap (slice_index moving.now.plan.survivors i) }
        ensures ahead { AreAhead moving.now.heap moving.now.plan.survivors (i + 1) self.new }
    {
        let survivors = moving.plan.survivors();
        if i == self.to {
            let to = survivors.len().min(i + AHEAD);
            read(moving.heap.words(), &survivors[i..to], &mut self.headers);
            self.from = i;
            self.to = to;
        }
        let Object { size, refs, .. } = header(&self.headers, (i - self.from) as u64);
        Object {
            at: survivors[i],
            size,
            refs,
        }
    }
}
