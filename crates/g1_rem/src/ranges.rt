ghost use Rattle.std.specs.Prelude.{◌<◌, IfOk};
ghost use Rattle.g1_work.specs.Ranges.{IsCut};

use g1_words::Heap;
use g1_work::{WORDS_A_THREAD, cut_regions, ordinary_words, threads_for, used_words};
use std::alloc::{AllocError, Global};

/// Cuts the regions into ranges with about as many used words each: the region at which each range
/// begins, and at last the end of the heap.
pub(crate) fn cut(alloc: Global, heap: &Heap, ranges: usize) -> Result<Vec<u32>, AllocError>
    requires { 0 < ranges }
    ensures { IfOk result (λ v. IsCut heap.now.geometry.n ranges v.items) }
{
    g1_words::laws::valid(heap);
    cut_regions(alloc, heap.regions(), ranges)
}

/// How many threads share a pass over the slots of a heap.
pub(crate) fn threads_for_slots(heap: &Heap, workers: u64) -> usize
    ensures { 0 < result }
{
    threads_for(workers, used_words(heap.regions()), WORDS_A_THREAD)
}

/// How many threads share a pass over the objects of a heap. A humongous one is one step, whatever
/// its size, so its words feed no thread.
pub(crate) fn threads_for_objects(heap: &Heap, workers: u64) -> usize
    ensures { 0 < result }
{
    threads_for(workers, ordinary_words(heap.regions()), WORDS_A_THREAD)
}
