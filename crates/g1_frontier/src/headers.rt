ghost use Rattle.std.specs.Prelude.{◌≡◌, ◌<◌, ◌≤◌, ◌*◌, length, map, Contains, IfOk, IfErr};
ghost use Rattle.std.specs.List.{All};
ghost use Rattle.g1_words.specs.declared.fault.Fault.TheVariants.{Memory};
ghost use Rattle.g1_words.specs.Heap.{objects, object_at};
ghost use Rattle.g1_work.specs.Regions.{slice_of};
ghost use Rattle.g1_frontier.specs.Items.{slot_count};

use g1_words::{Fault, Heap};
use g1_work::{Make, make_each, threads_for};
use std::alloc::{AllocError, Global};
use std::thread::Threads;

// A header mostly misses the caches. So many take some ten times as long as a thread takes to start.
const HEADERS_A_THREAD: usize = 4096;

// How many slots the objects at some addresses have.
fn slot_counts(alloc: Global, heap: &Heap, addresses: &[u64]) -> Result<Vec<u64>, AllocError>
    requires objects { All (λ a. Contains (objects heap.now) (object_at heap.now a)) addresses.now }
    ensures { IfOk result (λ v. v.items ≡ map (slot_count heap.now) addresses.now) }
{
    let mut counts = Vec::with_capacity(alloc, addresses.len())?;
    for at in addresses {
        counts.push(heap.object(*at).refs)?;
    }
    Ok(counts)
}

/// Addresses of objects, in parts of this many.
#[derive(Drop)]
struct Addresses<'a> {
    heap: &'a Heap,
    addresses: &'a [u64],
    size: usize,
}

impl Make for Addresses<'_> {
    type Made = Vec<u64>;

    ghost ready = { λ s j. All (λ a. Contains (objects s.heap.now) (object_at s.heap.now a)) s.addresses.now × (j * s.size ≤ length s.addresses.now) };

    ghost makes = { λ s j v. v.items ≡ map (slot_count s.heap.now) (slice_of s.size j s.addresses.now) };

    fn make(&self, alloc: Global, part: usize) -> Result<Vec<u64>, Fault> {
        let rest = &self.addresses[part * self.size..];
        Ok(slot_counts(alloc, self.heap, &rest[..self.size.min(rest.len())])?)
    }
}

// As `slot_counts`, by this many threads.
fn counts_by_threads(
    rt: &(impl Threads + Sync),
    alloc: Global,
    heap: &Heap,
    addresses: &[u64],
    threads: usize,
) -> Result<Vec<u64>, Fault>
    requires threads { 0 < threads }
    requires objects { All (λ a. Contains (objects heap.now) (object_at heap.now a)) addresses.now }
    ensures ok { IfOk result (λ v. v.items ≡ map (slot_count heap.now) addresses.now) }
    ensures memory { IfErr result (λ e. e ≡ Memory) }
{
    let size = addresses.len().div_ceil(threads).max(1);
    let parts = Addresses {
        heap,
        addresses,
        size,
    };
    let lists = make_each(rt, alloc, threads, addresses.len().div_ceil(size), &parts)?;
    Ok(lists.concat(alloc)?)
}

/// How many slots the objects at some addresses have, by this many workers at most.
pub(crate) fn slot_counts_by(
    rt: &(impl Threads + Sync),
    alloc: Global,
    heap: &Heap,
    addresses: &[u64],
    workers: u64,
) -> Result<Vec<u64>, Fault>
    requires objects { All (λ a. Contains (objects heap.now) (object_at heap.now a)) addresses.now }
    ensures ok { IfOk result (λ v. v.items ≡ map (slot_count heap.now) addresses.now) }
    ensures memory { IfErr result (λ e. e ≡ Memory) }
{
    match threads_for(workers, addresses.len(), HEADERS_A_THREAD) {
        1 => Ok(slot_counts(alloc, heap, addresses)?),
        threads => counts_by_threads(rt, alloc, heap, addresses, threads),
    }
}
