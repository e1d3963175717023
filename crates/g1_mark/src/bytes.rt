ghost use Rattle.std.specs.Prelude.{◌≡◌, ◌<◌, ◌≤◌, ◌+◌, ◌^◌, ℕ, map, length, slice_index, Contains, IfOk};
ghost use Rattle.std.specs.List.{All};
ghost use Rattle.g1_words.specs.Heap.{object_at, objects, regions};
ghost use Rattle.g1_words.specs.Lists.{has};
ghost use Rattle.g1_words.specs.Layout.{sizes_of};
ghost use Rattle.g1_words.specs.Live.{bytes_where};
ghost use Rattle.g1_words.specs.Survivors.{firsts};
ghost use Rattle.g1_words.specs.Valid.{IsValid};
ghost use Rattle.g1_mark.specs.Marked.{used};

use g1_words::{Heap, region_of, size_at};
use g1_work::threads_for;
use std::alloc::{AllocError, Global};
use std::thread;
use std::thread::Threads;

// To add up so many objects takes some three times as long as a thread takes to start.
const ADDED_OBJECTS_A_THREAD: usize = 16_384;

/// The regions that aren't free, rising.
pub fn used_regions(alloc: Global, heap: &Heap) -> Result<Vec<u32>, AllocError>
    ensures used { IfOk result (λ v. v.items ≡ used heap.now) }
    ensures valid { IsValid heap.now }
{
    let mut used = Vec::new(alloc);
    for region in 0..heap.geometry().regions() as u32 {
        if heap.region(region).kind.is_used() {
            used.push(region)?;
        }
    }
    Ok(used)
}

/// For each region, the bytes of its objects among those at some addresses.
fn bytes_at(alloc: Global, heap: &Heap, addresses: &[u64]) -> Result<Vec<u64>, AllocError>
    requires objects { All (λ a. Contains (objects heap.now) (object_at heap.now a)) addresses.now }
    requires once { addresses.now ≡ firsts addresses.now }
    ensures { IfOk result (λ v. v.items ≡ map (bytes_where heap.now (has addresses.now)) (regions heap.now)) }
{
    let geometry = heap.geometry();
    let mut bytes = vec![in alloc; 0u64; geometry.regions() as usize]?;
    for address in addresses {
        let region = region_of(&geometry, *address) as usize;
        bytes[region] += 8 * size_at(heap, *address);
    }
    Ok(bytes)
}

/// As `bytes_at`, if the sizes of the objects are known.
pub fn bytes_of(
    alloc: Global,
    heap: &Heap,
    addresses: &[u64],
    sizes: &[u32],
) -> Result<Vec<u64>, AllocError>
    requires objects { All (λ a. Contains (objects heap.now) (object_at heap.now a)) addresses.now }
    requires once { addresses.now ≡ firsts addresses.now }
    requires sizes { sizes.now ≡ sizes_of heap.now addresses.now }
    ensures { IfOk result (λ v. v.items ≡ map (bytes_where heap.now (has addresses.now)) (regions heap.now)) }
{
    let geometry = heap.geometry();
    let mut bytes = vec![in alloc; 0u64; geometry.regions() as usize]?;
    for index in 0..addresses.len() {
        let region = region_of(&geometry, addresses[index]) as usize;
        bytes[region] += 8 * u64::from(sizes[index]);
    }
    Ok(bytes)
}

// Adds the numbers of one list to those of another.
fn add_each(bytes: &mut Vec<u64>, more: &[u64])
    requires same { length more.now ≡ length bytes.old.items }
    requires few { (r : ℕ) → r < length more.now → slice_index bytes.old.items r + slice_index more.now r < 2 ^ 64 }
    ensures same { length bytes.new.items ≡ length bytes.old.items }
    ensures sums { (r : ℕ) → r < length more.now → slice_index bytes.new.items r ≡ slice_index bytes.old.items r + slice_index more.now r }
{
    for (index, number) in more.iter().enumerate() {
        bytes[index] += *number;
    }
}

// As `bytes_at`, by this many threads, each for its part of the addresses.
fn bytes_by_threads(
    rt: &(impl Threads + Sync),
    alloc: Global,
    heap: &Heap,
    addresses: &[u64],
    threads: usize,
) -> Result<Vec<u64>, AllocError>
    requires some { 0 < threads }
    requires objects { All (λ a. Contains (objects heap.now) (object_at heap.now a)) addresses.now }
    requires once { addresses.now ≡ firsts addresses.now }
    ensures { IfOk result (λ v. v.items ≡ map (bytes_where heap.now (has addresses.now)) (regions heap.now)) }
{
    let size = addresses.len().div_ceil(threads).max(1);
    let parts = thread::map_chunks(
        rt,
        alloc,
        addresses,
        size,
        &|_start: usize, part: &[u64]| -> Result<Vec<u64>, AllocError>
            requires { All (λ a. Contains (objects heap.now) (object_at heap.now a)) part.now × (part.now ≡ firsts part.now) }
            ensures { IfOk result (λ v. v.items ≡ map (bytes_where heap.entry.now (has part.now)) (regions heap.entry.now)) }
        { bytes_at(alloc, heap, part) },
    )?;
    let mut bytes = vec![in alloc; 0u64; heap.geometry().regions() as usize]?;
    for part in &parts {
        match part {
            Ok(more) => add_each(&mut bytes, more),
            Err(_) => return Err(AllocError),
        }
    }
    Ok(bytes)
}

/// For each region, the bytes of its objects among those at some addresses, by this many workers at
/// most. By one if it is 0.
pub fn bytes_at_by(
    rt: &(impl Threads + Sync),
    alloc: Global,
    heap: &Heap,
    addresses: &[u64],
    workers: u64,
) -> Result<Vec<u64>, AllocError>
    requires objects { All (λ a. Contains (objects heap.now) (object_at heap.now a)) addresses.now }
    requires once { addresses.now ≡ firsts addresses.now }
    ensures { IfOk result (λ v. v.items ≡ map (bytes_where heap.now (has addresses.now)) (regions heap.now)) }
{
    match threads_for(workers, addresses.len(), ADDED_OBJECTS_A_THREAD) {
        1 => bytes_at(alloc, heap, addresses),
        threads => bytes_by_threads(rt, alloc, heap, addresses, threads),
    }
}
