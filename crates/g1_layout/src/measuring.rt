ghost use Rattle.std.specs.Prelude.{◌≡◌, ◌≤◌, ◌<◌, ◌+◌, ◌*◌, ◌^◌, length, sum, IfOk, IfSome};
ghost use Rattle.g1_words.specs.Layout.{next_fit, need, free_regions, sizes_of};
ghost use Rattle.g1_words.specs.Valid.{IsValid};
ghost use Rattle.g1_layout.specs.Placed.{CanLay};

use g1_words::{Geometry, Heap, region_of, size_at};
use std::alloc::{AllocError, Global};

/// The place of an object of a size in an endless row of empty regions, from an address of the row on.
pub(crate) fn next_fit(geometry: &Geometry, from: u64, size: u64) -> u64
    requires { from + size + geometry.now.w < 2 ^ 64 }
    ensures { result ≡ next_fit geometry.now.w from size }
{
    // This is asked for each survivor, so it divides nothing.
    let next = geometry.words_of(region_of(geometry, from) + 1);
    if from + size <= next { from } else { next }
}

/// Survivors, measured.
#[derive(Drop)]
pub(crate) struct Measured {
    /// The number of regions that they take, whether or not as many are free.
    pub(crate) need: u64,
    /// The number of their words, headers included.
    pub(crate) words: u64,
    /// The size of each, or none if memory was refused.
    pub(crate) sizes: Option<Vec<u32>>,
}

/// Measures the survivors. Each header is read once.
pub(crate) fn measure(alloc: Global, heap: &Heap, survivors: &[u64]) -> Measured
    requires { CanLay heap.now survivors.now }
    ensures need { result.need ≡ need heap.now survivors.now }
    ensures words { result.words ≡ sum (sizes_of heap.now survivors.now) }
    ensures sizes { IfSome result.sizes (λ v. v.items ≡ sizes_of heap.now survivors.now) }
{
    let geometry = heap.geometry();
    let mut end: u64 = 0;
    let mut words: u64 = 0;
    let mut sizes = Vec::new(alloc);
    let mut kept = true;
    for a in survivors {
        let size = size_at(heap, *a);
        end = next_fit(&geometry, end, size) + size;
        words += size;
        kept = kept && sizes.push(size as u32).is_ok();
    }
    Measured {
        need: region_of(&geometry, end + (geometry.region_words() - 1)),
        words,
        sizes: if kept { Some(sizes) } else { None },
    }
}

/// How many regions survivors of these sizes take, whether or not as many are free, and how many words.
pub(crate) fn measure_sized(heap: &Heap, survivors: &[u64], sizes: &[u32]) -> (u64, u64)
    requires lay { CanLay heap.now survivors.now }
    requires sizes { sizes.now ≡ sizes_of heap.now survivors.now }
    ensures need { result.0 ≡ need heap.now survivors.now }
    ensures words { result.1 ≡ sum (sizes_of heap.now survivors.now) }
{
    let geometry = heap.geometry();
    let mut end: u64 = 0;
    let mut words: u64 = 0;
    for i in 0..survivors.len() {
        let taken = u64::from(sizes[i]);
        end = next_fit(&geometry, end, taken) + taken;
        words += taken;
    }
    let need = region_of(&geometry, end + (geometry.region_words() - 1));
    (need, words)
}

/// The number of free regions.
pub(crate) fn free_count(heap: &Heap) -> u64
    ensures count { result ≡ length (free_regions heap.now) }
    ensures valid { IsValid heap.now }
{
    let regions = heap.geometry().regions() as u32;
    let mut count: u64 = 0;
    for r in 0..regions {
        if heap.region(r).kind.is_free() {
            count += 1;
        }
    }
    count
}

/// The free regions, rising.
pub(crate) fn free_regions(alloc: Global, heap: &Heap) -> Result<Vec<u32>, AllocError>
    ensures { IfOk result (λ v. v.items ≡ free_regions heap.now) }
{
    let regions = heap.geometry().regions() as u32;
    let mut free = Vec::new(alloc);
    for r in 0..regions {
        if heap.region(r).kind.is_free() {
            free.push(r)?;
        }
    }
    Ok(free)
}
