ghost use Rattle.std.specs.Prelude.{◌≡◌, ◌+◌, ◌*◌, ◌/◌, ◌-◌, ◌<◌, ◌≤◌, length, find, min, Some, ◌==◌, if◌then◌else◌};
ghost use Rattle.g1_words.specs.Geometry.{most_region_words, most_regions, most_words};
ghost use Rattle.g1_words.specs.Heap.{end, region_with, regions, top};
ghost use Rattle.g1_words.specs.Valid.{IsValid};
ghost use Rattle.g1_words.specs.declared.region.Kind.TheVariants.{HumongousFirst, Continuation};
ghost use Rattle.g1_image.specs.Cards.{IsTracked};
ghost use Rattle.g1_trace.specs.Mutator.{is_free_region, is_free_run, run_length, region_for, place_for, heap_with, with_heap};
ghost use Rattle.g1_trace.specs.Placing.{run_taken, ordinary_heap, humongous_heap};

use g1_rem::Tracked;
use g1_words::{Geometry, Heap, Kind, Region, header_word};

/// Returns whether a region is free.
fn is_free(heap: &Heap, r: u32) -> bool
    requires { r < heap.now.geometry.n }
    ensures { result ≡ is_free_region heap.now r }
{
    heap.region(r).kind.is_free()
}

/// The lowest free region.
fn lowest_free(heap: &Heap) -> Option<u32>
    ensures { result ≡ find (is_free_region heap.now) (regions heap.now) }
{
    for r in 0..heap.geometry().regions() as u32 {
        if is_free(heap, r) {
            return Some(r);
        }
    }
    None
}

/// The lowest run of this many free regions, one after another.
fn lowest_run(heap: &Heap, count: u64) -> Option<u32>
    requires { 0 < count }
    ensures { result ≡ find (is_free_run heap.now count) (regions heap.now) }
{
    let mut first: u32 = 0;
    for r in 0..heap.geometry().regions() as u32 {
        if !is_free(heap, r) {
            first = r + 1;
        } else if u64::from(r - first) + 1 == count {
            return Some(first);
        }
    }
    None
}

/// Where an object of this many words goes: a humongous one to the lowest run of free regions, any
/// other to the current region if it ends within it, else to the lowest free one.
fn region_for(heap: &Heap, size: u64) -> Option<u32>
    requires some { 0 < size }
    requires fits { size ≤ heap.now.geometry.n * heap.now.geometry.w }
    ensures { result ≡ region_for heap.now size }
{
    let geometry = heap.geometry();
    if geometry.is_humongous(size) {
        return lowest_run(heap, geometry.regions_for(size));
    }
    match heap.current() {
        Some(current) => {
            if u64::from(heap.region(current).top) + size <= geometry.region_words() {
                Some(current)
            } else {
                lowest_free(heap)
            }
        }
        None => lowest_free(heap),
    }
}

/// Where a new object with this many slots and data words goes.
pub(crate) fn place_for(heap: &Heap, refs: u64, words: u64) -> Option<u32>
    ensures { result ≡ place_for heap.now (1 + refs + words) }
{
    let total = heap.geometry().words();
    if refs >= total || words >= total - refs {
        return None;
    }
    region_for(heap, 1 + refs + words)
}

/// Region number i of a humongous object's run.
fn run_region(geometry: &Geometry, size: u64, i: u64) -> Region
    requires size { size ≤ most_words }
    requires within { i * geometry.now.w < size }
    ensures { result ≡ region_with (if i == 0 then HumongousFirst else Continuation) (min geometry.now.w (size - i * geometry.now.w)) }
{
    let region_words = geometry.region_words();
    let rest = size - geometry.words_of(i);
    let kind = if i == 0 {
        Kind::HumongousFirst
    } else {
        Kind::Continuation
    };
    if region_words <= rest {
        Region {
            kind,
            top: region_words as u32,
            pinned: false,
        }
    } else {
        Region {
            kind,
            top: rest as u32,
            pinned: false,
        }
    }
}

/// Takes the regions of a humongous object's run.
fn take_run(regions: &mut Vec<Region>, geometry: &Geometry, first: u32, size: u64)
    requires width { 16 ≤ geometry.now.w }
    requires size { (0 < size) × (size ≤ most_words) }
    requires there { first + (size + (geometry.now.w - 1)) / geometry.now.w ≤ length regions.old.items }
    requires few { length regions.old.items ≤ most_regions }
    ensures { regions.new.items ≡ run_taken geometry.now.w regions.old.items first size ((size + (geometry.now.w - 1)) / geometry.now.w) }
{
    for i in 0..geometry.regions_for(size) {
        regions[first as usize + i as usize] = run_region(geometry, size, i);
    }
}

/// Places an ordinary object at the top of a region, which becomes current.
fn place_ordinary(heap: &mut Heap, r: u32, root: u64, size: u64, refs: u64)
    requires region { r < length heap.old.regions }
    requires fits { top heap.old r + size ≤ most_region_words }
    requires width { (16 ≤ heap.old.geometry.w) × (heap.old.geometry.w ≤ most_region_words) }
    requires few { length heap.old.regions ≤ most_regions }
    requires refs { refs < size }
    requires header { end heap.old r < length heap.old.words }
    requires root { root < length heap.old.roots }
    requires kept { IsValid (ordinary_heap heap.old r size refs root) }
    ensures { heap.new ≡ ordinary_heap heap.old r size refs root }
{
    let Region { top, pinned, .. } = heap.regions[r as usize];
    let at = heap.geometry.start(r) + u64::from(top);
    let end = heap.geometry.start(r + 1);
    heap.words.lay_to(end as usize);
    heap.words.set(at, header_word(size, refs));
    heap.roots[root as usize] = at + 1;
    heap.regions[r as usize] = Region {
        kind: Kind::Ordinary,
        top: top + size as u32,
        pinned,
    };
    heap.current = Some(r);
}

/// Places a humongous object at the start of a run of free regions.
fn place_humongous(heap: &mut Heap, r: u32, root: u64, size: u64, refs: u64)
    requires region { r < length heap.old.regions }
    requires free { top heap.old r ≡ 0 }
    requires run { r + run_length heap.old size ≤ length heap.old.regions }
    requires width { (16 ≤ heap.old.geometry.w) × (heap.old.geometry.w ≤ most_region_words) }
    requires few { length heap.old.regions ≤ most_regions }
    requires refs { (refs < size) × (size ≤ most_words) }
    requires header { end heap.old r < length heap.old.words }
    requires root { root < length heap.old.roots }
    requires kept { IsValid (humongous_heap heap.old r size refs root) }
    ensures { heap.new ≡ humongous_heap heap.old r size refs root }
{
    let at = heap.geometry.start(r);
    let count = heap.geometry.regions_for(size);
    let end = heap.geometry.words_of(u64::from(r) + count);
    heap.words.lay_to(end as usize);
    heap.words.set(at, header_word(size, refs));
    heap.roots[root as usize] = at + 1;
    take_run(&mut heap.regions, &heap.geometry, r, size);
}

/// Places an object that a root references in the region where it goes. One header is written, and
/// as many regions as it takes: the words were 0 before.
fn place(heap: &mut Heap, r: u32, root: u64, refs: u64, words: u64)
    requires place { place_for heap.old (1 + refs + words) ≡ Some r }
    requires root { root < length heap.old.roots }
    requires kept { IsValid (heap_with heap.old r (1 + refs + words) refs root) }
    ensures { heap.new ≡ heap_with heap.old r (1 + refs + words) refs root }
{
    let geometry = heap.geometry();
    let size = 1 + refs + words;
    if geometry.is_humongous(size) {
        place_humongous(heap, r, root, size, refs);
    } else {
        place_ordinary(heap, r, root, size, refs);
    }
}

/// The same on an image.
pub(crate) fn place_object(tracked: &mut Tracked, r: u32, root: u64, refs: u64, words: u64)
    requires place { place_for tracked.old.heap (1 + refs + words) ≡ Some r }
    requires root { root < length tracked.old.heap.roots }
    requires kept { IsTracked (with_heap tracked.old (heap_with tracked.old.heap r (1 + refs + words) refs root)) }
    ensures { tracked.new ≡ with_heap tracked.old (heap_with tracked.old.heap r (1 + refs + words) refs root) }
{
    place(&mut tracked.image.heap, r, root, refs, words);
}
