ghost use Rattle.std.specs.Prelude.{◌≡◌, ◌≤◌, ◌<◌, ◌+◌, ◌*◌, ◌^◌, ℕ, length, sum, slice_index, IfOk, IfErr};
ghost use Rattle.g1_words.specs.Layout.{need, free_regions, sizes_of, places as places_of};
ghost use Rattle.g1_layout.specs.Placed.{CanPlace};
ghost use Rattle.g1_layout.specs.Batch.{IsBatch};
ghost use Rattle.g1_layout.specs.Plan.{laid_before, run_at, runs, plan_of};

use crate::measuring::{Measured, free_count, free_regions, measure, measure_sized, next_fit};
use crate::new_addresses::Table;
use crate::plan::{Plan, Run};
use g1_words::{Fault, Heap, region_of};
use std::alloc::{AllocError, Global};

/// What is placed: the survivors of a heap with their sizes, and the regions that have room for them.
#[derive(Clone, Copy)]
pub struct Batch<'a> {
    pub heap: &'a Heap,
    pub survivors: &'a [u64],
    pub sizes: &'a [u32],
    pub to_space: &'a [u32],
}

/// The survivors' new addresses.
fn places(alloc: Global, batch: &Batch<'_>) -> Result<Vec<u64>, AllocError>
    requires { IsBatch batch.now }
    ensures { IfOk result (λ v. v.items ≡ places_of batch.now.heap.now batch.now.survivors.now) }
{
    let Batch {
        heap,
        survivors,
        sizes,
        to_space,
    } = *batch;
    let geometry = heap.geometry();
    let mut places = Vec::with_capacity(alloc, survivors.len())?;
    let mut end: u64 = 0;
    for i in 0..survivors.len() {
        let size = u64::from(sizes[i]);
        let at = next_fit(&geometry, end, size);
        let number = region_of(&geometry, at);
        let region = to_space[number as usize];
        places.push(geometry.start(region) + (at - geometry.words_of(number)))?;
        end = at + size;
    }
    Ok(places)
}

/// The run of a region of to-space, whose first survivor has this index.
fn run_from(batch: &Batch<'_>, places: &[u64], region: u32, from: usize) -> Run
    requires batch { IsBatch batch.now }
    requires placed { places.now ≡ places_of batch.now.heap.now batch.now.survivors.now }
    ensures { let h = batch.now.heap.now in let l = batch.now.survivors.now in (t : ℕ) → t < need h l → region ≡ slice_index (free_regions h) t → from ≡ laid_before h l t → result ≡ run_at h l t }
{
    let Batch {
        heap,
        survivors,
        sizes,
        ..
    } = *batch;
    let geometry = heap.geometry();
    let start = geometry.start(region);
    let mut to = from;
    while to < survivors.len() && region_of(&geometry, places[to]) == u64::from(region) {
        to += 1;
    }
    let end = if from < to {
        places[to - 1] + u64::from(sizes[to - 1]) - start
    } else {
        0
    };
    Run {
        region,
        from,
        to,
        end,
    }
}

/// The runs of the regions of to-space.
fn runs(alloc: Global, batch: &Batch<'_>, places: &[u64]) -> Result<Vec<Run>, AllocError>
    requires batch { IsBatch batch.now }
    requires placed { places.now ≡ places_of batch.now.heap.now batch.now.survivors.now }
    ensures { IfOk result (λ v. v.items ≡ runs batch.now.heap.now batch.now.survivors.now) }
{
    let to_space = batch.to_space;
    let mut runs = Vec::with_capacity(alloc, to_space.len())?;
    let mut from: usize = 0;
    for region in to_space {
        let run = run_from(batch, places, *region, from);
        from = run.to;
        runs.push(run)?;
    }
    Ok(runs)
}

/// The new addresses of a batch, and its runs.
fn laid(alloc: Global, batch: &Batch<'_>) -> Result<(Vec<u64>, Vec<Run>), AllocError>
    requires { IsBatch batch.now }
    ensures places { IfOk result (λ r. r.0.items ≡ places_of batch.now.heap.now batch.now.survivors.now) }
    ensures runs { IfOk result (λ r. r.1.items ≡ runs batch.now.heap.now batch.now.survivors.now) }
{
    let places = places(alloc, batch)?;
    let runs = runs(alloc, batch, &places)?;
    Ok((places, runs))
}

/// The plan for survivors of these sizes, which have room in so many regions.
fn planned(
    alloc: Global,
    heap: &Heap,
    set: &[u32],
    survivors: &[u64],
    sizes: &[u32],
    regions: u64,
    words: u64,
) -> Result<Plan, AllocError>
    requires can { CanPlace heap.now set.now survivors.now }
    requires sizes { sizes.now ≡ sizes_of heap.now survivors.now }
    requires regions { regions ≡ need heap.now survivors.now }
    requires room { need heap.now survivors.now ≤ length (free_regions heap.now) }
    requires words { words ≡ sum (sizes_of heap.now survivors.now) }
    ensures { IfOk result (λ p. p ≡ plan_of heap.now set.now survivors.now) }
{
    let geometry = heap.geometry();
    let mut to_space = free_regions(alloc, heap)?;
    to_space.truncate(regions as usize);
    let batch = Batch {
        heap,
        survivors,
        sizes,
        to_space: &to_space,
    };
    let (places, runs) = laid(alloc, &batch)?;
    let table = Table::new(alloc, &geometry, set, survivors, &places)?;
    Ok(Plan {
        set: set.to_vec(alloc)?,
        survivors: survivors.to_vec(alloc)?,
        places,
        to_space,
        runs,
        words,
        table,
    })
}

/// Where the survivors of a set of regions go, in time linear in the survivors, the regions and the
/// words of the set.
///
/// # Errors
///
/// `Fault::Room` if the survivors need more regions than are free, with both numbers, also if memory is
/// refused; `Fault::Memory` if it is refused and there is room.
///
/// # Examples
///
/// ```
/// use g1_layout::place;
/// use g1_testing::{image, pictures::shared};
///
/// // The survivors have 2 and 5 words, and region 2 is the lowest that is free.
/// let image = image(alloc, shared())?;
/// let plan = place(alloc, image.heap(), &[1], &[21, 16])?;
/// assert_eq!(rt; plan.places(), [32, 34].as_slice());
/// assert_eq!(rt; plan.to_space(), [2].as_slice());
/// assert_eq!(rt; plan.words(), 7);
/// ```
pub fn place(alloc: Global, heap: &Heap, set: &[u32], survivors: &[u64]) -> Result<Plan, Fault>
    requires { CanPlace heap.now set.now survivors.now }
    ensures plan { IfOk result (λ p. p ≡ plan_of heap.now set.now survivors.now) }
    ensures room { length (free_regions heap.now) < need heap.now survivors.now → result ≡ Err (Fault.Room (need heap.now survivors.now) (length (free_regions heap.now))) }
    ensures memory { need heap.now survivors.now ≤ length (free_regions heap.now) → IfErr result (λ e. e ≡ Fault.Memory) }
{
    let free = free_count(heap);
    let Measured { need, words, sizes } = measure(alloc, heap, survivors);
    if need > free {
        return Err(Fault::Room { need, free });
    }
    let Some(sizes) = sizes else {
        return Err(Fault::Memory);
    };
    let plan = planned(alloc, heap, set, survivors, &sizes, need, words)?;
    Ok(plan)
}

/// As `place`, for a caller that has the survivors' sizes. It reads no header.
///
/// # Errors
///
/// As `place`.
///
/// # Examples
///
/// ```
/// use g1_layout::place_sized;
/// use g1_testing::image;
/// use g1_words::Fault;
///
/// let image = image(alloc, "heap 16 4 3
///     root 0
///     root 16
///     region 0 ordinary
///     object 12/0 ..
///     region 1 ordinary
///     object 5/0 ..")?;
/// let refused = place_sized(alloc, image.heap(), &[0, 1], &[0, 16], &[12, 5]).err();
/// assert_eq!(rt; refused, Some(Fault::Room { need: 2, free: 1 }));
/// ```
pub fn place_sized(
    alloc: Global,
    heap: &Heap,
    set: &[u32],
    survivors: &[u64],
    sizes: &[u32],
) -> Result<Plan, Fault>
    requires can { CanPlace heap.now set.now survivors.now }
    requires sizes { sizes.now ≡ sizes_of heap.now survivors.now }
    ensures plan { IfOk result (λ p. p ≡ plan_of heap.now set.now survivors.now) }
    ensures room { length (free_regions heap.now) < need heap.now survivors.now → result ≡ Err (Fault.Room (need heap.now survivors.now) (length (free_regions heap.now))) }
    ensures memory { need heap.now survivors.now ≤ length (free_regions heap.now) → IfErr result (λ e. e ≡ Fault.Memory) }
{
    let free = free_count(heap);
    let (regions, words) = measure_sized(heap, survivors, sizes);
    if regions > free {
        return Err(Fault::Room {
            need: regions,
            free,
        });
    }
    let plan = planned(alloc, heap, set, survivors, sizes, regions, words)?;
    Ok(plan)
}
