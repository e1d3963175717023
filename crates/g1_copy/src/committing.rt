ghost use Rattle.std.specs.Prelude.{ℕ, List};
ghost use Rattle.g1_after.specs.Paused.{IsPaused};
ghost use Rattle.g1_work.specs.Team.{AreWorkers};
ghost use Rattle.g1_copy.specs.Prepared.{IsMadeFor};

use crate::filling::{write, written_regions};
use crate::preparing::Prepared;
use g1_image::Image;
use g1_rem::Tracked;
use g1_words::{Heap, Words};
use g1_work::Gate;
use std::thread::Threads;

/// The image after the pause, from what was prepared for it, written in place in one pass over the
/// regions. Takes no memory and refuses nothing.
///
/// # Examples
///
/// ```
/// use g1_copy::{commit, prepare};
/// use g1_image::encode;
/// use g1_layout::place;
/// use g1_rem::{Starts, refine, verify};
/// use g1_testing::pictures::{shared, shared_after};
/// use g1_testing::{image, text};
/// use g1_work::Open;
///
/// let shared = image(alloc, shared())?;
/// let tracked = verify(&rt, alloc, shared).map_err(|(_, fault)| fault)?;
/// let heap = tracked.image.heap();
/// let starts = Starts::build(alloc, heap)?;
/// let remembered = refine(&rt, alloc, &tracked, &starts)?;
/// let plan = place(alloc, heap, &[1], &[21, 16])?;
/// let prepared = prepare(&rt, alloc, &tracked, &starts, &remembered, &[1], &plan)?;
/// let after = commit(&rt, 8, tracked, prepared, &Open);
/// assert_eq!(rt; encode(alloc, &after.image)?, text(alloc, shared_after())?);
/// ```
pub fn commit<R: Threads + Sync, G: Gate + Sync>(
    rt: &R,
    workers: u64,
    tracked: Tracked,
    prepared: Prepared,
    gate: &G,
) -> Tracked
    requires workers { AreWorkers workers }
    requires made { (set : List ℕ) × (l : List ℕ) × IsMadeFor prepared tracked set l }
    ensures paused { (set l : List ℕ) → IsMadeFor prepared tracked set l → IsPaused tracked set l result }
{
    g1_after::laws::image_after();
    let Tracked { image } = tracked;
    let Image {
        heap,
        remembered: _,
        mut log,
    } = image;
    let mut words = heap.words;
    let region_words = heap.geometry.region_words() as usize;
    // Zeros behind the last region that is laid or written stay as they are.
    let used = words.laid().len().div_ceil(region_words);
    let regions = used.max(written_regions(&prepared));
    words.lay_to(regions * region_words);
    let (mut laid, zeros) = words.into_parts();
    write(rt, workers, &mut laid, region_words, &prepared, gate);
    log.clear();
    let heap = Heap {
        geometry: heap.geometry,
        words: Words::of_parts(laid, zeros),
        regions: prepared.regions,
        roots: prepared.roots,
        current: None,
    };
    Tracked {
        image: Image {
            heap,
            remembered: prepared.remembered,
            log,
        },
    }
}
