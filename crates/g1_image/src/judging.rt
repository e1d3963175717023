ghost use Rattle.std.specs.Prelude.{◌≡◌, ◌<◌, ◌*◌, ◌^◌, ◌⊎◌, ℕ, List, All, length, map, OnOk, IfOk, IfErr};
ghost use Rattle.g1_words.specs.Words.{AreLaid};
ghost use Rattle.g1_image.specs.Image.{IsTextWithin, region_of_entry};
ghost use Rattle.g1_image.specs.Faults.{MayFailWithin, IsGoodHeading, IsGoodHeap, TableFault, AreKnown};
ghost use Rattle.g1_image.specs.Plain.{heap_of_parts};
ghost use Rattle.g1_image.specs.Front.{IsLaidOut, IsReachedBy};
ghost use Rattle.g1_image.specs.Drafted.{IsDraftOf};
ghost use Rattle.g1_image.specs.Stale.{IsTextWithout, FaultWithout};

use crate::cards::check_cards;
use crate::checks::{check_heap, check_heap_by};
use crate::cursor::{Entry, Heading};
use crate::draft::Draft;
use crate::front::Front;
use crate::image::Image;
use crate::stale::{Stale, heap_without, stale_words};
use crate::starts::shaped_starts;
use crate::table::{check_flags, regions};
use g1_words::{Fault, Geometry, Heap, Limits, Words};
use std::alloc::Global;
use std::thread::Threads;

/// The heap in a file whose heading is within these limits, before it is checked.
fn draft_heap(
    alloc: Global,
    limits: Limits,
    h: &Heading,
    table: &[Entry],
    roots: Vec<u64>,
    words: Words,
) -> Result<Draft, Fault>
    requires good { IsGoodHeading limits h.now }
    requires table { length table.now ≡ h.now.n }
    requires roots { length roots.items ≡ h.now.roots }
    requires words { length words.items ≡ h.now.n * h.now.w }
    requires fit { All (λ x. x < 2 ^ 64) words.items }
    requires laid { AreLaid h.now.w (map region_of_entry table.now) words.laid }
    ensures ok { IfOk result (λ d. d ≡ heap_of_parts h.now table.now roots.items words.items) }
    ensures known { OnOk result (AreKnown table.now h.now.n) }
    ensures err { IfErr result (λ e. (e ≡ Fault.Memory) ⊎ TableFault table.now h.now.n e) }
{
    let regions = regions(alloc, table)?;
    check_flags(table)?;
    let geometry = Geometry::within(limits, u64::from(h.w), u64::from(h.k), u64::from(h.n))?;
    let current = if h.current < h.n {
        Some(h.current)
    } else {
        None
    };
    Ok(Draft {
        geometry,
        words,
        regions,
        roots,
        current,
    })
}

/// An image whose heap and cards haven't been looked at.
#[derive(Drop)]
struct DraftImage {
    draft: Draft,
    log: Vec<u32>,
    remembered: Vec<Vec<u32>>,
}

/// The image in a whole file's front and words, before it is checked.
fn draft_image(
    alloc: Global,
    limits: Limits,
    front: Front,
    words: Words,
) -> Result<DraftImage, Fault>
    requires text { (bytes : List ℕ) × IsLaidOut limits bytes front words.items }
    requires laid { IsReachedBy front words.laid }
    ensures ok { IfOk result (λ d. (bytes : List ℕ) → IsLaidOut limits bytes front words.items → IsDraftOf limits bytes d) }
    ensures err { IfErr result (λ e. (bytes : List ℕ) → IsLaidOut limits bytes front words.items → MayFailWithin limits bytes e) }
    ensures stage { IfErr result (λ e. (e ≡ Fault.Memory) ⊎ TableFault front.table.items front.heading.n e) }
{
    let Front {
        version: _,
        heading,
        table,
        roots,
        log,
        remembered,
    } = front;
    let draft = draft_heap(alloc, limits, &heading, &table, roots, words)?;
    Ok(DraftImage {
        draft,
        log,
        remembered,
    })
}

/// The image of a draft whose heap is good, or the first fault of its cards.
fn finish(alloc: Global, drafted: DraftImage) -> Result<Image, Fault>
    requires good { IsGoodHeap drafted.draft }
    requires text { (limits : Limits) × (bytes : List ℕ) × IsDraftOf limits bytes drafted }
    ensures ok { IfOk result (λ i. (limits : Limits) (bytes : List ℕ) → IsDraftOf limits bytes drafted → IsTextWithin limits bytes i) }
    ensures err { IfErr result (λ e. (limits : Limits) (bytes : List ℕ) → IsDraftOf limits bytes drafted → MayFailWithin limits bytes e) }
{
    let log = check_cards(alloc, &drafted.draft, &drafted.log, &drafted.remembered)?;
    let DraftImage {
        draft,
        remembered,
        ..
    } = drafted;
    let heap = Heap {
        geometry: draft.geometry,
        words: draft.words,
        regions: draft.regions,
        roots: draft.roots,
        current: draft.current,
    };
    Ok(Image {
        heap,
        remembered,
        log,
    })
}

/// The image of the front and the words of a whole file within these limits.
pub(crate) fn image_of(
    alloc: Global,
    limits: Limits,
    front: Front,
    words: Words,
) -> Result<Image, Fault>
    requires text { (bytes : List ℕ) × IsLaidOut limits bytes front words.items }
    requires laid { IsReachedBy front words.laid }
    ensures ok { IfOk result (λ i. (bytes : List ℕ) → IsLaidOut limits bytes front words.items → IsTextWithin limits bytes i) }
    ensures err { IfErr result (λ e. (bytes : List ℕ) → IsLaidOut limits bytes front words.items → MayFailWithin limits bytes e) }
{
    let drafted = draft_image(alloc, limits, front, words)?;
    check_heap(alloc, &drafted.draft)?;
    finish(alloc, drafted)
}

/// As `image_of`, with this many workers at most. One if it is 0.
pub(crate) fn image_of_by(
    rt: &(impl Threads + Sync),
    alloc: Global,
    limits: Limits,
    front: Front,
    words: Words,
    workers: u64,
) -> Result<Image, Fault>
    requires text { (bytes : List ℕ) × IsLaidOut limits bytes front words.items }
    requires laid { IsReachedBy front words.laid }
    ensures ok { IfOk result (λ i. (bytes : List ℕ) → IsLaidOut limits bytes front words.items → IsTextWithin limits bytes i) }
    ensures err { IfErr result (λ e. (bytes : List ℕ) → IsLaidOut limits bytes front words.items → MayFailWithin limits bytes e) }
{
    let drafted = draft_image(alloc, limits, front, words)?;
    check_heap_by(rt, alloc, &drafted.draft, workers)?;
    finish(alloc, drafted)
}

/// The image of a whole file's front and words, with null in its stale words, and what these were.
pub(crate) fn image_without(
    alloc: Global,
    limits: Limits,
    front: Front,
    words: Words,
) -> Result<(Image, Stale), Fault>
    requires text { (bytes : List ℕ) × IsLaidOut limits bytes front words.items }
    requires laid { IsReachedBy front words.laid }
    ensures ok { IfOk result (λ x. (bytes : List ℕ) → IsLaidOut limits bytes front words.items → IsTextWithout limits bytes x.0 x.1.roots.items x.1.slots.items) }
    ensures err { IfErr result (λ e. (bytes : List ℕ) → IsLaidOut limits bytes front words.items → (e ≡ Fault.Memory) ⊎ FaultWithout limits bytes e) }
{
    let drafted = draft_image(alloc, limits, front, words)?;
    let marks = shaped_starts(alloc, &drafted.draft)?;
    let log = check_cards(alloc, &drafted.draft, &drafted.log, &drafted.remembered)?;
    let stale = stale_words(alloc, &drafted.draft, &marks)?;
    let heap = heap_without(drafted.draft, &stale);
    let image = Image {
        heap,
        remembered: drafted.remembered,
        log,
    };
    Ok((image, stale))
}
