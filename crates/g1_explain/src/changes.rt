//! What the pause writes outside the copies.
ghost use Rattle.std.specs.Prelude.{◌≡◌, ◌++◌, not, min, length, flat_map, filter, slice_index_or, string_bytes, OnOk, IfOk};
ghost use Rattle.std.specs.List.{range_with_len};
ghost use Rattle.g1_words.specs.Heap.{region_of, free_region, is_free};
ghost use Rattle.g1_text.specs.Lines.{text_of};
ghost use Rattle.g1_explain.specs.Changes.{move_lines, root_moves, patch_moves, region_change, region_changes, log_change, current_change, heading_changes};

use g1_copy::Prepared;
use g1_image::Image;
use g1_words::{Heap, Region, region_of};
use std::alloc::{AllocError, Global};

/// Adds a line for each root that references a survivor.
pub(crate) fn push_roots(text: &mut String, before: &[u64], after: &[u64]) -> Result<(), AllocError>
    ensures { OnOk result (string_bytes text.new ≡ string_bytes text.old ++ text_of (flat_map (root_moves before.now after.now) (range_with_len 0 (min (length before.now) (length after.now))))) }
{
    for number in 0..before.len().min(after.len()) {
        push_move(text, "root", number as u64, before[number], after[number])?;
    }
    Ok(())
}

/// Adds a line for each of these patches: the address of a slot, and its new word.
pub(crate) fn push_patches(
    text: &mut String,
    heap: &Heap,
    patches: &[(u64, u64)],
) -> Result<(), AllocError>
    ensures { OnOk result (string_bytes text.new ≡ string_bytes text.old ++ text_of (flat_map (patch_moves heap.now) patches.now)) }
{
    for patch in patches {
        push_patch(text, heap, *patch)?;
    }
    Ok(())
}

fn push_patch(text: &mut String, heap: &Heap, patch: (u64, u64)) -> Result<(), AllocError>
    ensures { OnOk result (string_bytes text.new ≡ string_bytes text.old ++ text_of (patch_moves heap.now patch)) }
{
    let (slot, new) = patch;
    push_move(text, "slot", slot, heap.words().at(slot), new)
}

// A line for a reference word, if what it references moves. A null word stays null.
fn push_move(
    text: &mut String,
    place: &str,
    number: u64,
    old: u64,
    new: u64,
) -> Result<(), AllocError>
    ensures { OnOk result (string_bytes text.new ≡ string_bytes text.old ++ text_of (move_lines place.now number old new)) }
{
    match (old.checked_sub(1), new.checked_sub(1)) {
        (Some(from), Some(to)) if from != to => {
            writeln!(text, "{place} {number} from {from} to {to}")
        }
        _ => Ok(()),
    }
}

/// The patches of the slots outside the set that are there after the pause: a humongous object that is freed
/// takes its own with it.
pub(crate) fn kept_patches(
    alloc: Global,
    heap: &Heap,
    prepared: &Prepared,
) -> Result<Vec<(u64, u64)>, AllocError>
    ensures { IfOk result (λ v. v.items ≡ filter (λ x. not (is_free (slice_index_or prepared.now.regions (region_of heap.now x.0) free_region).kind)) prepared.now.patches) }
{
    let geometry = heap.geometry();
    let regions = prepared.regions();
    prepared
        .patches()
        .iter()
        .copied()
        .filter(|patch| is_used(regions, region_of(&geometry, patch.0)))
        .collect(alloc)
}

// Whether the region of this number is not free.
fn is_used(regions: &[Region], number: u64) -> bool
    ensures { result ≡ not (is_free (slice_index_or regions.now number free_region).kind) }
{
    match regions.get(number as usize) {
        Some(region) => region.kind.is_used(),
        None => false,
    }
}

/// Adds a line for each region whose line in the table changes.
pub(crate) fn push_regions(
    text: &mut String,
    before: &[Region],
    after: &[Region],
) -> Result<(), AllocError>
    ensures { OnOk result (string_bytes text.new ≡ string_bytes text.old ++ text_of (flat_map (region_changes before.now after.now) (range_with_len 0 (min (length before.now) (length after.now))))) }
{
    for number in 0..before.len().min(after.len()) {
        push_region(text, number, before[number], after[number])?;
    }
    Ok(())
}

fn push_region(text: &mut String, number: usize, old: Region, new: Region) -> Result<(), AllocError>
    ensures { OnOk result (string_bytes text.new ≡ string_bytes text.old ++ text_of (region_change number old new)) }
{
    if old == new {
        return Ok(());
    }
    let Region { kind, top, .. } = new;
    writeln!(text, "region {number} {kind} top {top}")
}

/// Adds the lines of the heading's entries that change.
pub(crate) fn push_heading_changes(text: &mut String, image: &Image) -> Result<(), AllocError>
    ensures { OnOk result (string_bytes text.new ≡ string_bytes text.old ++ text_of (heading_changes image.now)) }
{
    push_log_change(text, image)?;
    push_current_change(text, image.heap())
}

fn push_log_change(text: &mut String, image: &Image) -> Result<(), AllocError>
    ensures { OnOk result (string_bytes text.new ≡ string_bytes text.old ++ text_of (log_change image.now.log)) }
{
    if image.log().as_slice().is_empty() {
        return Ok(());
    }
    text.push_str("log empty\n")
}

fn push_current_change(text: &mut String, heap: &Heap) -> Result<(), AllocError>
    ensures { OnOk result (string_bytes text.new ≡ string_bytes text.old ++ text_of (current_change heap.now.current)) }
{
    match heap.current() {
        Some(_) => text.push_str("current none\n"),
        None => Ok(()),
    }
}

/// How many of some regions are free.
pub(crate) fn free_count(regions: &[Region]) -> u64
    ensures { result ≡ length (filter (λ q. is_free q.kind) regions.now) }
{
    regions
        .iter()
        .filter(|region| region.kind.is_free())
        .count() as u64
}
