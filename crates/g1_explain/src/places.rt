//! Where the survivors go.
ghost use Rattle.std.specs.Prelude.{◌≡◌, ◌++◌, ◌∷◌, [], length, flat_map, min, ◌<◌, decimal, string_bytes, OnOk};
ghost use Rattle.std.specs.List.{range_with_len};
ghost use Rattle.g1_words.specs.Heap.{object_at};
ghost use Rattle.g1_text.specs.Lines.{line_text, text_of};
ghost use Rattle.g1_explain.specs.Places.{gap_line, gap_lines, gap_before, end_at, place_lines_of, map_line};

use g1_words::{Heap, region_of};
use std::alloc::AllocError;

/// Adds a line for each survivor's place, and for each region that is left with a gap.
pub(crate) fn push_places(
    text: &mut String,
    heap: &Heap,
    survivors: &[u64],
    places: &[u64],
) -> Result<(), AllocError>
    ensures { OnOk result (string_bytes text.new ≡ string_bytes text.old ++ text_of (flat_map (place_lines_of heap.now survivors.now places.now) (range_with_len 0 (min (length survivors.now) (length places.now))))) }
{
    for index in 0..survivors.len().min(places.len()) {
        push_place(text, heap, survivors, places, index)?;
    }
    Ok(())
}

// The place of the survivor of an index, behind the gap before it.
fn push_place(
    text: &mut String,
    heap: &Heap,
    survivors: &[u64],
    places: &[u64],
    index: usize,
) -> Result<(), AllocError>
    requires survivors { index < length survivors.now }
    requires places { index < length places.now }
    ensures { OnOk result (string_bytes text.new ≡ string_bytes text.old ++ text_of (place_lines_of heap.now survivors.now places.now index)) }
{
    let (at, place) = (survivors[index], places[index]);
    push_gap_before(text, heap, survivors, places, index)?;
    writeln!(text, "place {at} at {place}")
}

fn push_gap_before(
    text: &mut String,
    heap: &Heap,
    survivors: &[u64],
    places: &[u64],
    index: usize,
) -> Result<(), AllocError>
    requires survivors { index < length survivors.now }
    requires places { index < length places.now }
    ensures { OnOk result (string_bytes text.new ≡ string_bytes text.old ++ text_of (gap_before heap.now survivors.now places.now index)) }
{
    if index == 0 {
        return Ok(());
    }
    let end = end_at(heap, survivors[index - 1], places[index - 1]);
    push_gap(text, heap, end, places[index])
}

// Where the object at an address ends if it moves to a place.
fn end_at(heap: &Heap, at: u64, place: u64) -> u64
    ensures { result ≡ end_at heap.now at place }
{
    place.saturating_add(heap.words().header(at).size)
}

// The gap behind a survivor that ends at an address, if the next one is not right behind it.
fn push_gap(text: &mut String, heap: &Heap, end: u64, next: u64) -> Result<(), AllocError>
    ensures { OnOk result (string_bytes text.new ≡ string_bytes text.old ++ text_of (gap_lines heap.now end next)) }
{
    let geometry = heap.geometry();
    let used = end % geometry.region_words();
    if next == end {
        Ok(())
    } else if used == 0 {
        Ok(())
    } else {
        let region = region_of(&geometry, end);
        push_gap_line(text, region, end, geometry.region_words() - used)
    }
}

fn push_gap_line(text: &mut String, region: u64, end: u64, words: u64) -> Result<(), AllocError>
    ensures { OnOk result (string_bytes text.new ≡ string_bytes text.old ++ text_of (gap_line region end words ∷ [])) }
{
    writeln!(text, "gap {region} at {end} words {words}")
}

/// Adds a line for each survivor: its address before, its address after, and its words.
pub(crate) fn push_map(
    text: &mut String,
    heap: &Heap,
    survivors: &[u64],
    places: &[u64],
) -> Result<(), AllocError>
    ensures { OnOk result (string_bytes text.new ≡ string_bytes text.old ++ flat_map (λ j. line_text (map_line heap.now survivors.now places.now j)) (range_with_len 0 (min (length survivors.now) (length places.now)))) }
{
    for index in 0..survivors.len().min(places.len()) {
        push_map_line(text, heap, survivors[index], places[index])?;
    }
    Ok(())
}

fn push_map_line(text: &mut String, heap: &Heap, at: u64, place: u64) -> Result<(), AllocError>
    ensures { OnOk result (string_bytes text.new ≡ string_bytes text.old ++ line_text (decimal at ∷ decimal place ∷ decimal (object_at heap.now at).size ∷ [])) }
{
    let size = heap.words().header(at).size;
    writeln!(text, "{at} {place} {size}")
}
