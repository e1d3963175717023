//! A heap in a few lines.
ghost use Rattle.std.specs.Prelude.{◌≡◌, ◌++◌, ◌-◌, ◌^◌, length, map, min, sum, sum_by, string_bytes, OnOk, IfOk, IfErr};
ghost use Rattle.g1_text.specs.Lines.{line_text, text_of};
ghost use Rattle.g1_tables.specs.Summary.{sizes_line, count_of as count_of_kind, count_pinned as pinned_of, regions_line, words_line, cards_line, summary_lines, IsSummary};

use g1_image::Image;
use g1_mark::count_live_bytes;
use g1_words::{Fault, Heap, Kind, Region};
use g1_work::{Open, USUAL_CHUNK, used_words};
use std::alloc::{AllocError, Global};
use std::thread::Threads;

/// The heap's sizes, its regions by kind, its used, live and garbage words, its cards and its roots: a line
/// each.
///
/// # Errors
///
/// `Fault::Memory` alone.
pub fn summary<T: Threads + Sync>(rt: &T, alloc: Global, image: &Image) -> Result<String, Fault>
    ensures text { IfOk result (λ s. IsSummary image.now (string_bytes s)) }
    ensures memory { IfErr result (λ e. e ≡ Fault.Memory) }
{
    let heap = image.heap();
    let live = count_live_bytes(rt, alloc, heap, 1, USUAL_CHUNK, &Open)?;
    let mut text = String::new(alloc);
    push_lines(&mut text, image, total(live.as_slice()) / 8)?;
    Ok(text)
}

// The lines, by the number of live words.
fn push_lines(text: &mut String, image: &Image, live: u64) -> Result<(), AllocError>
    ensures { OnOk result (string_bytes text.new ≡ string_bytes text.old ++ text_of (summary_lines image.now live)) }
{
    let heap = image.heap();
    let used = used_words(heap.regions()) as u64;
    push_sizes(text, heap)?;
    push_regions(text, heap.regions())?;
    push_words(text, "used", used)?;
    push_words(text, "live", live)?;
    push_words(text, "garbage", used.saturating_sub(live))?;
    push_cards(text, image)?;
    let roots = heap.roots().len();
    writeln!(text, "roots {roots}")
}

fn push_sizes(text: &mut String, heap: &Heap) -> Result<(), AllocError>
    ensures { OnOk result (string_bytes text.new ≡ string_bytes text.old ++ line_text (sizes_line heap.now.geometry)) }
{
    let geometry = heap.geometry();
    let (region_words, card_words) = (geometry.region_words(), geometry.card_words());
    let regions = geometry.regions();
    writeln!(text, "heap {region_words} {card_words} {regions}")
}

fn push_regions(text: &mut String, regions: &[Region]) -> Result<(), AllocError>
    ensures { OnOk result (string_bytes text.new ≡ string_bytes text.old ++ line_text (regions_line regions.now)) }
{
    let free = count_of(regions, Kind::Free);
    let ordinary = count_of(regions, Kind::Ordinary);
    let humongous = count_of(regions, Kind::HumongousFirst);
    let continuation = count_of(regions, Kind::Continuation);
    let pinned = count_pinned(regions);
    writeln!(
        text,
        "regions free {free} ordinary {ordinary} humongous {humongous} continuation {continuation} pinned {pinned}"
    )
}

fn count_of(regions: &[Region], kind: Kind) -> usize
    ensures { result ≡ count_of_kind kind regions.now }
{
    let number = kind.number();
    regions
        .iter()
        .filter(|region| region.kind.number() == number)
        .count()
}

fn count_pinned(regions: &[Region]) -> usize
    ensures { result ≡ pinned_of regions.now }
{
    regions.iter().filter(|region| region.pinned).count()
}

fn push_words(text: &mut String, name: &str, words: u64) -> Result<(), AllocError>
    ensures { OnOk result (string_bytes text.new ≡ string_bytes text.old ++ line_text (words_line name.now words)) }
{
    writeln!(text, "{name} {words} words")
}

fn push_cards(text: &mut String, image: &Image) -> Result<(), AllocError>
    ensures { OnOk result (string_bytes text.new ≡ string_bytes text.old ++ line_text (cards_line image.now)) }
{
    // It states to the prover that the image is one.
    let _ = image.heap();
    let remembered = count_cards(image.remembered());
    let dirty = image.log().len();
    writeln!(text, "cards remembered {remembered} dirty {dirty}")
}

// The sum of some numbers, or the greatest number of 64 bits if that is less.
fn total(numbers: &[u64]) -> u64
    ensures { result ≡ min (sum numbers.now) (2 ^ 64 - 1) }
{
    let mut sum = 0u64;
    for number in numbers {
        sum = sum.saturating_add(*number);
    }
    sum
}

// The cards of some remembered sets, likewise.
fn count_cards(sets: &[Vec<u32>]) -> u64
    ensures { result ≡ min (sum_by length (map (λ s. s.items) sets.now)) (2 ^ 64 - 1) }
{
    let mut cards = 0u64;
    for set in sets {
        cards = cards.saturating_add(set.len() as u64);
    }
    cards
}
