//! Why the collection set of a budget is what it is.
ghost use Rattle.std.specs.Prelude.{◌≡◌, ◌++◌, ◌∷◌, [], codes, decimal, length, map, flat_map, min, slice_index, slice_index_or, string_bytes, OnOk, IfSome, Some};
ghost use Rattle.std.specs.List.{range_with_len};
ghost use Rattle.g1_words.specs.Heap.{free_region};
ghost use Rattle.g1_text.specs.Lines.{line_text, text_of};
ghost use Rattle.g1_pause.specs.Bought.{IsBought};
ghost use Rattle.g1_explain.specs.Choosing.{live_lines_of, excluded_lines_of, candidate_line, candidate_lines, garbage_in, bought_lines};

use g1_choose::{Candidate, total};
use g1_pause::{Before, Bought, Settings};
use g1_words::{Kind, Region};
use std::alloc::AllocError;

/// Adds the lines of what each region has, and of how far a budget goes, if the set was bought by one.
pub(crate) fn push_bought(
    text: &mut String,
    before: &Before<'_>,
    settings: &Settings,
    bought: &Option<Bought>,
) -> Result<(), AllocError>
    ensures { IfSome bought.now (IsBought settings.now.cost settings.now.choice before.now) → OnOk result (string_bytes text.new ≡ string_bytes text.old ++ text_of (bought_lines settings.now.cost before.now bought.now)) }
{
    match bought {
        None => Ok(()),
        Some(bought) => push_purchase(text, before, settings, bought),
    }
}

fn push_purchase(
    text: &mut String,
    before: &Before<'_>,
    settings: &Settings,
    bought: &Bought,
) -> Result<(), AllocError>
    ensures { IsBought settings.now.cost settings.now.choice before.now bought.now → OnOk result (string_bytes text.new ≡ string_bytes text.old ++ text_of (bought_lines settings.now.cost before.now (Some bought.now))) }
{
    let image = before.image();
    let regions = image.heap().regions();
    let base = total(&settings.cost(), image.log().len() as u64, &[]);
    writeln!(text, "budget {} base {base}", bought.budget)?;
    push_live(text, regions, before.remembered(), &bought.live)?;
    push_excluded(text, regions, &bought.live)?;
    push_candidates(text, &bought.order, base, bought.taken)
}

// What each ordinary region has.
fn push_live(
    text: &mut String,
    regions: &[Region],
    remembered: &[Vec<u32>],
    live: &[u64],
) -> Result<(), AllocError>
    ensures { OnOk result (string_bytes text.new ≡ string_bytes text.old ++ text_of (flat_map (λ r. live_lines_of r (slice_index_or regions.now r free_region) (slice_index live.now r) (length (slice_index_or (map (λ s. s.items) remembered.now) r []))) (range_with_len 0 (min (min (length regions.now) (length live.now)) (length remembered.now))))) }
{
    let count = regions.len().min(live.len()).min(remembered.len());
    for number in 0..count {
        push_live_line(
            text,
            number,
            regions[number],
            live[number],
            remembered[number].len(),
        )?;
    }
    Ok(())
}

// The line of an ordinary region.
fn push_live_line(
    text: &mut String,
    number: usize,
    region: Region,
    live: u64,
    cards: usize,
) -> Result<(), AllocError>
    ensures { OnOk result (string_bytes text.new ≡ string_bytes text.old ++ text_of (live_lines_of number region live cards)) }
{
    if region.kind.is_ordinary() {
        let garbage = garbage_in(region, live);
        writeln!(text, "live {number} {live} garbage {garbage} cards {cards}")
    } else {
        Ok(())
    }
}

// The used bytes of a region that aren't live.
fn garbage_in(region: Region, live: u64) -> u64
    ensures { result ≡ garbage_in region live }
{
    (8 * u64::from(region.top)).saturating_sub(live)
}

// Why each other region is no candidate.
fn push_excluded(text: &mut String, regions: &[Region], live: &[u64]) -> Result<(), AllocError>
    ensures { OnOk result (string_bytes text.new ≡ string_bytes text.old ++ text_of (flat_map (λ r. excluded_lines_of r (slice_index_or regions.now r free_region) (slice_index live.now r)) (range_with_len 0 (min (length regions.now) (length live.now))))) }
{
    for number in 0..regions.len().min(live.len()) {
        push_reason(text, number, regions[number], live[number])?;
    }
    Ok(())
}

// Why a region with this many live bytes is no candidate, if it is none.
fn push_reason(
    text: &mut String,
    number: usize,
    region: Region,
    live: u64,
) -> Result<(), AllocError>
    ensures { OnOk result (string_bytes text.new ≡ string_bytes text.old ++ text_of (excluded_lines_of number region live)) }
{
    match region.kind {
        Kind::Free => push_word(text, number, "free"),
        Kind::HumongousFirst => push_word(text, number, "humongous"),
        Kind::Continuation => push_word(text, number, "continuation"),
        Kind::Ordinary if region.pinned => push_word(text, number, "pinned"),
        Kind::Ordinary if garbage_in(region, live) == 0 => push_word(text, number, "no-garbage"),
        Kind::Ordinary => Ok(()),
    }
}

fn push_word(text: &mut String, number: usize, word: &str) -> Result<(), AllocError>
    ensures { OnOk result (string_bytes text.new ≡ string_bytes text.old ++ text_of ((codes "excluded" ∷ decimal number ∷ word.now ∷ []) ∷ [])) }
{
    writeln!(text, "excluded {number} {word}")
}

// The candidates in order, of which the first ones are taken.
fn push_candidates(
    text: &mut String,
    order: &[Candidate],
    base: u128,
    taken: usize,
) -> Result<(), AllocError>
    ensures { OnOk result (string_bytes text.new ≡ string_bytes text.old ++ text_of (candidate_lines base taken order.now)) }
{
    let mut total = base;
    for index in 0..order.len() {
        let candidate = order[index];
        total = total.saturating_add(candidate.cost);
        push_candidate(text, &candidate, total, index < taken)?;
    }
    Ok(())
}

fn push_candidate(
    text: &mut String,
    candidate: &Candidate,
    total: u128,
    is_taken: bool,
) -> Result<(), AllocError>
    ensures { OnOk result (string_bytes text.new ≡ string_bytes text.old ++ line_text (candidate_line candidate.now total is_taken)) }
{
    let Candidate {
        region,
        cost,
        garbage,
    } = *candidate;
    let word = if is_taken { "taken" } else { "left" };
    writeln!(
        text,
        "candidate {region} garbage {garbage} cost {cost} total {total} {word}"
    )
}
