//! What the roots reach of each region, and which regions a budget buys, line by line.
ghost use Rattle.std.specs.Prelude.{◌≡◌, ◌++◌, length, map, string_bytes, OnOk, IfOk, IfErr};
ghost use Rattle.g1_words.specs.Heap.{regions};
ghost use Rattle.g1_image.specs.Cards.{refined};
ghost use Rattle.g1_choose.specs.Cost.{IsCost};
ghost use Rattle.g1_choose.specs.Choice.{MayBeLive};
ghost use Rattle.g1_text.specs.Lines.{text_of};
ghost use Rattle.g1_tables.specs.Tables.{live_lines, line_of, choice_lines, ListsChoice, IsLiveText, IsChoiceText};

use g1_choose::{Candidate, Cost, buy, order};
use g1_mark::count_live_bytes;
use g1_pause::{Before, Settings, count_live};
use g1_rem::Tracked;
use g1_words::{Fault, Heap};
use g1_work::Open;
use std::alloc::{AllocError, Global};
use std::thread::Threads;

/// The live bytes of each region, a line each.
///
/// # Errors
///
/// `Fault::Memory` alone.
pub fn live_lines<T: Threads + Sync>(
    rt: &T,
    alloc: Global,
    settings: &Settings,
    heap: &Heap,
) -> Result<Vec<u8>, Fault>
    ensures text { IfOk result (λ v. IsLiveText heap.now v.items) }
    ensures memory { IfErr result (λ e. e ≡ Fault.Memory) }
{
    let (workers, chunk) = (settings.workers(), settings.chunk());
    let live = count_live_bytes(rt, alloc, heap, workers, chunk, &Open)?;
    Ok(live_text(alloc, &live)?)
}

fn live_text(alloc: Global, live: &[u64]) -> Result<Vec<u8>, AllocError>
    ensures { IfOk result (λ v. v.items ≡ text_of (live_lines live.now)) }
{
    let mut text = String::new(alloc);
    for (region, bytes) in live.iter().enumerate() {
        writeln!(text, "region {region} live {bytes}")?;
    }
    Ok(text.into_bytes())
}

/// The candidates in order, whether the budget buys each, and the total of those that it buys.
///
/// # Errors
///
/// `Fault::Memory` alone.
pub fn candidates<T: Threads + Sync>(
    rt: &T,
    alloc: Global,
    settings: &Settings,
    budget: u64,
    tracked: &Tracked,
) -> Result<Vec<u8>, Fault>
    ensures text { IfOk result (λ v. IsChoiceText settings.now.cost tracked.now budget v.items) }
    ensures memory { IfErr result (λ e. e ≡ Fault.Memory) }
{
    let before = Before::new(rt, alloc, tracked, settings.workers())?;
    let live = count_live(rt, alloc, &before, settings, &Open)?;
    candidate_lines(alloc, &before, &live, &settings.cost(), budget)
}

// The lines of a choice by these live bytes.
fn candidate_lines(
    alloc: Global,
    before: &Before<'_>,
    live: &[u64],
    parameters: &Cost,
    budget: u64,
) -> Result<Vec<u8>, Fault>
    requires parameters { IsCost parameters.now }
    requires live_bytes { MayBeLive before.now.heap live.now }
    ensures text { IfOk result (λ v. ListsChoice parameters.now before.now.heap (map (refined before.now) (regions before.now.heap)) live.now (length before.now.log) budget v.items) }
    ensures memory { IfErr result (λ e. e ≡ Fault.Memory) }
{
    let image = before.image();
    let dirty = image.log().len() as u64;
    let order = order(alloc, image.heap(), before.remembered(), live, parameters)?;
    let purchase = buy(&order, parameters, dirty, budget);
    choice_lines(alloc, &order, purchase.taken, purchase.total)
}

/// The lines of candidates in their order, of which the first `taken` are taken, and of the total.
///
/// # Errors
///
/// `Fault::Memory` alone.
pub fn choice_lines(
    alloc: Global,
    order: &[Candidate],
    taken: usize,
    total: u128,
) -> Result<Vec<u8>, Fault>
    ensures text { IfOk result (λ v. v.items ≡ text_of (choice_lines line_of order.now taken total)) }
    ensures memory { IfErr result (λ e. e ≡ Fault.Memory) }
{
    let (bought, left) = order.split_at(order.len().min(taken));
    let mut text = String::new(alloc);
    push_candidates(&mut text, bought, "taken")?;
    push_candidates(&mut text, left, "left")?;
    writeln!(text, "total {total}")?;
    Ok(text.into_bytes())
}

// The lines of candidates, with this word at the end.
fn push_candidates(
    text: &mut String,
    candidates: &[Candidate],
    word: &str,
) -> Result<(), AllocError>
    ensures { OnOk result (string_bytes text.new ≡ string_bytes text.old ++ text_of (map (line_of word.now) candidates.now)) }
{
    for candidate in candidates {
        let Candidate {
            region,
            cost,
            garbage,
        } = *candidate;
        writeln!(text, "region {region} cost {cost} garbage {garbage} {word}")?;
    }
    Ok(())
}
