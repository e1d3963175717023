//! The lines of all differences: the first ones, and how many there are of each kind.
ghost use Rattle.std.specs.Prelude.{◌≡◌, ◌<◌, ◌++◌, ◌+◌, ◌-◌, ◌^◌, [], ◌∷◌, codes, decimal, min, set, sum, slice_index, string_bytes, OnOk, IfErr};
ghost use Rattle.g1_same.specs.Behind.{IsThere};
ghost use Rattle.g1_same.specs.Underway.{IsUnderway};
ghost use Rattle.g1_report.specs.Finding.{IsFault};
ghost use Rattle.g1_report.specs.Taken.{TakesFirst};
ghost use Rattle.g1_report.specs.Listed.{TakesLines, TakesAll, kind_of, roots_count, count_text, counts_line};
ghost use Rattle.g1_report.specs.Answer.{AreNamesInOrder};
ghost use Rattle.g1_report.specs.Given.{compared};

use crate::comparing::{Sides, push_found_line};
use crate::lines::Lines;
use crate::reporting::{Asked, Refused};
use crate::sides::Strays;
use g1_same::{Differences, Found, How, StaleWords, What};
use g1_words::Heap;
use std::alloc::{AllocError, Global};

/// The line of the first difference, and behind it those of the walk's next ones up to the number asked, and the line of
/// all numbers. Each has the whole path, so it is handed on as soon as it is made.
pub fn list_all<L: Lines>(
    alloc: Global,
    asked: &Asked<'_>,
    sides: Sides<'_>,
    first: &str,
    most: u64,
    out: &mut L,
) -> Result<(), Refused>
    ensures first { OnOk result (TakesFirst (L.taken out.old) (L.taken out.new) first.now) }
    ensures all { AreNamesInOrder (compared sides.entry) → OnOk result (TakesAll (compared sides.entry) (L.taken out.old) (L.taken out.new) first.now) }
    ensures fault { IfErr result IsFault }
    ensures grown { TakesFirst (L.taken out.old) (L.taken out.new) [] }
{
    let mut counts = first_counts(sides.heaps.before, sides.heaps.after);
    if !out.take(first)? {
        return Ok(());
    }
    // The walk finds no difference of the numbers of roots, and finds each other first one again.
    let mut lines = counts[0];
    let stale = stale_words(&asked.after.stale);
    let mut walk = Differences::new(alloc, sides.heaps.before, sides.heaps.after, stale)?;
    let mut text = String::new(alloc);
    'differences: while let Some(found) = walk.next()? {
        add_one(&mut counts, kind_of(&found.what));
        let listed = 0 < lines && lines < most;
        if !take_found(alloc, sides, &walk, &found, listed, &mut text, out)? {
            return Ok(());
        }
        lines = lines.saturating_add(1);
    }
    text.clear();
    push_counts(&mut text, &counts)?;
    out.take(text.as_str())?;
    Ok(())
}

// The numbers before the walk: that of roots, of which it finds none.
fn first_counts(before: &Heap, after: &Heap) -> [u64; 8]
    ensures { result ≡ roots_count before.now.roots after.now.roots ∷ 0 ∷ 0 ∷ 0 ∷ 0 ∷ 0 ∷ 0 ∷ 0 ∷ [] }
{
    if before.roots().len() == after.roots().len() {
        [0; 8]
    } else {
        [1, 0, 0, 0, 0, 0, 0, 0]
    }
}

// Hands on the line of a difference, if it is listed. Returns whether further ones have a reader.
fn take_found<L: Lines>(
    alloc: Global,
    sides: Sides<'_>,
    walk: &Differences<'_>,
    found: &Found,
    listed: bool,
    text: &mut String,
    out: &mut L,
) -> Result<bool, Refused>
    requires underway { IsUnderway walk.now }
    requires before { walk.now.before.now ≡ sides.heaps.before.now }
    requires after { walk.now.after.now ≡ sides.heaps.after.now }
    requires there { IsThere walk.now.before.now walk.now.after.now walk.now.walk found.now }
    ensures taken { TakesFirst (L.taken out.old) (L.taken out.new) [] }
    ensures line { AreNamesInOrder (compared sides.entry) → OnOk result (TakesLines (compared sides.entry) (L.taken out.old) (L.taken out.new) []) }
    ensures fault { IfErr result IsFault }
{
    if !listed {
        return Ok(true);
    }
    let path = walk.path_to(alloc, found)?;
    text.clear();
    push_found_line(alloc, text, sides, &path, found)?;
    Ok(out.take(text.as_str())?)
}

// The stale words of a side, by their places.
fn stale_words<'a>(stale: &'a Option<Strays<'_>>) -> StaleWords<'a> {
    match stale {
        None => StaleWords {
            roots: &[],
            slots: &[],
        },
        Some(strays) => words_of(strays),
    }
}

/// Stale words by their places.
pub fn words_of<'a>(strays: &'a Strays<'_>) -> StaleWords<'a>
    ensures roots { result.roots.now ≡ strays.now.words.roots.items }
    ensures slots { result.slots.now ≡ strays.now.words.slots.items }
{
    StaleWords {
        roots: strays.words.roots.as_slice(),
        slots: strays.words.slots.as_slice(),
    }
}

// A difference more of the kind at a place.
fn add_one(counts: &mut [u64; 8], kind: usize)
    ensures { kind < 8 → counts.new ≡ set counts.old kind (min (slice_index counts.old kind + 1) (2 ^ 64 - 1)) }
{
    if kind < counts.len() {
        counts[kind] = counts[kind].saturating_add(1);
    }
}

// The place of a kind among the numbers of all kinds.
fn kind_of(what: &What) -> usize
    ensures { result ≡ kind_of what.now }
{
    match what {
        What::Stale(_) => 1,
        What::How(How::NullBefore) => 2,
        What::How(How::NullAfter) => 2,
        What::How(How::Split { .. }) => 3,
        What::How(How::Joined { .. }) => 4,
        What::How(How::Size { .. }) => 5,
        What::How(How::Slots { .. }) => 6,
        What::How(How::Data { .. }) => 7,
    }
}

// The numbers of all kinds, in the order of kinds.
fn push_counts(text: &mut String, counts: &[u64; 8]) -> Result<(), AllocError>
    ensures { OnOk result (string_bytes text.new ≡ string_bytes text.old ++ counts_line counts.now) }
{
    push_sum(text, sum_of(counts))?;
    push_count(text, "roots", counts[0])?;
    push_count(text, "stale", counts[1])?;
    push_count(text, "null", counts[2])?;
    push_count(text, "split", counts[3])?;
    push_count(text, "joined", counts[4])?;
    push_count(text, "size", counts[5])?;
    push_count(text, "slots", counts[6])?;
    push_count(text, "data", counts[7])?;
    text.push_str("\n")
}

fn push_sum(text: &mut String, all: u128) -> Result<(), AllocError>
    ensures { OnOk result (string_bytes text.new ≡ string_bytes text.old ++ (codes "differences " ++ (decimal all ++ codes ":"))) }
{
    write!(text, "differences {all}:")
}

fn sum_of(counts: &[u64]) -> u128
    ensures { result ≡ sum counts.now }
{
    let mut all = 0u128;
    for count in counts {
        all += u128::from(*count);
    }
    all
}

// A kind and its number, if there are any.
fn push_count(text: &mut String, kind: &str, count: u64) -> Result<(), AllocError>
    ensures { OnOk result (string_bytes text.new ≡ string_bytes text.old ++ count_text kind.now count) }
{
    match count {
        0 => Ok(()),
        _ => write!(text, " {kind} {count}"),
    }
}
