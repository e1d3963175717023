//! Remembered sets: what the dirty cards add to them, and what a pause changes.
ghost use Rattle.std.specs.Prelude.{◌≡◌, ◌++◌, ◌==◌, ◌∷◌, ℕ, codes, decimal, length, map, filter, string_bytes, OnOk, IfOk, All};
ghost use Rattle.std.specs.List.Sorted.{IsStrictlyIncreasing, IsNonDecreasingBy};
ghost use Rattle.g1_words.specs.Heap.{regions};
ghost use Rattle.g1_image.specs.Cards.{refined};
ghost use Rattle.g1_text.specs.Lines.{line_text, further, text_of};
ghost use Rattle.g1_explain.specs.Cards.{number_words};
ghost use Rattle.g1_explain.specs.Remembered.{joined, set_change, set_changes, remembered_changes, gaining, dirty_lines};

use crate::cards::push_numbers;
use g1_image::Image;
use std::alloc::{AllocError, Global};

/// Adds a line for each dirty card, in the log's order: the regions whose refined set gains it.
pub(crate) fn push_dirty(
    alloc: Global,
    text: &mut String,
    image: &Image,
    after: &[Vec<u32>],
) -> Result<(), AllocError>
    ensures { map (λ s. s.items) after.now ≡ map (refined image.now) (regions image.now.heap) → OnOk result (string_bytes text.new ≡ string_bytes text.old ++ text_of (dirty_lines image.now)) }
{
    let cards = image.log().as_slice();
    if cards.is_empty() {
        return Ok(());
    }
    // It states to the prover that the image keeps its rules.
    let _ = image.heap();
    let gained = gained_cards(alloc, image.remembered(), after)?;
    push_dirty_cards(text, cards, &gained)
}

// The lines of some dirty cards.
fn push_dirty_cards(
    text: &mut String,
    cards: &[u32],
    gained: &[(u32, usize)],
) -> Result<(), AllocError>
    ensures { IsNonDecreasingBy (λ x. x.0) gained.now → OnOk result (string_bytes text.new ≡ string_bytes text.old ++ text_of (map (λ c. codes "dirty" ∷ decimal c ∷ codes "adds" ∷ number_words (map (λ x. x.1) (filter (λ x. x.0 == c) gained.now))) cards.now)) }
{
    for card in cards {
        push_dirty_card(text, *card, gained)?;
    }
    Ok(())
}

// The cards of the second set that aren't in the first. Both rise.
fn joined_cards(alloc: Global, before: &[u32], after: &[u32]) -> Result<Vec<u32>, AllocError>
    ensures { IsStrictlyIncreasing before.now → IfOk result (λ v. v.items ≡ joined before.now after.now) }
{
    let mut joined = Vec::new(alloc);
    if before == after {
        return Ok(joined);
    }
    for card in after {
        if before.binary_search(card).is_err() {
            joined.push(*card)?;
        }
    }
    Ok(joined)
}

/// Adds the lines of each remembered set that changes: the cards that join it, and those that leave it.
pub(crate) fn push_remembered(
    alloc: Global,
    text: &mut String,
    refined: &[Vec<u32>],
    after: &[Vec<u32>],
) -> Result<(), AllocError>
    ensures { All IsStrictlyIncreasing (map (λ s. s.items) refined.now) → All IsStrictlyIncreasing (map (λ s. s.items) after.now) → OnOk result (string_bytes text.new ≡ string_bytes text.old ++ text_of (remembered_changes (map (λ s. s.items) refined.now) (map (λ s. s.items) after.now))) }
{
    for region in 0..refined.len().min(after.len()) {
        push_set_changes(alloc, text, region, &refined[region], &after[region])?;
    }
    Ok(())
}

// Adds the lines of a set, if it changes.
fn push_set_changes(
    alloc: Global,
    text: &mut String,
    region: usize,
    before: &[u32],
    after: &[u32],
) -> Result<(), AllocError>
    ensures { IsStrictlyIncreasing before.now → IsStrictlyIncreasing after.now → OnOk result (string_bytes text.new ≡ string_bytes text.old ++ text_of (set_changes region before.now after.now)) }
{
    push_set_change(alloc, text, region, "gains", before, after)?;
    push_set_change(alloc, text, region, "loses", after, before)
}

// Adds the line of the cards of the second set that aren't in the first, if there are any.
fn push_set_change(
    alloc: Global,
    text: &mut String,
    region: usize,
    word: &str,
    before: &[u32],
    after: &[u32],
) -> Result<(), AllocError>
    ensures { IsStrictlyIncreasing before.now → OnOk result (string_bytes text.new ≡ string_bytes text.old ++ text_of (set_change region word.now (joined before.now after.now))) }
{
    let cards = joined_cards(alloc, before, after)?;
    if cards.is_empty() {
        return Ok(());
    }
    write!(text, "remembered {region} {word}")?;
    push_numbers(text, cards.as_slice())
}

// The cards that sets gain, each with the region's number, by card and then by region.
fn gained_cards(
    alloc: Global,
    before: &[Vec<u32>],
    after: &[Vec<u32>],
) -> Result<Vec<(u32, usize)>, AllocError>
    ensures rise { IfOk result (λ v. IsNonDecreasingBy (λ x. x.0) v.items) }
    ensures each { All IsStrictlyIncreasing (map (λ s. s.items) before.now) → All IsStrictlyIncreasing (map (λ s. s.items) after.now) → IfOk result (λ v. (c : ℕ) → map (λ x. x.1) (filter (λ x. x.0 == c) v.items) ≡ gaining (map (λ s. s.items) before.now) (map (λ s. s.items) after.now) c) }
{
    let mut gained = Vec::new(alloc);
    for region in 0..before.len().min(after.len()) {
        add_gained(alloc, &mut gained, region, &before[region], &after[region])?;
    }
    gained.sort_unstable();
    Ok(gained)
}

// Adds the cards that the set of a region gains.
fn add_gained(
    alloc: Global,
    gained: &mut Vec<(u32, usize)>,
    region: usize,
    before: &[u32],
    after: &[u32],
) -> Result<(), AllocError>
    ensures { IsStrictlyIncreasing before.now → OnOk result (gained.new.items ≡ gained.old.items ++ map (λ c. (c, region)) (joined before.now after.now)) }
{
    let cards = joined_cards(alloc, before, after)?;
    add_pairs(gained, region, cards.as_slice())
}

// Adds these cards, each with the region's number.
fn add_pairs(gained: &mut Vec<(u32, usize)>, region: usize, cards: &[u32]) -> Result<(), AllocError>
    ensures { OnOk result (gained.new.items ≡ gained.old.items ++ map (λ c. (c, region)) cards.now) }
{
    for card in cards {
        gained.push((*card, region))?;
    }
    Ok(())
}

// The line of a card of the log: the regions that gain it.
fn push_dirty_card(text: &mut String, card: u32, gained: &[(u32, usize)]) -> Result<(), AllocError>
    ensures { IsNonDecreasingBy (λ x. x.0) gained.now → OnOk result (string_bytes text.new ≡ string_bytes text.old ++ line_text (codes "dirty" ∷ decimal card ∷ codes "adds" ∷ number_words (map (λ x. x.1) (filter (λ x. x.0 == card) gained.now)))) }
{
    write!(text, "dirty {card} adds")?;
    let first = gained.partition_point(|pair| pair.0 < card);
    let (_, behind) = gained.split_at(first);
    let count = behind.partition_point(|pair| pair.0 == card);
    let (same, _) = behind.split_at(count);
    push_gaining(text, same)
}

// Ends a line with the regions of these pairs, or with a dash if there are none.
fn push_gaining(text: &mut String, pairs: &[(u32, usize)]) -> Result<(), AllocError>
    ensures { OnOk result (string_bytes text.new ≡ string_bytes text.old ++ further (number_words (map (λ x. x.1) pairs.now))) }
{
    if pairs.is_empty() {
        return text.push_str(" -\n");
    }
    for pair in pairs {
        write!(text, " {}", pair.1)?;
    }
    text.push_str("\n")
}
