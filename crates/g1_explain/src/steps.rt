//! The lines of a pause's steps.
ghost use Rattle.std.specs.Prelude.{◌≡◌, ◌++◌, List, ℕ, length, string_bytes, OnOk, IfOk, IfErr, All};
ghost use Rattle.std.specs.List.Sorted.{IsStrictlyIncreasing};
ghost use Rattle.g1_text.specs.Lines.{text_of};
ghost use Rattle.g1_frontier.specs.Window.{AreCards, AreOutside, LeadIn};
ghost use Rattle.g1_copy.specs.Plans.{IsPauseOf};
ghost use Rattle.g1_pause.specs.declared.steps.Outcome.TheVariants.{Ready, NoRoom};
ghost use Rattle.g1_pause.specs.Steps.{IsOutcome};
ghost use Rattle.g1_explain.specs.Humongous.{humongous_lines};
ghost use Rattle.g1_explain.specs.Keepers.{keepers_of};
ghost use Rattle.g1_explain.specs.Steps.{AreTaken, moving_lines, table_changes, ready_lines, outcome_lines, step_lines, refusal_of};

use crate::cards::{mark_regions, push_cards};
use crate::changes::{
    free_count, kept_patches, push_heading_changes, push_patches, push_regions, push_roots,
};
use crate::choosing::push_bought;
use crate::finders::push_survivors;
use crate::humongous::{keepers, push_humongous};
use crate::places::push_places;
use crate::remembering::push_remembered;
use crate::totals::{Written, push_refusal, push_room, push_totals};
use crate::walkable::Walkable;
use g1_copy::Prepared;
use g1_layout::Plan;
use g1_pause::{Before, Outcome, Settings, Steps};
use g1_words::{Fault, Heap};
use std::alloc::{AllocError, Global};

/// Adds the lines of the steps of a pause, and returns the fault for which the pause is refused, if it is.
///
/// # Errors
///
/// `Fault::Memory`.
pub(crate) fn push_steps(
    alloc: Global,
    text: &mut String,
    before: &Before<'_>,
    settings: &Settings,
    steps: &Steps,
) -> Result<Option<Fault>, Fault>
    ensures lines { AreTaken settings.now.cost settings.now.choice before.now steps.now → OnOk result (string_bytes text.new ≡ string_bytes text.old ++ text_of (step_lines settings.now.cost before.now steps.now)) }
    ensures refused { IfOk result (λ o. o ≡ refusal_of steps.now.outcome) }
    ensures memory { IfErr result (λ e. e ≡ Fault.Memory) }
{
    // It states to the prover that the image is tracked.
    let _ = before.image();
    push_bought(text, before, settings, &steps.collection.bought)?;
    let walkable = Walkable::of(before);
    push_cards(
        alloc,
        text,
        &walkable,
        &steps.collection.regions,
        &steps.cards,
    )?;
    push_outcome(alloc, text, before, &steps.cards, &steps.outcome)
}

// Adds the lines of the survivors, and of what follows; returns the fault if they have no room.
fn push_outcome(
    alloc: Global,
    text: &mut String,
    before: &Before<'_>,
    cards: &[u32],
    outcome: &Outcome,
) -> Result<Option<Fault>, Fault>
    ensures lines { (set : List ℕ) → AreCards before.now.heap cards.now → AreOutside before.now.heap set cards.now → LeadIn before.now.heap set cards.now → IsOutcome before.now set outcome.now → OnOk result (string_bytes text.new ≡ string_bytes text.old ++ text_of (outcome_lines before.now set (length cards.now) outcome.now)) }
    ensures refused { IfOk result (λ o. o ≡ refusal_of outcome.now) }
    ensures memory { IfErr result (λ e. e ≡ Fault.Memory) }
{
    match outcome {
        Outcome::NoRoom {
            survivors,
            need,
            free,
        } => push_lacking(alloc, text, before, cards, survivors, *need, *free),
        Outcome::Ready { plan, prepared } => {
            push_made(alloc, text, before, cards, plan, prepared)
        }
    }
}

// Adds the lines of survivors that have no room, and of the refusal.
fn push_lacking(
    alloc: Global,
    text: &mut String,
    before: &Before<'_>,
    cards: &[u32],
    survivors: &Vec<u64>,
    need: u64,
    free: u64,
) -> Result<Option<Fault>, Fault>
    ensures lines { (set : List ℕ) → AreCards before.now.heap cards.now → AreOutside before.now.heap set cards.now → LeadIn before.now.heap set cards.now → IsOutcome before.now set (NoRoom survivors.now need free) → OnOk result (string_bytes text.new ≡ string_bytes text.old ++ text_of (outcome_lines before.now set (length cards.now) (NoRoom survivors.now need free))) }
    ensures refused { IfOk result (λ o. o ≡ refusal_of (NoRoom survivors.now need free)) }
    ensures memory { IfErr result (λ e. e ≡ Fault.Memory) }
{
    let walkable = Walkable::of(before);
    push_survivors(alloc, text, &walkable, cards, survivors)?;
    push_refusal(text, Fault::Room { need, free })
}

// Adds the lines of survivors that have room, and of what the pause writes.
fn push_made(
    alloc: Global,
    text: &mut String,
    before: &Before<'_>,
    cards: &[u32],
    plan: &Plan,
    prepared: &Prepared,
) -> Result<Option<Fault>, Fault>
    ensures lines { (set : List ℕ) → AreCards before.now.heap cards.now → AreOutside before.now.heap set cards.now → LeadIn before.now.heap set cards.now → IsOutcome before.now set (Ready plan.now prepared.now) → OnOk result (string_bytes text.new ≡ string_bytes text.old ++ text_of (outcome_lines before.now set (length cards.now) (Ready plan.now prepared.now))) }
    ensures refused { IfOk result (λ o. o ≡ refusal_of (Ready plan.now prepared.now)) }
    ensures memory { IfErr result (λ e. e ≡ Fault.Memory) }
{
    let walkable = Walkable::of(before);
    push_survivors(alloc, text, &walkable, cards, plan.survivors())?;
    push_ready(alloc, text, before, cards, plan, prepared)?;
    Ok(None)
}

// Adds the lines of what the pause writes, and of the totals.
fn push_ready(
    alloc: Global,
    text: &mut String,
    before: &Before<'_>,
    cards: &[u32],
    plan: &Plan,
    prepared: &Prepared,
) -> Result<(), AllocError>
    ensures { (set : List ℕ) → IsPauseOf before.now.heap set plan.now → All IsStrictlyIncreasing prepared.now.remembered → OnOk result (string_bytes text.new ≡ string_bytes text.old ++ text_of (ready_lines before.now (length cards.now) plan.now prepared.now)) }
{
    let heap = before.image().heap();
    let patches = kept_patches(alloc, heap, prepared)?;
    push_room(text, plan.need(), free_count(heap.regions()))?;
    push_moves(text, heap, plan, prepared, &patches)?;
    push_humongous_objects(alloc, text, before, plan)?;
    push_table_changes(alloc, text, before, prepared)?;
    let written = Written {
        plan,
        prepared,
        cards: cards.len(),
        slots: patches.len(),
    };
    push_totals(text, heap, &written)
}

// Adds the lines of where the survivors go, and of the roots and slots that reference them.
fn push_moves(
    text: &mut String,
    heap: &Heap,
    plan: &Plan,
    prepared: &Prepared,
    patches: &[(u64, u64)],
) -> Result<(), AllocError>
    ensures { OnOk result (string_bytes text.new ≡ string_bytes text.old ++ text_of (moving_lines heap.now plan.now prepared.now patches.now)) }
{
    push_places(text, heap, plan.survivors(), plan.places())?;
    push_roots(text, heap.roots(), prepared.roots())?;
    push_patches(text, heap, patches)
}

// Adds the lines of the remembered sets, of the table and of the heading that change.
fn push_table_changes(
    alloc: Global,
    text: &mut String,
    before: &Before<'_>,
    prepared: &Prepared,
) -> Result<(), AllocError>
    ensures { All IsStrictlyIncreasing prepared.now.remembered → OnOk result (string_bytes text.new ≡ string_bytes text.old ++ text_of (table_changes before.now prepared.now)) }
{
    let image = before.image();
    push_remembered(alloc, text, before.remembered(), prepared.remembered())?;
    push_regions(text, image.heap().regions(), prepared.regions())?;
    push_heading_changes(text, image)
}

// The lines of the humongous objects, each with what keeps it.
fn push_humongous_objects(
    alloc: Global,
    text: &mut String,
    before: &Before<'_>,
    plan: &Plan,
) -> Result<(), AllocError>
    ensures { (set : List ℕ) → IsPauseOf before.now.heap set plan.now → OnOk result (string_bytes text.new ≡ string_bytes text.old ++ text_of (humongous_lines before.now.heap (keepers_of before.now.heap plan.now.set plan.now.survivors))) }
{
    let walkable = Walkable::of(before);
    let heap = before.image().heap();
    let set = mark_regions(alloc, heap, plan.set())?;
    let keepers = keepers(
        alloc,
        &walkable,
        before.remembered(),
        &set,
        plan.survivors(),
    )?;
    push_humongous(text, heap, &keepers)
}
