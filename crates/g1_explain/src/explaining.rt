//! The lines of a pause.
ghost use Rattle.std.specs.Prelude.{◌≡◌, ◌≢◌, ◌++◌, [], Some, string_bytes, OnOk, IfOk, IfErr};
ghost use Rattle.g1_image.specs.Cards.{Covered};
ghost use Rattle.g1_pause.specs.Steps.{AreStepsOf};
ghost use Rattle.g1_text.specs.Lines.{heading, line_text, text_of};
ghost use Rattle.g1_explain.specs.Explained.{IsExplained, IsTextOfPause, IsMapOfPause};
ghost use Rattle.g1_explain.specs.Steps.{AreTaken, IsTextOfSteps, covered_lines, refusal_of};
ghost use Rattle.g1_explain.specs.Unkept.{FreesUnkept};

use crate::form::Form;
use crate::places::push_map;
use crate::remembering::push_dirty;
use crate::steps::push_steps;
use crate::totals::push_refusal;
use g1_image::Image;
use g1_pause::{Before, Outcome, Settings, Steps, take_steps};
use g1_rem::{Tracked, verify};
use g1_text::push_heading;
use g1_words::Fault;
use g1_work::Open;
use std::alloc::{AllocError, Global};
use std::thread::Threads;

/// The lines of a pause, and the fault for which it is refused, if it is.
#[derive(Debug, Drop)]
pub struct Explanation {
    pub text: String,
    pub refused: Option<Fault>,
}

/// What a pause of an image does, as lines. If it is refused, they are those of the steps up to there, and
/// of the refusal; a map has none then.
///
/// # Errors
///
/// `Fault::Memory`, and no other: the fault for which the pause is refused is part of the explanation.
pub fn explain<R: Threads + Sync>(
    rt: &R,
    alloc: Global,
    image: Image,
    settings: &Settings,
    form: Form,
) -> Result<Explanation, Fault>
    ensures explained { IfOk result (λ x. IsExplained settings.now.cost settings.now.choice form image (string_bytes x.text) x.refused) }
    ensures memory { IfErr result (λ e. e ≡ Fault.Memory) }
{
    let mut text = String::new(alloc);
    match push_explanation(rt, alloc, &mut text, image, settings, form) {
        Ok(refused) => Ok(Explanation { text, refused }),
        Err(fault) => Err(fault),
    }
}

// Adds what a form has of a pause, and returns the fault for which the pause is refused, if it is.
fn push_explanation<R: Threads + Sync>(
    rt: &R,
    alloc: Global,
    text: &mut String,
    image: Image,
    settings: &Settings,
    form: Form,
) -> Result<Option<Fault>, Fault>
    ensures explained { string_bytes text.old ≡ [] → IfOk result (λ o. IsExplained settings.now.cost settings.now.choice form image (string_bytes text.new) o) }
    ensures memory { IfErr result (λ e. e ≡ Fault.Memory) }
{
    match form {
        Form::Steps => push_lines(rt, alloc, text, image, settings),
        Form::Map => push_map_lines(rt, alloc, text, image, settings),
    }
}

/// The lines of a pause of which the steps were taken.
///
/// # Errors
///
/// `Fault::Memory`, and no other: the fault for which the pause is refused is part of the explanation.
pub fn explain_steps(
    alloc: Global,
    before: &Before<'_>,
    settings: &Settings,
    steps: &Steps,
) -> Result<Explanation, Fault>
    ensures lines { AreTaken settings.now.cost settings.now.choice before.now steps.now → IfOk result (λ x. IsTextOfSteps settings.now.cost before.now steps.now (string_bytes x.text)) }
    ensures refused { IfOk result (λ x. x.refused ≡ refusal_of steps.now.outcome) }
    ensures memory { IfErr result (λ e. e ≡ Fault.Memory) }
    ensures freed { AreTaken settings.now.cost settings.now.choice before.now steps.now → OnOk result (FreesUnkept before.now.heap steps.now.outcome) }
{
    let mut text = String::new(alloc);
    push_heading(&mut text, before.image())?;
    push_covered(alloc, &mut text, before)?;
    let refused = push_steps(alloc, &mut text, before, settings, steps)?;
    Ok(Explanation { text, refused })
}

// Adds the lines, and returns the fault for which the pause is refused, if it is.
fn push_lines<R: Threads + Sync>(
    rt: &R,
    alloc: Global,
    text: &mut String,
    image: Image,
    settings: &Settings,
) -> Result<Option<Fault>, Fault>
    ensures lines { string_bytes text.old ≡ [] → IfOk result (λ o. IsTextOfPause settings.now.cost settings.now.choice image (string_bytes text.new) o) }
    ensures memory { IfErr result (λ e. e ≡ Fault.Memory) }
{
    push_heading(text, &image)?;
    match verify(rt, alloc, image) {
        Ok(tracked) => push_tracked(rt, alloc, text, &tracked, settings),
        Err((_, fault)) => push_refusal(text, fault),
    }
}

// Adds the lines behind the heading.
fn push_tracked<R: Threads + Sync>(
    rt: &R,
    alloc: Global,
    text: &mut String,
    tracked: &Tracked,
    settings: &Settings,
) -> Result<Option<Fault>, Fault>
    ensures lines { string_bytes text.old ≡ line_text (heading tracked.now) → IfOk result (λ o. IsTextOfPause settings.now.cost settings.now.choice tracked.now (string_bytes text.new) o) }
    ensures memory { IfErr result (λ e. e ≡ Fault.Memory) }
{
    let before = Before::new(rt, alloc, tracked, settings.workers())?;
    // It states to the prover that the image is covered.
    let _ = before.image();
    push_covered(alloc, text, &before)?;
    match take_steps(rt, alloc, &before, settings, &Open) {
        Ok(steps) => push_steps(alloc, text, &before, settings, &steps),
        Err(fault) => push_refusal(text, fault),
    }
}

// Adds the line that the image is covered, and those of the dirty cards.
fn push_covered(alloc: Global, text: &mut String, before: &Before<'_>) -> Result<(), AllocError>
    ensures { OnOk result (string_bytes text.new ≡ string_bytes text.old ++ text_of (covered_lines before.now)) }
{
    text.push_str("covered\n")?;
    push_dirty(alloc, text, before.image(), before.remembered())
}

// Adds the lines of a map, unless the pause is refused.
fn push_map_lines<R: Threads + Sync>(
    rt: &R,
    alloc: Global,
    text: &mut String,
    image: Image,
    settings: &Settings,
) -> Result<Option<Fault>, Fault>
    ensures map { string_bytes text.old ≡ [] → IfOk result (λ o. IsMapOfPause settings.now.cost settings.now.choice image (string_bytes text.new) o) }
    ensures memory { IfErr result (λ e. e ≡ Fault.Memory) }
{
    match verify(rt, alloc, image) {
        Ok(tracked) => map_tracked(rt, alloc, text, &tracked, settings),
        Err((_, fault)) => refuse(fault),
    }
}

fn map_tracked<R: Threads + Sync>(
    rt: &R,
    alloc: Global,
    text: &mut String,
    tracked: &Tracked,
    settings: &Settings,
) -> Result<Option<Fault>, Fault>
    ensures map { string_bytes text.old ≡ [] → IfOk result (λ o. IsMapOfPause settings.now.cost settings.now.choice tracked.now (string_bytes text.new) o) }
    ensures memory { IfErr result (λ e. e ≡ Fault.Memory) }
{
    let before = Before::new(rt, alloc, tracked, settings.workers())?;
    // It states to the prover that the image is covered.
    let _ = before.image();
    match take_steps(rt, alloc, &before, settings, &Open) {
        Ok(steps) => map_steps(text, &before, settings, &steps),
        Err(fault) => refuse(fault),
    }
}

fn map_steps(
    text: &mut String,
    before: &Before<'_>,
    settings: &Settings,
    steps: &Steps,
) -> Result<Option<Fault>, Fault>
    ensures map { string_bytes text.old ≡ [] → Covered before.now → AreStepsOf settings.now.cost settings.now.choice before.now steps.now → IfOk result (λ o. IsMapOfPause settings.now.cost settings.now.choice before.now (string_bytes text.new) o) }
    ensures memory { IfErr result (λ e. e ≡ Fault.Memory) }
{
    match &steps.outcome {
        Outcome::NoRoom { need, free, .. } => {
            refuse(Fault::Room {
                need: *need,
                free: *free,
            })
        }
        Outcome::Ready { plan, .. } => {
            push_map(text, before.image().heap(), plan.survivors(), plan.places())?;
            Ok(None)
        }
    }
}

// The fault for which a pause is refused. Running out of memory is none.
fn refuse(fault: Fault) -> Result<Option<Fault>, Fault>
    ensures fault { IfOk result (λ o. o ≡ Some fault) }
    ensures no_memory { IfOk result (λ _. fault ≢ Fault.Memory) }
    ensures memory { IfErr result (λ e. e ≡ Fault.Memory) }
{
    match fault {
        Fault::Memory => Err(fault),
        _ => Ok(Some(fault)),
    }
}
