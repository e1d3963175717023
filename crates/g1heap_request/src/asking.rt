//! What the values of `show`, `check`, `live`, `choose` and `pause` ask for.
ghost use Rattle.std.specs.Prelude.{◌⊎◌, IfErr, IfOk, MatchOption, OnOk};
ghost use Rattle.clap.specs.Words.{found_of, rows_of};
ghost use Rattle.g1_command.specs.Values.{Because, IsNoNumberOf};
ghost use Rattle.g1heap_request.specs.Asks.{Asks, IsNoneAsked, MakesImage, MakesNoImage};
ghost use Rattle.g1heap_request.specs.InRange.{AreInRange, IsBetween, IsOutOfRange, IsOutside, IsWithin};
ghost use Rattle.g1heap_request.specs.Wrong.{HasWrongValue, IsRefused};

use crate::checks::check_choice;
use crate::image_file::ImageFile;
use crate::options::{Request, image_of, output_of, set_of};
use crate::output::Output;
use clap::ArgMatches;
use g1_answers::{
    CHUNK as CHUNK_OPTION, NewImage, Question, REPACK as REPACK_OPTION, WORKERS as WORKERS_OPTION,
    pause_of, question_of, sharing_of,
};
use g1_command::{Argument, Misuse, number};
use g1_work::{MOST_CHUNK, MOST_WORKERS};
use std::alloc::Global;

// The arguments that are read here, as statics: a constant is checked again in each function that uses it.
static BYTE: Argument = g1_command::BYTE;

static CARD: Argument = g1_command::CARD;

static CHUNK: Argument = CHUNK_OPTION;

static DIRTY: Argument = g1_command::DIRTY;

static FIXED: Argument = g1_command::FIXED;

static REPACK: Argument = REPACK_OPTION;

static WORKERS: Argument = WORKERS_OPTION;

/// A question of an image, which text answers.
#[derive(Drop)]
pub struct Ask {
    pub image: ImageFile,
    pub question: Question,
    pub output: Output,
}

/// An image that is made of another one.
#[derive(Drop)]
pub struct Rewrite {
    pub image: ImageFile,
    pub wanted: NewImage,
    pub output: Output,
}

/// What one of these commands asks for, if it is one of them.
pub fn asked_of(
    alloc: Global,
    name: &str,
    values: &ArgMatches<'_>,
) -> Result<Option<Request>, Misuse>
    ensures asks { IfOk result (λ o. MatchOption o (IsNoneAsked name.now) (Asks name.now (rows_of (found_of values.now)))) }
    ensures refused { IfErr result (Because (IsRefused name.now (rows_of (found_of values.now)))) }
{
    if let Some(wanted) = wanted_of(alloc, name, values)? {
        check_ranges(alloc, values)?;
        return Ok(Some(Request::Rewrite(Rewrite {
            image: image_of(alloc, values)?,
            wanted,
            output: output_of(alloc, values)?,
        })));
    }
    let Some(question) = question_of(alloc, name, values)? else {
        return Ok(None);
    };
    check_ranges(alloc, values)?;
    Ok(Some(Request::Ask(Ask {
        image: image_of(alloc, values)?,
        question,
        output: output_of(alloc, values)?,
    })))
}

// The image that a command makes, if it makes one.
fn wanted_of(alloc: Global, name: &str, values: &ArgMatches<'_>) -> Result<Option<NewImage>, Misuse>
    ensures wanted { IfOk result (λ o. MatchOption o (MakesNoImage name.now (rows_of (found_of values.now))) (MakesImage name.now (rows_of (found_of values.now)))) }
    ensures refused { IfErr result (Because (HasWrongValue (rows_of (found_of values.now)))) }
{
    if name == "pause" {
        check_choice(alloc, values)?;
        let mut pause = pause_of(alloc, values)?;
        pause.regions = set_of(alloc, values)?;
        return Ok(Some(NewImage::Paused(pause)));
    }
    if values.get_flag(REPACK.id) {
        let sharing = sharing_of(alloc, values)?;
        return Ok(Some(NewImage::Repacked(sharing)));
    }
    Ok(None)
}

// The most that something may cost.
const MOST_COST: u64 = u32::MAX as u64;

// Refuses numbers that are out of their ranges.
fn check_ranges(alloc: Global, values: &ArgMatches<'_>) -> Result<(), Misuse>
    ensures within { OnOk result (AreInRange (rows_of (found_of values.now))) }
    ensures refused { IfErr result (Because (HasWrongValue (rows_of (found_of values.now)) ⊎ IsOutOfRange (rows_of (found_of values.now)))) }
{
    check_range(alloc, values, &WORKERS, 1, MOST_WORKERS)?;
    check_range(alloc, values, &CHUNK, 1, MOST_CHUNK)?;
    check_range(alloc, values, &FIXED, 0, MOST_COST)?;
    check_range(alloc, values, &DIRTY, 0, MOST_COST)?;
    check_range(alloc, values, &CARD, 0, MOST_COST)?;
    check_range(alloc, values, &BYTE, 0, MOST_COST)
}

// Refuses a number out of its range by a text that gives the range.
fn check_range(
    alloc: Global,
    values: &ArgMatches<'_>,
    argument: &Argument,
    least: u64,
    most: u64,
) -> Result<(), Misuse>
    ensures within { OnOk result (IsWithin (IsBetween least most) (rows_of (found_of values.now)) argument.now.id.now) }
    ensures refused { IfErr result (Because (IsNoNumberOf (rows_of (found_of values.now)) argument.now.id.now ⊎ IsOutside (IsBetween least most) (rows_of (found_of values.now)) argument.now.id.now)) }
{
    let Some(number) = number(alloc, values, argument)? else {
        return Ok(());
    };
    if (number < least) | (number > most) {
        let text = values.get_str(argument.id).unwrap_or("");
        return Err(argument.refuse(alloc, text)?);
    }
    Ok(())
}
