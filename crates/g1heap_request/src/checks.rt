//! Which options go together. What a check refuses has no meaning, or more than one.
ghost use Rattle.std.specs.Prelude.{◌≡◌, ◌⊎◌, true, false, OnOk, IfErr, is_some};
ghost use Rattle.clap.specs.Words.{first_of, found_of, rows_of};
ghost use Rattle.g1_command.specs.Values.{Because, IsOff, IsOn};
ghost use Rattle.g1heap_request.specs.Together.{ArePrinted, AreTogether, IsGiven, IsLeftOut, IsOneChoice, ReadsOnce, ReadsTwice, TellsOfPart, LacksAnother, compared, named, is_standard};

use crate::output::STANDARD_STREAM;
use crate::usage as table;
use clap::ArgMatches;
use g1_command::{Argument, BUDGET as BUDGET_OPTION, Misuse, flag};
use std::alloc::Global;

// The arguments that are read here, as statics: a constant is checked again in each function that uses it.
static AFTER: Argument = table::AFTER;

static BEFORE: Argument = table::BEFORE;

static BUDGET: Argument = BUDGET_OPTION;

static DANGLING_NULL: Argument = table::DANGLING_NULL;

static FROM: Argument = table::FROM;

static HEX: Argument = table::HEX;

static IMAGE: Argument = table::IMAGE;

static NAMES: Argument = table::NAMES;

static NAMES_AFTER: Argument = table::NAMES_AFTER;

static OBJECT: Argument = table::OBJECT;

static REGION: Argument = table::REGION;

static SET: Argument = table::SET;

static SUMMARY: Argument = table::SUMMARY;

static WEAK: Argument = table::WEAK;

static WITHOUT: Argument = table::WITHOUT;

/// Refuses to print two parts at once, and to print the numbers alone in hexadecimal.
pub(crate) fn check_parts(alloc: Global, values: &ArgMatches<'_>) -> Result<(), Misuse>
    ensures printed { OnOk result (ArePrinted (rows_of (found_of values.now))) }
    ensures refused { IfErr result (Because (AreTogether (rows_of (found_of values.now)))) }
{
    exclude_flags(alloc, values, &HEX, &SUMMARY)?;
    exclude_values(alloc, values, &OBJECT, &REGION)?;
    exclude_flag(alloc, values, &SUMMARY, &REGION)?;
    exclude_flag(alloc, values, &SUMMARY, &OBJECT)
}

/// Refuses a budget beside a set.
pub(crate) fn check_choice(alloc: Global, values: &ArgMatches<'_>) -> Result<(), Misuse>
    ensures choice { OnOk result (IsOneChoice (rows_of (found_of values.now))) }
    ensures refused { IfErr result (Because (AreTogether (rows_of (found_of values.now)))) }
{
    exclude_values(alloc, values, &BUDGET, &SET)
}

/// Refuses what is only for a part of a dump, if all of it is wanted.
pub(crate) fn check_part(alloc: Global, values: &ArgMatches<'_>) -> Result<(), Misuse>
    ensures part { OnOk result (TellsOfPart (rows_of (found_of values.now))) }
    ensures refused { IfErr result (Because (LacksAnother (rows_of (found_of values.now)))) }
{
    need(alloc, values, &WITHOUT, &FROM)?;
    need_for_flag(alloc, values, &WEAK, &FROM)?;
    need_for_flag(alloc, values, &DANGLING_NULL, &FROM)
}

/// Refuses to read standard input for two of the files that are compared.
pub(crate) fn check_compared(alloc: Global, values: &ArgMatches<'_>) -> Result<(), Misuse>
    ensures once { OnOk result (ReadsOnce (rows_of (found_of values.now)) compared) }
    ensures refused { IfErr result (Because (ReadsTwice (rows_of (found_of values.now)) compared)) }
{
    let (before, after) = (is_standard(values, &BEFORE), is_standard(values, &AFTER));
    let (names, others) = (
        is_standard(values, &NAMES),
        is_standard(values, &NAMES_AFTER),
    );
    let message = "only one of the images can be standard input";
    refuse_if(alloc, before & after, message)?;
    let are_two = names & others | (names | others) & (before | after);
    refuse_if(alloc, are_two, ONE_INPUT)
}

const ONE_INPUT: &str = "only one of the files can be standard input";

/// Refuses to read standard input for an image and for its names.
pub(crate) fn check_named(alloc: Global, values: &ArgMatches<'_>) -> Result<(), Misuse>
    ensures once { OnOk result (ReadsOnce (rows_of (found_of values.now)) named) }
    ensures refused { IfErr result (Because (ReadsTwice (rows_of (found_of values.now)) named)) }
{
    let are_two = is_standard(values, &IMAGE) & is_standard(values, &NAMES);
    refuse_if(alloc, are_two, ONE_INPUT)
}

/// Refuses two options that have values, if both are given.
fn exclude_values(
    alloc: Global,
    values: &ArgMatches<'_>,
    argument: &Argument,
    other: &Argument,
) -> Result<(), Misuse>
    ensures apart { OnOk result (IsLeftOut (rows_of (found_of values.now)) argument.now.id.now ⊎ IsLeftOut (rows_of (found_of values.now)) other.now.id.now) }
    ensures refused { IfErr result (Because (IsGiven (rows_of (found_of values.now)) argument.now.id.now × IsGiven (rows_of (found_of values.now)) other.now.id.now)) }
{
    let are_both = given(values, argument) & given(values, other);
    exclude(alloc, are_both, argument, other)
}

/// Refuses a flag beside an option that has a value.
pub(crate) fn exclude_flag(
    alloc: Global,
    values: &ArgMatches<'_>,
    argument: &Argument,
    other: &Argument,
) -> Result<(), Misuse>
    ensures apart { OnOk result (IsOff (rows_of (found_of values.now)) argument.now.id.now ⊎ IsLeftOut (rows_of (found_of values.now)) other.now.id.now) }
    ensures refused { IfErr result (Because (IsOn (rows_of (found_of values.now)) argument.now.id.now × IsGiven (rows_of (found_of values.now)) other.now.id.now)) }
{
    let are_both = flag(values, argument) & given(values, other);
    exclude(alloc, are_both, argument, other)
}

// Refuses two flags, if both are given.
fn exclude_flags(
    alloc: Global,
    values: &ArgMatches<'_>,
    argument: &Argument,
    other: &Argument,
) -> Result<(), Misuse>
    ensures apart { OnOk result (IsOff (rows_of (found_of values.now)) argument.now.id.now ⊎ IsOff (rows_of (found_of values.now)) other.now.id.now) }
    ensures refused { IfErr result (Because (IsOn (rows_of (found_of values.now)) argument.now.id.now × IsOn (rows_of (found_of values.now)) other.now.id.now)) }
{
    let are_both = flag(values, argument) & flag(values, other);
    exclude(alloc, are_both, argument, other)
}

// Refuses two options that exclude one another, if both are given.
fn exclude(
    alloc: Global,
    are_both: bool,
    argument: &Argument,
    other: &Argument,
) -> Result<(), Misuse>
    ensures apart { OnOk result (are_both ≡ false) }
    ensures refused { IfErr result (Because (are_both ≡ true)) }
{
    if !are_both {
        return Ok(());
    }
    let shown = argument.shown(alloc)?;
    let other = other.shown(alloc)?;
    Err(Misuse::Value(format!(in alloc; "the argument '{shown}' cannot be used with '{other}'")?))
}

/// Refuses an option that has a value, if another one is left out.
pub(crate) fn need(
    alloc: Global,
    values: &ArgMatches<'_>,
    argument: &Argument,
    other: &Argument,
) -> Result<(), Misuse>
    ensures beside { OnOk result (IsLeftOut (rows_of (found_of values.now)) argument.now.id.now ⊎ IsGiven (rows_of (found_of values.now)) other.now.id.now) }
    ensures refused { IfErr result (Because (IsGiven (rows_of (found_of values.now)) argument.now.id.now × IsLeftOut (rows_of (found_of values.now)) other.now.id.now)) }
{
    let is_alone = given(values, argument) & !given(values, other);
    refuse_alone(alloc, is_alone, argument, other)
}

/// Refuses an option that has a value, if a flag is left out.
pub(crate) fn need_flag(
    alloc: Global,
    values: &ArgMatches<'_>,
    argument: &Argument,
    other: &Argument,
) -> Result<(), Misuse>
    ensures beside { OnOk result (IsLeftOut (rows_of (found_of values.now)) argument.now.id.now ⊎ IsOn (rows_of (found_of values.now)) other.now.id.now) }
    ensures refused { IfErr result (Because (IsGiven (rows_of (found_of values.now)) argument.now.id.now × IsOff (rows_of (found_of values.now)) other.now.id.now)) }
{
    let is_alone = given(values, argument) & !flag(values, other);
    refuse_alone(alloc, is_alone, argument, other)
}

/// Refuses a flag, if an option that has a value is left out.
pub(crate) fn need_for_flag(
    alloc: Global,
    values: &ArgMatches<'_>,
    argument: &Argument,
    other: &Argument,
) -> Result<(), Misuse>
    ensures beside { OnOk result (IsOff (rows_of (found_of values.now)) argument.now.id.now ⊎ IsGiven (rows_of (found_of values.now)) other.now.id.now) }
    ensures refused { IfErr result (Because (IsOn (rows_of (found_of values.now)) argument.now.id.now × IsLeftOut (rows_of (found_of values.now)) other.now.id.now)) }
{
    let is_alone = flag(values, argument) & !given(values, other);
    refuse_alone(alloc, is_alone, argument, other)
}

// Refuses an option that needs another one, if it is alone.
fn refuse_alone(
    alloc: Global,
    is_alone: bool,
    argument: &Argument,
    other: &Argument,
) -> Result<(), Misuse>
    ensures beside { OnOk result (is_alone ≡ false) }
    ensures refused { IfErr result (Because (is_alone ≡ true)) }
{
    if !is_alone {
        return Ok(());
    }
    Err(argument.needs(alloc, other)?)
}

/// Refuses values of which something is wrong, as this message says.
pub(crate) fn refuse_if(alloc: Global, is_wrong: bool, message: &str) -> Result<(), Misuse>
    ensures right { OnOk result (is_wrong ≡ false) }
    ensures refused { IfErr result (Because (is_wrong ≡ true)) }
{
    if !is_wrong {
        return Ok(());
    }
    Err(Misuse::Value(String::from_str(alloc, message)?))
}

// Whether an option is given that has a value.
fn given(values: &ArgMatches<'_>, argument: &Argument) -> bool
    ensures { result ≡ is_some (first_of argument.now.id.now (rows_of (found_of values.now))) }
{
    values.get_str(argument.id).is_some()
}

/// Whether a file is standard input, or standard output.
pub(crate) fn is_standard(values: &ArgMatches<'_>, argument: &Argument) -> bool
    ensures { result ≡ is_standard (rows_of (found_of values.now)) argument.now.id.now }
{
    match values.get_str(argument.id) {
        Some(name) => name == STANDARD_STREAM,
        None => false,
    }
}
