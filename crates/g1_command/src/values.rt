//! Whole numbers among the values that clap found.
ghost use Rattle.std.specs.Prelude.{◌≡◌, ◌^◌, true, false, OnOk, IfOk, IfErr, MatchOption};
ghost use Rattle.clap.specs.Words.{first_of, found_of, kind_of, rows_of};
ghost use Rattle.g1_command.specs.Requests.{IsRead, IsToldOf, IsUsageIf};
ghost use Rattle.g1_command.specs.Values.{IsBelow, IsOn, IsOff, IsNumber, IsNumberOf, IsRegion, AreRegionsOf, IfGiven, IsNoNumberOf, IsNoRegionOf, AreNoRegionsOf, IsValue, Because};

use crate::refusal::Refusal;
use crate::table::{Argument, Program, Usage, build_command, command_named};
use clap::error::ErrorKind;
use clap::{ArgMatches, Error};
use g1_words::Fault;
use std::alloc::{AllocError, AllocFailed, Global};

impl Argument {
    /// What is wrong with a value that is no number of this argument's.
    pub fn refuse(&self, alloc: Global, value: &str) -> Result<Misuse, AllocError>
        ensures { IfOk result IsValue }
    {
        let shown = self.shown(alloc)?;
        let (what, range) = (wrong_with(value), self.range);
        Ok(Misuse::Value(format!(in alloc;
            "invalid value '{value}' for '{shown}': {what} ({range})"
        )?))
    }

    /// What is wrong with a use of this argument without another one, which it needs.
    pub fn needs(&self, alloc: Global, other: &Argument) -> Result<Misuse, AllocError> {
        let shown = self.shown(alloc)?;
        let other = other.shown(alloc)?;
        Ok(Misuse::Value(format!(in alloc; "'{shown}' needs '{other}'")?))
    }
}

// What is wrong with a value that is no number of an argument's: only 0 is below any range.
fn wrong_with(value: &str) -> &'static str {
    let digits = value.trim_start_matches('0');
    if value.is_empty() || digits.contains(|c: char| !c.is_ascii_digit()) {
        "not a whole number"
    } else if digits.is_empty() {
        "too small"
    } else {
        "too large"
    }
}

/// Why the values of a command are no request.
#[derive(Debug, Drop)]
pub enum Misuse {
    /// A value is wrong, as this message says.
    Value(String),
    /// The machine refused memory.
    Memory,
}

impl From<AllocError> for Misuse {
    ghost use Rattle.std.specs.Prelude.{◌≡◌};
    ghost use Rattle.g1_command.specs.declared.values.Misuse.TheVariants.{Memory};

    ghost from_gives = { λ _ e. e ≡ Memory };

    fn from(_error: AllocError) -> Misuse {
        Misuse::Memory
    }
}

impl<T: Drop> From<AllocFailed<T>> for Misuse {
    ghost use Rattle.std.specs.Prelude.{◌≡◌};
    ghost use Rattle.g1_command.specs.declared.values.Misuse.TheVariants.{Memory};

    ghost from_gives = { λ _ e. e ≡ Memory };

    fn from(_error: AllocFailed<T>) -> Misuse {
        Misuse::Memory
    }
}

impl Misuse {
    /// The refusal, with the usage of the command whose values these are.
    pub fn refusal(self, alloc: Global, program: &Program<'_>, usage: &Usage) -> Refusal
        ensures { IsUsageIf (IsValue self) result }
    {
        match self {
            Misuse::Value(message) => match with_usage(alloc, program, usage, message.as_str()) {
                Ok(text) => Refusal::usage(text),
                Err(_) => Refusal::Fault(Fault::Memory),
            },
            Misuse::Memory => Refusal::Fault(Fault::Memory),
        }
    }
}

fn with_usage(
    alloc: Global,
    program: &Program<'_>,
    usage: &Usage,
    message: &str,
) -> Result<String, AllocError> {
    let path = format!(in alloc; "{} {}", program.name, usage.name)?;
    let usage = usage_of(alloc, path.as_str(), usage)?;
    format!(in alloc; "error: {message}\n\n{usage}\n\nFor more information, try '{path} --help'.\n")
}

// The usage of a command that is called by this path.
fn usage_of(alloc: Global, path: &str, usage: &Usage) -> Result<String, AllocError> {
    build_command(alloc, path, usage)?.render_usage()
}

/// What the command among the matches asks for, by this function of its name and its values.
///
/// # Errors
///
/// A usage text if there is no command, or if the values are no request, and `Fault::Memory`.
pub fn read_request<Q: Drop, F: Fn(Global, &str, &ArgMatches<'_>) -> Result<Q, Misuse>>(
    alloc: Global,
    program: &Program<'_>,
    matches: &ArgMatches<'_>,
    request_of: F,
) -> Result<Q, Refusal>
    requires { F.IsAlwaysCallable request_of }
    ensures { IsRead (F.post request_of alloc) program.now matches.now result }
{
    if let Some((name, values)) = matches.subcommand()
        && let Some(usage) = command_named(program, name)
    {
        return match request_of(alloc, name, values) {
            Ok(request) => Ok(request),
            Err(misuse) => Err(misuse.refusal(alloc, program, usage)),
        };
    }
    match String::from_str(alloc, "error: a command is required\n") {
        Ok(text) => Err(Refusal::usage(text)),
        Err(_) => Err(Refusal::Fault(Fault::Memory)),
    }
}

/// What clap says instead of matches: a text that was asked for, or why the words are no request.
pub fn help_or_refusal(alloc: Global, error: &Error) -> Result<String, Refusal>
    ensures { IsToldOf (kind_of error.now) result }
{
    if error.kind() == ErrorKind::OutOfMemory {
        return Err(Refusal::Fault(Fault::Memory));
    }
    let Ok(text) = format!(in alloc; "{error}") else {
        return Err(Refusal::Fault(Fault::Memory));
    };
    if error.use_stderr() {
        Err(Refusal::usage(text))
    } else {
        Ok(text)
    }
}

/// A whole number in decimal digits alone. clap would take a sign, and `parse` takes a plus.
pub fn whole(text: &str) -> Option<u64>
    ensures { MatchOption result (IsBelow (2 ^ 64) text.now → ⊥) (λ n. IsNumber n text.now) }
{
    if text.starts_with('+') {
        return None;
    }
    text.parse::<u64>().ok()
}

/// Whether a flag is given.
pub fn flag(values: &ArgMatches<'_>, argument: &Argument) -> bool
    ensures on { result ≡ true → IsOn (rows_of (found_of values.now)) argument.now.id.now }
    ensures off { result ≡ false → IsOff (rows_of (found_of values.now)) argument.now.id.now }
{
    values.get_flag(argument.id)
}

/// The number of an argument, if it has one.
pub fn number(
    alloc: Global,
    values: &ArgMatches<'_>,
    argument: &Argument,
) -> Result<Option<u64>, Misuse>
    ensures number { IfOk result (IfGiven IsNumber (first_of argument.now.id.now (rows_of (found_of values.now)))) }
    ensures refused { IfErr result (Because (IsNoNumberOf (rows_of (found_of values.now)) argument.now.id.now)) }
{
    match values.get_str(argument.id) {
        None => Ok(None),
        Some(text) => Ok(Some(number_in(alloc, argument, text)?)),
    }
}

/// The number of an argument that always has one, be it by default.
pub fn required_number(
    alloc: Global,
    values: &ArgMatches<'_>,
    argument: &Argument,
) -> Result<u64, Misuse>
    ensures number { IfOk result (IsNumberOf (rows_of (found_of values.now)) argument.now.id.now) }
    ensures refused { IfErr result (Because (IsNoNumberOf (rows_of (found_of values.now)) argument.now.id.now)) }
{
    match values.get_str(argument.id) {
        None => Ok(0),
        Some(text) => number_in(alloc, argument, text),
    }
}

/// The number that a part of an argument's value is.
pub fn number_in(alloc: Global, argument: &Argument, text: &str) -> Result<u64, Misuse>
    ensures number { IfOk result (λ n. IsNumber n text.now) }
    ensures refused { IfErr result (Because (IsBelow (2 ^ 64) text.now → ⊥)) }
{
    match whole(text) {
        Some(number) => Ok(number),
        None => Err(argument.refuse(alloc, text)?),
    }
}

/// The region in an argument, if it has one. It need not be one of an image's.
pub fn region(
    alloc: Global,
    values: &ArgMatches<'_>,
    argument: &Argument,
) -> Result<Option<u32>, Misuse>
    ensures region { IfOk result (IfGiven IsRegion (first_of argument.now.id.now (rows_of (found_of values.now)))) }
    ensures refused { IfErr result (Because (IsNoRegionOf (rows_of (found_of values.now)) argument.now.id.now)) }
{
    match values.get_str(argument.id) {
        None => Ok(None),
        Some(text) => Ok(Some(region_in(alloc, argument, text)?)),
    }
}

/// The regions in an argument. They need not be those of an image.
pub fn regions(
    alloc: Global,
    values: &ArgMatches<'_>,
    argument: &Argument,
) -> Result<Vec<u32>, Misuse>
    ensures regions { IfOk result (λ v. AreRegionsOf (rows_of (found_of values.now)) argument.now.id.now v.items) }
    ensures refused { IfErr result (Because (AreNoRegionsOf (rows_of (found_of values.now)) argument.now.id.now)) }
{
    let mut regions = Vec::new(alloc);
    for text in values.get_strs(argument.id).unwrap_or(&[]) {
        regions.push(region_in(alloc, argument, text)?)?;
    }
    Ok(regions)
}

/// The region that a part of an argument's value names.
pub fn region_in(alloc: Global, argument: &Argument, text: &str) -> Result<u32, Misuse>
    ensures region { IfOk result (λ r. IsRegion r text.now) }
    ensures refused { IfErr result (Because (IsBelow (2 ^ 32) text.now → ⊥)) }
{
    if let Some(number) = whole(text)
        && let Ok(region) = u32::try_from(number)
    {
        return Ok(region);
    }
    Err(argument.refuse(alloc, text)?)
}
