//! The command line.
ghost use Rattle.std.specs.Prelude.{◌≢◌, IfOk, IfErr, map, codes};
ghost use Rattle.clap.specs.Words.{found_of, rows_of};
ghost use Rattle.g1_command.specs.Values.{Because, IsOn, IsOff};
ghost use Rattle.g1_answers.specs.Asked.{IsNoQuestion};
ghost use Rattle.g1pause_cli.specs.Asks.{Asks, HasWrongValue, IsHinted, IsReadAs};

use crate::usage as table;
use crate::usage::{commands, program};
use clap::error::ErrorKind;
use clap::{ArgMatches, Error};
use g1_answers::{NewImage, Question, Sharing, pause_of, question_of, sharing_of};
use g1_choose::Cost;
use g1_command::{
    Argument, Misuse, Refusal, cost_of, flag, help_or_refusal, match_words, read_request, regions,
};
use g1_words::Fault;
use std::alloc::Global;

/// What the words ask for. Numbers are whole, and may be out of their ranges.
#[derive(Drop)]
pub enum Request {
    /// This text, which says how the program is used.
    Help(String),
    /// The lines that answer this.
    Answer(Question),
    /// The bytes of this image.
    Write(NewImage),
    /// The replies to a trace.
    Run(Replay),
}

/// How a trace is replied to.
#[derive(Clone, Copy)]
pub struct Replay {
    pub sharing: Sharing,
    pub cost: Cost,
}

// The arguments that are read here, as statics: a constant is checked again in each function that uses it.
static REGIONS: Argument = table::REGIONS;

static REPACK: Argument = g1_answers::REPACK;

// What the values of a command ask for.
fn request_of(alloc: Global, name: &str, values: &ArgMatches<'_>) -> Result<Request, Misuse>
    ensures asks { IfOk result (Asks name.now (rows_of (found_of values.now))) }
    ensures refused { IfErr result (Because (HasWrongValue (rows_of (found_of values.now)))) }
{
    match name {
        "pause" => pause_request(alloc, values),
        _ => image_request(alloc, name, values),
    }
}

fn pause_request(alloc: Global, values: &ArgMatches<'_>) -> Result<Request, Misuse>
    ensures asks { IfOk result (Asks (codes "pause") (rows_of (found_of values.now))) }
    ensures refused { IfErr result (Because (HasWrongValue (rows_of (found_of values.now)))) }
{
    let mut pause = pause_of(alloc, values)?;
    pause.regions = regions(alloc, values, &REGIONS)?;
    Ok(Request::Write(NewImage::Paused(pause)))
}

fn image_request(alloc: Global, name: &str, values: &ArgMatches<'_>) -> Result<Request, Misuse>
    requires other { name.now ≢ codes "pause" }
    ensures asks { IfOk result (Asks name.now (rows_of (found_of values.now))) }
    ensures refused { IfErr result (Because (HasWrongValue (rows_of (found_of values.now)))) }
{
    if flag(values, &REPACK) {
        repack_request(alloc, name, values)
    } else {
        other_request(alloc, name, values)
    }
}

fn repack_request(alloc: Global, name: &str, values: &ArgMatches<'_>) -> Result<Request, Misuse>
    requires other { name.now ≢ codes "pause" }
    requires repacked { IsOn (rows_of (found_of values.now)) (codes "repack") }
    ensures asks { IfOk result (Asks name.now (rows_of (found_of values.now))) }
    ensures refused { IfErr result (Because (HasWrongValue (rows_of (found_of values.now)))) }
{
    let sharing = sharing_of(alloc, values)?;
    Ok(Request::Write(NewImage::Repacked(sharing)))
}

fn other_request(alloc: Global, name: &str, values: &ArgMatches<'_>) -> Result<Request, Misuse>
    requires other { name.now ≢ codes "pause" }
    requires table { IsOff (rows_of (found_of values.now)) (codes "repack") }
    ensures asks { IfOk result (Asks name.now (rows_of (found_of values.now))) }
    ensures refused { IfErr result (Because (HasWrongValue (rows_of (found_of values.now)))) }
{
    match question_of(alloc, name, values)? {
        Some(question) => Ok(Request::Answer(question)),
        None => run_request(alloc, name, values),
    }
}

fn run_request(alloc: Global, name: &str, values: &ArgMatches<'_>) -> Result<Request, Misuse>
    requires other { name.now ≢ codes "pause" }
    requires table { IsOff (rows_of (found_of values.now)) (codes "repack") }
    requires run { IsNoQuestion name.now }
    ensures asks { IfOk result (Asks name.now (rows_of (found_of values.now))) }
    ensures refused { IfErr result (Because (HasWrongValue (rows_of (found_of values.now)))) }
{
    let sharing = sharing_of(alloc, values)?;
    let cost = cost_of(alloc, values)?;
    Ok(Request::Run(Replay { sharing, cost }))
}

/// Reads the words after the program's name.
pub fn parse(alloc: Global, words: &[String]) -> Result<Request, Refusal>
    ensures { IsReadAs (map (λ w. w.bytes.items) words.now) result }
{
    let commands = commands();
    let program = program(&commands);
    match match_words(alloc, &program, words) {
        Ok(matches) => read_request(alloc, &program, &matches, request_of),
        Err(error) => match help_or_refusal(alloc, &error) {
            Ok(text) => Ok(Request::Help(text)),
            Err(refusal) => Err(with_hint(&error, refusal)),
        },
    }
}

// What clap says. A file is what users most often give to a command that takes no such argument.
fn with_hint(error: &Error, refusal: Refusal) -> Refusal
    ensures { IsHinted refusal result }
{
    match refusal {
        Refusal::Told { status, text } => {
            let mut text = text;
            if has_one_file_more(error, text.as_str()) && text.push_str(FROM_INPUT).is_err() {
                return Refusal::Fault(Fault::Memory);
            }
            Refusal::Told { status, text }
        }
        Refusal::Fault(fault) => Refusal::Fault(fault),
    }
}

const FROM_INPUT: &str = "\nThe input comes on standard input: write '< FILE' instead of 'FILE'.\n";

// Whether an argument is too many that is no option.
fn has_one_file_more(error: &Error, text: &str) -> bool {
    error.kind() == ErrorKind::UnknownArgument && !text.starts_with("error: unexpected argument '-")
}
