//! The command line.
ghost use Rattle.std.specs.Prelude.{map, IfErr, IfOk, OnOk, codes, option_to_list};
ghost use Rattle.clap.specs.Words.{Text, first_of, found_of, rows_of};
ghost use Rattle.g1_command.specs.Values.{Because, IfGiven, texts_of};
ghost use Rattle.g1_command.specs.Lists.{AreRegionsIn};
ghost use Rattle.g1heap_request.specs.Values.{AreLimitsOf, IsCount, IsFlag, IsImageOf, IsNameIfGiven, IsNameOf, IsOutputOf};
ghost use Rattle.g1heap_request.specs.Asks.{Asks, IsBesideNone, IsImageAfter, IsNoOther, IsPartOf};
ghost use Rattle.g1heap_request.specs.Together.{ArePrinted, CoversYoung, FillsOfSet, NamesBoth, ReadsOnce, named};
ghost use Rattle.g1heap_request.specs.Words.{IsReadAs, IsReadOf};
ghost use Rattle.g1heap_request.specs.Wrong.{HasWrongValue, IsRefused};

use crate::asking::{Ask, Rewrite, asked_of};
use crate::checks::{
    check_choice, check_compared, check_named, check_parts, exclude_flag, need, need_flag,
    need_for_flag, refuse_if,
};
use crate::dump::{Convert, convert_of};
use crate::image_file::ImageFile;
use crate::output::{Output, STANDARD_STREAM};
use crate::tips::with_tip;
use crate::usage as table;
use crate::usage::{commands, program};
use clap::ArgMatches;
use g1_choose::Cost;
use g1_command::{
    Argument, BUDGET as BUDGET_OPTION, Misuse, Refusal, cost_of, flag, help_or_refusal,
    match_words, number, number_in, read_request, region, regions_in, required_number, tie,
};
use g1_words::Limits;
use std::alloc::{AllocError, Global};

/// What the words ask for.
#[derive(Drop)]
pub enum Request {
    /// This text, which says how the program is used.
    Help(String),
    /// Whether two images show the same graph.
    Same(Same),
    /// The lines of an image, or of a part of it.
    Print {
        image: ImageFile,
        part: Part,
        /// Whether data words are in hexadecimal.
        hex: bool,
        output: Output,
    },
    /// The image that lines describe.
    Make {
        lines: String,
        output: Output,
    },
    /// The image of a heap dump.
    Convert(Convert),
    /// The lines of a pause.
    Explain(Explain),
    /// What keeps the object at an address.
    Why(Why),
    /// The replies to a trace.
    Trace(Trace),
    /// The lines that answer a question of an image.
    Ask(Ask),
    /// An image that is made of another one.
    Rewrite(Rewrite),
}

/// An object that is asked about, by its address.
#[derive(Drop)]
pub struct Why {
    pub image: ImageFile,
    pub address: u64,
    /// The file of the names that the program has for what is in the image.
    pub names: Option<String>,
}

/// A trace to answer.
#[derive(Drop)]
pub struct Trace {
    pub name: String,
    pub cost: Cost,
    /// Whether each line is answered at once.
    pub live: bool,
    /// Whether a reply has the number of its command.
    pub numbered: bool,
    /// Whether each pause is explained.
    pub explain: bool,
    pub image: Option<ImageAfter>,
}

/// The image after a command, and where it goes: to a file, or in place of the replies.
#[derive(Drop)]
pub struct ImageAfter {
    pub command: u64,
    pub output: Output,
}

/// A pause to explain. At most one of budget and regions is here.
#[derive(Drop)]
pub struct Explain {
    pub image: ImageFile,
    pub cost: Cost,
    pub budget: Option<u64>,
    pub set: Vec<u32>,
    /// Whether only the new addresses are wanted.
    pub map: bool,
    /// The file of the names that the program has for what is in the image.
    pub names: Option<String>,
    pub output: Output,
}

/// Two images to compare. At most one is standard input.
#[derive(Drop)]
pub struct Same {
    pub before: String,
    pub after: String,
    /// The limits within which images are read.
    pub limits: Limits,
    /// Whether the references of the second are to be covered.
    pub covered: bool,
    /// The regions of the second whose slots need no card.
    pub young: Vec<u32>,
    /// The regions of a pause that is to have kept all others; empty if nothing is asked of it. Those that
    /// are free are left out.
    pub set: Vec<u32>,
    /// Whether copies may be behind the old tops of ordinary regions.
    pub fill: bool,
    /// The file of the names that the program has for what is in the first one.
    pub names: Option<String>,
    /// The file of the names that the program has for the objects of the second one.
    pub names_after: Option<String>,
    /// Whether the objects that moved are counted.
    pub moved: bool,
    /// How many differences are listed and then all counted, if that is asked.
    pub all: Option<u64>,
}

/// What is printed of an image.
#[derive(Clone, Copy)]
pub enum Part {
    Whole,
    Region(u32),
    /// The object at an address.
    Object(u64),
    /// Its numbers alone.
    Summary,
}

// The arguments that are read here, as statics: a constant is checked again in each function that uses it.
static ADDRESS: Argument = table::ADDRESS;

static AFTER: Argument = table::AFTER;

static ALL: Argument = table::ALL;

static BEFORE: Argument = table::BEFORE;

static BUDGET: Argument = BUDGET_OPTION;

static COVERED: Argument = table::COVERED;

static EXPLAINED: Argument = table::EXPLAINED;

static FILL: Argument = table::FILL;

static HEX: Argument = table::HEX;

static IMAGE: Argument = table::IMAGE;

static IMAGE_AFTER: Argument = table::IMAGE_AFTER;

static LIMITS: Argument = table::LIMITS;

static LINES: Argument = table::LINES;

static LIVE: Argument = table::LIVE;

static MAP: Argument = table::MAP;

static NAMES: Argument = table::NAMES;

static NAMES_AFTER: Argument = table::NAMES_AFTER;

static MOVED: Argument = table::MOVED;

static NUMBERED: Argument = table::NUMBERED;

static OBJECT: Argument = table::OBJECT;

static OUTPUT: Argument = table::OUTPUT;

static REGION: Argument = table::REGION;

static SET: Argument = table::SET;

static SUMMARY: Argument = table::SUMMARY;

static TRACED: Argument = table::TRACED;

static YOUNG: Argument = table::YOUNG;

fn part_of(alloc: Global, values: &ArgMatches<'_>) -> Result<Part, Misuse>
    ensures part { IfOk result (IsPartOf (rows_of (found_of values.now))) }
    ensures printed { OnOk result (ArePrinted (rows_of (found_of values.now))) }
    ensures refused { IfErr result (Because (HasWrongValue (rows_of (found_of values.now)))) }
{
    check_parts(alloc, values)?;
    if values.get_flag(SUMMARY.id) {
        return Ok(Part::Summary);
    }
    if let Some(region) = region(alloc, values, &REGION)? {
        return Ok(Part::Region(region));
    }
    match number(alloc, values, &OBJECT)? {
        Some(address) => Ok(Part::Object(address)),
        None => Ok(Part::Whole),
    }
}

// The name of a file that always has one, be it by default.
pub(crate) fn name_of(
    alloc: Global,
    values: &ArgMatches<'_>,
    argument: &Argument,
) -> Result<String, AllocError>
    ensures { IfOk result (λ s. IsNameOf (rows_of (found_of values.now)) argument.now.id.now s.bytes.items) }
{
    String::from_str(
        alloc,
        values.get_str(argument.id).unwrap_or(STANDARD_STREAM),
    )
}

// The image that is read, which is on standard input if none is named.
pub(crate) fn image_of(alloc: Global, values: &ArgMatches<'_>) -> Result<ImageFile, Misuse>
    ensures image { IfOk result (IsImageOf (rows_of (found_of values.now))) }
    ensures refused { IfErr result (Because (HasWrongValue (rows_of (found_of values.now)))) }
{
    Ok(ImageFile {
        name: name_of(alloc, values, &IMAGE)?,
        limits: limits_of(alloc, values)?,
    })
}

fn limits_of(alloc: Global, values: &ArgMatches<'_>) -> Result<Limits, Misuse>
    ensures limits { IfOk result (AreLimitsOf (rows_of (found_of values.now))) }
    ensures refused { IfErr result (Because (HasWrongValue (rows_of (found_of values.now)))) }
{
    match values.get_str(LIMITS.id) {
        None => Ok(Limits::Wide),
        Some("wide") => Ok(Limits::Wide),
        Some("specification") => Ok(Limits::Specified),
        Some(_) => {
            let message = "'--limits' is 'wide' or 'specification'";
            Err(Misuse::Value(String::from_str(alloc, message)?))
        }
    }
}

pub(crate) fn name_if_given(
    alloc: Global,
    values: &ArgMatches<'_>,
    argument: &Argument,
) -> Result<Option<String>, AllocError>
    ensures { IfOk result (IsNameIfGiven (rows_of (found_of values.now)) argument.now.id.now) }
{
    match values.get_str(argument.id) {
        Some(name) => Ok(Some(String::from_str(alloc, name)?)),
        None => Ok(None),
    }
}

pub(crate) fn output_of(alloc: Global, values: &ArgMatches<'_>) -> Result<Output, AllocError>
    ensures { IfOk result (IsOutputOf (rows_of (found_of values.now))) }
{
    Output::of_name(alloc, values.get_str(OUTPUT.id))
}

fn all_of(alloc: Global, values: &ArgMatches<'_>) -> Result<Option<u64>, Misuse>
    ensures count { IfOk result (IfGiven IsCount (first_of (codes "all") (rows_of (found_of values.now)))) }
    ensures refused { IfErr result (Because (HasWrongValue (rows_of (found_of values.now)))) }
{
    match number(alloc, values, &ALL)? {
        Some(0) => Err(ALL.refuse(alloc, "0")?),
        Some(count) => Ok(Some(count)),
        None => Ok(None),
    }
}

fn young_of(alloc: Global, values: &ArgMatches<'_>) -> Result<Vec<u32>, Misuse>
    ensures young { IfOk result (λ v. AreRegionsIn (option_to_list (first_of (codes "young") (rows_of (found_of values.now)))) v.items) }
    ensures covers { OnOk result (CoversYoung (rows_of (found_of values.now))) }
    ensures refused { IfErr result (Because (HasWrongValue (rows_of (found_of values.now)))) }
{
    need_flag(alloc, values, &YOUNG, &COVERED)?;
    match values.get_str(YOUNG.id) {
        None => Ok(Vec::new(alloc)),
        Some(list) => regions_in(alloc, &YOUNG, &[list]),
    }
}

pub(crate) fn set_of(alloc: Global, values: &ArgMatches<'_>) -> Result<Vec<u32>, Misuse>
    ensures set { IfOk result (λ v. AreRegionsIn (texts_of (rows_of (found_of values.now)) (codes "set")) v.items) }
    ensures refused { IfErr result (Because (HasWrongValue (rows_of (found_of values.now)))) }
{
    match values.get_strs(SET.id) {
        Some(lists) => regions_in(alloc, &SET, lists),
        None => Ok(Vec::new(alloc)),
    }
}

// Whether copies may fill regions, which only a set gives a meaning.
fn fill_of(alloc: Global, values: &ArgMatches<'_>) -> Result<bool, Misuse>
    ensures fill { IfOk result (IsFlag (rows_of (found_of values.now)) (codes "fill")) }
    ensures of_set { OnOk result (FillsOfSet (rows_of (found_of values.now))) }
    ensures refused { IfErr result (Because (HasWrongValue (rows_of (found_of values.now)))) }
{
    need_for_flag(alloc, values, &FILL, &SET)?;
    Ok(values.get_flag(FILL.id))
}

// The names for an image, which are not on standard input if that is.
fn names_beside(alloc: Global, values: &ArgMatches<'_>) -> Result<Option<String>, Misuse>
    ensures names { IfOk result (IsNameIfGiven (rows_of (found_of values.now)) (codes "names")) }
    ensures once { OnOk result (ReadsOnce (rows_of (found_of values.now)) named) }
    ensures refused { IfErr result (Because (HasWrongValue (rows_of (found_of values.now)))) }
{
    check_named(alloc, values)?;
    Ok(name_if_given(alloc, values, &NAMES)?)
}

// The names after are said beside those before.
fn names_after_of(alloc: Global, values: &ArgMatches<'_>) -> Result<Option<String>, Misuse>
    ensures names { IfOk result (IsNameIfGiven (rows_of (found_of values.now)) (codes "names-after")) }
    ensures both { OnOk result (NamesBoth (rows_of (found_of values.now))) }
    ensures refused { IfErr result (Because (HasWrongValue (rows_of (found_of values.now)))) }
{
    need(alloc, values, &NAMES_AFTER, &NAMES)?;
    Ok(name_if_given(alloc, values, &NAMES_AFTER)?)
}

fn same_of(alloc: Global, values: &ArgMatches<'_>) -> Result<Request, Misuse>
    ensures asks { IfOk result (Asks (codes "same") (rows_of (found_of values.now))) }
    ensures refused { IfErr result (Because (HasWrongValue (rows_of (found_of values.now)))) }
{
    check_compared(alloc, values)?;
    Ok(Request::Same(Same {
        before: name_of(alloc, values, &BEFORE)?,
        after: name_of(alloc, values, &AFTER)?,
        limits: limits_of(alloc, values)?,
        covered: values.get_flag(COVERED.id),
        young: young_of(alloc, values)?,
        set: set_of(alloc, values)?,
        fill: fill_of(alloc, values)?,
        names: name_if_given(alloc, values, &NAMES)?,
        names_after: names_after_of(alloc, values)?,
        moved: values.get_flag(MOVED.id),
        all: all_of(alloc, values)?,
    }))
}

fn explain_of(alloc: Global, values: &ArgMatches<'_>) -> Result<Request, Misuse>
    ensures asks { IfOk result (Asks (codes "explain") (rows_of (found_of values.now))) }
    ensures refused { IfErr result (Because (HasWrongValue (rows_of (found_of values.now)))) }
{
    check_choice(alloc, values)?;
    exclude_flag(alloc, values, &MAP, &NAMES)?;
    Ok(Request::Explain(Explain {
        image: image_of(alloc, values)?,
        cost: cost_of(alloc, values)?,
        budget: number(alloc, values, &BUDGET)?,
        set: set_of(alloc, values)?,
        map: values.get_flag(MAP.id),
        names: names_beside(alloc, values)?,
        output: output_of(alloc, values)?,
    }))
}

const MIXED: &str = "with '--live' standard output has the replies: the image needs a file";

// The number of the command, and the file.
fn image_after_of(alloc: Global, values: &ArgMatches<'_>) -> Result<Option<ImageAfter>, Misuse>
    ensures image { IfOk result (IsImageAfter (texts_of (rows_of (found_of values.now)) (codes "image"))) }
    ensures apart { OnOk result (IsBesideNone (rows_of (found_of values.now)) (texts_of (rows_of (found_of values.now)) (codes "image"))) }
    ensures refused { IfErr result (Because (HasWrongValue (rows_of (found_of values.now)))) }
{
    let Some(words) = values.get_strs(IMAGE_AFTER.id) else {
        return Ok(None);
    };
    if words.len() != 2 {
        return Ok(None);
    }
    let (number, file) = (words[0], words[1]);
    let are_mixed = (file == STANDARD_STREAM) & flag(values, &LIVE);
    refuse_if(alloc, are_mixed, MIXED)?;
    match number_in(alloc, &IMAGE_AFTER, number)? {
        0 => Err(IMAGE_AFTER.refuse(alloc, "0")?),
        command => Ok(Some(ImageAfter {
            command,
            output: Output::of_name(alloc, Some(file))?,
        })),
    }
}

fn trace_of(alloc: Global, values: &ArgMatches<'_>) -> Result<Request, Misuse>
    ensures asks { IfOk result (Asks (codes "trace") (rows_of (found_of values.now))) }
    ensures refused { IfErr result (Because (HasWrongValue (rows_of (found_of values.now)))) }
{
    Ok(Request::Trace(Trace {
        name: name_of(alloc, values, &TRACED)?,
        cost: cost_of(alloc, values)?,
        live: values.get_flag(LIVE.id),
        numbered: values.get_flag(NUMBERED.id),
        explain: values.get_flag(EXPLAINED.id),
        image: image_after_of(alloc, values)?,
    }))
}

fn print_of(alloc: Global, values: &ArgMatches<'_>) -> Result<Request, Misuse>
    ensures asks { IfOk result (Asks (codes "print") (rows_of (found_of values.now))) }
    ensures refused { IfErr result (Because (HasWrongValue (rows_of (found_of values.now)))) }
{
    Ok(Request::Print {
        image: image_of(alloc, values)?,
        part: part_of(alloc, values)?,
        hex: values.get_flag(HEX.id),
        output: output_of(alloc, values)?,
    })
}

fn why_of(alloc: Global, values: &ArgMatches<'_>) -> Result<Request, Misuse>
    ensures asks { IfOk result (Asks (codes "why") (rows_of (found_of values.now))) }
    ensures refused { IfErr result (Because (HasWrongValue (rows_of (found_of values.now)))) }
{
    Ok(Request::Why(Why {
        image: image_of(alloc, values)?,
        address: required_number(alloc, values, &ADDRESS)?,
        names: names_beside(alloc, values)?,
    }))
}

fn make_of(alloc: Global, values: &ArgMatches<'_>) -> Result<Request, Misuse>
    ensures asks { IfOk result (λ r. (name : Text) → IsNoOther name → Asks name (rows_of (found_of values.now)) r) }
    ensures refused { IfErr result (Because (HasWrongValue (rows_of (found_of values.now)))) }
{
    Ok(Request::Make {
        lines: name_of(alloc, values, &LINES)?,
        output: output_of(alloc, values)?,
    })
}

// What the values of a command ask for.
fn request_of(alloc: Global, name: &str, values: &ArgMatches<'_>) -> Result<Request, Misuse>
    ensures asks { IfOk result (Asks name.now (rows_of (found_of values.now))) }
    ensures refused { IfErr result (Because (IsRefused name.now (rows_of (found_of values.now)))) }
{
    if let Some(request) = asked_of(alloc, name, values)? {
        return Ok(request);
    }
    match name {
        "same" => same_of(alloc, values),
        "print" => print_of(alloc, values),
        "convert" => convert_of(alloc, values),
        "explain" => explain_of(alloc, values),
        "why" => why_of(alloc, values),
        "trace" => trace_of(alloc, values),
        _ => make_of(alloc, values),
    }
}

/// Reads the words after the program's name.
pub fn parse(alloc: Global, words: &[String]) -> Result<Request, Refusal>
    ensures { IsReadAs (map (λ w. w.bytes.items) words.now) result }
{
    let words = tie(alloc, words)?;
    read(alloc, words.as_slice())
}

// Reads the words, to each value of `--set` among which the option is tied.
fn read(alloc: Global, words: &[String]) -> Result<Request, Refusal>
    ensures { IsReadOf (map (λ w. w.bytes.items) words.now) result }
{
    let commands = commands();
    let program = program(&commands);
    match match_words(alloc, &program, words) {
        Ok(matches) => read_request(alloc, &program, &matches, request_of),
        Err(error) => match help_or_refusal(alloc, &error) {
            Ok(text) => Ok(Request::Help(text)),
            Err(refusal) => Err(with_tip(alloc, refusal, &error, words, &commands)),
        },
    }
}
