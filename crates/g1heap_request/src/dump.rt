//! What the values of `convert` ask for.
ghost use Rattle.std.specs.Prelude.{◌≡◌, ◌≢◌, IfErr, IfOk, MatchOption, OnOk, Some, codes};
ghost use Rattle.clap.specs.Words.{first_of, found_of, rows_of};
ghost use Rattle.g1_command.specs.Lists.{parts_of};
ghost use Rattle.g1_command.specs.Values.{Because};
ghost use Rattle.g1heap_request.specs.Values.{AreTextsOf, IsNameIfGiven, standard};
ghost use Rattle.g1heap_request.specs.Asks.{Asks, AreSizesIfGiven, AreSizesIn};
ghost use Rattle.g1heap_request.specs.Wrong.{AreNoSizes, HasWrongValue, IsRefused};

use crate::checks::{check_part, is_standard, refuse_if};
use crate::options::{Request, name_if_given, name_of, output_of};
use crate::output::Output;
use crate::usage as table;
use clap::ArgMatches;
use g1_command::{Argument, Misuse, whole};
use std::alloc::{AllocError, Global};

/// A heap dump of which an image is made.
#[derive(Drop)]
pub struct Convert {
    pub dump: String,
    /// The static fields from which all hangs that is wanted; none if all objects are.
    pub from: Vec<String>,
    /// The fields that are null or zero in the image.
    pub without: Vec<String>,
    /// Whether weak references keep what they refer to.
    pub weak: bool,
    /// Whether a reference that leads to nothing is null.
    pub dangling_null: bool,
    /// Whether primitive data are zeros.
    pub blank: bool,
    /// The file that gets the names.
    pub names: Option<String>,
    pub sizes: Option<HeapSizes>,
    pub output: Output,
}

/// The sizes of a heap, which may be out of their ranges.
#[derive(Clone, Copy)]
pub struct HeapSizes {
    pub region_words: u64,
    pub card_words: u64,
    pub regions: u64,
}

// The arguments that are read here, as statics: a constant is checked again in each function that uses it.
static DUMP: Argument = table::DUMP;

static FROM: Argument = table::FROM;

static WITHOUT: Argument = table::WITHOUT;

static WEAK: Argument = table::WEAK;

static DANGLING_NULL: Argument = table::DANGLING_NULL;

static BLANK: Argument = table::BLANK;

static NAMES_MADE: Argument = table::NAMES_MADE;

static SIZES: Argument = table::SIZES;

/// What the values of the command ask for.
pub(crate) fn convert_of(alloc: Global, values: &ArgMatches<'_>) -> Result<Request, Misuse>
    ensures asks { IfOk result (Asks (codes "convert") (rows_of (found_of values.now))) }
    ensures refused { IfErr result (Because (IsRefused (codes "convert") (rows_of (found_of values.now)))) }
{
    check_part(alloc, values)?;
    Ok(Request::Convert(Convert {
        dump: name_of(alloc, values, &DUMP)?,
        from: words_of(alloc, values, &FROM)?,
        without: words_of(alloc, values, &WITHOUT)?,
        weak: values.get_flag(WEAK.id),
        dangling_null: values.get_flag(DANGLING_NULL.id),
        blank: values.get_flag(BLANK.id),
        names: names_made_of(alloc, values)?,
        sizes: sizes_of(alloc, values)?,
        output: output_of(alloc, values)?,
    }))
}

// The values of an argument that may be given several times.
fn words_of(
    alloc: Global,
    values: &ArgMatches<'_>,
    argument: &Argument,
) -> Result<Vec<String>, AllocError>
    ensures { IfOk result (AreTextsOf (rows_of (found_of values.now)) argument.now.id.now) }
{
    let mut words = Vec::new(alloc);
    for text in values.get_strs(argument.id).unwrap_or(&[]) {
        words.push(String::from_str(alloc, text)?)?;
    }
    Ok(words)
}

// The file of the names, which is none of the standard streams.
fn names_made_of(alloc: Global, values: &ArgMatches<'_>) -> Result<Option<String>, Misuse>
    ensures names { IfOk result (IsNameIfGiven (rows_of (found_of values.now)) (codes "names")) }
    ensures file { OnOk result (first_of (codes "names") (rows_of (found_of values.now)) ≢ Some standard) }
    ensures refused { IfErr result (Because (first_of (codes "names") (rows_of (found_of values.now)) ≡ Some standard)) }
{
    let is_no_file = is_standard(values, &NAMES_MADE);
    refuse_if(alloc, is_no_file, "the names need a file")?;
    Ok(name_if_given(alloc, values, &NAMES_MADE)?)
}

fn sizes_of(alloc: Global, values: &ArgMatches<'_>) -> Result<Option<HeapSizes>, Misuse>
    ensures sizes { IfOk result (AreSizesIfGiven (first_of (codes "sizes") (rows_of (found_of values.now)))) }
    ensures refused { IfErr result (Because (HasWrongValue (rows_of (found_of values.now)))) }
{
    let Some(text) = values.get_str(SIZES.id) else {
        return Ok(None);
    };
    match sizes_in(text) {
        Some(sizes) => Ok(Some(sizes)),
        None => {
            let shown = SIZES.shown(alloc)?;
            let range = SIZES.range;
            let message = format!(in alloc; "invalid value '{text}' for '{shown}': {range}")?;
            Err(Misuse::Value(message))
        }
    }
}

// Three numbers with commas between them.
fn sizes_in(text: &str) -> Option<HeapSizes>
    ensures { MatchOption result (AreNoSizes text.now) (AreSizesIn (parts_of text.now)) }
{
    let (region_words, rest) = text.split_once(',')?;
    let (card_words, regions) = rest.split_once(',')?;
    Some(HeapSizes {
        region_words: whole(region_words)?,
        card_words: whole(card_words)?,
        regions: whole(regions)?,
    })
}
