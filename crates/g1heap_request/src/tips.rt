//! What is said beside a mistake, where the words show what was meant.
ghost use Rattle.std.specs.Prelude.{◌≡◌, ◌++◌, codes, map, option_map, Contains, IfOk, IfSome, IsSomeAnd, IsTrue};
ghost use Rattle.clap.specs.Words.{Text};
ghost use Rattle.clap.specs.Words.{kind_of};
ghost use Rattle.g1heap_request.specs.Tips.{Has, IsCommandTip, IsDue, IsOwnTip, IsRetold, IsTipped, QuotesFirst, named_among, usage_mark};

use crate::usage::NAME;
use clap::Error;
use clap::error::ErrorKind;
use g1_command::{Argument, Form, Refusal, Usage};
use std::alloc::{AllocError, Global};

/// The refusal of words for this error, with the tip that fits them in place of clap's own.
pub fn with_tip(
    alloc: Global,
    refusal: Refusal,
    error: &Error,
    words: &[String],
    commands: &[Usage],
) -> Refusal
    ensures { IsRetold (kind_of error.now) (map (λ w. w.bytes.items) words.now) refusal result }
{
    let Refusal::Told { status, text } = refusal else {
        return refusal;
    };
    match told_with_tip(alloc, text.as_str(), error, words, commands) {
        Ok(told) => Refusal::Told {
            status,
            text: told.unwrap_or(text),
        },
        Err(error) => error.into(),
    }
}

// The text with a tip, if there is one.
fn told_with_tip(
    alloc: Global,
    text: &str,
    error: &Error,
    words: &[String],
    commands: &[Usage],
) -> Result<Option<String>, AllocError>
    ensures tipped { IfOk result (λ o. IfSome o (λ s. (tip : Text) × IsTipped tip text.now s.bytes.items)) }
    ensures due { (tip : Text) → IsDue (kind_of error.now) (map (λ w. w.bytes.items) words.now) text.now tip → Has usage_mark text.now → IfOk result (λ o. IsSomeAnd o (λ s. IsTipped tip text.now s.bytes.items)) }
{
    let Some(tip) = tip_for(alloc, text, error, words, commands)? else {
        return Ok(None);
    };
    let Some((message, usage)) = text.split_once("\n\nUsage:") else {
        return Ok(None);
    };
    let said = without_tip(message);
    let text = format!(in alloc; "{said}\n\n  tip: {tip}\n\nUsage:{usage}")?;
    Ok(Some(text))
}

// What is said before a tip, or all of it if there is none.
fn without_tip(message: &str) -> &str
    ensures { (own : Text) × IsOwnTip result.now own × (message.now ≡ result.now ++ own) }
{
    match message.split_once("\n\n  tip:") {
        Some((said, _)) => said,
        None => message,
    }
}

fn tip_for(
    alloc: Global,
    text: &str,
    error: &Error,
    words: &[String],
    commands: &[Usage],
) -> Result<Option<String>, AllocError>
    ensures { (tip : Text) → IsDue (kind_of error.now) (map (λ w. w.bytes.items) words.now) text.now tip → IfOk result (λ o. IsSomeAnd o (λ s. s.bytes.items ≡ tip)) }
{
    match error.kind() {
        ErrorKind::InvalidSubcommand => tip_of_command(alloc, quoted(text)),
        ErrorKind::UnknownArgument => tip_of_argument(alloc, text, words, commands),
        ErrorKind::MissingRequiredArgument if has_empty_set(words) => {
            Ok(Some(String::from_str(alloc, EMPTY_SET)?))
        }
        _ => Ok(None),
    }
}

/// How regions are given.
pub const SET_TIP: &str = "regions are given by '--set', as in '--set 1,2,5-9'";

/// Whether a word is written as regions are.
pub fn names_regions(word: &str) -> bool {
    let rest = word.trim_start_matches(|c: char| matches!(c, '0'..='9' | ',' | '-'));
    rest.is_empty() && word.starts_with(|c: char| c.is_ascii_digit())
}

const EMPTY_SET: &str = "behind '--set' come regions, as in '--set 1,2,5-9', and then the files";

// What other programs call a command.
const COMMANDS: [(&str, &str); 12] = [
    ("diff", "same"),
    ("cmp", "same"),
    ("compare", "same"),
    ("run", "trace"),
    ("replay", "trace"),
    ("collect", "pause"),
    ("gc", "pause"),
    ("dump", "print"),
    ("cat", "print"),
    ("verify", "check"),
    ("path", "why"),
    ("load", "make"),
];

fn tip_of_command(alloc: Global, word: &str) -> Result<Option<String>, AllocError>
    ensures { (tip : Text) → IsCommandTip word.now tip → IfOk result (λ o. IsSomeAnd o (λ s. s.bytes.items ≡ tip)) }
{
    if let Some(command) = command_among(&COMMANDS, word) {
        let tip = format!(in alloc; "the command for it is '{command}'")?;
        return Ok(Some(tip));
    }
    if word.contains('.') || word.contains('/') {
        let tip = format!(in alloc; "a command comes before a file, as in 'show {word}'")?;
        return Ok(Some(tip));
    }
    Ok(None)
}

// The command that has this name among those of other programs.
fn command_among(names: &[(&'static str, &'static str)], word: &str) -> Option<&'static str>
    ensures { option_map (λ c. c.now) result ≡ option_map (λ n. n.1) (named_among (map (λ n. (n.0.now, n.1.now)) names.now) word.now) }
{
    for (other, command) in names {
        if word == *other {
            return Some(*command);
        }
    }
    None
}

// What stands between the first two quotes of a text.
fn quoted(text: &str) -> &str
    ensures { (word : Text) → QuotesFirst text.now word → result.now ≡ word }
{
    let (_, behind) = text.split_once('\'').unwrap_or(("", ""));
    let (word, _) = behind.split_once('\'').unwrap_or(("", ""));
    word
}

// The tip for an argument that a command doesn't have.
fn tip_of_argument(
    alloc: Global,
    text: &str,
    words: &[String],
    commands: &[Usage],
) -> Result<Option<String>, AllocError> {
    let argument = quoted(text);
    let command = match words.first() {
        Some(word) => word.as_str(),
        None => "",
    };
    match argument.strip_prefix('-') {
        None => tip_of_word(alloc, argument, words, command, commands),
        Some(rest) if names_regions(rest) => Ok(Some(String::from_str(alloc, SIGN)?)),
        Some(_) => tip_of_option(alloc, text, argument, command, commands),
    }
}

const SIGN: &str = "a number begins with a digit";

// What a number may be that a command has no place for: the option by which it is given, where the command has that.
const NUMBERS: [(&str, &str); 4] = [
    ("--set", SET_TIP),
    (
        "--budget",
        "a budget is given by '--budget', as in '--budget 1000'",
    ),
    (
        "--sizes",
        "sizes are given by '--sizes', as in '--sizes 4096,64,512'",
    ),
    (
        "--object",
        "an object is given by '--object', and a region by '--region'",
    ),
];

// The commands whose answer is an image.
const MAKERS: [&str; 3] = ["pause", "make", "convert"];

// The tip for a word that is no option: a number, a file behind one, or a file to write.
fn tip_of_word(
    alloc: Global,
    word: &str,
    words: &[String],
    command: &str,
    commands: &[Usage],
) -> Result<Option<String>, AllocError> {
    if names_regions(word) || has_bare_number(words) {
        for (option, tip) in NUMBERS {
            if takes(commands, command, option) {
                return Ok(Some(String::from_str(alloc, tip)?));
            }
        }
    }
    if !MAKERS.contains(&command) {
        return Ok(None);
    }
    let tip = format!(in alloc; "the file to write is given by '-o', as in '-o {word}'")?;
    Ok(Some(tip))
}

// Whether a word is written as numbers are, and stands behind no option whose value it may be.
fn has_bare_number(words: &[String]) -> bool {
    let mut is_value = false;
    for word in words {
        let word = word.as_str();
        if !is_value && names_regions(word) {
            return true;
        }
        is_value = word.starts_with('-') && !word.contains('=');
    }
    false
}

// What the option of regions is called by mistake.
const REGION_OPTIONS: [&str; 3] = ["--region", "--regions", "--collect"];

// What other programs have, and how it is had here.
const OPTIONS: [(&str, &str); 4] = [
    ("-q", QUIET),
    ("--quiet", QUIET),
    ("--silent", QUIET),
    ("--fields", "only tools/hprof2image.py lists fields"),
];

const QUIET: &str = "the status answers, too: '> /dev/null' leaves the lines out";

// The tip for an option. Where clap knows a similar one, its own tip is kept.
fn tip_of_option(
    alloc: Global,
    text: &str,
    option: &str,
    command: &str,
    commands: &[Usage],
) -> Result<Option<String>, AllocError> {
    if REGION_OPTIONS.contains(&option) && takes(commands, command, "--set") {
        return Ok(Some(String::from_str(alloc, SET_TIP)?));
    }
    for (other, tip) in OPTIONS {
        if option == other {
            return Ok(Some(String::from_str(alloc, tip)?));
        }
    }
    let owners = owners(alloc, option, commands)?;
    if owners.is_some() || text.split_once("tip: a similar").is_some() {
        return Ok(owners);
    }
    Ok(Some(help_tip(alloc, command, commands)?))
}

fn help_tip(alloc: Global, command: &str, commands: &[Usage]) -> Result<String, AllocError> {
    for usage in commands {
        if usage.name == command {
            return format!(in alloc; "'{NAME} {command} --help' lists the options");
        }
    }
    format!(in alloc; "'{NAME} --help' lists the commands")
}

fn takes(commands: &[Usage], name: &str, option: &str) -> bool {
    for usage in commands {
        if usage.name == name && has_option(usage, option) {
            return true;
        }
    }
    false
}

fn has_option(usage: &Usage, option: &str) -> bool {
    for argument in usage.arguments {
        if is_option(argument, option) {
            return true;
        }
    }
    false
}

fn is_option(argument: &Argument, option: &str) -> bool {
    if matches!(argument.form, Form::Place | Form::ManyPlaces) {
        return false;
    }
    if let Some(name) = option.strip_prefix("--") {
        return argument.id == name;
    }
    match (argument.letter, option.strip_prefix('-')) {
        (Some(letter), Some(rest)) => rest.chars().next() == Some(letter),
        _ => false,
    }
}

// Which commands have an option, if any has it.
fn owners(alloc: Global, option: &str, commands: &[Usage]) -> Result<Option<String>, AllocError> {
    let mut tip = format!(in alloc; "'{option}' is an option of ")?;
    let mut gap = "";
    for usage in commands {
        if has_option(usage, option) {
            write!(tip, "{gap}'{}'", usage.name)?;
            gap = ", ";
        }
    }
    Ok(if gap.is_empty() { None } else { Some(tip) })
}

// Whether '--set' stands before a word that is no region. The words that are its values are tied to it.
fn has_empty_set(words: &[String]) -> bool
    ensures { Contains (map (λ w. w.bytes.items) words.now) (codes "--set") → IsTrue result }
{
    for word in words {
        if word.as_str() == "--set" {
            return true;
        }
    }
    false
}
