//! Rows: blocks of text with an empty line between them. A block is one of these:
//!
//! - a row: a line `# WHAT IT SHOWS`, a line `CALL OPTION ..`, what the call is given, a line `----`, and
//!   what it has to return (`parts`), where `given` stands for what it was given;
//! - a row of many cases: below its `----` each line is `OPTION .. => ANSWER`, for one more option, or
//!   `text TEXT => ANSWER`, for a text that the call is given, behind the one above the `----` if there is one;
//! - a row of a trace: `# WHAT IT SHOWS`, `CALL OPTION ..`, `trace`, and lines `COMMAND [REPLY]`;
//! - a row of a program (`program_rows`);
//! - an image that rows may name: `image NAME`, and its lines, or other parts;
//! - a remark: all its lines begin with `#`.
//!
//! In a row each further line that begins with `#` is a remark too. `CALL,CALL` stands for two calls that
//! have to return the same, `workers 1 8` for few and for many workers, and `chunk 1 64` for small and for
//! large chunks: all of them are tried.
use crate::calling::answer;
use crate::given::Given;
use crate::parts::{BAD, Picture, join, parts_of, picture_of, push_line, trace_of};
use crate::program_rows;
use crate::verdicts::Verdicts;
use g1_testing::is_refusal;
use g1_words::Fault;
use std::alloc::{AllocError, Global};
use std::rt::Files;
use std::thread::Threads;

/// What rows are tried with: the images that they name, and whether a script refuses their calls memory.
#[derive(Drop)]
pub(crate) struct Trial<'a, R> {
    pub(crate) rt: &'a R,
    pub(crate) alloc: Global,
    pub(crate) pictures: &'a [Picture],
    is_refused: bool,
}

/// What a row's calls are given, and what they have to return.
#[derive(Drop)]
struct Case {
    given: Given,
    expected: Vec<u8>,
}

/// Tries each row of a text. The images of all its blocks are drawn first.
pub(crate) fn judge<R: Threads + Files + Sync>(
    rt: &R,
    alloc: Global,
    text: &str,
    is_refused: bool,
) -> Result<Verdicts, AllocError> {
    let mut verdicts = Verdicts::new(alloc);
    let mut pictures = Vec::new(alloc);
    draw_all(alloc, text, &mut pictures, &mut verdicts)?;
    let trial = Trial {
        rt,
        alloc,
        pictures: pictures.as_slice(),
        is_refused,
    };
    for block in text.split("\n\n") {
        let block = block.trim_matches('\n');
        if !is_remark(block) && !block.starts_with("image ") {
            judge_row(&trial, block, &mut verdicts)?;
        }
    }
    Ok(verdicts)
}

fn is_remark(block: &str) -> bool {
    for line in block.split('\n') {
        if !line.is_empty() && !line.starts_with('#') {
            return false;
        }
    }
    true
}

/// Adds the images that blocks of a text draw.
fn draw_all(
    alloc: Global,
    text: &str,
    pictures: &mut Vec<Picture>,
    verdicts: &mut Verdicts,
) -> Result<(), AllocError> {
    for block in text.split("\n\n") {
        let block = block.trim_matches('\n');
        if let Some(rest) = block.strip_prefix("image ") {
            match draw(alloc, rest, pictures) {
                Ok(()) => {}
                Err(Fault::Memory) => return Err(AllocError),
                Err(_) => verdicts.fail(first_line(block), "it draws no image with a new name\n")?,
            }
        }
    }
    Ok(())
}

/// Adds the image of a name and its lines. No other has the name.
fn draw(alloc: Global, block: &str, pictures: &mut Vec<Picture>) -> Result<(), Fault> {
    let (name, lines) = block.split_once('\n').ok_or(BAD)?;
    if picture_of(pictures, name).is_some() {
        return Err(BAD);
    }
    let bytes = join(alloc, parts_of(alloc, lines, pictures)?.as_slice())?;
    let name = String::from_str(alloc, name)?;
    Ok(pictures.push(Picture { name, bytes })?)
}

pub(crate) fn first_line(block: &str) -> &str {
    block.split_once('\n').unwrap_or((block, "")).0
}

fn judge_row<R: Threads + Files + Sync>(
    trial: &Trial<'_, R>,
    block: &str,
    verdicts: &mut Verdicts,
) -> Result<(), AllocError> {
    let shows = first_line(block).trim_start_matches("# ");
    match why_not(trial, block, verdicts) {
        Ok(None) => verdicts.pass(shows),
        Ok(Some(why)) => verdicts.fail(shows, why.as_str()),
        Err(Fault::Memory) => Err(AllocError),
        Err(_) => verdicts.fail(shows, "it is not understood\n"),
    }
}

/// What a call of a row returned, if it is not what the row expects.
fn why_not<R: Threads + Files + Sync>(
    trial: &Trial<'_, R>,
    block: &str,
    verdicts: &mut Verdicts,
) -> Result<Option<String>, Fault> {
    if !block.starts_with("# ") {
        return Err(BAD);
    }
    let body = without_remarks(trial.alloc, block)?;
    if program_rows::is_run(body.as_str()) {
        return program_rows::first_miss(trial, body.as_str());
    }
    let (call, rest) = body.as_str().split_once('\n').ok_or(BAD)?;
    let (names, options) = call.split_once(' ').unwrap_or((call, ""));
    let cases = cases_of(trial, options, rest)?;
    for name in names.split(',') {
        for case in &cases {
            if let Some(miss) = miss_of(trial, name, case, verdicts)? {
                return Ok(Some(miss));
            }
        }
    }
    Ok(None)
}

/// What a call returned to the first team to which it is not what the case expects. A team is how many workers there are,
/// and the size of a chunk: each with each.
fn miss_of<R: Threads + Sync>(
    trial: &Trial<'_, R>,
    name: &str,
    case: &Case,
    verdicts: &mut Verdicts,
) -> Result<Option<String>, AllocError> {
    for workers in one_at_least(case.given.numbers("workers"), &[1]) {
        for chunk in one_at_least(case.given.numbers("chunk"), &[64]) {
            let miss = miss_of_team(trial, name, case, (*workers, *chunk), verdicts)?;
            if miss.is_some() {
                return Ok(miss);
            }
        }
    }
    Ok(None)
}

fn one_at_least<'a>(numbers: &'a [u64], other: &'a [u64]) -> &'a [u64] {
    if numbers.is_empty() { other } else { numbers }
}

/// No call asks for memory more often in one run.
const MOST_RUNS: u32 = 1_000_000;

/// What a call returned to a team, if it is not what the case expects. If requests are refused, all from the Nth on are, and
/// then the Nth alone, for N from 1 until a run meets no refusal; before that none is.
fn miss_of_team<R: Threads + Sync>(
    trial: &Trial<'_, R>,
    name: &str,
    case: &Case,
    team: (u64, u64),
    verdicts: &mut Verdicts,
) -> Result<Option<String>, AllocError> {
    let mut rounds: u32 = if trial.is_refused { 3 } else { 1 };
    for _run in 0..MOST_RUNS {
        let found = answer(trial.rt, trial.alloc, name, &case.given, team)?;
        let is_same = found.bytes.as_slice() == case.expected.as_slice();
        let part = case.given.part(0);
        let is_memory = found.is_refused && is_refusal(name, &found.bytes, &case.expected, part);
        if !is_same && !is_memory {
            return Ok(Some(miss_text(trial.alloc, name, case, team, &found.bytes)?));
        }
        if trial.is_refused {
            verdicts.count(trial.alloc, name, found.is_refused, !is_same)?;
        }
        rounds = rounds.saturating_sub(u32::from(!found.is_refused));
        if rounds == 0 {
            return Ok(None);
        }
    }
    Ok(Some(String::from_str(trial.alloc, "its runs do not end\n")?))
}

fn miss_text(
    alloc: Global,
    name: &str,
    case: &Case,
    team: (u64, u64),
    found: &[u8],
) -> Result<String, AllocError> {
    let mut miss = String::from_str(alloc, name)?;
    case.given.push_shown(&mut miss)?;
    let (workers, chunk) = team;
    write!(
        miss,
        "\nby {workers} workers in chunks of {chunk} it returned\n"
    )?;
    push_shown(&mut miss, found)?;
    miss.push_str("in place of\n")?;
    push_shown(&mut miss, &case.expected)?;
    Ok(miss)
}

/// Adds bytes as they are if they are lines of text, else as hexadecimal.
pub(crate) fn push_shown(text: &mut String, bytes: &[u8]) -> Result<(), AllocError> {
    for byte in bytes {
        if *byte != b'\n' && *byte != b' ' && !byte.is_ascii_graphic() {
            return push_digits(text, bytes);
        }
    }
    match str::from_utf8(bytes) {
        Ok(lines) => text.push_str(lines),
        Err(_) => push_digits(text, bytes),
    }
}

fn push_digits(text: &mut String, bytes: &[u8]) -> Result<(), AllocError> {
    text.push_str("hex")?;
    for (place, byte) in bytes.iter().enumerate() {
        let gap = if place % 4 == 0 { " " } else { "" };
        write!(text, "{gap}{byte:02x}")?;
    }
    text.push_str("\n")
}

fn without_remarks(alloc: Global, block: &str) -> Result<String, AllocError> {
    let mut body = String::new(alloc);
    for line in block.split('\n') {
        if !line.starts_with('#') {
            push_line(&mut body, line)?;
        }
    }
    Ok(body)
}

/// The cases of a row with these options, out of the lines below its call, of which none is a remark.
///
/// # Errors
///
/// `Fault::Line` if a line is not understood; `Fault::Memory`.
fn cases_of<R>(trial: &Trial<'_, R>, options: &str, rest: &str) -> Result<Vec<Case>, Fault> {
    let options = Given::of_words(trial.alloc, options)?;
    match rest.strip_prefix("trace\n") {
        Some(lines) => trace_case(trial.alloc, &options, lines),
        None => cases_with(trial, &options, rest),
    }
}

fn trace_case(alloc: Global, options: &Given, lines: &str) -> Result<Vec<Case>, Fault> {
    let (commands, expected) = trace_of(alloc, lines)?;
    let given = options.with(alloc, &[commands])?;
    Ok(Vec::from_array(alloc, [Case { given, expected }])?)
}

/// The cases with these options, out of the parts and the answers.
fn cases_with<R>(trial: &Trial<'_, R>, options: &Given, rest: &str) -> Result<Vec<Case>, Fault> {
    let (lines, expected) = rest.split_once("----\n").ok_or(BAD)?;
    let parts = parts_of(trial.alloc, lines, trial.pictures)?;
    let mut cases = Vec::new(trial.alloc);
    if !expected.contains(" => ") {
        cases.push(case_of(trial, options, parts.as_slice(), expected)?)?;
        return Ok(cases);
    }
    for line in expected.trim_end_matches('\n').split('\n') {
        cases.push(line_case(trial, options, parts.as_slice(), line)?)?;
    }
    Ok(cases)
}

/// The case of these options and parts.
fn case_of<R>(
    trial: &Trial<'_, R>,
    options: &Given,
    parts: &[Vec<u8>],
    expected: &str,
) -> Result<Case, Fault> {
    let given = options.with(trial.alloc, parts)?;
    let expected = expected_of(trial, expected, &given)?;
    Ok(Case { given, expected })
}

/// The case of a line `OPTION .. => ANSWER` or `text TEXT => ANSWER`. The text goes on behind the parts.
fn line_case<R>(
    trial: &Trial<'_, R>,
    options: &Given,
    parts: &[Vec<u8>],
    line: &str,
) -> Result<Case, Fault> {
    let (left, right) = line.split_once(" => ").ok_or(BAD)?;
    if left.starts_with("text ") {
        let mut text = join(trial.alloc, parts)?;
        let rest = parts_of(trial.alloc, left, trial.pictures)?;
        text.extend_from_slice(join(trial.alloc, rest.as_slice())?.as_slice())?;
        return case_of(trial, options, &[text], right);
    }
    let mut options = options.with(trial.alloc, &[])?;
    options.push_words(trial.alloc, left)?;
    case_of(trial, &options, parts, right)
}

/// The bytes of an answer. There are some.
fn expected_of<R>(trial: &Trial<'_, R>, lines: &str, given: &Given) -> Result<Vec<u8>, Fault> {
    let mut expected = Vec::new(trial.alloc);
    for part in parts_of(trial.alloc, lines, trial.pictures)? {
        if part.as_slice() == b"given\n".as_slice() {
            let same = join(trial.alloc, given.parts.as_slice())?;
            expected.extend_from_slice(same.as_slice())?;
        } else {
            expected.extend_from_slice(part.as_slice())?;
        }
    }
    if expected.is_empty() {
        return Err(BAD);
    }
    Ok(expected)
}
