//! The rows of the programs: `# WHAT IT SHOWS`, a line `PROGRAM WORD ..`, what the program is given, a line `----`, and
//! what it has to leave (`scene`).
//!
//! - If there are several lines `PROGRAM WORD ..`, each of them has to leave the same.
//! - In a row of many cases each line below `----` is `WORD .. => ANSWER`, for further words, or `PART => ANSWER`, for
//!   what is on standard input: a `text`, an `image`, or bytes as `raw` or `hex`.
use crate::parts::{BAD, first_word, push_line};
use crate::programs::{is_program, is_so};
use crate::rows::{Trial, first_line};
use g1_words::Fault;
use std::alloc::{AllocError, Global};
use std::rt::Files;
use std::thread::Threads;

/// Whether the lines of a row begin with a program.
pub(crate) fn is_run(body: &str) -> bool {
    is_program(first_word(first_line(body)))
}

/// What a program left, if it is not what the row expects.
///
/// # Errors
///
/// `Fault::Line` if a line is not understood; `Fault::Device` if a file cannot be written, read or removed; `Fault::Memory`.
pub(crate) fn first_miss<R: Threads + Files + Sync>(
    trial: &Trial<'_, R>,
    body: &str,
) -> Result<Option<String>, Fault> {
    let (above, expected) = body.split_once("----\n").ok_or(BAD)?;
    if expected.is_empty() {
        return Err(BAD);
    }
    let given = without_runs(trial.alloc, above)?;
    for line in above.split('\n') {
        if is_program(first_word(line)) {
            let miss = miss_of_cases(trial, line, given.as_str(), expected)?;
            if miss.is_some() {
                return Ok(miss);
            }
        }
    }
    Ok(None)
}

fn without_runs(alloc: Global, above: &str) -> Result<String, AllocError> {
    let mut given = String::new(alloc);
    for line in above.split('\n') {
        if !is_program(first_word(line)) {
            push_line(&mut given, line)?;
        }
    }
    Ok(given)
}

/// What a program left in the first of its cases that is not as expected.
fn miss_of_cases<R: Threads + Files + Sync>(
    trial: &Trial<'_, R>,
    line: &str,
    given: &str,
    expected: &str,
) -> Result<Option<String>, Fault> {
    if !expected.contains(" => ") {
        return miss_text(trial, line, given, expected);
    }
    for case in expected.trim_end_matches('\n').split('\n') {
        let miss = miss_of_case(trial, line, given, case)?;
        if miss.is_some() {
            return Ok(miss);
        }
    }
    Ok(None)
}

/// What a program left in the case of a line below `----`, if it is not as expected.
fn miss_of_case<R: Threads + Files + Sync>(
    trial: &Trial<'_, R>,
    line: &str,
    given: &str,
    case: &str,
) -> Result<Option<String>, Fault> {
    let (left, expected) = case.split_once(" => ").ok_or(BAD)?;
    if matches!(first_word(left), "text" | "image" | "raw" | "hex") {
        let given = format!(in trial.alloc; "{given}stdin\n{left}\n")?;
        return miss_text(trial, line, given.as_str(), expected);
    }
    let line = format!(in trial.alloc; "{line} {left}")?;
    miss_text(trial, line.as_str(), given, expected)
}

fn miss_text<R: Threads + Files + Sync>(
    trial: &Trial<'_, R>,
    line: &str,
    given: &str,
    expected: &str,
) -> Result<Option<String>, Fault> {
    let mut text = format!(in trial.alloc; "{line}\n")?;
    if is_so(trial, line, given, expected, &mut text)? {
        return Ok(None);
    }
    let expected = expected.trim_end_matches('\n');
    write!(text, "in place of\n{expected}\n")?;
    Ok(Some(text))
}
