//! Makes the public calls of the library by name, and calls the programs: the tests that are data.
//!
//! 1. A row is a text block in a file of data/: what it shows, a call with its options, what the call is given, and what
//!    it has to return (`rows`), or a program with its words, its streams and its files (`program_rows`). A new case is a
//!    row, and its line in stdout.
//! 2. `rows FILE ..` tries the rows of files, or of standard input if none is named, each with all its numbers of workers
//!    and chunks. Standard output has the verdict of each row, and what was found if it is another answer.
//! 3. `refused FILE ..` is for `tools/refuse_calls.py`, which refuses the calls memory: each is made until no request of
//!    it is left to refuse. Then standard output also counts the runs of each call.
//! 4. `calling` is the table of calls. `reading`, `cards`, `pricing`, `copying`, `placing`, `pausing`, `tracing`,
//!    `comparing` and `sharing` make them; `watch` keeps what the named one returned. A call is added there.
//! 5. Images are laid by `g1_testing`, never by the library's own writers (`parts`), and answers are compared as bytes.
#![tactic(auto)]

mod calling;
mod cards;
mod comparing;
mod copying;
mod given;
mod parts;
mod pausing;
mod placing;
mod pricing;
mod program_rows;
mod programs;
mod reading;
mod rows;
mod scene;
mod sharing;
mod tracing;
mod verdicts;
mod watch;

use crate::rows::judge;
use std::alloc::Global;
use std::io::{Read, Write};
use std::process::ExitCode;
use std::rt::Files;
use std::thread::Threads;
use std::{env, fs, io};

fn main(rt: HostRuntime) -> ExitCode {
    let alloc = rt.alloc();
    let Ok(words) = words(&rt, alloc) else {
        return ExitCode::FAILURE;
    };
    match run(
        &rt,
        alloc,
        words.as_slice(),
        &mut rt.stdin(),
        &mut rt.stdout(),
    ) {
        Ok(true) => ExitCode::SUCCESS,
        Ok(false) | Err(_) => ExitCode::FAILURE,
    }
}

/// The words after the program's name.
fn words(rt: &HostRuntime, alloc: Global) -> io::Result<Vec<String>> {
    Ok(env::args(rt)?.skip(1).collect::<Vec<String>>(alloc)?)
}

/// Does what the words say, and returns whether all is well.
fn run<T: Threads + Files + Sync, R: Read, W: Write>(
    rt: &T,
    alloc: Global,
    words: &[String],
    reader: &mut R,
    writer: &mut W,
) -> io::Result<bool> {
    let Some((first, names)) = words.split_first() else {
        return Ok(false);
    };
    let is_refused = first.as_str() == "refused";
    if !is_refused && first.as_str() != "rows" {
        return Ok(false);
    }
    let text = text_of(rt, alloc, names, reader)?;
    let verdicts = judge(rt, alloc, text.as_str(), is_refused)?;
    let are_good = verdicts.are_good();
    writer.write_all(verdicts.into_text()?.as_bytes())?;
    Ok(are_good)
}

/// The text of these files, or of the reader if there are none.
fn text_of<T: Files, R: Read>(
    rt: &T,
    alloc: Global,
    names: &[String],
    reader: &mut R,
) -> io::Result<String> {
    let mut text = String::new(alloc);
    if names.is_empty() {
        reader.read_to_string(&mut text)?;
    }
    for name in names {
        let mut file = fs::open(rt, name.as_str())?;
        file.read_to_string(&mut text)?;
        text.push_str("\n\n")?;
    }
    Ok(text)
}
