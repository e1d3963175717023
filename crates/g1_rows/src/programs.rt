//! The programs by their names: `g1pause`, `g1heap`, and `g1heap_at_terminal`, whose streams are a terminal.
//!
//! A program is called as its `main` calls it, over streams in memory, which go well unless the row says that they fail.
//! Its files are in the folder of the run, and so is a link that leads to a pipe, if a row names one: no row writes to a
//! device of the machine. If a row gives no standard input, the program must not read it: each of its reads fails, and is
//! reported.
use crate::rows::{Trial, push_shown};
use crate::scene::{Content, Devices, Scene, fits};
use g1_image::ToWriter;
use g1_testing::{Stream, Trouble};
use g1_words::{Device, Fault};
use g1heap_cli::{Heard, Terminals};
use std::alloc::{AllocError, Global};
use std::fs::File;
use std::io::{ErrorKind, Read, Write, pipe};
use std::os::fd::AsRawFd;
use std::os::unix::fs::symlink;
use std::rt::Files;
use std::thread::Threads;
use std::{fs, io, mem};

/// The names of the programs.
const NAMES: [&str; 3] = ["g1pause", "g1heap", "g1heap_at_terminal"];

/// What a program left: its status, standard output, what is on standard error, and what went into the pipe.
#[derive(Drop)]
struct Left {
    status: u8,
    writer: Stream,
    errors: Vec<u8>,
    piped: Vec<u8>,
}

/// Whether a program has this name.
pub(crate) fn is_program(name: &str) -> bool {
    NAMES.contains(&name)
}

/// Whether a program that is called by a line of its words leaves what the row expects. If it doesn't, `why` says what it
/// left.
///
/// # Errors
///
/// `Fault::Line` if a line is not understood; `Fault::Device` if a file cannot be written, read or removed; `Fault::Memory`.
pub(crate) fn is_so<R: Threads + Files + Sync>(
    trial: &Trial<'_, R>,
    line: &str,
    given: &str,
    expected: &str,
    why: &mut String,
) -> Result<bool, Fault> {
    let before = Scene::of_lines(trial.alloc, given)?;
    let after = Scene::of_lines(trial.alloc, expected)?;
    write_files(trial, before.files.as_slice())?;
    let is_so = are_runs_so(trial, line, &before, &after, why);
    remove_files(trial.rt, before.files.as_slice())?;
    remove_files(trial.rt, after.files.as_slice())?;
    is_so
}

fn write_files<R: Files>(trial: &Trial<'_, R>, files: &[Content]) -> Result<(), Fault> {
    for file in files {
        let bytes = file.bytes(trial.alloc, trial.pictures)?;
        done(write_file(trial.rt, file.name.as_str(), bytes.as_slice()))?;
    }
    Ok(())
}

fn write_file<R: Files>(rt: &R, name: &str, bytes: &[u8]) -> io::Result<()> {
    let mut file = File::create(rt, name)?;
    file.write_all(bytes)
}

fn done(attempt: io::Result<()>) -> Result<(), Fault> {
    match attempt {
        Ok(()) => Ok(()),
        Err(_) => Err(Fault::Device(Device::Output)),
    }
}

fn remove_files<R: Files>(rt: &R, files: &[Content]) -> Result<(), Fault> {
    for file in files {
        if fs::open(rt, file.name.as_str()).is_ok() {
            done(fs::remove_file(rt, file.name.as_str()))?;
        }
    }
    Ok(())
}

fn are_runs_so<R: Threads + Files + Sync>(
    trial: &Trial<'_, R>,
    line: &str,
    before: &Scene,
    after: &Scene,
    why: &mut String,
) -> Result<bool, Fault> {
    let input = before.stream.bytes(trial.alloc, trial.pictures)?;
    let wanted = after.stream.bytes(trial.alloc, trial.pictures)?;
    let last = match before.devices {
        Devices::EachRead => input.len(),
        Devices::EachWrite => wanted.len(),
        _ => 0,
    };
    for at in 0..=last {
        let left = left_by(trial, line, before, input.as_slice(), at)?;
        let taken = match before.devices {
            Devices::EachWrite => at,
            _ => usize::MAX,
        };
        let wanted = &wanted[..wanted.len().min(taken)];
        if !is_as_wanted(trial, &left, wanted, after, why)? {
            return Ok(false);
        }
    }
    Ok(true)
}

/// What a program leaves in a run; the stream that fails does so from the call of this number on.
fn left_by<R: Threads + Files + Sync>(
    trial: &Trial<'_, R>,
    line: &str,
    before: &Scene,
    input: &[u8],
    at: usize,
) -> Result<Left, Fault> {
    let mut left = Left {
        status: 0,
        writer: writer_of(trial.alloc, before.devices, at),
        errors: Vec::new(trial.alloc),
        piped: Vec::new(trial.alloc),
    };
    let mut reader = reader_of(input.to_vec(trial.alloc)?, before, at);
    if before.pipe.is_there {
        run_with_pipe(trial, line, before, &mut reader, &mut left)?;
    } else {
        run(trial, line, &mut reader, &mut left)?;
    }
    if before.is_closed() && reader.calls > 0 {
        left.errors.extend_from_slice(b"standard input was read\n")?;
    }
    Ok(left)
}

/// Runs a program while a name leads to a pipe, whose writer is then closed.
fn run_with_pipe<R: Threads + Files + Sync>(
    trial: &Trial<'_, R>,
    line: &str,
    before: &Scene,
    reader: &mut Stream,
    left: &mut Left,
) -> Result<(), Fault> {
    let name = before.pipe.name.as_str();
    let Ok((end, writer)) = pipe(trial.rt) else {
        return Err(Fault::Device(Device::Output));
    };
    let number = writer.as_raw_fd();
    let target = format!(in trial.alloc; "/proc/self/fd/{number}")?;
    done(symlink(trial.rt, target.as_str(), name))?;
    let read = if before.is_pipe_broken {
        drop(end);
        run(trial, line, reader, left)?;
        Ok(0)
    } else {
        run(trial, line, reader, left)?;
        drop(writer);
        let mut end = end;
        end.read_to_end(&mut left.piped)
    };
    done(fs::remove_file(trial.rt, name))?;
    match read {
        Ok(_) => Ok(()),
        Err(_) => Err(Fault::Device(Device::Input)),
    }
}

fn reader_of(input: Vec<u8>, before: &Scene, at: usize) -> Stream {
    match before.devices {
        Devices::EachRead => Stream::new(input, at, Trouble::Broken),
        Devices::EachWrite => Stream::new(input, usize::MAX, Trouble::Broken),
        _ if before.is_closed() => Stream::new(input, 0, Trouble::Broken),
        _ => Stream::of(input, usize::MAX),
    }
}

fn writer_of(alloc: Global, devices: Devices, at: usize) -> Stream {
    let bytes = Vec::new(alloc);
    match devices {
        Devices::EachRead => Stream::new(bytes, usize::MAX, Trouble::Broken),
        Devices::EachWrite => Stream::new(bytes, at, Trouble::Broken),
        Devices::Gone => Stream::of(bytes, 1).with_errors(1, ErrorKind::BrokenPipe),
        Devices::Well => Stream::of(bytes, usize::MAX),
    }
}

/// The words of a line behind the first one.
fn words_of(alloc: Global, line: &str) -> Result<Vec<String>, AllocError> {
    let mut words = Vec::new(alloc);
    for word in line.split(' ').skip(1) {
        words.push(String::from_str(alloc, word)?)?;
    }
    Ok(words)
}

fn run<R: Threads + Files + Sync>(
    trial: &Trial<'_, R>,
    line: &str,
    reader: &mut Stream,
    left: &mut Left,
) -> Result<(), AllocError> {
    let (rt, alloc) = (trial.rt, trial.alloc);
    let words = words_of(alloc, line)?;
    let words = words.as_slice();
    if line.starts_with("g1pause") {
        run_g1pause(trial, words, reader, left);
        return Ok(());
    }
    let is_at_terminal = line.starts_with("g1heap_at_terminal");
    let terminals = Terminals {
        input: is_at_terminal,
        output: is_at_terminal,
    };
    let call = g1heap_cli::Call { words, terminals };
    let unused = Stream::of(Vec::new(alloc), 0);
    let mut writer = Heard::new(mem::replace(&mut left.writer, unused));
    let errors = &mut left.errors;
    left.status = g1heap_cli::program(rt, alloc, call, reader, &mut writer, errors).status;
    if let Some(stream) = writer.into_inner() {
        left.writer = stream;
    }
    Ok(())
}

/// A program is given a sink that owns its writer: so the stream is moved into it, and back.
fn run_g1pause<R: Threads + Files + Sync>(
    trial: &Trial<'_, R>,
    words: &[String],
    reader: &mut Stream,
    left: &mut Left,
) {
    let (rt, alloc) = (trial.rt, trial.alloc);
    let unused = Stream::of(Vec::new(alloc), 0);
    let mut sink = ToWriter::new(mem::replace(&mut left.writer, unused));
    let errors = &mut left.errors;
    left.status = g1pause_cli::program(rt, alloc, words, reader, &mut sink, errors).status;
    left.writer = sink.into_inner();
}

/// Whether a program left these bytes on standard output, and else what it has to leave.
fn is_as_wanted<R: Files>(
    trial: &Trial<'_, R>,
    left: &Left,
    wanted: &[u8],
    after: &Scene,
    why: &mut String,
) -> Result<bool, Fault> {
    let errors = left.errors.as_slice();
    let is_told = if after.is_usage {
        errors.starts_with(b"error: ")
    } else {
        fits(errors, after.errors.as_slice())
    };
    if left.status != after.status || !is_told || !fits(left.writer.bytes.as_slice(), wanted) {
        push_left(why, left)?;
        return Ok(false);
    }
    if left.piped.as_slice() != after.pipe.bytes(trial.alloc, trial.pictures)?.as_slice() {
        why.push_str("into the pipe went\n")?;
        push_shown(why, left.piped.as_slice())?;
        return Ok(false);
    }
    for file in after.files.iter() {
        if !is_as_expected(trial, file)? {
            write!(why, "the file {} is another one\n", file.name)?;
            return Ok(false);
        }
    }
    Ok(true)
}

fn is_as_expected<R: Files>(trial: &Trial<'_, R>, file: &Content) -> Result<bool, Fault> {
    let wanted = file.bytes(trial.alloc, trial.pictures)?;
    match read_file(trial.rt, trial.alloc, file.name.as_str()) {
        Ok(bytes) => Ok(file.is_there && bytes.as_slice() == wanted.as_slice()),
        Err(_) => Ok(!file.is_there),
    }
}

fn read_file<R: Files>(rt: &R, alloc: Global, name: &str) -> io::Result<Vec<u8>> {
    let mut file = fs::open(rt, name)?;
    let mut bytes = Vec::new(alloc);
    file.read_to_end(&mut bytes)?;
    Ok(bytes)
}

fn push_left(text: &mut String, left: &Left) -> Result<(), AllocError> {
    write!(text, "it left status {}, standard error\n", left.status)?;
    push_shown(text, left.errors.as_slice())?;
    text.push_str("and standard output\n")?;
    push_shown(text, left.writer.bytes.as_slice())
}
