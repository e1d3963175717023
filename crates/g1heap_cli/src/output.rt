//! An answer that goes into a file.
ghost use Rattle.std.specs.Prelude.{IfErr};
ghost use Rattle.g1heap_cli.specs.Refuses.{CantWrite, IsUnwritten};

use crate::refusal::{no_free_name, of_device, unwritable};
use g1_command::Refusal;
use g1_words::{Device, Fault};
use std::alloc::Global;
use std::fs::{File, OpenOptions};
use std::io::{ErrorKind, Write};
use std::rt::Files;
use std::{fs, io};

/// Writes an answer to a file. It is written beside the file, and gets the file's name when it is whole, so
/// that no failure leaves a part of an answer or takes away what the file was before. What is no file, as a
/// device or a pipe, is written where it is.
pub fn write_file<T: Files>(rt: &T, alloc: Global, name: &str, answer: &[u8]) -> Result<(), Refusal>
    ensures { IfErr result (IsUnwritten name.now) }
{
    match fs::metadata(rt, name) {
        Ok(found) if !found.is_file() => {
            let device = OpenOptions::new().write(true).open(rt, name);
            write_whole(alloc, name, device, answer)
        }
        _ => replace(rt, alloc, name, answer),
    }
}

// Writes an answer for the file of this name to what was opened.
fn write_whole<F: Write + Drop>(
    alloc: Global,
    name: &str,
    opened: io::Result<F>,
    answer: &[u8],
) -> Result<(), Refusal>
    ensures { IfErr result (IsUnwritten name.now) }
{
    let mut file = check_done(alloc, name, opened)?;
    match file.write_all(answer) {
        Ok(()) => Ok(()),
        Err(error) => {
            let fault = Fault::Device(Device::Output);
            Err(of_device(alloc, name, fault, Some(error)))
        }
    }
}

fn replace<T: Files>(rt: &T, alloc: Global, name: &str, answer: &[u8]) -> Result<(), Refusal>
    ensures { IfErr result (IsUnwritten name.now) }
{
    let beside = free_name(rt, alloc, name)?;
    let done = write_beside(rt, alloc, name, beside.as_str(), answer);
    if done.is_err() {
        let _ = fs::remove_file(rt, beside.as_str());
    }
    done
}

fn write_beside<T: Files>(
    rt: &T,
    alloc: Global,
    name: &str,
    beside: &str,
    answer: &[u8],
) -> Result<(), Refusal>
    ensures { IfErr result (IsUnwritten name.now) }
{
    write_whole(alloc, name, File::create(rt, beside), answer)?;
    check_done(alloc, name, fs::rename(rt, beside, name))
}

// How many names are tried.
const TRIED: u32 = 100;

// A name beside the file's that no file has. The file of this name is made, so that nobody else takes it.
fn free_name<T: Files>(rt: &T, alloc: Global, name: &str) -> Result<String, Refusal>
    ensures { IfErr result (CantWrite name.now) }
{
    for number in 1..TRIED {
        let beside = format!(in alloc; "{name}.part{number}")?;
        match File::create_new(rt, beside.as_str()) {
            Ok(_) => return Ok(beside),
            Err(error) => {
                if error.kind() != ErrorKind::AlreadyExists {
                    return Err(failure(alloc, name, &error));
                }
            }
        }
    }
    Err(no_free_name(alloc, name))
}

fn failure(alloc: Global, name: &str, error: &io::Error) -> Refusal
    ensures { CantWrite name.now result }
{
    if error.kind() == ErrorKind::OutOfMemory {
        return Fault::Memory.into();
    }
    unwritable(alloc, name, error)
}

// What was opened or renamed for the file of this name.
fn check_done<V: Drop>(alloc: Global, name: &str, done: io::Result<V>) -> Result<V, Refusal>
    ensures { IfErr result (CantWrite name.now) }
{
    match done {
        Ok(value) => Ok(value),
        Err(error) => Err(failure(alloc, name, &error)),
    }
}
