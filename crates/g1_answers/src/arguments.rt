//! The options of the commands that both programs have, beside those of a pause's cost.
ghost use Rattle.std.specs.Prelude.{IfOk, IfErr};
ghost use Rattle.clap.specs.Words.{found_of, rows_of};
ghost use Rattle.g1_command.specs.Values.{Because};
ghost use Rattle.g1_answers.specs.Asked.{IsSharingOf, HasNoNumberOf, sharing_options};

use crate::question::Sharing;
use clap::ArgMatches;
use g1_command::{Argument, BUDGET, FLAG, Form, Misuse, VALUE, required_number};
use std::alloc::Global;

/// How many workers there are.
pub const WORKERS: Argument = Argument {
    id: "workers",
    default: &["1"],
    help: "How many workers share the work, 1 to 64",
    range: "1 to 64",
    ..VALUE
};

/// How many items a worker draws at once. What an item is depends on the command.
pub const CHUNK: Argument = Argument {
    id: "chunk",
    default: &["64"],
    help: "How many roots, cards or objects a worker draws at once, 1 to 65536",
    range: "1 to 65536",
    ..VALUE
};

/// The chunk of a command that searches for objects alone.
pub const CHUNK_OF_OBJECTS: Argument = Argument {
    help: "How many roots or objects a worker draws at once, 1 to 65536",
    ..CHUNK
};

/// The chunk of a command that lists regions.
pub const CHUNK_OF_REGIONS: Argument = Argument {
    help: "How many regions a worker draws at once, 1 to 65536",
    ..CHUNK
};

/// Whether the image itself is wanted.
pub const REPACK: Argument = Argument {
    id: "repack",
    help: "Writes the image's bytes, in version 2, instead of the table",
    ..FLAG
};

/// What a pause may cost, where that has to be given.
pub const NEEDED_BUDGET: Argument = Argument {
    form: Form::NeededValue,
    ..BUDGET
};

// Statics: a constant is checked again in each function that uses it.
static TEAM: [Argument; 2] = [WORKERS, CHUNK];

/// How the work is shared, as `WORKERS` and `CHUNK` give it.
pub fn sharing_of(alloc: Global, values: &ArgMatches<'_>) -> Result<Sharing, Misuse>
    ensures sharing { IfOk result (IsSharingOf (rows_of (found_of values.now))) }
    ensures refused { IfErr result (Because (HasNoNumberOf sharing_options (rows_of (found_of values.now)))) }
{
    let [workers, chunk] = &TEAM;
    Ok(Sharing {
        workers: required_number(alloc, values, workers)?,
        chunk: required_number(alloc, values, chunk)?,
    })
}
