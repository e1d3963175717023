//! The commands and their arguments, and what help says of them.
ghost use Rattle.std.specs.Prelude.{◌≡◌, codes};
ghost use Rattle.std.specs.List.{fold};
ghost use Rattle.g1_command.specs.Table.{with_command, no_command};
ghost use Rattle.g1pause_cli.specs.Options.{g1pause};

use g1_answers::{CHUNK, CHUNK_OF_OBJECTS, CHUNK_OF_REGIONS, NEEDED_BUDGET, REPACK, WORKERS};
use g1_command::{Argument, BUDGET, BYTE, CARD, DIRTY, FIXED, Form, Program, Usage, VALUE};

/// The program's name.
pub const NAME: &str = "g1pause";

const AFTER_ALL: &str = "\
Statuses:
  0  done
  2  wrong words, a number out of its range, or a wrong line of a trace
  3  the input is no image
  4  a slot of the image is not covered
  5  a region that cannot be collected, or no room for the survivors
  6  no memory, or a read or a write that failed

Example: g1pause show < IMAGE";

/// The program, whose commands these are.
pub fn program(commands: &[Usage]) -> Program<'_>
    ensures name { result.name.now ≡ codes "g1pause" }
    ensures commands { result.commands ≡ commands.entry }
{
    Program {
        name: NAME,
        version: "1.0.0",
        about: "Runs Garbage-First evacuation pauses on heap images",
        after_help: AFTER_ALL,
        commands,
    }
}

/// The commands. Each is a static, since the check of all as one takes too many steps.
pub fn commands() -> [Usage; 6]
    ensures { fold with_command (no_command (codes "g1pause")) result ≡ g1pause }
{
    [SHOW, CHECK, LIVE, CHOOSE, PAUSE, RUN]
}

static SHOW: Usage = Usage {
    name: "show",
    about: "Prints the regions of the image on standard input",
    after_help: "\
Statuses:
  0  done
  2  wrong words, or a number out of its range
  3  the input is no image
  6  no memory, or a read or a write that failed

Example: g1pause show < IMAGE",
    arguments: &[WORKERS, CHUNK_OF_REGIONS, REPACK],
};

static CHECK: Usage = Usage {
    name: "check",
    about: "Reports whether every reference into another region is covered",
    after_help: "\
Statuses:
  0  covered
  2  wrong words
  3  the input is no image
  4  a slot is not covered
  6  no memory, or a read or a write that failed

Example: g1pause check < IMAGE",
    arguments: &[],
};

static LIVE: Usage = Usage {
    name: "live",
    about: "Prints the live bytes of each region",
    after_help: "\
Statuses:
  0  done
  2  wrong words, or a number out of its range
  3  the input is no image
  6  no memory, or a read or a write that failed

Example: g1pause live < IMAGE",
    arguments: &[WORKERS, CHUNK_OF_OBJECTS],
};

static CHOOSE: Usage = Usage {
    name: "choose",
    about: "Prints the candidates in order, and which of them the budget buys",
    after_help: "\
Statuses:
  0  done
  2  wrong words, or a number out of its range
  3  the input is no image
  4  a slot of the image is not covered
  6  no memory, or a read or a write that failed

Example: g1pause choose --budget 1000 < IMAGE",
    arguments: &[
        WORKERS,
        CHUNK_OF_OBJECTS,
        FIXED,
        DIRTY,
        CARD,
        BYTE,
        NEEDED_BUDGET,
    ],
};

static PAUSE: Usage = Usage {
    name: "pause",
    about: "Collects regions of the image on standard input, and writes the image after",
    after_help: "\
Statuses:
  0  done
  2  wrong words, a number out of its range, or a budget beside regions
  3  the input is no image
  4  a slot of the image is not covered
  5  a region that cannot be collected, or no room for the survivors
  6  no memory, or a read or a write that failed

Example: g1pause pause --budget 1000 < IMAGE > AFTER",
    arguments: &[WORKERS, CHUNK, FIXED, DIRTY, CARD, BYTE, BUDGET, REGIONS],
};

static RUN: Usage = Usage {
    name: "run",
    about: "Runs the trace on standard input, and prints what each command replies",
    after_help: "\
Statuses:
  0  done
  2  wrong words, a number out of its range, or a line that is not of its form
  3  the sizes of the trace's heap are out of their ranges
  6  no memory, or a read or a write that failed

Example: g1pause run < TRACE",
    arguments: &[WORKERS, CHUNK, FIXED, DIRTY, CARD, BYTE],
};

pub const REGIONS: Argument = Argument {
    id: "regions",
    form: Form::ManyPlaces,
    values: &["REGION"],
    help: "The regions to collect, if there is no budget",
    range: "a region's number, below 4294967296; the image comes on standard input",
    ..VALUE
};
