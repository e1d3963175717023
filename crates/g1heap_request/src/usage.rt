//! The commands and their arguments, and what help says of them.
ghost use Rattle.std.specs.Prelude.{◌≡◌, codes};
ghost use Rattle.std.specs.List.{fold};
ghost use Rattle.g1_command.specs.Table.{with_command, no_command};
ghost use Rattle.g1heap_request.specs.Options.{g1heap};

use crate::output::STANDARD_STREAM;
use g1_answers::{CHUNK, CHUNK_OF_OBJECTS, CHUNK_OF_REGIONS, NEEDED_BUDGET, REPACK, WORKERS};
use g1_command::{
    Argument, BUDGET, BYTE, CARD, DIRTY, FILE, FIXED, FLAG, Form, Program, Usage, VALUE,
};

// The end of each command's help.
const AFTER_SAME: &str = "\
Statuses:
  0  the images show the same graph, and what else was asked holds
  1  they differ
  2  wrong words
  3  a file is no image, or a line of it is not as it has to be
  4  a slot of AFTER is not covered
  5  a region of the set is not there, humongous or pinned
  6  no memory, or a read or a write that failed
  7  a file that can't be opened
  141  the reader of the answer went away

Example: g1heap same BEFORE - < IMAGE";

const AFTER_PRINT: &str = "\
Statuses:
  0  done
  2  wrong words, or a region or an object that the image doesn't have
  3  the file is no image
  6  no memory, or a read or a write that failed
  7  a file that can't be opened or written
  141  the reader of the answer went away

Example: g1heap print < IMAGE";

const AFTER_MAKE: &str = "\
Statuses:
  0  done
  2  wrong words
  3  a line is not as it has to be
  6  no memory, or a read or a write that failed
  7  a file that can't be opened or written

Example: g1heap make -o IMAGE < LINES";

const AFTER_CONVERT: &str = "\
Statuses:
  0  done
  2  wrong words, sizes out of their range, or a field that the dump doesn't have
  3  the file is no heap dump
  4  a reference leads to nothing
  5  the objects don't fit
  6  no memory, or a read or a write that failed
  7  a file that can't be opened or written
  8  what was made is no image: an error of this program

Example: g1heap convert --from Main.root -o IMAGE DUMP";

const AFTER_EXPLAIN: &str = "\
Statuses:
  0  done
  2  wrong words, or a number out of its range
  3  the file is no image
  4  a slot of the image is not covered
  5  a region that cannot be collected, or no room for the survivors
  6  no memory, or a read or a write that failed
  7  a file that can't be opened or written
  141  the reader of the answer went away

Example: g1heap explain --budget 1000 < IMAGE";

const AFTER_WHY: &str = "\
Statuses:
  0  done
  2  wrong words, or no object starts there
  3  the file is no image
  4  no root leads to the object, and a slot into its region is not covered
  6  no memory, or a read or a write that failed
  7  a file that can't be opened
  141  the reader of the answer went away

Example: g1heap why IMAGE 16";

const AFTER_TRACE: &str = "\
Statuses:
  0  done
  2  wrong words, a number out of its range, or a command that the trace doesn't have
  3  a line is not as it has to be, or a size is out of its range
  6  no memory, or a read or a write that failed
  7  a file that can't be opened or written
  141  the reader of the answer went away

Example: g1heap trace --live < TRACE";

const AFTER_SHOW: &str = "\
Statuses:
  0  done
  2  wrong words, or a number out of its range
  3  the file is no image
  6  no memory, or a read or a write that failed
  7  a file that can't be opened or written
  141  the reader of the answer went away

Example: g1heap show IMAGE";

const AFTER_CHECK: &str = "\
Statuses:
  0  covered
  2  wrong words
  3  the file is no image
  4  a slot is not covered
  6  no memory, or a read or a write that failed
  7  a file that can't be opened
  141  the reader of the answer went away

Example: g1heap check IMAGE";

const AFTER_LIVE: &str = "\
Statuses:
  0  done
  2  wrong words, or a number out of its range
  3  the file is no image
  6  no memory, or a read or a write that failed
  7  a file that can't be opened or written
  141  the reader of the answer went away

Example: g1heap live IMAGE";

const AFTER_CHOOSE: &str = "\
Statuses:
  0  done
  2  wrong words, or a number out of its range
  3  the file is no image
  4  a slot of the image is not covered
  6  no memory, or a read or a write that failed
  7  a file that can't be opened or written
  141  the reader of the answer went away

Example: g1heap choose --budget 1000 IMAGE";

const AFTER_PAUSE: &str = "\
With neither a budget nor a set it collects no region. Compare the answer with the image before:

  g1heap pause --set 1,2,5-9 -o AFTER BEFORE
  g1heap same BEFORE AFTER --set 1,2,5-9

Statuses:
  0  done
  2  wrong words, or a number out of its range
  3  the file is no image
  4  a slot of the image is not covered
  5  a region that cannot be collected, or no room for the survivors
  6  no memory, or a read or a write that failed
  7  a file that can't be opened or written

Example: g1heap pause --budget 1000 -o AFTER IMAGE";

const AFTER_ALL: &str = "\
Statuses:
  0  done
  1  two images differ
  2  wrong words, a number out of its range, or a region, an object or a command that isn't there
  3  a file is no image, or a line is not as it has to be
  4  a slot is not covered
  5  a region of the set is not there, not ordinary or pinned, or no room
  6  no memory, or a read or a write that failed
  7  a file that can't be opened or written
  8  what was made of a dump is no image: an error of this program
  141  the reader of the answer went away

Example: g1heap show IMAGE";

/// The program's name.
pub const NAME: &str = "g1heap";

/// The program, whose commands these are.
pub fn program(commands: &[Usage]) -> Program<'_>
    ensures name { result.name.now ≡ codes "g1heap" }
    ensures commands { result.commands ≡ commands.entry }
{
    Program {
        name: NAME,
        version: "1.0.0",
        about: "Shows, checks, collects, compares, prints and makes heap images; explains pauses and answers traces",
        after_help: AFTER_ALL,
        commands,
    }
}

/// The commands. Each is a static, since the check of all as one takes too many steps.
pub fn commands() -> [Usage; 12]
    ensures { fold with_command (no_command (codes "g1heap")) result ≡ g1heap }
{
    [
        SHOW, CHECK, LIVE_BYTES, CHOOSE, PAUSE, SAME, PRINT, MAKE, CONVERT, EXPLAIN, WHY, TRACE,
    ]
}

static SHOW: Usage = Usage {
    name: "show",
    about: "Prints the regions of an image",
    after_help: AFTER_SHOW,
    arguments: &[
        IMAGE_OR_INPUT,
        WORKERS,
        CHUNK_OF_REGIONS,
        REPACK,
        LIMITS,
        OUTPUT,
    ],
};

static CHECK: Usage = Usage {
    name: "check",
    about: "Reports whether every reference into another region is covered",
    after_help: AFTER_CHECK,
    arguments: &[IMAGE_OR_INPUT, LIMITS],
};

static LIVE_BYTES: Usage = Usage {
    name: "live",
    about: "Prints the live bytes of each region",
    after_help: AFTER_LIVE,
    arguments: &[IMAGE_OR_INPUT, WORKERS, CHUNK_OF_OBJECTS, LIMITS, OUTPUT],
};

static CHOOSE: Usage = Usage {
    name: "choose",
    about: "Prints the candidates in order, and which of them the budget buys",
    after_help: AFTER_CHOOSE,
    arguments: &[
        IMAGE_OR_INPUT,
        NEEDED_BUDGET,
        FIXED,
        DIRTY,
        CARD,
        BYTE,
        WORKERS,
        CHUNK_OF_OBJECTS,
        LIMITS,
        OUTPUT,
    ],
};

static PAUSE: Usage = Usage {
    name: "pause",
    about: "Collects regions of an image, and writes the image after",
    after_help: AFTER_PAUSE,
    arguments: &[
        IMAGE_OR_INPUT,
        BUDGET,
        SET,
        FIXED,
        DIRTY,
        CARD,
        BYTE,
        WORKERS,
        CHUNK,
        LIMITS,
        OUTPUT,
    ],
};

static SAME: Usage = Usage {
    name: "same",
    about: "Reports whether two images show the same graph from their roots, or where they differ",
    after_help: AFTER_SAME,
    arguments: &[
        BEFORE,
        AFTER,
        COVERED,
        KEPT_SET,
        FILL,
        YOUNG,
        NAMES,
        NAMES_AFTER,
        MOVED,
        ALL,
        LIMITS,
    ],
};

static PRINT: Usage = Usage {
    name: "print",
    about: "Prints an image as lines",
    after_help: AFTER_PRINT,
    arguments: &[IMAGE_OR_INPUT, REGION, OBJECT, SUMMARY, HEX, LIMITS, OUTPUT],
};

static MAKE: Usage = Usage {
    name: "make",
    about: "Writes the image that lines describe",
    after_help: AFTER_MAKE,
    arguments: &[LINES, OUTPUT],
};

static CONVERT: Usage = Usage {
    name: "convert",
    about: "Writes the image of a Java heap dump, or of what hangs from static fields in it",
    after_help: AFTER_CONVERT,
    arguments: &[
        DUMP,
        FROM,
        WITHOUT,
        WEAK,
        DANGLING_NULL,
        BLANK,
        NAMES_MADE,
        SIZES,
        OUTPUT,
    ],
};

static EXPLAIN: Usage = Usage {
    name: "explain",
    about: "Reports what a pause of an image does, one fact a line",
    after_help: AFTER_EXPLAIN,
    arguments: &[
        IMAGE_OR_INPUT,
        BUDGET,
        SET,
        FIXED,
        DIRTY,
        CARD,
        BYTE,
        MAP,
        NAMES_BEHIND,
        LIMITS,
        OUTPUT,
    ],
};

static WHY: Usage = Usage {
    name: "why",
    about: "Reports what keeps an object: the shortest path from a root, or a card",
    after_help: AFTER_WHY,
    arguments: &[IMAGE, ADDRESS, NAMES_OF_PATH, LIMITS],
};

static TRACE: Usage = Usage {
    name: "trace",
    about: "Answers a trace, each line at once if asked to",
    after_help: AFTER_TRACE,
    arguments: &[
        TRACED,
        LIVE,
        NUMBERED,
        EXPLAINED,
        IMAGE_AFTER,
        FIXED,
        DIRTY,
        CARD,
        BYTE,
    ],
};

pub const BEFORE: Argument = Argument {
    id: "before",
    values: &["BEFORE"],
    help: "An image or lines of objects by name, or - for standard input",
    ..FILE
};

pub const AFTER: Argument = Argument {
    id: "after",
    values: &["AFTER"],
    help: "Another one, or -",
    ..FILE
};

pub const COVERED: Argument = Argument {
    id: "covered",
    help: "Also asks that every reference of AFTER into another region is covered",
    ..FLAG
};

// What messages say of numbers.
const REGION_RANGE: &str = "a region's number, below 4294967296";

const LISTED_RANGE: &str = "a region's number, below 4096";

const COUNT_RANGE: &str = "1 to 18446744073709551615";

const KEPT_SET: Argument = Argument {
    help: "Also asks that AFTER keeps all that a pause of these regions keeps, as in 1,2,5-9",
    ..SET
};

pub const FILL: Argument = Argument {
    id: "fill",
    help: "With --set: copies may also be behind the old tops of ordinary regions",
    ..FLAG
};

pub const YOUNG: Argument = Argument {
    id: "young",
    values: &["REGIONS"],
    help: "With --covered: slots in these regions need no cover, as in 1,2,5-9",
    range: LISTED_RANGE,
    ..VALUE
};

pub const NAMES: Argument = Argument {
    id: "names",
    values: &["MAP"],
    help: "Reports a difference in the names of this file, which has lines of BEFORE's objects",
    ..VALUE
};

const NAMES_OF_PATH: Argument = Argument {
    help: "Puts the names of this file behind the lines: of the path, and of the objects' types",
    ..NAMES
};

const NAMES_BEHIND: Argument = Argument {
    help: "Puts the types of this file behind the lines of objects",
    ..NAMES
};

pub const NAMES_AFTER: Argument = Argument {
    id: "names-after",
    values: &["MAP"],
    help: "With --names: AFTER's objects have the types and identifiers of this file",
    ..VALUE
};

pub const MOVED: Argument = Argument {
    id: "moved",
    help: "Also says how many objects have another name, address or identifier",
    ..FLAG
};

pub const ALL: Argument = Argument {
    id: "all",
    help: "Also lists the first N differences, and counts all that a walk of both heaps finds",
    range: COUNT_RANGE,
    ..VALUE
};

pub const IMAGE: Argument = Argument {
    id: "image",
    values: &["IMAGE"],
    help: "An image, or - for standard input",
    ..FILE
};

const IMAGE_OR_INPUT: Argument = Argument {
    default: &[STANDARD_STREAM],
    ..IMAGE
};

pub const LIMITS: Argument = Argument {
    id: "limits",
    values: &["LIMITS"],
    help: "How large an image may be: 'wide', or as g1pause has it by 'specification' [default: wide]",
    ..VALUE
};

pub const REGION: Argument = Argument {
    id: "region",
    values: &["R"],
    help: "Only the lines of this region",
    range: REGION_RANGE,
    ..VALUE
};

const ADDRESS_RANGE: &str = "an address, below 18446744073709551616";

pub const OBJECT: Argument = Argument {
    id: "object",
    values: &["A"],
    help: "Only the line of the object at this address",
    range: ADDRESS_RANGE,
    ..VALUE
};

pub const SUMMARY: Argument = Argument {
    id: "summary",
    help: "Only how many regions, words, cards and roots there are",
    ..FLAG
};

pub const HEX: Argument = Argument {
    id: "hex",
    help: "Data words in hexadecimal, as 0x1f",
    ..FLAG
};

pub const LINES: Argument = Argument {
    id: "lines",
    default: &[STANDARD_STREAM],
    values: &["LINES"],
    help: "The lines, or - for standard input",
    ..FILE
};

pub const DUMP: Argument = Argument {
    id: "dump",
    values: &["DUMP"],
    help: "A heap dump in the form HPROF, or - for standard input",
    ..FILE
};

pub const FROM: Argument = Argument {
    id: "from",
    form: Form::Repeated,
    values: &["CLASS.FIELD"],
    help: "Only what hangs from this static field; several times: from these, in this order",
    ..VALUE
};

pub const WITHOUT: Argument = Argument {
    id: "without",
    form: Form::Repeated,
    values: &["CLASS.FIELD"],
    help: "With --from: a field that is null or zero in the image",
    ..VALUE
};

pub const WEAK: Argument = Argument {
    id: "weak",
    help: "With --from: weak references keep what they refer to",
    ..FLAG
};

pub const DANGLING_NULL: Argument = Argument {
    id: "dangling-null",
    help: "With --from: takes a reference to what the dump does not have as null",
    ..FLAG
};

pub const BLANK: Argument = Argument {
    id: "blank",
    help: "Zeros in place of primitive data",
    ..FLAG
};

pub const NAMES_MADE: Argument = Argument {
    id: "names",
    values: &["MAP"],
    help: "Also writes this file: the names of roots, types and objects",
    ..VALUE
};

pub const SIZES: Argument = Argument {
    id: "sizes",
    values: &["W,K,N"],
    help: "Words of a region, words of a card, number of regions [default: such as fit]",
    range: "three numbers, as in 4096,64,512",
    ..VALUE
};

pub const OUTPUT: Argument = Argument {
    id: "output",
    letter: Some('o'),
    values: &["FILE"],
    help: "Writes this file, once the answer is whole, or - for standard output",
    ..VALUE
};

pub const SET: Argument = Argument {
    id: "set",
    form: Form::ManyValues,
    values: &["REGION"],
    help: "The regions to collect, as in 1,2,5-9",
    range: LISTED_RANGE,
    ..VALUE
};

pub const MAP: Argument = Argument {
    id: "map",
    help: "Only a line OLD NEW SIZE for each survivor",
    ..FLAG
};

pub const ADDRESS: Argument = Argument {
    id: "address",
    form: Form::Place,
    values: &["A"],
    help: "The address of an object",
    range: ADDRESS_RANGE,
    ..VALUE
};

pub const TRACED: Argument = Argument {
    id: "trace",
    default: &[STANDARD_STREAM],
    values: &["TRACE"],
    help: "A trace, or - for standard input",
    ..FILE
};

pub const LIVE: Argument = Argument {
    id: "live",
    help: "Writes each reply as soon as its line is there",
    ..FLAG
};

pub const NUMBERED: Argument = Argument {
    id: "numbered",
    help: "Puts the number of its command before each reply",
    ..FLAG
};

pub const EXPLAINED: Argument = Argument {
    id: "explain",
    help: "Puts the lines of each pause before its reply",
    ..FLAG
};

pub const IMAGE_AFTER: Argument = Argument {
    id: "image",
    values: &["N", "FILE"],
    help: "Also writes the image after command N to this file, or - for it alone on standard output",
    range: COUNT_RANGE,
    ..VALUE
};
