//! What the programs have in common: their words, their commands as tables, the values among the words,
//! the streams, and how a refusal is reported.
//!
//! 1. `words` gives the words behind a program's name, as text.
//! 2. A `Program` is a table of commands, and each command one of arguments. `match_words` gives what clap
//!    finds in the words by such a table, and `read_request` what the command in that asks for.
//! 3. `number`, `region` and `regions` read the whole numbers among the values that clap found, `cost_of`
//!    the costs of a pause; a `Misuse` is reported with the usage of its command. `regions_in` reads lists
//!    of regions, as 1,2,5-9, which `tie` has tied to their option before clap sees the words.
//! 4. `read_all` reads the whole input, `deliver` writes the whole answer; `deliver_text` writes one
//!    that a person reads, who may stop.
//! 5. `report` writes what is reported of a refusal, in one write, and `refuse` returns how the program ends by it.
#![tactic(auto)]

mod arguments;
mod costs;
mod lists;
mod refusal;
mod streams;
mod table;
mod values;

pub use arguments::words;
pub use costs::{BUDGET, BYTE, CARD, DIRTY, FIXED, cost_of};
pub use lists::{regions_in, tie};
pub use refusal::{Ending, Refusal, refuse, report};
pub use streams::{BROKEN_PIPE, LineReader, deliver, deliver_text, read_all};
pub use table::{Argument, FILE, FLAG, Form, Program, Usage, VALUE, match_words};
pub use values::{
    Misuse, flag, help_or_refusal, number, number_in, read_request, region, region_in, regions,
    required_number, whole,
};
