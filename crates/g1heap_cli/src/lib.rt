//! Heaps shown, collected, compared, printed, made and explained: what the program g1heap does.
//!
//! 1. `program` has the words after the program's name read into a request (g1heap_request), before any input.
//!    A person at a terminal hears what is waited for (`terminals`).
//! 2. The files of the request are read (`files`): an image, lines, or what `same` compares. An image that may be refused
//!    later can be read a second time (`sources`).
//! 3. The answer is made in memory: of two heaps by g1_report (`sameness`, `young`), of a pause by g1_explain
//!    (`explaining`), with a program's names if they are given (`mapping`), of a trace by g1_trace (`tracing`), of an image or lines by g1_text (`commands`), of a heap
//!    dump by g1_hprof (`converting`), and what
//!    g1pause answers, too, by g1_answers (`answering`).
//! 4. It is written at once, to standard output or to a file, which is whole or not there (`output`). The image
//!    after a pause goes to standard output in pieces, with all memory taken before the first. Only the lines
//!    of `same --all` are written as they are made (`line_writer`), and so may those of `trace --live`.
//! 5. A refusal is reported on standard error (`refusal`), with the system's reason, if there is one (`heard`). Then nothing is on standard output, unless the
//!    refusal is that writing there failed, or lines were written as they were made.

#![tactic(auto)]

mod alone;
mod answering;
mod commands;
mod converting;
mod explaining;
mod files;
mod heard;
mod hexadecimal;
mod line_text;
mod line_writer;
mod mapping;
mod output;
mod refusal;
mod sameness;
mod sources;
mod terminals;
mod tracing;
mod young;

pub use commands::{Call, perform, program};
pub use g1heap_request::NAME;
pub use heard::Heard;
pub use terminals::Terminals;
