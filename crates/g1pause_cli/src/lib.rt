//! Garbage-First evacuation pauses on heap images: what the program g1pause does.
//!
//! The words after the program's name are read into a request, and standard input as an image,
//! piece by piece, or as a trace. An image that is answered goes out in pieces, with all memory
//! taken before the first; every other answer is built in memory and written at once. A refusal is
//! reported on standard error, and then nothing is on standard output, unless the refusal is that
//! writing there failed.
#![tactic(auto)]

mod commands;
mod options;
mod usage;

pub use commands::{perform, program};
pub use options::{Replay, Request};
pub use usage::NAME;
