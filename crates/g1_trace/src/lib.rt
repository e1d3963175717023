//! A mutator over a Garbage-First collector, and whole traces of what it does: the write barrier of
//! Detlefs, Flood, Heller, Printezis, "Garbage-First Garbage Collection", 2004, allocation by regions,
//! and pauses anywhere. No mutator can observe a pause, except by finding place after it.
//!
//! A `Mutator` holds a heap image whose references are covered. `step` does one command on it:
//!
//! 1. The command is answered by the roots and by the header of the object that a root references:
//!    whether there are such roots, such an object, such a slot or data word, and then what is to
//!    be done.
//! 2. A slot is written by the barrier. If it references an object of another region, its card is
//!    in the dirty log before the slot is written, so every reference stays covered.
//! 3. A new object goes to the top of the current region, else to the lowest free one; a humongous one
//!    to the lowest run of free regions. Its words are 0 there already. Without a place it is refused,
//!    and nothing changes.
//! 4. A pause evacuates what its budget buys, or finds no room and changes nothing.
//!
//! `parse_trace` reads a trace's text, `run_trace` does its commands, and `run_text` does both line
//! by line and returns the replies as text. The replies are determined by the trace and the cost:
//! those of a plain store, which never moves or frees an object, with `full` and `room` exactly if
//! the heap beside it has no place.
//!
//! A `Session` answers a trace line by line, so that a program with a pipe can use the heap while it
//! runs. Empty lines and those that begin with `#` are comments anywhere. The first other line gives
//! the sizes and makes the heap, and each later one is a command. A wrong line is refused with what
//! was expected there, and nothing changes.
#![tactic(auto)]

mod allocating;
mod answering;
mod collector;
mod command;
mod effect;
mod expected;
pub mod laws;
mod mutator;
mod parsing;
mod replies;
mod running;
mod session;
mod trace;
mod writing;

pub use command::{Command, Reply};
pub use expected::Expected;
pub use mutator::Mutator;
pub use parsing::{first_line, later_line, parse_trace};
pub use replies::push_reply;
pub use running::{run_text, run_trace};
pub use session::{Session, Taken, Wrong};
pub use trace::Trace;
