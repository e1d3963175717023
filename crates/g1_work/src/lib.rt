//! Work that is cut into chunks, and the workers that draw them.
//!
//! The tasks of a pause are claimed by its threads, and each task is done by one thread (Detlefs,
//! Flood, Heller, Printezis, "Garbage-First Garbage Collection", 2004). Here the tasks are the
//! numbers below a count of chunks, and the claim is a draw from a dealer of `g1_deal`.
//!
//! `each_chunk` runs a task so: a worker for each state draws chunks until none is left, and keeps
//! what each gave. Then each chunk's out is put at its place.
//!
//! A `Team` is how many workers share some work and how many items one of them draws at once: each
//! public call that is handed the two numbers makes one, and the private functions below it take that
//! and ask for no range again.
//! Work that is not drawn goes by its size: `threads_for` says how many threads its items feed. If
//! each number, such as that of a region or of a range, has its own result, `make_each` makes them in
//! order: by that many threads, and by the thread that asked if it is one.
//!
//! Words that are written in place are not drawn: `each_region_mut` cuts them into runs of regions,
//! and lends each run to one thread alone. Words that are only read are not drawn either if what is
//! wanted is the first of something: `cut_regions` cuts the regions into ranges, one a thread, and
//! `first_found` takes the first of what they found.
#![tactic(auto)]

mod each;
mod fill;
mod gate;
mod gather;
mod make;
mod merge;
mod ranges;
mod regions;
mod task;
mod team;
mod worker;

pub use each::each_chunk;
pub use fill::Fill;
pub use gate::{Gate, Open, Part};
pub use make::{Make, make_each};
pub use ranges::{WORDS_A_THREAD, cut_regions, first_found, ordinary_words, used_words};
pub use regions::each_region_mut;
pub use task::Task;
pub use team::{MOST_CHUNK, MOST_WORKERS, Team, USUAL_CHUNK, threads_for};
