//! The lines of a heap image: what a person reads and writes instead of its bytes.
//!
//! 1. `image_lines` prints an image line by line: its heading, its roots, its dirty cards, and for
//!    each region its numbers, its remembered cards and its objects. `region_lines` and
//!    `object_line` print a part, and `push_heading` adds the heading to a text.
//! 2. `make` reads lines and gives the image's bytes. Each line's numbers are compared with what
//!    follows from the lines above it, so whatever follows may be left out: addresses, tops, counts,
//!    free and continuation regions, and, by the word `covered`, remembered sets.
//!    `make_graph` reads lines of objects by name, and finds a place for each. `plain_lines` gives values and places inside
//!    objects lines of their own, and takes weak references for ordinary ones or null.
//! 3. What was read is written as bytes, and `decode` judges these: `make` has no rules of its own for
//!    references and cards. A fault of `decode` is reported for the line that it comes from.
#![tactic(auto)]

mod boxes;
mod covering;
mod draft;
mod expected;
mod filling;
pub mod laws;
mod making;
mod named;
mod packing;
mod placing;
mod plain;
mod printing;
mod reading;
mod settling;
mod values;
mod weak;
mod words;

pub use expected::{Expected, Wrong};
pub use making::make;
pub use named::{Graph, is_graph, make_graph, read_graph};
pub use plain::plain_lines;
pub use printing::{
    image_lines, object_line, push_heading, push_log, push_object, push_region_line,
    push_remembered, push_root, region_lines,
};
pub use values::data_word;
