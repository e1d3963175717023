//! The image of a region heap, and its text.
//!
//! An image is a heap with each region's remembered set and the dirty log. Its text is the magic, a
//! heading of six numbers, the region table, the roots, the log, the remembered sets and the used
//! words.
//!
//! `read` reads forward once: the parts, then the regions' kinds and shapes, the references and the
//! cards, and returns the fault of the first of these stages that finds one. The source gives its
//! bytes piece by piece. What precedes the words is looked for in twice as many bytes until it is
//! there whole, the words go straight to their places, and the source is read to its end whatever
//! fault its bytes have. `decode` reads bytes in memory the same way, as if they had all been read
//! ahead. `read_by` shares the shapes and the slots among this many workers at most: each has a range
//! of the regions, and the first range with a region that breaks a rule, or with a slot that
//! references no object, has the lowest.
//!
//! `write` sends the text of an image to a sink: what precedes the words whole, and the words in
//! pieces. `encode` writes it into a list. `encode_parts` writes parts that need not be an image's.
#![tactic(auto)]

mod ahead;
mod behind;
mod buffer;
mod cards;
mod checks;
mod copying;
mod cursor;
mod decoding;
mod draft;
mod encoding;
mod file_parts;
mod front;
mod image;
mod judging;
pub mod laws;
mod pieces;
mod reading;
mod refs;
mod shape;
mod sink;
mod source;
mod stale;
mod starts;
mod std_streams;
mod strays;
mod table;
mod text_parts;
mod writing;

pub use copying::{copy, with_dirty};
pub use cursor::{Entry, Heading, MAGIC, Version};
pub use decoding::{
    decode, decode_stale, decode_within, read, read_by, read_by_within, read_stale, read_within,
};
pub use encoding::{encode, write};
pub use file_parts::{FileParts, encode_parts};
pub use front::Front;
pub use image::Image;
pub use sink::Sink;
pub use source::Source;
pub use stale::Stale;
pub use std_streams::{FromReader, ToWriter};
pub use text_parts::{TextParts, parts_of};
