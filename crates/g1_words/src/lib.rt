//! The words of a region heap: its sizes, its regions, the objects in them, and the
//! faults of the whole project.
//!
//! A heap is divided into equal regions (Detlefs, Flood, Heller, Printezis, "Garbage-First Garbage
//! Collection", 2004). A region is free, or is filled from its start up to its top by ordinary
//! objects, or belongs to the run of one humongous object. A reference word is 0 or one more than
//! the address of an object. What every heap keeps is the invariant of `Heap`; `specs/` has it, and
//! the definitions of all later steps that speak of a heap alone.
#![tactic(auto)]

mod fault;
mod geometry;
mod heap;
pub mod laws;
mod limits;
mod marks;
pub mod numbers;
mod object;
mod region;
mod words;

pub use fault::{Device, Fault, Place, Stand};
pub use geometry::Geometry;
pub use heap::{Heap, MOST_ROOTS, pinned};
pub use limits::Limits;
pub use marks::Marks;
pub use object::{
    Object, card_of, data, header, header_word, object_at, objects_in, region_of, size_at, slots,
    slots_of,
};
pub use region::{Kind, Region};
pub use words::Words;
