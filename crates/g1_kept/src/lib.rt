//! Whether a heap keeps what a pause of some regions keeps, wherever the survivors went.
//!
//! 1. The regions of the set are free after. Every other region that was in use is as it was, or was
//!    of a humongous object's run and is free.
//! 2. The objects outside the set that are still there are in their places, dead ones too, with
//!    their headers, their data words and the slots that don't lead into the set.
//! 3. A slot or a root that led into the set references a copy: the same copy for the same object,
//!    another for another, in a region that was free. If copies may fill regions, one may also be
//!    behind the old top of an ordinary region outside the set, whose top may then be higher. The
//!    copies are compared in the same way, slot by slot.
//!
//! The order of the copies and their places are free, and other objects may be where copies may be.
//! What is found first to differ is reported: sizes, regions by number, the number of roots, the
//! roots by number, the objects outside the set by address, and then the copies, in the order in which
//! they were found. `specs/Keeps.antt` defines what is kept, `specs/Lost.antt` what each report
//! says, and `specs/Order.antt` which of several comes first.
//!
//! Two tables find the copy of an object and the object of a copy, with 4 bytes for each word of their
//! heap; the list of copies has 16 bytes for each. Each object, slot and data word is looked at once.
#![tactic(auto)]

mod keeping;
pub mod laws;
mod linking;
mod lost;
mod pairs;
mod pause;
mod region_set;
mod tables;

pub use keeping::kept;
pub use lost::Lost;
