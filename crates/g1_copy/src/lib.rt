//! The copy of an evacuation pause (Detlefs, Flood, Heller, Printezis, "Garbage-First Garbage
//! Collection", 2004), with every new address known before a word is written.
//!
//! 1. `gather` makes the words of to-space: each survivor at its place, its references renamed.
//! 2. `patches` lists the slots outside the set that reference a survivor, with their new words: those
//!    on the cards that lead into the set (`cards_into` of `g1_rem`).
//! 3. `new_rem` makes the remembered sets of the image once the survivors have moved.
//! 4. `prepare` joins these, `prepare_on` does so for a caller that has listed the cards, and
//!    `prepare_by_leads` for one that has listed the slots on them that reference a survivor. It
//!    finds the humongous objects that nothing references once the survivors have moved: no root
//!    does, and no slot on a card of their remembered sets outside their own regions. Their regions are
//!    freed with the set's, and the cards in these regions leave all remembered sets. It takes all
//!    memory; nothing of the image was changed until then.
//! 5. `commit` writes what was prepared over the heap's own words, each region by its fate: one that is
//!    freed is cleared, one of to-space is filled, and any other takes its patches. It takes no memory
//!    and refuses nothing.
#![tactic(auto)]

mod cards_by_region;
mod committing;
mod copied_cards;
mod fates;
mod filling;
mod gathering;
mod headers;
pub mod laws;
mod moving;
mod patching;
mod pausing;
mod preparing;
mod remembering;
mod unnamed;

pub use committing::commit;
pub use gathering::gather;
pub use patching::patches;
pub use preparing::{Basis, Prepared, prepare, prepare_by_leads, prepare_on};
pub use remembering::new_rem;
