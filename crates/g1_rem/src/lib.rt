//! Remembered sets of a region heap: which slots lie on a card, whether every reference between
//! regions is covered, and which cards lead into a region.
//!
//! 1. `Starts` has for each card the object over its first word, wherever that object began: on an
//!    earlier card, or in an earlier region of a humongous object's run. `Starts::build_by` shares the
//!    regions among this many workers at most, in ranges.
//! 2. `slots_on` walks from there over the objects that reach the card, and gives the slots whose own
//!    address lies on it.
//! 3. `verify` asks every slot by rising address. One that leads into another region has its card in
//!    that region's remembered set or in the dirty log; else the lowest such slot is the fault. What
//!    passes is a `Tracked` image, whose type keeps this from then on. `verify_by` shares the regions
//!    in ranges, too, as many as all used words feed; `Starts::build_by` counts those of ordinary
//!    regions alone. The first range with such a slot has the lowest.
//! 4. `refine` looks at the dirty cards alone: it adds to each region's remembered set those that
//!    hold a slot of another region that references an object in it. `refine_by` does so with this
//!    many workers at most. The dirty cards are marked, and their marks are listed: that is linear,
//!    and needs no thread.
//! 5. `merged` makes one rising list of two, each card once: a set and the cards that join it.
//! 6. `cards_into` lists the cards that lead into a set of regions: those of the remembered sets of
//!    its regions that lie outside it.
//! 7. `cards_into_region` lists those that lead into one region, without any other region's set: it asks every
//!    slot, and finds the lowest one into the region that isn't covered.
//! 8. `leads_into` asks the slots on one card whether one of them, of another region, references an
//!    object in a region.
//!
//! The sets and the log are those of Detlefs, Flood, Heller, Printezis, "Garbage-First Garbage
//! Collection", 2004.
#![tactic(auto)]

mod card_lists;
mod cover;
mod entries;
mod entry_cards;
pub mod laws;
mod leads;
mod merging;
mod ranges;
mod refining;
mod rows;
mod slots;
mod starts;
mod tracked;

pub use card_lists::{no_cards, push_once};
pub use cover::{first_uncovered, verify, verify_by};
pub use entries::cards_into_region;
pub use entry_cards::cards_into;
pub use leads::leads_into;
pub use merging::merged;
pub use refining::{MERGED_CARDS_A_THREAD, cards_in, refine, refine_by};
pub use rows::objects_end;
pub use slots::{SCANNED_CARDS_A_THREAD, slots_on};
pub use starts::Starts;
pub use tracked::{Tracked, image};
