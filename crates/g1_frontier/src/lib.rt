//! The survivors of a window of regions: what is reached in it from the roots and from outside, in
//! the order in which it is found.
//!
//! The search is breadth first and goes in rounds (Detlefs, Flood, Heller, Printezis, "Garbage-First
//! Garbage Collection", 2004, where each worker takes its part of the roots and of the remembered
//! cards, and copies what they reference). An object that several slots reference is found once, by the slot
//! of the least rank (Blelloch, Fineman, Gibbons, Shun, "Internally Deterministic Parallel Algorithms
//! Can Be Fast", 2012):
//!
//! 1. One claim table serves all rounds. `discover` numbers the objects of the window by one walk over
//!    their headers, which the workers share, and its table has 16 bytes for each of them. A table of
//!    `claim_round` has 16 for each word of the window.
//! 2. The items of the first round are the roots, then the cards that lead into the window. Every
//!    slot of an item has a rank: root i has i; a slot on a card the number of roots plus its
//!    address; slots of objects follow, numbered on in the order in which the objects were found.
//! 3. The workers draw chunks of a round's items. For each slot that references an object in the
//!    window they offer its rank at the object's place, and keep rank and address if the offer
//!    lowered the word.
//! 4. When all have ended, what they kept is put in the order of the ranks. `claim_round` merges their
//!    lists. `discover` takes from them what was kept of each chunk, chunk by chunk, and its next round
//!    uses the lists again. Then the workers look at the words again, each at a part of the list. An
//!    address whose rank is still the word is found. A worker alone offers by rising rank, so all that
//!    it kept is found.
//! 5. What a round found is the next round's items, until a round finds nothing. The workers count the
//!    slots of these objects, and one thread turns the counts into bases. No list of these items is
//!    made: an address among those found and the base at its place are one. Since ranks rise over all
//!    rounds, a place that has a word keeps it.
//!
//! The chunk says how many items a worker draws at once, and nothing else. A round hires one worker for
//! each 2,048 items, and the first rounds at least two; a second look one for each 4,096 of what was kept. A round of one worker, or of one chunk, makes
//! the same offers and starts no thread.
//!
//! A worker alone competes with nobody, so it takes no rounds and no claim table. It finds what is
//! referenced in order, and marks it in one bit for each word of the window. What it has found is its
//! queue: it reads the headers of the next objects in the queue at once, then their slots, and ends when
//! nothing is left in the queue. `discover_seen` hands on what it saw on its way: the sizes of the
//! survivors, and the slots on the cards that lead into the window, each with its word.
//! `discover_from_roots` searches a window that no slot outside references into, so without cards.
//!
//! So the answer is the same for all workers and chunk sizes. A round takes memory in proportion to
//! what it looks at and finds. A region's place in the window is in a table of four bytes
//! for each region of the heap: `discover` makes one for all its rounds, `claim_round` one a call. The
//! numbers of the objects take 16 bytes for each 64 words of the window.
#![tactic(auto)]

mod crew;
mod found;
mod headers;
mod item;
pub mod laws;
mod looking;
mod numbers;
mod offering;
mod queue;
mod rooms;
mod round;
mod scope;
mod sought;
mod survivors;

pub use found::{Found, Seen};
pub use item::Item;
pub use round::claim_round;
pub use survivors::{discover, discover_from_roots, discover_seen};
