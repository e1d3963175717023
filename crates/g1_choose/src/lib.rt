//! Which regions a pause collects: those that give most garbage for their cost, as far as a budget
//! goes (Detlefs, Flood, Heller, Printezis, "Garbage-First Garbage Collection", 2004).
//!
//! 1. `cost` is the cost of collecting one region: a price for each card of its remembered set,
//!    and so much for each byte that is still live in it. `total` adds what the pause costs in any
//!    case, and so much for each dirty card.
//! 2. `order` lists the candidates, the ordinary regions with garbage that aren't pinned, by
//!    efficiency: garbage for the cost. Two candidates are compared by products, never by a quotient
//!    that is rounded; if they are equal, the lower region comes first.
//! 3. `buy` finds the longest beginning of that order whose total is within the budget. A region
//!    that doesn't fit ends it, even if a later one would fit. `choose` is `order`, then `buy`, then the
//!    regions of that beginning by number; `choose_in_order` returns the order, too.
//! 4. `given` takes a list of regions from the caller.
#![tactic(auto)]

mod buying;
mod candidate;
mod choice;
pub mod laws;
mod named;
mod parameters;
mod pricing;

pub use buying::{Purchase, buy, rising_regions};
pub use candidate::Candidate;
pub use choice::{Chosen, choose, choose_in_order, order};
pub use named::given;
pub use parameters::Cost;
pub use pricing::{cost, total};
