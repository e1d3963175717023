//! The tables that the programs print: the regions of an image, their live bytes, the candidates of a choice, and a
//! summary.
//!
//! 1. `table` has a line with the numbers of an image, and a line for each region. The workers draw chunks of its
//!    regions, and the lines stand in the order of the regions.
//! 2. `live_lines` has a line for each region, with the bytes that the roots reach in it.
//! 3. `candidates` has the candidates by efficiency, whether a budget buys each, and the total of those that it buys.
//!    `choice_lines` prints such an order.
//! 4. `summary` has a heap in a few lines: its sizes, its regions by kind, its words, its cards and its roots.
#![tactic(auto)]

mod listing;
mod overview;
mod show;

pub use listing::{candidates, choice_lines, live_lines};
pub use overview::summary;
pub use show::table;
