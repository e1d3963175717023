//! Where bytes or a heap break the rule that a fault reports, and which rule that is.
//!
//! 1. A fault of `decode` has a number and a region, a place or none. `rule_of_bytes` takes the same bytes apart by
//!    `parts_of`, goes to that region or place, and looks for the first rule that is broken there. The answer is a
//!    `Broken`: the rule, with the address, the card and the word that break it. Its text is one sentence.
//! 2. What can be known of a heap that may break its rules is a `Sketch`: its sizes, its regions and its words. Objects
//!    are looked for by headers, from the start of a region on, as far as these make sense.
//! 3. `rule_of_cover` and `rule_of_set` do so for an image that is good, but not covered, or not one from which this set
//!    can be collected; `rule_of_stale` for one whose stale words are known and null.
#![tactic(auto)]

mod cards;
mod cover;
mod opening;
mod references;
mod rule;
mod rules;
mod shapes;
mod sketch;
mod table;

pub use cover::{rule_of_cover, rule_of_set};
pub use references::rule_of_stale;
pub use rule::{Broken, HeaderPlace, Holder, Look, Part, Target};
pub use rules::{geometry_of, rule_of_bytes};
pub use sketch::Sketch;
pub use table::known_regions;
