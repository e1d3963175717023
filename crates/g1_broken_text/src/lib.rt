//! Bytes that are no image's as lines, as far as they can be read.
//!
//! 1. `parts_of` takes the bytes apart, and `rule_of_bytes` finds the rule that they break.
//! 2. What is there is printed in the order of an image's lines: the heading, the roots, the log, and the regions with
//!    their remembered sets and their objects. The objects of a region end at the first word that is no header of one.
//! 3. The line that breaks the rule is followed by a line `broken`, with the rule.
#![tactic(auto)]

mod lines;

pub use lines::broken_lines;
