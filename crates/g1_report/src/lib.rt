//! Two heaps compared, in lines of text.
//!
//! 1. A `Side` is a heap to compare: an image, an image with words that reference no object
//!    (`open_stale`), or that of lines of objects by name (`open_lines`). `Names` is what a program
//!    calls its roots, its objects and the words in them.
//! 2. `report` is asked of two sides. It compares their graphs by `compare` of g1_same. If the second has
//!    stale words, it asks `compare_stale`, which looks for them, too. That is the finding.
//! 3. If the graphs are the same and regions of a pause are given, `kept` of g1_kept says whether the
//!    second heap keeps what that pause keeps.
//! 4. The verdict is made of what was found: a status, and a first line with the path from a root, what
//!    is there in both heaps, and how it differs, in the words of the names if there are any.
//! 5. If all differences are asked for, `Differences` goes on behind the first one. Each line goes to
//!    the `Lines` that the caller lends as soon as it is made, since it has its whole path.
//!
//! `locate` says what is at an address where no object starts. `noted` puts a program's names behind the lines of a pause,
//! or of what keeps an object.
//!
//! The crate knows no option, no file and no stream: g1heap_cli has these.
#![tactic(auto)]

mod comparing;
mod grouping;
mod lines;
mod listing;
mod location;
mod moving;
mod names;
mod naming;
mod noting;
mod objects;
mod places;
mod reporting;
mod sides;
mod staling;
mod verdict;

pub use comparing::Labels;
pub use lines::Lines;
pub use location::{Location, locate};
pub use names::{Names, WrongNames};
pub use noting::noted;
pub use reporting::{Asked, Refused, report};
pub use sides::{Side, Strays, open_image, open_lines, open_stale, shared_text};
