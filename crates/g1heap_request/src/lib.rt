//! What the words after g1heap's name ask for.
//!
//! 1. `commands` is the table of the commands and of their arguments, with what help says of them (`usage`).
//! 2. `parse` has clap match the words by it, and reads what the command asks for: a `Request` (`options`). The values of
//!    the commands that g1pause has, too, are read by `asking`, those of `convert` by `dump`. `checks` refuses options
//!    that exclude one another or lack another one, and files that are all standard input.
//! 3. Where clap refuses words that show what was meant, the refusal has a tip (`tips`).
//! 4. An `Output` says where an answer goes (`output`), an `ImageFile` where an image is and how large it may be
//!    (`image_file`).
//!
//! Nothing is read or written here.
#![tactic(auto)]

mod asking;
mod checks;
mod dump;
mod image_file;
mod options;
mod output;
mod tips;
mod usage;

pub use asking::{Ask, Rewrite};
pub use dump::{Convert, HeapSizes};
pub use image_file::ImageFile;
pub use options::{Explain, ImageAfter, Part, Request, Same, Trace, Why, parse};
pub use output::{Output, STANDARD_STREAM};
pub use tips::{SET_TIP, names_regions};
pub use usage::NAME;
