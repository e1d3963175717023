//! The evacuation pause of a Garbage-First collector (Detlefs, Flood, Heller, Printezis,
//! "Garbage-First Garbage Collection", 2004), over heap images.
//!
//! `pause_bytes` reads an image, sees that every reference is covered, evacuates and writes the image
//! after. `evacuate` goes by these steps:
//!
//! 1. The table of starts and the refined remembered sets are built once, as `Before`, which is lent to
//!    what follows. `take_steps` has the steps up to where all is prepared.
//! 2. The collection set is what the budget buys by the refined sets and the live bytes, or the
//!    regions that the caller gives.
//! 3. The cards of those refined sets lead into the set. From the roots and from them its survivors
//!    are found.
//! 4. Each survivor gets its place in a free region, or the pause is refused for want of room.
//! 5. All that the pause writes is prepared, and its report with it. Up to here memory may be
//!    refused, and the image is as it was.
//! 6. A commit puts it in place. It takes no memory and refuses nothing. `carry_out` does so for a
//!    caller of `take_steps` that looks at the steps before.
//!
//! The answer is determined by the image, the choice and the cost. The workers, the chunk and the
//! gate leave no trace in it.
#![tactic(auto)]

mod before;
mod bytes;
mod carrying;
mod choosing;
mod evacuating;
pub mod laws;
mod report;
mod run_streams;
mod settings;
mod steps;

pub use before::Before;
pub use bytes::pause_bytes;
pub use carrying::carry_out;
pub use choosing::{Bought, CollectionSet, collection_set, count_live};
pub use evacuating::evacuate;
pub use g1_image::{FromReader, Sink, Source, ToWriter};
pub use report::Report;
pub use run_streams::{pause_run, pause_run_within};
pub use settings::{Choice, Settings};
pub use steps::{Outcome, Steps, take_steps};
