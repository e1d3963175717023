//! What both programs answer of an image: `show`, `check`, `live`, `choose` and `pause`.
//!
//! 1. The values of a command become a `Question`, which text answers, or a `NewImage`, which is an image.
//! 2. Numbers out of their ranges are found before anything is read.
//! 3. `answer` reads the image, and returns the text, which `write_answer` writes at once; `write_image` reads it, and
//!    writes the other image in pieces, with all memory taken before the first.
//! 4. Both write to a `ToWriter`: what it holds is known behind each of its writes. `send_text` writes any other text.
//!
//! The programs differ in the words that they take, where the image comes from and where the answer goes.
#![tactic(auto)]

mod answering;
mod arguments;
mod question;
mod rewriting;
mod sending;

pub use answering::{answer, write_answer};
pub use arguments::{
    CHUNK, CHUNK_OF_OBJECTS, CHUNK_OF_REGIONS, NEEDED_BUDGET, REPACK, WORKERS, sharing_of,
};
pub use g1_image::ToWriter;
pub use question::{NewImage, Pause, Question, Sharing, pause_of, question_of, settings_of};
pub use rewriting::write_image;
pub use sending::send_text;
