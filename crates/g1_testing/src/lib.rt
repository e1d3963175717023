//! Heap images for tests, drawn as lines or laid by numbers, and streams that have trouble.
//!
//! 1. `text` gives the bytes of an image that lines draw (`drawing`), and `image` what `decode` makes of them. They are
//!    lines of docs/HEAP_TEXT.md, so `g1heap make` reads them too. Small images of several tests stand in `pictures`.
//! 2. `raw` gives bytes by their numbers. Large images and bytes that are no image are laid so.
//! 3. Neither takes `encode`: a change of the layout changes this crate and the numbers, and no test.
//! 4. `Stream` is a reader and writer that has trouble. A new kind of trouble goes there.
//! 5. `is_refusal` judges what a call left that was refused memory: a driver of calls asks it.
//!
//! No contract says what a function here returns, so that no proof of a test has an image before it. The crate has no
//! tests: those that use it are.
#![tactic(auto)]

mod drawing;
mod numbers;
pub mod pictures;
mod refusal;
mod stream;

pub use drawing::text;
use g1_image::{Image, decode};
use g1_words::Fault;
pub use numbers::raw;
pub use refusal::is_refusal;
use std::alloc::Global;
pub use stream::{Stream, Trouble};

/// The image that the lines draw.
///
/// # Errors
///
/// Those of `text`, and those of `decode` if the lines draw what is no image.
pub fn image(alloc: Global, lines: &str) -> Result<Image, Fault> {
    let bytes = text(alloc, lines)?;
    decode(alloc, &bytes)
}
