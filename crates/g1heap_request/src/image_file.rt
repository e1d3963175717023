//! Images on the command line.
use g1_words::Limits;

/// A file of an image, or `-` for standard input, and the limits within which it is read.
#[derive(Drop)]
pub struct ImageFile {
    pub name: String,
    pub limits: Limits,
}
