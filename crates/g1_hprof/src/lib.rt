//! Heap dumps of Java virtual machines, in the form HPROF 1.0.1 or 1.0.2, made into images.
//!
//! 1. The bytes are read forward once (`reader`). Records have texts, names of classes and the heap; of the heap
//!    the classes are kept, and of the other objects where they are and which group they are in (`dump`,
//!    `classes`). Objects of one class or type and of one length are a group.
//! 2. Each group has a shape: how many slots and bytes an object has, where they are in the dump, and its label
//!    (`shape`). The label of a class is its identifier, or in an image of a part the SHA-256 of its name.
//! 3. Each identifier gets the number of its object (`index`).
//! 4. What hangs from the static fields that were named is reached breadth first (`wanted`, `walk`), unless all
//!    objects are wanted. A reference that leads to nothing is refused with the path to it.
//! 5. The objects are laid behind each other, group by group, or in the dump's order if all are wanted (`layout`).
//! 6. Their words are written, and the card of each slot that references another region is remembered (`filling`).
//! 7. The names of roots, types and objects are written as lines, if they are wanted (`naming`).
//! 8. `convert` does all this. It reads the bytes of the image again, so that what it returns is an image's text
//!    (`converting`).
//!
//! No length in the file is trusted: memory is taken for what was read, and the words of an image are counted
//! before they are laid.
#![tactic(auto)]

mod classes;
mod converting;
mod dump;
mod filling;
mod index;
mod layout;
mod naming;
mod reader;
mod refused;
mod shape;
mod walk;
mod wanted;

pub use converting::{Converted, convert};
pub use refused::Refused;
pub use wanted::{Sizes, Wanted};
