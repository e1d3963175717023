//! The judge of heap images for a program in C, C++ or Rust that has the images in its own memory.
//!
//! A static library. Its calls take the bytes of images, and write what they find into what the caller
//! gives; `include/g1judge.h` declares them for C. They start no thread and keep nothing from one call
//! to the next, so several threads may call them at once.
//!
//! 1. `g1_same` says whether two images show one graph from their roots, else the first difference with
//!    the path to it, else the fault of the first image, else that of the second. A word of the second that references
//!    no object is a difference if a path leads to it.
//! 2. `g1_image` says whether bytes are an image's text, else their fault.
//! 3. `g1_covered` asks beside that whether each slot is covered, and says the lowest that is not.
//! 4. `g1_kept` says whether the second of two images keeps what a pause of some regions of the first
//!    keeps, else what is lost first, else the first region of the set that the first image does not
//!    allow, else their faults as `g1_same` does.
//! 5. `g1_broken` says what `g1_covered` says, and beside it which rule the bytes break, with the place and the word that
//!    break it, in one sentence.
//! 6. What a call finds is a `Verdict`. Its status is what the call returns, and is the one with which
//!    `g1heap` and `g1pause` end; its numbers are an `Answer`; its path goes into the caller's buffer as
//!    far as there is room, and the answer says how long it is.
//!
//! Each call states again the clauses of the calls below it: `decode` and `decode_stale` of g1_image,
//! `first_uncovered` of g1_rem, `compare` and `compare_stale` of g1_same, `given` of g1_choose and `kept` of
//! g1_kept. That the statuses of a sound answer exclude each other, and that memory alone has its status, are laws.
#![tactic(auto)]

mod answer;
mod answering;
mod breaking;
mod counting;
mod exports;
mod judging;
pub mod laws;
mod verdict;
