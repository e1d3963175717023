//! Chunks that workers draw from one shared word.
//!
//! The chunks are the numbers below a count, and a worker claims the next one by one step on one
//! shared word, the cursor:
//!
//! 1. A dealer is made with the cursor at 0, and with one seat that has 64 shares. A thread needs
//!    a seat of its own; a seat that has several shares can be split.
//! 2. To draw, a thread adds one to the cursor by a single `fetch_add`. What it finds is its
//!    number, or, from the count of chunks on, reports that every number has been drawn. Nothing is
//!    tried again, nothing waits, and no memory is taken.
//! 3. One load of the cursor shows how many numbers have been drawn.
//! 4. Seats are joined again. The seat of all 64 shares has drawn each number once if it knows
//!    that all are drawn, and closing the dealer with it gives the cursor.
//!
//! What holds of the cursor between any two steps is one definition, `Dealt` of `specs/Rule`: some
//! interleaving of the seats' steps leads to it. What such interleavings come to are the laws in
//! `laws`. What a seat has drawn is in the proofs alone: the list takes no bytes.
#![tactic(auto)]

mod dealer;
pub mod laws;
mod rule;

pub use dealer::{DealSeat, Dealer, shares};
