//! Live bytes: how much of each region the roots reach.
//!
//! 1. The window of the search is every region that isn't free, so that no slot is outside of it
//!    and no card is needed. Its survivors are then all that the roots reach.
//! 2. Each live object's bytes are added to those of the region in which it starts. Workers add up
//!    those of a part of the objects each, one worker for each 16,384 of them, and one thread adds
//!    their lists. If one worker searched alone, it has seen the objects' sizes, and adds them up.
//!
//! `live_bytes` does both, `live_objects` the first alone. They are lent the starts of the heap, but look
//! at no card: `count_live_bytes` is `live_bytes` without them.
#![tactic(auto)]

mod bytes;
mod live;

pub use live::{count_live_bytes, live_bytes, live_objects};
