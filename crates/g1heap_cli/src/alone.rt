//! How g1heap searches and pauses: one thread does all, since it prints more than it computes.
pub use g1_work::USUAL_CHUNK as CHUNK;

pub const WORKERS: u64 = 1;
