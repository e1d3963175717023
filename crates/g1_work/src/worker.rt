use g1_deal::DealSeat;
use std::collections::VecDeque;

// A worker before its first chunk.
#[derive(Drop)]
pub struct Worker<S> {
    pub seat: DealSeat,
    pub state: S,
}

// A worker after its last chunk, with what each of its chunks gave.
#[derive(Drop)]
pub struct Worked<S, O> {
    pub seat: DealSeat,
    pub state: S,
    pub outs: VecDeque<(u64, O)>,
}

// All workers together: the seat of all shares, the states, and what the chunks of each worker gave.
#[derive(Drop)]
pub struct Gathered<S, O> {
    pub seat: DealSeat,
    pub states: Vec<S>,
    pub parts: Vec<VecDeque<(u64, O)>>,
}
