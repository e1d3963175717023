/// What the parts of a pause cost: the pause itself, a dirty card, a remembered card of a region
/// that is collected, and a live byte of it. Calls ask that each is below 2^32; `total` asks that
/// its sum fits 128 bits.
#[derive(Debug, Clone, Copy, PartialEq, Eq)]
pub struct Cost {
    pub fixed: u64,
    pub dirty: u64,
    pub card: u64,
    pub byte: u64,
}
