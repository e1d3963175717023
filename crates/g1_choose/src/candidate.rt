ghost use Rattle.std.specs.Prelude.{◌<◌, ◌≤◌, ◌*◌, ◌^◌};
ghost use Rattle.g1_words.specs.Geometry.{most_region_words};

use std::cmp::Ordering;

/// An ordinary region with garbage that isn't pinned: its number, its cost, and its garbage in bytes.
#[derive(Debug, Clone, Copy, PartialEq, Eq)]
pub struct Candidate {
    pub region: u32,
    pub cost: u128,
    pub garbage: u64,
    // With these bounds the products that two candidates are compared by have 128 bits.
    pub ghost cost_fits: { cost < 2 ^ 97 },
    pub ghost some_garbage: { 0 < garbage },
    pub ghost garbage_fits: { garbage ≤ 8 * most_region_words },
}

impl Candidate {
    ghost use Rattle.std.specs.Prelude.{◌≡◌};
    ghost use Rattle.std.specs.Ordering.{is_lt};
    ghost use Rattle.g1_choose.specs.Candidate.{goes_first};

    /// By efficiency: less is more garbage for the cost, and of equals the lower region.
    pub(crate) fn efficiency(&self, other: &Candidate) -> Ordering
        ensures { is_lt result ≡ goes_first self.now other.now }
    {
        let own = self.cost * u128::from(other.garbage);
        let others = other.cost * u128::from(self.garbage);
        own.cmp(&others).then(self.region.cmp(&other.region))
    }
}
