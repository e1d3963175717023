ghost use Rattle.std.specs.Prelude.{◌≡◌};
ghost use Rattle.g1_image.specs.Cards.{IsTracked};

use g1_layout::Plan;
use g1_rem::{Starts, Tracked, image};
use g1_words::Heap;
use std::marker::Model;

/// What a pause is prepared on, but for the cards or the slots that lead into its set.
#[derive(Drop)]
pub(crate) struct Pausing<'a> {
    pub(crate) tracked: &'a Tracked,
    pub(crate) starts: &'a Starts,
    pub(crate) remembered: &'a [Vec<u32>],
    pub(crate) set: &'a [u32],
    pub(crate) plan: &'a Plan,
}

impl<'a> Model for Pausing<'a> {
    ghost use Rattle.std.specs.Prelude.{map};
    ghost use Rattle.g1_copy.specs.Plans.{IsPausing, Pausing as PausingOf};

    ghost Value = { PausingOf };

    ghost view = { λ p. record { image = p.tracked.now; set = p.set.now; plan = p.plan.now } };

    ghost invariant = { λ p. IsPausing p.tracked.now p.set.now p.plan.now p.starts.now (map (λ s. s.items) p.remembered.now) };
}

/// The heap of a tracked image.
pub(crate) fn heap_of(tracked: &Tracked) -> &Heap
    ensures same { result.now ≡ tracked.now.heap }
    ensures tracked { IsTracked tracked.now }
{
    image(tracked).heap()
}
