use g1_layout::{Plan, Run};
use g1_words::{Geometry, Heap};
use std::marker::Model;

/// A heap, and a plan that was made from it.
#[derive(Drop)]
pub(crate) struct Moving<'a> {
    pub(crate) heap: &'a Heap,
    pub(crate) plan: &'a Plan,
}

impl<'a> Model for Moving<'a> {
    ghost use Rattle.g1_words.specs.Valid.{IsValid};
    ghost use Rattle.g1_copy.specs.Plans.{IsPlanOf, Moving as MovingOf};

    ghost Value = { MovingOf };

    ghost view = { λ m. record { heap = m.heap.now; plan = m.plan.now } };

    ghost invariant = { λ m. IsValid m.heap.now × IsPlanOf m.heap.now m.plan.now };
}

impl<'a> Moving<'a> {
    ghost use Rattle.std.specs.Prelude.{◌≡◌};
    ghost use Rattle.g1_words.specs.Valid.{IsValid};
    ghost use Rattle.g1_copy.specs.Plans.{IsPlanOf};

    /// The geometry of the heap.
    pub(crate) fn geometry(&self) -> Geometry
        ensures same { result ≡ self.now.heap.geometry }
        ensures valid { IsValid self.now.heap }
        ensures made { IsPlanOf self.now.heap self.now.plan }
    {
        self.heap.geometry()
    }

    /// The runs of the plan.
    pub(crate) fn runs(&self) -> &'a [Run]
        ensures same { result.now ≡ self.now.plan.runs }
        ensures made { IsPlanOf self.now.heap self.now.plan }
    {
        self.plan.runs()
    }

    /// The places of the plan's survivors.
    pub(crate) fn places(&self) -> &'a [u64]
        ensures { result.now ≡ self.now.plan.places }
    {
        self.plan.places()
    }
}
