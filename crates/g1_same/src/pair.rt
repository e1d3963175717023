ghost use Rattle.g1_words.specs.Valid.{IsValid};

use g1_words::Heap;

/// Two heaps that are compared, that before and that after. Both keep their rules.
#[derive(Clone, Copy, Drop)]
pub struct Pair<'a> {
    pub before: &'a Heap,
    pub after: &'a Heap,
    // A fact that a type carries has one proof: so it only says that there is one.
    pub ghost valid_before: { ∥ IsValid before.now ∥₁ },
    pub ghost valid_after: { ∥ IsValid after.now ∥₁ },
}

impl<'a> Pair<'a> {
    ghost use Rattle.std.specs.Prelude.{◌≡◌};

    /// These two heaps.
    pub fn new(before: &'a Heap, after: &'a Heap) -> Pair<'a>
        ensures before { result.before.now ≡ before.now }
        ensures after { result.after.now ≡ after.now }
    {
        g1_words::laws::valid(before);
        g1_words::laws::valid(after);
        Pair { before, after }
    }
}
