//! What a seat holds, and what it has seen of the history of its table.
ghost use Rattle.std.specs.Prelude.{ℕ, List};
ghost use Rattle.std.specs.Borrow.{ftrue};
ghost use Rattle.g1_claim.specs.declared.rule.Hand.{Hand};

use std::marker::Model;

// What a seat holds, and the offers of all seats, in the order of their steps, as far as this seat
// has seen them; `told` has what a seat had seen that this one took in. Each offer is its place and
// its rank. No value of it is made.
pub struct Witness {
    pub ghost hand: { Hand },
    pub ghost seen: { List (ℕ × ℕ) },
    pub ghost told: { List (ℕ × ℕ) },
}

impl Model for Witness {
    ghost also_owns = { λ _. ftrue };
}
