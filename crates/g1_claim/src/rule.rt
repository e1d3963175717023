//! What threads keep of the words, and what each step on one returns.
ghost use Rattle.std.specs.Prelude.{ℕ, List};
ghost use Rattle.std.specs.Borrow.{ftrue};
ghost use Rattle.g1_claim.specs.declared.rule.Offer.{Offer};
ghost use Rattle.g1_claim.specs.declared.rule.Sight.{Sight};

use crate::witness::Witness;
use atomic_table::{Join, Play, Split, TableRule};
use std::marker::Model;

// A rank offered at a place, and whether the offer answered true. No value of it is made.
pub struct Offer {
    pub place: u64,
    pub rank: u64,
    pub won: bool,
}

// A value that was offered or seen at a place. No value of it is made.
pub struct Sight {
    pub place: u64,
    pub value: u64,
}

// What a seat holds; `known` has what it, or the seat that it was split from, offered or saw. No
// value of it is made.
pub struct Hand {
    pub ghost shares: { ℕ },
    pub ghost offers: { List Offer },
    pub ghost sights: { List Sight },
    pub ghost known: { List Sight },
}

impl Model for Hand {
    ghost also_owns = { λ _. ftrue };
}

pub struct LeastWins;

impl TableRule<(), Witness, u64> for LeastWins {
    ghost use Rattle.g1_claim.specs.Rule.{Claimed, first_witness};

    ghost holds = { Claimed };

    ghost first = { λ _. first_witness };
}

// The step of `offer`.
pub struct Lower;

impl Play<(), Witness> for Lower {
    ghost use Rattle.g1_claim.specs.Rule.{lowered};

    ghost then = { lowered };
}

// The load of `least`.
pub struct See;

impl Play<(), Witness> for See {
    ghost use Rattle.g1_claim.specs.Rule.{saw};

    ghost then = { saw };
}

// The load of `join`, which tells what the joined seat holds.
pub struct Look;

impl Play<(), Witness> for Look {
    ghost use Rattle.g1_claim.specs.Rule.{looked};

    ghost then = { looked };
}

pub struct OneShare;

impl Split<Witness> for OneShare {
    ghost use Rattle.g1_claim.specs.Rule.{left_witness, right_witness};

    ghost left = { left_witness };

    ghost right = { right_witness };
}

pub struct BothHands;

impl Join<Witness> for BothHands {
    ghost use Rattle.g1_claim.specs.Rule.{both_witnesses, spent_witness};

    ghost both = { both_witnesses };

    ghost spent = { spent_witness };
}
