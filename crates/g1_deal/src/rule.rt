//! What threads keep of the cursor, and what each step on it returns.
ghost use Rattle.std.specs.Prelude.{ℕ, Bool, List};
ghost use Rattle.std.specs.Borrow.{ftrue};

use atomic_table::{Join, Play, Split, TableRule};
use std::marker::Model;

// What a seat holds. No value of it is made.
pub struct Hand {
    pub ghost chunks: { ℕ },
    pub ghost shares: { ℕ },
    pub ghost draws: { List ℕ },
    pub ghost floor: { ℕ },
    pub ghost steps: { ℕ },
    pub ghost had_none: { Bool },
}

impl Model for Hand {
    ghost also_owns = { λ _. ftrue };
}

pub struct Deal;

impl TableRule<(), Hand, u64> for Deal {
    ghost use Rattle.g1_deal.specs.Rule.{Dealt, first_hand};

    ghost holds = { Dealt };

    ghost first = { first_hand };
}

// The step of `take`.
pub struct Draw;

impl Play<(), Hand> for Draw {
    ghost use Rattle.g1_deal.specs.Rule.{drew};

    ghost then = { drew };
}

// The load of `drawn`.
pub struct See;

impl Play<(), Hand> for See {
    ghost use Rattle.g1_deal.specs.Rule.{saw};

    ghost then = { saw };
}

// The load of `join`, which tells what the joined seat holds.
pub struct Look;

impl Play<(), Hand> for Look {
    ghost use Rattle.g1_deal.specs.Rule.{looked};

    ghost then = { looked };
}

pub struct OneShare;

impl Split<Hand> for OneShare {
    ghost use Rattle.g1_deal.specs.Rule.{left_hand, right_hand};

    ghost left = { left_hand };

    ghost right = { right_hand };
}

pub struct BothHands;

impl Join<Hand> for BothHands {
    ghost use Rattle.g1_deal.specs.Rule.{both_hands, spent_hand};

    ghost both = { both_hands };

    ghost spent = { spent_hand };
}
