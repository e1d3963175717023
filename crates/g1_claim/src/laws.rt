//! What a seat keeps, and what any interleaving of the steps of all seats comes to.
ghost use Rattle.std.specs.Prelude.{◌≡◌};
ghost use Rattle.g1_claim.specs.Claims.{all_shares, IsSettled, IsWonOnce, AreWon};
ghost use Rattle.g1_claim.specs.Interleaving.{LeastSoFar, WonSoFar, HistorySoFar, LaterIsLess};

use crate::claims::{ClaimSeat, shares};

/// A seat keeps what it knows of its offers, and of what it saw: its type says so.
pub fn settled(seat: &ClaimSeat)
    ensures once { IsWonOnce seat.now.hand.offers }
    ensures whole { seat.now.hand.shares ≡ all_shares → IsSettled seat.now.hand.offers }
    ensures sights { seat.now.hand.shares ≡ all_shares → AreWon seat.now.hand.sights seat.now.hand.offers }
{
    shares(seat);
}

/// Whatever the order of the steps, a word is the least rank that any seat has offered at its place
/// so far, and exactly one offer of that rank answered true; or nobody has offered there and it is
/// `EMPTY`. It is the least rank that the history has there, and the history has the offers of all
/// seats and no others. So of two sights at a place the one that has seen more of the history is not
/// greater.
pub fn interleavings()
    ensures least { LeastSoFar }
    ensures won { WonSoFar }
    ensures history { HistorySoFar }
    ensures later { LaterIsLess }
{}
