ghost use Rattle.std.specs.Prelude.{◌≡◌, ◌<◌, ◌≤◌};
ghost use Rattle.g1_claim.specs.Claims.{IsSeatOf};

use crate::expecting::{expect_equal, expect_list};
use g1_claim::{ClaimSeat, Claims, EMPTY, shares};
use g1_words::Fault;
use std::thread;
use std::thread::Threads;

// As many places as there are words in the largest heap.
const PLACES: u64 = 16_777_216;

#[test]
fn the_largest_table_is_made(rt: HostRuntime) -> Result<(), Fault> {
    let (claims, mut seat) = Claims::new(rt.alloc(), PLACES)?;
    expect_equal(&rt, shares(&seat), 64);
    expect_equal(&rt, claims.least(&mut seat, PLACES - 1), EMPTY);
    expect_equal(&rt, claims.offer(&mut seat, PLACES - 1, 7), true);
    expect_equal(&rt, claims.least(&mut seat, PLACES - 1), 7);
    expect_equal(&rt, claims.least(&mut seat, 4_194_304), EMPTY);
    Ok(())
}

#[test]
fn a_table_may_have_no_places(rt: HostRuntime) -> Result<(), Fault> {
    let (claims, mut seat) = Claims::new(rt.alloc(), 0)?;
    let other = claims.split(&mut seat);
    claims.join(&mut seat, other);
    expect_equal(&rt, claims.close(seat).len(), 0);
    Ok(())
}

// A thousand ranks at one place, the greatest first.
fn offer_thousand(claims: &Claims, mut seat: ClaimSeat, from: u64) -> ClaimSeat
    requires seat { IsSeatOf claims.now seat × (seat.hand.shares ≡ 1) }
    requires place { 0 < claims.now.places }
    requires ranks { from ≤ 3000 }
    ensures { IsSeatOf claims.now result × (result.hand.shares ≡ 1) }
{
    for k in 0..1000u64 {
        claims.offer(&mut seat, 0, from + 999 - k);
    }
    seat
}

// Two threads offer from these seats, and come back with one of both shares.
fn offer_by_two<R: Threads>(
    rt: &R,
    claims: &Claims,
    a: ClaimSeat,
    b: ClaimSeat,
    from: u64,
) -> ClaimSeat
    requires a { IsSeatOf claims.now a × (a.hand.shares ≡ 1) }
    requires b { IsSeatOf claims.now b × (b.hand.shares ≡ 1) }
    requires place { 0 < claims.now.places }
    requires ranks { from ≤ 2000 }
    ensures { IsSeatOf claims.now result × (result.hand.shares ≡ 2) }
{
    let (mut seat, other) = thread::join(
        rt,
        move || offer_thousand(claims, a, from),
        move || offer_thousand(claims, b, from + 1000),
    );
    claims.join(&mut seat, other);
    seat
}

// Four threads offer from the seats that are split off this one, and give them back.
fn offer_by_four<R: Threads + Sync>(rt: &R, claims: &Claims, seat: &mut ClaimSeat)
    requires seat { IsSeatOf claims.now seat.old }
    requires whole { seat.old.hand.shares ≡ 64 }
    requires place { 0 < claims.now.places }
    ensures seat { IsSeatOf claims.now seat.new }
    ensures whole { seat.new.hand.shares ≡ 64 }
{
    let a = claims.split(seat);
    let b = claims.split(seat);
    let c = claims.split(seat);
    let d = claims.split(seat);
    let (a, c) = thread::join(
        rt,
        move || offer_by_two(rt, claims, a, b, 0),
        move || offer_by_two(rt, claims, c, d, 2000),
    );
    claims.join(seat, a);
    claims.join(seat, c);
}

#[test]
fn four_threads_offer_at_one_place(rt: HostRuntime) -> Result<(), Fault> {
    let (claims, mut seat) = Claims::new(rt.alloc(), 1)?;
    offer_by_four(&rt, &claims, &mut seat);
    expect_list(&rt, &claims.close(seat), &[0]);
    Ok(())
}
