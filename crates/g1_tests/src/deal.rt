//! A dealer that is lent to threads of the caller's own.
ghost use Rattle.std.specs.Prelude.{◌≡◌, ◌+◌, IfOk};
ghost use Rattle.g1_deal.specs.Dealer.{IsSeatOf};

use crate::expecting::expect_equal;
use g1_deal::{DealSeat, Dealer};
use std::alloc::{AllocError, Global};
use std::process::Abort;
use std::sync::Wait;
use std::test::Fail;
use std::thread;
use std::thread::{Promise, Threads};

// The numbers that one thread drew, and its seat.
#[derive(Drop)]
struct Drawn {
    seat: DealSeat,
    numbers: Vec<u64>,
}

fn draw_all(alloc: Global, dealer: &Dealer, mut seat: DealSeat) -> Result<Drawn, AllocError>
    requires { IsSeatOf dealer.now seat }
    ensures { IfOk result (λ d. IsSeatOf dealer.now d.seat × (d.seat.shares ≡ seat.shares)) }
{
    let mut numbers = Vec::new(alloc);
    while let Some(number) = dealer.take(&mut seat) {
        numbers.push(number)?;
    }
    Ok(Drawn { seat, numbers })
}

#[derive(Clone, Copy)]
struct OneShareOf<'a>(&'a Dealer);

impl<'a> Promise<Result<Drawn, AllocError>> for OneShareOf<'a> {
    ghost kept_by = { λ p r. IfOk r (λ d. IsSeatOf p.0.now d.seat × (d.seat.shares ≡ 1)) };
}

type Two = (Result<Drawn, AllocError>, Result<Drawn, AllocError>);

// What each of four threads drew, if it had room for it.
fn by_four<R: Threads + Wait>(
    rt: &R,
    alloc: Global,
    dealer: &Dealer,
    a: DealSeat,
    b: DealSeat,
    c: DealSeat,
    d: DealSeat,
) -> Result<(Two, Two), AllocError>
    requires a { IsSeatOf dealer.now a × (a.shares ≡ 1) }
    requires b { IsSeatOf dealer.now b × (b.shares ≡ 1) }
    requires c { IsSeatOf dealer.now c × (c.shares ≡ 1) }
    requires d { IsSeatOf dealer.now d × (d.shares ≡ 1) }
    ensures a { IfOk result (λ r. IfOk r.0.0 (λ d. IsSeatOf dealer.now d.seat × (d.seat.shares ≡ 1))) }
    ensures b { IfOk result (λ r. IfOk r.0.1 (λ d. IsSeatOf dealer.now d.seat × (d.seat.shares ≡ 1))) }
    ensures c { IfOk result (λ r. IfOk r.1.0 (λ d. IsSeatOf dealer.now d.seat × (d.seat.shares ≡ 1))) }
    ensures d { IfOk result (λ r. IfOk r.1.1 (λ d. IsSeatOf dealer.now d.seat × (d.seat.shares ≡ 1))) }
{
    thread::scope(
        thread::scope_env(),
        rt,
        |scope| -> Result<(Two, Two), AllocError>
            requires a { IsSeatOf dealer.now a × (a.shares ≡ 1) }
            requires b { IsSeatOf dealer.now b × (b.shares ≡ 1) }
            requires c { IsSeatOf dealer.now c × (c.shares ≡ 1) }
            requires d { IsSeatOf dealer.now d × (d.shares ≡ 1) }
            ensures a { IfOk result (λ r. IfOk r.0.0 (λ d. IsSeatOf dealer.entry.now d.seat × (d.seat.shares ≡ 1))) }
            ensures b { IfOk result (λ r. IfOk r.0.1 (λ d. IsSeatOf dealer.entry.now d.seat × (d.seat.shares ≡ 1))) }
            ensures c { IfOk result (λ r. IfOk r.1.0 (λ d. IsSeatOf dealer.entry.now d.seat × (d.seat.shares ≡ 1))) }
            ensures d { IfOk result (λ r. IfOk r.1.1 (λ d. IsSeatOf dealer.entry.now d.seat × (d.seat.shares ≡ 1))) }
        {
            let a = scope.spawn_with(OneShareOf(dealer), move || draw_all(alloc, dealer, a))?;
            let b = scope.spawn_with(OneShareOf(dealer), move || draw_all(alloc, dealer, b))?;
            let c = scope.spawn_with(OneShareOf(dealer), move || draw_all(alloc, dealer, c))?;
            let d = scope.spawn_with(OneShareOf(dealer), move || draw_all(alloc, dealer, d))?;
            Ok(((a.join(rt), b.join(rt)), (c.join(rt), d.join(rt))))
        },
    )
}

// Gives a thread's seat back, and adds the numbers that it drew.
fn gather(
    dealer: &Dealer,
    seat: &mut DealSeat,
    all: &mut Vec<u64>,
    drawn: Result<Drawn, AllocError>,
) -> Result<(), AllocError>
    requires seat { IsSeatOf dealer.now seat.old }
    requires drawn { IfOk drawn (λ d. IsSeatOf dealer.now d.seat × (d.seat.shares ≡ 1)) }
    ensures seat { IfOk result (λ _. IsSeatOf dealer.now seat.new) }
    ensures shares { IfOk result (λ _. seat.new.shares ≡ seat.old.shares + 1) }
{
    let mut drawn = drawn?;
    dealer.join(seat, drawn.seat);
    all.append(&mut drawn.numbers)
}

// The numbers that four threads draw.
fn all_drawn<R: Threads + Wait>(
    rt: &R,
    alloc: Global,
    dealer: &Dealer,
    seat: &mut DealSeat,
) -> Result<Vec<u64>, AllocError>
    requires seat { IsSeatOf dealer.now seat.old }
    requires whole { seat.old.shares ≡ 64 }
    ensures seat { IfOk result (λ _. IsSeatOf dealer.now seat.new) }
    ensures whole { IfOk result (λ _. seat.new.shares ≡ 64) }
{
    let a = dealer.split(seat);
    let b = dealer.split(seat);
    let c = dealer.split(seat);
    let d = dealer.split(seat);
    let ((a, b), (c, d)) = by_four(rt, alloc, dealer, a, b, c, d)?;
    let mut all = Vec::new(alloc);
    gather(dealer, seat, &mut all, a)?;
    gather(dealer, seat, &mut all, b)?;
    gather(dealer, seat, &mut all, c)?;
    gather(dealer, seat, &mut all, d)?;
    Ok(all)
}

fn expect_each_below<T: Abort>(rt: &T, numbers: &[u64], count: usize) {
    expect_equal(rt, numbers.len(), count);
    for (index, number) in numbers.iter().enumerate() {
        expect_equal(rt, *number, index as u64);
    }
}

#[test]
fn four_threads_draw_each_number_once(rt: HostRuntime) -> Result<(), Fail> {
    let (dealer, mut seat) = Dealer::new(rt.alloc(), 1000)?;
    let mut all = all_drawn(&rt, rt.alloc(), &dealer, &mut seat)?;
    expect_equal(&rt, dealer.close(seat), 1004);
    all.sort_unstable();
    expect_each_below(&rt, &all, 1000);
    Ok(())
}
