ghost use Rattle.std.specs.Prelude.{◌≡◌, ℕ, ◌+◌, ◌-◌, ◌^◌, ◌<◌, ◌≤◌, ◌||◌, min, max, true, false, [], ◌∷◌, ◌++◌, length, IfOk, IfErr, IfSome, IfNone, IsTrue, IsNone};
ghost use Rattle.g1_words.specs.declared.fault.Fault.TheVariants.{Memory};
ghost use Rattle.g1_deal.specs.Dealer.{DealerView, dealer_view_coded, SeatView, seat_view_coded, all_shares, first_seat, IsSeatOf, IsEachBelow, IsOnceBelow};
ghost use Rattle.g1_deal.specs.Rule.{DrawnBy, IsKnown, hand_of};

use crate::rule::{BothHands, Deal, Draw, Hand, Look, OneShare, See};
use atomic_table::{Seat, Table};
use g1_words::Fault;
use std::alloc::Global;
use std::marker::Model;

const SHARES: u32 = 64;

/// A dealer of the numbers below its count of chunks. Threads share it by reference, and each
/// draws with a seat of its own.
///
/// Contracts see which dealer it is, and its count of chunks.
#[derive(Drop)]
pub struct Dealer {
    table: Table<(), Hand, u64, Deal, Global>,
    chunks: u64,
}

impl Model for Dealer {
    ghost Value = { DealerView };

    ghost coded = { dealer_view_coded };

    ghost view = { λ d. record { id = d.table.shared.table_id; chunks = d.chunks } };

    ghost invariant = { λ d. (d.table.shared.table_id.words ≡ 1) × (d.table.shared.table_id.slots ≡ 0) × (d.table.shared.key ≡ d.chunks) × (d.chunks < 2 ^ 32) };
}

/// The right of one thread to draw from a dealer, for some of its 64 shares.
///
/// Contracts see its shares, the numbers that it has drawn, its floor (the greatest count of drawn
/// chunks that it knows), its steps on the cursor, and whether it has had None. The numbers drawn
/// take no bytes.
#[derive(Drop)]
pub struct DealSeat {
    seat: Seat<(), Hand>,
    shares: u32,
    had_none: bool,
}

impl Model for DealSeat {
    ghost Value = { SeatView };

    ghost coded = { seat_view_coded };

    ghost view = { λ s. record { dealer = s.seat.table_id; chunks = s.seat.me.0.chunks; shares = s.seat.me.0.shares; draws = s.seat.me.0.draws; floor = s.seat.me.0.floor; steps = s.seat.me.0.steps; had_none = s.seat.me.0.had_none } };

    ghost invariant = { λ s. (s.seat.me.1 ≡ []) × (s.seat.me.0.shares ≡ s.shares) × (s.seat.me.0.had_none ≡ s.had_none) × (0 < s.shares) × (s.shares ≤ all_shares) × (s.seat.me.0.floor ≤ s.seat.me.0.chunks) × (s.had_none ≡ true → s.seat.me.0.floor ≡ s.seat.me.0.chunks) × IsKnown s.seat.me.0 };
}

impl Dealer {
    /// A dealer of the numbers below `chunks`, and the seat of all 64 shares.
    ///
    /// # Errors
    /// `Memory`.
    ///
    /// # Examples
    ///
    /// ```
    /// use g1_deal::{Dealer, shares};
    ///
    /// let (dealer, seat) = Dealer::new(alloc, 3)?;
    /// assert_eq!(rt; dealer.chunks(), 3);
    /// assert_eq!(rt; shares(&seat), 64);
    /// ```
    pub fn new(alloc: Global, chunks: u64) -> Result<(Dealer, DealSeat), Fault>
        requires { chunks < 2 ^ 32 }
        ensures chunks { IfOk result (λ r. r.0.chunks ≡ chunks) }
        ensures seat { IfOk result (λ r. r.1 ≡ first_seat r.0) }
        ensures err { IfErr result (λ e. e ≡ Memory) }
    {
        let (table, seat) = Table::of_words(alloc, &[0], &chunks)?;
        let dealer = Dealer { table, chunks };
        let seat = DealSeat {
            seat,
            shares: SHARES,
            had_none: false,
        };
        Ok((dealer, seat))
    }

    /// How many chunks there are.
    ///
    /// # Examples
    ///
    /// ```
    /// use g1_deal::Dealer;
    ///
    /// let (dealer, _seat) = Dealer::new(alloc, 9)?;
    /// assert_eq!(rt; dealer.chunks(), 9);
    /// ```
    pub fn chunks(&self) -> u64
        ensures { result ≡ self.now.chunks }
    {
        self.chunks
    }

    /// The next number below the count of chunks, or None if every one has been drawn.
    ///
    /// It is one step on the cursor: when it comes, all seats together have drawn the numbers below
    /// this one, each once, and no others. A seat that has had None makes no further step, and answers
    /// None.
    ///
    /// # Examples
    ///
    /// ```
    /// use g1_deal::Dealer;
    ///
    /// let (dealer, mut seat) = Dealer::new(alloc, 2)?;
    /// assert_eq!(rt; dealer.take(&mut seat), Some(0));
    /// assert_eq!(rt; dealer.take(&mut seat), Some(1));
    /// assert_eq!(rt; dealer.take(&mut seat), None);
    /// ```
    pub fn take(&self, seat: &mut DealSeat) -> Option<u64>
        requires { IsSeatOf self.now seat.old }
        ensures below { IfSome result (λ n. n < self.now.chunks) }
        ensures not_known { IfSome result (λ n. seat.old.floor ≤ n) }
        ensures drawn { IfSome result (λ n. seat.new ≡ record seat.old { draws = seat.old.draws ++ n ∷ []; floor = n + 1; steps = seat.old.steps + 1 }) }
        ensures none { IfNone result (seat.new ≡ record seat.old { floor = self.now.chunks; steps = seat.new.steps; had_none = true }) }
        ensures next { IfSome result (λ n. DrawnBy (hand_of seat.old) n) }
        ensures end { IfNone result (seat.old.had_none ≡ false → DrawnBy (hand_of seat.old) self.now.chunks) }
        ensures one_step { seat.old.had_none ≡ false → seat.new.steps ≡ seat.old.steps + 1 }
        ensures no_step { IsTrue seat.old.had_none → seat.new.steps ≡ seat.old.steps }
        ensures stays_none { IsTrue seat.old.had_none → IsNone result }
        ensures once { IsOnceBelow self.now.chunks seat.new.draws }
        ensures cursor { seat.new.steps ≤ self.now.chunks + all_shares }
        ensures whole { seat.new.shares ≡ all_shares → IsEachBelow (min seat.new.steps self.now.chunks) seat.new.draws }
        ensures all { seat.new.shares ≡ all_shares → seat.new.floor ≡ self.now.chunks → IsEachBelow self.now.chunks seat.new.draws }
    {
        if seat.had_none {
            return None;
        }
        let found = self.table.shared.fetch_add::<Draw>(&mut seat.seat, 0, 1);
        if found < self.chunks {
            Some(found)
        } else {
            seat.had_none = true;
            None
        }
    }

    /// How many chunks have been drawn, by all seats, when the cursor is read. It is one load.
    ///
    /// # Examples
    ///
    /// ```
    /// use g1_deal::Dealer;
    ///
    /// let (dealer, mut seat) = Dealer::new(alloc, 3)?;
    /// let mut other = dealer.split(&mut seat);
    /// assert_eq!(rt; dealer.drawn(&mut other), 0);
    /// dealer.take(&mut seat);
    /// assert_eq!(rt; dealer.drawn(&mut other), 1);
    /// ```
    pub fn drawn(&self, seat: &mut DealSeat) -> u64
        requires { IsSeatOf self.now seat.old }
        ensures known { seat.old.floor ≤ result }
        ensures below { result ≤ self.now.chunks }
        ensures floor { seat.new ≡ record seat.old { floor = result } }
        ensures so_far { DrawnBy (hand_of seat.old) result }
        ensures count { seat.old.shares ≡ all_shares → result ≡ length seat.old.draws }
        ensures whole { seat.old.shares ≡ all_shares → IsEachBelow result seat.old.draws }
    {
        let found = self.table.shared.load::<See>(&mut seat.seat, 0);
        found.min(self.chunks)
    }

    /// Hands one share to a new seat, which has drawn nothing and knows what the old one knows.
    ///
    /// # Examples
    ///
    /// ```
    /// use g1_deal::{Dealer, shares};
    ///
    /// let (dealer, mut seat) = Dealer::new(alloc, 3)?;
    /// let mut other = dealer.split(&mut seat);
    /// assert_eq!(rt; (shares(&seat), shares(&other)), (63, 1));
    /// assert_eq!(rt; dealer.take(&mut other), Some(0));
    /// assert_eq!(rt; dealer.take(&mut seat), Some(1));
    /// ```
    pub fn split(&self, seat: &mut DealSeat) -> DealSeat
        requires dealer { IsSeatOf self.now seat.old }
        requires two { 1 < seat.old.shares }
        ensures left { seat.new ≡ record seat.old { shares = seat.old.shares - 1 } }
        ensures dealer { IsSeatOf self.now result }
        ensures share { result.shares ≡ 1 }
        ensures no_draws { result.draws ≡ [] }
        ensures no_steps { result.steps ≡ 0 }
        ensures floor { result.floor ≡ seat.old.floor }
        ensures had_none { result.had_none ≡ seat.old.had_none }
    {
        let other = self.table.shared.split_seat::<OneShare>(&mut seat.seat);
        seat.shares -= 1;
        DealSeat {
            seat: other,
            shares: 1,
            had_none: seat.had_none,
        }
    }

    /// Puts what another seat has into this one: its shares, its draws and its steps.
    ///
    /// # Examples
    ///
    /// ```
    /// use g1_deal::{Dealer, shares};
    ///
    /// let (dealer, mut seat) = Dealer::new(alloc, 3)?;
    /// let other = dealer.split(&mut seat);
    /// dealer.join(&mut seat, other);
    /// assert_eq!(rt; shares(&seat), 64);
    /// ```
    pub fn join(&self, seat: &mut DealSeat, other: DealSeat)
        requires seat { IsSeatOf self.now seat.old }
        requires other { IsSeatOf self.now other }
        ensures dealer { IsSeatOf self.now seat.new }
        ensures shares { seat.new.shares ≡ seat.old.shares + other.shares }
        ensures draws { seat.new.draws ≡ seat.old.draws ++ other.draws }
        ensures steps { seat.new.steps ≡ seat.old.steps + other.steps }
        ensures floor { seat.new.floor ≡ max seat.old.floor other.floor }
        ensures had_none { seat.new.had_none ≡ seat.old.had_none || other.had_none }
        ensures most { seat.new.shares ≤ all_shares }
        ensures once { IsOnceBelow self.now.chunks seat.new.draws }
        ensures cursor { seat.new.steps ≤ self.now.chunks + all_shares }
        ensures whole { seat.new.shares ≡ all_shares → IsEachBelow (min seat.new.steps self.now.chunks) seat.new.draws }
        ensures all { seat.new.shares ≡ all_shares → seat.new.floor ≡ self.now.chunks → IsEachBelow self.now.chunks seat.new.draws }
    {
        let DealSeat {
            seat: hand,
            shares,
            had_none,
        } = other;
        self.table
            .shared
            .join_seat::<BothHands>(&mut seat.seat, hand);
        self.table.shared.load::<Look>(&mut seat.seat, 0);
        seat.shares += shares;
        seat.had_none |= had_none;
    }

    /// Ends the dealing, and gives the cursor: how many steps all seats have made.
    ///
    /// # Examples
    ///
    /// ```
    /// use g1_deal::Dealer;
    ///
    /// let (dealer, mut seat) = Dealer::new(alloc, 3)?;
    /// while dealer.take(&mut seat).is_some() {}
    /// // Three steps found a number each, and the last one found none.
    /// assert_eq!(rt; dealer.close(seat), 4);
    /// ```
    pub fn close(self, seat: DealSeat) -> u64
        requires dealer { IsSeatOf self seat }
        requires whole { seat.shares ≡ all_shares }
        ensures steps { result ≡ seat.steps }
        ensures cursor { result ≤ self.chunks + all_shares }
        ensures known { seat.floor ≤ min result self.chunks }
        ensures draws { IsEachBelow (min result self.chunks) seat.draws }
        ensures count { length seat.draws ≡ min result self.chunks }
        ensures all { seat.floor ≡ self.chunks → IsEachBelow self.chunks seat.draws }
    {
        let Dealer { table, chunks: _ } = self;
        let DealSeat {
            seat,
            shares: _,
            had_none: _,
        } = seat;
        let closed = table.close_with(seat);
        let cursor = closed.word(0);
        closed.free();
        cursor
    }
}

/// How many of the dealer's 64 shares the seat has.
///
/// # Examples
///
/// ```
/// use g1_deal::{Dealer, shares};
///
/// let (dealer, mut seat) = Dealer::new(alloc, 3)?;
/// let other = dealer.split(&mut seat);
/// assert_eq!(rt; shares(&seat), 63);
/// assert_eq!(rt; shares(&other), 1);
/// ```
pub fn shares(seat: &DealSeat) -> u32
    ensures shares { result ≡ seat.now.shares }
    ensures some { 0 < result }
    ensures most { result ≤ all_shares }
{
    seat.shares
}
