ghost use Rattle.std.specs.Prelude.{◌≡◌, ℕ, ◌+◌, ◌-◌, ◌<◌, ◌≤◌, ◌^◌, IfOk, IfErr, IsTrue, IsFalse, ltb, [], vec_len, slice_index, ◌↔◌, ◌⊎◌};
ghost use Rattle.g1_words.specs.declared.fault.Fault.TheVariants.{Memory};
ghost use Rattle.g1_words.specs.Geometry.{most_words};
ghost use Rattle.g1_claim.specs.Claims.{all_shares, IsSeatOf, least_rank, least_value, IsWordOf, IsSettled, IsWonOnce, AreWon};
ghost use Rattle.g1_claim.specs.History.{History, Begins, least_in, IsOffer, AreSeen, AreAll};
ghost use Rattle.g1_claim.specs.Rule.{first_hand, after_offer, after_sight, left_hand, right_hand, both_hands, Found, LeastBy, Lowers, Won, Beaten};

use crate::rule::{BothHands, LeastWins, Look, Lower, OneShare, See};
use crate::witness::Witness;
use atomic_table::{Seat, Table};
use g1_words::Fault;
use std::alloc::Global;
use std::marker::Model;

/// The word of a place at which nobody has offered.
pub const EMPTY: u64 = u64::MAX;

const SHARES: u32 = 64;

/// A table of words that only fall. Threads share it by reference, and each offers with a seat of
/// its own.
///
/// Contracts see which table it is, and how many places it has.
#[derive(Drop)]
pub struct Claims {
    // One word more than places, so that a table of no places can be split too.
    table: Table<(), Witness, u64, LeastWins, Global>,
    // As long as the table, so that `close` returns the words without a request for memory.
    words: Vec<u64>,
}

impl Model for Claims {
    ghost use Rattle.std.specs.Prelude.{◌≡◌, ◌+◌, ◌^◌, ◌≤◌, vec_len};
    ghost use Rattle.g1_words.specs.Geometry.{most_words};
    ghost use Rattle.g1_claim.specs.Claims.{TableView};

    ghost Value = { TableView };

    ghost view = { λ c. record { id = c.table.shared.table_id; places = vec_len c.words } };

    ghost invariant = { λ c. (c.table.shared.key ≡ c.table.shared.table_id.words) × (c.table.shared.table_id.words ≡ vec_len c.words + 1) × (c.table.shared.table_id.slots ≡ 0) × (vec_len c.words ≤ most_words) };
}

/// The right of one thread to offer at the places of a table, for some of its 64 shares.
///
/// Contracts see its shares, the ranks that it offered with their answers, what it saw by `least`,
/// what it knows of the words, and the beginning that it has seen of the table's one history: the
/// offers of all seats, in the order of their steps. These lists take no bytes.
#[derive(Drop)]
pub struct ClaimSeat {
    seat: Seat<(), Witness>,
    shares: u32,
}

impl Model for ClaimSeat {
    ghost use Rattle.std.specs.Prelude.{◌≡◌, ◌<◌, []};
    ghost use Rattle.g1_claim.specs.Claims.{SeatView};
    ghost use Rattle.g1_claim.specs.Rule.{IsKnown};

    ghost Value = { SeatView };

    ghost view = { λ s. record { table = s.seat.table_id; hand = s.seat.me.0.hand; seen = s.seat.me.0.seen } };

    ghost invariant = { λ s. (s.shares ≡ s.seat.me.0.hand.shares) × (0 < s.shares) × (s.seat.me.1 ≡ []) × IsKnown s.seat.me.0.hand };
}

impl Claims {
    /// A table of this many places, all words `EMPTY`, and the seat of all 64 shares.
    ///
    /// # Errors
    /// `Memory`.
    ///
    /// # Examples
    ///
    /// ```
    /// use g1_claim::{Claims, EMPTY, shares};
    ///
    /// let (claims, mut seat) = Claims::new(alloc, 2)?;
    /// assert_eq!(rt; shares(&seat), 64);
    /// assert_eq!(rt; claims.least(&mut seat, 1), EMPTY);
    /// ```
    pub fn new(alloc: Global, places: u64) -> Result<(Claims, ClaimSeat), Fault>
        requires { places ≤ most_words }
        ensures places { IfOk result (λ r. r.0.places ≡ places) }
        ensures seat { IfOk result (λ r. IsSeatOf r.0 r.1) }
        ensures hand { IfOk result (λ r. r.1.hand ≡ first_hand) }
        ensures seen { IfOk result (λ r. r.1.seen ≡ []) }
        ensures err { IfErr result (λ e. e ≡ Memory) }
    {
        let count = places + 1;
        let mut words = vec![in alloc; EMPTY; count as usize]?;
        let (table, seat) = Table::of_words(alloc, words.as_slice(), &count)?;
        let _ = words.pop();
        let claims = Claims { table, words };
        let seat = ClaimSeat {
            seat,
            shares: SHARES,
        };
        Ok((claims, seat))
    }

    /// Offers a rank at a place. The answer is true exactly if this step lowered the word: if the rank
    /// is below all that were offered there before, by whatever seats.
    ///
    /// It is one `fetch_min` on the word.
    ///
    /// # Examples
    ///
    /// ```
    /// use g1_claim::Claims;
    ///
    /// let (claims, mut seat) = Claims::new(alloc, 2)?;
    /// assert!(rt; claims.offer(&mut seat, 0, 9));
    /// assert!(rt; !claims.offer(&mut seat, 0, 9));
    /// assert!(rt; !claims.offer(&mut seat, 0, 12));
    /// assert!(rt; claims.offer(&mut seat, 0, 4));
    /// ```
    pub fn offer(&self, seat: &mut ClaimSeat, place: u64, rank: u64) -> bool
        requires table { IsSeatOf self.now seat.old }
        requires place { place < self.now.places }
        requires rank { rank < 2 ^ 32 }
        ensures table { IsSeatOf self.now seat.new }
        ensures offered { seat.new.hand ≡ after_offer seat.old.hand place rank result }
        ensures lowered { (n : ℕ) × Found seat.old.hand place n × (result ≡ ltb rank n) }
        ensures so_far { (n : ℕ) × Lowers seat.old.hand place rank n seat.new.seen × (result ≡ ltb rank n) }
        ensures history { IsOffer seat.old.seen place rank result seat.new.seen }
        ensures own { AreSeen seat.new.hand.offers seat.new.seen }
        ensures below_known { IsTrue result → rank < least_value place seat.old.hand.known }
        ensures beaten { IsFalse result → Beaten seat.old.hand place rank }
        ensures least { seat.old.hand.shares ≡ all_shares → (IsTrue result ↔ (rank < least_rank place seat.old.hand.offers)) }
        ensures once { IsWonOnce seat.new.hand.offers }
        ensures settled { seat.new.hand.shares ≡ all_shares → IsSettled seat.new.hand.offers }
        ensures sights { seat.new.hand.shares ≡ all_shares → AreWon seat.new.hand.sights seat.new.hand.offers }
    {
        let found = self
            .table
            .shared
            .fetch_min::<Lower>(&mut seat.seat, place as usize, rank);
        rank < found
    }

    /// The least rank that all seats have offered at a place when its word is read, or `EMPTY`.
    ///
    /// It is one load of the word.
    ///
    /// # Examples
    ///
    /// ```
    /// use g1_claim::{Claims, EMPTY};
    ///
    /// let (claims, mut seat) = Claims::new(alloc, 2)?;
    /// claims.offer(&mut seat, 0, 9);
    /// claims.offer(&mut seat, 0, 4);
    /// assert_eq!(rt; claims.least(&mut seat, 0), 4);
    /// assert_eq!(rt; claims.least(&mut seat, 1), EMPTY);
    /// ```
    pub fn least(&self, seat: &mut ClaimSeat, place: u64) -> u64
        requires table { IsSeatOf self.now seat.old }
        requires place { place < self.now.places }
        ensures table { IsSeatOf self.now seat.new }
        ensures seen { seat.new.hand ≡ after_sight seat.old.hand place result }
        ensures found { Found seat.old.hand place result }
        ensures so_far { LeastBy seat.old.hand place result seat.new.seen }
        ensures history { Begins seat.new.seen seat.old.seen × (result ≡ least_in place seat.new.seen) }
        ensures own { AreSeen seat.new.hand.offers seat.new.seen }
        ensures won { (result ≡ EMPTY) ⊎ Won seat.old.hand place result }
        ensures known { result ≤ least_value place seat.old.hand.known }
        ensures least { seat.old.hand.shares ≡ all_shares → IsWordOf place result seat.old.hand.offers }
        ensures once { IsWonOnce seat.new.hand.offers }
        ensures settled { seat.new.hand.shares ≡ all_shares → IsSettled seat.new.hand.offers }
        ensures sights { seat.new.hand.shares ≡ all_shares → AreWon seat.new.hand.sights seat.new.hand.offers }
    {
        self.table
            .shared
            .load::<See>(&mut seat.seat, place as usize)
    }

    /// Hands one share to a new seat, which has offered and seen nothing, and knows of the words
    /// what the old one knows.
    ///
    /// # Examples
    ///
    /// ```
    /// use g1_claim::{Claims, shares};
    ///
    /// let (claims, mut seat) = Claims::new(alloc, 1)?;
    /// let mut other = claims.split(&mut seat);
    /// assert_eq!(rt; (shares(&seat), shares(&other)), (63, 1));
    /// claims.offer(&mut seat, 0, 7);
    /// assert_eq!(rt; claims.least(&mut other, 0), 7);
    /// ```
    pub fn split(&self, seat: &mut ClaimSeat) -> ClaimSeat
        requires table { IsSeatOf self.now seat.old }
        requires two { 1 < seat.old.hand.shares }
        ensures table { IsSeatOf self.now seat.new }
        ensures left { seat.new.hand ≡ left_hand seat.old.hand }
        ensures same { seat.new.seen ≡ seat.old.seen }
        ensures other { IsSeatOf self.now result }
        ensures right { result.hand ≡ right_hand seat.old.hand }
        ensures seen { result.seen ≡ seat.old.seen }
    {
        let other = self.table.shared.split_seat::<OneShare>(&mut seat.seat);
        seat.shares -= 1;
        ClaimSeat {
            seat: other,
            shares: 1,
        }
    }

    /// Puts what another seat has into this one: its shares, its offers, its sights, and what it
    /// knows.
    ///
    /// # Examples
    ///
    /// ```
    /// use g1_claim::{Claims, shares};
    ///
    /// let (claims, mut seat) = Claims::new(alloc, 1)?;
    /// let other = claims.split(&mut seat);
    /// claims.join(&mut seat, other);
    /// assert_eq!(rt; shares(&seat), 64);
    /// ```
    pub fn join(&self, seat: &mut ClaimSeat, other: ClaimSeat)
        requires table { IsSeatOf self.now seat.old }
        requires other { IsSeatOf self.now other }
        ensures table { IsSeatOf self.now seat.new }
        ensures both { seat.new.hand ≡ both_hands seat.old.hand other.hand }
        ensures history { Begins seat.new.seen seat.old.seen × Begins seat.new.seen other.seen }
        ensures own { AreSeen seat.new.hand.offers seat.new.seen }
        ensures most { seat.new.hand.shares ≤ all_shares }
        ensures once { IsWonOnce seat.new.hand.offers }
        ensures settled { seat.new.hand.shares ≡ all_shares → IsSettled seat.new.hand.offers }
        ensures sights { seat.new.hand.shares ≡ all_shares → AreWon seat.new.hand.sights seat.new.hand.offers }
    {
        let ClaimSeat { seat: hand, shares } = other;
        self.table
            .shared
            .join_seat::<BothHands>(&mut seat.seat, hand);
        self.table.shared.load::<Look>(&mut seat.seat, 0);
        seat.shares += shares;
    }

    /// Ends the claiming, and gives the words: of each place the least rank offered there, or
    /// `EMPTY`.
    ///
    /// # Examples
    ///
    /// ```
    /// use g1_claim::{Claims, EMPTY};
    ///
    /// let (claims, mut seat) = Claims::new(alloc, 2)?;
    /// let mut other = claims.split(&mut seat);
    /// claims.offer(&mut seat, 0, 9);
    /// claims.offer(&mut other, 0, 4);
    /// claims.join(&mut seat, other);
    /// assert_eq!(rt; claims.close(seat).as_slice(), [4, EMPTY].as_slice());
    /// ```
    pub fn close(self, seat: ClaimSeat) -> Vec<u64>
        requires table { IsSeatOf self seat }
        requires whole { seat.hand.shares ≡ all_shares }
        ensures places { vec_len result ≡ self.places }
        ensures words { (p : ℕ) → p < self.places → IsWordOf p (slice_index result.items p) seat.hand.offers }
        ensures history { (log : History) × Begins log seat.seen × AreAll seat.hand.offers log × ((p : ℕ) → p < self.places → slice_index result.items p ≡ least_in p log) }
        ensures once { IsWonOnce seat.hand.offers }
        ensures sights { AreWon seat.hand.sights seat.hand.offers }
    {
        let Claims { table, mut words } = self;
        let ClaimSeat { seat, shares: _ } = seat;
        let closed = table.close_with(seat);
        for place in 0..words.len() {
            words[place] = closed.word(place);
        }
        closed.free();
        words
    }
}

/// How many of the table's 64 shares the seat has.
///
/// # Examples
///
/// ```
/// use g1_claim::{Claims, shares};
///
/// let (claims, mut seat) = Claims::new(alloc, 1)?;
/// let other = claims.split(&mut seat);
/// assert_eq!(rt; shares(&seat), 63);
/// assert_eq!(rt; shares(&other), 1);
/// ```
pub fn shares(seat: &ClaimSeat) -> u32
    ensures shares { result ≡ seat.now.hand.shares }
    ensures some { 0 < result }
    ensures most { result ≤ all_shares }
    ensures once { IsWonOnce seat.now.hand.offers }
    ensures settled { result ≡ all_shares → IsSettled seat.now.hand.offers }
    ensures sights { result ≡ all_shares → AreWon seat.now.hand.sights seat.now.hand.offers }
{
    seat.shares
}
