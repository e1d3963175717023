ghost use Rattle.std.specs.Prelude.{◌≡◌, ◌<◌, ◌≤◌, ◌^◌, ◌*◌, IfOk, IfErr, length, flat_map};
ghost use Rattle.std.specs.List.{All};
ghost use Rattle.g1_words.specs.declared.fault.Fault.TheVariants.{Memory};
ghost use Rattle.g1_claim.specs.Claims.{all_shares, IsSeatOf};
ghost use Rattle.g1_claim.specs.History.{AreSeen};
ghost use Rattle.g1_frontier.specs.Looking.{HasLooked};
ghost use Rattle.g1_frontier.specs.Numbers.{BeginsIn};
ghost use Rattle.g1_frontier.specs.Offering.{HasPlaces};
ghost use Rattle.g1_frontier.specs.Round.{winners};
ghost use Rattle.g1_frontier.specs.Scope.{place_in};

use crate::crew::Crew;
use crate::offering::{Holder, keep_if};
use crate::rooms::join_lists;
use crate::round::{give_out, take_in};
use crate::scope::Scope;
use g1_claim::{ClaimSeat, Claims};
use g1_words::Fault;
use g1_work::{Gate, Open, Task, each_chunk};
use std::alloc::{AllocError, Global};
use std::thread::Threads;

// A look is one load, which mostly misses the caches. So many take some ten times as long as a
// thread takes to start.
const LOOKS_A_WORKER: usize = 4096;

// A worker draws so many at once: enough that a draw costs nothing beside them.
const LOOKS_A_CHUNK: usize = 1024;

// Of the pairs, those whose rank the seat sees as the word of their place.
fn still_there(
    alloc: Global,
    scope: &Scope,
    claims: &Claims,
    seat: &mut ClaimSeat,
    pairs: &[(u64, u64)],
) -> Result<Vec<(u64, u64)>, AllocError>
    requires places { HasPlaces scope.now claims.now }
    requires seat { IsSeatOf claims.now seat.old }
    requires inside { All (λ q. BeginsIn scope.now.heap.now scope.now.window.now q.1) pairs.now }
    ensures { IfOk result (λ v. HasLooked (place_in scope.now) pairs.now seat.old seat.new v.items) }
{
    // Nearly all of them are still there.
    let mut kept = Vec::with_capacity(alloc, pairs.len())?;
    for pair in pairs {
        let Some(place) = scope.place(pair.1) else {
            unreachable!()
        };
        let word = claims.least(seat, place);
        keep_if(&mut kept, word == pair.0, pair.0, pair.1)?;
    }
    Ok(kept)
}

/// The pairs that a round kept, by chunks of this many.
#[derive(Drop)]
pub struct Looking<'a> {
    pub scope: &'a Scope<'a>,
    pub claims: &'a Claims,
    pub pairs: &'a [(u64, u64)],
    pub chunk: usize,
    pub alloc: Global,
}

impl<'a> Task for Looking<'a> {
    type State = Holder;

    type Out = Vec<(u64, u64)>;

    ghost use Rattle.std.specs.Prelude.{◌≡◌, ◌<◌, ◌≤◌, ◌*◌, ◌^◌, length};
    ghost use Rattle.std.specs.List.{All};
    ghost use Rattle.g1_words.specs.declared.fault.Fault.TheVariants.{Memory};
    ghost use Rattle.g1_work.specs.Regions.{slice_of};
    ghost use Rattle.g1_work.specs.Team.{most_chunk};
    ghost use Rattle.g1_claim.specs.Claims.{IsSeatOf};
    ghost use Rattle.g1_frontier.specs.Looking.{HasLooked};
    ghost use Rattle.g1_frontier.specs.Numbers.{BeginsIn};
    ghost use Rattle.g1_frontier.specs.Offering.{HasPlaces};
    ghost use Rattle.g1_frontier.specs.Scope.{place_in};

    ghost ready = { λ s h k. HasPlaces s.scope.now s.claims.now × IsSeatOf s.claims.now h.seat × All (λ q. BeginsIn s.scope.now.heap.now s.scope.now.window.now q.1) s.pairs.now × (0 < s.chunk) × (k * s.chunk < length s.pairs.now) × (k < 2 ^ 32) × (s.chunk ≤ most_chunk) };

    ghost runs = { λ s h k t out. (t.kept.items ≡ h.kept.items) × (t.number ≡ h.number) × HasLooked (place_in s.scope.now) (slice_of s.chunk k s.pairs.now) h.seat t.seat out.items };

    ghost may_fail = { λ _ _ e. e ≡ Memory };

    fn run(&self, state: &mut Holder, chunk: u64) -> Result<Vec<(u64, u64)>, Fault> {
        let rest = &self.pairs[chunk as usize * self.chunk..];
        let pairs = &rest[..rest.len().min(self.chunk)];
        let won = still_there(self.alloc, self.scope, self.claims, &mut state.seat, pairs)?;
        Ok(won)
    }
}

// Of the pairs, those whose rank is the word of their place, by this many workers: the whole seat
// after, and these pairs by chunks. The seat has seen all its offers, so each worker has.
fn look_by_chunks<R: Threads + Sync, G: Gate + Sync>(
    crew: &Crew<'_, R, G>,
    scope: &Scope,
    claims: &Claims,
    seat: ClaimSeat,
    pairs: &[(u64, u64)],
) -> Result<(ClaimSeat, Vec<Vec<(u64, u64)>>), Fault>
    requires places { HasPlaces scope.now claims.now }
    requires seat { IsSeatOf claims.now seat × (seat.hand.shares ≡ all_shares) }
    requires seen { AreSeen seat.hand.offers seat.seen }
    requires inside { All (λ q. BeginsIn scope.now.heap.now scope.now.window.now q.1) pairs.now }
    requires few { length pairs.now ≤ 2 ^ 32 }
    ensures seat { IfOk result (λ r. IsSeatOf claims.now r.0 × (r.0.hand.shares ≡ all_shares) × (r.0.hand.offers ≡ seat.hand.offers)) }
    ensures won { IfOk result (λ r. flat_map (λ l. l.items) r.1.items ≡ winners (place_in scope.now) seat.hand.offers pairs.now) }
    ensures memory { IfErr result (λ e. e ≡ Memory) }
{
    let alloc = crew.alloc;
    let count = (pairs.len() + LOOKS_A_CHUNK - 1) / LOOKS_A_CHUNK;
    let team = crew.team.for_chunks((pairs.len() / LOOKS_A_WORKER) as u64);
    // What they see is listed by chunks, so they need no room.
    let mut none = Vec::new(alloc);
    let holders = give_out(alloc, claims, seat, &mut none, team)?;
    let looking = Looking {
        scope,
        claims,
        pairs,
        chunk: LOOKS_A_CHUNK,
        alloc,
    };
    let (holders, lists) = each_chunk(crew.rt, alloc, holders, count as u64, &looking, &Open)?;
    let (seat, _) = take_in(alloc, claims, holders)?;
    Ok((seat, lists))
}

// Of the pairs, those whose rank is the word of their place: the whole seat after, and these pairs.
pub(crate) fn look_again<R: Threads + Sync, G: Gate + Sync>(
    crew: &Crew<'_, R, G>,
    scope: &Scope,
    claims: &Claims,
    mut seat: ClaimSeat,
    rooms: &mut Vec<Vec<(u64, u64)>>,
    pairs: &[(u64, u64)],
) -> Result<(ClaimSeat, Vec<(u64, u64)>), Fault>
    requires places { HasPlaces scope.now claims.now }
    requires seat { IsSeatOf claims.now seat × (seat.hand.shares ≡ all_shares) }
    requires inside { All (λ q. BeginsIn scope.now.heap.now scope.now.window.now q.1) pairs.now }
    requires few { length pairs.now ≤ 2 ^ 32 }
    ensures seat { IfOk result (λ r. IsSeatOf claims.now r.0 × (r.0.hand.shares ≡ all_shares) × (r.0.hand.offers ≡ seat.hand.offers)) }
    ensures won { IfOk result (λ r. r.1.items ≡ winners (place_in scope.now) seat.hand.offers pairs.now) }
    ensures memory { IfErr result (λ e. e ≡ Memory) }
{
    let Some(first) = pairs.first() else {
        return Ok((seat, Vec::new(crew.alloc)));
    };
    let Some(place) = scope.place(first.1) else {
        unreachable!()
    };
    // By this look the whole seat sees all offers, and hands that on to those that are split from it.
    claims.least(&mut seat, place);
    let (seat, lists) = look_by_chunks(crew, scope, claims, seat, pairs)?;
    let won = join_lists(crew.alloc, rooms, lists.as_slice())?;
    Ok((seat, won))
}
