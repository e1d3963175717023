ghost use Rattle.std.specs.Prelude.{◌≡◌, ◌<◌, ◌≤◌, ◌^◌, ◌*◌, ◌++◌, ◌∷◌, [], ℕ, List, IfOk, IfErr, length, vec_len, map, flat_map, sum_by, OnOk, ◌+◌, IsPermutation, true};
ghost use Rattle.std.specs.List.{All};
ghost use Rattle.g1_words.specs.declared.fault.Fault.TheVariants.{Memory};
ghost use Rattle.g1_work.specs.Team.{IsTeam};
ghost use Rattle.g1_rem.specs.Starts.{IsStartsOf};
ghost use Rattle.g1_claim.specs.Claims.{all_shares, IsSeatOf, IsSettled};
ghost use Rattle.g1_frontier.specs.Window.{AreRegions, place};
ghost use Rattle.g1_frontier.specs.Items.{IsItem, IsOutside, all_pairs, AreRanks, items_of, ArePaired};
ghost use Rattle.g1_frontier.specs.Numbers.{BeginsIn};
ghost use Rattle.g1_frontier.specs.Scope.{IsScope, place_in, place_count, all_pairs_in};
ghost use Rattle.g1_frontier.specs.Offering.{HasPlaces};
ghost use Rattle.g1_frontier.specs.Round.{Rises, AreAbove, AddsOffers, winners, IsGivenOut, HasTaken, HasOffered, IsByRank, AreSpans, IsRound};

use crate::crew::{Crew, Merging};
use crate::item::Item;
use crate::looking::look_again;
use crate::offering::{Holder, Offers, Round, Span};
use crate::rooms::{empty_room, push_spans};
use crate::scope::{Numbering, Scope, positions};
use crate::sought::Sought;
use g1_claim::{ClaimSeat, Claims};
use g1_rem::Starts;
use g1_words::{Fault, Heap};
use g1_work::{Gate, Team, each_chunk};
use itertools::Itertools;
use std::alloc::{AllocError, Global};
use std::thread::Threads;

// A seat and a room for each worker. The last one has number 0, and keeps the shares that are left,
// and what the whole seat offered before.
pub(crate) fn give_out(
    alloc: Global,
    claims: &Claims,
    mut seat: ClaimSeat,
    rooms: &mut Vec<Vec<(u64, u64)>>,
    team: Team,
) -> Result<Vec<Holder>, AllocError>
    requires seat { IsSeatOf claims.now seat × (seat.hand.shares ≡ all_shares) }
    ensures { IfOk result (λ v. IsGivenOut claims.now seat team.workers v.items) }
{
    let count = team.workers() as usize;
    let mut holders = Vec::with_capacity(alloc, count)?;
    for number in 1..count {
        let theirs = claims.split(&mut seat);
        holders.push(Holder {
            number,
            seat: theirs,
            kept: empty_room(alloc, rooms),
        })?;
    }
    holders.push(Holder {
        number: 0,
        seat,
        kept: empty_room(alloc, rooms),
    })?;
    Ok(holders)
}

// Puts the seats of other workers into one, and what they kept behind what is there.
fn join_all(
    claims: &Claims,
    seat: &mut ClaimSeat,
    lists: &mut Vec<Vec<(u64, u64)>>,
    others: Vec<Holder>,
) -> Result<(), AllocError>
    requires seat { IsSeatOf claims.now seat.old }
    requires others { All (λ h. IsSeatOf claims.now h.seat) others.items }
    ensures seat { IsSeatOf claims.now seat.new }
    ensures shares { OnOk result (seat.new.hand.shares ≡ seat.old.hand.shares + sum_by (λ h. h.seat.hand.shares) others.items) }
    ensures offers { OnOk result (seat.new.hand.offers ≡ seat.old.hand.offers ++ flat_map (λ h. h.seat.hand.offers) others.items) }
    ensures sights { OnOk result (seat.new.hand.sights ≡ seat.old.hand.sights ++ flat_map (λ h. h.seat.hand.sights) others.items) }
    ensures kept { OnOk result (map (λ l. l.items) lists.new.items ≡ map (λ l. l.items) lists.old.items ++ map (λ h. h.kept.items) others.items) }
{
    for holder in others {
        let Holder {
            number: _,
            seat: theirs,
            kept,
        } = holder;
        claims.join(seat, theirs);
        lists.push(kept)?;
    }
    Ok(())
}

// Puts the seats together again, and what each worker kept side by side.
pub(crate) fn take_in(
    alloc: Global,
    claims: &Claims,
    mut holders: Vec<Holder>,
) -> Result<(ClaimSeat, Vec<Vec<(u64, u64)>>), AllocError>
    requires some { 0 < vec_len holders }
    requires seats { All (λ h. IsSeatOf claims.now h.seat) holders.items }
    ensures { IfOk result (λ r. HasTaken claims.now holders.items r.0 (map (λ l. l.items) r.1.items)) }
{
    let Some(last) = holders.pop() else {
        unreachable!()
    };
    let Holder {
        number: _,
        mut seat,
        kept,
    } = last;
    let mut lists = Vec::new(alloc);
    lists.push(kept)?;
    join_all(claims, &mut seat, &mut lists, holders)?;
    // Needed if no other seat was joined.
    g1_claim::laws::settled(&seat);
    Ok((seat, lists))
}

// Offers what all items reference in the window, by one worker: the whole seat after, and what won.
// This draws no chunk, so a round of few items costs little more than its offers.
fn offer_alone(
    alloc: Global,
    scope: &Scope,
    claims: &Claims,
    seat: ClaimSeat,
    rooms: &mut Vec<Vec<(u64, u64)>>,
    sought: Sought,
) -> Result<(ClaimSeat, Vec<(u64, u64)>), AllocError>
    requires places { HasPlaces scope.now claims.now }
    requires seat { IsSeatOf claims.now seat × (seat.hand.shares ≡ all_shares) }
    requires items { All (IsItem scope.now.heap.now) (items_of sought) }
    requires paired { ArePaired sought }
    requires ranks { AreRanks (all_pairs_in scope.now (items_of sought)) }
    requires rise { Rises (all_pairs_in scope.now (items_of sought)) }
    requires above { AreAbove seat.hand.offers (all_pairs_in scope.now (items_of sought)) }
    ensures offered { IfOk result (λ r. HasOffered claims.now (place_in scope.now) (all_pairs_in scope.now (items_of sought.entry)) seat r.0 (r.1.items ∷ [])) }
    ensures won { IfOk result (λ r. r.1.items ≡ winners (place_in scope.now) r.0.hand.offers (all_pairs_in scope.now (items_of sought.entry))) }
{
    let mut holder = Holder {
        number: 0,
        seat,
        kept: empty_room(alloc, rooms),
    };
    Offers { scope, claims }.offer_sought(alloc, &mut holder, sought)?;
    let Holder {
        number: _,
        seat,
        kept,
    } = holder;
    g1_claim::laws::settled(&seat);
    Ok((seat, kept))
}

// What the workers kept in a round, and where what was kept of each chunk stands in it.
#[derive(Drop)]
struct Kept {
    lists: Vec<Vec<(u64, u64)>>,
    spans: Vec<Span>,
}

// Offers what all items reference in the window: the whole seat after, and what the workers kept.
fn offer_all<R: Threads + Sync, G: Gate + Sync>(
    crew: &Crew<'_, R, G>,
    scope: &Scope,
    claims: &Claims,
    seat: ClaimSeat,
    rooms: &mut Vec<Vec<(u64, u64)>>,
    sought: Sought,
) -> Result<(ClaimSeat, Kept), Fault>
    requires places { HasPlaces scope.now claims.now }
    requires seat { IsSeatOf claims.now seat × (seat.hand.shares ≡ all_shares) }
    requires items { All (IsItem scope.now.heap.now) (items_of sought) }
    requires paired { ArePaired sought }
    requires ranks { AreRanks (all_pairs_in scope.now (items_of sought)) }
    requires rise { Rises (all_pairs_in scope.now (items_of sought)) }
    requires few { length (items_of sought) < 2 ^ 32 }
    ensures ok { IfOk result (λ r. HasOffered claims.now (place_in scope.now) (all_pairs_in scope.now (items_of sought.entry)) seat r.0 (map (λ l. l.items) r.1.lists.items)) }
    ensures spans { IfOk result (λ r. AreSpans (map (λ l. l.items) r.1.lists.items) r.1.spans.items) }
    ensures memory { IfErr result (λ e. e ≡ Memory) }
{
    let alloc = crew.alloc;
    let chunk = crew.team.chunk() as usize;
    let count = (sought.len() + chunk - 1) / chunk;
    let team = crew.team.for_chunks(count as u64);
    let holders = give_out(alloc, claims, seat, rooms, team)?;
    let round = Round {
        offers: Offers { scope, claims },
        sought,
        chunk,
        alloc,
    };
    let (holders, spans) = each_chunk(crew.rt, alloc, holders, count as u64, &round, crew.gate)?;
    let (seat, lists) = take_in(alloc, claims, holders)?;
    Ok((seat, Kept { lists, spans }))
}

// Merges lists that rise by rank.
fn merge(alloc: Global, lists: Vec<Vec<(u64, u64)>>) -> Result<Vec<(u64, u64)>, AllocError>
    requires rise { All (λ l. Rises l.items) lists.items }
    ensures same { IfOk result (λ v. IsPermutation (flat_map (λ l. l.items) lists.items) v.items) }
    ensures in_order { IfOk result (λ v. IsByRank v.items) }
{
    let pairs = lists.into_iter().kmerge(alloc)?;
    let merged = pairs.collect(alloc)?;
    Ok(merged)
}

// What the workers kept, in the order of the chunks, which is that of the ranks.
fn by_chunks(
    alloc: Global,
    rooms: &mut Vec<Vec<(u64, u64)>>,
    mut kept: Kept,
) -> Result<Vec<(u64, u64)>, AllocError>
    requires rise { All (λ l. Rises l.items) kept.lists.items }
    requires spans { AreSpans (map (λ l. l.items) kept.lists.items) kept.spans.items }
    ensures same { IfOk result (λ v. IsPermutation (flat_map (λ l. l.items) kept.lists.items) v.items) }
    ensures in_order { IfOk result (λ v. IsByRank v.items) }
{
    let mut all = empty_room(alloc, rooms);
    push_spans(&mut all, kept.lists.as_slice(), kept.spans.as_slice())?;
    // The next round uses the rooms again.
    rooms.append(&mut kept.lists)?;
    Ok(all)
}

// What the workers kept, by rank.
fn by_rank(
    alloc: Global,
    merging: Merging,
    rooms: &mut Vec<Vec<(u64, u64)>>,
    kept: Kept,
) -> Result<Vec<(u64, u64)>, AllocError>
    requires rise { All (λ l. Rises l.items) kept.lists.items }
    requires spans { AreSpans (map (λ l. l.items) kept.lists.items) kept.spans.items }
    ensures same { IfOk result (λ v. IsPermutation (flat_map (λ l. l.items) kept.lists.items) v.items) }
    ensures in_order { IfOk result (λ v. IsByRank v.items) }
{
    match merging {
        Merging::Ranks => merge(alloc, kept.lists),
        Merging::Chunks => by_chunks(alloc, rooms, kept),
    }
}

// Offers what all items reference in the window, by the whole crew: the whole seat after, and what won.
fn offer_by_crew<R: Threads + Sync, G: Gate + Sync>(
    crew: &Crew<'_, R, G>,
    scope: &Scope,
    claims: &Claims,
    seat: ClaimSeat,
    rooms: &mut Vec<Vec<(u64, u64)>>,
    sought: Sought,
) -> Result<(ClaimSeat, Vec<(u64, u64)>), Fault>
    requires places { HasPlaces scope.now claims.now }
    requires seat { IsSeatOf claims.now seat × (seat.hand.shares ≡ all_shares) }
    requires items { All (IsItem scope.now.heap.now) (items_of sought) }
    requires paired { ArePaired sought }
    requires ranks { AreRanks (all_pairs_in scope.now (items_of sought)) }
    requires rise { Rises (all_pairs_in scope.now (items_of sought)) }
    requires above { AreAbove seat.hand.offers (all_pairs_in scope.now (items_of sought)) }
    requires few { length (items_of sought) < 2 ^ 32 }
    ensures ok { IfOk result (λ r. IsRound claims.now (place_in scope.now) (all_pairs_in scope.now (items_of sought.entry)) seat r.0 r.1.items) }
    ensures memory { IfErr result (λ e. e ≡ Memory) }
{
    let (seat, kept) = offer_all(crew, scope, claims, seat, rooms, sought)?;
    let kept = by_rank(crew.alloc, crew.merging, rooms, kept)?;
    let (seat, won) = look_again(crew, scope, claims, seat, rooms, kept.as_slice())?;
    rooms.push(kept)?;
    Ok((seat, won))
}

// One round of claims, in a scope that was made before: the whole seat after, and what won. It takes
// its lists from the rooms that earlier rounds left, and leaves its own.
pub(crate) fn round_in<R: Threads + Sync, G: Gate + Sync>(
    crew: &Crew<'_, R, G>,
    scope: &Scope,
    claims: &Claims,
    seat: ClaimSeat,
    rooms: &mut Vec<Vec<(u64, u64)>>,
    sought: Sought,
) -> Result<(ClaimSeat, Vec<(u64, u64)>), Fault>
    requires scope { IsScope scope.now }
    requires items { All (IsItem scope.now.heap.now) (items_of sought) }
    requires few { length (items_of sought) < 2 ^ 32 }
    requires table { IsSeatOf claims.now seat }
    requires whole { seat.hand.shares ≡ all_shares }
    requires places { place_count scope.now ≤ claims.now.places }
    requires rise { Rises (all_pairs_in scope.now (items_of sought)) }
    requires paired { ArePaired sought }
    requires ranks { AreRanks (all_pairs_in scope.now (items_of sought)) }
    requires above { AreAbove seat.hand.offers (all_pairs_in scope.now (items_of sought)) }
    ensures ok { IfOk result (λ r. IsRound claims.now (place_in scope.now) (all_pairs_in scope.now (items_of sought.entry)) seat r.0 r.1.items) }
    ensures memory { IfErr result (λ e. e ≡ Memory) }
{
    if crew.team.workers() == 1 || sought.len() as u64 <= crew.team.chunk() {
        // A worker alone offers by rising rank, so what it kept is least.
        return Ok(offer_alone(crew.alloc, scope, claims, seat, rooms, sought)?);
    }
    offer_by_crew(crew, scope, claims, seat, rooms, sought)
}

/// One round of claims: offers what the items reference in the window, and answers what won.
///
/// Each slot of an item that references an object in the window offers the item's rank for it at that
/// object's place. The answer has the table and the whole seat back, and, by rising rank, the rank
/// and address of each offer of this round whose rank is now the word of its place. It is the same
/// for all `workers` (1 to 64) and `chunk` sizes (1 to 65,536 items).
///
/// The ranks of all offers rise from item to item, and are above those that the seat offered
/// before.
///
/// # Errors
/// `Memory`. The table and the seat are then given up.
///
/// # Examples
///
/// ```
/// use g1_claim::Claims;
/// use g1_frontier::{Item, claim_round};
/// use g1_rem::Starts;
/// use g1_testing::{image, pictures::shared};
/// use g1_work::Open;
///
/// let shared = image(alloc, shared())?;
/// let heap = shared.heap();
/// let starts = Starts::build(alloc, heap)?;
/// let (claims, seat) = Claims::new(alloc, heap.geometry().region_words())?;
/// // Root 0 references the object at 21, and root 1 the one at 16.
/// let items = [Item::Root { index: 0 }, Item::Root { index: 1 }];
/// let (_, _, won) = claim_round(
///     &rt, alloc, heap, &starts, &[1], claims, seat, &items, 1, 64, &Open,
/// )?;
/// assert_eq!(rt; won.as_slice(), [(0, 21), (1, 16)].as_slice());
/// ```
pub fn claim_round<R: Threads + Sync, G: Gate + Sync>(
    rt: &R,
    alloc: Global,
    heap: &Heap,
    starts: &Starts,
    window: &[u32],
    claims: Claims,
    seat: ClaimSeat,
    items: &[Item],
    workers: u64,
    chunk: u64,
    gate: &G,
) -> Result<(Claims, ClaimSeat, Vec<(u64, u64)>), Fault>
    requires starts { IsStartsOf heap.now starts.now }
    requires window { AreRegions heap.now window.now }
    requires items { All (IsItem heap.now) items.now }
    requires outside { All (IsOutside heap.now window.now) items.now }
    requires few { length items.now < 2 ^ 32 }
    requires table { IsSeatOf claims seat }
    requires whole { seat.hand.shares ≡ all_shares }
    requires places { length window.now * heap.now.geometry.w ≤ claims.places }
    requires rise { Rises (all_pairs heap.now window.now items.now) }
    requires ranks { AreRanks (all_pairs heap.now window.now items.now) }
    requires above { AreAbove seat.hand.offers (all_pairs heap.now window.now items.now) }
    requires team { IsTeam workers chunk }
    ensures claims { IfOk result (λ r. r.0 ≡ claims) }
    ensures table { IfOk result (λ r. IsSeatOf claims r.1) }
    ensures whole { IfOk result (λ r. r.1.hand.shares ≡ all_shares) }
    ensures offers { IfOk result (λ r. AddsOffers (place heap.now window.now) (all_pairs heap.now window.now items.now) seat.hand.offers r.1.hand.offers) }
    ensures won { IfOk result (λ r. r.2.items ≡ winners (place heap.now window.now) r.1.hand.offers (all_pairs heap.now window.now items.now)) }
    ensures settled { IfOk result (λ r. IsSettled r.1.hand.offers) }
    ensures memory { IfErr result (λ e. e ≡ Memory) }
{
    let regions = heap.geometry().regions();
    let positions = positions(alloc, regions, window)?;
    let scope = Scope {
        heap,
        starts: Some(starts),
        window,
        positions: positions.as_slice(),
        numbering: &Numbering::Words,
    };
    let crew = Crew {
        rt,
        alloc,
        team: Team::new(workers, chunk),
        merging: Merging::Ranks,
        gate,
    };
    let mut rooms = Vec::new(alloc);
    let sought = Sought::Items(items);
    let (seat, won) = round_in(&crew, &scope, &claims, seat, &mut rooms, sought)?;
    Ok((claims, seat, won))
}
