ghost use Rattle.std.specs.Prelude.{◌≡◌, ◌<◌, ◌≤◌, ◌^◌, ◌+◌, ◌*◌, ◌++◌, ℕ, List, map, length, vec_len, sum_by, IfOk, IfErr, IfSome, OnOk};
ghost use Rattle.std.specs.List.{All};
ghost use Rattle.g1_words.specs.declared.fault.Fault.TheVariants.{Memory};
ghost use Rattle.g1_words.specs.Survivors.{Survivors};
ghost use Rattle.g1_work.specs.Team.{IsTeam};
ghost use Rattle.g1_rem.specs.Starts.{IsStartsOf};
ghost use Rattle.g1_frontier.specs.Window.{AreRegions, AreCards, AreOutside, LeadIn, IsClosed};
ghost use Rattle.g1_frontier.specs.Items.{first_items, numbered_on};
ghost use Rattle.g1_frontier.specs.Scope.{IsScope};
ghost use Rattle.g1_frontier.specs.Search.{IsSearching};
ghost use Rattle.g1_frontier.specs.Found.{IsFound};

use crate::crew::{Crew, Merging};
use crate::found::Found;
use crate::headers::slot_counts_by;
use crate::item::Item;
use crate::numbers::number_window;
use crate::queue::search_alone;
use crate::round::round_in;
use crate::scope::{Numbering, Scope, positions};
use crate::sought::Sought;
use g1_claim::{ClaimSeat, Claims};
use g1_rem::Starts;
use g1_words::{Fault, Heap};
use g1_work::{Gate, Team};
use std::alloc::{AllocError, Global};
use std::thread::Threads;

// What was found, and from where on it is still to be searched; the table, the seat of all its
// shares, and the rank from which on none was offered.
#[derive(Drop)]
pub struct Search {
    pub claims: Claims,
    pub seat: ClaimSeat,
    pub found: Vec<u64>,
    pub from: usize,
    pub next: u64,
}

// The roots, by number, then the cards.
fn first_items(alloc: Global, roots: u64, cards: &[u32]) -> Result<Vec<Item>, AllocError>
    ensures { IfOk result (λ v. v.items ≡ first_items roots cards.now) }
{
    let mut items = Vec::new(alloc);
    for index in 0..roots {
        items.push(Item::Root { index })?;
    }
    for card in cards {
        items.push(Item::Card {
            card: *card,
            base: roots,
        })?;
    }
    Ok(items)
}

// Puts in place of each count the number that it begins at, numbered on from a base. Also the number
// after all.
fn number_on(counts: &mut Vec<u64>, base: u64) -> u64
    requires { base + sum_by (λ n. n) counts.old.items < 2 ^ 32 }
    ensures numbers { counts.new.items ≡ numbered_on base counts.old.items }
    ensures next { result ≡ base + sum_by (λ n. n) counts.old.items }
{
    let mut next = base;
    for index in 0..counts.len() {
        let count = counts[index];
        counts[index] = next;
        next += count;
    }
    next
}

// Puts the addresses behind those that were found.
fn push_addresses(found: &mut Vec<u64>, won: &[(u64, u64)]) -> Result<(), AllocError>
    ensures { OnOk result (found.new.items ≡ found.old.items ++ map (λ q. q.1) won.now) }
{
    for pair in won {
        found.push(pair.1)?;
    }
    Ok(())
}

// The round of the roots and the cards. Its lists stay in the rooms.
pub(crate) fn first_round<R: Threads + Sync, G: Gate + Sync>(
    crew: &Crew<'_, R, G>,
    scope: &Scope,
    rooms: &mut Vec<Vec<(u64, u64)>>,
    cards: &[u32],
) -> Result<Search, Fault>
    requires scope { IsScope scope.now }
    requires cards { AreCards scope.now.heap.now cards.now }
    requires outside { AreOutside scope.now.heap.now scope.now.window.now cards.now }
    requires lead_in { LeadIn scope.now.heap.now scope.now.window.now cards.now }
    ensures ok { IfOk result (IsSearching scope.now) }
    ensures memory { IfErr result (λ e. e ≡ Memory) }
{
    let alloc = crew.alloc;
    let roots = scope.heap.roots().len() as u64;
    let (claims, seat) = Claims::new(alloc, scope.places())?;
    let first = first_items(alloc, roots, cards)?;
    let items = first.as_slice();
    let hired = crew.hire(items.len(), 0);
    let sought = Sought::Items(items);
    let (seat, won) = round_in(&hired, scope, &claims, seat, rooms, sought)?;
    let mut found = Vec::new(alloc);
    push_addresses(&mut found, won.as_slice())?;
    rooms.push(won)?;
    Ok(Search {
        claims,
        seat,
        found,
        from: 0,
        next: roots + scope.heap.words().len() as u64,
    })
}

// The round of the objects that the last one found. It takes its lists from the rooms.
pub(crate) fn next_round<R: Threads + Sync, G: Gate + Sync>(
    crew: &Crew<'_, R, G>,
    scope: &Scope,
    rooms: &mut Vec<Vec<(u64, u64)>>,
    search: Search,
) -> Result<Search, Fault>
    requires scope { IsScope scope.now }
    requires search { IsSearching scope.now search }
    ensures ok { IfOk result (IsSearching scope.now) }
    ensures from { IfOk result (λ s. s.from ≡ vec_len search.found) }
    ensures memory { IfErr result (λ e. e ≡ Memory) }
{
    let Search {
        claims,
        seat,
        mut found,
        from,
        next,
    } = search;
    let addresses = &found[from..];
    let workers = crew.team.workers();
    let mut bases = slot_counts_by(crew.rt, crew.alloc, scope.heap, addresses, workers)?;
    let next = number_on(&mut bases, next);
    let sought = Sought::Objects(addresses, bases.as_slice());
    let (seat, won) = round_in(crew, scope, &claims, seat, rooms, sought)?;
    let from = found.len();
    push_addresses(&mut found, won.as_slice())?;
    rooms.push(won)?;
    Ok(Search {
        claims,
        seat,
        found,
        from,
        next,
    })
}

// The survivors of the window of a scope: by rounds of claims if its objects have numbers, else by one
// worker alone.
fn survivors_in<R: Threads + Sync, G: Gate + Sync>(
    crew: &Crew<'_, R, G>,
    scope: &Scope,
    cards: &[u32],
) -> Result<Found, Fault>
    requires scope { IsScope scope.now }
    requires cards { AreCards scope.now.heap.now cards.now }
    requires outside { AreOutside scope.now.heap.now scope.now.window.now cards.now }
    requires lead_in { LeadIn scope.now.heap.now scope.now.window.now cards.now }
    ensures ok { IfOk result (IsFound scope.now.heap.now scope.now.window.now) }
    ensures memory { IfErr result (λ e. e ≡ Memory) }
{
    if let Numbering::Words = scope.numbering {
        return Ok(search_alone(crew.alloc, scope, cards)?);
    }
    let mut rooms = Vec::new(crew.alloc);
    let mut search = first_round(crew, scope, &mut rooms, cards)?;
    let mut round: u64 = 1;
    while search.from < search.found.len() {
        let hired = crew.hire(search.found.len() - search.from, round);
        search = next_round(&hired, scope, &mut rooms, search)?;
        round = round.saturating_add(1);
    }
    Ok(Found {
        survivors: search.found,
        seen: None,
    })
}

/// The survivors of a window of regions: the addresses of the objects in it that are reached from
/// the roots, or from slots outside the window, over references within it. They are in the order
/// in which a breadth-first search finds them: what the roots reference, by root number, what the slots
/// outside reference, by address, then what the first survivor references, the second, and so on.
///
/// The window's regions and the cards rise. No card lies in the window, and every slot outside that
/// references an object in the window lies on one of the cards; other cards may be among them. Each
/// object found, each slot of it and each card is looked at once. The answer is the same for all
/// `workers` (1 to 64) and `chunk` sizes (1 to 65,536 items).
///
/// # Errors
/// `Memory`.
///
/// # Examples
///
/// ```
/// use g1_frontier::discover;
/// use g1_rem::Starts;
/// use g1_testing::{image, pictures::shared};
/// use g1_work::Open;
///
/// let shared = image(alloc, shared())?;
/// let heap = shared.heap();
/// let starts = Starts::build(alloc, heap)?;
/// // Two slots of region 0, on the cards 0 and 1, reference the object at 21.
/// let found = discover(&rt, alloc, heap, &starts, &[1], &[0, 1], 8, 64, &Open)?;
/// assert_eq!(rt; found.as_slice(), [21, 16].as_slice());
/// ```
pub fn discover<R: Threads + Sync, G: Gate + Sync>(
    rt: &R,
    alloc: Global,
    heap: &Heap,
    starts: &Starts,
    window: &[u32],
    cards: &[u32],
    workers: u64,
    chunk: u64,
    gate: &G,
) -> Result<Vec<u64>, Fault>
    requires starts { IsStartsOf heap.now starts.now }
    requires window { AreRegions heap.now window.now }
    requires cards { AreCards heap.now cards.now }
    requires outside { AreOutside heap.now window.now cards.now }
    requires lead_in { LeadIn heap.now window.now cards.now }
    requires team { IsTeam workers chunk }
    ensures ok { IfOk result (λ v. Survivors heap.now window.now v.items) }
    ensures only { IfOk result (λ v. (l : List ℕ) → Survivors heap.now window.now l → l ≡ v.items) }
    ensures memory { IfErr result (λ e. e ≡ Memory) }
{
    let found = discover_seen(rt, alloc, heap, starts, window, cards, workers, chunk, gate)?;
    Ok(found.survivors)
}

/// As `discover`, with what one worker saw on its way if it searched alone: so no header and no slot has
/// to be read again for it.
///
/// # Errors
/// `Memory`.
///
/// # Examples
///
/// ```
/// use g1_frontier::discover_seen;
/// use g1_rem::Starts;
/// use g1_testing::{image, pictures::shared};
/// use g1_work::Open;
///
/// let shared = image(alloc, shared())?;
/// let heap = shared.heap();
/// let starts = Starts::build(alloc, heap)?;
/// let found = discover_seen(&rt, alloc, heap, &starts, &[1], &[0, 1], 1, 64, &Open)?;
/// assert_eq!(rt; found.survivors.as_slice(), [21, 16].as_slice());
/// let seen = found.seen.ok_or("nothing was seen")?;
/// assert_eq!(rt; seen.sizes.as_slice(), [2, 5].as_slice());
/// assert_eq!(rt; seen.leads.as_slice(), [(1, 22), (5, 22)].as_slice());
/// ```
pub fn discover_seen<R: Threads + Sync, G: Gate + Sync>(
    rt: &R,
    alloc: Global,
    heap: &Heap,
    starts: &Starts,
    window: &[u32],
    cards: &[u32],
    workers: u64,
    chunk: u64,
    gate: &G,
) -> Result<Found, Fault>
    requires starts { IsStartsOf heap.now starts.now }
    requires window { AreRegions heap.now window.now }
    requires cards { AreCards heap.now cards.now }
    requires outside { AreOutside heap.now window.now cards.now }
    requires lead_in { LeadIn heap.now window.now cards.now }
    requires team { IsTeam workers chunk }
    ensures ok { IfOk result (IsFound heap.now window.now) }
    ensures memory { IfErr result (λ e. e ≡ Memory) }
{
    let starts = Some(starts);
    discover_in(rt, alloc, heap, starts, window, cards, workers, chunk, gate)
}

/// As `discover_seen`, for a window that no slot outside references into, as that of all regions in
/// use. So it takes no cards, and no starts to look at them with.
///
/// # Errors
/// `Memory`.
///
/// # Examples
///
/// ```
/// use g1_frontier::discover_from_roots;
/// use g1_testing::{image, pictures::shared};
/// use g1_work::Open;
///
/// // The two objects of region 0 are garbage.
/// let shared = image(alloc, shared())?;
/// let found = discover_from_roots(&rt, alloc, shared.heap(), &[0, 1], 8, 64, &Open)?;
/// assert_eq!(rt; found.survivors.as_slice(), [21, 16].as_slice());
/// ```
pub fn discover_from_roots<R: Threads + Sync, G: Gate + Sync>(
    rt: &R,
    alloc: Global,
    heap: &Heap,
    window: &[u32],
    workers: u64,
    chunk: u64,
    gate: &G,
) -> Result<Found, Fault>
    requires window { AreRegions heap.now window.now }
    requires closed { IsClosed heap.now window.now }
    requires team { IsTeam workers chunk }
    ensures ok { IfOk result (IsFound heap.now window.now) }
    ensures memory { IfErr result (λ e. e ≡ Memory) }
{
    let cards: [u32; 0] = [];
    discover_in(rt, alloc, heap, None, window, &cards, workers, chunk, gate)
}

// As `discover_seen`. Without starts each card takes a pass over the heap, so a search that has cards is lent
// them.
fn discover_in<R: Threads + Sync, G: Gate + Sync>(
    rt: &R,
    alloc: Global,
    heap: &Heap,
    starts: Option<&Starts>,
    window: &[u32],
    cards: &[u32],
    workers: u64,
    chunk: u64,
    gate: &G,
) -> Result<Found, Fault>
    requires starts { IfSome starts (λ t. IsStartsOf heap.now t.now) }
    requires window { AreRegions heap.now window.now }
    requires cards { AreCards heap.now cards.now }
    requires outside { AreOutside heap.now window.now cards.now }
    requires lead_in { LeadIn heap.now window.now cards.now }
    requires team { IsTeam workers chunk }
    ensures ok { IfOk result (IsFound heap.now window.now) }
    ensures memory { IfErr result (λ e. e ≡ Memory) }
{
    let positions = positions(alloc, heap.geometry().regions(), window)?;
    let crew = Crew {
        rt,
        alloc,
        team: Team::new(workers, chunk),
        merging: Merging::Chunks,
        gate,
    };
    // One worker competes with nobody. It marks words, so it needs no claims, and no pass over the
    // window that numbers its objects.
    let numbering = if crew.takes_rounds() {
        Numbering::Objects(number_window(rt, alloc, heap, window, workers)?)
    } else {
        Numbering::Words
    };
    let scope = Scope {
        heap,
        starts,
        window,
        positions: positions.as_slice(),
        numbering: &numbering,
    };
    survivors_in(&crew, &scope, cards)
}
