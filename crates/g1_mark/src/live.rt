ghost use Rattle.std.specs.Prelude.{◌≡◌, ◌<◌, ◌≤◌, ℕ, List, IfOk, IfErr};
ghost use Rattle.g1_words.specs.declared.fault.Fault.TheVariants.{Memory};
ghost use Rattle.g1_words.specs.Live.{IsLiveBytes};
ghost use Rattle.g1_words.specs.Survivors.{Survivors};
ghost use Rattle.g1_words.specs.Valid.{IsValid};
ghost use Rattle.g1_work.specs.Team.{IsTeam};
ghost use Rattle.g1_rem.specs.Starts.{IsStartsOf};
ghost use Rattle.g1_frontier.specs.Found.{IsFound};
ghost use Rattle.g1_mark.specs.Marked.{used};

use crate::bytes::{bytes_at_by, bytes_of, used_regions};
use g1_frontier::{Found, discover_from_roots};
use g1_rem::Starts;
use g1_words::{Fault, Heap};
use g1_work::{Gate, Team};
use std::alloc::Global;
use std::thread::Threads;

/// The addresses of all objects that the roots reach, in the order in which the search finds them.
///
/// # Errors
/// `Memory`.
///
/// # Examples
///
/// ```
/// use g1_mark::live_objects;
/// use g1_rem::Starts;
/// use g1_testing::{image, pictures::shared};
/// use g1_work::{Open, Team};
///
/// let shared = image(alloc, shared())?;
/// let starts = Starts::build(alloc, shared.heap())?;
/// let live = live_objects(&rt, alloc, shared.heap(), &starts, Team::new(8, 64), &Open)?;
/// assert_eq!(rt; live.as_slice(), [21, 16].as_slice());
/// ```
pub fn live_objects<R: Threads + Sync, G: Gate + Sync>(
    rt: &R,
    alloc: Global,
    heap: &Heap,
    starts: &Starts,
    team: Team,
    gate: &G,
) -> Result<Vec<u64>, Fault>
    requires starts { IsStartsOf heap.now starts.now }
    ensures valid { IsValid heap.now }
    ensures ok { IfOk result (λ v. Survivors heap.now (used heap.now) v.items) }
    ensures memory { IfErr result (λ e. e ≡ Memory) }
{
    let found = found_live(rt, alloc, heap, team, gate)?;
    Ok(found.survivors)
}

// What the search for all that the roots reach finds.
fn found_live<R: Threads + Sync, G: Gate + Sync>(
    rt: &R,
    alloc: Global,
    heap: &Heap,
    team: Team,
    gate: &G,
) -> Result<Found, Fault>
    ensures valid { IsValid heap.now }
    ensures ok { IfOk result (IsFound heap.now (used heap.now)) }
    ensures memory { IfErr result (λ e. e ≡ Memory) }
{
    let window = used_regions(alloc, heap)?;
    discover_from_roots(
        rt,
        alloc,
        heap,
        window.as_slice(),
        team.workers(),
        team.chunk(),
        gate,
    )
}

/// The live bytes of each region, by number: 8 for each word of its objects that the roots reach.
/// All bytes of a humongous object count in its first region.
///
/// The answer is the same for all `workers` (1 to 64) and `chunk` sizes (1 to 65,536 items).
///
/// # Errors
/// `Memory`.
///
/// # Examples
///
/// ```
/// use g1_mark::live_bytes;
/// use g1_rem::Starts;
/// use g1_testing::{image, pictures::shared};
/// use g1_work::Open;
///
/// // The roots reach the objects of region 1, which have 7 words, and none of region 0.
/// let shared = image(alloc, shared())?;
/// let starts = Starts::build(alloc, shared.heap())?;
/// let live = live_bytes(&rt, alloc, shared.heap(), &starts, 8, 64, &Open)?;
/// assert_eq!(rt; live.as_slice(), [0, 56, 0, 0].as_slice());
/// ```
pub fn live_bytes<R: Threads + Sync, G: Gate + Sync>(
    rt: &R,
    alloc: Global,
    heap: &Heap,
    starts: &Starts,
    workers: u64,
    chunk: u64,
    gate: &G,
) -> Result<Vec<u64>, Fault>
    requires starts { IsStartsOf heap.now starts.now }
    requires team { IsTeam workers chunk }
    ensures ok { IfOk result (λ v. IsLiveBytes heap.now v.items) }
    ensures only { IfOk result (λ v. (l : List ℕ) → IsLiveBytes heap.now l → l ≡ v.items) }
    ensures memory { IfErr result (λ e. e ≡ Memory) }
{
    count_live_bytes(rt, alloc, heap, workers, chunk, gate)
}

/// As `live_bytes`, without starts: the search looks at no card.
///
/// # Errors
/// `Memory`.
///
/// # Examples
///
/// ```
/// use g1_mark::count_live_bytes;
/// use g1_testing::{image, pictures::humongous};
/// use g1_work::Open;
///
/// // An object of 40 words over the regions 0 to 2 references one of 2 words in region 3.
/// let humongous = image(alloc, humongous())?;
/// let live = count_live_bytes(&rt, alloc, humongous.heap(), 8, 64, &Open)?;
/// assert_eq!(rt; live.as_slice(), [320, 0, 0, 16, 0, 0].as_slice());
/// ```
pub fn count_live_bytes<R: Threads + Sync, G: Gate + Sync>(
    rt: &R,
    alloc: Global,
    heap: &Heap,
    workers: u64,
    chunk: u64,
    gate: &G,
) -> Result<Vec<u64>, Fault>
    requires team { IsTeam workers chunk }
    ensures ok { IfOk result (λ v. IsLiveBytes heap.now v.items) }
    ensures only { IfOk result (λ v. (l : List ℕ) → IsLiveBytes heap.now l → l ≡ v.items) }
    ensures memory { IfErr result (λ e. e ≡ Memory) }
{
    let team = Team::new(workers, chunk);
    let live = found_live(rt, alloc, heap, team, gate)?;
    let objects = live.survivors.as_slice();
    match &live.seen {
        Some(seen) => Ok(bytes_of(alloc, heap, objects, seen.sizes.as_slice())?),
        None => Ok(bytes_at_by(rt, alloc, heap, objects, workers)?),
    }
}
