ghost use Rattle.std.specs.Prelude.{◌≡◌, ◌⊎◌, IfSome, IfNone, IfOk, IfErr};
ghost use Rattle.g1_words.specs.Live.{IsLiveBytes};
ghost use Rattle.g1_choose.specs.Choice.{MayBeLive};
ghost use Rattle.g1_pause.specs.Answer.{IsSetFor, FaultOfChoice};
ghost use Rattle.g1_pause.specs.Bought.{IsBought, IsListed};

use crate::before::Before;
use crate::settings::{Choice, Settings};
use g1_choose::{Candidate, choose_in_order, given};
use g1_mark::live_bytes;
use g1_words::Fault;
use g1_work::Gate;
use std::alloc::Global;
use std::thread::Threads;

/// A collection set.
#[derive(Drop)]
pub struct CollectionSet {
    /// Its regions, rising.
    pub regions: Vec<u32>,
    /// What a budget bought them by; None if they are given.
    pub bought: Option<Bought>,
}

/// What a budget goes by, and how far it goes.
#[derive(Drop)]
pub struct Bought {
    pub budget: u64,
    /// The live bytes of each region.
    pub live: Vec<u64>,
    /// The candidates, by efficiency.
    pub order: Vec<Candidate>,
    /// How many candidates are taken, the first ones of the order.
    pub taken: usize,
}

/// The collection set: what the budget buys, or the regions that are given. Live bytes are counted for
/// a budget alone.
///
/// # Errors
///
/// `Fault::Set` with the first region of a given list that can't be taken; `Fault::Memory`.
///
/// # Examples
///
/// ```
/// use g1_choose::Cost;
/// use g1_pause::{Before, Choice, Settings, collection_set};
/// use g1_rem::verify;
/// use g1_testing::{image, pictures::shared};
/// use g1_work::Open;
///
/// let shared = image(alloc, shared())?;
/// let tracked = verify(&rt, alloc, shared).map_err(|(_, fault)| fault)?;
/// let before = Before::new(&rt, alloc, &tracked, 1)?;
/// let cost = Cost { fixed: 10, dirty: 1, card: 1, byte: 1 };
/// // Region 0 alone has garbage. It costs nothing beside the pause: no live byte is in it, and no card
/// // leads into it.
/// let enough = Settings::new(8, 64, cost, Choice::Budget(10))?;
/// let set = collection_set(&rt, alloc, &before, &enough, &Open)?;
/// assert_eq!(rt; set.regions.as_slice(), [0].as_slice());
/// let one_short = Settings::new(8, 64, cost, Choice::Budget(9))?;
/// let set = collection_set(&rt, alloc, &before, &one_short, &Open)?;
/// assert_eq!(rt; set.regions.len(), 0);
/// ```
pub fn collection_set<R: Threads + Sync, G: Gate + Sync>(
    rt: &R,
    alloc: Global,
    before: &Before<'_>,
    settings: &Settings,
    gate: &G,
) -> Result<CollectionSet, Fault>
    ensures set { IfOk result (λ x. IsSetFor settings.now.cost before.now settings.now.choice x.regions.items) }
    ensures bought { IfOk result (λ x. IfSome x.bought (IsBought settings.now.cost settings.now.choice before.now)) }
    ensures listed { IfOk result (λ x. IfNone x.bought (IsListed settings.now.choice)) }
    ensures refused { IfErr result (λ e. (e ≡ Fault.Memory) ⊎ FaultOfChoice before.now.heap settings.now.choice e) }
{
    match settings.choice() {
        Choice::Given(list) => {
            let regions = given(alloc, before.image().heap(), list)?;
            Ok(CollectionSet {
                regions,
                bought: None,
            })
        }
        Choice::Budget(budget) => buy_regions(rt, alloc, before, settings, *budget, gate),
    }
}

/// What a budget buys.
fn buy_regions<R: Threads + Sync, G: Gate + Sync>(
    rt: &R,
    alloc: Global,
    before: &Before<'_>,
    settings: &Settings,
    budget: u64,
    gate: &G,
) -> Result<CollectionSet, Fault>
    ensures set { IfOk result (λ x. IsSetFor settings.now.cost before.now (Choice.Budget budget) x.regions.items) }
    ensures bought { IfOk result (λ x. IfSome x.bought (IsBought settings.now.cost (Choice.Budget budget) before.now)) }
    ensures some { IfOk result (λ x. IfNone x.bought ⊥) }
    ensures memory { IfErr result (λ e. e ≡ Fault.Memory) }
{
    let live = count_live(rt, alloc, before, settings, gate)?;
    let image = before.image();
    let chosen = choose_in_order(
        alloc,
        image.heap(),
        image.log().len() as u64,
        before.remembered(),
        &live,
        &settings.cost(),
        budget,
    )?;
    let bought = Bought {
        budget,
        live,
        order: chosen.order,
        taken: chosen.taken,
    };
    Ok(CollectionSet {
        regions: chosen.regions,
        bought: Some(bought),
    })
}

/// The live bytes of each region, which a choice by a budget goes by.
///
/// # Errors
///
/// `Fault::Memory` alone.
///
/// # Examples
///
/// ```
/// use g1_choose::Cost;
/// use g1_pause::{Before, Choice, Settings, count_live};
/// use g1_rem::verify;
/// use g1_testing::{image, pictures::shared};
/// use g1_work::Open;
///
/// let shared = image(alloc, shared())?;
/// let tracked = verify(&rt, alloc, shared).map_err(|(_, fault)| fault)?;
/// let before = Before::new(&rt, alloc, &tracked, 1)?;
/// let cost = Cost { fixed: 10, dirty: 1, card: 1, byte: 1 };
/// let settings = Settings::new(8, 64, cost, Choice::Budget(42))?;
/// let live = count_live(&rt, alloc, &before, &settings, &Open)?;
/// assert_eq!(rt; live.as_slice(), [0, 56, 0, 0].as_slice());
/// ```
pub fn count_live<R: Threads + Sync, G: Gate + Sync>(
    rt: &R,
    alloc: Global,
    before: &Before<'_>,
    settings: &Settings,
    gate: &G,
) -> Result<Vec<u64>, Fault>
    ensures counted { IfOk result (λ v. IsLiveBytes before.now.heap v.items) }
    ensures within_used { IfOk result (λ v. MayBeLive before.now.heap v.items) }
    ensures memory { IfErr result (λ e. e ≡ Fault.Memory) }
{
    let (workers, chunk) = (settings.workers(), settings.chunk());
    g1_choose::laws::live_within_used();
    live_bytes(
        rt,
        alloc,
        before.image().heap(),
        before.starts(),
        workers,
        chunk,
        gate,
    )
}
