ghost use Rattle.std.specs.Prelude.{◌≡◌, ◌≤◌, ◌<◌, ◌⊎◌, length, map, IfSome, IfNone, IfOk, IfErr};
ghost use Rattle.g1_words.specs.Heap.{regions};
ghost use Rattle.g1_words.specs.Layout.{free_regions, need};
ghost use Rattle.g1_image.specs.Cards.{refined};
ghost use Rattle.g1_rem.specs.EntryCards.{cards_into};
ghost use Rattle.g1_rem.specs.Starts.{IsStartsOf};
ghost use Rattle.g1_frontier.specs.Found.{slots_into, IsFound};
ghost use Rattle.g1_layout.specs.Placed.{CanPlace};
ghost use Rattle.g1_layout.specs.Plan.{plan_of};
ghost use Rattle.g1_copy.specs.Plans.{IsPauseOf};
ghost use Rattle.g1_copy.specs.Prepared.{IsMadeFor};
ghost use Rattle.g1_pause.specs.Answer.{IsSetFor, FaultOfChoice};
ghost use Rattle.g1_pause.specs.Bought.{IsBought, IsListed};
ghost use Rattle.g1_pause.specs.Steps.{IsOutcome};

use crate::before::Before;
use crate::choosing::{CollectionSet, collection_set};
use crate::settings::Settings;
use g1_copy::{Basis, Prepared, prepare_by_leads, prepare_on};
use g1_frontier::{Found, Seen, discover_seen};
use g1_layout::{Plan, place, place_sized};
use g1_rem::cards_into;
use g1_words::{Fault, Heap};
use g1_work::Gate;
use std::alloc::Global;
use std::thread::Threads;

/// What the steps of a pause give before it changes anything.
#[derive(Drop)]
pub struct Steps {
    pub collection: CollectionSet,
    /// The cards that lead into the set, rising.
    pub cards: Vec<u32>,
    pub outcome: Outcome,
}

/// Whether the survivors have room.
#[derive(Drop)]
pub enum Outcome {
    /// Where the survivors go, and all that the pause writes.
    Ready {
        plan: Plan,
        prepared: Prepared,
    },
    /// The survivors, which need more regions than are free.
    NoRoom {
        survivors: Vec<u64>,
        need: u64,
        free: u64,
    },
}

/// The steps of a pause up to the first one that refuses it. The image stays as it is, so that a refusal
/// leaves nothing to undo.
///
/// # Errors
///
/// `Fault::Set` with the first region of a given list that can't be taken; `Fault::Memory`. That there is no
/// room for the survivors is an outcome.
///
/// # Examples
///
/// ```
/// use g1_choose::Cost;
/// use g1_pause::{Before, Choice, Outcome, Settings, take_steps};
/// use g1_rem::verify;
/// use g1_testing::{image, pictures::shared};
/// use g1_work::Open;
///
/// let shared = image(alloc, shared())?;
/// let tracked = verify(&rt, alloc, shared).map_err(|(_, fault)| fault)?;
/// let before = Before::new(&rt, alloc, &tracked, 1)?;
/// let cost = Cost { fixed: 10, dirty: 1, card: 1, byte: 1 };
/// let settings = Settings::new(8, 64, cost, Choice::Given([1].to_vec(alloc)?))?;
/// let steps = take_steps(&rt, alloc, &before, &settings, &Open)?;
/// assert_eq!(rt; steps.cards.as_slice(), [0, 1].as_slice());
/// // There is room for the survivors.
/// assert!(rt; matches!(steps.outcome, Outcome::Ready { .. }));
/// ```
pub fn take_steps<R: Threads + Sync, G: Gate + Sync>(
    rt: &R,
    alloc: Global,
    before: &Before<'_>,
    settings: &Settings,
    gate: &G,
) -> Result<Steps, Fault>
    ensures set { IfOk result (λ x. IsSetFor settings.now.cost before.now settings.now.choice x.collection.regions.items) }
    ensures bought { IfOk result (λ x. IfSome x.collection.bought (IsBought settings.now.cost settings.now.choice before.now)) }
    ensures listed { IfOk result (λ x. IfNone x.collection.bought (IsListed settings.now.choice)) }
    ensures cards { IfOk result (λ x. x.cards.items ≡ cards_into before.now.heap (map (refined before.now) (regions before.now.heap)) x.collection.regions.items) }
    ensures outcome { IfOk result (λ x. IsOutcome before.now x.collection.regions.items x.outcome) }
    ensures refused { IfErr result (λ e. (e ≡ Fault.Memory) ⊎ FaultOfChoice before.now.heap settings.now.choice e) }
{
    let collection = collection_set(rt, alloc, before, settings, gate)?;
    let set: &[u32] = &collection.regions;
    let (cards, found) = find_survivors(rt, alloc, before, set, settings, gate)?;
    let outcome = lay_out(rt, alloc, before, set, &cards, found, settings)?;
    Ok(Steps {
        collection,
        cards,
        outcome,
    })
}

/// The cards that lead into a set, and its survivors.
fn find_survivors<R: Threads + Sync, G: Gate + Sync>(
    rt: &R,
    alloc: Global,
    before: &Before<'_>,
    set: &[u32],
    settings: &Settings,
    gate: &G,
) -> Result<(Vec<u32>, Found), Fault>
    requires { IsSetFor settings.now.cost before.now settings.now.choice set.now }
    ensures cards { IfOk result (λ x. x.0.items ≡ cards_into before.now.heap (map (refined before.now) (regions before.now.heap)) set.now) }
    ensures found { IfOk result (λ x. IsFound before.now.heap set.now x.1) }
    ensures memory { IfErr result (λ e. e ≡ Fault.Memory) }
{
    let heap = before.image().heap();
    let cards = cards_into(alloc, heap, before.remembered(), set)?;
    g1_copy::laws::cards_lead_in();
    g1_frontier::laws::refined_lead_in();
    let found = discover_seen(
        rt,
        alloc,
        heap,
        before.starts(),
        set,
        &cards,
        settings.workers(),
        settings.chunk(),
        gate,
    )?;
    Ok((cards, found))
}

/// Where a set's survivors go, and what the pause writes, if they have room.
fn lay_out<R: Threads + Sync>(
    rt: &R,
    alloc: Global,
    before: &Before<'_>,
    set: &[u32],
    cards: &[u32],
    found: Found,
    settings: &Settings,
) -> Result<Outcome, Fault>
    requires set { IsSetFor settings.now.cost before.now settings.now.choice set.now }
    requires cards { cards.now ≡ cards_into before.now.heap (map (refined before.now) (regions before.now.heap)) set.now }
    requires found { IsFound before.now.heap set.now found }
    ensures outcome { IfOk result (λ x. IsOutcome before.now set.now x) }
    ensures memory { IfErr result (λ e. e ≡ Fault.Memory) }
{
    g1_layout::laws::placeable();
    match placed(alloc, before.image().heap(), set, &found) {
        Err(Fault::Room { need, free }) => Ok(Outcome::NoRoom {
            survivors: found.survivors,
            need,
            free,
        }),
        // The only other fault of a plan.
        Err(_) => Err(Fault::Memory),
        Ok(plan) => {
            let basis = Basis {
                tracked: before.tracked(),
                starts: before.starts(),
                remembered: before.remembered(),
                set,
                plan: &plan,
                cards,
            };
            let prepared = prepared(rt, alloc, &basis, found.seen, settings.workers())?;
            Ok(Outcome::Ready { plan, prepared })
        }
    }
}

/// Where a set's survivors go, by their sizes if the search has seen them.
fn placed(alloc: Global, heap: &Heap, set: &[u32], found: &Found) -> Result<Plan, Fault>
    requires can { CanPlace heap.now set.now found.now.survivors.items }
    requires found { IsFound heap.now set.now found.now }
    ensures plan { IfOk result (λ p. p ≡ plan_of heap.now set.now found.now.survivors.items) }
    ensures room { length (free_regions heap.now) < need heap.now found.now.survivors.items → result ≡ Err (Fault.Room (need heap.now found.now.survivors.items) (length (free_regions heap.now))) }
    ensures memory { need heap.now found.now.survivors.items ≤ length (free_regions heap.now) → IfErr result (λ e. e ≡ Fault.Memory) }
{
    match &found.seen {
        Some(seen) => place_sized(alloc, heap, set, &found.survivors, &seen.sizes),
        None => place(alloc, heap, set, &found.survivors),
    }
}

/// What a pause writes, by the slots that lead into the set if the search has seen them.
fn prepared<R: Threads + Sync>(
    rt: &R,
    alloc: Global,
    basis: &Basis<'_>,
    seen: Option<Seen>,
    workers: u64,
) -> Result<Prepared, Fault>
    requires starts { IsStartsOf basis.now.tracked.now.heap basis.now.starts.now }
    requires remembered { map (λ s. s.items) basis.now.remembered.now ≡ map (refined basis.now.tracked.now) (regions basis.now.tracked.now.heap) }
    requires plan { IsPauseOf basis.now.tracked.now.heap basis.now.set.now basis.now.plan.now }
    requires cards { basis.now.cards.now ≡ cards_into basis.now.tracked.now.heap (map (λ s. s.items) basis.now.remembered.now) basis.now.set.now }
    requires seen { IfSome seen (λ s. s.leads.items ≡ slots_into basis.now.tracked.now.heap basis.now.set.now) }
    ensures ok { IfOk result (λ p. IsMadeFor p basis.now.tracked.now basis.now.set.now basis.now.plan.now.survivors) }
    ensures memory { IfErr result (λ e. e ≡ Fault.Memory) }
{
    match seen {
        Some(seen) => prepare_by_leads(rt, alloc, basis, seen.leads, workers),
        None => prepare_on(rt, alloc, basis, workers),
    }
}
