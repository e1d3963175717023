ghost use Rattle.std.specs.Prelude.{◌≡◌, ◌<◌, ◌++◌, length, map, Contains, false, All, OnOk, IfOk, IfErr};
ghost use Rattle.std.specs.List.Sorted.{IsStrictlyIncreasing};
ghost use Rattle.g1_image.specs.Image.{card_in};
ghost use Rattle.g1_rem.specs.Slots.{slots_on};
ghost use Rattle.g1_rem.specs.Starts.{IsStartsOf, card_count};
ghost use Rattle.g1_copy.specs.Plans.{IsPauseOf, IsPlanOf};
ghost use Rattle.g1_copy.specs.Patches.{AreLeads, all_patches, patch_at, patches_at, patches_by_card, patches_on, AreBefore, AreFirsts};

use crate::gathering::rename_reference;
use crate::moving::Moving;
use g1_layout::Plan;
use g1_rem::{SCANNED_CARDS_A_THREAD, Starts, slots_on};
use g1_words::{Fault, Heap};
use g1_work::{MOST_WORKERS, threads_for};
use std::alloc::{AllocError, Global};
use std::marker::Model;
use std::thread;
use std::thread::Threads;

/// Adds a slot with its new word, if it references a survivor.
fn push_patch(
    moving: &Moving<'_>,
    slot: u64,
    patches: &mut Vec<(u64, u64)>,
) -> Result<(), AllocError>
    requires { slot < length moving.now.heap.words }
    ensures { OnOk result (patches.new.items ≡ patches.old.items ++ patch_at moving.now.heap moving.now.plan.survivors slot) }
{
    let word = moving.heap.words().at(slot);
    if word == 0 {
        return Ok(());
    }
    let target = word - 1;
    let place = moving.plan.forward(target);
    // Each survivor moves, from an ordinary region to a free one, and nothing else does.
    if place != target {
        patches.push((slot, place + 1))?;
    }
    Ok(())
}

/// Where slots are found, and where what they reference goes.
#[derive(Drop)]
pub(crate) struct Moves<'a> {
    pub(crate) moving: &'a Moving<'a>,
    pub(crate) starts: &'a Starts,
}

impl<'a> Model for Moves<'a> {
    ghost use Rattle.g1_rem.specs.Starts.{IsStartsOf};
    ghost use Rattle.g1_copy.specs.Plans.{Moving as MovingOf};

    ghost Value = { MovingOf };

    ghost view = { λ m. m.moving.now };

    ghost invariant = { λ m. IsStartsOf m.moving.now.heap m.starts.now };
}

/// Adds the slots on a card that reference a survivor, each with its new word.
fn push_card(
    alloc: Global,
    moves: &Moves<'_>,
    card: u32,
    patches: &mut Vec<(u64, u64)>,
) -> Result<(), AllocError>
    requires { card < card_count moves.now.heap }
    ensures { OnOk result (patches.new.items ≡ patches.old.items ++ patches_at moves.now.heap moves.now.plan.survivors (slots_on moves.now.heap card)) }
{
    let moving = moves.moving;
    let slots = slots_on(alloc, moving.heap, moves.starts, card);
    for slot in slots.as_slice() {
        push_patch(moving, *slot, patches)?;
    }
    Ok(())
}

/// The slots on some cards that reference a survivor, card by card, each with its new word.
fn patches_alone(
    alloc: Global,
    moves: &Moves<'_>,
    cards: &[u32],
) -> Result<Vec<(u64, u64)>, AllocError>
    requires { All (λ c. c < card_count moves.now.heap) cards.now }
    ensures { IfOk result (λ v. v.items ≡ patches_by_card moves.now.heap moves.now.plan.survivors cards.now) }
{
    let mut patches = Vec::new(alloc);
    for card in cards {
        push_card(alloc, moves, *card, &mut patches)?;
    }
    Ok(patches)
}

/// As `patches_alone`, by this many threads, each with a chunk of the cards.
fn patches_by_threads(
    rt: &(impl Threads + Sync),
    alloc: Global,
    moves: &Moves<'_>,
    cards: &[u32],
    threads: usize,
) -> Result<Vec<(u64, u64)>, AllocError>
    requires some { 0 < threads }
    requires there { All (λ c. c < card_count moves.now.heap) cards.now }
    ensures { IfOk result (λ v. v.items ≡ patches_by_card moves.now.heap moves.now.plan.survivors cards.now) }
{
    let size = cards.len().div_ceil(threads).max(1);
    let parts = thread::map_chunks(
        rt,
        alloc,
        cards,
        size,
        &|_start: usize, part: &[u32]| -> Result<Vec<(u64, u64)>, AllocError>
            requires { All (λ c. c < card_count moves.now.heap) part.now }
            ensures { IfOk result (λ v. v.items ≡ patches_by_card moves.entry.now.heap moves.entry.now.plan.survivors part.now) }
        { patches_alone(alloc, moves, part) },
    )?;
    let mut patches = Vec::new(alloc);
    for part in &parts {
        match part {
            Ok(part) => patches.extend_from_slice(part)?,
            Err(_) => return Err(AllocError),
        }
    }
    Ok(patches)
}

/// The slots on some cards that reference a survivor, each with its new word, by slot address. The cards
/// rise, and none of them lies in a region of the set. Linear in the slots on the cards. May start
/// threads.
///
/// # Errors
///
/// `Fault::Memory` alone.
///
/// # Examples
///
/// ```
/// use g1_copy::patches;
/// use g1_layout::place;
/// use g1_rem::Starts;
/// use g1_testing::{image, pictures::shared};
///
/// let shared = image(alloc, shared())?;
/// let starts = Starts::build(alloc, shared.heap())?;
/// let plan = place(alloc, shared.heap(), &[1], &[21, 16])?;
/// // The slots at 1 and 5 reference the object at 21, which moves to 32.
/// let found = patches(&rt, alloc, shared.heap(), &starts, &plan, &[0, 1])?;
/// assert_eq!(rt; found.as_slice(), [(1, 33), (5, 33)].as_slice());
/// ```
pub fn patches(
    rt: &(impl Threads + Sync),
    alloc: Global,
    heap: &Heap,
    starts: &Starts,
    plan: &Plan,
    cards: &[u32],
) -> Result<Vec<(u64, u64)>, Fault>
    requires starts { IsStartsOf heap.now starts.now }
    requires plan { IsPlanOf heap.now plan.now }
    requires rising { IsStrictlyIncreasing cards.now }
    requires there { All (λ c. c < card_count heap.now) cards.now }
    requires outside { All (λ c. card_in heap.now plan.now.set c ≡ false) cards.now }
    ensures ok { IfOk result (λ v. v.items ≡ patches_on heap.now plan.now.survivors cards.now) }
    ensures memory { IfErr result (λ e. e ≡ Fault.Memory) }
{
    g1_words::laws::valid(heap);
    let moving = Moving { heap, plan };
    let moves = Moves {
        moving: &moving,
        starts,
    };
    Ok(patches_by(rt, alloc, &moves, cards, MOST_WORKERS)?)
}

/// As `patches_alone`, by this many workers at most. One if it is 0.
pub(crate) fn patches_by(
    rt: &(impl Threads + Sync),
    alloc: Global,
    moves: &Moves<'_>,
    cards: &[u32],
    workers: u64,
) -> Result<Vec<(u64, u64)>, AllocError>
    requires { All (λ c. c < card_count moves.now.heap) cards.now }
    ensures { IfOk result (λ v. v.items ≡ patches_by_card moves.now.heap moves.now.plan.survivors cards.now) }
{
    match threads_for(workers, cards.len(), SCANNED_CARDS_A_THREAD) {
        1 => patches_alone(alloc, moves, cards),
        threads => patches_by_threads(rt, alloc, moves, cards, threads),
    }
}

/// Makes the patches of the slots that lead into the set: puts the word after the pause in place of each
/// slot's word.
pub(crate) fn rename_slots(moving: &Moving<'_>, slots: &mut Vec<(u64, u64)>)
    requires plan { IsPauseOf moving.now.heap moving.now.plan.set moving.now.plan }
    requires leads { AreLeads moving.now.heap moving.now.plan.set moving.now.plan.survivors slots.old.items }
    ensures { slots.new.items ≡ all_patches moving.now.heap moving.now.plan.set moving.now.plan.survivors }
{
    let plan = moving.plan;
    for index in 0..slots.len() {
        let slot = slots[index];
        slots[index] = (slot.0, rename_reference(plan, slot.1));
    }
}

/// How many patches lie before an address.
fn before(patches: &[(u64, u64)], end: u64) -> usize
    requires { IsStrictlyIncreasing (map (λ x. x.0) patches.now) }
    ensures { AreBefore patches.now end result }
{
    patches.partition_point(|patch| patch.0 < end)
}

/// For each region how many patches lie before it, and at last all.
pub(crate) fn firsts(
    alloc: Global,
    heap: &Heap,
    patches: &[(u64, u64)],
) -> Result<Vec<usize>, AllocError>
    requires { IsStrictlyIncreasing (map (λ x. x.0) patches.now) }
    ensures { IfOk result (λ v. AreFirsts heap.now.geometry.w heap.now.geometry.n patches.now v.items) }
{
    let geometry = heap.geometry();
    let count = geometry.regions() as u32 + 1;
    let mut firsts = Vec::with_capacity(alloc, count as usize)?;
    for region in 0..count {
        firsts.push(before(patches, geometry.start(region)))?;
    }
    Ok(firsts)
}
