ghost use Rattle.std.specs.Prelude.{◌≡◌, ◌≢◌, ◌<◌, ◌≤◌, ◌+◌, ◌↔◌, ℕ, suc, List, length, slice_index, Contains, IfSome, IfNone, IfOk, IfErr, OnOk, IsTrue, IsFalse};
ghost use Rattle.g1_words.specs.declared.fault.Fault.TheVariants.{Memory};
ghost use Rattle.g1_words.specs.declared.region.Kind.TheVariants.{Free};
ghost use Rattle.g1_words.specs.Lists.{has};
ghost use Rattle.g1_words.specs.Heap.{kind, start};
ghost use Rattle.g1_same.specs.Walk.{AreAlike};
ghost use Rattle.g1_kept.specs.Keeps.{Keeps};
ghost use Rattle.g1_kept.specs.Lost.{IsLoss};
ghost use Rattle.g1_kept.specs.Order.{IsEarliestLoss};
ghost use Rattle.g1_kept.specs.Walk.{HasMorePairs, IsCompared, ComparesRegion, ComparesOutside, ComparesPairs, IsFirstOfObjects};
ghost use Rattle.g1_kept.specs.Pause.{KeepsIn, KeepsTableIn, IsLossIn, IsEarliestIn, IsMetFirstIn, AreMatched, IsWalkIn, SearchesIn, PassesObjectsIn, StopsAtObjectsIn};

use crate::linking::{link_roots, link_slots};
use crate::lost::Lost;
use crate::pairs::{Pairs, start};
use crate::pause::Pause;
use crate::region_set::RegionSet;
use crate::tables::compare_tables;
use g1_same::{Pair, first_other};
use g1_words::{Fault, Heap, objects_in};
use std::alloc::{AllocError, Global};

// What is lost of an object in the one after that matches it, apart from its slots.
fn compare_contents(pause: &Pause<'_>, a: u64, b: u64) -> Option<Lost>
    requires pair { AreMatched pause.now a b }
    ensures none { IfNone result (AreAlike pause.now.heaps.before.now pause.now.heaps.after.now a b) }
    ensures some { IfSome result (λ l. IsLossIn pause.now l) }
    ensures first { IfSome result (λ l. IsFirstOfObjects pause.now.heaps.before.now pause.now.heaps.after.now a b l) }
{
    let old = pause.heaps.before.object(a);
    let new = pause.heaps.after.object(b);
    if old.size != new.size || old.refs != new.refs {
        return Some(Lost::Header {
            before: a,
            after: b,
        });
    }
    let here = pause.heaps.before.data(&old);
    let there = pause.heaps.after.data(&new);
    match first_other(here, there) {
        Some(word) => Some(Lost::Data {
            before: a,
            after: b,
            word: word as u64,
        }),
        None => None,
    }
}

// Compares an object with the one after that matches it.
fn compare_pair(
    pause: &Pause<'_>,
    pairs: &mut Pairs,
    a: u64,
    b: u64,
) -> Result<Option<Lost>, AllocError>
    requires walk { IsWalkIn pause.now pairs.old }
    requires sizes { length pause.now.heaps.after.now.words ≡ length pause.now.heaps.before.now.words }
    requires pair { AreMatched pause.now a b }
    ensures walk { OnOk result (IsWalkIn pause.now pairs.new) }
    ensures grown { OnOk result (HasMorePairs pairs.old pairs.new) }
    ensures compared { let p = pause.now in IfOk result (λ o. IfNone o (IsCompared p.set.now p.heaps.before.now p.heaps.after.now pairs.new a b)) }
    ensures lost { IfOk result (λ o. IfSome o (λ l. IsLossIn pause.now l)) }
    ensures passed { IfOk result (λ o. IfNone o (PassesObjectsIn pause.now pairs.old pairs.new a b 0)) }
    ensures first { IfOk result (λ o. IfSome o (λ l. StopsAtObjectsIn pause.now pairs.old a b 0 l)) }
{
    if let Some(lost) = compare_contents(pause, a, b) {
        return Ok(Some(lost));
    }
    link_slots(pause, pairs, a, b)
}

// Compares the objects of a region outside the set, which is as it was, each with itself.
fn compare_region(
    alloc: Global,
    pause: &Pause<'_>,
    pairs: &mut Pairs,
    region: u32,
) -> Result<Option<Lost>, AllocError>
    requires walk { IsWalkIn pause.now pairs.old }
    requires table { KeepsTableIn pause.now }
    requires region { region < pause.now.heaps.before.now.geometry.n }
    requires outside { IsFalse (has pause.now.set.now region) }
    requires used { kind pause.now.heaps.before.now region ≢ Free }
    requires in_use { kind pause.now.heaps.after.now region ≢ Free }
    requires search { SearchesIn pause.now pairs.old (suc (start pause.now.heaps.before.now region)) 0 }
    ensures walk { OnOk result (IsWalkIn pause.now pairs.new) }
    ensures grown { OnOk result (HasMorePairs pairs.old pairs.new) }
    ensures compared { let p = pause.now in IfOk result (λ o. IfNone o (ComparesRegion p.set.now p.heaps.before.now p.heaps.after.now pairs.new region)) }
    ensures lost { IfOk result (λ o. IfSome o (λ l. IsLossIn pause.now l)) }
    ensures searched { IfOk result (λ o. IfNone o (SearchesIn pause.now pairs.new (suc (start pause.now.heaps.before.now (region + 1))) 0)) }
    ensures first { IfOk result (λ o. IfSome o (λ l. IsMetFirstIn pause.now l)) }
{
    let starts = match objects_in(alloc, pause.heaps.before, region) {
        Ok(starts) => starts,
        Err(_) => return Err(AllocError),
    };
    for place in 0..starts.len() {
        let at = starts[place];
        if let Some(lost) = compare_pair(pause, pairs, at, at)? {
            return Ok(Some(lost));
        }
    }
    Ok(None)
}

// Whether a region outside the set was in use and still is.
fn is_compared(pause: &Pause<'_>, region: u32) -> bool
    requires before { region < pause.now.heaps.before.now.geometry.n }
    requires after { region < pause.now.heaps.after.now.geometry.n }
    ensures { IsTrue result ↔ (IsFalse (has pause.now.set.now region) × (kind pause.now.heaps.before.now region ≢ Free) × (kind pause.now.heaps.after.now region ≢ Free)) }
{
    !pause.set.has(u64::from(region))
        && pause.heaps.before.region(region).kind.is_used()
        && pause.heaps.after.region(region).kind.is_used()
}

// Compares the objects outside the set that are still there, each with itself.
fn compare_outside(
    alloc: Global,
    pause: &Pause<'_>,
    pairs: &mut Pairs,
) -> Result<Option<Lost>, AllocError>
    requires walk { IsWalkIn pause.now pairs.old }
    requires table { KeepsTableIn pause.now }
    requires search { SearchesIn pause.now pairs.old 1 0 }
    ensures walk { OnOk result (IsWalkIn pause.now pairs.new) }
    ensures grown { OnOk result (HasMorePairs pairs.old pairs.new) }
    ensures compared { let p = pause.now in IfOk result (λ o. IfNone o (ComparesOutside p.set.now p.heaps.before.now p.heaps.after.now pairs.new p.heaps.before.now.geometry.n)) }
    ensures lost { IfOk result (λ o. IfSome o (λ l. IsLossIn pause.now l)) }
    ensures searched { IfOk result (λ o. IfNone o (SearchesIn pause.now pairs.new (suc (length pause.now.heaps.before.now.words)) 0)) }
    ensures first { IfOk result (λ o. IfSome o (λ l. IsMetFirstIn pause.now l)) }
{
    for region in 0..pause.heaps.before.geometry().regions() as u32 {
        if is_compared(pause, region) {
            if let Some(lost) = compare_region(alloc, pause, pairs, region)? {
                return Ok(Some(lost));
            }
        }
    }
    Ok(None)
}

// Compares all pairs, those that this finds, too.
fn compare_pairs(pause: &Pause<'_>, pairs: &mut Pairs) -> Result<Option<Lost>, AllocError>
    requires walk { IsWalkIn pause.now pairs.old }
    requires table { KeepsTableIn pause.now }
    requires search { SearchesIn pause.now pairs.old (suc (length pause.now.heaps.before.now.words)) 0 }
    ensures walk { OnOk result (IsWalkIn pause.now pairs.new) }
    ensures grown { OnOk result (HasMorePairs pairs.old pairs.new) }
    ensures compared { let p = pause.now in IfOk result (λ o. IfNone o (ComparesPairs p.set.now p.heaps.before.now p.heaps.after.now pairs.new (length pairs.new.before.items))) }
    ensures lost { IfOk result (λ o. IfSome o (λ l. IsLossIn pause.now l)) }
    ensures first { IfOk result (λ o. IfSome o (λ l. IsMetFirstIn pause.now l)) }
{
    let mut place = 0;
    while place < pairs.before.len() {
        let a = pairs.before[place];
        let b = pairs.after[place];
        if let Some(lost) = compare_pair(pause, pairs, a, b)? {
            return Ok(Some(lost));
        }
        place += 1;
    }
    Ok(None)
}

// What is lost of what roots and objects hold.
fn compare_words(alloc: Global, pause: &Pause<'_>) -> Result<Option<Lost>, AllocError>
    requires table { KeepsTableIn pause.now }
    requires roots { length pause.now.heaps.after.now.roots ≡ length pause.now.heaps.before.now.roots }
    ensures none { IfOk result (λ o. IfNone o (KeepsIn pause.now)) }
    ensures some { IfOk result (λ o. IfSome o (λ l. IsLossIn pause.now l)) }
    ensures first { IfOk result (λ o. IfSome o (λ l. IsMetFirstIn pause.now l)) }
{
    let mut pairs = start(alloc, pause)?;
    if let Some(lost) = link_roots(pause, &mut pairs)? {
        return Ok(Some(lost));
    }
    if let Some(lost) = compare_outside(alloc, pause, &mut pairs)? {
        return Ok(Some(lost));
    }
    compare_pairs(pause, &mut pairs)
}

// The first thing that is lost.
fn find_loss(alloc: Global, pause: &Pause<'_>) -> Result<Option<Lost>, AllocError>
    ensures none { IfOk result (λ o. IfNone o (KeepsIn pause.now)) }
    ensures some { IfOk result (λ o. IfSome o (λ l. IsLossIn pause.now l)) }
    ensures earliest { IfOk result (λ o. IfSome o (λ l. IsEarliestIn pause.now l)) }
{
    if let Some(lost) = compare_tables(pause) {
        return Ok(Some(lost));
    }
    if pause.heaps.before.roots().len() != pause.heaps.after.roots().len() {
        return Ok(Some(Lost::Roots));
    }
    compare_words(alloc, pause)
}

/// Whether a heap keeps what a pause of these regions keeps of another one: all objects outside them
/// in their places, and a copy of each object of theirs that a root or a kept slot leads to. A copy is in a
/// region that was free; if `fill`, it may be behind the old top of an ordinary region, too.
///
/// # Errors
///
/// `Fault::Memory` alone. `Lost` says what is lost.
pub fn kept(
    alloc: Global,
    before: &Heap,
    after: &Heap,
    set: &[u32],
    fill: bool,
) -> Result<Result<(), Lost>, Fault>
    ensures keeps { IfOk result (λ r. IfOk r (λ _. Keeps fill set.now before.now after.now)) }
    ensures lost { IfOk result (λ r. IfErr r (λ l. IsLoss fill set.now before.now after.now l)) }
    ensures earliest { IfOk result (λ r. IfErr r (λ l. IsEarliestLoss fill set.now before.now after.now l)) }
    ensures never { IfOk result (λ r. IfErr r (λ _. Keeps fill set.now before.now after.now → ⊥)) }
    ensures memory { IfErr result (λ e. e ≡ Memory) }
{
    let heaps = Pair::new(before, after);
    let regions = RegionSet::new(alloc, before.regions().len(), set)?;
    let pause = Pause {
        heaps,
        set: &regions,
        fill,
    };
    match find_loss(alloc, &pause)? {
        Some(lost) => Ok(Err(lost)),
        None => Ok(Ok(())),
    }
}
