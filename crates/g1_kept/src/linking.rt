ghost use Rattle.std.specs.Prelude.{◌≡◌, ◌≢◌, ◌<◌, ◌≤◌, ◌+◌, ◌-◌, ◌↔◌, ℕ, suc, [], length, slice_index, Contains, IfSome, IfNone, IfOk, OnOk, IsTrue, IsFalse};
ghost use Rattle.g1_words.specs.Heap.{word, start, top, object_at, objects};
ghost use Rattle.g1_words.specs.Survivors.{in_set};
ghost use Rattle.g1_words.specs.Valid.{IsReference};
ghost use Rattle.g1_same.specs.Walk.{AreAlike};
ghost use Rattle.g1_kept.specs.Keeps.{MayHoldCopy};
ghost use Rattle.g1_kept.specs.Lost.{LeadsOut, Disagree};
ghost use Rattle.g1_kept.specs.Walk.{HasMorePairs, ArePaired, IsPairMet, PairsRoots, PairsSlots, PassesWords, StopsAtWords};
ghost use Rattle.g1_kept.specs.Pause.{MatchIn, AreMatched, IsLossIn, IsMetFirstIn, IsWalkIn, SearchesIn, PassesObjectsIn, StopsAtObjectsIn};

use crate::lost::Lost;
use crate::pairs::Pairs;
use crate::pause::Pause;
use g1_words::{Heap, region_of};
use std::alloc::AllocError;

/// What two words are to the walk.
#[derive(Drop)]
pub enum Met {
    /// They agree.
    Agree,
    Differ,
    /// They reference an object of the set and one where no copy may be.
    Occupied { a: u64, b: u64 },
    /// They reference an object of the set and its copy, and both are new.
    New { a: u64, b: u64 },
}

// Whether a word references an object of the set.
fn leads_in(pause: &Pause<'_>, x: u64) -> bool
    ensures yes { IsTrue result → (x ≢ 0) × IsTrue (in_set pause.now.heaps.before.now pause.now.set.now (x - 1)) }
    ensures no { IsFalse result → LeadsOut pause.now.set.now pause.now.heaps.before.now x }
{
    let geometry = pause.heaps.before.geometry();
    x > 0 && pause.set.has(region_of(&geometry, x - 1))
}

// Whether an address is at or above a region's top.
fn is_behind_top(before: &Heap, number: u32, b: u64) -> bool
    requires { number < before.now.geometry.n }
    ensures { IsTrue result ↔ (start before.now number + top before.now number ≤ b) }
{
    before.geometry().start(number) + u64::from(before.region(number).top) <= b
}

// Whether a copy may be at an address.
fn may_hold_copy(before: &Heap, fill: bool, b: u64) -> bool
    requires { b < length before.now.words }
    ensures { IsTrue result ↔ MayHoldCopy fill before.now b }
{
    let number = region_of(&before.geometry(), b) as u32;
    let region = before.region(number);
    region.kind.is_free() || (fill && region.kind.is_ordinary() && is_behind_top(before, number, b))
}

// What two words are to the walk.
fn meet(pause: &Pause<'_>, pairs: &Pairs, x: u64, y: u64) -> Met
    requires walk { IsWalkIn pause.now pairs.now }
    requires sizes { length pause.now.heaps.after.now.words ≡ length pause.now.heaps.before.now.words }
    requires x { IsReference pause.now.heaps.before.now x }
    requires y { IsReference pause.now.heaps.after.now y }
    ensures { let p = pause.now in IsPairMet p.fill p.set.now p.heaps.before.now p.heaps.after.now pairs.now x y result }
{
    if !leads_in(pause, x) {
        if x == y {
            return Met::Agree;
        }
        return Met::Differ;
    }
    if y == 0 {
        return Met::Differ;
    }
    let a = x - 1;
    let b = y - 1;
    let i = pairs.new_of[a as usize];
    let j = pairs.old_of[b as usize];
    if i != j {
        return Met::Differ;
    }
    if i != 0 {
        return Met::Agree;
    }
    if may_hold_copy(pause.heaps.before, pause.fill, b) {
        Met::New { a, b }
    } else {
        Met::Occupied { a, b }
    }
}

// Links two words, or returns what is lost: this if they disagree.
fn link(
    pause: &Pause<'_>,
    pairs: &mut Pairs,
    x: u64,
    y: u64,
    other: Lost,
) -> Result<Option<Lost>, AllocError>
    requires walk { IsWalkIn pause.now pairs.old }
    requires sizes { length pause.now.heaps.after.now.words ≡ length pause.now.heaps.before.now.words }
    requires x { IsReference pause.now.heaps.before.now x }
    requires y { IsReference pause.now.heaps.after.now y }
    requires found { (a b : ℕ) → x ≡ suc a → y ≡ suc b → IsTrue (in_set pause.now.heaps.before.now pause.now.set.now a) → MatchIn pause.now a b }
    requires other { let p = pause.now in Disagree p.set.now p.heaps.before.now p.heaps.after.now x y → IsLossIn p other }
    ensures walk { OnOk result (IsWalkIn pause.now pairs.new) }
    ensures grown { OnOk result (HasMorePairs pairs.old pairs.new) }
    ensures paired { IfOk result (λ o. IfNone o (ArePaired pause.now.set.now pause.now.heaps.before.now pairs.new x y)) }
    ensures lost { IfOk result (λ o. IfSome o (λ l. IsLossIn pause.now l)) }
    ensures passed { let p = pause.now in IfOk result (λ o. IfNone o (PassesWords p.fill p.set.now p.heaps.before.now p.heaps.after.now pairs.old pairs.new x y)) }
    ensures first { let p = pause.now in IfOk result (λ o. IfSome o (λ l. StopsAtWords p.fill p.set.now p.heaps.before.now p.heaps.after.now pairs.old x y other l)) }
{
    match meet(pause, pairs, x, y) {
        Met::Agree => Ok(None),
        Met::Differ => Ok(Some(other)),
        Met::Occupied { a, b } => Ok(Some(Lost::Copy {
            before: a,
            after: b,
        })),
        Met::New { a, b } => {
            pairs.add(a, b)?;
            Ok(None)
        }
    }
}

/// Links the roots, by number.
pub(crate) fn link_roots(pause: &Pause<'_>, pairs: &mut Pairs) -> Result<Option<Lost>, AllocError>
    requires walk { IsWalkIn pause.now pairs.old }
    requires sizes { length pause.now.heaps.after.now.words ≡ length pause.now.heaps.before.now.words }
    requires roots { length pause.now.heaps.after.now.roots ≡ length pause.now.heaps.before.now.roots }
    requires none { pairs.old.before.items ≡ [] }
    ensures walk { OnOk result (IsWalkIn pause.now pairs.new) }
    ensures paired { let p = pause.now in IfOk result (λ o. IfNone o (PairsRoots p.set.now p.heaps.before.now p.heaps.after.now pairs.new (length p.heaps.before.now.roots))) }
    ensures lost { IfOk result (λ o. IfSome o (λ l. IsLossIn pause.now l)) }
    ensures searched { IfOk result (λ o. IfNone o (SearchesIn pause.now pairs.new 1 0)) }
    ensures first { IfOk result (λ o. IfSome o (λ l. IsMetFirstIn pause.now l)) }
{
    let old = pause.heaps.before.roots();
    let new = pause.heaps.after.roots();
    for number in 0..old.len() {
        let x = old[number];
        let y = new[number];
        let other = Lost::Root(number as u64);
        if let Some(lost) = link(pause, pairs, x, y, other)? {
            return Ok(Some(lost));
        }
    }
    Ok(None)
}

/// Links the slots of two objects that match, by number.
pub(crate) fn link_slots(
    pause: &Pause<'_>,
    pairs: &mut Pairs,
    a: u64,
    b: u64,
) -> Result<Option<Lost>, AllocError>
    requires walk { IsWalkIn pause.now pairs.old }
    requires sizes { length pause.now.heaps.after.now.words ≡ length pause.now.heaps.before.now.words }
    requires pair { AreMatched pause.now a b }
    requires alike { AreAlike pause.now.heaps.before.now pause.now.heaps.after.now a b }
    ensures walk { OnOk result (IsWalkIn pause.now pairs.new) }
    ensures grown { OnOk result (HasMorePairs pairs.old pairs.new) }
    ensures paired { let p = pause.now in IfOk result (λ o. IfNone o (PairsSlots p.set.now p.heaps.before.now p.heaps.after.now pairs.new a b (object_at p.heaps.before.now a).refs)) }
    ensures lost { IfOk result (λ o. IfSome o (λ l. IsLossIn pause.now l)) }
    ensures passed { IfOk result (λ o. IfNone o (PassesObjectsIn pause.now pairs.old pairs.new a b 1)) }
    ensures first { IfOk result (λ o. IfSome o (λ l. StopsAtObjectsIn pause.now pairs.old a b 1 l)) }
{
    let old = pause.heaps.before.object(a);
    let new = pause.heaps.after.object(b);
    let here = pause.heaps.before.slots(&old);
    let there = pause.heaps.after.slots(&new);
    for number in 0..here.len() {
        let x = here[number];
        let y = there[number];
        let other = Lost::Slot {
            before: a,
            after: b,
            slot: number as u64,
        };
        if let Some(lost) = link(pause, pairs, x, y, other)? {
            return Ok(Some(lost));
        }
    }
    Ok(None)
}
