ghost use Rattle.std.specs.Prelude.{◌≡◌, ◌≤◌, ◌<◌, ◌+◌, length, IfSome, IfNone, IfOk, OnOk};
ghost use Rattle.g1_same.specs.Walk.{IsTour, IsBelow, HasGrown};
ghost use Rattle.g1_same.specs.Behind.{IsFound, IsNext, IsNextStale, LinksBetween, FindsAlike, PassesNoStale};

use crate::meeting::link;
use crate::pair::Pair;
use crate::stale::{StaleWords, stale_word};
use crate::walk::{Found, Place, Walk, Way, What};
use std::alloc::AllocError;

// Two words that differ like this.
fn found_at(way: Way, x: u64, y: u64, what: What) -> Found
    ensures { result ≡ record { place = record { way = way; before = x; after = y }; what = what } }
{
    Found {
        place: Place {
            way,
            before: x,
            after: y,
        },
        what,
    }
}

// Links the roots that both heaps have, from this number on.
fn link_roots(
    heaps: Pair<'_>,
    stale: &StaleWords<'_>,
    walk: &mut Walk,
    first: u32,
) -> Result<Option<Found>, AllocError>
    requires walk { IsTour heaps.before.now heaps.after.now walk.old }
    requires below { IsBelow walk.old 0 first }
    ensures walk { OnOk result (IsTour heaps.entry.before.now heaps.entry.after.now walk.new) }
    ensures grown { OnOk result (HasGrown walk.old walk.new) }
    ensures alike { OnOk result (FindsAlike heaps.entry.before.now heaps.entry.after.now walk.old walk.new) }
    ensures below { OnOk result (IsBelow walk.new 1 0) }
    ensures linked { IfOk result (λ o. IfNone o (LinksBetween heaps.entry.before.now heaps.entry.after.now walk.new 0 first 1 0)) }
    ensures found { IfOk result (λ o. IfSome o (λ f. IsFound heaps.entry.before.now heaps.entry.after.now stale.now walk.new f)) }
    ensures until { IfOk result (λ o. IfSome o (λ f. IsNext heaps.entry.before.now heaps.entry.after.now walk.new 0 first f)) }
    ensures no_stale { IfOk result (λ o. IfSome o (λ f. IsNextStale heaps.entry.before.now heaps.entry.after.now stale.now walk.new 0 first f)) }
    ensures no_stale_left { IfOk result (λ o. IfNone o (PassesNoStale heaps.entry.before.now heaps.entry.after.now stale.now walk.new 0 first 1 0)) }
{
    let roots = heaps.before.roots();
    let others = heaps.after.roots();
    let end = roots.len().min(others.len());
    for number in first as usize..end {
        let x = roots[number];
        let y = others[number];
        let way = Way {
            from: 0,
            number: number as u32,
        };
        if let Some(word) = stale_word(stale.roots, number as u64, y) {
            return Ok(Some(found_at(way, x, y, What::Stale(word))));
        }
        if let Some(how) = link(heaps, walk, way, x, y)? {
            return Ok(Some(found_at(way, x, y, What::How(how))));
        }
    }
    Ok(None)
}

// Links the slots of a pair, from this way on.
fn link_slots(
    heaps: Pair<'_>,
    stale: &StaleWords<'_>,
    walk: &mut Walk,
    first: Way,
) -> Result<Option<Found>, AllocError>
    requires walk { IsTour heaps.before.now heaps.after.now walk.old }
    requires below { IsBelow walk.old first.from first.number }
    requires some { 0 < first.from }
    requires pair { first.from ≤ length walk.old.before.items }
    ensures walk { OnOk result (IsTour heaps.entry.before.now heaps.entry.after.now walk.new) }
    ensures grown { OnOk result (HasGrown walk.old walk.new) }
    ensures alike { OnOk result (FindsAlike heaps.entry.before.now heaps.entry.after.now walk.old walk.new) }
    ensures below { OnOk result (IsBelow walk.new (first.from + 1) 0) }
    ensures linked { IfOk result (λ o. IfNone o (LinksBetween heaps.entry.before.now heaps.entry.after.now walk.new first.from first.number (first.from + 1) 0)) }
    ensures found { IfOk result (λ o. IfSome o (λ f. IsFound heaps.entry.before.now heaps.entry.after.now stale.now walk.new f)) }
    ensures until { IfOk result (λ o. IfSome o (λ f. IsNext heaps.entry.before.now heaps.entry.after.now walk.new first.from first.number f)) }
    ensures no_stale { IfOk result (λ o. IfSome o (λ f. IsNextStale heaps.entry.before.now heaps.entry.after.now stale.now walk.new first.from first.number f)) }
    ensures no_stale_left { IfOk result (λ o. IfNone o (PassesNoStale heaps.entry.before.now heaps.entry.after.now stale.now walk.new first.from first.number (first.from + 1) 0)) }
{
    let from = first.from;
    let pair = (from - 1) as usize;
    let old = heaps.before.object(walk.before[pair]);
    let new = heaps.after.object(walk.after[pair]);
    let here = heaps.before.slots(&old);
    let there = heaps.after.slots(&new);
    for number in first.number as usize..here.len() {
        let x = here[number];
        let y = there[number];
        let way = Way {
            from,
            number: number as u32,
        };
        if let Some(word) = stale_word(stale.slots, new.at + 1 + number as u64, y) {
            return Ok(Some(found_at(way, x, y, What::Stale(word))));
        }
        if let Some(how) = link(heaps, walk, way, x, y)? {
            return Ok(Some(found_at(way, x, y, What::How(how))));
        }
    }
    Ok(None)
}

// Links the slots of all pairs from this way on, of those that this finds too.
fn link_pairs(
    heaps: Pair<'_>,
    stale: &StaleWords<'_>,
    walk: &mut Walk,
    first: Way,
) -> Result<Option<Found>, AllocError>
    requires walk { IsTour heaps.before.now heaps.after.now walk.old }
    requires below { IsBelow walk.old first.from first.number }
    requires some { 0 < first.from }
    ensures walk { OnOk result (IsTour heaps.entry.before.now heaps.entry.after.now walk.new) }
    ensures grown { OnOk result (HasGrown walk.old walk.new) }
    ensures alike { OnOk result (FindsAlike heaps.entry.before.now heaps.entry.after.now walk.old walk.new) }
    ensures linked { IfOk result (λ o. IfNone o (LinksBetween heaps.entry.before.now heaps.entry.after.now walk.new first.from first.number (length walk.new.before.items + 1) 0)) }
    ensures found { IfOk result (λ o. IfSome o (λ f. IsFound heaps.entry.before.now heaps.entry.after.now stale.now walk.new f)) }
    ensures until { IfOk result (λ o. IfSome o (λ f. IsNext heaps.entry.before.now heaps.entry.after.now walk.new first.from first.number f)) }
    ensures no_stale { IfOk result (λ o. IfSome o (λ f. IsNextStale heaps.entry.before.now heaps.entry.after.now stale.now walk.new first.from first.number f)) }
    ensures no_stale_left { IfOk result (λ o. IfNone o (PassesNoStale heaps.entry.before.now heaps.entry.after.now stale.now walk.new first.from first.number (length walk.new.before.items + 1) 0)) }
{
    let mut way = first;
    while way.from as usize <= walk.before.len() {
        if let Some(found) = link_slots(heaps, stale, walk, way)? {
            return Ok(Some(found));
        }
        way = Way {
            from: way.from + 1,
            number: 0,
        };
    }
    Ok(None)
}

/// The first difference by this way or a later one.
pub fn search(
    heaps: Pair<'_>,
    stale: &StaleWords<'_>,
    walk: &mut Walk,
    first: Way,
) -> Result<Option<Found>, AllocError>
    requires walk { IsTour heaps.before.now heaps.after.now walk.old }
    requires below { IsBelow walk.old first.from first.number }
    ensures walk { OnOk result (IsTour heaps.entry.before.now heaps.entry.after.now walk.new) }
    ensures grown { OnOk result (HasGrown walk.old walk.new) }
    ensures alike { OnOk result (FindsAlike heaps.entry.before.now heaps.entry.after.now walk.old walk.new) }
    ensures linked { IfOk result (λ o. IfNone o (LinksBetween heaps.entry.before.now heaps.entry.after.now walk.new first.from first.number (length walk.new.before.items + 1) 0)) }
    ensures found { IfOk result (λ o. IfSome o (λ f. IsFound heaps.entry.before.now heaps.entry.after.now stale.now walk.new f)) }
    ensures until { IfOk result (λ o. IfSome o (λ f. IsNext heaps.entry.before.now heaps.entry.after.now walk.new first.from first.number f)) }
    ensures no_stale { IfOk result (λ o. IfSome o (λ f. IsNextStale heaps.entry.before.now heaps.entry.after.now stale.now walk.new first.from first.number f)) }
    ensures no_stale_left { IfOk result (λ o. IfNone o (PassesNoStale heaps.entry.before.now heaps.entry.after.now stale.now walk.new first.from first.number (length walk.new.before.items + 1) 0)) }
{
    if first.from > 0 {
        return link_pairs(heaps, stale, walk, first);
    }
    if let Some(found) = link_roots(heaps, stale, walk, first.number)? {
        return Ok(Some(found));
    }
    let slots = Way { from: 1, number: 0 };
    link_pairs(heaps, stale, walk, slots)
}
