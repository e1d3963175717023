ghost use Rattle.std.specs.Prelude.{◌≡◌, ◌≢◌, ◌<◌, ◌≤◌, ◌+◌, suc, ℕ, List, length, slice_index, Contains, IfSome, IfNone, IfOk, OnOk};
ghost use Rattle.g1_words.specs.Heap.{object_at, objects};
ghost use Rattle.g1_words.specs.Valid.{IsReference};
ghost use Rattle.g1_same.specs.Same.{IsClash};
ghost use Rattle.g1_same.specs.Walk.{IsTour, IsWay, IsBelow, IsLinked, HasGrown, AreAlike, IsMet, IsSeen, IsLeast, IsLower};
ghost use Rattle.g1_same.specs.Behind.{FindsAlike};

use crate::difference::How;
use crate::pair::Pair;
use crate::walk::{Walk, Way};
use std::alloc::AllocError;

/// What two words are to the walk.
#[derive(Drop)]
pub enum Met {
    /// They agree.
    Known,
    /// They name two objects that are new and alike.
    New { a: u64, b: u64 },
    Clash(How),
}

/// The first place at which two lists of one length differ.
pub fn first_other(old: &[u64], new: &[u64]) -> Option<usize>
    requires { length new.now ≡ length old.now }
    ensures some { IfSome result (λ k. k < length old.now) }
    ensures other { IfSome result (λ k. slice_index new.now k ≢ slice_index old.now k) }
    ensures before { IfSome result (λ k. (i : ℕ) → i < k → slice_index old.now i ≡ slice_index new.now i) }
    ensures none { IfNone result ((i : ℕ) → i < length old.now → slice_index old.now i ≡ slice_index new.now i) }
{
    for place in 0..old.len() {
        if old[place] != new[place] {
            return Some(place);
        }
    }
    None
}

// How two objects differ, apart from what their slots name.
fn objects_differ(heaps: Pair<'_>, a: u64, b: u64) -> Option<How>
    requires a { Contains (objects heaps.before.now) (object_at heaps.before.now a) }
    requires b { Contains (objects heaps.after.now) (object_at heaps.after.now b) }
    ensures some { IfSome result (λ how. (p : List ℕ) → IsClash heaps.entry.before.now heaps.entry.after.now p how (suc a) (suc b)) }
    ensures lower { IfSome result (λ how. IsLower heaps.entry.before.now heaps.entry.after.now how a b) }
    ensures none { IfNone result (AreAlike heaps.entry.before.now heaps.entry.after.now a b) }
{
    let old = heaps.before.object(a);
    let new = heaps.after.object(b);
    if old.size != new.size {
        return Some(How::Size {
            before: old.size,
            after: new.size,
        });
    }
    if old.refs != new.refs {
        return Some(How::Slots {
            before: old.refs,
            after: new.refs,
        });
    }
    let here = heaps.before.data(&old);
    let there = heaps.after.data(&new);
    match first_other(here, there) {
        Some(word) => Some(How::Data { word: word as u64 }),
        None => None,
    }
}

// What two words are to the walk.
fn meet(heaps: Pair<'_>, walk: &Walk, x: u64, y: u64) -> Met
    requires walk { IsTour heaps.before.now heaps.after.now walk.now }
    requires x { IsReference heaps.before.now x }
    requires y { IsReference heaps.after.now y }
    ensures { IsMet heaps.entry.before.now heaps.entry.after.now walk.now x y result }
{
    if x == 0 {
        if y == 0 {
            return Met::Known;
        }
        return Met::Clash(How::NullBefore);
    }
    if y == 0 {
        return Met::Clash(How::NullAfter);
    }
    let a = x - 1;
    let b = y - 1;
    let i = walk.new_of[a as usize];
    let j = walk.old_of[b as usize];
    if i != j {
        if i != 0 {
            return Met::Clash(How::Split {
                object: a,
                first: walk.after[(i - 1) as usize],
                second: b,
            });
        }
        return Met::Clash(How::Joined {
            first: walk.before[(j - 1) as usize],
            second: a,
            object: b,
        });
    }
    if i != 0 {
        return Met::Known;
    }
    match objects_differ(heaps, a, b) {
        Some(how) => Met::Clash(how),
        None => Met::New { a, b },
    }
}

/// Links two words to which this way leads, or returns how they disagree.
pub fn link(
    heaps: Pair<'_>,
    walk: &mut Walk,
    way: Way,
    x: u64,
    y: u64,
) -> Result<Option<How>, AllocError>
    requires walk { IsTour heaps.before.now heaps.after.now walk.old }
    requires below { IsBelow walk.old way.from way.number }
    requires way { IsWay heaps.before.now heaps.after.now walk.old.before.items walk.old.after.items way.from way.number x y }
    requires backward { way.from ≤ length walk.old.before.items }
    requires x { IsReference heaps.before.now x }
    requires y { IsReference heaps.after.now y }
    ensures walk { OnOk result (IsTour heaps.entry.before.now heaps.entry.after.now walk.new) }
    ensures grown { OnOk result (HasGrown walk.old walk.new) }
    ensures alike { OnOk result (FindsAlike heaps.entry.before.now heaps.entry.after.now walk.old walk.new) }
    ensures linked { IfOk result (λ o. IfNone o (IsLinked walk.new way.from way.number x y)) }
    ensures below { OnOk result (IsBelow walk.new way.from (way.number + 1)) }
    ensures clash { IfOk result (λ o. IfSome o (λ how. IsSeen heaps.entry.before.now heaps.entry.after.now walk.new how x y × IsBelow walk.new way.from way.number × IsLeast heaps.entry.before.now heaps.entry.after.now walk.new how x y)) }
{
    match meet(heaps, walk, x, y) {
        Met::Known => Ok(None),
        Met::Clash(how) => Ok(Some(how)),
        Met::New { a, b } => {
            walk.add(way, a, b)?;
            Ok(None)
        }
    }
}
