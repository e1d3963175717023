//! The differences of two heaps, one after another.
ghost use Rattle.std.specs.Prelude.{◌≡◌, ◌+◌, IfOk, OnOk};
ghost use Rattle.g1_words.specs.Valid.{IsValid};
ghost use Rattle.g1_same.specs.declared.stale.StaleWords.{StaleWords};
ghost use Rattle.g1_same.specs.Walk.{IsTour, IsBelow, HasGrown};
ghost use Rattle.g1_same.specs.Behind.{AddsOnly, IsFound, IsPassed};

use crate::difference::How;
use crate::pair::Pair;
use crate::path::{Path, path_by};
use crate::searching::search;
use crate::stale::StaleWords;
use crate::walk::{Found, Walk, Way, What, start};
use g1_words::{Fault, Heap};
use std::alloc::{AllocError, Global};

/// A walk over two heaps that returns one difference after another, in breadth-first order.
///
/// Places are compared: the roots that both heaps have, and the slots of each pair of objects that was found. The walk
/// goes on behind two objects whose data words alone differ. Nothing lies behind any other difference.
#[derive(Drop)]
pub struct Differences<'a> {
    before: &'a Heap,
    after: &'a Heap,
    stale: StaleWords<'a>,
    walk: Walk,
    // Where the walk goes on.
    way: Way,
    ghost valid_before: { ∥ IsValid before.now ∥₁ },
    ghost valid_after: { ∥ IsValid after.now ∥₁ },
}

impl<'a> Differences<'a> {
    ghost use Rattle.g1_same.specs.Walk.{HasGrown, IsRoute};
    ghost use Rattle.g1_same.specs.Behind.{FindsAlike, IsNext, IsNextStale, IsPassed, IsThere, LinksBetween, PassesNoStale, ShowsAt};
    ghost use Rattle.g1_same.specs.Underway.{IsUnderway, FindsAlikeUntil};
    ghost use Rattle.std.specs.Prelude.{◌≡◌, ◌+◌, ◌∷◌, [], length, IfSome, IfNone, IfOk, IfErr, OnOk};
    ghost use Rattle.g1_words.specs.declared.fault.Fault.TheVariants.{Memory};

    /// A walk that has found nothing. Stale words of the second heap are differences, too.
    ///
    /// # Errors
    /// `Fault::Memory` if a growth was refused.
    pub fn new(
        alloc: Global,
        before: &'a Heap,
        after: &'a Heap,
        stale: StaleWords<'a>,
    ) -> Result<Differences<'a>, Fault>
        ensures underway { IfOk result (λ d. IsUnderway d) }
        ensures heaps { IfOk result (λ d. (d.before.now ≡ before.now) × (d.after.now ≡ after.now)) }
        ensures stale { IfOk result (λ d. d.stale ≡ stale.entry) }
        ensures first { IfOk result (λ d. (d.way.from ≡ 0) × (d.way.number ≡ 0)) }
        ensures none { IfOk result (λ d. d.walk.before.items ≡ []) }
        ensures memory { IfErr result (λ e. e ≡ Memory) }
    {
        let heaps = Pair::new(before, after);
        let walk = start(alloc, heaps)?;
        Ok(Differences {
            before: heaps.before,
            after: heaps.after,
            stale,
            walk,
            way: Way { from: 0, number: 0 },
        })
    }

    /// The next difference, if there is one.
    ///
    /// # Errors
    /// `Fault::Memory` if a growth was refused.
    pub fn next(&mut self) -> Result<Option<Found>, Fault>
        requires { IsUnderway self.old }
        ensures underway { OnOk result (IsUnderway self.new) }
        ensures heaps { OnOk result ((self.new.before.now ≡ self.old.before.now) × (self.new.after.now ≡ self.old.after.now) × (self.new.stale ≡ self.old.stale)) }
        ensures grown { OnOk result (HasGrown self.old.walk self.new.walk) }
        ensures there { IfOk result (λ o. IfSome o (λ f. IsThere self.new.before.now self.new.after.now self.new.walk f)) }
        ensures next { IfOk result (λ o. IfSome o (λ f. IsNext self.old.before.now self.old.after.now self.new.walk self.old.way.from self.old.way.number f)) }
        ensures alike { IfOk result (λ o. IfSome o (λ f. FindsAlikeUntil self.old.before.now self.old.after.now self.old.walk self.new.walk f.place.way.from f.place.way.number)) }
        ensures behind { IfOk result (λ o. IfSome o (λ f. IsPassed self.new.walk f)) }
        ensures on { IfOk result (λ o. IfSome o (λ f. (self.new.way.from ≡ f.place.way.from) × (self.new.way.number ≡ f.place.way.number + 1))) }
        ensures none_left { IfOk result (λ o. IfNone o (LinksBetween self.old.before.now self.old.after.now self.new.walk self.old.way.from self.old.way.number (length self.new.walk.before.items + 1) 0)) }
        ensures none_differs { IfOk result (λ o. IfNone o (FindsAlike self.old.before.now self.old.after.now self.old.walk self.new.walk)) }
        ensures no_stale { IfOk result (λ o. IfSome o (λ f. IsNextStale self.old.before.now self.old.after.now self.old.stale self.new.walk self.old.way.from self.old.way.number f)) }
        ensures no_stale_left { IfOk result (λ o. IfNone o (PassesNoStale self.old.before.now self.old.after.now self.old.stale self.new.walk self.old.way.from self.old.way.number (length self.new.walk.before.items + 1) 0)) }
        ensures ended { IfOk result (λ o. IfNone o (self.new.way.from ≡ length self.new.walk.before.items + 1)) }
        ensures memory { IfErr result (λ e. e ≡ Memory) }
    {
        let heaps = Pair {
            before: self.before,
            after: self.after,
        };
        let met = search(heaps, &self.stale, &mut self.walk, self.way)?;
        match met {
            Some(found) => {
                self.way = go_behind(heaps, &mut self.walk, &found)?;
                Ok(Some(found))
            }
            None => {
                let from = self.walk.before.len() as u32 + 1;
                self.way = Way { from, number: 0 };
                Ok(None)
            }
        }
    }

    /// The path to a difference that this walk returned.
    ///
    /// # Errors
    /// `Fault::Memory` if a growth was refused.
    pub fn path_to(&self, alloc: Global, found: &Found) -> Result<Path, Fault>
        requires underway { IsUnderway self.now }
        requires there { IsThere self.now.before.now self.now.after.now self.now.walk found.now }
        ensures route { IfOk result (λ p. IsRoute self.now.walk found.now.place.way.from found.now.place.way.number (p.root ∷ p.slots.items)) }
        ensures shows { IfOk result (λ p. ShowsAt self.now.before.now self.now.after.now (p.root ∷ p.slots.items) found.now) }
        ensures memory { IfErr result (λ e. e ≡ Memory) }
    {
        Ok(path_by(alloc, &self.walk, found.place.way)?)
    }
}

// Two objects whose data words alone differ are a pair. Returns the way behind that of the difference.
fn go_behind(heaps: Pair<'_>, walk: &mut Walk, found: &Found) -> Result<Way, AllocError>
    requires walk { IsTour heaps.before.now heaps.after.now walk.old }
    requires stale { (s : StaleWords) × IsFound heaps.before.now heaps.after.now s walk.old found.now }
    ensures walk { OnOk result (IsTour heaps.entry.before.now heaps.entry.after.now walk.new) }
    ensures grown { OnOk result (HasGrown walk.old walk.new) }
    ensures below { OnOk result (IsBelow walk.new found.now.place.way.from (found.now.place.way.number + 1)) }
    ensures passed { OnOk result (IsPassed walk.new found.now) }
    ensures one { OnOk result (AddsOnly walk.old walk.new found.now.place.way.from found.now.place.way.number) }
    ensures way { IfOk result (λ w. (w.from ≡ found.now.place.way.from) × (w.number ≡ found.now.place.way.number + 1)) }
{
    let place = found.place;
    let next = Way {
        from: place.way.from,
        number: place.way.number + 1,
    };
    if let What::How(how) = found.what {
        if let How::Data { .. } = how {
            walk.add(place.way, place.before - 1, place.after - 1)?;
            return Ok(next);
        }
    }
    Ok(next)
}
