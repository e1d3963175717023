ghost use Rattle.std.specs.Prelude.{◌≡◌, ◌≢◌, ◌<◌, ◌≤◌, ◌+◌, ◌↔◌, ℕ, IfSome, IfNone, IsTrue, IsFalse};
ghost use Rattle.g1_words.specs.declared.region.Kind.TheVariants.{Free};
ghost use Rattle.g1_words.specs.Heap.{kind, start, top};
ghost use Rattle.g1_kept.specs.Keeps.{MayHoldCopy, IsFreed, KeepsRegion};
ghost use Rattle.g1_kept.specs.Lost.{HasOtherTop};
ghost use Rattle.g1_kept.specs.Order.{KeepsBefore};
ghost use Rattle.g1_kept.specs.Pause.{IsLossIn, IsEarliestIn, KeepsTableIn};

use crate::lost::Lost;
use crate::pause::Pause;
use g1_same::Pair;

// Whether two heaps have the same sizes.
fn have_same_sizes(heaps: Pair<'_>) -> bool
    ensures { IsTrue result ↔ (heaps.entry.after.now.geometry ≡ heaps.entry.before.now.geometry) }
{
    let old = heaps.before.geometry();
    let new = heaps.after.geometry();
    old.region_words() == new.region_words()
        && old.card_words() == new.card_words()
        && old.regions() == new.regions()
}

// Whether a region of a humongous object's run is free after. A pause may free such an object if
// nothing references it; whatever still referenced it would reference no object.
fn is_freed(heaps: Pair<'_>, number: u32) -> bool
    requires before { number < heaps.before.now.geometry.n }
    requires after { number < heaps.after.now.geometry.n }
    ensures { IsTrue result ↔ IsFreed heaps.entry.before.now heaps.entry.after.now number }
{
    let old = heaps.before.region(number).kind;
    let was_humongous = old.is_humongous_first() || old.is_continuation();
    was_humongous && heaps.after.region(number).kind.is_free()
}

// Whether the top of a region is another one, except if copies may fill it.
fn has_other_top(heaps: Pair<'_>, fill: bool, number: u32) -> bool
    requires sizes { heaps.after.now.geometry ≡ heaps.before.now.geometry }
    requires region { number < heaps.before.now.geometry.n }
    requires used { kind heaps.before.now number ≢ Free }
    ensures other { IsTrue result ↔ HasOtherTop fill heaps.entry.before.now heaps.entry.after.now number }
    ensures filled { IsFalse result → top heaps.entry.before.now number ≤ top heaps.entry.after.now number }
    ensures above { IsFalse result → (i : ℕ) → top heaps.entry.before.now number ≤ i → i < top heaps.entry.after.now number → MayHoldCopy fill heaps.entry.before.now (start heaps.entry.before.now number + i) }
{
    let old = heaps.before.region(number);
    let new = heaps.after.region(number);
    if fill && old.kind.is_ordinary() {
        new.top < old.top
    } else {
        new.top != old.top
    }
}

// What is lost of a region, by the entries of the heaps' tables.
fn compare_entries(pause: &Pause<'_>, number: u32) -> Option<Lost>
    requires sizes { pause.now.heaps.after.now.geometry ≡ pause.now.heaps.before.now.geometry }
    requires region { number < pause.now.heaps.before.now.geometry.n }
    ensures none { let p = pause.now in IfNone result (KeepsRegion p.fill p.set.now p.heaps.before.now p.heaps.after.now number) }
    ensures some { IfSome result (λ l. IsLossIn pause.now l) }
    ensures earliest { let p = pause.now in IfSome result (λ l. KeepsBefore p.fill p.set.now p.heaps.before.now p.heaps.after.now number → IsEarliestIn p l) }
{
    let old = pause.heaps.before.region(number);
    let new = pause.heaps.after.region(number);
    if pause.set.has(u64::from(number)) {
        if new.kind.is_free() {
            return None;
        }
        return Some(Lost::Set(number));
    }
    if old.kind.is_free() || is_freed(pause.heaps, number) {
        return None;
    }
    if old.kind != new.kind || has_other_top(pause.heaps, pause.fill, number) {
        return Some(Lost::Region(number));
    }
    if old.pinned && !new.pinned {
        return Some(Lost::Unpinned(number));
    }
    if !old.pinned && new.pinned {
        return Some(Lost::Pinned(number));
    }
    None
}

/// What is lost of the sizes and of the first region that is not as it has to be.
pub(crate) fn compare_tables(pause: &Pause<'_>) -> Option<Lost>
    ensures none { IfNone result (KeepsTableIn pause.now) }
    ensures some { IfSome result (λ l. IsLossIn pause.now l) }
    ensures earliest { IfSome result (λ l. IsEarliestIn pause.now l) }
{
    if !have_same_sizes(pause.heaps) {
        return Some(Lost::Sizes);
    }
    for number in 0..pause.heaps.before.geometry().regions() as u32 {
        if let Some(lost) = compare_entries(pause, number) {
            return Some(lost);
        }
    }
    None
}
