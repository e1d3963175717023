ghost use Rattle.std.specs.Prelude.{◌≡◌, ◌≤◌, ◌<◌, ◌+◌, ◌*◌, ◌/◌, ◌^◌, ◌⊎◌, ℕ, List, [], All, map, length, slice_index, slice_index_or, IsTrue, ◌↔◌, OnOk, IfOk, IfErr};
ghost use Rattle.g1_image.specs.Image.{IsUsedCard, IsRememberedSet};
ghost use Rattle.g1_image.specs.Faults.{IsFirstBreach, IsGoodLogged, LogIsGood, IsGoodSet, SetsAreGood, CardFault};

use crate::draft::Draft;
use g1_words::{Fault, Stand};
use indexmap::IndexSet;
use std::alloc::Global;

/// Returns whether a card lies in a used region.
fn is_used(draft: &Draft, c: u32) -> bool
    ensures { IsTrue result ↔ IsUsedCard draft.now c }
{
    let geometry = draft.geometry();
    if geometry.card_start(c) >= geometry.words() {
        return false;
    }
    let region = geometry.region_of_card(c);
    draft.region(region as u32).kind.is_used()
}

/// Puts the log's cards into a set, or returns the first that isn't good.
fn put_log(draft: &Draft, log: &[u32], cards: &mut IndexSet<u32>) -> Result<(), Fault>
    requires count { length log.now < 2 ^ 32 }
    requires none { cards.old.keys ≡ [] }
    ensures ok { OnOk result ((cards.new.keys ≡ log.now) × LogIsGood draft.now log.now) }
    ensures err { IfErr result (λ e. (e ≡ Fault.Memory) ⊎ ((i : ℕ) × (e ≡ Fault.Card (Stand.Dirty i)) × IsFirstBreach (IsGoodLogged draft.now log.now) (length log.now) i)) }
{
    for (i, c) in log.iter().enumerate() {
        if !is_used(draft, *c) {
            return Err(Fault::Card(Stand::Dirty(i as u32)));
        }
        let added = cards.insert(*c)?;
        if !added {
            return Err(Fault::Card(Stand::Dirty(i as u32)));
        }
    }
    Ok(())
}

/// Returns whether a remembered set may be that of a region.
fn is_remembered_set(draft: &Draft, r: u32, cards: &[u32]) -> bool
    requires there { r < draft.now.geometry.n }
    requires count { length cards.now < 2 ^ 32 }
    ensures { IsTrue result ↔ IsRememberedSet draft.now r cards.now }
{
    if cards.len() > 0 && !draft.region(r).kind.may_hold_cards() {
        return false;
    }
    let geometry = draft.geometry();
    for i in 0..cards.len() {
        let c = cards[i];
        if !is_used(draft, c) {
            return false;
        }
        if geometry.region_of_card(c) == u64::from(r) {
            return false;
        }
        if i > 0 && cards[i - 1] >= c {
            return false;
        }
    }
    true
}

/// Refuses the first region whose remembered set isn't good.
fn check_remembered(draft: &Draft, remembered: &[Vec<u32>]) -> Result<(), Fault>
    requires one_each { length remembered.now ≡ draft.now.geometry.n }
    requires counts { All (λ s. length s < 2 ^ 32) (map (λ s. s.items) remembered.now) }
    ensures ok { OnOk result (SetsAreGood draft.now (map (λ s. s.items) remembered.now)) }
    ensures err { IfErr result (λ e. (r : ℕ) × (e ≡ Fault.Card (Stand.Region r)) × IsFirstBreach (IsGoodSet draft.now (map (λ s. s.items) remembered.now)) draft.now.geometry.n r) }
{
    let regions = draft.geometry().regions() as u32;
    for r in 0..regions {
        if !is_remembered_set(draft, r, &remembered[r as usize]) {
            return Err(Fault::Card(Stand::Region(r)));
        }
    }
    Ok(())
}

/// The log's cards, or the first fault of all cards: the log is checked before the remembered sets.
pub(crate) fn check_cards(
    alloc: Global,
    draft: &Draft,
    log: &[u32],
    remembered: &[Vec<u32>],
) -> Result<IndexSet<u32>, Fault>
    requires log { length log.now < 2 ^ 32 }
    requires one_each { length remembered.now ≡ draft.now.geometry.n }
    requires counts { All (λ s. length s < 2 ^ 32) (map (λ s. s.items) remembered.now) }
    ensures log { IfOk result (λ s. (s.keys ≡ log.now) × LogIsGood draft.now log.now) }
    ensures sets { OnOk result (SetsAreGood draft.now (map (λ s. s.items) remembered.now)) }
    ensures err { IfErr result (λ e. (e ≡ Fault.Memory) ⊎ ((s : Stand) × (e ≡ Fault.Card s) × CardFault draft.now log.now (map (λ s. s.items) remembered.now) s)) }
{
    // A log with more cards than the heap has one of them twice.
    let most = draft.geometry().cards() as usize;
    let mut cards = IndexSet::with_capacity(alloc, log.len().min(most))?;
    put_log(draft, log, &mut cards)?;
    check_remembered(draft, remembered)?;
    Ok(cards)
}
