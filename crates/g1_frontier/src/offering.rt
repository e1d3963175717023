ghost use Rattle.std.specs.Prelude.{◌≡◌, ◌<◌, ◌≤◌, ◌+◌, ◌*◌, ◌^◌, ◌++◌, ◌∷◌, [], ℕ, List, OnOk, IfErr, length, map, flat_map, slice_index, Contains, cond};
ghost use Rattle.std.specs.List.{All};
ghost use Rattle.g1_words.specs.declared.fault.Fault.TheVariants.{Memory};
ghost use Rattle.g1_words.specs.Heap.{object_at, objects, word, slots};
ghost use Rattle.g1_words.specs.Valid.{IsReference};
ghost use Rattle.g1_rem.specs.Starts.{card_count};
ghost use Rattle.g1_rem.specs.Slots.{slots_on};
ghost use Rattle.g1_work.specs.Regions.{slice_of};
ghost use Rattle.g1_claim.specs.Claims.{IsSeatOf};
ghost use Rattle.g1_frontier.specs.Items.{IsItem, AreRanks, item_slots};
ghost use Rattle.g1_frontier.specs.Scope.{IsScope, place_in, aims_in, pairs_in, all_pairs_in};
ghost use Rattle.g1_frontier.specs.Offering.{HasTried};

use crate::item::Item;
use crate::queue::read_headers;
use crate::scope::Scope;
use crate::sought::Sought;
use g1_claim::{ClaimSeat, Claims};
use g1_words::{Fault, Heap, Object};
use g1_work::Task;
use std::alloc::{AllocError, Global};

/// A worker's number and seat, and its room: the ranks and addresses whose offers by it answered true.
#[derive(Drop)]
pub struct Holder {
    pub number: usize,
    pub seat: ClaimSeat,
    pub kept: Vec<(u64, u64)>,
}

/// What a worker kept of one chunk: where in its room this begins and ends.
#[derive(Drop)]
pub struct Span {
    pub worker: usize,
    pub from: usize,
    pub to: usize,
}

/// What a worker offers with.
#[derive(Drop)]
pub struct Offers<'a> {
    pub scope: &'a Scope<'a>,
    pub claims: &'a Claims,
}

// Keeps a rank and an address, if so told.
pub(crate) fn keep_if(
    kept: &mut Vec<(u64, u64)>,
    answered_true: bool,
    rank: u64,
    address: u64,
) -> Result<(), AllocError>
    ensures { OnOk result (kept.new.items ≡ kept.old.items ++ cond answered_true ((rank, address) ∷ []) []) }
{
    if answered_true {
        kept.push((rank, address))?;
    }
    Ok(())
}

// So many headers are read before the slots behind them, so that the processor waits for them
// together. They are few enough to be in its nearest cache when their slots are read.
pub(crate) const HEADERS_AHEAD: usize = 32;

// How many slots the item's object has, 0 if the item is a root or a card.
fn slots_of_item(heap: &Heap, item: Item) -> u64
    requires { IsItem heap.now item }
    ensures { result ≡ item_slots heap.now item }
{
    match item {
        Item::Root { index: _ } => 0,
        Item::Card { card: _, base: _ } => 0,
        Item::Object { at, base: _ } => heap.object(at).refs,
    }
}

// Reads how many slots the objects of some items have, one header beside the other.
fn read_counts(heap: &Heap, items: &[Item], counts: &mut Vec<u64>) -> Result<(), AllocError>
    requires { All (IsItem heap.now) items.now }
    ensures { OnOk result (counts.new.items ≡ map (item_slots heap.now) items.now) }
{
    counts.clear();
    for item in items {
        counts.push(slots_of_item(heap, *item))?;
    }
    Ok(())
}

impl<'a> Offers<'a> {
    ghost use Rattle.std.specs.Prelude.{◌≡◌, ◌<◌, ◌≤◌, ◌+◌, ◌-◌, ◌*◌, ◌^◌, ◌++◌, ◌∷◌, [], ℕ, List, OnOk, IfErr, length, map, flat_map, slice_index, Contains};
    ghost use Rattle.std.specs.List.{All};
    ghost use Rattle.g1_words.specs.Heap.{object_at, objects, word, slots};
    ghost use Rattle.g1_words.specs.Valid.{IsReference};
    ghost use Rattle.g1_rem.specs.Starts.{card_count};
    ghost use Rattle.g1_rem.specs.Slots.{slots_on};
    ghost use Rattle.g1_claim.specs.Claims.{IsSeatOf};
    ghost use Rattle.g1_frontier.specs.Items.{IsItem, AreRanks, slot_count, item_slots, items_at, items_of, ArePaired};
    ghost use Rattle.g1_frontier.specs.Scope.{IsScope, place_in, aims_in, pairs_in, all_pairs_in};
    ghost use Rattle.g1_frontier.specs.Offering.{HasTried, HasPlaces};

    // Offers what a reference word references in the window, by the rank `base` plus `offset`. The sum
    // is made only for an offer: other slots have no rank.
    fn offer_named(
        &self,
        holder: &mut Holder,
        word: u64,
        base: u64,
        offset: u64,
    ) -> Result<(), AllocError>
        requires places { HasPlaces self.now.scope.now self.now.claims.now }
        requires seat { IsSeatOf self.now.claims.now holder.old.seat }
        requires reference { IsReference self.now.scope.now.heap.now word }
        requires ranks { AreRanks (aims_in self.now.scope.now (base + offset) word) }
        ensures { OnOk result (HasTried (place_in self.now.scope.now) (aims_in self.now.scope.now (base + offset) word) holder.old holder.new) }
    {
        match self.scope.target(word) {
            None => Ok(()),
            Some(target) => {
                let rank = base + offset;
                let answered_true = self.claims.offer(&mut holder.seat, target.place, rank);
                keep_if(&mut holder.kept, answered_true, rank, target.address)?;
                Ok(())
            }
        }
    }

    // Offers what the slots of a card reference in the window.
    fn offer_card(
        &self,
        alloc: Global,
        holder: &mut Holder,
        card: u32,
        base: u64,
    ) -> Result<(), AllocError>
        requires places { HasPlaces self.now.scope.now self.now.claims.now }
        requires seat { IsSeatOf self.now.claims.now holder.old.seat }
        requires card { card < card_count self.now.scope.now.heap.now }
        requires ranks { AreRanks (flat_map (λ p. aims_in self.now.scope.now (base + p) (word self.now.scope.now.heap.now p)) (slots_on self.now.scope.now.heap.now card)) }
        ensures { OnOk result (HasTried (place_in self.now.scope.now) (flat_map (λ p. aims_in self.now.scope.now (base + p) (word self.now.scope.now.heap.now p)) (slots_on self.now.scope.now.heap.now card)) holder.old holder.new) }
    {
        let words = self.scope.heap.words();
        let slots = self.scope.slots_on(alloc, card)?;
        for slot in slots.as_slice() {
            self.offer_named(holder, words.at(*slot), base, *slot)?;
        }
        Ok(())
    }

    // Offers what the slots of an object reference in the window. It has this many.
    fn offer_object(
        &self,
        holder: &mut Holder,
        at: u64,
        base: u64,
        refs: u64,
    ) -> Result<(), AllocError>
        requires places { HasPlaces self.now.scope.now self.now.claims.now }
        requires seat { IsSeatOf self.now.claims.now holder.old.seat }
        requires object { Contains (objects self.now.scope.now.heap.now) (object_at self.now.scope.now.heap.now at) }
        requires slots { refs ≡ slot_count self.now.scope.now.heap.now at }
        requires ranks { AreRanks (flat_map (λ p. aims_in self.now.scope.now (base + (p - (at + 1))) (word self.now.scope.now.heap.now p)) (slots (object_at self.now.scope.now.heap.now at))) }
        ensures { OnOk result (HasTried (place_in self.now.scope.now) (flat_map (λ p. aims_in self.now.scope.now (base + (p - (at + 1))) (word self.now.scope.now.heap.now p)) (slots (object_at self.now.scope.now.heap.now at))) holder.old holder.new) }
    {
        let words = self.scope.heap.words();
        let first = at + 1;
        for slot in first..first + refs {
            self.offer_named(holder, words.at(slot), base, slot - first)?;
        }
        Ok(())
    }

    // Offers what an item references in the window, in order. Its object has this many slots.
    fn offer_item(
        &self,
        alloc: Global,
        holder: &mut Holder,
        item: Item,
        slots: u64,
    ) -> Result<(), AllocError>
        requires places { HasPlaces self.now.scope.now self.now.claims.now }
        requires seat { IsSeatOf self.now.claims.now holder.old.seat }
        requires item { IsItem self.now.scope.now.heap.now item }
        requires slots { slots ≡ item_slots self.now.scope.now.heap.now item }
        requires ranks { AreRanks (pairs_in self.now.scope.now item) }
        ensures { OnOk result (HasTried (place_in self.now.scope.now) (pairs_in self.now.scope.now item) holder.old holder.new) }
    {
        match item {
            Item::Root { index } => {
                let word = self.scope.heap.roots()[index as usize];
                self.offer_named(holder, word, index, 0)
            }
            Item::Card { card, base } => self.offer_card(alloc, holder, card, base),
            Item::Object { at, base } => self.offer_object(holder, at, base, slots),
        }
    }

    // Offers what the items of a batch reference in the window, in order. Their objects have these
    // numbers of slots.
    fn offer_batch(
        &self,
        alloc: Global,
        holder: &mut Holder,
        items: &[Item],
        counts: &[u64],
    ) -> Result<(), AllocError>
        requires places { HasPlaces self.now.scope.now self.now.claims.now }
        requires seat { IsSeatOf self.now.claims.now holder.old.seat }
        requires items { All (IsItem self.now.scope.now.heap.now) items.now }
        requires counts { counts.now ≡ map (item_slots self.now.scope.now.heap.now) items.now }
        requires ranks { AreRanks (all_pairs_in self.now.scope.now items.now) }
        ensures { OnOk result (HasTried (place_in self.now.scope.now) (all_pairs_in self.now.scope.now items.now) holder.old holder.new) }
    {
        for (index, item) in items.iter().enumerate() {
            self.offer_item(alloc, holder, *item, counts[index])?;
        }
        Ok(())
    }

    // Offers what the items reference in the window, in order.
    fn offer_items(
        &self,
        alloc: Global,
        holder: &mut Holder,
        items: &[Item],
    ) -> Result<(), AllocError>
        requires places { HasPlaces self.now.scope.now self.now.claims.now }
        requires seat { IsSeatOf self.now.claims.now holder.old.seat }
        requires items { All (IsItem self.now.scope.now.heap.now) items.now }
        requires ranks { AreRanks (all_pairs_in self.now.scope.now items.now) }
        ensures { OnOk result (HasTried (place_in self.now.scope.now) (all_pairs_in self.now.scope.now items.now) holder.old holder.new) }
    {
        let mut counts = Vec::with_capacity(alloc, HEADERS_AHEAD)?;
        let mut from = 0;
        while from < items.len() {
            let to = items.len().min(from + HEADERS_AHEAD);
            let batch = &items[from..to];
            read_counts(self.scope.heap, batch, &mut counts)?;
            self.offer_batch(alloc, holder, batch, counts.as_slice())?;
            from = to;
        }
        Ok(())
    }

    // Offers what the objects of a batch reference in the window, in order, each from its base on. Their
    // headers were read ahead.
    fn offer_headers(
        &self,
        holder: &mut Holder,
        addresses: &[u64],
        ahead: &[Object],
        bases: &[u64],
    ) -> Result<(), AllocError>
        requires places { HasPlaces self.now.scope.now self.now.claims.now }
        requires seat { IsSeatOf self.now.claims.now holder.old.seat }
        requires items { All (IsItem self.now.scope.now.heap.now) (items_at addresses.now bases.now) }
        requires ahead { ahead.now ≡ map (object_at self.now.scope.now.heap.now) addresses.now }
        requires paired { length bases.now ≡ length addresses.now }
        requires ranks { AreRanks (all_pairs_in self.now.scope.now (items_at addresses.now bases.now)) }
        ensures { OnOk result (HasTried (place_in self.now.scope.now) (all_pairs_in self.now.scope.now (items_at addresses.now bases.now)) holder.old holder.new) }
    {
        for (index, at) in addresses.iter().enumerate() {
            self.offer_object(holder, *at, bases[index], ahead[index].refs)?;
        }
        Ok(())
    }

    // Offers what the objects at some addresses reference in the window, in order, each from its base on.
    fn offer_objects(
        &self,
        alloc: Global,
        holder: &mut Holder,
        addresses: &[u64],
        bases: &[u64],
    ) -> Result<(), AllocError>
        requires places { HasPlaces self.now.scope.now self.now.claims.now }
        requires seat { IsSeatOf self.now.claims.now holder.old.seat }
        requires items { All (IsItem self.now.scope.now.heap.now) (items_at addresses.now bases.now) }
        requires paired { length bases.now ≡ length addresses.now }
        requires ranks { AreRanks (all_pairs_in self.now.scope.now (items_at addresses.now bases.now)) }
        ensures { OnOk result (HasTried (place_in self.now.scope.now) (all_pairs_in self.now.scope.now (items_at addresses.now bases.now)) holder.old holder.new) }
    {
        let mut ahead = Vec::with_capacity(alloc, HEADERS_AHEAD)?;
        let mut from = 0;
        while from < addresses.len() {
            let to = addresses.len().min(from + HEADERS_AHEAD);
            let batch = &addresses[from..to];
            read_headers(self.scope.heap, batch, &mut ahead)?;
            self.offer_headers(holder, batch, ahead.as_slice(), &bases[from..to])?;
            from = to;
        }
        Ok(())
    }

    // Offers what a round looks at references in the window, in order.
    pub(crate) fn offer_sought(
        &self,
        alloc: Global,
        holder: &mut Holder,
        sought: Sought,
    ) -> Result<(), AllocError>
        requires places { HasPlaces self.now.scope.now self.now.claims.now }
        requires seat { IsSeatOf self.now.claims.now holder.old.seat }
        requires items { All (IsItem self.now.scope.now.heap.now) (items_of sought) }
        requires paired { ArePaired sought }
        requires ranks { AreRanks (all_pairs_in self.now.scope.now (items_of sought)) }
        ensures { OnOk result (HasTried (place_in self.now.scope.now) (all_pairs_in self.now.scope.now (items_of sought.entry)) holder.old holder.new) }
    {
        match sought {
            Sought::Items(items) => self.offer_items(alloc, holder, items),
            Sought::Objects(addresses, bases) => {
                self.offer_objects(alloc, holder, addresses, bases)
            }
        }
    }
}

/// What a round looks at, by chunks of this many.
#[derive(Drop)]
pub struct Round<'a> {
    pub offers: Offers<'a>,
    pub sought: Sought<'a>,
    pub chunk: usize,
    pub alloc: Global,
}

impl<'a> Task for Round<'a> {
    type State = Holder;

    type Out = Span;

    ghost use Rattle.std.specs.Prelude.{◌≡◌, ◌<◌, ◌≤◌, ◌*◌, ◌^◌, length};
    ghost use Rattle.std.specs.List.{All};
    ghost use Rattle.g1_words.specs.declared.fault.Fault.TheVariants.{Memory};
    ghost use Rattle.g1_work.specs.Regions.{slice_of};
    ghost use Rattle.g1_work.specs.Team.{most_chunk};
    ghost use Rattle.g1_claim.specs.Claims.{IsSeatOf};
    ghost use Rattle.g1_frontier.specs.Items.{IsItem, AreRanks, items_of, ArePaired};
    ghost use Rattle.g1_frontier.specs.Scope.{place_in, all_pairs_in};
    ghost use Rattle.g1_frontier.specs.Offering.{HasTried, HasPlaces, IsSpan};

    ghost ready = { λ s h k. HasPlaces s.offers.scope.now s.offers.claims.now × IsSeatOf s.offers.claims.now h.seat × All (IsItem s.offers.scope.now.heap.now) (items_of s.sought) × ArePaired s.sought × AreRanks (all_pairs_in s.offers.scope.now (items_of s.sought)) × (0 < s.chunk) × (k * s.chunk < length (items_of s.sought)) × (k < 2 ^ 32) × (s.chunk ≤ most_chunk) };

    ghost runs = { λ s h k t o. HasTried (place_in s.offers.scope.now) (all_pairs_in s.offers.scope.now (slice_of s.chunk k (items_of s.sought))) h t × IsSpan h t o };

    ghost may_fail = { λ _ _ e. e ≡ Memory };

    fn run(&self, state: &mut Holder, chunk: u64) -> Result<Span, Fault> {
        let from = state.kept.len();
        let sought = self.sought.part(chunk as usize * self.chunk, self.chunk);
        self.offers.offer_sought(self.alloc, state, sought)?;
        Ok(Span {
            worker: state.number,
            from,
            to: state.kept.len(),
        })
    }
}
