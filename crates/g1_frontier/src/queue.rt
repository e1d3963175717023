ghost use Rattle.std.specs.Prelude.{◌≡◌, ◌<◌, ◌^◌, ◌++◌, map, Contains, OnOk, IfOk};
ghost use Rattle.std.specs.List.{All};
ghost use Rattle.g1_words.specs.Heap.{object_at, objects};
ghost use Rattle.g1_frontier.specs.Window.{AreCards, AreOutside, LeadIn};
ghost use Rattle.g1_frontier.specs.Scope.{IsScope};
ghost use Rattle.g1_frontier.specs.Found.{IsFound};

use crate::found::{Found, Seen};
use crate::offering::HEADERS_AHEAD;
use crate::scope::Scope;
use g1_words::{Heap, Marks, Object};
use std::alloc::{AllocError, Global};

/// What one worker has found, which is also the queue of what it searches.
#[derive(Drop)]
pub struct Queue {
    pub found: Vec<u64>,
    /// A mark for each place, set if the object there was found.
    pub marks: Marks,
}

// Reads the headers of the objects at these addresses, one load beside the other.
pub(crate) fn read_headers(
    heap: &Heap,
    addresses: &[u64],
    ahead: &mut Vec<Object>,
) -> Result<(), AllocError>
    requires { All (λ a. Contains (objects heap.now) (object_at heap.now a)) addresses.now }
    ensures { OnOk result (ahead.new.items ≡ map (object_at heap.now) addresses.now) }
{
    ahead.clear();
    for at in addresses {
        ahead.push(heap.object(*at))?;
    }
    Ok(())
}

// Puts the sizes of objects behind others.
fn push_sizes(batch: &[Object], sizes: &mut Vec<u32>) -> Result<(), AllocError>
    requires { All (λ o. o.size < 2 ^ 32) batch.now }
    ensures { OnOk result (sizes.new.items ≡ sizes.old.items ++ map (λ o. o.size) batch.now) }
{
    for object in batch {
        sizes.push(object.size as u32)?;
    }
    Ok(())
}

impl Queue {
    ghost use Rattle.std.specs.Prelude.{◌≡◌, ◌<◌, ◌≤◌, ◌++◌, [], OnOk, IfOk, flat_map, take, Contains, vec_len};
    ghost use Rattle.std.specs.List.{All};
    ghost use Rattle.g1_words.specs.Heap.{objects};
    ghost use Rattle.g1_words.specs.Layout.{sizes_of};
    ghost use Rattle.g1_words.specs.Valid.{IsReference};
    ghost use Rattle.g1_rem.specs.Starts.{card_count};
    ghost use Rattle.g1_frontier.specs.Window.{AreCards, AreOutside, LeadIn};
    ghost use Rattle.g1_frontier.specs.Scope.{IsScope, names_in};
    ghost use Rattle.g1_frontier.specs.Found.{slots_into};
    ghost use Rattle.g1_frontier.specs.Queue.{card_leads, card_names, leads_of, object_names, HasFound, HasNoted, IsUnderWay};

    // Notes what a reference word references in the window: it is found, except if it was before.
    fn note(&mut self, scope: &Scope, word: u64) -> Result<(), AllocError>
        requires scope { IsScope scope.now }
        requires reference { IsReference scope.now.heap.now word }
        requires queue { HasFound scope.now self.old }
        ensures { OnOk result (HasNoted scope.now (names_in scope.now word) self.old self.new) }
    {
        match scope.target(word) {
            None => Ok(()),
            Some(target) => {
                let place = target.place as usize;
                if self.marks.is_set(place) {
                    return Ok(());
                }
                self.marks.set(place);
                self.found.push(target.address)?;
                Ok(())
            }
        }
    }

    // Notes what reference words reference in the window.
    fn note_words(&mut self, scope: &Scope, words: &[u64]) -> Result<(), AllocError>
        requires scope { IsScope scope.now }
        requires queue { HasFound scope.now self.old }
        requires words { All (IsReference scope.now.heap.now) words.now }
        ensures { OnOk result (HasNoted scope.now (flat_map (names_in scope.now) words.now) self.old self.new) }
    {
        for word in words {
            self.note(scope, *word)?;
        }
        Ok(())
    }

    // Notes what a slot's word references in the window, and lists the slot if it does.
    fn note_slot(
        &mut self,
        scope: &Scope,
        slot: u64,
        word: u64,
        leads: &mut Vec<(u64, u64)>,
    ) -> Result<(), AllocError>
        requires scope { IsScope scope.now }
        requires reference { IsReference scope.now.heap.now word }
        requires queue { HasFound scope.now self.old }
        ensures noted { OnOk result (HasNoted scope.now (names_in scope.now word) self.old self.new) }
        ensures listed { OnOk result (leads.new.items ≡ leads.old.items ++ leads_of scope.now slot word) }
    {
        match scope.target(word) {
            None => Ok(()),
            Some(_) => {
                leads.push((slot, word))?;
                self.note(scope, word)?;
                Ok(())
            }
        }
    }

    // Notes what the slots on a card reference in the window, and lists those that do.
    fn note_card(
        &mut self,
        alloc: Global,
        scope: &Scope,
        card: u32,
        leads: &mut Vec<(u64, u64)>,
    ) -> Result<(), AllocError>
        requires scope { IsScope scope.now }
        requires queue { HasFound scope.now self.old }
        requires card { card < card_count scope.now.heap.now }
        ensures noted { OnOk result (HasNoted scope.now (card_names scope.now card) self.old self.new) }
        ensures listed { OnOk result (leads.new.items ≡ leads.old.items ++ card_leads scope.now card) }
    {
        let words = scope.heap.words();
        let slots = scope.slots_on(alloc, card)?;
        for slot in slots.as_slice() {
            self.note_slot(scope, *slot, words.at(*slot), leads)?;
        }
        Ok(())
    }

    // Notes what the slots on cards reference in the window, and lists those that do.
    fn note_cards(
        &mut self,
        alloc: Global,
        scope: &Scope,
        cards: &[u32],
        leads: &mut Vec<(u64, u64)>,
    ) -> Result<(), AllocError>
        requires scope { IsScope scope.now }
        requires queue { HasFound scope.now self.old }
        requires cards { All (λ c. c < card_count scope.now.heap.now) cards.now }
        ensures noted { OnOk result (HasNoted scope.now (flat_map (card_names scope.now) cards.now) self.old self.new) }
        ensures listed { OnOk result (leads.new.items ≡ leads.old.items ++ flat_map (card_leads scope.now) cards.now) }
    {
        for card in cards {
            self.note_card(alloc, scope, *card, leads)?;
        }
        Ok(())
    }

    // Notes what the slots of an object reference in the window.
    fn note_object(&mut self, scope: &Scope, object: &Object) -> Result<(), AllocError>
        requires scope { IsScope scope.now }
        requires queue { HasFound scope.now self.old }
        requires object { Contains (objects scope.now.heap.now) object.now }
        ensures { OnOk result (HasNoted scope.now (object_names scope.now object.now) self.old self.new) }
    {
        for word in scope.heap.slots(object) {
            self.note(scope, *word)?;
        }
        Ok(())
    }

    // Notes what the slots of objects reference in the window.
    fn note_objects(&mut self, scope: &Scope, batch: &[Object]) -> Result<(), AllocError>
        requires scope { IsScope scope.now }
        requires queue { HasFound scope.now self.old }
        requires batch { All (Contains (objects scope.now.heap.now)) batch.now }
        ensures { OnOk result (HasNoted scope.now (flat_map (object_names scope.now) batch.now) self.old self.new) }
    {
        for object in batch {
            self.note_object(scope, object)?;
        }
        Ok(())
    }

    // Finds what the roots and the slots on cards reference in the window, and lists those slots.
    fn begin(
        alloc: Global,
        scope: &Scope,
        cards: &[u32],
        leads: &mut Vec<(u64, u64)>,
    ) -> Result<Queue, AllocError>
        requires scope { IsScope scope.now }
        requires cards { AreCards scope.now.heap.now cards.now }
        requires outside { AreOutside scope.now.heap.now scope.now.window.now cards.now }
        requires lead_in { LeadIn scope.now.heap.now scope.now.window.now cards.now }
        requires none { leads.old.items ≡ [] }
        ensures queue { IfOk result (IsUnderWay scope.now 0) }
        ensures leads { OnOk result (leads.new.items ≡ slots_into scope.now.heap.now scope.now.window.now) }
    {
        let mut queue = Queue {
            found: Vec::new(alloc),
            marks: Marks::none(alloc, scope.places() as usize)?,
        };
        queue.note_words(scope, scope.heap.roots())?;
        queue.note_cards(alloc, scope, cards, leads)?;
        Ok(queue)
    }

    // Searches the objects from one index among those found up to another, and lists their sizes.
    fn search_batch(
        &mut self,
        scope: &Scope,
        ahead: &mut Vec<Object>,
        sizes: &mut Vec<u32>,
        from: usize,
        to: usize,
    ) -> Result<(), AllocError>
        requires scope { IsScope scope.now }
        requires queue { IsUnderWay scope.now from self.old }
        requires order { from ≤ to }
        requires found { to ≤ vec_len self.old.found }
        requires sizes { sizes.old.items ≡ sizes_of scope.now.heap.now (take from self.old.found.items) }
        ensures queue { OnOk result (IsUnderWay scope.now to self.new) }
        ensures sizes { OnOk result (sizes.new.items ≡ sizes_of scope.now.heap.now (take to self.new.found.items)) }
    {
        read_headers(scope.heap, &self.found[from..to], ahead)?;
        push_sizes(ahead.as_slice(), sizes)?;
        self.note_objects(scope, ahead.as_slice())?;
        Ok(())
    }
}

/// The survivors of the window of a scope, found by one worker, in the order in which a
/// breadth-first search finds them, with what it saw on its way.
pub(crate) fn search_alone(alloc: Global, scope: &Scope, cards: &[u32]) -> Result<Found, AllocError>
    requires scope { IsScope scope.now }
    requires cards { AreCards scope.now.heap.now cards.now }
    requires outside { AreOutside scope.now.heap.now scope.now.window.now cards.now }
    requires lead_in { LeadIn scope.now.heap.now scope.now.window.now cards.now }
    ensures { IfOk result (IsFound scope.now.heap.now scope.now.window.now) }
{
    let mut leads = Vec::new(alloc);
    let mut queue = Queue::begin(alloc, scope, cards, &mut leads)?;
    let mut ahead = Vec::with_capacity(alloc, HEADERS_AHEAD)?;
    let mut sizes = Vec::new(alloc);
    let mut from = 0;
    while from < queue.found.len() {
        let to = queue.found.len().min(from + HEADERS_AHEAD);
        queue.search_batch(scope, &mut ahead, &mut sizes, from, to)?;
        from = to;
    }
    Ok(Found {
        survivors: queue.found,
        seen: Some(Seen { sizes, leads }),
    })
}
