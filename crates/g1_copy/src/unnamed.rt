ghost use Rattle.std.specs.Prelude.{◌≡◌, ◌<◌, ◌≤◌, ◌+◌, ◌++◌, ◌^◌, ℕ, length, map, filter, flat_map, replicate, false, All, OnOk, IfOk};
ghost use Rattle.std.specs.List.{list_any, range_with_len};
ghost use Rattle.g1_words.specs.Heap.{kind, object_at, region_of, regions, start};
ghost use Rattle.g1_words.specs.Layout.{to_space};
ghost use Rattle.g1_words.specs.Marks.{AreMarked};
ghost use Rattle.g1_words.specs.declared.region.Kind.TheVariants.{HumongousFirst};
ghost use Rattle.g1_after.specs.Made.{heap_moved};
ghost use Rattle.g1_after.specs.Moved.{remembered_moved};
ghost use Rattle.g1_after.specs.Unnamed.{lies_in, unnamed};
ghost use Rattle.g1_rem.specs.Starts.{card_count};
ghost use Rattle.g1_copy.specs.Fates.{AreFates};
ghost use Rattle.g1_copy.specs.Remembered.{AreLeft, cards_at, left, stays};
ghost use Rattle.g1_copy.specs.Unnamed.{is_naming, is_rooted, is_unnamed, humongous_regions};

use crate::fates::{Fate, stays};
use crate::pausing::{Pausing, heap_of};
use g1_rem::{Starts, leads_into};
use g1_words::{Heap, Kind, Marks, Object, region_of, size_at};
use std::alloc::{AllocError, Global};
use std::marker::Model;

/// Sets the marks of the regions in which a root references an object.
fn mark_rooted(heap: &Heap, rooted: &mut Marks)
    requires { length rooted.old ≡ heap.now.geometry.n }
    ensures { AreMarked (is_rooted heap.now) rooted.old rooted.new }
{
    let geometry = heap.geometry();
    for root in heap.roots() {
        if *root > 0 {
            rooted.set(region_of(&geometry, *root - 1) as usize);
        }
    }
}

/// Whether a word of the object lies in a region.
fn lies_in(heap: &Heap, region: u64, object: &Object) -> bool
    requires region { region < heap.now.geometry.n }
    requires object { object.now.at + object.now.size < 2 ^ 64 }
    ensures { result ≡ lies_in heap.now region object.now }
{
    let geometry = heap.geometry();
    let start = geometry.start(region as u32);
    object.at < start + geometry.region_words() && start < object.at + object.size
}

/// What tells whether a slot references a humongous object: the heap, its starts, and the fates of its
/// regions.
#[derive(Drop)]
struct Naming<'a> {
    heap: &'a Heap,
    starts: &'a Starts,
    fates: &'a [Fate],
}

impl<'a> Model for Naming<'a> {
    ghost use Rattle.std.specs.Prelude.{◌≡◌, length};
    ghost use Rattle.g1_rem.specs.Starts.{IsStartsOf};
    ghost use Rattle.g1_copy.specs.Unnamed.{Naming as NamingOf};

    ghost Value = { NamingOf };

    ghost view = { λ n. record { heap = n.heap.now; fates = n.fates.now } };

    ghost invariant = { λ n. IsStartsOf n.heap.now n.starts.now × (length n.fates.now ≡ n.heap.now.geometry.n) };
}

/// Whether a slot on a card of the remembered set, outside the object's own regions, references the
/// humongous object that begins in a region.
fn names(alloc: Global, naming: &Naming<'_>, region: u32, object: &Object, card: u32) -> bool
    requires object { object.now ≡ object_at naming.now.heap (start naming.now.heap region) }
    requires small { object.now.at + object.now.size < 2 ^ 64 }
    requires card { card < card_count naming.now.heap }
    ensures { result ≡ is_naming naming.now.heap naming.now.fates region card }
{
    let heap = naming.heap;
    let home = heap.geometry().region_of_card(card);
    match naming.fates[home as usize] {
        // A card of to-space was put into the set for a slot on it that references the object.
        Fate::Filled(_) => true,
        Fate::Freed | Fate::Kept => {
            !lies_in(heap, home, object) && leads_into(alloc, heap, naming.starts, region, card)
        }
    }
}

/// Whether one of the cards holds such a slot.
fn one_names(alloc: Global, naming: &Naming<'_>, region: u32, cards: &[u32]) -> bool
    requires region { region < naming.now.heap.geometry.n }
    requires cards { All (λ c. c < card_count naming.now.heap) cards.now }
    ensures { result ≡ list_any (is_naming naming.now.heap naming.now.fates region) cards.now }
{
    let heap = naming.heap;
    let object = heap.words().header(heap.geometry().start(region));
    for card in cards {
        if names(alloc, naming, region, &object, *card) {
            return true;
        }
    }
    false
}

/// Whether a humongous object begins in a region, and nothing references it.
fn is_unnamed(
    alloc: Global,
    naming: &Naming<'_>,
    rooted: &Marks,
    remembered: &[Vec<u32>],
    region: u32,
) -> bool
    requires rooted { AreMarked (is_rooted naming.now.heap) (replicate naming.now.heap.geometry.n false) rooted.now }
    requires one_each { length remembered.now ≡ naming.now.heap.geometry.n }
    requires region { region < naming.now.heap.geometry.n }
    requires cards { All (λ c. c < card_count naming.now.heap) (cards_at (map (λ s. s.items) remembered.now) region) }
    ensures { result ≡ is_unnamed naming.now.heap naming.now.fates (map (λ s. s.items) remembered.now) region }
{
    let at = region as usize;
    match naming.heap.region(region).kind {
        Kind::HumongousFirst => {
            !rooted.is_set(at) && !one_names(alloc, naming, region, &remembered[at])
        }
        Kind::Free | Kind::Ordinary | Kind::Continuation => false,
    }
}

/// The regions in which such objects begin, rising.
fn unnamed_firsts(
    alloc: Global,
    naming: &Naming<'_>,
    rooted: &Marks,
    remembered: &[Vec<u32>],
) -> Result<Vec<u32>, AllocError>
    requires rooted { AreMarked (is_rooted naming.now.heap) (replicate naming.now.heap.geometry.n false) rooted.now }
    requires one_each { length remembered.now ≡ naming.now.heap.geometry.n }
    requires cards { (r : ℕ) → r < naming.now.heap.geometry.n → All (λ c. c < card_count naming.now.heap) (cards_at (map (λ s. s.items) remembered.now) r) }
    ensures { IfOk result (λ v. v.items ≡ filter (is_unnamed naming.now.heap naming.now.fates (map (λ s. s.items) remembered.now)) (regions naming.now.heap)) }
{
    let mut firsts = Vec::new(alloc);
    for region in 0..naming.heap.geometry().regions() as u32 {
        if is_unnamed(alloc, naming, rooted, remembered, region) {
            firsts.push(region)?;
        }
    }
    Ok(firsts)
}

/// The first regions of the humongous objects that nothing references once the survivors have moved,
/// rising. `fates` are those of the set and to-space, `remembered` the sets after the moves. Linear in
/// the regions, the roots, the remembered cards of humongous regions and the slots on them.
pub(crate) fn unnamed(
    alloc: Global,
    pausing: &Pausing<'_>,
    fates: &[Fate],
    remembered: &[Vec<u32>],
) -> Result<Vec<u32>, AllocError>
    requires fates { AreFates pausing.now.image.heap pausing.now.plan.set (to_space pausing.now.image.heap pausing.now.plan.survivors) fates.now }
    requires remembered { let p = pausing.now.plan in map (λ s. s.items) remembered.now ≡ map (remembered_moved pausing.now.image p.set p.survivors (heap_moved pausing.now.image.heap p.set p.survivors)) (regions pausing.now.image.heap) }
    ensures { IfOk result (λ v. v.items ≡ map (λ o. region_of pausing.now.image.heap o.at) (unnamed (heap_moved pausing.now.image.heap pausing.now.plan.set pausing.now.plan.survivors))) }
{
    g1_after::laws::survivors_moved();
    g1_after::laws::named_by_cards();
    let heap = heap_of(pausing.tracked);
    let mut rooted = Marks::none(alloc, heap.geometry().regions() as usize)?;
    mark_rooted(heap, &mut rooted);
    let naming = Naming {
        heap,
        starts: pausing.starts,
        fates,
    };
    unnamed_firsts(alloc, &naming, &rooted, remembered)
}

/// Adds this many regions, from one on.
fn push_regions(regions: &mut Vec<u32>, first: u64, count: u64) -> Result<(), AllocError>
    requires { first + count ≤ 2 ^ 32 }
    ensures { OnOk result (regions.new.items ≡ regions.old.items ++ range_with_len first count) }
{
    for region in first..first + count {
        regions.push(region as u32)?;
    }
    Ok(())
}

/// The regions of the humongous objects that begin in these regions, object by object.
pub(crate) fn humongous_regions(
    alloc: Global,
    heap: &Heap,
    firsts: &[u32],
) -> Result<Vec<u32>, AllocError>
    requires { All (λ r. r < heap.now.geometry.n) firsts.now }
    ensures { IfOk result (λ v. v.items ≡ flat_map (humongous_regions heap.now) firsts.now) }
{
    let geometry = heap.geometry();
    let mut regions = Vec::new(alloc);
    for region in firsts {
        let size = size_at(heap, geometry.start(*region));
        push_regions(&mut regions, u64::from(*region), geometry.regions_for(size))?;
    }
    Ok(regions)
}

/// Leaves of the remembered set of a region of this fate: of a freed one nothing, of any other the
/// cards that lie in no freed region.
fn leave(heap: &Heap, fates: &[Fate], fate: Fate, cards: &mut Vec<u32>)
    ensures { cards.new.items ≡ left heap.now fates.now fate cards.old.items }
{
    match fate {
        Fate::Freed => cards.clear(),
        Fate::Filled(_) | Fate::Kept => cards.retain(
            |card: &u32| -> bool
                ensures { result ≡ stays heap.entry.now fates.entry.now card.now }
            { stays(heap, fates, *card) },
        ),
    }
}

/// Leaves of each remembered set what stays, in its own place.
fn leave_each(heap: &Heap, fates: &[Fate], sets: &mut [Vec<u32>])
    requires { length sets.old ≡ length fates.now }
    ensures { AreLeft heap.now fates.now (map (λ s. s.items) sets.old) (map (λ s. s.items) sets.new) }
{
    for region in 0..fates.len() {
        leave(heap, fates, fates[region], &mut sets[region]);
    }
}

/// The same if these regions were freed beside the set. If there are none the sets stay as they
/// are, and no card is looked at.
pub(crate) fn leave_all(heap: &Heap, fates: &[Fate], freed: &[u32], sets: &mut [Vec<u32>])
    requires { length sets.old ≡ length fates.now }
    ensures left { 0 < length freed.now → AreLeft heap.now fates.now (map (λ s. s.items) sets.old) (map (λ s. s.items) sets.new) }
    ensures same { length freed.now ≡ 0 → sets.new ≡ sets.old }
{
    if !freed.is_empty() {
        leave_each(heap, fates, sets);
    }
}
