ghost use Rattle.std.specs.Prelude.{◌≡◌, ◌≤◌, ◌<◌, ◌+◌, ◌*◌, ◌^◌, min, ℕ, List, length, map, flat_map, Option, slice_index, slice_index_or, OnOk, OnErr, IfOk, IfErr};
ghost use Rattle.g1_words.specs.Geometry.{most_card_words, most_words};
ghost use Rattle.g1_words.specs.Heap.{kind, start};
ghost use Rattle.g1_words.specs.declared.region.Kind.TheVariants.{Continuation};
ghost use Rattle.g1_rem.specs.Starts.{IsStartsOf, address_below};
ghost use Rattle.g1_rem.specs.Marks.{IsMarkedTo, Told, objects_from};
ghost use Rattle.g1_rem.specs.Ranges.{IsRange, AreStartsBetween};

use crate::ranges::{cut, threads_for_objects};
use crate::rows::objects_end;
use g1_words::{Fault, Heap, card_of, size_at};
use g1_work::{Make, make_each};
use std::alloc::{AllocError, Global};
use std::marker::Model;
use std::thread::Threads;

/// For each card of a heap the address of the object over the card's first word, if one is there,
/// wherever that object began: on an earlier card, or in an earlier region.
#[derive(Drop)]
pub struct Starts {
    /// One above the address, and 0 if no object is there: half the room of an `Option`.
    pub(crate) firsts: Vec<u32>,
}

impl Model for Starts {
    ghost use Rattle.std.specs.Prelude.{ℕ, List, Option, map};
    ghost use Rattle.g1_rem.specs.Starts.{address_below};

    ghost Value = { List (Option ℕ) };

    ghost view = { λ s. map address_below s.firsts.items };
}

/// Writes a value for each further card whose first word is below an address. The first card is that
/// of the address `from`.
fn mark(firsts: &mut Vec<u32>, from: u64, k: u64, until: u64, value: u32) -> Result<(), AllocError>
    requires card { (0 < k) × (k ≤ most_card_words) }
    requires address { until ≤ most_words }
    requires room { from + length firsts.old.items * k ≤ 2 * most_words }
    ensures marked { OnOk result (IsMarkedTo (map address_below firsts.old.items) (map address_below firsts.new.items) from k until (address_below value)) }
    ensures room { from + length firsts.new.items * k ≤ 2 * most_words }
{
    // Most objects are smaller than a card, and the test alone spares them the division.
    if from + firsts.len() as u64 * k < until {
        firsts.resize((until - from).div_ceil(k) as usize, value)?;
    }
    Ok(())
}

/// Writes the starts of the cards that a region's objects reach, up to an address.
fn mark_region(
    heap: &Heap,
    region: u32,
    from: u64,
    until: u64,
    firsts: &mut Vec<u32>,
) -> Result<(), AllocError>
    requires region { region < heap.now.geometry.n }
    requires until { until ≤ most_words }
    requires told { Told heap.now from until (objects_from heap.now region) (map address_below firsts.old.items) }
    requires room { from + length firsts.old.items * heap.now.geometry.k ≤ 2 * most_words }
    ensures told { OnOk result (Told heap.now from until (objects_from heap.now (region + 1)) (map address_below firsts.new.items)) }
    ensures room { from + length firsts.new.items * heap.now.geometry.k ≤ 2 * most_words }
{
    let geometry = heap.geometry();
    let k = geometry.card_words();
    let end = objects_end(heap, region);
    let mut at = geometry.start(region);
    'objects: while at < end {
        let size = size_at(heap, at);
        mark(firsts, from, k, at.min(until), 0)?;
        mark(firsts, from, k, (at + size).min(until), at as u32 + 1)?;
        at += size;
    }
    Ok(())
}

/// The last region, up to one, that isn't a continuation: there the run begins that the region lies
/// in.
fn run_begin(heap: &Heap, region: u32) -> u32
    requires { region ≤ heap.now.geometry.n }
    ensures order { result ≤ region }
    ensures kind { 0 < result → result < heap.now.geometry.n → kind heap.now result ≡ Continuation → ⊥ }
{
    let regions = heap.geometry().regions() as u32;
    let mut first = region;
    'regions: while 0 < first && first < regions && heap.region(first).kind.is_continuation() {
        first -= 1;
    }
    first
}

/// The starts of the cards of some regions, also of those over which an object of an earlier region
/// lies.
fn starts_between(alloc: Global, heap: &Heap, from: u32, to: u32) -> Result<Vec<u32>, Fault>
    requires order { from ≤ to }
    requires regions { to ≤ heap.now.geometry.n }
    ensures ok { IfOk result (λ v. AreStartsBetween heap.now from to (map address_below v.items)) }
    ensures memory { IfErr result (λ e. e ≡ Fault.Memory) }
{
    let geometry = heap.geometry();
    let begin = geometry.start(from);
    let end = geometry.start(to);
    let mut firsts = Vec::with_capacity(alloc, card_of(&geometry, end - begin) as usize)?;
    for region in run_begin(heap, from)..to {
        mark_region(heap, region, begin, end, &mut firsts)?;
    }
    mark(&mut firsts, begin, geometry.card_words(), end, 0)?;
    Ok(firsts)
}

/// The starts of the cards of each range of regions.
#[derive(Drop)]
struct Starting<'a> {
    heap: &'a Heap,
    cut: &'a [u32],
}

impl Make for Starting<'_> {
    type Made = Vec<u32>;

    ghost ready = { λ s j. IsRange s.heap.now.geometry.n s.cut.now j };

    ghost makes = { λ s j v. AreStartsBetween s.heap.now (slice_index s.cut.now j) (slice_index s.cut.now (j + 1)) (map address_below v.items) };

    fn make(&self, alloc: Global, range: usize) -> Result<Vec<u32>, Fault> {
        starts_between(alloc, self.heap, self.cut[range], self.cut[range + 1])
    }
}

/// Some lists, one after the other.
fn join(alloc: Global, lists: &[Vec<u32>], count: usize) -> Result<Vec<u32>, AllocError>
    ensures { IfOk result (λ v. v.items ≡ flat_map (λ s. s.items) lists.now) }
{
    let mut all = Vec::with_capacity(alloc, count)?;
    for list in lists {
        all.extend_from_slice(list)?;
    }
    Ok(all)
}

impl Starts {
    /// The starts of a heap, in one pass over its objects and cards.
    ///
    /// # Errors
    /// `Fault::Memory` if a growth was refused.
    ///
    /// # Examples
    ///
    /// ```
    /// use g1_rem::Starts;
    /// use g1_testing::{image, pictures::humongous};
    ///
    /// // The objects have 40 words at 0, and 2 at 48.
    /// let image = image(alloc, humongous())?;
    /// let starts = Starts::build(alloc, image.heap())?;
    /// assert_eq!(rt; starts.first(9), Some(0));
    /// assert_eq!(rt; starts.first(10), None);
    /// assert_eq!(rt; starts.first(12), Some(48));
    /// ```
    pub fn build(alloc: Global, heap: &Heap) -> Result<Starts, Fault>
        ensures ok { IfOk result (λ s. IsStartsOf heap.now s) }
        ensures memory { IfErr result (λ e. e ≡ Fault.Memory) }
    {
        let regions = heap.geometry().regions() as u32;
        let firsts = starts_between(alloc, heap, 0, regions)?;
        Ok(Starts { firsts })
    }

    /// As `build`, with this many workers at most. One if it is 0.
    ///
    /// Each has a range of the regions. A range that begins within a humongous run looks back for the
    /// run's first region, whose object lies over its first cards.
    ///
    /// # Errors
    /// `Fault::Memory` if a growth was refused.
    ///
    /// # Examples
    ///
    /// ```
    /// use g1_rem::Starts;
    /// use g1_testing::{image, pictures::shared};
    ///
    /// let image = image(alloc, shared())?;
    /// let starts = Starts::build_by(&rt, alloc, image.heap(), 8)?;
    /// assert_eq!(rt; starts.first(1), Some(4));
    /// assert_eq!(rt; starts.first(2), None);
    /// ```
    pub fn build_by(
        rt: &(impl Threads + Sync),
        alloc: Global,
        heap: &Heap,
        workers: u64,
    ) -> Result<Starts, Fault>
        ensures ok { IfOk result (λ s. IsStartsOf heap.now s) }
        ensures memory { IfErr result (λ e. e ≡ Fault.Memory) }
    {
        match threads_for_objects(heap, workers) {
            1 => Starts::build(alloc, heap),
            threads => Starts::build_by_threads(rt, alloc, heap, threads),
        }
    }

    /// The starts of a heap, by this many threads.
    fn build_by_threads(
        rt: &(impl Threads + Sync),
        alloc: Global,
        heap: &Heap,
        threads: usize,
    ) -> Result<Starts, Fault>
        requires { 0 < threads }
        ensures ok { IfOk result (λ s. IsStartsOf heap.now s) }
        ensures memory { IfErr result (λ e. e ≡ Fault.Memory) }
    {
        let cut = cut(alloc, heap, threads)?;
        let starting = Starting { heap, cut: &cut };
        let lists = make_each(rt, alloc, threads, threads, &starting)?;
        let firsts = join(alloc, &lists, heap.geometry().cards() as usize)?;
        Ok(Starts { firsts })
    }

    /// The address, in words, of the object over the first word of a card of the heap; none if no
    /// object is there.
    ///
    /// # Examples
    ///
    /// ```
    /// use g1_rem::Starts;
    /// use g1_testing::{image, pictures::shared};
    ///
    /// // The object at 16 has 5 words, and the last of them is the first on card 5.
    /// let image = image(alloc, shared())?;
    /// let starts = Starts::build(alloc, image.heap())?;
    /// assert_eq!(rt; starts.first(5), Some(16));
    /// ```
    pub fn first(&self, card: u32) -> Option<u32>
        requires { card < length self.now }
        ensures { result ≡ slice_index_or self.now card None }
    {
        self.firsts[card as usize].checked_sub(1)
    }
}
