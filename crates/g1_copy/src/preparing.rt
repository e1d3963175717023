ghost use Rattle.std.specs.Prelude.{◌≡◌, ◌<◌, ◌^◌, ℕ, List, map, length, All, IfOk, IfErr};
ghost use Rattle.g1_words.specs.Heap.{region, regions};
ghost use Rattle.g1_words.specs.Layout.{forward, moved_to, to_space};
ghost use Rattle.g1_image.specs.Cards.{refined};
ghost use Rattle.g1_words.specs.Copy.{renamed};
ghost use Rattle.g1_layout.specs.declared.plan.Run.{Run};
ghost use Rattle.g1_rem.specs.EntryCards.{cards_into};
ghost use Rattle.g1_rem.specs.Starts.{IsStartsOf};
ghost use Rattle.g1_copy.specs.Fates.{AreFates, fate_at, region_by_fate};
ghost use Rattle.g1_copy.specs.Patches.{AreLeads, all_patches};
ghost use Rattle.g1_copy.specs.Plans.{IsPauseOf};
ghost use Rattle.g1_copy.specs.Prepared.{IsMadeFor};
ghost use Rattle.g1_copy.specs.declared.fates.Fate.TheVariants.{Filled};

use crate::fates::{Fate, fates, free};
use crate::gathering::{gather_by, rename_reference};
use crate::laws;
use crate::moving::Moving;
use crate::patching::{Moves, firsts, patches_by, rename_slots};
use crate::pausing::{Pausing, heap_of};
use crate::remembering::{Changes, remembered_by_fate};
use crate::unnamed::{humongous_regions, leave_all, unnamed};
use g1_layout::{Plan, Run};
use g1_rem::{Starts, Tracked, cards_into};
use g1_words::{Fault, Heap, Kind, Region};
use g1_work::MOST_WORKERS;
use std::alloc::{AllocError, Global};
use std::marker::Model;
use std::thread::Threads;

/// All that a pause writes, prepared.
#[derive(Drop)]
pub struct Prepared {
    /// What is done with each region.
    pub(crate) fates: Vec<Fate>,
    /// The words of to-space, its regions one after another.
    pub(crate) gathered: Vec<u64>,
    /// The slots outside the set that reference a survivor, by address, each with its new word.
    pub(crate) patches: Vec<(u64, u64)>,
    /// How many patches lie before each region, and at last all.
    pub(crate) firsts: Vec<usize>,
    /// The regions after.
    pub(crate) regions: Vec<Region>,
    /// The roots after.
    pub(crate) roots: Vec<u64>,
    /// The remembered sets after.
    pub(crate) remembered: Vec<Vec<u32>>,
    /// The first regions of the humongous objects that are freed, rising.
    pub(crate) humongous: Vec<u32>,
}

impl Model for Prepared {
    ghost use Rattle.std.specs.Prelude.{map};
    ghost use Rattle.g1_copy.specs.Prepared.{Prepared as PreparedOf};

    ghost Value = { PreparedOf };

    ghost view = { λ p. record {
      fates = p.fates.items;
      gathered = p.gathered.items;
      patches = p.patches.items;
      firsts = p.firsts.items;
      regions = p.regions.items;
      roots = p.roots.items;
      remembered = map (λ s. s.items) p.remembered.items;
      humongous = p.humongous.items;
    } };
}

impl Prepared {
    /// The first regions of the humongous objects that the pause frees, rising.
    ///
    /// # Examples
    ///
    /// ```
    /// use g1_copy::prepare;
    /// use g1_layout::place;
    /// use g1_rem::{Starts, refine, verify};
    /// use g1_testing::image;
    ///
    /// // Nothing references the one object.
    /// let unnamed = image(alloc, "heap 16 4 2
    ///     region 0 humongous
    ///     object 20/0 ..")?;
    /// let tracked = verify(&rt, alloc, unnamed).map_err(|(_, fault)| fault)?;
    /// let heap = tracked.image.heap();
    /// let starts = Starts::build(alloc, heap)?;
    /// let remembered = refine(&rt, alloc, &tracked, &starts)?;
    /// let plan = place(alloc, heap, &[], &[])?;
    /// let prepared = prepare(&rt, alloc, &tracked, &starts, &remembered, &[], &plan)?;
    /// assert_eq!(rt; prepared.humongous(), [0].as_slice());
    /// ```
    pub fn humongous(&self) -> &[u32]
        ensures { result.now ≡ self.now.humongous }
    {
        &self.humongous
    }

    /// The slots outside the set that reference a survivor, by address, each with its new word.
    ///
    /// # Examples
    ///
    /// ```
    /// use g1_copy::prepare;
    /// use g1_layout::place;
    /// use g1_rem::{Starts, refine, verify};
    /// use g1_testing::{image, pictures::shared};
    ///
    /// let shared = image(alloc, shared())?;
    /// let tracked = verify(&rt, alloc, shared).map_err(|(_, fault)| fault)?;
    /// let heap = tracked.image.heap();
    /// let starts = Starts::build(alloc, heap)?;
    /// let remembered = refine(&rt, alloc, &tracked, &starts)?;
    /// let plan = place(alloc, heap, &[1], &[21, 16])?;
    /// let prepared = prepare(&rt, alloc, &tracked, &starts, &remembered, &[1], &plan)?;
    /// assert_eq!(rt; prepared.patches(), [(1, 33), (5, 33)].as_slice());
    /// ```
    pub fn patches(&self) -> &[(u64, u64)]
        ensures { result.now ≡ self.now.patches }
    {
        &self.patches
    }

    /// The regions after the pause, by number.
    ///
    /// # Examples
    ///
    /// ```
    /// use g1_copy::prepare;
    /// use g1_layout::place;
    /// use g1_rem::{Starts, refine, verify};
    /// use g1_testing::{image, pictures::shared};
    /// use g1_words::Kind;
    ///
    /// let shared = image(alloc, shared())?;
    /// let tracked = verify(&rt, alloc, shared).map_err(|(_, fault)| fault)?;
    /// let heap = tracked.image.heap();
    /// let starts = Starts::build(alloc, heap)?;
    /// let remembered = refine(&rt, alloc, &tracked, &starts)?;
    /// let plan = place(alloc, heap, &[1], &[21, 16])?;
    /// let prepared = prepare(&rt, alloc, &tracked, &starts, &remembered, &[1], &plan)?;
    /// assert_eq!(rt; prepared.regions()[1].kind, Kind::Free);
    /// assert_eq!(rt; prepared.regions()[2].kind, Kind::Ordinary);
    /// assert_eq!(rt; prepared.regions()[2].top, 7);
    /// ```
    pub fn regions(&self) -> &[Region]
        ensures { result.now ≡ self.now.regions }
    {
        &self.regions
    }

    /// The reference words of the roots after the pause, by root number.
    ///
    /// # Examples
    ///
    /// ```
    /// use g1_copy::prepare;
    /// use g1_layout::place;
    /// use g1_rem::{Starts, refine, verify};
    /// use g1_testing::{image, pictures::shared};
    ///
    /// let shared = image(alloc, shared())?;
    /// let tracked = verify(&rt, alloc, shared).map_err(|(_, fault)| fault)?;
    /// let heap = tracked.image.heap();
    /// let starts = Starts::build(alloc, heap)?;
    /// let remembered = refine(&rt, alloc, &tracked, &starts)?;
    /// let plan = place(alloc, heap, &[1], &[21, 16])?;
    /// let prepared = prepare(&rt, alloc, &tracked, &starts, &remembered, &[1], &plan)?;
    /// // The roots reference the objects at 32 and 34 then.
    /// assert_eq!(rt; prepared.roots(), [33, 35].as_slice());
    /// ```
    pub fn roots(&self) -> &[u64]
        ensures { result.now ≡ self.now.roots }
    {
        &self.roots
    }

    /// The remembered set of each region after the pause.
    ///
    /// # Examples
    ///
    /// ```
    /// use g1_copy::prepare;
    /// use g1_layout::place;
    /// use g1_rem::{Starts, refine, verify};
    /// use g1_testing::{image, pictures::shared};
    ///
    /// let shared = image(alloc, shared())?;
    /// let tracked = verify(&rt, alloc, shared).map_err(|(_, fault)| fault)?;
    /// let heap = tracked.image.heap();
    /// let starts = Starts::build(alloc, heap)?;
    /// let remembered = refine(&rt, alloc, &tracked, &starts)?;
    /// let plan = place(alloc, heap, &[1], &[21, 16])?;
    /// let prepared = prepare(&rt, alloc, &tracked, &starts, &remembered, &[1], &plan)?;
    /// assert_eq!(rt; prepared.remembered()[1].len(), 0);
    /// assert_eq!(rt; prepared.remembered()[2].as_slice(), [0, 1].as_slice());
    /// ```
    pub fn remembered(&self) -> &[Vec<u32>]
        ensures { map (λ s. s.items) result.now ≡ self.now.remembered }
    {
        &self.remembered
    }
}

/// A region after the pause, of what it is before.
fn new_region(fate: Fate, runs: &[Run], region: Region) -> Region
    requires run { (t : ℕ) → fate ≡ Filled t → t < length runs.now }
    requires small { All (λ u. u.end < 2 ^ 32) runs.now }
    ensures { (u : Run) → result ≡ region_by_fate runs.now u fate region }
{
    match fate {
        Fate::Freed => Region {
            kind: Kind::Free,
            top: 0,
            pinned: false,
        },
        Fate::Filled(run) => Region {
            kind: Kind::Ordinary,
            top: runs[run].end as u32,
            pinned: false,
        },
        Fate::Kept => region,
    }
}

/// The regions after the pause, by their fates: a freed one is free, one of to-space used up to where
/// its last survivor ends, and any other as it was.
fn new_regions(
    alloc: Global,
    heap: &Heap,
    fates: &[Fate],
    plan: &Plan,
) -> Result<Vec<Region>, AllocError>
    requires plan { IsPauseOf heap.now plan.now.set plan.now }
    requires fates { (freed : List ℕ) × AreFates heap.now freed (to_space heap.now plan.now.survivors) fates.now }
    ensures { IfOk result (λ v. (u : Run) → v.items ≡ map (λ r. region_by_fate plan.now.runs u (fate_at fates.now r) (region heap.now r)) (regions heap.now)) }
{
    let count = heap.geometry().regions() as u32;
    let mut regions = Vec::with_capacity(alloc, count as usize)?;
    for r in 0..count {
        regions.push(new_region(fates[r as usize], plan.runs(), heap.region(r)))?;
    }
    Ok(regions)
}

/// The roots after the pause.
fn new_roots(alloc: Global, moving: &Moving<'_>) -> Result<Vec<u64>, AllocError>
    requires { IsPauseOf moving.now.heap moving.now.plan.set moving.now.plan }
    ensures { IfOk result (λ v. v.items ≡ map (renamed (forward moving.now.heap moving.now.plan.survivors)) moving.now.heap.roots) }
{
    let heap = moving.heap;
    let plan = moving.plan;
    let mut roots = Vec::with_capacity(alloc, heap.roots().len())?;
    for root in heap.roots() {
        roots.push(rename_reference(plan, *root))?;
    }
    Ok(roots)
}

/// All that the pause of a collection set writes. `remembered` are the refined sets; the plan was made from
/// this heap, this set and its survivors. Where no humongous object is freed, looking for one is linear in
/// the regions, the roots, the remembered cards of humongous regions and the slots on them; else the cards
/// of all remembered sets are looked at once more. May start threads.
///
/// # Errors
///
/// `Fault::Memory` alone.
///
/// # Examples
///
/// ```
/// use g1_copy::prepare;
/// use g1_layout::place;
/// use g1_rem::{Starts, refine, verify};
/// use g1_testing::{image, pictures::shared};
///
/// let shared = image(alloc, shared())?;
/// let tracked = verify(&rt, alloc, shared).map_err(|(_, fault)| fault)?;
/// let heap = tracked.image.heap();
/// let starts = Starts::build(alloc, heap)?;
/// let remembered = refine(&rt, alloc, &tracked, &starts)?;
/// let plan = place(alloc, heap, &[1], &[21, 16])?;
/// let prepared = prepare(&rt, alloc, &tracked, &starts, &remembered, &[1], &plan)?;
/// assert_eq!(rt; prepared.patches(), [(1, 33), (5, 33)].as_slice());
/// assert_eq!(rt; prepared.roots(), [33, 35].as_slice());
/// ```
pub fn prepare(
    rt: &(impl Threads + Sync),
    alloc: Global,
    tracked: &Tracked,
    starts: &Starts,
    remembered: &[Vec<u32>],
    set: &[u32],
    plan: &Plan,
) -> Result<Prepared, Fault>
    requires starts { IsStartsOf tracked.now.heap starts.now }
    requires remembered { map (λ s. s.items) remembered.now ≡ map (refined tracked.now) (regions tracked.now.heap) }
    requires plan { IsPauseOf tracked.now.heap set.now plan.now }
    ensures ok { IfOk result (λ p. IsMadeFor p tracked.now set.now plan.now.survivors) }
    ensures memory { IfErr result (λ e. e ≡ Fault.Memory) }
{
    let cards = cards_into(alloc, heap_of(tracked), remembered, set)?;
    let basis = Basis {
        tracked,
        starts,
        remembered,
        set,
        plan,
        cards: &cards,
    };
    prepare_on(rt, alloc, &basis, MOST_WORKERS)
}

/// What a pause is prepared on.
#[derive(Clone, Copy)]
pub struct Basis<'a> {
    /// The image before.
    pub tracked: &'a Tracked,
    /// The starts of its heap.
    pub starts: &'a Starts,
    /// The refined remembered sets.
    pub remembered: &'a [Vec<u32>],
    /// The collection set.
    pub set: &'a [u32],
    /// Where the set's survivors go.
    pub plan: &'a Plan,
    /// The cards that lead into the set.
    pub cards: &'a [u32],
}

/// What a pause is prepared on, without the cards.
fn pausing_on<'a>(basis: &Basis<'a>) -> Pausing<'a>
    requires starts { IsStartsOf basis.now.tracked.now.heap basis.now.starts.now }
    requires remembered { map (λ s. s.items) basis.now.remembered.now ≡ map (refined basis.now.tracked.now) (regions basis.now.tracked.now.heap) }
    requires plan { IsPauseOf basis.now.tracked.now.heap basis.now.set.now basis.now.plan.now }
    ensures { result ≡ record { image = basis.now.tracked.now; set = basis.now.set.now; plan = basis.now.plan.now } }
{
    Pausing {
        tracked: basis.tracked,
        starts: basis.starts,
        remembered: basis.remembered,
        set: basis.set,
        plan: basis.plan,
    }
}

/// As `prepare`, for a caller that has listed the cards that lead into the set, with this many workers
/// at most. One if it is 0.
///
/// # Errors
///
/// `Fault::Memory` alone.
///
/// # Examples
///
/// ```
/// use g1_copy::{Basis, prepare_on};
/// use g1_layout::place;
/// use g1_rem::{Starts, refine, verify};
/// use g1_testing::{image, pictures::shared};
///
/// let shared = image(alloc, shared())?;
/// let tracked = verify(&rt, alloc, shared).map_err(|(_, fault)| fault)?;
/// let heap = tracked.image.heap();
/// let starts = Starts::build(alloc, heap)?;
/// let remembered = refine(&rt, alloc, &tracked, &starts)?;
/// let plan = place(alloc, heap, &[1], &[21, 16])?;
/// let basis = Basis {
///     tracked: &tracked,
///     starts: &starts,
///     remembered: &remembered,
///     set: &[1],
///     plan: &plan,
///     cards: &[0, 1],
/// };
/// let prepared = prepare_on(&rt, alloc, &basis, 8)?;
/// assert_eq!(rt; prepared.patches(), [(1, 33), (5, 33)].as_slice());
/// ```
pub fn prepare_on(
    rt: &(impl Threads + Sync),
    alloc: Global,
    basis: &Basis<'_>,
    workers: u64,
) -> Result<Prepared, Fault>
    requires starts { IsStartsOf basis.now.tracked.now.heap basis.now.starts.now }
    requires remembered { map (λ s. s.items) basis.now.remembered.now ≡ map (refined basis.now.tracked.now) (regions basis.now.tracked.now.heap) }
    requires plan { IsPauseOf basis.now.tracked.now.heap basis.now.set.now basis.now.plan.now }
    requires cards { basis.now.cards.now ≡ cards_into basis.now.tracked.now.heap (map (λ s. s.items) basis.now.remembered.now) basis.now.set.now }
    ensures ok { IfOk result (λ p. IsMadeFor p basis.now.tracked.now basis.now.set.now basis.now.plan.now.survivors) }
    ensures memory { IfErr result (λ e. e ≡ Fault.Memory) }
{
    laws::all_patches();
    let heap = heap_of(basis.tracked);
    let moving = Moving {
        heap,
        plan: basis.plan,
    };
    let moves = Moves {
        moving: &moving,
        starts: basis.starts,
    };
    let patches = patches_by(rt, alloc, &moves, basis.cards, workers)?;
    let pausing = pausing_on(basis);
    prepare_patches(rt, alloc, &pausing, patches, workers)
}

/// As `prepare_on`, for a caller that has listed the slots outside the set that reference a survivor, by
/// address, each with its word. It looks at no card that leads into the set.
///
/// # Errors
///
/// `Fault::Memory` alone.
///
/// # Examples
///
/// ```
/// use g1_copy::{Basis, prepare_by_leads};
/// use g1_layout::place;
/// use g1_rem::{Starts, refine, verify};
/// use g1_testing::{image, pictures::shared};
///
/// let shared = image(alloc, shared())?;
/// let tracked = verify(&rt, alloc, shared).map_err(|(_, fault)| fault)?;
/// let heap = tracked.image.heap();
/// let starts = Starts::build(alloc, heap)?;
/// let remembered = refine(&rt, alloc, &tracked, &starts)?;
/// let plan = place(alloc, heap, &[1], &[21, 16])?;
/// let basis = Basis {
///     tracked: &tracked,
///     starts: &starts,
///     remembered: &remembered,
///     set: &[1],
///     plan: &plan,
///     cards: &[0, 1],
/// };
/// let leads = Vec::from_slice(alloc, &[(1, 22), (5, 22)])?;
/// let prepared = prepare_by_leads(&rt, alloc, &basis, leads, 8)?;
/// assert_eq!(rt; prepared.patches(), [(1, 33), (5, 33)].as_slice());
/// ```
pub fn prepare_by_leads(
    rt: &(impl Threads + Sync),
    alloc: Global,
    basis: &Basis<'_>,
    leads: Vec<(u64, u64)>,
    workers: u64,
) -> Result<Prepared, Fault>
    requires starts { IsStartsOf basis.now.tracked.now.heap basis.now.starts.now }
    requires remembered { map (λ s. s.items) basis.now.remembered.now ≡ map (refined basis.now.tracked.now) (regions basis.now.tracked.now.heap) }
    requires plan { IsPauseOf basis.now.tracked.now.heap basis.now.set.now basis.now.plan.now }
    requires leads { AreLeads basis.now.tracked.now.heap basis.now.set.now basis.now.plan.now.survivors leads.items }
    ensures ok { IfOk result (λ p. IsMadeFor p basis.now.tracked.now basis.now.set.now basis.now.plan.now.survivors) }
    ensures memory { IfErr result (λ e. e ≡ Fault.Memory) }
{
    let heap = heap_of(basis.tracked);
    let moving = Moving {
        heap,
        plan: basis.plan,
    };
    let mut patches = leads;
    rename_slots(&moving, &mut patches);
    let pausing = pausing_on(basis);
    prepare_patches(rt, alloc, &pausing, patches, workers)
}

/// All that a pause writes, for a caller that has the patches.
fn prepare_patches(
    rt: &(impl Threads + Sync),
    alloc: Global,
    pausing: &Pausing<'_>,
    patches: Vec<(u64, u64)>,
    workers: u64,
) -> Result<Prepared, Fault>
    requires { patches.items ≡ all_patches pausing.now.image.heap pausing.now.set pausing.now.plan.survivors }
    ensures ok { IfOk result (λ p. IsMadeFor p pausing.now.image pausing.now.set pausing.now.plan.survivors) }
    ensures memory { IfErr result (λ e. e ≡ Fault.Memory) }
{
    let tracked = pausing.tracked;
    let plan = pausing.plan;
    let heap = heap_of(tracked);
    let moving = Moving { heap, plan };
    let gathered = gather_by(rt, alloc, &moving, workers)?;
    let mut fates = fates(alloc, heap, pausing.set, plan)?;
    let changes = Changes {
        plan,
        fates: &fates,
        patches: &patches,
        gathered: &gathered,
    };
    let mut sets = remembered_by_fate(rt, alloc, tracked, pausing.remembered, &changes, workers)?;
    let humongous = unnamed(alloc, pausing, &fates, &sets)?;
    let freed = humongous_regions(alloc, heap, &humongous)?;
    free(&mut fates, &freed);
    leave_all(heap, &fates, &freed, &mut sets);
    Ok(Prepared {
        firsts: firsts(alloc, heap, &patches)?,
        regions: new_regions(alloc, heap, &fates, plan)?,
        roots: new_roots(alloc, &moving)?,
        remembered: sets,
        fates,
        gathered,
        patches,
        humongous,
    })
}
