ghost use Rattle.std.specs.Prelude.{◌≡◌, ◌<◌, length, map, All, IsTrue, IfSome, IfNone, IfOk, IfErr};
ghost use Rattle.g1_words.specs.Valid.{IsValid};
ghost use Rattle.g1_choose.specs.Cost.{IsCost};
ghost use Rattle.g1_choose.specs.Choice.{MayBeLive, is_candidate, candidates, IsChosen};
ghost use Rattle.g1_choose.specs.Candidate.{TellsRegion, IsCandidateOrder};
ghost use Rattle.g1_choose.specs.Bought.{IsPaid};

use crate::buying::{buy, rising_regions};
use crate::candidate::Candidate;
use crate::parameters::Cost;
use crate::pricing::cost;
use g1_words::{Fault, Heap, Region};
use std::alloc::{AllocError, Global};

/// What the regions of a heap are priced by.
#[derive(Clone, Copy)]
struct Pricing<'a> {
    heap: &'a Heap,
    /// The remembered set of each region.
    remembered: &'a [Vec<u32>],
    /// The live bytes of each region.
    live: &'a [u64],
    parameters: &'a Cost,
}

/// The candidate that a region is, if it is one.
fn candidate(pricing: &Pricing<'_>, region: u32) -> Option<Candidate>
    requires parameters { IsCost pricing.now.parameters.now }
    requires remembered { length pricing.now.remembered.now ≡ pricing.now.heap.now.geometry.n }
    requires live_bytes { MayBeLive pricing.now.heap.now pricing.now.live.now }
    requires there { region < pricing.now.heap.now.geometry.n }
    requires valid { IsValid pricing.now.heap.now }
    ensures same { IfSome result (λ x. x.region ≡ region) }
    ensures found { IfSome result (λ x. IsTrue (is_candidate pricing.now.parameters.now pricing.now.heap.now (map (λ s. s.items) pricing.now.remembered.now) pricing.now.live.now region)) }
    ensures tells { IfSome result (TellsRegion pricing.now.parameters.now pricing.now.heap.now (map (λ s. s.items) pricing.now.remembered.now) pricing.now.live.now) }
    ensures none { IfNone result (IsTrue (is_candidate pricing.now.parameters.now pricing.now.heap.now (map (λ s. s.items) pricing.now.remembered.now) pricing.now.live.now region) → ⊥) }
{
    let Region { kind, top, pinned } = pricing.heap.region(region);
    if !kind.is_ordinary() || pinned {
        return None;
    }
    let place = region as usize;
    let live = pricing.live[place];
    let garbage = 8 * u64::from(top) - live;
    if garbage == 0 {
        return None;
    }
    let cards = pricing.remembered[place].len() as u64;
    Some(Candidate {
        region,
        cost: cost(pricing.parameters, cards, live),
        garbage,
    })
}

/// The ordinary regions with garbage that aren't pinned, by number.
fn candidates(alloc: Global, pricing: &Pricing<'_>) -> Result<Vec<Candidate>, AllocError>
    requires parameters { IsCost pricing.now.parameters.now }
    requires remembered { length pricing.now.remembered.now ≡ pricing.now.heap.now.geometry.n }
    requires live_bytes { MayBeLive pricing.now.heap.now pricing.now.live.now }
    ensures all { IfOk result (λ v. map (λ x. x.region) v.items ≡ candidates pricing.now.parameters.now pricing.now.heap.now (map (λ s. s.items) pricing.now.remembered.now) pricing.now.live.now) }
    ensures tells { IfOk result (λ v. All (TellsRegion pricing.now.parameters.now pricing.now.heap.now (map (λ s. s.items) pricing.now.remembered.now) pricing.now.live.now) v.items) }
{
    let mut candidates = Vec::new(alloc);
    for region in 0..pricing.heap.geometry().regions() as u32 {
        if let Some(found) = candidate(pricing, region) {
            candidates.push(found)?;
        }
    }
    Ok(candidates)
}

/// The ordinary regions with garbage that aren't pinned, by efficiency: most garbage for its cost first, and of equals
/// the lower region. `remembered` and `live` have one entry a region, `live` in bytes.
///
/// # Errors
///
/// `Fault::Memory` alone.
///
/// # Examples
///
/// ```
/// use g1_choose::{Candidate, Cost, order};
/// use g1_testing::image;
///
/// // A root references the object at 0 alone.
/// let image = image(alloc, "heap 16 4 4
///     root 0
///     region 0 ordinary
///     object 2/0 1
///     object 2/0 1
///     region 1 ordinary
///     object 4/0 1 2 3")?;
/// let live = [16, 0, 0, 0];
/// let prices = Cost { fixed: 10, dirty: 1, card: 1, byte: 1 };
/// let order = order(alloc, image.heap(), image.remembered(), &live, &prices)?;
/// let expected = [
///     Candidate { region: 1, cost: 0, garbage: 32 },
///     Candidate { region: 0, cost: 16, garbage: 16 },
/// ];
/// assert_eq!(rt; order.as_slice(), expected.as_slice());
/// ```
pub fn order(
    alloc: Global,
    heap: &Heap,
    remembered: &[Vec<u32>],
    live: &[u64],
    parameters: &Cost,
) -> Result<Vec<Candidate>, Fault>
    requires parameters { IsCost parameters.now }
    requires remembered { length remembered.now ≡ heap.now.geometry.n }
    requires live_bytes { MayBeLive heap.now live.now }
    ensures ok { IfOk result (λ v. IsCandidateOrder parameters.now heap.now (map (λ s. s.items) remembered.now) live.now v.items) }
    ensures memory { IfErr result (λ e. e ≡ Fault.Memory) }
{
    let pricing = Pricing {
        heap,
        remembered,
        live,
        parameters,
    };
    let mut candidates = candidates(alloc, &pricing)?;
    candidates.sort_unstable_by(|a, b| a.efficiency(b));
    Ok(candidates)
}

/// What a budget chooses.
#[derive(Drop)]
pub struct Chosen {
    /// The candidates, by efficiency.
    pub order: Vec<Candidate>,
    /// How many of them are taken, the first ones.
    pub taken: usize,
    /// The regions of these, rising.
    pub regions: Vec<u32>,
}

/// The collection set that the budget pays, rising: the longest beginning of the order whose total is
/// at most the budget. It is empty if not even the pause alone is within the budget.
///
/// `d` is the number of dirty cards. `remembered` has the remembered cards of each region, and `live`
/// its live bytes.
///
/// # Errors
///
/// `Fault::Memory` alone.
///
/// # Examples
///
/// ```
/// use g1_choose::{Cost, choose};
/// use g1_testing::{image, pictures::shared};
///
/// // All objects of region 1 are live, and none of region 0 is.
/// let image = image(alloc, shared())?;
/// let live = [0, 56, 0, 0];
/// let prices = Cost { fixed: 10, dirty: 1, card: 1, byte: 1 };
/// for (budget, regions) in [(9, [].as_slice()), (10, [0].as_slice())] {
///     let found = choose(alloc, image.heap(), 0, image.remembered(), &live, &prices, budget)?;
///     assert_eq!(rt; found.as_slice(), regions);
/// }
/// ```
pub fn choose(
    alloc: Global,
    heap: &Heap,
    d: u64,
    remembered: &[Vec<u32>],
    live: &[u64],
    parameters: &Cost,
    budget: u64,
) -> Result<Vec<u32>, Fault>
    requires parameters { IsCost parameters.now }
    requires remembered { length remembered.now ≡ heap.now.geometry.n }
    requires live_bytes { MayBeLive heap.now live.now }
    ensures ok { IfOk result (λ v. IsChosen parameters.now heap.now (map (λ s. s.items) remembered.now) live.now d budget v.items) }
    ensures memory { IfErr result (λ e. e ≡ Fault.Memory) }
{
    let chosen = choose_in_order(alloc, heap, d, remembered, live, parameters, budget)?;
    Ok(chosen.regions)
}

/// What `choose` returns, and the order by which it goes. The arguments are those of `choose`.
///
/// # Errors
///
/// `Fault::Memory` alone.
///
/// # Examples
///
/// ```
/// use g1_choose::{Cost, choose_in_order};
/// use g1_testing::{image, pictures::shared};
///
/// let image = image(alloc, shared())?;
/// let live = [0, 56, 0, 0];
/// let prices = Cost { fixed: 10, dirty: 1, card: 1, byte: 1 };
/// let chosen =
///     choose_in_order(alloc, image.heap(), 0, image.remembered(), &live, &prices, 9)?;
/// assert_eq!(rt; chosen.order[0].region, 0);
/// assert_eq!(rt; chosen.taken, 0);
/// ```
pub fn choose_in_order(
    alloc: Global,
    heap: &Heap,
    d: u64,
    remembered: &[Vec<u32>],
    live: &[u64],
    parameters: &Cost,
    budget: u64,
) -> Result<Chosen, Fault>
    requires parameters { IsCost parameters.now }
    requires remembered { length remembered.now ≡ heap.now.geometry.n }
    requires live_bytes { MayBeLive heap.now live.now }
    ensures order { IfOk result (λ x. IsCandidateOrder parameters.now heap.now (map (λ s. s.items) remembered.now) live.now x.order.items) }
    ensures paid { IfOk result (λ x. IsPaid parameters.now d budget x.order.items x.taken) }
    ensures ok { IfOk result (λ x. IsChosen parameters.now heap.now (map (λ s. s.items) remembered.now) live.now d budget x.regions.items) }
    ensures memory { IfErr result (λ e. e ≡ Fault.Memory) }
{
    let order = order(alloc, heap, remembered, live, parameters)?;
    let purchase = buy(&order, parameters, d, budget);
    let regions = rising_regions(alloc, &order[..purchase.taken])?;
    Ok(Chosen {
        order,
        taken: purchase.taken,
        regions,
    })
}
