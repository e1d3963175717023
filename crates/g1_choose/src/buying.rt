ghost use Rattle.std.specs.Prelude.{◌≡◌, IfOk, IfErr};
ghost use Rattle.g1_choose.specs.Cost.{IsCost};
ghost use Rattle.g1_choose.specs.Bought.{IsPurchase, AreRegionsOf};

use crate::candidate::Candidate;
use crate::parameters::Cost;
use crate::pricing::total;
use g1_words::Fault;
use std::alloc::Global;

/// How far a budget goes in an order of candidates.
#[derive(Debug, Clone, Copy, PartialEq, Eq)]
pub struct Purchase {
    /// How many candidates are taken, the first ones of the order.
    pub taken: usize,
    /// The cost of a pause that collects them.
    pub total: u128,
}

/// The longest beginning of an order that the budget pays, in a pause with `d` dirty cards. Nothing is
/// taken if not even the pause alone is within the budget: the total is then the cost of that pause.
///
/// # Examples
///
/// ```
/// use g1_choose::{Candidate, Cost, buy};
///
/// let order = [
///     Candidate { region: 0, cost: 16, garbage: 16 },
///     Candidate { region: 1, cost: 16, garbage: 16 },
///     Candidate { region: 2, cost: 9, garbage: 8 },
/// ];
/// let prices = Cost { fixed: 10, dirty: 1, card: 1, byte: 1 };
/// assert_eq!(rt; buy(&order, &prices, 0, 25).taken, 0);
/// let bought = buy(&order, &prices, 0, 50);
/// assert_eq!(rt; (bought.taken, bought.total), (2, 42));
/// ```
pub fn buy(order: &[Candidate], parameters: &Cost, d: u64, budget: u64) -> Purchase
    requires { IsCost parameters.now }
    ensures { IsPurchase parameters.now d budget order.now result }
{
    let mut taken = 0;
    let mut spent = total(parameters, d, &[]);
    for candidate in order {
        let total = spent + candidate.cost;
        if total > u128::from(budget) {
            break;
        }
        spent = total;
        taken += 1;
    }
    Purchase {
        taken,
        total: spent,
    }
}

/// The regions of some candidates, rising.
///
/// # Errors
///
/// `Fault::Memory` alone.
///
/// # Examples
///
/// ```
/// use g1_choose::{Candidate, rising_regions};
///
/// let taken = [
///     Candidate { region: 2, cost: 9, garbage: 16 },
///     Candidate { region: 0, cost: 16, garbage: 16 },
/// ];
/// assert_eq!(rt; rising_regions(alloc, &taken)?.as_slice(), [0, 2].as_slice());
/// ```
pub fn rising_regions(alloc: Global, candidates: &[Candidate]) -> Result<Vec<u32>, Fault>
    ensures ok { IfOk result (λ v. AreRegionsOf candidates.now v.items) }
    ensures memory { IfErr result (λ e. e ≡ Fault.Memory) }
{
    let mut regions = Vec::new(alloc);
    for candidate in candidates {
        regions.push(candidate.region)?;
    }
    regions.sort_unstable();
    Ok(regions)
}
