ghost use Rattle.std.specs.Prelude.{◌≡◌, ◌<◌, ◌^◌};
ghost use Rattle.g1_choose.specs.Cost.{IsCost, cost, total};

use crate::parameters::Cost;

/// The cost of a region with this many remembered cards and this many live bytes.
///
/// # Examples
///
/// ```
/// use g1_choose::{Cost, cost};
///
/// let prices = Cost { fixed: 1000, dirty: 100, card: 10, byte: 1 };
/// assert_eq!(rt; cost(&prices, 3, 8), 38);
/// ```
pub fn cost(parameters: &Cost, rs_size: u64, live: u64) -> u128
    requires { IsCost parameters.now }
    ensures value { result ≡ cost parameters.now rs_size live }
    ensures fits { result < 2 ^ 97 }
{
    u128::from(parameters.card) * u128::from(rs_size)
        + u128::from(parameters.byte) * u128::from(live)
}

/// The cost of a pause with `d` dirty cards that collects regions of these costs.
///
/// # Examples
///
/// ```
/// use g1_choose::{Cost, total};
///
/// let prices = Cost { fixed: 1000, dirty: 100, card: 10, byte: 1 };
/// assert_eq!(rt; total(&prices, 2, &[38, 16]), 1254);
/// ```
pub fn total(parameters: &Cost, d: u64, costs: &[u128]) -> u128
    requires { total parameters.now d costs.now < 2 ^ 128 }
    ensures { result ≡ total parameters.now d costs.now }
{
    let regions: u128 = costs.iter().sum();
    u128::from(parameters.fixed) + u128::from(parameters.dirty) * u128::from(d) + regions
}
