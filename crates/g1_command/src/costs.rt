//! The options of a pause that both programs have: its budget, and what costs how much.
ghost use Rattle.std.specs.Prelude.{IfOk, IfErr};
ghost use Rattle.std.specs.List.{Any};
ghost use Rattle.clap.specs.Words.{found_of, rows_of};
ghost use Rattle.g1_command.specs.Values.{IsCostOf, IsNoNumberOf, Because, cost_options};

use crate::table::{Argument, VALUE};
use crate::values::{Misuse, required_number};
use clap::ArgMatches;
use g1_choose::Cost;
use std::alloc::Global;

/// What a pause may cost.
pub const BUDGET: Argument = Argument {
    id: "budget",
    help: "What the pause may cost in all",
    range: "below 18446744073709551616",
    ..VALUE
};

const COST: Argument = Argument {
    default: &["1"],
    range: "below 4294967296",
    ..VALUE
};

/// The cost of each pause.
pub const FIXED: Argument = Argument {
    id: "fixed",
    default: &["0"],
    help: "What a pause costs in any case",
    ..COST
};

/// The cost of a dirty card.
pub const DIRTY: Argument = Argument {
    id: "dirty",
    help: "What a dirty card costs",
    ..COST
};

/// The cost of a remembered card.
pub const CARD: Argument = Argument {
    id: "card",
    help: "What a remembered card costs",
    ..COST
};

/// The cost of a live byte.
pub const BYTE: Argument = Argument {
    id: "byte",
    help: "What a live byte costs",
    ..COST
};

// A static is checked once, a constant again in each function that uses it.
static COSTS: [Argument; 4] = [FIXED, DIRTY, CARD, BYTE];

/// The costs that `FIXED`, `DIRTY`, `CARD` and `BYTE` give.
pub fn cost_of(alloc: Global, values: &ArgMatches<'_>) -> Result<Cost, Misuse>
    ensures cost { IfOk result (IsCostOf (rows_of (found_of values.now))) }
    ensures refused { IfErr result (Because (Any (IsNoNumberOf (rows_of (found_of values.now))) cost_options)) }
{
    let [fixed, dirty, card, byte] = &COSTS;
    Ok(Cost {
        fixed: required_number(alloc, values, fixed)?,
        dirty: required_number(alloc, values, dirty)?,
        card: required_number(alloc, values, card)?,
        byte: required_number(alloc, values, byte)?,
    })
}
