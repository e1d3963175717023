ghost use Rattle.std.specs.Prelude.{◌≤◌, ◌∷◌, length, IfOk};
ghost use Rattle.g1_same.specs.Walk.{HasWays, IsRoute};

use crate::walk::{Walk, Way};
use std::alloc::{AllocError, Global};

/// A root and then slots, by number from 0.
#[derive(Drop)]
pub struct Path {
    pub root: u64,
    pub slots: Vec<u64>,
}

/// The path of a way: that of the pair whose slot it is, and then the slot.
pub fn path_by(alloc: Global, walk: &Walk, way: Way) -> Result<Path, AllocError>
    requires ways { HasWays walk.now }
    requires within { way.from ≤ length walk.now.before.items }
    ensures { IfOk result (λ p. IsRoute walk.now way.from way.number (p.root ∷ p.slots.items)) }
{
    let mut slots = Vec::new(alloc);
    let mut from = way.from;
    let mut number = way.number;
    while from > 0 {
        slots.push(number as u64)?;
        let place = (from - 1) as usize;
        number = walk.number[place];
        from = walk.from[place];
    }
    slots.reverse();
    Ok(Path {
        root: number as u64,
        slots,
    })
}
