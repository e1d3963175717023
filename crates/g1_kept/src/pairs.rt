ghost use Rattle.std.specs.Prelude.{◌≡◌, ◌<◌, ◌≤◌, ◌++◌, ◌∷◌, [], suc, length, slice_set, IfOk, OnOk};
ghost use Rattle.g1_words.specs.Geometry.{most_words};
ghost use Rattle.g1_kept.specs.Pause.{IsWalkIn};

use crate::pause::Pause;
use std::alloc::{AllocError, Global};

/// Objects of the set and their copies, in the order in which they were found, and the tables that
/// find them.
#[derive(Drop)]
pub struct Pairs {
    /// The address before of each pair.
    pub before: Vec<u64>,
    /// The address after of each pair.
    pub after: Vec<u64>,
    /// By address before, 1 more than the place of its pair.
    pub new_of: Vec<u32>,
    /// By address after, the same.
    pub old_of: Vec<u32>,
}

/// No pairs.
pub(crate) fn start(alloc: Global, pause: &Pause<'_>) -> Result<Pairs, AllocError>
    ensures walk { IfOk result (λ w. IsWalkIn pause.now w) }
    ensures none { IfOk result (λ w. w.before.items ≡ []) }
{
    let new_of = vec![in alloc; 0u32; pause.heaps.before.words().len()]?;
    let old_of = vec![in alloc; 0u32; pause.heaps.after.words().len()]?;
    Ok(Pairs {
        before: Vec::new(alloc),
        after: Vec::new(alloc),
        new_of,
        old_of,
    })
}

impl Pairs {
    /// Adds a pair.
    pub(crate) fn add(&mut self, a: u64, b: u64) -> Result<(), AllocError>
        requires a { a < length self.old.new_of.items }
        requires b { b < length self.old.old_of.items }
        requires few { length self.old.before.items ≤ most_words }
        ensures before { OnOk result (self.new.before.items ≡ self.old.before.items ++ a ∷ []) }
        ensures after { OnOk result (self.new.after.items ≡ self.old.after.items ++ b ∷ []) }
        ensures new_of { OnOk result (self.new.new_of.items ≡ slice_set self.old.new_of.items a (suc (length self.old.before.items))) }
        ensures old_of { OnOk result (self.new.old_of.items ≡ slice_set self.old.old_of.items b (suc (length self.old.before.items))) }
    {
        let place = self.before.len() as u32 + 1;
        self.before.push(a)?;
        self.after.push(b)?;
        self.new_of[a as usize] = place;
        self.old_of[b as usize] = place;
        Ok(())
    }
}
