//! Where the survivors of a pause are placed.
//!
//! The regions that are free before the pause are used in rising number. The first survivor goes to
//! the start of the lowest one; each next one directly after the last if it ends within the region,
//! else at the start of the next free region (next fit). `place` goes by these steps:
//!
//! 1. It reads the survivors' sizes, and counts the regions that they need, on beyond the free ones. It
//!    refuses if they need more than are free, even if memory is refused. `place_sized` takes the sizes
//!    from its caller.
//! 2. It lists to-space, and by the sizes each survivor's new address.
//! 3. It lists the runs: which stretch of the survivors is in each region of to-space, and where
//!    the region's last object ends.
//! 4. It marks the survivors among the words of the collection set, one bit each, and counts the marks
//!    before each 64 words. So a survivor has a number. By these it lists the new addresses, from
//!    which `Plan::forward` answers by two look-ups.
#![tactic(auto)]

pub mod laws;
mod measuring;
mod new_addresses;
mod placing;
mod plan;

pub use placing::{place, place_sized};
pub use plan::{Plan, Run};
