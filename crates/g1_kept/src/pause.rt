use crate::region_set::RegionSet;
use g1_same::Pair;

/// What is said to be a pause: the heaps before and after it, the regions of its set, and whether its
/// copies may fill regions.
#[derive(Drop)]
pub(crate) struct Pause<'a> {
    pub heaps: Pair<'a>,
    pub set: &'a RegionSet<'a>,
    pub fill: bool,
}
