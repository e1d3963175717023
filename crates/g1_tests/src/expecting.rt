//! What tests begin with, and what they see.
use g1_choose::Cost;
use g1_pause::{Choice, Settings};
use g1_words::Fault;
use std::alloc::Global;
use std::fmt::Debug;
use std::process::Abort;

/// What the parts of a pause cost.
pub(crate) const UNIT: Cost = Cost {
    fixed: 0,
    dirty: 1,
    card: 1,
    byte: 1,
};

/// Sees that a value is the expected one; if it is not, both are reported.
pub(crate) fn expect_equal<T: Abort, V: PartialEq + Debug + Drop>(rt: &T, found: V, expected: V) {
    assert_eq!(rt; found, expected);
}

/// The same of a list.
pub(crate) fn expect_list<T: Abort, V: PartialEq + Debug + Drop>(
    rt: &T,
    found: &[V],
    expected: &[V],
) {
    expect_equal(rt, found, expected);
}

/// The same of bytes that are too many to be reported.
pub(crate) fn expect_bytes<T: Abort>(rt: &T, found: &[u8], expected: &[u8]) {
    expect_equal(rt, found == expected, true);
}

/// The settings of a pause that collects these regions.
pub(crate) fn collecting(
    alloc: Global,
    regions: &[u32],
    workers: u64,
    chunk: u64,
) -> Result<Settings, Fault> {
    Settings::new(workers, chunk, UNIT, Choice::Given(regions.to_vec(alloc)?))
}
