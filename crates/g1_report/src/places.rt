//! Lists in the order of their places.
ghost use Rattle.std.specs.Prelude.{◌≡◌, ◌==◌, ℕ, List, bytes_eq, option_map, OnOk};
ghost use Rattle.std.specs.Borrow.{Bor};
ghost use Rattle.std.specs.List.Sorted.{IsNonDecreasingBy, IsSortedByKey};
ghost use Rattle.std.specs.Cmp.Lexicographic.{slice_cmp};
ghost use Rattle.std.specs.Ordering.{nat_cmp};
ghost use Rattle.std.specs.Map.{lookup};
ghost use Rattle.g1_report.specs.Sorting.{IsPutInOrder};

use std::alloc::AllocError;

/// Puts a list in the order of its places. What it has at one place stays in its order.
pub fn sort_by_place<V>(list: &mut Vec<(u64, V)>) -> Result<(), AllocError>
    ensures { OnOk result (IsPutInOrder (λ (e : ℕ × V). e.0) nat_cmp list.old.items list.new.items) }
{
    list.sort_by_key(|entry| entry.0)
}

/// The same of a list by names.
pub fn sort_by_name<'a, V>(list: &mut Vec<(&'a str, V)>) -> Result<(), AllocError>
    ensures { OnOk result (IsPutInOrder (λ (e : Bor (List ℕ) × V). e.0.now) (slice_cmp nat_cmp) list.old.items list.new.items) }
{
    list.sort_by_key(|named| named.0)
}

/// What a list has at a place, if it has that place: the first of several.
pub fn value_at<V: Copy>(list: &[(u64, V)], place: u64) -> Option<V>
    ensures { IsNonDecreasingBy (λ (e : ℕ × V). e.0) list.now → result ≡ lookup (λ k. place == k) list.now }
{
    let below = list.partition_point(|(at, _)| *at < place);
    match list.get(below) {
        Some((at, value)) if *at == place => Some(*value),
        _ => None,
    }
}

/// The same, lent.
pub fn entry_at<V>(list: &[(u64, V)], place: u64) -> Option<&V>
    ensures { IsNonDecreasingBy (λ (e : ℕ × V). e.0) list.now → option_map (λ v. v.now) result ≡ lookup (λ k. place == k) list.now }
{
    let below = list.partition_point(|(at, _)| *at < place);
    match list.get(below) {
        Some((at, value)) if *at == place => Some(value),
        _ => None,
    }
}

/// What a list has under a name, lent: the first of several.
pub fn entry_named<'a, V>(list: &'a [(&str, V)], name: &str) -> Option<&'a V>
    ensures { IsSortedByKey (λ (e : Bor (List ℕ) × V). e.0.now) (slice_cmp nat_cmp) list.now → option_map (λ v. v.now) result ≡ lookup (λ k. bytes_eq k.now name.now) list.now }
{
    let below = list.partition_point(|(other, _)| *other < name);
    match list.get(below) {
        Some((other, value)) if *other == name => Some(value),
        _ => None,
    }
}
