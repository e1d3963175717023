ghost use Rattle.std.specs.Prelude.{◌≡◌, ◌≤◌, ◌<◌, ◌*◌, ◌^◌, ◌⊎◌, ℕ, length, map, OnOk, IfOk, IfErr};
ghost use Rattle.g1_words.specs.Geometry.{most_regions};
ghost use Rattle.g1_image.specs.Text.{table_words};
ghost use Rattle.g1_image.specs.Image.{region_of_entry};
ghost use Rattle.g1_image.specs.Faults.{IsFirstBreach, IsKnownKind, AreKnownKinds, HasKnownFlags};

use crate::cursor::Entry;
use g1_words::{Fault, Kind, Region};
use std::alloc::Global;

/// How many words the table announces.
pub(crate) fn table_words(table: &[Entry]) -> u64
    requires { length table.now ≤ most_regions }
    ensures value { result ≡ table_words table.now }
    ensures bound { result ≤ most_regions * 2 ^ 32 }
{
    let mut sum: u64 = 0;
    for e in table {
        sum += u64::from(e.top);
    }
    sum
}

/// The regions of the table, or the first whose kind has no meaning.
pub(crate) fn regions(alloc: Global, table: &[Entry]) -> Result<Vec<Region>, Fault>
    requires { length table.now ≤ most_regions }
    ensures ok { IfOk result (λ v. (v.items ≡ map region_of_entry table.now) × AreKnownKinds table.now (length table.now)) }
    ensures err { IfErr result (λ e. (e ≡ Fault.Memory) ⊎ ((r : ℕ) × (e ≡ Fault.Kind r) × IsFirstBreach (IsKnownKind table.now) (length table.now) r)) }
{
    let mut regions = Vec::with_capacity(alloc, table.len())?;
    for (r, e) in table.iter().enumerate() {
        let kind = match Kind::of_number(e.kind) {
            Some(kind) => kind,
            None => return Err(Fault::Kind(r as u32)),
        };
        regions.push(Region {
            kind,
            top: e.top,
            pinned: e.flags == 1,
        })?;
    }
    Ok(regions)
}

/// Refuses the first region whose flags have no meaning: an ordinary region alone may be pinned.
pub(crate) fn check_flags(table: &[Entry]) -> Result<(), Fault>
    requires { length table.now ≤ most_regions }
    ensures ok { OnOk result ((r : ℕ) → r < length table.now → HasKnownFlags table.now r) }
    ensures err { IfErr result (λ e. (r : ℕ) × (e ≡ Fault.Flags r) × IsFirstBreach (HasKnownFlags table.now) (length table.now) r) }
{
    for (r, e) in table.iter().enumerate() {
        if e.flags > 1 || (e.flags == 1 && e.kind != Kind::Ordinary.number()) {
            return Err(Fault::Flags(r as u32));
        }
    }
    Ok(())
}
