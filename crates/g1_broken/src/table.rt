//! The region table.
use crate::rule::Broken;
use g1_image::Entry;
use g1_words::{Kind, Region};
use std::alloc::{AllocError, Global};

/// The regions of a table, up to the first whose kind has no meaning.
///
/// # Errors
///
/// `AllocError` if a growth was refused.
pub fn known_regions(alloc: Global, table: &[Entry]) -> Result<Vec<Region>, AllocError> {
    let mut regions = Vec::new(alloc);
    for entry in table {
        let Some(kind) = Kind::of_number(entry.kind) else {
            return Ok(regions);
        };
        regions.push(Region {
            kind,
            top: entry.top,
            pinned: entry.flags == 1,
        })?;
    }
    Ok(regions)
}

/// The kind of a region that has no meaning.
pub(crate) fn broken_kind(table: &[Entry], region: u32) -> Option<Broken> {
    let entry = table.get(region as usize)?;
    Some(Broken::Kind {
        region,
        kind: entry.kind,
    })
}

/// The flags of a region that have no meaning, or that its kind may not have.
pub(crate) fn broken_flags(table: &[Entry], region: u32) -> Option<Broken> {
    let entry = table.get(region as usize)?;
    if entry.flags > 1 {
        return Some(Broken::Flags {
            region,
            flags: entry.flags,
        });
    }
    let kind = Kind::of_number(entry.kind)?;
    Some(Broken::Pinned { region, kind })
}
