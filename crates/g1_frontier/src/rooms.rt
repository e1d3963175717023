ghost use Rattle.std.specs.Prelude.{◌≡◌, ◌++◌, [], map, flat_map, OnOk, IfOk};
ghost use Rattle.std.specs.List.{All};
ghost use Rattle.g1_frontier.specs.Offering.{in_span, IsWithin};

use crate::offering::Span;
use std::alloc::{AllocError, Global};

/// An empty room: one that an earlier round left, or a new one.
pub(crate) fn empty_room(alloc: Global, rooms: &mut Vec<Vec<(u64, u64)>>) -> Vec<(u64, u64)>
    ensures { result.items ≡ [] }
{
    let Some(mut room) = rooms.pop() else {
        return Vec::new(alloc);
    };
    room.clear();
    room
}

/// Puts what stands in some spans of the rooms behind what is there.
pub(crate) fn push_spans(
    kept: &mut Vec<(u64, u64)>,
    rooms: &[Vec<(u64, u64)>],
    spans: &[Span],
) -> Result<(), AllocError>
    requires { All (IsWithin (map (λ l. l.items) rooms.now)) spans.now }
    ensures { OnOk result (kept.new.items ≡ kept.old.items ++ flat_map (in_span (map (λ l. l.items) rooms.now)) spans.now) }
{
    for span in spans {
        let room = rooms[span.worker].as_slice();
        kept.extend_from_slice(&room[span.from..span.to])?;
    }
    Ok(())
}

/// Some lists, one behind the other, in a room.
pub(crate) fn join_lists(
    alloc: Global,
    rooms: &mut Vec<Vec<(u64, u64)>>,
    lists: &[Vec<(u64, u64)>],
) -> Result<Vec<(u64, u64)>, AllocError>
    ensures { IfOk result (λ v. v.items ≡ flat_map (λ l. l.items) lists.now) }
{
    let mut all = empty_room(alloc, rooms);
    for list in lists {
        all.extend_from_slice(list)?;
    }
    Ok(all)
}
