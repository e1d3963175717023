ghost use Rattle.std.specs.Prelude.{OnOk, IfErr};
ghost use Rattle.g1_image.specs.Faults.{IsGoodHeap, HeapFault};
ghost use Rattle.g1_image.specs.Checks.{AreShapedStarts, HeapMayFail};

use crate::draft::Draft;
use crate::refs::check_roots;
use crate::starts::{shaped_starts, shaped_starts_by};
use crate::strays::{check_slots, check_slots_by};
use g1_words::{Fault, Marks};
use std::alloc::Global;
use std::thread::Threads;

/// Returns the first fault of a heap's references: its roots are checked before its slots.
fn check_references(draft: &Draft, marks: &Marks) -> Result<(), Fault>
    requires { AreShapedStarts draft.now marks.now }
    ensures ok { OnOk result (IsGoodHeap draft.now) }
    ensures err { IfErr result (HeapFault draft.now) }
{
    check_roots(draft, marks)?;
    check_slots(draft, marks)
}

/// Returns the first fault of a heap's regions and references.
pub(crate) fn check_heap(alloc: Global, draft: &Draft) -> Result<(), Fault>
    ensures ok { OnOk result (IsGoodHeap draft.now) }
    ensures err { IfErr result (HeapMayFail draft.now) }
{
    let marks = shaped_starts(alloc, draft)?;
    check_references(draft, &marks)
}

/// As `check_heap`, with this many workers at most. One if it is 0.
pub(crate) fn check_heap_by(
    rt: &(impl Threads + Sync),
    alloc: Global,
    draft: &Draft,
    workers: u64,
) -> Result<(), Fault>
    ensures ok { OnOk result (IsGoodHeap draft.now) }
    ensures err { IfErr result (HeapMayFail draft.now) }
{
    let marks = shaped_starts_by(rt, alloc, draft, workers)?;
    check_roots(draft, &marks)?;
    check_slots_by(rt, alloc, draft, &marks, workers)
}
