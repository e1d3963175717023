//! What a pause writes, its totals, and its refusal.
ghost use Rattle.std.specs.Prelude.{◌*◌, ◌≡◌, ◌≢◌, ◌++◌, Some, length, filter, string_bytes, OnOk, IfOk, IfErr};
ghost use Rattle.g1_words.specs.Heap.{is_free};
ghost use Rattle.g1_text.specs.Lines.{line_text, further, text_of};
ghost use Rattle.g1_explain.specs.Places.{within_64};
ghost use Rattle.g1_explain.specs.Totals.{room_line, refusal_lines, totals_line, counts_words};

use crate::changes::free_count;
use g1_copy::Prepared;
use g1_layout::Plan;
use g1_words::{Fault, Heap};
use std::alloc::AllocError;

/// What a pause writes, and what of it is counted.
#[derive(Drop)]
pub(crate) struct Written<'a> {
    pub(crate) plan: &'a Plan,
    pub(crate) prepared: &'a Prepared,
    /// How many cards lead into the set.
    pub(crate) cards: usize,
    /// How many slots are patched.
    pub(crate) slots: usize,
}

/// Adds the line of the regions that the survivors need.
pub(crate) fn push_room(text: &mut String, need: u64, free: u64) -> Result<(), AllocError>
    ensures { OnOk result (string_bytes text.new ≡ string_bytes text.old ++ line_text (room_line need free)) }
{
    writeln!(text, "room need {need} free {free}")
}

/// Adds the refusal of a pause, and returns its fault. Running out of memory is none.
pub(crate) fn push_refusal(text: &mut String, fault: Fault) -> Result<Option<Fault>, Fault>
    ensures lines { OnOk result (string_bytes text.new ≡ string_bytes text.old ++ text_of (refusal_lines fault)) }
    ensures fault { IfOk result (λ o. o ≡ Some fault) }
    ensures no_memory { IfOk result (λ _. fault ≢ Fault.Memory) }
    ensures memory { IfErr result (λ e. e ≡ Fault.Memory) }
{
    if fault == Fault::Memory {
        return Err(fault);
    }
    if let Fault::Room { need, free } = fault {
        push_room(text, need, free)?;
    }
    let number = fault.number();
    writeln!(text, "refused fault {number}: {fault}")?;
    Ok(Some(fault))
}

/// Adds the line of the totals: what the pause collects, moves and writes.
pub(crate) fn push_totals(
    text: &mut String,
    heap: &Heap,
    written: &Written<'_>,
) -> Result<(), AllocError>
    ensures { OnOk result (string_bytes text.new ≡ string_bytes text.old ++ line_text (totals_line (length written.now.plan.now.set) (length written.now.prepared.now.humongous) (length written.now.plan.now.survivors) (within_64 (written.now.plan.now.words * 8)) (counts_words written.now.cards written.now.slots (length (filter (λ q. is_free q.kind) heap.now.regions)) (length (filter (λ q. is_free q.kind) written.now.prepared.now.regions))))) }
{
    let regions = written.plan.set().len();
    let humongous = written.prepared.humongous().len();
    let objects = written.plan.survivors().len();
    let bytes = written.plan.words().saturating_mul(8);
    write!(text, "pause regions {regions} humongous {humongous}")?;
    write!(text, " objects {objects} bytes {bytes}")?;
    push_counts(text, heap, written)
}

// Ends the line of the totals with what is counted: cards, slots, and free regions before and after.
fn push_counts(text: &mut String, heap: &Heap, written: &Written<'_>) -> Result<(), AllocError>
    ensures { OnOk result (string_bytes text.new ≡ string_bytes text.old ++ further (counts_words written.now.cards written.now.slots (length (filter (λ q. is_free q.kind) heap.now.regions)) (length (filter (λ q. is_free q.kind) written.now.prepared.now.regions)))) }
{
    let (cards, slots) = (written.cards, written.slots);
    let before = free_count(heap.regions());
    let after = free_count(written.prepared.regions());
    writeln!(text, " cards {cards} slots {slots} free {before} {after}")
}
