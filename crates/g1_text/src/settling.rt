ghost use Rattle.std.specs.Prelude.{◌≡◌, Ok, IfErr, OnOk};
ghost use Rattle.g1_text.specs.Content.{Agrees, CountsAgree};
ghost use Rattle.g1_text.specs.Counted.{HeadingAgrees, IsCurrentOrdinary};
ghost use Rattle.g1_text.specs.Drafts.{content, counts_of, numbers};
ghost use Rattle.g1_text.specs.Late.{IsLate};
ghost use Rattle.g1_text.specs.Refused.{IsLineOrMemory};

use crate::draft::{Draft, Told};
use crate::expected::{Expected, Wrong};
use crate::reading::follows;
use g1_words::Region;

/// Finds that the lines agree with what was read: counts, tops, objects, and the current region.
pub(crate) fn settle(draft: &Draft) -> Result<(), Wrong>
    ensures ok { Agrees (content draft.now) → result ≡ Ok tt }
    ensures only { OnOk result (Agrees (content draft.now)) }
    ensures fault { IfErr result IsLineOrMemory }
    ensures late { IfErr result (IsLate (numbers draft.now) (content draft.now)) }
{
    if let Err(expected) = settle_heading(draft) {
        let number = draft.lines.heading.line;
        return Err(Wrong::Line { number, expected });
    }
    for told in &draft.lines.regions {
        if let Err(expected) = settle_region(draft, told) {
            let number = told.line;
            return Err(Wrong::Line { number, expected });
        }
    }
    Ok(())
}

fn settle_heading(draft: &Draft) -> Result<(), Expected>
    ensures ok { Agrees (content draft.now) → result ≡ Ok tt }
    ensures all { HeadingAgrees (content draft.now) → result ≡ Ok tt }
    ensures only { OnOk result (HeadingAgrees (content draft.now)) }
{
    let heading = draft.lines.heading;
    follows(heading.roots, "roots", draft.roots.len() as u64)?;
    follows(heading.dirty, "dirty", draft.log.len() as u64)?;
    settle_current(draft)
}

// The current region is an ordinary one.
fn settle_current(draft: &Draft) -> Result<(), Expected>
    ensures ok { IsCurrentOrdinary (content draft.now) → result ≡ Ok tt }
    ensures only { OnOk result (IsCurrentOrdinary (content draft.now)) }
{
    let Some(current) = draft.current else {
        return Ok(());
    };
    match draft.regions.get(current as usize) {
        Some(region) if region.kind.is_ordinary() => Ok(()),
        _ => Err(Expected::Current),
    }
}

fn settle_region(draft: &Draft, told: &Told) -> Result<(), Expected>
    ensures ok { CountsAgree (content draft.now) (counts_of told.now) → result ≡ Ok tt }
    ensures only { OnOk result (CountsAgree (content draft.now) (counts_of told.now)) }
{
    let Some(Region { kind, top, .. }) = draft.regions.get(told.region) else {
        return Err(Expected::NoRegion);
    };
    if kind.may_hold_cards() && told.found == 0 {
        return Err(Expected::Object);
    }
    let cards = match draft.remembered.get(told.region) {
        Some(set) => set.len(),
        None => 0,
    };
    follows(told.top, "top", u64::from(*top))?;
    follows(told.objects, "objects", told.found)?;
    follows(told.cards, "cards", cards as u64)
}
