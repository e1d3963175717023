ghost use Rattle.std.specs.Prelude.{◌≡◌, ◌<◌, ℕ, List, None, Some, false, true, length, slice_index, IfOk, IfErr, OnOk, MatchResult};
ghost use Rattle.g1_image.specs.Image.{Image as ImageOf, IsImage, IsImageTextWithin, IsTextIn};
ghost use Rattle.g1_image.specs.declared.cursor.Version.TheVariants.{Two};
ghost use Rattle.g1_image.specs.Parts.{CountsFit};
ghost use Rattle.g1_text.specs.Lines.{image_text};
ghost use Rattle.g1_text.specs.Reading.{HasLines};
ghost use Rattle.g1_text.specs.Forms.{ImageHeading, ImageLine, HasMeaning};
ghost use Rattle.g1_text.specs.Content.{Content, IsClosed, IsContentOf, SaysAll, SaysImage, file_with};
ghost use Rattle.g1_text.specs.Short.{TellsAll, TellsImage, Closes};
ghost use Rattle.g1_text.specs.Counted.{IsMadeOf};
ghost use Rattle.g1_text.specs.Covered.{IsToldBy};
ghost use Rattle.g1_text.specs.Drafts.{AreAsMany, StandsInHeap, content, numbers};
ghost use Rattle.g1_text.specs.FaultLines.{IsLineBelow, IsSetLine};
ghost use Rattle.g1_text.specs.Late.{IsLate, IsLateCovered, NoneRemembered};
ghost use Rattle.g1_text.specs.Refused.{IsAtLine, IsLineOrMemory};
ghost use Rattle.g1_text.specs.Reported.{Reports};

use crate::covering::cover;
use crate::draft::Draft;
use crate::expected::{Expected, Wrong};
use crate::packing::{check_bytes, pack};
use crate::reading::read;
use crate::settling::settle;
use g1_words::{Fault, Limits, Place, Stand};
use std::alloc::Global;

/// The bytes of the image that lines describe.
///
/// # Errors
///
/// The first line that is not what is expected there, by its number, and what is expected. What
/// follows only from all lines, as a count or a reference to an object further down, is looked at
/// when all have been read. `Fault::Memory` else.
pub fn make(alloc: Global, text: &[u8]) -> Result<Vec<u8>, Wrong>
    ensures image { IfOk result (λ v. IsImageTextWithin Limits.Wide v.items) }
    ensures fault { IfErr result IsLineOrMemory }
    ensures whole { (i : ImageOf) → IsImage i → text.now ≡ image_text i → MatchResult result (λ v. IsTextIn Two v.items i) (λ e. e ≡ Wrong.Fault Fault.Memory) }
    ensures says { (i : ImageOf) → SaysImage text.now i → MatchResult result (λ v. IsTextIn Two v.items i) (λ e. e ≡ Wrong.Fault Fault.Memory) }
    ensures tells { (i : ImageOf) → TellsImage text.now i → MatchResult result (λ v. IsTextIn Two v.items i) (λ e. e ≡ Wrong.Fault Fault.Memory) }
    ensures only { (lines : List (List (List ℕ))) (c : Content) → HasLines text.now lines → SaysAll None lines (Some c) → IsClosed c → CountsFit (file_with c) → IfOk result (λ v. IsMadeOf c v.items) }
    ensures counted { (lines : List (List (List ℕ))) (told c : Content) → HasLines text.now lines → TellsAll None lines (Some told) → Closes told c → c.covered ≡ false → CountsFit (file_with c) → IfOk result (λ v. IsMadeOf c v.items) }
    ensures alone { (lines : List (List (List ℕ))) (told c : Content) → HasLines text.now lines → TellsAll None lines (Some told) → Closes told c → c.covered ≡ true → OnOk result (NoneRemembered c) }
    ensures known { OnOk result (HasMeaning ImageHeading ImageLine text.now) }
    ensures reports { IfErr result (Reports text.now) }
{
    let mut draft = read(alloc, text)?;
    finish(alloc, &mut draft)
}

// Settles what was read, and packs it into bytes that are an image's.
fn finish(alloc: Global, draft: &mut Draft) -> Result<Vec<u8>, Wrong>
    ensures image { IfOk result (λ v. IsImageTextWithin Limits.Wide v.items) }
    ensures fault { IfErr result IsLineOrMemory }
    ensures text { (i : ImageOf) → IsToldBy (content draft.old) i → MatchResult result (λ v. IsTextIn Two v.items i) (λ e. e ≡ Wrong.Fault Fault.Memory) }
    ensures only { draft.old.covered ≡ false → CountsFit (file_with (content draft.old)) → IfOk result (λ v. IsMadeOf (content draft.old) v.items) }
    ensures alone { draft.old.covered ≡ true → OnOk result (NoneRemembered (content draft.old)) }
    ensures covered { draft.old.covered ≡ true → AreAsMany (numbers draft.old) (content draft.old) → StandsInHeap (content draft.old) → IfErr result (IsLateCovered (numbers draft.old) (content draft.old)) }
    ensures late { draft.old.covered ≡ false → AreAsMany (numbers draft.old) (content draft.old) → StandsInHeap (content draft.old) → IfErr result (IsLate (numbers draft.old) (content draft.old)) }
{
    if draft.covered {
        cover(draft)?;
        // The sets stand there now, as if lines had told them.
        draft.covered = false;
    }
    check_and_pack(alloc, draft)
}

fn check_and_pack(alloc: Global, draft: &Draft) -> Result<Vec<u8>, Wrong>
    ensures image { IfOk result (λ v. IsImageTextWithin Limits.Wide v.items) }
    ensures fault { IfErr result IsLineOrMemory }
    ensures text { (i : ImageOf) → IsContentOf (content draft.now) i → MatchResult result (λ v. IsTextIn Two v.items i) (λ e. e ≡ Wrong.Fault Fault.Memory) }
    ensures only { CountsFit (file_with (content draft.now)) → IfOk result (λ v. IsMadeOf (content draft.now) v.items) }
    ensures late { AreAsMany (numbers draft.now) (content draft.now) → StandsInHeap (content draft.now) → IfErr result (IsLate (numbers draft.now) (content draft.now)) }
{
    settle(draft)?;
    let bytes = pack(alloc, draft)?;
    match check_bytes(alloc, bytes.as_slice()) {
        Ok(()) => Ok(bytes),
        Err(fault) => Err(trace(draft, fault)),
    }
}

// Traces a fault of the bytes to the line that it comes from: the heading, if it is no other's.
fn trace(draft: &Draft, fault: Fault) -> Wrong
    ensures memory { fault ≡ Fault.Memory → result ≡ Wrong.Fault Fault.Memory }
    ensures line { IsLineOrMemory result }
    ensures dirty { (n : ℕ) → fault ≡ Fault.Card (Stand.Dirty n) → n < length (numbers draft.now).log → IsAtLine result (slice_index (numbers draft.now).log n) }
    ensures region { (r : ℕ) → fault ≡ Fault.Card (Stand.Region r) → (n : ℕ) × IsSetLine (numbers draft.now) r n × IsAtLine result n }
    ensures slot { (p : ℕ) → fault ≡ Fault.Reference (Place.Slot p) → (n : ℕ) × IsLineBelow (numbers draft.now) (content draft.now).addresses p n × IsAtLine result n }
    ensures root { (n : ℕ) → fault ≡ Fault.Reference (Place.Root n) → n < length (numbers draft.now).roots → IsAtLine result (slice_index (numbers draft.now).roots n) }
{
    let lines = &draft.lines;
    let heading = lines.heading.line;
    match fault {
        Fault::Memory => Wrong::Fault(fault),
        Fault::Reference(Place::Root(root)) => at(
            &lines.roots,
            root as usize,
            heading,
            Expected::Root,
        ),
        Fault::Reference(Place::Slot(slot)) => slot_line(draft, slot),
        Fault::Card(Stand::Dirty(place)) => at(
            &lines.log,
            place as usize,
            heading,
            Expected::Dirty,
        ),
        Fault::Card(Stand::Region(region)) => Wrong::Line {
            number: set_line(draft, u64::from(region)),
            expected: Expected::Cards,
        },
        // No lines are known to reach another fault, once they are read and settled.
        _ => Wrong::Line {
            number: heading,
            expected: Expected::Sizes,
        },
    }
}

// The last line that tells remembered cards of this region, or the heading if none does.
pub(crate) fn set_line(draft: &Draft, region: u64) -> u64
    ensures { IsSetLine (numbers draft.now) region result }
{
    let mut number = draft.lines.heading.line;
    for told in &draft.lines.remembered {
        if told.0 == region {
            number = told.1;
        }
    }
    number
}

// What is expected in the line of this place, or in the heading if there is none.
fn at(lines: &[u64], place: usize, heading: u64, expected: Expected) -> Wrong
    ensures line { IsLineOrMemory result }
    ensures there { place < length lines.now → IsAtLine result (slice_index lines.now place) }
{
    let number = match lines.get(place) {
        Some(number) => *number,
        None => heading,
    };
    Wrong::Line { number, expected }
}

// The line of the object that a slot belongs to: the last one below the slot.
fn slot_line(draft: &Draft, slot: u64) -> Wrong
    ensures line { IsLineOrMemory result }
    ensures object { (n : ℕ) × IsLineBelow (numbers draft.now) (content draft.now).addresses slot n × IsAtLine result n }
{
    let mut number = draft.lines.heading.line;
    let mut expected = Expected::Sizes;
    for object in &draft.objects {
        if object.at < slot {
            number = object.line;
            expected = Expected::Slot(slot - object.at - 1);
        }
    }
    Wrong::Line { number, expected }
}
