ghost use Rattle.std.specs.Prelude.{◌≡◌, IfOk, IfErr, IfSome, IfNone};
ghost use Rattle.g1_image.specs.Image.{IsTextWithin};
ghost use Rattle.g1_image.specs.Faults.{FaultWithin};
ghost use Rattle.g1_same.specs.Behind.{AreByPlace};
ghost use Rattle.g1judge.specs.Judged.{JudgesPair, JudgesImage, JudgesCover, JudgesKept, JudgesImages, JudgesSlots, JudgesLoss, JudgesSet, IsUnread, AreUnread, JudgesStale, JudgesAfter};
ghost use Rattle.g1judge.specs.Stale.{HidesStale};

use crate::counting::words;
use crate::verdict::Verdict;
use g1_choose::given;
use g1_image::{Image, decode_stale, decode_within};
use g1_kept::kept;
use g1_rem::first_uncovered;
use g1_same::{Earliest, StaleWords, compare, compare_stale, ends_of};
use g1_words::{Fault, Heap, Limits, Place};
use std::alloc::Global;

// Bytes that were not read to an image: their fault, or a request for memory that was refused.
fn unread(image: u32, fault: Fault) -> Verdict
    ensures { IsUnread image fault result }
{
    match fault {
        Fault::Memory => Verdict::Memory,
        _ => Verdict::NoImage { image, fault },
    }
}

// The images of two byte strings. The first is looked at first.
fn read_images(alloc: Global, before: &[u8], after: &[u8]) -> Result<(Image, Image), Verdict>
    ensures before { IfOk result (λ r. IsTextWithin Limits.Wide before.now r.0) }
    ensures after { IfOk result (λ r. IsTextWithin Limits.Wide after.now r.1) }
    ensures unread { IfErr result (λ v. AreUnread before.now after.now v) }
{
    match decode_within(alloc, Limits::Wide, before) {
        Err(fault) => Err(unread(1, fault)),
        Ok(old) => match decode_within(alloc, Limits::Wide, after) {
            Err(fault) => Err(unread(2, fault)),
            Ok(new) => Ok((old, new)),
        },
    }
}

// What two images are to each other.
fn judge_images(alloc: Global, before: &Image, after: &Image) -> Verdict
    ensures { JudgesImages before.now after.now result }
{
    let (old, new) = (before.heap(), after.heap());
    match compare(alloc, old, new) {
        Err(_) => Verdict::Memory,
        Ok(Ok(renaming)) => Verdict::Same {
            objects: renaming.before.len() as u64,
            words: words(old, renaming.before.as_slice()),
        },
        Ok(Err(difference)) => {
            let ends = ends_of(old, new, &difference);
            Verdict::Differ { difference, ends }
        }
    }
}

// What a heap is to one with these stale words. None if they show one graph, and no path leads to a stale word.
fn judge_stale_words(
    alloc: Global,
    before: &Heap,
    after: &Heap,
    stale: &StaleWords<'_>,
) -> Option<Verdict>
    requires { AreByPlace stale.now }
    ensures some { IfSome result (λ v. JudgesStale before.now after.now stale.now.roots.now stale.now.slots.now v) }
    ensures none { IfNone result (HidesStale before.now after.now stale.now.roots.now stale.now.slots.now) }
{
    match compare_stale(alloc, before, after, stale) {
        Err(_) => Some(Verdict::Memory),
        Ok(None) => None,
        Ok(Some(Earliest::Stale(end))) => Some(Verdict::Stale(end)),
        Ok(Some(Earliest::Differ(difference))) => {
            let ends = ends_of(before, after, &difference);
            Some(Verdict::Differ { difference, ends })
        }
    }
}

// Second bytes that are refused for a word that references no object.
fn refused(place: Place) -> Verdict
    ensures { result ≡ Verdict.NoImage 2 (Fault.Reference place) }
{
    Verdict::NoImage {
        image: 2,
        fault: Fault::Reference(place),
    }
}

// What an image is to bytes that have this fault: their stale words are differences, if they have no other fault and a
// path leads to a difference.
fn judge_stale(alloc: Global, before: &Image, after: &[u8], place: Place) -> Verdict
    requires { FaultWithin Limits.Wide after.now (Fault.Reference place) }
    ensures { JudgesAfter before.now after.now result }
{
    match decode_stale(alloc, Limits::Wide, after) {
        Ok((new, stale)) => {
            let words = StaleWords {
                roots: stale.roots.as_slice(),
                slots: stale.slots.as_slice(),
            };
            match judge_stale_words(alloc, before.heap(), new.heap(), &words) {
                Some(verdict) => verdict,
                None => refused(place),
            }
        }
        Err(fault) => {
            if let Fault::Memory = fault {
                return Verdict::Memory;
            }
            refused(place)
        }
    }
}

// What an image is to the one of these bytes.
#[tactic(auto, using(crate::proofs::Texts::images_judged, crate::proofs::Texts::reference_fault, crate::proofs::Texts::unread_judged))]
fn judge_after(alloc: Global, before: &Image, after: &[u8]) -> Verdict
    ensures { JudgesAfter before.now after.now result }
{
    match decode_within(alloc, Limits::Wide, after) {
        Ok(new) => judge_images(alloc, before, &new),
        Err(Fault::Reference(place)) => judge_stale(alloc, before, after, place),
        Err(fault) => unread(2, fault),
    }
}

/// What two byte strings are to each other. The first is looked at first.
#[tactic(auto, using(crate::proofs::Texts::texts_judged, crate::proofs::Texts::first_judged))]
pub fn judge_pair(alloc: Global, before: &[u8], after: &[u8]) -> Verdict
    ensures { JudgesPair before.now after.now result }
{
    let old = match decode_within(alloc, Limits::Wide, before) {
        Err(fault) => return unread(1, fault),
        Ok(old) => old,
    };
    judge_after(alloc, &old, after)
}

/// Whether bytes are an image's text.
pub fn judge_image(alloc: Global, bytes: &[u8]) -> Verdict
    ensures { JudgesImage bytes.now result }
{
    match decode_within(alloc, Limits::Wide, bytes) {
        Err(fault) => unread(1, fault),
        Ok(_) => Verdict::Good,
    }
}

// Whether each slot of an image is covered.
fn judge_slots(alloc: Global, image: &Image) -> Verdict
    ensures { JudgesSlots image.now result }
{
    match first_uncovered(alloc, image) {
        Err(_) => Verdict::Memory,
        Ok(None) => Verdict::Good,
        Ok(Some(slot)) => Verdict::Uncovered(slot),
    }
}

/// Whether bytes are the text of an image each of whose slots is covered.
pub fn judge_cover(alloc: Global, bytes: &[u8]) -> Verdict
    ensures { JudgesCover bytes.now result }
{
    match decode_within(alloc, Limits::Wide, bytes) {
        Err(fault) => unread(1, fault),
        Ok(image) => judge_slots(alloc, &image),
    }
}

// What one heap keeps of another one, if a pause took these regions.
fn judge_loss(alloc: Global, before: &Heap, after: &Heap, set: &[u32]) -> Verdict
    ensures { JudgesLoss set.now before.now after.now result }
{
    match kept(alloc, before, after, set, false) {
        Err(_) => Verdict::Memory,
        Ok(Ok(())) => Verdict::Good,
        Ok(Err(lost)) => Verdict::Loss(lost),
    }
}

// The same of two images. The set has to be one that the first allows.
fn judge_set(alloc: Global, before: &Image, after: &Image, set: &[u32]) -> Verdict
    ensures { JudgesSet before.now after.now set.now result }
{
    match given(alloc, before.heap(), set) {
        Err(Fault::Set(region)) => return Verdict::NoSet(region),
        Err(_) => return Verdict::Memory,
        Ok(_) => (),
    }
    judge_loss(alloc, before.heap(), after.heap(), set)
}

/// Whether the second of two byte strings is the text of an image that keeps what a pause of these
/// regions of the first keeps. The first is looked at first, and the set last.
#[tactic(auto, using(crate::proofs::Texts::texts_kept, crate::proofs::Texts::unread_kept))]
pub fn judge_kept(alloc: Global, before: &[u8], after: &[u8], set: &[u32]) -> Verdict
    ensures { JudgesKept before.now after.now set.now result }
{
    match read_images(alloc, before, after) {
        Err(verdict) => verdict,
        Ok((old, new)) => judge_set(alloc, &old, &new, set),
    }
}
