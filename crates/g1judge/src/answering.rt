ghost use Rattle.std.specs.Prelude.{◌≡◌};
ghost use Rattle.g1judge.specs.Answered.{status_of, place_of, at_of, nothing, answer_fault, numbers, answer_how, answer_difference, answer_stale, answer_loss, answer_of, path_of, written};

use crate::answer::Answer;
use crate::verdict::Verdict;
use g1_kept::Lost;
use g1_same::{Difference, Ends, How, StaleEnd};
use g1_words::{Fault, Place, Stand};

// The status of a verdict.
fn status(verdict: &Verdict) -> u32
    ensures { result ≡ status_of verdict.now }
{
    match verdict {
        Verdict::Good | Verdict::Same { .. } => 0,
        Verdict::Differ { .. } => 1,
        Verdict::Stale(_) => 1,
        Verdict::Loss(_) => 1,
        Verdict::NoImage { .. } => 3,
        Verdict::Uncovered(_) => 4,
        Verdict::NoSet(_) => 5,
        Verdict::Memory => 6,
    }
}

// What a fault names, and its number.
fn place(fault: &Fault) -> (u32, u64)
    ensures place { result.0 ≡ place_of fault.now }
    ensures at { result.1 ≡ at_of fault.now }
{
    match fault {
        Fault::Kind(region) | Fault::Shape(region) | Fault::Flags(region) => {
            (1, u64::from(*region))
        }
        Fault::Reference(Place::Root(index)) => (2, u64::from(*index)),
        Fault::Reference(Place::Slot(address)) => (3, *address),
        Fault::Card(Stand::Dirty(index)) => (4, u64::from(*index)),
        Fault::Card(Stand::Region(region)) => (1, u64::from(*region)),
        Fault::Uncovered(address) => (3, *address),
        Fault::Set(region) => (1, u64::from(*region)),
        Fault::Magic
        | Fault::Geometry
        | Fault::Short
        | Fault::Trailing
        | Fault::Room { .. }
        | Fault::Settings(_)
        | Fault::Memory
        | Fault::Device(_)
        | Fault::Line(_) => (0, 0),
    }
}

fn no_answer() -> Answer
    ensures { result ≡ nothing }
{
    Answer {
        image: 0,
        fault: 0,
        place: 0,
        kind: 0,
        at: 0,
        root: 0,
        slots: 0,
        before: 0,
        after: 0,
        first: 0,
        second: 0,
        third: 0,
        objects: 0,
        words: 0,
    }
}

fn of_fault(image: u32, fault: &Fault) -> Answer
    ensures { result ≡ answer_fault image fault.now }
{
    let (place, at) = place(fault);
    Answer {
        image,
        fault: u32::from(fault.number()),
        place,
        at,
        ..no_answer()
    }
}

fn of_numbers(kind: u32, first: u64, second: u64, third: u64) -> Answer
    ensures { result ≡ numbers kind first second third }
{
    Answer {
        kind,
        first,
        second,
        third,
        ..no_answer()
    }
}

fn of_how(how: &How, ends: &Ends) -> Answer
    ensures { result ≡ answer_how how.now ends.now }
{
    match how {
        How::NullBefore => of_numbers(2, 0, 0, 0),
        How::NullAfter => of_numbers(3, 0, 0, 0),
        How::Split {
            object,
            first,
            second,
        } => of_numbers(4, *object, *first, *second),
        How::Joined {
            first,
            second,
            object,
        } => of_numbers(5, *first, *second, *object),
        How::Size { before, after } => of_numbers(6, *before, *after, 0),
        How::Slots { before, after } => of_numbers(7, *before, *after, 0),
        How::Data { word } => of_numbers(8, *word, ends.word_before, ends.word_after),
    }
}

fn of_difference(difference: &Difference, ends: &Ends) -> Answer
    ensures { result ≡ answer_difference difference.now ends.now }
{
    match difference {
        Difference::Roots { before, after } => of_numbers(1, *before, *after, 0),
        Difference::At { root, slots, how } => Answer {
            root: *root,
            slots: slots.len() as u64,
            before: ends.before,
            after: ends.after,
            ..of_how(how, ends)
        },
    }
}

fn of_stale(end: &StaleEnd) -> Answer
    ensures { result ≡ answer_stale end.now }
{
    Answer {
        kind: 20,
        root: end.root,
        slots: end.slots.len() as u64,
        before: end.before,
        after: end.word,
        ..no_answer()
    }
}

fn of_loss(loss: &Lost) -> Answer
    ensures { result ≡ answer_loss loss.now }
{
    match loss {
        Lost::Sizes => of_numbers(9, 0, 0, 0),
        Lost::Roots => of_numbers(10, 0, 0, 0),
        Lost::Set(region) => of_numbers(11, u64::from(*region), 0, 0),
        Lost::Region(region) => of_numbers(12, u64::from(*region), 0, 0),
        Lost::Unpinned(region) => of_numbers(13, u64::from(*region), 0, 0),
        Lost::Pinned(region) => of_numbers(14, u64::from(*region), 0, 0),
        Lost::Root(index) => of_numbers(15, *index, 0, 0),
        Lost::Copy { before, after } => of_numbers(16, *before, *after, 0),
        Lost::Header { before, after } => of_numbers(17, *before, *after, 0),
        Lost::Data {
            before,
            after,
            word,
        } => of_numbers(18, *before, *after, *word),
        Lost::Slot {
            before,
            after,
            slot,
        } => of_numbers(19, *before, *after, *slot),
    }
}

fn answer_to(verdict: &Verdict) -> Answer
    ensures { result ≡ answer_of verdict.now }
{
    match verdict {
        Verdict::Good => no_answer(),
        Verdict::Same { objects, words } => Answer {
            objects: *objects,
            words: *words,
            ..no_answer()
        },
        Verdict::Differ { difference, ends } => of_difference(difference, ends),
        Verdict::Stale(end) => of_stale(end),
        Verdict::NoImage { image, fault } => of_fault(*image, fault),
        Verdict::Uncovered(slot) => of_fault(1, &Fault::Uncovered(*slot)),
        Verdict::Loss(loss) => of_loss(loss),
        Verdict::NoSet(region) => of_fault(1, &Fault::Set(*region)),
        Verdict::Memory => of_fault(0, &Fault::Memory),
    }
}

// The slots of the path to a difference or to a stale word.
fn path(verdict: &Verdict) -> &[u64]
    ensures { result.now ≡ path_of verdict.now }
{
    match verdict {
        Verdict::Differ {
            difference: Difference::At { slots, .. },
            ..
        } => slots.as_slice(),
        Verdict::Stale(end) => end.slots.as_slice(),
        _ => &[],
    }
}

/// Writes as much of a text as there is room for.
pub fn copy_text(text: &[u8], buffer: &mut [u8])
    ensures { buffer.new ≡ written text.now buffer.old }
{
    let count = text.len().min(buffer.len());
    buffer[..count].copy_from_slice(&text[..count]);
}

// Writes as many slots as there is room for.
fn copy(slots: &[u64], buffer: &mut [u64])
    ensures { buffer.new ≡ written slots.now buffer.old }
{
    let count = slots.len().min(buffer.len());
    buffer[..count].copy_from_slice(&slots[..count]);
}

/// Writes the path of a verdict, as far as there is room, and its answer. Returns its status.
pub fn say(verdict: &Verdict, buffer: &mut [u64], answer: &mut Answer) -> u32
    ensures status { result ≡ status_of verdict.now }
    ensures answer { answer.new ≡ answer_of verdict.now }
    ensures path { buffer.new ≡ written (path_of verdict.now) buffer.old }
{
    copy(path(verdict), buffer);
    *answer = answer_to(verdict);
    status(verdict)
}
