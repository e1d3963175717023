//! Whether two files have one heap, and what else is asked of them.
ghost use Rattle.std.specs.Prelude.{◌≡◌, ◌≢◌, ℕ, List, codes, Option, true, option_map, IfOk, IfErr, IfSome};
ghost use Rattle.std.specs.Io.KnownBytes.{Appends};
ghost use Rattle.g1_image.specs.Dirty.{dirtied};
ghost use Rattle.g1_report.specs.Program.{program_of, AreInOrder};
ghost use Rattle.g1_report.specs.Answer.{IsInOrder};
ghost use Rattle.g1_report.specs.Finding.{IsRefusal};
ghost use Rattle.g1_report.specs.Shared.{SharesTexts};
ghost use Rattle.g1heap_cli.specs.Leaving.{Grows};
ghost use Rattle.g1heap_cli.specs.Young.{LacksYoung, young_cards};
ghost use Rattle.g1heap_cli.specs.SameSuits.{AsksSetOfLines, AsksCardsOfLines, AsksMovesOfOne, Suits};
ghost use Rattle.g1heap_cli.specs.SameReplies.{IsSideOf, AreProgramNames, IsCoveredBeside, IsSameText};
ghost use Rattle.g1heap_cli.specs.SameReasons.{RefusesSide, RefusesWrong, RefusesOption, cards_option, RefusesMoves, RefusesTexts, RefusesAsked, RefusesReport, IsCoverFault, LacksCover, LacksCoverBeside, RefusesSides, RefusesAfter, RefusesSame, OrOutput};
ghost use Rattle.g1heap_cli.specs.SamePassed.{TakesSaid, TakesCover, TakesReply};

use crate::files::{SideContent, read_side};
use crate::mapping::read_names;
use crate::refusal::{
    not_for_both, not_for_lines, of_cover, of_heap, of_stale, one_hash, refuse_lines,
};
use crate::young::with_young;
use g1_command::Refusal;
use g1_image::Image;
use g1_rem::verify;
use g1_report::{
    Asked, Lines, Names, Refused, Side, open_image, open_lines, open_stale, report, shared_text,
};
use g1_text::Wrong;
use g1_words::Fault;
use g1heap_request::Same;
use std::alloc::Global;
use std::io::Read;
use std::rt::Files;
use std::thread::Threads;

// A comparison to make.
#[derive(Drop)]
struct Job<'a, T> {
    rt: &'a T,
    alloc: Global,
    same: &'a Same,
}

/// Adds the lines for two files to the answer, and returns the status: 1 if they differ. The file before is refused for
/// its words before the file after is read.
pub fn compare_files<T: Threads + Sync + Files, R: Read, L: Lines>(
    rt: &T,
    alloc: Global,
    same: &Same,
    reader: &mut R,
    answer: &mut L,
) -> Result<u8, Refusal>
    ensures text { IfOk result (λ s. (text : List ℕ) × IsSameText same.now (R.remaining reader.old) s text × Appends (L.taken answer.old) (L.taken answer.new) text) }
    ensures refused { IfErr result (OrOutput (RefusesSame same.now (R.remaining reader.old))) }
    ensures grown { Grows (L.taken answer.old) (L.taken answer.new) }
{
    let job = Job { rt, alloc, same };
    let mut lines = Vec::new(alloc);
    let before = match read_and_open(&job, same.before.as_str(), reader, &mut lines) {
        Ok(before) => before,
        Err(refusal) => return Err(refusal),
    };
    if let Some(strays) = &before.stale {
        let name = same.before.as_str();
        return Err(refuse_stale(alloc, name, &before, strays.wrong));
    }
    compare_to_after(&job, &before, reader, answer)
}

fn compare_to_after<T: Threads + Sync + Files, R: Read, L: Lines>(
    job: &Job<'_, T>,
    before: &Side<'_>,
    reader: &mut R,
    answer: &mut L,
) -> Result<u8, Refusal>
    requires { IsInOrder before.now }
    ensures text { IfOk result (λ s. TakesReply job.now.same.now (R.remaining reader.old) before.now s (L.taken answer.old) (L.taken answer.new)) }
    ensures refused { IfErr result (OrOutput (RefusesAfter job.now.same.now before.now (R.remaining reader.old))) }
    ensures grown { Grows (L.taken answer.old) (L.taken answer.new) }
{
    let mut lines = Vec::new(job.alloc);
    let after = match read_and_open(job, job.same.after.as_str(), reader, &mut lines) {
        Ok(after) => after,
        Err(refusal) => return Err(refusal),
    };
    match compare_asked(job, before, &after, reader, answer) {
        Ok(status) => add_cover(job, status, after, answer),
        Err(refusal) => Err(refusal),
    }
}

// Reads a file and opens it. Its lines are kept where the side borrows their names.
fn read_and_open<'a, T: Files, R: Read>(
    job: &Job<'_, T>,
    name: &str,
    reader: &mut R,
    lines: &'a mut Vec<u8>,
) -> Result<Side<'a>, Refusal>
    ensures side { IfOk result (IsSideOf job.now.same.now.limits name.now (R.remaining reader.old)) }
    ensures refused { IfErr result (RefusesSide job.now.same.now.limits name.now (R.remaining reader.old)) }
    ensures left { name.now ≢ codes "-" → R.remaining reader.new ≡ R.remaining reader.old }
{
    let alloc = job.alloc;
    match read_side(job.rt, alloc, name, job.same.limits, reader) {
        Ok(SideContent::Lines(bytes)) => {
            *lines = bytes;
            match open_lines(alloc, lines.as_slice()) {
                Ok(side) => Ok(side),
                Err(wrong) => Err(refuse_lines(alloc, name, lines.as_slice(), wrong)),
            }
        }
        Ok(SideContent::Image(image)) => Ok(open_image(alloc, image)),
        Ok(
            SideContent::Stale {
                image,
                stale,
                fault,
            },
        ) => Ok(open_stale(alloc, image, stale, fault)),
        Err(refusal) => Err(refusal),
    }
}

// The names of the program are read when both heaps are.
fn compare_asked<T: Files, R: Read, L: Lines>(
    job: &Job<'_, T>,
    before: &Side<'_>,
    after: &Side<'_>,
    reader: &mut R,
    answer: &mut L,
) -> Result<u8, Refusal>
    requires before { IsInOrder before.now }
    requires after { IsInOrder after.now }
    ensures said { IfOk result (λ s. TakesSaid job.now.same.now (R.remaining reader.old) before.now after.now s (L.taken answer.old) (L.taken answer.new)) }
    ensures refused { IfErr result (OrOutput (RefusesSides job.now.same.now before.now after.now (R.remaining reader.old))) }
    ensures grown { Grows (L.taken answer.old) (L.taken answer.new) }
{
    match check_asked(job.alloc, job.same, before, after) {
        Ok(()) => {}
        Err(refusal) => return Err(refusal),
    }
    let (mut text, mut other) = (Vec::new(job.alloc), Vec::new(job.alloc));
    let (rt, alloc, same) = (job.rt, job.alloc, job.same);
    let labels = before.labels();
    let names = match read_names(rt, alloc, &same.names, labels, reader, &mut text) {
        Ok(names) => names,
        Err(refusal) => return Err(refusal),
    };
    let labels = after.labels();
    let after_names = match read_names(rt, alloc, &same.names_after, labels, reader, &mut other) {
        Ok(names) => names,
        Err(refusal) => return Err(refusal),
    };
    report_on(job, (&names, &after_names), before, after, answer)
}

// Whether what is asked suits the two sides: lines have no regions of the program's own, and no addresses.
fn check_asked(
    alloc: Global,
    same: &Same,
    before: &Side<'_>,
    after: &Side<'_>,
) -> Result<(), Refusal>
    ensures suits { IfOk result (λ _. Suits same.now before.now after.now) }
    ensures refused { IfErr result (RefusesAsked same.now before.now after.now) }
{
    match check_set(alloc, same, before) {
        Ok(()) => {}
        Err(refusal) => return Err(refusal),
    }
    match check_cards(alloc, same, after) {
        Ok(()) => {}
        Err(refusal) => return Err(refusal),
    }
    match check_moves(alloc, same, before, after) {
        Ok(()) => {}
        Err(refusal) => return Err(refusal),
    }
    check_texts(alloc, same, before, after)
}

fn check_set(alloc: Global, same: &Same, before: &Side<'_>) -> Result<(), Refusal>
    ensures suits { IfOk result (λ _. AsksSetOfLines same.now before.now → ⊥) }
    ensures refused { IfErr result (λ r. AsksSetOfLines same.now before.now × RefusesOption same.now.before.bytes.items (codes "--set") r) }
{
    if before.labels.is_some() && !same.set.is_empty() {
        return Err(not_for_lines(alloc, same.before.as_str(), "--set"));
    }
    Ok(())
}

fn check_cards(alloc: Global, same: &Same, after: &Side<'_>) -> Result<(), Refusal>
    ensures suits { IfOk result (λ _. AsksCardsOfLines same.now after.now → ⊥) }
    ensures refused { IfErr result (λ r. AsksCardsOfLines same.now after.now × RefusesOption same.now.after.bytes.items (cards_option same.now.covered) r) }
{
    if after.labels.is_some() && (same.covered || !same.set.is_empty()) {
        let option = cards_option(same.covered);
        return Err(not_for_lines(alloc, same.after.as_str(), option));
    }
    Ok(())
}

fn cards_option(covered: bool) -> &'static str
    ensures { result.now ≡ cards_option covered }
{
    if covered { "--covered" } else { "--set" }
}

fn check_moves(
    alloc: Global,
    same: &Same,
    before: &Side<'_>,
    after: &Side<'_>,
) -> Result<(), Refusal>
    ensures suits { IfOk result (λ _. AsksMovesOfOne same.now before.now after.now → ⊥) }
    ensures refused { IfErr result (λ r. AsksMovesOfOne same.now before.now after.now × RefusesMoves same.now.after.bytes.items r) }
{
    let named = same.names_after.is_some();
    if same.moved && !named && before.labels.is_some() != after.labels.is_some() {
        return Err(not_for_both(alloc, same.after.as_str()));
    }
    Ok(())
}

fn check_texts(
    alloc: Global,
    same: &Same,
    before: &Side<'_>,
    after: &Side<'_>,
) -> Result<(), Refusal>
    ensures suits { IfOk result (λ _. SharesTexts before.now after.now → ⊥) }
    ensures refused { IfErr result (RefusesTexts same.now.after.bytes.items before.now after.now) }
{
    match shared_text(before, after) {
        Some((text, other)) => Err(one_hash(alloc, same.after.as_str(), other, text)),
        None => Ok(()),
    }
}

fn report_on<T, L: Lines>(
    job: &Job<'_, T>,
    names: (&Option<Names<'_>>, &Option<Names<'_>>),
    before: &Side<'_>,
    after: &Side<'_>,
    answer: &mut L,
) -> Result<u8, Refusal>
    requires before { IsInOrder before.now }
    requires after { IsInOrder after.now }
    requires names { IfSome (option_map program_of names.0.now) AreInOrder }
    requires names_after { IfSome (option_map program_of names.1.now) AreInOrder }
    ensures said { (left : Option (List ℕ)) → Suits job.now.same.now before.now after.now → AreProgramNames job.now.same.now left before.now after.now (option_map program_of names.entry.0.now) (option_map program_of names.entry.1.now) → IfOk result (λ s. TakesSaid job.now.same.now left before.now after.now s (L.taken answer.old) (L.taken answer.new)) }
    ensures refused { IfErr result (OrOutput (RefusesReport job.now.same.now before.now after.now)) }
    ensures grown { Grows (L.taken answer.old) (L.taken answer.new) }
{
    let same = job.same;
    let asked = Asked {
        before,
        after,
        names: names.0.as_ref(),
        names_after: names.1.as_ref(),
        moved: same.moved,
        set: same.set.as_slice(),
        fill: same.fill,
        all: same.all,
    };
    match report(job.alloc, &asked, answer) {
        Ok(status) => Ok(status),
        Err(refused) => Err(of_refused(job.alloc, &asked, same, refused)),
    }
}

fn of_refused(alloc: Global, asked: &Asked<'_>, same: &Same, refused: Refused) -> Refusal
    ensures { IsRefusal asked.now.before.now.image.heap asked.now.after.now.image.heap asked.now.after.now.stale same.now.set.items refused → OrOutput (RefusesReport same.now asked.now.before.now asked.now.after.now) result }
{
    match refused {
        Refused::Fault(fault) => Refusal::Fault(fault),
        Refused::Set(fault) => {
            let heap = asked.before.image.heap();
            of_heap(alloc, same.before.as_str(), heap, fault)
        }
        Refused::Stale(wrong) => refuse_stale(alloc, same.after.as_str(), asked.after, wrong),
    }
}

// The refusal of a file for its words that reference no object.
fn refuse_stale(alloc: Global, name: &str, side: &Side<'_>, wrong: Wrong) -> Refusal
    ensures { RefusesWrong name.now wrong result }
{
    match (wrong, &side.stale) {
        (Wrong::Fault(fault), Some(strays)) => {
            of_stale(alloc, name, side.image.heap(), &strays.words, fault)
        }
        _ => refuse_lines(alloc, name, &[], wrong),
    }
}

// The image that is asked for cover: the cards of young regions count as dirty.
fn to_cover(alloc: Global, same: &Same, after: Side<'_>) -> Result<Image, Refusal>
    ensures image { IfOk result (λ i. i ≡ dirtied after.entry.image (young_cards after.entry.image.heap same.now.young.items)) }
    ensures refused { IfErr result (LacksYoung same.now.after.bytes.items after.entry.image same.now.young.items) }
{
    let Side { image, .. } = after;
    if same.young.is_empty() {
        return Ok(image);
    }
    with_young(alloc, same.after.as_str(), &image, same.young.as_slice())
}

// Adds the line of cover behind an answer of this status, if it is asked. Only what is the same is asked for it.
fn add_cover<T: Threads + Sync, L: Lines>(
    job: &Job<'_, T>,
    status: u8,
    after: Side<'_>,
    answer: &mut L,
) -> Result<u8, Refusal>
    ensures cover { IfOk result (λ s. TakesCover job.now.same.now after.entry.image status s (L.taken answer.old) (L.taken answer.new)) }
    ensures refused { IfErr result (OrOutput (λ r. (status ≡ 0) × (job.now.same.now.covered ≡ true) × LacksCoverBeside job.now.same.now.after.bytes.items job.now.same.now.young.items after.entry.image r)) }
    ensures grown { Grows (L.taken answer.old) (L.taken answer.new) }
{
    if status == 0 && job.same.covered {
        return push_cover(job, after, answer);
    }
    Ok(status)
}

// A slot that lacks cover is a refusal.
fn push_cover<T: Threads + Sync, L: Lines>(
    job: &Job<'_, T>,
    after: Side<'_>,
    answer: &mut L,
) -> Result<u8, Refusal>
    ensures covered { IfOk result (λ s. IsCoveredBeside job.now.same.now.young.items after.entry.image) }
    ensures refused { IfErr result (OrOutput (LacksCoverBeside job.now.same.now.after.bytes.items job.now.same.now.young.items after.entry.image)) }
    ensures line { IfOk result (λ s. (s ≡ 0) × Appends (L.taken answer.old) (L.taken answer.new) (codes "covered\n")) }
    ensures grown { Grows (L.taken answer.old) (L.taken answer.new) }
{
    let image = match to_cover(job.alloc, job.same, after) {
        Ok(image) => image,
        Err(refusal) => return Err(refusal),
    };
    match verify(job.rt, job.alloc, image) {
        Ok(_) => take_covered(answer),
        Err((image, fault)) => {
            let name = job.same.after.as_str();
            Err(refuse_cover(job.alloc, name, &image, fault))
        }
    }
}

// The refusal of an image for this fault of its cover. Running out of memory is of no image.
fn refuse_cover(alloc: Global, name: &str, image: &Image, fault: Fault) -> Refusal
    ensures { IsCoverFault image.now fault → LacksCover name.now image.now result }
{
    match fault {
        Fault::Memory => Refusal::Fault(fault),
        _ => of_cover(alloc, name, image.heap(), fault),
    }
}

fn take_covered<L: Lines>(answer: &mut L) -> Result<u8, Refusal>
    ensures line { IfOk result (λ s. (s ≡ 0) × Appends (L.taken answer.old) (L.taken answer.new) (codes "covered\n")) }
    ensures refused { IfErr result (OrOutput (λ r. r ≡ Refusal.Fault Fault.Memory)) }
    ensures grown { Grows (L.taken answer.old) (L.taken answer.new) }
{
    match answer.take("covered\n") {
        Ok(_) => Ok(0),
        Err(fault) => Err(Refusal::Fault(fault)),
    }
}
