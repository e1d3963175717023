//! The refusals that name a file.
ghost use Rattle.std.specs.Prelude.{◌≡◌, ◌⊎◌, ◌↔◌, ℕ, List, [], ◌++◌, codes, decimal, None, IfOk, IfErr, IsTrue};
ghost use Rattle.std.specs.Io.{StartsWith};
ghost use Rattle.g1_words.specs.Fault.{status_of};
ghost use Rattle.g1heap_cli.specs.Refusals.{Tells, ended, told_line, file_line, cause_line, IsFileText, RefusesFile, IsLineText, RefusesLine, RefusesOutput, output_line, RefusesCover, IsUnread};
ghost use Rattle.g1heap_cli.specs.Refuses.{IsUnreadOrSet};
ghost use Rattle.g1heap_cli.specs.Lines.{RefusesLines, RefusesNames};

use g1_broken::{Broken, Look, rule_of_bytes, rule_of_cover, rule_of_set, rule_of_stale};
use g1_command::Refusal;
use g1_hprof::Refused;
use g1_image::{MAGIC, Stale};
use g1_report::{Location, WrongNames};
use g1_text::{Expected, Wrong};
use g1_words::{Device, Fault, Heap, Limits};
use g1heap_request::{SET_TIP, names_regions};
use std::alloc::{AllocError, Global};
use std::fmt;
use std::fmt::Display;
use std::io::Error;

/// A fault of the file of this name. Running out of memory is of no file.
pub fn of_file(alloc: Global, name: &str, fault: Fault) -> Refusal
    ensures { Tells (status_of fault) (λ t. t ≡ file_line name.now fault []) result }
{
    if fault == Fault::Memory {
        return Refusal::Fault(fault);
    }
    let number = fault.number();
    let text = format!(in alloc; "g1heap: {name}: fault {number}: {fault}\n");
    refusal(fault.status(), text)
}

/// A fault of the file of this name, and the system's reason, if a call on the file failed.
pub fn of_device(alloc: Global, name: &str, fault: Fault, reason: Option<Error>) -> Refusal
    ensures { RefusesFile name.now fault result }
{
    match (fault, reason) {
        (Fault::Device(_), Some(reason)) => with_cause(alloc, name, fault, &reason),
        _ => of_file(alloc, name, fault),
    }
}

/// That standard output failed, and the system's reason. Where there is no memory for it, that it failed.
pub fn of_output(alloc: Global, reason: Option<Error>) -> Refusal
    ensures { RefusesOutput result }
{
    let fault = Fault::Device(Device::Output);
    let Some(reason) = reason else {
        return Refusal::Fault(fault);
    };
    match output_text(alloc, &reason) {
        Ok(text) => Refusal::Told {
            status: fault.status(),
            text,
        },
        Err(_) => Refusal::Fault(fault),
    }
}

// The lines that standard output failed, and why.
fn output_text(alloc: Global, reason: &Error) -> Result<String, AllocError>
    ensures { IfOk result (λ s. (cause : List ℕ) × (s.bytes.items ≡ output_line (cause_line cause))) }
{
    let fault = Fault::Device(Device::Output);
    let number = fault.number();
    let reason = format!(in alloc; "{reason}")?;
    format!(in alloc; "g1heap: fault {number}: {fault}\ng1heap: {reason}\n")
}

/// The fault of bytes that are no image's, and the rule that they break.
pub fn of_bytes(alloc: Global, name: &str, limits: Limits, bytes: &[u8], fault: Fault) -> Refusal
    ensures { RefusesFile name.now fault result }
{
    match rule_of_bytes(alloc, limits, bytes, fault) {
        Ok(rule) => of_rule(alloc, name, fault, rule),
        Err(_) => Refusal::Fault(Fault::Memory),
    }
}

/// The fault that a pause finds in the heap of an image, and the rule that is broken.
pub fn of_heap(alloc: Global, name: &str, heap: &Heap, fault: Fault) -> Refusal
    ensures { RefusesFile name.now fault result }
{
    let rule = rule_of_cover(heap, fault).or(rule_of_set(heap, fault));
    of_rule(alloc, name, fault, rule)
}

/// The fault of an image that lacks cover, and that its graph is the one of the image before.
pub fn of_cover(alloc: Global, name: &str, heap: &Heap, fault: Fault) -> Refusal
    ensures { RefusesCover name.now fault result }
{
    match of_heap(alloc, name, heap, fault) {
        Refusal::Told { status, text } => {
            refusal(
                status,
                format!(in alloc; "{text}g1heap: the graph is the same\n"),
            )
        }
        refused => refused,
    }
}

/// The fault of an image whose words reference no object, if these words are null in its heap.
pub fn of_stale(alloc: Global, name: &str, heap: &Heap, stale: &Stale, fault: Fault) -> Refusal
    ensures { RefusesFile name.now fault result }
{
    of_rule(alloc, name, fault, rule_of_stale(heap, stale, fault))
}

fn of_rule(alloc: Global, name: &str, fault: Fault, rule: Option<Broken>) -> Refusal
    ensures { RefusesFile name.now fault result }
{
    match rule {
        Some(rule) if fault != Fault::Memory => with_cause(alloc, name, fault, &rule),
        _ => of_file(alloc, name, fault),
    }
}

fn with_cause<C: Display>(alloc: Global, name: &str, fault: Fault, cause: &C) -> Refusal
    ensures { RefusesFile name.now fault result }
{
    refusal(fault.status(), caused_text(alloc, name, fault, cause))
}

fn caused_text<C: Display>(
    alloc: Global,
    name: &str,
    fault: Fault,
    cause: &C,
) -> Result<String, AllocError>
    ensures { IfOk result (λ s. IsFileText name.now fault s.bytes.items) }
{
    let number = fault.number();
    let cause = format!(in alloc; "{cause}")?;
    format!(in alloc; "g1heap: {name}: fault {number}: {fault}\ng1heap: {cause}\n")
}

/// A file that can't be opened, and the system's reason.
pub fn unopenable(alloc: Global, name: &str, reason: &Error) -> Refusal
    ensures { Tells 7 (λ t. (why : List ℕ) × (t ≡ told_line name.now (codes "can't be opened: " ++ ended why))) result }
{
    with_reason(alloc, 7, name, "can't be opened: ", reason)
}

/// A file that can't be made, or can't get its name, and the system's reason.
pub fn unwritable(alloc: Global, name: &str, reason: &Error) -> Refusal
    ensures { Tells 7 (λ t. (why : List ℕ) × (t ≡ told_line name.now (codes "can't be written: " ++ ended why))) result }
{
    with_reason(alloc, 7, name, "can't be written: ", reason)
}

/// A name for which no name beside it is free.
pub fn no_free_name(alloc: Global, name: &str) -> Refusal
    ensures { Tells 7 (λ t. t ≡ told_line name.now (codes "can't be written: all names beside it are taken\n")) result }
{
    told(
        alloc,
        7,
        name,
        "can't be written: all names beside it are taken",
    )
}

fn told(alloc: Global, status: u8, name: &str, what: &str) -> Refusal
    ensures { Tells status (λ t. t ≡ told_line name.now (ended what.now)) result }
{
    refusal(status, format!(in alloc; "g1heap: {name}: {what}\n"))
}

// What is said of a file, and the system's reason behind it.
fn with_reason(alloc: Global, status: u8, name: &str, what: &str, reason: &Error) -> Refusal
    ensures { Tells status (λ t. (why : List ℕ) × (t ≡ told_line name.now (what.now ++ ended why))) result }
{
    match format!(in alloc; "{reason}") {
        Ok(reason) => refusal(
            status,
            format!(in alloc; "g1heap: {name}: {what}{reason}\n"),
        ),
        Err(_) => Refusal::Fault(Fault::Memory),
    }
}

/// What to do about what is read as lines, and is something else.
#[derive(Clone, Copy)]
pub enum Hint {
    /// It is an image, of any version.
    Image,
    /// It is of this other kind.
    Look(Look),
    /// The line of this number ends as lines of DOS do.
    Dos(u64),
    /// The sizes that a heap has are these.
    Sizes,
}

impl fmt::Display for Hint {
    fn fmt<W: fmt::Write>(&self, f: &mut fmt::Formatter<W>) -> fmt::Result {
        match self {
            Hint::Image => f.write_str(
                "it is an image; 'g1heap print' prints its lines, and 'g1heap explain' those of a pause",
            ),
            Hint::Look(look) => write!(f, "{look}"),
            Hint::Dos(number) => write!(
                f,
                "line {number} ends with a carriage return: the file has DOS line ends"
            ),
            Hint::Sizes => {
                let ranges = Refused::Sizes;
                write!(f, "{ranges}")
            }
        }
    }
}

/// What bytes are that are no lines, if it can be seen.
pub fn hint_on(alloc: Global, bytes: &[u8]) -> Result<Option<Hint>, AllocError> {
    if is_image(bytes) {
        return Ok(Some(Hint::Image));
    }
    match rule_of_bytes(alloc, Limits::Wide, bytes, Fault::Magic)? {
        Some(Broken::Look(Look::Empty | Look::Unknown)) => Ok(None),
        Some(Broken::Look(look)) => Ok(Some(Hint::Look(look))),
        _ => Ok(None),
    }
}

/// A line that is not what is expected there, and what to do about it.
pub fn wrong_line<E: Display>(
    alloc: Global,
    name: &str,
    number: u64,
    expected: &E,
    hint: Option<Hint>,
) -> Refusal
    ensures { RefusesLine name.now number result }
{
    match wrong_text(alloc, name, number, expected, hint) {
        Ok(text) => Refusal::Told { status: 3, text },
        Err(_) => Refusal::Fault(Fault::Memory),
    }
}

fn wrong_text<E: Display>(
    alloc: Global,
    name: &str,
    number: u64,
    expected: &E,
    hint: Option<Hint>,
) -> Result<String, AllocError>
    ensures { IfOk result (λ s. IsLineText name.now number s.bytes.items) }
{
    let expected = format!(in alloc; "{expected}")?;
    match hint {
        Some(hint) => {
            let hint = format!(in alloc; "{hint}")?;
            format!(in alloc;
                "g1heap: {name}: line {number}: expected {expected}\ng1heap: {hint}\n"
            )
        }
        None => format!(in alloc; "g1heap: {name}: line {number}: expected {expected}\n"),
    }
}

/// The refusal of a file for its lines, which are in these bytes, or for its words that reference no object.
pub fn refuse_lines(alloc: Global, name: &str, bytes: &[u8], wrong: Wrong) -> Refusal
    ensures { RefusesLines name.now wrong result }
{
    match wrong {
        Wrong::Line {
            number,
            expected: Expected::Sizes,
        } => wrong_line(alloc, name, number, &Expected::Sizes, Some(Hint::Sizes)),
        Wrong::Line { number, expected } => match hint_on(alloc, bytes) {
            // They are the lines that are wanted.
            Ok(Some(Hint::Look(Look::Lines | Look::Graph))) => {
                wrong_line(alloc, name, number, &expected, None)
            }
            Ok(hint) => wrong_line(alloc, name, number, &expected, hint),
            Err(_) => Refusal::Fault(Fault::Memory),
        },
        Wrong::Fault(fault) => of_file(alloc, name, fault),
    }
}

/// The refusal of a file of names.
pub fn refuse_names(alloc: Global, name: &str, wrong: WrongNames) -> Refusal
    ensures { RefusesNames name.now wrong result }
{
    match wrong {
        WrongNames::Line { number, expected } => wrong_line(alloc, name, number, &expected, None),
        WrongNames::Memory => Refusal::Fault(Fault::Memory),
    }
}

/// The refusal of a heap dump. Running out of memory is of no file.
pub fn refuse_dump(alloc: Global, name: &str, refused: &Refused) -> Refusal
    ensures { (status : ℕ) × Tells status (λ t. (why : List ℕ) × (t ≡ told_line name.now (ended why))) result }
{
    match refused {
        Refused::Memory => Refusal::Fault(Fault::Memory),
        _ => match format!(in alloc; "{refused}") {
            Ok(what) => told(alloc, refused.status(), name, what.as_str()),
            Err(_) => Refusal::Fault(Fault::Memory),
        },
    }
}

/// Whether bytes begin as an image does, in any version.
pub fn is_image(bytes: &[u8]) -> bool
    ensures { IsTrue result ↔ StartsWith bytes.now (codes "G1IMAGE") }
{
    bytes.starts_with(&MAGIC)
}

/// The refusal of a file of which regions are collected. If its name is a set of regions, these may have been meant.
pub fn with_set_tip(alloc: Global, name: &str, refused: Refusal) -> Refusal
    ensures { IsUnread name.now refused → IsUnreadOrSet name.now result }
{
    match refused {
        Refusal::Told { status: 7, text } if names_regions(name) => {
            with_tip(alloc, text.as_str(), SET_TIP)
        }
        _ => refused,
    }
}

fn with_tip(alloc: Global, text: &str, tip: &str) -> Refusal
    ensures { Tells 7 (λ t. t ≡ text.now ++ cause_line tip.now) result }
{
    refusal(7, format!(in alloc; "{text}g1heap: {tip}\n"))
}

/// A command that a trace doesn't have.
pub fn no_command(alloc: Global, name: &str, command: u64, commands: u64) -> Refusal
    ensures { Tells 2 (λ t. t ≡ told_line name.now (codes "no command " ++ (decimal command ++ (codes ": the trace has " ++ ended (decimal commands))))) result }
{
    refusal(
        2,
        format!(in alloc; "g1heap: {name}: no command {command}: the trace has {commands}\n"),
    )
}

/// An option that is not for lines of objects by name.
pub fn not_for_lines(alloc: Global, name: &str, option: &str) -> Refusal
    ensures { Tells 2 (λ t. t ≡ told_line name.now (option.now ++ codes " is for images, and these are lines: leave it out, or compare images\n")) result }
{
    refusal(
        2,
        format!(in alloc;
            "g1heap: {name}: {option} is for images, and these are lines: leave it out, or compare images\n"
        ),
    )
}

/// A file whose objects can't be asked whether they moved, since those of the file before have addresses and these have
/// names, or the other way round.
pub fn not_for_both(alloc: Global, name: &str) -> Refusal
    ensures { Tells 2 (λ t. t ≡ told_line name.now (codes "--moved is for two images or for lines twice: leave it out, or name the objects of both by --names-after\n")) result }
{
    refusal(
        2,
        format!(in alloc;
            "g1heap: {name}: --moved is for two images or for lines twice: leave it out, or name the objects of both by --names-after\n"
        ),
    )
}

/// A file with a text that can't be told from one of the file before.
pub fn one_hash(alloc: Global, name: &str, text: &str, other: &str) -> Refusal
    ensures { Tells 3 (λ t. t ≡ told_line name.now (text.now ++ (codes " has the hash of " ++ (other.now ++ codes ", which is in the other file: write it in another way\n")))) result }
{
    refusal(
        3,
        format!(in alloc;
            "g1heap: {name}: {text} has the hash of {other}, which is in the other file: write it in another way\n"
        ),
    )
}

/// A region that the image, which has this many, doesn't have.
pub fn no_region(alloc: Global, name: &str, region: u32, regions: u64) -> Refusal
    ensures { Tells 2 (λ t. t ≡ told_line name.now (codes "no region " ++ (decimal region ++ (codes ": the image has " ++ ended (decimal regions))))) result }
{
    refusal(
        2,
        format!(in alloc; "g1heap: {name}: no region {region}: the image has {regions}\n"),
    )
}

/// An address at which no object starts, and what is there.
pub fn no_object(alloc: Global, name: &str, address: u64, location: &Location) -> Refusal
    ensures { Tells 2 (λ t. (what : List ℕ) × (t ≡ told_line name.now (codes "no object starts at " ++ (decimal address ++ (codes ": " ++ ended what))))) result }
{
    match format!(in alloc; "{location}") {
        Ok(what) => {
            let text = format!(in alloc; "g1heap: {name}: no object starts at {address}: {what}\n");
            refusal(2, text)
        }
        Err(_) => Refusal::Fault(Fault::Memory),
    }
}

// The text with its status, or that there was no memory for it.
fn refusal(status: u8, text: Result<String, AllocError>) -> Refusal
    ensures told { IfOk text (λ s. result ≡ Refusal.Told status s) }
    ensures memory { IfErr text (λ _. result ≡ Refusal.Fault Fault.Memory) }
{
    match text {
        Ok(text) => Refusal::Told { status, text },
        Err(_) => Refusal::Fault(Fault::Memory),
    }
}
