//! What is found first of two heaps, and what is said of it.
ghost use Rattle.std.specs.Prelude.{◌≡◌, ◌++◌, false, ℕ, List, length, Option, Some, None, AllPairs, IsTrue, IsFalse, IfOk, IfErr, IfSome, IfNone, OnOk, string_bytes};
ghost use Rattle.g1_image.specs.Stale.{HasLowerPlace};
ghost use Rattle.g1_same.specs.Same.{IsRenaming};
ghost use Rattle.g1_report.specs.Agreement.{used, KeepsSet};
ghost use Rattle.g1_report.specs.Finding.{IsFinding, IsRefusal, IsVerdict, Loses};
ghost use Rattle.g1_report.specs.declared.sides.Strays.{Strays};
ghost use Rattle.g1_report.specs.Wording.{Compared, lost_line};
ghost use Rattle.g1_report.specs.Answer.{AreNamesInOrder, IsAnswer, IsSameAnswer, same_text, moved_text, kept_text};
ghost use Rattle.g1_report.specs.Given.{compared};

use crate::comparing::{Sides, push_difference_line, push_same_line};
use crate::listing::words_of;
use crate::moving::push_moved_line;
use crate::reporting::{Asked, Refused};
use crate::sides::Strays;
use crate::staling::push_stale_line;
use g1_choose::given;
use g1_kept::{Lost, kept};
use g1_same::{Difference, Earliest, Renaming, StaleEnd, compare, compare_stale};
use g1_words::{Fault, Heap};
use std::alloc::{AllocError, Global};

/// What is found first of two heaps.
#[derive(Drop)]
pub enum Finding {
    /// They show one graph.
    Same(Renaming),
    /// They differ here.
    Differ(Difference),
    /// A path ends at this stale word.
    Stale(StaleEnd),
}

/// What is said of two heaps, and the exit status that says so.
#[derive(Drop)]
pub struct Verdict {
    pub text: String,
    pub status: u8,
}

/// What comes first: a difference between the graphs, or a stale word that the roots reach.
pub fn find(
    alloc: Global,
    before: &Heap,
    after: &Heap,
    stale: &Option<Strays<'_>>,
) -> Result<Finding, Refused>
    ensures found { IfOk result (λ f. IsFinding before.now after.now stale.now f) }
    ensures refused { IfErr result (λ e. (set : List ℕ) → IsRefusal before.now after.now stale.now set e) }
{
    match stale {
        None => match compare(alloc, before, after)? {
            Ok(renaming) => Ok(Finding::Same(renaming)),
            Err(difference) => Ok(Finding::Differ(difference)),
        },
        Some(strays) => find_stale(alloc, before, after, strays),
    }
}

// The first difference of two heaps, or the first stale word of the second that a path leads to. Words that are not in
// the order of their places are refused unread.
fn find_stale(
    alloc: Global,
    before: &Heap,
    after: &Heap,
    strays: &Strays<'_>,
) -> Result<Finding, Refused>
    ensures found { IfOk result (λ f. IsFinding before.now after.now (Some strays.now) f) }
    ensures refused { IfErr result (λ e. (set : List ℕ) → IsRefusal before.now after.now (Some strays.now) set e) }
{
    if !rises(strays.words.roots.as_slice()) || !rises(strays.words.slots.as_slice()) {
        return Err(Refused::Stale(strays.wrong));
    }
    g1_words::laws::valid(before);
    g1_same::laws::never_both();
    let stale = words_of(strays);
    match compare_stale(alloc, before, after, &stale)? {
        None => Err(Refused::Stale(strays.wrong)),
        Some(Earliest::Differ(difference)) => Ok(Finding::Differ(difference)),
        Some(Earliest::Stale(end)) => Ok(Finding::Stale(end)),
    }
}

// Whether each place is below the next one.
fn rises(list: &[(u64, u64)]) -> bool
    ensures rising { IsTrue result → AllPairs HasLowerPlace list.now }
    ensures other { IsFalse result → AllPairs HasLowerPlace list.now → ⊥ }
{
    for place in 1..list.len() {
        if list[place].0 <= list[place - 1].0 {
            return false;
        }
    }
    true
}

/// The verdict on two heaps of which this was found. What a pause keeps is looked at only if they show one
/// graph.
pub fn verdict_on(
    alloc: Global,
    asked: &Asked<'_>,
    sides: Sides<'_>,
    finding: &Finding,
) -> Result<Verdict, Refused>
    requires { IsFinding sides.heaps.before.now sides.heaps.after.now asked.now.after.now.stale finding.now }
    ensures text { AreNamesInOrder (compared sides.entry) → IfOk result (λ v. IsAnswer (compared sides.entry) asked.now finding.now v.status (string_bytes v.text)) }
    ensures verdict { IfOk result (λ v. IsVerdict sides.entry.heaps.before.now sides.entry.heaps.after.now asked.now.after.now.stale asked.now.set.now asked.now.fill v.status) }
    ensures refused { IfErr result (λ e. IsRefusal sides.entry.heaps.before.now sides.entry.heaps.after.now asked.now.after.now.stale asked.now.set.now e) }
{
    match finding {
        Finding::Same(renaming) => verdict_on_same(alloc, asked, sides, renaming),
        Finding::Differ(difference) => {
            let mut text = String::new(alloc);
            push_difference_line(alloc, &mut text, sides, difference)?;
            Ok(Verdict { text, status: 1 })
        }
        Finding::Stale(end) => {
            let mut text = String::new(alloc);
            let path = (end.root, end.slots.as_slice());
            push_stale_line(alloc, &mut text, sides, path, end.before, end.word)?;
            Ok(Verdict { text, status: 1 })
        }
    }
}

// The verdict on two heaps that show one graph: they differ if something is lost that a pause of the set keeps.
fn verdict_on_same(
    alloc: Global,
    asked: &Asked<'_>,
    sides: Sides<'_>,
    renaming: &Renaming,
) -> Result<Verdict, Refused>
    requires graph { IsRenaming sides.heaps.before.now sides.heaps.after.now renaming.now.before.items renaming.now.after.items }
    requires none { asked.now.after.now.stale ≡ None }
    ensures text { AreNamesInOrder (compared sides.entry) → IfOk result (λ v. IsSameAnswer (compared sides.entry) asked.now renaming.now v.status (string_bytes v.text)) }
    ensures verdict { IfOk result (λ v. IsVerdict sides.entry.heaps.before.now sides.entry.heaps.after.now asked.now.after.now.stale asked.now.set.now asked.now.fill v.status) }
    ensures refused { IfErr result (λ e. IsRefusal sides.entry.heaps.before.now sides.entry.heaps.after.now asked.now.after.now.stale asked.now.set.now e) }
{
    let mut text = String::new(alloc);
    if let Some(lost) = lost(
        alloc,
        sides.heaps.before,
        sides.heaps.after,
        asked.set,
        asked.fill,
    )? {
        write!(text, "differ {lost}\n")?;
        return Ok(Verdict { text, status: 1 });
    }
    push_same_text(&mut text, asked, sides, renaming)?;
    Ok(Verdict { text, status: 0 })
}

// What is said of two heaps that agree as asked.
fn push_same_text(
    text: &mut String,
    asked: &Asked<'_>,
    sides: Sides<'_>,
    renaming: &Renaming,
) -> Result<(), AllocError>
    requires { IsRenaming sides.heaps.before.now sides.heaps.after.now renaming.now.before.items renaming.now.after.items }
    ensures { AreNamesInOrder (compared sides.entry) → OnOk result (string_bytes text.new ≡ string_bytes text.old ++ same_text (compared sides.entry) asked.now renaming.now) }
{
    push_same_line(text, sides.heaps.before, renaming)?;
    push_moved(text, asked.moved, sides, renaming)?;
    push_kept(text, asked.set)
}

// What moved, if that is asked.
fn push_moved(
    text: &mut String,
    moved: bool,
    sides: Sides<'_>,
    renaming: &Renaming,
) -> Result<(), AllocError>
    requires { IsRenaming sides.heaps.before.now sides.heaps.after.now renaming.now.before.items renaming.now.after.items }
    ensures { AreNamesInOrder (compared sides.entry) → OnOk result (string_bytes text.new ≡ string_bytes text.old ++ moved_text moved (compared sides.entry) renaming.now.before.items renaming.now.after.items) }
{
    if moved {
        push_moved_line(text, sides, renaming)
    } else {
        Ok(())
    }
}

// That what a pause of the set keeps is kept, if a set is given.
fn push_kept(text: &mut String, set: &[u32]) -> Result<(), AllocError>
    ensures { OnOk result (string_bytes text.new ≡ string_bytes text.old ++ kept_text set.now) }
{
    match set {
        [] => Ok(()),
        _ => text.push_str("kept\n"),
    }
}

// The first thing that a pause of the set would have kept, if a set is given. Its regions are looked for in the heap
// before.
fn lost(
    alloc: Global,
    before: &Heap,
    after: &Heap,
    set: &[u32],
    fill: bool,
) -> Result<Option<Lost>, Refused>
    ensures keeps { IfOk result (λ o. IfNone o (KeepsSet before.now after.now set.now fill)) }
    ensures lost { IfOk result (λ o. IfSome o (λ l. Loses before.now after.now set.now fill l)) }
    ensures refused { IfErr result (λ e. (stale : Option Strays) → IsRefusal before.now after.now stale set.now e) }
{
    if set.is_empty() {
        return Ok(None);
    }
    let used = used(alloc, before, set)?;
    let set = match given(alloc, before, used.as_slice()) {
        Ok(set) => set,
        Err(Fault::Set(region)) => return Err(Refused::Set(Fault::Set(region))),
        Err(fault) => return Err(Refused::Fault(fault)),
    };
    match kept(alloc, before, after, set.as_slice(), fill)? {
        Ok(()) => Ok(None),
        Err(lost) => Ok(Some(lost)),
    }
}

// The regions of the set that are not free in the heap before.
fn used(alloc: Global, old: &Heap, set: &[u32]) -> Result<Vec<u32>, AllocError>
    ensures { IfOk result (λ v. v.items ≡ used old.now set.now) }
{
    let regions = old.geometry().regions();
    let mut used = Vec::new(alloc);
    for region in set {
        if u64::from(*region) >= regions || !old.region(*region).kind.is_free() {
            used.push(*region)?;
        }
    }
    Ok(used)
}
