//! What is asked of two heaps, and the answer in lines.
ghost use Rattle.std.specs.Prelude.{◌≡◌, [], OnOk, IfOk, IfErr, string_bytes};
ghost use Rattle.g1_text.specs.Graphs.{NamedGraph};
ghost use Rattle.g1_report.specs.Finding.{IsFault, IsRefusal, IsVerdict, IsUntouched};
ghost use Rattle.g1_report.specs.Taken.{TakesFirst};
ghost use Rattle.g1_report.specs.Wording.{Called, Compared};
ghost use Rattle.g1_report.specs.Answer.{compared_of, names_or_none, stale_names, AreNamesInOrder, IsInOrderAll, HandsOn};
ghost use Rattle.g1_report.specs.Listed.{lists, HandedOn};
ghost use Rattle.g1_report.specs.Opened.{AsksOfGraphs, IsVerdictByName};
ghost use Rattle.g1_report.specs.Given.{listed, compared};

use crate::comparing::{Labels, Sides};
use crate::lines::Lines;
use crate::listing::list_all;
use crate::names::Names;
use crate::sides::Side;
use crate::verdict::{Finding, Verdict, find, verdict_on};
use g1_same::Pair;
use g1_text::Wrong;
use g1_words::Fault;
use std::alloc::{AllocError, AllocFailed, Global};

/// Two heaps, and what is asked of them.
#[derive(Clone, Copy)]
pub struct Asked<'a> {
    pub before: &'a Side<'a>,
    pub after: &'a Side<'a>,
    /// What the program calls the words of the first one.
    pub names: Option<&'a Names<'a>>,
    /// What it calls the objects of the second one.
    pub names_after: Option<&'a Names<'a>>,
    /// Whether the objects that moved are counted, if nothing differs.
    pub moved: bool,
    /// The regions of a pause that is to have kept all others; empty if nothing is asked of it. Those that
    /// are free before are left out.
    pub set: &'a [u32],
    /// Whether copies may be behind the old tops of ordinary regions.
    pub fill: bool,
    /// How many differences are listed and then all counted, if that is asked.
    pub all: Option<u64>,
}

/// Why there is no verdict on two heaps.
#[derive(Debug, Clone, Copy)]
pub enum Refused {
    /// Memory ran out, or the lines can't be taken.
    Fault(Fault),
    /// No pause of the heap before collects the set.
    Set(Fault),
    /// This is wrong with the heap after: words of it reference no object. No root leads to one of them, and nothing else
    /// differs.
    Stale(Wrong),
}

impl From<Fault> for Refused {
    ghost use Rattle.std.specs.Prelude.{◌≡◌};
    ghost use Rattle.g1_report.specs.declared.reporting.Refused.TheVariants.{Fault as OfFault};

    ghost from_gives = { λ f e. e ≡ OfFault f };

    fn from(fault: Fault) -> Refused {
        Refused::Fault(fault)
    }
}

impl From<AllocError> for Refused {
    ghost use Rattle.std.specs.Prelude.{◌≡◌};
    ghost use Rattle.g1_words.specs.declared.fault.Fault.TheVariants.{Memory};
    ghost use Rattle.g1_report.specs.declared.reporting.Refused.TheVariants.{Fault as OfFault};

    ghost from_gives = { λ _ e. e ≡ OfFault Memory };

    fn from(_error: AllocError) -> Refused {
        Refused::Fault(Fault::Memory)
    }
}

impl<T: Drop> From<AllocFailed<T>> for Refused {
    ghost use Rattle.std.specs.Prelude.{◌≡◌};
    ghost use Rattle.g1_words.specs.declared.fault.Fault.TheVariants.{Memory};
    ghost use Rattle.g1_report.specs.declared.reporting.Refused.TheVariants.{Fault as OfFault};

    ghost from_gives = { λ _ e. e ≡ OfFault Memory };

    fn from(_error: AllocFailed<T>) -> Refused {
        Refused::Fault(Fault::Memory)
    }
}

/// Reports whether two heaps show the same graph, or where they differ, and what else is asked. The lines go
/// to `out`. Returns the exit status: 0 if what is asked holds, and 1 if the heaps differ. Of two texts of graphs by name,
/// with nothing asked of a set, it is 0 exactly if one graph is the other with new names.
///
/// # Errors
///
/// `Refused` says why there is no verdict. If it is the set or a stale word, `out` has taken nothing. A fault may come
/// behind some of the lines.
pub fn report<L: Lines>(alloc: Global, asked: &Asked<'_>, out: &mut L) -> Result<u8, Refused>
    ensures text { IsInOrderAll asked.now → IfOk result (λ s. HandsOn asked.now s (L.taken out.old) (L.taken out.new)) }
    ensures status { IfOk result (λ s. IsVerdict asked.now.before.now.image.heap asked.now.after.now.image.heap asked.now.after.now.stale asked.now.set.now asked.now.fill s) }
    ensures by_name { (g h : NamedGraph) → AsksOfGraphs asked.now g h → IfOk result (λ s. IsVerdictByName g h s) }
    ensures refused { IfErr result (λ e. IsRefusal asked.now.before.now.image.heap asked.now.after.now.image.heap asked.now.after.now.stale asked.now.set.now e) }
    ensures untouched { IfErr result (λ e. IsUntouched (L.taken out.old) (L.taken out.new) e) }
    ensures grown { TakesFirst (L.taken out.old) (L.taken out.new) [] }
{
    let sides = sides_of(asked);
    let finding = find(
        alloc,
        sides.heaps.before,
        sides.heaps.after,
        &asked.after.stale,
    )?;
    let verdict = verdict_on(alloc, asked, sides, &finding)?;
    hand_on(alloc, asked, sides, &finding, &verdict, out)?;
    Ok(verdict.status)
}

// Hands on the text of a verdict. If all differences are listed, they go on behind it.
fn hand_on<L: Lines>(
    alloc: Global,
    asked: &Asked<'_>,
    sides: Sides<'_>,
    finding: &Finding,
    verdict: &Verdict,
    out: &mut L,
) -> Result<(), Refused>
    ensures first { OnOk result (TakesFirst (L.taken out.old) (L.taken out.new) (string_bytes verdict.now.text)) }
    ensures all { AreNamesInOrder (compared sides.entry) → OnOk result (HandedOn (compared sides.entry) (lists finding.now asked.now.all) (L.taken out.old) (L.taken out.new) (string_bytes verdict.now.text)) }
    ensures fault { IfErr result IsFault }
    ensures grown { TakesFirst (L.taken out.old) (L.taken out.new) [] }
{
    match lists(finding, asked.all) {
        None => {
            out.take(verdict.text.as_str())?;
            Ok(())
        }
        Some(most) => list_all(alloc, asked, sides, verdict.text.as_str(), most, out),
    }
}

// How many differences are listed, if they are: one graph has none.
fn lists(finding: &Finding, all: Option<u64>) -> Option<u64>
    ensures { result ≡ lists finding.now all }
{
    match finding {
        Finding::Same(_) => None,
        Finding::Differ(_) => all,
        Finding::Stale(_) => all,
    }
}

fn sides_of<'a>(asked: &Asked<'a>) -> Sides<'a>
    ensures before { result.heaps.before.now ≡ asked.now.before.now.image.heap }
    ensures after { result.heaps.after.now ≡ asked.now.after.now.image.heap }
    ensures compared { compared result ≡ compared_of asked.now }
{
    Sides {
        heaps: Pair::new(asked.before.image.heap(), asked.after.image.heap()),
        names: asked.names,
        names_after: asked.names_after,
        holders: asked.before.holders.as_slice(),
        labels_before: asked.before.labels(),
        labels_after: asked.after.labels(),
        texts_before: &asked.before.texts,
        texts_after: &asked.after.texts,
        stale_names: stale_names_of(asked.after),
    }
}

fn stale_names_of<'a>(side: &'a Side<'_>) -> Labels<'a>
    ensures { listed result ≡ stale_names side.now.stale }
{
    match &side.stale {
        Some(strays) => names_or_none(strays.names.as_slice()),
        None => None,
    }
}

fn names_or_none<'a>(names: &'a [(u64, &'a str)]) -> Labels<'a>
    ensures { listed result ≡ names_or_none names.now }
{
    match names {
        [] => None,
        _ => Some(names),
    }
}
