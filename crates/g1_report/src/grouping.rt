//! The steps of a path, as texts: equal ones in a row are there once, with their number.
ghost use Rattle.std.specs.Prelude.{◌≡◌, ◌<◌, ◌^◌, ◌-◌, ◌∷◌, ◌++◌, ℕ, List, [], length, map, min, string_bytes, OnOk, IfOk};
ghost use Rattle.g1_report.specs.Runs.{grouped, runs_in, runs_of, steps_in, count_text, run_text, runs_text, ends_text};
ghost use Rattle.g1_report.specs.Gathered.{group_of, run_of};

use std::alloc::{AllocError, Global};

// From how many equal steps on a path has them once, with their number.
const RUN: u64 = 3;

// How many steps a path has at each end, if it is cut.
const END: usize = 20;

/// Equal steps in a row, and how many they are.
#[derive(Drop)]
pub struct Group {
    step: String,
    count: u64,
}

/// A step alone, or one that is repeated at least `RUN` times, and how often it is done.
#[derive(Clone, Copy)]
pub struct Run<'a> {
    step: &'a str,
    count: u64,
}

/// One step more, in the last group or in a new one.
pub fn add_step(alloc: Global, groups: &mut Vec<Group>, step: &str) -> Result<(), AllocError>
    ensures { (steps : List (List ℕ)) → map group_of groups.old.items ≡ grouped steps → length steps < 2 ^ 64 - 1 →
        OnOk result (map group_of groups.new.items ≡ grouped (steps ++ step.now ∷ [])) }
{
    if let Some(group) = groups.last_mut() {
        if group.step.as_str() == step {
            group.count = group.count.saturating_add(1);
            return Ok(());
        }
    }
    let step = String::from_str(alloc, step)?;
    groups.push(Group { step, count: 1 })?;
    Ok(())
}

/// The runs of all groups.
pub fn runs_of<'a>(alloc: Global, groups: &'a [Group]) -> Result<Vec<Run<'a>>, AllocError>
    ensures { (steps : List (List ℕ)) → map group_of groups.now ≡ grouped steps → IfOk result (λ runs. map run_of runs.items ≡ runs_of steps) }
{
    let mut runs = Vec::new(alloc);
    for group in groups {
        add_runs(&mut runs, group.step.as_str(), group.count)?;
    }
    Ok(runs)
}

// Equal steps are one run if there are `RUN` of them or more. Else each stands alone.
fn add_runs<'a>(runs: &mut Vec<Run<'a>>, step: &'a str, count: u64) -> Result<(), AllocError>
    ensures { OnOk result (map run_of runs.new.items ≡ map run_of runs.old.items ++ runs_in (step.now, count)) }
{
    if count >= RUN {
        runs.push(Run { step, count })?;
        return Ok(());
    }
    for _ in 0..count {
        runs.push(Run { step, count: 1 })?;
    }
    Ok(())
}

/// The runs, of many only the first and the last ones.
pub fn push_ends(text: &mut String, runs: &[Run<'_>]) -> Result<(), AllocError>
    ensures { steps_in (map run_of runs.now) < 2 ^ 64 → OnOk result (string_bytes text.new ≡ string_bytes text.old ++ ends_text (map run_of runs.now)) }
{
    if runs.len() <= 2 * END {
        return push_runs(text, runs, false);
    }
    let (first, rest) = runs.split_at(END);
    let (middle, last) = rest.split_at(rest.len() - END);
    push_runs(text, first, false)?;
    let steps = steps_in(middle);
    write!(text, " .. {steps} steps ..")?;
    push_runs(text, last, true)
}

// How many steps the runs have.
fn steps_in(runs: &[Run<'_>]) -> u64
    ensures { result ≡ min (steps_in (map run_of runs.now)) (2 ^ 64 - 1) }
{
    let mut steps = 0u64;
    for run in runs {
        steps = steps.saturating_add(run.count);
    }
    steps
}

// Runs. `apart` says whether a number or dots are before the first of them.
fn push_runs(text: &mut String, runs: &[Run<'_>], apart: bool) -> Result<(), AllocError>
    ensures { OnOk result (string_bytes text.new ≡ string_bytes text.old ++ runs_text apart (map run_of runs.now)) }
{
    let mut behind = apart;
    for run in runs {
        push_run(text, run, behind)?;
        behind = run.count >= RUN;
    }
    Ok(())
}

// Behind a number or dots, a step that does not begin with a space gets one.
fn push_run(text: &mut String, run: &Run<'_>, apart: bool) -> Result<(), AllocError>
    ensures { OnOk result (string_bytes text.new ≡ string_bytes text.old ++ run_text apart (run_of run.now)) }
{
    let Run { step, count } = *run;
    if apart && !step.starts_with(' ') {
        text.push(' ')?;
    }
    text.push_str(step)?;
    push_count(text, count)
}

// The number of a run, if it is not a step alone.
fn push_count(text: &mut String, count: u64) -> Result<(), AllocError>
    ensures { OnOk result (string_bytes text.new ≡ string_bytes text.old ++ count_text count) }
{
    if count < RUN {
        return Ok(());
    }
    write!(text, " x {count}")
}
