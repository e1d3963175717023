//! What is asked of an image.
ghost use Rattle.std.specs.Prelude.{◌≡◌, ◌⊎◌, ℕ, codes, IfOk, IfErr};
ghost use Rattle.clap.specs.Words.{found_of, rows_of};
ghost use Rattle.g1_choose.specs.Cost.{IsCost};
ghost use Rattle.g1_work.specs.Team.{AreWorkers, IsChunk};
ghost use Rattle.g1_answers.specs.Numbers.{RefusesNumbers, RefusesQuestion, RefusesPause, RefusesImage, AreSettingsOf, IsChoiceOf, cost_asked};
ghost use Rattle.g1_command.specs.Values.{Because};
ghost use Rattle.g1_answers.specs.Asked.{IsQuestionOf, IsPauseOf, HasNoNumberOf, number_options};

use crate::arguments::sharing_of;
use clap::ArgMatches;
use g1_choose::Cost;
use g1_command::{Argument, BUDGET as BUDGET_OPTION, Misuse, cost_of, number, required_number};
use g1_pause::{Choice, Settings};
use g1_words::Fault;
use std::alloc::Global;

/// What text answers. Numbers may be out of their ranges.
#[derive(Clone, Copy)]
pub enum Question {
    /// What is in the regions?
    Regions(Sharing),
    /// Is every reference into another region covered?
    Cover,
    /// How many bytes of each region are live?
    Live(Sharing),
    /// Which regions are candidates, and which of them does the budget buy?
    Candidates {
        sharing: Sharing,
        cost: Cost,
        budget: u64,
    },
}

/// An image that is made of another one.
#[derive(Drop)]
pub enum NewImage {
    /// The same image, in the newest version.
    Repacked(Sharing),
    /// The image after a pause.
    Paused(Pause),
}

/// A pause that collects what a budget buys, or the regions that are given. Both may be here.
#[derive(Drop)]
pub struct Pause {
    pub sharing: Sharing,
    pub cost: Cost,
    pub budget: Option<u64>,
    pub regions: Vec<u32>,
}

/// How workers share the work.
#[derive(Clone, Copy)]
pub struct Sharing {
    pub workers: u64,
    /// How many items a worker draws at once.
    pub chunk: u64,
}

// The argument that is read here, as a static: a constant is checked again in each function that uses it.
static BUDGET: Argument = BUDGET_OPTION;

/// What the values of `pause` ask for, except the regions.
pub fn pause_of(alloc: Global, values: &ArgMatches<'_>) -> Result<Pause, Misuse>
    ensures pause { IfOk result (IsPauseOf (rows_of (found_of values.now))) }
    ensures refused { IfErr result (Because (HasNoNumberOf number_options (rows_of (found_of values.now)))) }
{
    Ok(Pause {
        sharing: sharing_of(alloc, values)?,
        cost: cost_of(alloc, values)?,
        budget: number(alloc, values, &BUDGET)?,
        regions: Vec::new(alloc),
    })
}

/// What a command asks, if it asks something.
pub fn question_of(
    alloc: Global,
    name: &str,
    values: &ArgMatches<'_>,
) -> Result<Option<Question>, Misuse>
    ensures question { IfOk result (IsQuestionOf name.now (rows_of (found_of values.now))) }
    ensures refused { IfErr result (Because (HasNoNumberOf number_options (rows_of (found_of values.now)))) }
{
    match name {
        "show" => show_question(alloc, values),
        "check" => Ok(Some(Question::Cover)),
        "live" => live_question(alloc, values),
        "choose" => choose_question(alloc, values),
        _ => Ok(None),
    }
}

fn show_question(alloc: Global, values: &ArgMatches<'_>) -> Result<Option<Question>, Misuse>
    ensures question { IfOk result (IsQuestionOf (codes "show") (rows_of (found_of values.now))) }
    ensures refused { IfErr result (Because (HasNoNumberOf number_options (rows_of (found_of values.now)))) }
{
    let sharing = sharing_of(alloc, values)?;
    Ok(Some(Question::Regions(sharing)))
}

fn live_question(alloc: Global, values: &ArgMatches<'_>) -> Result<Option<Question>, Misuse>
    ensures question { IfOk result (IsQuestionOf (codes "live") (rows_of (found_of values.now))) }
    ensures refused { IfErr result (Because (HasNoNumberOf number_options (rows_of (found_of values.now)))) }
{
    let sharing = sharing_of(alloc, values)?;
    Ok(Some(Question::Live(sharing)))
}

fn choose_question(alloc: Global, values: &ArgMatches<'_>) -> Result<Option<Question>, Misuse>
    ensures question { IfOk result (IsQuestionOf (codes "choose") (rows_of (found_of values.now))) }
    ensures refused { IfErr result (Because (HasNoNumberOf number_options (rows_of (found_of values.now)))) }
{
    Ok(Some(Question::Candidates {
        sharing: sharing_of(alloc, values)?,
        cost: cost_of(alloc, values)?,
        budget: required_number(alloc, values, &BUDGET)?,
    }))
}

// The costs of a command that takes none.
static FREE: Cost = Cost {
    fixed: 0,
    dirty: 0,
    card: 0,
    byte: 0,
};

// How a command shares its work that has no option for it.
static ALONE: Sharing = Sharing {
    workers: 1,
    chunk: 1,
};

impl Question {
    /// How its answer is computed.
    ///
    /// # Errors
    ///
    /// `Fault::Settings` of a number out of its range.
    pub fn settings(self) -> Result<Settings, Fault>
        ensures cost { IfOk result (λ s. s.cost ≡ cost_asked self) }
        ensures taken { IfOk result (λ s. (which : ℕ) → RefusesQuestion self which → ⊥) }
        ensures refused { IfErr result (λ e. (which : ℕ) × RefusesQuestion self which × (e ≡ Fault.Settings which)) }
    {
        match self {
            Question::Cover => settings_of(ALONE, FREE),
            Question::Regions(sharing) | Question::Live(sharing) => settings_of(sharing, FREE),
            Question::Candidates { sharing, cost, .. } => settings_of(sharing, cost),
        }
    }
}

impl NewImage {
    /// How it is computed.
    ///
    /// # Errors
    ///
    /// `Fault::Settings` of a number out of its range, and of a budget beside regions; `Fault::Memory`.
    pub fn settings(&self, alloc: Global) -> Result<Settings, Fault>
        ensures settings { IfOk result (AreSettingsOf self.now) }
        ensures taken { IfOk result (λ s. (which : ℕ) → RefusesImage self.now which → ⊥) }
        ensures refused { IfErr result (λ e. (e ≡ Fault.Memory) ⊎ ((which : ℕ) × RefusesImage self.now which × (e ≡ Fault.Settings which))) }
    {
        match self {
            NewImage::Repacked(sharing) => settings_of(*sharing, FREE),
            NewImage::Paused(pause) => pause_settings(alloc, pause),
        }
    }
}

/// The settings of a command that has no choice of its own.
///
/// # Errors
///
/// `Fault::Settings` of a number out of its range.
pub fn settings_of(sharing: Sharing, cost: Cost) -> Result<Settings, Fault>
    ensures cost { IfOk result (λ s. s.cost ≡ cost) }
    ensures taken { IfOk result (λ s. (which : ℕ) → RefusesNumbers sharing cost which → ⊥) }
    ensures refused { IfErr result (λ e. (which : ℕ) × RefusesNumbers sharing cost which × (e ≡ Fault.Settings which)) }
{
    settings_with(sharing, cost, Choice::Budget(0))
}

// The settings of this choice, which is not looked at.
fn settings_with(sharing: Sharing, cost: Cost, choice: Choice) -> Result<Settings, Fault>
    ensures cost { IfOk result (λ s. s.cost ≡ cost) }
    ensures choice { IfOk result (λ s. s.choice ≡ choice) }
    ensures taken { IfOk result (λ s. (which : ℕ) → RefusesNumbers sharing cost which → ⊥) }
    ensures refused { IfErr result (λ e. (which : ℕ) × RefusesNumbers sharing cost which × (e ≡ Fault.Settings which)) }
{
    let settings = Settings::new(sharing.workers, sharing.chunk, cost, choice)?;
    know_ranges(&settings);
    Ok(settings)
}

// What settings keep by their type.
fn know_ranges(settings: &Settings)
    ensures workers { AreWorkers settings.now.workers }
    ensures chunk { IsChunk settings.now.chunk }
    ensures cost { IsCost settings.now.cost }
{
    let _ = (settings.workers(), settings.chunk(), settings.cost());
}

// A budget beside regions is looked for last, as the number of its fault is the highest.
fn pause_settings(alloc: Global, pause: &Pause) -> Result<Settings, Fault>
    ensures cost { IfOk result (λ s. s.cost ≡ pause.now.cost) }
    ensures choice { IfOk result (λ s. IsChoiceOf pause.now s.choice) }
    ensures taken { IfOk result (λ s. (which : ℕ) → RefusesPause pause.now which → ⊥) }
    ensures refused { IfErr result (λ e. (e ≡ Fault.Memory) ⊎ ((which : ℕ) × RefusesPause pause.now which × (e ≡ Fault.Settings which))) }
{
    match pause.budget {
        None => {
            let regions = pause.regions.as_slice().to_vec(alloc)?;
            settings_with(pause.sharing, pause.cost, Choice::Given(regions))
        }
        Some(budget) => {
            let settings = settings_with(pause.sharing, pause.cost, Choice::Budget(budget))?;
            if pause.regions.is_empty() {
                Ok(settings)
            } else {
                Err(Fault::Settings(4))
            }
        }
    }
}
