ghost use Rattle.std.specs.Prelude.{◌≡◌, ℕ, IfOk, IfErr, OnOk, ◌↔◌, IsTrue};
ghost use Rattle.g1_choose.specs.Cost.{IsCost};
ghost use Rattle.g1_work.specs.Team.{AreWorkers, IsChunk};
ghost use Rattle.g1_pause.specs.Settings.{IsRefused};

use g1_choose::Cost;
use g1_words::Fault;
use g1_work::{MOST_CHUNK, MOST_WORKERS, Team};
use std::marker::Model;

/// Which regions a pause collects.
#[derive(Debug, Drop)]
pub enum Choice {
    /// Those that give most garbage for their cost, as far as this budget goes.
    Budget(u64),
    /// These, in whatever order they are given.
    Given(Vec<u32>),
}

/// How a pause is run, and what it is to collect.
#[derive(Drop)]
pub struct Settings {
    team: Team,
    cost: Cost,
    choice: Choice,
}

impl Model for Settings {
    ghost use Rattle.g1_pause.specs.Settings.{Settings as SettingsOf};
    ghost use Rattle.g1_choose.specs.Cost.{IsCost};

    ghost Value = { SettingsOf };

    ghost view = { λ s. record { workers = s.team.workers; chunk = s.team.chunk; cost = s.cost; choice = s.choice } };

    ghost invariant = { λ s. IsCost s.cost };
}

fn are_workers(workers: u64) -> bool
    ensures { IsTrue result ↔ AreWorkers workers }
{
    1 <= workers && workers <= MOST_WORKERS
}

fn is_chunk(chunk: u64) -> bool
    ensures { IsTrue result ↔ IsChunk chunk }
{
    1 <= chunk && chunk <= MOST_CHUNK
}

const COST_RANGE: u64 = 4_294_967_296;

fn is_cost(cost: &Cost) -> bool
    ensures { IsTrue result ↔ IsCost cost.now }
{
    cost.fixed < COST_RANGE
        && cost.dirty < COST_RANGE
        && cost.card < COST_RANGE
        && cost.byte < COST_RANGE
}

impl Settings {
    /// Settings of 1 to 64 workers that draw chunks of 1 to 65,536 items, with cost parameters below
    /// 2^32 each. The choice is not looked at, and is given up if the settings are refused.
    ///
    /// # Errors
    ///
    /// `Fault::Settings` with the lowest number of what is out of range: 1 the workers, 2 the chunk,
    /// 3 a cost parameter.
    ///
    /// # Examples
    ///
    /// ```
    /// use g1_choose::Cost;
    /// use g1_pause::{Choice, Settings};
    /// use g1_words::Fault;
    ///
    /// let cost = Cost { fixed: 10, dirty: 1, card: 1, byte: 1 };
    /// let settings = Settings::new(8, 64, cost, Choice::Budget(42))?;
    /// assert_eq!(rt; (settings.workers(), settings.chunk()), (8, 64));
    /// // 65 workers are one too many.
    /// let refused = Settings::new(65, 64, cost, Choice::Budget(42)).err();
    /// assert_eq!(rt; refused, Some(Fault::Settings(1)));
    /// ```
    pub fn new(workers: u64, chunk: u64, cost: Cost, choice: Choice) -> Result<Settings, Fault>
        ensures ok { IfOk result (λ s. s ≡ record { workers = workers; chunk = chunk; cost = cost; choice = choice }) }
        ensures err { IfErr result (λ e. (which : ℕ) × IsRefused workers chunk cost which × (e ≡ Fault.Settings which)) }
    {
        if !are_workers(workers) {
            return Err(Fault::Settings(1));
        }
        if !is_chunk(chunk) {
            return Err(Fault::Settings(2));
        }
        if !is_cost(&cost) {
            return Err(Fault::Settings(3));
        }
        let team = Team::new(workers, chunk);
        Ok(Settings { team, cost, choice })
    }

    /// How many workers share the pause, and how many items one of them draws at once.
    ///
    /// # Examples
    ///
    /// ```
    /// use g1_choose::Cost;
    /// use g1_pause::{Choice, Settings};
    ///
    /// let cost = Cost { fixed: 10, dirty: 1, card: 1, byte: 1 };
    /// let settings = Settings::new(8, 64, cost, Choice::Budget(42))?;
    /// let team = settings.team();
    /// assert_eq!(rt; (team.workers(), team.chunk()), (8, 64));
    /// ```
    pub fn team(&self) -> Team
        ensures workers { result.workers ≡ self.now.workers }
        ensures chunk { result.chunk ≡ self.now.chunk }
    {
        self.team
    }

    /// How many workers share the pause.
    ///
    /// # Examples
    ///
    /// ```
    /// use g1_choose::Cost;
    /// use g1_pause::{Choice, Settings};
    ///
    /// let cost = Cost { fixed: 10, dirty: 1, card: 1, byte: 1 };
    /// let settings = Settings::new(8, 64, cost, Choice::Budget(42))?;
    /// assert_eq!(rt; settings.workers(), 8);
    /// ```
    pub fn workers(&self) -> u64
        ensures value { result ≡ self.now.workers }
        ensures range { AreWorkers self.now.workers }
    {
        self.team.workers()
    }

    /// How many items a worker draws at once.
    ///
    /// # Examples
    ///
    /// ```
    /// use g1_choose::Cost;
    /// use g1_pause::{Choice, Settings};
    ///
    /// let cost = Cost { fixed: 10, dirty: 1, card: 1, byte: 1 };
    /// let settings = Settings::new(8, 64, cost, Choice::Budget(42))?;
    /// assert_eq!(rt; settings.chunk(), 64);
    /// ```
    pub fn chunk(&self) -> u64
        ensures value { result ≡ self.now.chunk }
        ensures range { IsChunk self.now.chunk }
    {
        self.team.chunk()
    }

    /// What the parts of a pause cost.
    ///
    /// # Examples
    ///
    /// ```
    /// use g1_choose::Cost;
    /// use g1_pause::{Choice, Settings};
    ///
    /// let cost = Cost { fixed: 10, dirty: 1, card: 1, byte: 1 };
    /// let settings = Settings::new(8, 64, cost, Choice::Budget(42))?;
    /// assert_eq!(rt; settings.cost(), cost);
    /// ```
    pub fn cost(&self) -> Cost
        ensures value { result ≡ self.now.cost }
        ensures range { IsCost self.now.cost }
    {
        self.cost
    }

    /// Which regions it is to collect.
    ///
    /// # Examples
    ///
    /// ```
    /// use g1_choose::Cost;
    /// use g1_pause::{Choice, Settings};
    ///
    /// let cost = Cost { fixed: 10, dirty: 1, card: 1, byte: 1 };
    /// let settings = Settings::new(8, 64, cost, Choice::Budget(42))?;
    /// assert!(rt; matches!(settings.choice(), Choice::Budget(42)));
    /// ```
    pub fn choice(&self) -> &Choice
        ensures { result.now ≡ self.now.choice }
    {
        &self.choice
    }
}
