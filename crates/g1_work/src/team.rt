ghost use Rattle.std.specs.Prelude.{◌≡◌, ◌<◌, ◌≤◌, ◌/◌, min, max};
ghost use Rattle.g1_work.specs.Team.{AreWorkers, IsChunk, IsTeam};

use std::marker::Model;

/// Each worker needs a share of a dealer, which has as many.
pub const MOST_WORKERS: u64 = 64;

/// A draw costs nothing beside this many items: larger chunks would only leave other workers idle.
pub const MOST_CHUNK: u64 = 65_536;

/// The chunk where none is asked for. With one worker it changes nothing.
pub const USUAL_CHUNK: u64 = 64;

/// How many threads some items feed: each has the least number of them that is worth a thread, and no
/// more threads run than there are workers. One runs in any case.
///
/// # Examples
///
/// ```
/// use g1_work::threads_for;
///
/// // 5,000 items feed two threads if one is worth starting for 2,000.
/// assert_eq!(rt; threads_for(8, 5000, 2000), 2);
/// assert_eq!(rt; threads_for(8, 100, 2000), 1);
/// assert_eq!(rt; threads_for(8, 100_000, 2000), 8);
/// ```
pub fn threads_for(workers: u64, items: usize, least: usize) -> usize
    requires { 0 < least }
    ensures { result ≡ max 1 (min workers (items / least)) }
{
    (workers as usize).min(items / least).max(1)
}

/// How many workers share some work, and how many items one of them draws at once: 1 to 64 and 1 to
/// 65,536, by the type.
pub struct Team {
    workers: u64,
    chunk: u64,
}

impl Model for Team {
    ghost use Rattle.g1_work.specs.Team.{Team as Sizes, AreWorkers, IsChunk};

    ghost Value = { Sizes };

    ghost view = { λ t. record { workers = t.workers; chunk = t.chunk } };

    ghost invariant = { λ t. AreWorkers t.workers × IsChunk t.chunk };

    ghost inverse = { λ v. record { workers = v.workers; chunk = v.chunk } };
}

impl Clone for Team {
    fn clone(&self) -> Result<Self, std::alloc::AllocError> {
        Ok(*self)
    }
}

impl Copy for Team {}

impl Team {
    /// A team of this many workers that draw this many items at once.
    ///
    /// # Examples
    ///
    /// ```
    /// use g1_work::{Team, USUAL_CHUNK};
    ///
    /// let team = Team::new(8, USUAL_CHUNK);
    /// assert_eq!(rt; (team.workers(), team.chunk()), (8, 64));
    /// ```
    pub fn new(workers: u64, chunk: u64) -> Team
        requires { IsTeam workers chunk }
        ensures workers { result.workers ≡ workers }
        ensures chunk { result.chunk ≡ chunk }
    {
        Team { workers, chunk }
    }

    /// How many workers share the work.
    ///
    /// # Examples
    ///
    /// ```
    /// use g1_work::Team;
    ///
    /// assert_eq!(rt; Team::new(8, 64).workers(), 8);
    /// ```
    pub fn workers(&self) -> u64
        ensures value { result ≡ self.now.workers }
        ensures range { AreWorkers result }
    {
        self.workers
    }

    /// How many items a worker draws at once.
    ///
    /// # Examples
    ///
    /// ```
    /// use g1_work::Team;
    ///
    /// assert_eq!(rt; Team::new(8, 64).chunk(), 64);
    /// ```
    pub fn chunk(&self) -> u64
        ensures value { result ≡ self.now.chunk }
        ensures range { IsChunk result }
    {
        self.chunk
    }

    /// As many of its workers as there are chunks, but one in any case.
    ///
    /// # Examples
    ///
    /// ```
    /// use g1_work::Team;
    ///
    /// let team = Team::new(8, 64);
    /// assert_eq!(rt; team.for_chunks(3).workers(), 3);
    /// assert_eq!(rt; team.for_chunks(0).workers(), 1);
    /// assert_eq!(rt; team.for_chunks(100).workers(), 8);
    /// ```
    pub fn for_chunks(&self, chunks: u64) -> Team
        ensures range { AreWorkers result.workers }
        ensures workers { result.workers ≡ max 1 (min self.now.workers chunks) }
        ensures chunk { result.chunk ≡ self.now.chunk }
    {
        Team::new(self.workers.min(chunks).max(1), self.chunk)
    }
}
