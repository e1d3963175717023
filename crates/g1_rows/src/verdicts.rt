//! What came of rows.
use std::alloc::{AllocError, Global};

/// How often a call met a request that was refused, and how often it returned `Memory` then.
#[derive(Drop)]
struct Tally {
    call: String,
    refused: u64,
    memory: u64,
}

/// What came of rows, as lines, and how many are so.
#[derive(Drop)]
pub(crate) struct Verdicts {
    text: String,
    good: u64,
    bad: u64,
    tallies: Vec<Tally>,
}

impl Verdicts {
    pub(crate) fn new(alloc: Global) -> Verdicts {
        Verdicts {
            text: String::new(alloc),
            good: 0,
            bad: 0,
            tallies: Vec::new(alloc),
        }
    }

    /// Whether there are rows, and each of them is so.
    pub(crate) fn are_good(&self) -> bool {
        self.good > 0 && self.bad == 0
    }

    pub(crate) fn pass(&mut self, shows: &str) -> Result<(), AllocError> {
        self.good = self.good.saturating_add(1);
        write!(self.text, "ok: {shows}\n")
    }

    pub(crate) fn fail(&mut self, shows: &str, why: &str) -> Result<(), AllocError> {
        self.bad = self.bad.saturating_add(1);
        write!(self.text, "FAILED: {shows}\n{why}")
    }

    /// Counts a run of a call in which a request was refused, and whether the call returned `Memory`.
    pub(crate) fn count(
        &mut self,
        alloc: Global,
        call: &str,
        is_refused: bool,
        is_memory: bool,
    ) -> Result<(), AllocError> {
        for tally in self.tallies.iter_mut() {
            if tally.call.as_str() == call {
                tally.refused = tally.refused.saturating_add(u64::from(is_refused));
                tally.memory = tally.memory.saturating_add(u64::from(is_memory));
                return Ok(());
            }
        }
        Ok(
            self.tallies.push(Tally {
                call: String::from_str(alloc, call)?,
                refused: u64::from(is_refused),
                memory: u64::from(is_memory),
            })?,
        )
    }

    /// The lines, with a line for each call that was counted, and the counts of rows behind them.
    pub(crate) fn into_text(self) -> Result<String, AllocError> {
        let Verdicts {
            mut text,
            good,
            bad,
            tallies,
        } = self;
        for tally in &tallies {
            let (call, refused, memory) = (tally.call.as_str(), tally.refused, tally.memory);
            write!(
                text,
                "{call}: {refused} runs were refused memory, {memory} returned Memory\n"
            )?;
        }
        write!(text, "{good} ok, {bad} failed\n")?;
        Ok(text)
    }
}
