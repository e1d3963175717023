//! What a row gives to its call: options, and parts as bytes.
//!
//! A word that is no number is an option, and the numbers behind it are its own. `A..B` is the numbers from A up to B:
//!
//! - `workers`, `chunk`: who does it; 1 and 64 if they are left out;
//! - `prices FIXED DIRTY CARD BYTE`: what a pause costs; 0 1 1 1 if they are left out;
//! - `budget`, or `regions` in any order: what is collected; nothing if both are left out;
//! - `addresses`: for `forward`;
//! - `cards`: for `first`, `slots_on` and `leads_into`, which asks about the region behind `into`;
//! - `left`, `right`: two rising lists, for `merged`;
//! - `count`, `bytes`: how many cards and live bytes, for `cost`; how many dirty cards, for `total`; how many chunks, for
//!   `deal` and `each_chunk`;
//! - `costs`: of two regions, for `total`.
use crate::parts::BAD;
use g1_choose::Cost;
use g1_pause::{Choice, Settings};
use g1_words::Fault;
use std::alloc::{AllocError, Global};

/// The options that there are.
const OPTIONS: [&str; 13] = [
    "workers",
    "chunk",
    "prices",
    "budget",
    "regions",
    "addresses",
    "cards",
    "into",
    "left",
    "right",
    "count",
    "bytes",
    "costs",
];

/// An option with its numbers.
#[derive(Drop)]
struct Setting {
    name: String,
    numbers: Vec<u64>,
}

/// The options and the parts that a call is given.
#[derive(Drop)]
pub(crate) struct Given {
    settings: Vec<Setting>,
    pub(crate) parts: Vec<Vec<u8>>,
}

impl Given {
    fn new(alloc: Global) -> Given {
        let (settings, parts) = (Vec::new(alloc), Vec::new(alloc));
        Given { settings, parts }
    }

    /// The options that these words say, without parts.
    ///
    /// # Errors
    ///
    /// `Fault::Line` if a word is no option, or one that is there; `Fault::Memory`.
    pub(crate) fn of_words(alloc: Global, words: &str) -> Result<Given, Fault> {
        let mut given = Given::new(alloc);
        if !words.is_empty() {
            given.push_words(alloc, words)?;
        }
        Ok(given)
    }

    /// Adds the options that these words say.
    pub(crate) fn push_words(&mut self, alloc: Global, words: &str) -> Result<(), Fault> {
        for word in words.split(' ') {
            self.push_word(alloc, word)?;
        }
        Ok(())
    }

    fn push_word(&mut self, alloc: Global, word: &str) -> Result<(), Fault> {
        if OPTIONS.contains(&word) {
            return self.push_option(alloc, word);
        }
        let last = self.settings.last_mut().ok_or(BAD)?;
        let (from, to) = word.split_once("..").unwrap_or((word, ""));
        let from = from.parse::<u64>().ok().ok_or(BAD)?;
        if to.is_empty() {
            return Ok(last.numbers.push(from)?);
        }
        for number in from..to.parse::<u64>().ok().ok_or(BAD)? {
            last.numbers.push(number)?;
        }
        Ok(())
    }

    fn push_option(&mut self, alloc: Global, name: &str) -> Result<(), Fault> {
        if self.setting(name).is_some() {
            return Err(BAD);
        }
        let name = String::from_str(alloc, name)?;
        let numbers = Vec::new(alloc);
        Ok(self.settings.push(Setting { name, numbers })?)
    }

    /// The same options with these parts.
    pub(crate) fn with(&self, alloc: Global, parts: &[Vec<u8>]) -> Result<Given, AllocError> {
        let mut same = Given::new(alloc);
        for setting in &self.settings {
            let name = String::from_str(alloc, setting.name.as_str())?;
            let numbers = setting.numbers.to_vec(alloc)?;
            same.settings.push(Setting { name, numbers })?;
        }
        for part in parts {
            same.parts.push(part.to_vec(alloc)?)?;
        }
        Ok(same)
    }

    fn setting(&self, name: &str) -> Option<&Setting> {
        for setting in &self.settings {
            if setting.name.as_str() == name {
                return Some(setting);
            }
        }
        None
    }

    /// The numbers of an option; none if it is not there.
    pub(crate) fn numbers(&self, option: &str) -> &[u64] {
        match self.setting(option) {
            Some(setting) => setting.numbers.as_slice(),
            None => &[],
        }
    }

    /// The first number of an option, or another one.
    pub(crate) fn first(&self, option: &str, other: u64) -> u64 {
        self.numbers(option).first().copied().unwrap_or(other)
    }

    /// The numbers of an option as regions or cards. One that is too great is none of any heap.
    pub(crate) fn short_numbers(
        &self,
        alloc: Global,
        option: &str,
    ) -> Result<Vec<u32>, AllocError> {
        let mut short = Vec::new(alloc);
        for number in self.numbers(option) {
            short.push(u32::try_from(*number).unwrap_or(u32::MAX))?;
        }
        Ok(short)
    }

    /// The bytes of a part; none if it is not there.
    pub(crate) fn part(&self, place: usize) -> &[u8] {
        match self.parts.get(place) {
            Some(part) => part.as_slice(),
            None => &[],
        }
    }

    /// What the parts of a pause cost: what the programs charge if no option says another.
    fn prices(&self) -> Cost {
        let (fixed, dirty, card, byte) = match self.numbers("prices") {
            [fixed, dirty, card, byte] => (*fixed, *dirty, *card, *byte),
            _ => (0, 1, 1, 1),
        };
        Cost {
            fixed,
            dirty,
            card,
            byte,
        }
    }

    /// The settings of a pause by this many workers in chunks of this size.
    ///
    /// # Errors
    ///
    /// `Fault::Settings` if one of them is beyond its limits; `Fault::Memory`.
    pub(crate) fn pause(&self, alloc: Global, workers: u64, chunk: u64) -> Result<Settings, Fault> {
        let choice = match self.numbers("budget").first() {
            Some(budget) => Choice::Budget(*budget),
            None => Choice::Given(self.short_numbers(alloc, "regions")?),
        };
        Settings::new(workers, chunk, self.prices(), choice)
    }

    /// Adds the options to a text.
    pub(crate) fn push_shown(&self, text: &mut String) -> Result<(), AllocError> {
        for setting in &self.settings {
            write!(text, " {}", setting.name)?;
            for number in &setting.numbers {
                write!(text, " {number}")?;
            }
        }
        Ok(())
    }
}
