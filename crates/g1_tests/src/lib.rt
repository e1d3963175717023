//! The tests that are code: what a row of `g1_rows` cannot say. A case that an image, a trace or a program's words and an
//! answer say is a row there. They are one crate, since a crate with tests is proved twice: so no library is proved a second
//! time for its tests.
//!
//! 1. `words`: addresses, and where regions and cards start. `refusals`: the line and the status of a refusal; words of a
//!    command line.
//! 2. `deal`, `work`, `claim`: chunks, work and words that threads share. `frontier`: the words that two rounds leave.
//! 3. `crowds`: that workers work at the same time, up to 64. `gates` has the gates that see it: a new case of threads
//!    begins with one of them.
//! 4. `streams`: images and pauses over readers and writers that give a byte a call, fail, are interrupted or would block.
//!    A new case takes a `Stream` of g1_testing. `images`: bytes that are nearly an image, and images at their limits.
//!
//! `expecting` has what tests begin with. Small images are drawn as lines by `g1_testing`, and large ones laid by numbers.
#![tactic(auto)]

#[cfg(test)]
mod claim;
#[cfg(test)]
mod crowds;
#[cfg(test)]
mod deal;
#[cfg(test)]
mod expecting;
#[cfg(test)]
mod frontier;
#[cfg(test)]
mod gates;
#[cfg(test)]
mod images;
#[cfg(test)]
mod refusals;
#[cfg(test)]
mod streams;
#[cfg(test)]
mod words;
#[cfg(test)]
mod work;
