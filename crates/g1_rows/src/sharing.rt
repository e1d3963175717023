//! Words that threads share, and work that they share.
use crate::calling::Call;
use crate::watch::Watch;
use g1_claim::Claims;
use g1_deal::Dealer;
use g1_words::Fault;
use g1_work::{Fill, Open, Task, each_chunk, each_region_mut};
use std::thread::Threads;

/// A dealer: the shares of its seat, those of that and of another one, and when it has its share back; what each of
/// five draws gives, as the count of chunks if there is none left; how many the other seat sees drawn after the first; and the cursor.
pub(crate) fn deal<R>(call: &Call<'_, R>, watch: &mut Watch) -> Result<(), Fault> {
    let chunks = call.given.first("count", 1).min(1_000);
    watch.at("deal");
    let (dealer, mut seat) = Dealer::new(call.alloc, chunks)?;
    let whole = g1_deal::shares(&seat);
    let mut other = dealer.split(&mut seat);
    let (left, split) = (g1_deal::shares(&seat), g1_deal::shares(&other));
    let first = dealer.take(&mut seat);
    let drawn = dealer.drawn(&mut other);
    dealer.join(&mut seat, other);
    let joined = g1_deal::shares(&seat);
    let second = dealer.take(&mut seat);
    let third = dealer.take(&mut seat);
    let fourth = dealer.take(&mut seat);
    let fifth = dealer.take(&mut seat);
    let cursor = dealer.close(seat);
    if watch.is_over() {
        watch.list(&[whole, left, split, joined]);
        for draw in [first, second, third, fourth, fifth] {
            watch.list(&[draw.unwrap_or(chunks)]);
        }
        watch.list(&[drawn, cursor]);
    }
    Ok(())
}

/// A table of two claim words: the shares of its seat; those of that and of another one, and when it has its share back;
/// whether each of four ranks lowers the first word; what the other seat sees there, before and after; and the words.
pub(crate) fn claim<R>(call: &Call<'_, R>, watch: &mut Watch) -> Result<(), Fault> {
    watch.at("claim");
    let (claims, mut seat) = Claims::new(call.alloc, 2)?;
    let whole = g1_claim::shares(&seat);
    let mut other = claims.split(&mut seat);
    let (left, split) = (g1_claim::shares(&seat), g1_claim::shares(&other));
    let before = claims.least(&mut other, 0);
    let first = claims.offer(&mut seat, 0, 9);
    let second = claims.offer(&mut seat, 0, 9);
    let third = claims.offer(&mut seat, 0, 12);
    let fourth = claims.offer(&mut seat, 0, 4);
    let after = claims.least(&mut other, 0);
    claims.join(&mut seat, other);
    let joined = g1_claim::shares(&seat);
    let words = claims.close(seat);
    if watch.is_over() {
        watch.list(&[whole, left, split, joined]);
        watch.list(&[first, second, third, fourth]);
        watch.list(&[before, after]);
        watch.list(words.as_slice());
    }
    Ok(())
}

/// Gives the square of its chunk.
struct Squares;

impl Task for Squares {
    type State = ();

    type Out = u64;

    ghost ready = { λ _ _ _. Unit {0} };

    ghost runs = { λ _ _ _ _ _. Unit {0} };

    ghost may_fail = { λ _ _ _. ⊥ };

    fn run(&self, _state: &mut (), chunk: u64) -> Result<u64, Fault> {
        Ok(chunk.wrapping_mul(chunk))
    }
}

/// The squares of this many chunks.
pub(crate) fn square<R: Threads + Sync>(
    call: &Call<'_, R>,
    watch: &mut Watch,
) -> Result<(), Fault> {
    let states = vec![in call.alloc; (); call.settings.workers() as usize]?;
    let chunks = call.given.first("count", 0).min(1_000);
    watch.at("each_chunk");
    let (_, outs) = each_chunk(call.rt, call.alloc, states, chunks, &Squares, &Open)?;
    watch.numbers(outs.as_slice());
    Ok(())
}

/// Writes a region's number over its words.
struct Numbers;

impl Fill for Numbers {
    ghost ready = { λ _ _ _. Unit {0} };

    ghost fills = { λ _ _ _ _. Unit {0} };

    fn fill(&self, region: usize, words: &mut [u64]) {
        words.fill(region as u64);
    }
}

/// Seven regions of two words.
pub(crate) fn number<R: Threads + Sync>(call: &Call<'_, R>, watch: &mut Watch) {
    let mut words = [9; 14];
    watch.at("each_region_mut");
    each_region_mut(
        call.rt,
        call.settings.workers(),
        &mut words,
        2,
        &Numbers,
        &Open,
    );
    watch.numbers(&words);
}
