//! The words of an image, straight from their bytes to their places.
ghost use Rattle.std.specs.Prelude.{◌≡◌, ◌≤◌, ◌<◌, ◌*◌, ◌^◌, ◌++◌, ◌+◌, ℕ, List, [], length, map, replicate, OnOk, IfOk, IfErr};
ghost use Rattle.std.specs.Io.KnownBytes.{Keeps};
ghost use Rattle.g1_words.specs.Geometry.{most_regions, most_words};
ghost use Rattle.g1_image.specs.Text.{words_of, table_words};
ghost use Rattle.g1_words.specs.Words.{AreLaid};
ghost use Rattle.g1_image.specs.Image.{all_words, region_of_entry};
ghost use Rattle.g1_image.specs.Reading.{IsBytes};
ghost use Rattle.g1_image.specs.Ahead.{waiting, to_take, KnowsEnd, Takes, TakeFails, region_words};
ghost use Rattle.g1_image.specs.Growing.{laid_words};

use crate::ahead::Ahead;
use crate::cursor::Entry;
use crate::source::Source;
use crate::table::table_words as announced;
use byteorder::{ByteOrder, LittleEndian};
use g1_words::{Fault, Words};
use std::alloc::{AllocError, Global};

// So many words at most are read at once: few enough to be in the nearest cache when they are written at
// the end. So no zeros are written there first.
const WORDS_AT_ONCE: u32 = 512;

/// Writes the first words of the bytes at the end.
fn push_read(out: &mut Vec<u64>, count: u32, bytes: &[u8]) -> Result<(), AllocError>
    requires few { count ≤ 512 }
    requires there { 8 * count ≤ length bytes.now }
    ensures { OnOk result (out.new.items ≡ out.old.items ++ words_of count bytes.now) }
{
    let count = count as usize;
    let mut room = [0u64; WORDS_AT_ONCE as usize];
    let words = &mut room[..count];
    LittleEndian::read_u64_into(&bytes[..8 * count], words);
    out.extend_from_slice(words)?;
    Ok(())
}

/// Writes zeros at the end.
fn push_zeros(out: &mut Vec<u64>, count: u32) -> Result<(), AllocError>
    ensures { OnOk result (out.new.items ≡ out.old.items ++ replicate count 0) }
{
    let filled = out.len() + count as usize;
    out.resize(filled, 0)
}

/// How many whole words wait: at least one, and no more than are wanted.
fn words_ahead<S: Source>(source: &mut S, ahead: &mut Ahead, wanted: u32) -> Result<u32, Fault>
    requires some { 0 < wanted }
    requires known { KnowsEnd ahead.old (S.left source.old) }
    ensures known { KnowsEnd ahead.new (S.left source.new) }
    ensures count { IfOk result (λ n. (0 < n) × (n ≤ wanted) × (8 * n ≤ length (waiting ahead.new))) }
    ensures are_bytes { OnOk result (IsBytes (waiting ahead.new)) }
    ensures kept { OnOk result (Keeps (to_take ahead.old (S.left source.old)) (to_take ahead.new (S.left source.new))) }
    ensures mark { OnOk result (S.failed source.new ≡ S.failed source.old) }
    ensures err { IfErr result (TakeFails (S.failed source.old) (S.failed source.new) (to_take ahead.old (S.left source.old)) 8) }
{
    if !ahead.reach(source, 8)? {
        return Err(Fault::Short);
    }
    let whole = ahead.bytes().len() / 8;
    Ok(whole.min(wanted as usize) as u32)
}

/// Writes the next words at the end.
fn push_next<S: Source>(
    source: &mut S,
    ahead: &mut Ahead,
    out: &mut Vec<u64>,
    count: u32,
) -> Result<(), Fault>
    requires known { KnowsEnd ahead.old (S.left source.old) }
    ensures known { KnowsEnd ahead.new (S.left source.new) }
    ensures ok { OnOk result ((bs : List ℕ) × Takes (S.failed source.old) (S.failed source.new) (to_take ahead.old (S.left source.old)) (to_take ahead.new (S.left source.new)) bs × (length bs ≡ 8 * count) × (out.new.items ≡ out.old.items ++ words_of count bs)) }
    ensures err { IfErr result (TakeFails (S.failed source.old) (S.failed source.new) (to_take ahead.old (S.left source.old)) (8 * count)) }
{
    let mut left = count;
    while left > 0 {
        let here = words_ahead(source, ahead, left.min(WORDS_AT_ONCE))?;
        push_read(out, here, ahead.bytes())?;
        ahead.pass(8 * here as usize);
        left -= here;
    }
    Ok(())
}

/// Passes over the next words.
fn skip_words<S: Source>(source: &mut S, ahead: &mut Ahead, count: u32) -> Result<(), Fault>
    requires known { KnowsEnd ahead.old (S.left source.old) }
    ensures known { KnowsEnd ahead.new (S.left source.new) }
    ensures ok { OnOk result ((bs : List ℕ) × Takes (S.failed source.old) (S.failed source.new) (to_take ahead.old (S.left source.old)) (to_take ahead.new (S.left source.new)) bs × (length bs ≡ 8 * count)) }
    ensures err { IfErr result (TakeFails (S.failed source.old) (S.failed source.new) (to_take ahead.old (S.left source.old)) (8 * count)) }
{
    let mut left = count;
    while left > 0 {
        let here = words_ahead(source, ahead, left)?;
        ahead.pass(8 * here as usize);
        left -= here;
    }
    Ok(())
}

/// The words of the regions so far: those in the list, and so many zeros behind them. The zeros come
/// into the list with the words that follow them.
#[derive(Drop)]
struct Growing {
    words: Vec<u64>,
    zeros: u32,
}

/// Writes the zeros that are still to come, once so many words wait.
fn push_gap<S: Source>(
    source: &mut S,
    ahead: &mut Ahead,
    laid: &mut Growing,
    wanted: u64,
) -> Result<(), Fault>
    requires known { KnowsEnd ahead.old (S.left source.old) }
    requires small { wanted ≤ 2 ^ 44 }
    ensures known { KnowsEnd ahead.new (S.left source.new) }
    ensures none { OnOk result (Takes (S.failed source.old) (S.failed source.new) (to_take ahead.old (S.left source.old)) (to_take ahead.new (S.left source.new)) []) }
    ensures words { OnOk result (laid.new.words.items ≡ laid.old.words.items ++ replicate laid.old.zeros 0) }
    ensures err { IfErr result (TakeFails (S.failed source.old) (S.failed source.new) (to_take ahead.old (S.left source.old)) (8 * wanted)) }
{
    if !ahead.reach(source, 8 * wanted as usize)? {
        return Err(Fault::Short);
    }
    push_zeros(&mut laid.words, laid.zeros)?;
    Ok(())
}

/// The list is at most this many times as long as the words that are known to be there. A smaller number
/// makes more words wait if free regions come first, more than a cache holds: at 64, two megabytes.
const LENGTHENED: u64 = 64;

/// How many words have to wait before the list reaches up to a place: a part of them, or all that are
/// left. A short text that announces large regions takes no room for them.
fn words_wanted(place: u64, taken: u64, left: u64) -> u64
    ensures { result ≤ left }
{
    left.min((place / LENGTHENED).saturating_sub(taken))
}

/// How many of the words that the table announces were taken, and how many are left.
#[derive(Clone, Copy)]
struct Announced {
    taken: u64,
    left: u64,
}

/// Writes a region's words at the end: its used words, and zeros after them.
fn push_region<S: Source>(
    source: &mut S,
    ahead: &mut Ahead,
    laid: &mut Growing,
    w: u32,
    top: u32,
    words: Announced,
) -> Result<(), Fault>
    requires known { KnowsEnd ahead.old (S.left source.old) }
    requires sizes { laid.old.zeros + w ≤ 2 * most_words }
    requires small { words.left ≤ 2 ^ 44 }
    requires there { top ≤ words.left }
    ensures known { KnowsEnd ahead.new (S.left source.new) }
    ensures ok { OnOk result ((bs : List ℕ) × Takes (S.failed source.old) (S.failed source.new) (to_take ahead.old (S.left source.old)) (to_take ahead.new (S.left source.new)) bs × (length bs ≡ 8 * top) × (laid_words laid.new ≡ laid_words laid.old ++ region_words w top bs)) }
    ensures zeros { OnOk result (laid.new.zeros ≤ laid.old.zeros + w) }
    ensures longer { OnOk result (length laid.old.words.items ≤ length laid.new.words.items) }
    ensures used { OnOk result ((i : ℕ) → i < w → i < top → length (laid_words laid.old) + i < length laid.new.words.items) }
    ensures err { IfErr result (TakeFails (S.failed source.old) (S.failed source.new) (to_take ahead.old (S.left source.old)) (8 * words.left)) }
{
    if top == 0 {
        laid.zeros += w;
        return Ok(());
    }
    let place = laid.words.len() as u64 + u64::from(laid.zeros);
    push_gap(
        source,
        ahead,
        laid,
        words_wanted(place, words.taken, words.left),
    )?;
    let used = top.min(w);
    push_next(source, ahead, &mut laid.words, used)?;
    skip_words(source, ahead, top - used)?;
    laid.zeros = w - used;
    Ok(())
}

/// The words of the regions, from the bytes that come next: each region's used words first and zeros
/// after them. The list grows with the words that are there.
pub(crate) fn lay_pieces<S: Source>(
    alloc: Global,
    w: u32,
    table: &[Entry],
    source: &mut S,
    ahead: &mut Ahead,
) -> Result<Words, Fault>
    requires count { length table.now ≤ most_regions }
    requires sizes { length table.now * w ≤ most_words }
    requires known { KnowsEnd ahead.old (S.left source.old) }
    ensures known { KnowsEnd ahead.new (S.left source.new) }
    ensures ok { IfOk result (λ v. (bs : List ℕ) × Takes (S.failed source.old) (S.failed source.new) (to_take ahead.old (S.left source.old)) (to_take ahead.new (S.left source.new)) bs × (length bs ≡ 8 * table_words table.now) × (v.items ≡ all_words w table.now (words_of (table_words table.now) bs))) }
    ensures laid { IfOk result (λ v. AreLaid w (map region_of_entry table.now) v.laid) }
    ensures err { IfErr result (TakeFails (S.failed source.old) (S.failed source.new) (to_take ahead.old (S.left source.old)) (8 * table_words table.now)) }
{
    let total = announced(table);
    let mut laid = Growing {
        words: Vec::new(alloc),
        zeros: 0,
    };
    let mut taken = 0;
    for e in table {
        let left = total - taken;
        push_region(
            source,
            ahead,
            &mut laid,
            w,
            e.top,
            Announced { taken, left },
        )?;
        taken += u64::from(e.top);
    }
    let Growing { words, zeros } = laid;
    Ok(Words::new(words, zeros as usize)?)
}
