//! That workers work at the same time, up to the 64 that there may be.
ghost use Rattle.std.specs.Prelude.{◌<◌, ◌^◌};
ghost use Rattle.g1_work.specs.Team.{AreWorkers};

use crate::expecting::{UNIT, collecting, expect_bytes, expect_equal, expect_list};
use crate::gates::{Counting, Crowd};
use crate::work::{Numbers, squared_chunks};
use g1_image::{decode, encode};
use g1_mark::live_bytes;
use g1_pause::{Settings, evacuate};
use g1_rem::{Starts, image, verify};
use g1_testing::pictures::{shared, shared_after};
use g1_testing::{raw, text};
use g1_trace::run_text;
use g1_words::Fault;
use g1_work::{Gate, Part, Team, USUAL_CHUNK, each_region_mut};
use std::alloc::Global;
use std::ops::Range;
use std::process::Abort;
use std::thread::Threads;
use std::time::Clock;

/// Sees that this many workers fill regions at the same time.
fn expect_filled<T: Threads + Clock + Abort + Sync>(
    rt: &T,
    alloc: Global,
    workers: u64,
    regions: u64,
) -> Result<(), Fault>
    requires { AreWorkers workers }
{
    let gate = Crowd::new(rt, Part::Fill, workers, 1);
    let mut words = vec![in alloc; u64::MAX; regions as usize]?;
    each_region_mut(rt, workers, &mut words, 1, &Numbers, &gate);
    expect_equal(rt, gate.met(), 1);
    for (region, word) in words.iter().enumerate() {
        expect_equal(rt, *word, region as u64);
    }
    Ok(())
}

#[test]
fn all_workers_fill_regions_at_once(rt: HostRuntime) -> Result<(), Fault> {
    let alloc = rt.alloc();
    for (workers, regions) in [
        (2, 8),
        (5, 5),
        (9, 64),
        (17, 17),
        (33, 100),
        (64, 64),
        (64, 1_000),
    ] {
        expect_filled(&rt, alloc, workers, regions)?;
    }
    Ok(())
}

/// Sees that this many workers draw chunks at the same time.
fn expect_drawn<T: Threads + Clock + Abort + Sync>(
    rt: &T,
    alloc: Global,
    workers: u64,
    chunks: u64,
) -> Result<(), Fault>
    requires workers { AreWorkers workers }
    requires chunks { chunks < 2 ^ 32 }
{
    let gate = Crowd::new(rt, Part::Deal, workers, 1);
    let (_, outs) = squared_chunks(rt, alloc, workers as usize, chunks, &gate)?;
    expect_equal(rt, gate.met(), 1);
    expect_equal(rt, outs.len() as u64, chunks);
    for (chunk, out) in outs.iter().enumerate() {
        expect_equal(rt, *out, (chunk as u64).wrapping_mul(chunk as u64));
    }
    Ok(())
}

#[test]
fn all_workers_draw_chunks_at_once(rt: HostRuntime) -> Result<(), Fault> {
    let alloc = rt.alloc();
    for (workers, chunks) in [(2, 9), (2, 64), (2, 1_000), (3, 3), (4, 1_000), (5, 5)] {
        expect_drawn(&rt, alloc, workers, chunks)?;
    }
    for (workers, chunks) in [(9, 9), (17, 100), (33, 33), (64, 64), (64, 1_000)] {
        expect_drawn(&rt, alloc, workers, chunks)?;
    }
    Ok(())
}

/// The bytes of an image after a pause.
fn bytes_after<R: Threads + Sync, G: Gate + Sync>(
    rt: &R,
    alloc: Global,
    before: &[u8],
    settings: &Settings,
    gate: &G,
) -> Result<Vec<u8>, Fault> {
    let before = match verify(rt, alloc, decode(alloc, before)?) {
        Ok(before) => before,
        Err((_, fault)) => return Err(fault),
    };
    match evacuate(rt, alloc, before, settings, gate) {
        Ok((after, _)) => encode(alloc, image(&after)),
        Err((_, fault)) => Err(fault),
    }
}

/// Sees what a pause of this many workers that collects region 1 makes of the first heap: the second.
fn expect_pause<T: Threads + Abort + Sync, G: Gate + Sync>(
    rt: &T,
    alloc: Global,
    heaps: (&str, &str),
    workers: u64,
    gate: &G,
) -> Result<(), Fault> {
    let before = text(alloc, heaps.0)?;
    let settings = collecting(alloc, &[1], workers, 1)?;
    let found = bytes_after(rt, alloc, &before, &settings, gate)?;
    expect_list(rt, &found, &text(alloc, heaps.1)?);
    Ok(())
}

/// Two workers meet in both rounds of the search, and two and three when they write: nothing is written behind the
/// third region, which is filled.
#[test]
fn workers_meet_in_each_round(rt: HostRuntime) -> Result<(), Fault> {
    for (part, workers, times) in [(Part::Deal, 2, 2), (Part::Fill, 2, 1), (Part::Fill, 3, 1)] {
        let gate = Crowd::new(&rt, part, workers, times);
        expect_pause(&rt, rt.alloc(), (shared(), shared_after()), workers, &gate)?;
        expect_equal(&rt, gate.met(), times);
    }
    Ok(())
}

/// An object of the last region references one of the set.
const LAST: &str = "heap 16 4 4
    root 48
    region 0 ordinary
    object 2/0 7
    region 1 ordinary
    remembered 1 cards 12
    object 2/0 8
    region 3 ordinary
    object 2/1 16";

/// Its slot is patched, behind the region that is filled.
const LAST_AFTER: &str = "heap 16 4 4
    root 48
    region 0 ordinary
    object 2/0 7
    region 2 ordinary
    remembered 2 cards 12
    object 2/0 8
    region 3 ordinary
    object 2/1 32";

#[test]
fn four_workers_write_up_to_the_last_patch(rt: HostRuntime) -> Result<(), Fault> {
    let gate = Crowd::new(&rt, Part::Fill, 4, 1);
    expect_pause(&rt, rt.alloc(), (LAST, LAST_AFTER), 4, &gate)?;
    expect_equal(&rt, gate.met(), 1);
    Ok(())
}

#[test]
fn a_commit_fills_a_run_for_each_worker(rt: HostRuntime) -> Result<(), Fault> {
    let gate = Counting::new(Part::Fill);
    expect_pause(&rt, rt.alloc(), (shared(), shared_after()), 3, &gate)?;
    expect_equal(&rt, gate.calls(), 0x01_0101);
    Ok(())
}

/// The one root references a humongous object of 33 regions, whose slots reference the 131,072 objects of one word each that
/// fill the 32 regions behind it.
const FIELD: &str = "G1IMAGE2 4096 64 128 1 0 128 \
    2,4096,0 3,4096,0*31 3,1,0 1,4096,0*32 0,0,0*63 =1 0*33 65,0+64..65+64*32 0*63 \
    131073/131072 =135169+1*131072 1/0*131072";

/// The objects of the field stand behind the regions that were theirs.
const FIELD_AFTER: &str = "G1IMAGE2 4096 64 128 1 0 128 \
    2,4096,0 3,4096,0*31 3,1,0 0,0,0*32 1,4096,0*32 0,0,0*31 =1 0*65 65,0+64..65+64*32 0*31 \
    131073/131072 =266241+1*131072 1/0*131072";

/// The root and the cards of the slots are one chunk, and the objects of the field 64.
const CHUNK: u64 = 2_060;

/// Each of 128 regions, two of which have as many words as are worth a worker, has one object that leaves no room for another.
const WIDE: &str = "G1IMAGE2 65536 64 256 128 0 256 \
    1,49152,0*128 0,0,0*128 =1+65536*128 0*256 49152/0,0..98302*128";

/// The objects of the wide heap stand in the other 128 regions.
const WIDE_AFTER: &str = "G1IMAGE2 65536 64 256 128 0 256 \
    0,0,0*128 1,49152,0*128 =8388609+65536*128 0*256 49152/0,0..98302*128";

/// Sees that this many of 64 workers do a part of the pause at the same time that collects these regions, and that it makes
/// the one image of the other.
fn expect_at_once<T: Threads + Clock + Abort + Sync>(
    rt: &T,
    alloc: Global,
    images: (&str, &str),
    regions: Range<u32>,
    part: Part,
    workers: u64,
) -> Result<(), Fault> {
    let gate = Crowd::new(rt, part, workers, 1);
    let before = raw(alloc, images.0)?;
    let settings = collecting(alloc, &regions.collect::<Vec<u32>>(alloc)?, 64, CHUNK)?;
    let found = bytes_after(rt, alloc, &before, &settings, &gate)?;
    expect_equal(rt, gate.met(), 1);
    expect_bytes(rt, &found, &raw(alloc, images.1)?);
    Ok(())
}

/// All search the field, and two write it: they fill 32 regions, clear as many, and write as many patches as the object has slots.
/// All write the wide heap.
#[test]
fn all_workers_search_and_write_at_once(rt: HostRuntime) -> Result<(), Fault> {
    let alloc = rt.alloc();
    expect_at_once(&rt, alloc, (FIELD, FIELD_AFTER), 33..65, Part::Deal, 64)?;
    expect_at_once(&rt, alloc, (FIELD, FIELD_AFTER), 33..65, Part::Fill, 2)?;
    expect_at_once(&rt, alloc, (WIDE, WIDE_AFTER), 0..128, Part::Fill, 64)
}

/// Two workers meet in both rounds of the search of the field: that of the root and the cards, and that
/// of the objects.
#[test]
fn workers_meet_in_each_round_of_usual_chunks(rt: HostRuntime) -> Result<(), Fault> {
    let alloc = rt.alloc();
    let gate = Crowd::new(&rt, Part::Deal, 2, 2);
    let before = raw(alloc, FIELD)?;
    let regions = (33..65).collect::<Vec<u32>>(alloc)?;
    let settings = collecting(alloc, &regions, 2, USUAL_CHUNK)?;
    let found = bytes_after(&rt, alloc, &before, &settings, &gate)?;
    expect_equal(&rt, gate.met(), 2);
    expect_bytes(&rt, &found, &raw(alloc, FIELD_AFTER)?);
    Ok(())
}

/// Sees that a team that counts the live bytes of each region of an image meets this many times.
fn expect_live<T: Threads + Clock + Abort + Sync>(
    rt: &T,
    alloc: Global,
    bytes: &[u8],
    team: Team,
    times: u64,
    expected: &[u64],
) -> Result<(), Fault> {
    let (workers, chunk) = (team.workers(), team.chunk());
    let gate = Crowd::new(rt, Part::Deal, workers, times);
    let image = decode(alloc, bytes)?;
    let starts = Starts::build(alloc, image.heap())?;
    let live = live_bytes(rt, alloc, image.heap(), &starts, workers, chunk, &gate)?;
    expect_equal(rt, gate.met(), times);
    expect_list(rt, &live, expected);
    Ok(())
}

#[test]
fn workers_meet_when_live_bytes_are_counted(rt: HostRuntime) -> Result<(), Fault> {
    let bytes = text(rt.alloc(), shared())?;
    let expected = [0, 56, 0, 0];
    expect_live(&rt, rt.alloc(), &bytes, Team::new(2, 1), 2, &expected)
}

/// They meet in the third round, after the root's and that of the object that it references.
#[test]
fn all_workers_count_live_bytes_at_once(rt: HostRuntime) -> Result<(), Fault> {
    let bytes = raw(rt.alloc(), FIELD)?;
    let mut expected = [0; 128];
    expected[0] = 8 * 131_073;
    expected[33..65].fill(8 * 4_096);
    for chunk in [USUAL_CHUNK, CHUNK] {
        expect_live(&rt, rt.alloc(), &bytes, Team::new(64, chunk), 1, &expected)?;
    }
    Ok(())
}

/// Two roots reference two objects when the pause comes, which fills the second region: a third object is garbage.
static TRACE: &[u8] =
    b"heap 16 4 4 2\nnew 0 0 1\nnew 0 0 1\nnew 1 0 1\nset 0 0 5\npause 1000\nsay 0 0\n";

#[test]
fn the_workers_of_a_trace_pause_at_once(rt: HostRuntime) -> Result<(), Fault> {
    let alloc = rt.alloc();
    for part in [Part::Deal, Part::Fill] {
        let gate = Crowd::new(&rt, part, 2, 1);
        let text = run_text(&rt, alloc, TRACE, &UNIT, Team::new(2, 1), &gate)?;
        expect_equal(&rt, (part, gate.met() > 0), (part, true));
        expect_list(&rt, &text, b"ok\nok\nok\nok\nok\n5\n");
    }
    Ok(())
}
