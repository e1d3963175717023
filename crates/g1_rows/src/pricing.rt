//! What regions cost and give, and which of them are collected.
ghost use Rattle.std.specs.Prelude.{◌≡◌, length};
ghost use Rattle.g1_choose.specs.Choice.{MayBeLive};

use crate::calling::Call;
use crate::watch::Watch;
use g1_choose::{Candidate, choose, cost, order, total};
use g1_mark::live_bytes;
use g1_rem::{Starts, Tracked, image, refine};
use g1_words::{Fault, Heap};
use g1_work::Open;
use std::thread::Threads;

/// The cost of a region with this many cards and live bytes.
pub(crate) fn price<R>(call: &Call<'_, R>, watch: &mut Watch) {
    let (cards, bytes) = (call.given.first("count", 0), call.given.first("bytes", 0));
    let prices = call.settings.cost();
    watch.at("cost");
    let price = cost(&prices, cards, bytes);
    watch.numbers(&[price]);
}

/// The cost of a pause with this many dirty cards that collects none or two regions of these costs.
pub(crate) fn add<R>(call: &Call<'_, R>, watch: &mut Watch) {
    let dirty = call.given.first("count", 0);
    let prices = call.settings.cost();
    watch.at("total");
    let price = match call.given.numbers("costs") {
        [first, second] => total(&prices, dirty, &[u128::from(*first), u128::from(*second)]),
        _ => total(&prices, dirty, &[]),
    };
    watch.numbers(&[price]);
}

/// The live bytes, and what the budget buys by them and by the refined sets.
pub(crate) fn run<R: Threads + Sync>(
    call: &Call<'_, R>,
    tracked: &Tracked,
    budget: u64,
    watch: &mut Watch,
) -> Result<(), Fault> {
    let Call { rt, alloc, .. } = *call;
    let heap = image(tracked).heap();
    let starts = Starts::build(alloc, heap)?;
    let remembered = refine(rt, alloc, tracked, &starts)?;
    let (workers, chunk) = (call.settings.workers(), call.settings.chunk());
    watch.at("live_bytes");
    let live = live_bytes(rt, alloc, heap, &starts, workers, chunk, &Open)?;
    watch.numbers(live.as_slice());
    let dirty = image(tracked).log().len() as u64;
    g1_choose::laws::live_within_used();
    choose_by(call, heap, dirty, &remembered, &live, budget, watch)
}

/// The order of the candidates, and the set.
fn choose_by<R>(
    call: &Call<'_, R>,
    heap: &Heap,
    dirty: u64,
    remembered: &[Vec<u32>],
    live: &[u64],
    budget: u64,
    watch: &mut Watch,
) -> Result<(), Fault>
    requires remembered { length remembered.now ≡ heap.now.geometry.n }
    requires live { MayBeLive heap.now live.now }
{
    let prices = call.settings.cost();
    watch.at("order");
    let order = order(call.alloc, heap, remembered, live, &prices)?;
    print(&order, watch);
    watch.at("choose");
    let set = choose(call.alloc, heap, dirty, remembered, live, &prices, budget)?;
    watch.numbers(set.as_slice());
    Ok(())
}

/// Each candidate: its region, its cost and its garbage in bytes.
fn print(order: &[Candidate], watch: &mut Watch) {
    if watch.is_over() {
        for it in order {
            watch.list(&[u128::from(it.region), it.cost, u128::from(it.garbage)]);
        }
    }
}
