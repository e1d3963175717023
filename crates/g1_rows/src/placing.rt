//! Where survivors go.
ghost use Rattle.std.specs.Prelude.{◌≡◌, IfOk};
ghost use Rattle.g1_words.specs.Layout.{sizes_of};
ghost use Rattle.g1_words.specs.Survivors.{AllOrdinary, Survivors};
ghost use Rattle.g1_frontier.specs.Found.{IsFound};
ghost use Rattle.g1_frontier.specs.Window.{AreRegions};
ghost use Rattle.g1_copy.specs.Plans.{IsPauseOf};

use crate::calling::Call;
use crate::watch::Watch;
use g1_frontier::Found;
use g1_layout::{Plan, place, place_sized};
use g1_rem::{Tracked, image};
use g1_words::Fault;

/// The plan of the survivors of a set, by one of two calls.
pub(crate) fn placed<R>(
    call: &Call<'_, R>,
    tracked: &Tracked,
    set: &[u32],
    found: &Found,
    watch: &mut Watch,
) -> Result<Plan, Fault>
    requires regions { AreRegions tracked.now.heap set.now }
    requires ordinary { AllOrdinary tracked.now.heap set.now }
    requires found { IsFound tracked.now.heap set.now found.now }
    ensures { IfOk result (λ p. IsPauseOf tracked.now.heap set.now p) }
{
    let survivors = found.survivors.as_slice();
    match &found.seen {
        Some(seen) if call.name == "place_sized" => {
            placed_by_sizes(call, tracked, set, survivors, seen.sizes.as_slice(), watch)
        }
        _ => placed_by_headers(call, tracked, set, survivors, watch),
    }
}

/// Their plan by the sizes that the search saw.
fn placed_by_sizes<R>(
    call: &Call<'_, R>,
    tracked: &Tracked,
    set: &[u32],
    survivors: &[u64],
    sizes: &[u32],
    watch: &mut Watch,
) -> Result<Plan, Fault>
    requires regions { AreRegions tracked.now.heap set.now }
    requires ordinary { AllOrdinary tracked.now.heap set.now }
    requires survivors { Survivors tracked.now.heap set.now survivors.now }
    requires sizes { sizes.now ≡ sizes_of tracked.now.heap survivors.now }
    ensures { IfOk result (λ p. IsPauseOf tracked.now.heap set.now p) }
{
    let heap = image(tracked).heap();
    g1_layout::laws::placeable();
    watch.at("place_sized");
    let plan = place_sized(call.alloc, heap, set, survivors, sizes)?;
    print(call, &plan, watch);
    forward(call, &plan, watch);
    Ok(plan)
}

/// Their plan by their headers.
fn placed_by_headers<R>(
    call: &Call<'_, R>,
    tracked: &Tracked,
    set: &[u32],
    survivors: &[u64],
    watch: &mut Watch,
) -> Result<Plan, Fault>
    requires regions { AreRegions tracked.now.heap set.now }
    requires ordinary { AllOrdinary tracked.now.heap set.now }
    requires survivors { Survivors tracked.now.heap set.now survivors.now }
    ensures { IfOk result (λ p. IsPauseOf tracked.now.heap set.now p) }
{
    let heap = image(tracked).heap();
    g1_layout::laws::placeable();
    watch.at("place");
    watch.at("plan");
    let plan = place(call.alloc, heap, set, survivors)?;
    print(call, &plan, watch);
    forward(call, &plan, watch);
    Ok(plan)
}

/// Where the survivors go. For `plan` also to-space, and for each region of it the survivors from one number to another,
/// and where the last of them ends.
fn print<R>(call: &Call<'_, R>, plan: &Plan, watch: &mut Watch) {
    if call.name != "plan" {
        return watch.numbers(plan.places());
    }
    if watch.is_over() {
        watch.named("survivors", plan.survivors());
        watch.named("places", plan.places());
        watch.named("set", plan.set());
        watch.named("to", plan.to_space());
        watch.named("need", &[plan.need()]);
        for run in plan.runs() {
            let (from, to) = (run.from as u64, run.to as u64);
            watch.named("run", &[u64::from(run.region), from, to, run.end]);
        }
    }
}

/// Where the addresses that are named are after the pause.
fn forward<R>(call: &Call<'_, R>, plan: &Plan, watch: &mut Watch) {
    for address in call.given.numbers("addresses") {
        watch.at("forward");
        let place = plan.forward(*address);
        watch.numbers(&[place]);
    }
}
