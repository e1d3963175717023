//! The steps of a pause by their own calls, up to the commit.
ghost use Rattle.std.specs.Prelude.{◌≡◌, ℕ, List, map, IfOk, IfSome};
ghost use Rattle.g1_words.specs.Heap.{regions};
ghost use Rattle.g1_words.specs.Survivors.{AllOrdinary};
ghost use Rattle.g1_image.specs.Cards.{refined};
ghost use Rattle.g1_rem.specs.Starts.{IsStartsOf};
ghost use Rattle.g1_frontier.specs.Found.{slots_into, IsFound};
ghost use Rattle.g1_frontier.specs.Window.{AreRegions, AreCards, AreOutside, LeadIn};
ghost use Rattle.g1_rem.specs.EntryCards.{cards_into};
ghost use Rattle.g1_copy.specs.Plans.{IsPauseOf};
ghost use Rattle.g1_copy.specs.Prepared.{IsMadeFor};

use crate::calling::Call;
use crate::watch::Watch;
use crate::{cards, placing};
use g1_choose::given;
use g1_claim::Claims;
use g1_copy::{
    Basis, Prepared, commit, gather, new_rem, patches, prepare, prepare_by_leads, prepare_on,
};
use g1_frontier::{Found, Seen, claim_round, discover, discover_seen};
use g1_rem::{Starts, Tracked, cards_into, image, refine};
use g1_words::{Fault, Heap};
use g1_work::Open;
use std::thread::Threads;

/// The pause that collects the regions named.
pub(crate) fn run<R: Threads + Sync>(
    call: &Call<'_, R>,
    tracked: Tracked,
    list: &[u32],
    watch: &mut Watch,
) -> Result<(), Fault> {
    let prepared = collected(call, &tracked, list, watch)?;
    watch.at("commit");
    let after = commit(call.rt, call.settings.workers(), tracked, prepared, &Open);
    watch.image(image(&after));
    Ok(())
}

/// What the pause that collects the regions named writes.
fn collected<R: Threads + Sync>(
    call: &Call<'_, R>,
    tracked: &Tracked,
    list: &[u32],
    watch: &mut Watch,
) -> Result<Prepared, Fault>
    ensures { IfOk result (λ p. (s : List ℕ) × (l : List ℕ) × IsMadeFor p tracked.now s l) }
{
    watch.at("given");
    let chosen = given(call.alloc, image(tracked).heap(), list)?;
    let set = chosen.as_slice();
    watch.numbers(set);
    prepared(call, tracked, set, watch)
}

/// What the pause of these regions writes.
fn prepared<R: Threads + Sync>(
    call: &Call<'_, R>,
    tracked: &Tracked,
    set: &[u32],
    watch: &mut Watch,
) -> Result<Prepared, Fault>
    requires regions { AreRegions tracked.now.heap set.now }
    requires ordinary { AllOrdinary tracked.now.heap set.now }
    ensures { IfOk result (λ p. (s : List ℕ) × (l : List ℕ) × IsMadeFor p tracked.now s l) }
{
    let (starts, remembered) = tables(call, tracked, watch)?;
    let remembered = remembered.as_slice();
    let (cards, found) = found(call, tracked, &starts, remembered, set, watch)?;
    let plan = placing::placed(call, tracked, set, &found, watch)?;
    let basis = Basis {
        tracked,
        starts: &starts,
        remembered,
        set,
        plan: &plan,
        cards: cards.as_slice(),
    };
    written(call, &basis, watch)?;
    made(call, &basis, found.seen, watch)
}

/// What the pause writes, made ready by one of three calls.
fn made<R: Threads + Sync>(
    call: &Call<'_, R>,
    basis: &Basis<'_>,
    seen: Option<Seen>,
    watch: &mut Watch,
) -> Result<Prepared, Fault>
    requires starts { IsStartsOf basis.now.tracked.now.heap basis.now.starts.now }
    requires remembered { map (λ s. s.items) basis.now.remembered.now ≡ map (refined basis.now.tracked.now) (regions basis.now.tracked.now.heap) }
    requires cards { basis.now.cards.now ≡ cards_into basis.now.tracked.now.heap (map (λ s. s.items) basis.now.remembered.now) basis.now.set.now }
    requires plan { IsPauseOf basis.now.tracked.now.heap basis.now.set.now basis.now.plan.now }
    requires seen { IfSome seen (λ s. s.leads.items ≡ slots_into basis.now.tracked.now.heap basis.now.set.now) }
    ensures { IfOk result (λ p. (s : List ℕ) × (l : List ℕ) × IsMadeFor p basis.now.tracked.now s l) }
{
    match seen {
        Some(seen) if call.name == "prepare_by_leads" => {
            watch.at("prepare_by_leads");
            let prepared = prepare_by_leads(call.rt, call.alloc, basis, seen.leads, 1)?;
            watch.done();
            Ok(prepared)
        }
        _ => made_by_cards(call, basis, watch),
    }
}

fn made_by_cards<R: Threads + Sync>(
    call: &Call<'_, R>,
    basis: &Basis<'_>,
    watch: &mut Watch,
) -> Result<Prepared, Fault>
    requires starts { IsStartsOf basis.now.tracked.now.heap basis.now.starts.now }
    requires remembered { map (λ s. s.items) basis.now.remembered.now ≡ map (refined basis.now.tracked.now) (regions basis.now.tracked.now.heap) }
    requires cards { basis.now.cards.now ≡ cards_into basis.now.tracked.now.heap (map (λ s. s.items) basis.now.remembered.now) basis.now.set.now }
    requires plan { IsPauseOf basis.now.tracked.now.heap basis.now.set.now basis.now.plan.now }
    ensures { IfOk result (λ p. (s : List ℕ) × (l : List ℕ) × IsMadeFor p basis.now.tracked.now s l) }
{
    if call.name == "prepare_on" {
        watch.at("prepare_on");
        let prepared = prepare_on(call.rt, call.alloc, basis, 1)?;
        watch.done();
        return Ok(prepared);
    }
    let Basis {
        tracked,
        starts,
        remembered,
        set,
        plan,
        ..
    } = *basis;
    watch.at("prepare");
    let prepared = prepare(call.rt, call.alloc, tracked, starts, remembered, set, plan)?;
    watch.done();
    Ok(prepared)
}

/// The table of starts and the refined remembered sets.
fn tables<R: Threads + Sync>(
    call: &Call<'_, R>,
    tracked: &Tracked,
    watch: &mut Watch,
) -> Result<(Starts, Vec<Vec<u32>>), Fault>
    ensures starts { IfOk result (λ r. IsStartsOf tracked.now.heap r.0) }
    ensures remembered { IfOk result (λ r. map (λ s. s.items) r.1.items ≡ map (refined tracked.now) (regions tracked.now.heap)) }
{
    let heap = image(tracked).heap();
    watch.at("starts");
    let starts = Starts::build(call.alloc, heap)?;
    watch.done();
    cards::run(call, heap, &starts, watch)?;
    watch.at("refine");
    let remembered = refine(call.rt, call.alloc, tracked, &starts)?;
    watch.lists(remembered.as_slice());
    Ok((starts, remembered))
}

/// The cards that lead into the set, and what a search for its survivors finds.
fn found<R: Threads + Sync>(
    call: &Call<'_, R>,
    tracked: &Tracked,
    starts: &Starts,
    remembered: &[Vec<u32>],
    set: &[u32],
    watch: &mut Watch,
) -> Result<(Vec<u32>, Found), Fault>
    requires starts { IsStartsOf tracked.now.heap starts.now }
    requires remembered { map (λ s. s.items) remembered.now ≡ map (refined tracked.now) (regions tracked.now.heap) }
    requires regions { AreRegions tracked.now.heap set.now }
    requires ordinary { AllOrdinary tracked.now.heap set.now }
    ensures cards { IfOk result (λ r. r.0.items ≡ cards_into tracked.now.heap (map (λ s. s.items) remembered.now) set.now) }
    ensures found { IfOk result (λ r. IsFound tracked.now.heap set.now r.1) }
{
    let heap = image(tracked).heap();
    watch.at("cards_into");
    let into = cards_into(call.alloc, heap, remembered, set)?;
    watch.numbers(into.as_slice());
    round(call, heap, starts, set, watch)?;
    g1_copy::laws::cards_lead_in();
    g1_frontier::laws::refined_lead_in();
    let cards = into.as_slice();
    let found = searched(call, heap, starts, set, cards, watch)?;
    Ok((into, found))
}

/// What a search finds, by one of two calls.
fn searched<R: Threads + Sync>(
    call: &Call<'_, R>,
    heap: &Heap,
    starts: &Starts,
    set: &[u32],
    cards: &[u32],
    watch: &mut Watch,
) -> Result<Found, Fault>
    requires starts { IsStartsOf heap.now starts.now }
    requires window { AreRegions heap.now set.now }
    requires cards { AreCards heap.now cards.now }
    requires outside { AreOutside heap.now set.now cards.now }
    requires lead_in { LeadIn heap.now set.now cards.now }
    ensures { IfOk result (IsFound heap.now set.now) }
{
    let Call { rt, alloc, .. } = *call;
    let (workers, chunk) = (call.settings.workers(), call.settings.chunk());
    if call.name == "discover" {
        watch.at("discover");
        let survivors = discover(rt, alloc, heap, starts, set, cards, workers, chunk, &Open)?;
        watch.numbers(survivors.as_slice());
        return Ok(Found {
            survivors,
            seen: None,
        });
    }
    watch.at("discover_seen");
    let found = discover_seen(rt, alloc, heap, starts, set, cards, workers, chunk, &Open)?;
    print(&found, watch);
    Ok(found)
}

/// The survivors, and what one worker saw of them if it searched alone: their sizes, and the slots that lead into the set,
/// each with its word.
fn print(found: &Found, watch: &mut Watch) {
    if watch.is_over() {
        watch.named("survivors", found.survivors.as_slice());
        if let Some(seen) = &found.seen {
            watch.named("sizes", seen.sizes.as_slice());
            for (slot, word) in &seen.leads {
                watch.named("slot", &[*slot, *word]);
            }
        }
    }
}

/// The pieces of what the pause writes.
fn written<R: Threads + Sync>(
    call: &Call<'_, R>,
    basis: &Basis<'_>,
    watch: &mut Watch,
) -> Result<(), Fault>
    requires starts { IsStartsOf basis.now.tracked.now.heap basis.now.starts.now }
    requires remembered { map (λ s. s.items) basis.now.remembered.now ≡ map (refined basis.now.tracked.now) (regions basis.now.tracked.now.heap) }
    requires regions { AreRegions basis.now.tracked.now.heap basis.now.set.now }
    requires ordinary { AllOrdinary basis.now.tracked.now.heap basis.now.set.now }
    requires cards { basis.now.cards.now ≡ cards_into basis.now.tracked.now.heap (map (λ s. s.items) basis.now.remembered.now) basis.now.set.now }
    requires plan { IsPauseOf basis.now.tracked.now.heap basis.now.set.now basis.now.plan.now }
{
    let Basis {
        tracked,
        starts,
        remembered,
        set,
        plan,
        cards,
    } = *basis;
    let heap = image(tracked).heap();
    g1_copy::laws::cards_lead_in();
    g1_copy::laws::all_patches();
    watch.at("patches");
    let patches = patches(call.rt, call.alloc, heap, starts, plan, cards)?;
    watch.pairs(patches.as_slice());
    watch.at("gather");
    let gathered = gather(call.rt, call.alloc, heap, plan)?;
    watch.words(gathered.as_slice());
    let (slots, words) = (patches.as_slice(), gathered.as_slice());
    watch.at("new_rem");
    let lists = new_rem(
        call.rt, call.alloc, tracked, remembered, set, plan, slots, words,
    )?;
    watch.lists(lists.as_slice());
    Ok(())
}

/// As many places as a claim table may have.
const MOST_PLACES: u64 = 16_777_216;

/// A round of claims in these regions that looks at nothing.
fn round<R: Threads + Sync>(
    call: &Call<'_, R>,
    heap: &Heap,
    starts: &Starts,
    window: &[u32],
    watch: &mut Watch,
) -> Result<(), Fault>
    requires starts { IsStartsOf heap.now starts.now }
    requires window { AreRegions heap.now window.now }
{
    let Call { rt, alloc, .. } = *call;
    let (workers, chunk) = (call.settings.workers(), call.settings.chunk());
    let words = heap.geometry().region_words();
    let Some(places) = (window.len() as u64).checked_mul(words) else {
        return Err(Fault::Memory);
    };
    if places > MOST_PLACES {
        return Err(Fault::Memory);
    }
    let (claims, seat) = Claims::new(alloc, places)?;
    watch.at("claim_round");
    let (claims, seat, won) = claim_round(
        rt,
        alloc,
        heap,
        starts,
        window,
        claims,
        seat,
        &[],
        workers,
        chunk,
        &Open,
    )?;
    watch.pairs(won.as_slice());
    claims.close(seat);
    Ok(())
}
