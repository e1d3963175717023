//! The words that two rounds of a search leave.
ghost use Rattle.std.specs.Prelude.{◌≡◌, ◌+◌, ◌∷◌, [], length, map, IfOk};
ghost use Rattle.g1_rem.specs.Starts.{IsStartsOf};
ghost use Rattle.g1_frontier.specs.Items.{first_items, object_items};
ghost use Rattle.g1_frontier.specs.Window.{AreRegions, AreCards, AreOutside, LeadIn};

use crate::expecting::expect_list;
use g1_claim::{Claims, EMPTY};
use g1_frontier::{Item, claim_round};
use g1_rem::{Starts, Tracked, image, refine, verify};
use g1_testing::image as drawn;
use g1_testing::pictures::shared;
use g1_words::{Fault, Heap, object_at};
use g1_work::Open;
use std::alloc::{AllocError, Global};
use std::thread::Threads;

/// What two rounds over region 1 leave: the ranks and addresses that each won, and the words of the
/// claim table.
#[derive(Drop)]
struct Rounds {
    first: Vec<(u64, u64)>,
    second: Vec<(u64, u64)>,
    words: Vec<u64>,
}

/// The addresses among ranks and addresses.
fn addresses(alloc: Global, won: &[(u64, u64)]) -> Result<Vec<u64>, AllocError>
    ensures { IfOk result (λ v. v.items ≡ map (λ q. q.1) won.now) }
{
    let mut found = Vec::new(alloc);
    for pair in won {
        found.push(pair.1)?;
    }
    Ok(found)
}

/// The two roots and the two cards, if there are as many.
fn roots_and_cards(heap: &Heap, cards: &[u32]) -> Result<[Item; 4], Fault>
    ensures items { IfOk result (λ r. r ≡ first_items (length heap.now.roots) cards.now) }
{
    if heap.roots().len() != 2 || cards.len() != 2 {
        return Err(Fault::Set(1));
    }
    Ok([
        Item::Root { index: 0 },
        Item::Root { index: 1 },
        Item::Card {
            card: cards[0],
            base: 2,
        },
        Item::Card {
            card: cards[1],
            base: 2,
        },
    ])
}

/// The two objects that were found, if there are as many. Their ranks go on behind those of the roots
/// and of all words.
fn two_objects(heap: &Heap, found: &[u64]) -> Result<[Item; 2], Fault>
    ensures items { IfOk result (λ r. r ≡ object_items heap.now (length heap.now.roots + length heap.now.words) found.now) }
{
    if found.len() != 2 {
        return Err(Fault::Set(1));
    }
    let base = heap.roots().len() as u64 + heap.words().len() as u64;
    let at = found[0];
    let slots = match object_at(heap, at) {
        Some(object) => object.refs,
        None => return Err(Fault::Set(1)),
    };
    Ok([
        Item::Object { at, base },
        Item::Object {
            at: found[1],
            base: base + slots,
        },
    ])
}

/// A round of the two roots and the two cards that lead into region 1, and one of the two objects that
/// it found.
fn both_rounds<R: Threads + Sync>(
    rt: &R,
    alloc: Global,
    heap: &Heap,
    starts: &Starts,
    cards: &[u32],
) -> Result<Rounds, Fault>
    requires starts { IsStartsOf heap.now starts.now }
    requires region { AreRegions heap.now (1 ∷ []) }
    requires cards { AreCards heap.now cards.now }
    requires outside { AreOutside heap.now (1 ∷ []) cards.now }
    requires lead_in { LeadIn heap.now (1 ∷ []) cards.now }
{
    let window: [u32; 1] = [1];
    let items = roots_and_cards(heap, cards)?;
    let (claims, seat) = Claims::new(alloc, heap.geometry().region_words())?;
    let (claims, seat, first) = claim_round(
        rt, alloc, heap, starts, &window, claims, seat, &items, 8, 1, &Open,
    )?;
    let found = addresses(alloc, &first)?;
    let items = two_objects(heap, &found)?;
    let (claims, seat, second) = claim_round(
        rt, alloc, heap, starts, &window, claims, seat, &items, 8, 1, &Open,
    )?;
    Ok(Rounds {
        first,
        second,
        words: claims.close(seat),
    })
}

fn two_rounds<R: Threads + Sync>(
    rt: &R,
    alloc: Global,
    tracked: &Tracked,
) -> Result<Rounds, Fault> {
    let heap = image(tracked).heap();
    if heap.geometry().regions() < 2 {
        return Err(Fault::Set(1));
    }
    let starts = Starts::build(alloc, heap)?;
    let remembered = refine(rt, alloc, tracked, &starts)?;
    let cards = remembered[1].as_slice();
    both_rounds(rt, alloc, heap, &starts, cards)
}

fn rounds_of_shared<R: Threads + Sync>(rt: &R, alloc: Global) -> Result<Rounds, Fault> {
    match verify(rt, alloc, drawn(alloc, shared())?) {
        Ok(tracked) => two_rounds(rt, alloc, &tracked),
        Err((_, fault)) => Err(fault),
    }
}

#[test]
fn the_least_rank_of_each_place_stays_its_word(rt: HostRuntime) -> Result<(), Fault> {
    let two = rounds_of_shared(&rt, rt.alloc())?;
    expect_list(&rt, &two.first, &[(0, 21), (1, 16)]);
    expect_list(&rt, &two.second, &[]);
    let mut words = [EMPTY; 16];
    words[0] = 1;
    words[5] = 0;
    expect_list(&rt, &two.words, &words);
    Ok(())
}
