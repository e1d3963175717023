ghost use Rattle.std.specs.Prelude.{◌<◌, IfOk, IfErr, vec_len, OnOk};
ghost use Rattle.g1_deal.specs.Dealer.{IsSeatOf};
ghost use Rattle.g1_work.specs.Worker.{AreOf, IsGathered, IsGatheredFrom, IsGatheredWith, IsFaultAmong};

use crate::worker::{Gathered, Worked};
use g1_deal::Dealer;
use g1_words::Fault;
use std::alloc::{AllocError, Global};

impl<S: Drop, O: Drop> Gathered<S, O> {
    // Begins with one worker.
    fn of(alloc: Global, worked: Worked<S, O>) -> Result<Gathered<S, O>, AllocError>
        ensures { IfOk result (IsGatheredFrom worked) }
    {
        let Worked { seat, state, outs } = worked;
        let mut states = Vec::new(alloc);
        states.push(state)?;
        let mut parts = Vec::new(alloc);
        parts.push(outs)?;
        Ok(Gathered {
            seat,
            states,
            parts,
        })
    }

    // One more worker.
    fn add(&mut self, dealer: &Dealer, worked: Worked<S, O>) -> Result<(), AllocError>
        requires seat { IsSeatOf dealer.now self.old.seat }
        requires other { IsSeatOf dealer.now worked.seat }
        ensures { OnOk result (IsGatheredWith dealer.now self.old worked self.new) }
    {
        let Worked { seat, state, outs } = worked;
        dealer.join(&mut self.seat, seat);
        self.states.push(state)?;
        self.parts.push(outs)?;
        Ok(())
    }
}

// Puts what the workers bring together, from the last to the first.
pub(crate) fn gather<S: Drop, O: Drop>(
    alloc: Global,
    dealer: &Dealer,
    mut results: Vec<Result<Worked<S, O>, Fault>>,
) -> Result<Gathered<S, O>, Fault>
    requires some { 0 < vec_len results }
    requires seats { AreOf dealer.now results.items }
    ensures ok { IfOk result (IsGathered dealer.now results.items) }
    ensures err { IfErr result (IsFaultAmong results.items) }
{
    let Some(first) = results.pop() else {
        unreachable!()
    };
    let mut gathered = Gathered::of(alloc, first?)?;
    while let Some(found) = results.pop() {
        gathered.add(dealer, found?)?;
    }
    Ok(gathered)
}
