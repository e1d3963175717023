ghost use Rattle.std.specs.Prelude.{◌≡◌, ◌⊎◌, Ok, Err, Result, IfOk, IfErr};
ghost use Rattle.g1_words.specs.declared.fault.Fault.{Fault as FaultOf};
ghost use Rattle.g1_image.specs.Cards.{IsTracked};
ghost use Rattle.g1_image.specs.Image.{Image as ImageOf};
ghost use Rattle.g1_pause.specs.Answer.{IsEvacuated};
ghost use Rattle.g1_pause.specs.Follows.{Follows};
ghost use Rattle.g1_pause.specs.Planned.{IsPlanned};
ghost use Rattle.g1_pause.specs.Report.{IsReport};

use crate::before::Before;
use crate::laws;
use crate::report::{Report, report_of};
use crate::settings::Settings;
use crate::steps::{Outcome, Steps, take_steps};
use g1_copy::{Prepared, commit};
use g1_rem::{Tracked, image};
use g1_words::Fault;
use g1_work::Gate;
use std::alloc::Global;
use std::thread::Threads;

// A tracked image is valid, and each of its references into another region is covered.
fn know_tracked(tracked: &Tracked)
    ensures { IsTracked tracked.now }
{
    let _ = image(tracked).heap();
}

/// All that the pause writes, prepared, and its report. The image stays as it is, so that a refusal
/// leaves nothing to undo.
fn plan_pause<R: Threads + Sync, G: Gate + Sync>(
    rt: &R,
    alloc: Global,
    tracked: &Tracked,
    settings: &Settings,
    gate: &G,
) -> Result<(Prepared, Report), Fault>
    ensures made { IfOk result (λ x. IsPlanned settings.now.cost settings.now.choice tracked.now x.0) }
    ensures report { IfOk result (λ x. IsReport settings.now.cost settings.now.choice tracked.now x.1) }
    ensures refused { IfErr result (λ e. (e ≡ Fault.Memory) ⊎ IsEvacuated settings.now.cost settings.now.choice tracked.now (Err e)) }
{
    know_tracked(tracked);
    let before = Before::new(rt, alloc, tracked, settings.workers())?;
    let Steps {
        collection,
        outcome,
        ..
    } = take_steps(rt, alloc, &before, settings, gate)?;
    match outcome {
        Outcome::NoRoom { need, free, .. } => Err(Fault::Room { need, free }),
        Outcome::Ready { plan, prepared } => {
            let report = report_of(alloc, collection.regions, &plan, prepared.humongous())?;
            Ok((prepared, report))
        }
    }
}

/// The evacuation pause of a tracked image: the image after, which is tracked too, and a report; or a
/// refusal, with the very image that was handed in.
///
/// # Errors
///
/// `Fault::Set` with the first region of a given list that is out of range, isn't ordinary, is pinned
/// or is earlier in the list; `Fault::Room` if the survivors need more regions than are free;
/// `Fault::Memory`. The image that comes back equals the one handed in.
///
/// # Examples
///
/// ```
/// use g1_choose::Cost;
/// use g1_pause::{Choice, Settings, evacuate};
/// use g1_rem::verify;
/// use g1_testing::{image, pictures::shared};
/// use g1_words::Fault;
/// use g1_work::Open;
///
/// let shared = image(alloc, shared())?;
/// let tracked = verify(&rt, alloc, shared).map_err(|(_, fault)| fault)?;
/// let cost = Cost { fixed: 10, dirty: 1, card: 1, byte: 1 };
/// let settings = Settings::new(8, 64, cost, Choice::Given([1].to_vec(alloc)?))?;
/// let (after, report) =
///     evacuate(&rt, alloc, tracked, &settings, &Open).map_err(|(_, fault)| fault)?;
/// assert_eq!(rt; report.to.as_slice(), [2].as_slice());
/// assert_eq!(rt; (report.objects, report.words), (2, 7));
/// assert_eq!(rt; after.image.heap().roots(), [33, 35].as_slice());
/// // Region 1 is free now, and can't be collected again.
/// let again = evacuate(&rt, alloc, after, &settings, &Open).map_err(|(_, fault)| fault);
/// assert_eq!(rt; again.err(), Some(Fault::Set(1)));
/// ```
pub fn evacuate<R: Threads + Sync, G: Gate + Sync>(
    rt: &R,
    alloc: Global,
    tracked: Tracked,
    settings: &Settings,
    gate: &G,
) -> Result<(Tracked, Report), (Tracked, Fault)>
    ensures tracked { IsTracked tracked }
    ensures done { IfOk result (λ x. IsEvacuated settings.now.cost settings.now.choice tracked (Ok x.0)) }
    ensures only { IfOk result (λ x. (y : Result ImageOf FaultOf) → IsEvacuated settings.now.cost settings.now.choice tracked y → y ≡ Ok x.0) }
    ensures follows { IfOk result (λ x. Follows settings.now.cost settings.now.choice tracked x.0) }
    ensures report { IfOk result (λ x. IsReport settings.now.cost settings.now.choice tracked x.1) }
    ensures same { IfErr result (λ e. e.0 ≡ tracked) }
    ensures refused { IfErr result (λ e. (e.1 ≡ Fault.Memory) ⊎ IsEvacuated settings.now.cost settings.now.choice tracked (Err e.1)) }
    ensures only_refused { IfErr result (λ e. (e.1 ≡ Fault.Memory) ⊎ ((y : Result ImageOf FaultOf) → IsEvacuated settings.now.cost settings.now.choice tracked y → y ≡ Err e.1)) }
{
    laws::one_answer();
    laws::what_follows();
    know_tracked(&tracked);
    match plan_pause(rt, alloc, &tracked, settings, gate) {
        Err(fault) => Err((tracked, fault)),
        Ok((prepared, report)) => {
            let workers = settings.workers();
            Ok((commit(rt, workers, tracked, prepared, gate), report))
        }
    }
}
