ghost use Rattle.std.specs.Prelude.{◌≡◌, Ok, Err, IfOk, IfErr};
ghost use Rattle.g1_pause.specs.Answer.{IsEvacuated};
ghost use Rattle.g1_pause.specs.Steps.{AreStepsOf};

use crate::settings::Settings;
use crate::steps::{Outcome, Steps};
use g1_copy::commit;
use g1_rem::Tracked;
use g1_words::Fault;
use g1_work::Gate;
use std::thread::Threads;

/// Carries out the steps that were taken of a pause of this very image, by these settings: `evacuate` in two
/// calls, for a caller that looks at the steps in between. It takes no memory.
///
/// # Errors
///
/// `Fault::Room` if the steps found no room for the survivors. The image that comes back is the one handed in.
///
/// # Examples
///
/// ```
/// use g1_choose::Cost;
/// use g1_image::encode;
/// use g1_pause::{Before, Choice, Settings, carry_out, take_steps};
/// use g1_rem::verify;
/// use g1_testing::pictures::{shared, shared_after};
/// use g1_testing::{image, text};
/// use g1_work::Open;
///
/// let shared = image(alloc, shared())?;
/// let tracked = verify(&rt, alloc, shared).map_err(|(_, fault)| fault)?;
/// let before = Before::new(&rt, alloc, &tracked, 1)?;
/// let cost = Cost { fixed: 10, dirty: 1, card: 1, byte: 1 };
/// let settings = Settings::new(8, 64, cost, Choice::Given([1].to_vec(alloc)?))?;
/// let steps = take_steps(&rt, alloc, &before, &settings, &Open)?;
/// let after = carry_out(&rt, tracked, &settings, steps, &Open).map_err(|(_, fault)| fault)?;
/// assert_eq!(rt; encode(alloc, &after.image)?, text(alloc, shared_after())?);
/// ```
pub fn carry_out<R: Threads + Sync, G: Gate + Sync>(
    rt: &R,
    tracked: Tracked,
    settings: &Settings,
    steps: Steps,
    gate: &G,
) -> Result<Tracked, (Tracked, Fault)>
    requires taken { AreStepsOf settings.now.cost settings.now.choice tracked steps }
    ensures done { IfOk result (λ j. IsEvacuated settings.now.cost settings.now.choice tracked (Ok j)) }
    ensures same { IfErr result (λ e. e.0 ≡ tracked) }
    ensures refused { IfErr result (λ e. IsEvacuated settings.now.cost settings.now.choice tracked (Err e.1)) }
{
    let Steps { outcome, .. } = steps;
    match outcome {
        Outcome::NoRoom { need, free, .. } => Err((tracked, Fault::Room { need, free })),
        Outcome::Ready { prepared, .. } => {
            Ok(commit(rt, settings.workers(), tracked, prepared, gate))
        }
    }
}
