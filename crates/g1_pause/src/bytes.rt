ghost use Rattle.std.specs.Prelude.{◌≡◌, ◌≢◌, ◌⊎◌, ℕ, List, Ok, Err, Result, IfOk, IfErr};
ghost use Rattle.g1_words.specs.declared.fault.Fault.{Fault as FaultOf};
ghost use Rattle.g1_words.specs.declared.fault.Device.{Device as DeviceOf};
ghost use Rattle.g1_image.specs.Image.{IsTextIn, IsTextWithin};
ghost use Rattle.g1_image.specs.declared.cursor.Version.TheVariants.{Two};
ghost use Rattle.g1_pause.specs.Answer.{IsAnswer, IsAnswerWithin};
ghost use Rattle.g1_pause.specs.Follows.{TextFollows};

use crate::evacuating::evacuate;
use crate::laws;
use crate::settings::Settings;
use g1_image::{Image, decode, encode};
use g1_rem::{Tracked, image, verify_by};
use g1_words::{Fault, Limits};
use g1_work::Gate;
use std::alloc::Global;
use std::thread::Threads;

/// The image after the pause of an image that was read.
pub(crate) fn run_pause<R: Threads + Sync, G: Gate + Sync>(
    rt: &R,
    alloc: Global,
    before: Image,
    settings: &Settings,
    gate: &G,
) -> Result<Tracked, Fault>
    ensures answer { IfOk result (λ t. (limits : Limits) (bytes out : List ℕ) → IsTextWithin limits bytes before → IsTextIn Two out t → IsAnswerWithin limits settings.now.cost settings.now.choice bytes (Ok out)) }
    ensures fault { IfErr result (λ e. (e ≡ Fault.Memory) ⊎ ((limits : Limits) (bytes : List ℕ) → IsTextWithin limits bytes before → IsAnswerWithin limits settings.now.cost settings.now.choice bytes (Err e))) }
    ensures no_device { IfErr result (λ e. (d : DeviceOf) → e ≢ Fault.Device d) }
{
    let tracked = match verify_by(rt, alloc, before, settings.workers()) {
        Ok(tracked) => tracked,
        Err((_, fault)) => return Err(fault),
    };
    match evacuate(rt, alloc, tracked, settings, gate) {
        Ok((after, _)) => Ok(after),
        Err((_, fault)) => Err(fault),
    }
}

/// The whole pause, from the text of an image to the text of the image after: exactly the answer that
/// the definitions give to these bytes, this choice and this cost, whatever the workers, the chunk and
/// the gate.
///
/// # Errors
///
/// The fault of bytes that are no image's text; `Fault::Uncovered` with the lowest slot that isn't
/// covered; `Fault::Set` and `Fault::Room` as `evacuate` returns them; `Fault::Memory`.
///
/// # Examples
///
/// ```
/// use g1_choose::Cost;
/// use g1_pause::{Choice, Settings, pause_bytes};
/// use g1_testing::pictures::{shared, shared_after};
/// use g1_testing::text;
/// use g1_work::Open;
///
/// let cost = Cost { fixed: 10, dirty: 1, card: 1, byte: 1 };
/// let settings = Settings::new(8, 64, cost, Choice::Given([1].to_vec(alloc)?))?;
/// let shared = text(alloc, shared())?;
/// let after = pause_bytes(&rt, alloc, &shared, &settings, &Open)?;
/// assert_eq!(rt; after, text(alloc, shared_after())?);
/// ```
pub fn pause_bytes<R: Threads + Sync, G: Gate + Sync>(
    rt: &R,
    alloc: Global,
    bytes: &[u8],
    settings: &Settings,
    gate: &G,
) -> Result<Vec<u8>, Fault>
    ensures answer { IfOk result (λ v. IsAnswer settings.now.cost settings.now.choice bytes.now (Ok v.items)) }
    ensures only { IfOk result (λ v. (y : Result (List ℕ) FaultOf) → IsAnswer settings.now.cost settings.now.choice bytes.now y → y ≡ Ok v.items) }
    ensures follows { IfOk result (λ v. TextFollows settings.now.cost settings.now.choice bytes.now v.items) }
    ensures fault { IfErr result (λ e. (e ≡ Fault.Memory) ⊎ IsAnswer settings.now.cost settings.now.choice bytes.now (Err e)) }
    ensures only_fault { IfErr result (λ e. (e ≡ Fault.Memory) ⊎ ((y : Result (List ℕ) FaultOf) → IsAnswer settings.now.cost settings.now.choice bytes.now y → y ≡ Err e)) }
{
    laws::one_answer();
    laws::what_follows();
    let before = decode(alloc, bytes)?;
    match run_pause(rt, alloc, before, settings, gate) {
        Ok(after) => encode(alloc, image(&after)),
        Err(fault) => Err(fault),
    }
}
