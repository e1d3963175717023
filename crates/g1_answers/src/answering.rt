//! What is answered in text.
ghost use Rattle.std.specs.Prelude.{◌≡◌, ◌⊎◌, ℕ, List, ◌∷◌, Ok, IfOk, IfErr};
ghost use Rattle.g1_image.specs.Image.{IsTextWithin};
ghost use Rattle.g1_image.specs.Faults.{MayFailWithin};
ghost use Rattle.g1_image.specs.Source.{HoldsOfLeft};
ghost use Rattle.g1_image.specs.Cards.{Covered, uncovered};
ghost use Rattle.g1_answers.specs.Numbers.{cost_asked};
ghost use Rattle.g1_answers.specs.Replies.{MayRefuse, Gives};
ghost use Rattle.g1_answers.specs.Questions.{AsksCover, IsAnswerOf, IsReply};

use crate::question::Question;
use crate::sending::send_text;
use g1_image::{FromReader, Image, Sink, ToWriter, read_by_within};
use g1_pause::Settings;
use g1_rem::{Tracked, image as image_of, verify_by};
use g1_tables::{candidates, live_lines, table};
use g1_words::{Device, Fault, Limits};
use std::alloc::Global;
use std::io::{Read, Write};
use std::thread::Threads;

/// Writes the lines that answer a question, as `answer` returns them.
///
/// # Errors
///
/// Those of `answer`, after which nothing is written. `Fault::Device(Device::Output)` if a write failed: a beginning of
/// the lines may be written then.
pub fn write_answer<T: Threads + Sync, R: Read, W: Write>(
    rt: &T,
    alloc: Global,
    limits: Limits,
    question: Question,
    reader: &mut R,
    writer: &mut ToWriter<W>,
) -> Result<(), Fault>
    ensures { HoldsOfLeft (R.remaining reader.old) (λ xs. Gives (IsReply limits question xs) (⟦<ToWriter<W> as Sink>⟧.written writer.old) (⟦<ToWriter<W> as Sink>⟧.written writer.new) result) }
{
    match answer(rt, alloc, limits, question, reader) {
        Ok(lines) => send_text(lines.as_slice(), writer),
        Err(fault) => Err(fault),
    }
}

/// The lines that answer a question of the image that a reader gives, which is within these limits and is read to
/// its end.
///
/// # Errors
///
/// `Fault::Settings`, before anything is read. The fault of an image that can't be read; `Fault::Uncovered` of one that
/// has to be covered; `Fault::Memory`.
pub fn answer<T: Threads + Sync, R: Read>(
    rt: &T,
    alloc: Global,
    limits: Limits,
    question: Question,
    reader: &mut R,
) -> Result<Vec<u8>, Fault>
    ensures text { IfOk result (λ v. HoldsOfLeft (R.remaining reader.old) (λ xs. IsReply limits question xs (Ok v.items))) }
    ensures fault { IfErr result (λ e. HoldsOfLeft (R.remaining reader.old) (λ xs. MayRefuse (IsReply limits question xs) e)) }
{
    let settings = question.settings()?;
    let image = read_image(rt, alloc, limits, &settings, reader)?;
    answer_of(rt, alloc, &settings, question, image)
}

// The lines that answer a question of an image.
fn answer_of<T: Threads + Sync>(
    rt: &T,
    alloc: Global,
    settings: &Settings,
    question: Question,
    image: Image,
) -> Result<Vec<u8>, Fault>
    requires { settings.now.cost ≡ cost_asked question }
    ensures text { IfOk result (λ v. (AsksCover question → Covered image) × IsAnswerOf question image v.items) }
    ensures fault { IfErr result (λ e. (e ≡ Fault.Memory) ⊎ (AsksCover question × ((p : ℕ) × (ps : List ℕ) × (uncovered image ≡ p ∷ ps) × (e ≡ Fault.Uncovered p)))) }
{
    match question {
        Question::Regions(_) => table(rt, alloc, settings, &image),
        Question::Live(_) => live_lines(rt, alloc, settings, image.heap()),
        Question::Cover => {
            covered(rt, alloc, settings, image)?;
            Ok(b"covered\n".to_vec(alloc)?)
        }
        Question::Candidates { budget, .. } => {
            let tracked = covered(rt, alloc, settings, image)?;
            candidates(rt, alloc, settings, budget, &tracked)
        }
    }
}

pub(crate) fn read_image<T: Threads + Sync, R: Read>(
    rt: &T,
    alloc: Global,
    limits: Limits,
    settings: &Settings,
    reader: &mut R,
) -> Result<Image, Fault>
    ensures image { IfOk result (λ i. HoldsOfLeft (R.remaining reader.old) (λ xs. IsTextWithin limits xs i)) }
    ensures fault { IfErr result (λ e. (e ≡ Fault.Device Device.Input) ⊎ HoldsOfLeft (R.remaining reader.old) (λ xs. MayFailWithin limits xs e)) }
{
    let mut source = FromReader::new(reader);
    read_by_within(rt, alloc, limits, &mut source, settings.workers())
}

// The image, if it is covered.
fn covered<T: Threads + Sync>(
    rt: &T,
    alloc: Global,
    settings: &Settings,
    image: Image,
) -> Result<Tracked, Fault>
    ensures same { IfOk result (λ t. t ≡ image) }
    ensures covered { IfOk result (λ t. Covered image) }
    ensures fault { IfErr result (λ e. (e ≡ Fault.Memory) ⊎ ((p : ℕ) × (ps : List ℕ) × (uncovered image ≡ p ∷ ps) × (e ≡ Fault.Uncovered p))) }
{
    match verify_by(rt, alloc, image, settings.workers()) {
        Ok(tracked) => {
            know_covered(&tracked);
            Ok(tracked)
        }
        Err((_, fault)) => Err(fault),
    }
}

// What a tracked image keeps by its type.
fn know_covered(tracked: &Tracked)
    ensures { Covered tracked.now }
{
    let _ = image_of(tracked);
}
