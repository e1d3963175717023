//! A pause as lines, and what keeps an object.
ghost use Rattle.std.specs.Prelude.{◌≡◌, ◌⊎◌, Some, None, IfOk, IfErr};
ghost use Rattle.g1heap_request.specs.declared.options.Part.TheVariants as asked;
ghost use Rattle.g1heap_cli.specs.Reasons.{IsRefusedIn, MayLack, RefusesReason, RefusesWhy, RefusesCost, RefusesPause};
ghost use Rattle.g1heap_cli.specs.Refuses.{RefusesExplain};
ghost use Rattle.g1heap_cli.specs.Refusals.{RefusesFile};
ghost use Rattle.g1heap_cli.specs.Texts.{IsReasonText, AsksFor, EndsWith, IsPauseText, IsExplanation, form_of};
ghost use Rattle.g1heap_cli.specs.Named.{MayBeNamed, IsTextNamed, RefusesNamesOf, RefusesNamesGiven};
ghost use Rattle.g1heap_cli.specs.Replies.{IsWhyReply, IsExplainReply};

use crate::alone::{CHUNK, WORKERS};
use crate::mapping::read_named;
use crate::refusal::no_object;
use crate::sources::{Source, find_collected, find_source};
use g1_command::Refusal;
use g1_explain::{Explanation, Form, explain, why};
use g1_image::{Image, copy};
use g1_pause::{Choice, Settings};
use g1_report::{locate, noted};
use g1_words::{Fault, object_at};
use g1heap_request::{Explain, Why};
use std::alloc::Global;
use std::io::Read;
use std::rt::Files;
use std::thread::Threads;

/// The lines of a pause, and the status: that of the fault for which the pause is refused, if it is.
pub fn explain_pause<T: Threads + Sync + Files, R: Read>(
    rt: &T,
    alloc: Global,
    request: &Explain,
    reader: &mut R,
) -> Result<(u8, String), Refusal>
    ensures text { IfOk result (λ x. IsExplainReply request.now (R.remaining reader.old) x.0 x.1.bytes.items) }
    ensures refused { IfErr result (RefusesExplain request.now (R.remaining reader.old)) }
{
    let settings = match settings_of(alloc, request) {
        Ok(settings) => settings,
        Err(fault) => return Err(Refusal::Fault(fault)),
    };
    let source = match find_collected(rt, alloc, &request.image, reader) {
        Ok(source) => source,
        Err(refusal) => return Err(refusal),
    };
    match source.image(rt, alloc) {
        Ok(image) => explain_image(rt, alloc, &source, image, request, &settings, reader),
        Err(refusal) => Err(refusal),
    }
}

fn explain_image<T: Threads + Sync + Files, R: Read>(
    rt: &T,
    alloc: Global,
    source: &Source<'_>,
    image: Image,
    request: &Explain,
    settings: &Settings,
    reader: &mut R,
) -> Result<(u8, String), Refusal>
    ensures text { IfOk result (λ x. IsExplanation settings.now.cost settings.now.choice (form_of request.now.map) request.now.names (R.remaining reader.old) image x.0 x.1.bytes.items) }
    ensures refused { IfErr result (λ r. RefusesNamesGiven request.now.names (R.remaining reader.old) None r ⊎ RefusesPause source.now.image.now.name.bytes.items settings.now.cost settings.now.choice request.now.map image r ⊎ IsRefusedIn (λ v. v.items) source.now.kept source.now.image.now r) }
{
    let Some(file) = &request.names else {
        return pause_lines(rt, alloc, source, image, settings, request.map);
    };
    let mut bytes = Vec::new(alloc);
    let names = match read_named(rt, alloc, file.as_str(), None, reader, &mut bytes) {
        Ok(names) => names,
        Err(refusal) => return Err(refusal),
    };
    let Ok(before) = copy(alloc, &image) else {
        return Err(Refusal::Fault(Fault::Memory));
    };
    match pause_lines(rt, alloc, source, image, settings, request.map) {
        Ok((status, lines)) => match noted(alloc, lines.as_str(), before.heap(), &names) {
            Ok(text) => Ok((status, text)),
            Err(_) => Err(Refusal::Fault(Fault::Memory)),
        },
        Err(refusal) => Err(refusal),
    }
}

// The lines of a pause of an image, and the status.
fn pause_lines<T: Threads + Sync + Files>(
    rt: &T,
    alloc: Global,
    source: &Source<'_>,
    image: Image,
    settings: &Settings,
    map: bool,
) -> Result<(u8, String), Refusal>
    ensures text { IfOk result (λ x. IsPauseText settings.now.cost settings.now.choice (form_of map) image x.0 x.1.bytes.items) }
    ensures refused { IfErr result (λ r. RefusesPause source.now.image.now.name.bytes.items settings.now.cost settings.now.choice map image r ⊎ IsRefusedIn (λ v. v.items) source.now.kept source.now.image.now r) }
{
    let form = form_of(map);
    match explain(rt, alloc, image, settings, form) {
        Ok(explanation) => answer(rt, alloc, source, explanation, form),
        // It wants memory, and nothing else.
        Err(_) => Err(Refusal::Fault(Fault::Memory)),
    }
}

fn form_of(map: bool) -> Form
    ensures { result ≡ form_of map }
{
    if map { Form::Map } else { Form::Steps }
}

// Numbers out of their ranges are found before the image is read.
fn settings_of(alloc: Global, request: &Explain) -> Result<Settings, Fault>
    ensures cost { IfOk result (λ s. s.cost ≡ request.now.cost) }
    ensures choice { IfOk result (λ s. AsksFor request.now.budget request.now.set.items s.choice) }
    ensures fault { IfErr result (λ f. RefusesCost request.now.cost (Refusal.Fault f)) }
{
    match choice_of(alloc, request) {
        Ok(choice) => Settings::new(WORKERS, CHUNK, request.cost, choice),
        Err(fault) => Err(fault),
    }
}

fn choice_of(alloc: Global, request: &Explain) -> Result<Choice, Fault>
    ensures asked { IfOk result (AsksFor request.now.budget request.now.set.items) }
    ensures memory { IfErr result (λ f. f ≡ Fault.Memory) }
{
    match request.budget {
        Some(budget) => Ok(Choice::Budget(budget)),
        None => match request.set.as_slice().to_vec(alloc) {
            Ok(set) => Ok(Choice::Given(set)),
            Err(_) => Err(Fault::Memory),
        },
    }
}

fn answer<T: Files>(
    rt: &T,
    alloc: Global,
    source: &Source<'_>,
    explanation: Explanation,
    form: Form,
) -> Result<(u8, String), Refusal>
    ensures text { IfOk result (λ x. x.1 ≡ explanation.text) }
    ensures status { IfOk result (λ x. EndsWith explanation.refused form x.0) }
    ensures refused { IfErr result (λ r. (f : Fault) × (explanation.refused ≡ Some f) × (form ≡ Form.Map) × (RefusesFile source.now.image.now.name.bytes.items f r ⊎ IsRefusedIn (λ v. v.items) source.now.kept source.now.image.now r)) }
{
    let Explanation { text, refused } = explanation;
    match (refused, form) {
        (None, _) => Ok((0, text)),
        (Some(fault), Form::Map) => Err(source.refuse(rt, alloc, fault)),
        (Some(fault), Form::Steps) => Ok((fault.status(), text)),
    }
}

/// What keeps the object at an address.
pub fn explain_object<T: Threads + Sync + Files, R: Read>(
    rt: &T,
    alloc: Global,
    request: &Why,
    reader: &mut R,
) -> Result<String, Refusal>
    ensures text { IfOk result (λ s. IsWhyReply request.now (R.remaining reader.old) 0 s.bytes.items) }
    ensures refused { IfErr result (RefusesWhy request.now (R.remaining reader.old)) }
{
    let source = match find_source(rt, alloc, &request.image, reader) {
        Ok(source) => source,
        Err(refusal) => return Err(refusal),
    };
    match source.image(rt, alloc) {
        Ok(image) => keeping_lines(rt, alloc, &source, image, request, reader),
        Err(refusal) => Err(refusal),
    }
}

fn keeping_lines<T: Threads + Sync + Files, R: Read>(
    rt: &T,
    alloc: Global,
    source: &Source<'_>,
    image: Image,
    request: &Why,
    reader: &mut R,
) -> Result<String, Refusal>
    ensures text { IfOk result (λ s. MayBeNamed request.now.names (R.remaining reader.old) image.heap (IsReasonText request.now.address image) s.bytes.items) }
    ensures refused { IfErr result (λ r. RefusesReason source.now.image.now.name.bytes.items request.now.address image r ⊎ RefusesNamesGiven request.now.names (R.remaining reader.old) None r ⊎ IsRefusedIn (λ v. v.items) source.now.kept source.now.image.now r) }
{
    let address = request.address;
    if let Err(refusal) = check_object(alloc, source.name(), &image, address) {
        return Err(refusal);
    }
    match &request.names {
        None => reason_lines(rt, alloc, source, image, address),
        Some(file) => named_lines(rt, alloc, source, image, address, file.as_str(), reader),
    }
}

fn named_lines<T: Threads + Sync + Files, R: Read>(
    rt: &T,
    alloc: Global,
    source: &Source<'_>,
    image: Image,
    address: u64,
    file: &str,
    reader: &mut R,
) -> Result<String, Refusal>
    ensures text { IfOk result (λ s. IsTextNamed file.now (R.remaining reader.old) image.heap (IsReasonText address image) s.bytes.items) }
    ensures refused { IfErr result (λ r. RefusesReason source.now.image.now.name.bytes.items address image r ⊎ RefusesNamesOf file.now (R.remaining reader.old) None r ⊎ IsRefusedIn (λ v. v.items) source.now.kept source.now.image.now r) }
{
    let mut bytes = Vec::new(alloc);
    let names = match read_named(rt, alloc, file, None, reader, &mut bytes) {
        Ok(names) => names,
        Err(refusal) => return Err(refusal),
    };
    let Ok(before) = copy(alloc, &image) else {
        return Err(Refusal::Fault(Fault::Memory));
    };
    match reason_lines(rt, alloc, source, image, address) {
        Ok(lines) => match noted(alloc, lines.as_str(), before.heap(), &names) {
            Ok(text) => Ok(text),
            Err(_) => Err(Refusal::Fault(Fault::Memory)),
        },
        Err(refusal) => Err(refusal),
    }
}

fn reason_lines<T: Threads + Sync + Files>(
    rt: &T,
    alloc: Global,
    source: &Source<'_>,
    image: Image,
    address: u64,
) -> Result<String, Refusal>
    ensures text { IfOk result (λ s. IsReasonText address image s.bytes.items) }
    ensures refused { IfErr result (λ r. RefusesReason source.now.image.now.name.bytes.items address image r ⊎ IsRefusedIn (λ v. v.items) source.now.kept source.now.image.now r) }
{
    match why(rt, alloc, image, address) {
        Ok(text) => Ok(text),
        Err(fault) => Err(source.refuse(rt, alloc, fault)),
    }
}

// Refuses an address at which no object starts.
fn check_object(alloc: Global, name: &str, image: &Image, address: u64) -> Result<(), Refusal>
    ensures { IfErr result (MayLack name.now (asked.Object address) image.now) }
{
    let heap = image.heap();
    if object_at(heap, address).is_some() {
        return Ok(());
    }
    match locate(alloc, heap, address) {
        Ok(location) => Err(no_object(alloc, name, address, &location)),
        // It wants memory, and nothing else.
        Err(_) => Err(Refusal::Fault(Fault::Memory)),
    }
}
