ghost use Rattle.std.specs.Prelude.{◌≡◌, ◌+◌, ◌<◌, ◌≤◌, ℕ, length, slice_index, Err, OnOk, IfOk, IfErr};
ghost use Rattle.g1_words.specs.Geometry.{most_words};
ghost use Rattle.g1_words.specs.Heap.{object_at};
ghost use Rattle.g1_trace.specs.Commands.{answer_from, answer_of, in_range, not_null, Answer as AnswerOf};
ghost use Rattle.g1_trace.specs.Mutator.{heap_view};

use crate::command::{Command, Reply};
use crate::effect::{Answer, Effect};
use g1_words::{Heap, Object};

/// What is done, and the reply `ok`.
fn done(effect: Effect) -> Answer
    ensures { result ≡ record { reply = Reply.Ok; effect = effect } }
{
    Answer {
        reply: Reply::Ok,
        effect,
    }
}

/// A number is the reply, and nothing is done.
fn number(value: u64) -> Answer
    ensures { result ≡ record { reply = Reply.Number value; effect = Effect.Nothing } }
{
    Answer {
        reply: Reply::Number(value),
        effect: Effect::Nothing,
    }
}

/// Refuses an index that is not below a count.
fn check_index(index: u64, count: u64) -> Result<(), Reply>
    ensures below { OnOk result (index < count) }
    ensures refused { IfErr result (λ reply. (reply ≡ Reply.Range) × (count ≤ index)) }
{
    if index < count {
        Ok(())
    } else {
        Err(Reply::Range)
    }
}

/// What a root is, if there is such a root.
fn root_value(heap: &Heap, root: u64) -> Result<u64, Reply>
    ensures root { IfOk result (λ _. root < length heap.now.roots) }
    ensures value { IfOk result (λ value. value ≡ slice_index heap.now.roots root) }
    ensures refused { IfErr result (λ reply. (reply ≡ Reply.Range) × (length heap.now.roots ≤ root)) }
{
    let roots = heap.roots();
    check_index(root, roots.len() as u64)?;
    Ok(roots[root as usize])
}

/// The object that a root references. Its header shows it, at no more cost than one word.
fn object_of(heap: &Heap, root: u64) -> Result<Object, Reply>
    ensures root { IfOk result (λ _. root < length heap.now.roots) }
    ensures named { IfOk result (λ o. slice_index heap.now.roots root ≡ o.at + 1) }
    ensures object { IfOk result (λ o. o ≡ object_at heap.now o.at) }
    ensures refs { IfOk result (λ o. o.refs < o.size) }
    ensures within { IfOk result (λ o. o.at + o.size ≤ length heap.now.words) }
    ensures small { length heap.now.words ≤ most_words }
    ensures refused { IfErr result (λ reply. (rest : ℕ → AnswerOf) → answer_from (Err reply) ≡ in_range (heap_view heap.now) root (not_null (heap_view heap.now) (slice_index heap.now.roots root) rest)) }
{
    g1_words::laws::valid(heap);
    let value = root_value(heap, root)?;
    if value == 0 {
        return Err(Reply::Null);
    }
    Ok(heap.object(value - 1))
}

fn answer_get(heap: &Heap, root: u64, from: u64, slot: u64) -> Result<Answer, Reply>
    ensures { answer_from result ≡ answer_of (heap_view heap.now) (Command.Get root from slot) }
{
    root_value(heap, root)?;
    let source = object_of(heap, from)?;
    check_index(slot, source.refs)?;
    let value = heap.words().at(source.at + 1 + slot);
    Ok(done(Effect::SetRoot { root, value }))
}

fn answer_put(heap: &Heap, root: u64, slot: u64, from: u64) -> Result<Answer, Reply>
    ensures { answer_from result ≡ answer_of (heap_view heap.now) (Command.Put root slot from) }
{
    let value = root_value(heap, from)?;
    let target = object_of(heap, root)?;
    check_index(slot, target.refs)?;
    Ok(done(Effect::SetSlot {
        object: target.at,
        slot,
        value,
    }))
}

fn answer_set(heap: &Heap, root: u64, word: u64, value: u64) -> Result<Answer, Reply>
    ensures { answer_from result ≡ answer_of (heap_view heap.now) (Command.Set root word value) }
{
    let target = object_of(heap, root)?;
    check_index(word, target.size - 1 - target.refs)?;
    Ok(done(Effect::SetValue {
        object: target.at,
        word,
        value,
    }))
}

fn answer_say(heap: &Heap, root: u64, word: u64) -> Result<Answer, Reply>
    ensures { answer_from result ≡ answer_of (heap_view heap.now) (Command.Say root word) }
{
    let source = object_of(heap, root)?;
    check_index(word, source.size - 1 - source.refs)?;
    let value = heap.words().at(source.at + 1 + source.refs + word);
    Ok(number(value))
}

fn answer_same(heap: &Heap, root: u64, other: u64) -> Result<Answer, Reply>
    ensures { answer_from result ≡ answer_of (heap_view heap.now) (Command.Same root other) }
{
    let value = root_value(heap, root)?;
    let other_value = root_value(heap, other)?;
    Ok(number(u64::from(value == other_value)))
}

fn answer_copy(heap: &Heap, root: u64, from: u64) -> Result<Answer, Reply>
    ensures { answer_from result ≡ answer_of (heap_view heap.now) (Command.Copy root from) }
{
    root_value(heap, root)?;
    let value = root_value(heap, from)?;
    Ok(done(Effect::SetRoot { root, value }))
}

/// What a command replies and does on a heap, or the reply of the check that refuses it.
fn check_command(heap: &Heap, command: &Command) -> Result<Answer, Reply>
    ensures { answer_from result ≡ answer_of (heap_view heap.now) command.now }
{
    match *command {
        Command::New { root, refs, words } => {
            root_value(heap, root)?;
            Ok(done(Effect::MakeNew { root, refs, words }))
        }
        Command::Get { root, from, slot } => answer_get(heap, root, from, slot),
        Command::Put { root, slot, from } => answer_put(heap, root, slot, from),
        Command::Set { root, word, value } => answer_set(heap, root, word, value),
        Command::Say { root, word } => answer_say(heap, root, word),
        Command::Same { root, other } => answer_same(heap, root, other),
        Command::Copy { root, from } => answer_copy(heap, root, from),
        Command::Drop { root } => {
            root_value(heap, root)?;
            Ok(done(Effect::SetRoot { root, value: 0 }))
        }
        Command::Pause { budget } => Ok(done(Effect::MakePause { budget })),
    }
}

/// What a command replies and does on a heap, if there is place. No more than a few words are read.
pub(crate) fn answer(heap: &Heap, command: &Command) -> Answer
    ensures { result ≡ answer_of (heap_view heap.now) command.now }
{
    match check_command(heap, command) {
        Ok(answer) => answer,
        Err(reply) => Answer {
            reply,
            effect: Effect::Nothing,
        },
    }
}
