ghost use Rattle.std.specs.Prelude.{◌≡◌, ◌≢◌, ◌⊎◌, ℕ, List, [], ◌∷◌, ◌++◌, ◌+◌, ◌*◌, ◌<◌, ◌≤◌, ◌^◌, length, take, drop, slice_index, decimal, IsTrue, ◌↔◌, IfSome, IfNone, IfOk, IfErr};
ghost use Rattle.g1_trace.specs.declared.command.Command.{Command as CommandOf};
ghost use Rattle.g1_trace.specs.declared.parsing.Name.{Name as NameOf};
ghost use Rattle.g1_trace.specs.TraceText.{spaced, AllFit, command_line, heap_line, name_of, numbers_of, IsHeapLine, IsCommandLine, IsBadRest, IsTraceText, IsFirstBadLine};
ghost use Rattle.g1_trace.specs.Lines.{AreDigits, IsLineEnd, IsNumberEnd, listed, read_on, spelled};

use crate::command::Command;
use crate::trace::Trace;
use g1_words::Fault;
use std::alloc::Global;

/// The number that is written with one more digit; None if it has more than 64 bits.
fn append_digit(value: u64, digit: u64) -> Option<u64>
    ensures some { IfSome result (λ x. x ≡ 10 * value + digit) }
    ensures fits { IfSome result (λ x. x < 2 ^ 64) }
    ensures none { IfNone result (2 ^ 64 ≤ 10 * value + digit) }
{
    match value.checked_mul(10) {
        Some(tens) => tens.checked_add(digit),
        None => None,
    }
}

/// The number that the digits write with which the bytes begin, and how many they are; None if it has
/// more than 64 bits.
fn leading_digits(bytes: &[u8]) -> Option<(u64, usize)>
    ensures within { IfSome result (λ r. r.1 ≤ length bytes.now) }
    ensures digits { IfSome result (λ r. AreDigits (take r.1 bytes.now)) }
    ensures end { IfSome result (λ r. IsNumberEnd (drop r.1 bytes.now)) }
    ensures value { IfSome result (λ r. r.0 ≡ read_on 0 (take r.1 bytes.now)) }
    ensures fits { IfSome result (λ r. r.0 < 2 ^ 64) }
    ensures none { IfNone result ((x : ℕ) (more : List ℕ) → x < 2 ^ 64 → IsNumberEnd more → bytes.now ≡ decimal x ++ more → ⊥) }
{
    let mut value: u64 = 0;
    for (i, b) in bytes.iter().enumerate() {
        if *b < b'0' || *b > b'9' {
            return Some((value, i));
        }
        value = match append_digit(value, u64::from(*b - b'0')) {
            Some(longer) => longer,
            None => return None,
        };
    }
    Some((value, bytes.len()))
}

/// The number that the bytes begin with, in decimal digits without a leading zero, and the bytes
/// after its digits.
fn number(bytes: &[u8]) -> Option<(u64, &[u8])>
    ensures some { IfSome result (λ r. (bytes.now ≡ decimal r.0 ++ r.1.now) × IsNumberEnd r.1.now) }
    ensures fits { IfSome result (λ r. r.0 < 2 ^ 64) }
    ensures none { IfNone result ((x : ℕ) (more : List ℕ) → x < 2 ^ 64 → IsNumberEnd more → bytes.now ≡ decimal x ++ more → ⊥) }
{
    let (value, count) = match leading_digits(bytes) {
        Some(read) => read,
        None => return None,
    };
    if count == 0 {
        return None;
    }
    if bytes[0] == b'0' && count > 1 {
        return None;
    }
    let (_, rest) = bytes.split_at(count);
    Some((value, rest))
}

/// A space and a number that the bytes begin with, and the bytes after it.
fn take_number(bytes: &[u8]) -> Option<(u64, &[u8])>
    ensures some { IfSome result (λ r. (bytes.now ≡ 32 ∷ (decimal r.0 ++ r.1.now)) × IsNumberEnd r.1.now) }
    ensures fits { IfSome result (λ r. r.0 < 2 ^ 64) }
    ensures none { IfNone result ((x : ℕ) (more : List ℕ) → x < 2 ^ 64 → IsNumberEnd more → bytes.now ≡ 32 ∷ (decimal x ++ more) → ⊥) }
{
    if bytes.len() == 0 || bytes[0] != b' ' {
        return None;
    }
    let (_, after) = bytes.split_at(1);
    number(after)
}

/// The four numbers of a line's end.
fn four(bytes: &[u8]) -> Option<(u64, u64, u64, u64)>
    ensures some { IfSome result (λ r. bytes.now ≡ spaced (r.0 ∷ r.1 ∷ r.2 ∷ r.3 ∷ [])) }
    ensures fits { IfSome result (λ r. AllFit (r.0 ∷ r.1 ∷ r.2 ∷ r.3 ∷ [])) }
    ensures none { IfNone result ((a b d e : ℕ) → AllFit (a ∷ b ∷ d ∷ e ∷ []) → bytes.now ≡ spaced (a ∷ b ∷ d ∷ e ∷ []) → ⊥) }
{
    let (a, second) = take_number(bytes)?;
    let (b, third) = take_number(second)?;
    let (d, fourth) = take_number(third)?;
    let (e, end) = take_number(fourth)?;
    if end.len() == 0 {
        Some((a, b, d, e))
    } else {
        None
    }
}

/// The numbers of a trace's first line, without its end: words a region, words a card, regions and roots.
pub fn first_line(line: &[u8]) -> Option<(u64, u64, u64, u64)>
    ensures some { IfSome result (λ r. line.now ≡ heap_line r.0 r.1 r.2 r.3) }
    ensures fits { IfSome result (λ r. AllFit (r.0 ∷ r.1 ∷ r.2 ∷ r.3 ∷ [])) }
    ensures none { IfNone result (IsHeapLine line.now → ⊥) }
{
    match line.strip_prefix(b"heap") {
        Some(rest) => four(rest),
        None => None,
    }
}

/// A command's name.
#[derive(Clone, Copy)]
pub(crate) enum Name {
    New,
    Get,
    Put,
    Set,
    Say,
    Same,
    Copy,
    Drop,
    Pause,
}

/// One to three numbers.
#[derive(Clone, Copy)]
enum Numbers {
    One(u64),
    Two(u64, u64),
    Three(u64, u64, u64),
}

/// The command's name that a word spells.
pub(crate) fn name_from(word: &[u8]) -> Option<Name>
    ensures some { IfSome result (λ name. word.now ≡ spelled name) }
    ensures none { IfNone result ((name : NameOf) → word.now ≡ spelled name → ⊥) }
{
    match word {
        b"get" => Some(Name::Get),
        b"put" => Some(Name::Put),
        b"set" => Some(Name::Set),
        b"new" => Some(Name::New),
        b"drop" => Some(Name::Drop),
        b"copy" => Some(Name::Copy),
        b"say" => Some(Name::Say),
        b"same" => Some(Name::Same),
        b"pause" => Some(Name::Pause),
        _ => None,
    }
}

/// The command's name that the bytes begin with, and the bytes after the space that follows it.
fn take_name(bytes: &[u8]) -> Option<(Name, &[u8])>
    ensures some { IfSome result (λ r. bytes.now ≡ spelled r.0 ++ 32 ∷ r.1.now) }
    ensures none { IfNone result ((name : NameOf) (more : List ℕ) → bytes.now ≡ spelled name ++ 32 ∷ more → ⊥) }
{
    let (word, rest) = match split_at_byte(bytes, b' ') {
        Some(split) => split,
        None => return None,
    };
    match name_from(word) {
        Some(name) => Some((name, rest)),
        None => None,
    }
}

/// Returns whether the bytes are at their end, or at the end of a line.
fn ends_line(bytes: &[u8]) -> bool
    ensures { IsTrue result ↔ IsLineEnd bytes.now }
{
    bytes.len() == 0 || bytes[0] == b'\n'
}

/// The numbers from the first of them, after its space, to the end of a line, and the bytes from there on.
fn take_numbers(bytes: &[u8]) -> Option<(Numbers, &[u8])>
    ensures some { IfSome result (λ r. (32 ∷ bytes.now ≡ spaced (listed r.0) ++ r.1.now) × IsLineEnd r.1.now) }
    ensures fits { IfSome result (λ r. AllFit (listed r.0)) }
    ensures none { IfNone result ((xs : List ℕ) (more : List ℕ) → 0 < length xs → length xs ≤ 3 → AllFit xs → IsLineEnd more → 32 ∷ bytes.now ≡ spaced xs ++ more → ⊥) }
{
    let (first, others) = match number(bytes) {
        Some(read) => read,
        None => return None,
    };
    if ends_line(others) {
        return Some((Numbers::One(first), others));
    }
    let (second, last) = match take_number(others) {
        Some(taken) => taken,
        None => return None,
    };
    if ends_line(last) {
        return Some((Numbers::Two(first, second), last));
    }
    match take_number(last) {
        Some((third, rest)) => {
            if ends_line(rest) {
                Some((Numbers::Three(first, second, third), rest))
            } else {
                None
            }
        }
        None => None,
    }
}

/// The command of this name that has one number.
fn with_one(name: Name, number: u64) -> Option<Command>
    ensures some { IfSome result (λ c. (spelled name ≡ name_of c) × (numbers_of c ≡ number ∷ [])) }
    ensures none { IfNone result ((c : CommandOf) → numbers_of c ≡ number ∷ [] → spelled name ≡ name_of c → ⊥) }
{
    match name {
        Name::Drop => Some(Command::Drop { root: number }),
        Name::Pause => Some(Command::Pause { budget: number }),
        _ => None,
    }
}

/// The command of this name that has two numbers.
fn with_two(name: Name, root: u64, second: u64) -> Option<Command>
    ensures some { IfSome result (λ c. (spelled name ≡ name_of c) × (numbers_of c ≡ root ∷ second ∷ [])) }
    ensures none { IfNone result ((c : CommandOf) → numbers_of c ≡ root ∷ second ∷ [] → spelled name ≡ name_of c → ⊥) }
{
    match name {
        Name::Say => Some(Command::Say { root, word: second }),
        Name::Same => Some(Command::Same {
            root,
            other: second,
        }),
        Name::Copy => Some(Command::Copy { root, from: second }),
        _ => None,
    }
}

/// The command of this name that has three numbers.
fn with_three(name: Name, root: u64, second: u64, third: u64) -> Option<Command>
    ensures some { IfSome result (λ c. (spelled name ≡ name_of c) × (numbers_of c ≡ root ∷ second ∷ third ∷ [])) }
    ensures none { IfNone result ((c : CommandOf) → numbers_of c ≡ root ∷ second ∷ third ∷ [] → spelled name ≡ name_of c → ⊥) }
{
    match name {
        Name::New => Some(Command::New {
            root,
            refs: second,
            words: third,
        }),
        Name::Get => Some(Command::Get {
            root,
            from: second,
            slot: third,
        }),
        Name::Put => Some(Command::Put {
            root,
            slot: second,
            from: third,
        }),
        Name::Set => Some(Command::Set {
            root,
            word: second,
            value: third,
        }),
        _ => None,
    }
}

/// The command of this name that has these numbers.
fn with_numbers(name: Name, numbers: Numbers) -> Option<Command>
    ensures some { IfSome result (λ c. (spelled name ≡ name_of c) × (numbers_of c ≡ listed numbers)) }
    ensures none { IfNone result ((c : CommandOf) → numbers_of c ≡ listed numbers → spelled name ≡ name_of c → ⊥) }
{
    match numbers {
        Numbers::One(number) => with_one(name, number),
        Numbers::Two(root, second) => with_two(name, root, second),
        Numbers::Three(root, second, third) => with_three(name, root, second, third),
    }
}

/// The command whose line the bytes begin with, and the bytes from its end on: its name and how many
/// numbers it has say which it is.
fn take_command(bytes: &[u8]) -> Option<(Command, &[u8])>
    ensures some { IfSome result (λ r. (bytes.now ≡ command_line r.0 ++ r.1.now) × IsLineEnd r.1.now) }
    ensures fits { IfSome result (λ r. AllFit (numbers_of r.0)) }
    ensures none { IfNone result ((c : CommandOf) (more : List ℕ) → AllFit (numbers_of c) → IsLineEnd more → bytes.now ≡ command_line c ++ more → ⊥) }
{
    let (name, after) = match take_name(bytes) {
        Some(taken) => taken,
        None => return None,
    };
    let (numbers, rest) = match take_numbers(after) {
        Some(taken) => taken,
        None => return None,
    };
    match with_numbers(name, numbers) {
        Some(command) => Some((command, rest)),
        None => None,
    }
}

/// The command of a trace's later line, without its end.
pub fn later_line(line: &[u8]) -> Option<Command>
    ensures some { IfSome result (λ c. line.now ≡ command_line c) }
    ensures fits { IfSome result (λ c. AllFit (numbers_of c)) }
    ensures none { IfNone result (IsCommandLine line.now → ⊥) }
{
    match take_command(line) {
        Some((command, rest)) => { if rest.len() == 0 { Some(command) } else { None } }
        None => None,
    }
}

/// The bytes before the first byte of a value, and those after it; None if no byte has the value.
pub(crate) fn split_at_byte(bytes: &[u8], value: u8) -> Option<(&[u8], &[u8])>
    ensures some { IfSome result (λ r. (bytes.now ≡ r.0.now ++ value ∷ r.1.now) × ((k : ℕ) → k < length r.0.now → slice_index r.0.now k ≢ value)) }
    ensures none { IfNone result ((k : ℕ) → k < length bytes.now → slice_index bytes.now k ≢ value) }
{
    for (i, b) in bytes.iter().enumerate() {
        if *b == value {
            let (before, more) = bytes.split_at(i);
            let (_, rest) = more.split_at(1);
            return Some((before, rest));
        }
    }
    None
}

/// The first line of the bytes without its end, and the bytes after it; None if no line is ended.
pub(crate) fn split_line(bytes: &[u8]) -> Option<(&[u8], &[u8])>
    ensures some { IfSome result (λ r. (bytes.now ≡ r.0.now ++ 10 ∷ r.1.now) × ((k : ℕ) → k < length r.0.now → slice_index r.0.now k ≢ 10)) }
    ensures none { IfNone result ((k : ℕ) → k < length bytes.now → slice_index bytes.now k ≢ 10) }
{
    split_at_byte(bytes, b'\n')
}

/// The command of the first of some later lines, and the lines after it.
///
/// # Errors
///
/// `Fault::Line` with the line's number if it isn't of its form.
pub(crate) fn next_command(lines: &[u8], number: u64) -> Result<(Command, &[u8]), Fault>
    requires { 0 < length lines.now }
    ensures text { IfOk result (λ r. lines.now ≡ command_line r.0 ++ 10 ∷ r.1.now) }
    ensures fits { IfOk result (λ r. AllFit (numbers_of r.0)) }
    ensures fault { IfErr result (λ e. e ≡ Fault.Line number) }
    ensures bad { IfErr result (λ e. (m : ℕ) → IsBadRest (m + 1) lines.now) }
{
    match take_command(lines) {
        Some((command, end)) => {
            if end.len() == 0 {
                return Err(Fault::Line(number));
            }
            let (_, more) = end.split_at(1);
            Ok((command, more))
        }
        None => Err(Fault::Line(number)),
    }
}

/// The trace whose text these bytes are.
///
/// # Errors
///
/// `Fault::Line` with the number, from 1, of the first line that isn't of its form; `Fault::Memory`.
pub fn parse_trace(alloc: Global, bytes: &[u8]) -> Result<Trace, Fault>
    ensures ok { IfOk result (IsTraceText bytes.now) }
    ensures err { IfErr result (λ e. (e ≡ Fault.Memory) ⊎ ((n : ℕ) × (e ≡ Fault.Line n) × IsFirstBadLine bytes.now n)) }
{
    let (first, mut rest) = match split_line(bytes) {
        Some(split) => split,
        None => return Err(Fault::Line(1)),
    };
    let (w, k, n, roots) = match first_line(first) {
        Some(numbers) => numbers,
        None => return Err(Fault::Line(1)),
    };
    let mut commands: Vec<Command> = Vec::new(alloc);
    while rest.len() > 0 {
        let (command, more) = match next_command(rest, commands.len() as u64 + 2) {
            Ok(read) => read,
            Err(fault) => return Err(fault),
        };
        commands.push(command)?;
        rest = more;
    }
    Ok(Trace {
        w,
        k,
        n,
        roots,
        commands,
    })
}
