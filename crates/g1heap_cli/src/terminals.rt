//! What is said to a person at a terminal.
ghost use Rattle.std.specs.Prelude.{◌≡◌, ◌≢◌, true, IfOk, IfErr, OnOk, MatchBool};
ghost use Rattle.g1_command.specs.Requests.{IsUsageIf};
ghost use Rattle.g1heap_cli.specs.Leaving.{Announces};
ghost use Rattle.g1heap_cli.specs.Endings.{IsImageByDefault};

use g1_command::{Refusal, deliver};
use g1heap_request::{Output, Request, STANDARD_STREAM};
use std::alloc::{AllocError, Global};
use std::io::Write;

/// Which of the program's streams are terminals.
#[derive(Clone, Copy)]
pub struct Terminals {
    pub input: bool,
    pub output: bool,
}

/// Says what is waited for, if it has to come from a terminal.
pub fn announce<E: Write>(terminals: Terminals, request: &Request, errors: &mut E)
    ensures { Announces terminals.input (E.contents errors.old) (E.contents errors.new) }
{
    if !terminals.input {
        return;
    }
    if let Some(text) = waiting_text(request) {
        // The answer is the same whether this is seen or not.
        let _ = deliver(text.as_bytes(), errors);
    }
}

const IMAGE: &str = "g1heap: waiting for an image on standard input\n";

const DUMP: &str = "g1heap: waiting for a heap dump on standard input\n";

const NAMES: &str = "g1heap: waiting for lines of names on standard input, which Ctrl-D ends\n";

const LINES: &str = "g1heap: waiting for lines on standard input, which Ctrl-D ends\n";

const TRACE: &str = "g1heap: waiting for a trace on standard input, which Ctrl-D ends\n";

// What is said of the request if standard input is read for it.
fn waiting_text(request: &Request) -> Option<&'static str> {
    let (name, text) = match request {
        Request::Help(_) => return None,
        Request::Same(same) if is_standard(&same.before) || is_standard(&same.after) => {
            return Some(IMAGE);
        }
        Request::Same(same) => (same.names.as_ref()?, NAMES),
        Request::Print { image, .. } => (&image.name, IMAGE),
        Request::Make { lines, .. } => (lines, LINES),
        Request::Convert(asked) => (&asked.dump, DUMP),
        Request::Explain(explain) => (&explain.image.name, IMAGE),
        Request::Why(why) => (&why.image.name, IMAGE),
        Request::Trace(trace) => (&trace.name, TRACE),
        Request::Ask(ask) => (&ask.image.name, IMAGE),
        Request::Rewrite(rewrite) => (&rewrite.image.name, IMAGE),
    };
    is_standard(name).then_some(text)
}

fn is_standard(name: &String) -> bool {
    name.as_str() == STANDARD_STREAM
}

/// The request, unless an image is to be written to a terminal: that is refused if standard output is not asked for.
pub fn allow(alloc: Global, terminals: Terminals, request: Request) -> Result<Request, Refusal>
    ensures same { IfOk result (λ r. r ≡ request) }
    ensures allowed { OnOk result (terminals.output ≡ true → IsImageByDefault request → ⊥) }
    ensures refused { IfErr result (IsUsageIf ((terminals.output ≡ true) × IsImageByDefault request)) }
{
    if !terminals.output || !is_image_by_default(&request) {
        return Ok(request);
    }
    Err(Refusal::usage(String::from_str(alloc, BYTES)?))
}

// Whether an image goes to standard output only since nothing else is said.
fn is_image_by_default(request: &Request) -> bool
    ensures { MatchBool result (IsImageByDefault request.now) (IsImageByDefault request.now → ⊥) }
{
    match request {
        Request::Make { output, .. } => is_default(output),
        Request::Convert(asked) => is_default(&asked.output),
        Request::Rewrite(rewrite) => is_default(&rewrite.output),
        Request::Help(_) => false,
        Request::Same(_) => false,
        Request::Print { .. } => false,
        Request::Explain(_) => false,
        Request::Why(_) => false,
        Request::Trace(_) => false,
        Request::Ask(_) => false,
    }
}

fn is_default(output: &Output) -> bool
    ensures { MatchBool result (output.now ≡ Output.Default) (output.now ≢ Output.Default) }
{
    matches!(output, Output::Default)
}

const BYTES: &str =
    "g1heap: an image is not written to a terminal: name a file, as in '-o FILE', or write '-o -'\n";
