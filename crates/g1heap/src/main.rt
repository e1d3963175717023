//! Two heaps compared, heaps printed and heaps made: the companion of g1pause. Its commands are those of
//! `g1heap_cli`.
#![tactic(auto)]

use g1_command::{refuse, words};
use g1heap_cli::{Call, Heard, NAME, Terminals, program};
use std::io::IsTerminal;
use std::process::ExitCode;

fn main(rt: HostRuntime) -> ExitCode {
    let alloc = rt.alloc();
    let (mut reader, writer, mut errors) = (rt.stdin(), rt.stdout(), rt.stderr());
    let terminals = Terminals {
        input: reader.is_terminal(),
        output: writer.is_terminal(),
    };
    let ending = match words(&rt, alloc) {
        Ok(words) => {
            let call = Call {
                words: words.as_slice(),
                terminals,
            };
            program(
                &rt,
                alloc,
                call,
                &mut reader,
                &mut Heard::new(writer),
                &mut errors,
            )
        }
        Err(refusal) => refuse(NAME, &refusal, &mut errors),
    };
    ExitCode::from(ending.status)
}
