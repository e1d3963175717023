//! Garbage-First evacuation pauses on heap images: the program. Its commands are those of `g1pause_cli`.
#![tactic(auto)]

use g1_command::{refuse, words};
use g1_image::ToWriter;
use g1pause_cli::{NAME, program};
use std::process::ExitCode;

fn main(rt: HostRuntime) -> ExitCode {
    let alloc = rt.alloc();
    let mut errors = rt.stderr();
    let ending = match words(&rt, alloc) {
        Ok(words) => program(
            &rt,
            alloc,
            words.as_slice(),
            &mut rt.stdin(),
            &mut ToWriter::new(rt.stdout()),
            &mut errors,
        ),
        Err(refusal) => refuse(NAME, &refusal, &mut errors),
    };
    ExitCode::from(ending.status)
}
