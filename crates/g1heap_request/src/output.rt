//! Where an answer goes.
ghost use Rattle.std.specs.Prelude.{IfOk, option_map};
ghost use Rattle.g1heap_request.specs.Values.{GoesTo};

use std::alloc::{AllocError, Global};

/// The name that means standard input, or standard output.
pub const STANDARD_STREAM: &str = "-";

/// Where an answer goes.
#[derive(Drop)]
pub enum Output {
    /// To standard output, since nothing else is said.
    Default,
    /// To standard output, which is asked for.
    Standard,
    /// To the file of this name.
    File(String),
}

impl Output {
    /// The output of this name, if one is given.
    pub fn of_name(alloc: Global, name: Option<&str>) -> Result<Output, AllocError>
        ensures { IfOk result (GoesTo (option_map (λ s. s.now) name.entry)) }
    {
        match name {
            None => Ok(Output::Default),
            Some(STANDARD_STREAM) => Ok(Output::Standard),
            Some(name) => Ok(Output::File(String::from_str(alloc, name)?)),
        }
    }
}
