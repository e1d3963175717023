use crate::parsing::{Name, name_from, split_at_byte};
use std::error::Error;
use std::fmt;

/// What a line of a trace has to be, by its first word.
#[derive(Debug, Clone, Copy)]
pub enum Expected {
    Heap,
    New,
    Get,
    Put,
    Set,
    Say,
    Same,
    Copy,
    Drop,
    Pause,
    Command,
    End,
}

impl fmt::Display for Expected {
    fn fmt<W: fmt::Write>(&self, f: &mut fmt::Formatter<W>) -> fmt::Result {
        f.write_str(match self {
            Expected::Heap => "'heap W K N ROOTS', four numbers without leading zeros",
            Expected::New => "'new ROOT SLOTS WORDS'",
            Expected::Get => "'get ROOT FROM SLOT'",
            Expected::Put => "'put ROOT SLOT FROM'",
            Expected::Set => "'set ROOT WORD VALUE'",
            Expected::Say => "'say ROOT WORD'",
            Expected::Same => "'same ROOT ROOT'",
            Expected::Copy => "'copy ROOT FROM'",
            Expected::Drop => "'drop ROOT'",
            Expected::Pause => "'pause BUDGET'",
            Expected::Command => "a command: new, get, put, set, say, same, copy, drop or pause",
            Expected::End => "the end of the line, a byte 10",
        })
    }
}

impl Error for Expected {}

impl Expected {
    /// What a line that begins like this has to be.
    pub(crate) fn of_line(line: &[u8]) -> Expected {
        let word = match split_at_byte(line, b' ') {
            Some((word, _)) => word,
            None => line,
        };
        match name_from(word) {
            Some(Name::New) => Expected::New,
            Some(Name::Get) => Expected::Get,
            Some(Name::Put) => Expected::Put,
            Some(Name::Set) => Expected::Set,
            Some(Name::Say) => Expected::Say,
            Some(Name::Same) => Expected::Same,
            Some(Name::Copy) => Expected::Copy,
            Some(Name::Drop) => Expected::Drop,
            Some(Name::Pause) => Expected::Pause,
            None => Expected::Command,
        }
    }
}
