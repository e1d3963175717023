//! The names of a program, from a file.
ghost use Rattle.std.specs.Prelude.{option_map, IfOk, IfErr, IfSome};
ghost use Rattle.g1_report.specs.Program.{program_of, labels_told, RiseByNumber, AreInOrder};
ghost use Rattle.g1heap_cli.specs.Streams.{LeavesBehind, LeavesBehindAny};
ghost use Rattle.g1heap_cli.specs.Named.{AreNamesOfFile, AreNamesGiven, RefusesNamesOf, RefusesNamesGiven};

use crate::files::read_bytes;
use crate::refusal::refuse_names;
use g1_command::Refusal;
use g1_report::{Labels, Names};
use std::alloc::Global;
use std::io::Read;
use std::rt::Files;

/// Reads a file of names for a heap whose objects have these names, if a file is given. Its text is kept where the names
/// borrow it.
pub fn read_names<'a, T: Files, R: Read>(
    rt: &T,
    alloc: Global,
    file: &Option<String>,
    labels: Labels<'a>,
    reader: &mut R,
    text: &'a mut Vec<u8>,
) -> Result<Option<Names<'a>>, Refusal>
    ensures names { IfOk result (λ n. AreNamesGiven file.now (R.remaining reader.old) (labels_told labels.entry) (option_map program_of n)) }
    ensures in_order { IfSome (labels_told labels.entry) RiseByNumber → IfOk result (λ n. IfSome (option_map program_of n) AreInOrder) }
    ensures refused { IfErr result (RefusesNamesGiven file.now (R.remaining reader.old) (labels_told labels.entry)) }
    ensures left { LeavesBehindAny file.now (R.remaining reader.old) (R.remaining reader.new) }
{
    let Some(file) = file else {
        return Ok(None);
    };
    match read_named(rt, alloc, file.as_str(), labels, reader, text) {
        Ok(names) => Ok(Some(names)),
        Err(refusal) => Err(refusal),
    }
}

/// Reads the file of names that has this name, for a heap whose objects have these names.
pub fn read_named<'a, T: Files, R: Read>(
    rt: &T,
    alloc: Global,
    name: &str,
    labels: Labels<'a>,
    reader: &mut R,
    text: &'a mut Vec<u8>,
) -> Result<Names<'a>, Refusal>
    ensures names { IfOk result (λ n. AreNamesOfFile name.now (R.remaining reader.old) (labels_told labels.entry) (program_of n)) }
    ensures in_order { IfSome (labels_told labels.entry) RiseByNumber → IfOk result (λ n. AreInOrder (program_of n)) }
    ensures refused { IfErr result (RefusesNamesOf name.now (R.remaining reader.old) (labels_told labels.entry)) }
    ensures left { LeavesBehind name.now (R.remaining reader.old) (R.remaining reader.new) }
{
    match read_bytes(rt, alloc, name, reader) {
        Ok(bytes) => *text = bytes,
        Err(refusal) => return Err(refusal),
    }
    match Names::read(alloc, text.as_slice(), labels) {
        Ok(names) => Ok(names),
        Err(wrong) => Err(refuse_names(alloc, name, wrong)),
    }
}
