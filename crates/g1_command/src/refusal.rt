//! Why a request is not answered, and its exit status.
ghost use Rattle.std.specs.Prelude.{◌≡◌, IsOk};
ghost use Rattle.g1_command.specs.Deliveries.{Delivers};
ghost use Rattle.g1_command.specs.Refusals.{refusal_text, EndsBy};

use crate::streams::write_all;
use arrayvec::ArrayString;
use g1_words::Fault;
use std::alloc::{AllocError, AllocFailed};
use std::fmt::Write as _;
use std::io;
use std::io::{ErrorKind, Write};

/// Why a request is not answered.
#[derive(Debug, Drop)]
pub enum Refusal {
    /// A text that is reported as it is, and the exit status.
    Told { status: u8, text: String },
    /// A fault, which is reported in a line with its number.
    Fault(Fault),
}

impl Refusal {
    ghost use Rattle.std.specs.Prelude.{◌≡◌};

    /// Words that are no request, as this text says.
    pub fn usage(text: String) -> Refusal
        ensures { result ≡ Refusal.Told 2 text }
    {
        Refusal::Told { status: 2, text }
    }
}

impl From<Fault> for Refusal {
    ghost use Rattle.std.specs.Prelude.{◌≡◌};
    ghost use Rattle.g1_command.specs.declared.refusal.Refusal.TheVariants.{Fault as OfFault};

    ghost from_gives = { λ f e. e ≡ OfFault f };

    fn from(fault: Fault) -> Refusal {
        Refusal::Fault(fault)
    }
}

impl From<AllocError> for Refusal {
    ghost use Rattle.std.specs.Prelude.{◌≡◌};
    ghost use Rattle.g1_words.specs.declared.fault.Fault.TheVariants.{Memory};
    ghost use Rattle.g1_command.specs.declared.refusal.Refusal.TheVariants.{Fault as OfFault};

    ghost from_gives = { λ _ e. e ≡ OfFault Memory };

    fn from(_error: AllocError) -> Refusal {
        Refusal::Fault(Fault::Memory)
    }
}

impl<T: Drop> From<AllocFailed<T>> for Refusal {
    ghost use Rattle.std.specs.Prelude.{◌≡◌};
    ghost use Rattle.g1_words.specs.declared.fault.Fault.TheVariants.{Memory};
    ghost use Rattle.g1_command.specs.declared.refusal.Refusal.TheVariants.{Fault as OfFault};

    ghost from_gives = { λ _ e. e ≡ OfFault Memory };

    fn from(_error: AllocFailed<T>) -> Refusal {
        Refusal::Fault(Fault::Memory)
    }
}

// Room for a program's name and the longest line of a fault, which has two numbers of 20 digits. It
// is no request for memory, so that a want of memory can be told.
const LINE: usize = 128;

/// How a program ends.
#[derive(Clone, Copy)]
pub struct Ending {
    /// Its exit status.
    pub status: u8,
    /// Whether all that there was to report was written.
    pub reported: io::Result<()>,
}

impl Ending {
    /// The end of a program that did what was asked, and has nothing to report.
    pub fn done() -> Ending
        ensures status { result.status ≡ 0 }
        ensures reported { IsOk result.reported }
    {
        Ending {
            status: 0,
            reported: Ok(()),
        }
    }
}

/// Writes what is reported of a refusal, in one write. The line of a fault begins with the program's
/// name.
///
/// # Errors
///
/// That of the write. A beginning of the text may be written then.
pub fn report<E: Write>(program: &str, refusal: &Refusal, errors: &mut E) -> io::Result<()>
    ensures { Delivers (refusal_text program.now refusal.now) (E.contents errors.old) (E.contents errors.new) result }
{
    match refusal {
        Refusal::Told { text, .. } => write_all(text.as_bytes(), errors),
        Refusal::Fault(fault) => {
            let number = fault.number();
            let mut line = ArrayString::<LINE>::new();
            match writeln!(line, "{program}: fault {number}: {fault}") {
                Ok(()) => write_all(line.as_bytes(), errors),
                // It has room if the name has at most 40 bytes.
                Err(_) => Err(io::Error::from(ErrorKind::WriteZero)),
            }
        }
    }
}

/// Reports a refusal, and returns how the program ends by it: with its exit status, also if nothing can be written.
pub fn refuse<E: Write>(program: &str, refusal: &Refusal, errors: &mut E) -> Ending
    ensures { EndsBy program.now refusal.now (E.contents errors.old) (E.contents errors.new) result }
{
    let reported = report(program, refusal, errors);
    let status = match refusal {
        Refusal::Told { status, .. } => *status,
        Refusal::Fault(fault) => fault.status(),
    };
    Ending { status, reported }
}
