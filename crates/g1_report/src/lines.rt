//! Where lines go.
ghost use Rattle.std.specs.Prelude.{ℕ, List, Option, None, IfErr, OnErr, OnOk};
ghost use Rattle.std.specs.Io.KnownBytes.{Appends};
ghost use Rattle.g1_report.specs.Taken.{StopsLines, TakesPart};

use g1_words::Fault;

/// Takes lines as they are made, since together they may be longer than memory.
pub trait Lines {
    // What was taken so far, where that is told.
    ghost taken: { Self → Option (List ℕ) } = { λ _. None };

    /// Takes a line, or several. Returns whether further ones have a reader.
    ///
    /// # Errors
    ///
    /// `Fault::Memory`, or that the output failed. A beginning of the lines may have been taken then.
    fn take(&mut self, lines: &str) -> Result<bool, Fault>
        ensures ok { OnOk result (Appends (taken self.old) (taken self.new) lines.now) }
        ensures err { OnErr result (TakesPart (taken self.old) (taken self.new) lines.now) }
        ensures fault { IfErr result StopsLines };
}
