//! Lines that together may be longer than memory: they are written as they are made.
ghost use Rattle.g1heap_cli.specs.Written.{HasBegun, HasBegun-prop, taken_of};

use g1_command::{BROKEN_PIPE, deliver_text};
use g1_report::Lines;
use g1_words::Fault;
use std::alloc::Global;
use std::io::Write;
use std::snapshot::Snapshot;

/// The lines that are not written yet, where they go, and whether their reader went away.
#[derive(Drop)]
pub struct LineWriter<W: Write> {
    text: String,
    writer: W,
    /// The writer before these lines, if no more of them can be written.
    gone: Option<Snapshot<W>>,
    /// The writer before all lines.
    stood: Snapshot<W>,
    ghost begun: { HasBegun (W.contents stood.value) (W.contents writer) (taken_of W.contents (λ s. s.value) gone writer text.bytes.items) } by { HasBegun-prop (W.contents stood.value) (W.contents writer) (taken_of W.contents (λ s. s.value) gone writer text.bytes.items) },
}

// Lines of fewer bytes wait for more of them.
const LONG: usize = 65_536;

impl<W: Write> Lines for LineWriter<W> {
    ghost use Rattle.g1heap_cli.specs.Written.{taken_of, with_number};

    // The number of bytes that stood there is before them, so that whoever only adds lines keeps it.
    ghost taken = { λ l. with_number (W.contents l.stood.value) (taken_of W.contents (λ s. s.value) l.gone l.writer l.text.bytes.items) };

    fn take(&mut self, lines: &str) -> Result<bool, Fault> {
        if self.text.push_str(lines).is_err() {
            return Err(Fault::Memory);
        }
        if self.text.len() >= LONG {
            match self.write() {
                Ok(()) => {}
                Err(fault) => return Err(fault),
            }
        }
        Ok(self.gone.is_none())
    }
}

impl<W: Write> LineWriter<W> {
    ghost use Rattle.std.specs.Prelude.{◌≡◌, [], None, IfOk, IfErr};
    ghost use Rattle.std.specs.Io.KnownBytes.{append_known, Keeps};
    ghost use Rattle.g1_words.specs.declared.fault.Fault.TheVariants.{Device};
    ghost use Rattle.g1_words.specs.declared.fault.Device.TheVariants.{Output};
    ghost use Rattle.g1heap_cli.specs.Written.{taken_of, EndsLines};

    /// Begins with no line.
    pub fn new(alloc: Global, writer: W) -> LineWriter<W>
        ensures stood { result.stood.value ≡ writer }
        ensures taken { taken_of W.contents (λ s. s.value) result.gone result.writer result.text.bytes.items ≡ append_known (W.contents writer) [] }
    {
        let stood = Snapshot::of(&writer);
        LineWriter {
            text: String::new(alloc),
            writer,
            gone: None,
            stood,
        }
    }

    /// Writes the lines that are left, and returns the status: `BROKEN_PIPE` if their reader went away.
    pub fn finish(&mut self, status: u8) -> Result<u8, Fault>
        ensures stood { self.new.stood ≡ self.old.stood }
        ensures taken { Keeps (taken_of W.contents (λ s. s.value) self.old.gone self.old.writer self.old.text.bytes.items) (taken_of W.contents (λ s. s.value) self.new.gone self.new.writer self.new.text.bytes.items) }
        ensures ends { IfOk result (EndsLines status (taken_of W.contents (λ s. s.value) self.new.gone self.new.writer self.new.text.bytes.items) (W.contents self.new.writer)) }
        ensures fault { IfErr result (λ e. e ≡ Device Output) }
    {
        self.write()?;
        Ok(match self.gone {
            Some(_) => BROKEN_PIPE,
            None => status,
        })
    }

    /// The writer, with what is written of the lines.
    pub fn into_writer(self) -> W
        ensures { result ≡ self.writer }
    {
        let LineWriter { writer, .. } = self;
        writer
    }

    // Writes the lines that wait.
    fn write(&mut self) -> Result<(), Fault>
        ensures stood { self.new.stood ≡ self.old.stood }
        ensures taken { Keeps (taken_of W.contents (λ s. s.value) self.old.gone self.old.writer self.old.text.bytes.items) (taken_of W.contents (λ s. s.value) self.new.gone self.new.writer self.new.text.bytes.items) }
        ensures whole { IfOk result (λ _. self.new.gone ≡ None → self.new.text.bytes.items ≡ []) }
        ensures fault { IfErr result (λ e. e ≡ Device Output) }
    {
        if self.gone.is_some() {
            return Ok(());
        }
        let before = Snapshot::of(&self.writer);
        match deliver_text(0, self.text.as_bytes(), &mut self.writer) {
            Ok(BROKEN_PIPE) => {
                self.gone = Some(before);
                Ok(())
            }
            Ok(_) => {
                self.text.clear();
                Ok(())
            }
            Err(fault) => {
                self.gone = Some(before);
                Err(fault)
            }
        }
    }
}
