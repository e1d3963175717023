//! Lines that are kept until all of them are there.
use g1_report::Lines;
use g1_words::Fault;
use std::alloc::Global;

/// The lines that were taken.
#[derive(Drop)]
pub struct LineText {
    text: String,
}

impl Lines for LineText {
    ghost use Rattle.std.specs.Prelude.{Some};

    ghost taken = { λ l. Some l.text.bytes.items };

    fn take(&mut self, lines: &str) -> Result<bool, Fault> {
        match self.text.push_str(lines) {
            Ok(()) => Ok(true),
            Err(_) => Err(Fault::Memory),
        }
    }
}

impl LineText {
    ghost use Rattle.std.specs.Prelude.{◌≡◌, []};

    /// Begins with no line.
    pub fn new(alloc: Global) -> LineText
        ensures { result.text.bytes.items ≡ [] }
    {
        LineText {
            text: String::new(alloc),
        }
    }

    /// The bytes of the lines.
    pub fn as_bytes(&self) -> &[u8]
        ensures { result.now ≡ self.now.text.bytes.items }
    {
        self.text.as_bytes()
    }
}
