//! Which call is watched, and what it returned.
//!
//! A list is a line of numbers with a space between them, or `-` if it is empty. An image is its bytes.
//!
//! `tools/refuse_calls.py` places a library before the allocator. Requests of sizes that nothing else makes show it where
//! the watched call begins and ends, and where a run of it ends. It refuses the request of the end if it refused another
//! one in that run.
use g1_image::{Image, Stale, encode};
use g1_words::Fault;
use std::alloc::{AllocError, Global};
use std::fmt::Display;

const BEGIN: usize = 7_000_003;

const END: usize = 7_000_033;

const END_OF_RUN: usize = 7_000_061;

/// What a watched call returned, as bytes, and whether it was refused memory.
#[derive(Drop)]
pub(crate) struct Answer {
    pub(crate) bytes: Vec<u8>,
    pub(crate) is_refused: bool,
}

/// The call that is watched, whether it is under way, and what is printed of it.
#[derive(Drop)]
pub(crate) struct Watch {
    alloc: Global,
    call: String,
    on: bool,
    // Whether the next image is what the call returned.
    owed: bool,
    // Whether there was no memory for something that was to be printed: nothing is printed after it.
    lost: bool,
    bytes: Vec<u8>,
    // What was asked for last as a sign: it is kept, so that no compiler takes the request for idle.
    sign: Vec<u8>,
}

impl Watch {
    /// Watches the call of this name.
    pub(crate) fn new(alloc: Global, call: &str) -> Result<Watch, AllocError> {
        Ok(Watch {
            alloc,
            call: String::from_str(alloc, call)?,
            on: false,
            owed: false,
            lost: false,
            bytes: Vec::new(alloc),
            sign: Vec::new(alloc),
        })
    }

    /// The call of this name comes next.
    pub(crate) fn at(&mut self, call: &str) {
        if self.call.as_str() == call && !self.lost {
            self.on = true;
            self.lost = !self.signal(BEGIN);
        }
    }

    /// The call is over. Returns whether it was the one that is watched.
    pub(crate) fn is_over(&mut self) -> bool {
        let was_on = self.on && !self.lost;
        if was_on {
            self.on = false;
            self.lost = !self.signal(END);
        }
        was_on && !self.lost
    }

    /// All that was printed, a fault that ended the watched call included.
    pub(crate) fn end(mut self, fault: Option<Fault>) -> Result<Answer, AllocError> {
        if let Some(fault) = fault {
            if self.is_over() {
                self.fault(&fault);
            }
        }
        let is_refused = !self.signal(END_OF_RUN);
        let Watch { lost, bytes, .. } = self;
        if lost {
            return Err(AllocError);
        }
        Ok(Answer { bytes, is_refused })
    }

    /// Asks for memory as a sign. Returns whether it was given.
    fn signal(&mut self, size: usize) -> bool {
        match Vec::with_capacity(self.alloc, size) {
            Ok(sign) => {
                self.sign = sign;
                true
            }
            Err(_) => false,
        }
    }

    fn print(&mut self, bytes: &[u8]) {
        if !self.lost && self.bytes.extend_from_slice(bytes).is_err() {
            self.lost = true;
        }
    }

    /// Prints this if there was memory for it.
    pub(crate) fn made(&mut self, text: Result<String, AllocError>) {
        match text {
            Ok(text) => self.print(text.as_bytes()),
            Err(_) => self.lost = true,
        }
    }

    /// The same of bytes.
    pub(crate) fn bytes_made(&mut self, bytes: Result<Vec<u8>, AllocError>) {
        match bytes {
            Ok(bytes) => self.print(bytes.as_slice()),
            Err(_) => self.lost = true,
        }
    }

    pub(crate) fn fault(&mut self, fault: &Fault) {
        let number = fault.number();
        let line = format!(in self.alloc; "fault {number}: {fault}\n");
        self.made(line);
    }

    /// A line of these numbers.
    pub(crate) fn list<T: Display>(&mut self, numbers: &[T]) {
        let line = line_of(self.alloc, numbers);
        self.made(line);
    }

    /// A line of these numbers behind a word.
    pub(crate) fn named<T: Display>(&mut self, name: &str, numbers: &[T]) {
        self.print(name.as_bytes());
        self.print(b" ");
        self.list(numbers);
    }

    /// The call returned these numbers.
    pub(crate) fn numbers<T: Display>(&mut self, numbers: &[T]) {
        if self.is_over() {
            self.list(numbers);
        }
    }

    /// The call returned these words of a heap: a header as its size and its slots.
    pub(crate) fn words(&mut self, words: &[u64]) {
        if self.is_over() {
            let line = line_of_words(self.alloc, words);
            self.made(line);
        }
    }

    /// The call returned a list for each region.
    pub(crate) fn lists(&mut self, lists: &[Vec<u32>]) {
        if self.is_over() {
            for list in lists {
                self.list(list.as_slice());
            }
        }
    }

    /// The call returned pairs of numbers: a line for each, or `-` if there are none.
    pub(crate) fn pairs(&mut self, pairs: &[(u64, u64)]) {
        if self.is_over() {
            for (slot, word) in pairs {
                self.list(&[*slot, *word]);
            }
            if pairs.is_empty() {
                self.print(b"-\n");
            }
        }
    }

    /// The call returned these bytes.
    pub(crate) fn bytes(&mut self, bytes: &[u8]) {
        if self.is_over() {
            self.print(bytes);
        }
    }

    /// The call returned something that the next image shows.
    pub(crate) fn done(&mut self) {
        if self.is_over() {
            self.owed = true;
        }
    }

    /// The call was refused, and handed this image back.
    pub(crate) fn refused(&mut self, fault: &Fault, back: &Image) {
        if self.is_over() {
            self.fault(fault);
            self.print_image(back);
        }
    }

    /// The call returned this image.
    pub(crate) fn image(&mut self, image: &Image) {
        if self.is_over() || self.owed {
            self.print_image(image);
        }
    }

    /// The call returned this image, in which these words were stale.
    pub(crate) fn stale(&mut self, image: &Image, stale: &Stale) {
        if self.is_over() {
            for (number, word) in &stale.roots {
                self.named("root", &[*number, *word]);
            }
            for (address, word) in &stale.slots {
                self.named("slot", &[*address, *word]);
            }
            self.print_image(image);
        }
    }

    fn print_image(&mut self, image: &Image) {
        match text_of(self.alloc, image) {
            Ok(bytes) => self.print(bytes.as_slice()),
            Err(_) => self.lost = true,
        }
    }
}

/// What `encode` promises is not needed here.
pub(crate) fn text_of(alloc: Global, image: &Image) -> Result<Vec<u8>, Fault> {
    encode(alloc, image)
}

fn line_of<T: Display>(alloc: Global, numbers: &[T]) -> Result<String, AllocError> {
    let mut line = String::new(alloc);
    for number in numbers {
        let gap = if line.is_empty() { "" } else { " " };
        write!(line, "{gap}{number}")?;
    }
    line.push_str(if line.is_empty() { "-\n" } else { "\n" })?;
    Ok(line)
}

fn line_of_words(alloc: Global, words: &[u64]) -> Result<String, AllocError> {
    let mut line = String::new(alloc);
    for word in words {
        let (size, slots) = (word >> 32, word & 0xFFFF_FFFF);
        let gap = if line.is_empty() { "" } else { " " };
        if size == 0 {
            write!(line, "{gap}{slots}")?;
        } else {
            write!(line, "{gap}{size}/{slots}")?;
        }
    }
    line.push_str(if line.is_empty() { "-\n" } else { "\n" })?;
    Ok(line)
}
