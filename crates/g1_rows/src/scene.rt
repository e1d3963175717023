//! What is on the streams of a program and in its files: what a row gives it, or what it has to leave.
//!
//! - Parts (`parts`) are standard input or standard output, or what is in a file. In standard output a first or a last
//!   line `..` stands for any text.
//! - `file NAME`: the parts below are in this file; `no file NAME`: there is no such file.
//! - `pipe NAME`: this name leads to a pipe, and the parts below are what has to go into it. It takes 65,536 bytes.
//!   `broken pipe NAME`: the reader of that pipe is gone.
//! - `stdin`: the parts below are standard input again.
//! - `each read fails`: the program is run again and again over a reader that gives a byte a call and fails from the first
//!   call on, from the second on, and so on up to the one that finds the end. Each run has to leave what is expected.
//!   `each write fails`: the same of a writer, and the N bytes that it took have to be the first N of those expected.
//! - `the reader goes away`: standard output is a pipe whose reader goes away after a byte.
//! - `status N`: the exit status, which is 0 if the line is left out. Another line of this list may follow in it.
//! - `! TEXT`: a line of standard error, in which `\n` ends a line, too. A first or a last line `! ..` stands for any text.
//! - `usage`: status 2, and a standard error that begins with `error: `.
use crate::parts::{BAD, Picture, join, parts_of, push_line, unescape};
use g1_words::Fault;
use std::alloc::Global;

/// What a stream or a file has, by its lines.
#[derive(Drop)]
pub(crate) struct Content {
    pub(crate) name: String,
    pub(crate) is_there: bool,
    lines: String,
}

impl Content {
    fn new(alloc: Global, name: String, is_there: bool) -> Content {
        Content {
            name,
            is_there,
            lines: String::new(alloc),
        }
    }

    fn push(&mut self, line: &str) -> Result<(), Fault> {
        self.is_there = true;
        Ok(push_line(&mut self.lines, line)?)
    }

    /// The bytes that the lines say.
    ///
    /// # Errors
    ///
    /// `Fault::Line` if a line says nothing; `Fault::Memory`.
    pub(crate) fn bytes(&self, alloc: Global, pictures: &[Picture]) -> Result<Vec<u8>, Fault> {
        let parts = parts_of(alloc, self.lines.as_str(), pictures)?;
        join(alloc, parts.as_slice())
    }
}

/// What the lines below belong to.
#[derive(Clone, Copy)]
enum Place {
    Stream,
    LastFile,
    Pipe,
}

/// Which calls of the streams fail.
#[derive(Clone, Copy)]
pub(crate) enum Devices {
    Well,
    EachRead,
    EachWrite,
    Gone,
}

/// What is on the streams and in the files.
#[derive(Drop)]
pub(crate) struct Scene {
    pub(crate) devices: Devices,
    pub(crate) status: u8,
    pub(crate) errors: Vec<u8>,
    pub(crate) is_usage: bool,
    pub(crate) stream: Content,
    pub(crate) files: Vec<Content>,
    pub(crate) pipe: Content,
    pub(crate) is_pipe_broken: bool,
    place: Place,
}

impl Scene {
    /// The scene of these lines.
    ///
    /// # Errors
    ///
    /// `Fault::Line` if a line is not understood; `Fault::Memory`.
    pub(crate) fn of_lines(alloc: Global, lines: &str) -> Result<Scene, Fault> {
        let mut scene = Scene {
            devices: Devices::Well,
            status: 0,
            errors: Vec::new(alloc),
            is_usage: false,
            stream: Content::new(alloc, String::new(alloc), false),
            files: Vec::new(alloc),
            pipe: Content::new(alloc, String::new(alloc), false),
            is_pipe_broken: false,
            place: Place::Stream,
        };
        for line in lines.split('\n') {
            scene.push_with_status(alloc, line)?;
        }
        Ok(scene)
    }

    /// Whether standard input must not be read.
    pub(crate) fn is_closed(&self) -> bool {
        !self.stream.is_there && matches!(self.devices, Devices::Well | Devices::Gone)
    }

    /// Adds a line, which may begin with the status.
    fn push_with_status(&mut self, alloc: Global, line: &str) -> Result<(), Fault> {
        let Some(rest) = line.strip_prefix("status ") else {
            return self.push_line(alloc, line);
        };
        let (number, rest) = rest.split_once(' ').unwrap_or((rest, ""));
        self.status = number.parse::<u8>().ok().ok_or(BAD)?;
        self.push_line(alloc, rest)
    }

    fn push_line(&mut self, alloc: Global, line: &str) -> Result<(), Fault> {
        if line.is_empty() {
            return Ok(());
        }
        if let Some(text) = line.strip_prefix("!") {
            return self.push_error(alloc, text);
        }
        if let Some(name) = line.strip_prefix("file ") {
            return self.begin_file(alloc, name, true);
        }
        if let Some(name) = line.strip_prefix("no file ") {
            return self.begin_file(alloc, name, false);
        }
        if let Some(name) = line.strip_prefix("pipe ") {
            return self.begin_pipe(alloc, name);
        }
        if let Some(name) = line.strip_prefix("broken pipe ") {
            self.is_pipe_broken = true;
            return self.begin_pipe(alloc, name);
        }
        match line {
            "stdin" => {
                self.place = Place::Stream;
                self.stream.is_there = true;
            }
            "usage" => {
                self.is_usage = true;
                self.status = 2;
            }
            "each read fails" => self.devices = Devices::EachRead,
            "each write fails" => self.devices = Devices::EachWrite,
            "the reader goes away" => self.devices = Devices::Gone,
            _ => return self.push_part(line),
        }
        Ok(())
    }

    fn push_error(&mut self, alloc: Global, text: &str) -> Result<(), Fault> {
        let text = text.strip_prefix(" ").unwrap_or(text);
        let line = unescape(alloc, text)?;
        self.errors.extend_from_slice(line.as_slice())?;
        Ok(self.errors.push(b'\n')?)
    }

    fn begin_file(&mut self, alloc: Global, name: &str, is_there: bool) -> Result<(), Fault> {
        self.place = Place::LastFile;
        let name = String::from_str(alloc, name)?;
        Ok(self.files.push(Content::new(alloc, name, is_there))?)
    }

    fn begin_pipe(&mut self, alloc: Global, name: &str) -> Result<(), Fault> {
        self.place = Place::Pipe;
        let name = String::from_str(alloc, name)?;
        self.pipe = Content::new(alloc, name, true);
        Ok(())
    }

    fn push_part(&mut self, line: &str) -> Result<(), Fault> {
        match self.place {
            Place::Stream => self.stream.push(line),
            Place::Pipe => self.pipe.push(line),
            Place::LastFile => match self.files.last_mut() {
                Some(file) => file.push(line),
                None => Ok(()),
            },
        }
    }
}

/// Whether this is the text, in which a first or a last line `..` stands for any.
pub(crate) fn fits(found: &[u8], wanted: &[u8]) -> bool {
    let (is_open_before, wanted) = match wanted.strip_prefix(b"..\n") {
        Some(rest) => (true, rest),
        None => (false, wanted),
    };
    let (is_open_behind, wanted) = match wanted.strip_suffix(b"..\n") {
        Some(rest) => (true, rest),
        None => (false, wanted),
    };
    match (is_open_before, is_open_behind) {
        (false, false) => found == wanted,
        (false, true) => found.starts_with(wanted),
        (true, false) => found.ends_with(wanted),
        (true, true) => has_text(found, wanted),
    }
}

fn has_text(found: &[u8], wanted: &[u8]) -> bool {
    match (str::from_utf8(found), str::from_utf8(wanted)) {
        (Ok(found), Ok(wanted)) => found.contains(wanted),
        _ => false,
    }
}
