//! An image on the command line, which can be read a second time: for the rule that it breaks.
ghost use Rattle.std.specs.Prelude.{◌≡◌, IfOk, IfErr};
ghost use Rattle.g1heap_cli.specs.Refusals.{is_of_machine, IsUnread};
ghost use Rattle.g1heap_cli.specs.Refuses.{IsUnreadOrSet};
ghost use Rattle.g1heap_cli.specs.Streams.{KeepsNamed, LeavesBehind};

use crate::files::{is_file, open_file, read_bytes};
use crate::heard::Heard;
use crate::refusal::{of_bytes, of_device, of_file, of_heap, with_set_tip};
use g1_command::Refusal;
use g1_image::{FromReader, Image, read_within};
use g1_words::{Fault, Limits};
use g1heap_request::{ImageFile, STANDARD_STREAM};
use std::alloc::Global;
use std::io;
use std::io::Read;
use std::rt::Files;

/// Where the bytes of an image are, which is named on the command line.
#[derive(Drop)]
pub struct Source<'a> {
    image: &'a ImageFile,
    /// Its bytes, if they came from standard input, or from what else is no file.
    kept: Option<Vec<u8>>,
}

/// A source that is read.
#[derive(Drop)]
pub enum Opened<'s, F> {
    File(F),
    Kept(&'s [u8]),
}

impl<'s, F: Read> Read for Opened<'s, F> {
    ghost use Rattle.g1heap_cli.specs.Opened.{left_of};

    ghost remaining = { left_of F.remaining };

    fn read(&mut self, buf: &mut [u8]) -> io::Result<usize> {
        match self {
            Opened::File(file) => file.read(buf),
            Opened::Kept(bytes) => bytes.read(buf),
        }
    }
}

/// The source of this image. What is no file is read to its end.
pub fn find_source<'a, T: Files, R: Read>(
    rt: &T,
    alloc: Global,
    image: &'a ImageFile,
    reader: &mut R,
) -> Result<Source<'a>, Refusal>
    ensures kept { IfOk result (λ s. KeepsNamed (λ v. v.items) image.now.name.bytes.items (R.remaining reader.old) s.kept) }
    ensures image { IfOk result (λ s. s.image.now ≡ image.now) }
    ensures refused { IfErr result (IsUnread image.now.name.bytes.items) }
    ensures left { LeavesBehind image.now.name.bytes.items (R.remaining reader.old) (R.remaining reader.new) }
{
    let name = image.name.as_str();
    if name != STANDARD_STREAM && is_file(rt, name) {
        return Ok(Source { image, kept: None });
    }
    match read_bytes(rt, alloc, name, reader) {
        Ok(bytes) => Ok(Source {
            image,
            kept: Some(bytes),
        }),
        Err(refusal) => Err(refusal),
    }
}

/// The source of an image of which regions may be collected.
pub fn find_collected<'a, T: Files, R: Read>(
    rt: &T,
    alloc: Global,
    image: &'a ImageFile,
    reader: &mut R,
) -> Result<Source<'a>, Refusal>
    ensures kept { IfOk result (λ s. KeepsNamed (λ v. v.items) image.now.name.bytes.items (R.remaining reader.old) s.kept) }
    ensures image { IfOk result (λ s. s.image.now ≡ image.now) }
    ensures refused { IfErr result (IsUnreadOrSet image.now.name.bytes.items) }
    ensures left { LeavesBehind image.now.name.bytes.items (R.remaining reader.old) (R.remaining reader.new) }
{
    match find_source(rt, alloc, image, reader) {
        Ok(source) => Ok(source),
        Err(refusal) => Err(with_set_tip(alloc, image.name.as_str(), refusal)),
    }
}

impl<'a> Source<'a> {
    ghost use Rattle.std.specs.Prelude.{◌≡◌, ◌⊎◌, IfOk, IfErr};
    ghost use Rattle.g1_image.specs.Image.{IsTextWithin};
    ghost use Rattle.g1heap_cli.specs.Opened.{GivesKept};
    ghost use Rattle.g1heap_cli.specs.Streams.{HoldsOfKept};
    ghost use Rattle.g1heap_cli.specs.Found.{IsFoundIn};
    ghost use Rattle.g1heap_cli.specs.Reasons.{IsRefusedIn};
    ghost use Rattle.g1heap_cli.specs.Refusals.{RefusesFile, IsUnread};

    /// The name on the command line.
    pub fn name(&self) -> &'a str
        ensures { result.now ≡ self.now.image.now.name.bytes.items }
    {
        self.image.name.as_str()
    }

    /// The limits within which it is read.
    pub fn limits(&self) -> Limits
        ensures { result ≡ self.now.image.now.limits }
    {
        self.image.limits
    }

    /// The source, to be read from its start on.
    pub fn open<T: Files>(&self, rt: &T, alloc: Global) -> Result<Opened<'_, T::File>, Refusal>
        ensures kept { IfOk result (GivesKept (λ v. v.items) self.now.kept) }
        ensures refused { IfErr result (IsUnread self.now.image.now.name.bytes.items) }
    {
        match &self.kept {
            None => match open_file(rt, alloc, self.name()) {
                Ok(file) => Ok(Opened::File(file)),
                Err(refusal) => Err(refusal),
            },
            Some(bytes) => Ok(Opened::Kept(bytes.as_slice())),
        }
    }

    /// All its bytes.
    pub fn bytes<T: Files>(&self, rt: &T, alloc: Global) -> Result<Vec<u8>, Refusal>
        ensures { IfErr result (IsUnread self.now.image.now.name.bytes.items) }
    {
        match &self.kept {
            None => read_bytes(rt, alloc, self.name(), &mut [].as_slice()),
            Some(bytes) => match bytes.as_slice().to_vec(alloc) {
                Ok(bytes) => Ok(bytes),
                Err(_) => Err(Refusal::Fault(Fault::Memory)),
            },
        }
    }

    /// Its image, or the fault of its bytes.
    pub fn found<T: Files>(&self, rt: &T, alloc: Global) -> Result<Result<Image, Fault>, Refusal>
        ensures found { IfOk result (λ r. HoldsOfKept (λ v. v.items) self.now.kept (λ xs. IsFoundIn self.now.image.now.limits xs r)) }
        ensures refused { IfErr result (IsUnread self.now.image.now.name.bytes.items) }
    {
        let mut opened = match self.open(rt, alloc) {
            Ok(opened) => opened,
            Err(refusal) => return Err(refusal),
        };
        let mut heard = Heard::new(&mut opened);
        match read_within(alloc, self.limits(), &mut FromReader::new(&mut heard)) {
            Ok(image) => Ok(Ok(image)),
            Err(fault) if is_of_machine(fault) => {
                Err(of_device(alloc, self.name(), fault, heard.reason()))
            }
            Err(fault) => Ok(Err(fault)),
        }
    }

    /// Its image.
    pub fn image<T: Files>(&self, rt: &T, alloc: Global) -> Result<Image, Refusal>
        ensures image { IfOk result (λ i. HoldsOfKept (λ v. v.items) self.now.kept (λ xs. IsTextWithin self.now.image.now.limits xs i)) }
        ensures refused { IfErr result (IsRefusedIn (λ v. v.items) self.now.kept self.now.image.now) }
    {
        match self.found(rt, alloc) {
            Ok(Ok(image)) => Ok(image),
            Ok(Err(fault)) => Err(self.refuse(rt, alloc, fault)),
            Err(refusal) => Err(refusal),
        }
    }

    /// The refusal of its image for a fault that was found in its bytes, or by a pause. It is read once more, for the rule
    /// that is broken.
    pub fn refuse<T: Files>(&self, rt: &T, alloc: Global, fault: Fault) -> Refusal
        ensures { RefusesFile self.now.image.now.name.bytes.items fault result ⊎ IsRefusedIn (λ v. v.items) self.now.kept self.now.image.now result }
    {
        match fault {
            Fault::Uncovered(_) | Fault::Set(_) => self.refuse_heap(rt, alloc, fault),
            Fault::Room { .. } | Fault::Settings(_) => of_file(alloc, self.name(), fault),
            Fault::Memory | Fault::Device(_) => of_file(alloc, self.name(), fault),
            _ => self.refuse_bytes(rt, alloc, fault),
        }
    }

    fn refuse_heap<T: Files>(&self, rt: &T, alloc: Global, fault: Fault) -> Refusal
        ensures { RefusesFile self.now.image.now.name.bytes.items fault result ⊎ IsRefusedIn (λ v. v.items) self.now.kept self.now.image.now result }
    {
        match self.found(rt, alloc) {
            Ok(Ok(image)) => of_heap(alloc, self.name(), image.heap(), fault),
            Ok(Err(other)) => self.refuse_bytes(rt, alloc, other),
            Err(refusal) => refusal,
        }
    }

    fn refuse_bytes<T: Files>(&self, rt: &T, alloc: Global, fault: Fault) -> Refusal
        ensures { RefusesFile self.now.image.now.name.bytes.items fault result ⊎ IsUnread self.now.image.now.name.bytes.items result }
    {
        match self.bytes(rt, alloc) {
            Ok(bytes) => of_bytes(alloc, self.name(), self.limits(), bytes.as_slice(), fault),
            Err(refusal) => refusal,
        }
    }
}

// Whether a fault is none of the bytes that are read.
fn is_of_machine(fault: Fault) -> bool
    ensures { result ≡ is_of_machine fault }
{
    matches!(fault, Fault::Memory | Fault::Device(_))
}
