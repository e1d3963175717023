//! What is at an address where no object starts.
ghost use Rattle.std.specs.Prelude.{◌≡◌, ◌<◌, ℕ, Some, IfOk, IfErr};
ghost use Rattle.g1_words.specs.Heap.{kind, start, end, region_of};
ghost use Rattle.g1_report.specs.Location.{location_text, IsLocation, GoesOn};

use g1_words::{Fault, Heap, Kind, Region, objects_in, region_of};
use std::alloc::Global;
use std::fmt;

/// What is at an address where no object starts.
#[derive(Clone, Copy)]
pub enum Location {
    /// The object at another address.
    Inside(u64),
    /// A free region.
    Free(u64),
    /// A region whose used words end before.
    AboveTop(u64),
    /// No word of the heap.
    Beyond,
}

impl fmt::Display for Location {
    ghost output = { λ x. Some (location_text x) };

    fn fmt<W: fmt::Write>(&self, f: &mut fmt::Formatter<W>) -> fmt::Result {
        match self {
            Location::Inside(at) => write!(f, "the object at {at} holds that word"),
            Location::Free(region) => write!(f, "region {region} is free"),
            Location::AboveTop(region) => write!(f, "it is above the top of region {region}"),
            Location::Beyond => write!(f, "the heap ends before it"),
        }
    }
}

/// What is at an address where no object starts.
///
/// # Errors
///
/// `Fault::Memory` alone.
pub fn locate(alloc: Global, heap: &Heap, address: u64) -> Result<Location, Fault>
    ensures location { IfOk result (λ l. IsLocation heap.now address l) }
    ensures memory { IfErr result (λ e. e ≡ Fault.Memory) }
{
    let geometry = heap.geometry();
    let number = region_of(&geometry, address);
    if number >= geometry.regions() {
        return Ok(Location::Beyond);
    }
    let Region { kind, top, .. } = heap.region(number as u32);
    if kind.is_free() {
        return Ok(Location::Free(number));
    }
    let start = geometry.start(number as u32);
    if address >= start + u64::from(top) {
        return Ok(Location::AboveTop(number));
    }
    match kind {
        Kind::Free => Ok(Location::Free(number)),
        Kind::HumongousFirst => Ok(Location::Inside(start)),
        Kind::Continuation => Ok(Location::Inside(first_of_run(heap, number as u32))),
        Kind::Ordinary => Ok(Location::Inside(holder(alloc, heap, number as u32, address)?)),
    }
}

// The start of the humongous object that continues in a region.
fn first_of_run(heap: &Heap, region: u32) -> u64
    requires { region < heap.now.geometry.n }
    ensures { kind heap.now region ≡ Kind.Continuation → (f : ℕ) × (result ≡ start heap.now f) × GoesOn heap.now f region }
{
    let geometry = heap.geometry();
    let mut first = region;
    while first > 0 && heap.region(first).kind.is_continuation() {
        first -= 1;
    }
    geometry.start(first)
}

// The last object of an ordinary region that starts at an address or before it.
fn holder(alloc: Global, heap: &Heap, region: u32, address: u64) -> Result<u64, Fault>
    requires region { region < heap.now.geometry.n }
    requires ordinary { kind heap.now region ≡ Kind.Ordinary }
    requires here { region_of heap.now address ≡ region }
    requires used { address < end heap.now region }
    ensures location { IfOk result (λ at. IsLocation heap.now address (Location.Inside at)) }
    ensures memory { IfErr result (λ e. e ≡ Fault.Memory) }
{
    let starts = objects_in(alloc, heap, region)?;
    let mut last = heap.geometry().start(region);
    for start in starts.as_slice() {
        if *start <= address {
            last = *start;
        }
    }
    Ok(last)
}
