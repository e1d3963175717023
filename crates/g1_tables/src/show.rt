//! The table of an image: a line with its numbers, and a line for each region.
ghost use Rattle.std.specs.Prelude.{◌≡◌, ◌≤◌, ◌<◌, ◌-◌, ◌*◌, ◌++◌, ℕ, length, map, flat_map, string_bytes, OnOk, IfOk, IfErr};
ghost use Rattle.std.specs.List.{range_with_len};
ghost use Rattle.g1_words.specs.Heap.{objects_in};
ghost use Rattle.g1_text.specs.Lines.{line_text, text_of, heading, region_line, table_lines};
ghost use Rattle.g1_tables.specs.Rows.{AreRows};

use g1_image::Image;
use g1_pause::Settings;
use g1_rem::objects_end;
use g1_text::{push_heading, push_region_line};
use g1_words::{Fault, Heap, size_at};
use g1_work::{Open, Task, each_chunk};
use std::alloc::{AllocError, Global};
use std::thread::Threads;

/// The table of an image. The workers draw chunks of its regions.
///
/// # Errors
///
/// `Fault::Memory` alone.
pub fn table<T: Threads + Sync>(
    rt: &T,
    alloc: Global,
    settings: &Settings,
    image: &Image,
) -> Result<Vec<u8>, Fault>
    ensures text { IfOk result (λ v. v.items ≡ text_of (table_lines image.now)) }
    ensures memory { IfErr result (λ e. e ≡ Fault.Memory) }
{
    let regions = image.heap().geometry().regions();
    let rows = Rows {
        image,
        chunk: settings.chunk(),
        alloc,
    };
    let chunks = regions.div_ceil(rows.chunk);
    let team = settings.team().for_chunks(chunks);
    let workers = vec![in alloc; (); team.workers() as usize]?;
    let (_, outs) = each_chunk(rt, alloc, workers, chunks, &rows, &Open)?;
    Ok(join(alloc, image, &outs)?)
}

// The heading, and the regions' lines behind it.
fn join(alloc: Global, image: &Image, outs: &[String]) -> Result<Vec<u8>, AllocError>
    ensures { IfOk result (λ v. v.items ≡ line_text (heading image.now) ++ flat_map string_bytes outs.now) }
{
    let mut text = String::new(alloc);
    push_heading(&mut text, image)?;
    for out in outs {
        text.push_str(out.as_str())?;
    }
    Ok(text.into_bytes())
}

// The regions' lines, by chunks of regions.
#[derive(Drop)]
struct Rows<'a> {
    image: &'a Image,
    chunk: u64,
    alloc: Global,
}

impl<'a> Task for Rows<'a> {
    type State = ();

    type Out = String;

    ghost use Rattle.std.specs.Prelude.{◌≡◌, ◌≤◌, ◌<◌, ◌*◌, ℕ, string_bytes};
    ghost use Rattle.g1_words.specs.declared.fault.Fault.TheVariants.{Memory};
    ghost use Rattle.g1_work.specs.Team.{most_chunk};
    ghost use Rattle.g1_tables.specs.Rows.{AreRows};

    ghost ready = { λ s _ k. (k * s.chunk < s.image.now.heap.geometry.n) × (s.chunk ≤ most_chunk) };

    ghost runs = { λ s _ k _ out. AreRows s.image.now s.chunk k (string_bytes out) };

    ghost may_fail = { λ _ _ e. e ≡ Memory };

    fn run(&self, _state: &mut (), chunk: u64) -> Result<String, Fault> {
        let regions = self.image.heap().geometry().regions();
        let from = chunk * self.chunk;
        let to = regions.min(from + self.chunk);
        Ok(lines(self.alloc, self.image, from as u32, to as u32)?)
    }
}

// The lines of the regions from one number up to another.
fn lines(alloc: Global, image: &Image, from: u32, to: u32) -> Result<String, AllocError>
    requires order { from ≤ to }
    requires within { to ≤ image.now.heap.geometry.n }
    ensures { IfOk result (λ s. string_bytes s ≡ text_of (map (region_line image.now) (range_with_len from (to - from)))) }
{
    let mut text = String::new(alloc);
    for region in from..to {
        push_row(image, region, &mut text)?;
    }
    Ok(text)
}

// How many objects start in a region.
fn count_objects(heap: &Heap, region: u32) -> usize
    requires { region < heap.now.geometry.n }
    ensures { result ≡ length (objects_in heap.now region) }
{
    let end = objects_end(heap, region);
    let mut at = heap.geometry().start(region);
    let mut count: usize = 0;
    'objects: while at < end {
        at += size_at(heap, at);
        count += 1;
    }
    count
}

fn push_row(image: &Image, region: u32, text: &mut String) -> Result<(), AllocError>
    requires { region < image.now.heap.geometry.n }
    ensures { OnOk result (string_bytes text.new ≡ string_bytes text.old ++ line_text (region_line image.now region)) }
{
    let objects = count_objects(image.heap(), region);
    push_region_line(text, image, region, objects)
}
