//! Images out of bytes, and back.
use crate::calling::Call;
use crate::cards::rises;
use crate::watch::{Watch, text_of};
use g1_image::{FromReader, Image, Stale, ToWriter, copy, decode, read, read_stale, with_dirty};
use g1_rem::{Tracked, image, merged, verify};
use g1_words::{Fault, Heap, Limits, objects_in, pinned};
use std::alloc::Global;
use std::thread::Threads;

/// Room for the bytes of a small image: a writer of ours asks for no memory.
pub(crate) const ROOM: usize = 4_096;

/// The image of the bytes, whose references are covered.
pub(crate) fn run<R: Threads + Sync>(
    call: &Call<'_, R>,
    watch: &mut Watch,
) -> Result<Tracked, Fault> {
    watch.at("decode");
    cover(call, decode(call.alloc, call.given.part(0))?, watch)
}

/// Shows the image, and covers its references.
fn cover<R: Threads + Sync>(
    call: &Call<'_, R>,
    read: Image,
    watch: &mut Watch,
) -> Result<Tracked, Fault> {
    show(call.alloc, &read, watch)?;
    watch.at("verify");
    match verified(call, read) {
        Ok(tracked) => {
            watch.image(image(&tracked));
            Ok(tracked)
        }
        Err((back, fault)) => {
            watch.refused(&fault, &back);
            Err(fault)
        }
    }
}

/// What `verify` promises is not needed here.
fn verified<R: Threads + Sync>(call: &Call<'_, R>, read: Image) -> Result<Tracked, (Image, Fault)> {
    verify(call.rt, call.alloc, read)
}

/// The image of the bytes, if no call on the way is watched.
pub(crate) fn tracked<R: Threads + Sync>(call: &Call<'_, R>) -> Result<Tracked, Fault> {
    match verified(call, decode(call.alloc, call.given.part(0))?) {
        Ok(tracked) => Ok(tracked),
        Err((_, fault)) => Err(fault),
    }
}

/// The image of the bytes, straight from a reader of them.
pub(crate) fn receive<R>(call: &Call<'_, R>, watch: &mut Watch) -> Result<(), Fault> {
    watch.at("read");
    let read = received(call.alloc, call.given.part(0))?;
    watch.image(&read);
    Ok(())
}

/// What `read` promises is not needed here.
fn received(alloc: Global, bytes: &[u8]) -> Result<Image, Fault> {
    let mut reader = bytes;
    let mut source = FromReader::new(&mut reader);
    read(alloc, &mut source)
}

/// The image of the bytes with null in its stale words, and these words.
pub(crate) fn receive_stale<R>(call: &Call<'_, R>, watch: &mut Watch) -> Result<(), Fault> {
    watch.at("read_stale");
    let (image, stale) = received_stale(call.alloc, call.given.part(0))?;
    watch.stale(&image, &stale);
    Ok(())
}

/// What `read_stale` promises is not needed here.
fn received_stale(alloc: Global, bytes: &[u8]) -> Result<(Image, Stale), Fault> {
    let mut reader = bytes;
    let mut source = FromReader::new(&mut reader);
    read_stale(alloc, Limits::Specified, &mut source)
}

/// A copy of the image of the bytes.
pub(crate) fn duplicate<R>(call: &Call<'_, R>, watch: &mut Watch) -> Result<(), Fault> {
    let given = decode(call.alloc, call.given.part(0))?;
    watch.at("copy");
    let copied = copy(call.alloc, &given)?;
    watch.image(&copied);
    Ok(())
}

/// The image of the bytes with more dirty cards, or an empty list.
pub(crate) fn add_dirty<R>(call: &Call<'_, R>, watch: &mut Watch) -> Result<(), Fault> {
    let given = decode(call.alloc, call.given.part(0))?;
    let cards = call.given.short_numbers(call.alloc, "cards")?;
    watch.at("with_dirty");
    match with_dirty(call.alloc, &given, cards.as_slice())? {
        Some(dirtied) => watch.image(&dirtied),
        None => watch.numbers::<u32>(&[]),
    }
    Ok(())
}

/// The image, its bytes, and its regions.
fn show(alloc: Global, read: &Image, watch: &mut Watch) -> Result<(), Fault> {
    watch.image(read);
    write_back(alloc, read, watch)?;
    list_regions(alloc, read.heap(), watch)
}

/// The image as bytes, in a list and from a sink.
fn write_back(alloc: Global, read: &Image, watch: &mut Watch) -> Result<(), Fault> {
    watch.at("encode");
    let text = text_of(alloc, read)?;
    watch.bytes(text.as_slice());
    let room = Vec::with_capacity(alloc, ROOM)?;
    watch.at("write");
    let text = sent(alloc, read, room)?;
    watch.bytes(text.as_slice());
    Ok(())
}

/// The room with the image's bytes, which a sink wrote there. What `write` promises is not needed here.
fn sent(alloc: Global, read: &Image, room: Vec<u8>) -> Result<Vec<u8>, Fault> {
    let mut sink = ToWriter::new(room);
    g1_image::write(alloc, read, &mut sink)?;
    Ok(sink.into_inner())
}

/// The starts of the objects of each region, and whether it is pinned.
fn list_regions(alloc: Global, heap: &Heap, watch: &mut Watch) -> Result<(), Fault> {
    for region in 0..heap.geometry().regions() as u32 {
        watch.at("objects_in");
        let starts = objects_in(alloc, heap, region)?;
        watch.numbers(starts.as_slice());
        watch.at("pinned");
        let is_pinned = pinned(heap, region);
        watch.numbers(&[u8::from(is_pinned)]);
    }
    Ok(())
}

/// Two rising lists of cards as one.
pub(crate) fn merge<R>(call: &Call<'_, R>, watch: &mut Watch) -> Result<(), Fault> {
    let left = call.given.short_numbers(call.alloc, "left")?;
    let right = call.given.short_numbers(call.alloc, "right")?;
    let (left, right) = (left.as_slice(), right.as_slice());
    if !rises(left) || !rises(right) {
        return Err(Fault::Settings(0));
    }
    watch.at("merged");
    let both = merged(call.alloc, left, right)?;
    watch.numbers(both.as_slice());
    Ok(())
}
