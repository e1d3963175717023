//! Images and pauses over readers and writers: in pieces of each length, and with streams that have trouble.
use crate::expecting::{collecting, expect_bytes, expect_equal, expect_list};
use g1_image::{FromReader, Image, Sink, Source, ToWriter, encode, read, read_by, write};
use g1_pause::pause_run;
use g1_testing::pictures::{humongous, one_object, one_object_after, shared};
use g1_testing::{Stream, Trouble, image, raw, text};
use g1_words::{Device, Fault};
use g1_work::Open;
use std::alloc::{AllocError, Global};
use std::io::ErrorKind;
use std::process::Abort;
use std::thread::Threads;

const INPUT: Fault = Fault::Device(Device::Input);

const OUTPUT: Fault = Fault::Device(Device::Output);

fn read_from(alloc: Global, stream: &mut Stream) -> Result<Image, Fault> {
    read(alloc, &mut FromReader::new(stream))
}

fn write_to(alloc: Global, image: &Image, stream: &mut Stream) -> Result<(), Fault> {
    write(alloc, image, &mut ToWriter::new(stream))
}

fn write_one_object(alloc: Global, stream: &mut Stream) -> Result<(), Fault> {
    write_to(alloc, &image(alloc, one_object())?, stream)
}

/// Writes the image that the reader gives.
fn copy(alloc: Global, reader: &mut Stream, writer: &mut Stream) -> Result<(), Fault> {
    let image = read_from(alloc, reader)?;
    write_to(alloc, &image, writer)
}

/// The bytes of the image that a stream gives.
fn bytes_from(alloc: Global, mut stream: Stream) -> Result<Vec<u8>, Fault> {
    encode(alloc, &read_from(alloc, &mut stream)?)
}

/// A stream of a byte a call that gives these bytes, and then its end; after that it is broken.
fn ending(alloc: Global, bytes: &[u8]) -> Result<Stream, AllocError> {
    Ok(Stream::new(bytes.to_vec(alloc)?, bytes.len() + 1, Trouble::Broken))
}

#[test]
fn images_pass_one_byte_at_a_time(rt: HostRuntime) -> Result<(), Fault> {
    let alloc = rt.alloc();
    for lines in [one_object(), humongous(), shared()] {
        let bytes = text(alloc, lines)?;
        let mut writer = Stream::of(Vec::new(alloc), 1);
        copy(alloc, &mut ending(alloc, &bytes)?, &mut writer)?;
        expect_list(&rt, &writer.bytes, &bytes);
    }
    Ok(())
}

#[test]
fn bytes_that_are_refused_are_read_to_their_end(rt: HostRuntime) -> Result<(), Fault> {
    let alloc = rt.alloc();
    let bytes = vec![in alloc; 0u8; 300]?;
    let stream = Stream::new(bytes.clone()?, 299, Trouble::Broken);
    expect_equal(&rt, bytes_from(alloc, stream), Err(INPUT));
    let whole = Stream::of(bytes, 300);
    expect_equal(&rt, bytes_from(alloc, whole), Err(Fault::Magic));
    let few = ending(alloc, &[0; 30])?;
    expect_equal(&rt, bytes_from(alloc, few), Err(Fault::Magic));
    Ok(())
}

/// Images of version 1: one object that a root references, and an object that a slot outside references.
const OLD: [&str; 2] = [
    "G1IMAGE1 16 4 4 1 0 4 0 0 1 4 0 0 0 0 =17 0 0 0 0 4/1 =0 =7 =9",
    "G1IMAGE1 16 4 4 0 0 4 1 2 1 3 0 0 0 0 0 1 0 0 0 2/1 =17 3/0 =1 =2",
];

fn expect_one_length<T: Threads + Abort + Sync>(
    rt: &T,
    alloc: Global,
    mut bytes: Vec<u8>,
) -> Result<(), Fault> {
    for cut in 0..bytes.len() {
        let found = bytes_from(alloc, ending(alloc, &bytes[..cut])?);
        expect_equal(rt, (cut, found), (cut, Err(Fault::Short)));
    }
    bytes.push(0)?;
    let found = bytes_from(alloc, ending(alloc, &bytes)?);
    expect_equal(rt, found, Err(Fault::Trailing));
    expect_unwritten(rt, alloc, &mut ending(alloc, &bytes)?, Fault::Trailing);
    Ok(())
}

#[test]
fn an_image_that_is_read_has_one_length(rt: HostRuntime) -> Result<(), Fault> {
    let alloc = rt.alloc();
    expect_one_length(&rt, alloc, text(alloc, one_object())?)?;
    for numbers in OLD.iter() {
        expect_one_length(&rt, alloc, raw(alloc, numbers)?)?;
    }
    Ok(())
}

/// More than two million bytes precede the words: 65,536 roots that reference the first object, and twelve remembered sets
/// with every card of the other used regions. The words are a million bytes. The cards in the log are odd, so that a word
/// lies across each end of a piece.
const LONG_FRONT: &str = "G1IMAGE2 4096 4 64 65536 1023 64 1,4096,0*32 0,0,0*32 =1*65536 0..1023 \
    31744,0..0+1024,1024+1024..32768*12 0*52 2/1,=0*65536";

#[test]
fn a_long_front_is_read_and_written(rt: HostRuntime) -> Result<(), Fault> {
    let alloc = rt.alloc();
    let bytes = raw(alloc, LONG_FRONT)?;
    let mut reader = Stream::of(bytes.clone()?, usize::MAX);
    let mut writer = Stream::of(Vec::new(alloc), usize::MAX);
    copy(alloc, &mut reader, &mut writer)?;
    let are_long = (reader.longest > 131_072, writer.longest > 1 << 20);
    expect_equal(&rt, are_long, (true, true));
    expect_bytes(&rt, &writer.bytes, &bytes);
    Ok(())
}

/// The bytes of the image that these workers read of these.
fn read_again<R: Threads + Sync>(
    rt: &R,
    alloc: Global,
    mut bytes: &[u8],
    workers: u64,
) -> Result<Vec<u8>, Fault> {
    let image = read_by(rt, alloc, &mut FromReader::new(&mut bytes), workers)?;
    encode(alloc, &image)
}

#[test]
fn workers_read_the_same_image(rt: HostRuntime) -> Result<(), Fault> {
    let alloc = rt.alloc();
    let bytes = raw(alloc, LONG_FRONT)?;
    for workers in [0, 1, 2, 64] {
        let again = read_again(&rt, alloc, &bytes, workers)?;
        expect_bytes(&rt, &again, &bytes);
    }
    Ok(())
}

/// How often a reader is called that gives this image, and for how many bytes in all.
fn asked(alloc: Global, bytes: &[u8], longest: usize) -> Result<(usize, usize), Fault> {
    let mut reader = Stream::of(bytes.to_vec(alloc)?, longest);
    read_from(alloc, &mut reader)?;
    Ok((reader.calls, reader.asked))
}

#[test]
fn a_reader_is_asked_for_each_byte_once(rt: HostRuntime) -> Result<(), Fault> {
    let alloc = rt.alloc();
    let bytes = raw(alloc, LONG_FRONT)?;
    let (calls, count) = asked(alloc, &bytes, usize::MAX)?;
    expect_equal(&rt, (calls < 32, count / 4 < bytes.len()), (true, true));
    // A reader that begins the front again for each byte more doesn't end within a test's time.
    let (calls, _) = asked(alloc, &bytes, 1)?;
    expect_equal(&rt, calls, bytes.len() + 1);
    Ok(())
}

// Each call except the first is interrupted a few times before it goes well.
#[test]
fn a_call_that_is_interrupted_often_is_made_again(rt: HostRuntime) -> Result<(), Fault> {
    let alloc = rt.alloc();
    let bytes = raw(alloc, LONG_FRONT)?;
    for often in [2, 3, 10] {
        let kind = ErrorKind::Interrupted;
        let mut reader = Stream::of(bytes.clone()?, usize::MAX).with_errors(often, kind);
        let mut writer = Stream::of(Vec::new(alloc), 65_536).with_errors(often, kind);
        copy(alloc, &mut reader, &mut writer)?;
        let are_more = (often, reader.calls > often, writer.calls > often);
        expect_equal(&rt, are_more, (often, true, true));
        expect_bytes(&rt, &writer.bytes, &bytes);
    }
    Ok(())
}

#[test]
fn a_call_that_would_block_has_failed(rt: HostRuntime) -> Result<(), Fault> {
    let alloc = rt.alloc();
    // The second call would block, and the third would go well.
    let bytes = text(alloc, one_object())?;
    let mut reader = Stream::of(bytes, 1).with_errors(1, ErrorKind::WouldBlock);
    expect_equal(&rt, read_from(alloc, &mut reader).err(), Some(INPUT));
    expect_equal(&rt, reader.calls, 2);
    let mut writer = Stream::of(Vec::new(alloc), 1).with_errors(1, ErrorKind::WouldBlock);
    expect_equal(&rt, write_one_object(alloc, &mut writer), Err(OUTPUT));
    expect_equal(&rt, (writer.calls, writer.bytes.len()), (2, 1));
    Ok(())
}

#[test]
fn a_flush_is_made_after_a_write_that_failed(rt: HostRuntime) {
    for (trouble, flushed) in [
        (Trouble::Error, Ok(())),
        (Trouble::Nothing, Ok(())),
        (Trouble::Broken, Err(OUTPUT)),
    ] {
        // The writer's first call has this trouble, and its second is the flush.
        let mut stream = Stream::new(Vec::new(rt.alloc()), 0, trouble);
        let mut sink = ToWriter::new(&mut stream);
        let told = (sink.write(&[7]), sink.flush());
        expect_equal(&rt, told, (Err(OUTPUT), flushed));
        expect_equal(&rt, stream.calls, 2);
    }
}

/// The pause that collects region 1, from the reader to the writer, which is flushed.
fn pause<R: Threads + Sync>(
    rt: &R,
    alloc: Global,
    reader: &mut Stream,
    writer: &mut Stream,
) -> Result<(), Fault> {
    let settings = collecting(alloc, &[1], 1, 64)?;
    let mut source = FromReader::new(reader);
    let mut sink = ToWriter::new(writer);
    pause_run(rt, alloc, &mut source, &mut sink, &settings, &Open)?;
    sink.flush()
}

/// Sees that a pause over this reader ends with this fault, and calls no writer.
fn expect_unwritten<T: Threads + Abort + Sync>(
    rt: &T,
    alloc: Global,
    reader: &mut Stream,
    fault: Fault,
) {
    let mut writer = Stream::of(Vec::new(alloc), 1);
    let told = pause(rt, alloc, reader, &mut writer);
    expect_equal(rt, (told, writer.calls), (Err(fault), 0));
}

// The reader has this trouble at each of its calls in turn, of which the last finds the end.
fn expect_input_faults<T: Threads + Abort + Sync>(
    rt: &T,
    alloc: Global,
    trouble: Trouble,
) -> Result<(), Fault> {
    let bytes = text(alloc, one_object())?;
    for at in 0..=bytes.len() {
        let mut reader = Stream::new(bytes.clone()?, at, trouble);
        expect_unwritten(rt, alloc, &mut reader, INPUT);
        expect_equal(rt, reader.calls, at + 1);
        let told = bytes_from(alloc, Stream::new(bytes.clone()?, at, trouble));
        expect_equal(rt, (at, told), (at, Err(INPUT)));
    }
    Ok(())
}

#[test]
fn a_read_that_fails_is_told_and_nothing_is_written(rt: HostRuntime) -> Result<(), Fault> {
    expect_input_faults(&rt, rt.alloc(), Trouble::Error)?;
    expect_input_faults(&rt, rt.alloc(), Trouble::Broken)
}

// The writer of these bytes failed at this call, and took a byte at each call before.
fn expect_stopped<T: Abort>(
    rt: &T,
    bytes: &[u8],
    at: usize,
    told: Result<(), Fault>,
    writer: &Stream,
) {
    expect_equal(rt, (at, told), (at, Err(OUTPUT)));
    expect_list(rt, &writer.bytes, &bytes[..at.min(bytes.len())]);
    expect_equal(rt, writer.calls, at.wrapping_add(1));
}

// The writer has this trouble at each of its calls in turn, and at the flush if that can have it.
fn expect_output_faults<T: Threads + Abort + Sync>(
    rt: &T,
    alloc: Global,
    trouble: Trouble,
    flushes: usize,
) -> Result<(), Fault> {
    let before = text(alloc, one_object())?;
    let after = text(alloc, one_object_after())?;
    for at in 0..after.len().saturating_add(flushes) {
        let mut writer = Stream::new(Vec::new(alloc), at, trouble);
        let told = pause(rt, alloc, &mut ending(alloc, &before)?, &mut writer);
        expect_stopped(rt, &after, at, told, &writer);
    }
    Ok(())
}

// The same of an image that is written, and not flushed.
fn expect_write_faults<T: Abort>(rt: &T, alloc: Global, trouble: Trouble) -> Result<(), Fault> {
    let bytes = text(alloc, one_object())?;
    for at in 0..bytes.len() {
        let mut writer = Stream::new(Vec::new(alloc), at, trouble);
        let told = write_one_object(alloc, &mut writer);
        expect_stopped(rt, &bytes, at, told, &writer);
    }
    Ok(())
}

#[test]
fn a_write_that_fails_is_told_and_a_beginning_stands(rt: HostRuntime) -> Result<(), Fault> {
    for (trouble, flushes) in [
        (Trouble::Error, 1),
        (Trouble::Broken, 1),
        (Trouble::Nothing, 0),
    ] {
        expect_output_faults(&rt, rt.alloc(), trouble, flushes)?;
        expect_write_faults(&rt, rt.alloc(), trouble)?;
    }
    Ok(())
}

#[test]
fn an_interrupted_call_is_made_again(rt: HostRuntime) -> Result<(), Fault> {
    let alloc = rt.alloc();
    let before = text(alloc, one_object())?;
    let after = text(alloc, one_object_after())?;
    for at in 0..=before.len() {
        let mut reader = Stream::new(before.clone()?, at, Trouble::Interrupted);
        // The call behind the last byte is the flush, which is not made again.
        let writes = after.len().saturating_sub(1);
        let mut writer = Stream::new(Vec::new(alloc), at.min(writes), Trouble::Interrupted);
        let told = pause(&rt, alloc, &mut reader, &mut writer);
        expect_equal(&rt, (at, told), (at, Ok(())));
        expect_list(&rt, &writer.bytes, &after);
        expect_equal(&rt, reader.calls, before.len() + 2);
    }
    Ok(())
}

/// Buffers of each length below this are tried.
const LONGEST: usize = 70_000;

// A reader of one byte gives it, and then no byte into a buffer of any length. A writer takes one byte of any that there are.
#[test]
fn a_device_is_told_only_of_a_call_that_failed(rt: HostRuntime) -> Result<(), Fault> {
    let alloc = rt.alloc();
    let mut buffer = [0; LONGEST];
    let mut source = FromReader::new(Stream::of(vec![in alloc; 7u8; 1]?, 1));
    let mut sink = ToWriter::new(Stream::of(Vec::new(alloc), 1));
    expect_equal(&rt, source.read(&mut [0]), Ok(1));
    for length in 0..LONGEST {
        let given = source.read(&mut buffer[..length]);
        let taken = sink.write(&buffer[..length]);
        let expected = (length, Ok(0), Ok(length.min(1)));
        expect_equal(&rt, (length, given, taken), expected);
    }
    expect_equal(&rt, sink.into_inner().calls, LONGEST);
    Ok(())
}
