//! Whole pauses.
use crate::calling::Call;
use crate::reading::{ROOM, tracked};
use crate::watch::Watch;
use g1_pause::{FromReader, Report, ToWriter, evacuate, pause_bytes, pause_run};
use g1_rem::{Tracked, image};
use g1_words::Fault;
use g1_work::Open;
use std::thread::Threads;

/// The bytes after the pause, out of the bytes before it.
pub(crate) fn from_bytes<R: Threads + Sync>(
    call: &Call<'_, R>,
    watch: &mut Watch,
) -> Result<(), Fault> {
    watch.at("pause_bytes");
    let bytes = call.given.part(0);
    let text = pause_bytes(call.rt, call.alloc, bytes, &call.settings, &Open)?;
    watch.bytes(text.as_slice());
    Ok(())
}

/// The same from a reader to a writer.
pub(crate) fn from_stream<R: Threads + Sync>(
    call: &Call<'_, R>,
    watch: &mut Watch,
) -> Result<(), Fault> {
    let room = Vec::with_capacity(call.alloc, ROOM)?;
    watch.at("pause_run");
    let text = sent(call, room)?;
    watch.bytes(text.as_slice());
    Ok(())
}

/// The room with the image after the pause, which a sink wrote there. What `pause_run` promises is not
/// needed here.
fn sent<R: Threads + Sync>(call: &Call<'_, R>, room: Vec<u8>) -> Result<Vec<u8>, Fault> {
    let mut reader = call.given.part(0);
    let mut source = FromReader::new(&mut reader);
    let mut sink = ToWriter::new(room);
    pause_run(
        call.rt,
        call.alloc,
        &mut source,
        &mut sink,
        &call.settings,
        &Open,
    )?;
    Ok(sink.into_inner())
}

/// The image after the pause, or the report.
pub(crate) fn evacuated<R: Threads + Sync>(
    call: &Call<'_, R>,
    watch: &mut Watch,
) -> Result<(), Fault> {
    let tracked = tracked(call)?;
    watch.at(call.name);
    match &answer(call, tracked) {
        Ok((_, report)) if call.name == "report" => print(report, watch),
        Ok((after, _)) => watch.image(image(after)),
        Err((back, fault)) => watch.refused(fault, image(back)),
    }
    Ok(())
}

/// What `evacuate` promises is not needed here.
fn answer<R: Threads + Sync>(
    call: &Call<'_, R>,
    tracked: Tracked,
) -> Result<(Tracked, Report), (Tracked, Fault)> {
    evacuate(call.rt, call.alloc, tracked, &call.settings, &Open)
}

fn print(report: &Report, watch: &mut Watch) {
    if watch.is_over() {
        watch.named("set", report.set.as_slice());
        watch.named("to", report.to.as_slice());
        watch.named("objects", &[report.objects]);
        watch.named("words", &[report.words]);
        watch.named("humongous", report.humongous.as_slice());
    }
}
