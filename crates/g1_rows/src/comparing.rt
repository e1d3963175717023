//! What two heaps show.
use crate::calling::Call;
use crate::watch::Watch;
use g1_image::decode;
use g1_same::{Difference, compare};
use g1_words::{Fault, Heap};
use std::alloc::Global;

/// Compares the image of one part with that of another.
pub(crate) fn run<R>(call: &Call<'_, R>, watch: &mut Watch) -> Result<(), Fault> {
    let before = decode(call.alloc, call.given.part(0))?;
    compare_with(call, before.heap(), watch)
}

fn compare_with<R>(call: &Call<'_, R>, before: &Heap, watch: &mut Watch) -> Result<(), Fault> {
    let after = decode(call.alloc, call.given.part(1))?;
    watch.at("compare");
    let line = line_of_both(call.alloc, before, after.heap())?;
    if watch.is_over() {
        watch.made(Ok(line));
    }
    Ok(())
}

/// What `compare` returns, as a line.
fn line_of_both(alloc: Global, before: &Heap, after: &Heap) -> Result<String, Fault> {
    let line = match compare(alloc, before, after)? {
        Ok(same) => format!(in alloc; "same {:?} {:?}\n", same.before, same.after)?,
        Err(Difference::Roots { before, after }) => {
            format!(in alloc; "differ roots {before} {after}\n")?
        }
        Err(Difference::At { root, slots, how }) => {
            format!(in alloc; "differ root {root} slots {slots:?} {how:?}\n")?
        }
    };
    Ok(line)
}
