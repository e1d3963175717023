//! The rules on tops, objects, runs and the current region.
use crate::rule::{Broken, HeaderPlace};
use crate::sketch::Sketch;
use g1_words::{Kind, Object, Region};

/// The first rule of its kind that a region breaks, or the one of the current region.
pub(crate) fn broken_shape(sketch: &Sketch<'_>, number: u32, current: u32) -> Option<Broken> {
    let region = sketch.region(u64::from(number))?;
    let broken = match region.kind {
        Kind::Free => broken_free(number, region.top),
        Kind::Ordinary => broken_ordinary(sketch, number, &region),
        Kind::HumongousFirst => broken_humongous(sketch, number, &region),
        Kind::Continuation => broken_continuation(sketch, number, &region),
    };
    if broken.is_none() && number == current && !region.kind.is_ordinary() {
        return Some(Broken::CurrentKind {
            region: number,
            kind: region.kind,
        });
    }
    broken
}

fn broken_free(region: u32, top: u32) -> Option<Broken> {
    if top == 0 {
        return None;
    }
    Some(Broken::FreeTop { region, top })
}

// A top that is no number of words of a used region.
fn broken_top(sketch: &Sketch<'_>, number: u32, region: &Region) -> Option<Broken> {
    let most = sketch.geometry.region_words();
    if region.top > 0 && u64::from(region.top) <= most {
        return None;
    }
    Some(Broken::Top {
        region: number,
        kind: region.kind,
        top: region.top,
        most,
    })
}

fn broken_ordinary(sketch: &Sketch<'_>, number: u32, region: &Region) -> Option<Broken> {
    let broken = broken_top(sketch, number, region);
    if broken.is_some() {
        return broken;
    }
    let end = sketch.end(number, region);
    let mut at = sketch.geometry.start(number);
    let mut place = HeaderPlace::Start(number);
    for _ in 0..region.top {
        if at >= end {
            return None;
        }
        let object = sketch.words.header(at);
        let broken = broken_object(sketch, number, &object, end, place);
        if broken.is_some() {
            return broken;
        }
        place = HeaderPlace::Behind(at);
        at = at.saturating_add(object.size);
    }
    None
}

// A word that is no header of an object in front of a region's top.
fn broken_object(
    sketch: &Sketch<'_>,
    region: u32,
    object: &Object,
    top: u64,
    place: HeaderPlace,
) -> Option<Broken> {
    let Object { at, size, refs } = *object;
    if refs >= size {
        return Some(broken_header(sketch, object, place));
    }
    if sketch.geometry.is_humongous(size) {
        return Some(Broken::TooLarge {
            at,
            size,
            region,
            region_words: sketch.geometry.region_words(),
        });
    }
    let end = at.saturating_add(size);
    if end > top {
        return Some(Broken::BehindTop {
            at,
            end,
            top,
            region,
        });
    }
    None
}

fn broken_header(sketch: &Sketch<'_>, object: &Object, place: HeaderPlace) -> Broken {
    Broken::Header {
        at: object.at,
        word: sketch.words.at(object.at),
        size: object.size,
        slots: object.refs,
        place,
    }
}

fn broken_humongous(sketch: &Sketch<'_>, number: u32, region: &Region) -> Option<Broken> {
    let broken = broken_top(sketch, number, region);
    if broken.is_some() {
        return broken;
    }
    let object = sketch.first_object(number);
    if object.refs >= object.size {
        let place = HeaderPlace::Start(number);
        return Some(broken_header(sketch, &object, place));
    }
    let region_words = sketch.geometry.region_words();
    if !sketch.geometry.is_humongous(object.size) {
        return Some(Broken::TooSmall {
            at: object.at,
            size: object.size,
            region: number,
            region_words,
        });
    }
    broken_run_top(number, region, &object, object.size.min(region_words)).or(broken_run(
        sketch, number, &object,
    ))
}

// A top that is not the number of words that a humongous object has in a region of its run.
fn broken_run_top(number: u32, region: &Region, object: &Object, used: u64) -> Option<Broken> {
    if u64::from(region.top) == used {
        return None;
    }
    Some(Broken::RunTop {
        region: number,
        top: region.top,
        at: object.at,
        used,
    })
}

// A region of a run that is not there, or that is no continuation.
fn broken_run(sketch: &Sketch<'_>, first: u32, object: &Object) -> Option<Broken> {
    let regions = sketch.geometry.regions_for(object.size);
    let at = object.at;
    let end = u64::from(first).saturating_add(regions);
    for number in u64::from(first).saturating_add(1)..end {
        let Some(region) = sketch.region(number) else {
            return Some(Broken::RunBeyond {
                at,
                regions,
                last: number.saturating_sub(1),
            });
        };
        if !region.kind.is_continuation() {
            return Some(Broken::RunCut {
                at,
                regions,
                region: u32::try_from(number).ok()?,
                kind: region.kind,
            });
        }
    }
    None
}

fn broken_continuation(sketch: &Sketch<'_>, number: u32, region: &Region) -> Option<Broken> {
    let Some(first) = sketch.first_below(number) else {
        return Some(Broken::NoFirst(number));
    };
    let object = sketch.first_object(first);
    let before = sketch.geometry.start(number.saturating_sub(first));
    if before >= object.size {
        return Some(Broken::BehindRun {
            region: number,
            at: object.at,
            end: object.at.saturating_add(object.size),
        });
    }
    let left = object.size.saturating_sub(before);
    let used = left.min(sketch.geometry.region_words());
    broken_run_top(number, region, &object, used)
}
