ghost use Rattle.std.specs.Prelude.{◌≡◌, IfOk, IfErr};
ghost use Rattle.g1_image.specs.Front.{IsGoodFront, text_of};
ghost use Rattle.g1_image.specs.Faults.{MayFailWithin};
ghost use Rattle.g1_image.specs.Stale.{IsTextFault};

use crate::cursor::{Cursor, Entry, Heading, Version};
use crate::reading;
use g1_words::{Fault, Limits};
use std::alloc::Global;

/// What precedes the words in an image file.
#[derive(Drop)]
pub struct Front {
    pub version: Version,
    pub heading: Heading,
    pub table: Vec<Entry>,
    pub roots: Vec<u64>,
    pub log: Vec<u32>,
    pub remembered: Vec<Vec<u32>>,
}

/// The parts before the words, whose heading is within these limits, and the bytes behind them, or the fault of the first five stages.
pub(crate) fn read_front<'a>(
    alloc: Global,
    limits: Limits,
    bytes: &'a [u8],
) -> Result<(Front, &'a [u8]), Fault>
    ensures ok { IfOk result (λ x. IsGoodFront limits x.0 × (bytes.now ≡ text_of x.0 x.1.now)) }
    ensures err { IfErr result (MayFailWithin limits bytes.now) }
    ensures stage { IfErr result IsTextFault }
{
    let mut cursor = Cursor::new(bytes);
    let (heading, version) = cursor.opening(limits)?;
    let (table, after_table) = reading::table(alloc, version, heading.n, cursor.rest())?;
    let (roots, after_roots) = reading::words(alloc, heading.roots, after_table)?;
    let (log, after_log) = reading::numbers(alloc, heading.dirty, after_roots)?;
    let (remembered, words) = reading::remembered(alloc, heading.n, after_log)?;
    let front = Front {
        version,
        heading,
        table,
        roots,
        log,
        remembered,
    };
    Ok((front, words))
}
