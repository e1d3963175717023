//! Which rule bytes break, as a sentence.
ghost use Rattle.g1judge.specs.Judged.{JudgesCover};

use crate::judging::judge_cover;
use crate::verdict::Verdict;
use g1_broken::{Broken, rule_of_bytes, rule_of_cover};
use g1_image::decode_within;
use g1_words::{Fault, Limits};
use std::alloc::{AllocError, Global};

/// What bytes are found to be, and the rule that they break. The rule is empty if they break none.
#[derive(Drop)]
pub struct Reason {
    pub verdict: Verdict,
    pub rule: String,
}

/// What `judge_cover` finds bytes to be, and the rule that they break.
pub fn reason_of(alloc: Global, bytes: &[u8]) -> Reason
    ensures { JudgesCover bytes.now result.verdict }
{
    let verdict = judge_cover(alloc, bytes);
    match rule_text(alloc, bytes, &verdict) {
        Ok(rule) => Reason { verdict, rule },
        Err(_) => Reason {
            verdict: Verdict::Memory,
            rule: String::new(alloc),
        },
    }
}

// The sentence of the rule that bytes of this verdict break. An image with a bare slot is read once more.
fn rule_text(alloc: Global, bytes: &[u8], verdict: &Verdict) -> Result<String, AllocError> {
    let rule = match verdict {
        Verdict::NoImage { fault, .. } => rule_of_bytes(alloc, Limits::Wide, bytes, *fault)?,
        Verdict::Uncovered(slot) => bare_rule(alloc, bytes, *slot)?,
        _ => None,
    };
    match rule {
        Some(rule) => format!(in alloc; "{rule}"),
        None => Ok(String::new(alloc)),
    }
}

fn bare_rule(alloc: Global, bytes: &[u8], slot: u64) -> Result<Option<Broken>, AllocError> {
    match decode_within(alloc, Limits::Wide, bytes) {
        Ok(image) => Ok(rule_of_cover(image.heap(), Fault::Uncovered(slot))),
        Err(_) => Err(AllocError),
    }
}
