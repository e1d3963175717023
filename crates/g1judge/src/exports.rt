ghost use Rattle.std.specs.Prelude.{◌≡◌, ◌⊎◌, ℕ, List, length};
ghost use Rattle.g1judge.specs.declared.verdict.Verdict.{Verdict};
ghost use Rattle.g1judge.specs.Judged.{JudgesPair, JudgesImage, JudgesCover, JudgesKept};
ghost use Rattle.g1judge.specs.Answered.{status_of, answer_of, path_of, written};
ghost use Rattle.g1judge.specs.Laws.{SaysOfPair, SaysOfImage, SaysOfCover, SaysOfKept};

use crate::answer::Answer;
use crate::answering::{copy_text, say};
use crate::breaking::reason_of;
use crate::judging::{judge_cover, judge_image, judge_kept, judge_pair};
use crate::laws;
use std::alloc::Global;

/// The version of these calls: of their names, of what they take, and of what an answer says.
#[unsafe(no_mangle)]
pub extern "C" fn g1_version() -> u32
    ensures { result ≡ 2 }
{
    2
}

/// Whether two byte strings are the texts of two images that show one graph from their roots. A word of the second that
/// references no object is a difference if a path leads to it.
#[unsafe(no_mangle)]
pub extern "C" fn g1_same(
    alloc: Global,
    before: &[u8],
    after: &[u8],
    path: &mut [u64],
    answer: &mut Answer,
) -> u32
    ensures said { (v : Verdict) × JudgesPair before.now after.now v × (result ≡ status_of v) × (answer.new ≡ answer_of v) × (path.new ≡ written (path_of v) path.old) }
    ensures status { (result ≡ 6) ⊎ SaysOfPair before.now after.now result }
{
    let verdict = judge_pair(alloc, before, after);
    laws::pair_status();
    say(&verdict, path, answer)
}

/// Whether bytes are an image's text.
#[unsafe(no_mangle)]
pub extern "C" fn g1_image(alloc: Global, bytes: &[u8], answer: &mut Answer) -> u32
    ensures said { (v : Verdict) × JudgesImage bytes.now v × (result ≡ status_of v) × (answer.new ≡ answer_of v) }
    ensures status { (result ≡ 6) ⊎ SaysOfImage bytes.now result }
{
    let verdict = judge_image(alloc, bytes);
    laws::image_status();
    say(&verdict, &mut [], answer)
}

/// Whether bytes are the text of an image each of whose slots is covered.
#[unsafe(no_mangle)]
pub extern "C" fn g1_covered(alloc: Global, bytes: &[u8], answer: &mut Answer) -> u32
    ensures said { (v : Verdict) × JudgesCover bytes.now v × (result ≡ status_of v) × (answer.new ≡ answer_of v) }
    ensures status { (result ≡ 6) ⊎ SaysOfCover bytes.now result }
{
    let verdict = judge_cover(alloc, bytes);
    laws::cover_status();
    say(&verdict, &mut [], answer)
}

/// Which rule bytes break that are no image's text, or an image's with a slot that is not covered: what `g1_covered` says
/// of them, and beside it a sentence, as far as there is room, and how many bytes it has.
#[unsafe(no_mangle)]
pub extern "C" fn g1_broken(
    alloc: Global,
    bytes: &[u8],
    rule: &mut [u8],
    size: &mut u64,
    answer: &mut Answer,
) -> u32
    ensures said { (v : Verdict) × JudgesCover bytes.now v × (result ≡ status_of v) × (answer.new ≡ answer_of v) }
    ensures status { (result ≡ 6) ⊎ SaysOfCover bytes.now result }
    ensures rule { (text : List ℕ) × (rule.new ≡ written text rule.old) × (size.new ≡ length text) }
{
    let reason = reason_of(alloc, bytes);
    laws::cover_status();
    *size = reason.rule.len() as u64;
    copy_text(reason.rule.as_bytes(), rule);
    say(&reason.verdict, &mut [], answer)
}

/// Whether two byte strings are the texts of two images of which the second keeps what a pause of these
/// regions of the first keeps.
#[unsafe(no_mangle)]
pub extern "C" fn g1_kept(
    alloc: Global,
    before: &[u8],
    after: &[u8],
    set: &[u32],
    answer: &mut Answer,
) -> u32
    ensures said { (v : Verdict) × JudgesKept before.now after.now set.now v × (result ≡ status_of v) × (answer.new ≡ answer_of v) }
    ensures status { (result ≡ 6) ⊎ SaysOfKept before.now after.now set.now result }
{
    let verdict = judge_kept(alloc, before, after, set);
    laws::kept_status();
    say(&verdict, &mut [], answer)
}
