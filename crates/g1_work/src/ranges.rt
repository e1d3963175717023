ghost use Rattle.std.specs.Prelude.{◌≡◌, ◌≤◌, ◌<◌, ◌-◌, ◌^◌, min, length, IfOk};
ghost use Rattle.g1_words.specs.Geometry.{most_regions};
ghost use Rattle.g1_work.specs.Ranges.{IsCut, used, ordinary_used, first_some};

use g1_words::Region;
use std::alloc::{AllocError, Global};

/// A thread is worth starting for this many words: to walk over their objects takes some 200
/// microseconds, and a thread costs about 100 to start and to join.
pub const WORDS_A_THREAD: usize = 131_072;

/// How many words of some regions are used; the greatest number if that is too great for one.
///
/// # Examples
///
/// ```
/// use g1_testing::{image, pictures::shared};
/// use g1_work::used_words;
///
/// let shared = image(alloc, shared())?;
/// // Region 0 has objects of 4 and 2 words, region 1 of 5 and 2.
/// assert_eq!(rt; used_words(shared.heap().regions()), 13);
/// ```
pub fn used_words(regions: &[Region]) -> usize
    ensures { result ≡ min (used regions.now) (2 ^ 64 - 1) }
{
    let mut words: usize = 0;
    for region in regions {
        words = words.saturating_add(region.top as usize);
    }
    words
}

/// How many words of the ordinary ones among some regions are used; the greatest number if that is too
/// great for one. A humongous object is one step of a walk over objects, whatever its size, so its words
/// feed no thread.
///
/// # Examples
///
/// ```
/// use g1_testing::{image, pictures::humongous};
/// use g1_work::{ordinary_words, used_words};
///
/// // An object of 40 words begins in region 0, and one of 2 words in region 3.
/// let humongous = image(alloc, humongous())?;
/// assert_eq!(rt; used_words(humongous.heap().regions()), 42);
/// assert_eq!(rt; ordinary_words(humongous.heap().regions()), 2);
/// ```
pub fn ordinary_words(regions: &[Region]) -> usize
    ensures { result ≡ min (ordinary_used regions.now) (2 ^ 64 - 1) }
{
    let mut ordinary: usize = 0;
    for region in regions {
        if region.kind.is_ordinary() {
            ordinary = ordinary.saturating_add(region.top as usize);
        }
    }
    ordinary
}

/// The first region, from one on, before which this many words are used; the end of the heap if no
/// region is.
fn next_begin(regions: &[Region], from: u32, words: usize) -> u32
    requires count { length regions.now ≤ most_regions }
    requires order { from ≤ length regions.now }
    ensures order { from ≤ result }
    ensures within { result ≤ length regions.now }
{
    let end = regions.len() as u32;
    let mut region = from;
    let mut left = words;
    'regions: while region < end && 0 < left {
        left = left.saturating_sub(regions[region as usize].top as usize);
        region += 1;
    }
    region
}

/// Cuts the regions of a heap into ranges with about as many used words each: the region at which
/// each range begins, and at last the end of the heap.
///
/// # Errors
/// `AllocError` if a growth was refused.
///
/// # Examples
///
/// ```
/// use g1_testing::{image, pictures::shared};
/// use g1_work::cut_regions;
///
/// // Of its four regions, 0 has 6 words in use and 1 has 7.
/// let shared = image(alloc, shared())?;
/// let begins = cut_regions(alloc, shared.heap().regions(), 3)?;
/// assert_eq!(rt; begins.as_slice(), [0, 1, 2, 4].as_slice());
/// ```
pub fn cut_regions(alloc: Global, regions: &[Region], ranges: usize) -> Result<Vec<u32>, AllocError>
    requires count { length regions.now ≤ most_regions }
    requires some { 0 < ranges }
    ensures { IfOk result (λ v. IsCut (length regions.now) ranges v.items) }
{
    let words = used_words(regions).div_ceil(ranges);
    let mut begins: Vec<u32> = Vec::new(alloc);
    let mut begin = 0;
    for _range in 0..ranges {
        begins.push(begin)?;
        begin = next_begin(regions, begin, words);
    }
    begins.push(regions.len() as u32)?;
    Ok(begins)
}

/// The first value that was found in ranges that follow one another.
///
/// # Examples
///
/// ```
/// use g1_work::first_found;
///
/// assert_eq!(rt; first_found(&[None, Some(21), Some(16)]), Some(21));
/// assert_eq!(rt; first_found(&[None, None]), None);
/// ```
pub fn first_found(found: &[Option<u64>]) -> Option<u64>
    ensures { result ≡ first_some found.now }
{
    for slot in found {
        if let Some(p) = slot {
            return Some(*p);
        }
    }
    None
}
