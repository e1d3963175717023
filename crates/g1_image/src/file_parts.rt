ghost use Rattle.std.specs.Prelude.{◌≡◌, ◌++◌, ℕ, List, map, OnOk, IfOk};
ghost use Rattle.g1_image.specs.Text.{table_text, words_text, file_text, heading_of};
ghost use Rattle.g1_image.specs.Parts.{file_of_parts, CountsFit};
ghost use Rattle.g1_image.specs.Image.{flags_of, entry_of, file_of, IsTextIn};

use crate::cursor::{Heading, Version};
use crate::image::Image;
use crate::writing::{count, push_heading, push_magic, push_numbers, push_remembered, push_words};
use g1_words::{Geometry, Region};
use std::alloc::{AllocError, Global};

/// What precedes the words in the text of an image. Parts that are no image's can be written too.
#[derive(Clone, Copy)]
pub struct FileParts<'a> {
    pub geometry: Geometry,
    /// The number of the current region.
    pub current: Option<u32>,
    pub regions: &'a [Region],
    /// References as words.
    pub roots: &'a [u64],
    /// The dirty cards.
    pub log: &'a [u32],
    /// The remembered cards of each region.
    pub remembered: &'a [Vec<u32>],
}

/// The flags of a region that is pinned or isn't.
fn flags_of(pinned: bool) -> u32
    ensures { result ≡ flags_of pinned }
{
    if pinned { 1 } else { 0 }
}

fn push_table(out: &mut Vec<u8>, regions: &[Region]) -> Result<(), AllocError>
    ensures { OnOk result (out.new.items ≡ out.old.items ++ table_text Version.Two (map entry_of regions.now)) }
{
    for region in regions {
        push_numbers(
            out,
            &[region.kind.number(), region.top, flags_of(region.pinned)],
        )?;
    }
    Ok(())
}

fn heading_of(parts: &FileParts<'_>) -> Heading
    ensures { (words : List ℕ) → CountsFit (file_of_parts parts.now words) → result ≡ heading_of (file_of_parts parts.now words) }
{
    let geometry = parts.geometry;
    let regions = geometry.regions() as u32;
    Heading {
        w: geometry.region_words() as u32,
        k: geometry.card_words() as u32,
        n: regions,
        roots: count(parts.roots.len()),
        dirty: count(parts.log.len()),
        current: parts.current.unwrap_or(regions),
    }
}

/// Writes parts at the end. Their words follow.
fn push_parts(out: &mut Vec<u8>, parts: &FileParts<'_>) -> Result<(), AllocError>
    ensures { (words : List ℕ) → CountsFit (file_of_parts parts.now words) → OnOk result (out.new.items ++ words_text words ≡ out.old.items ++ file_text (file_of_parts parts.now words)) }
{
    push_magic(out, Version::Two)?;
    push_heading(out, &heading_of(parts))?;
    push_table(out, parts.regions)?;
    push_words(out, parts.roots)?;
    push_numbers(out, parts.log)?;
    push_remembered(out, parts.remembered)
}

/// The bytes of parts and of the used words behind them, of version 2. If the parts are an image's, these are
/// its text. Others are not judged: their bytes may have a fault, which `decode` reports, or be the text of
/// another image, if `current` is no region or the lists do not have an entry for each region.
///
/// # Errors
///
/// `AllocError` if a growth was refused.
///
/// # Examples
///
/// ```
/// use g1_image::{FileParts, decode, encode_parts};
/// use g1_testing::{image, pictures::one_object};
/// use g1_words::{Fault, Place, header_word};
///
/// // As the picture, but its root references 18, where no object starts.
/// let image = image(alloc, one_object())?;
/// let parts = FileParts {
///     geometry: image.heap().geometry(),
///     current: None,
///     regions: image.heap().regions(),
///     roots: &[19],
///     log: &[],
///     remembered: image.remembered(),
/// };
/// let bytes = encode_parts(alloc, &parts, &[header_word(4, 1), 0, 7, 9])?;
/// let refused = decode(alloc, &bytes).err();
/// assert_eq!(rt; refused, Some(Fault::Reference(Place::Root(0))));
/// ```
pub fn encode_parts(
    alloc: Global,
    parts: &FileParts<'_>,
    words: &[u64],
) -> Result<Vec<u8>, AllocError>
    ensures { CountsFit (file_of_parts parts.now words.now) → IfOk result (λ v. v.items ≡ file_text (file_of_parts parts.now words.now)) }
{
    let mut out = Vec::new(alloc);
    push_parts(&mut out, parts)?;
    push_words(&mut out, words)?;
    Ok(out)
}

/// What precedes the words in the text of an image.
pub(crate) fn encode_front(alloc: Global, image: &Image) -> Result<Vec<u8>, AllocError>
    ensures { IfOk result (λ v. IsTextIn Version.Two (v.items ++ words_text (file_of Version.Two image.now).words) image.now) }
{
    let heap = image.heap();
    let parts = FileParts {
        geometry: heap.geometry(),
        current: heap.current(),
        regions: heap.regions(),
        roots: heap.roots(),
        log: image.log().as_slice(),
        remembered: image.remembered(),
    };
    let mut out = Vec::new(alloc);
    push_parts(&mut out, &parts)?;
    Ok(out)
}
