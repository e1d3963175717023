ghost use Rattle.std.specs.Prelude.{◌≡◌, IfOk, IfErr, OnOk};
ghost use Rattle.g1_image.specs.Text.{file_text};
ghost use Rattle.g1_image.specs.Image.{IsImageTextWithin};
ghost use Rattle.g1_image.specs.Parts.{CountsFit};
ghost use Rattle.g1_image.specs.Faults.{MayFailWithin};
ghost use Rattle.g1_text.specs.Content.{file_with};
ghost use Rattle.g1_text.specs.Drafts.{content};

use crate::draft::Draft;
use g1_image::{FileParts, decode_within, encode_parts};
use g1_words::{Fault, Limits};
use std::alloc::{AllocError, Global};

/// Packs what was read into bytes, good or not.
pub(crate) fn pack(alloc: Global, draft: &Draft) -> Result<Vec<u8>, AllocError>
    ensures { CountsFit (file_with (content draft.now)) → IfOk result (λ v. v.items ≡ file_text (file_with (content draft.now))) }
{
    let parts = FileParts {
        geometry: draft.geometry,
        current: draft.current,
        regions: draft.regions.as_slice(),
        roots: draft.roots.as_slice(),
        log: draft.log.as_slice(),
        remembered: draft.remembered.as_slice(),
    };
    encode_parts(alloc, &parts, draft.words.as_slice())
}

/// Finds that bytes are those of an image.
pub(crate) fn check_bytes(alloc: Global, bytes: &[u8]) -> Result<(), Fault>
    ensures ok { OnOk result (IsImageTextWithin Limits.Wide bytes.now) }
    ensures err { IfErr result (MayFailWithin Limits.Wide bytes.now) }
{
    match decode_within(alloc, Limits::Wide, bytes) {
        Ok(_) => Ok(()),
        Err(fault) => Err(fault),
    }
}
