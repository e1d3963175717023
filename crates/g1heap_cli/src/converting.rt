//! The image of a heap dump.
ghost use Rattle.std.specs.Prelude.{IfOk, IfErr};
ghost use Rattle.g1_words.specs.declared.limits.Limits.TheVariants.{Wide};
ghost use Rattle.g1_image.specs.Image.{IsImageTextWithin};
ghost use Rattle.g1heap_cli.specs.Refuses.{RefusesDump};

use crate::files::read_bytes;
use crate::output::write_file;
use crate::refusal::refuse_dump;
use g1_command::Refusal;
use g1_hprof::{Sizes, Wanted, convert};
use g1heap_request::Convert;
use std::alloc::Global;
use std::io::Read;
use std::rt::Files;

/// The bytes of the image. The names are written to their file, if they are wanted.
pub fn convert_file<T: Files, R: Read>(
    rt: &T,
    alloc: Global,
    asked: &Convert,
    reader: &mut R,
) -> Result<Vec<u8>, Refusal>
    ensures image { IfOk result (λ v. IsImageTextWithin Wide v.items) }
    ensures refused { IfErr result (RefusesDump asked.now) }
{
    let name = asked.dump.as_str();
    let dump = read_bytes(rt, alloc, name, reader)?;
    let made = match convert(alloc, dump, &wanted_of(asked)) {
        Ok(made) => made,
        Err(refused) => return Err(refuse_dump(alloc, name, &refused)),
    };
    if let Some(file) = &asked.names {
        write_file(rt, alloc, file.as_str(), made.names.as_slice())?;
    }
    Ok(made.image)
}

fn wanted_of(asked: &Convert) -> Wanted<'_> {
    let sizes = match &asked.sizes {
        Some(sizes) => Some(Sizes {
            region_words: sizes.region_words,
            card_words: sizes.card_words,
            regions: sizes.regions,
        }),
        None => None,
    };
    Wanted {
        from: asked.from.as_slice(),
        without: asked.without.as_slice(),
        weak: asked.weak,
        dangling_null: asked.dangling_null,
        blank: asked.blank,
        names: asked.names.is_some(),
        sizes,
    }
}
