ghost use Rattle.g1judge.specs.Laws.{PairStatus, ImageStatus, CoverStatus, KeptStatus, MemoryStatus};

/// Where memory was not refused, `g1_same` returns 0 exactly where both byte strings are images' texts
/// that show one graph, and 1 exactly where they are and show two, or where the second have stale words and no
/// other fault and show them, or another graph beside them. It returns 3 exactly where the first have a fault, or where
/// the second have one and don't.
pub fn pair_status()
    ensures { PairStatus }
{
    g1_image::laws::one_text();
    g1_image::laws::one_fault();
    g1_same::laws::never_both();
}

/// The same of `g1_image`: 0 exactly where the bytes are an image's text, and 3 where they have a fault.
pub fn image_status()
    ensures { ImageStatus }
{
    g1_image::laws::one_text();
    g1_image::laws::one_fault();
}

/// The same of `g1_covered`: 0 exactly where the bytes are a covered image's text, 4 exactly where they
/// are an image's that is not, and 3 exactly where they have a fault.
pub fn cover_status()
    ensures { CoverStatus }
{
    g1_image::laws::one_text();
    g1_image::laws::one_fault();
}

/// The same of `g1_kept`: 0 exactly where both byte strings are images' texts, the first allows the set,
/// and the second keeps what a pause of it keeps; 1 exactly where it does not keep it; 3 exactly where
/// one of the byte strings has a fault; and 5 exactly where the first image does not allow the set.
pub fn kept_status()
    ensures { KeptStatus }
{
    g1_image::laws::one_text();
    g1_image::laws::one_fault();
    g1_choose::laws::accepted_or_bad();
}

/// 6 is returned for memory alone.
pub fn memory_status()
    ensures { MemoryStatus }
{}
