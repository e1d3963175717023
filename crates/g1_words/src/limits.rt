//! How large a heap may be.
ghost use Rattle.std.specs.Prelude.{◌≡◌};
ghost use Rattle.g1_words.specs.Geometry.{region_words_within, words_within};

/// 32 MiB, the largest region of HotSpot.
pub(crate) const MOST_REGION_WORDS: u64 = 4_194_304;

/// 2^28 words, or 2 GiB. The roots and twice the words are fewer than 2^32, so that each slot of a
/// search has a number of 32 bits.
pub(crate) const MOST_WORDS: u64 = 268_435_456;

/// Which sizes of a heap are accepted.
#[derive(Debug, Clone, Copy, PartialEq, Eq)]
pub enum Limits {
    /// Those of the specification: regions of up to 65,536 words (512 KiB), heaps of up to 2^24 words
    /// (128 MiB).
    Specified,
    /// Those for which the arithmetic of a heap is right: regions of up to 2^22 words (32 MiB), heaps of up
    /// to 2^28 words (2 GiB).
    Wide,
}

impl Limits {
    /// The most words of a region.
    ///
    /// # Examples
    ///
    /// ```
    /// use g1_words::Limits;
    ///
    /// assert_eq!(rt; Limits::Specified.region_words(), 65_536);
    /// assert_eq!(rt; Limits::Wide.region_words(), 1 << 22);
    /// ```
    pub fn region_words(self) -> u64
        ensures { result ≡ region_words_within self }
    {
        match self {
            Limits::Specified => 65_536,
            Limits::Wide => MOST_REGION_WORDS,
        }
    }

    /// The most words of a heap.
    ///
    /// # Examples
    ///
    /// ```
    /// use g1_words::Limits;
    ///
    /// assert_eq!(rt; Limits::Specified.words(), 1 << 24);
    /// assert_eq!(rt; Limits::Wide.words(), 1 << 28);
    /// ```
    pub fn words(self) -> u64
        ensures { result ≡ words_within self }
    {
        match self {
            Limits::Specified => 16_777_216,
            Limits::Wide => MOST_WORDS,
        }
    }
}
