ghost use Rattle.std.specs.Prelude.{◌≡◌, ◌≤◌, ◌<◌, ◌*◌, ◌/◌, ◌^◌, ℕ, IfOk, IfErr, IfSome, IfNone, IsTrue, ◌↔◌};
ghost use Rattle.g1_words.specs.Geometry.{IsWithinBounds, IsWithinLimits, IsWithin};
ghost use Rattle.std.specs.Int.{IsPowerOfTwo, div_ceil};

use crate::fault::Fault;
use crate::limits::{Limits, MOST_REGION_WORDS, MOST_WORDS};
use std::marker::Model;

/// Regions of fewer words are no use even for examples that are followed by hand.
const LEAST_REGION_WORDS: u64 = 16;

/// A table has one entry a card: cards of fewer words would make it as long as a good part of the heap.
const LEAST_CARD_WORDS: u64 = 4;

/// 512 bytes, the usual card of HotSpot. The slots on a card fit a list that never grows.
const MOST_CARD_WORDS: u64 = 64;

/// Twice the number of regions that HotSpot aims at. Tables have one entry a region.
const MOST_REGIONS: u64 = 4_096;

/// The sizes of a heap: words a region, words a card, and the number of regions.
#[derive(Debug, PartialEq, Eq)]
pub struct Geometry {
    w: u64,
    k: u64,
    n: u64,
}

/// The quotient by a power of two: a shift, since a division takes many times as long.
pub(crate) fn over(a: u64, power: u64) -> u64
    requires { IsPowerOfTwo power }
    ensures { result ≡ a / power }
{
    a >> power.trailing_zeros()
}

/// Returns whether a number is a power of two.
fn is_power(x: u64) -> bool
    ensures { IsTrue result ↔ IsPowerOfTwo x }
{
    x.is_power_of_two()
}

impl Model for Geometry {
    ghost use Rattle.g1_words.specs.Geometry.{Geometry as Sizes, IsWithinBounds};

    ghost Value = { Sizes };

    ghost view = { λ g. record { w = g.w; k = g.k; n = g.n } };

    ghost invariant = { λ g. IsWithinBounds g.w g.k g.n };

    ghost inverse = { λ v. record { w = v.w; k = v.k; n = v.n } };
}

impl Clone for Geometry {
    fn clone(&self) -> Result<Self, std::alloc::AllocError> {
        Ok(*self)
    }
}

impl Copy for Geometry {}

impl Geometry {
    /// The geometry of `n` regions of `w` words, on which a card has `k` words, within the limits of the
    /// specification.
    ///
    /// # Errors
    ///
    /// `Fault::Geometry` unless `w` is a power of two from 16 to 65,536, `k` one from 4 to 64 and at
    /// most `w`, and `n` from 1 to 4,096 with at most 2^24 words in all.
    ///
    /// # Examples
    ///
    /// ```
    /// use g1_words::{Fault, Geometry};
    ///
    /// let geometry = Geometry::new(16, 4, 4)?;
    /// assert_eq!(rt; geometry.words(), 64);
    /// assert_eq!(rt; Geometry::new(24, 4, 4), Err(Fault::Geometry));
    /// ```
    pub fn new(w: u64, k: u64, n: u64) -> Result<Geometry, Fault>
        ensures ok { IfOk result (λ g. (g.w ≡ w) × (g.k ≡ k) × (g.n ≡ n)) }
        ensures limits { IfOk result (λ g. IsWithinLimits g.w g.k g.n) }
        ensures err { IfErr result (λ e. (e ≡ Fault.Geometry) × (IsWithinLimits w k n → ⊥)) }
    {
        Geometry::within(Limits::Specified, w, k, n)
    }

    /// As `new`, within these limits.
    ///
    /// # Errors
    ///
    /// `Fault::Geometry`, as `new`, but the most words of a region and of the heap are those of the limits.
    ///
    /// # Examples
    ///
    /// ```
    /// use g1_words::{Fault, Geometry, Limits};
    ///
    /// assert_eq!(rt; Geometry::new(131_072, 64, 2), Err(Fault::Geometry));
    /// let geometry = Geometry::within(Limits::Wide, 131_072, 64, 2)?;
    /// assert_eq!(rt; geometry.words(), 262_144);
    /// ```
    pub fn within(limits: Limits, w: u64, k: u64, n: u64) -> Result<Geometry, Fault>
        ensures ok { IfOk result (λ g. (g.w ≡ w) × (g.k ≡ k) × (g.n ≡ n)) }
        ensures limits { IfOk result (λ g. IsWithin limits g.w g.k g.n) }
        ensures err { IfErr result (λ e. (e ≡ Fault.Geometry) × (IsWithin limits w k n → ⊥)) }
    {
        match Geometry::bounded(w, k, n) {
            Some(geometry) => {
                if w > limits.region_words() || n * w > limits.words() {
                    return Err(Fault::Geometry);
                }
                Ok(geometry)
            }
            None => Err(Fault::Geometry),
        }
    }

    // The geometry of these sizes, if they are within the bounds.
    fn bounded(w: u64, k: u64, n: u64) -> Option<Geometry>
        ensures some { IfSome result (λ g. (g.w ≡ w) × (g.k ≡ k) × (g.n ≡ n)) }
        ensures bounds { IfSome result (λ g. IsWithinBounds w k n) }
        ensures none { IfNone result (IsWithinBounds w k n → ⊥) }
    {
        if !is_power(w) || w < LEAST_REGION_WORDS || w > MOST_REGION_WORDS {
            return None;
        }
        if !is_power(k) || k < LEAST_CARD_WORDS || k > MOST_CARD_WORDS || k > w {
            return None;
        }
        if n < 1 || n > MOST_REGIONS || n * w > MOST_WORDS {
            return None;
        }
        Some(Geometry { w, k, n })
    }

    /// The words of a region.
    ///
    /// # Examples
    ///
    /// ```
    /// use g1_words::Geometry;
    ///
    /// let geometry = Geometry::new(32, 8, 6)?;
    /// assert_eq!(rt; geometry.region_words(), 32);
    /// ```
    pub fn region_words(&self) -> u64
        ensures value { result ≡ self.now.w }
        ensures limits { IsWithinBounds self.now.w self.now.k self.now.n }
    {
        self.w
    }

    /// The words of a card.
    ///
    /// # Examples
    ///
    /// ```
    /// use g1_words::Geometry;
    ///
    /// let geometry = Geometry::new(32, 8, 6)?;
    /// assert_eq!(rt; geometry.card_words(), 8);
    /// ```
    pub fn card_words(&self) -> u64
        ensures value { result ≡ self.now.k }
        ensures limits { IsWithinBounds self.now.w self.now.k self.now.n }
    {
        self.k
    }

    /// The number of regions.
    ///
    /// # Examples
    ///
    /// ```
    /// use g1_words::Geometry;
    ///
    /// let geometry = Geometry::new(32, 8, 6)?;
    /// assert_eq!(rt; geometry.regions(), 6);
    /// ```
    pub fn regions(&self) -> u64
        ensures value { result ≡ self.now.n }
        ensures limits { IsWithinBounds self.now.w self.now.k self.now.n }
    {
        self.n
    }

    /// The number of words of the heap.
    ///
    /// # Examples
    ///
    /// ```
    /// use g1_words::Geometry;
    ///
    /// let geometry = Geometry::new(32, 8, 6)?;
    /// assert_eq!(rt; geometry.words(), 192);
    /// ```
    pub fn words(&self) -> u64
        ensures value { result ≡ self.now.n * self.now.w }
        ensures limits { IsWithinBounds self.now.w self.now.k self.now.n }
    {
        self.n * self.w
    }

    /// The number of cards of the heap.
    ///
    /// # Examples
    ///
    /// ```
    /// use g1_words::Geometry;
    ///
    /// let geometry = Geometry::new(32, 8, 6)?;
    /// assert_eq!(rt; geometry.cards(), 24);
    /// ```
    pub fn cards(&self) -> u64
        ensures value { result ≡ self.now.n * self.now.w / self.now.k }
        ensures limits { IsWithinBounds self.now.w self.now.k self.now.n }
    {
        let words = self.words();
        words / self.k
    }

    /// The address of the first word of a region, also of one past the heap's last.
    ///
    /// # Examples
    ///
    /// ```
    /// use g1_words::Geometry;
    ///
    /// let geometry = Geometry::new(32, 8, 6)?;
    /// assert_eq!(rt; geometry.start(5), 160);
    /// assert_eq!(rt; geometry.start(6), geometry.words());
    /// ```
    pub fn start(&self, region: u32) -> u64
        ensures value { result ≡ region * self.now.w }
        ensures limits { IsWithinBounds self.now.w self.now.k self.now.n }
    {
        u64::from(region) * self.w
    }

    /// The number of words of this many regions.
    ///
    /// # Examples
    ///
    /// ```
    /// use g1_words::Geometry;
    ///
    /// let geometry = Geometry::new(32, 8, 6)?;
    /// assert_eq!(rt; geometry.words_of(10), 320);
    /// ```
    pub fn words_of(&self, regions: u64) -> u64
        requires { regions * self.now.w < 2 ^ 64 }
        ensures value { result ≡ regions * self.now.w }
        ensures limits { IsWithinBounds self.now.w self.now.k self.now.n }
    {
        regions * self.w
    }

    /// The address of the first word of a card, also of one past the heap's last.
    ///
    /// # Examples
    ///
    /// ```
    /// use g1_words::Geometry;
    ///
    /// let geometry = Geometry::new(32, 8, 6)?;
    /// assert_eq!(rt; geometry.card_start(4), 32);
    /// ```
    pub fn card_start(&self, card: u32) -> u64
        ensures value { result ≡ card * self.now.k }
        ensures limits { IsWithinBounds self.now.w self.now.k self.now.n }
    {
        u64::from(card) * self.k
    }

    /// The number of the region that a card lies in, or would lie in.
    ///
    /// # Examples
    ///
    /// ```
    /// use g1_words::Geometry;
    ///
    /// let geometry = Geometry::new(32, 8, 6)?;
    /// assert_eq!(rt; geometry.card_start(23), 184);
    /// assert_eq!(rt; geometry.region_of_card(23), 5);
    /// ```
    pub fn region_of_card(&self, card: u32) -> u64
        ensures value { result ≡ card * self.now.k / self.now.w }
        ensures limits { IsWithinBounds self.now.w self.now.k self.now.n }
    {
        over(self.card_start(card), self.w)
    }

    /// The most words of an object that is not humongous, the header included.
    ///
    /// # Examples
    ///
    /// ```
    /// use g1_words::Geometry;
    ///
    /// let geometry = Geometry::new(16, 4, 4)?;
    /// assert_eq!(rt; geometry.most_ordinary(), 12);
    /// ```
    pub fn most_ordinary(&self) -> u64
        ensures { result ≡ 3 * self.now.w / 4 }
    {
        3 * self.w / 4
    }

    /// Whether an object of this many words is humongous: it takes more than three quarters of a region.
    ///
    /// # Examples
    ///
    /// ```
    /// use g1_words::Geometry;
    ///
    /// let geometry = Geometry::new(16, 4, 4)?;
    /// assert_eq!(rt; geometry.most_ordinary(), 12);
    /// assert!(rt; !geometry.is_humongous(12));
    /// assert!(rt; geometry.is_humongous(13));
    /// ```
    pub fn is_humongous(&self, size: u64) -> bool
        ensures { IsTrue result ↔ (3 * self.now.w < 4 * size) }
    {
        size > self.most_ordinary()
    }

    /// How many regions an object of this many words takes, if it starts at the start of one.
    ///
    /// # Examples
    ///
    /// ```
    /// use g1_words::Geometry;
    ///
    /// let geometry = Geometry::new(16, 4, 4)?;
    /// assert_eq!(rt; geometry.regions_for(40), 3);
    /// ```
    pub fn regions_for(&self, size: u64) -> u64
        ensures { result ≡ div_ceil size self.now.w }
    {
        size.div_ceil(self.w)
    }
}
