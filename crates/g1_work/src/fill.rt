/// What is written over each slice of a list of words, region by region.
///
/// An implementation states by `ready` what it asks of a region's number and its slice, and by
/// `fills` what it makes of that slice.
pub trait Fill {
    ghost use Rattle.std.specs.Prelude.{ℕ, List};

    // The region may be filled over these words.
    ghost ready: { Self → ℕ → List ℕ → Type 0 };

    // The region, its words before and its words after.
    ghost fills: { Self → ℕ → List ℕ → List ℕ → Type 0 };

    /// Fills one region, whose words these are.
    fn fill(&self, region: usize, words: &mut [u64])
        requires { ready self.now region words.old }
        ensures { fills self.now region words.old words.new };
}
