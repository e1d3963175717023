ghost use Rattle.std.specs.Prelude.{◌≡◌, [], ◌∷◌};
ghost use Rattle.g1_choose.specs.Choice.{candidates, IsOrder};
ghost use Rattle.g1_choose.specs.Named.{AreTakeable, IsFirstBad};
ghost use Rattle.g1_examples.specs.Examples.{three_regions, humongous_owner};
ghost use Rattle.g1_examples.specs.Choices.{unit_prices, three_remembered, three_lives, Orders, Buys, byte_prices, two_full_regions};

/// Which regions budgets buy. Of the three regions the third alone would still fit 35.
pub fn choices()
    ensures candidates { candidates unit_prices three_regions three_remembered three_lives ≡ 0 ∷ 1 ∷ 2 ∷ [] }
    ensures order { Orders (0 ∷ 1 ∷ 2 ∷ []) }
    ensures not_the_pause { Buys 9 [] }
    ensures one_short { Buys 25 [] }
    ensures exactly_one { Buys 26 (0 ∷ []) }
    ensures none_skipped { Buys 35 (0 ∷ []) }
    ensures exactly_two { Buys 42 (0 ∷ 1 ∷ []) }
    ensures two { Buys 50 (0 ∷ 1 ∷ []) }
    ensures all { Buys 51 (0 ∷ 1 ∷ 2 ∷ []) }
    ensures wide_products { IsOrder byte_prices two_full_regions ([] ∷ [] ∷ []) (262144 ∷ 262136 ∷ []) (1 ∷ 0 ∷ []) }
{}

/// What no budget buys: a later region over one that does not fit, a region that the budget misses by one.
pub fn refused_choices()
    ensures skipping { Buys 35 (0 ∷ 2 ∷ []) → ⊥ }
    ensures missed { Buys 25 (0 ∷ []) → ⊥ }
    ensures left_out { Buys 26 [] → ⊥ }
    ensures higher_first { Orders (1 ∷ 0 ∷ 2 ∷ []) → ⊥ }
{}

/// Which lists of regions are accepted.
pub fn named_lists()
    ensures falling { AreTakeable three_regions (2 ∷ 0 ∷ []) }
    ensures nothing { AreTakeable three_regions [] }
    ensures twice { IsFirstBad three_regions (1 ∷ 1 ∷ []) 1 }
    ensures free { IsFirstBad three_regions (0 ∷ 3 ∷ 9 ∷ []) 1 }
    ensures out_of_range { IsFirstBad three_regions (9 ∷ 3 ∷ []) 0 }
    ensures humongous { IsFirstBad humongous_owner (3 ∷ 0 ∷ []) 1 }
{}
