ghost use Rattle.g1_copy.specs.Laws.{CardsLeadIn, CardsStandOutside, CardsOfToSpace, CardsInToSpace, RefinedFindPatches, WrittenInPlace, GatheredAtPlaces, GatheredElsewhere};

/// What the cards that lead into a set are, and that they meet what `patches` asks.
pub fn cards_lead_in()
    ensures refined { CardsLeadIn }
    ensures outside { CardsStandOutside }
{}

/// The patches of these cards are all that there are.
pub fn all_patches()
    ensures { RefinedFindPatches }
{}

/// The words of to-space, the patches and the cleared regions make the words of the heap after.
pub fn written_in_place()
    ensures { WrittenInPlace }
{}

/// What the words of to-space are, for every plan that `gather` takes: those of each survivor at its
/// place, and 0 elsewhere.
pub fn gathered()
    ensures places { GatheredAtPlaces }
    ensures elsewhere { GatheredElsewhere }
{}

/// Which slots the exact cards of to-space, and those for its regions, come from once the survivors
/// have moved.
pub fn cards_moved()
    ensures of_to_space { CardsOfToSpace }
    ensures in_to_space { CardsInToSpace }
{}
