ghost use Rattle.g1_frontier.specs.Laws.{ObjectsNumber, RefinedLeadIn, RefinedLeadsIn, RoundFindsNew, WordsNumber};

/// The cards of the refined remembered sets of a covered image lead into a window.
pub fn refined_lead_in()
    ensures window { RefinedLeadIn }
    ensures region { RefinedLeadsIn }
{}

/// The claims of a round that survive, in the order of their ranks, are its new objects: those that
/// its items reference in the window and that no earlier round found, each once, in the order in
/// which the items reference them first. So it is for the places of `claim_round`, a place for each
/// word of the window, and for those of `discover`, a place for each object.
pub fn new_objects()
    ensures new { RoundFindsNew }
    ensures words { WordsNumber }
    ensures objects { ObjectsNumber }
{}
