ghost use Rattle.g1_pause.specs.Laws.{OneSetFor, OneEvacuation, OneAnswer, EvacuationByAsking, AnswerByAsking, EvacuationExists, AnswerExists, LiveBytesExist, EvacuationFollows, AnswerFollows};

/// A choice has one set, a tracked image one pause, and bytes one answer.
pub fn one_answer()
    ensures set { OneSetFor }
    ensures evacuation { OneEvacuation }
    ensures answer { OneAnswer }
{}

/// Of a choice only the budget counts, or which regions a list has, in which order.
pub fn same_choice()
    ensures evacuation { EvacuationByAsking }
    ensures answer { AnswerByAsking }
{}

/// What a pause gives follows from what it was given.
pub fn what_follows()
    ensures evacuation { EvacuationFollows }
    ensures answer { AnswerFollows }
{}

/// A valid heap has live bytes. That it has no others is `one_list` of `g1_words`.
pub fn live_bytes_exist()
    ensures { LiveBytesExist }
{}

/// A tracked image always has a pause and bytes always an answer, whatever the choice and the cost.
pub fn always_one()
    ensures evacuation { EvacuationExists }
    ensures answer { AnswerExists }
{}
