ghost use Rattle.g1_after.specs.Survived.{ToSpaceObjects, ObjectsMoved, ValidMoved, CoveredMoved, ImageExists, OneMoved, RefsMoved, ExactByRefs, ExactStays, TrackedMoved, GraphMoved, NothingIntoSet};
ghost use Rattle.g1_after.specs.Freed.{ObjectsLeft, RefsLeft, NothingIntoUnnamed, ValidLeft, GraphLeft, TrackedLeft, NamedByCards};
ghost use Rattle.g1_after.specs.Laws.{OneImageAfter, PauseExists, ObjectsPaused, CopiesPaused, TrackedPaused, GraphStays, NothingIntoFreed};

/// What holds of the image after the survivors moved.
pub fn survivors_moved()
    ensures to_space { ToSpaceObjects }
    ensures objects { ObjectsMoved }
    ensures valid { ValidMoved }
    ensures covered { CoveredMoved }
    ensures exists { ImageExists }
    ensures one { OneMoved }
    ensures refs { RefsMoved }
    ensures exact { ExactByRefs }
    ensures stays { ExactStays }
    ensures tracked { TrackedMoved }
    ensures graph { GraphMoved }
    ensures nothing { NothingIntoSet }
{}

/// What holds of a heap in which the humongous objects that nothing references are freed.
pub fn unnamed_freed()
    ensures objects { ObjectsLeft }
    ensures refs { RefsLeft }
    ensures nothing { NothingIntoUnnamed }
    ensures valid { ValidLeft }
    ensures graph { GraphLeft }
    ensures tracked { TrackedLeft }
{}

/// Which remembered cards show that another object references a humongous one.
pub fn named_by_cards()
    ensures { NamedByCards }
{}

/// An image and a set have one image after the pause.
pub fn one_image()
    ensures one { OneImageAfter }
    ensures exists { PauseExists }
{}

/// What a pause leaves of the graph.
pub fn same_graph()
    ensures stays { GraphStays }
    ensures nothing_into_freed { NothingIntoFreed }
{}

/// What holds of the image after a pause.
pub fn image_after()
    ensures objects { ObjectsPaused }
    ensures copies { CopiesPaused }
    ensures tracked { TrackedPaused }
{}
