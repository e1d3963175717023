ghost use Rattle.g1_trace.specs.Laws.{StepShows, StepKeeps, OneStep, StartShows, StartTracked, WholeTraces, OneRun, StepExists, RunExists, OneTrace, NoBadLine, OneBadLine, TextOrBadLine, OneTold, AlwaysTold};

/// What a mutator's image shows is what the plain store shows, whatever a pause moves or frees.
pub fn traces()
    ensures start { StartShows }
    ensures step { StepShows }
    ensures whole { WholeTraces }
{}

/// Every command keeps a tracked image.
pub fn kept()
    ensures start { StartTracked }
    ensures step { StepKeeps }
{}

/// A command has one reply and one image after, and a trace one list of replies.
pub fn one_run()
    ensures step { OneStep }
    ensures run { OneRun }
{}

/// A command has a reply and an image after on every tracked image, and a trace within the limits has
/// replies.
pub fn always_one()
    ensures step { StepExists }
    ensures run { RunExists }
{}

/// Every string of bytes is the text of one trace or has one first bad line, and never both.
pub fn one_text()
    ensures one { OneTrace }
    ensures good { NoBadLine }
    ensures bad { OneBadLine }
    ensures always { TextOrBadLine }
{}

/// Bytes have one text of replies, or a first bad line, or a first line outside the limits.
pub fn one_answer()
    ensures one { OneTold }
    ensures always { AlwaysTold }
{}
