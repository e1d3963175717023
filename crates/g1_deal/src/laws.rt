//! What any interleaving of the steps of all seats comes to.
ghost use Rattle.g1_deal.specs.Interleaving.{NoneTwice, NoneSkipped, DrawnSoFar, FloorsHold};

/// Whatever the order of the steps, no number has been drawn twice, and none below a drawn one is
/// skipped: those below the cursor that are chunks have been drawn, each once, and no others. All
/// numbers below a seat's floor have been drawn, so all chunks once a seat has had None.
pub fn interleavings()
    ensures once { NoneTwice }
    ensures all { NoneSkipped }
    ensures so_far { DrawnSoFar }
    ensures floors { FloorsHold }
{}
