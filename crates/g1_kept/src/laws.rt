ghost use Rattle.g1_kept.specs.Laws.{FreesRuns, KeepsGraph, NothingLost, OneLoss, PauseKeeps};

/// The image after a pause of a set keeps what a pause of the set keeps.
pub fn pause_keeps()
    ensures { PauseKeeps }
{}

/// A heap that keeps what a pause of a set keeps shows the same graph, and nothing of it is lost.
pub fn same_graph()
    ensures graph { KeepsGraph }
    ensures nothing_lost { NothingLost }
{}

/// A humongous object is there as a whole, or all regions of its run are free.
pub fn whole_runs()
    ensures { FreesRuns }
{}

/// Two heaps have one first loss at most.
pub fn one_loss()
    ensures { OneLoss }
{}
