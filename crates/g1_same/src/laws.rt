ghost use Rattle.g1_same.specs.Laws.{FirstOfAll, NeverBoth, NothingLeft, OneFirst, OneRenaming, SameOrDiffers};

/// A difference shows that no renaming makes the one graph the other.
pub fn never_both()
    ensures { NeverBoth }
{}

/// Two heaps have one first difference at most.
pub fn one_first()
    ensures { OneFirst }
{}

/// Two heaps have one renaming at most.
pub fn one_renaming()
    ensures { OneRenaming }
{}

/// Two valid heaps show one graph or have a first difference.
pub fn always_one()
    ensures { SameOrDiffers }
{}

/// If `Differences` returns nothing from the start, the heaps show one graph, and no path leads to a stale word.
pub fn nothing_left()
    ensures { NothingLeft }
{}

/// What `Differences` returns first is the first of all differences and stale words.
pub fn first_of_all()
    ensures { FirstOfAll }
{}
