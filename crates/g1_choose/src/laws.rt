ghost use Rattle.g1_choose.specs.Laws.{OneWay, AnyTwo, EfficiencyChain, OrderExists, OneOrder, SetExists, OneSet, NoneSkipped, WithinBudget, OnlyCandidates, AcceptedOrBad, AcceptedNotBad, OneFirstBad, LiveWithinUsed};

/// Efficiency orders the candidates: of any two, one comes before the other.
pub fn efficiency()
    ensures one_way { OneWay }
    ensures any_two { AnyTwo }
    ensures chain { EfficiencyChain }
{}

/// A heap's candidates have one order, and a budget buys one set.
pub fn one_choice()
    ensures order { OrderExists }
    ensures one_order { OneOrder }
    ensures set { SetExists }
    ensures one_set { OneSet }
{}

/// What a budget buys: no region over one that doesn't fit, and no more than it pays.
pub fn bought()
    ensures none_skipped { NoneSkipped }
    ensures within_budget { WithinBudget }
    ensures only_candidates { OnlyCandidates }
{}

/// A list that a caller gives is accepted, or has one first bad place.
pub fn accepted_or_bad()
    ensures either { AcceptedOrBad }
    ensures not_both { AcceptedNotBad }
    ensures one { OneFirstBad }
{}

/// Live bytes may be asked about: of an ordinary region they are at most the bytes that are used.
pub fn live_within_used()
    ensures { LiveWithinUsed }
{}
