//! Laws of the definitions alone. Each is the contract of a function that does nothing.
//! `specs/Laws.antt` states them.
ghost use Rattle.miners.specs.Laws.{MinesCandidates, OneListOfCandidates, MiningGoesOn, HadPointsStrikeNothing, OrderGoesOneWay};
ghost use Rattle.miners.specs.Laws.{CandidatesAreMined, HoldingAtomsAreCandidates, UnmetNodesHaveNone, CandidatesAreInOrder};
ghost use Rattle.miners.specs.Laws.{WideNodesSayNothing, MorePairsAddNone, CandidatesAreDetermined, PointsHaveOneLength, CandidatesFit, EntriesFit};
ghost use Rattle.miners.specs.Laws.{LawOfBoundConstants, LawOfTenLeast};

/// What is mined of points are exactly the atoms of the template that hold at all of them, in
/// order and each once; no other list is so. Points may come one after the other, and one that was
/// had strikes nothing. The order goes one way.
pub fn law_of_mining()
    ensures exact { MinesCandidates }
    ensures alone { OneListOfCandidates }
    ensures goes_on { MiningGoesOn }
    ensures had { HadPointsStrikeNothing }
    ensures one_way { OrderGoesOneWay }
{}

/// The candidates at a node that is met are exactly the atoms of the template that hold at all
/// points of the walks, so that each such atom is one; only a node that is not met has none, and
/// nothing is said past 16 values. All stand in order. More pairs add no candidate at a node that
/// was met, and the order of pairs makes no difference. Where pairs fit two functions, the points
/// at a node have one length, and each candidate fits it.
pub fn law_of_candidates()
    ensures mined { CandidatesAreMined }
    ensures holding { HoldingAtomsAreCandidates }
    ensures unmet { UnmetNodesHaveNone }
    ensures order { CandidatesAreInOrder }
    ensures wide { WideNodesSayNothing }
    ensures more_pairs { MorePairsAddNone }
    ensures determined { CandidatesAreDetermined }
    ensures one_length { PointsHaveOneLength }
    ensures fit { CandidatesFit }
    ensures entries_fit { EntriesFit }
{}

/// The constants of bounds rise from -1, are below 2^50 in size, and at most 13. Those that are
/// kept of the functions' constants are the least.
pub fn law_of_constants()
    ensures bounds { LawOfBoundConstants }
    ensures least { LawOfTenLeast }
{}
