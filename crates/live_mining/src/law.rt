//! The law of live candidates, the contract of a function that does nothing.
ghost use Rattle.live_mining.specs.Laws.{PartsMakeTheWhole, LiveCandidatesAreMined};

/// The candidates after some pairs and then more are those that `mine` gives of all of them, and so
/// exactly the atoms that hold wherever the walks of these pairs meet a node.
pub fn law_of_live_candidates()
    ensures whole { PartsMakeTheWhole }
    ensures mined { LiveCandidatesAreMined }
{}
