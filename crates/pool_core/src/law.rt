//! Laws of the definitions alone. Each is the contract of a call that does nothing.
//! `specs/Laws.antt`, `specs/Kinds.antt` and `specs/Plays.antt` state them.
ghost use Rattle.pool_core.specs.Laws.{FrontsAreLegal, ItemsFollow, HistoriesGoOn};
ghost use Rattle.pool_core.specs.Laws.{NothingFollowsVerdicts};
ghost use Rattle.pool_core.specs.Kinds.{AreOfOneKind, DifferencesAreFound, CouplingsAreFound};
ghost use Rattle.pool_core.specs.Plays.{ConclusionsAreJustified};

/// A front of a legal history is legal, and each of its items may follow those before it; with an
/// item that may follow a legal history is legal. Nothing follows a verdict, which is justified.
pub fn law_of_histories()
    ensures fronts { FrontsAreLegal }
    ensures follow { ItemsFollow }
    ensures go_on { HistoriesGoOn }
    ensures last { NothingFollowsVerdicts }
{}

/// Two verdicts that are justified of one subject are of one kind, unless one of them is unknown
/// and names a limit of an obligation at the alignment of the other. A coupling is of candidates
/// of all pairs, as it is one of candidates of some, so only such a limit hides it. A justified
/// verdict is that the functions differ exactly where some sample shows it; and where a family of
/// candidates of all pairs is linear, it is that they are equivalent, or it names such a limit
/// there.
pub fn law_of_kinds()
    ensures one { AreOfOneKind }
    ensures differences { DifferencesAreFound }
    ensures couplings { CouplingsAreFound }
{}

/// What a pool with a legal history concludes is justified.
pub fn law_of_conclusions()
    ensures { ConclusionsAreJustified }
{}
