//! Laws of the definitions alone. Each is the contract of a function that does nothing.
ghost use Rattle.horn_clauses.specs.Node.{LawOfNodes};
ghost use Rattle.horn_clauses.specs.Equalities.{ParametersAreEqual, ResultsAreEqual};
ghost use Rattle.horn_clauses.specs.Obligations.{FailuresMeetObligations, RefutedAtomsHold, RefutedFamiliesAreKept};

/// Whether two nodes are one.
pub fn law_of_nodes()
    ensures { LawOfNodes }
{}

/// The atoms with which a coupling begins and ends say that parameters, and results, are the same
/// on both sides.
pub fn law_of_equalities()
    ensures parameters { ParametersAreEqual }
    ensures results { ResultsAreEqual }
{}

/// Where no whole numbers meet the obligations of an atom at the end of a clause, it holds there:
/// clauses keep a family of which no obligation is met. Where an atom fails, the values that the
/// clause leads from meet its obligation, with the clause's unknowns.
pub fn law_of_obligations()
    ensures refuted { RefutedAtomsHold }
    ensures kept { RefutedFamiliesAreKept }
    ensures met { FailuresMeetObligations }
{}
