//! Law of what is justified, a clause of a function that does nothing. `specs/Fitting.antt` states
//! it.
ghost use Rattle.report.specs.Fitting.{JustifiedVerdictsFit, LegalHistoriesAreKept};

/// Each verdict that is justified can be told of the two functions, and so can each item of a legal
/// history.
pub fn law_of_fitting()
    ensures verdicts { JustifiedVerdictsFit }
    ensures items { LegalHistoriesAreKept }
{}
