//! Laws of what is told, each a clause of a function that does nothing. `specs/Laws.antt` and
//! `specs/Determined.antt` state them.
ghost use Rattle.report.specs.Laws.{HasRuns, HasNoOtherRuns, TellsCause, TellsEachOnce};
ghost use Rattle.report.specs.Determined.{TextsDetermineVerdicts};

/// The runs of a list, written out one after the other, are the list again, and none can be longer.
/// No other runs are so.
pub fn law_of_runs()
    ensures runs { HasRuns }
    ensures no_other { HasNoOtherRuns }
{}

/// The index of each sample is told for exactly one cause, which is the sample's.
pub fn law_of_samples()
    ensures cause { TellsCause }
    ensures once { TellsEachOnce }
{}

/// Verdicts on the same functions with one text tell the same: of a coupling that is the alignment,
/// the indexes and the family, and not its multipliers. The names of the variables hold only
/// letters, digits, `_` and `.`, as those of read functions do, and numbers have at most 64 digits.
pub fn law_of_texts()
    ensures { TextsDetermineVerdicts }
{}
