//! Laws of samples, each a clause of a function that does nothing. `specs/Laws.antt` states them.
ghost use Rattle.trace_pair.specs.Laws.{IsOnePair, IsOneSkip, PairIsNoSkip, PairHasTraces, AllAreAdmitted};

/// A sample is one pair at most, is skipped on one side and for one cause at most, and never both.
/// The input of a pair meets the condition, and its traces are those of the functions, with values
/// below 2^100 in size and few marks; the functions return their results. Where no condition is
/// given, none is asked.
pub fn law_of_pairs()
    ensures pair { IsOnePair }
    ensures skip { IsOneSkip }
    ensures not_both { PairIsNoSkip }
    ensures traces { PairHasTraces }
    ensures admitted { AllAreAdmitted }
{}
