//! Laws of values and runs, each the contract of a function that does nothing. `specs/` states
//! them, most in `Laws.antt`.
ghost use Rattle.c_ast.specs.Division.{LawOfQuotients, LawOfRemainders, LawOfDivision};
ghost use Rattle.c_ast.specs.Place.{LawOfPlaces};
ghost use Rattle.c_ast.specs.Fronts.{Fronts, OneTree, OneExpression};
ghost use Rattle.c_ast.specs.Environments.{MapOfSpread, MapOfValues, SpreadHasLength, StepKeepsLength, ValuesAreListed, ListedAreBelow};
ghost use Rattle.c_ast.specs.Environments.{FirstVariablesAreBelow, ParametersAreBelow, SetStaysBelow};
ghost use Rattle.c_ast.specs.Environments.{OverCanEvaluate, SetCanEvaluate};
ghost use Rattle.c_ast.specs.Ahead.{MarksAreAhead, MarksAreAheadAtStart, MarksStayAhead};
ghost use Rattle.c_ast.specs.Agreement.{StepsAreAlike};
ghost use Rattle.c_ast.specs.Passing.{TraceIsSegments};
ghost use Rattle.c_ast.specs.Laws.{ReturnsOnce, HasOneTrace, TraceReturns, TraceFits, OutcomeIsTrace};
ghost use Rattle.c_ast.specs.Laws.{WorkIsDetermined, NextPlaceIsDetermined, NextPlaceExists, MeetsFittingValues};
ghost use Rattle.c_ast.specs.Laws.{FittingValuesAreAsMany, EntryIsNotMet, ExitIsLast};
ghost use Rattle.c_ast.specs.Laws.{IsJudgedOnce, JudgedIsTrace, CutOffPassesMore, TraceIsJudged};

/// The values of `/` and `%` are those of the standard: a quotient that is truncated toward zero,
/// and what it leaves.
pub fn law_of_division()
    ensures quotients { LawOfQuotients }
    ensures remainders { LawOfRemainders }
    ensures division { LawOfDivision }
{}

/// Whether two places are one.
pub fn law_of_places()
    ensures { LawOfPlaces }
{}

/// The trees that statements and expressions stand for are theirs alone.
pub fn law_of_trees()
    ensures fronts { Fronts }
    ensures statements { OneTree }
    ensures expressions { OneExpression }
{}

/// Environments have a value for each variable. The variables in scope, and the expressions over
/// them, are among these.
pub fn law_of_environments()
    ensures length { SpreadHasLength }
    ensures kept { StepKeepsLength }
    ensures listed { ValuesAreListed }
    ensures below { ListedAreBelow }
    ensures first { FirstVariablesAreBelow }
    ensures parameters { ParametersAreBelow }
    ensures set { SetStaysBelow }
    ensures over { OverCanEvaluate }
    ensures taken { SetCanEvaluate }
{}

/// A function of the values of an environment, be they integers or linear forms, may be taken
/// before or after they are spread over the variables, or listed by the variables in scope.
pub fn law_of_values<A, B>()
    ensures spread { MapOfSpread A B }
    ensures listed { MapOfValues A B }
{}

/// The marks that stand in the work of a run are the function's, with the work behind them.
pub fn law_of_marks()
    ensures from { MarksAreAhead }
    ensures start { MarksAreAheadAtStart }
    ensures step { MarksStayAhead }
{}

/// What variables out of scope hold makes no difference to a step.
pub fn law_of_scopes()
    ensures { StepsAreAlike }
{}

/// A function returns at most one value on an input.
pub fn law_of_results()
    ensures { ReturnsOnce }
{}

/// A function has at most one trace on an input, and returns a value exactly where a trace has it
/// as its result.
pub fn law_of_traces()
    ensures one { HasOneTrace }
    ensures result { TraceReturns }
    ensures fits { TraceFits }
    ensures interpreted { OutcomeIsTrace }
    ensures segments { TraceIsSegments }
{}

/// From each place, with any values, exactly one place is met next, with one list of values, which
/// fits it.
pub fn law_of_segments()
    ensures work { WorkIsDetermined }
    ensures determined { NextPlaceIsDetermined }
    ensures exists { NextPlaceExists }
    ensures fits { MeetsFittingValues }
    ensures as_many { FittingValuesAreAsMany }
    ensures entry { EntryIsNotMet }
    ensures exit { ExitIsLast }
{}

/// A run that may pass a number of marks has at most one outcome. A trace among the outcomes is the
/// function's, with no more marks; a run that is cut off passes more; and a trace with no more
/// comes of the run, but where a wide value is met.
pub fn law_of_outcomes()
    ensures one { IsJudgedOnce }
    ensures trace { JudgedIsTrace }
    ensures cut_off { CutOffPassesMore }
    ensures judged { TraceIsJudged }
{}
