//! Laws of walks and cases, each the contract of a function that does nothing. `specs/Laws.antt`
//! and `specs/Fits.antt` state them.
ghost use Rattle.sym_paths.specs.Laws.{LawOfExpressions, LawOfCases, LawOfConditions};
ghost use Rattle.sym_paths.specs.Laws.{ValuesStay, ValuesAreThose, RowsStay, RowsHoldThere};
ghost use Rattle.sym_paths.specs.Laws.{VariablesHaveValues};
ghost use Rattle.sym_paths.specs.Fits.{CasesFit, ConditionsFit};
ghost use Rattle.sym_paths.specs.Laws.{WalkIsEntered, StepIsWalk, StepReadsNoRow, StepIsLower};

/// The forms that an expression has over the variables' forms have its value, both ways: at each
/// point one case of it holds, with whole numbers for the unknowns.
pub fn law_of_expressions()
    ensures { LawOfExpressions }
{}

/// The cases of a segment say what the graph does, both ways, with whole numbers for the unknowns.
pub fn law_of_cases()
    ensures { LawOfCases }
{}

/// The cases of a condition say which inputs meet it, both ways, with whole numbers for the
/// unknowns.
pub fn law_of_conditions()
    ensures { LawOfConditions }
{}

/// Rows and forms of cases are over the values at the start and at most 16 unknowns, with entries
/// below 2^50 in size; a segment ends at a mark or the exit, with a form for each value there.
pub fn law_of_fitting_cases()
    ensures cases { CasesFit }
    ensures conditions { ConditionsFit }
{}

/// What holds at a point of a walk holds at longer ones, and the variables of the start have the
/// numbers of the point.
pub fn law_of_points()
    ensures values { ValuesStay }
    ensures those { ValuesAreThose }
    ensures rows { RowsStay }
    ensures there { RowsHoldThere }
    ensures variables { VariablesHaveValues }
{}

/// The walk of a segment in single steps, without recursion over nodes: a list of cases under way,
/// of which the first takes its next step. It is the walk, and it ends.
pub fn law_of_steps()
    ensures entered { WalkIsEntered }
    ensures step { StepIsWalk }
    ensures rows { StepReadsNoRow }
    ensures ends { StepIsLower }
{}
