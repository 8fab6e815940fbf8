//! Laws of runs, each a clause of a function that does nothing. `specs/Laws.antt` states them.
ghost use Rattle.graph_run.specs.Laws.{GraphIsJudgedOnce, JudgedFits};

/// A run has at most one outcome, so an answer is the only right one. The values of a trace that
/// comes of a run with a limit are below 2^100 in size, where those of the input are.
pub fn law_of_outcomes()
    ensures once { GraphIsJudgedOnce }
    ensures fits { JudgedFits }
{}
