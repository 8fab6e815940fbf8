//! Pairs of runs on inputs that meet the condition.
ghost use Rattle.std.specs.Prelude.{◌≡◌, ◌<◌, length, IfOk, IfErr, MatchOption};
ghost use Rattle.c_ast.specs.Tree.{Program};
ghost use Rattle.c_ast.specs.Value.{CanEvaluate};
ghost use Rattle.c_ast.specs.View.{expression_of};
ghost use Rattle.c_ast.specs.Comparison.{condition_of};
ghost use Rattle.flow_graph.specs.Built.{IsGraphOf};
ghost use Rattle.graph_run.specs.Answers.{AllFitRun};
ghost use Rattle.trace_pair.specs.Pairs.{Admits, KeepsOut, AnswersCondition, AnswersRun, AnswersPair, KeepsCause, AreGraphsOf};

use crate::{PairRefused, Skipped, input};
use c_ast::{Expr, Pair, Side, Subject, Trace, is_nonzero, value_of};
use flow_graph::{Graph, build};
use graph_run::{Skip, run};
use sqlite_items::Items;
use std::alloc::{AllocError, Global};

/// Why the condition keeps these inputs out; `None` where it lets them through.
fn kept_out(condition: &Expr, input: &[i128]) -> Option<Skip>
    requires { CanEvaluate (length input.now) (expression_of condition.now) }
    ensures { MatchOption result
        (Admits (expression_of condition.now) input.now)
        (KeepsOut (expression_of condition.now) input.now) }
{
    match value_of(condition, input) {
        Some(value) if is_nonzero(value) => None,
        Some(_) => Some(Skip::Unmet),
        None => Some(Skip::Wide),
    }
}

/// Asks the subject's condition, if there is one, of the inputs.
fn admit(subject: &Subject, input: &[i128]) -> Result<(), PairRefused>
    requires { length input.now ≡ subject.now.first.params }
    ensures { AnswersCondition (condition_of subject.now) input.now result }
{
    let Some(condition) = subject.condition() else {
        return Ok(());
    };
    match kept_out(condition, input) {
        None => Ok(()),
        Some(why) => Err(PairRefused::Skipped(Skipped {
            side: Side::Pre,
            why,
        })),
    }
}

/// The trace of the graph's function on this side, or what its run met first.
fn trace_of(
    alloc: Global,
    side: Side,
    graph: &Graph,
    input: &[i128],
    marks: u32,
) -> Result<Trace, PairRefused>
    requires arity { length input.now ≡ graph.now.params }
    requires fits { AllFitRun input.now }
    ensures { (f : Program) → IsGraphOf f graph.now → AnswersRun side marks f input.now result }
{
    match run(alloc, graph, input, marks) {
        Ok(trace) => Ok(trace),
        Err(Skip::Memory) => Err(PairRefused::Memory),
        Err(why) => Err(PairRefused::Skipped(Skipped { side, why })),
    }
}

/// Both functions of a subject as graphs, which are built once for all samples.
#[derive(Debug, Drop)]
pub struct Graphs {
    /// Side A's.
    pub first: Graph,
    /// Side B's.
    pub second: Graph,
}

impl Graphs {
    /// The graphs of the subject's functions.
    pub fn new(alloc: Global, subject: &Subject) -> Result<Graphs, AllocError>
        ensures { IfOk result (AreGraphsOf subject.now) }
    {
        let first = build(alloc, subject.first())?;
        let second = build(alloc, subject.second())?;
        Ok(Graphs { first, second })
    }
}

/// The runs of both functions on the sample's input, where that meets the condition and both return
/// after at most as many marks as the settings say and with values below 2^100 in size. `graphs`
/// are those of the subject, and `index` is below the settings' number of samples. The condition is
/// asked first, then side A is run, and then side B; what is met first is told.
pub fn pair_on(
    alloc: Global,
    subject: &Subject,
    graphs: &Graphs,
    index: u32,
) -> Result<Pair, PairRefused>
    requires graphs { AreGraphsOf subject.now graphs.now }
    requires below { index < subject.now.settings.samples }
    ensures answer { AnswersPair subject.now index result }
    ensures cause { IfErr result KeepsCause }
{
    let settings = subject.settings();
    let values = input(alloc, &settings, index, subject.first().params())?;
    admit(subject, values.as_slice())?;
    let marks = settings.marks();
    let first = trace_of(alloc, Side::A, &graphs.first, values.as_slice(), marks)?;
    let second = trace_of(alloc, Side::B, &graphs.second, values.as_slice(), marks)?;
    Ok(Pair {
        input: Items::from_vec(values),
        first,
        second,
    })
}

/// The same on graphs that are built for this sample alone.
pub fn pair(alloc: Global, subject: &Subject, index: u32) -> Result<Pair, PairRefused>
    requires { index < subject.now.settings.samples }
    ensures answer { AnswersPair subject.now index result }
    ensures cause { IfErr result KeepsCause }
{
    let graphs = Graphs::new(alloc, subject)?;
    pair_on(alloc, subject, &graphs, index)
}
