//! Runs of texts by the interpreter, each compared with the run on the function's graph, and what
//! can be asked of functions.
ghost use Rattle.std.specs.Prelude.{◌≡◌, length, All, IsTrue};
ghost use Rattle.c_ast.specs.FitsRun.{FitsRun};

use super::sampled::subject;
use super::{SKIPPING, TWICE};
use c_ast::{Func, Outcome, Place, Subject, Trace};
use c_run::interpret;
use c_source::read_function;
use flow_graph::{Graph, build};
use graph_run::{Skip, run};
use std::alloc::{AllocError, Global};
use std::test::Fail;

/// How many steps the interpreter takes at most. A function here that takes more passes more than
/// `FEW_MARKS` marks with them.
const STEPS: u32 = 5_000;

const FEW_MARKS: u32 = 20;

/// The events of a trace, each a mark, a colon and the values there, and then the result.
fn shown(alloc: Global, trace: &Trace) -> Result<String, AllocError> {
    let mut out = String::new(alloc);
    for event in trace.events.as_slice() {
        write!(out, "{}:", event.mark)?;
        for value in event.values.as_slice() {
            write!(out, "{value},")?;
        }
        out.push(' ')?;
    }
    write!(out, "{}", trace.result)?;
    Ok(out)
}

/// Whether the run on the graph, which may pass so many marks, comes to this.
fn comes_to(
    alloc: Global,
    graph: &Graph,
    inputs: &[i128],
    marks: u32,
    want: &str,
) -> Result<bool, AllocError>
    requires arity { length inputs.now ≡ graph.now.params }
    requires fits { All FitsRun inputs.now }
{
    match run(alloc, graph, inputs, marks) {
        Ok(trace) => Ok(shown(alloc, &trace)?.as_str() == want),
        Err(Skip::NotEnded) => Ok(want == "not ended"),
        Err(Skip::Wide) => Ok(want == "wide"),
        Err(Skip::Unmet) => Ok(false),
        Err(Skip::Memory) => Err(AllocError),
    }
}

/// Whether the run on the graph has this trace where it may pass as many marks as the trace has,
/// and does not end where it may pass one fewer.
fn has_trace(
    alloc: Global,
    graph: &Graph,
    inputs: &[i128],
    trace: &Trace,
) -> Result<bool, AllocError>
    requires arity { length inputs.now ≡ graph.now.params }
    requires fits { All FitsRun inputs.now }
{
    let marks = u32::try_from(trace.events.len()).unwrap_or(u32::MAX);
    if marks > 0 && !comes_to(alloc, graph, inputs, marks - 1, "not ended")? {
        return Ok(false);
    }
    comes_to(alloc, graph, inputs, marks, shown(alloc, trace)?.as_str())
}

/// Whether the run on the graph comes to what the interpreter came to.
fn agrees(
    alloc: Global,
    graph: &Graph,
    inputs: &[i128],
    outcome: &Outcome,
) -> Result<bool, AllocError>
    requires arity { length inputs.now ≡ graph.now.params }
    requires fits { All FitsRun inputs.now }
{
    match outcome {
        Outcome::Returned(trace) => has_trace(alloc, graph, inputs, trace),
        Outcome::Wide => comes_to(alloc, graph, inputs, STEPS, "wide"),
        Outcome::CutOff => comes_to(alloc, graph, inputs, FEW_MARKS, "not ended"),
    }
}

fn fit_run(values: &[i128]) -> bool
    ensures { IsTrue result → All FitsRun values.now }
{
    values.iter().all(|value| value.unsigned_abs() < 1 << 100)
}

/// What the interpreter comes to on these inputs; `None` where the run on the graph comes to
/// something else.
pub(super) fn both_ways(
    alloc: Global,
    func: &Func,
    inputs: &[i128],
) -> Result<Option<Outcome>, Fail> {
    if func.params() as usize != inputs.len() || !fit_run(inputs) {
        return Err("other inputs".into());
    }
    let outcome = interpret(alloc, func, inputs, STEPS)?;
    let graph = build(alloc, func)?;
    if agrees(alloc, &graph, inputs, &outcome)? {
        Ok(Some(outcome))
    } else {
        Ok(None)
    }
}

/// The text's function.
pub(super) fn function(alloc: Global, text: &str) -> Result<Func, Fail> {
    if text.len() > 65536 {
        return Err("a long text".into());
    }
    match read_function(alloc, text.as_bytes()) {
        Ok(func) => Ok(func),
        Err(_) => Err("not read".into()),
    }
}

/// The trace of a run, or why it has none.
fn told(alloc: Global, ran: &Option<Outcome>) -> Result<String, AllocError> {
    match ran {
        Some(Outcome::Returned(trace)) => shown(alloc, trace),
        Some(Outcome::Wide) => String::from_str(alloc, "wide"),
        Some(Outcome::CutOff) => String::from_str(alloc, "cut off"),
        None => String::from_str(alloc, "another on the graph"),
    }
}

/// What comes of a run of the text's function.
fn ran(alloc: Global, text: &str, input: i128) -> Result<String, Fail> {
    let func = function(alloc, text)?;
    Ok(told(alloc, &both_ways(alloc, &func, &[input])?)?)
}

const SUM: &str =
    "int f(int n){int i=0; int s=0; while(__mark(42) & (i<n)){s=s+i; i=i+1;} return s;}";

/// A text, the value of its parameter, and what a run passes and returns.
const TRACES: [(&str, i128, &str); 11] = [
    (SUM, 2, "42:2,0,0, 42:2,1,0, 42:2,2,1, 1"),
    ("int f(int a){return a*a*a*a;}", 33_554_432, "wide"),
    // A `continue` in a `for` goes on with its third part.
    (
        SKIPPING,
        5,
        "7:5,0,0, 7:5,0,1, 7:5,1,2, 7:5,3,3, 7:5,3,4, 7:5,7,5, 7",
    ),
    // A loop without a mark has one of its own; the body of a `do` runs before its condition.
    (
        "int f(int n){int i=0; do i++; while(i<n); return i;}",
        2,
        "1000000:2,1, 1000000:2,2, 2",
    ),
    (
        "int f(int n){int i=1; while(i<n) i++; return i;}",
        -3,
        "1000000:-3,1, 1",
    ),
    // Such a mark has the loop's number among all loops, in the order of the source.
    (
        "int f(int n){while(n>2) n--; while(__mark(7) & (n>1)) n--; do n--; while(n>0); return n;}",
        3,
        "1000000:3, 1000000:2, 7:2, 7:1, 1000002:0, 0",
    ),
    (
        "int f(int n){for(;n>0;n--) for(int i=0;i<1;i++); while(n<0) n++; return n;}",
        1,
        "1000000:1, 1000001:1,0, 1000001:1,1, 1000000:0, 1000002:0, 0",
    ),
    // The body of a `for` is a scope within that of its first part.
    (
        "int f(int a){for(int i=0;i<2;i++){int i=5; a=a+i;} return a;}",
        1,
        "1000000:1,0, 1000000:6,1, 1000000:11,2, 11",
    ),
    // A variable is 0 each time that its declaration is reached.
    (
        "int f(int n){int s=0; while(n>0){int t; t=t+1; s=s+t; n--;} return s;}",
        3,
        "1000000:3,0, 1000000:2,1, 1000000:1,2, 1000000:0,3, 3",
    ),
    // A function that is left without a `return` returns 0.
    ("int f(int a){a=7;}", 1, "0"),
    (
        "int f(int n){while(n){__mark(3); if(n>2) break; n--;} return n;}",
        2,
        "3:2, 3:1, 0",
    ),
];

#[test]
fn functions_run_as_in_c(rt: HostRuntime) -> Result<(), Fail> {
    for (text, input, want) in TRACES.as_slice() {
        assert_eq!(rt; ran(rt.alloc(), text, *input)?.as_str(), *want, "{text}");
    }
    Ok(())
}

fn has_equal_name(func: &Func) -> Result<bool, AllocError> {
    let name = func.name().copy()?;
    Ok(name.text() == "f" && name.same(func.name()))
}

fn has_equal_copy(alloc: Global, func: &Func) -> Result<bool, AllocError> {
    let copy = func.copy(alloc)?;
    Ok(copy.same(func))
}

fn has_parameter_in_scope(alloc: Global, func: &Func) -> Result<bool, AllocError> {
    let scope = func.scope(alloc, Place::Entry)?;
    Ok(scope.as_slice() == [0].as_slice())
}

fn is_equal_to_copy(alloc: Global, subject: &Subject) -> Result<bool, AllocError> {
    let copy = subject.copy(alloc)?;
    Ok(copy.same(subject))
}

fn are_equal_to_copies(alloc: Global, subject: &Subject) -> Result<bool, AllocError> {
    let first = subject.first();
    Ok(
        has_equal_name(first)?
            && has_equal_copy(alloc, first)?
            && has_parameter_in_scope(alloc, first)?
            && is_equal_to_copy(alloc, subject)?
            && !first.same(subject.second()),
    )
}

fn texts_are_equal_to_copies(alloc: Global, first: &str, second: &str) -> Result<bool, Fail> {
    let subject = subject(alloc, first, second)?;
    Ok(are_equal_to_copies(alloc, &subject)?)
}

#[test]
fn copies_are_equal(rt: HostRuntime) -> Result<(), Fail> {
    assert!(rt; texts_are_equal_to_copies(rt.alloc(), SUM, TWICE)?);
    Ok(())
}

/// The number of the function's statements, and the variables in scope at each mark that a run
/// passes, each mark before a colon.
fn scopes(alloc: Global, func: &Func, inputs: &[i128]) -> Result<String, AllocError>
    requires { length inputs.now ≡ func.now.params }
{
    let mut text = format!(in alloc; "{} statements ", func.body().len())?;
    if let Outcome::Returned(trace) = interpret(alloc, func, inputs, 2_000)? {
        for event in trace.events.as_slice() {
            let scope = func.scope(alloc, Place::Mark(event.mark))?;
            let variables = format!(in alloc; "{}:{:?} ", event.mark, scope.as_slice())?;
            text.push_str(variables.as_str())?;
        }
    }
    Ok(text)
}

fn scopes_of(alloc: Global, text: &str) -> Result<String, Fail> {
    let func = function(alloc, text)?;
    if func.params() != 1 {
        return Err("other parameters".into());
    }
    Ok(scopes(alloc, &func, &[1])?)
}

/// A text, and its statements and scopes.
const SCOPES: [(&str, &str); 2] = [
    // Two declarations have a statement for each variable and one for each value.
    (SUM, "6 statements 42:[0, 1, 2] 42:[0, 1, 2] "),
    (
        "int f(int a){{int b; __mark(1); int c; __mark(2);} __mark(3); do {int d; __mark(4);} \
        while(__mark(5) & 0); return a;}",
        "4 statements 1:[0, 1] 2:[0, 1, 2] 3:[0] 4:[0, 3] 5:[0] ",
    ),
];

#[test]
fn marks_have_their_scopes(rt: HostRuntime) -> Result<(), Fail> {
    for (text, want) in SCOPES.as_slice() {
        assert_eq!(rt; scopes_of(rt.alloc(), text)?.as_str(), *want, "{text}");
    }
    Ok(())
}
