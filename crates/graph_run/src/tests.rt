//! Runs that were worked out by hand, from the meaning of C's statements and operators.
ghost use Rattle.std.specs.Prelude.{◌≡◌, length, pos, IfOk, Some, true};
ghost use Rattle.c_ast.specs.declared.expr.BinOp.TheVariants.{Add};
ghost use Rattle.c_ast.specs.Tree as tree;
ghost use Rattle.c_ast.specs.FitsRun.{fits_run};
ghost use Rattle.c_ast.specs.View.{expression_of, statements_of};
ghost use Rattle.c_ast.specs.Function.{program_of};
ghost use Rattle.c_ast.specs.Step.{first_variables};
ghost use Rattle.c_ast.specs.Formed.{IsOver};
ghost use Rattle.c_ast.specs.Sums.{sums};

use crate::{Skip, run};
use c_ast::{BinOp, Expr, Func, Name, Place, Stmt, Trace, UnOp, Var};
use flow_graph::{Graph, build};
use sqlite_items::{Boxed, Items};
use std::alloc::{AllocError, Global};
use std::test::Fail;

/// 2^99, the half of the least wide value.
const HALF: i128 = 633_825_300_114_114_700_748_351_602_688;

fn num(value: i64) -> Expr
    ensures { expression_of result ≡ tree.Num value }
{
    Expr::Num(value)
}

fn var(x: u32) -> Expr
    ensures { expression_of result ≡ tree.Var x }
{
    Expr::Var(x)
}

fn bin(alloc: Global, left: Expr, op: BinOp, right: Expr) -> Result<Expr, AllocError>
    ensures { IfOk result (λ made. expression_of made
        ≡ tree.Bin op (expression_of left) (expression_of right)) }
{
    let left = Boxed::new(alloc, left)?;
    let right = Boxed::new(alloc, right)?;
    Ok(Expr::Bin(op, left, right))
}

fn name(alloc: Global, text: &str) -> Result<Name, AllocError> {
    Ok(Name::new(String::from_str(alloc, text)?))
}

/// The variables, all declared in the first line.
fn variables(alloc: Global) -> Result<Vec<Var>, AllocError>
    ensures { IfOk result (λ vars. length vars.items ≡ 3) }
{
    let mut vars = Vec::new(alloc);
    vars.push(Var {
        name: name(alloc, "n")?,
        line: 1,
    })?;
    vars.push(Var {
        name: name(alloc, "i")?,
        line: 1,
    })?;
    vars.push(Var {
        name: name(alloc, "s")?,
        line: 1,
    })?;
    Ok(vars)
}

/// s = s + i; i = i + 1;
fn turn(alloc: Global) -> Result<Items<Stmt>, AllocError>
    ensures { IfOk result (λ stmts. statements_of stmts
        ≡ tree.Set 2 (tree.Bin Add (tree.Var 2) (tree.Var 1))
        (tree.Set 1 (tree.Bin Add (tree.Var 1) (tree.Num (pos 1))) tree.Nil)) }
{
    let mut stmts = Items::new(alloc);
    stmts.push(Stmt::Set(2, bin(alloc, var(2), BinOp::Add, var(1))?))?;
    stmts.push(Stmt::Set(1, bin(alloc, var(1), BinOp::Add, num(1))?))?;
    Ok(stmts)
}

/// The statements of the sum.
fn body(alloc: Global) -> Result<Vec<Stmt>, AllocError>
    ensures { IfOk result (λ stmts. statements_of stmts.items ≡ sums.body) }
{
    let cond = bin(alloc, var(1), BinOp::Less, var(0))?;
    let turn = turn(alloc)?;
    let mut stmts = Vec::new(alloc);
    stmts.push(Stmt::Set(1, num(0)))?;
    stmts.push(Stmt::Set(2, num(0)))?;
    stmts.push(Stmt::Loop {
        mark: Some(42),
        cond,
        body: turn,
        step: Items::new(alloc),
        test_first: true,
    })?;
    stmts.push(Stmt::Return(var(2)))?;
    Ok(stmts)
}

/// int f(int n) {
///     int i = 0; int s = 0;
///     while (__mark(42) & (i < n)) { s = s + i; i = i + 1; }
///     return s;
/// }
fn sum(alloc: Global) -> Result<Func, AllocError>
    ensures { IfOk result (λ func. program_of func ≡ sums) }
{
    let vars = variables(alloc)?;
    let body = body(alloc)?;
    Ok(Func::new(name(alloc, "f")?, 1, vars, body))
}

/// int f(int a) { return value; }
fn returning(alloc: Global, value: Expr) -> Result<Func, AllocError>
    requires { IsOver (first_variables 1) (expression_of value) }
    ensures { IfOk result (λ func. (program_of func).params ≡ 1) }
{
    let mut vars = Vec::new(alloc);
    vars.push(Var {
        name: name(alloc, "a")?,
        line: 1,
    })?;
    let mut body = Vec::new(alloc);
    body.push(Stmt::Return(value))?;
    Ok(Func::new(name(alloc, "f")?, 1, vars, body))
}

/// What a function of the parameter `a` returns.
#[derive(Clone, Copy, Debug)]
enum Formula {
    /// a + a
    Double,
    /// a / -3, whose checked tree is -(a / 3)
    Third,
    /// a % 3, and the checked tree of a % -3
    Rest,
    /// a % 7
    RestOfSeven,
}

fn value(alloc: Global, which: Formula) -> Result<Expr, AllocError>
    ensures { IfOk result (λ made. IsOver (first_variables 1) (expression_of made)) }
{
    match which {
        Formula::Double => bin(alloc, var(0), BinOp::Add, var(0)),
        Formula::Third => {
            let third = bin(alloc, var(0), BinOp::Div, num(3))?;
            Ok(Expr::Un(UnOp::Minus, Boxed::new(alloc, third)?))
        }
        Formula::Rest => bin(alloc, var(0), BinOp::Rem, num(3)),
        Formula::RestOfSeven => bin(alloc, var(0), BinOp::Rem, num(7)),
    }
}

/// The events of a trace and its result, or why there is none.
fn shown(alloc: Global, answer: &Result<Trace, Skip>) -> Result<String, AllocError> {
    let mut out = String::new(alloc);
    match answer {
        Ok(trace) => {
            for event in trace.events.as_slice() {
                write!(out, "{}:", event.mark)?;
                for value in event.values.as_slice() {
                    write!(out, " {value}")?;
                }
                out.push_str("; ")?;
            }
            write!(out, "{}", trace.result)?;
        }
        Err(skip) => write!(out, "{skip:?}")?,
    }
    Ok(out)
}

/// The graph of a function of one parameter.
fn graph_of(alloc: Global, func: &Func) -> Result<Graph, AllocError>
    requires { (program_of func.now).params ≡ 1 }
    ensures { IfOk result (λ graph. graph.params ≡ 1) }
{
    let graph = build(alloc, func)?;
    Ok(graph)
}

/// What comes of a run of the sum.
fn run_sum(alloc: Global, input: i128, marks: u32) -> Result<String, AllocError>
    requires { fits_run input ≡ true }
{
    let graph = graph_of(alloc, &sum(alloc)?)?;
    shown(alloc, &run(alloc, &graph, &[input], marks))
}

/// What comes of a run of a function that returns the value.
fn run_value(alloc: Global, which: Formula, input: i128) -> Result<String, AllocError>
    requires { fits_run input ≡ true }
{
    let func = returning(alloc, value(alloc, which)?)?;
    let graph = graph_of(alloc, &func)?;
    shown(alloc, &run(alloc, &graph, &[input], 0))
}

/// The places of the sum's graph, each with the variables in scope there.
fn places_of_sum(alloc: Global) -> Result<String, AllocError> {
    let graph = graph_of(alloc, &sum(alloc)?)?;
    places(alloc, &graph)
}

/// The places of a graph, each with the variables in scope there.
fn places(alloc: Global, graph: &Graph) -> Result<String, AllocError> {
    let mut out = String::new(alloc);
    for place in &graph.places(alloc)? {
        write!(out, "{place:?}")?;
        for x in &graph.vars_at(alloc, *place)? {
            write!(out, " {x}")?;
        }
        out.push_str("; ")?;
    }
    Ok(out)
}

#[test]
fn places_list_the_variables_in_scope(rt: HostRuntime) -> Result<(), Fail> {
    let got = places_of_sum(rt.alloc())?;
    assert_eq!(rt; got.as_str(), "Entry 0; Mark(42) 0 1 2; Exit; ");
    Ok(())
}

#[test]
fn a_run_passes_its_marks(rt: HostRuntime) -> Result<(), Fail> {
    let got = run_sum(rt.alloc(), 2, 3)?;
    assert_eq!(rt; got.as_str(), "42: 2 0 0; 42: 2 1 0; 42: 2 2 1; 1");
    let got = run_sum(rt.alloc(), 2, 2)?;
    assert_eq!(rt; got.as_str(), "NotEnded");
    Ok(())
}

#[test]
fn values_are_those_of_c(rt: HostRuntime) -> Result<(), Fail> {
    let rows = [
        (Formula::Double, HALF - 1, "1267650600228229401496703205374"),
        (Formula::Double, HALF, "Wide"),
        (Formula::Third, 7, "-2"),
        (Formula::Rest, 7, "1"),
        (Formula::Rest, -1, "-1"),
        // What the remainder is taken from is 2^100 - 1.
        (Formula::RestOfSeven, HALF - 1 + HALF, "1"),
    ];
    for (which, input, want) in rows {
        let got = run_value(rt.alloc(), which, input)?;
        assert_eq!(rt; got.as_str(), want, "{which:?} {input}");
    }
    Ok(())
}
