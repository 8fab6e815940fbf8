//! A graph that was worked out by hand, from the order in which statements are laid, and scopes
//! that are compared with those that the function tells.
ghost use Rattle.std.specs.Prelude.{◌≡◌, length, pos, IfOk, Some, None, true};
ghost use Rattle.c_ast.specs.declared.place.Place.TheVariants as place;
ghost use Rattle.c_ast.specs.Tree as tree;
ghost use Rattle.c_ast.specs.View.{expression_of, statements_of};
ghost use Rattle.c_ast.specs.Function.{program_of};
ghost use Rattle.flow_graph.specs.FlowGraph.{GoesOnAt};
ghost use Rattle.flow_graph.specs.Built.{IsGraphOf};

use crate::{Graph, build};
use c_ast::{Expr, Func, Name, Place, Stmt, Var};
use sqlite_items::Items;
use std::alloc::{AllocError, Global};
use std::test::Fail;

/// The nodes, the last one laid last: the end, `return i`, the loop's mark, the body's mark and
/// declaration, the loop's test, and the declaration in front of the loop.
const NODES: &str = "Return(Num(0)); Return(Var(1)); Mark { mark: 7, next: 5 }; \
    Mark { mark: 9, next: 2 }; Set { var: 2, value: Num(0), next: 3 }; \
    Branch { cond: Var(0), yes: 4, no: 1 }; Set { var: 1, value: Num(0), next: 2 }; ";

/// Each place, how many values a run has there, and the variables in scope.
const PLACES: &str = "Entry 1: 0; Mark(7) 2: 0 1; Mark(9) 3: 0 1 2; Exit 1:; ";

/// The same of the function whose statements are nested.
const NESTED: &str = "Entry 1: 0; Mark(4) 2: 0 2; Mark(5) 1: 0; Mark(7) 2: 0 2; Mark(9) 2: 0 1; \
    Exit 1:; ";

fn name(alloc: Global, text: &str) -> Result<Name, AllocError> {
    Ok(Name::new(String::from_str(alloc, text)?))
}

/// The variables, all declared in the first line.
fn variables(alloc: Global) -> Result<Vec<Var>, AllocError>
    ensures { IfOk result (λ vars. length vars.items ≡ 3) }
{
    let mut vars = Vec::new(alloc);
    vars.push(Var {
        name: name(alloc, "n")?,
        line: 1,
    })?;
    vars.push(Var {
        name: name(alloc, "i")?,
        line: 1,
    })?;
    vars.push(Var {
        name: name(alloc, "k")?,
        line: 1,
    })?;
    Ok(vars)
}

/// The constant 0.
fn zero() -> Expr
    ensures { expression_of result ≡ tree.Num (pos 0) }
{
    Expr::Num(0)
}

fn var(x: u32) -> Expr
    ensures { expression_of result ≡ tree.Var x }
{
    Expr::Var(x)
}

/// int k = 0; __mark(9);
fn turn(alloc: Global) -> Result<Items<Stmt>, AllocError>
    ensures { IfOk result (λ stmts. statements_of stmts
        ≡ tree.Set 2 (tree.Num (pos 0)) (tree.Mark 9 tree.Nil)) }
{
    let mut stmts = Items::new(alloc);
    stmts.push(Stmt::Set(2, zero()))?;
    stmts.push(Stmt::Mark(9))?;
    Ok(stmts)
}

/// The statements of the function.
fn body(alloc: Global) -> Result<Vec<Stmt>, AllocError>
    ensures { IfOk result (λ stmts. statements_of stmts.items
        ≡ tree.Set 1 (tree.Num (pos 0)) (tree.Loop (Some 7) (tree.Var 0)
        (tree.Set 2 (tree.Num (pos 0)) (tree.Mark 9 tree.Nil)) tree.Nil true
        (tree.Return (tree.Var 1) tree.Nil))) }
{
    let turn = turn(alloc)?;
    let mut stmts = Vec::new(alloc);
    stmts.push(Stmt::Set(1, zero()))?;
    stmts.push(Stmt::Loop {
        mark: Some(7),
        cond: var(0),
        body: turn,
        step: Items::new(alloc),
        test_first: true,
    })?;
    stmts.push(Stmt::Return(var(1)))?;
    Ok(stmts)
}

/// int f(int n) { int i = 0; while (__mark(7) & n) { int k = 0; __mark(9); } return i; }
fn worked(alloc: Global) -> Result<Func, AllocError> {
    let vars = variables(alloc)?;
    let body = body(alloc)?;
    Ok(Func::new(name(alloc, "f")?, 1, vars, body))
}

/// The nodes of a graph, by number.
fn nodes(alloc: Global, graph: &Graph) -> Result<String, AllocError> {
    let mut out = String::new(alloc);
    for n in 0..graph.len() {
        write!(out, "{:?}; ", graph.op(n))?;
    }
    Ok(out)
}

/// The places of a graph, each with its width and the variables in scope there.
fn places(alloc: Global, graph: &Graph) -> Result<String, AllocError> {
    let mut out = String::new(alloc);
    for place in &graph.places(alloc)? {
        write!(out, "{place:?} {}:", graph.width_at(*place))?;
        for x in &graph.vars_at(alloc, *place)? {
            write!(out, " {x}")?;
        }
        out.push_str("; ")?;
    }
    Ok(out)
}

/// { int i = 0; __mark(9); }
fn block(alloc: Global) -> Result<Items<Stmt>, AllocError>
    ensures { IfOk result (λ stmts. statements_of stmts
        ≡ tree.Set 1 (tree.Num (pos 0)) (tree.Mark 9 tree.Nil)) }
{
    let mut stmts = Items::new(alloc);
    stmts.push(Stmt::Set(1, zero()))?;
    stmts.push(Stmt::Mark(9))?;
    Ok(stmts)
}

/// int k = 0; while (__mark(7) & n) { __mark(4); }
fn branch(alloc: Global) -> Result<Items<Stmt>, AllocError>
    ensures { IfOk result (λ stmts. statements_of stmts ≡ tree.Set 2 (tree.Num (pos 0))
        (tree.Loop (Some 7) (tree.Var 0) (tree.Mark 4 tree.Nil) tree.Nil true tree.Nil)) }
{
    let mut turn = Items::new(alloc);
    turn.push(Stmt::Mark(4))?;
    let mut stmts = Items::new(alloc);
    stmts.push(Stmt::Set(2, zero()))?;
    stmts.push(Stmt::Loop {
        mark: Some(7),
        cond: var(0),
        body: turn,
        step: Items::new(alloc),
        test_first: true,
    })?;
    Ok(stmts)
}

/// int f(int n) { { int i = 0; __mark(9); } if (n) { int k = 0; while (..) .. } __mark(5); }
fn nested(alloc: Global) -> Result<Func, AllocError> {
    let vars = variables(alloc)?;
    let mut body = Vec::new(alloc);
    body.push(Stmt::Block(block(alloc)?))?;
    body.push(Stmt::If(var(0), branch(alloc)?, Items::new(alloc)))?;
    body.push(Stmt::Mark(5))?;
    Ok(Func::new(name(alloc, "f")?, 1, vars, body))
}

/// The variables in scope at a mark of the graph, as its function tells them.
fn told(alloc: Global, func: &Func, graph: &Graph, mark: u32) -> Result<Vec<u32>, AllocError>
    requires built { IsGraphOf (program_of func.now) graph.now }
    requires mark { GoesOnAt graph.now (place.Mark mark) }
{
    func.scope(alloc, Place::Mark(mark))
}

/// Whether the scopes at the graph's marks are those that the function tells.
fn has_told_scopes(alloc: Global, func: &Func, graph: &Graph) -> Result<bool, AllocError>
    requires { IsGraphOf (program_of func.now) graph.now }
{
    for place in &graph.places(alloc)? {
        if let Place::Mark(mark) = place {
            let told = told(alloc, func, graph, *mark)?;
            if graph.vars_at(alloc, *place)?.as_slice() != told.as_slice() {
                return Ok(false);
            }
        }
    }
    Ok(true)
}

#[test]
fn a_function_has_the_graph_that_was_worked_out(rt: HostRuntime) -> Result<(), Fail> {
    let graph = build(rt.alloc(), &worked(rt.alloc())?)?;
    assert_eq!(rt; nodes(rt.alloc(), &graph)?.as_str(), NODES);
    assert_eq!(rt; graph.after(Place::Entry), 6);
    assert_eq!(rt; places(rt.alloc(), &graph)?.as_str(), PLACES);
    Ok(())
}

#[test]
fn what_is_declared_in_a_list_is_out_of_scope_behind_it(rt: HostRuntime) -> Result<(), Fail> {
    let func = nested(rt.alloc())?;
    let graph = build(rt.alloc(), &func)?;
    assert_eq!(rt; places(rt.alloc(), &graph)?.as_str(), NESTED);
    assert!(rt; has_told_scopes(rt.alloc(), &func, &graph)?);
    Ok(())
}
