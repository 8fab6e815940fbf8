//! The variables in scope at each mark (ISO C11, 6.2.1), noted in one walk over the function.
//!
//! The walk goes in the order of the source and has the variables in scope as a list. Each list of
//! statements begins with a copy of it, so that what is declared there is out of scope behind it.
ghost use Rattle.std.specs.Prelude.{◌≡◌, ◌≤◌, nat_lt, length, IfOk, OnOk};
ghost use Rattle.std.specs.List.{prefix_len};
ghost use Rattle.c_ast.specs.Function.{program_of};
ghost use Rattle.c_ast.specs.View.{put_in_front, statements_of};
ghost use Rattle.flow_graph.specs.Scopes.{with_declared, with_own, noted, Notes, AreScopes};

use c_ast::{Func, Place, Stmt};
use sqlite_items::Items;
use std::alloc::{AllocError, Global};
use std::collections::BTreeMap;

/// How many variables at the front are less.
fn place_of(in_scope: &[u32], x: u32) -> usize
    ensures place { result ≡ prefix_len (λ y. nat_lt y x) in_scope.now }
    ensures within { result ≤ length in_scope.now }
{
    in_scope.iter().take_while(|y| **y < x).count()
}

/// The variable is in scope from here on.
fn declare(in_scope: &mut Vec<u32>, x: u32) -> Result<(), AllocError>
    ensures { OnOk result (in_scope.new.items ≡ with_declared x in_scope.old.items) }
{
    let place = place_of(in_scope.as_slice(), x);
    if place == in_scope.len() || in_scope[place] != x {
        in_scope.insert(place, x)?;
    }
    Ok(())
}

/// Notes the variables in scope at the mark, where there is one.
fn note_mark(
    alloc: Global,
    scopes: &mut BTreeMap<u32, Items<u32>>,
    mark: Option<u32>,
    in_scope: &[u32],
) -> Result<(), AllocError>
    ensures { OnOk result (scopes.new.entries ≡ with_own mark in_scope.now scopes.old.entries) }
{
    if let Some(mark) = mark {
        let scope = Items::from_slice(alloc, in_scope)?;
        scopes.insert(mark, scope)?;
    }
    Ok(())
}

/// Notes the marks of the statements, which stand where the variables `outer` are in scope.
#[cycle(noting)]
fn note(
    alloc: Global,
    scopes: &mut BTreeMap<u32, Items<u32>>,
    stmts: &[Stmt],
    outer: &[u32],
) -> Result<(), AllocError>
    ensures { OnOk result (scopes.new.entries
        ≡ noted (statements_of stmts.now) outer.now scopes.old.entries) }
{
    let mut in_scope = Vec::from_slice(alloc, outer)?;
    for stmt in stmts {
        note_one(alloc, scopes, stmt, &mut in_scope)?;
    }
    Ok(())
}

/// The same of one statement. Afterwards `in_scope` has the variable that it sets.
#[cycle(noting)]
fn note_one(
    alloc: Global,
    scopes: &mut BTreeMap<u32, Items<u32>>,
    stmt: &Stmt,
    in_scope: &mut Vec<u32>,
) -> Result<(), AllocError>
    ensures { OnOk result (Notes (put_in_front stmt.now) in_scope.old.items scopes.old.entries
        in_scope.new.items scopes.new.entries) }
{
    match stmt {
        Stmt::Set(x, _) => declare(in_scope, *x),
        Stmt::If(_, first, second) => {
            note(alloc, scopes, first.as_slice(), in_scope.as_slice())?;
            note(alloc, scopes, second.as_slice(), in_scope.as_slice())
        }
        Stmt::Loop {
            mark,
            body,
            step,
            ..
        } => {
            note_mark(alloc, scopes, *mark, in_scope.as_slice())?;
            note(alloc, scopes, body.as_slice(), in_scope.as_slice())?;
            note(alloc, scopes, step.as_slice(), in_scope.as_slice())
        }
        Stmt::Break | Stmt::Continue | Stmt::Return(_) => Ok(()),
        Stmt::Mark(mark) => note_mark(alloc, scopes, Some(*mark), in_scope.as_slice()),
        Stmt::Block(stmts) => note(alloc, scopes, stmts.as_slice(), in_scope.as_slice()),
    }
}

/// The variables in scope at each mark of the function, by rising number.
pub(crate) fn scopes_of(alloc: Global, func: &Func) -> Result<BTreeMap<u32, Items<u32>>, AllocError>
    ensures { IfOk result (λ scopes. AreScopes (program_of func.now) scopes.entries) }
{
    let mut scopes = BTreeMap::new(alloc);
    let parameters = func.scope(alloc, Place::Entry)?;
    note(alloc, &mut scopes, func.body(), parameters.as_slice())?;
    Ok(scopes)
}
