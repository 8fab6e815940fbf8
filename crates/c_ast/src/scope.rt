//! The variables in scope at a place (ISO C11, 6.2.1).
ghost use Rattle.std.specs.Prelude.{◌≡◌, ◌==◌, ◌++◌, length, slice_index_or, pos, IfOk};
ghost use Rattle.c_ast.specs.View.{put_in_front, statements_of};
ghost use Rattle.c_ast.specs.Step.{is_in, first_variables, spread};
ghost use Rattle.c_ast.specs.Formed.{is_mark};
ghost use Rattle.c_ast.specs.Scope.{none_before, set_before, SetsBefore};

use crate::{Func, Place, Stmt};
use sqlite_items::Items;
use std::alloc::{AllocError, Global};

fn is_mark(own: &Option<u32>, mark: u32) -> bool
    ensures { result ≡ is_mark own.now mark }
{
    match own {
        None => false,
        Some(own) => *own == mark,
    }
}

/// Nothing is set in front of a mark that stands here.
fn none_before(alloc: Global, stands: bool) -> Option<Items<u32>>
    ensures { result ≡ none_before stands }
{
    if stands {
        Some(Items::new(alloc))
    } else {
        None
    }
}

/// The variables that are set around the mark and in front of it, the newest first, where it stands
/// in the statements.
#[cycle(before)]
fn set_before(alloc: Global, stmts: &[Stmt], mark: u32) -> Result<Option<Items<u32>>, AllocError>
    ensures { IfOk result (λ found. found ≡ set_before mark (statements_of stmts.now)) }
{
    let mut found = None;
    let mut i = stmts.len();
    while i > 0 {
        i -= 1;
        found = set_at(alloc, &stmts[i], mark, found)?;
    }
    Ok(found)
}

/// The same of a statement and what stands behind it in its list.
#[cycle(before)]
fn set_at(
    alloc: Global,
    stmt: &Stmt,
    mark: u32,
    behind: Option<Items<u32>>,
) -> Result<Option<Items<u32>>, AllocError>
    ensures { IfOk result (λ found. SetsBefore mark (put_in_front stmt.now) behind found) }
{
    match stmt {
        Stmt::Set(x, _) => match behind {
            Some(mut found) => {
                found.push(*x)?;
                Ok(Some(found))
            }
            None => Ok(None),
        },
        Stmt::If(_, a, b) => {
            let first = set_before(alloc, a.as_slice(), mark)?;
            let second = set_before(alloc, b.as_slice(), mark)?;
            Ok(first.or(second.or(behind)))
        }
        Stmt::Loop {
            mark: own,
            body,
            step,
            ..
        } => {
            let at = none_before(alloc, is_mark(own, mark));
            let first = set_before(alloc, body.as_slice(), mark)?;
            let second = set_before(alloc, step.as_slice(), mark)?;
            Ok(at.or(first.or(second.or(behind))))
        }
        Stmt::Break => Ok(behind),
        Stmt::Continue => Ok(behind),
        Stmt::Return(_) => Ok(behind),
        Stmt::Mark(own) => {
            let at = none_before(alloc, *own == mark);
            Ok(at.or(behind))
        }
        Stmt::Block(a) => {
            let first = set_before(alloc, a.as_slice(), mark)?;
            Ok(first.or(behind))
        }
    }
}

fn is_in(scope: &[u32], x: u32) -> bool
    ensures { result ≡ is_in scope.now x }
{
    for y in scope {
        if *y == x {
            return true;
        }
    }
    false
}

impl Func {
    ghost use Rattle.c_ast.specs.Function.{IsFunction, program_of};
    ghost use Rattle.c_ast.specs.Scope.{IsPlace, IsSetBefore, AreInScope};

    /// What is set in front of the place: at the entry nothing.
    fn set_before_place(&self, alloc: Global, place: Place) -> Result<Items<u32>, AllocError>
        requires { IsPlace (program_of self.now) place }
        ensures found { IfOk result (λ found. IsSetBefore (program_of self.now) place found) }
        ensures formed { IsFunction self.now }
    {
        let body = self.body();
        match place {
            Place::Mark(mark) => {
                let found = set_before(alloc, body, mark)?;
                Ok(found.unwrap())
            }
            Place::Entry | Place::Exit => Ok(Items::new(alloc)),
        }
    }

    /// Whether the variable is a parameter or one of these.
    fn has(&self, before: &[u32], x: u32) -> bool
        ensures { result ≡ is_in (before.now ++ first_variables self.now.params) x }
    {
        is_in(before, x) || x < self.params()
    }

    /// The variables in scope at a place, by rising number. The place is the entry or one of the
    /// function's marks.
    pub fn scope(&self, alloc: Global, place: Place) -> Result<Vec<u32>, AllocError>
        requires { IsPlace (program_of self.now) place }
        ensures { IfOk result
            (λ variables. AreInScope (program_of self.now) place variables.items) }
    {
        let before = self.set_before_place(alloc, place)?;
        let mut variables = Vec::new(alloc);
        for x in 0..self.vars().len() as u32 {
            if self.has(before.as_slice(), x) {
                variables.push(x)?;
            }
        }
        Ok(variables)
    }
}

fn input_at(inputs: &[i128], x: usize) -> i128
    ensures { result ≡ slice_index_or inputs.now x (pos 0) }
{
    if x < inputs.len() { inputs[x] } else { 0 }
}

/// The values of all variables as a run begins: the inputs, and 0 for all that are no parameters.
pub fn first_environment(
    alloc: Global,
    vars: usize,
    inputs: &[i128],
) -> Result<Vec<i128>, AllocError>
    ensures { IfOk result
        (λ values. values.items ≡ spread (first_variables (length inputs.now)) vars inputs.now) }
{
    let mut values = Vec::new(alloc);
    for x in 0..vars {
        values.push(input_at(inputs, x))?;
    }
    Ok(values)
}
