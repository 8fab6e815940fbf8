//! The cases in which a condition on the inputs holds.
ghost use Rattle.std.specs.Prelude.{◌≡◌, ◌<◌, ◌≤◌, ◌^◌, ◌↔◌, List, ℤ, length, map, reverse, []};
ghost use Rattle.std.specs.Prelude.{Ok, IfOk, IfErr};
ghost use Rattle.c_ast.specs.Condition.{Meets};
ghost use Rattle.c_ast.specs.Value.{CanEvaluate};
ghost use Rattle.c_ast.specs.View.{expression_of};
ghost use Rattle.sym_paths.specs.declared.task.Subject.TheVariants as subject;
ghost use Rattle.sym_paths.specs.Points.{SomeOf};
ghost use Rattle.sym_paths.specs.Cases.{room_for};
ghost use Rattle.sym_paths.specs.Condition.{rows_alone, condition_cases, HoldAt};
ghost use Rattle.sym_paths.specs.Arrivals.{graph_of};
ghost use Rattle.sym_paths.specs.Waiting.{IsLimit, CanGoOn, searched_from};

use crate::PathLimit;
use crate::case::Case;
use crate::entries::one;
use crate::limit::MOST_UNKNOWNS;
use crate::node::evaluating;
use crate::search::{Waiting, search, wait};
use crate::start::variables;
use crate::task::{Goal, Subject};
use c_ast::Expr;
use lin_terms::Row;
use sqlite_items::Items;
use std::alloc::{AllocError, Global};

/// The move with which the walk of the condition begins.
fn begun<'a>(
    alloc: Global,
    room: usize,
    condition: &'a Expr,
    arity: u32,
) -> Result<Vec<Waiting<'a>>, AllocError>
    requires condition { CanEvaluate arity (expression_of condition.now) }
    requires room { room ≡ room_for arity }
    requires few { room < 2 ^ 32 }
    ensures can { IfOk result (λ work.
        CanGoOn room (graph_of (subject.Condition arity)) [] (reverse work.items) []) }
    ensures same { IfOk result (λ work.
        rows_alone (searched_from room (graph_of (subject.Condition arity)) []
        (reverse work.items) []) ≡ condition_cases arity (expression_of condition.now)) }
{
    let forms = variables(alloc, room, arity)?;
    let step = evaluating(alloc, condition, Goal::ToHold, forms, 0)?;
    let moves = one(alloc, step, arity)?;
    let mut work = Vec::new(alloc);
    wait(&mut work, 0, moves)?;
    Ok(work)
}

/// The rows of each case.
fn rows_of(alloc: Global, cases: Vec<Case>) -> Result<Vec<Items<Row>>, AllocError>
    ensures { IfOk result (λ found. found.items ≡ map (λ case. case.rows) cases.items) }
{
    let mut found = Vec::new(alloc);
    for case in cases {
        found.push(case.rows)?;
    }
    Ok(found)
}

/// The cases in which a condition over so many parameters holds, in the order of the walk: each is
/// a list of rows of one length, with a column for each parameter, then one for each unknown. The
/// inputs meet the condition exactly where the rows of some case hold, with whole numbers for its
/// unknowns. The limit is the first that the walk meets; that there is a 1,025th case is one.
///
/// Example: `a != 0 && b == 2` over a and b holds where `-a - 1 >= 0` and `b - 2 = 0`, and where
/// `a - 1 >= 0` and `b - 2 = 0`.
pub fn condition_cases(
    alloc: Global,
    condition: &Expr,
    arity: u32,
) -> Result<Vec<Items<Row>>, PathLimit>
    requires condition { CanEvaluate arity (expression_of condition.now) }
    requires few { arity ≤ 64 }
    ensures cases { IfOk result (λ cases.
        condition_cases arity (expression_of condition.now) ≡ Ok cases.items) }
    ensures limit { IfErr result (IsLimit (condition_cases arity (expression_of condition.now))) }
    ensures exact { IfOk result (λ cases. (inputs : List ℤ) → length inputs ≡ arity
        → Meets (expression_of condition.now) inputs ↔ SomeOf (HoldAt inputs) cases.items) }
{
    let room = arity as usize + MOST_UNKNOWNS;
    let work = begun(alloc, room, condition, arity)?;
    match search(alloc, room, Subject::Condition(arity), work) {
        Err(limit) => Err(limit),
        Ok(cases) => {
            let found = rows_of(alloc, cases)?;
            Ok(found)
        }
    }
}
