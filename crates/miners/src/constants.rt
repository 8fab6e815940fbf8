//! The constants of bounds: -1, 0, 1, and the ten least others that two functions have.
//!
//! Both bodies are walked from the last statement to the first. The ten least constants so far are
//! kept in a rising list.
ghost use Rattle.std.specs.Prelude.{◌≡◌, ◌≤◌, length, take, insert, int_lt, IfOk, IfSome, OnOk, MatchOption, ◌∷◌, []};
ghost use Rattle.c_ast.specs.Function.{program_of};
ghost use Rattle.c_ast.specs.View.{expression_of, put_in_front, statements_of};
ghost use Rattle.miners.specs.Constants.{bound_constants, constants_of, constants_in, is_further, with_constant};
ghost use Rattle.miners.specs.Constants.{KeepsLeast, KeepsLeastBefore};

use c_ast::{Expr, Func, Stmt};
use lin_terms::fits_form;
use sqlite_items::Items;
use std::alloc::{AllocError, Global};

/// How many constants are kept beside -1, 0 and 1.
const KEPT: usize = 10;

fn is_less(first: &i64, second: &i64) -> bool
    ensures { result ≡ int_lt first.now second.now }
{
    *first < *second
}

/// Whether the constant is above 1, and below 2^50.
fn is_further(constant: &i64) -> bool
    ensures { result ≡ is_further constant.now }
{
    *constant > 1 && fits_form(i128::from(*constant))
}

/// Where the constant is to be put into the rising list, if it is not there.
fn place_for(kept: &[i64], constant: &i64) -> Option<usize>
    ensures within { IfSome result (λ i. i ≤ length kept.now) }
    ensures place { MatchOption result (with_constant constant.now kept.now ≡ kept.now)
        (λ i. with_constant constant.now kept.now ≡ insert kept.now i constant.now) }
{
    let mut i = 0;
    while i < kept.len() && is_less(&kept[i], constant) {
        i += 1;
    }
    if i < kept.len() && !is_less(constant, &kept[i]) {
        return None;
    }
    Some(i)
}

/// Puts a constant into the list.
fn put(kept: &mut Vec<i64>, constant: &i64) -> Result<(), AllocError>
    ensures { OnOk result
        (kept.new.items ≡ take 10 (with_constant constant.now kept.old.items)) }
{
    if let Some(i) = place_for(kept.as_slice(), constant) {
        kept.insert(i, *constant)?;
    }
    kept.truncate(KEPT);
    Ok(())
}

/// Keeps the least of a constant and of those had.
fn keep(kept: &mut Vec<i64>, constant: &i64) -> Result<(), AllocError>
    ensures { OnOk result (KeepsLeast (constant.now ∷ []) kept.old.items kept.new.items) }
{
    if is_further(constant) {
        put(kept, constant)?;
    }
    Ok(())
}

/// Keeps the least of an expression's constants and of those had.
fn keep_expr(kept: &mut Vec<i64>, expr: &Expr) -> Result<(), AllocError>
    ensures { OnOk result
        (KeepsLeast (constants_of (expression_of expr.now)) kept.old.items kept.new.items) }
{
    match expr {
        Expr::Num(constant) => keep(kept, constant),
        Expr::Var(_) => Ok(()),
        Expr::Un(_, operand) => keep_expr(kept, operand.get()),
        Expr::Bin(_, left, right) => {
            keep_expr(kept, right.get())?;
            keep_expr(kept, left.get())
        }
        Expr::Cond(test, first, second) => {
            keep_expr(kept, second.get())?;
            keep_expr(kept, first.get())?;
            keep_expr(kept, test.get())
        }
    }
}

/// Keeps the least of the statements' constants and of those had.
#[cycle(keeping)]
fn keep_stmts(kept: &mut Vec<i64>, stmts: &[Stmt]) -> Result<(), AllocError>
    ensures { OnOk result
        (KeepsLeast (constants_in (statements_of stmts.now)) kept.old.items kept.new.items) }
{
    let mut i = stmts.len();
    while i > 0 {
        i -= 1;
        keep_stmt(kept, &stmts[i])?;
    }
    Ok(())
}

/// The same of a statement and of those behind it in its list.
#[cycle(keeping)]
fn keep_stmt(kept: &mut Vec<i64>, stmt: &Stmt) -> Result<(), AllocError>
    ensures { OnOk result
        (KeepsLeastBefore (put_in_front stmt.now) kept.old.items kept.new.items) }
{
    match stmt {
        Stmt::Set(_, expr) => keep_expr(kept, expr),
        Stmt::If(cond, first, second) => {
            keep_stmts(kept, second.as_slice())?;
            keep_stmts(kept, first.as_slice())?;
            keep_expr(kept, cond)
        }
        Stmt::Loop {
            cond,
            body,
            step,
            ..
        } => {
            keep_stmts(kept, step.as_slice())?;
            keep_stmts(kept, body.as_slice())?;
            keep_expr(kept, cond)
        }
        Stmt::Break => Ok(()),
        Stmt::Continue => Ok(()),
        Stmt::Return(expr) => keep_expr(kept, expr),
        Stmt::Mark(_) => Ok(()),
        Stmt::Block(stmts) => keep_stmts(kept, stmts.as_slice()),
    }
}

/// The constants of bounds for two functions, rising: -1, 0, 1, and the ten least of the constants
/// in both bodies that are above 1 and below 2^50. A divisor is a constant; a mark's number is not.
pub fn bound_constants(alloc: Global, first: &Func, second: &Func) -> Result<Items<i64>, AllocError>
    ensures { IfOk result
        (λ made. made ≡ bound_constants (program_of first.now) (program_of second.now)) }
{
    let mut kept = Vec::new(alloc);
    keep_stmts(&mut kept, second.body())?;
    keep_stmts(&mut kept, first.body())?;
    let mut made = Vec::with_capacity(alloc, kept.len() + 3)?;
    made.push(-1)?;
    made.push(0)?;
    made.push(1)?;
    made.extend_from_slice(kept.as_slice())?;
    Ok(Items::from_vec(made))
}
