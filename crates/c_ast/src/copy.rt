//! Equal copies of trees and functions.
ghost use Rattle.std.specs.Prelude.{◌≡◌, IfOk};

use crate::{Expr, Stmt, Var};
use sqlite_items::{Boxed, Items};
use std::alloc::{AllocError, Global};

/// An equal expression.
pub fn copy_expr(alloc: Global, expr: &Expr) -> Result<Expr, AllocError>
    ensures { IfOk result (λ made. made ≡ expr.now) }
{
    match expr {
        Expr::Num(constant) => Ok(Expr::Num(*constant)),
        Expr::Var(x) => Ok(Expr::Var(*x)),
        Expr::Un(op, operand) => {
            let operand = Boxed::new(alloc, copy_expr(alloc, operand.get())?)?;
            Ok(Expr::Un(*op, operand))
        }
        Expr::Bin(op, left, right) => {
            let left = Boxed::new(alloc, copy_expr(alloc, left.get())?)?;
            let right = Boxed::new(alloc, copy_expr(alloc, right.get())?)?;
            Ok(Expr::Bin(*op, left, right))
        }
        Expr::Cond(test, first, second) => {
            let test = Boxed::new(alloc, copy_expr(alloc, test.get())?)?;
            let first = Boxed::new(alloc, copy_expr(alloc, first.get())?)?;
            let second = Boxed::new(alloc, copy_expr(alloc, second.get())?)?;
            Ok(Expr::Cond(test, first, second))
        }
    }
}

#[cycle(copies)]
fn copy_stmt(alloc: Global, stmt: &Stmt) -> Result<Stmt, AllocError>
    ensures { IfOk result (λ made. made ≡ stmt.now) }
{
    match stmt {
        Stmt::Set(x, expr) => Ok(Stmt::Set(*x, copy_expr(alloc, expr)?)),
        Stmt::If(cond, first, second) => {
            let cond = copy_expr(alloc, cond)?;
            let first = copy_stmts(alloc, first.as_slice())?;
            let second = copy_stmts(alloc, second.as_slice())?;
            Ok(Stmt::If(cond, first, second))
        }
        Stmt::Loop {
            mark,
            cond,
            body,
            step,
            test_first,
        } => {
            let cond = copy_expr(alloc, cond)?;
            let body = copy_stmts(alloc, body.as_slice())?;
            let step = copy_stmts(alloc, step.as_slice())?;
            Ok(Stmt::Loop {
                mark: *mark,
                cond,
                body,
                step,
                test_first: *test_first,
            })
        }
        Stmt::Break => Ok(Stmt::Break),
        Stmt::Continue => Ok(Stmt::Continue),
        Stmt::Return(expr) => Ok(Stmt::Return(copy_expr(alloc, expr)?)),
        Stmt::Mark(mark) => Ok(Stmt::Mark(*mark)),
        Stmt::Block(stmts) => Ok(Stmt::Block(copy_stmts(alloc, stmts.as_slice())?)),
    }
}

/// An equal list of statements.
#[cycle(copies)]
pub(crate) fn copy_stmts(alloc: Global, stmts: &[Stmt]) -> Result<Items<Stmt>, AllocError>
    ensures { IfOk result (λ made. made ≡ stmts.now) }
{
    let mut made = Items::new(alloc);
    for stmt in stmts {
        made.push(copy_stmt(alloc, stmt)?)?;
    }
    Ok(made)
}

fn copy_var(var: &Var) -> Result<Var, AllocError>
    ensures { IfOk result (λ made. made ≡ var.now) }
{
    let name = var.name.copy()?;
    Ok(Var {
        name,
        line: var.line,
    })
}

/// An equal list of variables.
pub(crate) fn copy_vars(alloc: Global, vars: &[Var]) -> Result<Items<Var>, AllocError>
    ensures { IfOk result (λ made. made ≡ vars.now) }
{
    let mut made = Items::new(alloc);
    for var in vars {
        made.push(copy_var(var)?)?;
    }
    Ok(made)
}
