//! Whether trees are equal.
ghost use Rattle.std.specs.Prelude.{◌≡◌, ◌↔◌, IsTrue};

use crate::{Expr, Stmt, Var};

/// Whether the expressions are equal.
pub fn same_expr(first: &Expr, second: &Expr) -> bool
    ensures { IsTrue result ↔ (first.now ≡ second.now) }
{
    match (first, second) {
        (Expr::Num(x), Expr::Num(y)) => *x == *y,
        (Expr::Var(x), Expr::Var(y)) => *x == *y,
        (Expr::Un(op, x), Expr::Un(other, y)) => *op == *other && same_expr(x.get(), y.get()),
        (Expr::Bin(op, a, b), Expr::Bin(other, x, y)) => {
            *op == *other && same_expr(a.get(), x.get()) && same_expr(b.get(), y.get())
        }
        (Expr::Cond(a, b, c), Expr::Cond(x, y, z)) => {
            same_expr(a.get(), x.get())
                && same_expr(b.get(), y.get())
                && same_expr(c.get(), z.get())
        }
        _ => false,
    }
}

fn same_mark(first: &Option<u32>, second: &Option<u32>) -> bool
    ensures { IsTrue result ↔ (first.now ≡ second.now) }
{
    match (first, second) {
        (None, None) => true,
        (Some(x), Some(y)) => *x == *y,
        _ => false,
    }
}

#[cycle(sameness)]
fn same_stmt(first: &Stmt, second: &Stmt) -> bool
    ensures { IsTrue result ↔ (first.now ≡ second.now) }
{
    match (first, second) {
        (Stmt::Set(x, e), Stmt::Set(y, f)) => *x == *y && same_expr(e, f),
        (Stmt::If(e, a, b), Stmt::If(f, x, y)) => {
            same_expr(e, f)
                && same_stmts(a.as_slice(), x.as_slice())
                && same_stmts(b.as_slice(), y.as_slice())
        }
        (
            Stmt::Loop {
                mark,
                cond,
                body,
                step,
                test_first,
            },
            Stmt::Loop {
                mark: other_mark,
                cond: other_cond,
                body: other_body,
                step: other_step,
                test_first: other_first,
            },
        ) => {
            same_mark(mark, other_mark)
                && same_expr(cond, other_cond)
                && same_stmts(body.as_slice(), other_body.as_slice())
                && same_stmts(step.as_slice(), other_step.as_slice())
                && *test_first == *other_first
        }
        (Stmt::Break, Stmt::Break) => true,
        (Stmt::Continue, Stmt::Continue) => true,
        (Stmt::Return(e), Stmt::Return(f)) => same_expr(e, f),
        (Stmt::Mark(x), Stmt::Mark(y)) => *x == *y,
        (Stmt::Block(a), Stmt::Block(b)) => same_stmts(a.as_slice(), b.as_slice()),
        _ => false,
    }
}

/// Whether the lists of statements are equal.
#[cycle(sameness)]
pub fn same_stmts(first: &[Stmt], second: &[Stmt]) -> bool
    ensures { IsTrue result ↔ (first.now ≡ second.now) }
{
    if first.len() != second.len() {
        return false;
    }
    for (i, stmt) in first.iter().enumerate() {
        if !same_stmt(stmt, &second[i]) {
            return false;
        }
    }
    true
}

/// Whether the lists of variables are equal.
pub fn same_vars(first: &[Var], second: &[Var]) -> bool
    ensures { IsTrue result ↔ (first.now ≡ second.now) }
{
    if first.len() != second.len() {
        return false;
    }
    for (i, var) in first.iter().enumerate() {
        if var.line != second[i].line || !var.name.same(&second[i].name) {
            return false;
        }
    }
    true
}
