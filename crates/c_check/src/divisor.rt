//! The divisors of `/` and `%`: nonzero constants under signs, whose sizes a checked tree has.
//!
//! A quotient is rounded toward 0 (ISO C11, 6.5.5), so that by a negative divisor is the opposite
//! of that by the divisor's size, and both leave the same remainder. Brackets leave no trace in a
//! tree.
ghost use Rattle.std.specs.Prelude.{◌≡◌, IfOk, IfErr};
ghost use Rattle.c_ast.specs.RawView.{raw_expression_of};
ghost use Rattle.c_ast.specs.View.{expression_of};
ghost use Rattle.c_check.specs.declared.fault.CheckFault.TheVariants as fault;
ghost use Rattle.c_check.specs.Divisors.{divides, is_quotient, signed, divisor_of, divided};
ghost use Rattle.c_check.specs.Resolving.{divided_or, Gives};

use crate::CheckFault;
use c_ast::{BinOp, Expr, RawExpr, UnOp};
use sqlite_items::Boxed;
use std::alloc::Global;

/// A divisor of a division.
#[derive(Clone, Copy)]
pub(crate) struct Divisor {
    /// At least 1.
    size: i64,
    negative: bool,
}

/// Whether the operator divides.
pub(crate) fn divides(op: BinOp) -> bool
    ensures { result ≡ divides op }
{
    match op {
        BinOp::Div => true,
        BinOp::Rem => true,
        _ => false,
    }
}

/// Whether the operator gives the quotient.
fn is_quotient(op: BinOp) -> bool
    ensures { result ≡ is_quotient op }
{
    match op {
        BinOp::Div => true,
        _ => false,
    }
}

/// The divisor behind one more unary operator.
fn signed(op: UnOp, divisor: Divisor) -> Option<Divisor>
    ensures { result ≡ signed op divisor }
{
    match op {
        UnOp::Plus => Some(divisor),
        UnOp::Minus => Some(Divisor {
            size: divisor.size,
            negative: !divisor.negative,
        }),
        UnOp::Not => None,
    }
}

/// The divisor that the expression is, if it is one.
fn divisor_in(expr: &RawExpr) -> Option<Divisor>
    ensures { result ≡ divisor_of (raw_expression_of expr.now) }
{
    match expr {
        RawExpr::Num(constant) => {
            if *constant > 0 {
                Some(Divisor {
                    size: *constant,
                    negative: false,
                })
            } else {
                None
            }
        }
        RawExpr::Un(op, operand) => match divisor_in(operand.get()) {
            Some(found) => signed(*op, found),
            None => None,
        },
        _ => None,
    }
}

/// The tree of a division by this divisor.
fn divided(alloc: Global, op: BinOp, left: Expr, divisor: Divisor) -> Result<Expr, CheckFault>
    ensures made { IfOk result
        (λ made. expression_of made ≡ divided op (expression_of left) divisor) }
    ensures memory { IfErr result (λ first. first ≡ fault.Memory) }
{
    let left = Boxed::new(alloc, left)?;
    let size = Boxed::new(alloc, Expr::Num(divisor.size))?;
    let by_size = Expr::Bin(op, left, size);
    if is_quotient(op) && divisor.negative {
        let quotient = Boxed::new(alloc, by_size)?;
        return Ok(Expr::Un(UnOp::Minus, quotient));
    }
    Ok(by_size)
}

/// A division, whose operator stands on this line, if its right operand is a divisor.
pub(crate) fn division(
    alloc: Global,
    op: BinOp,
    line: u32,
    left: Expr,
    right: &RawExpr,
) -> Result<Expr, CheckFault>
    ensures { Gives expression_of result
        (divided_or op line (expression_of left) (divisor_of (raw_expression_of right.now))) }
{
    match divisor_in(right) {
        Some(divisor) => {
            let made = divided(alloc, op, left, divisor)?;
            Ok(made)
        }
        None => Err(CheckFault::Divisor { line }),
    }
}
