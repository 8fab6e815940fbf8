//! Values that were worked out by hand, from the meaning of C's operators. The trees here have the
//! variables 0 and 1.
ghost use Rattle.std.specs.Prelude.{◌<◌, ◌≤ℤ◌, pos, IfOk, IsTrue};
ghost use Rattle.c_ast.specs.Tree.{Expression};
ghost use Rattle.c_ast.specs.View.{expression_of};
ghost use Rattle.c_ast.specs.Value.{CanEvaluate, HasDivisor};

use crate::{BinOp, Expr, UnOp, value_of};
use sqlite_items::Boxed;
use std::alloc::{AllocError, Global};
use std::test::Fail;

/// 2^99, the half of the least wide value.
const HALF: i128 = 633_825_300_114_114_700_748_351_602_688;

fn var(x: u32) -> Expr
    requires { x < 2 }
    ensures { CanEvaluate 2 (expression_of result) }
{
    Expr::Var(x)
}

fn un(alloc: Global, op: UnOp, operand: Expr) -> Result<Expr, AllocError>
    requires { CanEvaluate 2 (expression_of operand) }
    ensures { IfOk result (λ made. CanEvaluate 2 (expression_of made)) }
{
    Ok(Expr::Un(op, Boxed::new(alloc, operand)?))
}

/// Whether the operator takes any right operand.
fn takes_any(op: BinOp) -> bool
    ensures { IsTrue result → (right : Expression) → HasDivisor op right }
{
    match op {
        BinOp::Div => false,
        BinOp::Rem => false,
        _ => true,
    }
}

fn bin(alloc: Global, left: Expr, op: BinOp, right: Expr) -> Result<Expr, AllocError>
    requires left { CanEvaluate 2 (expression_of left) }
    requires right { CanEvaluate 2 (expression_of right) }
    requires any { (right : Expression) → HasDivisor op right }
    ensures { IfOk result (λ made. CanEvaluate 2 (expression_of made)) }
{
    let left = Boxed::new(alloc, left)?;
    let right = Boxed::new(alloc, right)?;
    Ok(Expr::Bin(op, left, right))
}

/// The variable 0 over a divisor, or what is left of it.
fn divided(alloc: Global, is_remainder: bool, divisor: i64) -> Result<Expr, AllocError>
    requires { pos 1 ≤ℤ divisor }
    ensures { IfOk result (λ made. CanEvaluate 2 (expression_of made)) }
{
    let left = Boxed::new(alloc, var(0))?;
    let right = Boxed::new(alloc, Expr::Num(divisor))?;
    if is_remainder {
        return Ok(Expr::Bin(BinOp::Rem, left, right));
    }
    Ok(Expr::Bin(BinOp::Div, left, right))
}

fn cond(alloc: Global, test: Expr, first: Expr, second: Expr) -> Result<Expr, AllocError>
    requires test { CanEvaluate 2 (expression_of test) }
    requires first { CanEvaluate 2 (expression_of first) }
    requires second { CanEvaluate 2 (expression_of second) }
    ensures { IfOk result (λ made. CanEvaluate 2 (expression_of made)) }
{
    let test = Boxed::new(alloc, test)?;
    let first = Boxed::new(alloc, first)?;
    let second = Boxed::new(alloc, second)?;
    Ok(Expr::Cond(test, first, second))
}

#[test]
fn operators_have_their_values(rt: HostRuntime) -> Result<(), Fail> {
    let alloc = rt.alloc();
    let rows = [
        (BinOp::Mul, 6, -7, Some(-42)),
        (BinOp::Mul, HALF, 2, None),
        (BinOp::Mul, i128::MAX, i128::MAX, None),
        (BinOp::Add, 6, -7, Some(-1)),
        (BinOp::Add, HALF, HALF - 1, Some(HALF * 2 - 1)),
        (BinOp::Add, HALF, HALF, None),
        (BinOp::Sub, 6, -7, Some(13)),
        (BinOp::Sub, -HALF, HALF, None),
        (BinOp::Less, -7, 6, Some(1)),
        (BinOp::Less, 6, 6, Some(0)),
        (BinOp::LessEq, 6, 6, Some(1)),
        (BinOp::LessEq, 7, 6, Some(0)),
        (BinOp::Greater, 7, 6, Some(1)),
        (BinOp::Greater, 6, 6, Some(0)),
        (BinOp::GreaterEq, 6, 6, Some(1)),
        (BinOp::GreaterEq, -7, 6, Some(0)),
        (BinOp::Equal, 6, 6, Some(1)),
        (BinOp::Equal, 6, -6, Some(0)),
        (BinOp::NotEqual, 6, -6, Some(1)),
        (BinOp::NotEqual, 6, 6, Some(0)),
        (BinOp::And, 6, -1, Some(1)),
        (BinOp::And, 6, 0, Some(0)),
        (BinOp::And, 0, HALF * 2, None),
        (BinOp::Or, 0, -1, Some(1)),
        (BinOp::Or, 0, 0, Some(0)),
        (BinOp::Or, 1, HALF * 2, None),
    ];
    for (op, left, right, want) in rows {
        assert!(rt; takes_any(op));
        let expr = bin(alloc, var(0), op, var(1))?;
        let got = value_of(&expr, &[left, right]);
        assert_eq!(rt; got, want, "{left} {op:?} {right}");
    }
    Ok(())
}

/// A value, a divisor, the quotient and the remainder, as C compilers give them.
const DIVISIONS: [(i128, i64, Option<i128>, Option<i128>); 15] = [
    (7, 2, Some(3), Some(1)),
    (-7, 2, Some(-3), Some(-1)),
    (6, 3, Some(2), Some(0)),
    (-6, 3, Some(-2), Some(0)),
    (1, 2, Some(0), Some(1)),
    (-1, 2, Some(0), Some(-1)),
    (0, 5, Some(0), Some(0)),
    (5, 1, Some(5), Some(0)),
    (-5, 1, Some(-5), Some(0)),
    (4, 5, Some(0), Some(4)),
    (-4, 5, Some(0), Some(-4)),
    (HALF, i64::MAX, Some(68_719_476_736), Some(68_719_476_736)),
    (HALF * 2 - 1, 2, Some(HALF - 1), Some(1)),
    (1 - HALF * 2, 1, Some(1 - HALF * 2), Some(0)),
    (HALF * 2, 2, None, None),
];

#[test]
fn divisions_truncate_toward_zero(rt: HostRuntime) -> Result<(), Fail> {
    let alloc = rt.alloc();
    for (value, divisor, quotient, remainder) in DIVISIONS {
        assert!(rt; divisor >= 1);
        for (is_remainder, want) in [(false, quotient), (true, remainder)] {
            let expr = divided(alloc, is_remainder, divisor)?;
            assert_eq!(rt;
                value_of(&expr, &[value, 0]),
                want,
                "{value} over {divisor}"
            );
        }
    }
    Ok(())
}

#[test]
fn choices_and_signs_have_their_values(rt: HostRuntime) -> Result<(), Fail> {
    let alloc = rt.alloc();
    let rows = [
        (UnOp::Plus, 7, Some(7)),
        (UnOp::Minus, 7, Some(-7)),
        (UnOp::Minus, 1 - HALF * 2, Some(HALF * 2 - 1)),
        (UnOp::Minus, -HALF * 2, None),
        (UnOp::Not, 7, Some(0)),
        (UnOp::Not, 0, Some(1)),
    ];
    for (op, operand, want) in rows {
        let expr = un(alloc, op, var(0))?;
        assert_eq!(rt; value_of(&expr, &[operand, 0]), want, "{op:?} {operand}");
    }
    // The variable that is 5 is taken where the other is not 0; both parts have a value always.
    for (test, part, want) in [
        (-1, 5, Some(5)),
        (0, 5, Some(0)),
        (0, HALF * 2, None),
        (1, HALF * 2, None),
    ] {
        let expr = cond(alloc, var(0), var(1), var(0))?;
        assert_eq!(rt;
            value_of(&expr, &[test, part]),
            want,
            "{test} ? {part} : {test}"
        );
    }
    Ok(())
}
