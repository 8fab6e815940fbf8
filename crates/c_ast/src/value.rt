//! The values of expressions, computed plainly. A value of 2^100 or more in size is not handed out.
ghost use Rattle.std.specs.Prelude.{◌≡◌, ◌≢◌, ◌<◌, ◌*ℤ◌, int_div, int_rem, pos, true};
ghost use Rattle.std.specs.Prelude.{if◌then◌else◌, length, IfSome, Some, None};
ghost use Rattle.c_ast.specs.View.{expression_of};
ghost use Rattle.c_ast.specs.Value.{unary_value, binary_value, is_nonzero, test_value, CanEvaluate, Divides};
ghost use Rattle.c_ast.specs.FitsRun.{fits_run, only_if, fitting_value};

use crate::{BinOp, Expr, UnOp};

/// Values of runs stay below this size: 2^100.
pub const WIDE_RUN: i128 = 1 << 100;

fn fitting(value: i128) -> Option<i128>
    ensures { result ≡ only_if (fits_run value) value }
{
    if -WIDE_RUN < value && value < WIDE_RUN {
        Some(value)
    } else {
        None
    }
}

fn test_value(test: bool) -> i128
    ensures { result ≡ test_value test }
{
    if test { 1 } else { 0 }
}

/// Whether a condition or an operand with this value counts as true: all but 0 does (ISO C11,
/// 6.5.13 to 6.5.15, 6.8.4.1).
pub fn is_nonzero(value: i128) -> bool
    ensures { result ≡ is_nonzero value }
{
    value != 0
}

fn choice(test: i128, first: i128, second: i128) -> i128
    ensures { result ≡ (if is_nonzero test then first else second) }
{
    if is_nonzero(test) { first } else { second }
}

fn unary_value(op: UnOp, value: i128) -> Option<i128>
    requires { fits_run value ≡ true }
    ensures { result ≡ only_if (fits_run (unary_value op value)) (unary_value op value) }
{
    match op {
        UnOp::Plus => fitting(value),
        UnOp::Minus => fitting(-value),
        UnOp::Not => fitting(test_value(!is_nonzero(value))),
    }
}

fn product(left: i128, right: i128) -> Option<i128>
    ensures { result ≡ only_if (fits_run (left *ℤ right)) (left *ℤ right) }
{
    match left.checked_mul(right) {
        Some(value) => fitting(value),
        None => None,
    }
}

fn quotient(left: i128, right: i128) -> Option<i128>
    requires fits { fits_run left ≡ true }
    requires divisor { right ≢ pos 0 }
    ensures { result ≡ only_if (fits_run (int_div left right)) (int_div left right) }
{
    fitting(left / right)
}

fn remainder(left: i128, right: i128) -> Option<i128>
    requires fits { fits_run left ≡ true }
    requires divisor { right ≢ pos 0 }
    ensures { result ≡ only_if (fits_run (int_rem left right)) (int_rem left right) }
{
    fitting(left % right)
}

fn binary_value(op: BinOp, left: i128, right: i128) -> Option<i128>
    requires first { fits_run left ≡ true }
    requires second { fits_run right ≡ true }
    requires divisor { Divides op right }
    ensures { result
        ≡ only_if (fits_run (binary_value op left right)) (binary_value op left right) }
{
    match op {
        BinOp::Mul => product(left, right),
        BinOp::Div => quotient(left, right),
        BinOp::Rem => remainder(left, right),
        BinOp::Add => fitting(left + right),
        BinOp::Sub => fitting(left - right),
        BinOp::Less => fitting(test_value(left < right)),
        BinOp::LessEq => fitting(test_value(left <= right)),
        BinOp::Greater => fitting(test_value(right < left)),
        BinOp::GreaterEq => fitting(test_value(right <= left)),
        BinOp::Equal => fitting(test_value(left <= right && right <= left)),
        BinOp::NotEqual => fitting(test_value(!(left <= right && right <= left))),
        BinOp::And => fitting(test_value(is_nonzero(left) && is_nonzero(right))),
        BinOp::Or => fitting(test_value(is_nonzero(left) || is_nonzero(right))),
    }
}

/// The value of an expression where the variables have these values, by number. `None` where one of
/// its parts, also one that C would skip, has a value of 2^100 or more in size.
pub fn value_of(expr: &Expr, environment: &[i128]) -> Option<i128>
    requires { CanEvaluate (length environment.now) (expression_of expr.now) }
    ensures value { result ≡ fitting_value (expression_of expr.now) environment.now }
    ensures fits { IfSome result (λ value. fits_run value ≡ true) }
{
    match expr {
        Expr::Num(constant) => fitting(*constant as i128),
        Expr::Var(x) => fitting(environment[*x as usize]),
        Expr::Un(op, operand) => {
            let value = value_of(operand.get(), environment)?;
            unary_value(*op, value)
        }
        Expr::Bin(op, left, right) => {
            let first = value_of(left.get(), environment)?;
            let second = value_of(right.get(), environment)?;
            binary_value(*op, first, second)
        }
        Expr::Cond(cond, left, right) => {
            let test = value_of(cond.get(), environment)?;
            let first = value_of(left.get(), environment)?;
            let second = value_of(right.get(), environment)?;
            fitting(choice(test, first, second))
        }
    }
}
