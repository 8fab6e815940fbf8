//! Expressions, with all their brackets (6.5.1 to 6.5.15).
use super::{Part, Row, first_wrong, show_fault, tokens_of};
use crate::depth::MOST_LEVELS;
use crate::expression::read_expression;
use crate::{ReadFault, read_expr};
use c_ast::{BinOp, RawExpr, UnOp};
use std::alloc::{AllocError, Global};
use std::test::Fail;

fn sign_of(op: UnOp) -> &'static str {
    match op {
        UnOp::Plus => "+",
        UnOp::Minus => "-",
        UnOp::Not => "!",
    }
}

fn operator_of(op: BinOp) -> &'static str {
    match op {
        BinOp::Mul => "*",
        BinOp::Div => "/",
        BinOp::Rem => "%",
        BinOp::Add => "+",
        BinOp::Sub => "-",
        BinOp::Less => "<",
        BinOp::LessEq => "<=",
        BinOp::Greater => ">",
        BinOp::GreaterEq => ">=",
        BinOp::Equal => "==",
        BinOp::NotEqual => "!=",
        BinOp::And => "&&",
        BinOp::Or => "||",
    }
}

// A line other than the first stands behind its name or operator.
fn show_line(line: u32, out: &mut String) -> Result<(), AllocError> {
    if line == 1 {
        Ok(())
    } else {
        write!(out, "@{line}")
    }
}

// Writes an expression with brackets around each operation.
pub fn show(expr: &RawExpr, out: &mut String) -> Result<(), AllocError> {
    match expr {
        RawExpr::Num(value) => write!(out, "{value}"),
        RawExpr::Var(name, line) => {
            out.push_str(name.text())?;
            show_line(*line, out)
        }
        RawExpr::Un(op, operand) => {
            write!(out, "({}", sign_of(*op))?;
            show(operand.get(), out)?;
            out.push_str(")")
        }
        RawExpr::Bin(op, line, left, right) => {
            out.push_str("(")?;
            show(left.get(), out)?;
            write!(out, " {}", operator_of(*op))?;
            show_line(*line, out)?;
            out.push_str(" ")?;
            show(right.get(), out)?;
            out.push_str(")")
        }
        RawExpr::Cond(cond, first, second) => {
            out.push_str("(")?;
            show(cond.get(), out)?;
            out.push_str(" ? ")?;
            show(first.get(), out)?;
            out.push_str(" : ")?;
            show(second.get(), out)?;
            out.push_str(")")
        }
    }
}

// Writes the expression at the front of a text, and how many tokens stand behind it.
pub fn show_front(alloc: Global, text: &str, out: &mut String) -> Result<(), AllocError> {
    match read_expression(alloc, MOST_LEVELS, &tokens_of(alloc, text)?) {
        Ok((tree, [])) => show(&tree.expr, out),
        Ok((tree, others)) => {
            show(&tree.expr, out)?;
            write!(out, ", {} behind", others.len())
        }
        Err(fault) => show_fault(fault, out),
    }
}

// Writes the expression that is a whole text.
pub fn show_whole(alloc: Global, text: &str, out: &mut String) -> Result<(), AllocError> {
    match read_expr(alloc, &tokens_of(alloc, text)?) {
        Ok(expr) => show(&expr, out),
        Err(fault) => show_fault(fault, out),
    }
}

const FRONTS: [Row; 80] = [
    // Operands.
    ("a", "a"),
    ("7", "7"),
    ("9223372036854775807", "9223372036854775807"),
    ("((a))", "a"),
    ("(a) b", "a, 1 behind"),
    ("- - a", "(-(-a))"),
    ("+-!a", "(+(-(!a)))"),
    ("-(a)", "(-a)"),
    // Operators of one level group to the left.
    ("a * b * c", "((a * b) * c)"),
    ("a / b / c", "((a / b) / c)"),
    ("a / b * c % d", "(((a / b) * c) % d)"),
    ("a * b / c", "((a * b) / c)"),
    ("a - b - c", "((a - b) - c)"),
    ("a - b + c", "((a - b) + c)"),
    ("a < b <= c > d >= e", "((((a < b) <= c) > d) >= e)"),
    ("a == b != c", "((a == b) != c)"),
    ("a && b && c", "((a && b) && c)"),
    ("a || b || c", "((a || b) || c)"),
    // Each level binds tighter than the one before it.
    ("a ? b || c : d", "(a ? (b || c) : d)"),
    ("a || b && c", "(a || (b && c))"),
    ("a && b || c", "((a && b) || c)"),
    ("a && b == c", "(a && (b == c))"),
    ("a < b == c", "((a < b) == c)"),
    ("a == b < c", "(a == (b < c))"),
    ("a < b + c", "(a < (b + c))"),
    ("a + b * c", "(a + (b * c))"),
    ("a * b + c", "((a * b) + c)"),
    ("a - b / c", "(a - (b / c))"),
    ("a % b + c", "((a % b) + c)"),
    ("!a * b", "((!a) * b)"),
    ("a * -b", "(a * (-b))"),
    ("-a / b", "((-a) / b)"),
    ("a / -b", "(a / (-b))"),
    ("a / +2", "(a / (+2))"),
    ("a % - +2", "(a % (-(+2)))"),
    ("a / (b - c)", "(a / (b - c))"),
    ("a - -b", "(a - (-b))"),
    (
        "a || b && c == d < e + f * -g",
        "(a || (b && (c == (d < (e + (f * (-g)))))))",
    ),
    (
        "-a * b + c < d == e && f || g",
        "(((((((-a) * b) + c) < d) == e) && f) || g)",
    ),
    ("(a || b) * c", "((a || b) * c)"),
    // Choices group to the right.
    ("a ? b : c", "(a ? b : c)"),
    ("a ? b : c ? d : e", "(a ? b : (c ? d : e))"),
    ("a ? b ? c : d : e", "(a ? (b ? c : d) : e)"),
    ("(a ? b : c) ? d : e", "((a ? b : c) ? d : e)"),
    ("a + b ? c : d + e", "((a + b) ? c : (d + e))"),
    // Lines.
    ("a -\nb\n- c", "((a - b@2) -@3 c@3)"),
    ("a\n<\nb", "(a <@2 b@3)"),
    ("a\n/\nb\n% c", "((a /@2 b@3) %@4 c@4)"),
    ("(a\n+ b)\n* -c", "((a +@2 b@2) *@3 (-c@3))"),
    // The longest one is read.
    ("a + b; c", "(a + b), 2 behind"),
    ("a = b", "a, 2 behind"),
    ("a++", "a, 1 behind"),
    ("a /= b", "a, 2 behind"),
    ("a & b", "a, 2 behind"),
    ("a)", "a, 1 behind"),
    ("a : b", "a, 2 behind"),
    // No expression.
    ("", "Grammar"),
    ("+", "Grammar"),
    ("* a", "Grammar"),
    ("a +", "Grammar"),
    ("a + * b", "Grammar"),
    ("a /", "Grammar"),
    ("/ a", "Grammar"),
    ("a / * b", "Grammar"),
    ("a % % b", "Grammar"),
    ("a % ;", "Grammar"),
    ("a < ;", "Grammar"),
    ("()", "Grammar"),
    ("(a", "Grammar"),
    ("(a b)", "Grammar"),
    ("(a;)", "Grammar"),
    ("a ?", "Grammar"),
    ("a ? b", "Grammar"),
    ("a ? b ; c", "Grammar"),
    ("a ? : c", "Grammar"),
    ("a ? b :", "Grammar"),
    ("__mark", "Grammar"),
    ("a + __mark", "Grammar"),
    ("int", "Grammar"),
    ("! ++a", "Grammar"),
];

const WHOLE: [Row; 12] = [
    ("a", "a"),
    ("(a)", "a"),
    ("a >= 0 && b / 2 < 5", "((a >= 0) && ((b / 2) < 5))"),
    ("a ? b : -1", "(a ? b : (-1))"),
    // Not all of it is one expression.
    ("", "Grammar"),
    ("a b", "Grammar"),
    ("a;", "Grammar"),
    ("a)", "Grammar"),
    ("a = 1", "Grammar"),
    ("a, b", "Grammar"),
    ("return a", "Grammar"),
    ("__mark(1) & a", "Grammar"),
];

#[test]
fn expressions_are_read_as_in_c(rt: HostRuntime) -> Result<(), Fail> {
    assert_eq!(rt;
        first_wrong(rt.alloc(), Part::Front, FRONTS.as_slice())?,
        None
    );
    assert_eq!(rt;
        first_wrong(rt.alloc(), Part::Whole, WHOLE.as_slice())?,
        None
    );
    Ok(())
}
