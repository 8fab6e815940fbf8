//! Files as a reader would read them, and what they stand for.
ghost use Rattle.c_ast.specs.RawShape.{AreShaped, HasNaturalConstants};
ghost use Rattle.c_ast.specs.RawView.{raw_expression_of, raw_put_in_front, raw_one, raw_statements_of};
ghost use Rattle.std.specs.Prelude.{◌≡◌, IfOk};

use crate::{CheckFault, check, check_condition, one_condition, one_function};
use c_ast::{
    BinOp, Func, Name, RawCond, RawDeclarator, RawExpr, RawFunc, RawStmt, RawUnit, UnOp, Var,
};
use sqlite_items::{Boxed, Items};
use std::alloc::{AllocError, Global};
use std::test::Fail;

fn name(alloc: Global, text: &str) -> Result<Name, AllocError> {
    Ok(Name::new(String::from_str(alloc, text)?))
}

fn function(alloc: Global, params: Items<Var>, body: Items<RawStmt>) -> Result<RawFunc, AllocError>
    ensures { IfOk result (λ func. func.body ≡ body) }
{
    Ok(RawFunc {
        name: name(alloc, "f")?,
        line: 1,
        params,
        body,
    })
}

/// The answer to a file of one function with so many parameters.
fn answer(alloc: Global, count: u32, body: Items<RawStmt>) -> Result<String, AllocError>
    requires { AreShaped (raw_statements_of body) }
{
    let mut funcs = Items::new(alloc);
    funcs.push(function(alloc, many(alloc, count)?, body)?)?;
    shown(alloc, check(alloc, RawUnit { funcs }))
}

/// So many parameters of different names.
fn many(alloc: Global, count: u32) -> Result<Items<Var>, AllocError> {
    let mut made = Items::new(alloc);
    for number in 0..count {
        made.push(Var {
            name: Name::new(format!(in alloc; "a{number}")?),
            line: 1,
        })?;
    }
    Ok(made)
}

/// A list of one statement.
fn one(alloc: Global, stmt: RawStmt) -> Result<Items<RawStmt>, AllocError>
    requires { AreShaped (raw_one (raw_put_in_front stmt)) }
    ensures { IfOk result (λ body. AreShaped (raw_statements_of body)) }
{
    Ok(Items::from_vec(vec![in alloc; stmt]?))
}

/// A list of two statements.
fn two(alloc: Global, first: RawStmt, second: RawStmt) -> Result<Items<RawStmt>, AllocError>
    requires { AreShaped (raw_put_in_front first (raw_one (raw_put_in_front second))) }
    ensures { IfOk result (λ body. AreShaped (raw_statements_of body)) }
{
    Ok(Items::from_vec(vec![in alloc; first, second]?))
}

/// `int a0;`
fn declaration(alloc: Global, line: u32) -> Result<Items<RawStmt>, AllocError>
    ensures { IfOk result (λ body. AreShaped (raw_statements_of body)) }
{
    let declarator = RawDeclarator {
        var: Var {
            name: name(alloc, "a0")?,
            line,
        },
        initialiser: None,
    };
    let list = Items::from_vec(vec![in alloc; declarator]?);
    Ok(Items::from_vec(vec![in alloc; RawStmt::Declare(list)]?))
}

/// `while (a0) __mark(5);`, where the condition may name a mark.
fn turning(alloc: Global, mark: Option<u64>) -> Result<Items<RawStmt>, AllocError>
    ensures { IfOk result (λ body. AreShaped (raw_statements_of body)) }
{
    let cond = RawExpr::Var(name(alloc, "a0")?, 1);
    let body = Boxed::new(alloc, RawStmt::Mark(5))?;
    Ok(Items::from_vec(vec![in alloc; RawStmt::While(RawCond { mark, cond }, body)]?))
}

fn shown(alloc: Global, answer: Result<Func, CheckFault>) -> Result<String, AllocError> {
    match answer {
        Ok(func) => format!(in alloc; "{:?}", func.body()),
        Err(fault) => format!(in alloc; "{fault:?}"),
    }
}

/// The expression behind a sign.
fn signed(alloc: Global, op: UnOp, expr: RawExpr) -> Result<RawExpr, AllocError>
    requires { HasNaturalConstants (raw_expression_of expr) }
    ensures { IfOk result (λ made. HasNaturalConstants (raw_expression_of made)) }
{
    Ok(RawExpr::Un(op, Boxed::new(alloc, expr)?))
}

/// A division of `a0` on line 7, as the answer to a condition on a function with so many
/// parameters.
fn divided(alloc: Global, count: u32, op: BinOp, divisor: RawExpr) -> Result<String, AllocError>
    requires { HasNaturalConstants (raw_expression_of divisor) }
{
    let left = RawExpr::Var(name(alloc, "a0")?, 1);
    let left = Boxed::new(alloc, left)?;
    let right = Boxed::new(alloc, divisor)?;
    condition(alloc, count, RawExpr::Bin(op, 7, left, right))
}

/// The answer to a condition on a function with so many parameters.
fn condition(alloc: Global, count: u32, raw: RawExpr) -> Result<String, AllocError>
    requires { HasNaturalConstants (raw_expression_of raw) }
{
    let params = many(alloc, count)?;
    let func = function(alloc, params, Items::new(alloc))?;
    let funcs = Items::from_vec(vec![in alloc; func]?);
    match check(alloc, RawUnit { funcs }) {
        Err(fault) => format!(in alloc; "{fault:?}"),
        Ok(func) => match check_condition(alloc, raw, &func) {
            Ok(made) => format!(in alloc; "{made:?}"),
            Err(fault) => format!(in alloc; "{fault:?}"),
        },
    }
}

#[test]
fn files_hold_one_function(rt: HostRuntime) -> Result<(), Fail> {
    let alloc = rt.alloc();
    one_function();
    let none = RawUnit {
        funcs: Items::new(alloc),
    };
    let text = shown(alloc, check(alloc, none))?;
    assert_eq!(rt; text.as_str(), "NoFunction");
    let first = function(alloc, many(alloc, 0)?, Items::new(alloc))?;
    let second = function(alloc, many(alloc, 0)?, Items::new(alloc))?;
    let both = RawUnit {
        funcs: Items::from_vec(vec![in alloc; first, second]?),
    };
    let text = shown(alloc, check(alloc, both))?;
    assert_eq!(rt; text.as_str(), "ManyFunctions(2)");
    Ok(())
}

#[test]
fn faults_are_found(rt: HostRuntime) -> Result<(), Fail> {
    let alloc = rt.alloc();
    let rows = [
        (answer(alloc, 64, Items::new(alloc))?, "[]"),
        (answer(alloc, 65, Items::new(alloc))?, "ManyVariables(65)"),
        (
            answer(alloc, 64, declaration(alloc, 3)?)?,
            "Twice { name: Name(\"a0\"), line: 3 }",
        ),
        (
            answer(alloc, 0, one(alloc, RawStmt::Break(4))?)?,
            "Outside { line: 4 }",
        ),
        (
            answer(alloc, 0, two(alloc, RawStmt::Mark(5), RawStmt::Mark(5))?)?,
            "MarkTwice(5)",
        ),
        (
            answer(
                alloc,
                0,
                two(alloc, RawStmt::Mark(999_999), RawStmt::Mark(1_000_000))?,
            )?,
            "MarkRange(1000000)",
        ),
        (
            answer(alloc, 1, turning(alloc, None)?)?,
            "[Loop { mark: None, cond: Var(0), body: Items { items: [Mark(5)] }, \
            step: Items { items: [] }, test_first: true }]",
        ),
        (answer(alloc, 1, turning(alloc, Some(5))?)?, "MarkTwice(5)"),
        (
            answer(alloc, 1, turning(alloc, Some(6))?)?,
            "[Loop { mark: Some(6), cond: Var(0), body: Items { items: [Mark(5)] }, \
            step: Items { items: [] }, test_first: true }]",
        ),
        (
            answer(alloc, 0, turning(alloc, Some(7))?)?,
            "Undeclared { name: Name(\"a0\"), line: 1 }",
        ),
    ];
    for (text, want) in rows {
        assert_eq!(rt; text.as_str(), want);
    }
    Ok(())
}

/// What stands at the right of a division.
#[derive(Clone, Copy)]
enum Right {
    /// `-(-(+3))`
    Three,
    /// `-3`
    Negative,
    /// `0`
    Zero,
    /// `-0`
    MinusZero,
    /// `!0`
    NotZero,
    /// `a0`, which stands at the left too.
    Same,
    /// `a1`
    Other,
}

fn right_operand(alloc: Global, right: Right) -> Result<RawExpr, AllocError>
    ensures { IfOk result (λ made. HasNaturalConstants (raw_expression_of made)) }
{
    match right {
        Right::Three => {
            let positive = signed(alloc, UnOp::Plus, RawExpr::Num(3))?;
            let negative = signed(alloc, UnOp::Minus, positive)?;
            signed(alloc, UnOp::Minus, negative)
        }
        Right::Negative => signed(alloc, UnOp::Minus, RawExpr::Num(3)),
        Right::Zero => Ok(RawExpr::Num(0)),
        Right::MinusZero => signed(alloc, UnOp::Minus, RawExpr::Num(0)),
        Right::NotZero => signed(alloc, UnOp::Not, RawExpr::Num(0)),
        Right::Same => Ok(RawExpr::Var(name(alloc, "a0")?, 1)),
        Right::Other => Ok(RawExpr::Var(name(alloc, "a1")?, 2)),
    }
}

/// Divisions of `a0`, in conditions on functions with so many parameters.
const DIVISIONS: [(u32, BinOp, Right, &str); 9] = [
    (
        1,
        BinOp::Div,
        Right::Three,
        "Bin(Div, Boxed { inner: Var(0) }, Boxed { inner: Num(3) })",
    ),
    (
        1,
        BinOp::Div,
        Right::Negative,
        "Un(Minus, Boxed { inner: Bin(Div, Boxed { inner: Var(0) }, Boxed { inner: Num(3) }) })",
    ),
    (
        1,
        BinOp::Rem,
        Right::Negative,
        "Bin(Rem, Boxed { inner: Var(0) }, Boxed { inner: Num(3) })",
    ),
    (1, BinOp::Div, Right::Zero, "Divisor { line: 7 }"),
    (1, BinOp::Rem, Right::MinusZero, "Divisor { line: 7 }"),
    (1, BinOp::Div, Right::NotZero, "Divisor { line: 7 }"),
    (1, BinOp::Div, Right::Same, "Divisor { line: 7 }"),
    (1, BinOp::Rem, Right::Other, "Divisor { line: 7 }"),
    (
        0,
        BinOp::Div,
        Right::Zero,
        "Undeclared { name: Name(\"a0\"), line: 1 }",
    ),
];

#[test]
fn divisors_are_constants(rt: HostRuntime) -> Result<(), Fail> {
    let alloc = rt.alloc();
    one_condition();
    for (count, op, right, want) in DIVISIONS {
        let divisor = right_operand(alloc, right)?;
        let text = divided(alloc, count, op, divisor)?;
        assert_eq!(rt; text.as_str(), want);
    }
    Ok(())
}
