//! Samples that were worked out by hand.
ghost use Rattle.std.specs.Prelude.{◌≡◌, ◌<◌, IfOk};
ghost use Rattle.c_ast.specs.View.{expression_of, statements_of};
ghost use Rattle.c_ast.specs.Step.{first_variables};
ghost use Rattle.c_ast.specs.Formed.{IsProgram, IsOver};

use crate::{PairRefused, input, pair};
use c_ast::{BinOp, Expr, Func, Name, Pair, Settings, Stmt, Subject, UnOp, Var};
use sqlite_items::{Boxed, Items};
use std::alloc::{AllocError, Global};
use std::test::Fail;

#[test]
fn inputs_are_digits_to_base_five_and_then_words(rt: HostRuntime) -> Result<(), Fail> {
    let alloc = rt.alloc();
    let settings = Settings::new(100, 64, 400, 42).unwrap();
    let rows = [
        (0, 2, &[0, 0][..]),
        (1, 2, &[1, 0][..]),
        (5, 2, &[0, 1][..]),
        (23, 2, &[-1, 7][..]),
        (24, 2, &[7, 7][..]),
        // The first words of PCG's own demonstration, 0xa15c02b7 and 0x7b47f409.
        (54, 2, &[-13, 17][..]),
        (124, 4, &[7, 7, 7, 0][..]),
        (1, 0, &[][..]),
    ];
    for (index, arity, want) in rows {
        let got = input(alloc, &settings, index, arity)?;
        assert_eq!(rt; got.as_slice(), want, "{index} of {arity}");
    }
    Ok(())
}

/// The body of a function of the parameter `a`.
#[derive(Clone, Copy, Debug)]
enum Body {
    /// return a;
    Same,
    /// return -a;
    Opposite,
    /// return a * 9223372036854775807 * 9223372036854775807;
    Product,
    /// while (__mark(1) & a) ; return 0;
    Waiting,
}

fn func(alloc: Global, body: Vec<Stmt>) -> Result<Func, AllocError>
    requires { IsProgram (record { params = 1; vars = 1; body = statements_of body.items }) }
    ensures { IfOk result (λ func. func.params ≡ 1) }
{
    let mut vars = Vec::new(alloc);
    vars.push(Var {
        name: Name::new(String::from_str(alloc, "a")?),
        line: 1,
    })?;
    let name = Name::new(String::from_str(alloc, "f")?);
    Ok(Func::new(name, 1, vars, body))
}

/// return value;
fn returning(alloc: Global, value: Expr) -> Result<Func, AllocError>
    requires { IsOver (first_variables 1) (expression_of value) }
    ensures { IfOk result (λ func. func.params ≡ 1) }
{
    let mut body = Vec::new(alloc);
    body.push(Stmt::Return(value))?;
    func(alloc, body)
}

/// -a
fn opposite(alloc: Global) -> Result<Expr, AllocError>
    ensures { IfOk result (λ made. IsOver (first_variables 1) (expression_of made)) }
{
    Ok(Expr::Un(UnOp::Minus, Boxed::new(alloc, Expr::Var(0))?))
}

/// a * 9223372036854775807 * 9223372036854775807
fn product(alloc: Global) -> Result<Expr, AllocError>
    ensures { IfOk result (λ made. IsOver (first_variables 1) (expression_of made)) }
{
    let once = Expr::Bin(
        BinOp::Mul,
        Boxed::new(alloc, Expr::Var(0))?,
        Boxed::new(alloc, Expr::Num(i64::MAX))?,
    );
    Ok(Expr::Bin(
        BinOp::Mul,
        Boxed::new(alloc, once)?,
        Boxed::new(alloc, Expr::Num(i64::MAX))?,
    ))
}

/// a > 0
fn positive(alloc: Global) -> Result<Expr, AllocError>
    ensures { IfOk result (λ made. IsOver (first_variables 1) (expression_of made)) }
{
    Ok(Expr::Bin(
        BinOp::Greater,
        Boxed::new(alloc, Expr::Var(0))?,
        Boxed::new(alloc, Expr::Num(0))?,
    ))
}

fn waiting(alloc: Global) -> Result<Func, AllocError>
    ensures { IfOk result (λ func. func.params ≡ 1) }
{
    let mut body = Vec::new(alloc);
    body.push(Stmt::Loop {
        mark: Some(1),
        cond: Expr::Var(0),
        body: Items::new(alloc),
        step: Items::new(alloc),
        test_first: true,
    })?;
    body.push(Stmt::Return(Expr::Num(0)))?;
    func(alloc, body)
}

fn func_of(alloc: Global, body: Body) -> Result<Func, AllocError>
    ensures { IfOk result (λ func. func.params ≡ 1) }
{
    match body {
        Body::Same => returning(alloc, Expr::Var(0)),
        Body::Opposite => returning(alloc, opposite(alloc)?),
        Body::Product => returning(alloc, product(alloc)?),
        Body::Waiting => waiting(alloc),
    }
}

/// What the input is asked for.
#[derive(Clone, Copy, Debug)]
enum Asked {
    Nothing,
    /// a > 0
    Positive,
    /// a * 9223372036854775807 * 9223372036854775807
    Product,
}

fn subject_of(alloc: Global, first: Body, second: Body, asked: Asked) -> Result<Subject, AllocError>
    ensures { IfOk result (λ subject. subject.settings.samples ≡ 5) }
{
    let settings = Settings::new(5, 64, 400, 0).unwrap();
    let (first, second) = (func_of(alloc, first)?, func_of(alloc, second)?);
    let subject = match asked {
        Asked::Nothing => return Ok(Subject::new(first, second, settings).unwrap()),
        Asked::Positive => { Subject::with_condition(first, second, settings, positive(alloc)?) }
        Asked::Product => Subject::with_condition(first, second, settings, product(alloc)?),
    };
    Ok(subject.unwrap())
}

/// The input and the results, or what was skipped.
fn shown(alloc: Global, answer: &Result<Pair, PairRefused>) -> Result<String, AllocError> {
    let mut out = String::new(alloc);
    match answer {
        Ok(pair) => {
            for value in pair.input.as_slice() {
                write!(out, "{value}: ")?;
            }
            write!(out, "{} {}", pair.first.result, pair.second.result)?;
        }
        Err(PairRefused::Skipped(skipped)) => write!(out, "{:?} {:?}", skipped.side, skipped.why)?,
        Err(PairRefused::Memory) => return Err(AllocError),
    }
    Ok(out)
}

/// What is answered of the sample of the two functions.
fn answer(
    alloc: Global,
    first: Body,
    second: Body,
    asked: Asked,
    index: u32,
) -> Result<String, AllocError>
    requires { index < 5 }
{
    let subject = subject_of(alloc, first, second, asked)?;
    shown(alloc, &pair(alloc, &subject, index))
}

#[test]
fn samples_are_pairs_or_skipped(rt: HostRuntime) -> Result<(), Fail> {
    let alloc = rt.alloc();
    let rows = [
        (
            Body::Same,
            Body::Opposite,
            Asked::Nothing,
            ["0: 0 0", "1: 1 -1", "2: 2 -2", "-1: -1 1", "7: 7 -7"],
        ),
        (
            Body::Same,
            Body::Waiting,
            Asked::Nothing,
            [
                "0: 0 0",
                "B NotEnded",
                "B NotEnded",
                "B NotEnded",
                "B NotEnded",
            ],
        ),
        (
            Body::Product,
            Body::Waiting,
            Asked::Nothing,
            ["0: 0 0", "A Wide", "A Wide", "A Wide", "A Wide"],
        ),
        (
            Body::Same,
            Body::Waiting,
            Asked::Positive,
            [
                "Pre Unmet",
                "B NotEnded",
                "B NotEnded",
                "Pre Unmet",
                "B NotEnded",
            ],
        ),
        (
            Body::Waiting,
            Body::Same,
            Asked::Product,
            ["Pre Unmet", "Pre Wide", "Pre Wide", "Pre Wide", "Pre Wide"],
        ),
    ];
    for (first, second, asked, texts) in rows {
        for index in 0..5 {
            let got = answer(alloc, first, second, asked, index)?;
            assert_eq!(rt;
                got.as_str(),
                texts[index as usize],
                "{first:?} {second:?} {asked:?} {index}"
            );
        }
    }
    Ok(())
}
