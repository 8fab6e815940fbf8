//! Pairs that come one after another, in the shape of two loops that sum the numbers below n.
ghost use Rattle.std.specs.Prelude.{◌≡◌, IsTrue, IfOk, All};
ghost use Rattle.c_ast.specs.FitsRun.{FitsRun};
ghost use Rattle.walks.specs.Laws.{IsNarrowPair, IsNarrowTrace};

use crate::Live;
use alignment::Alignment;
use c_ast::{Event, Expr, Func, Name, Pair, Settings, Stmt, Subject, Trace, Var};
use miners::{Candidates, mine};
use sqlite_items::Items;
use std::alloc::{AllocError, Global};
use std::test::Fail;

/// How many pairs are added.
const PAIRS: u32 = 25;

fn fit_run(values: &[i128]) -> bool
    ensures { IsTrue result → All FitsRun values.now }
{
    values.iter().all(|value| value.unsigned_abs() < 1 << 100)
}

fn is_narrow_trace(trace: &Trace) -> bool
    ensures { IsTrue result → IsNarrowTrace trace.now }
{
    trace
        .events
        .as_slice()
        .iter()
        .all(|event| fit_run(event.values.as_slice()))
        && trace.result.unsigned_abs() < 1 << 100
}

fn is_narrow(pair: &Pair) -> bool
    ensures { IsTrue result → IsNarrowPair pair.now }
{
    fit_run(pair.input.as_slice()) && is_narrow_trace(&pair.first) && is_narrow_trace(&pair.second)
}

fn are_narrow(pairs: &[Pair]) -> bool
    ensures { IsTrue result → All IsNarrowPair pairs.now }
{
    pairs.iter().all(|pair| is_narrow(pair))
}

/// The run of a loop with mark 42 that sums the numbers from this one on that are below n. Its
/// values there are n, the number and the sum.
fn summing(alloc: Global, n: i128, from: i128) -> Result<Trace, AllocError> {
    let mut events = Items::new(alloc);
    let mut sum = 0i128;
    for i in from..n {
        events.push(Event {
            mark: 42,
            values: Items::from_slice(alloc, &[n, i, sum])?,
        })?;
        sum = sum.wrapping_add(i);
    }
    events.push(Event {
        mark: 42,
        values: Items::from_slice(alloc, &[n, n, sum])?,
    })?;
    Ok(Trace {
        events,
        result: sum,
    })
}

fn pair_of(alloc: Global, n: i128) -> Result<Pair, AllocError> {
    let input = Items::from_slice(alloc, &[n])?;
    let first = summing(alloc, n, 0)?;
    let second = summing(alloc, n, 1)?;
    Ok(Pair {
        input,
        first,
        second,
    })
}

/// int f(int n) { return n; }
fn func(alloc: Global) -> Result<Func, AllocError>
    ensures { IfOk result (λ func. func.params ≡ 1) }
{
    let mut body = Vec::new(alloc);
    body.push(Stmt::Return(Expr::Var(0)))?;
    let mut vars = Vec::new(alloc);
    vars.push(Var {
        name: Name::new(String::from_str(alloc, "n")?),
        line: 1,
    })?;
    let name = Name::new(String::from_str(alloc, "f")?);
    Ok(Func::new(name, 1, vars, body))
}

fn subject_of(alloc: Global) -> Result<Option<Subject>, AllocError> {
    let settings = Settings::new(100, 64, 400, 42).unwrap();
    match Subject::new(func(alloc)?, func(alloc)?, settings) {
        Ok(subject) => Ok(Some(subject)),
        Err(_) => Ok(None),
    }
}

fn numbered(number: u32) -> Option<Alignment> {
    for alignment in Alignment::named().iter() {
        if alignment.number() == number {
            return Some(*alignment);
        }
    }
    None
}

/// Whether the live candidates are those of all pairs at once.
fn are_mined(
    alloc: Global,
    live: &Live,
    subject: &Subject,
    alignment: Alignment,
    pairs: &[Pair],
) -> Result<bool, AllocError> {
    if !are_narrow(pairs) {
        return Ok(false);
    }
    let candidates: Candidates = live.candidates(alloc)?;
    let mined = mine(alloc, subject, alignment, pairs)?;
    Ok(candidates.family().same(mined.family()))
}

/// Adds the pair of this input, and compares.
fn adds(
    alloc: Global,
    live: &mut Live,
    subject: &Subject,
    alignment: Alignment,
    pairs: &mut Vec<Pair>,
    n: i128,
) -> Result<bool, AllocError> {
    let pair = pair_of(alloc, n)?;
    if !is_narrow(&pair) {
        return Ok(false);
    }
    live.add(alloc, &pair)?;
    pairs.push(pair)?;
    are_mined(alloc, live, subject, alignment, pairs.as_slice())
}

#[test]
fn candidates_are_those_of_the_pairs_so_far(rt: HostRuntime) -> Result<(), Fail> {
    let alloc = rt.alloc();
    let (Some(alignment), Some(subject)) = (numbered(2), subject_of(alloc)?) else {
        return Err(AllocError.into());
    };
    let mut live = Live::new(alloc, &subject, alignment)?;
    let mut pairs = Vec::new(alloc);
    assert!(rt;
        are_mined(alloc, &live, &subject, alignment, pairs.as_slice())?,
        "no pair"
    );
    for n in 0..PAIRS {
        assert!(rt;
            adds(
                alloc,
                &mut live,
                &subject,
                alignment,
                &mut pairs,
                i128::from(n)
            )?,
            "{n}"
        );
    }
    Ok(())
}
