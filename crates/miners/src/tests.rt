//! Candidates of pairs that were made by hand, and a plain slow miner beside the quick one.
ghost use Rattle.std.specs.Prelude.{◌≡◌, IsTrue, IfOk, All};
ghost use Rattle.c_ast.specs.FitsRun.{FitsRun};
ghost use Rattle.c_ast.specs.View.{expression_of, statements_of};
ghost use Rattle.c_ast.specs.Step.{first_variables};
ghost use Rattle.c_ast.specs.Formed.{IsProgram, IsOver};
ghost use Rattle.walks.specs.Laws.{IsNarrowPair, IsNarrowTrace};

use crate::accumulator::Accumulator;
use crate::{Candidates, mine};
use alignment::Alignment;
use c_ast::{BinOp, Expr, Func, Name, Pair, Place, Settings, Stmt, Subject, Trace, Var};
use horn_clauses::{Atom, Node, Rel};
use rand_core::utils::NextWord;
use rand_pcg::Lcg64Xsh32;
use sqlite_items::{Boxed, Items};
use std::alloc::{AllocError, Global};
use std::test::Fail;

const EXITS: Node = Node(Place::Exit, Place::Exit);

const CONSTANTS: [i64; 4] = [-1, 0, 1, 3];

/// An atom: its coefficients, its constant, and whether it is an equality.
type Row = (&'static [i64], i64, bool);

fn fit_run(values: &[i128]) -> bool
    ensures { IsTrue result → All FitsRun values.now }
{
    values.iter().all(|value| value.unsigned_abs() < 1 << 100)
}

fn is_row(atom: &Atom, row: &Row) -> bool {
    match atom {
        Atom::False => false,
        Atom::Linear {
            coefs,
            constant,
            rel,
        } => coefs.as_slice() == row.0 && *constant == row.1 && (*rel == Rel::Eq) == row.2,
    }
}

fn are_rows(atoms: &[Atom], rows: &[Row]) -> bool {
    atoms.len() == rows.len() && atoms.iter().zip(rows).all(|(atom, row)| is_row(atom, row))
}

fn is_narrow_trace(trace: &Trace) -> bool
    ensures { IsTrue result → IsNarrowTrace trace.now }
{
    trace
        .events
        .as_slice()
        .iter()
        .all(|event| fit_run(event.values.as_slice()))
        && trace.result.unsigned_abs() < 1 << 100
}

fn is_narrow(pair: &Pair) -> bool
    ensures { IsTrue result → IsNarrowPair pair.now }
{
    fit_run(pair.input.as_slice()) && is_narrow_trace(&pair.first) && is_narrow_trace(&pair.second)
}

fn are_narrow(pairs: &[Pair]) -> bool
    ensures { IsTrue result → All IsNarrowPair pairs.now }
{
    pairs.iter().all(|pair| is_narrow(pair))
}

/// The run of a function that passes no mark.
fn returned(alloc: Global, value: i128) -> Trace {
    Trace {
        events: Items::new(alloc),
        result: value,
    }
}

/// int f(int a) { return a + a; }
fn doubled(alloc: Global) -> Result<Func, AllocError>
    ensures { IfOk result (λ func. func.params ≡ 1) }
{
    let value = Expr::Bin(
        BinOp::Add,
        Boxed::new(alloc, Expr::Var(0))?,
        Boxed::new(alloc, Expr::Var(0))?,
    );
    let mut body = Vec::new(alloc);
    body.push(Stmt::Return(value))?;
    let mut vars = Vec::new(alloc);
    vars.push(Var {
        name: Name::new(String::from_str(alloc, "a")?),
        line: 1,
    })?;
    let name = Name::new(String::from_str(alloc, "f")?);
    Ok(Func::new(name, 1, vars, body))
}

fn numbered(number: u32) -> Option<Alignment> {
    for alignment in Alignment::named().iter() {
        if alignment.number() == number {
            return Some(*alignment);
        }
    }
    None
}

/// What is mined of runs that return these results on both sides.
fn mined(alloc: Global, results: &[(i128, i128)]) -> Result<Option<Candidates>, AllocError> {
    let mut pairs = Vec::new(alloc);
    for (first, second) in results {
        pairs.push(Pair {
            input: Items::from_slice(alloc, &[0])?,
            first: returned(alloc, *first),
            second: returned(alloc, *second),
        })?;
    }
    let settings = Settings::new(100, 64, 400, 42).unwrap();
    let Ok(subject) = Subject::new(doubled(alloc)?, doubled(alloc)?, settings) else {
        return Ok(None);
    };
    if !are_narrow(pairs.as_slice()) {
        return Ok(None);
    }
    let Some(alignment) = numbered(1) else {
        return Ok(None);
    };
    Ok(Some(mine(alloc, &subject, alignment, pairs.as_slice())?))
}

/// The candidates at the exits are these.
fn has_at_exits(candidates: &Option<Candidates>, rows: Option<&[Row]>) -> bool {
    match candidates {
        None => false,
        Some(candidates) => match (candidates.at(&EXITS), rows) {
            (None, None) => true,
            (Some(atoms), Some(rows)) => are_rows(atoms, rows),
            _ => false,
        },
    }
}

#[test]
fn results_that_are_equal(rt: HostRuntime) -> Result<(), Fail> {
    let alloc = rt.alloc();
    let rows: [Row; 5] = [
        (&[1, -1], 0, true),
        (&[1, -1], -1, false),
        (&[1, -1], 0, false),
        (&[-1, 1], -1, false),
        (&[-1, 1], 0, false),
    ];
    let made = mined(alloc, &[(0, 0), (2, 2), (4, 4), (-2, -2), (14, 14)])?;
    assert!(rt; has_at_exits(&made, Some(&rows)), "equal results");
    let unmet = mined(alloc, &[])?;
    assert!(rt; has_at_exits(&unmet, None), "no pairs");
    if let Some(candidates) = made {
        let copy = candidates.copy(alloc)?;
        assert!(rt; has_at_exits(&Some(copy), Some(&rows)), "a copy");
    }
    Ok(())
}

/// The coefficients with this number: 2 less each of its digits to base 5.
fn coefs_of(alloc: Global, number: u32, count: usize) -> Result<Vec<i64>, AllocError> {
    let mut coefs = Vec::new(alloc);
    let mut left = number;
    for _ in 0..count {
        coefs.push(2 - i64::from(left % 5))?;
        left /= 5;
    }
    coefs.reverse();
    Ok(coefs)
}

fn count_of(coefs: &[i64], size: u64) -> usize {
    coefs
        .iter()
        .filter(|coef| coef.unsigned_abs() == size)
        .count()
}

fn is_positive_first(coefs: &[i64]) -> bool {
    match coefs.iter().find(|coef| **coef != 0) {
        None => false,
        Some(coef) => *coef > 0,
    }
}

fn is_shape(coefs: &[i64]) -> bool {
    let (ones, twos) = (count_of(coefs, 1), count_of(coefs, 2));
    let few = match (ones, twos) {
        (4, 0) | (1, 0) | (1, 1) | (1, 2) | (2, 0) | (2, 1) | (3, 0) => true,
        _ => false,
    };
    is_positive_first(coefs) && few
}

fn is_bound(coefs: &[i64]) -> bool {
    let plus = coefs.iter().filter(|coef| **coef == 1).count();
    let minus = coefs.iter().filter(|coef| **coef == -1).count();
    let few = match (plus, minus) {
        (0, 1) | (1, 0) | (1, 1) => true,
        _ => false,
    };
    few && count_of(coefs, 2) == 0
}

fn sum(coefs: &[i64], point: &[i128]) -> i128 {
    let mut sum = 0i128;
    for (coef, value) in coefs.iter().zip(point) {
        sum = sum.wrapping_add(i128::from(*coef).wrapping_mul(*value));
    }
    sum
}

/// Adds the equality with these coefficients, if it holds at all points.
fn add_equality(
    alloc: Global,
    atoms: &mut Items<Atom>,
    coefs: &[i64],
    points: &[Items<i128>],
) -> Result<(), AllocError> {
    let Some(first) = points.first() else {
        return Ok(());
    };
    let constant = sum(coefs, first.as_slice());
    let holds = points
        .iter()
        .all(|point| sum(coefs, point.as_slice()) == constant);
    if holds && constant.unsigned_abs() < 1 << 50 {
        atoms.push(Atom::Linear {
            coefs: Items::from_slice(alloc, coefs)?,
            constant: constant as i64,
            rel: Rel::Eq,
        })?;
    }
    Ok(())
}

/// Adds the bounds with these coefficients that hold at all points.
fn add_bounds(
    alloc: Global,
    atoms: &mut Items<Atom>,
    coefs: &[i64],
    points: &[Items<i128>],
) -> Result<(), AllocError> {
    for constant in CONSTANTS {
        let holds = points.iter().all(|point| sum(coefs, point.as_slice()) >= i128::from(constant));
        if holds {
            atoms.push(Atom::Linear {
                coefs: Items::from_slice(alloc, coefs)?,
                constant,
                rel: Rel::AtLeast,
            })?;
        }
    }
    Ok(())
}

/// All atoms of the template that hold at the points: each list of coefficients is tried.
fn slowly(alloc: Global, points: &[Items<i128>], count: usize) -> Result<Items<Atom>, AllocError> {
    let mut atoms = Items::new(alloc);
    for number in 0..625 {
        let coefs = coefs_of(alloc, number, count)?;
        if is_shape(coefs.as_slice()) {
            add_equality(alloc, &mut atoms, coefs.as_slice(), points)?;
        }
    }
    for number in 0..625 {
        let coefs = coefs_of(alloc, number, count)?;
        if is_bound(coefs.as_slice()) {
            add_bounds(alloc, &mut atoms, coefs.as_slice(), points)?;
        }
    }
    Ok(atoms)
}

/// The same atoms by way of a node that one point after another strikes.
fn quickly(alloc: Global, points: &[Items<i128>]) -> Result<Option<Items<Atom>>, AllocError> {
    let Some((first, others)) = points.split_first() else {
        return Ok(None);
    };
    if !fit_run(first.as_slice()) {
        return Ok(None);
    }
    let mut node = Accumulator::new(alloc, EXITS, first.as_slice(), &[])?;
    for point in others {
        if fit_run(point.as_slice()) {
            node.strike(&[], point.as_slice());
        }
    }
    Ok(Some(node.atoms(alloc, &CONSTANTS)?))
}

fn random_point(
    alloc: Global,
    words: &mut Lcg64Xsh32,
    count: usize,
) -> Result<Items<i128>, AllocError> {
    let mut point = Items::new(alloc);
    for _ in 0..count {
        point.push(i128::from(words.next_word() % 3))?;
    }
    Ok(point)
}

fn are_same(first: &[Atom], second: &[Atom]) -> bool {
    first.len() == second.len()
        && first
            .iter()
            .zip(second)
            .all(|(atom, other)| atom.same(other))
}

#[test]
fn points_leave_what_a_slow_miner_finds(rt: HostRuntime) -> Result<(), Fail> {
    let alloc = rt.alloc();
    let mut words = Lcg64Xsh32::new(42, 54);
    for count in 1..20 {
        let mut points = Vec::new(alloc);
        for _ in 0..count {
            points.push(random_point(alloc, &mut words, 4)?)?;
        }
        let slow = slowly(alloc, points.as_slice(), 4)?;
        let quick = quickly(alloc, points.as_slice())?;
        let same = match &quick {
            None => false,
            Some(atoms) => are_same(atoms.as_slice(), slow.as_slice()),
        };
        assert!(rt; same, "{count} points");
    }
    Ok(())
}

/// How many atoms a node of one point has: as many zeros, then this value.
fn count_of_first(alloc: Global, zeros: usize, value: i128) -> Result<Option<usize>, AllocError> {
    let mut point = Items::new(alloc);
    for _ in 0..zeros {
        point.push(0)?;
    }
    point.push(value)?;
    match quickly(alloc, &[point])? {
        None => Ok(None),
        Some(atoms) => Ok(Some(atoms.len())),
    }
}

#[test]
fn constants_and_nodes_that_are_too_wide(rt: HostRuntime) -> Result<(), Fail> {
    let alloc = rt.alloc();
    let rows = [
        // x = 2^50 - 1, and x >= -1, 0, 1, 3
        (0, (1 << 50) - 1, 5),
        // x >= -1, 0, 1, 3
        (0, 1 << 50, 4),
        // 30,976 equalities, and of 272 bounds those of -1 and 0
        (15, 0, 31520),
        (16, 0, 0),
    ];
    for (zeros, value, want) in rows {
        assert_eq!(rt;
            count_of_first(alloc, zeros, value)?,
            Some(want),
            "{zeros} {value}"
        );
    }
    Ok(())
}
