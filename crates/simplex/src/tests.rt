//! Rows that were worked out by hand, and random rows. Each guess is tested.
use crate::{Guess, Polyhedron, try_point};
use farkas_check::{is_checkable, refutes};
use lin_terms::{Point, Row};
use std::alloc::{AllocError, Global};
use std::test::Fail;

/// What a guess is worth.
#[derive(Clone, Copy, Debug, Drop, PartialEq)]
enum Worth {
    /// Its point meets the rows.
    Met,
    /// Its multipliers refute the rows.
    Refuted,
    Nothing,
    /// Its numbers are too wide to be tested.
    Wide,
    Wrong,
}

fn worth_of_point(rows: &[Row], point: &Point) -> Worth {
    if point.denominator < 1 {
        return Worth::Wrong;
    }
    for row in rows {
        match point.meets(row) {
            Some(true) => {}
            Some(false) => return Worth::Wrong,
            None => return Worth::Wide,
        }
    }
    Worth::Met
}

fn worth_of_multipliers(rows: &[Row], multipliers: &[i128]) -> Worth {
    if multipliers.len() != rows.len() {
        return Worth::Wrong;
    }
    if !is_checkable(rows, multipliers) {
        return Worth::Wide;
    }
    if refutes(rows, multipliers) {
        Worth::Refuted
    } else {
        Worth::Wrong
    }
}

fn worth_of(rows: &[Row], guess: &Guess) -> Worth {
    match guess {
        Guess::Point(point) => worth_of_point(rows, point),
        Guess::Multipliers(multipliers) => worth_of_multipliers(rows, multipliers.as_slice()),
        Guess::Nothing => Worth::Nothing,
    }
}

fn worth_of_try(alloc: Global, rows: &[Row]) -> Result<Worth, AllocError> {
    let guess = try_point(alloc, rows)?;
    Ok(worth_of(rows, &guess))
}

/// What one polyhedron guesses about one row after the other.
fn guesses(alloc: Global, rows: &[Row], more: &[Row]) -> Result<Vec<Guess>, AllocError> {
    let mut made = Vec::new(alloc);
    let mut polyhedron = Polyhedron::new(alloc, rows)?;
    for row in more {
        made.push(polyhedron.try_with(alloc, row)?)?;
    }
    Ok(made)
}

/// What the guess about the rows and one more is worth.
fn worth_with(
    alloc: Global,
    rows: &mut Vec<Row>,
    row: &Row,
    guess: &Guess,
) -> Result<Worth, AllocError> {
    rows.push(row.copy(alloc)?)?;
    let worth = worth_of(rows.as_slice(), guess);
    let _ = rows.pop();
    Ok(worth)
}

/// What each guess of one polyhedron is worth.
fn worths(alloc: Global, rows: &mut Vec<Row>, more: &[Row]) -> Result<Vec<Worth>, AllocError> {
    let made = guesses(alloc, rows.as_slice(), more)?;
    let mut found = Vec::new(alloc);
    for (row, guess) in more.iter().zip(made.as_slice()) {
        found.push(worth_with(alloc, rows, row, guess)?)?;
    }
    Ok(found)
}

/// Coefficients, constant and whether it is an equality.
type Entries = (&'static [i64], i64, bool);

/// Rows and what the guess about them is worth; then more rows, about which one polyhedron is asked
/// in turn, and what its guesses are worth.
type System = (
    &'static [Entries],
    Worth,
    &'static [Entries],
    &'static [Worth],
);

const SYSTEMS: [System; 10] = [
    // no row at all, then -1 >= 0 and x - 1 >= 0
    (
        &[],
        Worth::Met,
        &[(&[], -1, false), (&[1], -1, false)],
        &[Worth::Refuted, Worth::Met],
    ),
    // x >= 1, with x <= 0, then 2x <= 3, then x >= 9, to which x rises without a bound
    (
        &[(&[1], -1, false)],
        Worth::Met,
        &[(&[-1], 0, false), (&[-2], 3, false), (&[1], -9, false)],
        &[Worth::Refuted, Worth::Met, Worth::Met],
    ),
    // 2x >= 1 and 2x <= 1: at 1/2
    (
        &[(&[2], -1, false), (&[-2], 1, false)],
        Worth::Met,
        &[],
        &[],
    ),
    // x >= 1 and x <= 0, whatever comes
    (
        &[(&[1], -1, false), (&[-1], 0, false)],
        Worth::Refuted,
        &[(&[1], 0, false), (&[0], 3, true)],
        &[Worth::Refuted, Worth::Refuted],
    ),
    // 5 = 0 and -5 = 0
    (&[(&[0], 5, true)], Worth::Refuted, &[], &[]),
    (&[(&[0], -5, true)], Worth::Refuted, &[], &[]),
    // 2x = 1, with 2x = 3, then 4x = 2, then x >= 1 and x <= 1
    (
        &[(&[2], -1, true)],
        Worth::Met,
        &[
            (&[2], -3, true),
            (&[4], -2, true),
            (&[1], -1, false),
            (&[-1], 1, false),
        ],
        &[Worth::Refuted, Worth::Met, Worth::Refuted, Worth::Met],
    ),
    // 0 <= x <= 3, with x = 2, then x = -1 and x = 4, then x >= 3 and x >= 4
    (
        &[(&[1], 0, false), (&[-1], 3, false)],
        Worth::Met,
        &[
            (&[1], -2, true),
            (&[1], 1, true),
            (&[1], -4, true),
            (&[1], -3, false),
            (&[1], -4, false),
        ],
        &[
            Worth::Met,
            Worth::Refuted,
            Worth::Refuted,
            Worth::Met,
            Worth::Refuted,
        ],
    ),
    // y >= 0, with x = 7, of which no row speaks, then x + y <= -2, then y <= -1
    (
        &[(&[0, 1], 0, false)],
        Worth::Met,
        &[
            (&[1, 0], -7, true),
            (&[-1, -1], -2, false),
            (&[0, -1], -1, false),
        ],
        &[Worth::Met, Worth::Met, Worth::Refuted],
    ),
    // 3x - 2y >= 1, 3x + y <= 2 and y >= 0, with x >= 1, then x <= 0, then 2x = 1, then a short row
    (
        &[
            (&[3, -2], -1, false),
            (&[-3, -1], 2, false),
            (&[0, 1], 0, false),
        ],
        Worth::Met,
        &[
            (&[1, 0], -1, false),
            (&[-1, 0], 0, false),
            (&[2, 0], -1, true),
            (&[1], 0, false),
        ],
        &[Worth::Refuted, Worth::Refuted, Worth::Met, Worth::Nothing],
    ),
];

fn rows_of(alloc: Global, given: &[Entries]) -> Result<Vec<Row>, AllocError> {
    let mut made = Vec::new(alloc);
    for (coefs, constant, equality) in given {
        made.push(Row::new(alloc, coefs, *constant, *equality)?)?;
    }
    Ok(made)
}

#[test]
fn small_rows(rt: HostRuntime) -> Result<(), Fail> {
    let alloc = rt.alloc();
    for (given, first, more, wanted) in SYSTEMS {
        let mut rows = rows_of(alloc, given)?;
        let found = worth_of_try(alloc, rows.as_slice())?;
        assert_eq!(rt; found, first, "{rows:?}");
        let more = rows_of(alloc, more)?;
        let found = worths(alloc, &mut rows, more.as_slice())?;
        assert_eq!(rt; found.as_slice(), wanted, "{rows:?}, then {more:?}");
    }
    Ok(())
}

/// 2^40 x >= 1 and 2^40 y >= 1, whose dictionary has the denominator 2^80. The constant -2^50 then
/// passes 128 bits, and the next question has to begin anew: x <= 0 is refuted.
#[test]
fn a_spoilt_polyhedron_is_good_again(rt: HostRuntime) -> Result<(), Fail> {
    let alloc = rt.alloc();
    let mut rows = rows_of(
        alloc,
        &[(&[1 << 40, 0], -1, false), (&[0, 1 << 40], -1, false)],
    )?;
    let more = rows_of(alloc, &[(&[0, 0], -1 << 50, false), (&[-1, 0], 0, false)])?;
    let found = worths(alloc, &mut rows, more.as_slice())?;
    assert_eq!(rt; found.as_slice(), &[Worth::Nothing, Worth::Refuted][..]);
    Ok(())
}

/// The row `x - 1 = 0` of each of so many variables, which costs a pivot each.
fn each_is_one(alloc: Global, count: usize) -> Result<Vec<Row>, AllocError> {
    let mut rows = Vec::new(alloc);
    for i in 0..count {
        let mut coefs = vec![in alloc; 0; count]?;
        coefs[i] = 1;
        rows.push(Row::new(alloc, coefs.as_slice(), -1, true)?)?;
    }
    Ok(rows)
}

#[test]
fn a_thousand_pivots_are_made(rt: HostRuntime) -> Result<(), Fail> {
    let alloc = rt.alloc();
    for (count, want) in [(1000, Worth::Met), (1001, Worth::Nothing)] {
        let rows = each_is_one(alloc, count)?;
        let found = worth_of_try(alloc, rows.as_slice())?;
        assert_eq!(rt; found, want, "{count} pivots");
    }
    Ok(())
}

/// Random numbers, the same in each run (a linear congruential generator, with the constants of
/// Numerical Recipes).
#[derive(Drop)]
struct Random {
    state: u32,
}

impl Random {
    /// A number below the bound.
    fn below(&mut self, bound: u32) -> u32 {
        self.state = self.state.wrapping_mul(1664525).wrapping_add(1013904223);
        (self.state >> 12) % bound.max(1)
    }

    /// A number of at most this size times the scale, and something small with a great scale.
    fn entry(&mut self, size: u8, scale: u32) -> i64 {
        let number = i64::from(self.below(2 * u32::from(size) + 1)).wrapping_sub(i64::from(size));
        number
            .wrapping_mul(i64::from(scale))
            .wrapping_add(i64::from(self.below(5.min(scale))))
    }

    fn row(&mut self, alloc: Global, columns: u32, scale: u32) -> Result<Row, AllocError> {
        let mut coefs = Vec::new(alloc);
        for _ in 0..columns {
            coefs.push(self.entry(3, scale))?;
        }
        let constant = self.entry(9, scale);
        let equality = self.below(4) == 0;
        Row::new(alloc, coefs.as_slice(), constant, equality)
    }

    fn rows(
        &mut self,
        alloc: Global,
        count: u32,
        columns: u32,
        scale: u32,
    ) -> Result<Vec<Row>, AllocError> {
        let mut rows = Vec::new(alloc);
        for _ in 0..count {
            rows.push(self.row(alloc, columns, scale)?)?;
        }
        Ok(rows)
    }
}

/// How many guesses are right, untested, nothing and wrong.
#[derive(Debug, Drop)]
struct Tally {
    right: u32,
    wide: u32,
    nothing: u32,
    wrong: u32,
}

impl Tally {
    fn count(&mut self, worth: Worth) {
        match worth {
            Worth::Met | Worth::Refuted => self.right = self.right.wrapping_add(1),
            Worth::Nothing => self.nothing = self.nothing.wrapping_add(1),
            Worth::Wide => self.wide = self.wide.wrapping_add(1),
            Worth::Wrong => self.wrong = self.wrong.wrapping_add(1),
        }
    }
}

/// A fresh call about up to 12 rows of up to 5 columns, and eight questions of one polyhedron.
fn try_system(
    alloc: Global,
    random: &mut Random,
    scale: u32,
    tally: &mut Tally,
) -> Result<(), AllocError> {
    let columns = random.below(5).wrapping_add(1);
    let count = random.below(12).wrapping_add(1);
    let mut rows = random.rows(alloc, count, columns, scale)?;
    tally.count(worth_of_try(alloc, rows.as_slice())?);
    let more = random.rows(alloc, 8, columns, scale)?;
    for worth in worths(alloc, &mut rows, more.as_slice())?.as_slice() {
        tally.count(*worth);
    }
    Ok(())
}

/// What the guesses of 400 random systems are worth.
fn tally_of(alloc: Global, scale: u32) -> Result<Tally, AllocError> {
    let mut random = Random { state: 7 };
    let mut tally = Tally {
        right: 0,
        wide: 0,
        nothing: 0,
        wrong: 0,
    };
    for _ in 0..400 {
        try_system(alloc, &mut random, scale, &mut tally)?;
    }
    Ok(tally)
}

#[test]
fn random_rows(rt: HostRuntime) -> Result<(), Fail> {
    let alloc = rt.alloc();
    let small = tally_of(alloc, 1)?;
    assert_eq!(rt; small.right, 3600, "{small:?}");
    for scale in [1 << 10, 1 << 20] {
        let great = tally_of(alloc, scale)?;
        assert_eq!(rt; great.wrong, 0, "{great:?}");
    }
    Ok(())
}
