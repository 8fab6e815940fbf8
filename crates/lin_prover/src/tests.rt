//! Rows and guesses that were worked out by hand, and random rows.
use crate::{Answer, Guess, Limit, is_point_of, prove, settle};
use elimination::decide;
use lin_terms::{Point, Row, are_fitting_rows, have_one_length};
use sqlite_items::Items;
use std::alloc::{AllocError, Global};
use std::process::Abort;
use std::test::Fail;

/// What is answered: multipliers, or that there are none, or a limit.
type Want = Result<Option<&'static [i128]>, Limit>;

/// Coefficients, constant and whether it is an equality.
type Entries = (&'static [i64], i64, bool);

fn rows_of(alloc: Global, given: &[Entries]) -> Result<Vec<Row>, AllocError> {
    let mut made = Vec::new(alloc);
    for (coefs, constant, equality) in given {
        made.push(Row::new(alloc, coefs, *constant, *equality)?)?;
    }
    Ok(made)
}

fn is_wanted(answer: &Result<Answer, Limit>, want: &Want) -> bool {
    match (answer, want) {
        (Ok(Answer::Refuted(found)), Ok(Some(multipliers))) => found.as_slice() == *multipliers,
        (Ok(Answer::NotRefutable), Ok(None)) => true,
        (Err(found), Err(limit)) => *found == *limit,
        _ => false,
    }
}

/// x - 1 >= 0 and -x >= 0
const APART: &[Entries] = &[(&[1], -1, false), (&[-1], 0, false)];

/// 2x - 1 >= 0 and 1 - 2x >= 0
const BETWEEN: &[Entries] = &[(&[2], -1, false), (&[-2], 1, false)];

/// 2x - 1 = 0 and x >= 0
const HALF: &[Entries] = &[(&[2], -1, true), (&[1], 0, false)];

/// The rows, the cap, and what is answered.
const SYSTEMS: [(&[Entries], u32, Want); 5] = [
    (&[], 4, Ok(None)),
    (APART, 4, Ok(Some(&[1, 1]))),
    // elimination would need two rows
    (APART, 1, Ok(Some(&[1, 1]))),
    (BETWEEN, 4, Ok(None)),
    (HALF, 0, Ok(None)),
];

/// What `prove` answers, where it may be asked.
fn proved(rt: &impl Abort, alloc: Global, rows: &[Row], cap: u32) -> Result<Answer, Limit> {
    assert!(rt; have_one_length(rows) && are_fitting_rows(rows));
    prove(alloc, rows, cap)
}

/// What `settle` answers with a guess, where it may be asked.
fn settled(
    rt: &impl Abort,
    alloc: Global,
    rows: &[Row],
    cap: u32,
    guess: Guess,
) -> Result<Answer, Limit> {
    assert!(rt; have_one_length(rows) && are_fitting_rows(rows));
    settle(alloc, rows, cap, guess)
}

#[test]
fn rows_are_proved(rt: HostRuntime) -> Result<(), Fail> {
    let alloc = rt.alloc();
    for (given, cap, want) in SYSTEMS {
        let rows = rows_of(alloc, given)?;
        let got = proved(&rt, alloc, rows.as_slice(), cap);
        assert!(rt;
            is_wanted(&got, &want),
            "{rows:?} with a cap of {cap}: {got:?}"
        );
    }
    Ok(())
}

/// A guess as a table has it.
#[derive(Clone, Copy, Debug)]
enum Told {
    Multipliers(&'static [i128]),
    /// Numbers and a denominator.
    Point(&'static [i128], i128),
    Nothing,
}

fn point_of(alloc: Global, numbers: &[i128], denominator: i128) -> Result<Point, AllocError> {
    Ok(Point {
        numbers: Items::from_slice(alloc, numbers)?,
        denominator,
    })
}

fn guess_of(alloc: Global, told: &Told) -> Result<Guess, AllocError> {
    match *told {
        Told::Multipliers(multipliers) => {
            let made = Vec::from_slice(alloc, multipliers)?;
            Ok(Guess::Multipliers(made))
        }
        Told::Point(numbers, denominator) => {
            let made = point_of(alloc, numbers, denominator)?;
            Ok(Guess::Point(made))
        }
        Told::Nothing => Ok(Guess::Nothing),
    }
}

/// Elimination with a cap of 1, which is asked where the guess is not confirmed.
const ASKED: Want = Err(Limit::ManyRows);

/// Rows, a guess, and what is answered with a cap of 1.
const GUESSES: [(&[Entries], Told, Want); 26] = [
    (APART, Told::Multipliers(&[1, 1]), Ok(Some(&[1, 1]))),
    (APART, Told::Multipliers(&[6, 6]), Ok(Some(&[6, 6]))),
    (
        APART,
        Told::Multipliers(&[(1 << 56) - 1, (1 << 56) - 1]),
        Ok(Some(&[(1 << 56) - 1, (1 << 56) - 1])),
    ),
    (APART, Told::Multipliers(&[1 << 56, 1 << 56]), ASKED),
    (APART, Told::Multipliers(&[1, 2]), ASKED),
    (APART, Told::Multipliers(&[0, 0]), ASKED),
    (APART, Told::Multipliers(&[-1, -1]), ASKED),
    // too few, and one too many
    (APART, Told::Multipliers(&[]), ASKED),
    (APART, Told::Multipliers(&[1]), ASKED),
    (APART, Told::Multipliers(&[1, 1, 0]), ASKED),
    // the first row alone holds, then the last alone
    (APART, Told::Point(&[1], 1), ASKED),
    (APART, Told::Point(&[0], 1), ASKED),
    // 0 is at least 0
    (APART, Told::Point(&[0], 0), ASKED),
    (APART, Told::Nothing, ASKED),
    (BETWEEN, Told::Point(&[1], 2), Ok(None)),
    (BETWEEN, Told::Point(&[-1], -2), ASKED),
    (BETWEEN, Told::Point(&[0], 0), ASKED),
    (BETWEEN, Told::Point(&[1 << 58], 1 << 59), Ok(None)),
    (BETWEEN, Told::Point(&[1 << 59], 1 << 60), ASKED),
    // a number is missing, which counts as 0, and one is too many
    (BETWEEN, Told::Point(&[], 2), ASKED),
    (BETWEEN, Told::Point(&[1, 1], 2), Ok(None)),
    (BETWEEN, Told::Multipliers(&[1, 1]), ASKED),
    (HALF, Told::Point(&[1], 2), Ok(None)),
    // the equality comes to 1
    (HALF, Told::Point(&[1], 1), ASKED),
    (HALF, Told::Point(&[i128::MAX], i128::MIN), ASKED),
    (HALF, Told::Multipliers(&[i128::MIN, i128::MAX]), ASKED),
];

#[test]
fn guesses_are_tested(rt: HostRuntime) -> Result<(), Fail> {
    let alloc = rt.alloc();
    for (given, told, want) in GUESSES {
        let rows = rows_of(alloc, given)?;
        let guess = guess_of(alloc, &told)?;
        let got = settled(&rt, alloc, rows.as_slice(), 1, guess);
        assert!(rt; is_wanted(&got, &want), "{rows:?} with {told:?}: {got:?}");
    }
    Ok(())
}

/// The row x >= 0, so many times, which 0 meets.
fn repeated(alloc: Global, count: usize) -> Result<Vec<Row>, AllocError> {
    let mut rows = Vec::new(alloc);
    for _ in 0..count {
        rows.push(Row::new(alloc, &[1], 0, false)?)?;
    }
    Ok(rows)
}

#[test]
fn guesses_about_4096_rows_are_asked(rt: HostRuntime) -> Result<(), Fail> {
    let alloc = rt.alloc();
    for (count, want) in [(4096, Ok(None)), (4097, ASKED)] {
        let rows = repeated(alloc, count)?;
        let point = point_of(alloc, &[0], 1)?;
        assert!(rt; is_point_of(rows.as_slice(), &point));
        let got = settled(&rt, alloc, rows.as_slice(), 1, Guess::Point(point));
        assert!(rt;
            is_wanted(&got, &want),
            "a guess about {count} rows: {got:?}"
        );
        let got = proved(&rt, alloc, rows.as_slice(), 1);
        assert!(rt; is_wanted(&got, &want), "{count} rows: {got:?}");
    }
    Ok(())
}

/// Random numbers, the same in each run (a linear congruential generator, with the constants of
/// Numerical Recipes).
#[derive(Drop)]
struct Random {
    state: u32,
}

impl Random {
    /// A number below the bound.
    fn below(&mut self, bound: u32) -> u32 {
        self.state = self.state.wrapping_mul(1664525).wrapping_add(1013904223);
        (self.state >> 12) % bound.max(1)
    }

    /// A number from -3 to 3.
    fn entry(&mut self) -> i64 {
        i64::from(self.below(7)).wrapping_sub(3)
    }

    fn row(&mut self, alloc: Global, columns: u32) -> Result<Row, AllocError> {
        let mut coefs = Vec::new(alloc);
        for _ in 0..columns {
            coefs.push(self.entry())?;
        }
        let equality = self.below(4) == 0;
        Row::new(alloc, coefs.as_slice(), self.entry(), equality)
    }

    /// Up to 8 rows of up to 4 columns.
    fn rows(&mut self, alloc: Global) -> Result<Vec<Row>, AllocError> {
        let columns = self.below(4).wrapping_add(1);
        let mut rows = Vec::new(alloc);
        for _ in 0..self.below(8).wrapping_add(1) {
            rows.push(self.row(alloc, columns)?)?;
        }
        Ok(rows)
    }
}

/// Whether `prove` with a cap of 0, where a guess alone can answer, and `decide` answer the same of
/// the rows.
fn agree(alloc: Global, rows: &[Row]) -> bool {
    if !have_one_length(rows) || !are_fitting_rows(rows) {
        return false;
    }
    match (prove(alloc, rows, 0), decide(alloc, rows, 4000)) {
        (Ok(Answer::Refuted(_)), Ok(Answer::Refuted(_))) => true,
        (Ok(Answer::NotRefutable), Ok(Answer::NotRefutable)) => true,
        _ => false,
    }
}

#[test]
fn elimination_agrees(rt: HostRuntime) -> Result<(), Fail> {
    let alloc = rt.alloc();
    let mut random = Random { state: 7 };
    for _ in 0..3_000 {
        let rows = random.rows(alloc)?;
        assert!(rt; agree(alloc, rows.as_slice()), "{rows:?}");
    }
    Ok(())
}
