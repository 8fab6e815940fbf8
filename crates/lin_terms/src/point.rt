//! Points: numbers over one denominator.
ghost use Rattle.std.specs.Prelude.{◌≡◌, ◌<◌, ◌≤◌, ◌^◌, ◌*◌, ◌↔◌, ◌+ℤ◌, ◌*ℤ◌, pos, slice_index_or, unsigned_abs, length, All, IsTrue, MatchOption};
ghost use Rattle.lin_terms.specs.Bounds.{FitsRow};
ghost use Rattle.lin_terms.specs.Point.{CanJudge};
ghost use Rattle.lin_terms.specs.Row.{Meets};
ghost use Rattle.lin_terms.specs.Vectors.{dot};

use crate::row::{Row, allows, is_fitting_row};
use sqlite_items::Items;

/// Numbers over one denominator, which is positive: the values of variables, by number.
#[derive(Debug, Drop)]
pub struct Point {
    pub numbers: Items<i128>,
    pub denominator: i128,
}

/// The numbers of a point are below this size: 2^60.
const WIDE_POINT: u128 = 1 << 60;

/// A row that is judged at a point has at most so many columns.
const MOST_COLUMNS: usize = 1024;

fn are_small(numbers: &[i128]) -> bool
    ensures { IsTrue result ↔ All (λ number. unsigned_abs number < 2 ^ 60) numbers.now }
{
    numbers
        .iter()
        .all(|number| number.unsigned_abs() < WIDE_POINT)
}

/// An entry of a row times a number of a point.
fn term(entry: &i64, number: &i128) -> i128
    requires fits { FitsRow entry.now }
    requires small { unsigned_abs number.now < 2 ^ 60 }
    ensures value { result ≡ entry.now *ℤ number.now }
    ensures small { unsigned_abs result < 2 ^ 116 }
{
    i128::from(*entry) * *number
}

/// The number of the variable, and 0 past the end.
fn number_at(numbers: &[i128], i: usize) -> i128
    ensures { result ≡ slice_index_or numbers.now i (pos 0) }
{
    if i < numbers.len() { numbers[i] } else { 0 }
}

fn dot(entries: &[i64], numbers: &[i128]) -> i128
    requires few { length entries.now ≤ 1024 }
    requires fit { All FitsRow entries.now }
    requires small { All (λ number. unsigned_abs number < 2 ^ 60) numbers.now }
    ensures value { result ≡ dot entries.now numbers.now }
    ensures small { unsigned_abs result ≤ 1024 * 2 ^ 116 }
{
    let mut sum = 0;
    for (i, entry) in entries.iter().enumerate() {
        sum += term(entry, &number_at(numbers, i));
    }
    sum
}

impl Point {
    fn can_judge(&self, row: &Row) -> bool
        ensures { IsTrue result ↔ CanJudge self.now row.now }
    {
        row.coefs.len() <= MOST_COLUMNS
            && self.denominator.unsigned_abs() < WIDE_POINT
            && are_small(self.numbers.as_slice())
            && is_fitting_row(row)
    }

    /// Whether the row holds at the point. It answers exactly where the row has at most 1,024
    /// columns and entries below 2^56 in size, and the point's numbers and its denominator are
    /// below 2^60 in size. Takes no memory.
    ///
    /// Example: `2x - 1 = 0` holds at 1 over 2, and `x - 1 >= 0` does not.
    pub fn meets(&self, row: &Row) -> Option<bool>
        ensures { MatchOption result (¬ CanJudge self.now row.now)
            (λ holds. CanJudge self.now row.now
            × (IsTrue holds ↔ Meets self.now.numbers self.now.denominator row.now)) }
    {
        if !self.can_judge(row) {
            return None;
        }
        let value = dot(row.coefs.as_slice(), self.numbers.as_slice())
            + term(&row.constant, &self.denominator);
        Some(allows(row.equality, value))
    }
}
