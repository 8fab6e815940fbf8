//! All columns are eliminated, and what stands at the end is the answer.
//!
//! The given rows join a first list. From each list the rows without the next column are made,
//! which join a new one. Where no column is left, no row is: the given rows are not refutable.
ghost use Rattle.std.specs.Prelude.{◌≡◌, ℤ, ◌<◌, ◌-◌, ◌≤◌, List, Ok, All, length};
ghost use Rattle.lin_terms.specs.Bounds.{FitsRow};
ghost use Rattle.lin_terms.specs.Row.{IsFittingRow, HasPoint, HaveOneLength, columns_of};
ghost use Rattle.farkas_check.specs.Refutes.{Refutes, IsRefutable};
ghost use Rattle.elimination.specs.declared.answer.Answer.TheVariants.{Refuted, NotRefutable};
ghost use Rattle.elimination.specs.Column.{projected};
ghost use Rattle.elimination.specs.Joining.{list_of};
ghost use Rattle.elimination.specs.Eliminated.{most_rows, initial, eliminate, eliminated};
ghost use Rattle.elimination.specs.Outcome.{Joins, IsList, IsEnd, IsAnswer};

use crate::answer::{Answer, EarlyEnd, Limit};
use crate::column::eliminate_column;
use crate::combination::{Combination, Sum};
use crate::joining::JoinedRows;
use lin_terms::{MOST_ROWS, Row, columns_of};
use std::alloc::Global;

/// The given rows join a list, in order.
fn join_given(rows: &mut JoinedRows, given: &[Row]) -> Result<(), EarlyEnd>
    requires many { length given.now ≤ most_rows }
    requires fits { All IsFittingRow given.now }
    ensures { Joins rows.old (initial 0 given.now) rows.new result }
{
    let count = given.len() as u32;
    for (i, row) in given.iter().enumerate() {
        let made = Sum::given(rows.alloc, row, i as u32, count)?;
        rows.join(made)?;
    }
    Ok(())
}

/// A new list of the given rows.
fn list_of_given(alloc: Global, cap: u32, given: &[Row]) -> Result<Vec<Combination>, EarlyEnd>
    requires many { length given.now ≤ most_rows }
    requires fits { All IsFittingRow given.now }
    ensures { IsList (list_of cap (initial 0 given.now)) result }
{
    let mut rows = JoinedRows::new(alloc, cap);
    join_given(&mut rows, given)?;
    Ok(rows.into_rows())
}

/// A new list of the rows that are left without column j.
fn without_column(
    alloc: Global,
    cap: u32,
    j: usize,
    old: Vec<Combination>,
) -> Result<Vec<Combination>, EarlyEnd>
    ensures { IsList (list_of cap (projected j old.items)) result }
{
    let mut rows = JoinedRows::new(alloc, cap);
    eliminate_column(&mut rows, j, old)?;
    Ok(rows.into_rows())
}

/// One column after the other is eliminated.
fn eliminate_columns(
    alloc: Global,
    cap: u32,
    columns: usize,
    first: Vec<Combination>,
) -> Result<(), EarlyEnd>
    ensures { IsEnd (eliminate cap columns 0 (Ok first.items)) result }
{
    let mut rows = first;
    for j in 0..columns {
        rows = without_column(alloc, cap, j, rows)?;
    }
    Ok(())
}

/// All columns of the given rows are eliminated.
fn eliminate(alloc: Global, cap: u32, given: &[Row]) -> Result<(), EarlyEnd>
    requires many { length given.now ≤ most_rows }
    requires fits { All IsFittingRow given.now }
    ensures { IsEnd (eliminate cap (columns_of given.now) 0 (list_of cap (initial 0 given.now)))
        result }
{
    let rows = list_of_given(alloc, cap, given)?;
    eliminate_columns(alloc, cap, columns_of(given), rows)
}

/// What the method answers. `decide` has the clauses that say what this means of the rows.
fn answer(alloc: Global, rows: &[Row], cap: u32) -> Result<Answer, Limit>
    requires one_length { HaveOneLength rows.now }
    requires fits { All IsFittingRow rows.now }
    ensures { IsAnswer (eliminated rows.now cap) result }
{
    if rows.len() > MOST_ROWS {
        return Err(Limit::ManyRows);
    }
    match eliminate(alloc, cap, rows) {
        Ok(()) => Ok(Answer::NotRefutable),
        Err(EarlyEnd::Contradiction(multipliers)) => Ok(Answer::Refuted(multipliers)),
        Err(EarlyEnd::AtLimit(limit)) => Err(limit),
    }
}

/// Whether some multipliers refute the rows (Farkas' lemma), by elimination of all columns. The
/// rows have one length, and entries below 2^56 in size. No list that is made has more than `cap`
/// rows; any cap may be given.
///
/// Example: the multipliers 1 and 1 refute `x - 1 >= 0` and `-x >= 0`, and with a cap of 1 the
/// answer is the limit `ManyRows`. `2x - 1 >= 0` and `1 - 2x >= 0` are not refutable, since 1/2
/// meets both.
pub fn decide(alloc: Global, rows: &[Row], cap: u32) -> Result<Answer, Limit>
    requires one_length { HaveOneLength rows.now }
    requires fits { All IsFittingRow rows.now }
    ensures exact { IsAnswer (eliminated rows.now cap) result }

    // Multipliers that are answered refute the rows, and otherwise there are none of any size.
    ensures refuted { (multipliers : List ℤ) → result ≡ Ok (Refuted multipliers)
        → Refutes rows.now multipliers × All FitsRow multipliers }
    ensures not_refutable { result ≡ Ok NotRefutable → ¬ IsRefutable rows.now }
    ensures point { result ≡ Ok NotRefutable → HasPoint rows.now }
{
    answer(alloc, rows, cap)
}
