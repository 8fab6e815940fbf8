//! Rows: linear inequalities and equalities over the variables of a place, and tight rows.
//!
//! Whole numbers that meet `4x - 6y + 3 >= 0` meet the tight row `2x - 3y + 1 >= 0`, since `2x -
//! 3y` is a whole number and at least -3/2. No whole numbers meet `4x - 6y + 3 = 0`, since `4x -
//! 6y` is even.
ghost use Rattle.std.specs.Prelude.{◌≡◌, ℕ, ◌<◌, ◌↔◌, Bool, false, length, map, replicate, pos, All, IsTrue, IfOk, MatchOption};
ghost use Rattle.lin_terms.specs.Bounds.{FitsRow};
ghost use Rattle.lin_terms.specs.Divisor.{floor_div};
ghost use Rattle.lin_terms.specs.Form.{are_zeros};
ghost use Rattle.lin_terms.specs.Row.{Allows, EntriesAreBelow, IsDecided, IsFittingRow, IsNoWider, HaveOneLength, columns_of};
ghost use Rattle.lin_terms.specs.Tight.{never_row, divided_row, is_unsolvable, tight_of, HaveSameSolutions};

use crate::divisor::{floor_div, gcd_of};
use crate::form::{are_zeros, zeros};
use sqlite_items::Items;
use std::alloc::{AllocError, Global};

/// `coefs · v + constant >= 0`, or `= 0` where it is an equality. There is a coefficient for each
/// variable, by number.
#[derive(Debug, Drop)]
pub struct Row {
    pub coefs: Items<i64>,
    pub constant: i64,
    pub equality: bool,
}

/// Whether an equality, or another row, allows the value.
pub(crate) fn allows(equality: bool, value: i128) -> bool
    ensures { IsTrue result ↔ Allows equality value }
{
    if equality { value == 0 } else { value >= 0 }
}

impl Row {
    /// The row with these coefficients, by number of their variables.
    pub fn new(
        alloc: Global,
        coefs: &[i64],
        constant: i64,
        equality: bool,
    ) -> Result<Row, AllocError>
        ensures { IfOk result (λ row. row
            ≡ record { coefs = coefs.now; constant = constant; equality = equality }) }
    {
        let coefs = Items::from_slice(alloc, coefs)?;
        Ok(Row {
            coefs,
            constant,
            equality,
        })
    }

    /// The same row again.
    pub fn copy(&self, alloc: Global) -> Result<Row, AllocError>
        ensures { IfOk result (λ row. row ≡ self.now) }
    {
        Row::new(alloc, self.coefs.as_slice(), self.constant, self.equality)
    }

    /// Whether the row holds, where no variable stands in it.
    ///
    /// Example: `0x + 3 >= 0` holds, `0x + 3 = 0` does not, and of `x + 3 >= 0` nothing is said.
    pub fn decided(&self) -> Option<bool>
        ensures { MatchOption result (are_zeros self.now.coefs ≡ false) (IsDecided self.now) }
    {
        if are_zeros(self.coefs.as_slice()) {
            Some(allows(self.equality, i128::from(self.constant)))
        } else {
            None
        }
    }
}

/// An entry of a row, or a multiplier, that reaches this size is wide: 2^56.
pub const WIDE_ROW: u128 = 1 << 56;

/// A list of rows has at most so many.
pub const MOST_ROWS: usize = 4096;

/// Whether all the multipliers are below 2^56 in size.
pub fn are_fitting_multipliers(multipliers: &[i128]) -> bool
    ensures { IsTrue result ↔ All FitsRow multipliers.now }
{
    multipliers
        .iter()
        .all(|multiplier| multiplier.unsigned_abs() < WIDE_ROW)
}

/// The number of columns of rows of one length: as many as the first has, and 0 where there is no
/// row.
pub fn columns_of(rows: &[Row]) -> usize
    ensures { result ≡ columns_of rows.now }
{
    match rows {
        [] => 0,
        [first, ..] => first.coefs.len(),
    }
}

/// Whether all rows have the same number of columns.
pub fn have_one_length(rows: &[Row]) -> bool
    ensures { IsTrue result ↔ HaveOneLength rows.now }
{
    let columns = columns_of(rows);
    rows.iter().all(|row| row.coefs.len() == columns)
}

fn are_fitting(entries: &[i64]) -> bool
    ensures { IsTrue result ↔ All FitsRow entries.now }
{
    entries
        .iter()
        .all(|entry| u128::from(entry.unsigned_abs()) < WIDE_ROW)
}

/// Whether all entries of the row are below 2^56 in size.
pub fn is_fitting_row(row: &Row) -> bool
    ensures { IsTrue result ↔ IsFittingRow row.now }
{
    u128::from(row.constant.unsigned_abs()) < WIDE_ROW && are_fitting(row.coefs.as_slice())
}

/// Whether all entries of the rows are below 2^56 in size.
pub fn are_fitting_rows(rows: &[Row]) -> bool
    ensures { IsTrue result ↔ All IsFittingRow rows.now }
{
    rows.iter().all(is_fitting_row)
}

fn is_unsolvable(divisor: u64, row: &Row) -> bool
    requires { 0 < divisor }
    ensures { result ≡ is_unsolvable divisor row.now }
{
    row.equality && row.constant.unsigned_abs() % divisor != 0
}

/// The row `-1 >= 0`, which never holds, over so many columns.
pub fn never_row(alloc: Global, columns: usize) -> Result<Row, AllocError>
    ensures { IfOk result (λ made. made ≡ never_row columns) }
{
    Ok(Row {
        coefs: zeros(alloc, columns)?,
        constant: -1,
        equality: false,
    })
}

fn quotients(alloc: Global, xs: &[i64], divisor: u64) -> Result<Vec<i64>, AllocError>
    requires { 0 < divisor }
    ensures { IfOk result (λ made. made.items ≡ map (λ x. floor_div x divisor) xs.now) }
{
    let mut made = Vec::with_capacity(alloc, xs.len())?;
    for x in xs {
        made.push(floor_div(*x, divisor))?;
    }
    Ok(made)
}

fn divided_row(alloc: Global, row: &Row, divisor: u64) -> Result<Row, AllocError>
    requires { 0 < divisor }
    ensures { IfOk result (λ made. made ≡ divided_row divisor row.now) }
{
    let coefs = Items::from_vec(quotients(alloc, row.coefs.as_slice(), divisor)?);
    let constant = floor_div(row.constant, divisor);
    Ok(Row {
        coefs,
        constant,
        equality: row.equality,
    })
}

fn made_tight(alloc: Global, row: &Row) -> Result<Row, AllocError>
    ensures { IfOk result (λ made. made ≡ tight_of row.now) }
{
    let divisor = gcd_of(row.coefs.as_slice());
    if divisor == 0 {
        return row.copy(alloc);
    }
    if is_unsolvable(divisor, row) {
        return never_row(alloc, row.coefs.len());
    }
    divided_row(alloc, row, divisor)
}

/// The row over the greatest common divisor of its coefficients, with its constant rounded down. An
/// equality whose constant that divisor does not divide becomes the row `-1 >= 0` over the same
/// columns. A row without variables stays.
pub fn tight(alloc: Global, row: &Row) -> Result<Row, AllocError>
    ensures exact { IfOk result (λ made. made ≡ tight_of row.now) }
    ensures keeps { IfOk result (λ made. HaveSameSolutions made row.now) }
    ensures columns { IfOk result (λ made. length made.coefs ≡ length row.now.coefs) }

    // No entry grows, and what bounds all entries bounds them still.
    ensures no_wider { IfOk result (λ made. IsNoWider made row.now) }
    ensures bounds { IfOk result (λ made. (bound : ℕ) → 0 < bound
        → EntriesAreBelow bound row.now → EntriesAreBelow bound made) }
{
    made_tight(alloc, row)
}
