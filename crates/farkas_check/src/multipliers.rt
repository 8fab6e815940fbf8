//! The check: one walk over the rows for each block of columns.
ghost use Rattle.std.specs.Prelude.{◌≡◌, ◌↔◌, ◌≤ℤ◌, pos, All, IsTrue};
ghost use Rattle.std.specs.Bool.{OnFalse};
ghost use Rattle.lin_terms.specs.Row.{HasNoPoint, HasNoIntegerPoint};
ghost use Rattle.farkas_check.specs.Refutes.{Refutes, RefutesBlock, IsCheckable};

use crate::sums::{WIDTH, add_row, product};
use crate::told::{Listed, Rows};
use lin_terms::{MOST_ROWS, Row, are_fitting_multipliers, are_fitting_rows, have_one_length};

/// Whether the check may be asked: at most 4,096 rows of one length, a multiplier for each, and all
/// entries and multipliers below 2^56 in size.
pub fn is_checkable(rows: &[Row], multipliers: &[i128]) -> bool
    ensures { IsTrue result ↔ IsCheckable rows.now multipliers.now }
{
    rows.len() <= MOST_ROWS
        && have_one_length(rows)
        && multipliers.len() == rows.len()
        && are_fitting_rows(rows)
        && are_fitting_multipliers(multipliers)
}

fn may_multiply(equality: bool, multiplier: &i128) -> bool
    ensures { IsTrue result ↔ OnFalse equality (pos 0 ≤ℤ multiplier.now) }
{
    equality || *multiplier >= 0
}

fn are_zeros(sums: &[i128]) -> bool
    ensures { IsTrue result ↔ All (λ sum. sum ≡ pos 0) sums.now }
{
    sums.iter().all(|sum| *sum == 0)
}

/// Whether the multipliers may multiply their rows, and the sum of the rows has a constant of at
/// most -1 and zeros in the block of columns from `first` on. This is one walk over the rows.
fn refutes_block<R: Rows>(rows: &R, multipliers: &[i128], first: usize) -> bool
    requires { IsCheckable (R.list rows.now) multipliers.now }
    ensures { IsTrue result ↔ RefutesBlock first (R.list rows.now) multipliers.now }
{
    let mut columns = [0i128; WIDTH];
    let mut constant = 0i128;
    for (i, multiplier) in multipliers.iter().enumerate() {
        if !may_multiply(rows.is_equality(i), multiplier) {
            return false;
        }
        add_row(rows, i, first, multiplier, &mut columns);
        constant += product(multiplier, &rows.constant(i));
    }
    constant < 0 && are_zeros(&columns)
}

/// As `refutes`, of rows that are told entry by entry.
pub fn refutes_of<R: Rows>(rows: &R, multipliers: &[i128]) -> bool
    requires { IsCheckable (R.list rows.now) multipliers.now }
    ensures exact { IsTrue result ↔ Refutes (R.list rows.now) multipliers.now }

    // Where it says yes, there is no point, be it of whole numbers or of fractions.
    ensures no_integer_point { IsTrue result → HasNoIntegerPoint (R.list rows.now) }
    ensures no_point { IsTrue result → HasNoPoint (R.list rows.now) }
{
    for walk in 0..rows.columns().div_ceil(WIDTH).max(1) {
        if !refutes_block(rows, multipliers, walk * WIDTH) {
            return false;
        }
    }
    true
}

/// Whether the rows, each times its multiplier, add up to a row without variables whose constant is
/// at most -1, and no multiplier is negative except at an equality (Farkas' lemma). An empty list
/// of rows is not refuted.
///
/// It is asked of at most 4,096 rows of one length, a multiplier for each, with all entries and
/// multipliers below 2^56 in size. It takes no memory.
///
/// Example: no point meets `3x - 2y - 1 >= 0`, `-3x - y + 2 >= 0`, `y >= 0` and `x - 1 >= 0`, since
/// the multipliers 0, 1, 1 and 3 refute these rows: `(-3x - y + 2) + y + 3(x - 1)` is -1, and -1 is
/// not at least 0. The multipliers 0, 1, 1 and 2 do not, since their sum `-x` has the variable x;
/// nor do 0, 0, 0 and 0, since 0 is at least 0.
pub fn refutes(rows: &[Row], multipliers: &[i128]) -> bool
    requires { IsCheckable rows.now multipliers.now }
    ensures exact { IsTrue result ↔ Refutes rows.now multipliers.now }

    // Where it says yes, there is no point, be it of whole numbers or of fractions.
    ensures no_integer_point { IsTrue result → HasNoIntegerPoint rows.now }
    ensures no_point { IsTrue result → HasNoPoint rows.now }
{
    refutes_of(&Listed { rows }, multipliers)
}
