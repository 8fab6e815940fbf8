//! Entries times multipliers, which are added up in 128 bits: at most 4,096 products, each below
//! 2^112 in size.
//!
//! The columns are added up in blocks, so that rows of at most `WIDTH` columns are walked once.
ghost use Rattle.std.specs.Prelude.{◌≡◌, ℕ, ◌+◌, ◌<◌, ◌^◌, ◌+ℤ◌, ◌*ℤ◌, pos, unsigned_abs, All, length, slice_index_or};
ghost use Rattle.lin_terms.specs.Bounds.{FitsRow};
ghost use Rattle.lin_terms.specs.Row.{IsFittingRow, HaveOneLength};
ghost use Rattle.farkas_check.specs.Refutes.{column};

use crate::told::Rows;

/// How many columns are added up in one walk over the rows.
pub const WIDTH: usize = 32;

/// A multiplier times an entry of its row.
pub fn product(multiplier: &i128, entry: &i64) -> i128
    requires multiplier_fits { FitsRow multiplier.now }
    requires fits { FitsRow entry.now }
    ensures value { result ≡ multiplier.now *ℤ entry.now }
    ensures small { unsigned_abs result < 2 ^ 112 }
{
    *multiplier * i128::from(*entry)
}

/// Adds the entries of row `i` in the columns from `first` on, each times the multiplier, to the
/// sums of these columns.
pub fn add_row<R: Rows>(rows: &R, i: usize, first: usize, multiplier: &i128, sums: &mut [i128])
    requires inside { i < length (R.list rows.now) }
    requires one_length { HaveOneLength (R.list rows.now) }
    requires rows_fit { All IsFittingRow (R.list rows.now) }
    requires multiplier_fits { FitsRow multiplier.now }
    requires width { length sums.old ≡ 32 }
    requires room { All (λ sum. unsigned_abs sum < 2 ^ 126) sums.old }
    ensures { (k : ℕ) → k < 32 → slice_index_or sums.new k (pos 0)
        ≡ slice_index_or sums.old k (pos 0)
        +ℤ (multiplier.now *ℤ slice_index_or (column (first + k) (R.list rows.now)) i (pos 0)) }
{
    if *multiplier == 0 {
        return;
    }
    for k in 0..WIDTH.min(rows.columns().saturating_sub(first)) {
        sums[k] += product(multiplier, &rows.entry(i, first + k));
    }
}
