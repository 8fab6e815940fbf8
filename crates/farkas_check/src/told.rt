//! Rows that are told entry by entry, so that they need not stand in memory.
ghost use Rattle.std.specs.Prelude.{◌≡◌, ℤ, ◌<◌, false, pos, List, length, slice_index_or};
ghost use Rattle.lin_terms.specs.declared.row.Row.{Row};
ghost use Rattle.lin_terms.specs.Row.{columns_of};
ghost use Rattle.farkas_check.specs.Refutes.{column, constants, equalities};

use lin_terms::{Row, columns_of};

/// What tells a list of rows of one length. The rows are counted from 0, and so are their columns.
pub trait Rows {
    /// The rows, in order.
    ghost list: { Self → List Row };

    /// How many rows there are.
    fn count(&self) -> usize
        ensures { result ≡ length (list self.now) };

    /// How many columns the rows have.
    fn columns(&self) -> usize
        ensures { result ≡ columns_of (list self.now) };

    /// The coefficient of row `i` in column `j`, and 0 past its end.
    fn entry(&self, i: usize, j: usize) -> i64
        requires { i < length (list self.now) }
        ensures { result ≡ slice_index_or (column j (list self.now)) i (pos 0) };

    /// The constant of row `i`.
    fn constant(&self, i: usize) -> i64
        requires { i < length (list self.now) }
        ensures { result ≡ slice_index_or (constants (list self.now)) i (pos 0) };

    /// Whether row `i` is an equality.
    fn is_equality(&self, i: usize) -> bool
        requires { i < length (list self.now) }
        ensures { result ≡ slice_index_or (equalities (list self.now)) i false };
}

/// Rows that stand in memory.
#[derive(Clone, Copy)]
pub(crate) struct Listed<'a> {
    pub(crate) rows: &'a [Row],
}

fn entry_of(row: &Row, j: usize) -> i64
    ensures { result ≡ slice_index_or row.now.coefs j (pos 0) }
{
    let coefs = row.coefs.as_slice();
    if j < coefs.len() { coefs[j] } else { 0 }
}

impl Rows for Listed<'_> {
    ghost list = { λ listed. listed.rows.now };

    fn count(&self) -> usize {
        self.rows.len()
    }

    fn columns(&self) -> usize {
        columns_of(self.rows)
    }

    fn entry(&self, i: usize, j: usize) -> i64 {
        entry_of(&self.rows[i], j)
    }

    fn constant(&self, i: usize) -> i64 {
        self.rows[i].constant
    }

    fn is_equality(&self, i: usize) -> bool {
        self.rows[i].equality
    }
}
