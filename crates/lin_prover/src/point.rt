//! The test of a point against rows.
ghost use Rattle.std.specs.Prelude.{◌↔◌, IsTrue};
ghost use Rattle.lin_terms.specs.Row.{HasPoint};
ghost use Rattle.farkas_check.specs.Refutes.{IsRefutable};
ghost use Rattle.lin_prover.specs.Settles.{IsMet, IsPointOf};

use lin_terms::{Point, Row};

/// Whether the row can be judged at the point, and holds there.
fn meets(point: &Point, row: &Row) -> bool
    ensures { IsTrue result ↔ IsMet point.now row.now }
{
    match point.meets(row) {
        Some(holds) => holds,
        None => false,
    }
}

/// The test. `is_point_of` has the clauses that say what it means of the rows.
fn meets_all(rows: &[Row], point: &Point) -> bool
    ensures { IsTrue result ↔ IsPointOf rows.now point.now }
{
    point.denominator > 0 && rows.iter().all(|row| meets(point, row))
}

/// Whether the point is one of the rows: its denominator is at least 1, and each row holds there. A
/// row that cannot be judged there fails: one of more than 1,024 columns, or with an entry of 2^56
/// or more in size, and any row where a number of the point, or its denominator, is 2^60 or more in
/// size. It takes no memory.
///
/// Example: 1 over 2 is a point of `2x - 1 >= 0` and `1 - 2x >= 0`. 1 over 1 is not, since the
/// second row fails there; nor is -1 over -2.
pub fn is_point_of(rows: &[Row], point: &Point) -> bool
    ensures exact { IsTrue result ↔ IsPointOf rows.now point.now }

    // Where it says yes, no multipliers refute the rows, of whatever size.
    ensures point { IsTrue result → HasPoint rows.now }
    ensures not_refutable { IsTrue result → ¬ IsRefutable rows.now }
{
    meets_all(rows, point)
}
