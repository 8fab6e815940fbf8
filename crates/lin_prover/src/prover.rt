//! The prover.
ghost use Rattle.std.specs.Prelude.{◌↔◌, All, IsTrue};
ghost use Rattle.lin_terms.specs.Row.{IsFittingRow, HaveOneLength};
ghost use Rattle.lin_prover.specs.Proves.{Proves};
ghost use Rattle.lin_prover.specs.Settles.{AreConfirmed, IsConfirmed, Settles};

use crate::point::is_point_of;
use elimination::{Answer, Limit, decide};
use farkas_check::{is_checkable, refutes};
use lin_terms::{MOST_ROWS, Point, Row};
use simplex::{Guess, try_point};
use sqlite_items::Items;
use std::alloc::{AllocError, Global};

/// Whether the check says that the multipliers refute the rows.
fn are_confirmed(rows: &[Row], multipliers: &[i128]) -> bool
    ensures { IsTrue result ↔ AreConfirmed rows.now multipliers.now }
{
    is_checkable(rows, multipliers) && refutes(rows, multipliers)
}

/// Whether the rows are few enough for a guess, and the point is one of theirs.
fn is_confirmed(rows: &[Row], point: &Point) -> bool
    ensures { IsTrue result ↔ IsConfirmed rows.now point.now }
{
    rows.len() <= MOST_ROWS && is_point_of(rows, point)
}

/// Whether some multipliers refute the rows, where a guess about it is at hand. Nothing is asked of
/// the guess: it is tested before use. Multipliers that `refutes` confirms are the answer; a point
/// that `is_point_of` confirms shows that there are none; and any other guess is left aside for
/// elimination, as are all guesses about more than 4,096 rows. The rest is as in `prove`.
///
/// Example: of `x - 1 >= 0` and `-x >= 0` the guess of the multipliers 2 and 2 is answered, and
/// after the guess of the multiplier 1 alone elimination finds 1 and 1.
pub fn settle(alloc: Global, rows: &[Row], cap: u32, guess: Guess) -> Result<Answer, Limit>
    requires one_length { HaveOneLength rows.now }
    requires fits { All IsFittingRow rows.now }
    ensures proves { Proves rows.now cap result }

    // What is answered where the guess is confirmed, and where it is not.
    ensures exact { Settles rows.now cap guess result }
{
    match guess {
        Guess::Multipliers(multipliers) => {
            if are_confirmed(rows, multipliers.as_slice()) {
                return Ok(Answer::Refuted(Items::from_vec(multipliers)));
            }
        }
        Guess::Point(point) => {
            if is_confirmed(rows, &point) {
                return Ok(Answer::NotRefutable);
            }
        }
        Guess::Nothing => {}
    }
    decide(alloc, rows, cap)
}

/// A guess about the rows, and none about more than 4,096.
fn guess_about(alloc: Global, rows: &[Row]) -> Result<Guess, AllocError> {
    if rows.len() > MOST_ROWS {
        return Ok(Guess::Nothing);
    }
    try_point(alloc, rows)
}

/// Whether some multipliers refute the rows (Farkas' lemma). The rows have one length, and entries
/// below 2^56 in size. Where no multipliers refute them, some fractions meet them all. A limit
/// comes only where elimination with this cap meets it; any cap may be given.
///
/// Example: the multipliers 1 and 1 refute `x - 1 >= 0` and `-x >= 0`.
/// `2x - 1 >= 0` and `1 - 2x >= 0` are not refutable, since 1/2 meets both.
pub fn prove(alloc: Global, rows: &[Row], cap: u32) -> Result<Answer, Limit>
    requires one_length { HaveOneLength rows.now }
    requires fits { All IsFittingRow rows.now }
    ensures { Proves rows.now cap result }
{
    match guess_about(alloc, rows) {
        Ok(guess) => settle(alloc, rows, cap, guess),
        Err(_) => Err(Limit::Memory),
    }
}
