//! Laws of the definitions alone. Each is the contract of a call that does nothing. They speak of
//! rows, multipliers and points of any number and size.
ghost use Rattle.lin_prover.specs.Laws.{PointsExcludeMultipliers, RefutedAmongMoreRows, RefutedBehindZeros};

/// Rows that have a point are refuted by no multipliers, of whatever size.
pub fn law_of_points()
    ensures { PointsExcludeMultipliers }
{}

/// Rows that are refutable stay so among more rows, in whatever order, and behind columns of zeros.
pub fn law_of_more_rows()
    ensures more { RefutedAmongMoreRows }
    ensures behind_zeros { RefutedBehindZeros }
{}
