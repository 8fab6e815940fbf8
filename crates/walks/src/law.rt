//! Laws of walks, each a clause of a function that does nothing. `specs/Laws.antt` states them.
ghost use Rattle.walks.specs.Laws.{WalksFollowMoves, WalksEndAtExits, WalksAreShort};
ghost use Rattle.walks.specs.Laws.{ValuesFit, PositionsFit, TracesFit, ValuesStayNarrow};
ghost use Rattle.walks.specs.Laws.{PositionsAreNarrow};

/// The walk of two functions' traces on one input begins at the entries with that input, each of
/// its steps is a move of both functions, and it ends at the exits with both results. The walk of
/// every pair begins and ends so, is at the exits nowhere before, and has at most two spots more
/// than the traces have marks. Its values, as those at every position, fit both functions where
/// those of the pair do, as those of their traces do, and are below 2^100 in size where those of
/// the pair are.
pub fn law_of_walks()
    ensures moves { WalksFollowMoves }
    ensures exits { WalksEndAtExits }
    ensures short { WalksAreShort }
    ensures fit { ValuesFit }
    ensures fit_at { PositionsFit }
    ensures traces { TracesFit }
    ensures narrow { ValuesStayNarrow }
    ensures narrow_at { PositionsAreNarrow }
{}
