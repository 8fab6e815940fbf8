//! Where a walk stands in two traces, and what is met there.
ghost use Rattle.std.specs.Prelude.{◌≡◌};
ghost use Rattle.walks.specs.Walk.{first_values_at, node_at, second_values_at};

use crate::side::{place_at, values_at};
use c_ast::Pair;
use horn_clauses::Node;

/// How many places of each trace lie behind: 0 at the entry, then the number of the mark, counted
/// from 1. Every number past the last mark is the exit.
#[derive(Clone, Copy, Debug, PartialEq, Eq)]
pub struct Position {
    pub first: usize,
    pub second: usize,
}

/// The node at the position. Takes no memory.
pub fn node_at(pair: &Pair, position: Position) -> Node
    ensures { result ≡ node_at pair.now position }
{
    Node(
        place_at(&pair.first, position.first),
        place_at(&pair.second, position.second),
    )
}

/// The first function's values at the position: the input at the entry, then a value for each
/// variable in scope, by rising number, and the result alone at the exit. Takes no memory.
pub fn first_values(pair: &Pair, position: Position) -> &[i128]
    ensures { result.now ≡ first_values_at pair.now position }
{
    values_at(pair.input.as_slice(), &pair.first, position.first)
}

/// The second function's values at the position, as `first_values` gives the first's.
pub fn second_values(pair: &Pair, position: Position) -> &[i128]
    ensures { result.now ≡ second_values_at pair.now position }
{
    values_at(pair.input.as_slice(), &pair.second, position.second)
}
