//! The positions of a walk, one move of both sides after another.
ghost use Rattle.std.specs.Prelude.{◌≡◌, ◌↔◌, IfOk, IsTrue};
ghost use Rattle.alignment.specs.Number.{IsAlignment};
ghost use Rattle.walks.specs.Walk.{is_at_exits, next_position, positions_of};

use crate::Position;
use crate::position::node_at;
use crate::side::take;
use alignment::Alignment;
use c_ast::{Pair, Trace};
use sqlite_items::Items;
use std::alloc::{AllocError, Global};

/// Whether both sides are at the exit.
fn is_last(pair: &Pair, position: Position) -> bool
    ensures { result ≡ is_at_exits pair.now position }
{
    pair.first.events.len() < position.first && pair.second.events.len() < position.second
}

/// The position after the moves of both sides.
#[tactic(auto, using(crate::proofs::Reaching::entries_together))]
fn next(alignment: Alignment, pair: &Pair, position: Position) -> Position
    requires { (position.first ≡ 0) ↔ (position.second ≡ 0) }
    ensures next { result ≡ next_position alignment pair.now position }
    ensures named { IsAlignment alignment }
{
    let node = node_at(pair, position);
    let (first, second) = alignment.moves(node.0, node.1);
    Position {
        first: take(&pair.first, first, position.first),
        second: take(&pair.second, second, position.second),
    }
}

/// The positions of the pair's walk under the alignment, from both entries to both exits. Each
/// after the first takes a mark, or an exit, of some side: there are at most as many as marks in
/// both traces, and two more. Takes memory for the list alone, at once.
pub fn positions(
    alloc: Global,
    alignment: Alignment,
    pair: &Pair,
) -> Result<Items<Position>, AllocError>
    ensures { IfOk result (λ made. made ≡ positions_of alignment pair.now) }
{
    let (first, second) = (pair.first.events.as_slice(), pair.second.events.as_slice());
    let mut made = Vec::with_capacity(alloc, first.len() + second.len() + 2)?;
    let mut position = Position {
        first: 0,
        second: 0,
    };
    while !is_last(pair, position) {
        made.push(position)?;
        position = next(alignment, pair, position);
    }
    made.push(position)?;
    Ok(Items::from_vec(made))
}
