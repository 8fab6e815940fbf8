//! The spots of a walk: nodes with copies of the values there.
ghost use Rattle.std.specs.Prelude.{◌≡◌, IfOk};
ghost use Rattle.walks.specs.Walk.{spot_at, walk_of};

use crate::moving::positions;
use crate::position::{Position, first_values, node_at, second_values};
use alignment::Alignment;
use c_ast::Pair;
use horn_clauses::Node;
use sqlite_items::Items;
use std::alloc::{AllocError, Global};

/// A node that a walk meets, with the values there: a value for each variable in scope at the
/// place of the side, by rising number, and the result alone at the exit.
#[derive(Debug, Drop)]
pub struct Spot {
    pub node: Node,
    pub first: Items<i128>,
    pub second: Items<i128>,
}

/// The spot at the position.
fn met_at(alloc: Global, pair: &Pair, position: Position) -> Result<Spot, AllocError>
    ensures { IfOk result (λ made. made ≡ spot_at pair.now position) }
{
    let first = Items::from_slice(alloc, first_values(pair, position))?;
    let second = Items::from_slice(alloc, second_values(pair, position))?;
    Ok(Spot {
        node: node_at(pair, position),
        first,
        second,
    })
}

/// The walk of the pair under the alignment: the nodes and values at its positions, from both
/// entries to both exits.
pub fn walk(alloc: Global, alignment: Alignment, pair: &Pair) -> Result<Items<Spot>, AllocError>
    ensures { IfOk result (λ spots. spots ≡ walk_of alignment pair.now) }
{
    let met = positions(alloc, alignment, pair)?;
    let mut spots = Items::new(alloc);
    for position in met.as_slice() {
        spots.push(met_at(alloc, pair, *position)?)?;
    }
    Ok(spots)
}
