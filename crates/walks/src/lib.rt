//! Walks: the nodes and values at which the traces of two functions on one input are compared.
//!
//! A walk begins at the two entries, follows the moves of an alignment along both traces, and ends
//! at the two exits. It is a list of positions (`specs/Walk.antt`), each of which counts the places
//! of each trace that lie behind; the node and the values there are read off the traces
//! (`specs/Side.antt`). Each of its steps is a move of both functions (`specs/Laws.antt`).
#![tactic(auto)]

mod law;
mod moving;
mod position;
mod side;
mod spot;
#[cfg(test)]
mod tests;

pub use law::law_of_walks;
pub use moving::positions;
pub use position::{Position, first_values, node_at, second_values};
pub use spot::{Spot, walk};
