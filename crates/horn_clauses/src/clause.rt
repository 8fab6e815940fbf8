//! Clauses between nodes, and the product of two functions that they are of.
use crate::Node;
use lin_terms::{Form, Row};
use sqlite_items::Items;

/// One way in which both functions move from a node to another. Its rows and forms have one
/// length: a column for each variable at its start, side A's first, then one for each unknown.
#[derive(Debug, Drop)]
pub struct Clause {
    /// The node at which it starts.
    pub from: Node,
    /// It is taken where some whole numbers for the unknowns make all rows hold.
    pub rows: Items<Row>,
    /// The node at which it ends.
    pub to: Node,
    /// The values there, side A's first.
    pub after: Items<Form>,
}

/// What two functions do side by side.
#[derive(Debug, Drop)]
pub struct Product {
    /// The nodes that are reached from the two entries, and the two exits, in their order.
    pub nodes: Items<Node>,
    /// The clauses, in the order in which they are made.
    pub clauses: Items<Clause>,
}

/// Multipliers for the obligations of a family, one list for each, in the order of obligations.
#[derive(Debug, Drop)]
pub struct Proofs {
    pub lists: Items<Items<i128>>,
}
