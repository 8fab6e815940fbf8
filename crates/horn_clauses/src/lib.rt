//! What is said of two functions side by side: atoms over the values at a node, and a family of
//! them; what both do, as clauses between nodes; and what a family owes, as obligations.
//!
//! A node is a place of each function. The values there are those of the first function's place,
//! then the second's. `specs/Atom.antt` says where an atom holds, `specs/Node.antt` how nodes are
//! ordered, `specs/Family.antt` which values are in a family, and `specs/Equalities.antt` which
//! atoms say that both sides have the same values, and which families begin and end with them.
//! `specs/Clause.antt` says from which values a clause leads to which, and `specs/Obligations.antt`
//! which rows no whole numbers may meet so that a clause leads from values in a family to values
//! in it.
#![tactic(auto)]

mod atom;
mod clause;
mod equalities;
mod family;
mod law;
mod node;
mod obligation;
#[cfg(test)]
mod tests;

pub use atom::{Atom, Rel};
pub use clause::{Clause, Product, Proofs};
pub use equalities::{begins_equal, ends_equal};
pub use family::Family;
pub use law::{law_of_equalities, law_of_nodes, law_of_obligations};
pub use node::Node;
pub use obligation::{atoms_or_none, columns_in, columns_over, obligation_rows};
