//! Mines the candidates of couplings: linear facts about the values of two functions that hold
//! wherever walks of their traces meet a node.
//!
//! A first point at a node proposes atoms of the template (`specs/Template.antt`), and each later
//! point strikes those that fail there (`specs/Mined.antt`). `specs/Candidates.antt` says what the
//! candidates of pairs of traces are, and `specs/Gathered.antt` how they are gathered pair by pair.
//! The code keeps coefficients by their places (`shape`, `listing`), of an equality the constant,
//! and of bounds with one list of coefficients the least sum (`kept`). `specs/Laws.antt` has the
//! laws.
#![tactic(auto)]

mod accumulator;
mod atoms;
mod candidates;
mod constants;
mod kept;
mod law;
mod listing;
mod mining;
mod point;
mod shape;
#[cfg(test)]
mod tests;

pub use candidates::Candidates;
pub use constants::bound_constants;
pub use law::{law_of_candidates, law_of_constants, law_of_mining};
pub use mining::{Mining, law_of_gathering, mine};
