//! Alignments: how two functions are run side by side, a few segments of each at a time.
//!
//! At a node, a place of each function, an alignment says how many segments each side takes
//! before the two are compared again. Twelve are tried. Their counts stand in
//! `specs/Counts.antt`, and `specs/Moves.antt` says what a side does, whatever its segments are:
//! those of a source text, or those of a graph that has the same.
#![tactic(auto)]

mod alignment;
mod law;
#[cfg(test)]
mod tests;

pub use alignment::Alignment;
pub use law::law_of_moves;
