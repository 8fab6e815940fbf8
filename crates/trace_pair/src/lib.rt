//! Runs of two functions on one input: a subject and a sample's index go in, and both traces come
//! out, or why there are not both.
//!
//! `specs/Inputs.antt` says which values the parameters have at an index: a grid of small values
//! first, and words of a generator after it. `specs/Pairs.antt` says which samples are pairs and
//! why the others are skipped, over the condition on the inputs and the steps of the source.
#![tactic(auto)]

// The inputs of a sample, and why it is skipped.
mod inputs;
mod skipped;

// Both sides' runs of one, and what they promise.
mod law;
mod pairs;
#[cfg(test)]
mod tests;

pub use inputs::input;
pub use law::law_of_pairs;
pub use pairs::{Graphs, pair, pair_on};
pub use skipped::{PairRefused, Skipped};
