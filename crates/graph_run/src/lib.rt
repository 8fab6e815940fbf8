//! Runs of flow graphs: a graph and the values of its parameters go in, and the trace comes out,
//! where the run returns after few marks with values below 2^100 in size.
//!
//! `step` does one operation, and the loop around it knows nothing of the language.
//! `specs/Answers.antt` says what the answers mean, in the words of `flow_graph`: at most so many
//! marks, and each part of each evaluated expression below 2^100 in size.
#![tactic(auto)]

// One step, and why a run is no answer.
mod skip;
mod step;

// Whole runs, and what they promise.
mod law;
mod runs;
#[cfg(test)]
mod tests;

pub use law::law_of_outcomes;
pub use runs::run;
pub use skip::Skip;
