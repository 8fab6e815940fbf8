//! Decides whether linear rows over whole numbers have multipliers that refute them (Farkas'
//! lemma), by elimination.
//!
//! Rows and a cap go in; an answer comes out, or the limit that was met. One column after the other
//! is eliminated (Fourier 1826, Motzkin 1936): by an equality that has it, or else by adding each
//! lower bound of its variable to each upper bound. A row and the multipliers that make it of the
//! given rows are one value. So a row that cannot hold comes with the multipliers that refute the
//! given rows, and where no such row comes up the given rows have a point. `specs/Eliminated.antt`
//! is the whole method, and `decide` answers exactly as it says. `specs/Laws.antt` says why the
//! answers may be believed. Of the multipliers of a row only those that are not 0 are kept, since
//! these are few.
#![tactic(auto)]

// What is answered, and what ends an elimination early.
mod answer;

// How often each given row is taken.
mod multipliers;

// Rows with their multipliers.
mod combination;

// A list of rows with an index.
mod indexed;

// A list that rows join.
mod joining;

// One column is eliminated.
mod column;

// All columns are eliminated.
mod eliminate;

// What the answers say.
mod laws;
#[cfg(test)]
mod tests;

pub use answer::{Answer, Limit};
pub use eliminate::decide;
pub use laws::{
    law_of_limits, law_of_multipliers, law_of_points, law_of_refutability, law_of_refutations,
};
