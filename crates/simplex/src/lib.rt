//! Guesses whether linear rows have a point, by the simplex method: a point of theirs, or
//! multipliers that refute them (Farkas' lemma).
//!
//! A guess promises nothing, and is tested before use by one walk over the rows: so no clause here
//! says that a guess is right. What is proved is that each call is safe and returns, whatever the
//! rows are.
//!
//! The method is the textbooks' (Dantzig 1947; Chvátal, Linear Programming, 1983), in whole numbers
//! over one denominator (Edmonds 1967, Bareiss 1968), in 128 bits. A dictionary gives its basic
//! variables in terms of the others (`dictionary`). It is made feasible, or a line of it shows that
//! no point meets the rows (`feasible`). A `Polyhedron` keeps a feasible dictionary and is asked
//! about one more row after the other: the row's left side is maximised as far as 0, from where the
//! last question ended (`ascent`). A call that would make more than 1,000 pivots, or whose numbers
//! would pass 128 bits, guesses nothing.
#![tactic(auto)]

// Numbers and lines of numbers.
mod divisor;
mod line;

// The dictionary, and the pivot.
mod dictionary;
mod variable;

// Which variable leaves, and which enters.
mod choice;

// The two phases.
mod ascent;
mod feasible;

// What is answered.
mod guess;
mod polyhedron;
#[cfg(test)]
mod tests;

pub use guess::Guess;
pub use polyhedron::{Polyhedron, try_point};
