//! Finds multipliers that refute linear rows over whole numbers, or says that there are none
//! (Farkas' lemma).
//!
//! Rows and a cap go in; multipliers come out, or that there are none of any size, or the limit
//! that elimination meets. The simplex method is asked first, and what it guesses is tested by one
//! walk over the rows: multipliers by the check of `farkas_check`, a point by `is_point_of`. Only
//! where the guess fails its test, elimination does the work (Fourier 1826, Motzkin 1936).
//! `specs/Proves.antt` says what each answer means, `specs/Settles.antt` which guesses settle rows,
//! and `specs/Laws.antt` what more can be said of rows that are refuted or have a point.
#![tactic(auto)]

mod law;
mod point;
mod prover;
#[cfg(test)]
mod tests;

pub use elimination::{Answer, Limit};
pub use law::{law_of_more_rows, law_of_points};
pub use point::is_point_of;
pub use prover::{prove, settle};
pub use simplex::Guess;
