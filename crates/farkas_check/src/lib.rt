//! Checks proofs that linear rows over whole numbers have no common point, by Farkas' lemma.
//!
//! A row says `coefs · v + constant >= 0`, or `= 0`. Where rows hold at a point, so does their sum,
//! each row times a number that is not negative, and an equality times any number. Where that sum
//! has no variable left and a negative constant, it says of a negative number that it is at least
//! 0: then no point meets all the rows. Farkas' lemma (1902) adds that rows without a common point
//! always have such multipliers. Finding them is the work of others, who need not be believed:
//! `refutes` is the check, and `specs/Refutes.antt` says what it decides. `refutes_of` is the same
//! check of rows that need not stand in memory. `lin_prover` asks it of what `simplex` suggests,
//! and what `elimination` answers is proved to pass it.
#![tactic(auto)]

mod law;
mod multipliers;
mod sums;
#[cfg(test)]
mod tests;
mod told;

pub use law::{law_of_idle_rows, refutable_rows_have_no_point};
pub use multipliers::{is_checkable, refutes, refutes_of};
pub use told::Rows;
