//! Checks the proofs that a family of atoms is kept by a product: a list of multipliers for each of
//! its obligations.
//!
//! An obligation is a list of rows that no whole numbers may meet (`horn_clauses`), and multipliers
//! refute it by Farkas' lemma (`farkas_check`). `told` tells its rows one entry after the other, so
//! that they need not be made, and `check_obligations` walks the obligations in their order, to the
//! first that is not proved. Whoever found the lists need not be believed. `specs/Checks.antt` says
//! what is decided.
#![tactic(auto)]

mod check;
mod law;
mod negated;
mod parts;
#[cfg(test)]
mod tests;
mod told;

pub use check::{check_obligations, checks};
pub use law::law_of_checks;
