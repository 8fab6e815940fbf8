//! What it means that a family couples two functions, and why a coupling shows that they never
//! return differently.
//!
//! A coupling holds at the entries of all inputs that meet a condition, is kept by every move of
//! an alignment, and forces equal results at the exits (`specs/Coupling.antt`). Two runs that
//! return are lists of segments, and at every node but the two exits some side has a segment to
//! take. So the runs are followed to the exits, whatever is said and kept on the way
//! (`specs/Invariants.antt`), where the coupling speaks of both results.
//!
//! Each move is one that some clause of the product of the functions' graphs leads, so a family
//! over its nodes is kept where the obligations of its clauses are refuted (`specs/Linear.antt`).
//!
//! `Coupled` is a comparison of two functions with a family that was found to be such a coupling
//! (`specs/Coupled.antt`): the product is made, the family's form is tested (`family`),
//! and its obligations are checked by the multipliers that come with it.
#![tactic(auto)]

mod coupled;
mod family;
mod law;
mod not_coupled;

pub use coupled::Coupled;
pub use family::has_small_atoms;
pub use law::{law_of_coupled, law_of_couplings, law_of_invariants, law_of_linear_families};
pub use not_coupled::NotCoupled;
