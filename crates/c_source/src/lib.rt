//! Reads a text as a C function, or as a condition on the inputs of one.
//!
//! The bytes go in, and the checked tree comes out, or the first fault: of the tokens, of the tree
//! that they spell, or of the rules on names, jumps, marks and divisors. `specs/Reads.antt` says
//! which function a text is read as, and `specs/ReadsCondition.antt` which condition.
#![tactic(auto)]

mod condition;
mod fault;
mod function;
mod law;
#[cfg(test)]
mod tests;

pub use condition::read_condition;
pub use fault::TextFault;
pub use function::read_function;
pub use law::{law_of_conditions, law_of_functions};
