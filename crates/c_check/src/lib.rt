//! From the syntax tree of a file to its one function, with names resolved.
//!
//! A `RawUnit` goes in, and a `Func` comes out, or the first fault. `specs/Resolves.antt` says
//! which statements those of the file stand for, `specs/Faults.antt` what a fault is, and
//! `specs/Checked.antt` when each answer comes. A condition on the inputs of a function is resolved
//! by the same rules (`specs/Condition.antt`). `specs/Table.antt`, `Entries.antt` and
//! `Resolving.antt` are no part of the promise: contracts inside the crate and proofs speak of
//! them.
#![tactic(auto)]

mod fault;

// What is known at a place of a file.
mod marks;
mod resolver;
mod table;

// What is gone over in the order of the source.
mod declaration;
mod divisor;
mod expression;
mod loops;
mod statement;

// The answers, and laws of them.
mod condition;
mod law;
#[cfg(test)]
mod tests;
mod unit;

pub use condition::check_condition;
pub use fault::CheckFault;
pub use law::{one_condition, one_function};
pub use unit::check;
