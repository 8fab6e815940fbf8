//! Reads the tokens of a file as its functions, and those of one expression as its tree.
//!
//! Tokens go in, and the tree that they spell comes out, or the fault that brackets nest too deep,
//! or that no tree of at most 400 levels is spelled so. `specs/Units.antt` says which tokens spell
//! which functions, over `Statements.antt`, `Declarations.antt` and `Expressions.antt` (ISO C11,
//! 6.5 to 6.9), and `Depth.antt` measures both depths. Recursive descent: each rule of the grammar
//! is a function (`unit`, `statement`, `simple`, `declaration`), and the binary operators have one
//! loop (`expression`).
#![tactic(auto)]

// Limits, refusals, and what stands at the front of tokens.
mod depth;
mod fault;
mod front;
mod name;

// Expressions.
mod expression;
mod operators;

// Declarations and statements.
mod declaration;
mod simple;
mod statement;

// All of the tokens: one expression, or a file.
mod condition;
#[cfg(test)]
mod tests;
mod unit;

pub use condition::{one_expression, read_expr};
pub use fault::ReadFault;
pub use unit::{one_tree, read_unit};
