//! A plain interpreter of checked functions, slow and exact: a function, the values of its
//! parameters and a number of steps go in, and what comes of that many steps goes out.
//!
//! It walks over the tree, a statement at a time, as the definitions of steps do
//! (`c_ast/specs/Step.antt`), and so tries these definitions on worked runs by themselves. The
//! program does not use it: runs of graphs are compared with it in tests.
#![tactic(auto)]

mod interpreter;

pub use interpreter::interpret;
