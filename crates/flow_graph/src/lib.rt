//! The flow graph of a function: numbered nodes, each with what it does and the nodes that may come
//! next.
//!
//! `build` turns a checked function into its graph. `specs/Run.antt` says what a graph does, a step
//! at a time, and `specs/Built.antt` that it does what the steps of the source do: the same marks
//! with the same values and the same result, from every place and in both directions; and from the
//! entry it is judged alike: it returns, passes one mark too many, or meets a wide value. The nodes
//! are numbered as `specs/Layout.antt` lays them, so a function has one graph.
#![tactic(auto)]

// A graph and its nodes.
mod graph;
mod op;

// How a function becomes one.
mod builder;
mod layout;
mod scopes;
mod stop;

// That a function has one graph, and what graphs promise of segments and values.
mod law;
#[cfg(test)]
mod tests;

pub use builder::build;
pub use graph::Graph;
pub use law::{law_of_graph_segments, law_of_graph_values, law_of_graphs};
pub use op::Op;
