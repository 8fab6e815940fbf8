//! Symbolic paths: what a function does from one of its places to the next, as linear rows and
//! forms.
//!
//! A graph and a place go in, and the cases of the segments from there come out: the rows under
//! which a case holds, the place at which it ends, and the forms of the values there, over the
//! values at the start and over unknowns, of which each quotient is one. `specs/Symbolic.antt` has
//! the table of the walk, in its order, `Nodes.antt` the walk over a graph, and `Cases.antt` what
//! the cases say. A condition on the inputs has cases of its own (`Condition.antt`).
#![tactic(auto)]

// A case, and what may end a walk.
mod case;
mod limit;

// Forms: tests, operators and divisions.
mod arrival;
mod division;
mod forms;
mod made;
mod operator;
mod tested;

// One step of a walk.
mod advance;
mod entries;
mod node;
mod task;
mod tasks;

// The search for all cases.
mod condition;
mod search;
mod start;
mod walk;

// What cases promise.
mod law;

pub use case::Case;
pub use condition::condition_cases;
pub use law::{
    law_of_cases, law_of_conditions, law_of_expressions, law_of_fitting_cases, law_of_points,
    law_of_steps,
};
pub use limit::{MOST_CASES, MOST_UNKNOWNS, PathLimit};
pub use walk::segments;
