//! The functions of the C profile as checked trees, and what they mean.
//!
//! A `Func` goes in and out as plain data: its names are numbers, its loops have one form. The
//! meaning stands in `specs/`: `Value.antt` (ISO C11, 6.5) gives an expression's value, `Step.antt`
//! (6.8) the steps of a run, and `Returns.antt` what a function returns. All numbers of a run are
//! integers of any size.
#![tactic(auto)]

// Functions as trees, of raw parts and checked.
mod expr;
mod func;
mod name;
mod raw;
mod stmt;
mod subject;

// What they mean: values, places, what is in scope, traces.
mod place;
mod scope;
mod trace;
mod value;

// Equal copies, settings of a question, and laws.
mod copy;
mod law;
mod same;
mod settings;
#[cfg(test)]
mod tests;

pub use copy::copy_expr;
pub use expr::{BinOp, Expr, UnOp};
pub use func::{Func, Var};
pub use law::{
    law_of_division, law_of_environments, law_of_marks, law_of_outcomes, law_of_places,
    law_of_results, law_of_scopes, law_of_segments, law_of_traces, law_of_trees, law_of_values,
};
pub use name::Name;
pub use place::{Place, Side};
pub use raw::{RawCond, RawDeclarator, RawExpr, RawFunc, RawStmt, RawUnit};
pub use scope::first_environment;
pub use settings::{MOST_MARKS, MOST_ROWS, MOST_SAMPLES, Settings};
pub use stmt::Stmt;
pub use subject::{Arity, Subject};
pub use trace::{Event, Outcome, Pair, Trace};
pub use value::{WIDE_RUN, is_nonzero, value_of};
