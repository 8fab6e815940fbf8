//! The product of two functions under an alignment: what both do side by side, as clauses between
//! nodes.
#![tactic(auto)]

mod clause;
mod columns;
mod compose;
mod graphs;
mod law;
mod limit;
mod queue;
mod side;
mod starts;
mod visits;

pub use graphs::{product, product_under};
pub use law::law_of_products;
pub use limit::ProductLimit;
pub use starts::{Segments, SegmentsFault, Start};
pub use visits::product_over;
