//! Candidates that are kept up to date while pairs of traces come in.
//!
//! `Live` is what `miners` gathers of pairs, one after another, so a new pair costs no more than
//! its own walk. `law_of_live_candidates` says that its candidates are those that `mine` gives of
//! all the pairs at once, in whatever parts these came.
#![tactic(auto)]

mod law;
mod live;
#[cfg(test)]
mod tests;

pub use law::law_of_live_candidates;
pub use live::Live;
