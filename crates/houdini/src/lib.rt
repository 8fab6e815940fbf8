//! The greatest linear family of candidates over a product, or that there is none (Houdini:
//! Flanagan and Leino, 2001).
//!
//! A family is linear where it begins with all candidates at the two entries, says at the two exits
//! that the results are equal, and multipliers refute each of its obligations. An atom of which an
//! obligation is not refutable stands in no linear family, since fewer atoms at a clause's start
//! refute less: so it is struck, and the rest is asked again, until all obligations are proved.
//! `specs/Linear.antt` says which families are linear and what may be struck, `specs/Answers.antt`
//! what each answer means, and `specs/Laws.antt` that the search is complete.
#![tactic(auto)]

mod cut;
mod entry_exit;
mod failure;
mod law;
mod narrow;
mod pass;
mod points;
mod search;
mod stop;
mod strike;
#[cfg(test)]
mod tests;

pub use law::law_of_searches;
pub use search::{Outcome, greatest};
pub use stop::Stop;
