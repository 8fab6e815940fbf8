//! What llreve prints, byte for byte. No crate below knows texts.
//!
//! `fault_text` tells why there is no answer (`specs/Faults.antt`), `verdict_text` what was found
//! about two functions (`specs/Verdicts.antt`), and `history_text` how it was found
//! (`specs/Histories.antt`). A family is told by its nodes and atoms (`specs/Families.antt`), a
//! reason by a few words (`specs/Limits.antt`), samples by their causes (`specs/Samples.antt`), and
//! a list of indexes by its runs (`specs/Indexes.antt`). `specs/Fits.antt` says which verdicts can be
//! told of which functions: all that are justified. Every line ends with a newline.
#![tactic(auto)]

// Refusals.
mod fault;

// Samples.
mod indexes;
mod samples;

// Verdicts.
mod family;
mod limits;
mod verdict;

// Histories.
mod history;

// What the texts tell apart, and that what is justified can be told.
mod fitting;
mod law;
#[cfg(test)]
mod tests;

pub use fault::{Fault, fault_text};
pub use fitting::law_of_fitting;
pub use history::history_text;
pub use indexes::indexes_text;
pub use law::{law_of_runs, law_of_samples, law_of_texts};
pub use verdict::verdict_text;
