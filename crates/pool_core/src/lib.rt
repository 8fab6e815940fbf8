//! What workers found about two functions, as one list that only grows, and the verdict that they
//! come to.
//!
//! An item is a pair of runs, a skipped sample, candidates that were mined, an alignment that was
//! tried, or the verdict (`item`, `verdict`). `specs/Tried.antt` says when a reason is true of an
//! alignment, `specs/Justified.antt` when a verdict is, `specs/History.antt` what may follow what,
//! and `specs/Plays.antt` what each call answers. A pool (`pool`) keeps its history with room for
//! all that can come and tables of where it stands (`log`); beside it the pairs in pages that
//! snapshots share (`pages`, `snapshot`), and the candidates of each alignment (`lives`).
//! `conclude` tells the verdict, or what is missing. `law` has the laws: the front of a legal
//! history is legal and nothing follows a verdict; two justified verdicts are of one kind, unless a
//! limit of an obligation hides a coupling; and what is concluded is justified.
#![tactic(auto)]

// What stands in a history, and the verdict.
mod item;
mod refused;
mod shared_pair;
mod verdict;

// The pool, and what it keeps beside the history.
mod conclude;
mod lives;
mod log;
mod pages;
mod pool;
mod snapshot;

// What histories and verdicts promise.
mod law;
#[cfg(test)]
mod tests;

pub use item::Item;
pub use law::{law_of_conclusions, law_of_histories, law_of_kinds};
pub use pool::Pool;
pub use refused::{Missing, PoolRefused};
pub use shared_pair::SharedPair;
pub use snapshot::Snapshot;
pub use verdict::{SampleWhy, Verdict, Why};
