//! The items of a history.
use crate::{SharedPair, Verdict, Why};
use alignment::Alignment;
use miners::Candidates;
use trace_pair::Skipped;

/// What a worker adds to a history. Workers are told apart by their numbers.
#[derive(Debug, Drop)]
pub enum Item {
    /// The sample with this index is a pair.
    Pair {
        worker: u32,
        index: u32,
        pair: SharedPair,
    },
    /// The sample with this index is skipped.
    Skipped {
        worker: u32,
        index: u32,
        skipped: Skipped,
    },
    /// The candidates of the first pairs of the history, under an alignment.
    Mined {
        worker: u32,
        /// How many pairs these are.
        prefix: u32,
        alignment: Alignment,
        candidates: Candidates,
    },
    /// Why the alignment has no coupling, as far as it was tried on these candidates.
    Tried {
        worker: u32,
        /// The number of pairs whose candidates they are.
        prefix: u32,
        alignment: Alignment,
        why: Why,
    },
    /// The verdict, which is not unknown.
    Posted {
        worker: u32,
        verdict: Verdict,
    },
}
