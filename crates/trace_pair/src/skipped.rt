//! Why there is no pair.
ghost use Rattle.std.specs.Prelude.{◌≡◌};
ghost use Rattle.trace_pair.specs.declared.skipped.PairRefused.TheVariants.{Memory};

use c_ast::Side;
use graph_run::Skip;
use std::alloc::AllocError;

/// What kept a sample from being a pair, and why. The condition on the inputs is asked first, then
/// A is run, and then B.
#[derive(Clone, Copy, Debug, PartialEq, Eq)]
pub struct Skipped {
    /// `Pre` where the condition keeps the input out, `A` where A's run has no trace, and `B` where
    /// A's has one and B's has none.
    pub side: Side,
    /// What was met first, which is never want of memory: `Unmet` or `Wide` of the condition, and
    /// `NotEnded` or `Wide` of a run.
    pub why: Skip,
}

/// Why a sample has no pair.
#[derive(Clone, Copy, Debug, PartialEq, Eq)]
pub enum PairRefused {
    /// The condition keeps the input out, or the run of one side has no trace, so the sample tells
    /// nothing.
    Skipped(Skipped),
    /// There was no memory for a graph, the input or a run.
    Memory,
}

impl From<AllocError> for PairRefused {
    ghost from_gives = { λ _ refused. refused ≡ Memory };

    fn from(_: AllocError) -> PairRefused {
        PairRefused::Memory
    }
}
