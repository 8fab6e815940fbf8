//! Why there is no trace, or no pair of traces.
ghost use Rattle.std.specs.Prelude.{◌≡◌};
ghost use Rattle.graph_run.specs.declared.skip.Skip.TheVariants.{Memory};

use std::alloc::AllocError;

/// Why a sample has no trace: what was met first, or want of memory.
#[derive(Clone, Copy, Debug, PartialEq, Eq)]
pub enum Skip {
    /// One mark more than a run may pass.
    NotEnded,
    /// A part of an evaluated expression, also one that C would skip, whose value is 2^100 or more
    /// in size.
    Wide,
    /// The input does not meet the condition on the inputs. No run answers so, since a condition is
    /// asked before any run.
    Unmet,
    /// There was no memory for the environment or the events.
    Memory,
}

impl From<AllocError> for Skip {
    ghost from_gives = { λ _ skip. skip ≡ Memory };

    fn from(_: AllocError) -> Skip {
        Skip::Memory
    }
}
