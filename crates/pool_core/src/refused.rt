//! Why a call is refused.
ghost use Rattle.std.specs.Prelude.{◌≡◌};
ghost use Rattle.pool_core.specs.declared.refused.PoolRefused.TheVariants as refused;
ghost use Rattle.pool_core.specs.declared.refused.Missing.TheVariants as missing;

use std::alloc::AllocError;

/// The first refusal of a call that would add an item, in this order.
#[derive(Clone, Copy, Debug, PartialEq, Eq)]
pub enum PoolRefused {
    /// A verdict is posted.
    Closed,
    /// The given subject, or that of the given snapshot or coupling, is not the pool's.
    Stranger,
    /// The so many given pairs are not the pool's first ones; or the worker that mined them added
    /// one that is not among them.
    Stale(usize),
    /// No pair has this index, the input and both results; or these are equal.
    NoPair(u32),
    /// For the alignment with this number nothing was mined of the so many given pairs; or the
    /// family is not of the candidates that were.
    Unmined(u32),
    /// What is added stands at this position already.
    Double(u32),
    /// Memory ran out.
    Memory,
}

impl From<AllocError> for PoolRefused {
    ghost from_gives = { λ _ why. why ≡ refused.Memory };

    fn from(_: AllocError) -> PoolRefused {
        PoolRefused::Memory
    }
}

/// What is missing for a verdict, the first in this order.
#[derive(Clone, Copy, Debug, PartialEq, Eq)]
pub enum Missing {
    /// This is the least index without an item.
    Sample(u32),
    /// The item at this position is the first pair whose results differ.
    Differs(u32),
    /// The alignment with this number is the least that was not tried on all pairs.
    Alignment(u32),
    /// Memory ran out.
    Memory,
}

impl From<AllocError> for Missing {
    ghost from_gives = { λ _ why. why ≡ missing.Memory };

    fn from(_: AllocError) -> Missing {
        Missing::Memory
    }
}
