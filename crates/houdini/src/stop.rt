//! Why a search has no answer.
ghost use Rattle.std.specs.Prelude.{◌≡◌};
ghost use Rattle.houdini.specs.declared.stop.Stop.TheVariants.{Memory};

use std::alloc::AllocError;

/// Why a search has no answer.
#[derive(Clone, Copy, Debug, PartialEq, Eq)]
pub enum Stop {
    /// The watch said so.
    Stopped,
    /// Memory ran out.
    Memory,
}

impl From<AllocError> for Stop {
    ghost from_gives = { λ _ stop. stop ≡ Memory };

    fn from(_: AllocError) -> Stop {
        Stop::Memory
    }
}
