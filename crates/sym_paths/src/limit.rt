//! What may end a walk.
ghost use Rattle.std.specs.Prelude.{◌≡◌};
ghost use Rattle.sym_paths.specs.declared.limit.PathLimit.TheVariants.{Memory};

use std::alloc::AllocError;

/// A case has at most this many unknowns.
pub const MOST_UNKNOWNS: usize = 16;

/// A segment, or a condition, has at most this many cases.
pub const MOST_CASES: usize = 1024;

/// The first limit that a walk meets.
#[derive(Clone, Copy, Debug, PartialEq, Eq)]
pub enum PathLimit {
    /// Neither factor of a product is constant.
    NonLinear,
    /// An entry of a form, or of a row before it is made tight, reaches 2^50 in size.
    WideForm,
    /// A case would have a 17th unknown.
    ManyUnknowns,
    /// There is a 1,025th case.
    ManyPaths,
    /// Memory ran out.
    Memory,
}

impl From<AllocError> for PathLimit {
    ghost from_gives = { λ _ why. why ≡ Memory };

    fn from(_: AllocError) -> PathLimit {
        PathLimit::Memory
    }
}
