//! Why a family is not taken as a coupling.
ghost use Rattle.std.specs.Prelude.{◌≡◌};
ghost use Rattle.relation.specs.declared.not_coupled.NotCoupled.TheVariants.{Memory};

use path_product::ProductLimit;
use std::alloc::AllocError;

/// The first refusal, in this order.
#[derive(Clone, Copy, Debug, PartialEq, Eq)]
pub enum NotCoupled {
    /// The making of the product meets this limit, which is not want of memory.
    Limit(ProductLimit),
    /// The family's nodes are not the product's in their order, or an atom has not as many
    /// coefficients as its node has values.
    Shape,
    /// The two entries have not exactly the equalities of the parameters, in their order.
    AtEntry,
    /// The two exits have neither the equality of the results nor the atom `false`.
    AtExit,
    /// The obligation with this number is the first that its list does not prove.
    Obligation(usize),
    /// Memory ran out.
    Memory,
}

impl From<AllocError> for NotCoupled {
    ghost from_gives = { λ _ why. why ≡ Memory };

    fn from(_: AllocError) -> NotCoupled {
        NotCoupled::Memory
    }
}
