//! What may stop the making of a product.
ghost use Rattle.std.specs.Prelude.{◌≡◌};
ghost use Rattle.path_product.specs.declared.limit.ProductLimit.TheVariants.{Memory};

use c_ast::{Place, Side};
use horn_clauses::Node;
use std::alloc::AllocError;
use sym_paths::PathLimit;

/// A node has at most this many variables.
pub const MOST_VARIABLES: usize = 16;

/// The first limit that is met, in the order of work: the condition, the places of side A, those
/// of side B, and then one node after the other.
#[derive(Clone, Copy, Debug, PartialEq, Eq)]
pub enum ProductLimit {
    /// The condition's walk meets it.
    AtPre(PathLimit),
    /// The walk from a place of that side's function meets it.
    AtPlace {
        side: Side,
        place: Place,
        limit: PathLimit,
    },
    /// The node has more than 16 variables.
    ManyVariables(Node),
    /// An entry of a form or row over the node's variables reaches 2^50 in size.
    WideForm(Node),
    /// A case of a side, or a coupled one, would have a 17th unknown.
    ManyUnknowns(Node),
    /// There is a 1,025th case of a side, or a 1,025th coupled one.
    ManyPaths(Node),
    /// Memory ran out.
    Memory,
}

impl From<AllocError> for ProductLimit {
    ghost from_gives = { λ _ why. why ≡ Memory };

    fn from(_: AllocError) -> ProductLimit {
        ProductLimit::Memory
    }
}
