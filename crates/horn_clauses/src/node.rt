//! The nodes at which two functions are compared.
ghost use Rattle.std.specs.Prelude.{◌≡◌, ◌↔◌, IsTrue};

use c_ast::Place;

/// A place of each function. Nodes are ordered by the first function's place, then by the second's.
#[derive(Clone, Copy, Debug, PartialEq, Eq, PartialOrd, Ord)]
pub struct Node(pub Place, pub Place);

impl Node {
    ghost use Rattle.horn_clauses.specs.Node.{StandsBefore};

    /// Whether this node comes before the other in their order.
    pub fn is_before(&self, other: &Node) -> bool
        ensures { IsTrue result ↔ StandsBefore self.now other.now }
    {
        self < other
    }

    /// Whether the two nodes are one.
    pub fn same(&self, other: &Node) -> bool
        ensures { IsTrue result ↔ (self.now ≡ other.now) }
    {
        self == other
    }
}
