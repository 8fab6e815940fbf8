//! The candidates at each node.
ghost use Rattle.std.specs.Prelude.{◌≡◌, None, Some, IfOk, MatchOption};

use horn_clauses::{Atom, Family, Node};
use std::alloc::{AllocError, Global};
use std::marker::Model;

/// The atoms that may be said at each node. Contracts see the family of them.
#[derive(Debug, Drop)]
pub struct Candidates {
    family: Family,
}

impl Model for Candidates {
    ghost use Rattle.horn_clauses.specs.declared.family.Family.{Family};

    ghost Value = { Family };

    ghost view = { λ c. c.family };
}

impl Candidates {
    ghost use Rattle.horn_clauses.specs.Family.{atoms_at};

    /// The candidates that stand in the family.
    pub(crate) fn of(family: Family) -> Candidates
        ensures { result ≡ family }
    {
        Candidates { family }
    }

    /// The candidates at the node, in their order; `None` where no pair meets it, which stands for
    /// `false` alone. Takes no memory.
    pub fn at(&self, node: &Node) -> Option<&[Atom]>
        ensures { MatchOption result (atoms_at self.now node.now ≡ None)
            (λ atoms. atoms_at self.now node.now ≡ Some atoms.now) }
    {
        self.family.at(node)
    }

    /// The family of all candidates.
    pub fn family(&self) -> &Family
        ensures { result.now ≡ self.now }
    {
        &self.family
    }

    /// The same candidates again.
    pub fn copy(&self, alloc: Global) -> Result<Candidates, AllocError>
        ensures { IfOk result (λ made. made ≡ self.now) }
    {
        let family = self.family.copy(alloc)?;
        Ok(Candidates { family })
    }
}
