//! A candidate for a coupling: what is said at each node.
ghost use Rattle.std.specs.Prelude.{◌≡◌, ◌↔◌, None, Some, IsTrue, IfOk, MatchOption};

use crate::{Atom, Node};
use sqlite_items::Items;
use std::alloc::{AllocError, Global};

/// The nodes, each with its atoms, all of which are said to hold there. An empty list says nothing.
#[derive(Debug, Drop)]
pub struct Family {
    pub nodes: Items<(Node, Items<Atom>)>,
}

fn copy_atoms(alloc: Global, atoms: &[Atom]) -> Result<Items<Atom>, AllocError>
    ensures { IfOk result (λ made. made ≡ atoms.now) }
{
    let mut made = Items::new(alloc);
    for atom in atoms {
        made.push(atom.copy(alloc)?)?;
    }
    Ok(made)
}

fn same_atoms(first: &[Atom], second: &[Atom]) -> bool
    ensures { IsTrue result ↔ (first.now ≡ second.now) }
{
    if first.len() != second.len() {
        return false;
    }
    for (i, atom) in first.iter().enumerate() {
        if !atom.same(&second[i]) {
            return false;
        }
    }
    true
}

fn copy_entry(alloc: Global, entry: &(Node, Items<Atom>)) -> Result<(Node, Items<Atom>), AllocError>
    ensures { IfOk result (λ made. made ≡ entry.now) }
{
    let atoms = copy_atoms(alloc, entry.1.as_slice())?;
    Ok((entry.0, atoms))
}

fn same_entry(first: &(Node, Items<Atom>), second: &(Node, Items<Atom>)) -> bool
    ensures { IsTrue result ↔ (first.now ≡ second.now) }
{
    first.0.same(&second.0) && same_atoms(first.1.as_slice(), second.1.as_slice())
}

impl Family {
    ghost use Rattle.horn_clauses.specs.Family.{atoms_at};

    /// The atoms at the node, where the family has it: those of its first entry there. Takes no
    /// memory.
    pub fn at(&self, node: &Node) -> Option<&[Atom]>
        ensures { MatchOption result (atoms_at self.now node.now ≡ None)
            (λ atoms. atoms_at self.now node.now ≡ Some atoms.now) }
    {
        for entry in self.nodes.as_slice() {
            if entry.0.same(node) {
                return Some(entry.1.as_slice());
            }
        }
        None
    }

    /// The same family again.
    pub fn copy(&self, alloc: Global) -> Result<Family, AllocError>
        ensures { IfOk result (λ made. made ≡ self.now) }
    {
        let mut nodes = Items::new(alloc);
        for entry in self.nodes.as_slice() {
            nodes.push(copy_entry(alloc, entry)?)?;
        }
        Ok(Family { nodes })
    }

    /// Whether the two families have the same nodes, in the same order, with equal atoms.
    pub fn same(&self, other: &Family) -> bool
        ensures { IsTrue result ↔ (self.now ≡ other.now) }
    {
        let (first, second) = (self.nodes.as_slice(), other.nodes.as_slice());
        if first.len() != second.len() {
            return false;
        }
        for (i, entry) in first.iter().enumerate() {
            if !same_entry(entry, &second[i]) {
                return false;
            }
        }
        true
    }
}
