//! A family without one of its atoms.
ghost use Rattle.std.specs.Prelude.{◌≡◌, ◌<◌, ◌||◌, length, remove, IfOk, OnOk};
ghost use Rattle.horn_clauses.specs.Node.{is_same_node};
ghost use Rattle.houdini.specs.Striking.{struck_among, turned, after_turn, found_after};

use horn_clauses::{Atom, Family, Node};
use sqlite_items::Items;
use std::alloc::AllocError;

/// The atoms without the one at this place, where there is one.
fn without(mut atoms: Items<Atom>, at: usize) -> Items<Atom>
    ensures { result ≡ remove atoms at }
{
    if at < atoms.len() {
        atoms.remove(at);
    }
    atoms
}

/// The entry, which lacks its atom at this place where it is the first for the node.
fn turned(entry: (Node, Items<Atom>), node: &Node, at: usize, found: bool) -> (Node, Items<Atom>)
    ensures { result ≡ turned node.now at found entry }
{
    if !found && entry.0.same(node) {
        let (here, atoms) = entry;
        return (here, without(atoms, at));
    }
    entry
}

/// Whether the node is found so far, or here.
fn is_found(found: bool, here: &Node, node: &Node) -> bool
    ensures { result ≡ (found || is_same_node here.now node.now) }
{
    found || here.same(node)
}

/// Takes the first of the entries to the end, without its atom at this place where it is the first
/// for the node. Says whether the node is found.
fn turn(
    entries: &mut Items<(Node, Items<Atom>)>,
    node: &Node,
    at: usize,
    found: bool,
) -> Result<bool, AllocError>
    requires { 0 < length entries.old }
    ensures found { IfOk result (λ now. now ≡ found_after node.now found entries.old) }
    ensures entries { OnOk result (entries.new ≡ after_turn node.now at found entries.old) }
{
    let entry = entries.remove(0);
    let here = is_found(found, &entry.0, node);
    entries.push(turned(entry, node, at, found))?;
    Ok(here)
}

/// The family without the atom at this place of the node's.
pub fn strike(family: Family, node: &Node, at: usize) -> Result<Family, AllocError>
    ensures { IfOk result (λ left. left.nodes ≡ struck_among node.now at family.nodes) }
{
    let Family { nodes: mut entries } = family;
    let mut found = false;
    for done in 0..entries.len() {
        let now = turn(&mut entries, node, at, found)?;
        found = now;
    }
    Ok(Family { nodes: entries })
}
