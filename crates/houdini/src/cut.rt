//! Strikes the marked atoms at a node of a family. Atoms are moved and not copied.
ghost use Rattle.std.specs.Prelude.{◌≡◌, reverse, IfOk};
ghost use Rattle.houdini.specs.Cut.{unmarked, cut_entry, cut_among, cut};

use horn_clauses::{Atom, Family, Node};
use sqlite_items::Items;
use std::alloc::{AllocError, Global};

/// The items, the last one first.
fn reversed<T: Drop>(alloc: Global, items: Items<T>) -> Result<Vec<T>, AllocError>
    ensures { IfOk result (λ made. made.items ≡ reverse items) }
{
    let mut left = items;
    let mut made = Vec::new(alloc);
    while let Some(item) = left.pop() {
        made.push(item)?;
    }
    Ok(made)
}

/// The atoms beside a mark that is false.
fn unmarked(alloc: Global, atoms: Items<Atom>, marks: &[bool]) -> Result<Items<Atom>, AllocError>
    ensures { IfOk result (λ made. made ≡ unmarked atoms marks.now) }
{
    let mut left = reversed(alloc, atoms)?;
    let mut made = Items::new(alloc);
    for mark in marks {
        let Some(atom) = left.pop() else {
            break;
        };
        if !*mark {
            made.push(atom)?;
        }
    }
    Ok(made)
}

/// The entry without its marked atoms.
fn cut_entry(
    alloc: Global,
    entry: (Node, Items<Atom>),
    marks: &[bool],
) -> Result<(Node, Items<Atom>), AllocError>
    ensures { IfOk result (λ made. made ≡ cut_entry entry marks.now) }
{
    let (node, atoms) = entry;
    let atoms = unmarked(alloc, atoms, marks)?;
    Ok((node, atoms))
}

/// The family without the marked atoms at the node. There is a mark for each atom of the node's
/// first entry.
pub(crate) fn cut(
    alloc: Global,
    family: Family,
    node: &Node,
    marks: &[bool],
) -> Result<Family, AllocError>
    ensures { IfOk result (λ made. made ≡ cut family node.now marks.now) }
{
    let mut left = reversed(alloc, family.nodes)?;
    let mut nodes = Items::new(alloc);
    let mut found = false;
    while let Some(entry) = left.pop() {
        if !found && entry.0.same(node) {
            found = true;
            nodes.push(cut_entry(alloc, entry, marks)?)?;
        } else {
            nodes.push(entry)?;
        }
    }
    Ok(Family { nodes })
}
