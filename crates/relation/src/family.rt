//! Whether a family has the form that a linear one has over a product.
ghost use Rattle.std.specs.Prelude.{◌≡◌, ◌↔◌, ◌≤◌, IsTrue, All, unsigned_abs};
ghost use Rattle.lin_terms.specs.Bounds.{FitsForm};
ghost use Rattle.horn_clauses.specs.Obligations.{FitsNode};
ghost use Rattle.path_product.specs.Agreement.{HasNode};
ghost use Rattle.relation.specs.Linear.{node_width, HasShape};
ghost use Rattle.relation.specs.Coupled.{IsSmallAtom, HasSmallAtoms};

use flow_graph::Graph;
use horn_clauses::{Atom, Family, Node, Product};
use lin_terms::fits_form;
use sqlite_items::Items;

// ---- small numbers

fn are_small_coefs(coefs: &[i64]) -> bool
    ensures { IsTrue result ↔ All (λ coef. unsigned_abs coef ≤ 2) coefs.now }
{
    coefs.iter().all(|coef| coef.unsigned_abs() <= 2)
}

fn is_small_constant(constant: &i64) -> bool
    ensures { IsTrue result ↔ FitsForm constant.now }
{
    fits_form(i128::from(*constant))
}

fn is_small_atom(atom: &Atom) -> bool
    ensures { IsTrue result ↔ IsSmallAtom atom.now }
{
    match atom {
        Atom::False => true,
        Atom::Linear {
            coefs,
            constant,
            ..
        } => are_small_coefs(coefs.as_slice()) && is_small_constant(constant),
    }
}

fn are_small_atoms(atoms: &[Atom]) -> bool
    ensures { IsTrue result ↔ All IsSmallAtom atoms.now }
{
    atoms.iter().all(is_small_atom)
}

/// Whether each coefficient of the family is from -2 to 2, and each constant below 2^50 in size:
/// what `Coupled::new` asks of it. Takes no memory.
pub fn has_small_atoms(family: &Family) -> bool
    ensures { IsTrue result ↔ HasSmallAtoms family.now }
{
    for entry in family.nodes.as_slice() {
        if !are_small_atoms(entry.1.as_slice()) {
            return false;
        }
    }
    true
}

// ---- the nodes

fn fits_node(width: usize, atom: &Atom) -> bool
    requires { IsSmallAtom atom.now }
    ensures { IsTrue result ↔ FitsNode width atom.now }
{
    match atom {
        Atom::False => true,
        Atom::Linear { coefs, .. } => coefs.len() == width,
    }
}

/// Whether each of the atoms has a coefficient for each of so many values.
fn fit_node(width: usize, atoms: &[Atom]) -> bool
    requires { All IsSmallAtom atoms.now }
    ensures { IsTrue result ↔ All (FitsNode width) atoms.now }
{
    for atom in atoms {
        if !fits_node(width, atom) {
            return false;
        }
    }
    true
}

/// How many values both sides have at the node.
fn node_width(first: &Graph, second: &Graph, node: &Node) -> usize
    requires { HasNode first.now second.now node.now }
    ensures { result ≡ node_width first.now second.now node.now }
{
    first.width_at(node.0) as usize + second.width_at(node.1) as usize
}

/// Whether the family lists this node here, with atoms over the values there.
fn lists_node(first: &Graph, second: &Graph, node: &Node, entry: &(Node, Items<Atom>)) -> bool
    requires node { HasNode first.now second.now node.now }
    requires small { All IsSmallAtom entry.now.1 }
    ensures { IsTrue result ↔ (entry.now.0 ≡ node.now)
        × All (FitsNode (node_width first.now second.now node.now)) entry.now.1 }
{
    entry.0.same(node) && fit_node(node_width(first, second, node), entry.1.as_slice())
}

/// Whether the family has the product's nodes in their order, each with atoms over the values
/// there.
pub(crate) fn has_shape(first: &Graph, second: &Graph, product: &Product, family: &Family) -> bool
    requires nodes { All (HasNode first.now second.now) product.now.nodes }
    requires small { HasSmallAtoms family.now }
    ensures { IsTrue result ↔ HasShape first.now second.now product.now family.now }
{
    let (nodes, entries) = (product.nodes.as_slice(), family.nodes.as_slice());
    if nodes.len() != entries.len() {
        return false;
    }
    for (i, entry) in entries.iter().enumerate() {
        if !lists_node(first, second, &nodes[i], entry) {
            return false;
        }
    }
    true
}
