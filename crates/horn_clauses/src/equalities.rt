//! Whether a family says that both sides have the same values where they begin and where they end.
ghost use Rattle.std.specs.Prelude.{◌≡◌, ◌↔◌, ◌<◌, ◌+◌, ◌++◌, pos, negsuc, slice_index_or, IsTrue};
ghost use Rattle.lin_terms.specs.Vectors.{only_at};
ghost use Rattle.horn_clauses.specs.declared.atom.Atom.TheVariants.{False};
ghost use Rattle.horn_clauses.specs.Equalities.{equality_at, equal_parameters};
ghost use Rattle.horn_clauses.specs.Equalities.{ForcesEqualResults, BeginsEqual, EndsEqual};

use crate::{Atom, Family, Node, Rel};
use c_ast::Place;

/// Whether the coefficient is the one at `j` in the equality of the values at `i`, of `count` on
/// each side.
fn is_coefficient(count: usize, i: usize, j: usize, coef: &i64) -> bool
    requires own { i < count }
    requires inside { j < count + count }
    ensures { IsTrue result ↔ (coef.now ≡
        slice_index_or (only_at count i (pos 1) ++ only_at count i (negsuc 0)) j (pos 0)) }
{
    if j == i {
        *coef == 1
    } else if j >= count && j - count == i {
        *coef == -1
    } else {
        *coef == 0
    }
}

/// Whether these are the coefficients of the equality of the values at `i`, of `count` on each
/// side.
fn are_coefficients(count: u32, i: usize, coefs: &[i64]) -> bool
    requires { i < count }
    ensures { IsTrue result
        ↔ (coefs.now ≡ only_at count i (pos 1) ++ only_at count i (negsuc 0)) }
{
    let side = count as usize;
    if coefs.len() != side + side {
        return false;
    }
    for (j, coef) in coefs.iter().enumerate() {
        if !is_coefficient(side, i, j, coef) {
            return false;
        }
    }
    true
}

fn is_zero(constant: &i64) -> bool
    ensures { IsTrue result ↔ (constant.now ≡ pos 0) }
{
    *constant == 0
}

/// Whether the atom says that of `count` values on each side those at `i` are equal.
fn is_equality_at(count: u32, i: usize, atom: &Atom) -> bool
    requires { i < count }
    ensures { IsTrue result ↔ (atom.now ≡ equality_at count i) }
{
    match atom {
        Atom::Linear {
            coefs,
            constant,
            rel: Rel::Eq,
        } => is_zero(constant) && are_coefficients(count, i, coefs.as_slice()),
        Atom::Linear {
            rel: Rel::AtLeast,
            ..
        }
        | Atom::False => false,
    }
}

/// Whether these are the equalities of so many parameters, in their order.
fn are_equal_parameters(count: u32, atoms: &[Atom]) -> bool
    ensures { IsTrue result ↔ (atoms.now ≡ equal_parameters count) }
{
    if atoms.len() != count as usize {
        return false;
    }
    for (i, atom) in atoms.iter().enumerate() {
        if !is_equality_at(count, i, atom) {
            return false;
        }
    }
    true
}

fn is_false(atom: &Atom) -> bool
    ensures { IsTrue result ↔ (atom.now ≡ False) }
{
    match atom {
        Atom::False => true,
        Atom::Linear { .. } => false,
    }
}

/// Whether the equality of the results or `false` is among them.
fn force_equal_results(atoms: &[Atom]) -> bool
    ensures { IsTrue result ↔ ForcesEqualResults atoms.now }
{
    for atom in atoms {
        if is_false(atom) || is_equality_at(1, 0, atom) {
            return true;
        }
    }
    false
}

/// Whether the family says at the two entries exactly that the parameters are equal, pairwise.
pub fn begins_equal(count: u32, family: &Family) -> bool
    ensures { IsTrue result ↔ BeginsEqual count family.now }
{
    match family.at(&Node(Place::Entry, Place::Entry)) {
        Some(atoms) => are_equal_parameters(count, atoms),
        None => false,
    }
}

/// Whether the family forces equal results at the two exits.
pub fn ends_equal(family: &Family) -> bool
    ensures { IsTrue result ↔ EndsEqual family.now }
{
    match family.at(&Node(Place::Exit, Place::Exit)) {
        Some(atoms) => force_equal_results(atoms),
        None => false,
    }
}
