//! Atoms with their whole lists of coefficients.
ghost use Rattle.std.specs.Prelude.{◌≡◌, ◌+◌, ◌+ℤ◌, ◌++◌, ◌<◌, ◌≤◌, ◌^◌, ◌∷◌, [], map, unsigned_abs, OnOk, IfOk};
ghost use Rattle.lin_terms.specs.Vectors.{only_at as only_one};
ghost use Rattle.horn_clauses.specs.Equalities.{equality_at, equal_parameters};
ghost use Rattle.miners.specs.Mined.{bounds_of};
ghost use Rattle.miners.specs.Sparse.{only_at, coef_of, coef_at, coefs_of};
ghost use Rattle.miners.specs.Kept.{fixed_atom, least_of, bounds_left};

use crate::kept::{Fixed, Least};
use crate::shape::{Shape, Term};
use horn_clauses::{Atom, Rel};
use sqlite_items::Items;
use std::alloc::{AllocError, Global};

/// What the term adds to the coefficient at the place.
#[tactic(auto, using(crate::proofs::Sums::only_here, crate::proofs::Sums::only_elsewhere))]
fn coef_by(term: &Term, place: u8) -> i64
    ensures coef { result ≡ only_at term.now.index (coef_of term.now.coef) place }
    ensures small { unsigned_abs result ≤ 2 }
{
    if term.index == place {
        term.coef.value()
    } else {
        0
    }
}

fn added(x: &i64, y: &i64) -> i64
    requires { unsigned_abs x.now + unsigned_abs y.now < 2 ^ 63 }
    ensures sum { result ≡ x.now +ℤ y.now }
    ensures below { unsigned_abs result ≤ unsigned_abs x.now + unsigned_abs y.now }
{
    *x + *y
}

/// The coefficient at the place.
#[tactic(auto, unfolding(crate::specs::Sparse::coef_at))]
fn coef_at(shape: &Shape, place: u8) -> i64
    ensures { result ≡ coef_at shape.now place }
{
    let last = added(
        &coef_by(&shape.third, place),
        &coef_by(&shape.fourth, place),
    );
    let others = added(&coef_by(&shape.second, place), &last);
    added(&coef_by(&shape.first, place), &others)
}

/// The shape's coefficients of so many values.
fn coefs_of(alloc: Global, width: u8, shape: &Shape) -> Result<Items<i64>, AllocError>
    ensures { IfOk result (λ coefs. coefs ≡ coefs_of width shape.now) }
{
    let mut coefs = Items::new(alloc);
    for place in 0..width {
        coefs.push(coef_at(shape, place))?;
    }
    Ok(coefs)
}

fn equality(alloc: Global, width: u8, fixed: &Fixed) -> Result<Atom, AllocError>
    ensures { IfOk result (λ atom. atom ≡ fixed_atom width fixed.now) }
{
    let coefs = coefs_of(alloc, width, &fixed.shape)?;
    Ok(Atom::Linear {
        coefs,
        constant: fixed.constant,
        rel: Rel::Eq,
    })
}

fn bound(alloc: Global, width: u8, shape: &Shape, constant: &i64) -> Result<Atom, AllocError>
    ensures { IfOk result (λ atom.
        atom ≡ Atom.Linear (coefs_of width shape.now) constant.now Rel.AtLeast) }
{
    let coefs = coefs_of(alloc, width, shape)?;
    Ok(Atom::Linear {
        coefs,
        constant: *constant,
        rel: Rel::AtLeast,
    })
}

/// Adds the equalities that are left.
pub fn add_equalities(
    alloc: Global,
    atoms: &mut Items<Atom>,
    width: u8,
    fixed: &[Fixed],
) -> Result<(), AllocError>
    ensures { OnOk result (atoms.new ≡ atoms.old ++ map (fixed_atom width) fixed.now) }
{
    for equality_left in fixed {
        atoms.push(equality(alloc, width, equality_left)?)?;
    }
    Ok(())
}

/// Adds the bound with this constant, where that is at most the least sum.
fn add_bound(
    alloc: Global,
    atoms: &mut Items<Atom>,
    width: u8,
    least: &Least,
    constant: &i64,
) -> Result<(), AllocError>
    ensures { OnOk result (atoms.new ≡ atoms.old
        ++ bounds_of (constant.now ∷ []) (coefs_of width least.now.shape) least.now.sum) }
{
    if i128::from(*constant) <= least.sum {
        atoms.push(bound(alloc, width, &least.shape, constant)?)?;
    }
    Ok(())
}

/// Adds the bounds of one shape whose constants are at most the least sum.
fn add_bounds_of(
    alloc: Global,
    atoms: &mut Items<Atom>,
    width: u8,
    least: &Least,
    constants: &[i64],
) -> Result<(), AllocError>
    ensures { OnOk result (atoms.new ≡ atoms.old
        ++ bounds_of constants.now (coefs_of width least.now.shape) least.now.sum) }
{
    for constant in constants {
        add_bound(alloc, atoms, width, least, constant)?;
    }
    Ok(())
}

/// Adds the bounds that are left.
pub fn add_bounds(
    alloc: Global,
    atoms: &mut Items<Atom>,
    width: u8,
    leasts: &[Least],
    constants: &[i64],
) -> Result<(), AllocError>
    ensures { OnOk result (atoms.new ≡ atoms.old
        ++ bounds_left constants.now (map (least_of width) leasts.now)) }
{
    for least in leasts {
        add_bounds_of(alloc, atoms, width, least, constants)?;
    }
    Ok(())
}

/// As many zeros, but with this number at the place.
fn only_at(alloc: Global, count: u32, place: u32, coef: &i64) -> Result<Items<i64>, AllocError>
    requires { place < count }
    ensures { IfOk result (λ coefs. coefs ≡ only_one count place coef.now) }
{
    let mut coefs = Items::from_vec(vec![in alloc; 0; count as usize]?);
    coefs.set(place as usize, *coef);
    Ok(coefs)
}

/// The equality of the values at the place of as many of each side.
fn equality_at(alloc: Global, count: u32, place: u32) -> Result<Atom, AllocError>
    requires { place < count }
    ensures { IfOk result (λ atom. atom ≡ equality_at count place) }
{
    let mut coefs = only_at(alloc, count, place, &1)?;
    coefs.append(only_at(alloc, count, place, &-1)?)?;
    Ok(Atom::Linear {
        coefs,
        constant: 0,
        rel: Rel::Eq,
    })
}

/// The equalities of as many parameters.
pub fn equal_parameters(alloc: Global, count: u32) -> Result<Items<Atom>, AllocError>
    ensures { IfOk result (λ atoms. atoms ≡ equal_parameters count) }
{
    let mut atoms = Items::new(alloc);
    for place in 0..count {
        atoms.push(equality_at(alloc, count, place)?)?;
    }
    Ok(atoms)
}
