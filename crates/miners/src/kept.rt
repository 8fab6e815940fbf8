//! What is kept of a shape: the constant of its equality, and the least sum, which tells which of
//! its bounds are left.
ghost use Rattle.std.specs.Prelude.{◌≡◌, ◌↔◌, IsTrue, ℕ, true, false, map, flat_map, All, ◌++◌, OnOk, IfOk};
ghost use Rattle.lin_terms.specs.Bounds.{fits_form};
ghost use Rattle.miners.specs.Mined.{equality_of};
ghost use Rattle.miners.specs.Sparse.{coefs_of};
ghost use Rattle.miners.specs.Kept.{sum_at, stays, IsFixed, FixesTo, fixed_atom, least_at, lowered};

use crate::point::Point;
use crate::shape::Shape;
use std::alloc::{AllocError, Global};

/// An equality that is left: at each point so far the sum of its shape is the constant.
#[derive(Clone, Copy, Debug)]
pub struct Fixed {
    pub shape: Shape,
    pub constant: i64,
}

/// The bounds of one shape that are left: those with a constant of at most the least sum so far.
#[derive(Clone, Copy, Debug)]
pub struct Least {
    pub shape: Shape,
    pub sum: i128,
}

/// The equality that holds at the point, where its constant is below 2^50 in size.
fn equality(shape: &Shape, point: &Point) -> Option<Fixed>
    ensures { FixesTo shape.now point.now result }
{
    let sum = point.sum(shape);
    if sum.unsigned_abs() < 1 << 50 {
        Some(Fixed {
            shape: *shape,
            constant: sum as i64,
        })
    } else {
        None
    }
}

/// Adds the equality of the shape that holds at the point, where there is one.
fn add_fixed(made: &mut Vec<Fixed>, shape: &Shape, point: &Point) -> Result<(), AllocError>
    ensures atoms { OnOk result ((n : ℕ) → map (fixed_atom n) made.new.items
        ≡ map (fixed_atom n) made.old.items
        ++ equality_of (coefs_of n shape.now) (sum_at shape.now point.now)) }
    ensures fixed { OnOk result (All (IsFixed point.now) made.old.items
        → All (IsFixed point.now) made.new.items) }
{
    match equality(shape, point) {
        None => Ok(()),
        Some(equality_there) => {
            made.push(equality_there)?;
            Ok(())
        }
    }
}

/// The equalities of these shapes that hold at the point.
pub fn fixed_by(alloc: Global, shapes: &[Shape], point: &Point) -> Result<Vec<Fixed>, AllocError>
    ensures atoms { IfOk result (λ made. (n : ℕ) → map (fixed_atom n) made.items
        ≡ flat_map (λ shape. equality_of (coefs_of n shape) (sum_at shape point.now)) shapes.now) }
    ensures fixed { IfOk result (λ made. All (IsFixed point.now) made.items) }
{
    let mut made = Vec::new(alloc);
    for shape in shapes {
        add_fixed(&mut made, shape, point)?;
    }
    Ok(made)
}

fn sum_of(shape: &Shape, point: &Point) -> Least
    ensures { result ≡ least_at point.now shape.now }
{
    Least {
        shape: *shape,
        sum: point.sum(shape),
    }
}

/// The sums of these shapes at the point.
pub fn leasts_by(alloc: Global, shapes: &[Shape], point: &Point) -> Result<Vec<Least>, AllocError>
    ensures { IfOk result (λ made. made.items ≡ map (least_at point.now) shapes.now) }
{
    let mut made = Vec::new(alloc);
    for shape in shapes {
        made.push(sum_of(shape, point))?;
    }
    Ok(made)
}

fn equals(sum: &i128, constant: &i64) -> bool
    ensures { IsTrue result ↔ (sum.now ≡ constant.now) }
{
    *sum == i128::from(*constant)
}

impl Fixed {
    /// Whether the equality holds at the point.
    pub fn holds(&self, point: &Point) -> bool
        ensures { result ≡ stays point.now self.now }
    {
        equals(&point.sum(&self.shape), &self.constant)
    }
}

impl Least {
    fn lower(&mut self, point: &Point)
        ensures { self.new ≡ lowered point.now self.old }
    {
        let sum = point.sum(&self.shape);
        if sum < self.sum {
            self.sum = sum;
        }
    }
}

/// Lowers the least sums to those at the point. Takes no memory.
fn lower_all(bounds: &mut [Least], point: &Point)
    ensures { bounds.new ≡ map (lowered point.now) bounds.old }
{
    for bound in bounds.iter_mut() {
        bound.lower(point);
    }
}

/// The same of a list that is kept. Takes no memory.
pub fn lower_kept(bounds: &mut Vec<Least>, point: &Point)
    ensures { bounds.new.items ≡ map (lowered point.now) bounds.old.items }
{
    lower_all(bounds.as_mut_slice(), point);
}
