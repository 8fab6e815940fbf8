//! All lists of coefficients of a kind, in falling order. They are made place by place: each list
//! so far goes on with each coefficient that it may have at the next place, the greatest first.
ghost use Rattle.std.specs.Prelude.{◌≡◌, ◌++◌, ℕ, suc, map, OnOk, IfOk};
ghost use Rattle.miners.specs.Sparse.{coef_of, coefs_of, ended, ended_with, all_ended, shapes_of};

use crate::shape::{Coef, Kind, Shape, Term};
use std::alloc::{AllocError, Global};

/// Adds the shape with one more coefficient at this place, where it may have it there.
fn add_next(
    made: &mut Vec<Shape>,
    shape: &Shape,
    kind: Kind,
    index: u8,
    coef: Coef,
) -> Result<(), AllocError>
    ensures { OnOk result ((n k : ℕ) → all_ended kind n (suc index) k made.new.items
        ≡ all_ended kind n (suc index) k made.old.items
        ++ ended_with kind n index k shape.now (coef_of coef)) }
{
    match shape.go_on(kind, Term { index, coef }) {
        None => Ok(()),
        Some(next) => {
            made.push(next)?;
            Ok(())
        }
    }
}

/// Adds the shapes that the shape may become at the next place.
fn add_nexts(made: &mut Vec<Shape>, shape: &Shape, kind: Kind, index: u8) -> Result<(), AllocError>
    ensures { OnOk result ((n k : ℕ) → all_ended kind n (suc index) k made.new.items
        ≡ all_ended kind n (suc index) k made.old.items ++ ended kind n index (suc k) shape.now) }
{
    add_next(made, shape, kind, index, Coef::Two)?;
    add_next(made, shape, kind, index, Coef::One)?;
    add_next(made, shape, kind, index, Coef::Zero)?;
    add_next(made, shape, kind, index, Coef::MinusOne)?;
    add_next(made, shape, kind, index, Coef::MinusTwo)?;
    Ok(())
}

/// What the shapes may become at the next place.
fn widened(alloc: Global, shapes: &[Shape], kind: Kind, index: u8) -> Result<Vec<Shape>, AllocError>
    ensures { IfOk result (λ made. (n k : ℕ) → all_ended kind n (suc index) k made.items
        ≡ all_ended kind n index (suc k) shapes.now) }
{
    let mut made = Vec::new(alloc);
    for shape in shapes {
        add_nexts(&mut made, shape, kind, index)?;
    }
    Ok(made)
}

/// The lists of so many coefficients of the kind.
pub fn listed(alloc: Global, kind: Kind, count: u8) -> Result<Vec<Shape>, AllocError>
    ensures { IfOk result (λ made. map (coefs_of count) made.items ≡ shapes_of kind count) }
{
    let mut shapes = Vec::new(alloc);
    shapes.push(Shape::empty())?;
    for index in 0..count {
        shapes = widened(alloc, shapes.as_slice(), kind, index)?;
    }
    shapes.retain(|shape| shape.is_done(kind));
    Ok(shapes)
}
