//! What operators make of forms, but for divisions: one function a row of the table in
//! `specs/Symbolic.antt`.
ghost use Rattle.std.specs.Prelude.{◌≡◌, ℕ, length, map, All, IfOk};
ghost use Rattle.sym_paths.specs.Arrivals.{fresh, made_of, HasRoom, MadeHasRoom};
ghost use Rattle.lin_terms.specs.Form.{product_of};
ghost use Rattle.sym_paths.specs.Symbolic.{product_made, compared, unary_made, binary_made};

use crate::PathLimit;
use crate::arrival::Made;
use crate::forms::copied_form;
use crate::made::{given, single, stopped, values};
use crate::tested::{
    NEGATIVE, NONZERO, NOT_NEGATIVE, NOT_POSITIVE, POSITIVE, ZERO, negated, split,
};
use c_ast::{BinOp, UnOp};
use lin_terms::{Form, FormFault, ProductFault, Sign, add, difference, product, scale};
use std::alloc::{AllocError, Global};

/// What a unary operator makes.
pub(crate) fn unary(
    alloc: Global,
    room: usize,
    op: UnOp,
    form: &Form,
    columns: u32,
) -> Result<Vec<Made>, AllocError>
    requires { HasRoom room form.now }
    ensures made { IfOk result (λ made. map made_of made.items
        ≡ unary_made room op form.now (fresh columns)) }
    ensures room { IfOk result (λ made. All (MadeHasRoom room) made.items) }
{
    match op {
        UnOp::Plus => given(alloc, copied_form(alloc, form)?, columns),
        UnOp::Minus => single(alloc, scale(alloc, form, -1), columns),
        UnOp::Not => values(alloc, room, negated(alloc, form)?, columns),
    }
}

/// A comparison, by the signs of the first form less the second.
fn comparison(
    alloc: Global,
    room: usize,
    options: &[(Sign, bool)],
    first: &Form,
    second: &Form,
    columns: u32,
) -> Result<Vec<Made>, AllocError>
    requires first { HasRoom room first.now }
    requires second { HasRoom room second.now }
    ensures made { IfOk result (λ made. map made_of made.items
        ≡ compared room options.now first.now second.now (fresh columns)) }
    ensures room { IfOk result (λ made. All (MadeHasRoom room) made.items) }
{
    match difference(alloc, first, second) {
        Ok(form) => values(alloc, room, split(alloc, options, &form)?, columns),
        Err(FormFault::WideForm) => stopped(alloc, PathLimit::WideForm),
        Err(FormFault::Memory) => Err(AllocError),
    }
}

/// The product, where a factor is constant.
fn multiplied(
    alloc: Global,
    first: &Form,
    second: &Form,
    columns: u32,
) -> Result<Vec<Made>, AllocError>
    requires { length first.now.coefs ≡ length second.now.coefs }
    ensures made { IfOk result (λ made. map made_of made.items
        ≡ product_made (product_of first.now second.now) (fresh columns)) }
    ensures room { IfOk result (λ made. (room : ℕ) → HasRoom room first.now
        → All (MadeHasRoom room) made.items) }
{
    match product(alloc, first, second) {
        Ok(form) => given(alloc, form, columns),
        Err(ProductFault::NonLinear) => stopped(alloc, PathLimit::NonLinear),
        Err(ProductFault::WideForm) => stopped(alloc, PathLimit::WideForm),
        Err(ProductFault::Memory) => Err(AllocError),
    }
}

/// What a binary operator makes that always asks both operands, but for divisions: of others
/// nothing.
pub(crate) fn binary(
    alloc: Global,
    room: usize,
    op: BinOp,
    first: &Form,
    second: &Form,
    columns: u32,
) -> Result<Vec<Made>, AllocError>
    requires first { HasRoom room first.now }
    requires second { HasRoom room second.now }
    ensures made { IfOk result (λ made. map made_of made.items
        ≡ binary_made room op first.now second.now (fresh columns)) }
    ensures room { IfOk result (λ made. All (MadeHasRoom room) made.items) }
{
    match op {
        BinOp::Mul => multiplied(alloc, first, second, columns),
        BinOp::Add => single(alloc, add(alloc, first, second), columns),
        BinOp::Sub => single(alloc, difference(alloc, first, second), columns),
        BinOp::Less => comparison(alloc, room, &NEGATIVE, first, second, columns),
        BinOp::LessEq => comparison(alloc, room, &NOT_POSITIVE, first, second, columns),
        BinOp::Greater => comparison(alloc, room, &POSITIVE, first, second, columns),
        BinOp::GreaterEq => comparison(alloc, room, &NOT_NEGATIVE, first, second, columns),
        BinOp::Equal => comparison(alloc, room, &ZERO, first, second, columns),
        BinOp::NotEqual => comparison(alloc, room, &NONZERO, first, second, columns),
        BinOp::Div | BinOp::Rem | BinOp::And | BinOp::Or => Ok(Vec::new(alloc)),
    }
}
