//! The product of two forms is a form where one of the two is constant.
ghost use Rattle.std.specs.Prelude.{◌≡◌, ℤ, ◌*ℤ◌, List, length, IfOk};
ghost use Rattle.lin_terms.specs.Form.{value_at, product_of};
ghost use Rattle.lin_terms.specs.Makes.{MakesProduct};

use crate::{Form, ProductFault, scale};
use std::alloc::Global;

/// The product of two forms over the same variables.
///
/// Example: 2 times `x - 3y + 1` is `2x - 6y + 2`; `x` times `y` is no linear form.
pub fn product(alloc: Global, x: &Form, y: &Form) -> Result<Form, ProductFault>
    requires { length x.now.coefs ≡ length y.now.coefs }
    ensures made { MakesProduct result (product_of x.now y.now) }
    ensures columns { IfOk result (λ form. length form.coefs ≡ length x.now.coefs) }
    ensures value { IfOk result (λ form. (values : List ℤ)
        → value_at form values ≡ value_at x.now values *ℤ value_at y.now values) }
{
    if x.is_constant() {
        Ok(scale(alloc, y, x.constant)?)
    } else if y.is_constant() {
        Ok(scale(alloc, x, y.constant)?)
    } else {
        Err(ProductFault::NonLinear)
    }
}
