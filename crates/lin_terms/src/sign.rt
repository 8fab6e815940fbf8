//! Rows that say which sign a form's values have.
ghost use Rattle.std.specs.Prelude.{◌≡◌, ◌↔◌, ℤ, ◌+ℤ◌, ◌*ℤ◌, List, length, IfOk};
ghost use Rattle.lin_terms.specs.Form.{value_at};
ghost use Rattle.lin_terms.specs.Makes.{MakesRow};
ghost use Rattle.lin_terms.specs.Row.{Holds};
ghost use Rattle.lin_terms.specs.Sign.{HasSign, factor_of, offset_of, says_equality, sign_row, fitting_row, tight_fitting};

use crate::FormFault;
use crate::form::{Form, are_fitting_multiples, fits_form, fitting, multiples, product};
use crate::row::{Row, tight};
use sqlite_items::Items;
use std::alloc::Global;

/// A sign that a form's value may have.
#[derive(Clone, Copy, Debug, PartialEq, Eq)]
pub enum Sign {
    /// It is below 0.
    Negative,
    /// It is at most 0.
    NotPositive,
    /// It is 0.
    Zero,
    /// It is at least 0.
    NotNegative,
    /// It is above 0.
    Positive,
}

fn factor(sign: Sign) -> i64
    ensures { result ≡ factor_of sign }
{
    match sign {
        Sign::Negative | Sign::NotPositive => -1,
        Sign::Zero | Sign::NotNegative | Sign::Positive => 1,
    }
}

fn offset(sign: Sign) -> i128
    ensures { result ≡ offset_of sign }
{
    match sign {
        Sign::Negative | Sign::Positive => -1,
        Sign::NotPositive | Sign::Zero | Sign::NotNegative => 0,
    }
}

fn says_equality(sign: Sign) -> bool
    ensures { result ≡ says_equality sign }
{
    match sign {
        Sign::Zero => true,
        _ => false,
    }
}

/// The constant of the row that says that the form has the sign.
fn constant_of(form: &Form, sign: Sign) -> i128
    ensures { result ≡ (factor_of sign *ℤ form.now.constant) +ℤ offset_of sign }
{
    product(factor(sign), form.constant) + offset(sign)
}

/// The row that says that the form has the sign.
fn sign_row(alloc: Global, form: &Form, sign: Sign) -> Result<Row, FormFault>
    ensures { MakesRow result (fitting_row (sign_row sign form.now)) }
{
    let (k, xs) = (factor(sign), form.coefs.as_slice());
    let constant = constant_of(form, sign);
    if !fits_form(constant) || !are_fitting_multiples(&k, xs) {
        return Err(FormFault::WideForm);
    }
    let coefs = Items::from_vec(multiples(alloc, &k, xs)?);
    let constant = fitting(&constant);
    let equality = says_equality(sign);
    Ok(Row {
        coefs,
        constant,
        equality,
    })
}

/// The tight row that says that the form has the sign. It is refused as wide where an entry of the
/// row reaches 2^50 in size before the row is made tight.
///
/// Example: `4x - 6y + 3` is positive exactly where `2x - 3y + 1 >= 0` holds, and never 0.
pub fn tight_row(alloc: Global, form: &Form, sign: Sign) -> Result<Row, FormFault>
    ensures made { MakesRow result (tight_fitting (sign_row sign form.now)) }
    ensures columns { IfOk result (λ row. length row.coefs ≡ length form.now.coefs) }
    ensures holds { IfOk result (λ row. (values : List ℤ)
        → Holds values row ↔ HasSign sign (value_at form.now values)) }
{
    let row = sign_row(alloc, form, sign)?;
    Ok(tight(alloc, &row)?)
}
