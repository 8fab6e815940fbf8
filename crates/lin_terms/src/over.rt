//! Forms that take the places of variables.
//!
//! An entry is judged when all its products are added up: 2^30 times 2^30 less the same is 0, which
//! is not wide. The sums are made in 128 bits.
ghost use Rattle.std.specs.Prelude.{◌≡◌, ◌≤◌, ℤ, ◌+ℤ◌, ◌*ℤ◌, ◌<◌, ◌^◌, List, All, length, map, pos, unsigned_abs, slice_index_or, false, [], ◌∷◌, ◌++◌, Err, IsTrue, IfOk, OnOk};
ghost use Rattle.lin_terms.specs.Bounds.{FitsForm, fits_form, fit_form};
ghost use Rattle.lin_terms.specs.declared.fault.FormFault.TheVariants.{WideForm};
ghost use Rattle.lin_terms.specs.Compose.{CanTakePlaces};
ghost use Rattle.lin_terms.specs.Form.{value_at, composed, composed_coefs, entries_at, constants_of};
ghost use Rattle.lin_terms.specs.Makes.{fitting, Makes};
ghost use Rattle.lin_terms.specs.Vectors.{dot};

use crate::FormFault;
use crate::form::{Form, fits_form, fitting};
use sqlite_items::Items;
use std::alloc::{AllocError, Global};

fn term(coef: &i64, entry: &i64) -> i128
    requires { FitsForm entry.now }
    ensures value { result ≡ coef.now *ℤ entry.now }
    ensures small { unsigned_abs result ≤ 2 ^ 113 }
{
    i128::from(*coef) * i128::from(*entry)
}

/// The form's coefficient of the variable, and 0 past the end.
fn coef_at(form: &Form, j: usize) -> i64
    ensures { result ≡ slice_index_or form.now.coefs j (pos 0) }
{
    let coefs = form.coefs.as_slice();
    if j < coefs.len() { coefs[j] } else { 0 }
}

/// The sum of the forms' coefficients of variable `j`, each times the coefficient that stands at
/// the form's place. Takes no memory.
pub fn coef_over(coefs: &[i64], at: &[Form], j: usize) -> i128
    requires { CanTakePlaces coefs.now at.now }
    ensures value { result ≡ dot coefs.now (entries_at j at.now) }
    ensures small { unsigned_abs result ≤ 2 ^ 123 }
{
    let mut sum = 0;
    for (i, coef) in coefs.iter().enumerate() {
        sum += term(coef, &coef_at(&at[i], j));
    }
    sum
}

/// The sum of the forms' constants, each times the coefficient that stands at the form's place.
/// Takes no memory.
pub fn constant_over(coefs: &[i64], at: &[Form]) -> i128
    requires { CanTakePlaces coefs.now at.now }
    ensures value { result ≡ dot coefs.now (constants_of at.now) }
    ensures small { unsigned_abs result ≤ 2 ^ 123 }
{
    let mut sum = 0;
    for (i, coef) in coefs.iter().enumerate() {
        sum += term(coef, &at[i].constant);
    }
    sum
}

fn push(made: &mut Vec<i64>, entry: &i128) -> Result<(), AllocError>
    requires { IsTrue (fits_form entry.now) }
    ensures { OnOk result (made.new.items ≡ made.old.items ++ (entry.now ∷ [])) }
{
    made.push(fitting(entry))?;
    Ok(())
}

fn coefs_over(
    alloc: Global,
    columns: usize,
    coefs: &[i64],
    at: &[Form],
) -> Result<Vec<i64>, FormFault>
    requires places { CanTakePlaces coefs.now at.now }
    requires lengths { All (λ form. length form.coefs ≤ columns) at.now }
    ensures made { IfOk result (λ made. made.items ≡ composed_coefs columns coefs.now at.now) }
    ensures fit { IfOk result (λ _. IsTrue (fit_form (composed_coefs columns coefs.now at.now))) }
    ensures wide { result ≡ Err WideForm
        → fit_form (composed_coefs columns coefs.now at.now) ≡ false }
{
    let mut made = Vec::with_capacity(alloc, columns)?;
    for j in 0..columns {
        let entry = coef_over(coefs, at, j);
        if !fits_form(entry) {
            return Err(FormFault::WideForm);
        }
        push(&mut made, &entry)?;
    }
    Ok(made)
}

fn composed_constant(form: &Form, at: &[Form]) -> i128
    requires { CanTakePlaces form.now.coefs at.now }
    ensures { result ≡ dot form.now.coefs (constants_of at.now) +ℤ form.now.constant }
{
    constant_over(form.coefs.as_slice(), at) + i128::from(form.constant)
}

/// The form over `columns` variables that `form` is once the forms `at` take the places of its
/// variables, by number. A form that has fewer coefficients has zeros behind them.
///
/// Example: `2x - y + 1` at `u + 1` and `u - v` is `u + v + 3`.
pub fn compose(alloc: Global, columns: usize, form: &Form, at: &[Form]) -> Result<Form, FormFault>
    requires places { CanTakePlaces form.now.coefs at.now }
    requires lengths { All (λ other. length other.coefs ≤ columns) at.now }
    ensures made { Makes result (fitting (composed columns form.now at.now)) }
    ensures columns { IfOk result (λ made. length made.coefs ≡ columns) }
    ensures value { IfOk result (λ made. (values : List ℤ)
        → value_at made values ≡ value_at form.now (map (λ other. value_at other values) at.now)) }
{
    let constant = composed_constant(form, at);
    if !fits_form(constant) {
        return Err(FormFault::WideForm);
    }
    let coefs = Items::from_vec(coefs_over(alloc, columns, form.coefs.as_slice(), at)?);
    let constant = fitting(&constant);
    Ok(Form { coefs, constant })
}
