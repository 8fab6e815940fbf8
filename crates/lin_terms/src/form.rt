//! A form has a coefficient for each variable, by number, and a constant. What the calls of this
//! crate make has entries below 2^50 in size; what they are given may have any entries.
ghost use Rattle.std.specs.Prelude.{◌≡◌, ◌<◌, ◌≤◌, ◌^◌, ◌↔◌, ℤ, ◌+ℤ◌, ◌-ℤ◌, ◌*ℤ◌, List, length, slice_index_or, pos, unsigned_abs, replicate, All, IsTrue, IfOk};
ghost use Rattle.lin_terms.specs.Bounds.{FitsForm, fits_form, fit_form};
ghost use Rattle.lin_terms.specs.Vectors.{plus, scaled};
ghost use Rattle.lin_terms.specs.Form.{value_at, sum_of, multiple_of, difference_of, constant_form, variable_form, are_zeros, is_constant};
ghost use Rattle.lin_terms.specs.Makes.{IsFittingForm, fitting, Makes};

use crate::FormFault;
use sqlite_items::Items;
use std::alloc::{AllocError, Global};

/// A linear form: the sum of each variable times its coefficient, and the constant.
#[derive(Debug, Drop)]
pub struct Form {
    pub coefs: Items<i64>,
    pub constant: i64,
}

/// An entry of a form that reaches this size is wide: 2^50.
pub const WIDE_FORM: u128 = 1 << 50;

/// Whether the number is below 2^50 in size.
pub fn fits_form(entry: i128) -> bool
    ensures { result ≡ fits_form entry }
{
    entry.unsigned_abs() < WIDE_FORM
}

/// The number as an entry of a form.
pub(crate) fn fitting(entry: &i128) -> i64
    requires { IsTrue (fits_form entry.now) }
    ensures { result ≡ entry.now }
{
    *entry as i64
}

/// `k x`.
pub(crate) fn product(k: i64, x: i64) -> i128
    ensures value { result ≡ k *ℤ x }
    ensures small { unsigned_abs result ≤ 2 ^ 126 }
{
    i128::from(k) * i128::from(x)
}

/// `x + k y`.
fn sum(x: i64, k: i64, y: i64) -> i128
    ensures { result ≡ x +ℤ (k *ℤ y) }
{
    i128::from(x) + product(k, y)
}

fn fitting_sum(x: i64, k: i64, y: i64) -> i64
    requires { IsTrue (fits_form (x +ℤ (k *ℤ y))) }
    ensures { result ≡ x +ℤ (k *ℤ y) }
{
    sum(x, k, y) as i64
}

fn fitting_product(k: i64, x: i64) -> i64
    requires { IsTrue (fits_form (k *ℤ x)) }
    ensures { result ≡ k *ℤ x }
{
    product(k, x) as i64
}

fn are_fitting_sums(xs: &[i64], k: &i64, ys: &[i64]) -> bool
    requires { length xs.now ≡ length ys.now }
    ensures { result ≡ fit_form (plus xs.now (scaled k.now ys.now)) }
{
    for (i, x) in xs.iter().enumerate() {
        if !fits_form(sum(*x, *k, ys[i])) {
            return false;
        }
    }
    true
}

fn sums(alloc: Global, xs: &[i64], k: &i64, ys: &[i64]) -> Result<Vec<i64>, AllocError>
    requires lengths { length xs.now ≡ length ys.now }
    requires fit { IsTrue (fit_form (plus xs.now (scaled k.now ys.now))) }
    ensures { IfOk result (λ made. made.items ≡ plus xs.now (scaled k.now ys.now)) }
{
    let mut made = Vec::with_capacity(alloc, xs.len())?;
    for (i, x) in xs.iter().enumerate() {
        made.push(fitting_sum(*x, *k, ys[i]))?;
    }
    Ok(made)
}

/// Whether each entry times `k` is below 2^50 in size.
pub(crate) fn are_fitting_multiples(k: &i64, xs: &[i64]) -> bool
    ensures { result ≡ fit_form (scaled k.now xs.now) }
{
    for x in xs {
        if !fits_form(product(*k, *x)) {
            return false;
        }
    }
    true
}

/// Each entry times `k`.
pub(crate) fn multiples(alloc: Global, k: &i64, xs: &[i64]) -> Result<Vec<i64>, AllocError>
    requires { IsTrue (fit_form (scaled k.now xs.now)) }
    ensures { IfOk result (λ made. made.items ≡ scaled k.now xs.now) }
{
    let mut made = Vec::with_capacity(alloc, xs.len())?;
    for x in xs {
        made.push(fitting_product(*k, *x))?;
    }
    Ok(made)
}

/// `x + k y`, over the same variables.
fn combined(alloc: Global, x: &Form, k: &i64, y: &Form) -> Result<Form, FormFault>
    requires { length x.now.coefs ≡ length y.now.coefs }
    ensures made { Makes result (fitting (sum_of x.now (multiple_of k.now y.now))) }
    ensures columns { IfOk result (λ form. length form.coefs ≡ length x.now.coefs) }
    ensures value { IfOk result (λ form. (values : List ℤ)
        → value_at form values ≡ value_at x.now values +ℤ (k.now *ℤ value_at y.now values)) }
{
    let (xs, ys) = (x.coefs.as_slice(), y.coefs.as_slice());
    if !fits_form(sum(x.constant, *k, y.constant)) || !are_fitting_sums(xs, k, ys) {
        return Err(FormFault::WideForm);
    }
    let coefs = Items::from_vec(sums(alloc, xs, k, ys)?);
    let constant = fitting_sum(x.constant, *k, y.constant);
    Ok(Form { coefs, constant })
}

/// The sum of two forms over the same variables.
pub fn add(alloc: Global, x: &Form, y: &Form) -> Result<Form, FormFault>
    requires { length x.now.coefs ≡ length y.now.coefs }
    ensures made { Makes result (fitting (sum_of x.now y.now)) }
    ensures columns { IfOk result (λ form. length form.coefs ≡ length x.now.coefs) }
    ensures value { IfOk result (λ form. (values : List ℤ)
        → value_at form values ≡ value_at x.now values +ℤ value_at y.now values) }
{
    combined(alloc, x, &1, y)
}

/// The first form less the second, over the same variables.
pub fn difference(alloc: Global, x: &Form, y: &Form) -> Result<Form, FormFault>
    requires { length x.now.coefs ≡ length y.now.coefs }
    ensures made { Makes result (fitting (difference_of x.now y.now)) }
    ensures columns { IfOk result (λ form. length form.coefs ≡ length x.now.coefs) }
    ensures value { IfOk result (λ form. (values : List ℤ)
        → value_at form values ≡ value_at x.now values -ℤ value_at y.now values) }
{
    combined(alloc, x, &-1, y)
}

/// The form times `k`.
pub fn scale(alloc: Global, x: &Form, k: i64) -> Result<Form, FormFault>
    ensures made { Makes result (fitting (multiple_of k x.now)) }
    ensures columns { IfOk result (λ form. length form.coefs ≡ length x.now.coefs) }
    ensures value { IfOk result (λ form. (values : List ℤ)
        → value_at form values ≡ k *ℤ value_at x.now values) }
{
    let xs = x.coefs.as_slice();
    if !fits_form(product(k, x.constant)) || !are_fitting_multiples(&k, xs) {
        return Err(FormFault::WideForm);
    }
    let coefs = Items::from_vec(multiples(alloc, &k, xs)?);
    let constant = fitting_product(k, x.constant);
    Ok(Form { coefs, constant })
}

/// So many zeros.
pub(crate) fn zeros(alloc: Global, count: usize) -> Result<Items<i64>, AllocError>
    ensures { IfOk result (λ made. made ≡ replicate count (pos 0)) }
{
    Ok(Items::from_vec(vec![in alloc; 0; count]?))
}

/// The form over `count` variables that is `value` at each point.
pub fn constant_form(alloc: Global, count: usize, value: i64) -> Result<Form, FormFault>
    ensures made { Makes result (fitting (constant_form count value)) }
    ensures columns { IfOk result (λ form. length form.coefs ≡ count) }
    ensures value { IfOk result (λ form. (values : List ℤ) → value_at form values ≡ value) }
{
    if !fits_form(i128::from(value)) {
        return Err(FormFault::WideForm);
    }
    let coefs = zeros(alloc, count)?;
    Ok(Form {
        coefs,
        constant: value,
    })
}

/// The form over `count` variables that is the variable with number `x`.
pub fn variable_form(alloc: Global, count: usize, x: usize) -> Result<Form, AllocError>
    requires { x < count }
    ensures made { IfOk result (λ form. form ≡ variable_form count x) }
    ensures columns { IfOk result (λ form. length form.coefs ≡ count) }
    ensures value { IfOk result (λ form. (values : List ℤ)
        → value_at form values ≡ slice_index_or values x (pos 0)) }
{
    let mut coefs = zeros(alloc, count)?;
    coefs.set(x, 1);
    Ok(Form { coefs, constant: 0 })
}

/// Whether each of the numbers is 0.
pub(crate) fn are_zeros(entries: &[i64]) -> bool
    ensures { result ≡ are_zeros entries.now }
{
    entries.iter().all(|entry| *entry == 0)
}

fn are_fitting(entries: &[i64]) -> bool
    ensures { IsTrue result ↔ All FitsForm entries.now }
{
    entries
        .iter()
        .all(|entry| u128::from(entry.unsigned_abs()) < WIDE_FORM)
}

/// Whether all entries of the form are below 2^50 in size.
pub fn is_fitting_form(form: &Form) -> bool
    ensures { IsTrue result ↔ IsFittingForm form.now }
{
    u128::from(form.constant.unsigned_abs()) < WIDE_FORM && are_fitting(form.coefs.as_slice())
}

/// Whether all entries of the forms are below 2^50 in size.
pub fn are_fitting_forms(forms: &[Form]) -> bool
    ensures { IsTrue result ↔ All IsFittingForm forms.now }
{
    forms.iter().all(is_fitting_form)
}

impl Form {
    /// Whether no variable stands in the form.
    pub fn is_constant(&self) -> bool
        ensures test { result ≡ is_constant self.now }
        ensures value { IsTrue result → (values : List ℤ)
            → value_at self.now values ≡ self.now.constant }
    {
        are_zeros(self.coefs.as_slice())
    }

    /// Whether all entries of the two forms are equal.
    pub fn same(&self, other: &Form) -> bool
        ensures { IsTrue result ↔ (self.now ≡ other.now) }
    {
        self.constant == other.constant && self.coefs.as_slice() == other.coefs.as_slice()
    }
}
