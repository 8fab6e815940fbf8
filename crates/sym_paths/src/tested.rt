//! Tests of a form: which signs it may have, and what each sign answers.
ghost use Rattle.std.specs.Prelude.{◌≡◌, ℕ, map, IfOk};
ghost use Rattle.std.specs.Option.{option_to_list};
ghost use Rattle.c_ast.specs.Value.{is_nonzero};
ghost use Rattle.lin_terms.specs.Form.{are_zeros};
ghost use Rattle.lin_terms.specs.Sign.{sign_row};
ghost use Rattle.sym_paths.specs.Rows.{joining, joined, split};
ghost use Rattle.sym_paths.specs.Symbolic.{tested, negated};
ghost use Rattle.sym_paths.specs.Walk.{gives};
ghost use Rattle.sym_paths.specs.Arrivals.{fresh, answer_of};

use crate::arrival::Answer;
use lin_terms::{Form, FormFault, Row, Sign, tight_row};
use std::alloc::{AllocError, Global};

/// Whether the form is not 0.
pub(crate) const NONZERO: [(Sign, bool); 3] = [
    (Sign::Negative, true),
    (Sign::Positive, true),
    (Sign::Zero, false),
];

/// Whether it is 0.
pub(crate) const ZERO: [(Sign, bool); 3] = [
    (Sign::Zero, true),
    (Sign::Negative, false),
    (Sign::Positive, false),
];

/// Whether it is below 0.
pub(crate) const NEGATIVE: [(Sign, bool); 2] = [(Sign::Negative, true), (Sign::NotNegative, false)];

/// Whether it is at most 0.
pub(crate) const NOT_POSITIVE: [(Sign, bool); 2] = [
    (Sign::NotPositive, true),
    (Sign::Positive, false),
];

/// Whether it is above 0.
pub(crate) const POSITIVE: [(Sign, bool); 2] = [(Sign::Positive, true), (Sign::NotPositive, false)];

/// Whether it is at least 0.
pub(crate) const NOT_NEGATIVE: [(Sign, bool); 2] = [
    (Sign::NotNegative, true),
    (Sign::Negative, false),
];

/// The answer under a tight row: a row without variables is left out, or there is no answer.
fn under(row: Row, answer: bool) -> Option<Answer>
    ensures { (columns : ℕ) → map (answer_of columns) (option_to_list result)
        ≡ joining (are_zeros row.coefs) row answer (fresh columns) }
{
    match row.decided() {
        None => Some(Answer::Given {
            row: Some(row),
            answer,
        }),
        Some(true) => Some(Answer::Given { row: None, answer }),
        Some(false) => None,
    }
}

/// The answer where the form has the sign.
fn by_sign(
    alloc: Global,
    form: &Form,
    sign: Sign,
    answer: bool,
) -> Result<Option<Answer>, AllocError>
    ensures { IfOk result (λ found. (columns : ℕ) → map (answer_of columns) (option_to_list found)
        ≡ joined (sign_row sign form.now) answer (fresh columns)) }
{
    match tight_row(alloc, form, sign) {
        Ok(row) => Ok(under(row, answer)),
        Err(FormFault::WideForm) => Ok(Some(Answer::Wide)),
        Err(FormFault::Memory) => Err(AllocError),
    }
}

/// The answers by the signs that the form may have, in their order.
pub(crate) fn split(
    alloc: Global,
    options: &[(Sign, bool)],
    form: &Form,
) -> Result<Vec<Answer>, AllocError>
    ensures { IfOk result (λ found. (columns : ℕ) → map (answer_of columns) found.items
        ≡ split options.now form.now (fresh columns)) }
{
    let mut found = Vec::new(alloc);
    for (sign, answer) in options {
        if let Some(answer) = by_sign(alloc, form, *sign, *answer)? {
            found.push(answer)?;
        }
    }
    Ok(found)
}

/// The one answer of a form that is constant.
fn certain(alloc: Global, answer: bool) -> Result<Vec<Answer>, AllocError>
    ensures { IfOk result (λ found. (columns : ℕ) → map (answer_of columns) found.items
        ≡ gives answer (fresh columns)) }
{
    let mut found = Vec::new(alloc);
    found.push(Answer::Given { row: None, answer })?;
    Ok(found)
}

/// Whether the number is not 0.
fn is_nonzero(value: &i64) -> bool
    ensures { result ≡ is_nonzero value.now }
{
    *value != 0
}

/// Whether the form is not 0.
pub(crate) fn tested(alloc: Global, form: &Form) -> Result<Vec<Answer>, AllocError>
    ensures { IfOk result (λ found. (columns : ℕ) → map (answer_of columns) found.items
        ≡ tested form.now (fresh columns)) }
{
    if form.is_constant() {
        certain(alloc, is_nonzero(&form.constant))
    } else {
        split(alloc, &NONZERO, form)
    }
}

/// Whether the form is 0.
pub(crate) fn negated(alloc: Global, form: &Form) -> Result<Vec<Answer>, AllocError>
    ensures { IfOk result (λ found. (columns : ℕ) → map (answer_of columns) found.items
        ≡ negated form.now (fresh columns)) }
{
    if form.is_constant() {
        certain(alloc, !is_nonzero(&form.constant))
    } else {
        split(alloc, &ZERO, form)
    }
}
