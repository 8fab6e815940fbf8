//! The entries of the row of an obligation that says that an atom fails at its end.
ghost use Rattle.std.specs.Prelude.{◌≡◌, ◌<◌, ◌^◌, ◌+ℤ◌, ◌*ℤ◌, pos, neg_ℤ, length, slice_index_or, unsigned_abs, All};
ghost use Rattle.lin_terms.specs.Compose.{CanTakePlaces};
ghost use Rattle.lin_terms.specs.Form.{constants_of};
ghost use Rattle.lin_terms.specs.Row.{IsFittingRow};
ghost use Rattle.lin_terms.specs.Sign.{factor_of};
ghost use Rattle.lin_terms.specs.Vectors.{dot};
ghost use Rattle.farkas_check.specs.Refutes.{column, constants};
ghost use Rattle.horn_clauses.specs.Obligations.{side_of, negated_rows};
ghost use Rattle.coupling_check.specs.Told.{coefs_in};

use horn_clauses::{Atom, Rel};
use lin_terms::{Form, Sign, coef_over, constant_over};

/// On which side of the constant the sum lies where the atom fails.
fn side_of(rel: Rel, upper: bool) -> Sign
    ensures { result ≡ side_of rel upper }
{
    match rel {
        Rel::Eq => {
            if upper {
                Sign::Positive
            } else {
                Sign::Negative
            }
        }
        Rel::AtLeast => Sign::Negative,
    }
}

/// The number, turned round where the side is the lower one.
fn turned(side: Sign, number: &i128) -> i64
    requires { unsigned_abs number.now < 2 ^ 57 }
    ensures value { result ≡ factor_of side *ℤ number.now }
    ensures small { unsigned_abs result < 2 ^ 57 }
{
    match side {
        Sign::Negative | Sign::NotPositive => -*number as i64,
        Sign::Zero | Sign::NotNegative | Sign::Positive => *number as i64,
    }
}

/// The sum of the forms' constants, each times its coefficient, less the atom's.
fn constant_between(forms: &[Form], coefs: &[i64], constant: &i64) -> i128
    requires { CanTakePlaces coefs.now forms.now }
    ensures { result ≡ dot coefs.now (constants_of forms.now) +ℤ neg_ℤ constant.now }
{
    constant_over(coefs, forms) - i128::from(*constant)
}

/// How many rows say that the atom fails: none for `false`.
pub fn negated_count(columns: usize, forms: &[Form], atom: &Atom, upper: bool) -> usize
    ensures { result ≡ length (negated_rows columns forms.now atom.now upper) }
{
    match atom {
        Atom::False => 0,
        Atom::Linear { .. } => 1,
    }
}

/// The row's coefficient in column `j`.
pub fn negated_entry(columns: usize, forms: &[Form], atom: &Atom, upper: bool, j: usize) -> i64
    requires can { CanTakePlaces (coefs_in atom.now) forms.now }
    requires fit { All IsFittingRow (negated_rows columns forms.now atom.now upper) }
    ensures { result ≡ slice_index_or
        (column j (negated_rows columns forms.now atom.now upper)) 0 (pos 0) }
{
    match atom {
        Atom::False => 0,
        Atom::Linear { coefs, rel, .. } => {
            turned(side_of(*rel, upper), &coef_over(coefs.as_slice(), forms, j))
        }
    }
}

/// The row's constant: what is above 0 is at least 1.
pub fn negated_constant(columns: usize, forms: &[Form], atom: &Atom, upper: bool) -> i64
    requires can { CanTakePlaces (coefs_in atom.now) forms.now }
    requires fit { All IsFittingRow (negated_rows columns forms.now atom.now upper) }
    ensures { result ≡ slice_index_or
        (constants (negated_rows columns forms.now atom.now upper)) 0 (pos 0) }
{
    match atom {
        Atom::False => 0,
        Atom::Linear {
            coefs,
            constant,
            rel,
        } => {
            let between = constant_between(forms, coefs.as_slice(), constant);
            turned(side_of(*rel, upper), &between) - 1
        }
    }
}
