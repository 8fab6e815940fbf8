//! Forms and tight rows whose entries were worked out by hand.
ghost use Rattle.std.specs.Prelude.{◌≡◌, ◌↔◌, ◌≤◌, length, All, IsTrue};

use crate::ProductFault::{NonLinear, WideForm};
use crate::{
    Form, FormFault, Point, ProductFault, Row, Sign, add, are_fitting_forms,
    are_fitting_multipliers, are_fitting_rows, columns_of, compose, constant_form, difference, gcd,
    have_one_length, never_row, product, scale, tight, tight_row, variable_form,
};
use sqlite_items::Items;
use std::alloc::{AllocError, Global};
use std::test::Fail;

/// 2^50, the least wide entry.
const WIDE: i64 = 1_125_899_906_842_624;

/// Half of it.
const HALF_WIDE: i64 = 562_949_953_421_312;

/// 2^30: its square is wide.
const WIDE_SQUARED: i64 = 1 << 30;

/// 2^56, the least entry that is wide in a row.
const WIDE_IN_ROWS: i64 = 1 << 56;

/// The coefficients and the constant of a form.
type Entries = (&'static [i64], i64);

/// The coefficients and the constant of a row, and whether it is an equality.
type RowEntries = (&'static [i64], i64, bool);

fn form(alloc: Global, entries: Entries) -> Result<Form, AllocError> {
    let coefs = Items::from_slice(alloc, entries.0)?;
    Ok(Form {
        coefs,
        constant: entries.1,
    })
}

fn forms(alloc: Global, given: &[Entries]) -> Result<Vec<Form>, AllocError> {
    let mut made = Vec::new(alloc);
    for entries in given {
        made.push(form(alloc, *entries)?)?;
    }
    Ok(made)
}

fn row(alloc: Global, entries: RowEntries) -> Result<Row, AllocError> {
    Row::new(alloc, entries.0, entries.1, entries.2)
}

/// Inequalities with these entries.
fn rows(alloc: Global, given: &[Entries]) -> Result<Vec<Row>, AllocError> {
    let mut made = Vec::new(alloc);
    for entries in given {
        made.push(row(alloc, (entries.0, entries.1, false))?)?;
    }
    Ok(made)
}

fn have_same_columns(first: &Form, second: &Form) -> bool
    ensures { IsTrue result ↔ (length first.now.coefs ≡ length second.now.coefs) }
{
    first.coefs.len() == second.coefs.len()
}

fn have_at_most(columns: usize, forms: &[Form]) -> bool
    ensures { IsTrue result ↔ All (λ form. length form.coefs ≤ columns) forms.now }
{
    forms.iter().all(|form| form.coefs.len() <= columns)
}

fn is_form(made: &Form, want: Entries) -> bool {
    made.coefs.as_slice() == want.0 && made.constant == want.1
}

fn is_row(made: &Row, want: RowEntries) -> bool {
    made.coefs.as_slice() == want.0 && made.constant == want.1 && made.equality == want.2
}

/// Whether the form is as wanted, or was refused as wanted.
fn is_made(made: &Result<Form, ProductFault>, want: &Result<Entries, ProductFault>) -> bool {
    match (made, want) {
        (Ok(form), Ok(entries)) => is_form(form, *entries),
        (Err(fault), Err(wanted)) => fault == wanted,
        _ => false,
    }
}

/// The form, or the same refusal of a product.
fn as_product(made: Result<Form, FormFault>) -> Result<Form, ProductFault> {
    Ok(made?)
}

/// Two forms, and their sum.
const SUMS: [(Entries, Entries, Result<Entries, ProductFault>); 7] = [
    ((&[1], 1), (&[1], -3), Ok((&[2], -2))),
    ((&[2, -5, 0], 7), (&[-2, 5, 1], -7), Ok((&[0, 0, 1], 0))),
    ((&[], HALF_WIDE), (&[], HALF_WIDE - 1), Ok((&[], WIDE - 1))),
    ((&[], HALF_WIDE), (&[], HALF_WIDE), Err(WideForm)),
    ((&[HALF_WIDE], 0), (&[HALF_WIDE], 0), Err(WideForm)),
    (
        (&[0, -HALF_WIDE], 0),
        (&[0, 1 - HALF_WIDE], 0),
        Ok((&[0, 1 - WIDE], 0)),
    ),
    ((&[0, -HALF_WIDE], 0), (&[0, -HALF_WIDE], 0), Err(WideForm)),
];

fn sum_is(
    alloc: Global,
    first: Entries,
    second: Entries,
    want: &Result<Entries, ProductFault>,
) -> Result<bool, AllocError> {
    let (first, second) = (form(alloc, first)?, form(alloc, second)?);
    Ok(
        have_same_columns(&first, &second)
            && is_made(&as_product(add(alloc, &first, &second)), want),
    )
}

/// A form, a number, and the form times the number.
const MULTIPLES: [(Entries, i64, Result<Entries, ProductFault>); 6] = [
    ((&[1, -2], 3), 5, Ok((&[5, -10], 15))),
    ((&[1, -2], 3), -1, Ok((&[-1, 2], -3))),
    ((&[7], 7), 0, Ok((&[0], 0))),
    ((&[HALF_WIDE], 0), 2, Err(WideForm)),
    ((&[0], HALF_WIDE), -2, Err(WideForm)),
    ((&[i64::MIN], 0), i64::MIN, Err(WideForm)),
];

fn multiple_is(
    alloc: Global,
    given: Entries,
    k: i64,
    want: &Result<Entries, ProductFault>,
) -> Result<bool, AllocError> {
    let given = form(alloc, given)?;
    Ok(is_made(&as_product(scale(alloc, &given, k)), want))
}

#[test]
fn sums_and_multiples(rt: HostRuntime) -> Result<(), Fail> {
    for (first, second, want) in &SUMS {
        assert!(rt;
            sum_is(rt.alloc(), *first, *second, want)?,
            "{first:?} and {second:?}"
        );
    }
    for (given, k, want) in &MULTIPLES {
        assert!(rt;
            multiple_is(rt.alloc(), *given, *k, want)?,
            "{k} times {given:?}"
        );
    }
    Ok(())
}

/// Two forms, the first less the second, and their product.
const JOINED: [Joined; 7] = [
    (
        (&[1, -2], 3),
        (&[4, 1], -1),
        Ok((&[-3, -3], 4)),
        Err(NonLinear),
    ),
    (
        (&[0, 0], 2),
        (&[1, -3], 1),
        Ok((&[-1, 3], 1)),
        Ok((&[2, -6], 2)),
    ),
    (
        (&[1, -3], 1),
        (&[0, 0], -2),
        Ok((&[1, -3], 3)),
        Ok((&[-2, 6], -2)),
    ),
    ((&[0], 5), (&[0], 7), Ok((&[0], -2)), Ok((&[0], 35))),
    (
        (&[1], WIDE - 1),
        (&[0], -1),
        Err(WideForm),
        Ok((&[-1], 1 - WIDE)),
    ),
    (
        (&[WIDE - 1], 0),
        (&[0], 2),
        Ok((&[WIDE - 1], -2)),
        Err(WideForm),
    ),
    (
        (&[i64::MIN], 0),
        (&[i64::MIN], 0),
        Ok((&[0], 0)),
        Err(NonLinear),
    ),
];

type Joined = (
    Entries,
    Entries,
    Result<Entries, ProductFault>,
    Result<Entries, ProductFault>,
);

/// Whether the difference and the product are as wanted.
fn joined_are(alloc: Global, joined: &Joined) -> Result<(bool, bool), AllocError> {
    let (first, second) = (form(alloc, joined.0)?, form(alloc, joined.1)?);
    if !have_same_columns(&first, &second) {
        return Ok((false, false));
    }
    let less = is_made(&as_product(difference(alloc, &first, &second)), &joined.2);
    Ok((less, is_made(&product(alloc, &first, &second), &joined.3)))
}

#[test]
fn differences_and_products(rt: HostRuntime) -> Result<(), Fail> {
    for joined in &JOINED {
        let (first, second) = (joined.0, joined.1);
        assert_eq!(rt;
            joined_are(rt.alloc(), joined)?,
            (true, true),
            "{first:?} and {second:?}"
        );
    }
    Ok(())
}

/// A form, the forms of its variables, the number of columns, and the form over them.
const COMPOSED: [(
    Entries,
    &'static [Entries],
    usize,
    Result<Entries, ProductFault>,
); 6] = [
    (
        (&[2, -1], 1),
        &[(&[1, 0], 1), (&[1, -1], 0)],
        2,
        Ok((&[1, 1], 3)),
    ),
    ((&[], 4), &[], 3, Ok((&[0, 0, 0], 4))),
    ((&[3], 0), &[(&[1], 2)], 2, Ok((&[3, 0], 6))),
    // 2^60 less 2^60 is not wide
    (
        (&[WIDE_SQUARED, -WIDE_SQUARED], 0),
        &[
            (&[WIDE_SQUARED], WIDE_SQUARED),
            (&[WIDE_SQUARED], WIDE_SQUARED),
        ],
        1,
        Ok((&[0], 0)),
    ),
    (
        (&[WIDE_SQUARED], 0),
        &[(&[WIDE_SQUARED], 0)],
        1,
        Err(WideForm),
    ),
    (
        (&[WIDE_SQUARED], 0),
        &[(&[0], WIDE_SQUARED)],
        1,
        Err(WideForm),
    ),
];

/// Whether the form over the forms is as wanted.
fn is_over(
    alloc: Global,
    outer: &Form,
    forms: &[Form],
    columns: usize,
    want: &Result<Entries, ProductFault>,
) -> bool {
    outer.coefs.len() <= forms.len()
        && outer.coefs.len() <= 1024
        && are_fitting_forms(forms)
        && have_at_most(columns, forms)
        && is_made(&as_product(compose(alloc, columns, outer, forms)), want)
}

fn composed_is(
    alloc: Global,
    outer: Entries,
    given: &[Entries],
    columns: usize,
    want: &Result<Entries, ProductFault>,
) -> Result<bool, AllocError> {
    let (outer, at) = (form(alloc, outer)?, forms(alloc, given)?);
    Ok(is_over(alloc, &outer, at.as_slice(), columns, want))
}

#[test]
fn forms_over_forms(rt: HostRuntime) -> Result<(), Fail> {
    for (outer, given, columns, want) in &COMPOSED {
        assert!(rt;
            composed_is(rt.alloc(), *outer, *given, *columns, want)?,
            "{outer:?}"
        );
    }
    Ok(())
}

/// A form, a sign, and the tight row that says that the form has it.
const SIGNED: [(Entries, Sign, Result<RowEntries, FormFault>); 9] = [
    ((&[4, -6], 3), Sign::Negative, Ok((&[-2, 3], -2, false))),
    ((&[4, -6], 3), Sign::NotPositive, Ok((&[-2, 3], -2, false))),
    ((&[4, -6], 3), Sign::Zero, Ok((&[0, 0], -1, false))),
    ((&[4, -6], 2), Sign::Zero, Ok((&[2, -3], 1, true))),
    ((&[4, -6], 3), Sign::NotNegative, Ok((&[2, -3], 1, false))),
    ((&[4, -6], 3), Sign::Positive, Ok((&[2, -3], 1, false))),
    ((&[1], 0), Sign::Positive, Ok((&[1], -1, false))),
    // a form that is wide before it is made tight
    ((&[WIDE], 0), Sign::Zero, Err(FormFault::WideForm)),
    ((&[0], 1 - WIDE), Sign::Positive, Err(FormFault::WideForm)),
];

fn signed_is(
    alloc: Global,
    given: Entries,
    sign: Sign,
    want: &Result<RowEntries, FormFault>,
) -> Result<bool, AllocError> {
    let given = form(alloc, given)?;
    Ok(match (tight_row(alloc, &given, sign), want) {
        (Ok(row), Ok(entries)) => is_row(&row, *entries),
        (Err(fault), Err(wanted)) => fault == *wanted,
        _ => false,
    })
}

#[test]
fn rows_of_signs(rt: HostRuntime) -> Result<(), Fail> {
    for (given, sign, want) in &SIGNED {
        assert!(rt;
            signed_is(rt.alloc(), *given, *sign, want)?,
            "{given:?} {sign:?}"
        );
    }
    Ok(())
}

/// A row, a point as numbers and their denominator, and whether the row is decided, and holds at
/// the point.
const JUDGED: [(
    RowEntries,
    &'static [i128],
    i128,
    Option<bool>,
    Option<bool>,
); 9] = [
    ((&[2], -1, true), &[1], 2, None, Some(true)),
    ((&[1], -1, false), &[1], 2, None, Some(false)),
    ((&[1, 1], -1, false), &[1, 0], 1, None, Some(true)),
    // an equality holds at 0 alone
    ((&[1, 1], -1, true), &[1, 1], 1, None, Some(false)),
    // past the end of the point stand zeros
    ((&[1, 5], 0, true), &[0], 1, None, Some(true)),
    ((&[0, 0], 3, false), &[], 1, Some(true), Some(true)),
    ((&[0], 3, true), &[4], 1, Some(false), Some(false)),
    ((&[], -1, false), &[], 1, Some(false), Some(false)),
    ((&[0], 0, true), &[1 << 60], 1, Some(true), None),
];

/// Whether a copy of the row is decided, and holds at the point.
fn judged(
    alloc: Global,
    given: RowEntries,
    numbers: &[i128],
    denominator: i128,
) -> Result<(Option<bool>, Option<bool>), AllocError> {
    let row = row(alloc, given)?.copy(alloc)?;
    let numbers = Items::from_slice(alloc, numbers)?;
    let point = Point {
        numbers,
        denominator,
    };
    Ok((row.decided(), point.meets(&row)))
}

#[test]
fn rows_at_points(rt: HostRuntime) -> Result<(), Fail> {
    for (given, numbers, denominator, decided, met) in JUDGED {
        let got = judged(rt.alloc(), given, numbers, denominator)?;
        assert_eq!(rt; got, (decided, met), "{given:?} {numbers:?} {denominator}");
    }
    Ok(())
}

#[test]
fn rows_that_never_hold(rt: HostRuntime) -> Result<(), Fail> {
    assert!(rt; is_row(&never_row(rt.alloc(), 2)?, (&[0, 0], -1, false)));
    Ok(())
}

#[test]
fn multipliers_that_fit(rt: HostRuntime) -> Result<(), Fail> {
    assert!(rt; are_fitting_multipliers(&[0, 1 - (1 << 56), (1 << 56) - 1]));
    assert!(rt; !are_fitting_multipliers(&[0, -(1 << 56)]));
    Ok(())
}

/// A number of variables, a number, and the form that is that number.
const CONSTANTS: [(usize, i64, Result<Entries, ProductFault>); 3] = [
    (0, -3, Ok((&[], -3))),
    (2, 1 - WIDE, Ok((&[0, 0], 1 - WIDE))),
    (2, WIDE, Err(WideForm)),
];

fn constant_is(
    alloc: Global,
    count: usize,
    value: i64,
    want: &Result<Entries, ProductFault>,
) -> bool {
    is_made(&as_product(constant_form(alloc, count, value)), want)
}

#[test]
fn constants(rt: HostRuntime) -> Result<(), Fail> {
    for (count, value, want) in &CONSTANTS {
        assert!(rt;
            constant_is(rt.alloc(), *count, *value, want),
            "{count} {value}"
        );
    }
    Ok(())
}

/// A form, whether it is constant, and whether it is the variable 1 of 3.
const VARIABLES: [(Entries, bool, bool); 4] = [
    ((&[0, 1, 0], 0), false, true),
    ((&[0, 1, 0], 1), false, false),
    ((&[0, 1], 0), false, false),
    ((&[0, 0], 4), true, false),
];

fn variable_is(alloc: Global, given: Entries) -> Result<(bool, bool), AllocError> {
    let (variable, given) = (variable_form(alloc, 3, 1)?, form(alloc, given)?);
    Ok((given.is_constant(), variable.same(&given)))
}

#[test]
fn variables(rt: HostRuntime) -> Result<(), Fail> {
    for (given, constant, same) in VARIABLES {
        assert_eq!(rt;
            variable_is(rt.alloc(), given)?,
            (constant, same),
            "{given:?}"
        );
    }
    Ok(())
}

/// A row, and the tight row.
const TIGHT: [(RowEntries, RowEntries); 16] = [
    ((&[2, -4], 3, false), (&[1, -2], 1, false)),
    ((&[2, -4], -3, false), (&[1, -2], -2, false)),
    ((&[2, -4], 3, true), (&[0, 0], -1, false)),
    ((&[2, -4], -4, true), (&[1, -2], -2, true)),
    ((&[6, 0, -9], 0, true), (&[2, 0, -3], 0, true)),
    ((&[-6, 4], 5, false), (&[-3, 2], 2, false)),
    ((&[3, 5], -7, false), (&[3, 5], -7, false)),
    ((&[0, 7], 7, false), (&[0, 1], 1, false)),
    ((&[0, -7], -1, false), (&[0, -1], -1, false)),
    ((&[], 5, true), (&[], 5, true)),
    ((&[0, 0], -5, true), (&[0, 0], -5, true)),
    ((&[0], -2, false), (&[0], -2, false)),
    ((&[i64::MIN, 0], i64::MAX, false), (&[-1, 0], 0, false)),
    ((&[i64::MIN], -1, false), (&[-1], -1, false)),
    ((&[i64::MIN], i64::MIN, true), (&[-1], -1, true)),
    (
        (&[i64::MIN, 1], i64::MIN, false),
        (&[i64::MIN, 1], i64::MIN, false),
    ),
];

fn tight_is(alloc: Global, given: RowEntries, want: RowEntries) -> Result<bool, AllocError> {
    let row = row(alloc, given)?;
    Ok(is_row(&tight(alloc, &row)?, want))
}

#[test]
fn tight_rows(rt: HostRuntime) -> Result<(), Fail> {
    for (given, want) in TIGHT {
        assert!(rt; tight_is(rt.alloc(), given, want)?, "{given:?}");
    }
    Ok(())
}

/// Two numbers and their greatest common divisor.
const DIVISORS: [(u128, u128, u128); 9] = [
    (0, 0, 0),
    (0, 7, 7),
    (7, 0, 7),
    (1, 0, 1),
    (1, 9, 1),
    (12, 18, 6),
    (17, 5, 1),
    (1 << 100, 3 << 98, 1 << 98),
    (u128::MAX, u128::MAX, u128::MAX),
];

#[test]
fn divisors(rt: HostRuntime) -> Result<(), Fail> {
    for (a, b, want) in DIVISORS {
        assert_eq!(rt; gcd(a, b), want, "{a} and {b}");
    }
    Ok(())
}

/// The entries of inequalities, how many columns there are, whether the rows have one length, and
/// whether they fit.
const SHAPES: [(&'static [Entries], (usize, bool, bool)); 7] = [
    (&[], (0, true, true)),
    (&[(&[], 1)], (0, true, true)),
    (&[(&[1, 2], 0), (&[0, 0], 3)], (2, true, true)),
    (&[(&[1, 2], 0), (&[1], 0)], (2, false, true)),
    (
        &[(&[1 - WIDE_IN_ROWS], WIDE_IN_ROWS - 1), (&[], 0)],
        (1, false, true),
    ),
    (&[(&[0], 0), (&[-WIDE_IN_ROWS], 0)], (1, true, false)),
    (&[(&[0], WIDE_IN_ROWS)], (1, true, false)),
];

fn shape(alloc: Global, given: &[Entries]) -> Result<(usize, bool, bool), AllocError> {
    let made = rows(alloc, given)?;
    let rows = made.as_slice();
    Ok((
        columns_of(rows),
        have_one_length(rows),
        are_fitting_rows(rows),
    ))
}

#[test]
fn shapes_of_rows(rt: HostRuntime) -> Result<(), Fail> {
    for (given, want) in SHAPES {
        assert_eq!(rt; shape(rt.alloc(), given)?, want, "{given:?}");
    }
    Ok(())
}
