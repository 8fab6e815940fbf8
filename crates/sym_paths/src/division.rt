//! What divisions make of forms: two ways to divide, each with three rows, unless the dividend is
//! constant or the divisor is 1.
ghost use Rattle.std.specs.Prelude.{◌≡◌, ℕ, ◌<◌, ◌≤ℤ◌, ◌^◌, pos, if◌then◌else◌, length, map, All};
ghost use Rattle.std.specs.Prelude.{IfOk, ◌==◌, true, ◌+ℤ◌, neg_ℤ, int_div, int_rem, unsigned_abs};
ghost use Rattle.std.specs.Prelude.{◌++◌};
ghost use Rattle.std.specs.Option.{option_to_list};
ghost use Rattle.lin_terms.specs.Form.{constant_form, difference_of};
ghost use Rattle.sym_paths.specs.Walk.{gives, onward};
ghost use Rattle.sym_paths.specs.Arrivals.{fresh, made_of, HasRoom, MadeHasRoom};
ghost use Rattle.lin_terms.specs.Bounds.{FitsForm};
ghost use Rattle.lin_terms.specs.Sign.{sign_row};
ghost use Rattle.sym_paths.specs.Rows.{all_joined, made};
ghost use Rattle.sym_paths.specs.Symbolic.{rows_from_zero, rows_below_zero, two_ways, divided_by};
ghost use Rattle.sym_paths.specs.Symbolic.{parted, quotient_made, rest_made};

use crate::PathLimit;
use crate::arrival::Made;
use crate::forms::{copied_form, number};
use crate::made::{given, stopped};
use lin_terms::{Form, FormFault, Sign, difference, scale, tight_row, variable_form};
use sqlite_items::Items;
use std::alloc::{AllocError, Global};

/// The form, where each form of the conditions has the sign beside it.
fn where_all(
    alloc: Global,
    conditions: &[(Sign, &Form)],
    form: &Form,
    columns: u32,
) -> Result<Option<Made>, AllocError>
    ensures exact { IfOk result (λ way. map made_of (option_to_list way)
        ≡ all_joined (map (λ c. sign_row c.0 c.1.now) conditions.now) form.now (fresh columns)) }
    ensures room { IfOk result (λ way. (room : ℕ) → HasRoom room form.now
        → All (MadeHasRoom room) (option_to_list way)) }
{
    let mut rows = Items::new(alloc);
    for (sign, given) in conditions {
        match tight_row(alloc, given, *sign) {
            Ok(row) => match row.decided() {
                None => rows.push(row)?,
                Some(true) => {}
                Some(false) => return Ok(None),
            },
            Err(FormFault::WideForm) => return Ok(Some(Made::Stops(PathLimit::WideForm))),
            Err(FormFault::Memory) => return Err(AllocError),
        }
    }
    let form = copied_form(alloc, form)?;
    Ok(Some(Made::Arrives {
        rows,
        columns,
        form,
    }))
}

// Entries of forms are far below 2^63, so neither of these two overflows.
fn sum(constant: &i64, by: &i64) -> i64
    requires constant { FitsForm constant.now }
    requires by { FitsForm by.now }
    ensures { result ≡ constant.now +ℤ by.now }
{
    *constant + *by
}

fn less(constant: &i64, by: &i64) -> i64
    requires constant { FitsForm constant.now }
    requires by { FitsForm by.now }
    ensures { result ≡ constant.now +ℤ neg_ℤ by.now }
{
    *constant - *by
}

/// The form and the number.
fn raised(alloc: Global, form: &Form, by: &i64) -> Result<Form, AllocError>
    requires form { FitsForm form.now.constant }
    requires by { FitsForm by.now }
    ensures { IfOk result (λ made. made
        ≡ record { coefs = form.now.coefs; constant = form.now.constant +ℤ by.now }) }
{
    let coefs = Items::from_slice(alloc, form.coefs.as_slice())?;
    let constant = sum(&form.constant, by);
    Ok(Form { coefs, constant })
}

/// The form less the number.
fn lowered(alloc: Global, form: &Form, by: &i64) -> Result<Form, AllocError>
    requires form { FitsForm form.now.constant }
    requires by { FitsForm by.now }
    ensures { IfOk result (λ made. made
        ≡ record { coefs = form.now.coefs; constant = form.now.constant +ℤ neg_ℤ by.now }) }
{
    let coefs = Items::from_slice(alloc, form.coefs.as_slice())?;
    let constant = less(&form.constant, by);
    Ok(Form { coefs, constant })
}

/// The form, where the dividend is at least 0 and `left` is what its quotient leaves.
fn from_zero(
    alloc: Global,
    divisor: &i64,
    dividend: &Form,
    left: &Form,
    form: &Form,
    columns: u32,
) -> Result<Option<Made>, AllocError>
    requires divisor { FitsForm divisor.now }
    requires left { FitsForm left.now.constant }
    ensures exact { IfOk result (λ way. map made_of (option_to_list way)
        ≡ all_joined (rows_from_zero divisor.now dividend.now left.now) form.now (fresh columns)) }
    ensures room { IfOk result (λ way. (room : ℕ) → HasRoom room form.now
        → All (MadeHasRoom room) (option_to_list way)) }
{
    let below = lowered(alloc, left, divisor)?;
    let conditions = [
        (Sign::NotNegative, dividend),
        (Sign::NotNegative, left),
        (Sign::Negative, &below),
    ];
    where_all(alloc, &conditions, form, columns)
}

/// The form, where the dividend is below 0 and `left` is what its quotient leaves.
fn below_zero(
    alloc: Global,
    divisor: &i64,
    dividend: &Form,
    left: &Form,
    form: &Form,
    columns: u32,
) -> Result<Option<Made>, AllocError>
    requires divisor { FitsForm divisor.now }
    requires left { FitsForm left.now.constant }
    ensures exact { IfOk result (λ way. map made_of (option_to_list way)
        ≡ all_joined (rows_below_zero divisor.now dividend.now left.now) form.now (fresh columns)) }
    ensures room { IfOk result (λ way. (room : ℕ) → HasRoom room form.now
        → All (MadeHasRoom room) (option_to_list way)) }
{
    let above = raised(alloc, left, divisor)?;
    let conditions = [
        (Sign::Negative, dividend),
        (Sign::NotPositive, left),
        (Sign::Positive, &above),
    ];
    where_all(alloc, &conditions, form, columns)
}

/// The two ways, where there are any.
fn both(alloc: Global, first: Option<Made>, second: Option<Made>) -> Result<Vec<Made>, AllocError>
    ensures { IfOk result (λ made. made.items ≡ option_to_list first ++ option_to_list second) }
{
    let mut made = Vec::new(alloc);
    if let Some(way) = first {
        made.push(way)?;
    }
    if let Some(way) = second {
        made.push(way)?;
    }
    Ok(made)
}

/// The form in the two ways to divide: of a dividend of at least 0, then of one below 0.
fn two_ways(
    alloc: Global,
    divisor: &i64,
    dividend: &Form,
    left: &Form,
    form: &Form,
    columns: u32,
) -> Result<Vec<Made>, AllocError>
    requires divisor { FitsForm divisor.now }
    requires left { FitsForm left.now.constant }
    ensures exact { IfOk result (λ made. map made_of made.items
        ≡ all_joined (rows_from_zero divisor.now dividend.now left.now) form.now (fresh columns)
        ++ all_joined (rows_below_zero divisor.now dividend.now left.now) form.now
        (fresh columns)) }
    ensures room { IfOk result (λ made. (room : ℕ) → HasRoom room form.now
        → All (MadeHasRoom room) made.items) }
{
    let first = from_zero(alloc, divisor, dividend, left, form, columns)?;
    let second = below_zero(alloc, divisor, dividend, left, form, columns)?;
    both(alloc, first, second)
}

/// One part of a division: what is left, or the quotient.
fn part<'a>(wants_left: bool, left: &'a Form, quotient: &'a Form) -> &'a Form
    ensures { result.now ≡ (if wants_left then left.now else quotient.now) }
{
    if wants_left { left } else { quotient }
}

/// A part of the division whose quotient is `unknown`; `whole` is the divisor times that.
fn part_beside(
    alloc: Global,
    divisor: &i64,
    dividend: &Form,
    unknown: &Form,
    whole: &Form,
    wants_left: bool,
    columns: u32,
) -> Result<Vec<Made>, AllocError>
    requires divisor { FitsForm divisor.now }
    requires unknown { length unknown.now.coefs ≡ length dividend.now.coefs }
    requires whole { length dividend.now.coefs ≡ length whole.now.coefs }
    ensures exact { IfOk result (λ all. map made_of all.items
        ≡ onward (onward (made (difference_of dividend.now whole.now) (fresh columns))
        (λ left last. two_ways divisor.now dividend.now unknown.now left last))
        (λ both last. gives (if wants_left then both.rest else both.quotient) last)) }
    ensures room { IfOk result (λ all. (room : ℕ) → HasRoom room dividend.now
        → All (MadeHasRoom room) all.items) }
{
    match difference(alloc, dividend, whole) {
        Ok(left) => {
            let form = part(wants_left, &left, unknown);
            two_ways(alloc, divisor, dividend, &left, form, columns)
        }
        Err(FormFault::WideForm) => stopped(alloc, PathLimit::WideForm),
        Err(FormFault::Memory) => Err(AllocError),
    }
}

/// A part of the division whose quotient is the unknown of the next column.
fn part_by_unknown(
    alloc: Global,
    room: usize,
    divisor: &i64,
    dividend: &Form,
    wants_left: bool,
    columns: u32,
) -> Result<Vec<Made>, AllocError>
    requires dividend { HasRoom room dividend.now }
    requires few { room < 2 ^ 32 }
    requires next { columns < room }
    ensures exact { IfOk result (λ all. map made_of all.items
        ≡ onward (divided_by room true divisor.now dividend.now (fresh columns))
        (λ both last. gives (if wants_left then both.rest else both.quotient) last)) }
    ensures room { IfOk result (λ all. All (MadeHasRoom room) all.items) }
{
    let unknown = variable_form(alloc, room, columns as usize)?;
    match scale(alloc, &unknown, *divisor) {
        Ok(whole) => {
            let next = columns + 1;
            part_beside(alloc, divisor, dividend, &unknown, &whole, wants_left, next)
        }
        Err(FormFault::WideForm) => stopped(alloc, PathLimit::WideForm),
        Err(FormFault::Memory) => Err(AllocError),
    }
}

/// A part of the division of a number.
fn part_of_number(dividend: &i64, divisor: &i64, wants_left: bool) -> i64
    requires { pos 1 ≤ℤ divisor.now }
    ensures { result ≡ (if wants_left then int_rem dividend.now divisor.now
        else int_div dividend.now divisor.now) }
{
    if wants_left {
        *dividend % *divisor
    } else {
        *dividend / *divisor
    }
}

/// A part of the division of a constant form.
fn part_of_constant(
    alloc: Global,
    room: usize,
    divisor: &i64,
    dividend: &Form,
    wants_left: bool,
) -> Result<Form, AllocError>
    requires { pos 1 ≤ℤ divisor.now }
    ensures exact { IfOk result (λ form. form ≡ constant_form room
        (if wants_left then int_rem dividend.now.constant divisor.now
        else int_div dividend.now.constant divisor.now)) }
    ensures room { IfOk result (HasRoom room) }
{
    let value = part_of_number(&dividend.constant, divisor, wants_left);
    number(alloc, room, &value)
}

/// A part of the division by 1.
fn part_by_one(
    alloc: Global,
    room: usize,
    dividend: &Form,
    wants_left: bool,
) -> Result<Form, AllocError>
    requires { HasRoom room dividend.now }
    ensures exact { IfOk result (λ form. form
        ≡ (if wants_left then constant_form room (pos 0) else dividend.now)) }
    ensures room { IfOk result (HasRoom room) }
{
    if wants_left {
        number(alloc, room, &0)
    } else {
        copied_form(alloc, dividend)
    }
}

fn is_one(divisor: &i64) -> bool
    ensures { result ≡ (unsigned_abs divisor.now == 1) }
{
    divisor.unsigned_abs() == 1
}

/// A part of a division, or the limit.
fn divided(
    alloc: Global,
    room: usize,
    divisor: &i64,
    form: &Form,
    wants_left: bool,
    columns: u32,
) -> Result<Vec<Made>, AllocError>
    requires form { HasRoom room form.now }
    requires divisor { pos 1 ≤ℤ divisor.now }
    requires few { room < 2 ^ 32 }
    ensures exact { IfOk result (λ all. map made_of all.items
        ≡ onward (parted room divisor.now form.now (fresh columns))
        (λ both last. gives (if wants_left then both.rest else both.quotient) last)) }
    ensures room { IfOk result (λ all. All (MadeHasRoom room) all.items) }
{
    if form.is_constant() {
        let made = part_of_constant(alloc, room, divisor, form, wants_left)?;
        return given(alloc, made, columns);
    }
    if is_one(divisor) {
        let made = part_by_one(alloc, room, form, wants_left)?;
        return given(alloc, made, columns);
    }
    if columns as usize >= room {
        return stopped(alloc, PathLimit::ManyUnknowns);
    }
    part_by_unknown(alloc, room, divisor, form, wants_left, columns)
}

/// The quotient of a form by a constant.
pub(crate) fn quotient(
    alloc: Global,
    room: usize,
    divisor: i64,
    form: &Form,
    columns: u32,
) -> Result<Vec<Made>, AllocError>
    requires form { HasRoom room form.now }
    requires divisor { pos 1 ≤ℤ divisor }
    requires few { room < 2 ^ 32 }
    ensures made { IfOk result (λ all. map made_of all.items
        ≡ quotient_made room divisor form.now (fresh columns)) }
    ensures room { IfOk result (λ all. All (MadeHasRoom room) all.items) }
{
    divided(alloc, room, &divisor, form, false, columns)
}

/// What the quotient leaves.
pub(crate) fn rest(
    alloc: Global,
    room: usize,
    divisor: i64,
    form: &Form,
    columns: u32,
) -> Result<Vec<Made>, AllocError>
    requires form { HasRoom room form.now }
    requires divisor { pos 1 ≤ℤ divisor }
    requires few { room < 2 ^ 32 }
    ensures made { IfOk result (λ all. map made_of all.items
        ≡ rest_made room divisor form.now (fresh columns)) }
    ensures room { IfOk result (λ all. All (MadeHasRoom room) all.items) }
{
    divided(alloc, room, &divisor, form, true, columns)
}
