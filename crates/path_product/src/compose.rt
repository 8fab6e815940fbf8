//! A later segment's case in terms of a move's start: forms take the places of its variables, and
//! its unknowns are new columns.
//!
//! All alternatives of a walk share one list of rows. Those of a case join at its end; who comes
//! back from the case cuts them off.
ghost use Rattle.std.specs.Prelude.{◌≡◌, ◌<◌, ◌≤◌, ◌+◌, ◌^◌, ◌++◌, map, All, length, take, ℕ, Some, IfOk, IfErr, IfSome, OnOk};
ghost use Rattle.lin_terms.specs.Compose.{CanTakePlaces};
ghost use Rattle.lin_terms.specs.Form.{are_zeros};
ghost use Rattle.lin_terms.specs.Makes.{fitting, MakesRow};
ghost use Rattle.lin_terms.specs.Sign.{fitting_row, tight_fitting};
ghost use Rattle.horn_clauses.specs.Clause.{columns_in};
ghost use Rattle.c_ast.specs.declared.place.Place.{Place};
ghost use Rattle.sym_paths.specs.Walk.{State, gives};
ghost use Rattle.sym_paths.specs.Nodes.{end_at};
ghost use Rattle.sym_paths.specs.Cases.{variables_from};
ghost use Rattle.sym_paths.specs.Rows.{decided, joining, joined, all_joined};
ghost use Rattle.path_product.specs.Compose.{row_over, form_over, ended, unknowns_of, rows_and_end, case_over};
ghost use Rattle.path_product.specs.Coded.{state_of, came, StopsAt, IsWide, AreOver, HasColumns, AreMade};

use c_ast::Place;
use horn_clauses::columns_in;
use lin_terms::{Form, FormFault, Row, compose, tight, variable_form};
use sqlite_items::Items;
use std::alloc::{AllocError, Global};
use sym_paths::{Case, PathLimit};

/// Where a walk is: so many columns are in use, and the values at the place have these forms.
#[derive(Debug, Drop)]
pub(crate) struct Reached {
    pub place: Place,
    pub columns: u32,
    pub forms: Items<Form>,
}

/// How many unknowns the case has, whose start has so many variables.
fn unknowns_of(width: usize, case: &Case) -> usize
    requires { HasColumns width case.now }
    ensures { result ≡ unknowns_of width case.now }
{
    columns_in(width, case.rows.as_slice(), case.after.as_slice()) - width
}

/// The same form again.
fn copied_form(alloc: Global, form: &Form) -> Result<Form, AllocError>
    ensures { IfOk result (λ made. made ≡ form.now) }
{
    let coefs = Items::from_slice(alloc, form.coefs.as_slice())?;
    Ok(Form {
        coefs,
        constant: form.constant,
    })
}

/// The same forms again.
pub(crate) fn copied_forms(alloc: Global, forms: &[Form]) -> Result<Items<Form>, AllocError>
    ensures { IfOk result (λ made. made ≡ forms.now) }
{
    let mut made = Items::new(alloc);
    for form in forms {
        made.push(copied_form(alloc, form)?)?;
    }
    Ok(made)
}

/// The same rows again.
pub(crate) fn copied_rows(alloc: Global, rows: &[Row]) -> Result<Items<Row>, AllocError>
    ensures { IfOk result (λ made. made ≡ rows.now) }
{
    let mut made = Items::new(alloc);
    for row in rows {
        made.push(row.copy(alloc)?)?;
    }
    Ok(made)
}

/// The forms, and then those of so many new columns.
pub(crate) fn with_unknowns(
    alloc: Global,
    columns: usize,
    forms: &[Form],
    first: usize,
    count: usize,
) -> Result<Items<Form>, AllocError>
    requires within { first + count ≤ columns }
    requires few { columns < 2 ^ 32 }
    requires over { AreOver first forms.now }
    ensures made { IfOk result (λ made. made ≡ forms.now ++ variables_from columns first count) }
    ensures over { IfOk result (AreOver columns) }
    ensures many { IfOk result (λ made. length made ≡ length forms.now + count) }
{
    let mut made = copied_forms(alloc, forms)?;
    for i in 0..count {
        made.push(variable_form(alloc, columns, first + i)?)?;
    }
    Ok(made)
}

// ---- rows

/// The row over so many columns, once the forms take the places of its variables. It is refused
/// where an entry is wide.
fn row_over(alloc: Global, columns: usize, at: &[Form], row: &Row) -> Result<Row, FormFault>
    requires places { CanTakePlaces row.now.coefs at.now }
    requires lengths { All (λ form. length form.coefs ≤ columns) at.now }
    ensures { MakesRow result (fitting_row (row_over columns at.now row.now)) }
{
    let left_side = Form {
        coefs: Items::from_slice(alloc, row.coefs.as_slice())?,
        constant: row.constant,
    };
    let Form { coefs, constant } = compose(alloc, columns, &left_side, at)?;
    Ok(Row {
        coefs,
        constant,
        equality: row.equality,
    })
}

/// The same row, made tight.
fn tight_over(alloc: Global, columns: usize, at: &[Form], row: &Row) -> Result<Row, FormFault>
    requires places { CanTakePlaces row.now.coefs at.now }
    requires lengths { All (λ form. length form.coefs ≤ columns) at.now }
    ensures { MakesRow result (tight_fitting (row_over columns at.now row.now)) }
{
    let row = row_over(alloc, columns, at, row)?;
    Ok(tight(alloc, &row)?)
}

/// A tight row joins, as it has variables or not. Says whether the walk goes on.
fn join(rows: &mut Items<Row>, row: Row) -> Result<bool, AllocError>
    ensures joined { IfOk result (λ goes. (columns : ℕ)
        → joining (are_zeros row.coefs) row (tt {0}) (state_of rows.old columns)
        ≡ decided goes (tt {0}) (state_of rows.new columns)) }
    ensures kept { OnOk result (take (length rows.old) rows.new ≡ rows.old) }
{
    match row.decided() {
        None => {
            rows.push(row)?;
            Ok(true)
        }
        Some(holds) => Ok(holds),
    }
}

/// The row joins once the forms take the places of its variables. Says whether the walk goes on.
fn join_over(
    alloc: Global,
    columns: usize,
    at: &[Form],
    row: &Row,
    rows: &mut Items<Row>,
) -> Result<bool, PathLimit>
    requires places { CanTakePlaces row.now.coefs at.now }
    requires lengths { All (λ form. length form.coefs ≤ columns) at.now }
    ensures joined { IfOk result (λ goes.
        joined (row_over columns at.now row.now) (tt {0}) (state_of rows.old columns)
        ≡ decided goes (tt {0}) (state_of rows.new columns)) }
    ensures limit { IfErr result (StopsAt
        (joined (row_over columns at.now row.now) (tt {0}) (state_of rows.old columns))) }
    ensures kept { OnOk result (take (length rows.old) rows.new ≡ rows.old) }
{
    match tight_over(alloc, columns, at, row) {
        Ok(row) => {
            let goes = join(rows, row)?;
            Ok(goes)
        }
        Err(FormFault::WideForm) => Err(PathLimit::WideForm),
        Err(FormFault::Memory) => Err(PathLimit::Memory),
    }
}

/// The rows join one after another. Says whether the walk goes on.
fn join_all(
    alloc: Global,
    columns: usize,
    at: &[Form],
    case_rows: &[Row],
    rows: &mut Items<Row>,
) -> Result<bool, PathLimit>
    requires over { AreOver columns at.now }
    requires few { length at.now ≤ 1024 }
    requires lengths { All (λ row. length row.coefs ≡ length at.now) case_rows.now }
    ensures joined { IfOk result (λ goes. all_joined (map (row_over columns at.now) case_rows.now)
        (tt {0}) (state_of rows.old columns) ≡ decided goes (tt {0}) (state_of rows.new columns)) }
    ensures limit { IfErr result (StopsAt (all_joined (map (row_over columns at.now)
        case_rows.now) (tt {0}) (state_of rows.old columns))) }
    ensures kept { OnOk result (take (length rows.old) rows.new ≡ rows.old) }
{
    for row in case_rows {
        if !join_over(alloc, columns, at, row, rows)? {
            return Ok(false);
        }
    }
    Ok(true)
}

// ---- forms

/// The form over so many columns, once the forms take the places of its variables.
fn form_over(alloc: Global, columns: usize, at: &[Form], form: &Form) -> Result<Form, PathLimit>
    requires over { AreOver columns at.now }
    requires few { length at.now ≤ 1024 }
    requires length { length form.now.coefs ≡ length at.now }
    ensures made { IfOk result (λ made. fitting (form_over columns at.now form.now) ≡ Some made) }
    ensures columns { IfOk result (λ made. length made.coefs ≡ columns) }
    ensures limit { IfErr result (IsWide (fitting (form_over columns at.now form.now))) }
{
    match compose(alloc, columns, form, at) {
        Ok(form) => Ok(form),
        Err(FormFault::WideForm) => Err(PathLimit::WideForm),
        Err(FormFault::Memory) => Err(PathLimit::Memory),
    }
}

/// The forms of the values at a case's end, unless one of them is too wide.
fn forms_over(
    alloc: Global,
    columns: usize,
    at: &[Form],
    forms: &[Form],
) -> Result<Items<Form>, PathLimit>
    requires over { AreOver columns at.now }
    requires few { length at.now ≤ 1024 }
    requires lengths { All (λ form. length form.coefs ≡ length at.now) forms.now }
    ensures ended { IfOk result (λ made. (l : Place) (state : State)
        → ended l (map (form_over columns at.now) forms.now) state ≡ gives (end_at l made) state) }
    ensures limit { IfErr result (λ why. (l : Place) (state : State)
        → StopsAt (ended l (map (form_over columns at.now) forms.now) state) why) }
    ensures over { IfOk result (AreOver columns) }
    ensures many { IfOk result (λ made. length made ≡ length forms.now) }
{
    let mut made = Items::new(alloc);
    for form in forms {
        made.push(form_over(alloc, columns, at, form)?)?;
    }
    Ok(made)
}

// ---- a case

/// The case's rows join, and only then its forms are made.
fn rows_and_end(
    alloc: Global,
    columns: u32,
    at: &[Form],
    case: &Case,
    rows: &mut Items<Row>,
) -> Result<Option<Reached>, PathLimit>
    requires over { AreOver columns at.now }
    requires few { length at.now ≤ 1024 }
    requires rows { All (λ row. length row.coefs ≡ length at.now) case.now.rows }
    requires forms { All (λ form. length form.coefs ≡ length at.now) case.now.after }
    ensures walk { IfOk result (λ found.
        rows_and_end columns at.now case.now (state_of rows.old columns)
        ≡ came rows.new found) }
    ensures limit { IfErr result (StopsAt
        (rows_and_end columns at.now case.now (state_of rows.old columns))) }
    ensures kept { OnOk result (take (length rows.old) rows.new ≡ rows.old) }
    ensures made { IfOk result (λ found. IfSome found (AreMade columns case.now)) }
{
    let all = columns as usize;
    if !join_all(alloc, all, at, case.rows.as_slice(), rows)? {
        return Ok(None);
    }
    let forms = forms_over(alloc, all, at, case.after.as_slice())?;
    Ok(Some(Reached {
        place: case.to,
        columns,
        forms,
    }))
}

/// The case over these forms of its variables. Its unknowns are taken in first: one too many is
/// the limit that is met.
pub(crate) fn case_over(
    alloc: Global,
    most: usize,
    forms: &[Form],
    case: &Case,
    columns: u32,
    rows: &mut Items<Row>,
) -> Result<Option<Reached>, PathLimit>
    requires over { AreOver columns forms.now }
    requires case { HasColumns (length forms.now) case.now }
    requires few { (columns ≤ most) × (most ≤ 80) × (length forms.now ≤ 64) }
    ensures walk { IfOk result (λ found.
        case_over most forms.now case.now (state_of rows.old columns)
        ≡ came rows.new found) }
    ensures limit { IfErr result (StopsAt
        (case_over most forms.now case.now (state_of rows.old columns))) }
    ensures kept { OnOk result (take (length rows.old) rows.new ≡ rows.old) }
    ensures made { IfOk result (λ found. IfSome found (AreMade most case.now)) }
{
    let unknowns = unknowns_of(forms.len(), case);
    let first = columns as usize;
    let all = first + unknowns;
    if all > most {
        return Err(PathLimit::ManyUnknowns);
    }
    let at = with_unknowns(alloc, all, forms, first, unknowns)?;
    rows_and_end(alloc, all as u32, at.as_slice(), case, rows)
}
