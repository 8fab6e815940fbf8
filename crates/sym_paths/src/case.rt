//! One case of a segment.
ghost use Rattle.std.specs.Prelude.{◌≡◌, ◌++◌, ◌∷◌, [], map, pos, slice_index_or, OnOk, IfOk};
ghost use Rattle.sym_paths.specs.Cases.{fitted, fitted_row, fitted_form, completed};
ghost use Rattle.sym_paths.specs.Arrivals.{path_of};

use c_ast::Place;
use lin_terms::{Form, Row};
use sqlite_items::Items;
use std::alloc::{AllocError, Global};

/// One case of a segment. All its rows and forms have one length: a column for each variable in
/// scope at the start, by rising number, then one for each unknown, in the order of the walk.
#[derive(Debug, Drop)]
pub struct Case {
    /// The case holds where some whole numbers for the unknowns make all rows hold.
    pub rows: Items<Row>,
    /// The place that is met.
    pub to: Place,
    /// The values there, of the variables in scope by rising number, or of the result.
    pub after: Items<Form>,
}

/// Adds the number at the place, and 0 past the end.
fn push_number(made: &mut Vec<i64>, numbers: &[i64], place: usize) -> Result<(), AllocError>
    ensures { OnOk result (made.new.items
        ≡ made.old.items ++ slice_index_or numbers.now place (pos 0) ∷ []) }
{
    if place < numbers.len() {
        made.push(numbers[place])?;
    } else {
        made.push(0)?;
    }
    Ok(())
}

/// The first `count` numbers, and zeros where there are fewer.
fn fitted(alloc: Global, count: usize, numbers: &[i64]) -> Result<Items<i64>, AllocError>
    ensures { IfOk result (λ made. made ≡ fitted count numbers.now) }
{
    let mut made = Vec::new(alloc);
    for place in 0..count {
        push_number(&mut made, numbers, place)?;
    }
    Ok(Items::from_vec(made))
}

/// The rows over the columns in use.
pub(crate) fn fitted_rows(
    alloc: Global,
    columns: usize,
    rows: &[Row],
) -> Result<Items<Row>, AllocError>
    ensures { IfOk result (λ made. made ≡ map (fitted_row columns) rows.now) }
{
    let mut made = Items::new(alloc);
    for row in rows {
        made.push(Row {
            coefs: fitted(alloc, columns, row.coefs.as_slice())?,
            constant: row.constant,
            equality: row.equality,
        })?;
    }
    Ok(made)
}

/// The forms over the columns in use.
fn fitted_forms(alloc: Global, columns: usize, forms: &[Form]) -> Result<Items<Form>, AllocError>
    ensures { IfOk result (λ made. made ≡ map (fitted_form columns) forms.now) }
{
    let mut made = Items::new(alloc);
    for form in forms {
        made.push(Form {
            coefs: fitted(alloc, columns, form.coefs.as_slice())?,
            constant: form.constant,
        })?;
    }
    Ok(made)
}

/// A complete case, with copies of its rows and forms over the columns in use.
pub(crate) fn completed(
    alloc: Global,
    rows: &[Row],
    columns: u32,
    to: Place,
    forms: &[Form],
) -> Result<Case, AllocError>
    ensures { IfOk result (λ case. case ≡ completed (path_of rows.now columns to forms.now)) }
{
    let rows = fitted_rows(alloc, columns as usize, rows)?;
    let after = fitted_forms(alloc, columns as usize, forms)?;
    Ok(Case { rows, to, after })
}
