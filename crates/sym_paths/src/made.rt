//! Forms that are made, each with the rows under which it is: a form alone, and answers as values.
ghost use Rattle.std.specs.Prelude.{◌≡◌, ℕ, [], ◌∷◌, map, All, IfOk, Option};
ghost use Rattle.std.specs.Option.{option_to_list};
ghost use Rattle.lin_terms.specs.Form.{constant_form};
ghost use Rattle.sym_paths.specs.Walk.{gives, stops};
ghost use Rattle.sym_paths.specs.Arrivals.{fresh, answer_of, made_of, HasRoom, MadeHasRoom};
ghost use Rattle.lin_terms.specs.Makes.{Makes};
ghost use Rattle.sym_paths.specs.Rows.{judged, made};
ghost use Rattle.sym_paths.specs.Symbolic.{as_value};

use crate::PathLimit;
use crate::arrival::{Answer, Made};
use crate::forms::test_form;
use lin_terms::{Form, FormFault, Row, constant_form};
use sqlite_items::Items;
use std::alloc::{AllocError, Global};

/// The form alone.
pub(crate) fn given(alloc: Global, form: Form, columns: u32) -> Result<Vec<Made>, AllocError>
    ensures exact { IfOk result (λ made. map made_of made.items ≡ gives form (fresh columns)) }
    ensures room { IfOk result (λ made. (room : ℕ) → HasRoom room form
        → All (MadeHasRoom room) made.items) }
{
    let mut made = Vec::new(alloc);
    let rows = Items::new(alloc);
    made.push(Made::Arrives {
        rows,
        columns,
        form,
    })?;
    Ok(made)
}

/// The limit alone.
pub(crate) fn stopped(alloc: Global, limit: PathLimit) -> Result<Vec<Made>, AllocError>
    ensures exact { IfOk result (λ made. map made_of made.items ≡ stops limit) }
    ensures room { IfOk result (λ made. (room : ℕ) → All (MadeHasRoom room) made.items) }
{
    let mut made = Vec::new(alloc);
    made.push(Made::Stops(limit))?;
    Ok(made)
}

/// The form alone, where it was made.
pub(crate) fn single(
    alloc: Global,
    form: Result<Form, FormFault>,
    columns: u32,
) -> Result<Vec<Made>, AllocError>
    ensures exact { (wanted : Option Form) → Makes form wanted
        → IfOk result (λ made. map made_of made.items ≡ judged wanted (fresh columns)) }
    ensures room { (room : ℕ) → IfOk form (HasRoom room)
        → IfOk result (λ made. All (MadeHasRoom room) made.items) }
{
    match form {
        Ok(form) => given(alloc, form, columns),
        Err(FormFault::WideForm) => stopped(alloc, PathLimit::WideForm),
        Err(FormFault::Memory) => Err(AllocError),
    }
}

/// A number as a form.
pub(crate) fn constant(
    alloc: Global,
    room: usize,
    value: i64,
    columns: u32,
) -> Result<Vec<Made>, AllocError>
    ensures made { IfOk result (λ all. map made_of all.items
        ≡ made (constant_form room value) (fresh columns)) }
    ensures room { IfOk result (λ all. All (MadeHasRoom room) all.items) }
{
    single(alloc, constant_form(alloc, room, value), columns)
}

/// The row as a list.
pub(crate) fn rows_of(alloc: Global, row: Option<Row>) -> Result<Items<Row>, AllocError>
    ensures { IfOk result (λ rows. rows ≡ option_to_list row) }
{
    let mut rows = Items::new(alloc);
    if let Some(row) = row {
        rows.push(row)?;
    }
    Ok(rows)
}

/// An answer as a value, 1 or 0.
fn value(alloc: Global, room: usize, test: Answer, columns: u32) -> Result<Made, AllocError>
    ensures exact { IfOk result (λ made. made_of made ∷ []
        ≡ as_value room (answer_of columns test ∷ [])) }
    ensures room { IfOk result (MadeHasRoom room) }
{
    match test {
        Answer::Given { row, answer } => {
            let rows = rows_of(alloc, row)?;
            let form = test_form(alloc, room, answer)?;
            Ok(Made::Arrives {
                rows,
                columns,
                form,
            })
        }
        Answer::Wide => Ok(Made::Stops(PathLimit::WideForm)),
    }
}

/// The answers of a test as values.
pub(crate) fn values(
    alloc: Global,
    room: usize,
    tests: Vec<Answer>,
    columns: u32,
) -> Result<Vec<Made>, AllocError>
    ensures made { IfOk result (λ made. map made_of made.items
        ≡ as_value room (map (answer_of columns) tests.items)) }
    ensures room { IfOk result (λ made. All (MadeHasRoom room) made.items) }
{
    let mut made = Vec::new(alloc);
    for test in tests {
        made.push(value(alloc, room, test, columns)?)?;
    }
    Ok(made)
}
