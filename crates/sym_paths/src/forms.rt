//! Forms that no limit is asked of, and copies.
ghost use Rattle.std.specs.Prelude.{◌≡◌, pos, slice_index_or, IfOk};
ghost use Rattle.lin_terms.specs.Form.{constant_form};
ghost use Rattle.flow_graph.specs.Run.{values_with};
ghost use Rattle.sym_paths.specs.Symbolic.{test_form};
ghost use Rattle.sym_paths.specs.Arrivals.{HasRoom};
ghost use Rattle.c_ast.specs.Value.{test_value};

use lin_terms::Form;
use sqlite_items::Items;
use std::alloc::{AllocError, Global};

/// The form that is this number, which no limit is asked of.
pub(crate) fn number(alloc: Global, room: usize, value: &i64) -> Result<Form, AllocError>
    ensures exact { IfOk result (λ form. form ≡ constant_form room value.now) }
    ensures room { IfOk result (HasRoom room) }
{
    let coefs = Items::from_vec(vec![in alloc; 0; room]?);
    Ok(Form {
        coefs,
        constant: *value,
    })
}

/// The value of a test.
fn test_value(test: bool) -> &'static i64
    ensures { result.now ≡ test_value test }
{
    if test { &1 } else { &0 }
}

/// The form of a test.
pub(crate) fn test_form(alloc: Global, room: usize, test: bool) -> Result<Form, AllocError>
    ensures form { IfOk result (λ form. form ≡ test_form room test) }
    ensures room { IfOk result (HasRoom room) }
{
    number(alloc, room, test_value(test))
}

/// An equal form.
pub(crate) fn copied_form(alloc: Global, form: &Form) -> Result<Form, AllocError>
    ensures { IfOk result (λ made. made ≡ form.now) }
{
    let coefs = Items::from_slice(alloc, form.coefs.as_slice())?;
    Ok(Form {
        coefs,
        constant: form.constant,
    })
}

/// Equal forms.
pub(crate) fn copied_forms(alloc: Global, forms: &[Form]) -> Result<Vec<Form>, AllocError>
    ensures { IfOk result (λ made. made.items ≡ forms.now) }
{
    let mut made = Vec::new(alloc);
    for form in forms {
        made.push(copied_form(alloc, form)?)?;
    }
    Ok(made)
}

/// A copy of the variable's form.
pub(crate) fn variable(
    alloc: Global,
    room: usize,
    forms: &[Form],
    x: u32,
) -> Result<Form, AllocError>
    ensures { IfOk result (λ form. form
        ≡ slice_index_or forms.now x (constant_form room (pos 0))) }
{
    match forms.get(x as usize) {
        None => number(alloc, room, &0),
        Some(form) => copied_form(alloc, form),
    }
}

/// A copy of the form of each of the variables.
pub(crate) fn forms_of(
    alloc: Global,
    room: usize,
    variables: &[u32],
    forms: &[Form],
) -> Result<Vec<Form>, AllocError>
    ensures { IfOk result (λ found. found.items
        ≡ values_with (constant_form room (pos 0)) variables.now forms.now) }
{
    let mut found = Vec::new(alloc);
    for x in variables {
        found.push(variable(alloc, room, forms, *x)?)?;
    }
    Ok(found)
}
