//! The forms with which a walk begins.
ghost use Rattle.std.specs.Prelude.{◌≡◌, ◌<◌, ◌≤◌, ◌^◌, ◌&&◌, nat_lt, true, All, length, IfOk};
ghost use Rattle.c_ast.specs.Step.{is_in};
ghost use Rattle.sym_paths.specs.Cases.{start_forms, variables_from};
ghost use Rattle.sym_paths.specs.Starts.{begun, met_after};
ghost use Rattle.sym_paths.specs.Arrivals.{HasRoom};

use crate::forms::number;
use lin_terms::{Form, variable_form};
use std::alloc::{AllocError, Global};

fn is_in(variables: &[u32], x: u32) -> bool
    ensures { result ≡ is_in variables.now x }
{
    for y in variables {
        if *y == x {
            return true;
        }
    }
    false
}

/// Whether the variable is the next one in scope at the start, of which `met` are behind.
fn is_next(variables: &[u32], x: u32, met: usize) -> bool
    ensures { result ≡ (is_in variables.now x && nat_lt met (length variables.now)) }
{
    is_in(variables, x) && met < variables.len()
}

/// The form of the next variable in scope, or of one that is not.
fn begun(alloc: Global, room: usize, is_next: bool, met: usize) -> Result<Form, AllocError>
    requires { is_next ≡ true → met < room }
    ensures { IfOk result (λ form. form ≡ begun room is_next met) }
{
    if is_next {
        variable_form(alloc, room, met)
    } else {
        number(alloc, room, &0)
    }
}

/// How many are behind then.
fn met_after(is_next: bool, met: usize) -> usize
    requires { is_next ≡ true → met < 2 ^ 32 }
    ensures { result ≡ met_after is_next met }
{
    if is_next { met + 1 } else { met }
}

/// The first variables, so many, each as a form of itself.
pub(crate) fn variables(alloc: Global, room: usize, count: u32) -> Result<Vec<Form>, AllocError>
    requires room { count ≤ room }
    requires few { room < 2 ^ 32 }
    ensures forms { IfOk result (λ forms. forms.items ≡ variables_from room 0 count) }
    ensures room { IfOk result (λ forms. All (HasRoom room) forms.items) }
{
    let mut forms = Vec::new(alloc);
    for number in 0..count {
        let form = variable_form(alloc, room, number as usize)?;
        forms.push(form)?;
    }
    Ok(forms)
}

/// Each variable in scope at the start, by rising number, as a form of itself, and each other
/// variable as 0.
pub(crate) fn start_forms(
    alloc: Global,
    room: usize,
    variables: &[u32],
    vars: u32,
) -> Result<Vec<Form>, AllocError>
    requires room { length variables.now ≤ room }
    requires few { room < 2 ^ 32 }
    ensures forms { IfOk result (λ forms. forms.items ≡ start_forms room variables.now vars) }
    ensures room { IfOk result (λ forms. All (HasRoom room) forms.items) }
{
    let mut forms = Vec::new(alloc);
    let mut met = 0;
    for x in 0..vars {
        let is_next = is_next(variables, x, met);
        let form = begun(alloc, room, is_next, met)?;
        forms.push(form)?;
        met = met_after(is_next, met);
    }
    Ok(forms)
}
