//! The function of a file, or why it has none.
//!
//! A file holds one function. The number of its variables is judged last, where it has no other
//! fault.
ghost use Rattle.std.specs.Prelude.{◌≡◌, [], ◌∷◌, All, map, MatchResult, IfOk, IfErr, IfSome};
ghost use Rattle.c_ast.specs.RawShape.{IsShaped};
ghost use Rattle.c_ast.specs.RawView.{raw_function_of};
ghost use Rattle.c_ast.specs.View.{statements_of};
ghost use Rattle.c_check.specs.declared.fault.CheckFault.TheVariants as fault;
ghost use Rattle.c_check.specs.Checked.{IsChecked, IsCheckFault, Checks};
ghost use Rattle.c_check.specs.Resolving.{function_at, parameters_at, HasParts, Fails, Gives};

use crate::CheckFault;
use crate::resolver::Resolver;
use c_ast::{Func, RawFunc, RawUnit, Stmt, Var};
use sqlite_items::Items;
use std::alloc::Global;

/// A function may have so many variables.
const VARIABLES: usize = 64;

/// Declares the parameters.
fn parameters(at: &mut Resolver, params: &[Var]) -> Result<(), CheckFault>
    ensures { Gives (λ _. at.new) result (parameters_at at.old params.now) }
{
    for param in params {
        at.declare(param)?;
    }
    Ok(())
}

/// The variables and the statements of a function.
#[derive(Drop)]
struct Parts {
    vars: Items<Var>,
    body: Items<Stmt>,
}

/// Goes over a function: its parameters, then its body.
fn resolve(alloc: Global, func: &RawFunc) -> Result<Parts, CheckFault>
    ensures { MatchResult result
        (λ found. HasParts (function_at alloc (raw_function_of func.now))
        found.vars (statements_of found.body))
        (Fails (function_at alloc (raw_function_of func.now))) }
{
    let mut at = Resolver::new(alloc);
    parameters(&mut at, func.params.as_slice())?;
    let body = at.items(false, func.body.as_slice())?;
    Ok(Parts {
        vars: at.vars,
        body,
    })
}

/// The same elements in a vector.
fn vec_of<T: Drop>(alloc: Global, items: Items<T>) -> Result<Vec<T>, CheckFault>
    ensures same { IfOk result (λ found. found.items ≡ items) }
    ensures memory { IfErr result (λ first. first ≡ fault.Memory) }
{
    let mut left = items;
    let mut found = Vec::new(alloc);
    while let Some(item) = left.pop() {
        found.push(item)?;
    }
    found.reverse();
    Ok(found)
}

/// So many, which is more than there may be.
fn many(count: usize) -> Option<u32>
    ensures { IfSome result (λ number. number ≡ count) }
{
    if count <= u32::MAX as usize {
        Some(count as u32)
    } else {
        None
    }
}

/// The function of a file that holds this one alone.
fn check_function(alloc: Global, func: &RawFunc) -> Result<Func, CheckFault>
    requires shaped { IsShaped (raw_function_of func.now) }
    ensures { MatchResult result
        (IsChecked (raw_function_of func.now))
        (IsCheckFault (raw_function_of func.now ∷ [])) }
{
    let found = resolve(alloc, func)?;
    let count = found.vars.len();
    if count > VARIABLES {
        return match many(count) {
            Some(count) => Err(CheckFault::ManyVariables(count)),
            None => Err(CheckFault::Memory),
        };
    }
    let name = func.name.copy()?;
    let vars = vec_of(alloc, found.vars)?;
    let body = vec_of(alloc, found.body)?;
    Ok(Func::new(name, func.params.len() as u32, vars, body))
}

/// The function that the file stands for, with names resolved, divisors by their sizes, loops in
/// one form and automatic marks set. The unit is of the shape that a grammar gives. A refused unit
/// is dropped.
pub fn check(alloc: Global, raw: RawUnit) -> Result<Func, CheckFault>
    requires shaped { All IsShaped (map raw_function_of raw.funcs) }

    // The one function of the file, in which no rule is broken.
    ensures checked { IfOk result (Checks (map raw_function_of raw.funcs)) }

    // Each refusal comes where its cause is the first.
    ensures refused { IfErr result (IsCheckFault (map raw_function_of raw.funcs)) }
{
    match raw.funcs.as_slice() {
        [] => Err(CheckFault::NoFunction),
        [func] => check_function(alloc, func),
        funcs => match many(funcs.len()) {
            Some(count) => Err(CheckFault::ManyFunctions(count)),
            None => Err(CheckFault::Memory),
        },
    }
}
