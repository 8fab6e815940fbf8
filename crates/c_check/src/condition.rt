//! A condition on the inputs of a function: an expression over its parameters.
//!
//! The rules on names and divisors are those of a function's own expressions (`expression`), where
//! the parameters alone are in scope.
ghost use Rattle.std.specs.Prelude.{◌≡◌, IfOk, IfErr};
ghost use Rattle.c_ast.specs.RawShape.{HasNaturalConstants};
ghost use Rattle.c_ast.specs.RawView.{raw_expression_of};
ghost use Rattle.c_ast.specs.View.{expression_of};
ghost use Rattle.c_ast.specs.Function.{IsFunction};
ghost use Rattle.c_ast.specs.Comparison.{IsCondition};
ghost use Rattle.c_check.specs.Condition.{parameters, IsCheckedCondition, IsConditionFault};

use crate::CheckFault;
use crate::resolver::Resolver;
use c_ast::{Expr, Func, RawExpr, Var};
use std::alloc::Global;

/// The parameters of a function: the first of its variables.
fn parameters(func: &Func) -> &[Var]
    ensures parameters { result.now ≡ parameters func.now }
    ensures formed { IsFunction func.now }
{
    // A clause of `body` says that the function is well formed: each parameter is a variable.
    let _ = func.body();
    &func.vars()[..func.params() as usize]
}

/// The expression over the parameters of the function that the condition stands for. Its constants
/// are such as a grammar gives. A refused condition is dropped.
pub fn check_condition(alloc: Global, raw: RawExpr, func: &Func) -> Result<Expr, CheckFault>
    requires natural { HasNaturalConstants (raw_expression_of raw) }

    // What the condition stands for, in which no rule is broken.
    ensures checked { IfOk result
        (λ made. IsCheckedCondition func.now (raw_expression_of raw) (expression_of made)) }
    ensures formed { IfOk result (IsCondition func.now) }

    // Each refusal comes where its cause is the first.
    ensures refused { IfErr result (IsConditionFault func.now (raw_expression_of raw)) }
{
    let mut at = Resolver::new(alloc);
    at.add_all(parameters(func))?;
    let made = at.expression(&raw)?;
    Ok(made)
}
