//! The condition of a text: its tokens, their tree, and the tree over a function's parameters.
ghost use Rattle.std.specs.Prelude.{◌≡◌, ◌≤◌, ◌⊎◌, length, IfOk, IfErr, MatchResult};
ghost use Rattle.c_ast.specs.declared.expr.Expr.{Expr};
ghost use Rattle.c_ast.specs.Comparison.{IsCondition};
ghost use Rattle.c_source.specs.declared.fault.TextFault.{TextFault};
ghost use Rattle.c_source.specs.ReadsCondition.{ReadsCondition, IsConditionRefusal, IsConditionTextFault};

use crate::TextFault;
use c_ast::{Expr, Func};
use c_check::check_condition;
use c_reader::read_expr;
use c_tokens::tokens;
use std::alloc::Global;

// What comes is so: that nothing else comes follows from the laws.
fn condition(alloc: Global, text: &[u8], func: &Func) -> Result<Expr, TextFault>
    requires { length text.now ≤ 65536 }
    ensures read { IfOk result (ReadsCondition func.now text.now) }
    ensures formed { IfOk result (IsCondition func.now) }
    ensures refused { IfErr result (IsConditionTextFault func.now text.now) }
{
    let tokens = tokens(alloc, text)?;
    let expr = read_expr(alloc, &tokens)?;
    Ok(check_condition(alloc, expr, func)?)
}

/// The condition on the inputs of `func` that a text is read as, or why it is read as none: its
/// first faulty place, then what is wrong with its tokens, then the first rule that its tree
/// breaks. The text has at most 65,536 bytes.
pub fn read_condition(alloc: Global, text: &[u8], func: &Func) -> Result<Expr, TextFault>
    requires { length text.now ≤ 65536 }

    // What comes is so.
    ensures read { IfOk result (ReadsCondition func.now text.now) }
    ensures formed { IfOk result (IsCondition func.now) }
    ensures refused { IfErr result (IsConditionTextFault func.now text.now) }

    // A text that is read as a condition gives it, unless memory ran out.
    ensures only { (made : Expr) → ReadsCondition func.now text.now made →
        MatchResult result (λ given. given ≡ made) (λ fault. fault ≡ TextFault.Memory) }

    // A text that is refused gives its refusal, unless memory ran out.
    ensures only_fault { (fault : TextFault) → IsConditionRefusal func.now text.now fault →
        MatchResult result (λ given. ⊥) (λ given. (given ≡ fault) ⊎ (given ≡ TextFault.Memory)) }
{
    condition(alloc, text, func)
}
