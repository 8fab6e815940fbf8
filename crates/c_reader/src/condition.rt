//! One expression that is all of its tokens, as the condition on inputs is.
ghost use Rattle.std.specs.Prelude.{◌≡◌, ◌≤◌, ◌<◌, IfOk, IsErrOf};
ghost use Rattle.c_ast.specs.RawTree.{RawExpression};
ghost use Rattle.c_ast.specs.RawShape.{HasNaturalConstants};
ghost use Rattle.c_ast.specs.RawView.{raw_expression_of};
ghost use Rattle.c_reader.specs.Expressions.{SpellsExpression, expression_depth, HasOneExpression};
ghost use Rattle.c_reader.specs.Depth.{IsDeep};

use crate::ReadFault;
use crate::depth::{MOST_LEVELS, is_deep};
use crate::expression::read_shallow;
use c_ast::RawExpr;
use c_tokens::Token;
use std::alloc::Global;

/// The expression that the tokens spell, all of them.
///
/// Its tree has at most 400 levels, and in no prefix of the tokens do the openings `(` and `{`
/// exceed the closings `)` and `}` by more than 200. Each answer comes exactly where it is so,
/// unless memory runs out, as with `read_unit`: an expression where the tokens spell one within
/// both limits, `Deep` past the limit of brackets, and `Grammar` otherwise.
pub fn read_expr(alloc: Global, tokens: &[Token]) -> Result<RawExpr, ReadFault>
    // The tokens spell the expression, within both limits.
    ensures spelled { IfOk result (λ expr. SpellsExpression (raw_expression_of expr) tokens.now) }
    ensures shallow { IfOk result (λ expr. expression_depth (raw_expression_of expr) ≤ 400) }
    ensures nested { IfOk result (λ expr. ¬ IsDeep tokens.now) }
    ensures shaped { IfOk result (λ expr. HasNaturalConstants (raw_expression_of expr)) }

    // Why there is none.
    ensures deep { IsErrOf result ReadFault.Deep → IsDeep tokens.now }
    ensures grammar { IsErrOf result ReadFault.Grammar → ¬ IsDeep tokens.now }
    ensures none { IsErrOf result ReadFault.Grammar → (e : RawExpression) →
        SpellsExpression e tokens.now → 400 < expression_depth e }
{
    if is_deep(tokens) {
        return Err(ReadFault::Deep);
    }
    let (expr, others) = read_shallow(alloc, MOST_LEVELS, tokens)?;
    if !others.is_empty() {
        return Err(ReadFault::Grammar);
    }
    Ok(expr)
}

/// A law: tokens spell one expression at most.
pub fn one_expression()
    ensures { HasOneExpression }
{}
