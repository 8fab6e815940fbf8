//! Files of functions (ISO C11, 6.9), by recursive descent. `room` is the greatest depth of what
//! stands in a block.
ghost use Rattle.std.specs.Prelude.{◌≡◌, ◌≤◌, ◌<◌, ◌++◌, List, All, map, option_map, option_to_list, IfOk, IsErrOf, OnOk};
ghost use Rattle.c_ast.specs.RawTree.{RawFunction};
ghost use Rattle.c_ast.specs.RawShape.{IsShaped};
ghost use Rattle.c_ast.specs.RawView.{raw_function_of};
ghost use Rattle.c_reader.specs.Gives.{Gives};
ghost use Rattle.c_reader.specs.Fronts.{begins};
ghost use Rattle.c_reader.specs.Units.{SpellsUnit, HasOneTree};
ghost use Rattle.c_reader.specs.Depth.{IsDeep, unit_depth};
ghost use Rattle.c_reader.specs.ReadDeclarations.{unless, name_at};
ghost use Rattle.c_reader.specs.ReadUnits.{unqualified, mark_declaration_at, function_at, item_at, unit_at};
ghost use Rattle.c_tokens.specs.declared.fixed.Fixed.{Fixed};

use crate::ReadFault;
use crate::declaration::{expect_type, read_parameters};
use crate::depth::{MOST_LEVELS, is_deep};
use crate::front::{begins, behind_either, behind_sign, expect, wanted};
use crate::name::{name_at, read_name};
use crate::statement::read_entries;
use c_ast::{RawFunc, RawUnit, Var};
use c_tokens::{Fixed, Token};
use sqlite_items::Items;
use std::alloc::{AllocError, Global};

// The tokens without the qualifiers at the front.
fn unqualified(tokens: &[Token]) -> &[Token]
    ensures { result.now ≡ unqualified tokens.now }
{
    let mut others = tokens;
    while let Some(after) = behind_either(Fixed::Extern, Fixed::Static, others) {
        others = after;
    }
    others
}

// The tokens behind a name, if one stands before a ")".
fn skip_name(tokens: &[Token]) -> Result<&[Token], ReadFault>
    ensures { Gives (λ x. x.now) result
        (option_map (λ x. x.1) (unless (begins Fixed.CloseRound tokens.now) tokens.now name_at)) }
{
    if begins(Fixed::CloseRound, tokens) {
        return Ok(tokens);
    }
    let (_, _, others) = wanted(name_at(tokens))?;
    Ok(others)
}

// "(" type [name] ")" ";", behind "__mark"
#[tactic(auto, unfolding(crate::specs::ReadUnits::mark_declaration_at))]
fn skip_mark_declaration(tokens: &[Token]) -> Result<&[Token], ReadFault>
    ensures { Gives (λ x. x.now) result (mark_declaration_at tokens.now) }
{
    let head = expect(Fixed::OpenRound, tokens)?;
    let others = expect_type(head)?;
    let others = skip_name(others)?;
    let last = expect(Fixed::CloseRound, others)?;
    expect(Fixed::Semicolon, last)
}

// name "(" params ")" block
#[tactic(auto, unfolding(crate::specs::ReadUnits::function_at))]
fn read_function<'a>(
    alloc: Global,
    room: u32,
    tokens: &'a [Token],
) -> Result<(RawFunc, &'a [Token]), ReadFault>
    ensures { Gives (λ x. (raw_function_of x.0, x.1.now)) result (function_at room tokens.now) }
{
    let (var, others) = read_name(tokens)?;
    let head = expect(Fixed::OpenRound, others)?;
    let (params, others) = read_parameters(alloc, head)?;
    let block = expect(Fixed::OpenCurly, others)?;
    let (body, after) = read_entries(alloc, room, block)?;
    let Var { name, line } = var;
    let func = RawFunc {
        name,
        line,
        params,
        body,
    };
    Ok((func, after))
}

// item: qualifier* type, then a function from its name on, or a declaration of `__mark`
#[tactic(auto, unfolding(crate::specs::ReadUnits::item_at))]
fn read_item<'a>(
    alloc: Global,
    room: u32,
    tokens: &'a [Token],
) -> Result<(Option<RawFunc>, &'a [Token]), ReadFault>
    ensures { Gives (λ x. (option_map raw_function_of x.0, x.1.now)) result
        (item_at room tokens.now) }
{
    let others = expect_type(unqualified(tokens))?;
    if let Some(behind_word) = behind_sign(Fixed::MarkWord, others) {
        let after = skip_mark_declaration(behind_word)?;
        return Ok((None, after));
    }
    let (func, after) = read_function(alloc, room, others)?;
    Ok((Some(func), after))
}

// Adds the function, if there is one: a declaration of `__mark` gives none.
fn push_some(funcs: &mut Items<RawFunc>, func: Option<RawFunc>) -> Result<(), AllocError>
    ensures { OnOk result (funcs.new ≡ funcs.old ++ option_to_list func) }
{
    if let Some(func) = func {
        funcs.push(func)?;
    }
    Ok(())
}

// All functions of the tokens.
fn read_items(alloc: Global, room: u32, tokens: &[Token]) -> Result<Items<RawFunc>, ReadFault>
    ensures { Gives (map raw_function_of) result (unit_at room tokens.now) }
{
    let mut funcs = Items::new(alloc);
    let mut others = tokens;
    while !others.is_empty() {
        let (func, after) = read_item(alloc, room, others)?;
        push_some(&mut funcs, func)?;
        others = after;
    }
    Ok(funcs)
}

/// The functions that the tokens spell.
///
/// A tree has at most 400 levels, and in no prefix of the tokens do the openings `(` and `{` exceed
/// the closings `)` and `}` by more than 200. Each answer comes exactly where it is so, unless
/// memory runs out: a unit where the tokens spell one within both limits, `Deep` past the limit of
/// brackets, and `Grammar` otherwise. A constant of 2^63 or more is in no expression.
pub fn read_unit(alloc: Global, tokens: &[Token]) -> Result<RawUnit, ReadFault>
    // The tokens spell the unit, within both limits.
    ensures spelled { IfOk result (λ unit. SpellsUnit tokens.now (map raw_function_of unit.funcs)) }
    ensures shallow { IfOk result (λ unit. unit_depth (map raw_function_of unit.funcs) ≤ 400) }
    ensures nested { IfOk result (λ unit. ¬ IsDeep tokens.now) }
    ensures shaped { IfOk result (λ unit. All IsShaped (map raw_function_of unit.funcs)) }

    // Why there is none.
    ensures deep { IsErrOf result ReadFault.Deep → IsDeep tokens.now }
    ensures grammar { IsErrOf result ReadFault.Grammar → ¬ IsDeep tokens.now }
    ensures none { IsErrOf result ReadFault.Grammar → (unit : List RawFunction) →
        SpellsUnit tokens.now unit → 400 < unit_depth unit }
{
    if is_deep(tokens) {
        return Err(ReadFault::Deep);
    }
    // A function's block adds 1 to the depth of what stands in it.
    let funcs = read_items(alloc, MOST_LEVELS - 1, tokens)?;
    Ok(RawUnit { funcs })
}

/// A law: tokens spell one list of functions at most.
pub fn one_tree()
    ensures { HasOneTree }
{}
