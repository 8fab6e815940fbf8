//! Declarations (ISO C11, 6.7) and parameters (6.7.6.3), by recursive descent. `room` is the
//! greatest depth.
ghost use Rattle.std.specs.Prelude.{◌≡◌, map, Some, option_map};
ghost use Rattle.c_ast.specs.RawView.{raw_expression_of, raw_declared_of, raw_put_in_front};
ghost use Rattle.c_reader.specs.Gives.{Gives};
ghost use Rattle.c_reader.specs.ReadDeclarations.{shallow_at, optional, begins_type, behind_type, listed_at, declarator_at, declaration_at, parameter_at, parameters_at};
ghost use Rattle.c_reader.specs.Fronts.{behind_sign};
ghost use Rattle.c_tokens.specs.declared.fixed.Fixed.{Fixed};

use crate::ReadFault;
use crate::expression::read_shallow;
use crate::front::{begins, behind_sign, expect, lowered, skipped};
use crate::name::read_name;
use c_ast::{RawDeclarator, RawExpr, RawStmt, Var};
use c_tokens::{Fixed, Token};
use sqlite_items::Items;
use std::alloc::Global;

/// Whether a type stands first.
pub fn begins_type(tokens: &[Token]) -> bool
    ensures { result ≡ begins_type tokens.now }
{
    begins(Fixed::Int, tokens) || begins(Fixed::Long, tokens)
}

/// The tokens behind a type.
///
/// type: "int", or "long" ["long"] ["int"]
#[tactic(auto, unfolding(crate::specs::ReadDeclarations::behind_type))]
pub fn expect_type(tokens: &[Token]) -> Result<&[Token], ReadFault>
    ensures { Gives (λ x. x.now) result (behind_type tokens.now) }
{
    if begins(Fixed::Int, tokens) {
        return expect(Fixed::Int, tokens);
    }
    let others = expect(Fixed::Long, tokens)?;
    Ok(skipped(Fixed::Int, skipped(Fixed::Long, others)))
}

// An initialiser, if one stands first.
fn read_initialiser<'a>(
    alloc: Global,
    room: u32,
    tokens: &'a [Token],
) -> Result<(Option<RawExpr>, &'a [Token]), ReadFault>
    ensures { Gives (λ x. (option_map raw_expression_of x.0, x.1.now)) result
        (optional (behind_sign Fixed.Assign tokens.now) tokens.now (shallow_at room)) }
{
    let Some(others) = behind_sign(Fixed::Assign, tokens) else {
        return Ok((None, tokens));
    };
    let (expr, after) = read_shallow(alloc, room, others)?;
    Ok((Some(expr), after))
}

// declarator: name, or name "=" expr
#[tactic(auto, unfolding(crate::specs::ReadDeclarations::declarator_at))]
fn read_declarator<'a>(
    alloc: Global,
    room: u32,
    tokens: &'a [Token],
) -> Result<(RawDeclarator, &'a [Token]), ReadFault>
    ensures { Gives (λ x. (raw_declared_of x.0, x.1.now)) result (declarator_at room tokens.now) }
{
    let (var, others) = read_name(tokens)?;
    let (initialiser, after) = read_initialiser(alloc, room, others)?;
    Ok((RawDeclarator { var, initialiser }, after))
}

// declarators: declarator, with further ones after ","
fn read_declarators<'a>(
    alloc: Global,
    room: u32,
    tokens: &'a [Token],
) -> Result<(Items<RawDeclarator>, &'a [Token]), ReadFault>
    ensures { Gives (λ x. (map raw_declared_of x.0, x.1.now)) result
        (listed_at (declarator_at room) tokens.now) }
{
    let mut made = Items::new(alloc);
    let mut others = tokens;
    loop {
        let (declarator, after) = read_declarator(alloc, room, others)?;
        made.push(declarator)?;
        let Some(behind_comma) = behind_sign(Fixed::Comma, after) else {
            return Ok((made, after));
        };
        others = behind_comma;
    }
}

/// A declaration, without the `;` behind it.
///
/// declaration: type declarators
#[tactic(auto, unfolding(crate::specs::ReadDeclarations::declaration_at))]
pub fn read_declaration<'a>(
    alloc: Global,
    room: u32,
    tokens: &'a [Token],
) -> Result<(RawStmt, &'a [Token]), ReadFault>
    ensures { Gives (λ x. (raw_put_in_front x.0, x.1.now)) result (declaration_at room tokens.now) }
{
    let inside = lowered(room)?;
    let others = expect_type(tokens)?;
    let (declarators, after) = read_declarators(alloc, inside, others)?;
    Ok((RawStmt::Declare(declarators), after))
}

// parameter: type name
#[tactic(auto, unfolding(crate::specs::ReadDeclarations::parameter_at))]
fn read_parameter(tokens: &[Token]) -> Result<(Var, &[Token]), ReadFault>
    ensures { Gives (λ x. (x.0, x.1.now)) result (parameter_at tokens.now) }
{
    read_name(expect_type(tokens)?)
}

// parameter, with further ones after ","
fn read_listed(alloc: Global, tokens: &[Token]) -> Result<(Items<Var>, &[Token]), ReadFault>
    ensures { Gives (λ x. (x.0, x.1.now)) result (listed_at parameter_at tokens.now) }
{
    let mut made = Items::new(alloc);
    let mut others = tokens;
    loop {
        let (var, after) = read_parameter(others)?;
        made.push(var)?;
        let Some(behind_comma) = behind_sign(Fixed::Comma, after) else {
            return Ok((made, after));
        };
        others = behind_comma;
    }
}

/// The parameters of a function, with the `)` that ends them.
///
/// params: nothing, or "void", or parameters
#[tactic(auto, unfolding(crate::specs::ReadDeclarations::parameters_at))]
pub fn read_parameters(alloc: Global, tokens: &[Token]) -> Result<(Items<Var>, &[Token]), ReadFault>
    ensures { Gives (λ x. (x.0, x.1.now)) result (parameters_at tokens.now) }
{
    if let Some(others) = behind_sign(Fixed::CloseRound, skipped(Fixed::Void, tokens)) {
        return Ok((Items::new(alloc), others));
    }
    let (vars, after) = read_listed(alloc, tokens)?;
    let others = expect(Fixed::CloseRound, after)?;
    Ok((vars, others))
}
