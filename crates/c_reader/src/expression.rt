//! Expressions (ISO C11, 6.5.1 to 6.5.15), by recursive descent.
ghost use Rattle.std.specs.Prelude.{◌≡◌, pos, ◌+◌, ◌-◌, ◌<◌, ◌≤◌, ◌^◌, max, length, Some, None, IfOk, IfErr, IfSome, option_map};
ghost use Rattle.c_ast.specs.RawTree.{Num, Named, Un, Bin, Cond};
ghost use Rattle.c_ast.specs.RawView.{raw_expression_of};
ghost use Rattle.c_reader.specs.Expressions.{expression_depth};
ghost use Rattle.c_reader.specs.Faults.{Refuses};
ghost use Rattle.c_reader.specs.Gives.{Gives};
ghost use Rattle.c_reader.specs.ReadExpressions.{next_operator, operand_at, level_at, expression_at, IsDeeper};
ghost use Rattle.c_reader.specs.ReadDeclarations.{shallow_at};

use crate::ReadFault;
use crate::front::{behind_sign, expect, first_of, lowered, wanted};
use crate::operators::{LOOSEST, operator_of, unary_of};
use c_ast::{BinOp, Name, RawExpr, UnOp};
use c_tokens::{Fixed, Kind, Token};
use sqlite_items::Boxed;
use std::alloc::{AllocError, Global};

/// An expression, and its depth.
#[derive(Drop)]
pub struct Tree {
    pub expr: RawExpr,
    pub depth: u32,
    ghost measured: { depth ≡ expression_depth (raw_expression_of expr) },
}

/// A binary operator of a level or a tighter one at the front: its level, its operation, its line,
/// and the tokens behind it.
fn next_operator(level: u32, tokens: &[Token]) -> Option<(u32, BinOp, u32, &[Token])>
    ensures next { option_map (λ x. (x.0, x.1, x.2, x.3.now)) result
        ≡ next_operator level tokens.now }
    ensures shorter { IfSome result (λ x. length x.3.now < length tokens.now) }
    ensures level { IfSome result (λ x. x.0 ≤ 6) }
{
    let (token, behind) = tokens.split_first()?;
    let (at, op) = operator_of(&token.kind)?;
    if level <= at {
        Some((at, op, token.line, behind))
    } else {
        None
    }
}

// A name with its line.
fn named(name: Name, line: u32) -> Tree
    ensures made { raw_expression_of result.expr ≡ Named name line }
    ensures depth { result.depth ≡ 1 }
{
    Tree {
        expr: RawExpr::Var(name, line),
        depth: 1,
    }
}

// A constant below 2^63.
fn constant(value: u64) -> Option<Tree>
    ensures made { IfSome result (λ tree. raw_expression_of tree.expr ≡ Num (pos value)) }
    ensures depth { IfSome result (λ tree. tree.depth ≡ 1) }
    ensures below { IfSome result (λ tree. value < 2 ^ 63) }
    ensures wide { result ≡ None → 2 ^ 63 ≤ value }
{
    if value > i64::MAX as u64 {
        return None;
    }
    Some(Tree {
        expr: RawExpr::Num(value as i64),
        depth: 1,
    })
}

// A sign with its operand.
fn signed(alloc: Global, op: UnOp, operand: Tree) -> Result<Tree, AllocError>
    requires { operand.depth + 1 < 2 ^ 32 }
    ensures made { IfOk result (λ tree.
        raw_expression_of tree.expr ≡ Un op (raw_expression_of operand.expr)) }
    ensures depth { IfOk result (λ tree. tree.depth ≡ operand.depth + 1) }
{
    let depth = operand.depth + 1;
    let operand = Boxed::new(alloc, operand.expr)?;
    Ok(Tree {
        expr: RawExpr::Un(op, operand),
        depth,
    })
}

// An operation with its line and its operands.
fn joined(alloc: Global, op: BinOp, line: u32, left: Tree, right: Tree) -> Result<Tree, AllocError>
    requires { max left.depth right.depth + 1 < 2 ^ 32 }
    ensures made { IfOk result (λ tree. raw_expression_of tree.expr
        ≡ Bin op line (raw_expression_of left.expr) (raw_expression_of right.expr)) }
    ensures depth { IfOk result (λ tree. tree.depth ≡ max left.depth right.depth + 1) }
{
    let depth = left.depth.max(right.depth) + 1;
    let left = Boxed::new(alloc, left.expr)?;
    let right = Boxed::new(alloc, right.expr)?;
    Ok(Tree {
        expr: RawExpr::Bin(op, line, left, right),
        depth,
    })
}

// A choice with its condition and its values.
fn chosen(alloc: Global, cond: Tree, first: Tree, second: Tree) -> Result<Tree, AllocError>
    requires { max cond.depth (max first.depth second.depth) + 1 < 2 ^ 32 }
    ensures made { IfOk result (λ tree. raw_expression_of tree.expr
        ≡ Cond (raw_expression_of cond.expr) (raw_expression_of first.expr)
        (raw_expression_of second.expr)) }
    ensures depth { IfOk result (λ tree.
        tree.depth ≡ max cond.depth (max first.depth second.depth) + 1) }
{
    let depth = cond.depth.max(first.depth.max(second.depth)) + 1;
    let cond = Boxed::new(alloc, cond.expr)?;
    let first = Boxed::new(alloc, first.expr)?;
    let second = Boxed::new(alloc, second.expr)?;
    Ok(Tree {
        expr: RawExpr::Cond(cond, first, second),
        depth,
    })
}

// The room for the other parts of an expression that has a part of this depth.
fn room_beside(depth: u32, room: u32) -> Result<u32, ReadFault>
    ensures room { IfOk result (λ inside. inside + 1 ≡ room) }
    ensures beside { IfOk result (λ inside. depth ≤ inside) }
    ensures refused { IfErr result (Refuses (room ≤ depth)) }
{
    if depth < room {
        Ok(room - 1)
    } else {
        Err(ReadFault::Grammar)
    }
}

// primary: name, constant, or "(" expr ")"
// unary: primary, or ("+" | "-" | "!") unary
#[cycle(expression)]
fn read_operand<'a>(
    alloc: Global,
    room: u32,
    tokens: &'a [Token],
) -> Result<(Tree, &'a [Token]), ReadFault>
    ensures read { IfOk result (λ x.
        operand_at tokens.now ≡ Some (raw_expression_of x.0.expr, x.1.now)) }
    ensures within { IfOk result (λ x. x.0.depth ≤ room) }
    ensures shorter { IfOk result (λ x. length x.1.now < length tokens.now) }
    ensures refused { IfErr result (Refuses (IsDeeper room (operand_at tokens.now))) }
{
    let below = lowered(room)?;
    let (token, others) = first_of(tokens)?;
    match &token.kind {
        Kind::Word(name) => Ok((named(name.copy()?, token.line), others)),
        Kind::Constant(value) => {
            let tree = wanted(constant(*value))?;
            Ok((tree, others))
        }
        Kind::OpenRound => {
            let (inside, after) = read_expression(alloc, room, others)?;
            let after = expect(Fixed::CloseRound, after)?;
            Ok((inside, after))
        }
        kind => {
            let op = wanted(unary_of(kind))?;
            let (operand, after) = read_operand(alloc, below, others)?;
            Ok((signed(alloc, op, operand)?, after))
        }
    }
}

// The operations of a level and of tighter ones.
//
// or-expr: and-expr, or or-expr "||" and-expr
// and-expr: eq-expr, or and-expr "&&" eq-expr
// eq-expr: rel-expr, or eq-expr ("==" | "!=") rel-expr
// rel-expr: sum, or rel-expr ("<" | "<=" | ">" | ">=") sum
// sum: term, or sum ("+" | "-") term
// term: unary, or term ("*" | "/" | "%") unary
//
// Each right operand is of the level above its operator's, so equal levels group to the left.
#[cycle(expression)]
fn read_level<'a>(
    alloc: Global,
    room: u32,
    level: u32,
    tokens: &'a [Token],
) -> Result<(Tree, &'a [Token]), ReadFault>
    ensures read { IfOk result (λ x.
        level_at level tokens.now ≡ Some (raw_expression_of x.0.expr, x.1.now)) }
    ensures within { IfOk result (λ x. x.0.depth ≤ room) }
    ensures shorter { IfOk result (λ x. length x.1.now < length tokens.now) }
    ensures refused { IfErr result (Refuses (IsDeeper room (level_at level tokens.now))) }
{
    let (mut left, mut others) = read_operand(alloc, room, tokens)?;
    while let Some((at, op, line, behind)) = next_operator(level, others) {
        let inside = room_beside(left.depth, room)?;
        let (right, after) = read_level(alloc, inside, at + 1, behind)?;
        left = joined(alloc, op, line, left, right)?;
        others = after;
    }
    Ok((left, others))
}

/// The longest expression at the front of the tokens, and the tokens behind it. Its depth is at
/// most `room`.
///
/// expr: or-expr, or or-expr "?" expr ":" expr
///
/// `Grammar`: no expression stands there, or the longest one is deeper. It is never `Deep`.
#[cycle(expression)]
pub fn read_expression<'a>(
    alloc: Global,
    room: u32,
    tokens: &'a [Token],
) -> Result<(Tree, &'a [Token]), ReadFault>
    ensures read { IfOk result (λ x.
        expression_at tokens.now ≡ Some (raw_expression_of x.0.expr, x.1.now)) }
    ensures within { IfOk result (λ x. x.0.depth ≤ room) }
    ensures shorter { IfOk result (λ x. length x.1.now < length tokens.now) }
    ensures refused { IfErr result (Refuses (IsDeeper room (expression_at tokens.now))) }
{
    let (cond, others) = read_level(alloc, room, LOOSEST, tokens)?;
    let Some(others) = behind_sign(Fixed::Question, others) else {
        return Ok((cond, others));
    };
    let inside = room_beside(cond.depth, room)?;
    let (first, after) = read_expression(alloc, inside, others)?;
    let after = expect(Fixed::Colon, after)?;
    let (second, after) = read_expression(alloc, inside, after)?;
    Ok((chosen(alloc, cond, first, second)?, after))
}

/// The expression at the front, where its depth is at most `room`.
#[tactic(auto, unfolding(crate::specs::ReadDeclarations::shallow_at))]
pub fn read_shallow<'a>(
    alloc: Global,
    room: u32,
    tokens: &'a [Token],
) -> Result<(RawExpr, &'a [Token]), ReadFault>
    ensures { Gives (λ x. (raw_expression_of x.0, x.1.now)) result (shallow_at room tokens.now) }
{
    let (tree, others) = read_expression(alloc, room, tokens)?;
    let Tree { expr, .. } = tree;
    Ok((expr, others))
}
