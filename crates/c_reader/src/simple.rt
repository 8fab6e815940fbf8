//! Assignments (ISO C11, 6.5.16), marks and conditions, by recursive descent. `room` is the
//! greatest depth.
ghost use Rattle.std.specs.Prelude.{◌≡◌, IfOk};
ghost use Rattle.c_ast.specs.RawTree.{Bin};
ghost use Rattle.c_ast.specs.RawView.{raw_expression_of, raw_condition_of, raw_put_in_front};
ghost use Rattle.c_reader.specs.Gives.{Gives};
ghost use Rattle.c_reader.specs.Statements.{update_of, step_of, updated};
ghost use Rattle.c_reader.specs.ReadStatements.{increment_at, change_at, simple_at, constant_at, mark_at, condition_at, start_at};

use crate::ReadFault;
use crate::declaration::{begins_type, read_declaration};
use crate::expression::read_shallow;
use crate::front::{behind_sign, expect, expect_either, first_of, lowered, wanted};
use crate::name::name_at;
use c_ast::{BinOp, Name, RawCond, RawExpr, RawStmt};
use c_tokens::{Fixed, Kind, Token};
use sqlite_items::Boxed;
use std::alloc::{AllocError, Global};

// The operation of `+=`, `-=`, `*=`, `/=` or `%=`.
fn update_of(kind: &Kind) -> Option<BinOp>
    ensures { result ≡ update_of kind.now }
{
    match kind {
        Kind::PlusAssign => Some(BinOp::Add),
        Kind::MinusAssign => Some(BinOp::Sub),
        Kind::StarAssign => Some(BinOp::Mul),
        Kind::SlashAssign => Some(BinOp::Div),
        Kind::PercentAssign => Some(BinOp::Rem),
        _ => None,
    }
}

// The operation of `++` or `--`.
fn step_of(kind: &Kind) -> Option<BinOp>
    ensures { result ≡ step_of kind.now }
{
    match kind {
        Kind::PlusPlus => Some(BinOp::Add),
        Kind::MinusMinus => Some(BinOp::Sub),
        _ => None,
    }
}

// An operation of a variable and an expression is assigned to the variable.
fn updated(
    alloc: Global,
    name: &Name,
    line: u32,
    op: BinOp,
    operator_line: u32,
    expr: RawExpr,
) -> Result<RawStmt, AllocError>
    ensures { IfOk result (λ stmt.
        raw_put_in_front stmt ≡ updated name.now line op operator_line (raw_expression_of expr)) }
{
    let left = Boxed::new(alloc, RawExpr::Var(name.copy()?, line))?;
    let right = Boxed::new(alloc, expr)?;
    let value = RawExpr::Bin(op, operator_line, left, right);
    Ok(RawStmt::Assign(name.copy()?, line, value))
}

// `x++` and its like, where there is room.
#[tactic(auto, unfolding(crate::specs::ReadStatements::increment_at))]
fn read_increment<'a>(
    alloc: Global,
    room: u32,
    name: &Name,
    line: u32,
    op: BinOp,
    operator_line: u32,
    tokens: &'a [Token],
) -> Result<(RawStmt, &'a [Token]), ReadFault>
    ensures { Gives (λ x. (raw_put_in_front x.0, x.1.now)) result
        (increment_at room name.now line op operator_line tokens.now) }
{
    // `x + 1` has two levels.
    lowered(lowered(room)?)?;
    let stmt = updated(alloc, name, line, op, operator_line, RawExpr::Num(1))?;
    Ok((stmt, tokens))
}

// The rest of an assignment behind its name.
#[tactic(auto, unfolding(crate::specs::ReadStatements::change_at))]
fn read_change<'a>(
    alloc: Global,
    room: u32,
    name: &Name,
    line: u32,
    tokens: &'a [Token],
) -> Result<(RawStmt, &'a [Token]), ReadFault>
    ensures { Gives (λ x. (raw_put_in_front x.0, x.1.now)) result
        (change_at room name.now line tokens.now) }
{
    let (sign, others) = first_of(tokens)?;
    if sign.kind.is(Fixed::Assign) {
        let (expr, after) = read_shallow(alloc, room, others)?;
        let name = name.copy()?;
        return Ok((RawStmt::Assign(name, line, expr), after));
    }
    if let Some(op) = update_of(&sign.kind) {
        let (expr, after) = read_shallow(alloc, room.saturating_sub(1), others)?;
        let stmt = updated(alloc, name, line, op, sign.line, expr)?;
        return Ok((stmt, after));
    }
    let op = wanted(step_of(&sign.kind))?;
    read_increment(alloc, room, name, line, op, sign.line, others)
}

/// An assignment, without the `;` behind it.
///
/// simple: name ("=" | "+=" | "-=" | "*=" | "/=" | "%=") expr, name ("++" | "--"), or ("++" | "--")
/// name
#[tactic(auto, unfolding(crate::specs::ReadStatements::simple_at))]
pub fn read_simple<'a>(
    alloc: Global,
    room: u32,
    tokens: &'a [Token],
) -> Result<(RawStmt, &'a [Token]), ReadFault>
    ensures { Gives (λ x. (raw_put_in_front x.0, x.1.now)) result (simple_at room tokens.now) }
{
    let inside = lowered(room)?;
    let (first, others) = first_of(tokens)?;
    if let Kind::Word(name) = &first.kind {
        return read_change(alloc, inside, name, first.line, others);
    }
    let op = wanted(step_of(&first.kind))?;
    let (name, line, after) = wanted(name_at(others))?;
    read_increment(alloc, inside, name, line, op, first.line, after)
}

// The constant that stands first.
fn constant_at(tokens: &[Token]) -> Result<(u64, &[Token]), ReadFault>
    ensures { Gives (λ x. (x.0, x.1.now)) result (constant_at tokens.now) }
{
    let (first, others) = first_of(tokens)?;
    match &first.kind {
        Kind::Constant(value) => Ok((*value, others)),
        _ => wanted(None),
    }
}

/// The number of a mark, behind its word.
///
/// mark: "__mark" "(" constant ")"
#[tactic(auto, unfolding(crate::specs::ReadStatements::mark_at))]
pub fn read_mark(tokens: &[Token]) -> Result<(u64, &[Token]), ReadFault>
    ensures { Gives (λ x. (x.0, x.1.now)) result (mark_at tokens.now) }
{
    let others = expect(Fixed::OpenRound, tokens)?;
    let (number, others) = constant_at(others)?;
    let after = expect(Fixed::CloseRound, others)?;
    Ok((number, after))
}

/// The condition of a loop.
///
/// cond: expr, or mark ("&" | "&&") expr
#[tactic(auto, unfolding(crate::specs::ReadStatements::condition_at))]
pub fn read_condition<'a>(
    alloc: Global,
    room: u32,
    tokens: &'a [Token],
) -> Result<(RawCond, &'a [Token]), ReadFault>
    ensures { Gives (λ x. (raw_condition_of x.0, x.1.now)) result (condition_at room tokens.now) }
{
    let Some(others) = behind_sign(Fixed::MarkWord, tokens) else {
        let (cond, after) = read_shallow(alloc, room, tokens)?;
        return Ok((RawCond { mark: None, cond }, after));
    };
    let (number, others) = read_mark(others)?;
    let others = expect_either(Fixed::Amp, Fixed::AmpAmp, others)?;
    let (cond, after) = read_shallow(alloc, room, others)?;
    let mark = Some(number);
    Ok((RawCond { mark, cond }, after))
}

/// The first part of the head of a `for`: a declaration or an assignment.
#[tactic(auto, unfolding(crate::specs::ReadStatements::start_at))]
pub fn read_start<'a>(
    alloc: Global,
    room: u32,
    tokens: &'a [Token],
) -> Result<(RawStmt, &'a [Token]), ReadFault>
    ensures { Gives (λ x. (raw_put_in_front x.0, x.1.now)) result (start_at room tokens.now) }
{
    if begins_type(tokens) {
        read_declaration(alloc, room, tokens)
    } else {
        read_simple(alloc, room, tokens)
    }
}
