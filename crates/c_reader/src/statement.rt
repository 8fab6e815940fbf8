//! Statements (ISO C11, 6.8), by recursive descent. `room` is the greatest depth of what is read.
ghost use Rattle.std.specs.Prelude.{map, option_map};
ghost use Rattle.c_ast.specs.RawView.{raw_condition_of, raw_put_in_front};
ghost use Rattle.c_reader.specs.Gives.{Gives};
ghost use Rattle.c_reader.specs.Fronts.{begins, behind_sign};
ghost use Rattle.c_reader.specs.ReadDeclarations.{optional, unless};
ghost use Rattle.c_reader.specs.ReadStatements.{simple_at, condition_at, start_at, if_at, while_at, do_at, head_at, for_at, ended, entry_at, entries_at, block_at, short_at, statement_at};
ghost use Rattle.c_tokens.specs.declared.fixed.Fixed.{Fixed};

use crate::ReadFault;
use crate::declaration::{begins_type, read_declaration};
use crate::expression::read_shallow;
use crate::front::{begins, behind_sign, expect, wanted};
use crate::simple::{read_condition, read_mark, read_simple, read_start};
use c_ast::{RawCond, RawStmt};
use c_tokens::{Fixed, Kind, Token};
use sqlite_items::{Boxed, Items};
use std::alloc::Global;

// The statement, where a `;` stands first.
fn ended(stmt: RawStmt, tokens: &[Token]) -> Result<(RawStmt, &[Token]), ReadFault>
    ensures { Gives (λ x. (raw_put_in_front x.0, x.1.now)) result
        (ended (raw_put_in_front stmt) tokens.now) }
{
    let others = expect(Fixed::Semicolon, tokens)?;
    Ok((stmt, others))
}

// A statement in which no other stands: ";", "break" ";", "continue" ";", "return" expr ";", mark
// ";", or simple ";"
fn read_short<'a>(
    alloc: Global,
    room: u32,
    tokens: &'a [Token],
) -> Result<(RawStmt, &'a [Token]), ReadFault>
    ensures { Gives (λ x. (raw_put_in_front x.0, x.1.now)) result (short_at room tokens.now) }
{
    if room == 0 {
        return wanted(None);
    }
    let Some((first, others)) = tokens.split_first() else {
        return wanted(None);
    };
    match &first.kind {
        Kind::Semicolon => Ok((RawStmt::Empty, others)),
        Kind::Break => ended(RawStmt::Break(first.line), others),
        Kind::Continue => ended(RawStmt::Continue(first.line), others),
        Kind::Return => {
            let (expr, after) = read_shallow(alloc, room - 1, others)?;
            ended(RawStmt::Return(expr), after)
        }
        Kind::MarkWord => {
            let (number, after) = read_mark(others)?;
            ended(RawStmt::Mark(number), after)
        }
        _ => {
            let (stmt, after) = read_simple(alloc, room, tokens)?;
            ended(stmt, after)
        }
    }
}

// [init]
fn read_first_part<'a>(
    alloc: Global,
    room: u32,
    tokens: &'a [Token],
) -> Result<(Option<Boxed<RawStmt>>, &'a [Token]), ReadFault>
    ensures { Gives (λ x. (option_map raw_put_in_front x.0, x.1.now)) result
        (unless (begins Fixed.Semicolon tokens.now) tokens.now (start_at room)) }
{
    if begins(Fixed::Semicolon, tokens) {
        return Ok((None, tokens));
    }
    let (stmt, after) = read_start(alloc, room, tokens)?;
    let stmt = Boxed::new(alloc, stmt)?;
    Ok((Some(stmt), after))
}

// [cond]
fn read_second_part<'a>(
    alloc: Global,
    room: u32,
    tokens: &'a [Token],
) -> Result<(Option<RawCond>, &'a [Token]), ReadFault>
    ensures { Gives (λ x. (option_map raw_condition_of x.0, x.1.now)) result
        (unless (begins Fixed.Semicolon tokens.now) tokens.now (condition_at room)) }
{
    if begins(Fixed::Semicolon, tokens) {
        return Ok((None, tokens));
    }
    let (cond, after) = read_condition(alloc, room, tokens)?;
    Ok((Some(cond), after))
}

// [simple]
fn read_third_part<'a>(
    alloc: Global,
    room: u32,
    tokens: &'a [Token],
) -> Result<(Option<Boxed<RawStmt>>, &'a [Token]), ReadFault>
    ensures { Gives (λ x. (option_map raw_put_in_front x.0, x.1.now)) result
        (unless (begins Fixed.CloseRound tokens.now) tokens.now (simple_at room)) }
{
    if begins(Fixed::CloseRound, tokens) {
        return Ok((None, tokens));
    }
    let (stmt, after) = read_simple(alloc, room, tokens)?;
    let stmt = Boxed::new(alloc, stmt)?;
    Ok((Some(stmt), after))
}

// The three parts of the head of a `for`.
#[derive(Drop)]
struct Head {
    start: Option<Boxed<RawStmt>>,
    cond: Option<RawCond>,
    step: Option<Boxed<RawStmt>>,
}

// "(" [init] ";" [cond] ";" [simple] ")"
#[tactic(auto, unfolding(crate::specs::ReadStatements::head_at))]
fn read_head<'a>(
    alloc: Global,
    room: u32,
    tokens: &'a [Token],
) -> Result<(Head, &'a [Token]), ReadFault>
    ensures { Gives (λ x. (
      (
        option_map raw_put_in_front x.0.start,
        option_map raw_condition_of x.0.cond,
        option_map raw_put_in_front x.0.step,
      ),
      x.1.now,
    )) result (head_at room tokens.now) }
{
    let head = expect(Fixed::OpenRound, tokens)?;
    let (start, others) = read_first_part(alloc, room, head)?;
    let middle = expect(Fixed::Semicolon, others)?;
    let (cond, others) = read_second_part(alloc, room, middle)?;
    let last = expect(Fixed::Semicolon, others)?;
    let (step, others) = read_third_part(alloc, room, last)?;
    let body = expect(Fixed::CloseRound, others)?;
    Ok((Head { start, cond, step }, body))
}

// ["else" statement]
#[cycle(statement)]
fn read_else<'a>(
    alloc: Global,
    room: u32,
    tokens: &'a [Token],
) -> Result<(Option<Boxed<RawStmt>>, &'a [Token]), ReadFault>
    ensures { Gives (λ x. (option_map raw_put_in_front x.0, x.1.now)) result
        (optional (behind_sign Fixed.Else tokens.now) tokens.now (statement_at room)) }
{
    let Some(others) = behind_sign(Fixed::Else, tokens) else {
        return Ok((None, tokens));
    };
    let (stmt, after) = read_statement(alloc, room, others)?;
    let stmt = Boxed::new(alloc, stmt)?;
    Ok((Some(stmt), after))
}

// "(" expr ")" statement ["else" statement], behind "if"
#[cycle(statement)]
#[tactic(auto, unfolding(crate::specs::ReadStatements::if_at))]
fn read_if<'a>(
    alloc: Global,
    room: u32,
    tokens: &'a [Token],
) -> Result<(RawStmt, &'a [Token]), ReadFault>
    ensures { Gives (λ x. (raw_put_in_front x.0, x.1.now)) result
        (if_at room (statement_at room) tokens.now) }
{
    let head = expect(Fixed::OpenRound, tokens)?;
    let (cond, others) = read_shallow(alloc, room, head)?;
    let body = expect(Fixed::CloseRound, others)?;
    let (first, others) = read_statement(alloc, room, body)?;
    let first = Boxed::new(alloc, first)?;
    let (second, after) = read_else(alloc, room, others)?;
    Ok((RawStmt::If(cond, first, second), after))
}

// "(" cond ")" statement, behind "while"
#[cycle(statement)]
#[tactic(auto, unfolding(crate::specs::ReadStatements::while_at))]
fn read_while<'a>(
    alloc: Global,
    room: u32,
    tokens: &'a [Token],
) -> Result<(RawStmt, &'a [Token]), ReadFault>
    ensures { Gives (λ x. (raw_put_in_front x.0, x.1.now)) result
        (while_at room (statement_at room) tokens.now) }
{
    let head = expect(Fixed::OpenRound, tokens)?;
    let (cond, others) = read_condition(alloc, room, head)?;
    let others = expect(Fixed::CloseRound, others)?;
    let (body, after) = read_statement(alloc, room, others)?;
    let body = Boxed::new(alloc, body)?;
    Ok((RawStmt::While(cond, body), after))
}

// statement "while" "(" cond ")" ";", behind "do"
#[cycle(statement)]
#[tactic(auto, unfolding(crate::specs::ReadStatements::do_at))]
fn read_do<'a>(
    alloc: Global,
    room: u32,
    tokens: &'a [Token],
) -> Result<(RawStmt, &'a [Token]), ReadFault>
    ensures { Gives (λ x. (raw_put_in_front x.0, x.1.now)) result
        (do_at room (statement_at room) tokens.now) }
{
    let (body, others) = read_statement(alloc, room, tokens)?;
    let body = Boxed::new(alloc, body)?;
    let others = expect(Fixed::While, others)?;
    let head = expect(Fixed::OpenRound, others)?;
    let (cond, others) = read_condition(alloc, room, head)?;
    let last = expect(Fixed::CloseRound, others)?;
    let after = expect(Fixed::Semicolon, last)?;
    Ok((RawStmt::Do(body, cond), after))
}

// head statement, behind "for"
#[cycle(statement)]
#[tactic(auto, unfolding(crate::specs::ReadStatements::for_at))]
fn read_for<'a>(
    alloc: Global,
    room: u32,
    tokens: &'a [Token],
) -> Result<(RawStmt, &'a [Token]), ReadFault>
    ensures { Gives (λ x. (raw_put_in_front x.0, x.1.now)) result
        (for_at room (statement_at room) tokens.now) }
{
    let (head, others) = read_head(alloc, room, tokens)?;
    let (body, after) = read_statement(alloc, room, others)?;
    let body = Boxed::new(alloc, body)?;
    let Head { start, cond, step } = head;
    Ok((RawStmt::For(start, cond, step, body), after))
}

// entry: declaration ";", or statement
#[cycle(statement)]
#[tactic(auto, unfolding(crate::specs::ReadStatements::entry_at))]
fn read_entry<'a>(
    alloc: Global,
    room: u32,
    tokens: &'a [Token],
) -> Result<(RawStmt, &'a [Token]), ReadFault>
    ensures { Gives (λ x. (raw_put_in_front x.0, x.1.now)) result
        (entry_at room (statement_at room) tokens.now) }
{
    if begins_type(tokens) {
        let (stmt, others) = read_declaration(alloc, room, tokens)?;
        return ended(stmt, others);
    }
    read_statement(alloc, room, tokens)
}

/// The entries of a block behind its "{", with the "}" that ends it.
///
/// block: "{" entries "}"
#[cycle(statement)]
pub fn read_entries<'a>(
    alloc: Global,
    room: u32,
    tokens: &'a [Token],
) -> Result<(Items<RawStmt>, &'a [Token]), ReadFault>
    ensures { Gives (λ x. (map raw_put_in_front x.0, x.1.now)) result
        (entries_at room (statement_at room) tokens.now) }
{
    let mut made = Items::new(alloc);
    let mut others = tokens;
    loop {
        if let Some(after) = behind_sign(Fixed::CloseCurly, others) {
            return Ok((made, after));
        }
        let (stmt, behind) = read_entry(alloc, room, others)?;
        made.push(stmt)?;
        others = behind;
    }
}

// block, behind its "{"
#[cycle(statement)]
#[tactic(auto, unfolding(crate::specs::ReadStatements::block_at))]
fn read_block<'a>(
    alloc: Global,
    room: u32,
    tokens: &'a [Token],
) -> Result<(RawStmt, &'a [Token]), ReadFault>
    ensures { Gives (λ x. (raw_put_in_front x.0, x.1.now)) result
        (block_at room (statement_at room) tokens.now) }
{
    let (entries, after) = read_entries(alloc, room, tokens)?;
    Ok((RawStmt::Block(entries), after))
}

// The longest statement at the front of the tokens.
//
// statement: block, a short statement, or one of these:
//   "if" "(" expr ")" statement ["else" statement]
//   "while" "(" cond ")" statement
//   "do" statement "while" "(" cond ")" ";"
//   "for" "(" [init] ";" [cond] ";" [simple] ")" statement
//
// An "else" belongs to the nearest "if" before it that has none.
#[cycle(statement)]
#[tactic(auto, unfolding(crate::specs::ReadStatements::statement_at))]
fn read_statement<'a>(
    alloc: Global,
    room: u32,
    tokens: &'a [Token],
) -> Result<(RawStmt, &'a [Token]), ReadFault>
    ensures { Gives (λ x. (raw_put_in_front x.0, x.1.now)) result (statement_at room tokens.now) }
{
    if room == 0 {
        return wanted(None);
    }
    let Some((first, others)) = tokens.split_first() else {
        return wanted(None);
    };
    match &first.kind {
        Kind::OpenCurly => read_block(alloc, room - 1, others),
        Kind::If => read_if(alloc, room - 1, others),
        Kind::While => read_while(alloc, room - 1, others),
        Kind::Do => read_do(alloc, room - 1, others),
        Kind::For => read_for(alloc, room - 1, others),
        _ => read_short(alloc, room, tokens),
    }
}
