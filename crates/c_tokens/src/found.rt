//! What stands at a place of a text.
ghost use Rattle.std.specs.Prelude.{◌≡◌, ℕ, ◌==◌, ◌<◌, ◌^◌, length, Option, IfOk, IsTrue, slice_index, option_map, min};
ghost use Rattle.std.specs.List.{list_all};
ghost use Rattle.c_tokens.specs.Bytes.{is_digit, is_word_byte};
ghost use Rattle.c_tokens.specs.Tables.{operators};
ghost use Rattle.c_tokens.specs.Lexemes.{token, found_of, row_at};
ghost use Rattle.c_tokens.specs.Scanned.{IsWithin, word_found, value_found, row_found, constant_found, lexeme_found};
ghost use Rattle.c_tokens.specs.Gaps.{Stands};

use crate::Kind;
use crate::bytes::{is_digit, is_word_byte, word_len};
use crate::constants::{LIMIT, constant_of};
use crate::gaps::{Opening, comment_found, line_len, opening_of};
use crate::words::{kind_in, operator_at, word_kind};
use std::alloc::{AllocError, Global};

/// What stands at a place of a text, before its end.
#[derive(Debug, Drop)]
pub enum Found {
    /// White space, a comment or an `#include` line, of this many bytes.
    Gap(usize),
    /// A token of this kind, and of this many bytes.
    Token(Kind, usize),
    /// Neither, nor what the other variants name.
    NoToken,
    /// A keyword or an operator outside the profile, of this many bytes.
    Unsupported(usize),
    /// A constant of value 2^63 or more.
    LiteralRange,
}

// What a keyword, a name or an operator is, by its kind.
fn token_found(kind: Option<Kind>, len: usize) -> Found
    ensures { result ≡ found_of (token kind) len }
{
    match kind {
        Some(kind) => Found::Token(kind, len),
        None => Found::Unsupported(len),
    }
}

// What a constant is, by its value, or `LIMIT` where it is that or more.
fn value_found(value: Option<u64>, len: usize) -> Found
    ensures { (exact : Option ℕ) → value ≡ option_map (min (2 ^ 63)) exact →
        result ≡ value_found exact len }
{
    match value {
        None => Found::NoToken,
        Some(value) if value < LIMIT => Found::Token(Kind::Constant(value), len),
        Some(_) => Found::LiteralRange,
    }
}

// Whether a point stands at the front.
fn has_point(text: &[u8]) -> bool
    ensures { result ≡ (slice_index text.now 0 == 46) }
{
    !text.is_empty() && text[0] == b'.'
}

// What begins with a digit.
fn constant_found(text: &[u8]) -> Found
    requires some { 0 < length text.now }
    requires digit { IsTrue (is_digit (slice_index text.now 0)) }
    ensures { result ≡ constant_found text.now }
{
    let len = word_len(text);
    let (bytes, behind) = text.split_at(len);
    if has_point(behind) {
        return Found::NoToken;
    }
    value_found(constant_of(bytes), len)
}

// What a word is.
fn word_found(alloc: Global, word: &[u8]) -> Result<Found, AllocError>
    requires { IsTrue (list_all is_word_byte word.now) }
    ensures { IfOk result (λ found. found ≡ word_found word.now) }
{
    let kind = word_kind(alloc, word)?;
    Ok(token_found(kind, word.len()))
}

// What begins as an operator does.
fn operator_found(text: &[u8]) -> Found
    ensures { result ≡ row_found (row_at operators text.now) }
{
    match operator_at(text) {
        Some(row) => token_found(kind_in(row), row.0.len()),
        None => Found::NoToken,
    }
}

// What a text begins with in which no gap begins there.
#[tactic(auto, unfolding(crate::specs::Scanned::lexeme_found))]
fn lexeme_found(alloc: Global, text: &[u8]) -> Result<Found, AllocError>
    requires { 0 < length text.now }
    ensures { IfOk result (λ found. found ≡ lexeme_found text.now) }
{
    if is_digit(text[0]) {
        return Ok(constant_found(text));
    }
    if is_word_byte(text[0]) {
        return word_found(alloc, &text[..word_len(text)]);
    }
    Ok(operator_found(text))
}

/// What stands at the front of a text that is not empty; `front` says whether it is the front of a
/// line, blanks aside.
pub fn found_at(alloc: Global, front: bool, text: &[u8]) -> Result<Found, AllocError>
    requires some { 0 < length text.now }
    requires small { length text.now < 2 ^ 32 }
    ensures found { IfOk result (Stands front text.now) }
    ensures within { IfOk result (λ found. IsWithin found (length text.now)) }
{
    match opening_of(front, text) {
        Opening::White => Ok(Found::Gap(1)),
        Opening::Comment => Ok(comment_found(&text[2..])),
        Opening::Line => Ok(Found::Gap(line_len(text))),
        Opening::Other => lexeme_found(alloc, text),
    }
}
