//! What a word or an operator is to the profile (ISO C11, 6.4.1, 6.4.2 and 6.4.6).
ghost use Rattle.std.specs.Prelude.{◌≡◌, Option, IfOk, IsTrue, bytes_eq, nat_eq, find, option_map};
ghost use Rattle.std.specs.List.{list_all, starts_with};
ghost use Rattle.std.specs.Option.{option_copied};
ghost use Rattle.c_tokens.specs.Bytes.{is_word_byte};
ghost use Rattle.c_tokens.specs.Fixed.{kind_of};
ghost use Rattle.c_tokens.specs.Tables.{seen, keywords, operators};
ghost use Rattle.c_tokens.specs.Lexemes as Lexemes;
ghost use Rattle.c_tokens.specs.Lexemes.{word_kind};

use crate::Kind;
use crate::tables::{KEYWORDS, OPERATORS, Row};
use c_ast::Name;
use std::alloc::{AllocError, Global};

// The first row with this spelling.
fn row_with<'a>(rows: &'a [Row], bytes: &[u8]) -> Option<&'a Row>
    ensures { option_copied result ≡ find (λ row. bytes_eq row.0.now bytes.now) rows.now }
{
    rows.iter().find(|row| row.0.as_bytes() == bytes)
}

// The first row whose spelling stands at the front of the text.
fn row_at<'a>(rows: &'a [Row], text: &[u8]) -> Option<&'a Row>
    ensures { option_copied result
        ≡ find (λ row. starts_with nat_eq text.now row.0.now) rows.now }
{
    rows.iter().find(|row| text.starts_with(row.0.as_bytes()))
}

// The row of a keyword.
fn keyword(word: &[u8]) -> Option<&'static Row>
    ensures { option_map seen (option_copied result) ≡ Lexemes.row_with keywords word.now }
{
    row_with(KEYWORDS.as_slice(), word)
}

/// The row of the longest operator at the front of the text.
pub fn operator_at(text: &[u8]) -> Option<&'static Row>
    ensures { option_map seen (option_copied result) ≡ Lexemes.row_at operators text.now }
{
    row_at(OPERATORS.as_slice(), text)
}

/// The kind in a row, where the profile has it.
pub fn kind_in(row: &Row) -> Option<Kind>
    ensures { result ≡ option_map kind_of row.now.1 }
{
    match row.1 {
        Some(fixed) => Some(fixed.kind()),
        None => None,
    }
}

/// The kind of a word, where the profile has it.
pub fn word_kind(alloc: Global, word: &[u8]) -> Result<Option<Kind>, AllocError>
    requires { IsTrue (list_all is_word_byte word.now) }
    ensures { IfOk result (λ kind. kind ≡ word_kind word.now) }
{
    if let Some(row) = keyword(word) {
        return Ok(kind_in(row));
    }
    if word == b"__mark".as_slice() {
        return Ok(Some(Kind::MarkWord));
    }
    let Ok(text) = str::from_utf8(word) else {
        unreachable!()
    };
    Ok(Some(Kind::Word(Name::new(String::from_str(alloc, text)?))))
}
