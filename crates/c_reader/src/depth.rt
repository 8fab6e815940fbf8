//! How deep trees may be, and how deep the brackets of tokens nest.
ghost use Rattle.std.specs.Prelude.{◌≡◌, ◌↔◌, IsTrue};
ghost use Rattle.c_reader.specs.Depth.{is_opening_bracket, is_closing_bracket, IsDeep};

use c_tokens::{Kind, Token};

/// The greatest depth of a tree.
pub const MOST_LEVELS: u32 = 400;

/// By how much the openings may exceed the closings.
const MOST_OPEN: usize = 200;

fn is_opening(token: &Token) -> bool
    ensures { result ≡ is_opening_bracket token.now }
{
    matches!(token.kind, Kind::OpenRound | Kind::OpenCurly)
}

fn is_closing(token: &Token) -> bool
    ensures { result ≡ is_closing_bracket token.now }
{
    matches!(token.kind, Kind::CloseRound | Kind::CloseCurly)
}

/// Whether in some prefix of the tokens the openings exceed the closings by more than 200.
pub fn is_deep(tokens: &[Token]) -> bool
    ensures { IsTrue result ↔ IsDeep tokens.now }
{
    let mut opened = 0;
    let mut closed = 0;
    for token in tokens {
        opened += usize::from(is_opening(token));
        closed += usize::from(is_closing(token));
        if opened > MOST_OPEN && opened - MOST_OPEN > closed {
            return true;
        }
    }
    false
}
