//! The tokens of a text, from place to place.
ghost use Rattle.std.specs.Prelude.{◌≡◌, ◌≤◌, ◌<◌, ◌+◌, ◌++◌, ◌^◌, List, length, IfOk, IfErr, OnOk, IsUtf8, option_to_list, MatchResult, ◌⊎◌};
ghost use Rattle.c_tokens.specs.declared.token.Token.{Token};
ghost use Rattle.c_tokens.specs.declared.fault.TokenFault.{TokenFault};
ghost use Rattle.c_tokens.specs.Steps.{IsStep};
ghost use Rattle.c_tokens.specs.Tokens.{AreTokens, IsFault, IsFirstFault, HasOneAnswer};

use crate::found::{Found, found_at};
use crate::place::{Place, after_bytes};
use crate::{Token, TokenFault};
use c_ast::Name;
use std::alloc::{AllocError, AllocFailed, Global};

// The fault that this word stands at a place, outside the profile.
fn unsupported(alloc: Global, word: &[u8], place: Place) -> Result<TokenFault, AllocError>
    requires { IsUtf8 word.now }
    ensures { IfOk result (λ fault.
        fault ≡ TokenFault.Unsupported word.now place.line place.column) }
{
    let Ok(text) = str::from_utf8(word) else {
        unreachable!()
    };
    Ok(TokenFault::Unsupported {
        word: Name::new(String::from_str(alloc, text)?),
        line: place.line,
        column: place.column,
    })
}

// The token at a place, if one stands there, and how many bytes stand there as one.
fn step(alloc: Global, place: Place, rest: &[u8]) -> Result<(Option<Token>, usize), TokenFault>
    requires some { 0 < length rest.now }
    requires small { length rest.now < 2 ^ 32 }
    ensures { IsStep place rest.now result }
{
    let Place {
        line,
        column,
        front,
    } = place;
    match found_at(alloc, front, rest)? {
        Found::Gap(len) => Ok((None, len)),
        Found::Token(kind, len) => Ok((Some(Token { kind, line, column }), len)),
        Found::NoToken => Err(TokenFault::NoToken { line, column }),
        Found::Unsupported(len) => Err(unsupported(alloc, &rest[..len], place)?),
        Found::LiteralRange => Err(TokenFault::LiteralRange { line, column }),
    }
}

fn push_some(tokens: &mut Vec<Token>, token: Option<Token>) -> Result<(), AllocFailed<Token>>
    ensures { OnOk result (tokens.new.items ≡ tokens.old.items ++ option_to_list token) }
{
    match token {
        Some(token) => tokens.push(token),
        None => Ok(()),
    }
}

// The tokens from place to place, up to the end or to the first fault.
fn scanned(alloc: Global, text: &[u8]) -> Result<Vec<Token>, TokenFault>
    requires { length text.now ≤ 65536 }
    ensures tokens { IfOk result (λ tokens. AreTokens text.now tokens.items) }
    ensures fault { IfErr result (IsFault text.now) }
{
    let mut tokens = Vec::new(alloc);
    let mut place = Place {
        line: 1,
        column: 1,
        front: true,
    };
    let mut at = 0;
    while at < text.len() {
        let rest = text.split_at(at).1;
        let (token, len) = step(alloc, place, rest)?;
        push_some(&mut tokens, token)?;
        place = after_bytes(place, &rest[..len]);
        at += len;
    }
    Ok(tokens)
}

/// The tokens of a text, or its first faulty place.
///
/// The text has at most 65,536 bytes. An `Ok` has the one list of tokens that the text has, and a
/// fault other than `Memory` is that of the first faulty place. Each comes exactly where it is,
/// unless memory runs out.
pub fn tokens(alloc: Global, text: &[u8]) -> Result<Vec<Token>, TokenFault>
    requires { length text.now ≤ 65536 }

    // What comes is so.
    ensures tokens { IfOk result (λ tokens. AreTokens text.now tokens.items) }
    ensures fault { IfErr result (IsFault text.now) }

    // What is so comes, unless memory ran out.
    ensures only_tokens { (tokens : List Token) → AreTokens text.now tokens → MatchResult result
        (λ given. given.items ≡ tokens) (λ fault. fault ≡ TokenFault.Memory) }
    ensures only_fault { (fault : TokenFault) → IsFirstFault text.now fault → MatchResult result
        (λ given. ⊥) (λ given. (given ≡ fault) ⊎ (given ≡ TokenFault.Memory)) }
{
    scanned(alloc, text)
}

/// A law: a text has one list of tokens or one first faulty place, and not both.
pub fn one_answer()
    ensures { HasOneAnswer }
{}
