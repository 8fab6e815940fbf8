//! What stands at the front of tokens, and the refusal of what does not: a token, or a sign, which
//! is a token of one spelling.
ghost use Rattle.std.specs.Prelude.{◌≡◌, ◌<◌, length, IfSome, option_map};
ghost use Rattle.c_reader.specs.Gives.{Gives};
ghost use Rattle.c_reader.specs.Fronts.{first_of, lowered, behind_sign, begins, skipped, behind_either};

use crate::ReadFault;
use c_tokens::{Fixed, Token};

/// What was found, or `Grammar`. The readers refuse by this.
pub fn wanted<T>(found: Option<T>) -> Result<T, ReadFault>
    ensures { Gives (λ x. x) result found }
{
    found.ok_or(ReadFault::Grammar)
}

/// The first token and those behind it, or `Grammar`.
pub fn first_of(tokens: &[Token]) -> Result<(&Token, &[Token]), ReadFault>
    ensures { Gives (λ x. (x.0.now, x.1.now)) result (first_of tokens.now) }
{
    wanted(tokens.split_first())
}

/// The room for what stands in a tree that has this much room, or `Grammar` where it has none.
pub fn lowered(room: u32) -> Result<u32, ReadFault>
    ensures { Gives (λ x. x) result (lowered room) }
{
    wanted(room.checked_sub(1))
}

/// The tokens behind the sign, where it stands first.
pub fn behind_sign(sign: Fixed, tokens: &[Token]) -> Option<&[Token]>
    ensures behind { option_map (λ x. x.now) result ≡ behind_sign sign tokens.now }
    ensures shorter { IfSome result (λ x. length x.now < length tokens.now) }
{
    let (first, others) = tokens.split_first()?;
    first.kind.is(sign).then_some(others)
}

/// Whether the sign stands first.
pub fn begins(sign: Fixed, tokens: &[Token]) -> bool
    ensures { result ≡ begins sign tokens.now }
{
    match tokens.split_first() {
        Some((first, _)) => first.kind.is(sign),
        None => false,
    }
}

/// The tokens without a first one that is the sign.
pub fn skipped(sign: Fixed, tokens: &[Token]) -> &[Token]
    ensures { result.now ≡ skipped sign tokens.now }
{
    behind_sign(sign, tokens).unwrap_or(tokens)
}

/// The tokens behind one of the two signs, where one stands first.
pub fn behind_either(one: Fixed, other: Fixed, tokens: &[Token]) -> Option<&[Token]>
    ensures behind { option_map (λ x. x.now) result ≡ behind_either one other tokens.now }
    ensures shorter { IfSome result (λ x. length x.now < length tokens.now) }
{
    let (first, others) = tokens.split_first()?;
    (first.kind.is(one) || first.kind.is(other)).then_some(others)
}

/// The tokens behind the sign, which stands first, or `Grammar`.
pub fn expect(sign: Fixed, tokens: &[Token]) -> Result<&[Token], ReadFault>
    ensures { Gives (λ x. x.now) result (behind_sign sign tokens.now) }
{
    wanted(behind_sign(sign, tokens))
}

/// The tokens behind one of the two signs, which stands first, or `Grammar`.
pub fn expect_either(one: Fixed, other: Fixed, tokens: &[Token]) -> Result<&[Token], ReadFault>
    ensures { Gives (λ x. x.now) result (behind_either one other tokens.now) }
{
    wanted(behind_either(one, other, tokens))
}
