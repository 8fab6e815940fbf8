//! Names at the front of tokens (ISO C11, 6.4.2).
ghost use Rattle.std.specs.Prelude.{◌≡◌, option_map};
ghost use Rattle.c_reader.specs.Gives.{Gives};
ghost use Rattle.c_reader.specs.ReadDeclarations.{name_at};

use crate::ReadFault;
use crate::front::wanted;
use c_ast::{Name, Var};
use c_tokens::{Kind, Token};

/// The name that stands first, its line and the tokens behind it.
pub fn name_at(tokens: &[Token]) -> Option<(&Name, u32, &[Token])>
    ensures { option_map (λ x. (record { name = x.0.now; line = x.1 }, x.2.now)) result
        ≡ name_at tokens.now }
{
    let (first, others) = tokens.split_first()?;
    match &first.kind {
        Kind::Word(name) => Some((name, first.line, others)),
        _ => None,
    }
}

/// The name that stands first as a variable.
pub fn read_name(tokens: &[Token]) -> Result<(Var, &[Token]), ReadFault>
    ensures { Gives (λ x. (x.0, x.1.now)) result (name_at tokens.now) }
{
    let (name, line, others) = wanted(name_at(tokens))?;
    let name = name.copy()?;
    Ok((Var { name, line }, others))
}
