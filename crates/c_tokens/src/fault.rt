//! Why a text has no tokens.
ghost use Rattle.std.specs.Prelude.{◌≡◌};
ghost use Rattle.c_tokens.specs.declared.fault.TokenFault.TheVariants.{Memory};

use c_ast::Name;
use std::alloc::{AllocError, AllocFailed};

/// The first faulty place of a text: its line and its column, both from 1, columns in bytes.
#[derive(Debug, Drop)]
pub enum TokenFault {
    /// No token stands there: no token starts with that byte, a constant that starts there is
    /// malformed, or a comment that starts there is not closed.
    NoToken { line: u32, column: u32 },
    /// A keyword or an operator of C stands there that is outside the profile: `word`.
    Unsupported { word: Name, line: u32, column: u32 },
    /// A constant of value 2^63 or more stands there.
    LiteralRange { line: u32, column: u32 },
    /// Memory ran out.
    Memory,
}

impl From<AllocError> for TokenFault {
    ghost from_gives = { λ _ e. e ≡ Memory };

    fn from(_: AllocError) -> TokenFault {
        TokenFault::Memory
    }
}

impl<T: Drop> From<AllocFailed<T>> for TokenFault {
    ghost from_gives = { λ _ e. e ≡ Memory };

    fn from(_: AllocFailed<T>) -> TokenFault {
        TokenFault::Memory
    }
}
