//! Why a text is read as no function, or as no condition.
use c_check::CheckFault;
use c_reader::ReadFault;
use c_tokens::TokenFault;

/// Why a text is read as nothing, in the order in which it is judged. None but `Memory` says that
/// memory ran out.
#[derive(Debug, Drop)]
pub enum TextFault {
    /// Its first faulty place.
    Token(TokenFault),
    /// What is wrong with its tokens.
    Reader(ReadFault),
    /// The first rule that its tree breaks.
    Check(CheckFault),
    /// Memory ran out.
    Memory,
}

impl From<TokenFault> for TextFault {
    ghost use Rattle.std.specs.Prelude.{◌≡◌};
    ghost use Rattle.c_source.specs.TextFaults.{of_tokens};

    ghost from_gives = { λ fault made. made ≡ of_tokens fault };

    fn from(fault: TokenFault) -> TextFault {
        match fault {
            TokenFault::Memory => TextFault::Memory,
            other => TextFault::Token(other),
        }
    }
}

impl From<ReadFault> for TextFault {
    ghost use Rattle.std.specs.Prelude.{◌≡◌};
    ghost use Rattle.c_source.specs.TextFaults.{of_reader};

    ghost from_gives = { λ fault made. made ≡ of_reader fault };

    fn from(fault: ReadFault) -> TextFault {
        match fault {
            ReadFault::Memory => TextFault::Memory,
            other => TextFault::Reader(other),
        }
    }
}

impl From<CheckFault> for TextFault {
    ghost use Rattle.std.specs.Prelude.{◌≡◌};
    ghost use Rattle.c_source.specs.TextFaults.{of_check};

    ghost from_gives = { λ fault made. made ≡ of_check fault };

    fn from(fault: CheckFault) -> TextFault {
        match fault {
            CheckFault::Memory => TextFault::Memory,
            other => TextFault::Check(other),
        }
    }
}
