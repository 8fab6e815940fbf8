//! Why a file as it was read is no function, or a condition as it was read none on its inputs.
ghost use Rattle.std.specs.Prelude.{◌≡◌};
ghost use Rattle.c_check.specs.declared.fault.CheckFault.TheVariants.{Memory};

use c_ast::Name;
use std::alloc::{AllocError, AllocFailed};

/// Why a file is no function, in the order in which it is judged: the first two, then the first in
/// source order of the next six, then `ManyVariables`. A condition has `Undeclared`, `Divisor` and
/// `Memory` alone. Lines count from 1.
#[derive(Debug, Drop)]
pub enum CheckFault {
    /// It holds no function.
    NoFunction,
    /// It holds this many functions, at least 2.
    ManyFunctions(u32),
    /// The name is used on this line where no variable has it (ISO C11, 6.2.1 and 6.5.1).
    Undeclared { name: Name, line: u32 },
    /// The name is declared on this line, and was declared before in the same block (6.7).
    Twice { name: Name, line: u32 },
    /// A `break` or `continue` stands on this line outside all loops (6.8.6.2, 6.8.6.3).
    Outside { line: u32 },
    /// The number of a mark is 1,000,000 or more.
    MarkRange(u64),
    /// The mark stands twice.
    MarkTwice(u64),
    /// The right operand of the `/` or `%` on this line is no nonzero constant under unary signs
    /// and brackets (6.5.5).
    Divisor { line: u32 },
    /// It declares this many variables, parameters among them: more than 64.
    ManyVariables(u32),
    /// Memory ran out.
    Memory,
}

impl From<AllocError> for CheckFault {
    ghost from_gives = { λ _ e. e ≡ Memory };

    fn from(_: AllocError) -> CheckFault {
        CheckFault::Memory
    }
}

impl<T: Drop> From<AllocFailed<T>> for CheckFault {
    ghost from_gives = { λ _ e. e ≡ Memory };

    fn from(_: AllocFailed<T>) -> CheckFault {
        CheckFault::Memory
    }
}
