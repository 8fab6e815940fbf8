//! The statuses that the program ends with.
ghost use Rattle.std.specs.Prelude.{◌≡◌};
ghost use Rattle.llreve_cli.specs.Written.{verdict_status, fault_status};

use pool_core::Verdict;
use report::Fault;

/// The status of two functions that no input tells apart.
pub const EQUIVALENT: u8 = 0;

/// The status of two functions that a sample tells apart.
pub const DIFFERENT: u8 = 1;

/// The status of two functions of which nothing is known.
pub const UNKNOWN: u8 = 2;

/// The status of words or a text that is refused.
pub const REFUSED: u8 = 3;

/// The status of a file that could not be read.
pub const NOT_READ: u8 = 4;

/// The status of a write that failed.
pub const NOT_WRITTEN: u8 = 5;

/// The status of want of memory.
pub const NO_MEMORY: u8 = 6;

/// The status of a verdict.
pub fn verdict_status(verdict: &Verdict) -> u8
    ensures { result ≡ verdict_status verdict.now }
{
    match verdict {
        Verdict::Equivalent { .. } => EQUIVALENT,
        Verdict::Different { .. } => DIFFERENT,
        Verdict::Unknown { .. } => UNKNOWN,
    }
}

/// The status of a fault.
pub fn fault_status(fault: &Fault) -> u8
    ensures { result ≡ fault_status fault.now }
{
    match fault {
        Fault::Read(_) => NOT_READ,
        _ => REFUSED,
    }
}
