//! Files that are read whole, by name.
//!
//! A name may have a text that is told, which no read changes. Each name has a count of faults,
//! which never falls; an object may keep one count for all its names.
ghost use Rattle.std.specs.Prelude.{◌≡◌, ℕ, ◌≤◌, List, Option, IfOk, IsErrOf, vec_len};
ghost use Rattle.re_base.specs.declared.TheConstants.{LONGEST_FILE};
ghost use Rattle.re_base.specs.Causes.{Rose};
ghost use Rattle.re_base.specs.Told.{IsWhole, IsLong};

use std::alloc::Global;

/// Why a file's bytes were not handed out.
#[derive(Clone, Copy, Debug, PartialEq, Eq)]
pub enum FileFault {
    /// The file could not be read. The count of its faults rose.
    Failed,
    /// It has more than `LONGEST_FILE` bytes.
    TooLong,
    /// There was no memory for its bytes.
    Memory,
}

/// What names stand for.
pub trait Files {
    /// The text of a name, where the object tells it.
    ghost text: { Self → List ℕ → Option (List ℕ) };

    /// How often a read of a name has failed.
    ghost faults: { Self → List ℕ → ℕ };

    /// All bytes of the file of this name: at most `LONGEST_FILE`.
    fn read(&mut self, alloc: Global, name: &str) -> Result<Vec<u8>, FileFault>
        ensures told { (n : List ℕ) → text self.new n ≡ text self.old n }
        ensures counts { (n : List ℕ) → faults self.old n ≤ faults self.new n }

        ensures whole { IfOk result (λ bytes. IsWhole (text self.old name.now) bytes.items) }
        ensures short { IfOk result (λ bytes. vec_len bytes ≤ LONGEST_FILE) }
        ensures long { IsErrOf result FileFault.TooLong → IsLong (text self.old name.now) }
        ensures failed { IsErrOf result FileFault.Failed
            → Rose (faults self.old name.now) (faults self.new name.now) };
}
