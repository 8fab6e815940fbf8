//! The marks that a function names.
//!
//! Each stands once in it and is below a million: from there on the numbers are those of automatic
//! marks.
ghost use Rattle.std.specs.Prelude.{◌≡◌, ◌∷◌, [], MatchResult, Some, None};
ghost use Rattle.c_check.specs.declared.fault.CheckFault.TheVariants as fault;

use crate::CheckFault;
use indexmap::IndexSet;
use std::alloc::Global;
use std::marker::Model;

/// From here on marks are automatic.
pub(crate) const FIRST_AUTOMATIC: u32 = 1_000_000;

/// The marks that were named, each once and below `FIRST_AUTOMATIC`.
#[derive(Drop)]
pub(crate) struct Marks(IndexSet<u64>);

impl Model for Marks {
    ghost use Rattle.std.specs.Prelude.{ℕ, List, reverse};

    ghost Value = { List ℕ };

    ghost view = { λ marks. reverse marks.0.keys };
}

impl Marks {
    ghost use Rattle.c_check.specs.Occurrences.{Marked};
    ghost use Rattle.c_check.specs.Faults.{fault_of};

    /// No mark.
    pub(crate) fn new(alloc: Global) -> Marks
        ensures { result ≡ [] }
    {
        Marks(IndexSet::new(alloc))
    }

    /// A mark is named.
    pub(crate) fn add(&mut self, mark: u64) -> Result<u32, CheckFault>
        ensures { MatchResult result
            (λ number. (fault_of self.old (Marked mark) ≡ None)
            × (self.new ≡ mark ∷ self.old) × (number ≡ mark))
            (λ first. ¬ (first ≡ fault.Memory) →
            fault_of self.old (Marked mark) ≡ Some first) }
    {
        if mark >= FIRST_AUTOMATIC as u64 {
            return Err(CheckFault::MarkRange(mark));
        }
        if !self.0.insert(mark)? {
            return Err(CheckFault::MarkTwice(mark));
        }
        Ok(mark as u32)
    }
}
