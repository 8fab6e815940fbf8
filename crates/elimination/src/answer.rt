//! What comes of an elimination.
ghost use Rattle.std.specs.Prelude.{◌≡◌};
ghost use Rattle.elimination.specs.declared.answer.Limit.TheVariants.{Memory};

use sqlite_items::Items;
use std::alloc::AllocError;

/// Whether rows are refutable.
#[derive(Debug, Drop)]
pub enum Answer {
    /// These multipliers refute the rows: one for each row, each below 2^56 in size.
    Refuted(Items<i128>),
    /// No multipliers refute the rows, of whatever size.
    NotRefutable,
}

/// Why it is left open whether rows are refutable.
#[derive(Clone, Copy, Debug, PartialEq, Eq)]
pub enum Limit {
    /// A row that would join a list has an entry or a multiplier of 2^56 or more in size.
    WideRow,
    /// There are too many rows, for one of two causes: more than 4,096 rows are given, or a list
    /// would have more rows than the cap allows.
    ManyRows,
    /// Memory ran out.
    Memory,
}

/// What ends an elimination before its last column.
#[derive(Debug, Drop)]
pub enum EarlyEnd {
    /// A row without variables does not hold. With these multipliers the given rows add up to a
    /// negative number.
    Contradiction(Items<i128>),
    /// A limit was met.
    AtLimit(Limit),
}

impl From<AllocError> for EarlyEnd {
    ghost use Rattle.elimination.specs.declared.answer.EarlyEnd.TheVariants.{AtLimit};

    ghost from_gives = { λ _ early. early ≡ AtLimit Memory };

    fn from(_: AllocError) -> EarlyEnd {
        EarlyEnd::AtLimit(Limit::Memory)
    }
}
