//! A list of rows that others join, one after the other.
//!
//! A row joins over the greatest common divisor of its numbers. A row without variables is left
//! out, or is a contradiction. Of parallel inequalities the one that says more stays, in the place
//! of the first. What is too wide, or too many, ends the elimination.
ghost use Rattle.std.specs.Prelude.{◌≡◌, [], ◌∷◌, List};
ghost use Rattle.elimination.specs.Joining.{added, counted, kept};
ghost use Rattle.elimination.specs.Outcome.{Leaves, Joins};

use crate::answer::{EarlyEnd, Limit};
use crate::combination::{Combination, Sum};
use crate::indexed::IndexedRows;
use std::alloc::Global;

/// A list of rows that others join. It has at most `cap` rows.
#[derive(Drop)]
pub struct JoinedRows {
    pub alloc: Global,
    pub cap: u32,
    pub rows: IndexedRows,
}

impl JoinedRows {
    /// No rows yet.
    pub fn new(alloc: Global, cap: u32) -> JoinedRows
        ensures rows { result.rows ≡ [] }
        ensures cap { result.cap ≡ cap }
    {
        JoinedRows {
            alloc,
            cap,
            rows: IndexedRows::new(alloc),
        }
    }

    /// The rows that have joined.
    pub fn into_rows(self) -> Vec<Combination>
        ensures { result.items ≡ self.rows }
    {
        self.rows.into_rows()
    }

    /// A row with variables goes to its place, unless the list grows longer than the cap.
    fn add(&mut self, row: Combination) -> Result<(), EarlyEnd>
        ensures { Leaves self.old (counted self.old.cap (added self.old.rows row))
            self.new result }
    {
        self.rows.add(self.alloc, row)?;
        if self.rows.len() > self.cap as usize {
            return Err(EarlyEnd::AtLimit(Limit::ManyRows));
        }
        Ok(())
    }

    /// A row without variables is left out where it holds, and is a contradiction otherwise.
    fn keep(&mut self, row: Combination) -> Result<(), EarlyEnd>
        ensures { Leaves self.old (kept self.old.cap self.old.rows row) self.new result }
    {
        if !row.has_no_variable() {
            return self.add(row);
        }
        if row.allows() {
            return Ok(());
        }
        let multipliers = row.refuting_multipliers(self.alloc)?;
        Err(EarlyEnd::Contradiction(multipliers))
    }

    /// A row joins the list, over the greatest common divisor of its numbers, or ends the
    /// elimination.
    pub fn join(&mut self, row: Sum) -> Result<(), EarlyEnd>
        ensures { Joins self.old (row ∷ []) self.new result }
    {
        let row = row.primitive(self.alloc)?;
        match row.row() {
            None => Err(EarlyEnd::AtLimit(Limit::WideRow)),
            Some(row) => self.keep(row),
        }
    }
}
