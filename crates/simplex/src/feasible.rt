//! Makes a dictionary feasible: its point then meets the rows.
//!
//! First the rows' variables enter, as far as the equalities have them, and then as far as the
//! inequalities have them. From then on the line of an inequality is a sum of slacks alone. While a
//! basic variable may not have its value, it leaves, and a slack that raises it enters. Where no
//! slack does, no point meets the rows. (The dual simplex method, of an objective that is 0.)
ghost use Rattle.std.specs.Prelude.{◌≡◌, ◌<◌, vec_len, IfSome};
ghost use Rattle.simplex.specs.Lines.{IsWithin};

use crate::dictionary::{Dictionary, MOST_PIVOTS};

/// Whether some point meets the rows.
#[derive(Clone, Copy, Debug, Drop)]
pub enum Feasibility {
    /// The dictionary's point meets them.
    Feasible,
    /// No point does: the basic variable of this line cannot have a value that it may have.
    Infeasible(usize),
}

impl Dictionary {
    /// The left side of the equality on this line leaves for a variable of the rows, if it has one.
    fn settle_equality(&mut self, number: usize) -> Option<()>
        requires { number < vec_len self.old.basic }
        ensures { vec_len self.new.basic ≡ vec_len self.old.basic }
    {
        if self.basic[number].is_zero() {
            if let Some(column) = self.free_column(self.line(number)) {
                self.pivot(number, column)?;
            }
        }
        Some(())
    }

    fn settle_equalities(&mut self) -> Option<()> {
        for number in 0..self.basic.len() {
            self.settle_equality(number)?;
        }
        Some(())
    }

    /// The variable of the rows in this column enters for an inequality's slack, if one has it.
    fn settle_variable(&mut self, column: usize) -> Option<()>
        requires { column < vec_len self.old.nonbasic }
        ensures { vec_len self.new.nonbasic ≡ vec_len self.old.nonbasic }
    {
        if self.nonbasic[column].is_free() {
            if let Some(number) = self.slack_line(column) {
                self.pivot(number, column)?;
            }
        }
        Some(())
    }

    fn settle_variables(&mut self) -> Option<()> {
        for column in 0..self.nonbasic.len() {
            self.settle_variable(column)?;
        }
        Some(())
    }

    /// Pivots until no basic variable is violated, or one cannot be raised.
    fn repair(&mut self) -> Option<Feasibility>
        ensures { IfSome result (IsWithin (vec_len self.new.basic)) }
    {
        for _ in 0..=MOST_PIVOTS {
            let Some(number) = self.violated_line() else {
                return Some(Feasibility::Feasible);
            };
            let Some(column) = self.raising_column(self.line(number)) else {
                return Some(Feasibility::Infeasible(number));
            };
            self.pivot(number, column)?;
        }
        None
    }

    /// Makes the dictionary feasible, or finds a line which shows that no point meets the rows.
    /// `None` says that it gave up.
    pub fn make_feasible(&mut self) -> Option<Feasibility>
        ensures { IfSome result (IsWithin (vec_len self.new.basic)) }
    {
        self.settle_equalities()?;
        self.settle_variables()?;
        self.repair()
    }
}
