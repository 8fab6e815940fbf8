//! Raises the objective as far as it matters, which is to 0 (the primal simplex method).
ghost use Rattle.std.specs.Prelude.{◌<◌, length, vec_len, IfSome};
ghost use Rattle.simplex.specs.Lines.{LeavesWithin};

use crate::dictionary::{Dictionary, MOST_PIVOTS};
use crate::line::{product, sum_of_products};
use crate::variable::Variable;
use lin_terms::Row;

/// A step from the dictionary's point: the variable of a column becomes `rise / over`, and the
/// other nonbasic variables stay 0.
#[derive(Clone, Copy, Debug, Drop)]
pub struct Step {
    pub column: usize,
    pub rise: i128,
    pub over: i128,
}

/// What the objective comes to.
#[derive(Clone, Copy, Debug, Drop)]
pub enum Ascent {
    /// At the end of this step it is what it has to be.
    Reached(Step),
    /// It cannot be what it has to be.
    Short,
}

/// What comes to 0 first where the entering variable rises.
#[derive(Clone, Copy, Debug, Drop)]
pub enum Leaving {
    /// The basic variable of this line.
    Line(usize),
    /// The objective.
    Objective,
}

/// How far the entering variable may rise, by `rise / over`. Of two equal ratios the one of the
/// less index comes first.
#[derive(Clone, Copy, Debug, Drop)]
struct Ratio {
    rise: i128,
    over: i128,
    index: usize,
}

impl Ratio {
    fn is_before(&self, other: &Ratio) -> Option<bool> {
        let own = product(self.rise, other.over)?;
        let others = product(other.rise, self.over)?;
        Some(own < others || own == others && self.index < other.index)
    }
}

/// How far the variable of the column may rise until the line's basic variable, a slack, is 0.
fn ratio_of(basic: &Variable, line: &[i128], column: usize) -> Option<Ratio>
    requires { column < length line.now }
{
    if !basic.is_slack() || line[column] >= 0 {
        return None;
    }
    Some(Ratio {
        rise: line[line.len() - 1],
        over: line[column].checked_neg()?,
        index: basic.number(),
    })
}

impl Step {
    /// No step: the dictionary's own point.
    pub fn none() -> Step {
        Step {
            column: 0,
            rise: 0,
            over: 1,
        }
    }

    /// A basic variable's value at the end of the step, times `over` and the denominator.
    pub fn value(&self, line: &[i128]) -> Option<i128> {
        let (constant, entry) = (*line.last()?, *line.get(self.column)?);
        sum_of_products(constant, self.over, entry, self.rise)
    }
}

impl Dictionary {
    /// The column of the variable that enters to raise the objective: one of the rows, if the
    /// objective has one, and else a slack.
    fn entering(&self) -> Option<usize>
        ensures { IfSome result (λ column. column < vec_len self.now.nonbasic) }
    {
        match self.free_column(self.objective()) {
            Some(column) => Some(column),
            None => self.raising_column(self.objective()),
        }
    }

    /// The step along the column at whose end the objective is 0.
    fn step(&self, column: usize) -> Option<Step>
        requires { column < vec_len self.now.nonbasic }
    {
        let entry = self.objective()[column];
        let constant = self.objective_constant();
        let rise = if entry < 0 {
            constant
        } else {
            constant.checked_neg()?
        };
        Some(Step {
            column,
            rise,
            over: entry.checked_abs()?,
        })
    }

    /// The ratio test: what leaves where the variable of the column enters. The objective takes
    /// part in it, as it need not rise above 0.
    fn leaving(&self, column: usize) -> Option<Leaving>
        requires { column < vec_len self.now.nonbasic }
        ensures { IfSome result (LeavesWithin (vec_len self.now.basic)) }
    {
        let step = self.step(column)?;
        let mut leaving = Leaving::Objective;
        let mut nearest = Ratio {
            rise: step.rise,
            over: step.over,
            index: 0,
        };
        for (number, basic) in self.basic.iter().enumerate() {
            if let Some(next) = ratio_of(basic, self.line(number), column) {
                if next.is_before(&nearest)? {
                    leaving = Leaving::Line(number);
                    nearest = next;
                }
            }
        }
        Some(leaving)
    }

    /// Raises the objective, which is below 0, until it is 0 or cannot be raised.
    fn raise(&mut self) -> Option<Ascent> {
        for _ in 0..=MOST_PIVOTS {
            let Some(column) = self.entering() else {
                return Some(Ascent::Short);
            };
            match self.leaving(column)? {
                Leaving::Objective => return Some(Ascent::Reached(self.step(column)?)),
                Leaving::Line(number) => self.pivot(number, column)?,
            }
        }
        None
    }

    /// Lowers the objective, which is above 0, until it is 0 or cannot be lowered.
    fn lower(&mut self) -> Option<Ascent> {
        self.negate_objective()?;
        let ascent = self.raise()?;
        self.negate_objective()?;
        Some(ascent)
    }

    /// Whether the row holds at some point of the dictionary's rows, where the dictionary is
    /// feasible. `None` says that it gave up.
    pub fn ascend(&mut self, row: &Row) -> Option<Ascent> {
        self.set_objective(row)?;
        let value = self.objective_constant();
        if value == 0 || value > 0 && !row.equality {
            return Some(Ascent::Reached(Step::none()));
        }
        if value > 0 {
            return self.lower();
        }
        self.raise()
    }
}
