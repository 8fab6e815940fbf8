//! Which variable leaves the basic ones, and which enters them.
ghost use Rattle.std.specs.Prelude.{◌≡◌, ◌<◌, ◌+◌, length, vec_len, IfSome};

use crate::dictionary::Dictionary;
use crate::variable::Variable;

/// From so many pivots of a call on, the least index is chosen.
const PATIENCE: u32 = 200;

/// How one of several variables is chosen.
#[derive(Clone, Copy, Debug, Drop)]
enum Rule {
    /// The one of the greatest entry (Dantzig): mostly quick.
    Greatest,
    /// The one of the least index (Bland 1977): it does not go in circles.
    LeastIndex,
}

impl Rule {
    /// What is compared: the least is chosen. The entry is told with a negative sign.
    fn key(self, variable: &Variable, entry: i128) -> i128 {
        match self {
            Rule::Greatest => entry,
            Rule::LeastIndex => variable.number() as i128,
        }
    }
}

/// How far below what it may be a basic variable is, where its line has this constant: below 0, or
/// 0 where it may have this value.
fn violation(variable: &Variable, constant: i128) -> i128 {
    match variable {
        Variable::Free(_) => 0,
        Variable::Slack(_) => constant.min(0),
        Variable::Zero(_) => { if constant > 0 { -constant } else { constant } }
    }
}

impl Dictionary {
    /// The rule of the next pivot.
    fn rule(&self) -> Rule {
        if self.pivots() < PATIENCE {
            Rule::Greatest
        } else {
            Rule::LeastIndex
        }
    }

    /// The line of a basic variable that may not have its value at the dictionary's point.
    pub fn violated_line(&self) -> Option<usize>
        ensures { IfSome result (λ number. number < vec_len self.now.basic) }
    {
        let rule = self.rule();
        let mut chosen = None;
        let mut least = i128::MAX;
        for (number, variable) in self.basic.iter().enumerate() {
            let below = violation(variable, self.constant(number));
            let key = rule.key(variable, below);
            if below < 0 && key < least {
                chosen = Some(number);
                least = key;
            }
        }
        chosen
    }

    /// The column of a slack that raises the line's value where the slack rises.
    pub fn raising_column(&self, line: &[i128]) -> Option<usize>
        requires { length line.now ≡ vec_len self.now.nonbasic + 1 }
        ensures { IfSome result (λ column. column < vec_len self.now.nonbasic) }
    {
        let rule = self.rule();
        let mut chosen = None;
        let mut least = i128::MAX;
        for (column, variable) in self.nonbasic.iter().enumerate() {
            let entry = line[column];
            if variable.is_slack() && entry > 0 {
                let key = rule.key(variable, -entry);
                if key < least {
                    chosen = Some(column);
                    least = key;
                }
            }
        }
        chosen
    }

    /// The first column of a variable of the rows that the line has.
    pub fn free_column(&self, line: &[i128]) -> Option<usize>
        requires { length line.now ≡ vec_len self.now.nonbasic + 1 }
        ensures { IfSome result (λ column. column < vec_len self.now.nonbasic) }
    {
        for (column, variable) in self.nonbasic.iter().enumerate() {
            if variable.is_free() && line[column] != 0 {
                return Some(column);
            }
        }
        None
    }

    /// The first line of an inequality that has the column.
    pub fn slack_line(&self, column: usize) -> Option<usize>
        requires { column < vec_len self.now.nonbasic }
        ensures { IfSome result (λ number. number < vec_len self.now.basic) }
    {
        for (number, variable) in self.basic.iter().enumerate() {
            if variable.is_slack() && self.line(number)[column] != 0 {
                return Some(number);
            }
        }
        None
    }
}
