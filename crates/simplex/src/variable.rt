//! The variables of a dictionary.

/// A variable of the rows, or a row's left side, which is a variable of its own.
#[derive(Clone, Copy, Debug, Drop)]
pub enum Variable {
    /// The rows' variable of this number: it has any value.
    Free(usize),
    /// The left side of the inequality of this number: at least 0.
    Slack(usize),
    /// The left side of the equality of this number: 0.
    Zero(usize),
}

impl Variable {
    /// Whether it is one of the rows' variables, which may have any sign.
    pub fn is_free(&self) -> bool {
        matches!(self, Variable::Free(_))
    }

    /// Whether it is the slack of an inequality, which is not negative.
    pub fn is_slack(&self) -> bool {
        matches!(self, Variable::Slack(_))
    }

    /// Whether it is the slack of an equality, which is 0.
    pub fn is_zero(&self) -> bool {
        matches!(self, Variable::Zero(_))
    }

    /// Its number among the rows' variables, or the number of its row.
    pub fn number(&self) -> usize {
        match self {
            Variable::Free(column) => *column,
            Variable::Slack(row) => *row,
            Variable::Zero(row) => *row,
        }
    }
}
