//! Dictionaries: basic variables in terms of the nonbasic ones.
//!
//! A line says `basic = (entries · nonbasic + constant) / denominator`; its basic variable is its
//! own, and each nonbasic variable has a column of all lines. Entries are whole numbers, and the
//! denominator of all is one and positive. The dictionary's point is where each nonbasic variable
//! is 0: there a basic variable is its line's constant over the denominator. At first the rows'
//! variables are nonbasic, and the rows' left sides are basic. A pivot exchanges two of them. Its
//! divisions are exact, since each entry is a determinant of entries of the rows (Cramer's rule).
ghost use Rattle.std.specs.Prelude.{◌≡◌, ◌<◌, ◌+◌, ◌*◌, length, vec_len, IfOk, OnOk};

use crate::divisor::Divisor;
use crate::line::{Substitution, add_multiple, line_of, negate, product, solve};
use crate::variable::Variable;
use lin_terms::{Row, columns_of};
use std::alloc::{AllocError, Global};

/// A call makes at most so many pivots.
pub const MOST_PIVOTS: u32 = 1000;

#[derive(Drop)]
pub struct Dictionary {
    /// The variables that the lines give, by number of the line.
    pub basic: Vec<Variable>,
    /// The variables of the columns, by number of the column.
    pub nonbasic: Vec<Variable>,
    /// All entries are over this.
    denominator: i128,
    /// A line for each basic variable, one after the other.
    lines: Vec<i128>,
    /// One more line, whose value is to be raised.
    objective: Vec<i128>,
    /// Room for the line of the entering variable.
    entering: Vec<i128>,
    /// The pivots that the present call has made.
    pivots: u32,
    pub ghost shape: { vec_len lines ≡ vec_len basic * (vec_len nonbasic + 1) },
    pub ghost objective_width: { vec_len objective ≡ vec_len nonbasic + 1 },
    pub ghost entering_width: { vec_len entering ≡ vec_len nonbasic + 1 },
}

/// The row's coefficient of a variable of the rows, and 0 past the last.
fn coefficient(row: &Row, column: usize) -> i128 {
    match row.coefs.get(column) {
        Some(entry) => i128::from(*entry),
        None => 0,
    }
}

/// The row's coefficient of a variable, and 0 of a left side.
fn coefficient_of(row: &Row, variable: &Variable) -> i128 {
    match variable {
        Variable::Free(column) => coefficient(row, *column),
        _ => 0,
    }
}

/// The row's left side as a variable.
fn left_side(row: &Row, number: usize) -> Variable {
    if row.equality {
        Variable::Zero(number)
    } else {
        Variable::Slack(number)
    }
}

fn left_sides(alloc: Global, rows: &[Row]) -> Result<Vec<Variable>, AllocError>
    ensures { IfOk result (λ sides. vec_len sides ≡ length rows.now) }
{
    let mut sides = Vec::with_capacity(alloc, rows.len())?;
    for (number, row) in rows.iter().enumerate() {
        sides.push(left_side(row, number))?;
    }
    Ok(sides)
}

fn free_variables(alloc: Global, columns: usize) -> Result<Vec<Variable>, AllocError>
    ensures { IfOk result (λ variables. vec_len variables ≡ columns) }
{
    let mut variables = Vec::with_capacity(alloc, columns)?;
    for column in 0..columns {
        variables.push(Variable::Free(column))?;
    }
    Ok(variables)
}

/// Adds the row's line at the end.
fn add_line(lines: &mut Vec<i128>, row: &Row, columns: usize) -> Result<(), AllocError>
    ensures { OnOk result (vec_len lines.new ≡ vec_len lines.old + (columns + 1)) }
{
    for column in 0..columns {
        lines.push(coefficient(row, column))?;
    }
    lines.push(i128::from(row.constant))?;
    Ok(())
}

fn lines_of(alloc: Global, rows: &[Row], columns: usize) -> Result<Vec<i128>, AllocError>
    ensures { IfOk result (λ lines. vec_len lines ≡ length rows.now * (columns + 1)) }
{
    let mut lines = Vec::new(alloc);
    for row in rows {
        add_line(&mut lines, row, columns)?;
    }
    Ok(lines)
}

fn line_of_zeros(alloc: Global, columns: usize) -> Result<Vec<i128>, AllocError>
    ensures { IfOk result (λ line. vec_len line ≡ columns + 1) }
{
    let mut line = vec![in alloc; 0; columns]?;
    line.push(0)?;
    Ok(line)
}

/// Sets a line to what the row has of the nonbasic variables, and its constant.
fn begin(line: &mut [i128], nonbasic: &[Variable], row: &Row, denominator: i128) -> Option<()>
    requires { length line.old ≡ length nonbasic.now + 1 }
{
    for (column, variable) in nonbasic.iter().enumerate() {
        line[column] = product(coefficient_of(row, variable), denominator)?;
    }
    line[nonbasic.len()] = product(i128::from(row.constant), denominator)?;
    Some(())
}

impl Dictionary {
    /// The rows' own: each left side in terms of the rows' variables.
    pub fn new(alloc: Global, rows: &[Row]) -> Result<Dictionary, AllocError> {
        let columns = columns_of(rows);
        let lines = lines_of(alloc, rows, columns)?;
        let basic = left_sides(alloc, rows)?;
        let nonbasic = free_variables(alloc, columns)?;
        let objective = line_of_zeros(alloc, columns)?;
        let entering = line_of_zeros(alloc, columns)?;
        Ok(Dictionary {
            basic,
            nonbasic,
            denominator: 1,
            lines,
            objective,
            entering,
            pivots: 0,
        })
    }

    /// What each entry is divided by: at least 1.
    pub fn denominator(&self) -> i128 {
        self.denominator
    }

    /// How many pivots the present call has made.
    pub fn pivots(&self) -> u32 {
        self.pivots
    }

    /// A new call begins.
    pub fn begin_call(&mut self) {
        self.pivots = 0;
    }

    /// The line of a basic variable.
    pub fn line(&self, number: usize) -> &[i128]
        requires { number < vec_len self.now.basic }
        ensures { length result.now ≡ vec_len self.now.nonbasic + 1 }
    {
        line_of(
            self.lines.as_slice(),
            self.nonbasic.len() + 1,
            self.basic.len(),
            number,
        )
    }

    /// A basic variable's value at the dictionary's point, times the denominator.
    pub fn constant(&self, number: usize) -> i128
        requires { number < vec_len self.now.basic }
    {
        self.line(number)[self.nonbasic.len()]
    }

    /// The objective's line.
    pub fn objective(&self) -> &[i128]
        ensures { length result.now ≡ vec_len self.now.nonbasic + 1 }
    {
        self.objective.as_slice()
    }

    /// The objective's value at the dictionary's point, times the denominator.
    pub fn objective_constant(&self) -> i128 {
        self.objective()[self.nonbasic.len()]
    }

    /// Sets the objective to the row's left side, in terms of the nonbasic variables.
    pub fn set_objective(&mut self, row: &Row) -> Option<()> {
        let width = self.nonbasic.len() + 1;
        let count = self.basic.len();
        begin(
            self.objective.as_mut_slice(),
            self.nonbasic.as_slice(),
            row,
            self.denominator,
        )?;
        for number in 0..count {
            let times = coefficient_of(row, &self.basic[number]);
            if times != 0 {
                let line = line_of(self.lines.as_slice(), width, count, number);
                add_multiple(self.objective.as_mut_slice(), line, times)?;
            }
        }
        Some(())
    }

    /// Changes all signs of the objective.
    pub fn negate_objective(&mut self) -> Option<()> {
        negate(self.objective.as_mut_slice())
    }

    /// The basic variable of the line leaves, and the variable of the column enters. `None` says
    /// that the call has had its pivots, or that a number would pass 128 bits; then the dictionary
    /// is spoilt: it keeps its shape, and its lines no longer say what the rows say.
    pub fn pivot(&mut self, number: usize, column: usize) -> Option<()>
        requires line_within { number < vec_len self.old.basic }
        requires column_within { column < vec_len self.old.nonbasic }
        ensures lines { vec_len self.new.basic ≡ vec_len self.old.basic }
        ensures columns { vec_len self.new.nonbasic ≡ vec_len self.old.nonbasic }
    {
        if self.pivots >= MOST_PIVOTS {
            return None;
        }
        let width = self.nonbasic.len() + 1;
        let count = self.basic.len();
        let leaving = line_of(self.lines.as_slice(), width, count, number);
        let factor = leaving[column].checked_abs()?;
        solve(
            self.entering.as_mut_slice(),
            leaving,
            column,
            self.denominator,
        )?;
        let substitution = Substitution {
            line: number,
            column,
            factor,
            divisor: Divisor::new(self.denominator),
            keeps: factor == self.denominator,
        };
        let entering = self.entering.as_slice();
        substitution.substitute_in_all(self.lines.as_mut_slice(), entering, count)?;
        substitution.substitute(self.objective.as_mut_slice(), entering)?;
        self.denominator = factor;
        self.pivots += 1;
        self.exchange(number, column);
        Some(())
    }

    fn exchange(&mut self, number: usize, column: usize)
        requires line_within { number < vec_len self.old.basic }
        requires column_within { column < vec_len self.old.nonbasic }
        ensures lines { vec_len self.new.basic ≡ vec_len self.old.basic }
        ensures columns { vec_len self.new.nonbasic ≡ vec_len self.old.nonbasic }
    {
        let leaves = self.basic[number];
        let enters = self.nonbasic[column];
        self.basic[number] = enters;
        self.nonbasic[column] = leaves;
    }
}
