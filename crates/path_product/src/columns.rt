//! The columns of a clause: the variables of side A and of side B, then the unknowns of the
//! condition, of side A and of side B.
ghost use Rattle.std.specs.Prelude.{◌≡◌, ◌≤◌, ◌<◌, ◌+◌, ◌^◌, ◌++◌, drop, map, IfOk, OnOk};
ghost use Rattle.sym_paths.specs.Cases.{fitted};
ghost use Rattle.path_product.specs.Clauses.{zeros};

use crate::side::SidePath;
use horn_clauses::columns_in;
use lin_terms::{Form, Row};
use sqlite_items::Items;
use std::alloc::{AllocError, Global};
use sym_paths::MOST_UNKNOWNS;

/// Where the columns of one part stand among all: so many of others in front, its variables, a
/// gap, its unknowns, and so many of others behind.
#[derive(Clone, Copy, Debug)]
pub(crate) struct Spot {
    before: usize,
    variables: usize,
    gap: usize,
    unknowns: usize,
    behind: usize,
    ghost few: { before + variables + gap + unknowns + behind < 2 ^ 40 },
}

/// How many columns of each kind there are.
#[derive(Clone, Copy, Debug)]
pub(crate) struct Columns {
    first: usize,
    second: usize,
    condition_unknowns: usize,
    first_unknowns: usize,
    second_unknowns: usize,
    ghost few: { first + second < 2 ^ 33 },
    ghost unknowns: { condition_unknowns + first_unknowns + second_unknowns ≤ 16 },
}

/// So many zeros join.
fn push_zeros(made: &mut Vec<i64>, count: usize) -> Result<(), AllocError>
    ensures { OnOk result (made.new.items ≡ made.old.items ++ zeros count) }
{
    let mut left = count;
    while left > 0 {
        made.push(0)?;
        left -= 1;
    }
    Ok(())
}

/// The first `count` numbers join, and zeros where there are fewer.
fn push_fitted(made: &mut Vec<i64>, count: usize, numbers: &[i64]) -> Result<(), AllocError>
    ensures { OnOk result (made.new.items ≡ made.old.items ++ fitted count numbers.now) }
{
    let taken = numbers.len().min(count);
    made.extend_from_slice(&numbers[..taken])?;
    push_zeros(made, count - taken)
}

/// The numbers behind so many.
fn behind(numbers: &[i64], count: usize) -> &[i64]
    ensures { result.now ≡ drop count numbers.now }
{
    let taken = numbers.len().min(count);
    &numbers[taken..]
}

impl Spot {
    ghost use Rattle.path_product.specs.Clauses.{placed, placed_row, placed_form};
    ghost use Rattle.path_product.specs.Placing.{spot_of};

    /// How many columns there are in all.
    fn all(&self) -> usize {
        self.before + self.variables + self.gap + self.unknowns + self.behind
    }

    /// The part's numbers among those of all, with zeros for the others.
    fn placed(&self, alloc: Global, numbers: &[i64]) -> Result<Items<i64>, AllocError>
        ensures { IfOk result (λ made. made ≡ placed (spot_of self.now) numbers.now) }
    {
        let mut made = Vec::with_capacity(alloc, self.all())?;
        push_zeros(&mut made, self.before)?;
        push_fitted(&mut made, self.variables, numbers)?;
        push_zeros(&mut made, self.gap)?;
        push_fitted(&mut made, self.unknowns, behind(numbers, self.variables))?;
        push_zeros(&mut made, self.behind)?;
        Ok(Items::from_vec(made))
    }

    /// The part's row over all columns.
    fn placed_row(&self, alloc: Global, row: &Row) -> Result<Row, AllocError>
        ensures { IfOk result (λ made. made ≡ placed_row (spot_of self.now) row.now) }
    {
        Ok(Row {
            coefs: self.placed(alloc, row.coefs.as_slice())?,
            constant: row.constant,
            equality: row.equality,
        })
    }

    /// The part's form over all columns.
    fn placed_form(&self, alloc: Global, form: &Form) -> Result<Form, AllocError>
        ensures { IfOk result (λ made. made ≡ placed_form (spot_of self.now) form.now) }
    {
        Ok(Form {
            coefs: self.placed(alloc, form.coefs.as_slice())?,
            constant: form.constant,
        })
    }

    /// The part's rows join, over all columns.
    pub(crate) fn place_rows(
        &self,
        alloc: Global,
        made: &mut Vec<Row>,
        rows: &[Row],
    ) -> Result<(), AllocError>
        ensures { OnOk result (made.new.items
            ≡ made.old.items ++ map (placed_row (spot_of self.now)) rows.now) }
    {
        for row in rows {
            made.push(self.placed_row(alloc, row)?)?;
        }
        Ok(())
    }

    /// The part's forms join, over all columns.
    pub(crate) fn place_forms(
        &self,
        alloc: Global,
        made: &mut Vec<Form>,
        forms: &[Form],
    ) -> Result<(), AllocError>
        ensures { OnOk result (made.new.items
            ≡ made.old.items ++ map (placed_form (spot_of self.now)) forms.now) }
    {
        for form in forms {
            made.push(self.placed_form(alloc, form)?)?;
        }
        Ok(())
    }
}

impl Columns {
    ghost use Rattle.path_product.specs.Clauses.{columns_of, condition_spot, first_spot, second_spot};
    ghost use Rattle.path_product.specs.Coded.{path_of_side};
    ghost use Rattle.path_product.specs.Placing.{spot_of, counts_of_columns, AreColumns};

    /// Those of three cases, where side A has `first` variables and side B `second`. With a 17th
    /// unknown there are none.
    pub(crate) fn of(
        first: u32,
        second: u32,
        condition: &[Row],
        left: &SidePath,
        right: &SidePath,
    ) -> Option<Columns>
        ensures { AreColumns (columns_of first second condition.now (path_of_side left.now)
            (path_of_side right.now)) result }
    {
        let condition_columns = columns_in(first as usize, condition, &[]);
        let condition_unknowns = condition_columns.saturating_sub(first as usize);
        let first_unknowns = left.columns.saturating_sub(first) as usize;
        let second_unknowns = right.columns.saturating_sub(second) as usize;
        if condition_unknowns > MOST_UNKNOWNS
            || condition_unknowns + first_unknowns + second_unknowns > MOST_UNKNOWNS
        {
            return None;
        }
        Some(Columns {
            first: first as usize,
            second: second as usize,
            condition_unknowns,
            first_unknowns,
            second_unknowns,
        })
    }

    /// Where the condition's columns stand.
    pub(crate) fn condition_spot(&self) -> Spot
        ensures { spot_of result ≡ condition_spot (counts_of_columns self.now) }
    {
        Spot {
            before: 0,
            variables: self.first,
            gap: self.second,
            unknowns: self.condition_unknowns,
            behind: self.first_unknowns + self.second_unknowns,
        }
    }

    /// Where those of side A stand.
    pub(crate) fn first_spot(&self) -> Spot
        ensures { spot_of result ≡ first_spot (counts_of_columns self.now) }
    {
        Spot {
            before: 0,
            variables: self.first,
            gap: self.second + self.condition_unknowns,
            unknowns: self.first_unknowns,
            behind: self.second_unknowns,
        }
    }

    /// Where those of side B stand.
    pub(crate) fn second_spot(&self) -> Spot
        ensures { spot_of result ≡ second_spot (counts_of_columns self.now) }
    {
        Spot {
            before: self.first,
            variables: self.second,
            gap: self.condition_unknowns + self.first_unknowns,
            unknowns: self.second_unknowns,
            behind: 0,
        }
    }
}
