//! One column is eliminated: rows that do not have it join a new list.
//!
//! Where an equality has the column, its multiples are added to the other rows (Gauss). Otherwise
//! the rows without the column join as they are, and then each lower bound of the variable is added
//! to each upper bound, in order (Fourier, Motzkin).
ghost use Rattle.std.specs.Prelude.{◌≡◌, IfOk, OnOk, map, position, neg_ℤ, ◌*ℤ◌, [], ◌∷◌, ◌++◌};
ghost use Rattle.lin_terms.specs.Bounds.{FitsRow};
ghost use Rattle.elimination.specs.Combination.{Combination, entry, is_zero, is_positive, is_negative, sign, size};
ghost use Rattle.elimination.specs.Column.{is_pivot, reduced, paired, without, lower_bounds, upper_bounds, pairs, projected};
ghost use Rattle.elimination.specs.Outcome.{Joins};

use crate::answer::EarlyEnd;
use crate::combination::{Combination, Sum, is_positive, is_zero};
use crate::joining::JoinedRows;
use crate::multipliers::Weights;
use std::alloc::{AllocError, Global};

/// How often a row and the pivot are taken so that the column vanishes from their sum, by their
/// entries in the column.
fn reducing_weights(pivot: &i128, entry: &i128) -> Weights
    requires pivot_fits { FitsRow pivot.now }
    requires entry_fits { FitsRow entry.now }
    ensures first { result.first ≡ size pivot.now }
    ensures second { result.second ≡ neg_ℤ (sign pivot.now *ℤ entry.now) }
{
    Weights {
        first: pivot.abs(),
        second: if is_zero(pivot) {
            0
        } else if is_positive(pivot) {
            -*entry
        } else {
            *entry
        },
    }
}

/// How often a lower and an upper bound are taken so that the column vanishes from their sum, by
/// their entries in it.
fn pairing_weights(lower: &i128, upper: &i128) -> Weights
    requires lower_fits { FitsRow lower.now }
    requires upper_fits { FitsRow upper.now }
    ensures first { result.first ≡ size upper.now }
    ensures second { result.second ≡ lower.now }
{
    Weights {
        first: upper.abs(),
        second: *lower,
    }
}

/// Whether the row is an equality that has the column.
fn is_pivot(row: &Combination, j: usize) -> bool
    ensures { result ≡ is_pivot j row.now }
{
    row.is_equality() && !is_zero(row.entry(j))
}

/// The place of the first equality that has the column.
fn pivot_place(rows: &[Combination], j: usize) -> Option<usize>
    ensures { result ≡ position (is_pivot j) rows.now }
{
    rows.iter().position(|row| is_pivot(row, j))
}

/// The row without the column, by an equality that has it.
fn reduce(alloc: Global, j: usize, pivot: &Combination, row: Combination) -> Result<Sum, AllocError>
    ensures { IfOk result (λ made. made ≡ reduced j pivot.now row) }
{
    if is_zero(row.entry(j)) {
        return Ok(row.into_sum());
    }
    let weights = reducing_weights(pivot.entry(j), row.entry(j));
    row.combined(alloc, &weights, pivot)
}

/// A lower and an upper bound, added so that the column vanishes.
fn pair(
    alloc: Global,
    j: usize,
    lower: &Combination,
    upper: &Combination,
) -> Result<Sum, AllocError>
    ensures { IfOk result (λ made. made ≡ paired j lower.now upper.now) }
{
    let weights = pairing_weights(lower.entry(j), upper.entry(j));
    lower.combined(alloc, &weights, upper)
}

/// The rows join without the column, by an equality that has it, in order.
fn join_reduced(
    rows: &mut JoinedRows,
    j: usize,
    pivot: &Combination,
    others: Vec<Combination>,
) -> Result<(), EarlyEnd>
    ensures { Joins rows.old (map (reduced j pivot.now) others.items) rows.new result }
{
    for row in others {
        let made = reduce(rows.alloc, j, pivot, row)?;
        rows.join(made)?;
    }
    Ok(())
}

/// Rows by what they say of a variable: nothing, or a bound from below, or a bound from above.
#[derive(Drop)]
struct Split {
    without: Vec<Combination>,
    lower: Vec<Combination>,
    upper: Vec<Combination>,
}

impl Split {
    /// One more row goes to the end of its list.
    fn add(&mut self, j: usize, row: Combination) -> Result<(), AllocError>
        ensures without { OnOk result (self.new.without.items
            ≡ self.old.without.items ++ without j (row ∷ [])) }
        ensures lower { OnOk result (self.new.lower.items
            ≡ self.old.lower.items ++ lower_bounds j (row ∷ [])) }
        ensures upper { OnOk result (self.new.upper.items
            ≡ self.old.upper.items ++ upper_bounds j (row ∷ [])) }
    {
        if is_zero(row.entry(j)) {
            self.without.push(row)?;
        } else if is_positive(row.entry(j)) {
            self.lower.push(row)?;
        } else {
            self.upper.push(row)?;
        }
        Ok(())
    }
}

/// The rows of each kind, in order.
fn split_rows(alloc: Global, j: usize, rows: Vec<Combination>) -> Result<Split, AllocError>
    ensures without { IfOk result (λ made. made.without.items ≡ without j rows.items) }
    ensures lower { IfOk result (λ made. made.lower.items ≡ lower_bounds j rows.items) }
    ensures upper { IfOk result (λ made. made.upper.items ≡ upper_bounds j rows.items) }
{
    let mut made = Split {
        without: Vec::new(alloc),
        lower: Vec::new(alloc),
        upper: Vec::new(alloc),
    };
    for row in rows {
        made.add(j, row)?;
    }
    Ok(made)
}

/// The rows join as they are, in order.
fn join_each(rows: &mut JoinedRows, others: Vec<Combination>) -> Result<(), EarlyEnd>
    ensures { Joins rows.old others.items rows.new result }
{
    for row in others {
        rows.join(row.into_sum())?;
    }
    Ok(())
}

/// The pairs of a lower bound with each upper bound join, in order.
fn join_pairs_of(
    rows: &mut JoinedRows,
    j: usize,
    lower: &Combination,
    uppers: &[Combination],
) -> Result<(), EarlyEnd>
    ensures { Joins rows.old (map (paired j lower.now) uppers.now) rows.new result }
{
    for upper in uppers {
        let made = pair(rows.alloc, j, lower, upper)?;
        rows.join(made)?;
    }
    Ok(())
}

/// The pairs of each lower bound with each upper bound join, in order.
fn join_pairs(
    rows: &mut JoinedRows,
    j: usize,
    lowers: &[Combination],
    uppers: &[Combination],
) -> Result<(), EarlyEnd>
    ensures { Joins rows.old (pairs j lowers.now uppers.now) rows.new result }
{
    for lower in lowers {
        join_pairs_of(rows, j, lower, uppers)?;
    }
    Ok(())
}

/// The rows without the column join, and then the pairs of a lower and an upper bound.
fn join_by_pairs(rows: &mut JoinedRows, j: usize, old: Vec<Combination>) -> Result<(), EarlyEnd>
    ensures { Joins rows.old (without j old.items
        ++ pairs j (lower_bounds j old.items) (upper_bounds j old.items)) rows.new result }
{
    let split = split_rows(rows.alloc, j, old)?;
    join_each(rows, split.without)?;
    join_pairs(rows, j, split.lower.as_slice(), split.upper.as_slice())
}

/// The rows that are left of the old ones without column j join a list.
pub fn eliminate_column(
    rows: &mut JoinedRows,
    j: usize,
    mut old: Vec<Combination>,
) -> Result<(), EarlyEnd>
    ensures { Joins rows.old (projected j old.items) rows.new result }
{
    match pivot_place(old.as_slice(), j) {
        Some(at) => {
            let pivot = old.remove(at);
            join_reduced(rows, j, &pivot, old)
        }
        None => join_by_pairs(rows, j, old),
    }
}
