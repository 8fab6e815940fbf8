//! Rows with the multipliers that make them of the given rows: sums as they are made, and rows as
//! lists hold them.
ghost use Rattle.std.specs.Prelude.{◌≡◌, ◌↔◌, ◌-◌, ◌<◌, ◌^◌, ◌<ℤ◌, ◌+ℤ◌, ◌*ℤ◌, pos, map, unsigned_abs, All, IfOk, IsTrue, int_lt, length, max, slice_index_or, None, Some, if◌then◌else◌};
ghost use Rattle.std.specs.Int.{int_div_euclid};
ghost use Rattle.lin_terms.specs.Divisor.{gcd_of, gcd_with};
ghost use Rattle.lin_terms.specs.Bounds.{FitsRow};
ghost use Rattle.lin_terms.specs.Row.{IsFittingRow};
ghost use Rattle.lin_terms.specs.Vectors.{plus, scaled};
ghost use Rattle.elimination.specs.Combination.{entry, is_zero, is_positive, is_negative, combined};
ghost use Rattle.elimination.specs.Joining.{numbers_of, divided, primitive, is_wide, has_no_variable, allows, refuting_multipliers, is_parallel};
ghost use Rattle.elimination.specs.Eliminated.{given_row};
ghost use Rattle.elimination.specs.Working.{IsFittingCombination, IsSmallCombination};

use crate::multipliers::{Multipliers, Weights, product};
use lin_terms::{Row, WIDE_ROW, are_fitting_multipliers, gcd};
use sqlite_items::Items;
use std::alloc::{AllocError, Global};
use std::marker::Model;

/// A row as it is made: a sum of multiples of the given rows, with the multipliers that make it,
/// one for each given row. The coefficients run over the columns. All numbers are far from the
/// bounds of 128 bits.
#[derive(Debug, Drop)]
pub struct Sum {
    coefs: Items<i128>,
    constant: i128,
    equality: bool,
    multipliers: Multipliers,
}

impl Model for Sum {
    ghost use Rattle.elimination.specs.Combination.{Combination, combination_of};
    ghost use Rattle.elimination.specs.Working.{IsSmallCombination};

    ghost Value = { Combination };

    ghost view = { λ s. combination_of s.coefs s.constant s.equality s.multipliers };

    ghost invariant = { λ s.
        IsSmallCombination (combination_of s.coefs s.constant s.equality s.multipliers) };
}

/// A row as lists hold it: a sum whose numbers are all below 2^56 in size, so that multiples of two
/// such rows can be added.
#[derive(Debug, Drop)]
pub struct Combination {
    coefs: Items<i128>,
    constant: i128,
    equality: bool,
    multipliers: Multipliers,
}

impl Model for Combination {
    ghost use Rattle.elimination.specs.Combination.{Combination, combination_of};
    ghost use Rattle.elimination.specs.Working.{IsFittingCombination};

    ghost Value = { Combination };

    ghost view = { λ c. combination_of c.coefs c.constant c.equality c.multipliers };

    ghost invariant = { λ c.
        IsFittingCombination (combination_of c.coefs c.constant c.equality c.multipliers) };
}

/// Whether the number is 0.
pub fn is_zero(x: &i128) -> bool
    ensures { result ≡ is_zero x.now }
{
    *x == 0
}

/// Whether the number is above 0.
pub fn is_positive(x: &i128) -> bool
    ensures { result ≡ is_positive x.now }
{
    *x > 0
}

/// Whether the number is below 0.
pub fn is_negative(x: &i128) -> bool
    ensures { result ≡ is_negative x.now }
{
    *x < 0
}

/// The number at a place, and 0 past the last.
fn number_at(numbers: &[i128], i: usize) -> &i128
    requires { All FitsRow numbers.now }
    ensures number { result.now ≡ slice_index_or numbers.now i (pos 0) }
    ensures fits { FitsRow result.now }
{
    if i < numbers.len() { &numbers[i] } else { &0 }
}

/// The sum of two numbers below 2^56 in size, each times its weight.
fn weighted_sum(weights: &Weights, x: &i128, y: &i128) -> i128
    requires x_fits { FitsRow x.now }
    requires y_fits { FitsRow y.now }
    ensures { result ≡ (weights.now.first *ℤ x.now) +ℤ (weights.now.second *ℤ y.now) }
{
    product(&weights.first, x) + product(&weights.second, y)
}

/// The sum of two lists, each taken so often as its weight says. Past its end, a list has zeros.
fn weighted_sums(
    alloc: Global,
    weights: &Weights,
    xs: &[i128],
    ys: &[i128],
) -> Result<Vec<i128>, AllocError>
    requires xs_fits { All FitsRow xs.now }
    requires ys_fits { All FitsRow ys.now }
    ensures { IfOk result (λ made. made.items
        ≡ plus (scaled weights.now.first xs.now) (scaled weights.now.second ys.now)) }
{
    let count = xs.len().max(ys.len());
    let mut made = Vec::with_capacity(alloc, count)?;
    for i in 0..count {
        made.push(weighted_sum(weights, number_at(xs, i), number_at(ys, i)))?;
    }
    Ok(made)
}

/// A greatest common divisor, carried on through the numbers.
fn gcd_of_numbers(start: u128, numbers: &[i128]) -> u128
    ensures { result ≡ gcd_with start numbers.now }
{
    let mut g = start;
    for number in numbers {
        g = gcd(g, number.unsigned_abs());
    }
    g
}

/// All numbers over a divisor, rounded down.
fn quotients(alloc: Global, numbers: &[i128], divisor: &i128) -> Result<Vec<i128>, AllocError>
    requires { pos 0 <ℤ divisor.now }
    ensures { IfOk result (λ made. made.items
        ≡ map (λ x. int_div_euclid x divisor.now) numbers.now) }
{
    let mut made = Vec::with_capacity(alloc, numbers.len())?;
    for number in numbers {
        made.push(number.div_euclid(*divisor))?;
    }
    Ok(made)
}

/// The same numbers in 128 bits.
fn widened(alloc: Global, numbers: &[i64]) -> Result<Vec<i128>, AllocError>
    ensures { IfOk result (λ made. made.items ≡ numbers.now) }
{
    let mut made = Vec::with_capacity(alloc, numbers.len())?;
    for number in numbers {
        made.push(i128::from(*number))?;
    }
    Ok(made)
}

fn signed(divisor: u128) -> i128
    requires { divisor < 2 ^ 127 }
    ensures { result ≡ pos divisor }
{
    divisor as i128
}

impl Sum {
    /// A given row, which `before` of the `count` given rows stand before: its own multiplier is 1,
    /// the others are 0.
    pub fn given(alloc: Global, row: &Row, before: u32, count: u32) -> Result<Sum, AllocError>
        requires inside { before < count }
        requires fits { IsFittingRow row.now }
        ensures { IfOk result (λ made. made ≡ given_row before (count - before - 1) row.now) }
    {
        let coefs = widened(alloc, row.coefs.as_slice())?;
        let multipliers = Multipliers::unit(alloc, before, count)?;
        Ok(Sum {
            coefs: Items::from_vec(coefs),
            constant: i128::from(row.constant),
            equality: row.equality,
            multipliers,
        })
    }

    /// The greatest common divisor of all its numbers.
    fn divisor(&self) -> u128
        ensures divisor { result ≡ gcd_of (numbers_of self.now) }
        ensures small { result < 2 ^ 127 }
    {
        let constant = gcd(0, self.constant.unsigned_abs());
        let coefs = gcd_of_numbers(constant, self.coefs.as_slice());
        self.multipliers.gcd_with(coefs)
    }

    /// All its numbers over a divisor, rounded down.
    fn over(&self, alloc: Global, divisor: u128) -> Result<Sum, AllocError>
        requires positive { 0 < divisor }
        requires small { divisor < 2 ^ 127 }
        ensures { IfOk result (λ made. made ≡ divided divisor self.now) }
    {
        let divisor = signed(divisor);
        let coefs = quotients(alloc, self.coefs.as_slice(), &divisor)?;
        let multipliers = self.multipliers.over(alloc, &divisor)?;
        Ok(Sum {
            coefs: Items::from_vec(coefs),
            constant: self.constant.div_euclid(divisor),
            equality: self.equality,
            multipliers,
        })
    }

    /// The sum over the greatest common divisor of its numbers.
    pub fn primitive(self, alloc: Global) -> Result<Sum, AllocError>
        ensures { IfOk result (λ made. made ≡ primitive self) }
    {
        let divisor = self.divisor();
        if divisor <= 1 {
            return Ok(self);
        }
        self.over(alloc, divisor)
    }

    /// Whether all its numbers are below 2^56 in size.
    fn fits(&self) -> bool
        ensures { IsTrue result ↔ IsFittingCombination self.now }
    {
        self.constant.unsigned_abs() < WIDE_ROW
            && are_fitting_multipliers(self.coefs.as_slice())
            && self.multipliers.fit()
    }

    /// The sum as a row of a list, unless one of its numbers is 2^56 or more in size.
    pub fn row(self) -> Option<Combination>
        ensures { result ≡ (if is_wide (numbers_of self) then None else Some self) }
    {
        if !self.fits() {
            return None;
        }
        Some(Combination {
            coefs: self.coefs,
            constant: self.constant,
            equality: self.equality,
            multipliers: self.multipliers,
        })
    }
}

impl Combination {
    /// The row as it was made.
    pub fn into_sum(self) -> Sum
        ensures { result ≡ self }
    {
        Sum {
            coefs: self.coefs,
            constant: self.constant,
            equality: self.equality,
            multipliers: self.multipliers,
        }
    }

    /// The sum of this row and another, each taken so often as its weight says, of this one's kind.
    pub fn combined(
        &self,
        alloc: Global,
        weights: &Weights,
        second: &Combination,
    ) -> Result<Sum, AllocError>
        ensures { IfOk result (λ made. made
            ≡ combined weights.now.first self.now weights.now.second second.now) }
    {
        let coefs = weighted_sums(
            alloc,
            weights,
            self.coefs.as_slice(),
            second.coefs.as_slice(),
        )?;
        let multipliers = Multipliers::sum(alloc, weights, &self.multipliers, &second.multipliers)?;
        Ok(Sum {
            coefs: Items::from_vec(coefs),
            constant: weighted_sum(weights, &self.constant, &second.constant),
            equality: self.equality,
            multipliers,
        })
    }

    /// Its coefficient in a column, and 0 past the last.
    pub fn entry(&self, j: usize) -> &i128
        ensures entry { result.now ≡ entry j self.now }
        ensures fits { FitsRow result.now }
    {
        number_at(self.coefs.as_slice(), j)
    }

    /// Its coefficients.
    pub fn coefs(&self) -> &[i128]
        ensures { result.now ≡ self.now.row.coefs }
    {
        self.coefs.as_slice()
    }

    /// Whether it is an equality.
    pub fn is_equality(&self) -> bool
        ensures { result ≡ self.now.row.equality }
    {
        self.equality
    }

    /// Whether each coefficient is 0.
    pub fn has_no_variable(&self) -> bool
        ensures { result ≡ has_no_variable self.now.row.coefs }
    {
        self.coefs.as_slice().iter().all(is_zero)
    }

    /// Whether it holds, if it has no variable.
    pub fn allows(&self) -> bool
        ensures { result ≡ allows self.now.row.equality self.now.row.constant }
    {
        if self.equality {
            is_zero(&self.constant)
        } else {
            !is_negative(&self.constant)
        }
    }

    /// Whether it is an inequality with the coefficients of the other.
    pub fn is_parallel(&self, row: &Combination) -> bool
        ensures { result ≡ is_parallel self.now row.now }
    {
        !self.equality && self.coefs.as_slice() == row.coefs.as_slice()
    }

    /// Whether its constant is less than that of the other.
    pub fn is_tighter(&self, earlier: &Combination) -> bool
        ensures { result ≡ int_lt self.now.row.constant earlier.now.row.constant }
    {
        self.constant < earlier.constant
    }

    /// The multipliers with which the constant of a row that does not hold is negative.
    pub fn refuting_multipliers(&self, alloc: Global) -> Result<Items<i128>, AllocError>
        ensures { IfOk result (λ made. made
            ≡ refuting_multipliers self.now.row.constant self.now.multipliers) }
    {
        if is_positive(&self.constant) {
            let negated = self.multipliers.list(alloc, &-1)?;
            return Ok(negated);
        }
        let same = self.multipliers.list(alloc, &1)?;
        Ok(same)
    }
}
