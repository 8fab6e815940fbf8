//! What is guessed, and how it is read off a dictionary.
ghost use Rattle.std.specs.Prelude.{◌≡◌, ◌<◌, ◌+◌, ◌^◌, length, vec_len};

use crate::ascent::Step;
use crate::dictionary::Dictionary;
use crate::line::{negated_if, product};
use crate::variable::Variable;
use lin_terms::{Point, gcd};
use sqlite_items::Items;
use std::alloc::{AllocError, Global};

/// Whether rows have a point, as far as it was found out. It promises nothing: not even that there
/// are as many numbers as rows or columns, that they are small, or that a denominator is positive.
#[derive(Debug, Drop)]
pub enum Guess {
    /// A multiplier for each row, with which they should refute the rows.
    Multipliers(Vec<i128>),
    /// A point that should meet the rows: a number for each column.
    Point(Point),
    /// Nothing: a number would pass 128 bits, or 1,000 pivots did not do.
    Nothing,
}

impl Guess {
    /// The multipliers, where there are some.
    pub(crate) fn of_multipliers(found: Option<Vec<i128>>) -> Guess {
        match found {
            Some(multipliers) => Guess::Multipliers(multipliers),
            None => Guess::Nothing,
        }
    }
}

/// Sets the number at a place, if there is one.
fn put(numbers: &mut [i128], place: usize, number: i128) {
    if place < numbers.len() {
        numbers[place] = number;
    }
}

/// The greatest common divisor of the numbers and one more.
fn divisor_of(numbers: &[i128], last: i128) -> u128 {
    let mut divisor = last.unsigned_abs();
    for number in numbers {
        divisor = gcd(divisor, number.unsigned_abs());
    }
    divisor
}

/// A number over a divisor of it, and the number itself where that is none.
fn quotient(number: i128, divisor: u128) -> i128 {
    match i128::try_from(divisor) {
        Ok(divisor) if divisor > 1 => number / divisor,
        _ => number,
    }
}

/// Divides the numbers by a common divisor.
fn divide(numbers: &mut [i128], divisor: u128) {
    for number in numbers.iter_mut() {
        *number = quotient(*number, divisor);
    }
}

impl Dictionary {
    /// The multipliers of the rows whose left sides are nonbasic.
    fn put_nonbasic(&self, made: &mut [i128], line: &[i128], negative: bool) -> Option<()>
        requires { length line.now ≡ vec_len self.now.nonbasic + 1 }
    {
        for (column, variable) in self.nonbasic.iter().enumerate() {
            if !variable.is_free() {
                put(made, variable.number(), negated_if(negative, line[column])?);
            }
        }
        Some(())
    }

    /// Multipliers out of the line of a row's left side which cannot be what it has to be: this
    /// left side times the denominator, less the nonbasic left sides times their entries, is the
    /// line's constant. Where that is positive all signs change.
    fn put_multipliers(&self, made: &mut [i128], line: &[i128], row: usize) -> Option<()>
        requires { length line.now ≡ vec_len self.now.nonbasic + 1 }
    {
        let positive = line[self.nonbasic.len()] > 0;
        put(made, row, negated_if(positive, self.denominator())?);
        self.put_nonbasic(made, line, !positive)?;
        divide(made, divisor_of(made, 0));
        Some(())
    }

    /// Multipliers of `count` rows, or nothing where a number would pass 128 bits.
    fn multipliers(
        &self,
        alloc: Global,
        line: &[i128],
        row: usize,
        count: usize,
    ) -> Result<Option<Vec<i128>>, AllocError>
        requires { length line.now ≡ vec_len self.now.nonbasic + 1 }
    {
        let mut made = vec![in alloc; 0; count]?;
        match self.put_multipliers(made.as_mut_slice(), line, row) {
            Some(()) => Ok(Some(made)),
            None => Ok(None),
        }
    }

    /// Multipliers of `count` rows, where the basic variable of this line cannot be what it has to
    /// be.
    pub fn line_multipliers(
        &self,
        alloc: Global,
        number: usize,
        count: usize,
    ) -> Result<Option<Vec<i128>>, AllocError>
        requires { number < vec_len self.now.basic }
    {
        let row = self.basic[number].number();
        self.multipliers(alloc, self.line(number), row, count)
    }

    /// Multipliers of `count` rows and one more, the last, whose left side is the objective and
    /// cannot be what it has to be.
    pub fn objective_multipliers(
        &self,
        alloc: Global,
        count: usize,
    ) -> Result<Option<Vec<i128>>, AllocError>
        requires { count + 1 < 2 ^ 64 }
    {
        self.multipliers(alloc, self.objective(), count, count + 1)
    }

    /// The basic variables of the rows at the end of a step.
    fn put_basic(&self, made: &mut [i128], step: &Step) -> Option<()> {
        for (number, variable) in self.basic.iter().enumerate() {
            if variable.is_free() {
                put(made, variable.number(), step.value(self.line(number))?);
            }
        }
        Some(())
    }

    /// The entering variable at the end of a step, if it is one of the rows.
    fn put_entering(&self, made: &mut [i128], step: &Step) -> Option<()> {
        if let Some(Variable::Free(column)) = self.nonbasic.get(step.column) {
            put(made, *column, product(self.denominator(), step.rise)?);
        }
        Some(())
    }

    /// The numbers of the point at the end of a step. The denominator is answered.
    fn put_point(&self, made: &mut [i128], step: &Step) -> Option<i128> {
        self.put_basic(made, step)?;
        self.put_entering(made, step)?;
        let denominator = product(self.denominator(), step.over)?;
        let divisor = divisor_of(made, denominator);
        divide(made, divisor);
        Some(quotient(denominator, divisor))
    }

    /// The guess that the point at the end of a step meets the rows.
    pub fn point_after(&self, alloc: Global, step: &Step) -> Result<Guess, AllocError> {
        let mut made = vec![in alloc; 0; self.nonbasic.len()]?;
        match self.put_point(made.as_mut_slice(), step) {
            Some(denominator) => Ok(Guess::Point(Point {
                numbers: Items::from_vec(made),
                denominator,
            })),
            None => Ok(Guess::Nothing),
        }
    }
}
