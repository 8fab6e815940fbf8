//! Lines of a dictionary: the coefficients of the nonbasic variables, then the constant.
//!
//! Here and above, `None` says that a number would pass 128 bits.
ghost use Rattle.std.specs.Prelude.{◌≡◌, ◌<◌, ◌*◌, length};

use crate::divisor::Divisor;

/// A number, or its opposite where that is told.
pub fn negated_if(negative: bool, x: i128) -> Option<i128> {
    if negative { x.checked_neg() } else { Some(x) }
}

/// `x * y` where one of them passes 64 bits. This is rare, and stands apart since a pivot takes
/// twice as long where it is inlined.
#[cold]
#[inline(never)]
fn wide_product(x: i128, y: i128) -> Option<i128> {
    x.checked_mul(y)
}

/// `x * y`. Mostly both fit 64 bits: then it is one instruction, and needs no test.
#[inline(always)]
pub fn product(x: i128, y: i128) -> Option<i128> {
    match (i64::try_from(x), i64::try_from(y)) {
        (Ok(x), Ok(y)) => Some(i128::from(x) * i128::from(y)),
        _ => wide_product(x, y),
    }
}

/// `x * y + z * w`.
#[inline(always)]
pub fn sum_of_products(x: i128, y: i128, z: i128, w: i128) -> Option<i128> {
    product(x, y)?.checked_add(product(z, w)?)
}

/// The line of this number, where `count` lines of one width stand one after the other.
pub fn line_of(lines: &[i128], width: usize, count: usize, number: usize) -> &[i128]
    requires shape { length lines.now ≡ count * width }
    requires within { number < count }
    ensures { length result.now ≡ width }
{
    let start = number * width;
    &lines[start..start + width]
}

/// Adds a multiple of another line.
pub fn add_multiple(line: &mut [i128], added: &[i128], times: i128) -> Option<()>
    requires { length line.old ≡ length added.now }
{
    for (j, entry) in added.iter().enumerate() {
        line[j] = line[j].checked_add(product(*entry, times)?)?;
    }
    Some(())
}

/// Changes all signs.
pub fn negate(line: &mut [i128]) -> Option<()> {
    for entry in line.iter_mut() {
        *entry = entry.checked_neg()?;
    }
    Some(())
}

/// Solves the leaving variable's line for the entering variable, which has a column of it. Where
/// the entry there is negative all signs change, so that the new denominator is positive.
pub fn solve(
    entering: &mut [i128],
    leaving: &[i128],
    column: usize,
    denominator: i128,
) -> Option<()>
    requires lengths { length entering.old ≡ length leaving.now }
    requires within { column < length leaving.now }
{
    let negative = leaving[column] < 0;
    for (j, entry) in leaving.iter().enumerate() {
        entering[j] = negated_if(!negative, *entry)?;
    }
    entering[column] = negated_if(negative, denominator)?;
    Some(())
}

/// A pivot, as the other lines see it: the entering variable stands in them by its own line.
#[derive(Drop)]
pub struct Substitution {
    /// The line of the leaving variable.
    pub line: usize,
    /// The column of the entering variable.
    pub column: usize,
    /// The new denominator.
    pub factor: i128,
    /// The old denominator.
    pub divisor: Divisor,
    /// Whether the two are the same.
    pub keeps: bool,
}

impl Substitution {
    /// A new entry: `(factor * entry + times * added) / divisor`.
    #[inline(always)]
    fn entry(&self, entry: i128, times: i128, added: i128) -> Option<i128> {
        if added == 0 && (entry == 0 || self.keeps) {
            return Some(entry);
        }
        let sum = sum_of_products(self.factor, entry, times, added)?;
        Some(self.divisor.quotient(sum))
    }

    /// Puts the entering variable's line in place of the variable, which stood in the column. What
    /// stands there afterwards is the leaving variable's entry: its old one is 0.
    pub fn substitute(&self, line: &mut [i128], entering: &[i128]) -> Option<()>
        requires lengths { length line.old ≡ length entering.now }
        requires within { self.now.column < length entering.now }
    {
        let times = line[self.column];
        if times == 0 && self.keeps {
            return Some(());
        }
        line[self.column] = 0;
        for (j, added) in entering.iter().enumerate() {
            line[j] = self.entry(line[j], times, *added)?;
        }
        Some(())
    }

    /// The same in each of `count` lines but the leaving variable's, which becomes the entering
    /// variable's.
    pub fn substitute_in_all(
        &self,
        lines: &mut [i128],
        entering: &[i128],
        count: usize,
    ) -> Option<()>
        requires shape { length lines.old ≡ count * length entering.now }
        requires within { self.now.column < length entering.now }
    {
        let width = entering.len();
        for number in 0..count {
            let start = number * width;
            let line = &mut lines[start..start + width];
            if number == self.line {
                line.copy_from_slice(entering);
            } else {
                self.substitute(line, entering)?;
            }
        }
        Some(())
    }
}
