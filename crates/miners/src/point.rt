//! The values with which a pair of traces meets a node, side by side in memory.
ghost use Rattle.std.specs.Prelude.{◌≡◌, ◌+◌, ◌+ℤ◌, ◌++◌, ◌<◌, ◌≤◌, ◌^◌, ◌*ℤ◌, ◌↔◌, IsTrue, All, unsigned_abs, slice_index_or, pos};
ghost use Rattle.c_ast.specs.FitsRun.{FitsRun};
ghost use Rattle.miners.specs.Kept.{value_within, IsWithin, product_at, sum_at};

use crate::shape::{Shape, Term};
use std::marker::Model;

/// How many values a node has at most of which atoms are mined.
pub const WIDEST: usize = 16;

/// Values below 2^100 in size, and zeros after them. Contracts see the list.
#[derive(Clone, Copy, Debug)]
pub struct Point {
    values: [i128; WIDEST],
}

impl Model for Point {
    ghost use Rattle.std.specs.Prelude.{List, ℤ, All};
    ghost use Rattle.c_ast.specs.FitsRun.{FitsRun};

    ghost Value = { List ℤ };

    ghost view = { λ p. p.values };

    ghost invariant = { λ p. All FitsRun p.values };

    ghost inverse = { λ values. record { values = values } };
}

/// The value at the place; 0 past the end.
fn value_in(values: &[i128], place: usize) -> &i128
    requires { All FitsRun values.now }
    ensures value { result.now ≡ slice_index_or values.now place (pos 0) }
    ensures fits { FitsRun result.now }
{
    match values.get(place) {
        Some(value) => value,
        None => &0,
    }
}

/// The value at the place, of side A's values and then side B's, if it is among the first so many;
/// 0 elsewhere.
fn value_at<'a>(first: &'a [i128], second: &'a [i128], width: usize, place: usize) -> &'a i128
    requires first { All FitsRun first.now }
    requires second { All FitsRun second.now }
    ensures value { result.now ≡ value_within width (first.now ++ second.now) place }
    ensures fits { FitsRun result.now }
{
    if place >= width {
        return &0;
    }
    if place < first.len() {
        return value_in(first, place);
    }
    value_in(second, place - first.len())
}

fn same_values(first: &[i128], second: &[i128]) -> bool
    ensures { IsTrue result ↔ (first.now ≡ second.now) }
{
    first == second
}

fn added(x: &i128, y: &i128) -> i128
    requires { unsigned_abs x.now + unsigned_abs y.now < 2 ^ 127 }
    ensures sum { result ≡ x.now +ℤ y.now }
    ensures below { unsigned_abs result ≤ unsigned_abs x.now + unsigned_abs y.now }
{
    *x + *y
}

impl Point {
    /// The first so many of side A's values and then side B's.
    pub fn of(first: &[i128], second: &[i128], width: usize) -> Point
        requires narrow { width ≤ 16 }
        requires first { All FitsRun first.now }
        requires second { All FitsRun second.now }
        ensures { IsWithin width (first.now ++ second.now) result }
    {
        let mut values = [0; WIDEST];
        for place in 0..WIDEST {
            values[place] = *value_at(first, second, width, place);
        }
        Point { values }
    }

    /// Whether the points are equal.
    pub fn same(&self, other: &Point) -> bool
        ensures { IsTrue result ↔ (self.now ≡ other.now) }
    {
        same_values(&self.values, &other.values)
    }

    fn product(&self, term: &Term) -> i128
        ensures product { result ≡ product_at term.now self.now }
        ensures below { unsigned_abs result < 2 ^ 101 }
    {
        match self.values.get(usize::from(term.index)) {
            Some(value) => term.coef.times(value),
            None => 0,
        }
    }

    /// The sum of the values, each times its coefficient.
    #[tactic(auto, unfolding(crate::specs::Kept::sum_at))]
    pub fn sum(&self, shape: &Shape) -> i128
        ensures sum { result ≡ sum_at shape.now self.now }
        ensures below { unsigned_abs result < 2 ^ 103 }
    {
        let last = added(&self.product(&shape.third), &self.product(&shape.fourth));
        let others = added(&self.product(&shape.second), &last);
        added(&self.product(&shape.first), &others)
    }
}
