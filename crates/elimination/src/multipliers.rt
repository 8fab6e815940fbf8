//! The multipliers of a row: a number for each given row, few of which are not 0.
//!
//! Those that are not 0 are kept, by rising number of their rows. Contracts see the list of all.
ghost use Rattle.std.specs.Prelude.{◌≡◌, ℕ, ℤ, List, [], ◌<◌, ◌^◌, ◌-◌, ◌↔◌, ◌<ℤ◌, ◌+ℤ◌, ◌*ℤ◌, pos, map, IsTrue, unsigned_abs, All, IfOk, OnOk, length, replicate, ◌∷◌, ◌++◌};
ghost use Rattle.std.specs.Int.{int_div_euclid};
ghost use Rattle.lin_terms.specs.Divisor.{gcd_of, gcd_with};
ghost use Rattle.lin_terms.specs.Bounds.{FitsRow};
ghost use Rattle.lin_terms.specs.Vectors.{plus, scaled};
ghost use Rattle.elimination.specs.Sparse.{at, first_row, front_of, behind_row, IsRising, IsAdded, quotient_of, quotients_of, table};

use lin_terms::{WIDE_ROW, gcd};
use sqlite_items::Items;
use std::alloc::{AllocError, Global};
use std::marker::Model;

/// The multiplier of a given row.
#[derive(Clone, Copy, Debug, Drop)]
pub struct Multiplier {
    row: u32,
    value: i128,
}

/// The multipliers of `count` rows.
#[derive(Debug, Drop)]
pub struct Multipliers {
    count: u32,
    entries: Items<Multiplier>,
}

impl Model for Multipliers {
    ghost use Rattle.std.specs.Prelude.{List, ℤ};
    ghost use Rattle.std.specs.Coded.{coded_list, coded_ℤ};

    ghost Value = { List ℤ };

    ghost coded = { coded_list coded_ℤ };

    ghost use Rattle.elimination.specs.Sparse.{table, IsRising};

    ghost view = { λ m. table 0 m.count m.entries };

    ghost invariant = { λ m. IsRising 0 m.count m.entries };
}

/// How often each of two rows is taken in their sum. Both numbers are below 2^56 in size.
#[derive(Debug, Drop)]
pub struct Weights {
    pub first: i128,
    pub second: i128,
    ghost first_fits: { FitsRow first },
    ghost second_fits: { FitsRow second },
}

/// The product of two numbers below 2^56 in size.
pub fn product(x: &i128, y: &i128) -> i128
    requires x_fits { FitsRow x.now }
    requires y_fits { FitsRow y.now }
    ensures value { result ≡ x.now *ℤ y.now }
    ensures small { unsigned_abs result < 2 ^ 112 }
{
    *x * *y
}

/// The number of the first row, and `count` where there is none.
fn first_row(entries: &[Multiplier], count: u32) -> u32
    ensures { result ≡ first_row count entries.now }
{
    match entries {
        [] => count,
        [first, ..] => first.row,
    }
}

/// A number times the multiplier of the row, where that stands in front.
fn front_product(times: &i128, entries: &[Multiplier], row: u32) -> i128
    requires times_fits { FitsRow times.now }
    requires fits { All (λ entry. FitsRow entry.value) entries.now }
    ensures value { result ≡ times.now *ℤ front_of row entries.now }
    ensures small { unsigned_abs result < 2 ^ 112 }
{
    match entries {
        [first, ..] if first.row == row => product(times, &first.value),
        _ => 0,
    }
}

/// The list behind the multiplier of the row, where that stands in front.
fn behind_row(entries: &[Multiplier], row: u32) -> &[Multiplier]
    ensures { result.now ≡ behind_row row entries.now }
{
    match entries {
        [first, others @ ..] if first.row == row => others,
        _ => entries,
    }
}

/// What the sum of two lists, each taken so often as its weight says, has for a row that stands in
/// front or in neither.
fn front_sum(weights: &Weights, ps: &[Multiplier], qs: &[Multiplier], row: u32) -> i128
    requires ps_fits { All (λ entry. FitsRow entry.value) ps.now }
    requires qs_fits { All (λ entry. FitsRow entry.value) qs.now }
    ensures { result ≡ (weights.now.first *ℤ front_of row ps.now)
        +ℤ (weights.now.second *ℤ front_of row qs.now) }
{
    front_product(&weights.first, ps, row) + front_product(&weights.second, qs, row)
}

/// Adds the multiplier of a later row at the end, unless it is 0.
fn add_entry(made: &mut Vec<Multiplier>, row: u32, value: &i128) -> Result<(), AllocError>
    ensures { OnOk result (IsAdded row value.now made.old.items made.new.items) }
{
    if *value != 0 {
        made.push(Multiplier { row, value: *value })?;
    }
    Ok(())
}

/// The sum of two lists for `count` rows, each taken so often as its weight says.
fn sum_of_entries(
    alloc: Global,
    count: u32,
    weights: &Weights,
    ps: &[Multiplier],
    qs: &[Multiplier],
) -> Result<Vec<Multiplier>, AllocError>
    requires ps_fits { All (λ entry. FitsRow entry.value) ps.now }
    requires qs_fits { All (λ entry. FitsRow entry.value) qs.now }
    requires ps_rising { IsRising 0 count ps.now }
    requires qs_rising { IsRising 0 count qs.now }
    ensures rising { IfOk result (λ made. IsRising 0 count made.items) }
    ensures sums { IfOk result (λ made. (row : ℕ) → at made.items row
        ≡ (weights.now.first *ℤ at ps.now row) +ℤ (weights.now.second *ℤ at qs.now row)) }
{
    let mut made = Vec::new(alloc);
    let (mut ps_left, mut qs_left) = (ps, qs);
    while !ps_left.is_empty() || !qs_left.is_empty() {
        let row = first_row(ps_left, count).min(first_row(qs_left, count));
        let value = front_sum(weights, ps_left, qs_left, row);
        add_entry(&mut made, row, &value)?;
        ps_left = behind_row(ps_left, row);
        qs_left = behind_row(qs_left, row);
    }
    Ok(made)
}

/// Whether each multiplier is below 2^56 in size.
fn entries_fit(entries: &[Multiplier]) -> bool
    ensures { IsTrue result ↔ All (λ entry. FitsRow entry.value) entries.now }
{
    entries
        .iter()
        .all(|entry| entry.value.unsigned_abs() < WIDE_ROW)
}

/// A multiplier over a divisor, rounded down.
fn quotient(entry: &Multiplier, divisor: &i128) -> Multiplier
    requires { pos 0 <ℤ divisor.now }
    ensures { result ≡ quotient_of divisor.now entry.now }
{
    Multiplier {
        row: entry.row,
        value: entry.value.div_euclid(*divisor),
    }
}

/// All multipliers over a divisor, rounded down.
fn quotients(
    alloc: Global,
    entries: &[Multiplier],
    divisor: &i128,
) -> Result<Vec<Multiplier>, AllocError>
    requires { pos 0 <ℤ divisor.now }
    ensures { IfOk result (λ made. made.items ≡ quotients_of divisor.now entries.now) }
{
    let mut made = Vec::with_capacity(alloc, entries.len())?;
    for entry in entries {
        made.push(quotient(entry, divisor))?;
    }
    Ok(made)
}

/// A greatest common divisor, carried on through the multipliers.
fn gcd_of_entries(start: u128, entries: &[Multiplier]) -> u128
    ensures { result ≡ gcd_with start (map (λ entry. entry.value) entries.now) }
{
    let mut g = start;
    for entry in entries {
        g = gcd(g, entry.value.unsigned_abs());
    }
    g
}

/// The multipliers of `count` rows, each times a number.
fn scaled_list(
    alloc: Global,
    times: &i128,
    count: u32,
    entries: &[Multiplier],
) -> Result<Vec<i128>, AllocError>
    requires times_fits { FitsRow times.now }
    requires fits { All (λ entry. FitsRow entry.value) entries.now }
    requires rising { IsRising 0 count entries.now }
    ensures { IfOk result (λ made. made.items ≡ scaled times.now (table 0 count entries.now)) }
{
    let mut made = Vec::with_capacity(alloc, count as usize)?;
    let mut left = entries;
    for row in 0..count {
        push_product(&mut made, times, left, row)?;
        left = behind_row(left, row);
    }
    Ok(made)
}

/// Adds a number times the multiplier of the row, where that stands in front, and 0 otherwise.
fn push_product(
    made: &mut Vec<i128>,
    times: &i128,
    left: &[Multiplier],
    row: u32,
) -> Result<(), AllocError>
    requires times_fits { FitsRow times.now }
    requires fits { All (λ entry. FitsRow entry.value) left.now }
    ensures { OnOk result (made.new.items
        ≡ made.old.items ++ (times.now *ℤ front_of row left.now) ∷ []) }
{
    made.push(front_product(times, left, row))?;
    Ok(())
}

impl Multipliers {
    /// The multiplier 1 for a row, and 0 for the `count - 1` others.
    pub fn unit(alloc: Global, row: u32, count: u32) -> Result<Multipliers, AllocError>
        requires { row < count }
        ensures { IfOk result (λ made. made
            ≡ replicate row (pos 0) ++ pos 1 ∷ replicate (count - row - 1) (pos 0)) }
    {
        let mut entries = Items::new(alloc);
        entries.push(Multiplier { row, value: 1 })?;
        Ok(Multipliers { count, entries })
    }

    /// The sum of two lists, each taken so often as its weight says.
    pub fn sum(
        alloc: Global,
        weights: &Weights,
        first: &Multipliers,
        second: &Multipliers,
    ) -> Result<Multipliers, AllocError>
        requires first_fits { All FitsRow first.now }
        requires second_fits { All FitsRow second.now }
        ensures { IfOk result (λ made. made
            ≡ plus (scaled weights.now.first first.now) (scaled weights.now.second second.now)) }
    {
        let count = first.count.max(second.count);
        let entries = sum_of_entries(
            alloc,
            count,
            weights,
            first.entries.as_slice(),
            second.entries.as_slice(),
        )?;
        Ok(Multipliers {
            count,
            entries: Items::from_vec(entries),
        })
    }

    /// Whether each is below 2^56 in size.
    pub fn fit(&self) -> bool
        ensures { IsTrue result ↔ All FitsRow self.now }
    {
        entries_fit(self.entries.as_slice())
    }

    /// All of them, over a divisor, rounded down.
    pub fn over(&self, alloc: Global, divisor: &i128) -> Result<Multipliers, AllocError>
        requires { pos 0 <ℤ divisor.now }
        ensures { IfOk result (λ made. made ≡ map (λ x. int_div_euclid x divisor.now) self.now) }
    {
        let entries = quotients(alloc, self.entries.as_slice(), divisor)?;
        Ok(Multipliers {
            count: self.count,
            entries: Items::from_vec(entries),
        })
    }

    /// A greatest common divisor of some numbers, carried on through the multipliers.
    pub fn gcd_with(&self, start: u128) -> u128
        ensures { (numbers : List ℤ) → start ≡ gcd_of numbers
            → result ≡ gcd_of (numbers ++ self.now) }
    {
        gcd_of_entries(start, self.entries.as_slice())
    }

    /// All of them, each times a number.
    pub fn list(&self, alloc: Global, times: &i128) -> Result<Items<i128>, AllocError>
        requires times_fits { FitsRow times.now }
        requires fits { All FitsRow self.now }
        ensures { IfOk result (λ made. made ≡ scaled times.now self.now) }
    {
        let made = scaled_list(alloc, times, self.count, self.entries.as_slice())?;
        Ok(Items::from_vec(made))
    }
}
