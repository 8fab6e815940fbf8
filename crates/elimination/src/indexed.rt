//! Rows in order, with an index of the coefficients of the inequalities among them.
//!
//! The first 32 rows are looked through one by one, so that a short list copies and hashes nothing.
//! The coefficients of each inequality behind them are a key of a map, with the place of the first
//! row that has them.
ghost use Rattle.std.specs.Prelude.{◌≡◌, [], List, ℤ, length, take, position, IfOk, OnOk, OnErr};
ghost use Rattle.elimination.specs.Joining.{is_parallel, added};
ghost use Rattle.elimination.specs.Indexed.{scanned, place_of, noted};

use crate::combination::Combination;
use indexmap::IndexMap;
use std::alloc::{AllocError, Global};
use std::marker::Model;

/// So many rows in front are looked through one by one.
const SCANNED: usize = 32;

/// The places of rows by their coefficients.
type Places = IndexMap<Vec<i128>, usize>;

/// Rows in order.
#[derive(Drop)]
pub struct IndexedRows {
    rows: Vec<Combination>,
    places: Places,
}

impl Model for IndexedRows {
    ghost use Rattle.std.specs.Prelude.{List};
    ghost use Rattle.elimination.specs.Combination.{Combination};
    ghost use Rattle.elimination.specs.Indexed.{TellsPlaces};

    ghost Value = { List Combination };

    ghost view = { λ r. r.rows.items };

    ghost invariant = { λ r. TellsPlaces r.places r.rows.items };
}

/// The place of the first inequality with the row's coefficients.
fn parallel_in(rows: &[Combination], row: &Combination) -> Option<usize>
    ensures { result ≡ position (λ earlier. is_parallel earlier row.now) rows.now }
{
    rows.iter().position(|earlier| earlier.is_parallel(row))
}

/// The place that is noted for the row's coefficients.
fn noted_place(places: &Places, row: &Combination) -> Option<usize>
    ensures { result ≡ place_of row.now.row.coefs places.now }
{
    places.get(row.coefs()).copied()
}

/// Notes the place of a row for its coefficients, unless it is one in front.
fn note(alloc: Global, places: &mut Places, row: &Combination, at: usize) -> Result<(), AllocError>
    ensures ok { OnOk result ((coefs : List ℤ) → place_of coefs places.new
        ≡ noted row.now.row.coefs at coefs (place_of coefs places.old)) }
    ensures err { OnErr result (places.new.entries ≡ places.old.entries) }
{
    if at < SCANNED {
        return Ok(());
    }
    let coefs = Vec::from_slice(alloc, row.coefs())?;
    places.insert(coefs, at)?;
    Ok(())
}

impl IndexedRows {
    /// No rows yet.
    pub fn new(alloc: Global) -> IndexedRows
        ensures { result ≡ [] }
    {
        IndexedRows {
            rows: Vec::new(alloc),
            places: IndexMap::new(alloc),
        }
    }

    /// How many rows there are.
    pub fn len(&self) -> usize
        ensures { result ≡ length self.now }
    {
        self.rows.len()
    }

    /// All of them.
    pub fn into_rows(self) -> Vec<Combination>
        ensures { result.items ≡ self }
    {
        self.rows
    }

    /// The rows in front.
    fn front(&self) -> &[Combination]
        ensures { result.now ≡ take scanned self.now }
    {
        let count = self.rows.len().min(SCANNED);
        &self.rows[..count]
    }

    /// The place of the first inequality with the row's coefficients.
    fn parallel(&self, row: &Combination) -> Option<usize>
        ensures { result ≡ position (λ earlier. is_parallel earlier row.now) self.now }
    {
        match parallel_in(self.front(), row) {
            Some(at) => Some(at),
            None => noted_place(&self.places, row),
        }
    }

    /// An equality goes to the end. An inequality goes to the end, or takes or leaves the place of
    /// the first parallel one.
    pub fn add(&mut self, alloc: Global, row: Combination) -> Result<(), AllocError>
        ensures { OnOk result (self.new ≡ added self.old row) }
    {
        if row.is_equality() {
            self.rows.push(row)?;
            return Ok(());
        }
        match self.parallel(&row) {
            None => {
                self.rows.reserve(1)?;
                note(alloc, &mut self.places, &row, self.rows.len())?;
                self.rows.push(row)?;
            }
            Some(at) => {
                if row.is_tighter(&self.rows[at]) {
                    self.rows[at] = row;
                }
            }
        }
        Ok(())
    }
}
