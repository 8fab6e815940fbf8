//! The points of some rows, asked about one more row after the other.

use crate::ascent::{Ascent, Step};
use crate::dictionary::Dictionary;
use crate::feasible::Feasibility;
use crate::guess::Guess;
use lin_terms::{Row, columns_of};
use std::alloc::{AllocError, Global};
use std::slice;

/// What is known of the rows.
#[derive(Debug, Drop)]
enum Status {
    /// The dictionary's point meets them.
    Feasible,
    /// No point meets them: these multipliers refute them.
    Infeasible(Vec<i128>),
    /// Nothing: the search for a point gave up.
    Unknown,
    /// A point meets them, but the last question gave up and left the dictionary spoilt.
    Spoilt,
}

/// The points that meet some rows, with a dictionary that is kept from one question to the next.
#[derive(Drop)]
pub struct Polyhedron<'a> {
    rows: &'a [Row],
    dictionary: Dictionary,
    status: Status,
}

fn infeasible(found: Option<Vec<i128>>) -> Status {
    match found {
        Some(multipliers) => Status::Infeasible(multipliers),
        None => Status::Unknown,
    }
}

/// Makes the dictionary of `count` rows feasible.
fn started(alloc: Global, dictionary: &mut Dictionary, count: usize) -> Result<Status, AllocError> {
    match dictionary.make_feasible() {
        Some(Feasibility::Feasible) => Ok(Status::Feasible),
        Some(Feasibility::Infeasible(number)) => {
            let found = dictionary.line_multipliers(alloc, number, count)?;
            Ok(infeasible(found))
        }
        None => Ok(Status::Unknown),
    }
}

/// The multipliers, with 0 for one more row.
fn with_zero(alloc: Global, multipliers: &[i128]) -> Result<Guess, AllocError> {
    let mut made = Vec::from_slice(alloc, multipliers)?;
    made.push(0)?;
    Ok(Guess::Multipliers(made))
}

impl<'a> Polyhedron<'a> {
    /// The points that meet the rows, which have one length. It makes at most 1,000 pivots.
    pub fn new(alloc: Global, rows: &'a [Row]) -> Result<Polyhedron<'a>, AllocError> {
        let mut dictionary = Dictionary::new(alloc, rows)?;
        let status = started(alloc, &mut dictionary, rows.len())?;
        Ok(Polyhedron {
            rows,
            dictionary,
            status,
        })
    }

    /// Begins anew where the last question spoilt the dictionary.
    fn restore(&mut self, alloc: Global) -> Result<(), AllocError> {
        if matches!(self.status, Status::Spoilt) {
            let mut dictionary = Dictionary::new(alloc, self.rows)?;
            self.status = started(alloc, &mut dictionary, self.rows.len())?;
            self.dictionary = dictionary;
        }
        Ok(())
    }

    /// The guess where the dictionary is feasible.
    fn ask(&mut self, alloc: Global, row: &Row) -> Result<Guess, AllocError> {
        match self.dictionary.ascend(row) {
            Some(Ascent::Reached(step)) => self.dictionary.point_after(alloc, &step),
            Some(Ascent::Short) => {
                let count = self.rows.len();
                let found = self.dictionary.objective_multipliers(alloc, count)?;
                Ok(Guess::of_multipliers(found))
            }
            None => {
                self.status = Status::Spoilt;
                Ok(Guess::Nothing)
            }
        }
    }

    /// Guesses whether the rows and one more, the last, have a point, from where the last question
    /// ended. It makes at most 1,000 pivots. Of a row of another length it guesses nothing. The
    /// row does not stay: the next question is about the same rows and another one.
    ///
    /// Example: of `x - 1 >= 0` it guesses for `-x >= 0` the multipliers 1 and 1, and then for
    /// `3 - 2x >= 0` the point 1 over 1.
    pub fn try_with(&mut self, alloc: Global, row: &Row) -> Result<Guess, AllocError> {
        if self.rows.is_empty() {
            return try_point(alloc, slice::from_ref(row));
        }
        if row.coefs.len() != columns_of(self.rows) {
            return Ok(Guess::Nothing);
        }
        self.dictionary.begin_call();
        self.restore(alloc)?;
        if let Status::Infeasible(multipliers) = &self.status {
            return with_zero(alloc, multipliers.as_slice());
        }
        if matches!(self.status, Status::Feasible) {
            return self.ask(alloc, row);
        }
        Ok(Guess::Nothing)
    }
}

/// Guesses whether the rows, which have one length, have a point. It makes at most 1,000 pivots.
///
/// Example: of `x - 1 >= 0` and `-x >= 0` it guesses the multipliers 1 and 1; of `2x - 1 >= 0` and
/// `1 - 2x >= 0` it guesses the point 1 over 2.
pub fn try_point(alloc: Global, rows: &[Row]) -> Result<Guess, AllocError> {
    let mut dictionary = Dictionary::new(alloc, rows)?;
    match dictionary.make_feasible() {
        Some(Feasibility::Feasible) => dictionary.point_after(alloc, &Step::none()),
        Some(Feasibility::Infeasible(number)) => {
            let found = dictionary.line_multipliers(alloc, number, rows.len())?;
            Ok(Guess::of_multipliers(found))
        }
        None => Ok(Guess::Nothing),
    }
}
