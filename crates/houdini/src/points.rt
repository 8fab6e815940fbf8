//! Points that show which atoms at the end of a clause fail.
ghost use Rattle.std.specs.Prelude.{◌≡◌, ◌≤◌, ◌⊎◌, ℕ, true, false, slice_index_or, IfErr};
ghost use Rattle.houdini.specs.Failures.{Marks};
ghost use Rattle.houdini.specs.Pass.{IsCause};

use crate::Stop;
use crate::failure::Failure;
use lin_prover::{Guess, is_point_of};
use lin_terms::{Point, Row};
use re_base::Watch;
use simplex::{Polyhedron, try_point};
use std::alloc::{AllocError, Global};

/// The most points that are kept for a clause.
const MOST_POINTS: usize = 8;

/// Sets the mark with this number, if there is one.
fn set_mark(marks: &mut [bool], number: usize)
    ensures { (i : ℕ) → slice_index_or marks.new i false ≡ true
        → (slice_index_or marks.old i false ≡ true) ⊎ (i ≡ number) }
{
    if number < marks.len() {
        marks[number] = true;
    }
}

/// Marks the atoms that fail at the point, where it meets the rows of the start.
fn mark_at(start: &[Row], failures: &[Failure], point: &Point, marks: &mut [bool])
    ensures { Marks start.now failures.now marks.old marks.new }
{
    if !is_point_of(start, point) {
        return;
    }
    for failure in failures {
        if is_point_of(failure.rows.as_slice(), point) {
            set_mark(marks, failure.atom);
        }
    }
}

/// The same at each of the points.
pub(crate) fn mark_at_all(start: &[Row], failures: &[Failure], points: &[Point], marks: &mut [bool])
    ensures { Marks start.now failures.now marks.old marks.new }
{
    for point in points {
        mark_at(start, failures, point, marks);
    }
}

/// Guesses whether some point meets the rows of the start and fails the atom.
fn guess<'a>(
    alloc: Global,
    start: &[Row],
    polyhedron: &mut Polyhedron<'a>,
    failure: &Failure,
) -> Result<Guess, AllocError> {
    match failure.rows.as_slice() {
        [row, ..] => polyhedron.try_with(alloc, row),
        [] => try_point(alloc, start),
    }
}

/// Keeps the point, and of more than eight the last ones.
fn keep(points: &mut Vec<Point>, point: Point) -> Result<(), AllocError> {
    if points.len() >= MOST_POINTS {
        points.remove(0);
    }
    points.push(point)?;
    Ok(())
}

fn is_marked(marks: &[bool], number: usize) -> bool {
    number < marks.len() && marks[number]
}

/// Asks of each atom without a mark whether it may fail, and marks all that fail at the points that
/// are guessed. The watch is asked before each question.
pub(crate) fn ask<W: Watch>(
    alloc: Global,
    start: &[Row],
    failures: &[Failure],
    points: &mut Vec<Point>,
    marks: &mut [bool],
    watch: &mut W,
) -> Result<(), Stop>
    ensures marks { Marks start.now failures.now marks.old marks.new }
    ensures later { W.stops watch.old ≤ W.stops watch.new }
    ensures cause { IfErr result (IsCause (W.stops watch.old) (W.stops watch.new)) }
{
    let mut polyhedron = Polyhedron::new(alloc, start)?;
    for failure in failures {
        if is_marked(marks, failure.atom) {
            continue;
        }
        if watch.stop() {
            return Err(Stop::Stopped);
        }
        if let Guess::Point(point) = guess(alloc, start, &mut polyhedron, failure)? {
            mark_at(start, failures, &point, marks);
            keep(points, point)?;
        }
    }
    Ok(())
}
