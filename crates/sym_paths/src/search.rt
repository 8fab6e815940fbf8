//! The search for the cases of a segment or of a condition: a list of moves, of which the last is
//! the next.
//!
//! All moves share one list of rows. Each knows how many rows of it stand in front of its own, and
//! no move keeps more than one that is taken before it: what is behind is dropped as it is taken.
ghost use Rattle.std.specs.Prelude.{◌≡◌, ◌<◌, ◌≤◌, ◌^◌, ◌++◌, ◌∷◌, [], All, take, reverse, map, length, Ok, IfOk, IfErr, OnOk};
ghost use Rattle.sym_paths.specs.Cases.{completed};
ghost use Rattle.sym_paths.specs.Arrivals.{fresh, path_of, pending_of, entry_of};
ghost use Rattle.sym_paths.specs.Arrivals.{IsUnderWay, EntryIsSound, graph_of};
ghost use Rattle.sym_paths.specs.Waiting.{waiting, IsLimit, IsOneTooMany, searched_from, CanGoOn, GoesOn, Comes};

use crate::PathLimit;
use crate::advance::advanced;
use crate::case::{Case, completed};
use crate::limit::MOST_CASES;
use crate::task::{Entry, Move, Pending, Subject};
use c_ast::Place;
use lin_terms::{Form, Row};
use sqlite_items::Items;
use std::alloc::{AllocError, Global};

/// A move that waits.
#[derive(Debug, Drop)]
pub struct Waiting<'a> {
    /// How many of the rows stand in front of its own.
    pub kept: usize,
    pub entry: Entry<'a>,
}

/// So many of the rows stay.
fn cut(rows: &mut Items<Row>, kept: usize)
    ensures { rows.new ≡ take kept rows.old }
{
    while rows.len() > kept {
        rows.pop();
    }
}

/// So many of the rows stay, and the move's own join.
fn keep(rows: &mut Items<Row>, kept: usize, own: Items<Row>) -> Result<(), AllocError>
    ensures { OnOk result (rows.new ≡ take kept rows.old ++ own) }
{
    cut(rows, kept);
    rows.append(own)
}

/// What a step comes to is taken before all that waits.
pub(crate) fn wait<'a>(
    work: &mut Vec<Waiting<'a>>,
    kept: usize,
    mut moves: Vec<Entry<'a>>,
) -> Result<(), AllocError>
    ensures { OnOk result (reverse work.new.items
        ≡ map (waiting kept) moves.entry.items ++ reverse work.old.items) }
{
    while let Some(entry) = moves.pop() {
        work.push(Waiting { kept, entry })?;
    }
    Ok(())
}

fn push(cases: &mut Vec<Case>, case: Case) -> Result<(), AllocError>
    ensures { OnOk result (cases.new.items ≡ cases.old.items ++ case ∷ []) }
{
    cases.push(case)?;
    Ok(())
}

/// A complete case joins, unless there are 1,024.
fn end(
    alloc: Global,
    rows: &[Row],
    columns: u32,
    to: Place,
    forms: &[Form],
    cases: &mut Vec<Case>,
) -> Result<(), PathLimit>
    requires few { length cases.old.items ≤ 1024 }
    ensures joined { OnOk result ((length cases.old.items < 1024) × (cases.new.items
        ≡ cases.old.items ++ completed (path_of rows.now columns to forms.now) ∷ [])) }
    ensures limit { IfErr result (IsOneTooMany cases.old.items) }
{
    if cases.len() >= MOST_CASES {
        return Err(PathLimit::ManyPaths);
    }
    let case = completed(alloc, rows, columns, to, forms)?;
    push(cases, case)?;
    Ok(())
}

/// A case under way takes its next step.
fn go<'a>(
    alloc: Global,
    room: usize,
    subject: Subject<'a>,
    count: usize,
    pending: Pending<'a>,
    columns: u32,
    work: &mut Vec<Waiting<'a>>,
) -> Result<(), AllocError>
    requires sound { IsUnderWay room (graph_of subject) pending }
    requires few { room < 2 ^ 32 }
    ensures { OnOk result (Comes room (graph_of subject.entry) count (pending_of pending.entry)
        columns (reverse work.old.items) (reverse work.new.items)) }
{
    let moves = advanced(alloc, room, subject, pending, columns)?;
    wait(work, count, moves)
}

/// The next move is taken.
fn step<'a>(
    alloc: Global,
    room: usize,
    subject: Subject<'a>,
    rows: &mut Items<Row>,
    work: &mut Vec<Waiting<'a>>,
    cases: &mut Vec<Case>,
    next: Waiting<'a>,
) -> Result<(), PathLimit>
    requires can { CanGoOn room (graph_of subject) rows.old (next ∷ reverse work.old.items)
        cases.old.items }
    requires few { room < 2 ^ 32 }
    ensures goes { OnOk result (GoesOn room (graph_of subject.entry) rows.old rows.new
        (next.entry ∷ reverse work.old.items) (reverse work.new.items)
        cases.old.items cases.new.items) }
    ensures limit { IfErr result (IsLimit (searched_from room (graph_of subject.entry) rows.old
        (next.entry ∷ reverse work.old.items) cases.old.items)) }
{
    let Waiting { kept, entry } = next;
    match entry {
        Entry::Stops(limit) => Err(limit),
        Entry::Arrives {
            rows: own,
            columns,
            step,
        } => {
            keep(rows, kept, own)?;
            match step {
                Move::Ends(to, forms) => {
                    end(alloc, rows.as_slice(), columns, to, forms.as_slice(), cases)
                }
                Move::Goes(pending) => {
                    let count = rows.len();
                    Ok(go(alloc, room, subject, count, pending, columns, work)?)
                }
            }
        }
    }
}

/// All cases that the moves come to, or the first limit.
pub(crate) fn search<'a>(
    alloc: Global,
    room: usize,
    subject: Subject<'a>,
    mut work: Vec<Waiting<'a>>,
) -> Result<Vec<Case>, PathLimit>
    requires can { CanGoOn room (graph_of subject) [] (reverse work.items) [] }
    requires few { room < 2 ^ 32 }
    ensures cases { IfOk result (λ cases.
        searched_from room (graph_of subject.entry) [] (reverse work.entry.items) []
        ≡ Ok cases.items) }
    ensures limit { IfErr result (IsLimit
        (searched_from room (graph_of subject.entry) [] (reverse work.entry.items) [])) }
{
    let mut rows = Items::new(alloc);
    let mut cases = Vec::new(alloc);
    while let Some(next) = work.pop() {
        step(alloc, room, subject, &mut rows, &mut work, &mut cases, next)?;
    }
    Ok(cases)
}
