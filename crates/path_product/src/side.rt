//! The cases of a side's move: so many segments, one after another, depth first.
ghost use Rattle.std.specs.Prelude.{◌≡◌, ◌≤◌, ◌++◌, ◌∷◌, [], map, length, take, Ok, IfOk, IfErr, OnOk};
ghost use Rattle.sym_paths.specs.Walk.{gives};
ghost use Rattle.sym_paths.specs.Nodes.{end_at};
ghost use Rattle.path_product.specs.Fits.{FitsCase, FitStarts};
ghost use Rattle.path_product.specs.Sides.{goes_on, at_start, side_from, side_cases};
ghost use Rattle.path_product.specs.Coded.{state_of, end_of, by_first, by_case, path_of_side, gathered, left_after, IsLimit, CanGoOn};

use crate::compose::{Reached, case_over, copied_forms, copied_rows, with_unknowns};
use crate::starts::{Start, cases_in, is_same_place, width_in};
use c_ast::Place;
use horn_clauses::columns_in;
use lin_terms::{Form, Row};
use sqlite_items::Items;
use std::alloc::{AllocError, Global};
use sym_paths::{Case, MOST_CASES, MOST_UNKNOWNS, PathLimit};

/// One case of a side's move. Its rows and forms have a column for each variable in scope at the
/// move's start, by rising number, then one for each unknown; zeros at their ends may be left out.
#[derive(Debug, Drop)]
pub(crate) struct SidePath {
    /// The case holds where some whole numbers for the unknowns make all rows hold.
    pub rows: Items<Row>,
    /// How many columns there are.
    pub columns: u32,
    /// The place where the side is then.
    pub to: Place,
    /// The values there.
    pub after: Items<Form>,
}

/// So many of the rows stay.
fn cut(rows: &mut Items<Row>, kept: usize)
    ensures { rows.new ≡ take kept rows.old }
{
    while rows.len() > kept {
        rows.pop();
    }
}

/// Whether a side that took a segment from the first place to the second goes on from there.
fn goes_on(from: Place, to: Place) -> bool
    ensures { result ≡ goes_on from to }
{
    match from {
        Place::Entry => true,
        Place::Mark(_) => is_same_place(to, from),
        Place::Exit => false,
    }
}

/// How many segments may still come behind one that leads from the first place to the second.
fn left_after(count: u32, from: Place, to: Place) -> u32
    ensures left { result ≡ left_after (goes_on from to) count }
    ensures few { result ≤ count }
{
    if goes_on(from, to) { count } else { 0 }
}

fn push(paths: &mut Vec<SidePath>, path: SidePath) -> Result<(), AllocError>
    ensures { OnOk result (paths.new.items ≡ paths.old.items ++ path ∷ []) }
{
    paths.push(path)?;
    Ok(())
}

/// The path joins, unless there are 1,024.
fn arrive(paths: &mut Vec<SidePath>, path: SidePath) -> Result<(), PathLimit>
    ensures joined { OnOk result (gathered paths.old.items
        (gives (end_at path.to path.after) (state_of path.rows path.columns))
        ≡ Ok (map path_of_side paths.new.items)) }
    ensures limit { IfErr result (IsLimit (gathered paths.old.items
        (gives (end_at path.to path.after) (state_of path.rows path.columns)))) }
{
    if paths.len() >= MOST_CASES {
        return Err(PathLimit::ManyPaths);
    }
    push(paths, path)?;
    Ok(())
}

/// The side stays where it is.
fn stay(
    alloc: Global,
    rows: &[Row],
    at: Reached,
    paths: &mut Vec<SidePath>,
) -> Result<(), PathLimit>
    ensures joined { OnOk result (gathered paths.old.items
        (gives (end_of at) (state_of rows.now at.columns))
        ≡ Ok (map path_of_side paths.new.items)) }
    ensures limit { IfErr result (IsLimit (gathered paths.old.items
        (gives (end_of at) (state_of rows.now at.columns)))) }
{
    let rows = copied_rows(alloc, rows)?;
    let Reached {
        place,
        columns,
        forms,
    } = at;
    let path = SidePath {
        rows,
        columns,
        to: place,
        after: forms,
    };
    arrive(paths, path)
}

/// What a walk is over.
#[derive(Debug, Drop)]
struct Walk<'a> {
    alloc: Global,
    /// The cases from all places.
    starts: &'a [Start],
    /// The variables of the move's start and at most 16 unknowns.
    most: usize,
}

impl Walk<'_> {
    /// A case of the next segment, and what comes behind it.
    #[cycle(walk)]
    fn take_case(
        &self,
        count: u32,
        at: &Reached,
        case: &Case,
        rows: &mut Items<Row>,
        paths: &mut Vec<SidePath>,
    ) -> Result<(), PathLimit>
        requires starts { FitStarts self.now.starts.now }
        requires at { CanGoOn self.now.starts.now self.now.most at.now }
        requires case { FitsCase self.now.starts.now (length at.now.forms) case.now }
        requires few { (self.now.most ≤ 80) × (length at.now.forms ≤ 64) }
        ensures joined { OnOk result (gathered paths.old.items
            (by_case self.now.starts.now self.now.most count at.now rows.old case.now)
            ≡ Ok (map path_of_side paths.new.items)) }
        ensures limit { IfErr result (IsLimit (gathered paths.old.items
            (by_case self.now.starts.now self.now.most count at.now rows.old case.now))) }
        ensures kept { OnOk result (rows.new ≡ rows.old) }
    {
        let kept = rows.len();
        let forms = at.forms.as_slice();
        match case_over(self.alloc, self.most, forms, case, at.columns, rows)? {
            None => {
                cut(rows, kept);
                Ok(())
            }
            Some(next) => {
                let left = left_after(count, at.place, next.place);
                self.walk_on(left, next, rows, paths)?;
                cut(rows, kept);
                Ok(())
            }
        }
    }

    /// At most so many segments more, from where the side is.
    #[cycle(walk)]
    fn walk_on(
        &self,
        count: u32,
        at: Reached,
        rows: &mut Items<Row>,
        paths: &mut Vec<SidePath>,
    ) -> Result<(), PathLimit>
        requires starts { FitStarts self.now.starts.now }
        requires at { CanGoOn self.now.starts.now self.now.most at }
        requires few { self.now.most ≤ 80 }
        ensures joined { OnOk result (gathered paths.old.items (side_from self.now.starts.now
            self.now.most count (end_of at) (state_of rows.old at.columns))
            ≡ Ok (map path_of_side paths.new.items)) }
        ensures limit { IfErr result (IsLimit (gathered paths.old.items (side_from
            self.now.starts.now self.now.most count (end_of at) (state_of rows.old at.columns)))) }
        ensures kept { OnOk result (rows.new ≡ rows.old) }
    {
        if count == 0 || is_same_place(at.place, Place::Exit) {
            return stay(self.alloc, rows.as_slice(), at, paths);
        }
        for case in cases_in(self.starts, at.place) {
            self.take_case(count - 1, &at, case, rows, paths)?;
        }
        Ok(())
    }
}

/// A case of the first segment, which stays as it is, and what comes behind it.
fn first_case(
    alloc: Global,
    starts: &[Start],
    width: usize,
    count: u32,
    from: Place,
    case: &Case,
    paths: &mut Vec<SidePath>,
) -> Result<(), PathLimit>
    requires starts { FitStarts starts.now }
    requires case { FitsCase starts.now width case.now }
    requires few { width ≤ 64 }
    ensures joined { OnOk result (gathered paths.old.items
        (by_first starts.now width count from case.now) ≡ Ok (map path_of_side paths.new.items)) }
    ensures limit { IfErr result (IsLimit (gathered paths.old.items
        (by_first starts.now width count from case.now))) }
{
    let columns = columns_in(width, case.rows.as_slice(), case.after.as_slice()) as u32;
    let forms = copied_forms(alloc, case.after.as_slice())?;
    let mut rows = copied_rows(alloc, case.rows.as_slice())?;
    let left = left_after(count, from, case.to);
    if left == 0 {
        let path = SidePath {
            rows,
            columns,
            to: case.to,
            after: forms,
        };
        return arrive(paths, path);
    }
    let at = Reached {
        place: case.to,
        columns,
        forms,
    };
    let walk = Walk {
        alloc,
        starts,
        most: width + MOST_UNKNOWNS,
    };
    walk.walk_on(left, at, &mut rows, paths)
}

/// The start of a move: its variables are forms of themselves.
fn at_start(alloc: Global, width: u32, place: Place) -> Result<Reached, AllocError>
    ensures end { IfOk result (λ at. end_of at ≡ at_start width place) }
    ensures columns { IfOk result (λ at. at.columns ≡ width) }
{
    let all = width as usize;
    let forms = with_unknowns(alloc, all, &[], 0, all)?;
    Ok(Reached {
        place,
        columns: width,
        forms,
    })
}

/// The cases of a move of at most so many segments from the place, or the first limit that the
/// walk meets; that there is a 1,025th case is one.
pub(crate) fn side_cases(
    alloc: Global,
    starts: &[Start],
    count: u32,
    place: Place,
) -> Result<Vec<SidePath>, PathLimit>
    requires { FitStarts starts.now }
    ensures cases { IfOk result (λ paths.
        side_cases starts.now count place ≡ Ok (map path_of_side paths.items)) }
    ensures limit { IfErr result (IsLimit (side_cases starts.now count place)) }
{
    let width = width_in(starts, place);
    let mut paths = Vec::new(alloc);
    if count == 0 || is_same_place(place, Place::Exit) {
        let at = at_start(alloc, width, place)?;
        stay(alloc, &[], at, &mut paths)?;
        return Ok(paths);
    }
    for case in cases_in(starts, place) {
        first_case(
            alloc,
            starts,
            width as usize,
            count - 1,
            place,
            case,
            &mut paths,
        )?;
    }
    Ok(paths)
}
