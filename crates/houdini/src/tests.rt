//! Products of three nodes, whose greatest families were worked out by hand.
ghost use Rattle.std.specs.Prelude.{◌≡◌, ◌≤◌, ◌^◌, IsTrue, length, All, unsigned_abs};
ghost use Rattle.lin_terms.specs.Row.{EntriesAreBelow};
ghost use Rattle.horn_clauses.specs.Clause.{FitsClause, columns_in};
ghost use Rattle.horn_clauses.specs.Obligations.{FitsNode};
ghost use Rattle.coupling_check.specs.Checks.{CanCheckClause, CanCheck};

use crate::{Outcome, Stop, greatest};
use c_ast::Place;
use elimination::Limit;
use horn_clauses::{Atom, Clause, Family, Node, Product, Rel};
use lin_terms::{Form, Row, are_fitting_forms};
use re_base::{Never, StopAt, Watch};
use sqlite_items::Items;
use std::alloc::{AllocError, Global};
use std::test::Fail;

/// 2^50 - 1, the greatest constant.
const GREATEST: u64 = (1 << 50) - 1;

/// The coefficients, the constant and the relation of an atom; `None` is the atom `false`.
type AtomEntries = Option<(&'static [i64], i64, Rel)>;

/// The coefficients and the constant of a row, and whether it is an equality.
type RowEntries = (&'static [i64], i64, bool);

/// The coefficients and the constant of a form.
type FormEntries = (&'static [i64], i64);

/// A clause: its start, its rows, its end, and the values there.
type ClauseEntries = (Node, &'static [RowEntries], Node, &'static [FormEntries]);

/// The atoms at the entries, at the mark, and at the exits.
type FamilyEntries = (
    &'static [AtomEntries],
    &'static [AtomEntries],
    &'static [AtomEntries],
);

const ENTRIES: Node = Node(Place::Entry, Place::Entry);

const MARKS: Node = Node(Place::Mark(0), Place::Mark(0));

const EXITS: Node = Node(Place::Exit, Place::Exit);

const EQUAL: AtomEntries = Some((&[1, -1], 0, Rel::Eq));

const NOT_NEGATIVE: AtomEntries = Some((&[1, 0], 0, Rel::AtLeast));

const LESS_OR_EQUAL: AtomEntries = Some((&[-1, 1], 0, Rel::AtLeast));

/// Both values as they are.
const SAME: &[FormEntries] = &[(&[1, 0], 0), (&[0, 1], 0)];

/// Both values, raised by 1.
const BOTH_RAISED: &[FormEntries] = &[(&[1, 0], 1), (&[0, 1], 1)];

/// Both values, the first raised by 1.
const FIRST_RAISED: &[FormEntries] = &[(&[1, 0], 1), (&[0, 1], 0)];

/// A product, its candidates, and its greatest family where there is one.
#[derive(Clone, Copy)]
struct Case {
    clauses: &'static [ClauseEntries],
    candidates: FamilyEntries,
    want: Option<FamilyEntries>,
}

const CASES: [Case; 5] = [
    // x and y are raised side by side
    Case {
        clauses: &[
            (ENTRIES, &[], MARKS, SAME),
            (MARKS, &[], MARKS, BOTH_RAISED),
            (MARKS, &[], EXITS, SAME),
        ],
        candidates: (&[EQUAL], &[EQUAL, NOT_NEGATIVE], &[EQUAL, NOT_NEGATIVE]),
        want: Some((&[EQUAL], &[EQUAL], &[EQUAL])),
    },
    // x alone is raised, so that the exits lose their atom at last
    Case {
        clauses: &[
            (ENTRIES, &[], MARKS, SAME),
            (MARKS, &[], MARKS, FIRST_RAISED),
            (MARKS, &[], EXITS, SAME),
        ],
        candidates: (&[EQUAL], &[EQUAL, LESS_OR_EQUAL], &[EQUAL, LESS_OR_EQUAL]),
        want: None,
    },
    // the exits are not met
    Case {
        clauses: &[
            (ENTRIES, &[], MARKS, SAME),
            (MARKS, &[(&[1, -1], -1, false)], EXITS, SAME),
        ],
        candidates: (&[EQUAL], &[LESS_OR_EQUAL, EQUAL], &[None, NOT_NEGATIVE]),
        want: Some((&[EQUAL], &[LESS_OR_EQUAL, EQUAL], &[None, NOT_NEGATIVE])),
    },
    // the exits say nothing of the results
    Case {
        clauses: &[(ENTRIES, &[], EXITS, SAME)],
        candidates: (&[EQUAL], &[], &[LESS_OR_EQUAL]),
        want: None,
    },
    // the entries would lose an atom
    Case {
        clauses: &[
            (ENTRIES, &[], ENTRIES, FIRST_RAISED),
            (ENTRIES, &[], EXITS, BOTH_RAISED),
        ],
        candidates: (&[EQUAL, NOT_NEGATIVE], &[], &[EQUAL]),
        want: None,
    },
];

// ---- whether a search may be asked for

fn are_small(coefs: &[i64]) -> bool
    ensures { IsTrue result → All (λ coef. unsigned_abs coef ≤ 2) coefs.now }
{
    coefs.iter().all(|coef| coef.unsigned_abs() <= 2)
}

fn fits_node(width: usize, atom: &Atom) -> bool
    ensures { IsTrue result → FitsNode width atom.now }
{
    match atom {
        Atom::False => true,
        Atom::Linear {
            coefs,
            constant,
            ..
        } => {
            coefs.len() == width
                && are_small(coefs.as_slice())
                && constant.unsigned_abs() <= GREATEST
        }
    }
}

fn fit_node(width: usize, atoms: &[Atom]) -> bool
    ensures { IsTrue result → All (FitsNode width) atoms.now }
{
    atoms.iter().all(|atom| fits_node(width, atom))
}

fn is_small(row: &Row) -> bool
    ensures { IsTrue result → EntriesAreBelow (2 ^ 50) row.now }
{
    row.constant.unsigned_abs() <= GREATEST
        && row
            .coefs
            .as_slice()
            .iter()
            .all(|entry| entry.unsigned_abs() <= GREATEST)
}

fn have_columns(columns: usize, rows: &[Row], forms: &[Form]) -> bool
    ensures rows { IsTrue result → All (λ row. length row.coefs ≡ columns) rows.now }
    ensures forms { IsTrue result → All (λ form. length form.coefs ≡ columns) forms.now }
{
    rows.iter().all(|row| row.coefs.len() == columns)
        && forms.iter().all(|form| form.coefs.len() == columns)
}

fn columns_in(width: usize, rows: &[Row], forms: &[Form]) -> usize
    ensures { result ≡ columns_in width rows.now forms.now }
{
    match (rows, forms) {
        ([row, ..], _) => row.coefs.len(),
        ([], [form, ..]) => form.coefs.len(),
        ([], []) => width,
    }
}

fn fits_clause(start: usize, end: usize, clause: &Clause) -> bool
    ensures { IsTrue result → FitsClause start end clause.now }
{
    let (rows, forms) = (clause.rows.as_slice(), clause.after.as_slice());
    let columns = columns_in(start, rows, forms);
    if columns < start || columns > start.saturating_add(16) || forms.len() != end {
        return false;
    }
    have_columns(columns, rows, forms) && rows.iter().all(is_small) && are_fitting_forms(forms)
}

fn can_check_clause(family: &Family, clause: &Clause, start: usize, end: usize) -> bool
    ensures { IsTrue result → CanCheckClause family.now clause.now }
{
    let Some(first) = family.at(&clause.from) else {
        return false;
    };
    let Some(last) = family.at(&clause.to) else {
        return false;
    };
    if start > 16 || end > 16 || !fit_node(start, first) {
        return false;
    }
    fit_node(end, last) && fits_clause(start, end, clause)
}

fn can_check(product: &Product, family: &Family) -> bool
    ensures { IsTrue result → CanCheck product.now family.now }
{
    product
        .clauses
        .as_slice()
        .iter()
        .all(|clause| can_check_clause(family, clause, 2, 2))
}

// ---- the tables

fn atom(alloc: Global, entries: AtomEntries) -> Result<Atom, AllocError> {
    match entries {
        None => Ok(Atom::False),
        Some((coefs, constant, rel)) => {
            let coefs = Items::from_slice(alloc, coefs)?;
            Ok(Atom::Linear {
                coefs,
                constant,
                rel,
            })
        }
    }
}

fn atoms(alloc: Global, given: &[AtomEntries]) -> Result<Items<Atom>, AllocError> {
    let mut made = Items::new(alloc);
    for entries in given {
        made.push(atom(alloc, *entries)?)?;
    }
    Ok(made)
}

fn rows(alloc: Global, given: &[RowEntries]) -> Result<Items<Row>, AllocError> {
    let mut made = Items::new(alloc);
    for entries in given {
        made.push(Row::new(alloc, entries.0, entries.1, entries.2)?)?;
    }
    Ok(made)
}

fn forms(alloc: Global, given: &[FormEntries]) -> Result<Items<Form>, AllocError> {
    let mut made = Items::new(alloc);
    for entries in given {
        let coefs = Items::from_slice(alloc, entries.0)?;
        made.push(Form {
            coefs,
            constant: entries.1,
        })?;
    }
    Ok(made)
}

fn family_of(alloc: Global, given: FamilyEntries) -> Result<Family, AllocError> {
    let mut nodes = Items::new(alloc);
    nodes.push((ENTRIES, atoms(alloc, given.0)?))?;
    nodes.push((MARKS, atoms(alloc, given.1)?))?;
    nodes.push((EXITS, atoms(alloc, given.2)?))?;
    Ok(Family { nodes })
}

fn clause_of(alloc: Global, given: &ClauseEntries) -> Result<Clause, AllocError> {
    let rows = rows(alloc, given.1)?;
    let after = forms(alloc, given.3)?;
    Ok(Clause {
        from: given.0,
        rows,
        to: given.2,
        after,
    })
}

fn product_of(alloc: Global, given: &[ClauseEntries]) -> Result<Product, AllocError> {
    let mut clauses = Items::new(alloc);
    for entries in given {
        clauses.push(clause_of(alloc, entries)?)?;
    }
    let nodes = Items::new(alloc);
    Ok(Product { nodes, clauses })
}

/// What a search of the case answers, where it may be asked for.
fn searched<W: Watch>(alloc: Global, case: &Case, watch: &mut W) -> Result<Option<Outcome>, Stop> {
    let product = product_of(alloc, case.clauses)?;
    let candidates = family_of(alloc, case.candidates)?;
    if !can_check(&product, &candidates) {
        return Ok(None);
    }
    let outcome = greatest(alloc, &product, candidates, 256, watch)?;
    Ok(Some(outcome))
}

fn is_kept(alloc: Global, family: &Family, want: FamilyEntries) -> Result<bool, AllocError> {
    let wanted = family_of(alloc, want)?;
    Ok(family.same(&wanted))
}

fn is_wanted(alloc: Global, outcome: &Outcome, case: &Case) -> Result<bool, AllocError> {
    match (outcome, case.want) {
        (Outcome::Kept(family, _), Some(want)) => is_kept(alloc, family, want),
        (Outcome::NoCoupling, None) => Ok(true),
        _ => Ok(false),
    }
}

/// Whether the answer is the case's, or that the search was stopped.
fn is_answered(alloc: Global, case: &Case, after: u32) -> Result<Option<bool>, AllocError> {
    match searched(alloc, case, &mut StopAt::new(after)) {
        Ok(Some(outcome)) => Ok(Some(is_wanted(alloc, &outcome, case)?)),
        Ok(None) => Ok(Some(false)),
        Err(Stop::Stopped) => Ok(None),
        Err(Stop::Memory) => Err(AllocError),
    }
}

#[test]
fn families_are_the_greatest(rt: HostRuntime) -> Result<(), Fail> {
    for (i, case) in CASES.iter().enumerate() {
        let answered = is_answered(rt.alloc(), case, 1_000)?;
        assert_eq!(rt; answered, Some(true), "row {i}");
    }
    Ok(())
}

/// The first case asks 3, 2 and 3 questions about points, and then 6 of the prover.
#[test]
fn a_search_is_stopped_before_any_question(rt: HostRuntime) -> Result<(), Fail> {
    for after in 0..14 {
        assert_eq!(rt;
            is_answered(rt.alloc(), &CASES[0], after)?,
            None,
            "after {after}"
        );
    }
    assert_eq!(rt; is_answered(rt.alloc(), &CASES[0], 14)?, Some(true));
    Ok(())
}

/// A clause with 4,096 rows, which with the atom at its start are too many.
fn long_product(alloc: Global) -> Result<Product, AllocError> {
    let mut rows = Items::new(alloc);
    for _ in 0..4_096 {
        rows.push(Row::new(alloc, &[1, -1], 0, true)?)?;
    }
    let mut clauses = Items::new(alloc);
    let after = forms(alloc, SAME)?;
    clauses.push(Clause {
        from: ENTRIES,
        rows,
        to: EXITS,
        after,
    })?;
    let nodes = Items::new(alloc);
    Ok(Product { nodes, clauses })
}

fn meets_limit(alloc: Global) -> Result<bool, Stop> {
    let product = long_product(alloc)?;
    let candidates = family_of(alloc, CASES[0].candidates)?;
    if !can_check(&product, &candidates) {
        return Ok(false);
    }
    match greatest(alloc, &product, candidates, 1, &mut Never)? {
        Outcome::Limit {
            obligation,
            limit,
            ..
        } => Ok(obligation == 0 && limit == Limit::ManyRows),
        _ => Ok(false),
    }
}

#[test]
fn a_limit_ends_a_search(rt: HostRuntime) -> Result<(), Fail> {
    assert!(rt; meets_limit(rt.alloc()) == Ok(true));
    Ok(())
}
