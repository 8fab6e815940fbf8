//! A clause between two nodes, whose lists of multipliers were worked out by hand.
ghost use Rattle.std.specs.Prelude.{◌≡◌, ◌≤◌, ◌^◌, IsTrue, length, All, unsigned_abs};
ghost use Rattle.lin_terms.specs.Row.{EntriesAreBelow};
ghost use Rattle.horn_clauses.specs.Clause.{FitsClause};
ghost use Rattle.horn_clauses.specs.Obligations.{FitsNode};
ghost use Rattle.coupling_check.specs.Checks.{CanCheckClause, CanCheck};

use crate::{check_obligations, checks};
use c_ast::Place;
use horn_clauses::{Atom, Clause, Family, Node, Product, Proofs, Rel, columns_in};
use lin_terms::{Form, Row, are_fitting_forms};
use sqlite_items::Items;
use std::alloc::{AllocError, Global};
use std::test::Fail;

/// 2^50 - 1, the greatest constant.
const GREATEST: u64 = (1 << 50) - 1;

/// The coefficients, the constant and the relation of an atom; `None` is the atom `false`.
type AtomEntries = Option<(&'static [i64], i64, Rel)>;

/// The coefficients and the constant of a row, and whether it is an equality.
type RowEntries = (&'static [i64], i64, bool);

/// The coefficients and the constant of a form.
type FormEntries = (&'static [i64], i64);

/// A clause between two nodes, each with two variables.
struct Case {
    /// The atoms at its start.
    start: &'static [AtomEntries],
    rows: &'static [RowEntries],
    after: &'static [FormEntries],
    /// The atoms at its end.
    end: &'static [AtomEntries],
    /// The lists of multipliers, and what the check of them comes to.
    lists: &'static [(&'static [&'static [i128]], Result<usize, usize>)],
}

const EQUAL: AtomEntries = Some((&[1, -1], 0, Rel::Eq));

const CASES: [Case; 5] = [
    // x = y, then 2x and 2y: both obligations of 2x = 2y
    Case {
        start: &[EQUAL],
        rows: &[],
        after: &[(&[2, 0], 0), (&[0, 2], 0)],
        end: &[EQUAL],
        lists: &[
            (&[&[2, 1], &[-2, 1]], Ok(2)),
            (&[&[6, 3], &[-4, 2]], Ok(2)),
            // zeros
            (&[&[0, 0], &[0, 0]], Err(0)),
            (&[&[2, 1], &[0, 0]], Err(1)),
            // one list short, and one too many
            (&[], Err(0)),
            (&[&[2, 1]], Err(1)),
            (&[&[2, 1], &[-2, 1], &[5]], Ok(2)),
            // another order, and another number of multipliers
            (&[&[-2, 1], &[2, 1]], Err(0)),
            (&[&[2, 1], &[-2, 1, 0]], Err(1)),
            (&[&[2, 1], &[-2]], Err(1)),
            // multipliers below 2^56, and one of 2^56
            (&[&[2, 1], &[-(1 << 55), 1 << 54]], Ok(2)),
            (&[&[2, 1], &[-(1 << 56), 1 << 55]], Err(1)),
        ],
    },
    // the same with 2y + 1, so that 2x is less
    Case {
        start: &[EQUAL],
        rows: &[],
        after: &[(&[2, 0], 0), (&[0, 2], 1)],
        end: &[EQUAL],
        lists: &[(&[&[2, 1], &[-2, 1]], Err(0))],
    },
    // the start is not met, then x >= 1 from x - 1 >= 0, which asks for one list
    Case {
        start: &[None],
        rows: &[(&[1, 0], -1, false)],
        after: &[(&[1, 0], 0), (&[0, 1], 0)],
        end: &[Some((&[1, 0], 1, Rel::AtLeast))],
        lists: &[
            (&[&[1, 0, 0]], Ok(1)),
            (&[&[0, 1, 1]], Ok(1)),
            (&[&[0, 1, 0]], Err(0)),
            (&[&[0, 2, 1]], Err(0)),
        ],
    },
    // x = y and x - y - 1 >= 0, so the end is not met
    Case {
        start: &[EQUAL],
        rows: &[(&[1, -1], -1, false)],
        after: &[(&[1, 0], 0), (&[0, 1], 0)],
        end: &[None],
        lists: &[(&[&[-1, 1]], Ok(1)), (&[&[1, 1]], Err(0))],
    },
    // two atoms at the end, and an unknown z: x is 2z and y is z + z
    Case {
        start: &[],
        rows: &[],
        after: &[(&[0, 0, 2], 0), (&[0, 0, 2], 0)],
        end: &[Some((&[1, -1], 0, Rel::AtLeast)), EQUAL],
        lists: &[
            (&[&[1], &[1], &[1]], Ok(3)),
            (&[&[1], &[1], &[0]], Err(2)),
            (&[&[1], &[1]], Err(2)),
        ],
    },
];

// ---- whether the check may be asked

fn are_small(coefs: &[i64]) -> bool
    ensures { IsTrue result → All (λ coef. unsigned_abs coef ≤ 2) coefs.now }
{
    coefs.iter().all(|coef| coef.unsigned_abs() <= 2)
}

fn fits_node(width: usize, atom: &Atom) -> bool
    ensures { IsTrue result → FitsNode width atom.now }
{
    match atom {
        Atom::False => true,
        Atom::Linear {
            coefs,
            constant,
            ..
        } => {
            coefs.len() == width
                && are_small(coefs.as_slice())
                && constant.unsigned_abs() <= GREATEST
        }
    }
}

fn fit_node(width: usize, atoms: &[Atom]) -> bool
    ensures { IsTrue result → All (FitsNode width) atoms.now }
{
    atoms.iter().all(|atom| fits_node(width, atom))
}

fn is_small(row: &Row) -> bool
    ensures { IsTrue result → EntriesAreBelow (2 ^ 50) row.now }
{
    row.constant.unsigned_abs() <= GREATEST
        && row
            .coefs
            .as_slice()
            .iter()
            .all(|entry| entry.unsigned_abs() <= GREATEST)
}

fn have_columns(columns: usize, rows: &[Row], forms: &[Form]) -> bool
    ensures rows { IsTrue result → All (λ row. length row.coefs ≡ columns) rows.now }
    ensures forms { IsTrue result → All (λ form. length form.coefs ≡ columns) forms.now }
{
    rows.iter().all(|row| row.coefs.len() == columns)
        && forms.iter().all(|form| form.coefs.len() == columns)
}

fn fits_clause(start: usize, end: usize, clause: &Clause) -> bool
    ensures { IsTrue result → FitsClause start end clause.now }
{
    let (rows, forms) = (clause.rows.as_slice(), clause.after.as_slice());
    let columns = columns_in(start, rows, forms);
    if columns < start || columns > start.saturating_add(16) || forms.len() != end {
        return false;
    }
    have_columns(columns, rows, forms) && rows.iter().all(is_small) && are_fitting_forms(forms)
}

fn can_check_clause(family: &Family, clause: &Clause, start: usize, end: usize) -> bool
    ensures { IsTrue result → CanCheckClause family.now clause.now }
{
    let Some(first) = family.at(&clause.from) else {
        return false;
    };
    let Some(last) = family.at(&clause.to) else {
        return false;
    };
    if start > 16 || end > 16 || !fit_node(start, first) {
        return false;
    }
    fit_node(end, last) && fits_clause(start, end, clause)
}

fn can_check(product: &Product, family: &Family) -> bool
    ensures { IsTrue result → CanCheck product.now family.now }
{
    product
        .clauses
        .as_slice()
        .iter()
        .all(|clause| can_check_clause(family, clause, 2, 2))
}

// ---- the table

fn atom(alloc: Global, entries: AtomEntries) -> Result<Atom, AllocError> {
    match entries {
        None => Ok(Atom::False),
        Some((coefs, constant, rel)) => {
            let coefs = Items::from_slice(alloc, coefs)?;
            Ok(Atom::Linear {
                coefs,
                constant,
                rel,
            })
        }
    }
}

fn atoms(alloc: Global, given: &[AtomEntries]) -> Result<Items<Atom>, AllocError> {
    let mut made = Items::new(alloc);
    for entries in given {
        made.push(atom(alloc, *entries)?)?;
    }
    Ok(made)
}

fn rows(alloc: Global, given: &[RowEntries]) -> Result<Items<Row>, AllocError> {
    let mut made = Items::new(alloc);
    for entries in given {
        made.push(Row::new(alloc, entries.0, entries.1, entries.2)?)?;
    }
    Ok(made)
}

fn forms(alloc: Global, given: &[FormEntries]) -> Result<Items<Form>, AllocError> {
    let mut made = Items::new(alloc);
    for entries in given {
        let coefs = Items::from_slice(alloc, entries.0)?;
        made.push(Form {
            coefs,
            constant: entries.1,
        })?;
    }
    Ok(made)
}

const ENTRIES: Node = Node(Place::Entry, Place::Entry);

const EXITS: Node = Node(Place::Exit, Place::Exit);

fn family_of(alloc: Global, case: &Case) -> Result<Family, AllocError> {
    let start = atoms(alloc, case.start)?;
    let end = atoms(alloc, case.end)?;
    let mut nodes = Items::new(alloc);
    nodes.push((ENTRIES, start))?;
    nodes.push((EXITS, end))?;
    Ok(Family { nodes })
}

fn product_of(alloc: Global, case: &Case) -> Result<Product, AllocError> {
    let rows = rows(alloc, case.rows)?;
    let after = forms(alloc, case.after)?;
    let mut clauses = Items::new(alloc);
    clauses.push(Clause {
        from: ENTRIES,
        rows,
        to: EXITS,
        after,
    })?;
    let nodes = Items::new(alloc);
    Ok(Product { nodes, clauses })
}

fn proofs_of(alloc: Global, given: &[&[i128]]) -> Result<Proofs, AllocError> {
    let mut lists = Items::new(alloc);
    for multipliers in given {
        lists.push(Items::from_slice(alloc, multipliers)?)?;
    }
    Ok(Proofs { lists })
}

/// Whether the lists are judged as the table says.
fn is_judged(
    product: &Product,
    family: &Family,
    proofs: &Proofs,
    want: Result<usize, usize>,
) -> bool {
    if !can_check(product, family) || checks(product, family, proofs) != want.is_ok() {
        return false;
    }
    check_obligations(product, family, proofs) == want
}

fn are_judged(alloc: Global, case: &Case) -> Result<bool, AllocError> {
    let family = family_of(alloc, case)?;
    let product = product_of(alloc, case)?;
    for (lists, want) in case.lists {
        let proofs = proofs_of(alloc, lists)?;
        if !is_judged(&product, &family, &proofs, *want) {
            return Ok(false);
        }
    }
    Ok(true)
}

#[test]
fn lists_are_judged_as_by_hand(rt: HostRuntime) -> Result<(), Fail> {
    for (i, case) in CASES.iter().enumerate() {
        assert!(rt; are_judged(rt.alloc(), case)?, "row {i}");
    }
    Ok(())
}
