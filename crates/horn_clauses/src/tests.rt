//! Atoms judged by hand, nodes in their order, what a family has at a node, and obligations whose
//! rows were worked out by hand.
ghost use Rattle.std.specs.Prelude.{◌≡◌, ◌≤◌, ◌^◌, IsTrue, length, All, unsigned_abs};
ghost use Rattle.c_ast.specs.FitsRun.{FitsRun};
ghost use Rattle.lin_terms.specs.Row.{EntriesAreBelow};
ghost use Rattle.horn_clauses.specs.Clause.{FitsClause};
ghost use Rattle.horn_clauses.specs.Obligations.{FitsNode, CanOblige};

use crate::obligation::columns_in;
use crate::{Atom, Clause, Family, Node, Rel, obligation_rows};
use c_ast::Place;
use lin_terms::{Form, Row, are_fitting_forms};
use sqlite_items::Items;
use std::alloc::{AllocError, Global};
use std::test::Fail;

/// 2^100 - 1, the greatest value that an atom is judged of.
const MOST: i128 = (1 << 100) - 1;
/// 2^50 - 1, the greatest constant.
const GREATEST: i64 = (1 << 50) - 1;

fn are_small(coefs: &[i64]) -> bool
    ensures { IsTrue result → All (λ coef. unsigned_abs coef ≤ 2) coefs.now }
{
    coefs.iter().all(|coef| coef.unsigned_abs() <= 2)
}

fn fit_run(values: &[i128]) -> bool
    ensures { IsTrue result → All FitsRun values.now }
{
    values.iter().all(|value| value.unsigned_abs() < 1 << 100)
}

/// Whether the linear atom holds of the values; `None` where it can't be judged of them.
fn judged(
    alloc: Global,
    coefs: &[i64],
    constant: i64,
    rel: Rel,
    values: &[i128],
) -> Result<Option<bool>, AllocError> {
    if values.len() != coefs.len()
        || coefs.len() > 128
        || constant.unsigned_abs() > GREATEST as u64
    {
        return Ok(None);
    }
    if !are_small(coefs) || !fit_run(values) {
        return Ok(None);
    }
    let coefs = Items::from_slice(alloc, coefs)?;
    let atom = Atom::Linear {
        coefs,
        constant,
        rel,
    };
    Ok(Some(atom.holds(values)))
}

#[test]
fn atoms_hold_as_by_hand(rt: HostRuntime) -> Result<(), Fail> {
    let alloc = rt.alloc();
    let rows: [(&[i64], i64, Rel, &[i128], bool); 18] = [
        (&[1, -1], 0, Rel::Eq, &[5, 5], true),
        (&[1, -1], 0, Rel::Eq, &[5, 6], false),
        (&[1, -1], 0, Rel::AtLeast, &[5, 5], true),
        (&[1, -1], 0, Rel::AtLeast, &[6, 5], true),
        (&[1, -1], 0, Rel::AtLeast, &[5, 6], false),
        (&[2, -1, 0], 3, Rel::Eq, &[4, 5, 9], true),
        (&[2, -1, 0], 0, Rel::Eq, &[4, 5, 9], false),
        (&[-2], -7, Rel::AtLeast, &[3], true),
        (&[-2], -7, Rel::AtLeast, &[4], false),
        (&[], 0, Rel::Eq, &[], true),
        (&[], 1, Rel::Eq, &[], false),
        (&[], -1, Rel::AtLeast, &[], true),
        (&[], 1, Rel::AtLeast, &[], false),
        (&[2, -2], 0, Rel::Eq, &[MOST, MOST], true),
        (&[2, -2], GREATEST, Rel::AtLeast, &[MOST, -MOST], true),
        (&[-2, 2], -GREATEST, Rel::AtLeast, &[MOST, -MOST], false),
        (&[1], GREATEST, Rel::Eq, &[GREATEST as i128], true),
        (&[1], -GREATEST, Rel::Eq, &[GREATEST as i128], false),
    ];
    for (coefs, constant, rel, values, want) in rows {
        let got = judged(alloc, coefs, constant, rel, values)?;
        assert_eq!(rt;
            got,
            Some(want),
            "{coefs:?} {constant} {rel:?} of {values:?}"
        );
    }
    Ok(())
}

#[test]
fn longest_sums_are_exact(rt: HostRuntime) -> Result<(), Fail> {
    let alloc = rt.alloc();
    let coefs = vec![in alloc; 2; 128]?;
    for (value, want) in [(MOST, true), (-MOST, false), (0, false)] {
        let values = vec![in alloc; value; 128]?;
        let got = judged(alloc, &coefs, GREATEST, Rel::AtLeast, &values)?;
        assert_eq!(rt; got, Some(want), "128 times {value}");
    }
    assert!(rt; !Atom::False.holds(&[0]));
    Ok(())
}

#[test]
fn nodes_stand_in_their_order(rt: HostRuntime) -> Result<(), Fail> {
    let nodes = [
        Node(Place::Entry, Place::Entry),
        Node(Place::Mark(7), Place::Mark(7)),
        Node(Place::Mark(7), Place::Mark(1_000_000)),
        Node(Place::Mark(7), Place::Exit),
        Node(Place::Mark(42), Place::Mark(7)),
        Node(Place::Exit, Place::Mark(7)),
        Node(Place::Exit, Place::Exit),
    ];
    for (i, first) in nodes.iter().enumerate() {
        for (j, second) in nodes.iter().enumerate() {
            assert_eq!(rt; first.is_before(second), i < j, "{first:?} and {second:?}");
        }
    }
    Ok(())
}

/// The atom `x - y = constant`.
fn difference_is(alloc: Global, constant: i64) -> Result<Atom, AllocError> {
    Ok(Atom::Linear {
        coefs: Items::from_slice(alloc, &[1, -1])?,
        constant,
        rel: Rel::Eq,
    })
}

#[test]
fn first_entry_for_a_node_counts(rt: HostRuntime) -> Result<(), Fail> {
    let alloc = rt.alloc();
    let (entries, exits) = (
        Node(Place::Entry, Place::Entry),
        Node(Place::Exit, Place::Exit),
    );
    let first = Items::from_vec(vec![in alloc; difference_is(alloc, 0)?, Atom::False]?);
    let second = Items::from_vec(vec![in alloc; difference_is(alloc, 1)?]?);
    let family = Family {
        nodes: Items::from_vec(vec![in alloc; (entries, first), (entries, second)]?),
    };
    assert_eq!(rt; family.at(&entries).map(|atoms| atoms.len()), Some(2));
    assert_eq!(rt; family.at(&exits).map(|atoms| atoms.len()), None);
    let other = family.copy(alloc)?;
    assert!(rt; family.same(&other));
    assert!(rt; !difference_is(alloc, 0)?.same(&difference_is(alloc, 1)?));
    Ok(())
}

/// The coefficients, the constant and the relation of an atom; `None` is the atom `false`.
type AtomEntries = Option<(&'static [i64], i64, Rel)>;

/// The coefficients and the constant of a row, and whether it is an equality.
type RowEntries = (&'static [i64], i64, bool);

/// The coefficients and the constant of a form.
type FormEntries = (&'static [i64], i64);

/// An obligation, and its rows.
struct Obliged {
    /// How many variables there are at the clause's start and end.
    widths: (usize, usize),
    /// The family's atoms at the start.
    start: &'static [AtomEntries],
    rows: &'static [RowEntries],
    after: &'static [FormEntries],
    atom: AtomEntries,
    upper: bool,
    want: &'static [RowEntries],
}

const EQUAL: AtomEntries = Some((&[1, -1], 0, Rel::Eq));

const DOUBLED: &'static [FormEntries] = &[(&[2, 0], 0), (&[0, 2], 0)];

const OBLIGED: [Obliged; 9] = [
    Obliged {
        widths: (2, 2),
        start: &[EQUAL],
        rows: &[],
        after: DOUBLED,
        atom: EQUAL,
        upper: false,
        want: &[(&[1, -1], 0, true), (&[-2, 2], -1, false)],
    },
    Obliged {
        widths: (2, 2),
        start: &[EQUAL],
        rows: &[],
        after: DOUBLED,
        atom: EQUAL,
        upper: true,
        want: &[(&[1, -1], 0, true), (&[2, -2], -1, false)],
    },
    // `>=` at both ends, with constants, and a row that is not made tight
    Obliged {
        widths: (2, 1),
        start: &[Some((&[2, 0], -3, Rel::AtLeast)), EQUAL],
        rows: &[(&[4, -6], 3, false)],
        after: &[(&[3, 1], 7)],
        atom: Some((&[-2], 5, Rel::AtLeast)),
        upper: false,
        want: &[
            (&[2, 0], 3, false),
            (&[1, -1], 0, true),
            (&[4, -6], 3, false),
            (&[6, 2], 18, false),
        ],
    },
    // the node at the start is not met
    Obliged {
        widths: (2, 2),
        start: &[None, EQUAL],
        rows: &[],
        after: DOUBLED,
        atom: EQUAL,
        upper: true,
        want: &[
            (&[0, 0], -1, false),
            (&[1, -1], 0, true),
            (&[2, -2], -1, false),
        ],
    },
    // the node at the end is not to be met
    Obliged {
        widths: (2, 2),
        start: &[EQUAL],
        rows: &[(&[1, 0], -5, true)],
        after: DOUBLED,
        atom: None,
        upper: false,
        want: &[(&[1, -1], 0, true), (&[1, 0], -5, true)],
    },
    // a third column, for an unknown
    Obliged {
        widths: (2, 2),
        start: &[EQUAL, None],
        rows: &[(&[1, 0, -2], 0, true)],
        after: &[(&[0, 0, 1], 1), (&[0, 1, 1], 0)],
        atom: Some((&[1, 2], 4, Rel::Eq)),
        upper: false,
        want: &[
            (&[1, -1, 0], 0, true),
            (&[0, 0, 0], -1, false),
            (&[1, 0, -2], 0, true),
            (&[0, -2, -3], 2, false),
        ],
    },
    // without rows and forms the atoms at the start tell the columns
    Obliged {
        widths: (2, 0),
        start: &[None, EQUAL],
        rows: &[],
        after: &[],
        atom: Some((&[], 1, Rel::Eq)),
        upper: true,
        want: &[
            (&[0, 0], -1, false),
            (&[1, -1], 0, true),
            (&[0, 0], -2, false),
        ],
    },
    Obliged {
        widths: (2, 0),
        start: &[None],
        rows: &[],
        after: &[],
        atom: None,
        upper: false,
        want: &[(&[], -1, false)],
    },
    // entries as great as they can be
    Obliged {
        widths: (1, 1),
        start: &[Some((&[-2], -GREATEST, Rel::AtLeast))],
        rows: &[],
        after: &[(&[GREATEST], -GREATEST)],
        atom: Some((&[2], GREATEST, Rel::AtLeast)),
        upper: false,
        want: &[
            (&[-2], GREATEST, false),
            (&[-2 * GREATEST], 3 * GREATEST - 1, false),
        ],
    },
];

fn atom(alloc: Global, entries: AtomEntries) -> Result<Atom, AllocError> {
    match entries {
        None => Ok(Atom::False),
        Some((coefs, constant, rel)) => {
            let coefs = Items::from_slice(alloc, coefs)?;
            Ok(Atom::Linear {
                coefs,
                constant,
                rel,
            })
        }
    }
}

fn atoms(alloc: Global, given: &[AtomEntries]) -> Result<Items<Atom>, AllocError> {
    let mut made = Items::new(alloc);
    for entries in given {
        made.push(atom(alloc, *entries)?)?;
    }
    Ok(made)
}

fn rows(alloc: Global, given: &[RowEntries]) -> Result<Items<Row>, AllocError> {
    let mut made = Items::new(alloc);
    for entries in given {
        made.push(Row::new(alloc, entries.0, entries.1, entries.2)?)?;
    }
    Ok(made)
}

fn forms(alloc: Global, given: &[FormEntries]) -> Result<Items<Form>, AllocError> {
    let mut made = Items::new(alloc);
    for entries in given {
        let coefs = Items::from_slice(alloc, entries.0)?;
        made.push(Form {
            coefs,
            constant: entries.1,
        })?;
    }
    Ok(made)
}

fn fits_node(width: usize, atom: &Atom) -> bool
    ensures { IsTrue result → FitsNode width atom.now }
{
    match atom {
        Atom::False => true,
        Atom::Linear {
            coefs,
            constant,
            ..
        } => {
            coefs.len() == width
                && are_small(coefs.as_slice())
                && constant.unsigned_abs() <= GREATEST as u64
        }
    }
}

fn fit_node(width: usize, atoms: &[Atom]) -> bool
    ensures { IsTrue result → All (FitsNode width) atoms.now }
{
    atoms.iter().all(|atom| fits_node(width, atom))
}

fn is_small(row: &Row) -> bool
    ensures { IsTrue result → EntriesAreBelow (2 ^ 50) row.now }
{
    row.constant.unsigned_abs() <= GREATEST as u64
        && row
            .coefs
            .as_slice()
            .iter()
            .all(|entry| entry.unsigned_abs() <= GREATEST as u64)
}

fn have_columns(columns: usize, rows: &[Row], forms: &[Form]) -> bool
    ensures rows { IsTrue result → All (λ row. length row.coefs ≡ columns) rows.now }
    ensures forms { IsTrue result → All (λ form. length form.coefs ≡ columns) forms.now }
{
    rows.iter().all(|row| row.coefs.len() == columns)
        && forms.iter().all(|form| form.coefs.len() == columns)
}

fn fits_clause(start: usize, end: usize, clause: &Clause) -> bool
    ensures { IsTrue result → FitsClause start end clause.now }
{
    let (rows, forms) = (clause.rows.as_slice(), clause.after.as_slice());
    let columns = columns_in(start, rows, forms);
    if columns < start || columns > start.saturating_add(16) || forms.len() != end {
        return false;
    }
    have_columns(columns, rows, forms) && rows.iter().all(is_small) && are_fitting_forms(forms)
}

fn can_oblige(family: &Family, clause: &Clause, atom: &Atom, start: usize, end: usize) -> bool
    ensures { IsTrue result → CanOblige family.now clause.now atom.now }
{
    let Some(atoms) = family.at(&clause.from) else {
        return false;
    };
    if start > 16 || end > 16 || !fit_node(start, atoms) {
        return false;
    }
    fits_node(end, atom) && fits_clause(start, end, clause)
}

fn are_rows(made: &[Row], want: &[RowEntries]) -> bool {
    made.len() == want.len()
        && made.iter().zip(want.iter()).all(|(row, entries)| {
            row.coefs.as_slice() == entries.0
                && row.constant == entries.1
                && row.equality == entries.2
        })
}

const ENTRIES: Node = Node(Place::Entry, Place::Entry);

const EXITS: Node = Node(Place::Exit, Place::Exit);

fn family_of(alloc: Global, case: &Obliged) -> Result<Family, AllocError> {
    let atoms = atoms(alloc, case.start)?;
    let mut nodes = Items::new(alloc);
    nodes.push((ENTRIES, atoms))?;
    Ok(Family { nodes })
}

fn clause_of(alloc: Global, case: &Obliged) -> Result<Clause, AllocError> {
    let rows = rows(alloc, case.rows)?;
    let after = forms(alloc, case.after)?;
    Ok(Clause {
        from: ENTRIES,
        rows,
        to: EXITS,
        after,
    })
}

fn are_made(
    alloc: Global,
    family: &Family,
    clause: &Clause,
    atom: &Atom,
    case: &Obliged,
) -> Result<bool, AllocError> {
    if !can_oblige(family, clause, atom, case.widths.0, case.widths.1) {
        return Ok(false);
    }
    let made = obligation_rows(alloc, family, clause, atom, case.upper)?;
    Ok(are_rows(made.as_slice(), case.want))
}

fn is_obliged(alloc: Global, case: &Obliged) -> Result<bool, AllocError> {
    let family = family_of(alloc, case)?;
    let clause = clause_of(alloc, case)?;
    let atom = atom(alloc, case.atom)?;
    are_made(alloc, &family, &clause, &atom, case)
}

#[test]
fn obligations_are_as_by_hand(rt: HostRuntime) -> Result<(), Fail> {
    for (i, case) in OBLIGED.iter().enumerate() {
        assert!(rt; is_obliged(rt.alloc(), case)?, "row {i}");
    }
    Ok(())
}
