//! How atoms at the end of a clause may fail: a row for each of their obligations.
ghost use Rattle.std.specs.Prelude.{◌≡◌, ◌++◌, All, IfOk, OnOk};
ghost use Rattle.horn_clauses.specs.Obligations.{obligation_rows, CanOblige};
ghost use Rattle.houdini.specs.Failures.{end_of, failures_of, failures_from};

use horn_clauses::{Atom, Clause, Family, Rel, obligation_rows};
use lin_terms::{Form, Row};
use sqlite_items::Items;
use std::alloc::{AllocError, Global};

/// One way in which an atom at the end of a clause may fail: one of its obligations.
#[derive(Drop)]
pub(crate) struct Failure {
    /// The atom's number among those at the end, from 0.
    pub atom: usize,
    /// The row that says that the atom fails; there is none for `false`, which always fails.
    pub rows: Items<Row>,
}

/// A clause without its rows, from a node where nothing is said: the rows of its obligations say
/// that an atom fails, and nothing else.
#[derive(Drop)]
pub(crate) struct End {
    family: Family,
    clause: Clause,
}

fn copied_form(alloc: Global, form: &Form) -> Result<Form, AllocError>
    ensures { IfOk result (λ made. made ≡ form.now) }
{
    let coefs = Items::from_slice(alloc, form.coefs.as_slice())?;
    Ok(Form {
        coefs,
        constant: form.constant,
    })
}

fn copied_forms(alloc: Global, forms: &[Form]) -> Result<Items<Form>, AllocError>
    ensures { IfOk result (λ made. made ≡ forms.now) }
{
    let mut made = Items::new(alloc);
    for form in forms {
        made.push(copied_form(alloc, form)?)?;
    }
    Ok(made)
}

/// The clause's end.
fn end_of(alloc: Global, clause: &Clause) -> Result<End, AllocError>
    ensures { IfOk result (λ end. end ≡ end_of clause.now) }
{
    let mut nodes = Items::new(alloc);
    nodes.push((clause.from, Items::new(alloc)))?;
    let after = copied_forms(alloc, clause.after.as_slice())?;
    let clause = Clause {
        from: clause.from,
        rows: Items::new(alloc),
        to: clause.to,
        after,
    };
    Ok(End {
        family: Family { nodes },
        clause,
    })
}

fn failing(
    alloc: Global,
    end: &End,
    number: usize,
    atom: &Atom,
    upper: bool,
) -> Result<Failure, AllocError>
    requires { CanOblige end.now.family end.now.clause atom.now }
    ensures { IfOk result (λ made. made ≡ record {
      atom = number;
      rows = obligation_rows end.now.family end.now.clause atom.now upper;
    }) }
{
    let rows = obligation_rows(alloc, &end.family, &end.clause, atom, upper)?;
    Ok(Failure { atom: number, rows })
}

/// Adds those of the atom with this number: two of an equality, one of another.
fn add_failures(
    alloc: Global,
    end: &End,
    number: usize,
    atom: &Atom,
    failures: &mut Vec<Failure>,
) -> Result<(), AllocError>
    requires { CanOblige end.now.family end.now.clause atom.now }
    ensures { OnOk result (failures.new.items
        ≡ failures.old.items ++ failures_of end.now number atom.now) }
{
    failures.push(failing(alloc, end, number, atom, false)?)?;
    if let Atom::Linear { rel: Rel::Eq, .. } = atom {
        failures.push(failing(alloc, end, number, atom, true)?)?;
    }
    Ok(())
}

fn failures_over(alloc: Global, end: &End, atoms: &[Atom]) -> Result<Vec<Failure>, AllocError>
    requires { All (CanOblige end.now.family end.now.clause) atoms.now }
    ensures { IfOk result (λ made. made.items ≡ failures_from end.now 0 atoms.now) }
{
    let mut made = Vec::new(alloc);
    for (i, atom) in atoms.iter().enumerate() {
        add_failures(alloc, end, i, atom, &mut made)?;
    }
    Ok(made)
}

/// How the atoms may fail at the end of the clause, in their order, the lower side of an equality
/// first.
pub(crate) fn failures(
    alloc: Global,
    family: &Family,
    clause: &Clause,
    atoms: &[Atom],
) -> Result<Vec<Failure>, AllocError>
    requires { All (CanOblige family.now clause.now) atoms.now }
    ensures { IfOk result (λ made. made.items
        ≡ failures_from (end_of clause.now) 0 atoms.now) }
{
    let end = end_of(alloc, clause)?;
    failures_over(alloc, &end, atoms)
}
