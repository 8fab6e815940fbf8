//! The check: the obligations in their order, each with the next of the lists.
ghost use Rattle.std.specs.Prelude.{◌↔◌, true, false, [], ◌∷◌, All, IsTrue};
ghost use Rattle.std.specs.List.{flat_map};
ghost use Rattle.lin_terms.specs.Row.{IsFittingRow, HaveOneLength};
ghost use Rattle.farkas_check.specs.Refutes.{IsCheckable};
ghost use Rattle.horn_clauses.specs.Obligations.{obligation, obligation_rows, obligations_at, obligations_for, CanOblige};
ghost use Rattle.coupling_check.specs.Checks.{IsProvedBy, Reaches, Checks, ChecksUpTo, CanCheckClause, CanCheck};

use crate::told::tell;
use farkas_check::{Rows, refutes_of};
use horn_clauses::{Atom, Clause, Family, Product, Proofs, Rel, atoms_or_none};
use lin_terms::{MOST_ROWS, are_fitting_multipliers};
use sqlite_items::Items;

/// Whether the rows are at most 4,096, with a multiplier below 2^56 in size for each.
fn may_be_asked<R: Rows>(rows: &R, multipliers: &[i128]) -> bool
    requires one_length { HaveOneLength (R.list rows.now) }
    requires fit { All IsFittingRow (R.list rows.now) }
    ensures { IsTrue result ↔ IsCheckable (R.list rows.now) multipliers.now }
{
    let count = rows.count();
    count <= MOST_ROWS && multipliers.len() == count && are_fitting_multipliers(multipliers)
}

/// Whether the multipliers, each below 2^56 in size, refute the rows, of which there are at most
/// 4,096.
fn is_proved_by<R: Rows>(rows: &R, multipliers: &[i128]) -> bool
    requires one_length { HaveOneLength (R.list rows.now) }
    requires fit { All IsFittingRow (R.list rows.now) }
    ensures { IsTrue result ↔ IsProvedBy (R.list rows.now) multipliers.now }
{
    may_be_asked(rows, multipliers) && refutes_of(rows, multipliers)
}

/// Whether the multipliers prove the obligation that the clause ends with the atom.
fn is_proved(
    family: &Family,
    clause: &Clause,
    atom: &Atom,
    upper: bool,
    multipliers: &[i128],
) -> bool
    requires { CanOblige family.now clause.now atom.now }
    ensures { IsTrue result
        ↔ IsProvedBy (obligation_rows family.now clause.now atom.now upper) multipliers.now }
{
    is_proved_by(&tell(family, clause, atom, upper), multipliers)
}

/// The number behind the obligation's own, where the list with its number proves it, and else its
/// own.
fn check_one(
    family: &Family,
    clause: &Clause,
    atom: &Atom,
    upper: bool,
    lists: &[Items<i128>],
    number: usize,
) -> Result<usize, usize>
    requires { CanOblige family.now clause.now atom.now }
    ensures { Reaches family.now (obligation clause.now atom.now upper ∷ []) lists.now number
        result }
{
    if number >= lists.len() {
        return Err(number);
    }
    if is_proved(family, clause, atom, upper, lists[number].as_slice()) {
        Ok(number + 1)
    } else {
        Err(number)
    }
}

/// The same of both obligations of an equality, the lower one first.
fn check_both(
    family: &Family,
    clause: &Clause,
    atom: &Atom,
    lists: &[Items<i128>],
    number: usize,
) -> Result<usize, usize>
    requires { CanOblige family.now clause.now atom.now }
    ensures { Reaches family.now
        (obligation clause.now atom.now false ∷ obligation clause.now atom.now true ∷ [])
        lists.now number result }
{
    let upper = check_one(family, clause, atom, false, lists, number)?;
    check_one(family, clause, atom, true, lists, upper)
}

/// The same of the obligations of a clause and an atom at its end.
fn check_atom(
    family: &Family,
    clause: &Clause,
    atom: &Atom,
    lists: &[Items<i128>],
    number: usize,
) -> Result<usize, usize>
    requires { CanOblige family.now clause.now atom.now }
    ensures { Reaches family.now (obligations_at clause.now atom.now) lists.now number result }
{
    match atom {
        Atom::Linear { rel: Rel::Eq, .. } => check_both(family, clause, atom, lists, number),
        Atom::Linear {
            rel: Rel::AtLeast,
            ..
        }
        | Atom::False => check_one(family, clause, atom, false, lists, number),
    }
}

/// The same of the obligations of a clause and atoms at its end.
fn check_atoms(
    family: &Family,
    clause: &Clause,
    atoms: &[Atom],
    lists: &[Items<i128>],
    number: usize,
) -> Result<usize, usize>
    requires { All (CanOblige family.now clause.now) atoms.now }
    ensures { Reaches family.now (flat_map (obligations_at clause.now) atoms.now) lists.now number
        result }
{
    let mut next = number;
    for atom in atoms {
        next = check_atom(family, clause, atom, lists, next)?;
    }
    Ok(next)
}

/// The same of the obligations of a clause, in the order of the family's atoms at its end.
fn check_clause(
    family: &Family,
    clause: &Clause,
    lists: &[Items<i128>],
    number: usize,
) -> Result<usize, usize>
    requires { CanCheckClause family.now clause.now }
    ensures { Reaches family.now (obligations_for family.now clause.now) lists.now number result }
{
    let atoms = atoms_or_none(family, &clause.to);
    check_atoms(family, clause, atoms, lists, number)
}

/// How many obligations the clauses have, where they have the lists, each the next one; or the
/// number of the first one that its list does not prove.
fn check_clauses(family: &Family, clauses: &[Clause], lists: &[Items<i128>]) -> Result<usize, usize>
    requires { All (CanCheckClause family.now) clauses.now }
    ensures { Reaches family.now (flat_map (obligations_for family.now) clauses.now) lists.now 0
        result }
{
    let mut number = 0;
    for clause in clauses {
        number = check_clause(family, clause, lists, number)?;
    }
    Ok(number)
}

/// How many obligations the family has, where the proofs have a list for each of them, by its
/// number, that refutes its rows: at most 4,096 rows, and multipliers below 2^56 in size. The error
/// is the number of the first obligation for which they have not. Lists past the last obligation
/// are not looked at. It takes no memory.
///
/// Example: a clause has the row `x0 - 1 >= 0` and ends with `x0`. For the atom `x0 >= 1` at its
/// end the rows are `x0 - 1 >= 0` and `-x0 >= 0`, and the list 1, 1 proves it: `Ok(1)`. With the
/// list 0, 0 it is `Err(0)`.
pub fn check_obligations(
    product: &Product,
    family: &Family,
    proofs: &Proofs,
) -> Result<usize, usize>
    requires { CanCheck product.now family.now }
    ensures { ChecksUpTo product.now family.now proofs.now result }
{
    check_clauses(family, product.clauses.as_slice(), proofs.lists.as_slice())
}

/// Whether the proofs have a list for each obligation of the family, as `check_obligations` says.
pub fn checks(product: &Product, family: &Family, proofs: &Proofs) -> bool
    requires { CanCheck product.now family.now }
    ensures { IsTrue result ↔ Checks product.now family.now proofs.now }
{
    check_obligations(product, family, proofs).is_ok()
}
