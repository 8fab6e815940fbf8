//! The rows of an obligation, told one entry after the other: those of the atoms at the clause's
//! start, those of the clause, and the one that says that an atom fails at its end.
ghost use Rattle.std.specs.Prelude.{◌≡◌, ◌<◌, ◌≤◌, ◌^◌, length, All};
ghost use Rattle.lin_terms.specs.Makes.{IsFittingForm};
ghost use Rattle.lin_terms.specs.Row.{IsFittingRow};
ghost use Rattle.horn_clauses.specs.Obligations.{obligation_rows, CanOblige};
ghost use Rattle.coupling_check.specs.Told.{coefs_in, told_rows};

use crate::negated::{negated_constant, negated_count, negated_entry};
use crate::parts::{
    atom_constant, atom_entry, atom_equality, row_constant, row_entry, row_equality,
};
use farkas_check::Rows;
use horn_clauses::{Atom, Clause, Family, atoms_or_none, columns_over};
use lin_terms::Row;

/// An obligation whose rows are told.
#[derive(Drop)]
pub struct ToldRows<'a> {
    /// The atoms at the clause's start.
    pub atoms: &'a [Atom],
    /// How many columns each row has.
    pub columns: usize,
    pub clause: &'a Clause,
    /// The atom at the clause's end.
    pub atom: &'a Atom,
    /// Of an equality's two obligations, whether it is the upper one.
    pub upper: bool,
    pub ghost enough: { length (coefs_in atom.now) ≤ length clause.now.after },
    pub ghost few: { length clause.now.after ≤ 16 },
    pub ghost forms_fit: { All IsFittingForm clause.now.after },
    pub ghost long: { All (λ row. length row.coefs ≡ columns)
        (told_rows columns atoms.now clause.now atom.now upper) },
    pub ghost fit: { All IsFittingRow (told_rows columns atoms.now clause.now atom.now upper) },
}

/// The obligation that the clause ends with the atom.
pub fn tell<'a>(family: &'a Family, clause: &'a Clause, atom: &'a Atom, upper: bool) -> ToldRows<'a>
    requires { CanOblige family.now clause.now atom.now }
    ensures { told_rows result.columns result.atoms.now result.clause.now result.atom.now
        result.upper
        ≡ obligation_rows family.now clause.now atom.now upper }
{
    let atoms = atoms_or_none(family, &clause.from);
    let columns = columns_over(atoms, clause);
    ToldRows {
        atoms,
        columns,
        clause,
        atom,
        upper,
    }
}

/// So many that the sum of two such counts fits.
fn len_of_atoms(atoms: &[Atom]) -> usize
    ensures length { result ≡ length atoms.now }
    ensures small { result < 2 ^ 63 }
{
    atoms.len()
}

/// The same of rows.
fn len_of_rows(rows: &[Row]) -> usize
    ensures length { result ≡ length rows.now }
    ensures small { result < 2 ^ 63 }
{
    rows.len()
}

impl Rows for ToldRows<'_> {
    ghost list = { λ told.
        told_rows told.columns told.atoms.now told.clause.now told.atom.now told.upper };

    fn count(&self) -> usize {
        let (rows, forms) = (self.clause.rows.as_slice(), self.clause.after.as_slice());
        let last = negated_count(self.columns, forms, self.atom, self.upper);
        len_of_atoms(self.atoms) + len_of_rows(rows) + last
    }

    fn columns(&self) -> usize {
        if self.count() == 0 { 0 } else { self.columns }
    }

    fn entry(&self, i: usize, j: usize) -> i64 {
        let (atoms, rows) = (self.atoms, self.clause.rows.as_slice());
        if i < atoms.len() {
            return atom_entry(self.columns, atoms, i, j);
        }
        if i - atoms.len() < rows.len() {
            return row_entry(rows, i - atoms.len(), j);
        }
        let forms = self.clause.after.as_slice();
        negated_entry(self.columns, forms, self.atom, self.upper, j)
    }

    fn constant(&self, i: usize) -> i64 {
        let (atoms, rows) = (self.atoms, self.clause.rows.as_slice());
        if i < atoms.len() {
            return atom_constant(self.columns, atoms, i);
        }
        if i - atoms.len() < rows.len() {
            return row_constant(rows, i - atoms.len());
        }
        let forms = self.clause.after.as_slice();
        negated_constant(self.columns, forms, self.atom, self.upper)
    }

    fn is_equality(&self, i: usize) -> bool {
        let (atoms, rows) = (self.atoms, self.clause.rows.as_slice());
        if i < atoms.len() {
            return atom_equality(self.columns, atoms, i);
        }
        i - atoms.len() < rows.len() && row_equality(rows, i - atoms.len())
    }
}
