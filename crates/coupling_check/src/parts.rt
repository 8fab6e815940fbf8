//! The entries of the rows of an obligation that say that atoms hold at its start, and of those of
//! its clause.
ghost use Rattle.std.specs.Prelude.{◌≡◌, ◌<◌, ◌^◌, ℕ, false, pos, neg_ℤ, length, map, slice_index_or, unsigned_abs, All};
ghost use Rattle.lin_terms.specs.Bounds.{FitsRow};
ghost use Rattle.lin_terms.specs.Row.{IsFittingRow};
ghost use Rattle.farkas_check.specs.Refutes.{column, constants, equalities};
ghost use Rattle.horn_clauses.specs.Obligations.{is_equality, atom_row};

use horn_clauses::{Atom, Rel};
use lin_terms::Row;

// ---- the clause

/// The entry, and 0 past the end.
fn entry_or_zero(entries: &[i64], j: usize) -> i64
    ensures { result ≡ slice_index_or entries.now j (pos 0) }
{
    if j < entries.len() { entries[j] } else { 0 }
}

/// The coefficient of row `i` in column `j`.
pub fn row_entry(rows: &[Row], i: usize, j: usize) -> i64
    requires { i < length rows.now }
    ensures { result ≡ slice_index_or (column j rows.now) i (pos 0) }
{
    entry_or_zero(rows[i].coefs.as_slice(), j)
}

/// The constant of row `i`.
pub fn row_constant(rows: &[Row], i: usize) -> i64
    requires { i < length rows.now }
    ensures { result ≡ slice_index_or (constants rows.now) i (pos 0) }
{
    rows[i].constant
}

/// Whether row `i` is an equality.
pub fn row_equality(rows: &[Row], i: usize) -> bool
    requires { i < length rows.now }
    ensures { result ≡ slice_index_or (equalities rows.now) i false }
{
    rows[i].equality
}

// ---- the atoms at the start

fn opposite(constant: &i64) -> i64
    requires { FitsRow (neg_ℤ constant.now) }
    ensures { result ≡ neg_ℤ constant.now }
{
    -*constant
}

fn is_equality(rel: Rel) -> bool
    ensures { result ≡ is_equality rel }
{
    match rel {
        Rel::Eq => true,
        Rel::AtLeast => false,
    }
}

/// The atom's coefficient of variable `j`. There are zeros behind them, and in the row of `false`,
/// which never holds.
fn entry_in(columns: usize, atom: &Atom, j: usize) -> i64
    ensures { result ≡ slice_index_or (atom_row columns atom.now).coefs j (pos 0) }
{
    match atom {
        Atom::False => 0,
        Atom::Linear { coefs, .. } => entry_or_zero(coefs.as_slice(), j),
    }
}

fn constant_in(columns: usize, atom: &Atom) -> i64
    requires { IsFittingRow (atom_row columns atom.now) }
    ensures { result ≡ (atom_row columns atom.now).constant }
{
    match atom {
        Atom::False => -1,
        Atom::Linear { constant, .. } => opposite(constant),
    }
}

fn equality_in(columns: usize, atom: &Atom) -> bool
    ensures { result ≡ (atom_row columns atom.now).equality }
{
    match atom {
        Atom::False => false,
        Atom::Linear { rel, .. } => is_equality(*rel),
    }
}

/// The coefficient of the row of atom `i` in column `j`.
pub fn atom_entry(columns: usize, atoms: &[Atom], i: usize, j: usize) -> i64
    requires { i < length atoms.now }
    ensures { result ≡ slice_index_or (column j (map (atom_row columns) atoms.now)) i (pos 0) }
{
    entry_in(columns, &atoms[i], j)
}

/// The constant of the row of atom `i`.
pub fn atom_constant(columns: usize, atoms: &[Atom], i: usize) -> i64
    requires inside { i < length atoms.now }
    requires fit { All IsFittingRow (map (atom_row columns) atoms.now) }
    ensures { result ≡ slice_index_or (constants (map (atom_row columns) atoms.now)) i (pos 0) }
{
    constant_in(columns, &atoms[i])
}

/// Whether the row of atom `i` is an equality.
pub fn atom_equality(columns: usize, atoms: &[Atom], i: usize) -> bool
    requires { i < length atoms.now }
    ensures { result ≡ slice_index_or (equalities (map (atom_row columns) atoms.now)) i false }
{
    equality_in(columns, &atoms[i])
}
