//! The rows of an obligation: that a clause of a product ends with an atom of a family.
//!
//! They say that the family's atoms hold at the clause's start, that the clause is taken, and that
//! the atom fails at its end. Numbers that meet all rows show that it may fail, and where there are
//! none it holds. An equality fails below its constant or above it, so it has two obligations.
ghost use Rattle.std.specs.Prelude.{◌≡◌, ◌<◌, ◌≤◌, ◌^◌, ◌+ℤ◌, ◌*ℤ◌, ℕ, pos, negsuc, neg_ℤ, length, map, replicate, unsigned_abs, All, IfOk};
ghost use Rattle.lin_terms.specs.Bounds.{FitsForm};
ghost use Rattle.lin_terms.specs.Form.{composed_coefs, constants_of, entries_at};
ghost use Rattle.lin_terms.specs.Makes.{IsFittingForm};
ghost use Rattle.lin_terms.specs.Row.{IsFittingRow, HaveOneLength};
ghost use Rattle.lin_terms.specs.Sign.{factor_of};
ghost use Rattle.lin_terms.specs.Vectors.{dot, scaled};
ghost use Rattle.horn_clauses.specs.Clause.{columns_in};
ghost use Rattle.horn_clauses.specs.Family.{atoms_at};
ghost use Rattle.horn_clauses.specs.Obligations.{is_equality, padded, atom_row, side_of, negated_row, negated_rows, atoms_or_none, first_width, columns_over, obligation_rows, FitsNode, CanOblige, CanNegate};

use crate::{Atom, Clause, Family, Node, Rel};
use lin_terms::{Form, Row, Sign, coef_over, constant_over, never_row};
use sqlite_items::Items;
use std::alloc::{AllocError, Global};

fn is_equality(rel: Rel) -> bool
    ensures { result ≡ is_equality rel }
{
    match rel {
        Rel::Eq => true,
        Rel::AtLeast => false,
    }
}

fn zeros(alloc: Global, count: usize) -> Result<Items<i64>, AllocError>
    ensures { IfOk result (λ made. made ≡ replicate count (pos 0)) }
{
    Ok(Items::from_vec(vec![in alloc; 0; count]?))
}

fn padded(alloc: Global, columns: usize, coefs: &[i64]) -> Result<Items<i64>, AllocError>
    ensures { IfOk result (λ made. made ≡ padded columns coefs.now) }
{
    let mut made = Items::from_slice(alloc, coefs)?;
    made.append(zeros(alloc, columns.saturating_sub(coefs.len()))?)?;
    Ok(made)
}

fn opposite(constant: &i64) -> i64
    requires { FitsForm constant.now }
    ensures { result ≡ neg_ℤ constant.now }
{
    -*constant
}

/// The row that says that an atom of the start holds.
fn atom_row(alloc: Global, columns: usize, atom: &Atom) -> Result<Row, AllocError>
    requires { (width : ℕ) × FitsNode width atom.now }
    ensures { IfOk result (λ row. row ≡ atom_row columns atom.now) }
{
    match atom {
        Atom::False => never_row(alloc, columns),
        Atom::Linear {
            coefs,
            constant,
            rel,
        } => {
            let coefs = padded(alloc, columns, coefs.as_slice())?;
            Ok(Row {
                coefs,
                constant: opposite(constant),
                equality: is_equality(*rel),
            })
        }
    }
}

fn atom_rows(alloc: Global, columns: usize, atoms: &[Atom]) -> Result<Items<Row>, AllocError>
    requires { (width : ℕ) × All (FitsNode width) atoms.now }
    ensures { IfOk result (λ rows. rows ≡ map (atom_row columns) atoms.now) }
{
    let mut rows = Items::new(alloc);
    for atom in atoms {
        rows.push(atom_row(alloc, columns, atom)?)?;
    }
    Ok(rows)
}

fn copied_rows(alloc: Global, rows: &[Row]) -> Result<Items<Row>, AllocError>
    ensures { IfOk result (λ made. made ≡ rows.now) }
{
    let mut made = Items::new(alloc);
    for row in rows {
        made.push(row.copy(alloc)?)?;
    }
    Ok(made)
}

fn side_of(rel: Rel, upper: bool) -> Sign
    ensures { result ≡ side_of rel upper }
{
    match rel {
        Rel::Eq => {
            if upper {
                Sign::Positive
            } else {
                Sign::Negative
            }
        }
        Rel::AtLeast => Sign::Negative,
    }
}

/// The number, turned round where the side is the lower one.
fn turned(side: Sign, number: &i128) -> i64
    requires { unsigned_abs number.now < 2 ^ 56 }
    ensures value { result ≡ factor_of side *ℤ number.now }
    ensures small { unsigned_abs result < 2 ^ 56 }
{
    match side {
        Sign::Negative | Sign::NotPositive => -*number as i64,
        Sign::Zero | Sign::NotNegative | Sign::Positive => *number as i64,
    }
}

fn negated_coef(columns: usize, forms: &[Form], coefs: &[i64], side: Sign, j: usize) -> i64
    requires { CanNegate columns forms.now coefs.now }
    ensures { result ≡ factor_of side *ℤ dot coefs.now (entries_at j forms.now) }
{
    turned(side, &coef_over(coefs, forms, j))
}

fn negated_coefs(
    alloc: Global,
    columns: usize,
    forms: &[Form],
    coefs: &[i64],
    side: Sign,
) -> Result<Vec<i64>, AllocError>
    requires { CanNegate columns forms.now coefs.now }
    ensures { IfOk result (λ made. made.items
        ≡ scaled (factor_of side) (composed_coefs columns coefs.now forms.now)) }
{
    let mut made = Vec::with_capacity(alloc, columns)?;
    for j in 0..columns {
        made.push(negated_coef(columns, forms, coefs, side, j))?;
    }
    Ok(made)
}

/// The sum of the forms' constants, each times its coefficient, less the atom's.
fn constant_between(columns: usize, forms: &[Form], coefs: &[i64], constant: &i64) -> i128
    requires can { CanNegate columns forms.now coefs.now }
    requires fits { FitsForm constant.now }
    ensures { result ≡ dot coefs.now (constants_of forms.now) +ℤ neg_ℤ constant.now }
{
    constant_over(coefs, forms) - i128::from(*constant)
}

/// The constant of the negated row: what is above 0 is at least 1.
fn negated_constant(
    columns: usize,
    forms: &[Form],
    coefs: &[i64],
    constant: &i64,
    side: Sign,
) -> i64
    requires can { CanNegate columns forms.now coefs.now }
    requires fits { FitsForm constant.now }
    ensures { result ≡ (factor_of side
        *ℤ (dot coefs.now (constants_of forms.now) +ℤ neg_ℤ constant.now)) +ℤ negsuc 0 }
{
    turned(side, &constant_between(columns, forms, coefs, constant)) - 1
}

fn negated_row(
    alloc: Global,
    columns: usize,
    forms: &[Form],
    coefs: &[i64],
    constant: &i64,
    rel: Rel,
    upper: bool,
) -> Result<Row, AllocError>
    requires can { CanNegate columns forms.now coefs.now }
    requires fits { FitsForm constant.now }
    ensures { IfOk result (λ row. row
        ≡ negated_row columns forms.now coefs.now constant.now (side_of rel upper)) }
{
    let side = side_of(rel, upper);
    let made = Items::from_vec(negated_coefs(alloc, columns, forms, coefs, side)?);
    Ok(Row {
        coefs: made,
        constant: negated_constant(columns, forms, coefs, constant, side),
        equality: false,
    })
}

fn negated_rows(
    alloc: Global,
    columns: usize,
    forms: &[Form],
    atom: &Atom,
    upper: bool,
) -> Result<Items<Row>, AllocError>
    requires as_many { FitsNode (length forms.now) atom.now }
    requires few { length forms.now ≤ 16 }
    requires long { All (λ form. length form.coefs ≡ columns) forms.now }
    requires fit { All IsFittingForm forms.now }
    ensures { IfOk result (λ rows. rows ≡ negated_rows columns forms.now atom.now upper) }
{
    let mut rows = Items::new(alloc);
    if let Atom::Linear {
        coefs,
        constant,
        rel,
    } = atom
    {
        let coefs = coefs.as_slice();
        rows.push(negated_row(alloc, columns, forms, coefs, constant, *rel, upper)?)?;
    }
    Ok(rows)
}

/// The atoms of the family at the node; none where it has not the node.
pub fn atoms_or_none<'a>(family: &'a Family, node: &Node) -> &'a [Atom]
    ensures { result.now ≡ atoms_or_none (atoms_at family.now node.now) }
{
    match family.at(node) {
        Some(atoms) => atoms,
        None => &[],
    }
}

/// How many coefficients the first linear atom has; where there is none, 0.
fn first_width(atoms: &[Atom]) -> usize
    ensures { result ≡ first_width atoms.now }
{
    for atom in atoms {
        if let Atom::Linear { coefs, .. } = atom {
            return coefs.len();
        }
    }
    0
}

/// The columns of rows and forms of one length; `width` where there are none.
pub fn columns_in(width: usize, rows: &[Row], forms: &[Form]) -> usize
    ensures { result ≡ columns_in width rows.now forms.now }
{
    match (rows, forms) {
        ([row, ..], _) => row.coefs.len(),
        ([], [form, ..]) => form.coefs.len(),
        ([], []) => width,
    }
}

/// The columns of an obligation of the clause with these atoms at its start.
pub fn columns_over(atoms: &[Atom], clause: &Clause) -> usize
    ensures { result ≡ columns_over atoms.now clause.now }
{
    columns_in(
        first_width(atoms),
        clause.rows.as_slice(),
        clause.after.as_slice(),
    )
}

/// The rows alone: what is said of them besides follows from what they are.
fn made_rows(
    alloc: Global,
    family: &Family,
    clause: &Clause,
    atom: &Atom,
    upper: bool,
) -> Result<Items<Row>, AllocError>
    requires { CanOblige family.now clause.now atom.now }
    ensures { IfOk result (λ rows. rows ≡ obligation_rows family.now clause.now atom.now upper) }
{
    let atoms = atoms_or_none(family, &clause.from);
    let columns = columns_over(atoms, clause);
    let mut rows = atom_rows(alloc, columns, atoms)?;
    rows.append(copied_rows(alloc, clause.rows.as_slice())?)?;
    let forms = clause.after.as_slice();
    rows.append(negated_rows(alloc, columns, forms, atom, upper)?)?;
    Ok(rows)
}

/// The rows of the obligation that the clause ends with the atom, which is one of the family's
/// atoms at its end. Of an equality's two it is the upper one where told; another atom has one
/// alone. All rows have one length, and they are not made tight.
///
/// Example: the family says `A.a - B.a = 0` at the start, over x0 and x1, and the clause ends with
/// `2*x0` and `2*x1`. For the atom `A.result - B.result = 0` the rows are `x0 - x1 = 0` and then
/// `-2*x0 + 2*x1 - 1 >= 0`. With `upper` the second one is `2*x0 - 2*x1 - 1 >= 0`.
pub fn obligation_rows(
    alloc: Global,
    family: &Family,
    clause: &Clause,
    atom: &Atom,
    upper: bool,
) -> Result<Items<Row>, AllocError>
    requires { CanOblige family.now clause.now atom.now }
    ensures rows { IfOk result (λ rows. rows
        ≡ obligation_rows family.now clause.now atom.now upper) }
    ensures length { IfOk result HaveOneLength }
    ensures fit { IfOk result (All IsFittingRow) }
{
    made_rows(alloc, family, clause, atom, upper)
}
