//! Families that couple the functions of two texts, and families that do not. Multipliers for
//! their obligations are found here.
ghost use Rattle.std.specs.Prelude.{◌≡◌, ◌≤◌, ◌^◌, IsTrue, IfOk, length, All, unsigned_abs};
ghost use Rattle.c_ast.specs.Comparison.{IsCondition};
ghost use Rattle.lin_terms.specs.Row.{EntriesAreBelow};
ghost use Rattle.horn_clauses.specs.Clause.{columns_in, FitsClause};
ghost use Rattle.horn_clauses.specs.Obligations.{FitsNode, CanOblige};

use super::families::{ADDED, AtomEntries, CASES, Case, NodeEntries, SAME_BEGIN, SAME_END, Texts};
use super::products::{alignment_of, made};
use super::runs::function;
use super::sampled::subject;
use alignment::Alignment;
use c_ast::{Expr, Func, Settings, Subject};
use c_source::read_condition;
use horn_clauses::{Atom, Clause, Family, Node, Product, Proofs, Rel, obligation_rows};
use lin_prover::{Answer, Limit, prove};
use lin_terms::{Form, Row, are_fitting_forms};
use path_product::ProductLimit;
use relation::{Coupled, NotCoupled, has_small_atoms};
use sqlite_items::Items;
use std::alloc::{AllocError, Global};
use std::test::Fail;

// ---- the family of a row

fn atom(alloc: Global, entries: AtomEntries) -> Result<Atom, AllocError> {
    match entries {
        None => Ok(Atom::False),
        Some((coefs, constant, rel)) => {
            let coefs = Items::from_slice(alloc, coefs)?;
            Ok(Atom::Linear {
                coefs,
                constant,
                rel,
            })
        }
    }
}

fn atoms(alloc: Global, given: &[AtomEntries]) -> Result<Items<Atom>, AllocError> {
    let mut made = Items::new(alloc);
    for entries in given {
        made.push(atom(alloc, *entries)?)?;
    }
    Ok(made)
}

fn family(alloc: Global, given: &[NodeEntries]) -> Result<Family, AllocError> {
    let mut nodes = Items::new(alloc);
    for (node, entries) in given {
        nodes.push((*node, atoms(alloc, entries)?))?;
    }
    Ok(Family { nodes })
}

// ---- whether the rows of an obligation may be asked for

/// 2^50 - 1, the greatest constant.
const GREATEST: u64 = (1 << 50) - 1;

fn are_small(coefs: &[i64]) -> bool
    ensures { IsTrue result → All (λ coef. unsigned_abs coef ≤ 2) coefs.now }
{
    coefs.iter().all(|coef| coef.unsigned_abs() <= 2)
}

fn fits_node(width: usize, atom: &Atom) -> bool
    ensures { IsTrue result → FitsNode width atom.now }
{
    match atom {
        Atom::False => true,
        Atom::Linear {
            coefs,
            constant,
            ..
        } => {
            coefs.len() == width
                && are_small(coefs.as_slice())
                && constant.unsigned_abs() <= GREATEST
        }
    }
}

fn fit_node(width: usize, atoms: &[Atom]) -> bool
    ensures { IsTrue result → All (FitsNode width) atoms.now }
{
    atoms.iter().all(|atom| fits_node(width, atom))
}

fn is_small(row: &Row) -> bool
    ensures { IsTrue result → EntriesAreBelow (2 ^ 50) row.now }
{
    row.constant.unsigned_abs() <= GREATEST
        && row
            .coefs
            .as_slice()
            .iter()
            .all(|entry| entry.unsigned_abs() <= GREATEST)
}

fn columns_in(width: usize, rows: &[Row], forms: &[Form]) -> usize
    ensures { result ≡ columns_in width rows.now forms.now }
{
    match (rows, forms) {
        ([row, ..], _) => row.coefs.len(),
        ([], [form, ..]) => form.coefs.len(),
        ([], []) => width,
    }
}

fn have_columns(columns: usize, rows: &[Row], forms: &[Form]) -> bool
    ensures rows { IsTrue result → All (λ row. length row.coefs ≡ columns) rows.now }
    ensures forms { IsTrue result → All (λ form. length form.coefs ≡ columns) forms.now }
{
    rows.iter().all(|row| row.coefs.len() == columns)
        && forms.iter().all(|form| form.coefs.len() == columns)
}

fn fits_clause(start: usize, end: usize, clause: &Clause) -> bool
    ensures { IsTrue result → FitsClause start end clause.now }
{
    let (rows, forms) = (clause.rows.as_slice(), clause.after.as_slice());
    let columns = columns_in(start, rows, forms);
    if columns < start || columns > start.saturating_add(16) || forms.len() != end {
        return false;
    }
    have_columns(columns, rows, forms) && rows.iter().all(is_small) && are_fitting_forms(forms)
}

/// How many values the first linear atom speaks of.
fn width_of(atoms: &[Atom]) -> usize {
    for atom in atoms {
        if let Atom::Linear { coefs, .. } = atom {
            return coefs.len();
        }
    }
    0
}

fn can_oblige(family: &Family, clause: &Clause, atom: &Atom) -> bool
    ensures { IsTrue result → CanOblige family.now clause.now atom.now }
{
    let Some(first) = family.at(&clause.from) else {
        return false;
    };
    let (start, end) = (width_of(first), clause.after.len());
    if start > 16 || end > 16 || !fit_node(start, first) {
        return false;
    }
    fits_node(end, atom) && fits_clause(start, end, clause)
}

// ---- the multipliers

/// Multipliers that refute the obligation, and no list where there are none.
fn list_for(
    alloc: Global,
    family: &Family,
    clause: &Clause,
    atom: &Atom,
    upper: bool,
) -> Result<Items<i128>, AllocError> {
    if !can_oblige(family, clause, atom) {
        return Ok(Items::new(alloc));
    }
    let rows = obligation_rows(alloc, family, clause, atom, upper)?;
    match prove(alloc, rows.as_slice(), 4_000) {
        Ok(Answer::Refuted(multipliers)) => Ok(multipliers),
        Err(Limit::Memory) => Err(AllocError),
        _ => Ok(Items::new(alloc)),
    }
}

fn is_equality(atom: &Atom) -> bool {
    matches!(atom, Atom::Linear { rel: Rel::Eq, .. })
}

fn push_lists(
    alloc: Global,
    lists: &mut Items<Items<i128>>,
    family: &Family,
    clause: &Clause,
) -> Result<(), AllocError> {
    let Some(atoms) = family.at(&clause.to) else {
        return Ok(());
    };
    for atom in atoms {
        lists.push(list_for(alloc, family, clause, atom, false)?)?;
        if is_equality(atom) {
            lists.push(list_for(alloc, family, clause, atom, true)?)?;
        }
    }
    Ok(())
}

/// A list for each obligation, in their order.
fn proofs_for(alloc: Global, product: &Product, family: &Family) -> Result<Proofs, AllocError> {
    let mut lists = Items::new(alloc);
    for clause in product.clauses.as_slice() {
        push_lists(alloc, &mut lists, family, clause)?;
    }
    Ok(Proofs { lists })
}

// ---- what is answered

/// What is given besides the proofs.
#[derive(Clone, Copy)]
struct Given<'a> {
    subject: &'a Subject,
    alignment: Alignment,
    family: &'a Family,
}

/// Whether it has what was given, and so many lists.
fn has(coupled: &Coupled, given: &Given, count: usize) -> bool {
    coupled.subject().same(given.subject)
        && coupled.alignment() == given.alignment
        && coupled.family().same(given.family)
        && coupled.proofs().lists.len() == count
}

fn kept(alloc: Global, coupled: &Coupled, given: &Given, count: usize) -> Result<bool, AllocError> {
    let copy = coupled.copy(alloc)?;
    Ok(has(coupled, given, count) && has(&copy, given, count))
}

/// Whether the family is taken, and what was given is kept, with so many lists; else the refusal.
fn answered(
    alloc: Global,
    given: &Given,
    proofs: Proofs,
    count: usize,
) -> Result<String, AllocError> {
    let family = given.family.copy(alloc)?;
    if !has_small_atoms(&family) {
        return String::from_str(alloc, "great numbers");
    }
    match Coupled::new(alloc, given.subject, given.alignment, family, proofs) {
        Ok(coupled) => {
            let kept = kept(alloc, &coupled, given, count)?;
            String::from_str(alloc, if kept { "coupled" } else { "another one" })
        }
        Err(NotCoupled::Memory) => Err(AllocError),
        Err(why) => format!(in alloc; "{why:?}"),
    }
}

fn condition_of(alloc: Global, text: &str, func: &Func) -> Result<Expr, Fail>
    ensures { IfOk result (IsCondition func.now) }
{
    if text.len() > 65536 {
        return Err("a long text".into());
    }
    match read_condition(alloc, text.as_bytes(), func) {
        Ok(condition) => Ok(condition),
        Err(_) => Err("no condition".into()),
    }
}

fn subject_under(
    alloc: Global,
    first: &str,
    second: &str,
    condition: &str,
) -> Result<Subject, Fail> {
    let first = function(alloc, first)?;
    let second = function(alloc, second)?;
    let condition = condition_of(alloc, condition, &first)?;
    let settings = Settings::new(100, 64, 4000, 0).unwrap();
    match Subject::with_condition(first, second, settings, condition) {
        Ok(subject) => Ok(subject),
        Err(_) => Err("other parameters".into()),
    }
}

fn subject_of(alloc: Global, texts: &Texts) -> Result<Subject, Fail> {
    let (first, second, condition) = *texts;
    if condition.is_empty() {
        subject(alloc, first, second)
    } else {
        subject_under(alloc, first, second, condition)
    }
}

/// The product of the texts under their condition, which is over the parameter `a`.
fn product_of(
    alloc: Global,
    texts: &Texts,
    alignment: Alignment,
) -> Result<Result<Product, ProductLimit>, Fail> {
    let (first, second, condition) = *texts;
    if condition.is_empty() {
        return made(alloc, first, second, "", alignment);
    }
    let asked = format!(in alloc; "int f(int a){{return {condition};}}")?;
    made(alloc, first, second, asked.as_str(), alignment)
}

/// The lists for the family's obligations; none where there is no product.
fn found(alloc: Global, texts: &Texts, given: &Given) -> Result<Proofs, Fail> {
    match product_of(alloc, texts, given.alignment)? {
        Ok(product) => Ok(proofs_for(alloc, &product, given.family)?),
        Err(ProductLimit::Memory) => Err(AllocError.into()),
        Err(_) => Ok(Proofs {
            lists: Items::new(alloc),
        }),
    }
}

/// What is answered where the lists are found here, and there is one too many.
fn coupled(alloc: Global, texts: &Texts, given: &Given) -> Result<String, Fail> {
    let mut proofs = found(alloc, texts, given)?;
    let count = proofs.lists.len();
    proofs.lists.push(Items::new(alloc))?;
    Ok(answered(alloc, given, proofs, count)?)
}

fn answered_of(alloc: Global, case: &Case) -> Result<String, Fail> {
    let subject = subject_of(alloc, &case.texts)?;
    let family = family(alloc, case.family)?;
    let given = Given {
        subject: &subject,
        alignment: alignment_of(case.number)?,
        family: &family,
    };
    coupled(alloc, &case.texts, &given)
}

#[test]
fn families_couple_as_by_hand(rt: HostRuntime) -> Result<(), Fail> {
    for (i, case) in CASES.iter().enumerate() {
        let got = answered_of(rt.alloc(), case)?;
        assert_eq!(rt; got.as_str(), case.answer, "row {i}");
    }
    Ok(())
}

/// Lists for the obligations of the equality of `2a` and `2b`, and what is answered.
const LISTS: [(&[&[i128]], &str); 6] = [
    (&[&[2, 1], &[-2, 1]], "coupled"),
    (&[&[0, 0], &[-2, 1]], "Obligation(0)"),
    (&[&[2, 1], &[0, 0]], "Obligation(1)"),
    (&[&[-2, 1], &[2, 1]], "Obligation(0)"),
    (&[&[2, 1]], "Obligation(1)"),
    (&[], "Obligation(0)"),
];

fn proofs_of(alloc: Global, given: &[&[i128]]) -> Result<Proofs, AllocError> {
    let mut lists = Items::new(alloc);
    for multipliers in given {
        lists.push(Items::from_slice(alloc, multipliers)?)?;
    }
    Ok(Proofs { lists })
}

fn listed(alloc: Global, lists: &[&[i128]]) -> Result<String, Fail> {
    let subject = subject_of(alloc, &ADDED)?;
    let family = family(alloc, &[SAME_BEGIN, SAME_END])?;
    let given = Given {
        subject: &subject,
        alignment: alignment_of(1)?,
        family: &family,
    };
    Ok(answered(alloc, &given, proofs_of(alloc, lists)?, 2)?)
}

#[test]
fn each_obligation_has_its_list(rt: HostRuntime) -> Result<(), Fail> {
    for (lists, want) in LISTS.as_slice() {
        assert_eq!(rt; listed(rt.alloc(), lists)?.as_str(), *want);
    }
    Ok(())
}
