//! Narrowing: strikes atoms that are in no linear family, as far as points show it.
//!
//! It stands in front of the pass, which decides, and is a heuristic: it promises that no linear
//! family is lost, and nothing of how much it strikes. A clause waits until it is asked about, and
//! again once atoms at its start were struck. The rows of its start are made once, and it is asked
//! once of each atom at its end whether some point meets these rows and fails it. A point that is
//! found is tried on all atoms of that end, and kept for the next time.
ghost use Rattle.std.specs.Prelude.{◌≡◌, ◌≤◌, ◌<◌, ◌+◌, IsTrue, true, false, replicate, length, count_by, vec_len, IfOk, IfSome, IfErr};
ghost use Rattle.std.specs.List.{AllZip, list_any};
ghost use Rattle.horn_clauses.specs.Family.{atoms_at};
ghost use Rattle.horn_clauses.specs.Obligations.{atoms_or_none};
ghost use Rattle.coupling_check.specs.Checks.{CanCheckClause, CanCheck};
ghost use Rattle.houdini.specs.Linear.{Narrows};
ghost use Rattle.houdini.specs.Striking.{Strikes, count_atoms};
ghost use Rattle.houdini.specs.Failures.{Marks, IsOpenIfMarked};
ghost use Rattle.houdini.specs.Pass.{IsCause};

use crate::Stop;
use crate::cut::cut;
use crate::entry_exit::may_couple;
use crate::failure::{Failure, failures};
use crate::points::{ask, mark_at_all};
use horn_clauses::{Atom, Clause, Family, Node, Product, atoms_or_none, obligation_rows};
use lin_terms::{MOST_ROWS, Point, Row};
use re_base::Watch;
use std::alloc::{AllocError, Global};

// ---- one clause

/// No marks so far, for so many atoms.
fn no_marks(alloc: Global, count: usize) -> Result<Vec<bool>, AllocError>
    ensures { IfOk result (λ made. made.items ≡ replicate count false) }
{
    vec![in alloc; false; count]
}

/// Marks the atoms that fail at the points that were kept, and at those that are found.
fn mark<W: Watch>(
    alloc: Global,
    start: &[Row],
    failures: &[Failure],
    points: &mut Vec<Point>,
    marks: &mut [bool],
    watch: &mut W,
) -> Result<(), Stop>
    ensures marks { Marks start.now failures.now marks.old marks.new }
    ensures later { W.stops watch.old ≤ W.stops watch.new }
    ensures cause { IfErr result (IsCause (W.stops watch.old) (W.stops watch.new)) }
{
    mark_at_all(start, failures, points.as_slice(), marks);
    ask(alloc, start, failures, points, marks, watch)
}

/// A mark for each atom at the end of the clause: true where a point shows that it may fail. Where
/// the obligations have more than 4,096 rows, and at a node without variables, nothing is asked.
fn marked<W: Watch>(
    alloc: Global,
    family: &Family,
    clause: &Clause,
    points: &mut Vec<Point>,
    watch: &mut W,
) -> Result<Vec<bool>, Stop>
    requires { CanCheckClause family.now clause.now }
    ensures marks { IfOk result (λ marks. AllZip (IsOpenIfMarked family.now clause.now)
        (atoms_or_none (atoms_at family.now clause.now.to)) marks.items) }
    ensures later { W.stops watch.old ≤ W.stops watch.new }
    ensures cause { IfErr result (IsCause (W.stops watch.old) (W.stops watch.new)) }
{
    let atoms = atoms_or_none(family, &clause.to);
    let mut marks = no_marks(alloc, atoms.len())?;
    let start = obligation_rows(alloc, family, clause, &Atom::False, false)?;
    if start.len() >= MOST_ROWS || clause.after.is_empty() {
        return Ok(marks);
    }
    let failures = failures(alloc, family, clause, atoms)?;
    let (rows, ways) = (start.as_slice(), failures.as_slice());
    mark(alloc, rows, ways, points, marks.as_mut_slice(), watch)?;
    Ok(marks)
}

fn has_mark(marks: &[bool]) -> bool
    ensures { result ≡ list_any (λ mark. mark) marks.now }
{
    marks.iter().any(|mark| *mark)
}

/// The family after a clause was asked about, and whether atoms at its end were struck.
fn narrow_clause<W: Watch>(
    alloc: Global,
    family: Family,
    clause: &Clause,
    points: &mut Vec<Point>,
    watch: &mut W,
) -> Result<(Family, bool), Stop>
    requires { CanCheckClause family clause.now }
    ensures strikes { IfOk result (λ made. Strikes clause.now family made.0) }
    ensures fewer { IfOk result (λ made. IsTrue made.1
        → count_atoms made.0.nodes < count_atoms family.nodes) }
    ensures same { IfOk result (λ made. made.1 ≡ false → made.0 ≡ family) }
    ensures later { W.stops watch.old ≤ W.stops watch.new }
    ensures cause { IfErr result (IsCause (W.stops watch.old) (W.stops watch.new)) }
{
    let marks = marked(alloc, &family, clause, points, watch)?;
    let open = marks.as_slice();
    if !has_mark(open) {
        return Ok((family, false));
    }
    let left = cut(alloc, family, &clause.to, open)?;
    Ok((left, true))
}

// ---- all clauses

/// The first clause that waits, which waits no more; none where the family is in no coupling.
fn take(family: &Family, at_entries: usize, waiting: &mut Vec<bool>) -> Option<usize>
    ensures within { IfSome result (λ number. number < vec_len waiting.old) }
    ensures len { vec_len waiting.new ≡ vec_len waiting.old }
    ensures fewer { IfSome result (λ number. count_by (λ waits. waits) waiting.new.items + 1
        ≡ count_by (λ waits. waits) waiting.old.items) }
{
    if !may_couple(family, at_entries) {
        return None;
    }
    let number = waiting.iter().position(|waits| *waits)?;
    waiting[number] = false;
    Some(number)
}

/// Lets the clauses from the node wait.
fn wake(clauses: &[Clause], node: &Node, waiting: &mut Vec<bool>)
    ensures { vec_len waiting.new ≡ vec_len waiting.old }
{
    for (i, clause) in clauses.iter().enumerate() {
        if i < waiting.len() && clause.from.same(node) {
            waiting[i] = true;
        }
    }
}

/// No points so far for each of so many clauses.
fn no_points(alloc: Global, count: usize) -> Result<Vec<Vec<Point>>, AllocError>
    ensures { IfOk result (λ made. vec_len made ≡ count) }
{
    let mut made = Vec::new(alloc);
    for _ in 0..count {
        made.push(Vec::new(alloc))?;
    }
    Ok(made)
}

/// The family without atoms that are in no linear family of its atoms over the product. It ends,
/// since each turn strikes an atom or leaves one clause less that waits, and ends at once where the
/// family has fewer atoms at the entries than told, or says no more at the exits that the results
/// are equal. The watch is asked before each question.
pub(crate) fn narrow<W: Watch>(
    alloc: Global,
    product: &Product,
    family: Family,
    at_entries: usize,
    watch: &mut W,
) -> Result<Family, Stop>
    requires { CanCheck product.now family }
    ensures narrows { IfOk result (Narrows product.now family) }
    ensures can { IfOk result (CanCheck product.now) }
    ensures later { W.stops watch.old ≤ W.stops watch.new }
    ensures cause { IfErr result (IsCause (W.stops watch.old) (W.stops watch.new)) }
{
    let clauses = product.clauses.as_slice();
    let mut waiting = vec![in alloc; true; clauses.len()]?;
    let mut points = no_points(alloc, clauses.len())?;
    let mut left = family;
    while let Some(number) = take(&left, at_entries, &mut waiting) {
        let clause = &clauses[number];
        let (family, struck) = narrow_clause(alloc, left, clause, &mut points[number], watch)?;
        left = family;
        if struck {
            wake(clauses, &clause.to, &mut waiting);
        }
    }
    Ok(left)
}
