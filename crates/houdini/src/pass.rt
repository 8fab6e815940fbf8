//! One pass over the obligations of a family, in their order: each is asked of the prover, and the
//! watch is asked before it.
ghost use Rattle.std.specs.Prelude.{◌≡◌, ◌≤◌, ◌∷◌, [], true, false, All, IfErr};
ghost use Rattle.lin_terms.specs.Row.{IsFittingRow, HaveOneLength};
ghost use Rattle.horn_clauses.specs.Family.{atoms_at};
ghost use Rattle.horn_clauses.specs.Obligations.{is_equality, obligation, obligation_rows, obligations_at, atoms_or_none, CanOblige};
ghost use Rattle.coupling_check.specs.Checks.{CanCheckClause};
ghost use Rattle.houdini.specs.Pass.{IsCauseOfUnproved, IsCauseOfEnding, AnswersRows, AnswersObligations, AnswersAtoms, AnswersClauses, ending_of, is_equality_atom};

use crate::Stop;
use elimination::{Answer, Limit};
use horn_clauses::{Atom, Clause, Family, Node, Rel, atoms_or_none, obligation_rows};
use lin_prover::prove;
use lin_terms::{MOST_ROWS, Row};
use re_base::Watch;
use sqlite_items::Items;
use std::alloc::{AllocError, Global};

/// Why an obligation has no multipliers.
#[derive(Clone, Copy, Debug, PartialEq, Eq)]
pub enum Unproved {
    /// No multipliers refute its rows.
    Open,
    /// Elimination meets a limit. It is not want of memory.
    Limit(Limit),
    Stop(Stop),
}

impl From<AllocError> for Unproved {
    ghost use Rattle.houdini.specs.declared.stop.Stop.TheVariants.{Memory};
    ghost use Rattle.houdini.specs.declared.pass.Unproved.TheVariants.{Stop};

    ghost from_gives = { λ _ unproved. unproved ≡ Stop Memory };

    fn from(_: AllocError) -> Unproved {
        Unproved::Stop(Stop::Memory)
    }
}

/// How a pass ends that does not prove all obligations.
#[derive(Clone, Copy, Debug, PartialEq, Eq)]
pub enum Ending {
    /// An atom is not shown to hold at a clause's end.
    Open {
        /// The clause's number in the product, from 0.
        clause: usize,
        /// The atom's place at the node where the clause ends, from 0.
        atom: usize,
    },
    /// Elimination meets a limit. It is not want of memory.
    Limit(Limit),
    Stop(Stop),
}

/// Asks the prover for multipliers of the rows. It is not stopped.
fn ask_prover(alloc: Global, rows: &[Row], cap: u32) -> Result<Items<i128>, Unproved>
    requires one_length { HaveOneLength rows.now }
    requires fit { All IsFittingRow rows.now }
    ensures { AnswersRows rows.now cap result }
{
    if rows.len() > MOST_ROWS {
        return Err(Unproved::Limit(Limit::ManyRows));
    }
    match prove(alloc, rows, cap) {
        Ok(Answer::Refuted(multipliers)) => Ok(multipliers),
        Ok(Answer::NotRefutable) => Err(Unproved::Open),
        Err(Limit::Memory) => Err(Unproved::Stop(Stop::Memory)),
        Err(limit) => Err(Unproved::Limit(limit)),
    }
}

/// The same of the obligation that the clause ends with the atom.
fn multipliers_of(
    alloc: Global,
    family: &Family,
    cap: u32,
    clause: &Clause,
    atom: &Atom,
    upper: bool,
) -> Result<Items<i128>, Unproved>
    requires { CanOblige family.now clause.now atom.now }
    ensures { AnswersRows (obligation_rows family.now clause.now atom.now upper) cap result }
{
    match obligation_rows(alloc, family, clause, atom, upper) {
        Ok(rows) => ask_prover(alloc, rows.as_slice(), cap),
        Err(_) => Err(Unproved::Stop(Stop::Memory)),
    }
}

/// Asks for multipliers of one obligation, and adds them to the lists. The watch is asked before.
fn ask<W: Watch>(
    alloc: Global,
    family: &Family,
    cap: u32,
    clause: &Clause,
    atom: &Atom,
    upper: bool,
    watch: &mut W,
    lists: &mut Items<Items<i128>>,
) -> Result<(), Unproved>
    requires { CanOblige family.now clause.now atom.now }
    ensures answers { AnswersObligations family.now
        (obligation clause.now atom.now upper ∷ []) cap lists.old lists.new result }
    ensures later { W.stops watch.old ≤ W.stops watch.new }
    ensures cause { IfErr result
        (IsCauseOfUnproved (W.stops watch.old) (W.stops watch.new)) }
{
    if watch.stop() {
        return Err(Unproved::Stop(Stop::Stopped));
    }
    let multipliers = multipliers_of(alloc, family, cap, clause, atom, upper)?;
    lists.push(multipliers)?;
    Ok(())
}

/// The same of both obligations of an equality, the lower one first.
fn ask_both<W: Watch>(
    alloc: Global,
    family: &Family,
    cap: u32,
    clause: &Clause,
    atom: &Atom,
    watch: &mut W,
    lists: &mut Items<Items<i128>>,
) -> Result<(), Unproved>
    requires { CanOblige family.now clause.now atom.now }
    ensures answers { AnswersObligations family.now
        (obligation clause.now atom.now false ∷ obligation clause.now atom.now true ∷ [])
        cap lists.old lists.new result }
    ensures later { W.stops watch.old ≤ W.stops watch.new }
    ensures cause { IfErr result
        (IsCauseOfUnproved (W.stops watch.old) (W.stops watch.new)) }
{
    ask(alloc, family, cap, clause, atom, false, watch, lists)?;
    ask(alloc, family, cap, clause, atom, true, watch, lists)?;
    Ok(())
}

fn is_equality_sign(rel: Rel) -> bool
    ensures { result ≡ is_equality rel }
{
    match rel {
        Rel::Eq => true,
        Rel::AtLeast => false,
    }
}

/// Whether the atom is an equality, and so has two obligations.
fn is_equality(atom: &Atom) -> bool
    ensures { result ≡ is_equality_atom atom.now }
{
    match atom {
        Atom::False => false,
        Atom::Linear { rel, .. } => is_equality_sign(*rel),
    }
}

/// The same of the obligations of a clause and an atom at its end.
fn ask_atom<W: Watch>(
    alloc: Global,
    family: &Family,
    cap: u32,
    clause: &Clause,
    atom: &Atom,
    watch: &mut W,
    lists: &mut Items<Items<i128>>,
) -> Result<(), Unproved>
    requires { CanOblige family.now clause.now atom.now }
    ensures answers { AnswersObligations family.now
        (obligations_at clause.now atom.now) cap lists.old lists.new result }
    ensures later { W.stops watch.old ≤ W.stops watch.new }
    ensures cause { IfErr result
        (IsCauseOfUnproved (W.stops watch.old) (W.stops watch.new)) }
{
    if is_equality(atom) {
        ask_both(alloc, family, cap, clause, atom, watch, lists)
    } else {
        ask(alloc, family, cap, clause, atom, false, watch, lists)
    }
}

/// The end of a pass at this clause and this atom.
fn ending_of(unproved: Unproved, clause: usize, atom: usize) -> Ending
    ensures { result ≡ ending_of unproved clause atom }
{
    match unproved {
        Unproved::Open => Ending::Open { clause, atom },
        Unproved::Limit(limit) => Ending::Limit(limit),
        Unproved::Stop(why) => Ending::Stop(why),
    }
}

/// The same of the clause with this number, and atoms at its end.
fn ask_atoms<W: Watch>(
    alloc: Global,
    family: &Family,
    cap: u32,
    clause: &Clause,
    number: usize,
    atoms: &[Atom],
    watch: &mut W,
    lists: &mut Items<Items<i128>>,
) -> Result<(), Ending>
    requires { All (CanOblige family.now clause.now) atoms.now }
    ensures answers { AnswersAtoms family.now clause.now number atoms.now cap
        lists.old lists.new result }
    ensures later { W.stops watch.old ≤ W.stops watch.new }
    ensures cause { IfErr result (IsCauseOfEnding (W.stops watch.old) (W.stops watch.new)) }
{
    for (i, atom) in atoms.iter().enumerate() {
        match ask_atom(alloc, family, cap, clause, atom, watch, lists) {
            Ok(()) => {}
            Err(unproved) => return Err(ending_of(unproved, number, i)),
        }
    }
    Ok(())
}

/// The same of the clause with this number, in the order of the family's atoms at its end.
fn ask_clause<W: Watch>(
    alloc: Global,
    family: &Family,
    cap: u32,
    clause: &Clause,
    number: usize,
    watch: &mut W,
    lists: &mut Items<Items<i128>>,
) -> Result<(), Ending>
    requires { CanCheckClause family.now clause.now }
    ensures answers { AnswersAtoms family.now clause.now number
        (atoms_or_none (atoms_at family.now clause.now.to)) cap lists.old
        lists.new result }
    ensures later { W.stops watch.old ≤ W.stops watch.new }
    ensures cause { IfErr result (IsCauseOfEnding (W.stops watch.old) (W.stops watch.new)) }
{
    let atoms = atoms_or_none(family, &clause.to);
    ask_atoms(alloc, family, cap, clause, number, atoms, watch, lists)
}

/// Asks for multipliers of each obligation of the clauses, in order, and adds them to the lists, up
/// to the first that has none.
pub fn ask_clauses<W: Watch>(
    alloc: Global,
    family: &Family,
    cap: u32,
    clauses: &[Clause],
    watch: &mut W,
    lists: &mut Items<Items<i128>>,
) -> Result<(), Ending>
    requires { All (CanCheckClause family.now) clauses.now }
    ensures answers { AnswersClauses family.now clauses.now cap lists.old
        lists.new result }
    ensures later { W.stops watch.old ≤ W.stops watch.new }
    ensures cause { IfErr result (IsCauseOfEnding (W.stops watch.old) (W.stops watch.new)) }
{
    for (number, clause) in clauses.iter().enumerate() {
        ask_clause(alloc, family, cap, clause, number, watch, lists)?;
    }
    Ok(())
}
