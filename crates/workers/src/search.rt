//! The search under one alignment.
ghost use Rattle.std.specs.Prelude.{◌≡◌, ◌≤◌, ℕ, List, IfOk, IfErr};
ghost use Rattle.c_ast.specs.declared.trace.Pair.{Pair};
ghost use Rattle.horn_clauses.specs.declared.family.Family.{Family};
ghost use Rattle.horn_clauses.specs.Family.{atoms_at};
ghost use Rattle.coupling_check.specs.Checks.{Checks};
ghost use Rattle.relation.specs.declared.not_coupled.NotCoupled.TheVariants.{Memory};
ghost use Rattle.relation.specs.Linear.{IsLinear};
ghost use Rattle.relation.specs.Coupled.{IsProductOf, coupling, lists_for};
ghost use Rattle.miners.specs.Candidates.{AreMinedFrom};
ghost use Rattle.houdini.specs.Within.{candidates_or_false, family_of};
ghost use Rattle.houdini.specs.Pass.{IsCause};
ghost use Rattle.pool_core.specs.Justified.{ArePairsAt};
ghost use Rattle.workers.specs.Found.{IsOver, IsOverMined, Finds};

use alignment::Alignment;
use c_ast::Subject;
use horn_clauses::{Atom, Family, Node, Product, Proofs};
use houdini::{Outcome, Stop, greatest};
use miners::Candidates;
use pool_core::Why;
use re_base::Watch;
use relation::{Coupled, NotCoupled};
use sqlite_items::Items;
use std::alloc::{AllocError, Global};
use trace_pair::Graphs;

/// What comes of an alignment.
#[derive(Debug, Drop)]
pub enum Found {
    /// The greatest linear family of the candidates couples the functions.
    Coupled(Coupled),
    /// Why the alignment has no coupling, as far as it was tried on the candidates.
    Refused(Why),
}

// ---- the candidates

/// The atoms again.
fn copy_atoms(alloc: Global, atoms: &[Atom]) -> Result<Items<Atom>, AllocError>
    ensures { IfOk result (λ made. made ≡ atoms.now) }
{
    let mut made = Items::new(alloc);
    for atom in atoms {
        made.push(atom.copy(alloc)?)?;
    }
    Ok(made)
}

/// The candidates at the node. A node that has none is not met: `false` alone.
fn candidates_at(
    alloc: Global,
    node: &Node,
    candidates: &Candidates,
) -> Result<Items<Atom>, AllocError>
    ensures { IfOk result (λ atoms.
        atoms ≡ candidates_or_false (atoms_at candidates.now node.now)) }
{
    match candidates.at(node) {
        Some(atoms) => copy_atoms(alloc, atoms),
        None => copy_atoms(alloc, &[Atom::False]),
    }
}

/// The node with its candidates.
fn entry_at(
    alloc: Global,
    node: &Node,
    candidates: &Candidates,
) -> Result<(Node, Items<Atom>), AllocError>
    ensures { IfOk result (λ entry.
        entry ≡ (node.now, candidates_or_false (atoms_at candidates.now node.now))) }
{
    let atoms = candidates_at(alloc, node, candidates)?;
    Ok((*node, atoms))
}

/// The candidates at these nodes; where a node has none, `false` alone.
pub(crate) fn candidates_over(
    alloc: Global,
    nodes: &[Node],
    candidates: &Candidates,
) -> Result<Family, AllocError>
    ensures { IfOk result (λ made. made ≡ family_of nodes.now (atoms_at candidates.now)) }
{
    let mut entries = Items::new(alloc);
    for node in nodes {
        entries.push(entry_at(alloc, node, candidates)?)?;
    }
    Ok(Family { nodes: entries })
}

// ---- the search

/// Want of memory, which alone may refuse a linear family.
fn for_memory(why: NotCoupled) -> AllocError
    requires { why ≡ Memory }
{
    AllocError
}

/// The subject with a linear family over its product: nothing refuses it but want of memory.
fn couple(
    alloc: Global,
    subject: &Subject,
    graphs: &Graphs,
    product: &Product,
    alignment: Alignment,
    family: Family,
    proofs: Proofs,
) -> Result<Coupled, AllocError>
    requires product { IsProductOf subject.now alignment graphs.now.first graphs.now.second
        product.now }
    requires linear { IsLinear graphs.now.first graphs.now.second product.now family }
    requires checks { Checks product.now family proofs }
    ensures { IfOk result (λ made.
        made ≡ coupling subject.now alignment family (lists_for family product.now proofs)) }
{
    let (first, second) = (&graphs.first, &graphs.second);
    match Coupled::over(
        alloc, subject, first, second, alignment, product, family, proofs,
    ) {
        Ok(coupled) => Ok(coupled),
        Err(why) => Err(for_memory(why)),
    }
}

/// The greatest linear family of the candidates over the product, or why there is none. The watch
/// is asked before each obligation.
pub(crate) fn search<W: Watch>(
    alloc: Global,
    subject: &Subject,
    graphs: &Graphs,
    product: &Product,
    alignment: Alignment,
    family: Family,
    watch: &mut W,
) -> Result<Found, Stop>
    requires product { IsProductOf subject.now alignment graphs.now.first graphs.now.second
        product.now }
    requires family { IsOverMined subject.now alignment product.now family }

    // With whatever pairs these candidates are those of.
    ensures found { (candidates : Family) (indexes : List ℕ) (pairs : List Pair)
        → IsOver product.now candidates family → ArePairsAt subject.now indexes pairs
        → AreMinedFrom subject.now alignment pairs candidates
        → IfOk result (Finds subject.now alignment pairs) }

    // The count of the watch never falls, and it is stopped only where that rose.
    ensures later { W.stops watch.old ≤ W.stops watch.new }
    ensures cause { IfErr result (IsCause (W.stops watch.old) (W.stops watch.new)) }
{
    // What holds of each subject.
    let _ = subject.first();
    let rows = subject.settings().rows();
    match greatest(alloc, product, family, rows, watch)? {
        Outcome::Kept(family, proofs) => {
            let coupled = couple(alloc, subject, graphs, product, alignment, family, proofs)?;
            Ok(Found::Coupled(coupled))
        }
        Outcome::NoCoupling => Ok(Found::Refused(Why::NoCoupling)),
        Outcome::Limit {
            obligation,
            left,
            limit,
        } => Ok(Found::Refused(Why::AtObligation {
            obligation,
            left,
            limit,
        })),
    }
}
