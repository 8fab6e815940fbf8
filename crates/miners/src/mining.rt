//! Mining, one pair of traces after another.
ghost use Rattle.std.specs.Prelude.{◌≡◌, ◌++◌, ◌∷◌, [], true, ℤ, List, map, fold, IfOk, OnOk, OnErr, All};
ghost use Rattle.horn_clauses.specs.Node.{entries, is_same_node};
ghost use Rattle.horn_clauses.specs.Equalities.{equal_parameters};
ghost use Rattle.walks.specs.Laws.{IsNarrowPair};
ghost use Rattle.walks.specs.Walk.{spot_at, walk_of};
ghost use Rattle.miners.specs.Entries.{entry_of, entries_of, is_had};
ghost use Rattle.miners.specs.Candidates.{AreMinedFrom};
ghost use Rattle.miners.specs.Gathered.{mined_family, GatheredIsMined, is_among, with_node, struck_entry, struck_nodes, with_spots};

use crate::accumulator::Accumulator;
use crate::atoms::equal_parameters;
use crate::{Candidates, bound_constants};
use alignment::Alignment;
use c_ast::{Pair, Place, Subject};
use horn_clauses::{Atom, Family, Node};
use sqlite_items::Items;
use std::alloc::{AllocError, Global};
use std::marker::Model;
use walks::{Position, first_values, node_at, positions, second_values};

const ENTRIES: Node = Node(Place::Entry, Place::Entry);

/// What is mined so far of the pairs of one subject under one alignment. Contracts see the atoms
/// that are left at each node that was met.
#[derive(Debug, Drop)]
pub struct Mining {
    constants: Items<i64>,
    params: u32,
    alignment: Alignment,
    nodes: Vec<Accumulator>,
}

impl Model for Mining {
    ghost use Rattle.miners.specs.Gathered.{Gathered};

    ghost Value = { Gathered };

    ghost use Rattle.miners.specs.Entries.{gathered_of};

    ghost view = { λ m. gathered_of m.constants m.params m.alignment m.nodes.items };
}

fn is_same(first: &Node, second: &Node) -> bool
    ensures { result ≡ is_same_node first.now second.now }
{
    first.same(second)
}

/// Whether some accumulator is at the node.
fn is_among(nodes: &[Accumulator], node: &Node) -> bool
    ensures { (constants : List ℤ) → result ≡ is_among (entries_of constants nodes.now) node.now }
{
    for accumulator in nodes {
        if is_same(&accumulator.node(), node) {
            return true;
        }
    }
    false
}

/// Whether the node is that of the entries, which are not mined, or is in one of the lists.
fn is_had(met: &[Accumulator], made: &[Accumulator], node: &Node) -> bool
    ensures { (constants : List ℤ) → result ≡ is_had constants met.now made.now node.now }
{
    if is_same(&ENTRIES, node) {
        return true;
    }
    if is_among(met, node) {
        return true;
    }
    is_among(made, node)
}

/// Adds the node of a position, where neither list has it.
fn add_node(
    alloc: Global,
    met: &[Accumulator],
    made: &mut Vec<Accumulator>,
    pair: &Pair,
    position: Position,
) -> Result<(), AllocError>
    requires { IsNarrowPair pair.now }
    ensures { OnOk result ((constants : List ℤ)
        → entries_of constants met.now ++ entries_of constants made.new.items
        ≡ with_node constants (entries_of constants met.now ++ entries_of constants made.old.items)
        (spot_at pair.now position)) }
{
    let node = node_at(pair, position);
    if is_had(met, made.as_slice(), &node) {
        return Ok(());
    }
    let (first, second) = (first_values(pair, position), second_values(pair, position));
    made.push(Accumulator::new(alloc, node, first, second)?)?;
    Ok(())
}

/// The nodes of the positions that are new.
fn new_nodes(
    alloc: Global,
    met: &[Accumulator],
    pair: &Pair,
    positions: &[Position],
) -> Result<Vec<Accumulator>, AllocError>
    requires { IsNarrowPair pair.now }
    ensures { IfOk result (λ made. (constants : List ℤ)
        → entries_of constants met.now ++ entries_of constants made.items
        ≡ fold (with_node constants) (entries_of constants met.now)
        (map (spot_at pair.now) positions.now)) }
{
    let mut made = Vec::new(alloc);
    for at in positions {
        add_node(alloc, met, &mut made, pair, *at)?;
    }
    Ok(made)
}

/// Leaves at one node what holds at the position too, where it is at that node.
fn strike_at(accumulator: &mut Accumulator, pair: &Pair, position: Position)
    requires { IsNarrowPair pair.now }
    ensures { (constants : List ℤ) → entry_of constants accumulator.new
        ≡ struck_entry (spot_at pair.now position) (entry_of constants accumulator.old) }
{
    if !is_same(&accumulator.node(), &node_at(pair, position)) {
        return;
    }
    accumulator.strike(first_values(pair, position), second_values(pair, position));
}

/// Leaves at the nodes what holds at the position too.
fn strike_nodes(nodes: &mut [Accumulator], pair: &Pair, position: Position)
    requires { IsNarrowPair pair.now }
    ensures { (constants : List ℤ) → entries_of constants nodes.new
        ≡ struck_nodes (entries_of constants nodes.old) (spot_at pair.now position) }
{
    for accumulator in nodes.iter_mut() {
        strike_at(accumulator, pair, position);
    }
}

/// Leaves at the nodes what holds at all of the positions too. Takes no memory.
fn strike_all(nodes: &mut [Accumulator], pair: &Pair, positions: &[Position])
    requires { IsNarrowPair pair.now }
    ensures { (constants : List ℤ) → entries_of constants nodes.new
        ≡ fold struck_nodes (entries_of constants nodes.old)
        (map (spot_at pair.now) positions.now) }
{
    for at in positions {
        strike_nodes(nodes, pair, *at);
    }
}

/// The same of a list that is kept. Takes no memory.
fn strike_kept(nodes: &mut Vec<Accumulator>, pair: &Pair, positions: &[Position])
    requires { IsNarrowPair pair.now }
    ensures { (constants : List ℤ) → entries_of constants nodes.new.items
        ≡ fold struck_nodes (entries_of constants nodes.old.items)
        (map (spot_at pair.now) positions.now) }
{
    strike_all(nodes.as_mut_slice(), pair, positions);
}

/// The node with the atoms that are left there.
fn entry(
    alloc: Global,
    constants: &[i64],
    accumulator: &Accumulator,
) -> Result<(Node, Items<Atom>), AllocError>
    ensures { IfOk result (λ entry. entry ≡ entry_of constants.now accumulator.now) }
{
    let atoms = accumulator.atoms(alloc, constants)?;
    Ok((accumulator.node(), atoms))
}

/// Adds the nodes with the atoms that are left there.
fn add_entries(
    alloc: Global,
    made: &mut Items<(Node, Items<Atom>)>,
    constants: &[i64],
    nodes: &[Accumulator],
) -> Result<(), AllocError>
    ensures { OnOk result (made.new ≡ made.old ++ entries_of constants.now nodes.now) }
{
    for accumulator in nodes {
        made.push(entry(alloc, constants, accumulator)?)?;
    }
    Ok(())
}

impl Mining {
    ghost use Rattle.miners.specs.Gathered.{gathered, nothing_gathered, with_pair, family_of};

    /// Nothing yet, with these constants of bounds.
    fn of_constants(
        alloc: Global,
        constants: Items<i64>,
        params: u32,
        alignment: Alignment,
    ) -> Mining
        ensures { result ≡ gathered constants params alignment [] }
    {
        Mining {
            constants,
            params,
            alignment,
            nodes: Vec::new(alloc),
        }
    }

    /// No pair yet.
    pub fn new(alloc: Global, subject: &Subject, alignment: Alignment) -> Result<Mining, AllocError>
        ensures { IfOk result (λ mining. mining ≡ nothing_gathered subject.now alignment) }
    {
        let (first, second) = (subject.first(), subject.second());
        let constants = bound_constants(alloc, first, second)?;
        Ok(Mining::of_constants(alloc, constants, first.params(), alignment))
    }

    /// Mines one more pair. An error leaves all as it was: memory is taken for the walk and for the
    /// nodes that are new, and after that atoms are only struck.
    pub fn add(&mut self, alloc: Global, pair: &Pair) -> Result<(), AllocError>
        requires { IsNarrowPair pair.now }
        ensures ok { OnOk result (self.new ≡ with_pair self.old pair.now) }
        ensures err { OnErr result (self.new ≡ self.old) }
    {
        let walk = positions(alloc, self.alignment, pair)?;
        let mut made = new_nodes(alloc, self.nodes.as_slice(), pair, walk.as_slice())?;
        self.nodes.append(&mut made)?;
        strike_kept(&mut self.nodes, pair, walk.as_slice());
        Ok(())
    }

    /// The candidates of the pairs so far.
    pub fn candidates(&self, alloc: Global) -> Result<Candidates, AllocError>
        ensures { IfOk result (λ made. made ≡ family_of self.now) }
    {
        let mut nodes = Items::new(alloc);
        nodes.push((ENTRIES, equal_parameters(alloc, self.params)?))?;
        add_entries(
            alloc,
            &mut nodes,
            self.constants.as_slice(),
            self.nodes.as_slice(),
        )?;
        Ok(Candidates::of(Family { nodes }))
    }
}

/// The candidates of the pairs under the alignment. At the entries they are that each parameter is
/// equal on both sides; a node that no walk meets has none.
pub fn mine(
    alloc: Global,
    subject: &Subject,
    alignment: Alignment,
    pairs: &[Pair],
) -> Result<Candidates, AllocError>
    requires { All IsNarrowPair pairs.now }
    ensures exact { IfOk result (λ made. made ≡ mined_family subject.now alignment pairs.now) }
    ensures mined { IfOk result (λ made. AreMinedFrom subject.now alignment pairs.now made) }
{
    let mut mining = Mining::new(alloc, subject, alignment)?;
    for pair in pairs {
        mining.add(alloc, pair)?;
    }
    let made = mining.candidates(alloc)?;
    Ok(made)
}

/// What is gathered pair by pair is what is mined of all of them.
pub fn law_of_gathering()
    ensures { GatheredIsMined }
{}
