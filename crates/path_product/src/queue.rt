//! Nodes that wait to be taken, in the order in which they are met.
//!
//! Each joins once. A set beside the list tells which were met.
ghost use Rattle.std.specs.Prelude.{◌≡◌, ◌+◌, ◌<◌, ◌^◌, ◌||◌, [], slice_get, OnOk, OnErr, OnSome};
ghost use Rattle.horn_clauses.specs.Node.{is_same_node};
ghost use Rattle.path_product.specs.Product.{is_among};

use horn_clauses::Node;
use std::alloc::{AllocError, Global};
use std::collections::BTreeSet;
use std::marker::Model;

/// Nodes, each once.
#[derive(Drop)]
pub(crate) struct Queue {
    order: Vec<Node>,
    met: BTreeSet<Node>,
}

impl Model for Queue {
    ghost use Rattle.std.specs.Prelude.{List};
    ghost use Rattle.horn_clauses.specs.declared.node.Node.{Node};
    ghost use Rattle.path_product.specs.Queue.{HaveSame};

    ghost Value = { List Node };

    ghost view = { λ queue. queue.order.items };

    ghost invariant = { λ queue. HaveSame queue.met.keys queue.order.items };
}

/// Whether the set has the node.
fn has(met: &BTreeSet<Node>, node: Node) -> bool
    ensures { result ≡ is_among node met.now.keys }
{
    met.contains(&node)
}

/// The node joins the set.
fn insert(met: &mut BTreeSet<Node>, node: Node) -> Result<(), AllocError>
    ensures ok { OnOk result ((n : Node) → is_among n met.new.keys
        ≡ (is_same_node n node || is_among n met.old.keys)) }
    ensures err { OnErr result (met.new.keys ≡ met.old.keys) }
{
    met.insert(node)?;
    Ok(())
}

impl Queue {
    ghost use Rattle.path_product.specs.Queue.{met_with};

    /// No node.
    pub(crate) fn new(alloc: Global) -> Queue
        ensures { result ≡ [] }
    {
        Queue {
            order: Vec::new(alloc),
            met: BTreeSet::new(alloc),
        }
    }

    /// Whether the node was met.
    pub(crate) fn has(&self, node: Node) -> bool
        ensures { result ≡ is_among node self.now }
    {
        has(&self.met, node)
    }

    /// The node that was met after so many others.
    pub(crate) fn at(&self, count: usize) -> Option<Node>
        ensures node { result ≡ slice_get self.now count }
        ensures few { OnSome result (count + 1 < 2 ^ 64) }
    {
        self.order.get(count).copied()
    }

    /// The node joins, unless it was met.
    pub(crate) fn join(&mut self, node: Node) -> Result<(), AllocError>
        ensures { OnOk result (self.new ≡ met_with self.old node) }
    {
        if has(&self.met, node) {
            return Ok(());
        }
        self.order.reserve(1)?;
        insert(&mut self.met, node)?;
        self.order.push(node)?;
        Ok(())
    }
}
