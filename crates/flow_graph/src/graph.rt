//! The graph and its readers.
ghost use Rattle.std.specs.Prelude.{◌≡◌, ◌<◌, length, slice_get, Some, All, IfOk};
ghost use Rattle.std.specs.List.Sorted.{IsStrictlyIncreasing};
ghost use Rattle.std.specs.Option.{option_copied};

use crate::Op;
use crate::stop::Stop;
use c_ast::Place;
use sqlite_items::Items;
use std::alloc::{AllocError, Global};
use std::marker::Model;

/// A graph. Its nodes are numbered from 0. An edge leads to a mark or to a lower number, but for
/// those out of marks; so each cycle passes a mark.
#[derive(Debug, Drop)]
pub struct Graph {
    pub(crate) params: u32,
    pub(crate) vars: u32,
    pub(crate) ops: Items<Op>,
    pub(crate) entry: u32,
    /// By rising mark.
    pub(crate) stops: Items<Stop>,
}

impl Model for Graph {
    ghost use Rattle.std.specs.Coded.{codes};
    ghost use Rattle.c_ast.specs.contracts.expr.Expr as expressions;
    ghost use Rattle.flow_graph.specs.FlowGraph.{FlowGraph, flow_graph};
    ghost use Rattle.flow_graph.specs.WellFormed.{IsFlowGraph};

    ghost Value = { FlowGraph };

    ghost coded = { Prim.hlevel (codes, expressions.the_row.coded) };

    ghost view = { λ graph. flow_graph graph.params graph.vars graph.ops graph.entry graph.stops };

    ghost invariant = { λ graph.
        IsFlowGraph (flow_graph graph.params graph.vars graph.ops graph.entry graph.stops) };
}

impl Graph {
    ghost use Rattle.flow_graph.specs.FlowGraph.{FlowGraph, stop_of, node_after, variables_at};
    ghost use Rattle.flow_graph.specs.FlowGraph.{width_at, places_of, marks_among, GoesOnAt};
    ghost use Rattle.flow_graph.specs.FlowGraph.{HasPlace};
    ghost use Rattle.flow_graph.specs.WellFormed.{IsFlowGraph};

    /// The number of the function's parameters.
    pub fn params(&self) -> u32
        ensures { result ≡ self.now.params }
    {
        self.params
    }

    /// The number of the function's variables.
    pub fn vars(&self) -> u32
        ensures { result ≡ self.now.vars }
    {
        self.vars
    }

    /// The number of nodes.
    pub fn len(&self) -> u32
        ensures { result ≡ length self.now.ops }
    {
        self.ops.len() as u32
    }

    /// The node with this number, which is below `len`. What holds of every graph is handed on
    /// here: each node's edges lead down or to marks, and its expression can be evaluated over the
    /// graph's variables.
    pub fn op(&self, n: u32) -> &Op
        requires { n < length self.now.ops }
        ensures op { slice_get self.now.ops n ≡ Some result.now }
        ensures formed { IsFlowGraph self.now }
    {
        &self.ops.as_slice()[n as usize]
    }

    /// What is known of the mark.
    fn stop(&self, mark: u32) -> Option<&Stop>
        ensures { option_copied result ≡ stop_of self.now.stops mark }
    {
        self.stops.as_slice().iter().find(|stop| stop.mark == mark)
    }

    /// The node at which a run goes on from the place, which is the entry or a mark of the graph.
    pub fn after(&self, place: Place) -> u32
        requires { GoesOnAt self.now place }
        ensures node { result ≡ node_after self.now place }
        ensures below { result < length self.now.ops }
    {
        match place {
            Place::Entry | Place::Exit => self.entry,
            Place::Mark(mark) => self.stop(mark).unwrap().next,
        }
    }

    /// The entry, the marks by rising number, and the exit.
    pub fn places(&self, alloc: Global) -> Result<Vec<Place>, AllocError>
        ensures places { IfOk result (λ places. places.items ≡ places_of self.now) }
        ensures rising { IfOk result (λ places. IsStrictlyIncreasing (marks_among places.items)) }
        ensures each { IfOk result (λ places. All (HasPlace self.now) places.items) }
    {
        let mut places = Vec::new(alloc);
        places.push(Place::Entry)?;
        for stop in self.stops.as_slice() {
            places.push(Place::Mark(stop.mark))?;
        }
        places.push(Place::Exit)?;
        Ok(places)
    }

    /// The variables in scope at a place of the graph, by rising number. At the exit there are
    /// none: the result alone has a value.
    pub fn vars_at(&self, alloc: Global, place: Place) -> Result<Vec<u32>, AllocError>
        requires { HasPlace self.now place }
        ensures listed { IfOk result (λ variables. variables.items ≡ variables_at self.now place) }
        ensures rising { IfOk result (λ variables. IsStrictlyIncreasing variables.items) }
    {
        match place {
            Place::Entry => {
                let mut variables = Vec::new(alloc);
                for x in 0..self.params {
                    variables.push(x)?;
                }
                Ok(variables)
            }
            Place::Mark(mark) => {
                let stop = self.stop(mark).unwrap();
                Ok(Vec::from_slice(alloc, stop.scope.as_slice())?)
            }
            Place::Exit => Ok(Vec::new(alloc)),
        }
    }

    /// How many values a run has at a place of the graph: one for each variable in scope, and at
    /// the exit the result alone.
    pub fn width_at(&self, place: Place) -> u32
        requires { HasPlace self.now place }
        ensures { result ≡ width_at self.now place }
    {
        match place {
            Place::Entry => self.params,
            Place::Mark(mark) => self.stop(mark).unwrap().scope.len() as u32,
            Place::Exit => 1,
        }
    }
}
