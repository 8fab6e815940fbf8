//! The cases of the segments from a place of a graph.
ghost use Rattle.std.specs.Prelude.{◌≡◌, ◌<◌, ◌^◌, ◌↔◌, List, ℤ, length, map, reverse, [], Ok, IfOk, IfErr};
ghost use Rattle.c_ast.specs.declared.place.Place.{Place};
ghost use Rattle.flow_graph.specs.FlowGraph.{variables_at, width_at, GoesOnAt};
ghost use Rattle.flow_graph.specs.Run.{IsGraphSegment};
ghost use Rattle.sym_paths.specs.Points.{SomeOf};
ghost use Rattle.sym_paths.specs.Cases.{room_for, cases_of, LeadsTo};
ghost use Rattle.sym_paths.specs.Waiting.{IsLimit, CanGoOn, searched_from};

use crate::PathLimit;
use crate::case::Case;
use crate::limit::MOST_UNKNOWNS;
use crate::node::entered;
use crate::search::{Waiting, search, wait};
use crate::start::start_forms;
use crate::task::Subject;
use c_ast::Place;
use flow_graph::Graph;
use std::alloc::{AllocError, Global};

/// The move with which the walk from the place begins.
fn begun<'a>(
    alloc: Global,
    room: usize,
    graph: &'a Graph,
    place: Place,
    variables: &[u32],
) -> Result<Vec<Waiting<'a>>, AllocError>
    requires place { GoesOnAt graph.now place }
    requires variables { variables.now ≡ variables_at graph.now place }
    requires room { room ≡ room_for (length variables.now) }
    requires few { room < 2 ^ 32 }
    ensures can { IfOk result (λ work. CanGoOn room graph.now [] (reverse work.items) []) }
    ensures same { IfOk result (λ work.
        searched_from room graph.now [] (reverse work.items) [] ≡ cases_of graph.now place) }
{
    let forms = start_forms(alloc, room, variables, graph.vars())?;
    // No way over the graph is longer than it has nodes.
    let left = graph.len() as usize + 1;
    let node = graph.after(place);
    let columns = graph.width_at(place);
    let subject = Subject::Graph(graph);
    let moves = entered(alloc, room, subject, left, node, forms, columns)?;
    let mut work = Vec::new(alloc);
    wait(&mut work, 0, moves)?;
    Ok(work)
}

/// The cases of the segments from a place, in the order of the walk: the place is the entry or a
/// mark of the graph. A segment leads from the place with its values to another with those exactly
/// where some case does, with whole numbers for its unknowns. The limit is the first that the walk
/// meets; that there is a 1,025th case is one.
///
/// Example: from the mark of `while (__mark(42) & (i < n)) { s += i; i++; }` with `return s;`
/// behind it, over n, i and s: where `n - i - 1 >= 0` the mark again, with n, i + 1 and s + i;
/// where `i - n >= 0` the exit, with s.
pub fn segments(alloc: Global, graph: &Graph, place: Place) -> Result<Vec<Case>, PathLimit>
    requires { GoesOnAt graph.now place }
    ensures cases { IfOk result (λ cases. cases_of graph.now place ≡ Ok cases.items) }
    ensures limit { IfErr result (IsLimit (cases_of graph.now place)) }
    ensures exact { IfOk result (λ cases. (e : List ℤ) (l : Place) (e' : List ℤ)
        → length e ≡ width_at graph.now place
        → IsGraphSegment graph.now place e l e' ↔ SomeOf (LeadsTo e l e') cases.items) }
{
    // The form of the graph: at most 64 variables are in scope.
    let _ = graph.op(graph.after(place));
    let variables = graph.vars_at(alloc, place)?;
    let room = variables.len() + MOST_UNKNOWNS;
    let work = begun(alloc, room, graph, place, variables.as_slice())?;
    search(alloc, room, Subject::Graph(graph), work)
}
