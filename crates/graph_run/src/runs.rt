//! Runs, a step after another.
ghost use Rattle.std.specs.Prelude.{◌≡◌, length};
ghost use Rattle.graph_run.specs.Answers.{AllFitRun, Answers};

use crate::Skip;
use crate::step::{Next, event, step};
use c_ast::{Place, Trace, first_environment};
use flow_graph::Graph;
use sqlite_items::Items;
use std::alloc::Global;

/// The trace of the graph's run, where the parameters have these values: one for each parameter, in
/// their order, each below 2^100 in size. The run may pass `marks` marks, and nothing else bounds
/// it, since each cycle of the graph passes a mark. It answers `NotEnded` at one mark more, `Wide`
/// where a part of an evaluated expression is 2^100 or more in size, whichever is met first, and
/// `Memory` at any time. It never answers `Unmet`.
pub fn run(alloc: Global, graph: &Graph, input: &[i128], marks: u32) -> Result<Trace, Skip>
    requires arity { length input.now ≡ graph.now.params }
    requires fits { AllFitRun input.now }
    ensures { Answers graph.now input.now marks result }
{
    let mut values = first_environment(alloc, graph.vars() as usize, input)?;
    let environment = values.as_mut_slice();
    let mut events = Items::new(alloc);
    let mut left = marks;
    let mut node = graph.after(Place::Entry);
    loop {
        match step(graph.op(node), environment) {
            Next::Goes(next) => node = next,
            Next::Passes { mark, next } => {
                if left == 0 {
                    return Err(Skip::NotEnded);
                }
                left -= 1;
                events.push(event(alloc, graph, mark, environment)?)?;
                node = next;
            }
            Next::Ends(result) => return Ok(Trace { events, result }),
            Next::Wide => return Err(Skip::Wide),
        }
    }
}
