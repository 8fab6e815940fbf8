//! One step of a graph.
ghost use Rattle.std.specs.Prelude.{◌≡◌, ◌<◌, if◌then◌else◌, length, IfOk, All};
ghost use Rattle.c_ast.specs.Value.{is_nonzero};
ghost use Rattle.c_ast.specs.declared.place.Place.TheVariants as place;
ghost use Rattle.flow_graph.specs.Operation.{operation_of};
ghost use Rattle.flow_graph.specs.FlowGraph.{variables_at, HasPlace};
ghost use Rattle.graph_run.specs.Step.{VariablesAre, TakesStep, event_of};

use c_ast::{Event, Place, is_nonzero, value_of};
use flow_graph::{Graph, Op};
use sqlite_items::Items;
use std::alloc::{AllocError, Global};

/// What a step comes to: the run goes on at a node, passes a mark, or ends with a result, or a
/// value of 2^100 or more in size was met.
pub(crate) enum Next {
    Goes(u32),
    Passes { mark: u32, next: u32 },
    Ends(i128),
    Wide,
}

/// The node that follows a condition with this value.
fn chosen(value: i128, first: u32, second: u32) -> u32
    ensures { result ≡ (if is_nonzero value then first else second) }
{
    if is_nonzero(value) { first } else { second }
}

/// A step from a node, which may change the values of the variables.
pub(crate) fn step(op: &Op, environment: &mut [i128]) -> Next
    requires { VariablesAre (length environment.old) (operation_of op.now) }
    ensures { TakesStep (operation_of op.now) environment.old result environment.new }
{
    match op {
        Op::Set { var, value, next } => {
            let Some(value) = value_of(value, environment) else {
                return Next::Wide;
            };
            environment[*var as usize] = value;
            Next::Goes(*next)
        }
        Op::Branch { cond, yes, no } => {
            let Some(value) = value_of(cond, environment) else {
                return Next::Wide;
            };
            Next::Goes(chosen(value, *yes, *no))
        }
        Op::Mark { mark, next } => Next::Passes {
            mark: *mark,
            next: *next,
        },
        Op::Return(value) => match value_of(value, environment) {
            Some(value) => Next::Ends(value),
            None => Next::Wide,
        },
    }
}

/// The event of passing a mark of the graph with these values of all variables.
pub(crate) fn event(
    alloc: Global,
    graph: &Graph,
    mark: u32,
    environment: &[i128],
) -> Result<Event, AllocError>
    requires place { HasPlace graph.now (place.Mark mark) }
    requires variables { All (λ x. x < length environment.now)
        (variables_at graph.now (place.Mark mark)) }
    ensures { IfOk result (λ event. event ≡ event_of graph.now mark environment.now) }
{
    let variables = graph.vars_at(alloc, Place::Mark(mark))?;
    let mut values = Items::new(alloc);
    for x in &variables {
        values.push(environment[*x as usize])?;
    }
    Ok(Event { mark, values })
}
