//! From a function to its graph.
ghost use Rattle.std.specs.Prelude.{IfOk};
ghost use Rattle.c_ast.specs.Function.{program_of};
ghost use Rattle.flow_graph.specs.Built.{IsGraphOf};

use crate::layout::{add, closed, lay};
use crate::stop::stops_of;
use crate::{Graph, Op};
use c_ast::{Expr, Func};
use sqlite_items::Items;
use std::alloc::{AllocError, Global};

/// The graph of the function. It answers want of memory, also of a number for a node: these are
/// below 2^32 - 1.
pub fn build(alloc: Global, func: &Func) -> Result<Graph, AllocError>
    ensures { IfOk result (λ graph. IsGraphOf (program_of func.now) graph) }
{
    let mut slots = Vec::new(alloc);
    let end = add(&mut slots, Some(Op::Return(Expr::Num(0))))?;
    let entry = lay(alloc, &mut slots, func.body(), end, end, end)?;
    let ops = closed(alloc, slots)?;
    let stops = stops_of(alloc, func, ops.as_slice())?;
    Ok(Graph {
        params: func.params(),
        vars: func.vars().len() as u32,
        ops: Items::from_vec(ops),
        entry,
        stops: Items::from_vec(stops),
    })
}
