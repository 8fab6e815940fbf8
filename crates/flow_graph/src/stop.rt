//! The marks of a graph, by rising number.
ghost use Rattle.std.specs.Prelude.{◌≡◌, length, map, IfOk};
ghost use Rattle.std.specs.Ordering.{nat_cmp};
ghost use Rattle.std.specs.BTreeMap.{IsOrdered};
ghost use Rattle.c_ast.specs.Function.{program_of};
ghost use Rattle.flow_graph.specs.Stops.{MarksOf, AreNexts, AreKnown, joined, AreStops};

use crate::Op;
use crate::scopes::scopes_of;
use c_ast::Func;
use sqlite_items::Items;
use std::alloc::{AllocError, Global};
use std::collections::BTreeMap;

/// A mark, the node at which a run goes on from it, and the variables in scope there, by rising
/// number.
#[derive(Debug, Drop)]
pub struct Stop {
    pub mark: u32,
    pub next: u32,
    pub scope: Items<u32>,
}

/// The node at which a run goes on from each mark.
fn nexts_of(alloc: Global, ops: &[Op]) -> Result<BTreeMap<u32, u32>, AllocError>
    ensures { IfOk result (λ nexts. AreNexts ops.now (length ops.now) nexts) }
{
    let mut nexts = BTreeMap::new(alloc);
    for op in ops {
        if let Op::Mark { mark, next } = op {
            nexts.insert(*mark, *next)?;
        }
    }
    Ok(nexts)
}

/// Marks with their scopes, each joined with the node at which a run goes on from it.
fn join(
    alloc: Global,
    nexts: &BTreeMap<u32, u32>,
    scopes: BTreeMap<u32, Items<u32>>,
) -> Result<Vec<Stop>, AllocError>
    requires { AreKnown nexts.now scopes.entries }
    ensures joined { IfOk result (λ stops.
        stops.items ≡ map (joined nexts.now) scopes.entries) }
    ensures ordered { IsOrdered nat_cmp scopes }
{
    let mut stops = Vec::new(alloc);
    for (mark, scope) in scopes {
        let next = *nexts.get(&mark).unwrap();
        stops.push(Stop { mark, next, scope })?;
    }
    Ok(stops)
}

/// What the graph with these nodes knows of its marks.
pub(crate) fn stops_of(alloc: Global, func: &Func, ops: &[Op]) -> Result<Vec<Stop>, AllocError>
    requires { MarksOf (program_of func.now) ops.now }
    ensures { IfOk result (λ stops. AreStops (program_of func.now) ops.now stops.items) }
{
    let nexts = nexts_of(alloc, ops)?;
    let scopes = scopes_of(alloc, func)?;
    join(alloc, &nexts, scopes)
}
