//! Statements as nodes, laid from the last to the first, so that each knows the node that comes
//! next.
//!
//! A loop's test is reached from its body, so a slot is kept open for it and filled when the body
//! is laid.
ghost use Rattle.std.specs.Prelude.{◌≡◌, ◌<◌, ◌^◌, length, filter_map, OnOk, IfOk, Some, None};
ghost use Rattle.std.specs.Option.{option_map};
ghost use Rattle.c_ast.specs.View.{put_in_front, expression_of, statements_of};
ghost use Rattle.flow_graph.specs.Operation.{Set, Branch, operation_of};
ghost use Rattle.flow_graph.specs.Layout.{layout, slots_of, added, filled, lay, Lays};

use crate::Op;
use c_ast::{Expr, Stmt, copy_expr};
use std::alloc::{AllocError, Global};

/// One more slot, and its number, which is below 2^32 - 1.
pub(crate) fn add(slots: &mut Vec<Option<Op>>, op: Option<Op>) -> Result<u32, AllocError>
    ensures added { IfOk result (λ node. layout (slots_of slots.new.items) node
        ≡ added (slots_of slots.old.items) (option_map operation_of op)) }
    ensures numbered { OnOk result (length slots.new.items < 2 ^ 32) }
{
    let node = slots.len();
    if node >= u32::MAX as usize {
        return Err(AllocError);
    }
    slots.push(op)?;
    Ok(node as u32)
}

/// The node that sets a variable to a copy of this value.
fn set(alloc: Global, var: u32, value: &Expr, next: u32) -> Result<Op, AllocError>
    ensures { IfOk result (λ op. operation_of op ≡ Set var (expression_of value.now) next) }
{
    let value = copy_expr(alloc, value)?;
    Ok(Op::Set { var, value, next })
}

/// The node that chooses by a copy of this condition.
fn branch(alloc: Global, cond: &Expr, yes: u32, no: u32) -> Result<Op, AllocError>
    ensures { IfOk result (λ op. operation_of op ≡ Branch (expression_of cond.now) yes no) }
{
    let cond = copy_expr(alloc, cond)?;
    Ok(Op::Branch { cond, yes, no })
}

/// Fills the open slot of a loop's test. Where the loop has a mark, that comes first.
fn fill(
    slots: &mut Vec<Option<Op>>,
    head: u32,
    mark: &Option<u32>,
    test: Op,
) -> Result<(), AllocError>
    requires within { head < length slots.old.items }
    requires numbered { length slots.old.items < 2 ^ 32 }
    ensures filled { OnOk result (slots_of slots.new.items
        ≡ filled mark.now (slots_of slots.old.items) head (operation_of test)) }
    ensures numbered { OnOk result (length slots.new.items < 2 ^ 32) }
{
    match mark {
        None => {
            slots[head as usize] = Some(test);
            Ok(())
        }
        Some(mark) => {
            let next = add(slots, Some(test))?;
            slots[head as usize] = Some(Op::Mark { mark: *mark, next });
            Ok(())
        }
    }
}

/// Lays the statements in front of the node `next`; `break` and `continue` lead to `out` and
/// `again`. Answers the node at which the statements begin.
#[cycle(laying)]
pub(crate) fn lay(
    alloc: Global,
    slots: &mut Vec<Option<Op>>,
    stmts: &[Stmt],
    next: u32,
    out: u32,
    again: u32,
) -> Result<u32, AllocError>
    requires { length slots.old.items < 2 ^ 32 }
    ensures laid { IfOk result (λ node. layout (slots_of slots.new.items) node
        ≡ lay (statements_of stmts.now) (slots_of slots.old.items) next out again) }
    ensures numbered { OnOk result (length slots.new.items < 2 ^ 32) }
{
    let mut node = next;
    let mut i = stmts.len();
    while i > 0 {
        i -= 1;
        node = lay_one(alloc, slots, &stmts[i], node, out, again)?;
    }
    Ok(node)
}

/// The same of one statement.
#[cycle(laying)]
fn lay_one(
    alloc: Global,
    slots: &mut Vec<Option<Op>>,
    stmt: &Stmt,
    next: u32,
    out: u32,
    again: u32,
) -> Result<u32, AllocError>
    requires { length slots.old.items < 2 ^ 32 }
    ensures laid { IfOk result (λ node. Lays (put_in_front stmt.now) out again
        (layout (slots_of slots.old.items) next) (layout (slots_of slots.new.items) node)) }
    ensures numbered { OnOk result (length slots.new.items < 2 ^ 32) }
{
    match stmt {
        Stmt::Set(var, value) => {
            let set = set(alloc, *var, value, next)?;
            add(slots, Some(set))
        }
        Stmt::If(cond, first, second) => {
            let yes = lay(alloc, slots, first.as_slice(), next, out, again)?;
            let no = lay(alloc, slots, second.as_slice(), next, out, again)?;
            let branch = branch(alloc, cond, yes, no)?;
            add(slots, Some(branch))
        }
        Stmt::Loop {
            mark,
            cond,
            body,
            step,
            test_first,
        } => {
            let head = add(slots, None)?;
            let tail = lay(alloc, slots, step.as_slice(), head, out, again)?;
            let inner = lay(alloc, slots, body.as_slice(), tail, next, tail)?;
            let test = branch(alloc, cond, inner, next)?;
            fill(slots, head, mark, test)?;
            Ok(if *test_first { head } else { inner })
        }
        Stmt::Break => Ok(out),
        Stmt::Continue => Ok(again),
        Stmt::Return(value) => {
            let value = copy_expr(alloc, value)?;
            add(slots, Some(Op::Return(value)))
        }
        Stmt::Mark(mark) => add(slots, Some(Op::Mark { mark: *mark, next })),
        Stmt::Block(stmts) => lay(alloc, slots, stmts.as_slice(), next, out, again),
    }
}

/// The operations of slots of which none is open.
pub(crate) fn closed(alloc: Global, slots: Vec<Option<Op>>) -> Result<Vec<Op>, AllocError>
    ensures { IfOk result (λ ops. ops.items ≡ filter_map (λ slot. slot) slots.items) }
{
    let mut ops = Vec::new(alloc);
    for slot in slots {
        if let Some(op) = slot {
            ops.push(op)?;
        }
    }
    Ok(ops)
}
