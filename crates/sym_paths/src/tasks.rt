//! What a task does to the case under way.
ghost use Rattle.std.specs.Prelude.{◌≡◌, ℕ, ◌<◌, ◌≤ℤ◌, ◌^◌, pos, [], ◌∷◌, map, All, IfOk};
ghost use Rattle.c_ast.specs.Tree.{Expression};
ghost use Rattle.c_ast.specs.View.{expression_of};
ghost use Rattle.c_ast.specs.Value.{CanEvaluate, HasDivisor};
ghost use Rattle.flow_graph.specs.FlowGraph.{FlowGraph};
ghost use Rattle.sym_paths.specs.Symbolic.{divisor_of};
ghost use Rattle.sym_paths.specs.Machine.{Value, Unary, Binary, Quotient, Rest, Test, AndThen};
ghost use Rattle.sym_paths.specs.Machine.{OrElse, Choose, operator_tasks, with_todo, todo};
ghost use Rattle.sym_paths.specs.Machine.{advanced_by};
ghost use Rattle.sym_paths.specs.Arrivals.{fresh, task_of, pending_of, entry_of, HasRoom, CanTake};
ghost use Rattle.sym_paths.specs.Arrivals.{IsUnderWay, EntryIsSound};

use crate::division::{quotient, rest};
use crate::entries::{copied, each_answer, each_made, one, popped, with_form, with_task};
use crate::forms::{test_form, variable};
use crate::made::{constant, values};
use crate::operator::{binary, unary};
use crate::task::{Entry, Move, Pending, Task};
use crate::tested::tested;
use c_ast::{BinOp, Expr, UnOp};
use lin_terms::Form;
use std::alloc::{AllocError, Global};

/// The number that a divisor is.
fn divisor_of(divisor: &Expr) -> i64
    ensures { result ≡ divisor_of (expression_of divisor.now) }
{
    match divisor {
        Expr::Num(value) => *value,
        _ => 1,
    }
}

/// What stands behind an operator's left operand.
fn with_right<'a>(
    pending: Pending<'a>,
    op: BinOp,
    right: &'a Expr,
) -> Result<Pending<'a>, AllocError>
    ensures case { IfOk result (λ made. (room : ℕ) (graph : FlowGraph) (left : Expression)
        → with_todo room graph (pending_of made) (pending_of made).tasks
        (todo (Value left ∷ []) (pending_of made).stack)
        ≡ with_todo room graph (pending_of pending.entry) (pending_of pending.entry).tasks
        (todo (operator_tasks op left (expression_of right.now))
        (pending_of pending.entry).stack)) }
    ensures sound { IfOk result (λ made. (room : ℕ) (graph : FlowGraph)
        → IsUnderWay room graph pending.entry → CanEvaluate graph.vars (expression_of right.now)
        → HasDivisor op (expression_of right.now) → IsUnderWay room graph made) }
{
    match op {
        BinOp::Div => {
            let made = with_task(pending, Task::Quotient(divisor_of(right)))?;
            Ok(made)
        }
        BinOp::Rem => {
            let made = with_task(pending, Task::Rest(divisor_of(right)))?;
            Ok(made)
        }
        BinOp::And => {
            let made = with_task(pending, Task::AndThen(right))?;
            Ok(made)
        }
        BinOp::Or => {
            let made = with_task(pending, Task::OrElse(right))?;
            Ok(made)
        }
        _ => {
            let behind = with_task(pending, Task::Binary(op))?;
            let made = with_task(behind, Task::Value(right))?;
            Ok(made)
        }
    }
}

/// The form of an expression is put on the stack, or tasks for its parts come first.
fn valued<'a>(
    alloc: Global,
    room: usize,
    pending: Pending<'a>,
    expr: &'a Expr,
    columns: u32,
) -> Result<Vec<Entry<'a>>, AllocError>
    ensures moves { IfOk result (λ moves. (graph : FlowGraph) → map entry_of moves.items
        ≡ advanced_by room graph (pending_of pending.entry)
        (Value (expression_of expr.now) ∷ (pending_of pending.entry).tasks) (fresh columns)) }
    ensures sound { IfOk result (λ moves. (graph : FlowGraph)
        → IsUnderWay room graph pending.entry
        → CanEvaluate graph.vars (expression_of expr.now)
        → All (EntryIsSound room graph) moves.items) }
{
    match expr {
        Expr::Num(value) => {
            let made = constant(alloc, room, *value, columns)?;
            let moves = each_made(alloc, pending, made)?;
            Ok(moves)
        }
        Expr::Var(x) => {
            let form = variable(alloc, room, pending.forms.as_slice(), *x)?;
            let next = with_form(pending, form)?;
            let moves = one(alloc, Move::Goes(next), columns)?;
            Ok(moves)
        }
        Expr::Un(op, operand) => {
            let behind = with_task(pending, Task::Unary(*op))?;
            let next = with_task(behind, Task::Value(operand.get()))?;
            let moves = one(alloc, Move::Goes(next), columns)?;
            Ok(moves)
        }
        Expr::Bin(op, left, right) => {
            let behind = with_right(pending, *op, right.get())?;
            let next = with_task(behind, Task::Value(left.get()))?;
            let moves = one(alloc, Move::Goes(next), columns)?;
            Ok(moves)
        }
        Expr::Cond(test, first, second) => {
            let behind = with_task(pending, Task::Choose(first.get(), second.get()))?;
            let next = with_task(behind, Task::Value(test.get()))?;
            let moves = one(alloc, Move::Goes(next), columns)?;
            Ok(moves)
        }
    }
}

/// A unary operator.
fn unary_step<'a>(
    alloc: Global,
    room: usize,
    pending: Pending<'a>,
    op: UnOp,
    columns: u32,
) -> Result<Vec<Entry<'a>>, AllocError>
    requires stack { All (HasRoom room) pending.stack.items }
    ensures moves { IfOk result (λ moves. (graph : FlowGraph) → map entry_of moves.items
        ≡ advanced_by room graph (pending_of pending.entry)
        (Unary op ∷ (pending_of pending.entry).tasks) (fresh columns)) }
    ensures sound { IfOk result (λ moves. (graph : FlowGraph)
        → IsUnderWay room graph pending.entry
        → All (EntryIsSound room graph) moves.items) }
{
    match popped(pending) {
        None => Ok(Vec::new(alloc)),
        Some((pending, form)) => {
            let made = unary(alloc, room, op, &form, columns)?;
            let moves = each_made(alloc, pending, made)?;
            Ok(moves)
        }
    }
}

/// A division.
fn quotient_step<'a>(
    alloc: Global,
    room: usize,
    pending: Pending<'a>,
    divisor: i64,
    columns: u32,
) -> Result<Vec<Entry<'a>>, AllocError>
    requires stack { All (HasRoom room) pending.stack.items }
    requires divisor { pos 1 ≤ℤ divisor }
    requires few { room < 2 ^ 32 }
    ensures moves { IfOk result (λ moves. (graph : FlowGraph) → map entry_of moves.items
        ≡ advanced_by room graph (pending_of pending.entry)
        (Quotient divisor ∷ (pending_of pending.entry).tasks) (fresh columns)) }
    ensures sound { IfOk result (λ moves. (graph : FlowGraph)
        → IsUnderWay room graph pending.entry
        → All (EntryIsSound room graph) moves.items) }
{
    match popped(pending) {
        None => Ok(Vec::new(alloc)),
        Some((pending, form)) => {
            let made = quotient(alloc, room, divisor, &form, columns)?;
            let moves = each_made(alloc, pending, made)?;
            Ok(moves)
        }
    }
}

/// What a division leaves.
fn rest_step<'a>(
    alloc: Global,
    room: usize,
    pending: Pending<'a>,
    divisor: i64,
    columns: u32,
) -> Result<Vec<Entry<'a>>, AllocError>
    requires stack { All (HasRoom room) pending.stack.items }
    requires divisor { pos 1 ≤ℤ divisor }
    requires few { room < 2 ^ 32 }
    ensures moves { IfOk result (λ moves. (graph : FlowGraph) → map entry_of moves.items
        ≡ advanced_by room graph (pending_of pending.entry)
        (Rest divisor ∷ (pending_of pending.entry).tasks) (fresh columns)) }
    ensures sound { IfOk result (λ moves. (graph : FlowGraph)
        → IsUnderWay room graph pending.entry
        → All (EntryIsSound room graph) moves.items) }
{
    match popped(pending) {
        None => Ok(Vec::new(alloc)),
        Some((pending, form)) => {
            let made = rest(alloc, room, divisor, &form, columns)?;
            let moves = each_made(alloc, pending, made)?;
            Ok(moves)
        }
    }
}

/// A test, as a form.
fn test_step<'a>(
    alloc: Global,
    room: usize,
    pending: Pending<'a>,
    columns: u32,
) -> Result<Vec<Entry<'a>>, AllocError>
    requires stack { All (HasRoom room) pending.stack.items }
    ensures moves { IfOk result (λ moves. (graph : FlowGraph) → map entry_of moves.items
        ≡ advanced_by room graph (pending_of pending.entry)
        (Test ∷ (pending_of pending.entry).tasks) (fresh columns)) }
    ensures sound { IfOk result (λ moves. (graph : FlowGraph)
        → IsUnderWay room graph pending.entry
        → All (EntryIsSound room graph) moves.items) }
{
    match popped(pending) {
        None => Ok(Vec::new(alloc)),
        Some((pending, form)) => {
            let tests = tested(alloc, &form)?;
            let made = values(alloc, room, tests, columns)?;
            let moves = each_made(alloc, pending, made)?;
            Ok(moves)
        }
    }
}

/// The second operand of `&&`, where it is needed.
fn and_then<'a>(
    alloc: Global,
    room: usize,
    pending: Pending<'a>,
    expr: &'a Expr,
    columns: u32,
) -> Result<Vec<Entry<'a>>, AllocError>
    requires stack { All (HasRoom room) pending.stack.items }
    ensures moves { IfOk result (λ moves. (graph : FlowGraph) → map entry_of moves.items
        ≡ advanced_by room graph (pending_of pending.entry)
        (AndThen (expression_of expr.now) ∷ (pending_of pending.entry).tasks) (fresh columns)) }
    ensures sound { IfOk result (λ moves. (graph : FlowGraph)
        → IsUnderWay room graph pending.entry
        → CanEvaluate graph.vars (expression_of expr.now)
        → All (EntryIsSound room graph) moves.items) }
{
    match popped(pending) {
        None => Ok(Vec::new(alloc)),
        Some((pending, form)) => {
            let tests = tested(alloc, &form)?;
            let behind = with_task(copied(alloc, &pending)?, Task::Test)?;
            let first = with_task(behind, Task::Value(expr))?;
            let second = with_form(pending, test_form(alloc, room, false)?)?;
            let moves = each_answer(alloc, tests, first, second, columns)?;
            Ok(moves)
        }
    }
}

/// The second operand of `||`, where it is needed.
fn or_else<'a>(
    alloc: Global,
    room: usize,
    pending: Pending<'a>,
    expr: &'a Expr,
    columns: u32,
) -> Result<Vec<Entry<'a>>, AllocError>
    requires stack { All (HasRoom room) pending.stack.items }
    ensures moves { IfOk result (λ moves. (graph : FlowGraph) → map entry_of moves.items
        ≡ advanced_by room graph (pending_of pending.entry)
        (OrElse (expression_of expr.now) ∷ (pending_of pending.entry).tasks) (fresh columns)) }
    ensures sound { IfOk result (λ moves. (graph : FlowGraph)
        → IsUnderWay room graph pending.entry
        → CanEvaluate graph.vars (expression_of expr.now)
        → All (EntryIsSound room graph) moves.items) }
{
    match popped(pending) {
        None => Ok(Vec::new(alloc)),
        Some((pending, form)) => {
            let tests = tested(alloc, &form)?;
            let first = with_form(copied(alloc, &pending)?, test_form(alloc, room, true)?)?;
            let behind = with_task(pending, Task::Test)?;
            let second = with_task(behind, Task::Value(expr))?;
            let moves = each_answer(alloc, tests, first, second, columns)?;
            Ok(moves)
        }
    }
}

/// One of two expressions.
fn choose<'a>(
    alloc: Global,
    room: usize,
    pending: Pending<'a>,
    yes: &'a Expr,
    no: &'a Expr,
    columns: u32,
) -> Result<Vec<Entry<'a>>, AllocError>
    requires stack { All (HasRoom room) pending.stack.items }
    ensures moves { IfOk result (λ moves. (graph : FlowGraph) → map entry_of moves.items
        ≡ advanced_by room graph (pending_of pending.entry)
        (Choose (expression_of yes.now) (expression_of no.now) ∷ (pending_of pending.entry).tasks)
        (fresh columns)) }
    ensures sound { IfOk result (λ moves. (graph : FlowGraph)
        → IsUnderWay room graph pending.entry
        → CanEvaluate graph.vars (expression_of yes.now)
        → CanEvaluate graph.vars (expression_of no.now)
        → All (EntryIsSound room graph) moves.items) }
{
    match popped(pending) {
        None => Ok(Vec::new(alloc)),
        Some((pending, form)) => {
            let tests = tested(alloc, &form)?;
            let first = with_task(copied(alloc, &pending)?, Task::Value(yes))?;
            let second = with_task(pending, Task::Value(no))?;
            let moves = each_answer(alloc, tests, first, second, columns)?;
            Ok(moves)
        }
    }
}

/// A binary operator on the operands of the stack, the right one of which is this form.
fn binary_with<'a>(
    alloc: Global,
    room: usize,
    pending: Pending<'a>,
    op: BinOp,
    right: Form,
    columns: u32,
) -> Result<Vec<Entry<'a>>, AllocError>
    requires stack { All (HasRoom room) pending.stack.items }
    requires right { HasRoom room right }
    ensures moves { IfOk result (λ moves. (graph : FlowGraph) → map entry_of moves.items
        ≡ advanced_by room graph
        (with_todo room graph (pending_of pending.entry) (pending_of pending.entry).tasks
        (todo [] (right ∷ (pending_of pending.entry).stack)))
        (Binary op ∷ (pending_of pending.entry).tasks) (fresh columns)) }
    ensures sound { IfOk result (λ moves. (graph : FlowGraph)
        → IsUnderWay room graph pending.entry → All (EntryIsSound room graph) moves.items) }
{
    match popped(pending) {
        None => Ok(Vec::new(alloc)),
        Some((pending, left)) => {
            let made = binary(alloc, room, op, &left, &right, columns)?;
            let moves = each_made(alloc, pending, made)?;
            Ok(moves)
        }
    }
}

/// A binary operator.
fn binary_step<'a>(
    alloc: Global,
    room: usize,
    pending: Pending<'a>,
    op: BinOp,
    columns: u32,
) -> Result<Vec<Entry<'a>>, AllocError>
    requires stack { All (HasRoom room) pending.stack.items }
    ensures moves { IfOk result (λ moves. (graph : FlowGraph) → map entry_of moves.items
        ≡ advanced_by room graph (pending_of pending.entry)
        (Binary op ∷ (pending_of pending.entry).tasks) (fresh columns)) }
    ensures sound { IfOk result (λ moves. (graph : FlowGraph)
        → IsUnderWay room graph pending.entry
        → All (EntryIsSound room graph) moves.items) }
{
    match popped(pending) {
        None => Ok(Vec::new(alloc)),
        Some((pending, form)) => {
            let moves = binary_with(alloc, room, pending, op, form, columns)?;
            Ok(moves)
        }
    }
}

/// One step of a task.
pub(crate) fn perform<'a>(
    alloc: Global,
    room: usize,
    pending: Pending<'a>,
    task: Task<'a>,
    columns: u32,
) -> Result<Vec<Entry<'a>>, AllocError>
    requires stack { All (HasRoom room) pending.stack.items }
    requires can { (variables : ℕ) × CanTake variables (task_of task) }
    requires few { room < 2 ^ 32 }
    ensures moves { IfOk result (λ moves. (graph : FlowGraph) → map entry_of moves.items
        ≡ advanced_by room graph (pending_of pending.entry)
        (task_of task.entry ∷ (pending_of pending.entry).tasks) (fresh columns)) }
    ensures sound { IfOk result (λ moves. (graph : FlowGraph)
        → IsUnderWay room graph pending.entry → CanTake graph.vars (task_of task.entry)
        → All (EntryIsSound room graph) moves.items) }
{
    match task {
        Task::Value(expr) => {
            let moves = valued(alloc, room, pending, expr, columns)?;
            Ok(moves)
        }
        Task::Unary(op) => {
            let moves = unary_step(alloc, room, pending, op, columns)?;
            Ok(moves)
        }
        Task::Binary(op) => {
            let moves = binary_step(alloc, room, pending, op, columns)?;
            Ok(moves)
        }
        Task::Quotient(divisor) => {
            let moves = quotient_step(alloc, room, pending, divisor, columns)?;
            Ok(moves)
        }
        Task::Rest(divisor) => {
            let moves = rest_step(alloc, room, pending, divisor, columns)?;
            Ok(moves)
        }
        Task::Test => {
            let moves = test_step(alloc, room, pending, columns)?;
            Ok(moves)
        }
        Task::AndThen(expr) => {
            let moves = and_then(alloc, room, pending, expr, columns)?;
            Ok(moves)
        }
        Task::OrElse(expr) => {
            let moves = or_else(alloc, room, pending, expr, columns)?;
            Ok(moves)
        }
        Task::Choose(yes, no) => {
            let moves = choose(alloc, room, pending, yes, no, columns)?;
            Ok(moves)
        }
    }
}
