//! What is done with the form of an expression: nodes are entered, or the case ends.
ghost use Rattle.std.specs.Prelude.{◌≡◌, ℕ, ◌<◌, pos, if◌then◌else◌, [], ◌∷◌, length, map, All};
ghost use Rattle.std.specs.Prelude.{slice_set, IfOk};
ghost use Rattle.c_ast.specs.declared.place.Place.TheVariants as place;
ghost use Rattle.c_ast.specs.View.{expression_of};
ghost use Rattle.c_ast.specs.Value.{CanEvaluate};
ghost use Rattle.lin_terms.specs.Form.{constant_form};
ghost use Rattle.flow_graph.specs.FlowGraph.{FlowGraph, operation_at, variables_at, HasPlace};
ghost use Rattle.flow_graph.specs.Run.{values_with};
ghost use Rattle.sym_paths.specs.declared.task.Entry.TheVariants as entry;
ghost use Rattle.sym_paths.specs.Walk.{State, gives, onward};
ghost use Rattle.sym_paths.specs.Nodes.{end_at};
ghost use Rattle.sym_paths.specs.Machine.{Ends, only_where, holding, evaluating, entered_by};
ghost use Rattle.sym_paths.specs.Machine.{entered, used};
ghost use Rattle.sym_paths.specs.Arrivals.{fresh, answer_of, goal_of, pending_of, move_of};
ghost use Rattle.sym_paths.specs.Arrivals.{entry_of, HasRoom, LeadsWithin, IsUnderWay};
ghost use Rattle.sym_paths.specs.Arrivals.{EntryIsSound, graph_of};

use crate::PathLimit;
use crate::arrival::Answer;
use crate::entries::{one, popped};
use crate::forms::{copied_forms, forms_of};
use crate::made::rows_of;
use crate::task::{Entry, Goal, Move, Pending, Subject, Task};
use crate::tested::tested;
use c_ast::{Expr, Place};
use flow_graph::{Graph, Op};
use lin_terms::{Form, Row};
use sqlite_items::Items;
use std::alloc::{AllocError, Global};

/// An expression is begun.
pub(crate) fn evaluating<'a>(
    alloc: Global,
    expr: &'a Expr,
    goal: Goal,
    forms: Vec<Form>,
    left: usize,
) -> Result<Move<'a>, AllocError>
    ensures step { IfOk result (λ step. (room : ℕ) (graph : FlowGraph) → move_of step
        ≡ evaluating room graph (expression_of expr.now) (goal_of goal) forms.items left) }
    ensures sound { IfOk result (λ step. (room : ℕ) (graph : FlowGraph)
        → CanEvaluate graph.vars (expression_of expr.now)
        → LeadsWithin (length graph.ops) (goal_of goal) → All (HasRoom room) forms.items
        → EntryIsSound room graph (entry.Arrives [] 0 step)) }
{
    let mut tasks = Vec::new(alloc);
    tasks.push(Task::Value(expr))?;
    Ok(Move::Goes(Pending {
        tasks,
        stack: Vec::new(alloc),
        goal,
        forms,
        left,
    }))
}

/// A mark is met.
fn at_mark<'a>(
    alloc: Global,
    room: usize,
    graph: &'a Graph,
    mark: u32,
    forms: &[Form],
) -> Result<Move<'a>, AllocError>
    requires { HasPlace graph.now (place.Mark mark) }
    ensures step { IfOk result (λ step. move_of step ≡ Ends (end_at (place.Mark mark)
        (values_with (constant_form room (pos 0)) (variables_at graph.now (place.Mark mark))
        forms.now))) }
    ensures sound { IfOk result (λ step. EntryIsSound room graph.now (entry.Arrives [] 0 step)) }
{
    let variables = graph.vars_at(alloc, Place::Mark(mark))?;
    let ends = forms_of(alloc, room, variables.as_slice(), forms)?;
    Ok(Move::Ends(Place::Mark(mark), ends))
}

/// A node is begun, after which so many may still come.
fn begun<'a>(
    alloc: Global,
    room: usize,
    graph: &'a Graph,
    left: usize,
    node: u32,
    forms: Vec<Form>,
) -> Result<Move<'a>, AllocError>
    requires node { node < length graph.now.ops }
    requires forms { All (HasRoom room) forms.items }
    ensures step { IfOk result (λ step. (state : State)
        → gives (move_of step) state
        ≡ entered_by room graph.now left (operation_at graph.now node) forms.items state) }
    ensures sound { IfOk result (λ step. EntryIsSound room graph.now (entry.Arrives [] 0 step)) }
{
    match graph.op(node) {
        Op::Set { var, value, next } => {
            let goal = Goal::ToSet {
                variable: *var,
                next: *next,
            };
            let step = evaluating(alloc, value, goal, forms, left)?;
            Ok(step)
        }
        Op::Branch { cond, yes, no } => {
            let goal = Goal::ToBranch {
                first: *yes,
                second: *no,
            };
            let step = evaluating(alloc, cond, goal, forms, left)?;
            Ok(step)
        }
        Op::Mark { mark, .. } => {
            let step = at_mark(alloc, room, graph, *mark, forms.as_slice())?;
            Ok(step)
        }
        Op::Return(value) => {
            let step = evaluating(alloc, value, Goal::ToReturn, forms, left)?;
            Ok(step)
        }
    }
}

/// What entering a node comes to, where these rows hold.
fn entry_at<'a>(
    alloc: Global,
    room: usize,
    subject: Subject<'a>,
    left: usize,
    node: u32,
    forms: Vec<Form>,
    rows: Items<Row>,
    columns: u32,
) -> Result<Vec<Entry<'a>>, AllocError>
    requires node { node < length (graph_of subject).ops }
    requires forms { All (HasRoom room) forms.items }
    ensures moves { IfOk result (λ moves. map entry_of moves.items
        ≡ entered room (graph_of subject.entry) left node forms.items
        (record { rows = rows; columns = columns })) }
    ensures sound { IfOk result (λ moves.
        All (EntryIsSound room (graph_of subject.entry)) moves.items) }
{
    let mut moves = Vec::new(alloc);
    if left == 0 {
        return Ok(moves);
    }
    match subject {
        Subject::Condition(_) => Ok(moves),
        Subject::Graph(graph) => {
            let step = begun(alloc, room, graph, left - 1, node, forms)?;
            moves.push(Entry::Arrives {
                rows,
                columns,
                step,
            })?;
            Ok(moves)
        }
    }
}

/// What entering a node comes to, where so many may still come.
pub(crate) fn entered<'a>(
    alloc: Global,
    room: usize,
    subject: Subject<'a>,
    left: usize,
    node: u32,
    forms: Vec<Form>,
    columns: u32,
) -> Result<Vec<Entry<'a>>, AllocError>
    requires node { node < length (graph_of subject).ops }
    requires forms { All (HasRoom room) forms.items }
    ensures moves { IfOk result (λ moves. map entry_of moves.items
        ≡ entered room (graph_of subject.entry) left node forms.items (fresh columns)) }
    ensures sound { IfOk result (λ moves.
        All (EntryIsSound room (graph_of subject.entry)) moves.items) }
{
    entry_at(
        alloc,
        room,
        subject,
        left,
        node,
        forms,
        Items::new(alloc),
        columns,
    )
}

/// One of two nodes.
fn chosen_node(test: bool, first: u32, second: u32) -> u32
    ensures { result ≡ (if test then first else second) }
{
    if test { first } else { second }
}

/// What entering the node that the answer of a test chooses comes to.
fn answer_entered<'a>(
    alloc: Global,
    room: usize,
    subject: Subject<'a>,
    left: usize,
    answer: Answer,
    nodes: (u32, u32),
    forms: &[Form],
    columns: u32,
) -> Result<Vec<Entry<'a>>, AllocError>
    requires first { nodes.0 < length (graph_of subject).ops }
    requires second { nodes.1 < length (graph_of subject).ops }
    requires forms { All (HasRoom room) forms.now }
    ensures moves { IfOk result (λ moves. map entry_of moves.items
        ≡ onward (answer_of columns answer ∷ [])
        (λ test. entered room (graph_of subject.entry) left
        (if test then nodes.0 else nodes.1) forms.now)) }
    ensures sound { IfOk result (λ moves.
        All (EntryIsSound room (graph_of subject.entry)) moves.items) }
{
    match answer {
        Answer::Wide => {
            let mut moves = Vec::new(alloc);
            moves.push(Entry::Stops(PathLimit::WideForm))?;
            Ok(moves)
        }
        Answer::Given { row, answer } => {
            let node = chosen_node(answer, nodes.0, nodes.1);
            let rows = rows_of(alloc, row)?;
            let forms = copied_forms(alloc, forms)?;
            let moves = entry_at(alloc, room, subject, left, node, forms, rows, columns)?;
            Ok(moves)
        }
    }
}

/// What entering the node that each answer of a test chooses comes to.
fn each_entered<'a>(
    alloc: Global,
    room: usize,
    subject: Subject<'a>,
    left: usize,
    answers: Vec<Answer>,
    nodes: (u32, u32),
    forms: &[Form],
    columns: u32,
) -> Result<Vec<Entry<'a>>, AllocError>
    requires first { nodes.0 < length (graph_of subject).ops }
    requires second { nodes.1 < length (graph_of subject).ops }
    requires forms { All (HasRoom room) forms.now }
    ensures moves { IfOk result (λ moves. map entry_of moves.items
        ≡ onward (map (answer_of columns) answers.items)
        (λ test. entered room (graph_of subject.entry) left
        (if test then nodes.0 else nodes.1) forms.now)) }
    ensures sound { IfOk result (λ moves.
        All (EntryIsSound room (graph_of subject.entry)) moves.items) }
{
    let mut waiting = answers;
    waiting.reverse();
    let mut moves = Vec::new(alloc);
    while let Some(answer) = waiting.pop() {
        let mut found = answer_entered(alloc, room, subject, left, answer, nodes, forms, columns)?;
        moves.append(&mut found)?;
    }
    Ok(moves)
}

/// The complete case, where the answer is true.
fn held<'a>(alloc: Global, answer: Answer, columns: u32) -> Result<Vec<Entry<'a>>, AllocError>
    ensures moves { IfOk result (λ moves. map entry_of moves.items
        ≡ onward (answer_of columns answer ∷ []) (only_where (Ends holding))) }
    ensures sound { IfOk result (λ moves. (room : ℕ) (graph : FlowGraph)
        → All (EntryIsSound room graph) moves.items) }
{
    match answer {
        Answer::Wide => {
            let mut moves = Vec::new(alloc);
            moves.push(Entry::Stops(PathLimit::WideForm))?;
            Ok(moves)
        }
        Answer::Given { row, answer } => {
            let mut moves = Vec::new(alloc);
            if !answer {
                return Ok(moves);
            }
            let rows = rows_of(alloc, row)?;
            moves.push(Entry::Arrives {
                rows,
                columns,
                step: Move::Ends(Place::Exit, Vec::new(alloc)),
            })?;
            Ok(moves)
        }
    }
}

/// The complete cases, where the answers are true.
fn each_held<'a>(
    alloc: Global,
    answers: Vec<Answer>,
    columns: u32,
) -> Result<Vec<Entry<'a>>, AllocError>
    ensures moves { IfOk result (λ moves. map entry_of moves.items
        ≡ onward (map (answer_of columns) answers.items) (only_where (Ends holding))) }
    ensures sound { IfOk result (λ moves. (room : ℕ) (graph : FlowGraph)
        → All (EntryIsSound room graph) moves.items) }
{
    let mut waiting = answers;
    waiting.reverse();
    let mut moves = Vec::new(alloc);
    while let Some(answer) = waiting.pop() {
        let mut found = held(alloc, answer, columns)?;
        moves.append(&mut found)?;
    }
    Ok(moves)
}

/// The form takes the variable's place.
fn set(forms: &mut Vec<Form>, x: u32, form: Form)
    ensures { forms.new.items ≡ slice_set forms.old.items x form }
{
    let x = x as usize;
    if x < forms.len() {
        forms[x] = form;
    }
}

/// What is done with this form of an expression.
fn used_form<'a>(
    alloc: Global,
    room: usize,
    subject: Subject<'a>,
    pending: Pending<'a>,
    form: Form,
    columns: u32,
) -> Result<Vec<Entry<'a>>, AllocError>
    requires under { IsUnderWay room (graph_of subject) pending }
    requires form { HasRoom room form }
    ensures moves { IfOk result (λ moves. map entry_of moves.items
        ≡ used room (graph_of subject.entry) (pending_of pending.entry).left
        (pending_of pending.entry).goal (pending_of pending.entry).forms
        (form ∷ (pending_of pending.entry).stack) (fresh columns)) }
    ensures sound { IfOk result (λ moves.
        All (EntryIsSound room (graph_of subject.entry)) moves.items) }
{
    match pending.goal {
        Goal::ToSet { variable, next } => {
            let mut forms = pending.forms;
            set(&mut forms, variable, form);
            let moves = entered(alloc, room, subject, pending.left, next, forms, columns)?;
            Ok(moves)
        }
        Goal::ToBranch { first, second } => {
            let answers = tested(alloc, &form)?;
            let (nodes, forms) = ((first, second), pending.forms.as_slice());
            let left = pending.left;
            let moves = each_entered(alloc, room, subject, left, answers, nodes, forms, columns)?;
            Ok(moves)
        }
        Goal::ToReturn => {
            let mut ends = Vec::new(alloc);
            ends.push(form)?;
            let moves = one(alloc, Move::Ends(Place::Exit, ends), columns)?;
            Ok(moves)
        }
        Goal::ToHold => {
            let answers = tested(alloc, &form)?;
            let moves = each_held(alloc, answers, columns)?;
            Ok(moves)
        }
    }
}

/// What is done with the topmost form once no task is left.
pub(crate) fn used<'a>(
    alloc: Global,
    room: usize,
    subject: Subject<'a>,
    pending: Pending<'a>,
    columns: u32,
) -> Result<Vec<Entry<'a>>, AllocError>
    requires under { IsUnderWay room (graph_of subject) pending }
    ensures moves { IfOk result (λ moves. map entry_of moves.items
        ≡ used room (graph_of subject.entry) (pending_of pending.entry).left
        (pending_of pending.entry).goal (pending_of pending.entry).forms
        (pending_of pending.entry).stack (fresh columns)) }
    ensures sound { IfOk result (λ moves.
        All (EntryIsSound room (graph_of subject.entry)) moves.items) }
{
    match popped(pending) {
        None => Ok(Vec::new(alloc)),
        Some((pending, form)) => {
            let moves = used_form(alloc, room, subject, pending, form, columns)?;
            Ok(moves)
        }
    }
}
