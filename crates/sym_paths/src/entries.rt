//! What a step comes to: the case under way, with what the step makes.
ghost use Rattle.std.specs.Prelude.{◌≡◌, ℕ, if◌then◌else◌, [], ◌∷◌, map, All, IfOk, IfSome};
ghost use Rattle.std.specs.Prelude.{MatchOption};
ghost use Rattle.flow_graph.specs.FlowGraph.{FlowGraph};
ghost use Rattle.sym_paths.specs.declared.task.Entry.TheVariants as entry;
ghost use Rattle.sym_paths.specs.Walk.{gives, onward};
ghost use Rattle.sym_paths.specs.Machine.{Goes, with_todo, todo};
ghost use Rattle.sym_paths.specs.Arrivals.{answer_of, made_of, task_of, pending_of, entry_of};
ghost use Rattle.sym_paths.specs.Arrivals.{HasRoom, MadeHasRoom, CanTake, IsUnderWay, EntryIsSound};

use crate::PathLimit;
use crate::arrival::{Answer, Made};
use crate::forms::copied_forms;
use crate::made::rows_of;
use crate::task::{Entry, Move, Pending, Task};
use lin_terms::Form;
use sqlite_items::Items;
use std::alloc::{AllocError, Global};

/// An equal case.
pub(crate) fn copied<'a>(alloc: Global, pending: &Pending<'a>) -> Result<Pending<'a>, AllocError>
    ensures same { IfOk result (λ made. pending_of made ≡ pending_of pending.now) }
    ensures sound { IfOk result (λ made. (room : ℕ) (graph : FlowGraph)
        → IsUnderWay room graph pending.now → IsUnderWay room graph made) }
{
    let tasks = Vec::from_slice(alloc, pending.tasks.as_slice())?;
    let stack = copied_forms(alloc, pending.stack.as_slice())?;
    let forms = copied_forms(alloc, pending.forms.as_slice())?;
    Ok(Pending {
        tasks,
        stack,
        goal: pending.goal,
        forms,
        left: pending.left,
    })
}

/// The case with the task in front of the others.
pub(crate) fn with_task<'a>(pending: Pending<'a>, task: Task<'a>) -> Result<Pending<'a>, AllocError>
    ensures case { IfOk result (λ made. (room : ℕ) (graph : FlowGraph) → pending_of made
        ≡ with_todo room graph (pending_of pending.entry) (pending_of pending.entry).tasks
        (todo (task_of task.entry ∷ []) (pending_of pending.entry).stack)) }
    ensures sound { IfOk result (λ made. (room : ℕ) (graph : FlowGraph)
        → IsUnderWay room graph pending.entry → CanTake graph.vars (task_of task.entry)
        → IsUnderWay room graph made) }
{
    let mut made = pending;
    made.tasks.push(task)?;
    Ok(made)
}

/// The case with the form on top of the others.
pub(crate) fn with_form<'a>(pending: Pending<'a>, form: Form) -> Result<Pending<'a>, AllocError>
    ensures case { IfOk result (λ made. (room : ℕ) (graph : FlowGraph) → pending_of made
        ≡ with_todo room graph (pending_of pending.entry) (pending_of pending.entry).tasks
        (todo [] (form ∷ (pending_of pending.entry).stack))) }
    ensures sound { IfOk result (λ made. (room : ℕ) (graph : FlowGraph)
        → IsUnderWay room graph pending.entry → HasRoom room form → IsUnderWay room graph made) }
{
    let mut made = pending;
    made.stack.push(form)?;
    Ok(made)
}

/// The case without its topmost form, and that form.
pub(crate) fn popped<'a>(pending: Pending<'a>) -> Option<(Pending<'a>, Form)>
    ensures case { MatchOption result
        ((pending_of pending.entry).stack ≡ [])
        (λ found. (room : ℕ) (graph : FlowGraph) → pending_of pending.entry
        ≡ with_todo room graph (pending_of found.0) (pending_of found.0).tasks
        (todo [] (found.1 ∷ (pending_of found.0).stack))) }
    ensures room { IfSome result (λ found. (room : ℕ)
        → All (HasRoom room) pending.entry.stack.items
        → All (HasRoom room) found.0.stack.items × HasRoom room found.1) }
    ensures sound { IfSome result (λ found. (room : ℕ) (graph : FlowGraph)
        → IsUnderWay room graph pending.entry → IsUnderWay room graph found.0) }
{
    let mut left = pending;
    match left.stack.pop() {
        None => None,
        Some(form) => Some((left, form)),
    }
}

/// One move, under no row of its own.
pub(crate) fn one<'a>(
    alloc: Global,
    step: Move<'a>,
    columns: u32,
) -> Result<Vec<Entry<'a>>, AllocError>
    ensures { IfOk result (λ moves. moves.items ≡ entry.Arrives [] columns step.entry ∷ []) }
{
    let mut moves = Vec::new(alloc);
    moves.push(Entry::Arrives {
        rows: Items::new(alloc),
        columns,
        step,
    })?;
    Ok(moves)
}

/// The case goes on with the form that is made.
fn made_entry<'a>(pending: Pending<'a>, made: Made) -> Result<Entry<'a>, AllocError>
    ensures entry { IfOk result (λ found. (room : ℕ) (graph : FlowGraph) → entry_of found ∷ []
        ≡ onward (made_of made ∷ []) (λ form. gives (Goes
        (with_todo room graph (pending_of pending.entry) (pending_of pending.entry).tasks
        (todo [] (form ∷ (pending_of pending.entry).stack)))))) }
    ensures sound { IfOk result (λ found. (room : ℕ) (graph : FlowGraph)
        → IsUnderWay room graph pending.entry → MadeHasRoom room made
        → EntryIsSound room graph found) }
{
    match made {
        Made::Stops(why) => Ok(Entry::Stops(why)),
        Made::Arrives {
            rows,
            columns,
            form,
        } => {
            let next = with_form(pending, form)?;
            Ok(Entry::Arrives {
                rows,
                columns,
                step: Move::Goes(next),
            })
        }
    }
}

/// A copy of the case goes on with each form that is made.
fn copied_made<'a>(
    alloc: Global,
    pending: &Pending<'a>,
    made: Vec<Made>,
) -> Result<Vec<Entry<'a>>, AllocError>
    ensures moves { IfOk result (λ moves. (room : ℕ) (graph : FlowGraph) → map entry_of moves.items
        ≡ onward (map made_of made.items) (λ form. gives (Goes
        (with_todo room graph (pending_of pending.now) (pending_of pending.now).tasks
        (todo [] (form ∷ (pending_of pending.now).stack)))))) }
    ensures sound { IfOk result (λ moves. (room : ℕ) (graph : FlowGraph)
        → IsUnderWay room graph pending.now → All (MadeHasRoom room) made.items
        → All (EntryIsSound room graph) moves.items) }
{
    let mut left = made;
    left.reverse();
    let mut moves = Vec::new(alloc);
    while let Some(made) = left.pop() {
        let case = copied(alloc, pending)?;
        let entry = made_entry(case, made)?;
        moves.push(entry)?;
    }
    Ok(moves)
}

/// The case goes on with each form that is made. The last one takes the case itself.
pub(crate) fn each_made<'a>(
    alloc: Global,
    pending: Pending<'a>,
    made: Vec<Made>,
) -> Result<Vec<Entry<'a>>, AllocError>
    ensures moves { IfOk result (λ moves. (room : ℕ) (graph : FlowGraph) → map entry_of moves.items
        ≡ onward (map made_of made.items) (λ form. gives (Goes
        (with_todo room graph (pending_of pending.entry) (pending_of pending.entry).tasks
        (todo [] (form ∷ (pending_of pending.entry).stack)))))) }
    ensures sound { IfOk result (λ moves. (room : ℕ) (graph : FlowGraph)
        → IsUnderWay room graph pending.entry → All (MadeHasRoom room) made.items
        → All (EntryIsSound room graph) moves.items) }
{
    let mut others = made;
    match others.pop() {
        None => Ok(Vec::new(alloc)),
        Some(last) => {
            let mut moves = copied_made(alloc, &pending, others)?;
            let entry = made_entry(pending, last)?;
            moves.push(entry)?;
            Ok(moves)
        }
    }
}

/// One of two cases.
fn chosen<'a>(test: bool, first: Pending<'a>, second: Pending<'a>) -> Pending<'a>
    ensures case { pending_of result
        ≡ (if test then pending_of first.entry else pending_of second.entry) }
    ensures sound { (room : ℕ) (graph : FlowGraph)
        → IsUnderWay room graph first.entry → IsUnderWay room graph second.entry
        → IsUnderWay room graph result }
{
    if test { first } else { second }
}

/// A copy of one of two cases.
fn copied_choice<'a>(
    alloc: Global,
    test: bool,
    first: &Pending<'a>,
    second: &Pending<'a>,
) -> Result<Pending<'a>, AllocError>
    ensures case { IfOk result (λ made. pending_of made
        ≡ (if test then pending_of first.now else pending_of second.now)) }
    ensures sound { IfOk result (λ made. (room : ℕ) (graph : FlowGraph)
        → IsUnderWay room graph first.now → IsUnderWay room graph second.now
        → IsUnderWay room graph made) }
{
    if test {
        let made = copied(alloc, first)?;
        Ok(made)
    } else {
        let made = copied(alloc, second)?;
        Ok(made)
    }
}

/// The case that the answer of a test chooses.
fn answer_entry<'a>(
    alloc: Global,
    answer: Answer,
    first: Pending<'a>,
    second: Pending<'a>,
    columns: u32,
) -> Result<Entry<'a>, AllocError>
    ensures entry { IfOk result (λ found. entry_of found ∷ []
        ≡ onward (answer_of columns answer ∷ []) (λ test. gives (Goes
        (if test then pending_of first.entry else pending_of second.entry)))) }
    ensures sound { IfOk result (λ found. (room : ℕ) (graph : FlowGraph)
        → IsUnderWay room graph first.entry → IsUnderWay room graph second.entry
        → EntryIsSound room graph found) }
{
    match answer {
        Answer::Wide => Ok(Entry::Stops(PathLimit::WideForm)),
        Answer::Given { row, answer } => {
            let next = chosen(answer, first, second);
            let rows = rows_of(alloc, row)?;
            Ok(Entry::Arrives {
                rows,
                columns,
                step: Move::Goes(next),
            })
        }
    }
}

/// A copy of the case that the answer of a test chooses.
fn copied_entry<'a>(
    alloc: Global,
    answer: Answer,
    first: &Pending<'a>,
    second: &Pending<'a>,
    columns: u32,
) -> Result<Entry<'a>, AllocError>
    ensures entry { IfOk result (λ found. entry_of found ∷ []
        ≡ onward (answer_of columns answer ∷ []) (λ test. gives (Goes
        (if test then pending_of first.now else pending_of second.now)))) }
    ensures sound { IfOk result (λ found. (room : ℕ) (graph : FlowGraph)
        → IsUnderWay room graph first.now → IsUnderWay room graph second.now
        → EntryIsSound room graph found) }
{
    match answer {
        Answer::Wide => Ok(Entry::Stops(PathLimit::WideForm)),
        Answer::Given { row, answer } => {
            let next = copied_choice(alloc, answer, first, second)?;
            let rows = rows_of(alloc, row)?;
            Ok(Entry::Arrives {
                rows,
                columns,
                step: Move::Goes(next),
            })
        }
    }
}

/// A copy of the case that each answer of a test chooses.
fn copied_answers<'a>(
    alloc: Global,
    answers: Vec<Answer>,
    first: &Pending<'a>,
    second: &Pending<'a>,
    columns: u32,
) -> Result<Vec<Entry<'a>>, AllocError>
    ensures moves { IfOk result (λ moves. map entry_of moves.items
        ≡ onward (map (answer_of columns) answers.items) (λ test. gives (Goes
        (if test then pending_of first.now else pending_of second.now)))) }
    ensures sound { IfOk result (λ moves. (room : ℕ) (graph : FlowGraph)
        → IsUnderWay room graph first.now → IsUnderWay room graph second.now
        → All (EntryIsSound room graph) moves.items) }
{
    let mut left = answers;
    left.reverse();
    let mut moves = Vec::new(alloc);
    while let Some(answer) = left.pop() {
        moves.push(copied_entry(alloc, answer, first, second, columns)?)?;
    }
    Ok(moves)
}

/// The case that each answer of a test chooses. The last answer takes it itself.
pub(crate) fn each_answer<'a>(
    alloc: Global,
    answers: Vec<Answer>,
    first: Pending<'a>,
    second: Pending<'a>,
    columns: u32,
) -> Result<Vec<Entry<'a>>, AllocError>
    ensures moves { IfOk result (λ moves. map entry_of moves.items
        ≡ onward (map (answer_of columns) answers.items) (λ test. gives (Goes
        (if test then pending_of first.entry else pending_of second.entry)))) }
    ensures sound { IfOk result (λ moves. (room : ℕ) (graph : FlowGraph)
        → IsUnderWay room graph first.entry → IsUnderWay room graph second.entry
        → All (EntryIsSound room graph) moves.items) }
{
    let mut others = answers;
    match others.pop() {
        None => Ok(Vec::new(alloc)),
        Some(last) => {
            let mut moves = copied_answers(alloc, others, &first, &second, columns)?;
            let entry = answer_entry(alloc, last, first, second, columns)?;
            moves.push(entry)?;
            Ok(moves)
        }
    }
}
