//! One step of a case under way.
ghost use Rattle.std.specs.Prelude.{◌≡◌, ◌<◌, ◌^◌, map, All, IfOk};
ghost use Rattle.sym_paths.specs.Machine.{advanced};
ghost use Rattle.sym_paths.specs.Arrivals.{fresh, pending_of, entry_of, IsUnderWay, EntryIsSound};
ghost use Rattle.sym_paths.specs.Arrivals.{graph_of};

use crate::node::used;
use crate::task::{Entry, Pending, Subject};
use crate::tasks::perform;
use std::alloc::{AllocError, Global};

/// One step of a case under way.
pub(crate) fn advanced<'a>(
    alloc: Global,
    room: usize,
    subject: Subject<'a>,
    pending: Pending<'a>,
    columns: u32,
) -> Result<Vec<Entry<'a>>, AllocError>
    requires sound { IsUnderWay room (graph_of subject) pending }
    requires few { room < 2 ^ 32 }
    ensures moves { IfOk result (λ moves. map entry_of moves.items
        ≡ advanced room (graph_of subject.entry) (pending_of pending.entry) (fresh columns)) }
    ensures sound { IfOk result (λ moves.
        All (EntryIsSound room (graph_of subject.entry)) moves.items) }
{
    let mut left = pending;
    match left.tasks.pop() {
        None => {
            let moves = used(alloc, room, subject, left, columns)?;
            Ok(moves)
        }
        Some(task) => {
            let moves = perform(alloc, room, left, task, columns)?;
            Ok(moves)
        }
    }
}
