//! Two passes at work: what a caller proves from the clauses of a board alone.
ghost use Rattle.std.specs.Prelude.{IfOk};
ghost use Rattle.verdict_board.specs.Views.{IsComplete};
ghost use Rattle.verdict_board.specs.Passes.{view_of};

use crate::board::{Board, Pass};
use std::alloc::{AllocError, Global};

/// Two passes draw, and one gets the numbers of both: all from 0 on, each once.
pub fn drawn_by_two(alloc: Global) -> Result<Pass, AllocError>
    ensures { IfOk result (λ p. IsComplete (view_of p)) }
{
    let (board, mut first) = Board::new(alloc, 3, 2, 1)?;
    let mut second = board.split(&mut first)?;
    if !board.look(&mut first) {
        let _sample = board.draw_sample(&mut first);
    }
    if !board.look(&mut second) {
        let _alignment = board.draw_alignment(&mut second);
    }
    board.join(&mut first, second);
    Ok(first)
}
