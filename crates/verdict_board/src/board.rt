//! The board that threads share, and the pass that each of them has.
ghost use Rattle.std.specs.Prelude.{◌≡◌, ℕ, ◌+◌, ◌<◌, ◌≤◌, IfOk, IsOk, IsTrue, IsFalse, []};
ghost use Rattle.verdict_board.specs.Views.{first_view, looked, drew_sample, drew_alignment, raised, split_left, split_right, joined, IsWhole, IsComplete};
ghost use Rattle.verdict_board.specs.Numbers.{times};

use crate::steps::{Both, DrawsAlignment, DrawsSample, Fair, Halves, Learns, Looks, Raises};
use crate::view::{Limits, View};
use atomic_table::{Seat, Table};
use std::alloc::{AllocError, Global};

/// The place of the stop among the words: 0 until it is raised, and 1 from then on.
const STOP: usize = 0;

/// The place of the ticket of samples: the next number.
const SAMPLE: usize = 1;

/// The place of the ticket of alignments: the next number.
const ALIGNMENT: usize = 2;

/// A stop and two tickets, which many threads use at once.
#[derive(Drop)]
pub struct Board {
    table: Table<u8, View, Limits, Fair, Global>,
    ghost words: { table.shared.table_id.words ≡ 3 },
}

/// What a thread uses a board with. It belongs to one board.
#[derive(Drop)]
pub struct Pass {
    seat: Seat<u8, View>,
    ghost bare: { seat.me.1 ≡ [] },
    ghost live: { 0 < seat.me.0.weight },
}

impl Board {
    ghost use Rattle.verdict_board.specs.Passes.{IsOf, view_of, samples_of, alignments_of, MayDraw, IsBelow, AreApart};

    /// A board on which no number is drawn and the stop is not raised, with its first pass, which
    /// may split `passes` times.
    pub fn new(
        alloc: Global,
        samples: u32,
        alignments: u32,
        passes: u32,
    ) -> Result<(Board, Pass), AllocError>
        ensures board { IfOk result (λ r. IsOf r.0 r.1) }
        ensures view { IfOk result (λ r. view_of r.1 ≡ first_view samples alignments passes) }
    {
        let limits = Limits {
            samples: samples as u64,
            alignments: alignments as u64,
            passes: passes as u64,
        };
        let (table, seat) = Table::of_words(alloc, &[0, 0, 0], &limits)?;
        Ok((Board { table }, Pass { seat }))
    }

    /// Whether the stop is raised. Once a pass has seen it, all its looks are true.
    pub fn look(&self, pass: &mut Pass) -> bool
        requires { IsOf self.now pass.old }
        ensures of_board { IsOf self.now pass.new }
        ensures view { view_of pass.new ≡ looked (view_of pass.old) result }
        ensures stays { IsTrue (view_of pass.old).seen → IsTrue result }
        ensures whole { IsWhole (view_of pass.new) → IsComplete (view_of pass.new) }
    {
        self.table.shared.load::<Looks>(&mut pass.seat, STOP) == 1
    }

    /// The next number of the samples, which no other draw is given.
    pub fn draw_sample(&self, pass: &mut Pass) -> u64
        requires of_board { IsOf self.now pass.old }
        requires may { MayDraw (view_of pass.old) (samples_of pass.old) }
        ensures of_board { IsOf self.now pass.new }
        ensures view { view_of pass.new ≡ drew_sample (view_of pass.old) result }
        ensures unseen { times result (samples_of pass.old).drawn ≡ 0 }
        ensures below { result < (samples_of pass.old).limit → IsBelow (samples_of pass.new) }
    {
        self.table
            .shared
            .fetch_add::<DrawsSample>(&mut pass.seat, SAMPLE, 1)
    }

    /// The next number of the alignments, which no other draw is given.
    pub fn draw_alignment(&self, pass: &mut Pass) -> u64
        requires of_board { IsOf self.now pass.old }
        requires may { MayDraw (view_of pass.old) (alignments_of pass.old) }
        ensures of_board { IsOf self.now pass.new }
        ensures view { view_of pass.new ≡ drew_alignment (view_of pass.old) result }
        ensures unseen { times result (alignments_of pass.old).drawn ≡ 0 }
        ensures below { result < (alignments_of pass.old).limit → IsBelow (alignments_of pass.new) }
    {
        self.table
            .shared
            .fetch_add::<DrawsAlignment>(&mut pass.seat, ALIGNMENT, 1)
    }

    /// Raises the stop, and says whether it was not raised before.
    pub fn raise(&self, pass: &mut Pass) -> bool
        requires { IsOf self.now pass.old }
        ensures of_board { IsOf self.now pass.new }
        ensures view { view_of pass.new ≡ raised (view_of pass.old) result }
        ensures late { IsTrue (view_of pass.old).seen → IsFalse result }
    {
        self.table
            .shared
            .compare_exchange::<Raises>(&mut pass.seat, STOP, 0, 1)
            == 0
    }

    /// A new pass of this board, with no numbers and no splits. It takes no memory and is never
    /// refused.
    pub fn split(&self, pass: &mut Pass) -> Result<Pass, AllocError>
        requires of_board { IsOf self.now pass.old }
        requires left { 0 < (view_of pass.old).splits }
        ensures made { IsOk result }
        ensures of_board { IsOf self.now pass.new }
        ensures view { view_of pass.new ≡ split_left (view_of pass.old) }
        ensures new { IfOk result (λ p. view_of p ≡ split_right (view_of pass.old)) }
        ensures new_of_board { IfOk result (IsOf self.now) }
    {
        Ok(Pass {
            seat: self.table.shared.split_seat::<Halves>(&mut pass.seat),
        })
    }

    /// Takes in the other pass, with all that it drew. No number was drawn by both, and the stop
    /// was not raised by both.
    pub fn join(&self, pass: &mut Pass, other: Pass)
        requires { IsOf self.now pass.old × IsOf self.now other }
        ensures of_board { IsOf self.now pass.new }
        ensures view { view_of pass.new ≡ joined (view_of pass.old) (view_of other) }
        ensures samples { AreApart (samples_of pass.old) (samples_of other) }
        ensures alignments { AreApart (alignments_of pass.old) (alignments_of other) }
        ensures raises { (view_of pass.old).raises + (view_of other).raises ≤ 1 }
        ensures whole { IsWhole (view_of pass.new) → IsComplete (view_of pass.new) }
    {
        let Pass { seat } = other;
        self.table.shared.join_seat::<Both>(&mut pass.seat, seat);
        self.table.shared.load::<Learns>(&mut pass.seat, STOP);
    }
}
