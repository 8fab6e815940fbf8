//! What a pass knows. Contracts alone see it: no value of a view is ever made, and it takes no
//! memory.
use std::collections::LinkedList;

/// What a pass knows of one ticket.
pub struct Ticket {
    /// How many numbers are wanted. A pass that has drawn one at or past it draws no more.
    pub limit: u64,
    /// The numbers that this pass drew, and those of the passes joined into it.
    pub drawn: LinkedList<u64>,
}

/// What a pass knows of its board, and of what it did there.
pub struct View {
    /// How often the first pass may split.
    pub passes: u64,
    /// How many passes this one is: itself, and those joined into it.
    pub weight: u64,
    /// How often it may still split.
    pub splits: u64,
    pub looks: u64,
    /// How many of its raises found that the stop was not raised.
    pub raises: u64,
    /// It has seen the stop: by a look that was true, or by its raise.
    pub seen: bool,
    /// It has looked since its last draw or join, and its last look was false.
    pub may_draw: bool,
    pub samples: Ticket,
    pub alignments: Ticket,
}

/// What a board is told when it is made.
#[derive(Clone, Copy)]
pub struct Limits {
    pub samples: u64,
    pub alignments: u64,
    pub passes: u64,
}
