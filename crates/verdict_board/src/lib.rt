//! Hands out the numbers of samples and of alignments to many passes, each number once, and tells
//! them when to stop.
//!
//! A board is three words of `atomic_table`: the stop, and two tickets, of which each draw takes
//! the next number. No call waits. What a pass has seen and drawn stands in its view, which
//! contracts alone see (`view`): passes that split from one another and are joined again hold the
//! numbers from 0 on, each once. `specs/Rule.antt` says what every step keeps, `specs/Views.antt`
//! what each step does to a view, and `specs/Laws.antt` what is known of such numbers.
#![tactic(auto)]

mod board;
mod law;
mod pair;
mod steps;
#[cfg(test)]
mod tests;
mod view;

pub use board::{Board, Pass};
pub use law::law_of_numbers;
pub use pair::drawn_by_two;
pub use view::{Limits, Ticket, View};
