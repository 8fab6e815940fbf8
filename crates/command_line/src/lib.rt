//! The command line of llreve: the program's words go in; the settings, the text of a condition on
//! the inputs, and two files' names come out.
//!
//! `specs/CommandLine.antt` says which words are a command line, and what they say.
#![tactic(auto)]

mod condition;
mod given;
mod kind;
mod reading;
mod setting;
mod switch;
#[cfg(test)]
mod tests;
mod words;

pub use condition::ConditionText;
pub use words::{Command, NoCommand, one_command, read_command};
