//! What the words of a command line say.
ghost use Rattle.std.specs.Prelude.{map, string_bytes, IfOk, IfErr};
ghost use Rattle.command_line.specs.CommandLine.{IsCommand, IsOneCommand};
ghost use Rattle.command_line.specs.Refused.{IsNoCommand};

use crate::condition::ConditionText;
use crate::reading::Reading;
use c_ast::{Name, Settings};
use std::alloc::{AllocError, Global};

/// What a command line says.
#[derive(Debug, Drop)]
pub struct Command {
    /// The numbers of the options, each the one that is given or the option's default.
    pub settings: Settings,
    /// The text of the condition that the inputs are to meet, where one is given.
    pub condition: Option<ConditionText>,
    /// Whether the history is to be told too.
    pub history: bool,
    /// The name of side A's file, which is never `make`.
    pub first: Name,
    /// The name of side B's file.
    pub second: Name,
}

/// Why there is no command.
#[derive(Clone, Copy, Debug, PartialEq, Eq)]
pub enum NoCommand {
    /// The words are no command line.
    Usage,
    /// Memory ran out.
    Memory,
}

/// What the words say, where they are a command line. `words` leave out the program's name. The
/// error is that they are none, or that memory ran out.
pub fn read_command(alloc: Global, words: &[String]) -> Result<Command, NoCommand>
    ensures command { IfOk result (IsCommand (map string_bytes words.now)) }
    ensures refused { IfErr result (IsNoCommand (map string_bytes words.now)) }
{
    let mut reading = Reading::start();
    for word in words {
        reading = reading.step(alloc, word.as_str())?;
    }
    match reading.command() {
        Some(command) => Ok(command),
        None => Err(NoCommand::Usage),
    }
}

/// A law: words are one command line at most.
pub fn one_command()
    ensures { IsOneCommand }
{}
