//! Reading the words one by one.
ghost use Rattle.std.specs.Prelude.{◌≡◌, None, Some, IfSome, IfNone, IfOk, IfErr};
ghost use Rattle.command_line.specs.declared.words.Command.{Command};
ghost use Rattle.command_line.specs.Read.{step, word_step, kind_of, start, reading, Refuses};
ghost use Rattle.command_line.specs.Says.{Ends};

use crate::given::Given;
use crate::kind::{Word, begins_with_dash, kind_of};
use crate::setting::Valued;
use crate::words::{Command, NoCommand};
use std::alloc::Global;

/// What the next word is taken for.
#[derive(Clone, Copy)]
pub(crate) enum Expects {
    /// An option or an operand.
    Word,
    /// The option's value.
    Value(Valued),
    /// An operand, since `--` stood before.
    Operand,
}

/// What the words so far gave, and what the next one is taken for.
#[derive(Drop)]
pub(crate) struct Reading {
    pub given: Given,
    pub expects: Expects,
}

impl Reading {
    /// The start, before the first word.
    pub(crate) fn start() -> Reading
        ensures { result ≡ start }
    {
        Reading::new(Given::nothing(), Expects::Word)
    }

    fn new(given: Given, expects: Expects) -> Reading
        ensures { result ≡ reading expects given }
    {
        Reading { given, expects }
    }

    /// After one more word.
    pub(crate) fn step(self, alloc: Global, word: &str) -> Result<Reading, NoCommand>
        ensures ok { IfOk result (λ next. step word.now self ≡ Some next) }
        ensures refused { IfErr result (Refuses (step word.now self ≡ None)) }
    {
        match self.expects {
            Expects::Word => after_word(self.given, alloc, word),
            Expects::Value(option) if !begins_with_dash(word) => {
                let given = self.given.with_value(alloc, option, word)?;
                Ok(Reading::new(given, Expects::Word))
            }
            Expects::Value(_) => Err(NoCommand::Usage),
            Expects::Operand => {
                let given = self.given.with_operand(alloc, word)?;
                Ok(Reading::new(given, Expects::Operand))
            }
        }
    }

    /// The command, where the words that were read are a command line.
    pub(crate) fn command(self) -> Option<Command>
        ensures some { IfSome result (Ends self) }
        ensures none { IfNone result ((command : Command) → ¬ Ends self command) }
    {
        match self.expects {
            Expects::Value(_) => None,
            _ => self.given.command(),
        }
    }
}

// After one more word, where options are still met.
fn after_word(given: Given, alloc: Global, word: &str) -> Result<Reading, NoCommand>
    ensures ok { IfOk result (λ next. word_step (kind_of word.now) word.now given ≡ Some next) }
    ensures refused { IfErr result
        (Refuses (word_step (kind_of word.now) word.now given ≡ None)) }
{
    match kind_of(word) {
        Word::Dashes => Ok(Reading::new(given, Expects::Operand)),
        Word::Operand => {
            let given = given.with_operand(alloc, word)?;
            Ok(Reading::new(given, Expects::Word))
        }
        Word::Bare(switch) => match given.with_switch(switch) {
            Some(given) => Ok(Reading::new(given, Expects::Word)),
            None => Err(NoCommand::Usage),
        },
        Word::Joined(option, value) => {
            let given = given.with_value(alloc, option, value)?;
            Ok(Reading::new(given, Expects::Word))
        }
        Word::Apart(option) => Ok(Reading::new(given, Expects::Value(option))),
        Word::Unknown => Err(NoCommand::Usage),
    }
}
