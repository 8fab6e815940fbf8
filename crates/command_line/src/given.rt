//! What the words so far gave.
ghost use Rattle.std.specs.Prelude.{◌≡◌, None, Some, IfSome, IfNone, IfOk, IfErr, string_bytes};
ghost use Rattle.c_ast.specs.Bounds.{Bounds};
ghost use Rattle.command_line.specs.CommandLine.{AreWorkers};
ghost use Rattle.command_line.specs.declared.words.Command.{Command};
ghost use Rattle.command_line.specs.Read.{nothing, number_of, one_more, is_on, with_switch, with_number, with_written, with_text, with_value, with_operand, Refuses};
ghost use Rattle.command_line.specs.Says.{Says, SaysNumbers, chosen_of, command_of};

use crate::condition::ConditionText;
use crate::kind::value;
use crate::setting::{Setting, Valued};
use crate::switch::Switch;
use crate::words::{Command, NoCommand};
use c_ast::{Name, Settings};
use std::alloc::Global;

/// The greatest number of threads. The least is 1.
const MOST_WORKERS: u64 = 64;

/// The operands so far.
#[derive(Drop)]
pub(crate) enum Operands {
    None,
    First(Name),
    Both(Name, Name),
}

impl Operands {
    // The same with one more; `None` where there are two.
    fn with(self, name: Name) -> Option<Operands>
        ensures { result ≡ one_more name self }
    {
        match self {
            Operands::None => Some(Operands::First(name)),
            Operands::First(first) => Some(Operands::Both(first, name)),
            Operands::Both(..) => None,
        }
    }

    // The command of two files, the first of which is not `make`.
    fn command(
        self,
        settings: Settings,
        condition: Option<ConditionText>,
        history: bool,
    ) -> Option<Command>
        ensures { result ≡ command_of settings condition history self }
    {
        match self {
            Operands::Both(first, second) => {
                if first.text() == "make" {
                    None
                } else {
                    Some(Command {
                        settings,
                        condition,
                        history,
                        first,
                        second,
                    })
                }
            }
            _ => None,
        }
    }
}

/// What the words so far gave.
#[derive(Drop)]
pub(crate) struct Given {
    alone: bool,
    history: bool,
    workers: Option<u64>,
    samples: Option<u64>,
    marks: Option<u64>,
    rows: Option<u64>,
    seed: Option<u64>,
    condition: Option<ConditionText>,
    operands: Operands,
}

impl Given {
    /// What no words give.
    pub(crate) fn nothing() -> Given
        ensures { result ≡ nothing }
    {
        Given {
            alone: false,
            history: false,
            workers: None,
            samples: None,
            marks: None,
            rows: None,
            seed: None,
            condition: None,
            operands: Operands::None,
        }
    }

    /// The same with the switch on; `None` where it stood before.
    pub(crate) fn with_switch(mut self, switch: Switch) -> Option<Given>
        ensures { result ≡ with_switch switch self }
    {
        if self.is_on(switch) {
            return None;
        }
        match switch {
            Switch::Alone => self.alone = true,
            Switch::History => self.history = true,
        }
        Some(self)
    }

    /// The same with the option's value.
    pub(crate) fn with_value(
        self,
        alloc: Global,
        option: Valued,
        word: &str,
    ) -> Result<Given, NoCommand>
        ensures ok { IfOk result (λ given. with_value option word.now self ≡ Some given) }
        ensures refused { IfErr result (Refuses (with_value option word.now self ≡ None)) }
    {
        match option {
            Valued::Number(setting) => match self.with_written(setting, word) {
                Some(given) => Ok(given),
                None => Err(NoCommand::Usage),
            },
            Valued::Pre => self.with_text(alloc, word),
        }
    }

    /// The same with a file's name.
    pub(crate) fn with_operand(self, alloc: Global, word: &str) -> Result<Given, NoCommand>
        ensures ok { IfOk result (λ given. with_operand word.now self ≡ Some given) }
        ensures refused { IfErr result (Refuses (with_operand word.now self ≡ None)) }
    {
        let Ok(text) = String::from_str(alloc, word) else {
            return Err(NoCommand::Memory);
        };
        match self.operands.with(Name::new(text)) {
            Some(operands) => Ok(Given { operands, ..self }),
            None => Err(NoCommand::Usage),
        }
    }

    /// The command, where these are one.
    pub(crate) fn command(self) -> Option<Command>
        ensures some { IfSome result (Says self) }
        ensures none { IfNone result ((command : Command) → ¬ Says self command) }
    {
        if !self.alone {
            return None;
        }
        match self.settings() {
            Some(settings) => self
                .operands
                .command(settings, self.condition, self.history),
            None => None,
        }
    }

    fn is_on(&self, switch: Switch) -> bool
        ensures { result ≡ is_on switch self.now }
    {
        match switch {
            Switch::Alone => self.alone,
            Switch::History => self.history,
        }
    }

    // The same with the option's number; `None` where the option stood before.
    fn with_number(mut self, setting: Setting, number: u64) -> Option<Given>
        ensures { result ≡ with_number setting number self }
    {
        if self.number(setting).is_some() {
            return None;
        }
        let number = Some(number);
        match setting {
            Setting::Workers => self.workers = number,
            Setting::Samples => self.samples = number,
            Setting::Marks => self.marks = number,
            Setting::Rows => self.rows = number,
            Setting::Seed => self.seed = number,
        }
        Some(self)
    }

    // The same with the option's number; `None` where the word writes none, or the option stood
    // before.
    fn with_written(self, setting: Setting, word: &str) -> Option<Given>
        ensures { result ≡ with_written setting word.now self }
    {
        let number = value(word)?;
        self.with_number(setting, number)
    }

    // The same with the condition's text, where none stood before.
    fn with_text(self, alloc: Global, word: &str) -> Result<Given, NoCommand>
        ensures ok { IfOk result (λ given. with_text word.now self ≡ Some given) }
        ensures refused { IfErr result (Refuses (with_text word.now self ≡ None)) }
    {
        let text = ConditionText::of_word(alloc, word)?;
        if self.condition.is_some() {
            return Err(NoCommand::Usage);
        }
        Ok(Given {
            condition: Some(text),
            ..self
        })
    }

    fn number(&self, setting: Setting) -> Option<u64>
        ensures { result ≡ number_of setting self.now }
    {
        match setting {
            Setting::Workers => self.workers,
            Setting::Samples => self.samples,
            Setting::Marks => self.marks,
            Setting::Rows => self.rows,
            Setting::Seed => self.seed,
        }
    }

    // The option's number, or its default.
    fn chosen(&self, setting: Setting) -> u64
        ensures { result ≡ chosen_of setting self.now }
    {
        match self.number(setting) {
            Some(number) => number,
            None => setting.default_number(),
        }
    }

    fn settings(&self) -> Option<Settings>
        ensures some { IfSome result (SaysNumbers self.now) }
        ensures none { IfNone result ((numbers : Bounds) → ¬ SaysNumbers self.now numbers) }
    {
        let workers = self.chosen(Setting::Workers);
        if !(1..=MOST_WORKERS).contains(&workers) {
            return None;
        }
        let samples = u32::try_from(self.chosen(Setting::Samples)).ok()?;
        let marks = u32::try_from(self.chosen(Setting::Marks)).ok()?;
        let rows = u32::try_from(self.chosen(Setting::Rows)).ok()?;
        let seed = self.chosen(Setting::Seed);
        Settings::new(samples, marks, rows, seed)
    }
}
