//! The text of a condition on the inputs, as the option `--pre` gives it.
ghost use Rattle.std.specs.Prelude.{◌≡◌, false, IfOk, IfErr};
ghost use Rattle.command_line.specs.ConditionText.{IsConditionText};
ghost use Rattle.command_line.specs.Read.{is_condition, Refuses};

use crate::words::NoCommand;
use std::alloc::Global;
use std::marker::Model;

/// The greatest number of bytes of a condition's text. The least is 1.
const LONGEST_CONDITION: usize = 4096;

/// The text of a condition: 1 to 4,096 bytes. Contracts see it as its bytes.
#[derive(Debug, Drop)]
pub struct ConditionText(String);

impl Model for ConditionText {
    ghost use Rattle.std.specs.Prelude.{ℕ, List, string_bytes};
    ghost use Rattle.command_line.specs.ConditionText.{IsConditionText};

    ghost Value = { List ℕ };

    ghost view = { λ condition. string_bytes condition.0 };

    ghost invariant = { λ condition. IsConditionText (string_bytes condition.0) };
}

impl ConditionText {
    /// The text of this word, where it is as long as one may be.
    pub(crate) fn of_word(alloc: Global, word: &str) -> Result<ConditionText, NoCommand>
        ensures ok { IfOk result (λ condition. condition ≡ word.now) }
        ensures length { IfOk result (λ condition. IsConditionText word.now) }
        ensures refused { IfErr result (Refuses (is_condition word.now ≡ false)) }
    {
        if !is_condition(word) {
            return Err(NoCommand::Usage);
        }
        match String::from_str(alloc, word) {
            Ok(text) => Ok(ConditionText(text)),
            Err(_) => Err(NoCommand::Memory),
        }
    }

    /// The text.
    pub fn text(&self) -> &str
        ensures text { result.now ≡ self.now }
        ensures length { IsConditionText self.now }
    {
        self.0.as_str()
    }
}

// Whether the word is as long as a condition's text may be.
fn is_condition(word: &str) -> bool
    ensures { result ≡ is_condition word.now }
{
    (1..=LONGEST_CONDITION).contains(&word.len())
}
