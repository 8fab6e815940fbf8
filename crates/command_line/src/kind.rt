//! What one word is, where options are still met.
ghost use Rattle.std.specs.Prelude.{◌≡◌};
ghost use Rattle.command_line.specs.Read.{begins_with_dash, is_operand, option_kind, kind_of, value_of, word_kind};

use crate::setting::Valued;
use crate::switch::Switch;

/// What one word is.
pub(crate) enum Word<'a> {
    /// The word `--`.
    Dashes,
    /// A word that begins with no dash, or is one dash alone.
    Operand,
    /// An option without a value.
    Bare(Switch),
    /// An option and its value.
    Joined(Valued, &'a str),
    /// An option whose value is the next word.
    Apart(Valued),
    /// A word that begins with a dash, and is none of these.
    Unknown,
}

/// What the word is.
pub(crate) fn kind_of(word: &str) -> Word<'_>
    ensures { word_kind result ≡ kind_of word.now }
{
    if word == "--" {
        return Word::Dashes;
    }
    if is_operand(word) {
        return Word::Operand;
    }
    match Switch::named(word) {
        Some(switch) => Word::Bare(switch),
        None => option(word),
    }
}

/// The number that the word writes, where it fits a `u64`.
pub(crate) fn value(word: &str) -> Option<u64>
    ensures { result ≡ value_of word.now }
{
    word.parse::<u64>().ok()
}

/// Whether the word begins with a dash.
pub(crate) fn begins_with_dash(word: &str) -> bool
    ensures { result ≡ begins_with_dash word.now }
{
    matches!(word.as_bytes(), [b'-', ..])
}

// Whether the word begins with no dash, or is one dash alone.
fn is_operand(word: &str) -> bool
    ensures { result ≡ is_operand word.now }
{
    !matches!(word.as_bytes(), [b'-', _, ..])
}

// The word as an option that takes a value. Its name ends at the first `=`.
fn option(word: &str) -> Word<'_>
    ensures { word_kind result ≡ option_kind word.now }
{
    match word.split_once('=') {
        Some((name, value)) => match Valued::named(name) {
            Some(option) => Word::Joined(option, value),
            None => Word::Unknown,
        },
        None => match Valued::named(word) {
            Some(option) => Word::Apart(option),
            None => Word::Unknown,
        },
    }
}
