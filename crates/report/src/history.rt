//! Histories, told by a line for each item.
ghost use Rattle.std.specs.Prelude.{◌≡◌, ◌≢◌, ◌++◌, codes, decimal, All, IfOk, OnOk, string_bytes};
ghost use Rattle.report.specs.Histories.{IsDecided, IsKeptItem, skip_word, skipped_text, verdict_word, candidates_text, item_text, worker_of, item_line, item_lines, history_text};
ghost use Rattle.report.specs.Limits.{why_words};
ghost use Rattle.report.specs.Fits.{IsKeptWhy};

use crate::family::side_word;
use crate::limits::push_why_words;
use alignment::Alignment;
use graph_run::Skip;
use pool_core::{Item, Verdict, Why};
use std::alloc::{AllocError, Global};
use trace_pair::Skipped;

fn skip_word(why: Skip) -> &'static str
    requires { why ≢ Skip.Memory }
    ensures { result.now ≡ skip_word why }
{
    match why {
        Skip::NotEnded => "not-ended",
        Skip::Wide => "wide",
        Skip::Unmet => "unmet",
        Skip::Memory => unreachable!(),
    }
}

fn push_skip(text: &mut String, index: u32, skipped: &Skipped) -> Result<(), AllocError>
    requires { skipped.now.why ≢ Skip.Memory }
    ensures { OnOk result (string_bytes text.new ≡ string_bytes text.old
        ++ (codes "skip " ++ (decimal index ++ (codes " " ++ skipped_text skipped.now)))) }
{
    let side = side_word(skipped.side);
    let why = skip_word(skipped.why);
    write!(text, "skip {index} {side} {why}")
}

fn push_candidates(
    text: &mut String,
    word: &str,
    prefix: u32,
    alignment: Alignment,
) -> Result<(), AllocError>
    ensures { OnOk result (string_bytes text.new ≡ string_bytes text.old
        ++ (word.now ++ candidates_text prefix alignment)) }
{
    let number = alignment.number();
    write!(text, "{word}{prefix} alignment {number}")
}

fn push_tried(
    text: &mut String,
    prefix: u32,
    alignment: Alignment,
    why: &Why,
) -> Result<(), AllocError>
    requires { IsKeptWhy why.now }
    ensures { OnOk result (string_bytes text.new ≡ string_bytes text.old
        ++ (codes "tried " ++ (candidates_text prefix alignment
        ++ (codes " " ++ why_words why.now)))) }
{
    push_candidates(text, "tried ", prefix, alignment)?;
    text.push_str(" ")?;
    push_why_words(text, why)
}

fn verdict_word(verdict: &Verdict) -> &'static str
    requires { IsDecided verdict.now }
    ensures { result.now ≡ verdict_word verdict.now }
{
    match verdict {
        Verdict::Equivalent { .. } => "equivalent",
        Verdict::Different { .. } => "different",
        Verdict::Unknown { .. } => unreachable!(),
    }
}

/// Writes what the item adds.
fn push_item(text: &mut String, item: &Item) -> Result<(), AllocError>
    requires { IsKeptItem item.now }
    ensures { OnOk result (string_bytes text.new ≡ string_bytes text.old ++ item_text item.now) }
{
    match item {
        Item::Pair { index, .. } => write!(text, "pair {index}"),
        Item::Skipped { index, skipped, .. } => push_skip(text, *index, skipped),
        Item::Mined {
            prefix,
            alignment,
            ..
        } => push_candidates(text, "mined ", *prefix, *alignment),
        Item::Tried {
            prefix,
            alignment,
            why,
            ..
        } => push_tried(text, *prefix, *alignment, why),
        Item::Posted { verdict, .. } => {
            let word = verdict_word(verdict);
            write!(text, "posted {word}")
        }
    }
}

fn worker_of(item: &Item) -> u32
    ensures { result ≡ worker_of item.now }
{
    match item {
        Item::Pair { worker, .. } => *worker,
        Item::Skipped { worker, .. } => *worker,
        Item::Mined { worker, .. } => *worker,
        Item::Tried { worker, .. } => *worker,
        Item::Posted { worker, .. } => *worker,
    }
}

/// Writes the line of the item at this position.
fn push_line(text: &mut String, position: usize, item: &Item) -> Result<(), AllocError>
    requires { IsKeptItem item.now }
    ensures { OnOk result
        (string_bytes text.new ≡ string_bytes text.old ++ item_line position item.now) }
{
    let worker = worker_of(item);
    write!(text, "{position} worker {worker} ")?;
    push_item(text, item)?;
    text.push_str("\n")
}

fn lines_of(alloc: Global, items: &[Item]) -> Result<String, AllocError>
    requires { All IsKeptItem items.now }
    ensures { IfOk result (λ text. string_bytes text ≡ history_text items.now) }
{
    let count = items.len();
    let mut text = format!(in alloc; "history {count}\n")?;
    for (position, item) in items.iter().enumerate() {
        push_line(&mut text, position, item)?;
    }
    Ok(text)
}

/// The lines that tell a history: how many items it has, and then each by its position, its worker
/// and what it adds. Families are not told. The one error is want of memory.
pub fn history_text(alloc: Global, items: &[Item]) -> Result<Vec<u8>, AllocError>
    requires { All IsKeptItem items.now }
    ensures { IfOk result (λ text. text.items ≡ history_text items.now) }
{
    Ok(lines_of(alloc, items)?.into_bytes())
}
