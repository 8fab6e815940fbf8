//! What came of the samples, told by cause.
ghost use Rattle.std.specs.Prelude.{◌≡◌, ◌++◌, IfOk, OnOk, string_bytes};
ghost use Rattle.report.specs.Samples.{is_same, indexes_where, skip_of};
ghost use Rattle.report.specs.Samples.{index_line, sample_line, sample_lines};

use crate::indexes::indexes_text;
use c_ast::Side::{self, A, B, Pre};
use graph_run::Skip::{self, NotEnded, Unmet, Wide};
use pool_core::SampleWhy;
use std::alloc::{AllocError, Global};
use trace_pair::Skipped;

fn is_same(sample: &SampleWhy, other: &SampleWhy) -> bool
    ensures { result ≡ is_same sample.now other.now }
{
    sample == other
}

/// The indexes of the samples that equal `cause`. Want of memory also stands for an index above 32
/// bits.
fn indexes_where(
    alloc: Global,
    samples: &[SampleWhy],
    cause: &SampleWhy,
) -> Result<Vec<u32>, AllocError>
    ensures { IfOk result (λ indexes. indexes.items ≡ indexes_where cause.now samples.now) }
{
    let mut indexes = Vec::new(alloc);
    for (index, sample) in samples.iter().enumerate() {
        if is_same(sample, cause) {
            let Ok(index) = u32::try_from(index) else {
                return Err(AllocError);
            };
            indexes.push(index)?;
        }
    }
    Ok(indexes)
}

fn skip_of(side: Side, why: Skip) -> SampleWhy
    ensures { result ≡ skip_of side why }
{
    SampleWhy::Skipped(Skipped { side, why })
}

fn index_line(alloc: Global, words: &str, indexes: &[u32]) -> Result<String, AllocError>
    ensures { IfOk result (λ line. string_bytes line ≡ index_line words.now indexes.now) }
{
    if indexes.is_empty() {
        return Ok(String::new(alloc));
    }
    let told = indexes_text(alloc, indexes)?;
    format!(in alloc; "{words} {told}\n")
}

fn push_line(
    alloc: Global,
    text: &mut String,
    words: &str,
    samples: &[SampleWhy],
    cause: SampleWhy,
) -> Result<(), AllocError>
    ensures { OnOk result
        (string_bytes text.new ≡ string_bytes text.old ++ sample_line words.now cause samples.now) }
{
    let indexes = indexes_where(alloc, samples, &cause)?;
    let line = index_line(alloc, words, &indexes)?;
    text.push_str(line.as_str())
}

/// Writes the lines of the samples, one for each cause that has an index.
pub fn push_sample_lines(
    alloc: Global,
    text: &mut String,
    samples: &[SampleWhy],
) -> Result<(), AllocError>
    ensures { OnOk result
        (string_bytes text.new ≡ string_bytes text.old ++ sample_lines samples.now) }
{
    push_line(alloc, text, "equal", samples, SampleWhy::Equal)?;
    push_line(alloc, text, "unmet pre", samples, skip_of(Pre, Unmet))?;
    push_line(alloc, text, "wide pre", samples, skip_of(Pre, Wide))?;
    push_line(alloc, text, "not-ended A", samples, skip_of(A, NotEnded))?;
    push_line(alloc, text, "wide A", samples, skip_of(A, Wide))?;
    push_line(alloc, text, "not-ended B", samples, skip_of(B, NotEnded))?;
    push_line(alloc, text, "wide B", samples, skip_of(B, Wide))
}
