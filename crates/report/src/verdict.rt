//! Verdicts, told by lines.
ghost use Rattle.std.specs.Prelude.{◌≡◌, ◌++◌, length, All, IfOk, OnOk, string_bytes};
ghost use Rattle.report.specs.Verdicts.{equivalent_text, values_text, different_text, reason_text, reasons_text, undecided_text, verdict_text};
ghost use Rattle.report.specs.Fits.{FitsWhy, FitsEquivalent, FitsUnknown, FitsSubject};

use crate::family::push_family;
use crate::indexes::indexes_text;
use crate::limits::push_why;
use crate::samples::push_sample_lines;
use c_ast::Subject;
use pool_core::{SampleWhy, Verdict, Why};
use relation::Coupled;
use std::alloc::{AllocError, Global};

fn equivalent_text(
    alloc: Global,
    subject: &Subject,
    coupled: &Coupled,
    indexes: &[u32],
) -> Result<String, AllocError>
    requires { FitsEquivalent subject.now coupled.now }
    ensures { IfOk result
        (λ text. string_bytes text ≡ equivalent_text subject.now coupled.now indexes.now) }
{
    let indexes = indexes_text(alloc, indexes)?;
    let number = coupled.alignment().number();
    let mut text = format!(in alloc; "equivalent\nalignment {number}\npairs {indexes}\n")?;
    push_family(alloc, &mut text, subject, coupled.family())?;
    Ok(text)
}

fn values_text(alloc: Global, values: &[i128]) -> Result<String, AllocError>
    ensures { IfOk result (λ text. string_bytes text ≡ values_text values.now) }
{
    let mut text = String::new(alloc);
    for value in values {
        write!(text, " {value}")?;
    }
    Ok(text)
}

/// The lines of a sample on which both functions return, and differently.
pub(crate) fn different_text(
    alloc: Global,
    index: u32,
    input: &[i128],
    first: &i128,
    second: &i128,
) -> Result<String, AllocError>
    ensures { IfOk result
        (λ text. string_bytes text ≡ different_text index input.now first.now second.now) }
{
    let values = values_text(alloc, input)?;
    format!(in alloc;
        "different\nsample {index}\ninput{values}\nA returns {first}\nB returns {second}\n"
    )
}

fn push_reason(
    alloc: Global,
    text: &mut String,
    subject: &Subject,
    number: usize,
    why: &Why,
) -> Result<(), AllocError>
    requires { FitsWhy subject.now why.now }
    ensures { OnOk result (string_bytes text.new
        ≡ string_bytes text.old ++ reason_text subject.now number why.now) }
{
    write!(text, "alignment {number} ")?;
    push_why(alloc, text, subject, why)
}

/// Writes the lines of the alignments, from the first one on.
fn push_reasons(
    alloc: Global,
    text: &mut String,
    subject: &Subject,
    alignments: &[Why],
) -> Result<(), AllocError>
    requires reasons { All (FitsWhy subject.now) alignments.now }
    requires twelve { length alignments.now ≡ 12 }
    ensures { OnOk result (string_bytes text.new
        ≡ string_bytes text.old ++ reasons_text subject.now 1 alignments.now) }
{
    for (i, why) in alignments.iter().enumerate() {
        push_reason(alloc, text, subject, i + 1, why)?;
    }
    Ok(())
}

fn undecided_text(
    alloc: Global,
    subject: &Subject,
    samples: &[SampleWhy],
    alignments: &[Why],
) -> Result<String, AllocError>
    requires { FitsUnknown subject.now samples.now alignments.now }
    ensures { IfOk result
        (λ text. string_bytes text ≡ undecided_text subject.now samples.now alignments.now) }
{
    let mut text = String::from_str(alloc, "unknown\n")?;
    push_sample_lines(alloc, &mut text, samples)?;
    push_reasons(alloc, &mut text, subject, alignments)?;
    Ok(text)
}

fn lines_of(alloc: Global, subject: &Subject, verdict: &Verdict) -> Result<String, AllocError>
    requires { FitsSubject subject.now verdict.now }
    ensures { IfOk result (λ text. string_bytes text ≡ verdict_text subject.now verdict.now) }
{
    match verdict {
        Verdict::Equivalent { coupled, indexes } => {
            equivalent_text(alloc, subject, coupled, indexes.as_slice())
        }
        Verdict::Different {
            index,
            input,
            first,
            second,
        } => different_text(alloc, *index, input.as_slice(), first, second),
        Verdict::Unknown {
            samples,
            alignments,
        } => undecided_text(alloc, subject, samples.as_slice(), alignments.as_slice()),
    }
}

/// The lines that tell a verdict on the subject's functions. The one error is want of memory.
pub fn verdict_text(
    alloc: Global,
    subject: &Subject,
    verdict: &Verdict,
) -> Result<Vec<u8>, AllocError>
    requires { FitsSubject subject.now verdict.now }
    ensures { IfOk result (λ text. text.items ≡ verdict_text subject.now verdict.now) }
{
    Ok(lines_of(alloc, subject, verdict)?.into_bytes())
}
