//! Writing an outcome.
ghost use Rattle.std.specs.Prelude.{◌≡◌, All, IfOk, IfErr};
ghost use Rattle.report.specs.Faults.{IsKept};
ghost use Rattle.report.specs.Fits.{FitsSubject};
ghost use Rattle.report.specs.Histories.{IsKeptItem};
ghost use Rattle.llreve_cli.specs.NoVerdict.{IfRefused};
ghost use Rattle.llreve_cli.specs.Change.{change};
ghost use Rattle.llreve_cli.specs.Written.{finding_text};
ghost use Rattle.llreve_cli.specs.Tells.{CanBeTold, TellsJudged};

use crate::judge::{Finding, NoVerdict};
use crate::status::{NO_MEMORY, NOT_WRITTEN, fault_status, verdict_status};
use re_base::{Sink, put_all};
use report::{fault_text, history_text, verdict_text};
use std::alloc::{AllocError, Global};

/// The history's text, where that is asked for, and then the verdict's.
fn finding_text(alloc: Global, finding: &Finding) -> Result<Vec<u8>, AllocError>
    requires { CanBeTold finding.now }
    ensures { IfOk result (λ text. text.items ≡ finding_text finding.now) }
{
    let verdict = verdict_text(alloc, &finding.subject, &finding.solved.verdict)?;
    if !finding.with_history {
        return Ok(verdict);
    }
    let mut text = history_text(alloc, finding.solved.history.as_slice())?;
    text.extend_from_slice(&verdict)?;
    Ok(text)
}

/// Writes what was judged, and answers the status. The memory of the whole text is taken before its
/// first byte goes out.
pub fn tell<O: Sink, E: Sink>(
    alloc: Global,
    judged: &Result<Finding, NoVerdict>,
    out: &mut O,
    err: &mut E,
) -> u8
    requires verdict { IfOk judged.now CanBeTold }
    requires refusal { IfErr judged.now (IfRefused IsKept) }
    ensures { TellsJudged judged.now (change O.Sink out.old out.new) (change E.Sink err.old err.new)
        result }
{
    match judged {
        Ok(finding) => {
            let Ok(text) = finding_text(alloc, finding) else {
                return NO_MEMORY;
            };
            match put_all(out, &text) {
                Ok(()) => verdict_status(&finding.solved.verdict),
                Err(_) => NOT_WRITTEN,
            }
        }
        Err(NoVerdict::Refused(fault)) => {
            let Ok(text) = fault_text(alloc, fault) else {
                return NO_MEMORY;
            };
            match put_all(err, &text) {
                Ok(()) => fault_status(fault),
                Err(_) => NOT_WRITTEN,
            }
        }
        Err(NoVerdict::Memory) => NO_MEMORY,
    }
}
