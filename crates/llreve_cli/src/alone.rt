//! The whole command on one thread.
ghost use Rattle.std.specs.Prelude.{◌≡◌, ◌≢◌, ◌<◌, ◌≤◌, ◌⊎◌};
ghost use Rattle.report.specs.Faults.{fault_text};
ghost use Rattle.report.specs.declared.fault.Fault.{Fault};
ghost use Rattle.report.specs.declared.fault.Fault.TheVariants as fault;
ghost use Rattle.llreve_cli.specs.Outcome.{Outcome, Refused};
ghost use Rattle.llreve_cli.specs.Call.{call};
ghost use Rattle.llreve_cli.specs.Change.{change, Gets, GetsNothing, Fails};
ghost use Rattle.llreve_cli.specs.Leads.{AreComparable, Leads};
ghost use Rattle.llreve_cli.specs.Written.{status_of};
ghost use Rattle.llreve_cli.specs.Tells.{IsTold, Tells};
ghost use Rattle.llreve_cli.specs.Answers.{AreEquivalent, AreDifferent, AreUnknown, text_of};
ghost use Rattle.llreve_cli.specs.Answers.{AreRefused, AreUnread, AreTold, SampleDiffers};
ghost use Rattle.llreve_cli.specs.Answers.{HasCoupling, HidesCoupling, HasOneOutcome};

use crate::judge::judge;
use crate::tell::tell;
use re_base::{Files, Sink};
use std::alloc::Global;

/// Compares the functions of the two files that `words` name on the inputs that meet the condition
/// of `--pre`, all where none is given; writes the verdict, behind its history where `--history`
/// asks for that, and answers the status: 0 equivalent, 1 different, 2 unknown, 3 refused words or
/// input, 4 a file could not be read, 5 a write failed, 6 want of memory. `words` leave out the
/// program's name.
pub fn llreve_alone<F: Files, O: Sink, E: Sink>(
    alloc: Global,
    words: &[String],
    files: &mut F,
    out: &mut O,
    err: &mut E,
) -> u8
    // Unless memory ran out, the words and the files lead to an outcome, and that is what is told:
    // a verdict that is justified, at the end of a legal history, or the first refusal.
    ensures answer { result ≢ 6 → (outcome : Outcome)
        × Leads (call F.Files words.now files.old files.new) outcome
        × Tells outcome (change O.Sink out.old out.new) (change E.Sink err.old err.new) result }
    ensures statuses { result ≤ 6 }

    // Status 0 means that a family couples the two functions, so no input that meets the condition
    // makes them return differently.
    ensures equivalent { result ≡ 0
        → (e : AreEquivalent (call F.Files words.now files.old files.new))
        × Gets (change O.Sink out.old out.new) (text_of e.compared) }

    // Status 1 tells the first sample whose input meets the condition and on which both return, and
    // differently.
    ensures different { result ≡ 1
        → (d : AreDifferent (call F.Files words.now files.old files.new))
        × Gets (change O.Sink out.old out.new) (text_of d.compared) }

    // Status 2 tells why each sample decides nothing, and why each alignment has no coupling.
    ensures unknown { result ≡ 2 → (u : AreUnknown (call F.Files words.now files.old files.new))
        × Gets (change O.Sink out.old out.new) (text_of u.compared) }

    // Status 3 tells what is refused, on the errors' output alone.
    ensures refused { result ≡ 3 → (r : AreRefused (call F.Files words.now files.old files.new))
        × GetsNothing (change O.Sink out.old out.new)
        × Gets (change E.Sink err.old err.new) (fault_text r.fault) }

    // Status 4 comes only where reading a file failed, and tells its name there.
    ensures unread { result ≡ 4 → (u : AreUnread (call F.Files words.now files.old files.new))
        × GetsNothing (change O.Sink out.old out.new)
        × Gets (change E.Sink err.old err.new) (fault_text (fault.Read u.name)) }

    // Status 5 comes only where a write failed.
    ensures unwritten { result ≡ 5
        → Fails (change O.Sink out.old out.new) ⊎ Fails (change E.Sink err.old err.new) }

    // Where memory ran out, nothing is written.
    ensures memory { result ≡ 6 → GetsNothing (change O.Sink out.old out.new)
        × GetsNothing (change E.Sink err.old err.new) }

    // Where both texts are told, a refusal that they and the words lead to is what is told, unless
    // a file could not be read, a write failed or memory ran out.
    ensures exact { let asked = call F.Files words.now files.old files.new in AreTold asked
        → (why : Fault) → Leads asked (Refused why) → status_of (Refused why) ≢ 4 → result < 4
        → IsTold (Refused why) (change O.Sink out.old out.new) (change E.Sink err.old err.new)
        result }

    // Where they can be compared, nothing is refused: unless a file could not be read, a write
    // failed or memory ran out there is a verdict.
    ensures compared { let asked = call F.Files words.now files.old files.new in
        AreTold asked → AreComparable asked → result ≢ 3 }

    // That they are different comes wherever some sample tells them apart.
    ensures apart { let asked = call F.Files words.now files.old files.new in
        AreTold asked → SampleDiffers asked → result < 4 → result ≡ 1 }

    // That they are equivalent comes wherever candidates of all pairs couple them, if no limit of
    // an obligation hides it.
    ensures coupled { let asked = call F.Files words.now files.old files.new in
        AreTold asked → (has : HasCoupling asked) → result < 4
        → (result ≡ 0) ⊎ ((result ≡ 2) × (hides : HidesCoupling has)
        × Gets (change O.Sink out.old out.new) (text_of hides.unknown.compared)) }
{
    let judged = judge(alloc, words, files);
    tell(alloc, &judged, out, err)
}

/// A law: what words and told texts lead to is alike, apart from a failed read: one refusal, or
/// verdicts of one kind.
pub fn one_outcome()
    ensures { HasOneOutcome }
{}
