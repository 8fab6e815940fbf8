//! From the words and the files to the outcome.
ghost use Rattle.std.specs.Prelude.{◌≡◌, ◌≢◌, ℕ, ◌≤◌, List, length, map, codes, string_bytes};
ghost use Rattle.std.specs.Prelude.{Some, IfOk, IfErr, MatchResult};
ghost use Rattle.c_ast.specs.declared.expr.Expr.{Expr};
ghost use Rattle.c_ast.specs.Comparison.{IsCondition, comparison};
ghost use Rattle.command_line.specs.CommandLine.{IsCommand};
ghost use Rattle.c_source.specs.Reads.{Reads};
ghost use Rattle.c_source.specs.ReadsCondition.{ReadsCondition};
ghost use Rattle.llreve_cli.specs.Call.{call};
ghost use Rattle.llreve_cli.specs.Leads.{IsRead, IsGivenCondition, IsFindingOn, arities};
ghost use Rattle.llreve_cli.specs.Leads.{RefusesRead, RefusesText, RefusesCondition, RefusesGiven};
ghost use Rattle.llreve_cli.specs.NoVerdict.{IfRefused};
ghost use Rattle.llreve_cli.specs.Judged.{IsSubject, RefusesWords, RefusesSubject, Judges};

use c_ast::{Arity, Expr, Func, Name, Settings, Subject};
use c_source::{TextFault, read_condition, read_function};
use command_line::{Command, ConditionText, NoCommand, read_command};
use re_base::{FileFault, Files};
use report::Fault;
use std::alloc::{AllocError, Global};
use workers::{Solved, solve_alone};

/// What is found of the two functions that the words name.
#[derive(Debug, Drop)]
pub struct Finding {
    pub subject: Subject,
    /// Whether the words ask for the history.
    pub with_history: bool,
    pub solved: Solved,
}

/// Why there is no verdict.
#[derive(Debug, Drop)]
pub enum NoVerdict {
    /// The words or the files are refused.
    Refused(Fault),
    /// Memory ran out.
    Memory,
}

impl From<AllocError> for NoVerdict {
    ghost use Rattle.std.specs.Prelude.{◌≡◌};
    ghost use Rattle.llreve_cli.specs.declared.judge.NoVerdict.TheVariants.{Memory};

    ghost from_gives = { λ _ why. why ≡ Memory };

    fn from(_: AllocError) -> NoVerdict {
        NoVerdict::Memory
    }
}

// What the words say.
fn read_words(alloc: Global, words: &[String]) -> Result<Command, NoVerdict>
    ensures command { IfOk result (IsCommand (map string_bytes words.now)) }
    ensures refused { IfErr result (IfRefused (RefusesWords (map string_bytes words.now))) }
{
    match read_command(alloc, words) {
        Ok(command) => Ok(command),
        Err(NoCommand::Usage) => Err(NoVerdict::Refused(Fault::Usage)),
        Err(NoCommand::Memory) => Err(NoVerdict::Memory),
    }
}

// All bytes of a file.
fn read_file<F: Files>(alloc: Global, files: &mut F, name: &Name) -> Result<Vec<u8>, NoVerdict>
    ensures told { (n : List ℕ) → F.text files.new n ≡ F.text files.old n }
    ensures later { (n : List ℕ) → F.faults files.old n ≤ F.faults files.new n }
    ensures read { IfOk result (λ bytes. IsRead (F.text files.old name.now) bytes.items) }
    ensures refused { IfErr result (IfRefused
        (RefusesRead (F.text files.old) (F.faults files.old) (F.faults files.new) name.now)) }
{
    match files.read(alloc, name.text()) {
        Ok(bytes) => Ok(bytes),
        Err(FileFault::Failed) => Err(NoVerdict::Refused(Fault::Read(name.copy()?))),
        Err(FileFault::TooLong) => Err(NoVerdict::Refused(Fault::TooLong(name.copy()?))),
        Err(FileFault::Memory) => Err(NoVerdict::Memory),
    }
}

// The function of a file's text.
fn read_func(alloc: Global, name: &Name, text: &[u8]) -> Result<Func, NoVerdict>
    requires { length text.now ≤ 65536 }
    ensures read { IfOk result (Reads text.now) }
    ensures refused { IfErr result (IfRefused (RefusesText name.now text.now)) }
{
    match read_function(alloc, text) {
        Ok(func) => Ok(func),
        Err(TextFault::Token(fault)) => Err(NoVerdict::Refused(Fault::Token(name.copy()?, fault))),
        Err(TextFault::Reader(fault)) => Err(NoVerdict::Refused(Fault::Reader(
            name.copy()?,
            fault,
        ))),
        Err(TextFault::Check(fault)) => Err(NoVerdict::Refused(Fault::Check(name.copy()?, fault))),
        Err(TextFault::Memory) => Err(NoVerdict::Memory),
    }
}

// The name that stands for a file's in the faults of a condition.
fn option_name(alloc: Global) -> Result<Name, AllocError>
    ensures { IfOk result (λ name. name ≡ codes "--pre") }
{
    Ok(Name::new(String::from_str(alloc, "--pre")?))
}

// The condition of the option's text, over the parameters of the function.
fn read_pre(alloc: Global, text: &ConditionText, func: &Func) -> Result<Expr, NoVerdict>
    ensures read { IfOk result (ReadsCondition func.now text.now) }
    ensures formed { IfOk result (IsCondition func.now) }
    ensures refused { IfErr result (IfRefused (RefusesCondition func.now text.now)) }
{
    let name = option_name(alloc)?;
    match read_condition(alloc, text.text().as_bytes(), func) {
        Ok(condition) => Ok(condition),
        Err(TextFault::Token(fault)) => Err(NoVerdict::Refused(Fault::Token(name, fault))),
        Err(TextFault::Reader(fault)) => Err(NoVerdict::Refused(Fault::Reader(name, fault))),
        Err(TextFault::Check(fault)) => Err(NoVerdict::Refused(Fault::Check(name, fault))),
        Err(TextFault::Memory) => Err(NoVerdict::Memory),
    }
}

// The condition that is given, if one is.
fn read_given(
    alloc: Global,
    text: &Option<ConditionText>,
    func: &Func,
) -> Result<Option<Expr>, NoVerdict>
    ensures read { IfOk result (IsGivenCondition func.now text.now) }
    ensures formed { IfOk result
        (λ condition. (given : Expr) → condition ≡ Some given → IsCondition func.now given) }
    ensures refused { IfErr result (IfRefused (RefusesGiven func.now text.now)) }
{
    match text {
        None => Ok(None),
        Some(text) => match read_pre(alloc, text, func) {
            Ok(condition) => Ok(Some(condition)),
            Err(why) => Err(why),
        },
    }
}

// The subject of these parts, unless the numbers of parameters differ.
fn subject_with(
    first: Func,
    second: Func,
    settings: Settings,
    condition: Option<Expr>,
) -> Result<Subject, Arity>
    requires { (given : Expr) → condition ≡ Some given → IsCondition first given }
    ensures { MatchResult result
        (λ subject. (first.params ≡ second.params)
        × (subject ≡ comparison first second settings condition))
        (λ arity. (first.params ≢ second.params) × (arity ≡ arities first second)) }
{
    match condition {
        None => Subject::new(first, second, settings),
        Some(condition) => Subject::with_condition(first, second, settings, condition),
    }
}

// The subject of both functions under the command: their numbers of parameters are compared before
// the condition is read.
fn subject_of(
    alloc: Global,
    first: Func,
    second: Func,
    command: &Command,
) -> Result<Subject, NoVerdict>
    ensures subject { IfOk result (IsSubject first second command.now) }
    ensures refused { IfErr result (IfRefused (RefusesSubject first second command.now.condition)) }
{
    let arity = Arity {
        first: first.params(),
        second: second.params(),
    };
    if arity.first != arity.second {
        return Err(NoVerdict::Refused(Fault::Arity(arity)));
    }
    let condition = match read_given(alloc, &command.condition, &first) {
        Ok(condition) => condition,
        Err(why) => return Err(why),
    };
    match subject_with(first, second, command.settings, condition) {
        Ok(subject) => Ok(subject),
        Err(arity) => Err(NoVerdict::Refused(Fault::Arity(arity))),
    }
}

// What one worker alone finds of the subject's functions.
fn compare(alloc: Global, subject: Subject, with_history: bool) -> Result<Finding, AllocError>
    ensures { IfOk result (IsFindingOn subject with_history) }
{
    // What holds of each subject.
    let _ = subject.first();
    let solved = solve_alone(alloc, &subject)?;
    Ok(Finding {
        subject,
        with_history,
        solved,
    })
}

/// What the words and the files lead to. The words are judged first, then each file is read, then
/// the texts are parsed in turn, then the numbers of parameters and the condition are judged, and
/// last the functions are compared.
pub fn judge<F: Files>(alloc: Global, words: &[String], files: &mut F) -> Result<Finding, NoVerdict>
    ensures { Judges (call F.Files words.now files.old files.new) result }
{
    let command = read_words(alloc, words)?;
    let first_text = read_file(alloc, files, &command.first)?;
    let second_text = read_file(alloc, files, &command.second)?;
    let first = read_func(alloc, &command.first, &first_text)?;
    let second = read_func(alloc, &command.second, &second_text)?;
    let subject = subject_of(alloc, first, second, &command)?;
    Ok(compare(alloc, subject, command.history)?)
}
