//! What is refused, and the line that tells it.
ghost use Rattle.std.specs.Prelude.{◌≡◌, ◌≢◌, IfOk, string_bytes};
ghost use Rattle.report.specs.Faults.{IsKept, fault_text, about};
ghost use Rattle.report.specs.Faults.{token_text, reader_text, check_text, arity_text};

use c_ast::{Arity, Name};
use c_check::CheckFault;
use c_reader::ReadFault;
use c_tokens::TokenFault;
use std::alloc::{AllocError, Global};

/// Why there is no answer. A fault that another one holds is never want of memory. The condition on
/// the inputs has the name of its option where a file has its own.
#[derive(Debug, Drop)]
pub enum Fault {
    /// The words are no command line.
    Usage,
    /// The file of this name could not be read.
    Read(Name),
    /// The file of this name has more than 65,536 bytes.
    TooLong(Name),
    /// The text of this file has a faulty place, and this is its first.
    Token(Name, TokenFault),
    /// The tokens of this file are not in the grammar.
    Reader(Name, ReadFault),
    /// The functions of this file break a rule.
    Check(Name, CheckFault),
    /// The functions have these numbers of parameters, which differ.
    Arity(Arity),
}

/// A line about a file.
fn about(alloc: Global, name: &str, what: &str) -> Result<String, AllocError>
    ensures { IfOk result (λ text. string_bytes text ≡ about name.now what.now) }
{
    format!(in alloc; "llreve: {name}{what}\n")
}

/// The line of a faulty place in a text.
fn token_text(alloc: Global, name: &str, fault: &TokenFault) -> Result<String, AllocError>
    requires { fault.now ≢ TokenFault.Memory }
    ensures { IfOk result (λ text. string_bytes text ≡ token_text name.now fault.now) }
{
    match fault {
        TokenFault::NoToken { line, column } => {
            format!(in alloc; "llreve: {name}:{line}:{column}: no token\n")
        }
        TokenFault::Unsupported { word, line, column } => {
            format!(in alloc;
                "llreve: {name}:{line}:{column}: unsupported {}\n",
                word.text()
            )
        }
        TokenFault::LiteralRange { line, column } => {
            format!(in alloc; "llreve: {name}:{line}:{column}: literal out of range\n")
        }
        TokenFault::Memory => unreachable!(),
    }
}

/// The line of a text that is not in the grammar, or that is nested too deep.
fn reader_text(alloc: Global, name: &str, fault: &ReadFault) -> Result<String, AllocError>
    requires { fault.now ≢ ReadFault.Memory }
    ensures { IfOk result (λ text. string_bytes text ≡ reader_text name.now fault.now) }
{
    match fault {
        ReadFault::Deep => about(alloc, name, ": nested too deep"),
        ReadFault::Grammar => about(alloc, name, ": not in the grammar"),
        ReadFault::Memory => unreachable!(),
    }
}

/// The line of a broken rule on functions, names, loops and marks.
fn check_text(alloc: Global, name: &str, fault: &CheckFault) -> Result<String, AllocError>
    requires { fault.now ≢ CheckFault.Memory }
    ensures { IfOk result (λ text. string_bytes text ≡ check_text name.now fault.now) }
{
    match fault {
        CheckFault::NoFunction => about(alloc, name, ": no function"),
        CheckFault::ManyFunctions(count) => {
            format!(in alloc; "llreve: {name}: {count} functions\n")
        }
        CheckFault::Undeclared { name: word, line } => {
            format!(in alloc; "llreve: {name}:{line}: undeclared {}\n", word.text())
        }
        CheckFault::Twice { name: word, line } => {
            format!(in alloc; "llreve: {name}:{line}: declared twice {}\n", word.text())
        }
        CheckFault::Outside { line } => {
            format!(in alloc; "llreve: {name}:{line}: outside a loop\n")
        }
        CheckFault::MarkRange(mark) => {
            format!(in alloc; "llreve: {name}: mark {mark} out of range\n")
        }
        CheckFault::MarkTwice(mark) => format!(in alloc; "llreve: {name}: mark {mark} twice\n"),
        CheckFault::Divisor { line } => {
            format!(in alloc; "llreve: {name}:{line}: divisor not a nonzero constant\n")
        }
        CheckFault::ManyVariables(count) => {
            format!(in alloc; "llreve: {name}: {count} variables\n")
        }
        CheckFault::Memory => unreachable!(),
    }
}

/// The line of two functions with these numbers of parameters.
fn arity_text(alloc: Global, first: u32, second: u32) -> Result<String, AllocError>
    ensures { IfOk result (λ text. string_bytes text ≡ arity_text first second) }
{
    format!(in alloc; "llreve: arity {first} and {second}\n")
}

/// The line of a fault, as text.
fn line_of(alloc: Global, fault: &Fault) -> Result<String, AllocError>
    requires { IsKept fault.now }
    ensures { IfOk result (λ text. string_bytes text ≡ fault_text fault.now) }
{
    match fault {
        Fault::Usage => String::from_str(alloc, "llreve: usage: llreve [options] FIRST SECOND\n"),
        Fault::Read(name) => about(alloc, name.text(), ": cannot be read"),
        Fault::TooLong(name) => about(alloc, name.text(), ": over 65536 bytes"),
        Fault::Token(name, fault) => token_text(alloc, name.text(), fault),
        Fault::Reader(name, fault) => reader_text(alloc, name.text(), fault),
        Fault::Check(name, fault) => check_text(alloc, name.text(), fault),
        Fault::Arity(arity) => arity_text(alloc, arity.first, arity.second),
    }
}

/// The line that tells the fault. The one error is want of memory.
pub fn fault_text(alloc: Global, fault: &Fault) -> Result<Vec<u8>, AllocError>
    requires { IsKept fault.now }
    ensures { IfOk result (λ text. text.items ≡ fault_text fault.now) }
{
    Ok(line_of(alloc, fault)?.into_bytes())
}
