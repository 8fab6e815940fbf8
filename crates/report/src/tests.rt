//! The exact bytes.
ghost use Rattle.std.specs.Prelude.{◌≢◌, IfOk, All};
ghost use Rattle.trace_pair.specs.Pairs.{IsCauseOf};
ghost use Rattle.report.specs.Faults.{IsKept};
ghost use Rattle.report.specs.Samples.{IsKeptSample};

use crate::fault::{Fault, fault_text};
use crate::indexes::indexes_text;
use crate::samples::push_sample_lines;
use crate::verdict::different_text;
use c_ast::Side::{self, A, B, Pre};
use c_ast::{Arity, Name};
use c_check::CheckFault;
use c_reader::ReadFault;
use c_tokens::TokenFault;
use graph_run::Skip::{self, NotEnded, Unmet, Wide};
use pool_core::SampleWhy::{self, Equal};
use std::alloc::{AllocError, Global};
use std::test::Fail;
use trace_pair::Skipped;

fn name(alloc: Global, text: &str) -> Result<Name, AllocError> {
    Ok(Name::new(String::from_str(alloc, text)?))
}

fn file(alloc: Global) -> Result<Name, AllocError> {
    name(alloc, "a/b.c")
}

fn told(alloc: Global, bytes: &[u8]) -> Result<String, AllocError> {
    String::from_str(alloc, str::from_utf8(bytes).unwrap_or("?"))
}

fn line(alloc: Global, fault: Fault) -> Result<String, AllocError>
    requires { IsKept fault }
{
    let bytes = fault_text(alloc, &fault)?;
    told(alloc, &bytes)
}

#[test]
fn faults_of_words_and_texts(rt: HostRuntime) -> Result<(), Fail> {
    let alloc = rt.alloc();
    let usage = line(alloc, Fault::Usage)?;
    assert_eq!(rt;
        usage.as_str(),
        "llreve: usage: llreve [options] FIRST SECOND\n"
    );
    let read = line(alloc, Fault::Read(file(alloc)?))?;
    assert_eq!(rt; read.as_str(), "llreve: a/b.c: cannot be read\n");
    let long = line(alloc, Fault::TooLong(file(alloc)?))?;
    assert_eq!(rt; long.as_str(), "llreve: a/b.c: over 65536 bytes\n");
    let deep = line(alloc, Fault::Reader(file(alloc)?, ReadFault::Deep))?;
    assert_eq!(rt; deep.as_str(), "llreve: a/b.c: nested too deep\n");
    let grammar = line(alloc, Fault::Reader(file(alloc)?, ReadFault::Grammar))?;
    assert_eq!(rt; grammar.as_str(), "llreve: a/b.c: not in the grammar\n");
    let arity = line(
        alloc,
        Fault::Arity(Arity {
            first: 1,
            second: 2,
        }),
    )?;
    assert_eq!(rt; arity.as_str(), "llreve: arity 1 and 2\n");
    Ok(())
}

#[test]
fn faults_of_tokens(rt: HostRuntime) -> Result<(), Fail> {
    let alloc = rt.alloc();
    let none = TokenFault::NoToken {
        line: 3,
        column: 14,
    };
    let none = line(alloc, Fault::Token(file(alloc)?, none))?;
    assert_eq!(rt; none.as_str(), "llreve: a/b.c:3:14: no token\n");
    let word = name(alloc, "goto")?;
    let kept = TokenFault::Unsupported {
        word,
        line: 2,
        column: 1,
    };
    let kept = line(alloc, Fault::Token(file(alloc)?, kept))?;
    assert_eq!(rt; kept.as_str(), "llreve: a/b.c:2:1: unsupported goto\n");
    let range = TokenFault::LiteralRange {
        line: 1,
        column: 4294967295,
    };
    let range = line(alloc, Fault::Token(file(alloc)?, range))?;
    assert_eq!(rt;
        range.as_str(),
        "llreve: a/b.c:1:4294967295: literal out of range\n"
    );
    Ok(())
}

fn rule(alloc: Global, fault: CheckFault) -> Result<String, AllocError>
    requires { fault ≢ CheckFault.Memory }
{
    line(alloc, Fault::Check(file(alloc)?, fault))
}

#[test]
fn faults_of_functions(rt: HostRuntime) -> Result<(), Fail> {
    let alloc = rt.alloc();
    let none = rule(alloc, CheckFault::NoFunction)?;
    assert_eq!(rt; none.as_str(), "llreve: a/b.c: no function\n");
    let many = rule(alloc, CheckFault::ManyFunctions(2))?;
    assert_eq!(rt; many.as_str(), "llreve: a/b.c: 2 functions\n");
    let outside = rule(alloc, CheckFault::Outside { line: 7 })?;
    assert_eq!(rt; outside.as_str(), "llreve: a/b.c:7: outside a loop\n");
    let range = rule(alloc, CheckFault::MarkRange(1000000))?;
    assert_eq!(rt;
        range.as_str(),
        "llreve: a/b.c: mark 1000000 out of range\n"
    );
    let twice = rule(alloc, CheckFault::MarkTwice(42))?;
    assert_eq!(rt; twice.as_str(), "llreve: a/b.c: mark 42 twice\n");
    let divisor = rule(alloc, CheckFault::Divisor { line: 1 })?;
    assert_eq!(rt;
        divisor.as_str(),
        "llreve: a/b.c:1: divisor not a nonzero constant\n"
    );
    let variables = rule(alloc, CheckFault::ManyVariables(65))?;
    assert_eq!(rt; variables.as_str(), "llreve: a/b.c: 65 variables\n");
    Ok(())
}

#[test]
fn faults_of_names(rt: HostRuntime) -> Result<(), Fail> {
    let alloc = rt.alloc();
    let undeclared = CheckFault::Undeclared {
        name: name(alloc, "x")?,
        line: 5,
    };
    let undeclared = rule(alloc, undeclared)?;
    assert_eq!(rt; undeclared.as_str(), "llreve: a/b.c:5: undeclared x\n");
    let condition = CheckFault::Undeclared {
        name: name(alloc, "b")?,
        line: 1,
    };
    let condition = line(alloc, Fault::Check(name(alloc, "--pre")?, condition))?;
    assert_eq!(rt; condition.as_str(), "llreve: --pre:1: undeclared b\n");
    let twice = CheckFault::Twice {
        name: name(alloc, "y")?,
        line: 6,
    };
    let twice = rule(alloc, twice)?;
    assert_eq!(rt; twice.as_str(), "llreve: a/b.c:6: declared twice y\n");
    Ok(())
}

#[test]
fn different_functions(rt: HostRuntime) -> Result<(), Fail> {
    let rows: [(u32, &[i128], i128, i128, &str); 3] = [
        (
            0,
            &[],
            7,
            8,
            "different\nsample 0\ninput\nA returns 7\nB returns 8\n",
        ),
        (
            12,
            &[-1],
            -20,
            0,
            "different\nsample 12\ninput -1\nA returns -20\nB returns 0\n",
        ),
        (
            999,
            &[0, -7, 20],
            1,
            -1267650600228229401496703205376,
            "different\nsample 999\ninput 0 -7 20\nA returns 1\n\
            B returns -1267650600228229401496703205376\n",
        ),
    ];
    for (index, input, first, second, text) in rows {
        assert_eq!(rt;
            different_text(rt.alloc(), index, input, &first, &second)?.as_str(),
            text
        );
    }
    Ok(())
}

fn skipped(side: Side, why: Skip) -> SampleWhy
    requires { IsCauseOf side why }
    ensures { IsKeptSample result }
{
    SampleWhy::Skipped(Skipped { side, why })
}

/// A sample as a letter: `A` and `B` have not ended on that side, `a` and `b` are wide there, `P`
/// does not meet the condition, `p` is wide in it, and others are equal.
fn sample(letter: char) -> SampleWhy
    ensures { IsKeptSample result }
{
    match letter {
        'A' => skipped(A, NotEnded),
        'a' => skipped(A, Wide),
        'B' => skipped(B, NotEnded),
        'b' => skipped(B, Wide),
        'P' => skipped(Pre, Unmet),
        'p' => skipped(Pre, Wide),
        _ => Equal,
    }
}

fn samples(alloc: Global, letters: &[char]) -> Result<Vec<SampleWhy>, AllocError>
    ensures { IfOk result (λ samples. All IsKeptSample samples.items) }
{
    let mut samples = Vec::new(alloc);
    for letter in letters {
        samples.push(sample(*letter))?;
    }
    Ok(samples)
}

fn lines(alloc: Global, letters: &[char]) -> Result<String, AllocError> {
    let samples = samples(alloc, letters)?;
    let mut text = String::new(alloc);
    push_sample_lines(alloc, &mut text, &samples)?;
    Ok(text)
}

#[test]
fn samples_that_decide_nothing(rt: HostRuntime) -> Result<(), Fail> {
    let rows: [(&[char], &str); 4] = [
        (&[], ""),
        (
            &['P', 'b', 'p', '=', 'P'],
            "equal 3\nunmet pre 0 4\nwide pre 2\nwide B 1\n",
        ),
        (&['=', '=', 'a', '=', 'a'], "equal 0-1 3\nwide A 2 4\n"),
        (
            &['b', 'B', 'a', 'A', '=', 'b', 'B', 'a', 'a', '='],
            "equal 4 9\nnot-ended A 3\nwide A 2 7-8\nnot-ended B 1 6\nwide B 0 5\n",
        ),
    ];
    for (letters, text) in rows {
        assert_eq!(rt; lines(rt.alloc(), letters)?.as_str(), text);
    }
    Ok(())
}

#[test]
fn lists_of_indexes(rt: HostRuntime) -> Result<(), Fail> {
    let rows: [(&[u32], &str); 8] = [
        (&[], "none"),
        (&[7], "7"),
        (&[0, 1], "0-1"),
        (&[0, 1, 3], "0-1 3"),
        (&[1, 0], "1 0"),
        (&[4, 4], "4 4"),
        (&[0, 1, 2, 3, 4, 5], "0-5"),
        (&[5, 6, 8, 9, 10], "5-6 8-10"),
    ];
    for (indexes, text) in rows {
        assert_eq!(rt; indexes_text(rt.alloc(), indexes)?.as_str(), text);
    }
    Ok(())
}
