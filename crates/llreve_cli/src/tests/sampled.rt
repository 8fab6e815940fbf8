//! Runs of texts on sample inputs, through the graphs of their functions.
ghost use Rattle.std.specs.Prelude.{◌≡◌, ◌<◌, IfOk};

use super::runs::function;
use super::{FEW, GIVEN, MANY, SKIPPING, SQUARED, SQUARES, STEPPING};
use c_ast::{Pair, Settings, Subject};
use std::alloc::{AllocError, Global};
use std::test::Fail;
use trace_pair::{PairRefused, pair};

/// Both texts' functions, with 100 samples.
pub(super) fn subject(alloc: Global, first: &str, second: &str) -> Result<Subject, Fail>
    ensures { IfOk result (λ subject. subject.settings.samples ≡ 100) }
{
    let first = function(alloc, first)?;
    let second = function(alloc, second)?;
    let settings = Settings::new(100, 64, 4000, 0).unwrap();
    match Subject::new(first, second, settings) {
        Ok(subject) => Ok(subject),
        Err(_) => Err("other parameters".into()),
    }
}

/// Both results, with the number of marks that both runs passed, or what was skipped.
fn shown(alloc: Global, answer: &Result<Pair, PairRefused>) -> Result<String, AllocError> {
    match answer {
        Ok(pair) => {
            let marks = (pair.first.events.len(), pair.second.events.len());
            format!(in alloc;
                "{} {} marks {} {}",
                pair.first.result, pair.second.result, marks.0, marks.1
            )
        }
        Err(PairRefused::Skipped(skipped)) => format!(in alloc;
            "{:?} {:?}",
            skipped.side, skipped.why
        ),
        Err(PairRefused::Memory) => Err(AllocError),
    }
}

fn answered(alloc: Global, subject: &Subject, index: u32) -> Result<String, AllocError>
    requires { index < subject.now.settings.samples }
{
    shown(alloc, &pair(alloc, subject, index))
}

/// What is answered of a sample of the two texts.
fn sampled(alloc: Global, first: &str, second: &str, index: u32) -> Result<String, Fail> {
    if index >= 100 {
        return Err("no such sample".into());
    }
    let subject = subject(alloc, first, second)?;
    Ok(answered(alloc, &subject, index)?)
}

/// Powers of 2 grow wide before 64 marks are passed, and powers of 1 never do.
const POWERS: &str = "int f(int x){int i=0; while(__mark(3) & (i<100)){x=x*x; i=i+1;} return x;}";

/// Two texts, the number of a sample, and what is answered of it.
const PAIRED: [(&str, &str, u32, &str); 20] = [
    (SQUARES, SQUARED, 0, "0 0 marks 61 61"),
    (SQUARES, SQUARED, 1, "1 1 marks 61 61"),
    (SQUARES, SQUARED, 2, "A Wide"),
    (SQUARES, SQUARED, 3, "1 1 marks 61 61"),
    (SQUARES, SQUARED, 4, "A Wide"),
    ("int f(int x){return 1;}", SQUARED, 2, "B Wide"),
    // The bound is on the marks, and side A is judged first.
    (FEW, FEW, 0, "63 63 marks 64 64"),
    (MANY, MANY, 0, "A NotEnded"),
    ("int f(void){return 63;}", MANY, 0, "B NotEnded"),
    (
        "int f(int a){int r=0; if(a>0) if(a>1) r=1; else r=2; return r;}",
        "int f(int a){int r=0; if(a>0){if(a>1) r=1;} else r=2; return r;}",
        0,
        "0 2 marks 0 0",
    ),
    (SKIPPING, STEPPING, 4, "18 18 marks 8 8"),
    (
        "int f(int n){int i=0; do i++; while(i<n); return i;}",
        "int f(int n){int i=1; while(i<n) i++; return i;}",
        4,
        "7 7 marks 7 7",
    ),
    (
        "int f(int a){int x=a; {int x=1; x=5;} return x;}",
        GIVEN,
        4,
        "7 7 marks 0 0",
    ),
    (
        "int f(void){int x = x + 1; return x;}",
        "int f(void){return 1;}",
        0,
        "1 1 marks 0 0",
    ),
    // Each part of an expression counts, also one that C would skip.
    (
        "int f(int a){int b=9223372036854775807; return 0 && b*b;}",
        GIVEN,
        0,
        "A Wide",
    ),
    (
        GIVEN,
        "int f(int a){int b=9223372036854775807; return 1 || b*b;}",
        0,
        "B Wide",
    ),
    (
        GIVEN,
        "int f(int a){int b=9223372036854775807; return 1 ? a : b*b;}",
        0,
        "B Wide",
    ),
    (
        GIVEN,
        "int f(int a){int b=9223372036854775807; return 0 ? b*b : a;}",
        0,
        "B Wide",
    ),
    // Of two causes the one that the run meets first is told.
    (POWERS, POWERS, 2, "A Wide"),
    (POWERS, POWERS, 1, "A NotEnded"),
];

#[test]
fn samples_are_pairs_or_skipped(rt: HostRuntime) -> Result<(), Fail> {
    for (first, second, index, want) in PAIRED.as_slice() {
        let got = sampled(rt.alloc(), first, second, *index)?;
        assert_eq!(rt;
            got.as_str(),
            *want,
            "sample {index} of {first} and {second}"
        );
    }
    Ok(())
}
