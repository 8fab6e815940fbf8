//! Texts that are refused, and texts that are just within the limits.
use super::{COUPLED, DOUBLE, GIVEN, NAMES, Run, TWICE, USAGE, told_with};
use std::alloc::{AllocError, Global};
use std::test::Fail;

/// The text of the first file, and what is told.
const REFUSED: [(&str, &str); 30] = [
    ("", "3||llreve: A.c: no function\n"),
    ("extern int __mark(int);", "3||llreve: A.c: no function\n"),
    ("x", "3||llreve: A.c: not in the grammar\n"),
    (
        "int f(int a){int x; int y; x = y = 1; return x;}",
        "3||llreve: A.c: not in the grammar\n",
    ),
    (
        "int f(int a){\n  float b; return a;}",
        "3||llreve: A.c:2:3: unsupported float\n",
    ),
    (
        "int f(int a){return \"a\";}",
        "3||llreve: A.c:1:21: no token\n",
    ),
    (
        "int f(int a){return a ^ 2;}",
        "3||llreve: A.c:1:23: unsupported ^\n",
    ),
    (
        "int f(int a){return a / 0;}",
        "3||llreve: A.c:1: divisor not a nonzero constant\n",
    ),
    (
        "int f(int a){a %= 2;\nreturn 1 / (a);}",
        "3||llreve: A.c:2: divisor not a nonzero constant\n",
    ),
    (
        "int f(int a){return 9223372036854775808;}",
        "3||llreve: A.c:1:21: literal out of range\n",
    ),
    (
        "int f(int a){return a;}\nint g(int a){return a;}",
        "3||llreve: A.c: 2 functions\n",
    ),
    (
        "int f(int a){return b;} int g(int a){return a;}",
        "3||llreve: A.c: 2 functions\n",
    ),
    (
        "int f(int a){return b;}",
        "3||llreve: A.c:1: undeclared b\n",
    ),
    (
        "int f(int a){b=1; int b; return a;}",
        "3||llreve: A.c:1: undeclared b\n",
    ),
    (
        "int f(int a){\nreturn b;}",
        "3||llreve: A.c:2: undeclared b\n",
    ),
    (
        "int f(int a,int a){return a;}",
        "3||llreve: A.c:1: declared twice a\n",
    ),
    (
        "int f(int a){int a; return a;}",
        "3||llreve: A.c:1: declared twice a\n",
    ),
    (
        "int f(int a){{int a;}\n{int b; int c,\nb;} return a;}",
        "3||llreve: A.c:3: declared twice b\n",
    ),
    (
        "int f(int a){{int b;} return b;}",
        "3||llreve: A.c:1: undeclared b\n",
    ),
    (
        "int f(int a){for(int i=0;i<a;i++);\nreturn i;}",
        "3||llreve: A.c:2: undeclared i\n",
    ),
    (
        "int f(int a){break; return a;}",
        "3||llreve: A.c:1: outside a loop\n",
    ),
    (
        "int f(int a){\n\nbreak; return a;}",
        "3||llreve: A.c:3: outside a loop\n",
    ),
    (
        "int f(int a){if(a) continue; return a;}",
        "3||llreve: A.c:1: outside a loop\n",
    ),
    (
        "int f(int a){__mark(5); __mark(5); return a;}",
        "3||llreve: A.c: mark 5 twice\n",
    ),
    (
        "int f(int a){__mark(5); while(__mark(5)&&b); return a;}",
        "3||llreve: A.c: mark 5 twice\n",
    ),
    (
        "int f(int a){__mark(1000000); return a;}",
        "3||llreve: A.c: mark 1000000 out of range\n",
    ),
    (
        "int f(int a){__mark(1000000); __mark(1000000); return a;}",
        "3||llreve: A.c: mark 1000000 out of range\n",
    ),
    (
        "int f(int a){for(;b;c++) d=0; return a;}",
        "3||llreve: A.c:1: undeclared b\n",
    ),
    (
        "int f(int a){for(;a;c++) d=0; return a;}",
        "3||llreve: A.c:1: undeclared c\n",
    ),
    (
        "int f(int a){do d=0; while(b); return a;}",
        "3||llreve: A.c:1: undeclared d\n",
    ),
];

#[test]
fn texts_are_refused(rt: HostRuntime) -> Result<(), Fail> {
    for (text, want) in REFUSED.as_slice() {
        let got = Run::on(text, TWICE).told(rt.alloc(), &NAMES)?;
        assert_eq!(rt; got.as_str(), *want, "{text}");
    }
    Ok(())
}

/// The text of this many times the same between a front and a back.
fn repeated(
    alloc: Global,
    front: &str,
    middle: &str,
    times: usize,
    back: &str,
) -> Result<String, AllocError> {
    let mut text = String::from_str(alloc, front)?;
    for _ in 0..times {
        text.push_str(middle)?;
    }
    text.push_str(back)?;
    Ok(text)
}

/// What a function that returns its parameter is told from the constant 2 by.
const DIFFERS: &str = "1|different\nsample 0\ninput 0\nA returns 0\nB returns 2\n|";

const DEEP: &str = "3||llreve: A.c: nested too deep\n";

/// A front, openings, how many, a middle, as many closings, a back, and what is told of the text of
/// these.
type Nest = (
    &'static str,
    &'static str,
    usize,
    &'static str,
    &'static str,
    &'static str,
    &'static str,
);

const NESTS: [Nest; 7] = [
    ("int f(int a){return ", "(", 199, "a", ")", ";}", DIFFERS),
    ("int f(int a){return ", "(", 200, "a", ")", ";}", DEEP),
    ("int f(int a){", "{", 199, "", "}", "return a;}", DIFFERS),
    ("int f(int a){", "{", 200, "", "}", "return a;}", DEEP),
    (
        "int f(int a){",
        "while(a) ",
        398,
        ";",
        "",
        " return a;}",
        DIFFERS,
    ),
    (
        "int f(int a){",
        "if(a) ",
        398,
        ";",
        "",
        " return a;}",
        DIFFERS,
    ),
    (
        "int f(int a){",
        "if(a) ",
        399,
        ";",
        "",
        " return a;}",
        "3||llreve: A.c: not in the grammar\n",
    ),
];

/// What is told of a text and the constant 2.
fn told_of_nest(alloc: Global, nest: &Nest) -> Result<String, AllocError> {
    let (front, opening, times, middle, closing, back, _) = nest;
    let mut text = repeated(alloc, front, opening, *times, middle)?;
    for _ in 0..*times {
        text.push_str(closing)?;
    }
    text.push_str(back)?;
    Run::on(text.as_str(), "int f(int a){return 2;}").told(alloc, &NAMES)
}

#[test]
fn texts_nest_as_deep_as_may_be(rt: HostRuntime) -> Result<(), Fail> {
    for nest in NESTS.as_slice() {
        let got = told_of_nest(rt.alloc(), nest)?;
        assert_eq!(rt; got.as_str(), nest.6, "{} times {}", nest.2, nest.1);
    }
    Ok(())
}

/// One parameter and this many more variables.
fn with_variables(alloc: Global, count: usize) -> Result<String, AllocError> {
    let mut text = String::from_str(alloc, "int f(int a){int v")?;
    for i in 1..count {
        let next = format!(in alloc; ",v{i}")?;
        text.push_str(next.as_str())?;
    }
    text.push_str("; return a;}")?;
    Ok(text)
}

/// How many variables there are besides the parameter, and what is told.
const VARIABLES: [(usize, &str); 2] = [
    (
        63,
        "1|different\nsample 1\ninput 1\nA returns 1\nB returns 2\n|",
    ),
    (64, "3||llreve: A.c: 65 variables\n"),
];

fn told_of_variables(alloc: Global, count: usize) -> Result<String, AllocError> {
    let text = with_variables(alloc, count)?;
    Run::on(text.as_str(), TWICE).told(alloc, &NAMES)
}

#[test]
fn variables_are_counted(rt: HostRuntime) -> Result<(), Fail> {
    for (count, want) in VARIABLES.as_slice() {
        let got = told_of_variables(rt.alloc(), *count)?;
        assert_eq!(rt; got.as_str(), *want, "{count} variables");
    }
    Ok(())
}

/// A text, and a comment up to a length.
fn blown_up(alloc: Global, text: &str, length: usize) -> Result<String, AllocError> {
    let mut out = String::from_str(alloc, text)?;
    out.push_str("/*")?;
    for _ in out.len()..length.saturating_sub(2) {
        out.push('x')?;
    }
    out.push_str("*/")?;
    Ok(out)
}

/// The text of the first file and how long it is blown up, how long the second one is, and what is
/// told.
const LENGTHS: [(&str, usize, usize, &str); 4] = [
    (GIVEN, 65_536, 65_536, COUPLED),
    (GIVEN, 65_537, 65_536, "3||llreve: A.c: over 65536 bytes\n"),
    // Both files are read before a text is parsed.
    (
        "int f(int a){",
        0,
        65_537,
        "3||llreve: B.c: over 65536 bytes\n",
    ),
    (GIVEN, 65_537, 65_537, "3||llreve: A.c: over 65536 bytes\n"),
];

fn told_of_lengths(
    alloc: Global,
    text: &str,
    first: usize,
    second: usize,
) -> Result<String, AllocError> {
    let first = blown_up(alloc, text, first)?;
    let second = blown_up(alloc, GIVEN, second)?;
    Run::on(first.as_str(), second.as_str()).told(alloc, &NAMES)
}

#[test]
fn long_files_are_refused(rt: HostRuntime) -> Result<(), Fail> {
    for (text, first, second, want) in LENGTHS.as_slice() {
        let got = told_of_lengths(rt.alloc(), text, *first, *second)?;
        assert!(rt;
            got.as_str().starts_with(want),
            "{first} and {second} bytes: {got}"
        );
    }
    Ok(())
}

/// Openings, how many, as many closings, and what is told where the condition is 1 between these.
const CONDITIONS: [(&str, usize, &str, &str); 4] = [
    (" ", 4095, "", COUPLED),
    (" ", 4096, "", USAGE),
    ("(", 200, ")", COUPLED),
    ("(", 201, ")", "3||llreve: --pre: nested too deep\n"),
];

/// What is told of the two functions that are equivalent, where the condition is this many times
/// the same around 1.
fn conditioned(
    alloc: Global,
    opening: &str,
    times: usize,
    closing: &str,
) -> Result<String, AllocError> {
    let mut text = repeated(alloc, "--pre=", opening, times, "1")?;
    for _ in 0..times {
        text.push_str(closing)?;
    }
    told_with(alloc, DOUBLE, TWICE, &[text.as_str()])
}

#[test]
fn conditions_are_as_long_and_as_deep_as_may_be(rt: HostRuntime) -> Result<(), Fail> {
    for (opening, times, closing, want) in CONDITIONS.as_slice() {
        let got = conditioned(rt.alloc(), opening, *times, closing)?;
        assert!(rt;
            got.as_str().starts_with(want),
            "{times} times {opening}: {got}"
        );
    }
    Ok(())
}
