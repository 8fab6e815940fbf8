//! Command lines, and what each says.
use crate::{NoCommand, read_command};
use std::alloc::{AllocError, Global};
use std::test::Fail;

// What the words say: the samples, the marks, the rows, the seed, the two names, a condition behind
// `:`, and `+history` where the history is to be told; or `usage`.
fn shown(alloc: Global, words: &[String]) -> Result<String, Fail> {
    let mut out = String::new(alloc);
    match read_command(alloc, words) {
        Ok(command) => {
            let settings = &command.settings;
            let (samples, marks) = (settings.samples(), settings.marks());
            let (rows, seed) = (settings.rows(), settings.seed());
            write!(out, "{samples} {marks} {rows} {seed} ")?;
            write!(out, "{} {}", command.first.text(), command.second.text())?;
            if let Some(condition) = &command.condition {
                write!(out, ":{}", condition.text())?;
            }
            if command.history {
                out.push_str("+history")?;
            }
        }
        Err(NoCommand::Usage) => out.push_str("usage")?,
        Err(NoCommand::Memory) => return Err(AllocError.into()),
    }
    Ok(out)
}

// The words of a line. One space stands between two words, so that an empty word has one on each
// side.
fn words_of(alloc: Global, line: &str) -> Result<Vec<String>, AllocError> {
    let mut words = Vec::new(alloc);
    for word in line.split(' ') {
        words.push(String::from_str(alloc, word)?)?;
    }
    Ok(words)
}

const COMMANDS: [(&str, &str); 43] = [
    // Options before, between and after the names.
    ("--alone A.c B.c", "100 64 4000 0 A.c B.c"),
    ("A.c --alone B.c", "100 64 4000 0 A.c B.c"),
    ("A.c B.c --alone", "100 64 4000 0 A.c B.c"),
    ("--samples 5 --alone A.c B.c", "5 64 4000 0 A.c B.c"),
    ("A.c --marks=9 --alone B.c --rows 8", "100 9 8 0 A.c B.c"),
    (
        "--seed 3 B.c --rows=4 A.c --alone --workers=2",
        "100 64 4 3 B.c A.c",
    ),
    (
        "--samples 1 --marks 2 --rows 3 --seed 4 --workers 5 --alone a b",
        "1 2 3 4 a b",
    ),
    (
        "--workers=5 --seed=4 --rows=3 --marks=2 --samples=1 --alone a b",
        "1 2 3 4 a b",
    ),
    // Values.
    ("--alone a b --samples +7", "7 64 4000 0 a b"),
    ("--alone a b --samples=+7", "7 64 4000 0 a b"),
    ("--alone a b --samples 007", "7 64 4000 0 a b"),
    ("--alone a b --samples=+007", "7 64 4000 0 a b"),
    (
        "--alone a b --seed 000000000000000000000000000012",
        "100 64 4000 12 a b",
    ),
    // The ends of the ranges.
    ("--alone a b --samples 1", "1 64 4000 0 a b"),
    ("--alone a b --samples 1000", "1000 64 4000 0 a b"),
    ("--alone a b --marks 1", "100 1 4000 0 a b"),
    ("--alone a b --marks=250", "100 250 4000 0 a b"),
    ("--alone a b --rows 1", "100 64 1 0 a b"),
    ("--alone a b --rows=4000", "100 64 4000 0 a b"),
    ("--alone a b --workers 1", "100 64 4000 0 a b"),
    ("--alone a b --workers 64", "100 64 4000 0 a b"),
    ("--alone a b --seed 0", "100 64 4000 0 a b"),
    (
        "--alone a b --seed 18446744073709551615",
        "100 64 4000 18446744073709551615 a b",
    ),
    // Conditions.
    ("--alone a b --pre n", "100 64 4000 0 a b:n"),
    ("--pre n>0 --alone a b", "100 64 4000 0 a b:n>0"),
    ("--alone --pre=-n a b", "100 64 4000 0 a b:-n"),
    ("--alone a --pre=a==b b", "100 64 4000 0 a b:a==b"),
    ("--alone a b --pre=--pre", "100 64 4000 0 a b:--pre"),
    // Histories.
    ("--alone --history a b", "100 64 4000 0 a b+history"),
    ("--history a --alone b", "100 64 4000 0 a b+history"),
    (
        "--pre n a b --alone --rows=8 --history",
        "100 64 8 0 a b:n+history",
    ),
    ("--alone -- a --history", "100 64 4000 0 a --history"),
    (
        "--alone --history -- --history --alone",
        "100 64 4000 0 --history --alone+history",
    ),
    ("--alone history b", "100 64 4000 0 history b"),
    // Operands.
    ("--alone - B.c", "100 64 4000 0 - B.c"),
    ("--alone -- -x --alone", "100 64 4000 0 -x --alone"),
    ("--alone A.c -- --", "100 64 4000 0 A.c --"),
    ("--alone A.c B.c --", "100 64 4000 0 A.c B.c"),
    ("--alone  B.c", "100 64 4000 0  B.c"),
    ("--alone ./make B.c", "100 64 4000 0 ./make B.c"),
    ("--alone A.c make", "100 64 4000 0 A.c make"),
    ("--alone makes Make", "100 64 4000 0 makes Make"),
    ("--alone a=b x--alone", "100 64 4000 0 a=b x--alone"),
];

#[test]
fn command_lines_say_this(rt: HostRuntime) -> Result<(), Fail> {
    let alloc = rt.alloc();
    for (line, want) in COMMANDS {
        let words = words_of(alloc, line)?;
        assert_eq!(rt; shown(alloc, &words)?.as_str(), want, "{line}");
    }
    Ok(())
}

const REFUSED: [&str; 74] = [
    // Values that write no number.
    "--alone a b --samples +",
    "--alone a b --samples=+",
    "--alone a b --samples ",
    "--alone a b --samples=",
    "--alone a b --samples -1",
    "--alone a b --samples=-1",
    "--alone a b --samples 1x",
    "--alone a b --samples=++1",
    "--alone a b --samples==5",
    "--alone a b --samples=5=",
    "--alone a b --samples=0x5",
    "--alone a b --samples 5.",
    // Numbers out of their ranges.
    "--alone a b --samples 0",
    "--alone a b --samples 1001",
    "--alone a b --marks 0",
    "--alone a b --marks 251",
    "--alone a b --rows=0",
    "--alone a b --rows 4001",
    "--alone a b --workers 0",
    "--alone a b --workers=65",
    "--alone a b --seed 18446744073709551616",
    "--alone a b --seed 100000000000000000000000000000",
    "--alone a b --samples 4294967297",
    // An option twice.
    "--alone --alone a b",
    "--alone --history --history a b",
    "--alone --history a --history b",
    "--alone a b --samples 5 --samples 5",
    "--alone a b --samples=5 --samples=6",
    "--alone a b --marks=5 --marks 5",
    "--alone a b --rows 5 --rows=5",
    "--alone a b --workers 4 --workers 4",
    "--alone a b --seed 0 --seed=0",
    "--alone a b --pre n --pre n",
    "--alone a b --pre=n --pre n",
    // Values that are missing, or that an option has none of.
    "--alone a b --samples",
    "--alone a b --samples --marks 5",
    "--alone a b --samples -- 5",
    "--alone a b --pre",
    "--alone a b --pre=",
    "--alone a b --pre ",
    "--alone a b --pre -n",
    "--alone a b --pre - --seed=1",
    "--alone= a b",
    "--alone=1 a b",
    "--alone --history= a b",
    "--alone --history=1 a b",
    "--alone a b --samples --history",
    // Words that are no option.
    "--alone a b --sample 5",
    "--alone a b --Samples 5",
    "--alone a b --samples5",
    "--alone a b -samples 5",
    "--alone a b --samples:5",
    "--alone a b --=5",
    "--alone a b --pres n",
    "--alone a b --Pre=n",
    "--alone a b -h",
    "--alone a b --help",
    "--alone a b --histor",
    "--alone a b --History",
    "--alone a b -history",
    "---alone a b",
    // Operands: two, and the first is not `make`.
    "--alone",
    "--alone a",
    "--alone a b c",
    "--alone a b ",
    "--alone -- a b c",
    "--alone make B.c",
    "--alone -- make B.c",
    // `--alone` is missing.
    "",
    "a b",
    "--history a b",
    "-- --alone a",
    "a b -- --alone",
    "A.c -- --samples B.c",
];

#[test]
fn other_words_are_no_command_lines(rt: HostRuntime) -> Result<(), Fail> {
    let alloc = rt.alloc();
    assert_eq!(rt; shown(alloc, &[])?.as_str(), "usage", "no words");
    for line in REFUSED {
        let words = words_of(alloc, line)?;
        assert_eq!(rt; shown(alloc, &words)?.as_str(), "usage", "{line}");
    }
    Ok(())
}

// What is said of a condition with this many bytes.
fn shown_long(alloc: Global, bytes: usize) -> Result<bool, Fail> {
    let mut words = words_of(alloc, "--alone a b --pre")?;
    let mut text = String::new(alloc);
    for _ in 0..bytes {
        text.push_str("1")?;
    }
    words.push(text)?;
    let shown = shown(alloc, &words)?;
    Ok(shown.as_str() != "usage")
}

#[test]
fn conditions_have_4096_bytes_at_most(rt: HostRuntime) -> Result<(), Fail> {
    let alloc = rt.alloc();
    for (bytes, is_read) in [
        (1, true),
        (4095, true),
        (4096, true),
        (4097, false),
        (9000, false),
    ] {
        assert_eq!(rt; shown_long(alloc, bytes)?, is_read, "{bytes}");
    }
    Ok(())
}
