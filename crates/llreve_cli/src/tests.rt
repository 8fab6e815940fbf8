//! The whole command over files and sinks in memory. A row's right side is the status, and what
//! both sinks hold, or its front as far as the indexes of the samples. `examples/` has whole texts.
mod couplings;
mod families;
mod moves;
mod paths;
mod products;
mod random;
mod refused;
mod results;
mod runs;
mod sampled;
mod steps;

use crate::alone::llreve_alone;
use re_base::{MemFiles, MemSink};
use std::alloc::{AllocError, Global};
use std::test::Fail;

const DOUBLE: &str = "int f(int a){return a+a;}";

const TWICE: &str = "int f(int a){return 2*a;}";

// Two files as users write them.
const USERS_FIRST: &str = "#include <assert.h>
extern int __mark(int);

/* The sum of 1 to n. */
int f(int n) {
    int i = 1;
    int s = 0;
    while (__mark(42) & (i <= n)) {
        s += i;
        i++;
    }
    return s;
}
";

const USERS_SECOND: &str = "#include <assert.h>
extern int __mark(int);

// The same, from 0 on.
int f(int n) {
    int i = 0;
    int s = 0;
    while (__mark(42) & (i < n)) {
        i++;
        s += i;
    }
    return s;
}
";

/// What a run of the command meets: the texts of `A.c` and `B.c`, the numbers of the calls that
/// fail, and how many bytes a call of a sink takes at most.
#[derive(Clone, Copy)]
struct Run<'a> {
    first: &'a str,
    second: &'a str,
    reads: &'a [u32],
    puts: &'a [u32],
    most: usize,
}

const NAMES: [&str; 3] = ["--alone", "A.c", "B.c"];

impl<'a> Run<'a> {
    /// The command on two texts, where nothing fails.
    fn on(first: &'a str, second: &'a str) -> Run<'a> {
        Run {
            first,
            second,
            reads: &[],
            puts: &[],
            most: 4000,
        }
    }

    fn files(&self, alloc: Global) -> Result<MemFiles, AllocError> {
        let mut held = Vec::new(alloc);
        held.push((
            String::from_str(alloc, "A.c")?,
            self.first.as_bytes().to_vec(alloc)?,
        ))?;
        held.push((
            String::from_str(alloc, "B.c")?,
            self.second.as_bytes().to_vec(alloc)?,
        ))?;
        Ok(MemFiles::new(held, self.reads.to_vec(alloc)?))
    }

    /// A sink of either output.
    fn sink(&self, alloc: Global) -> Result<MemSink, AllocError> {
        MemSink::new(alloc, 4000, self.most.max(1), self.puts.to_vec(alloc)?)
    }

    fn told_on(
        &self,
        alloc: Global,
        words: &[String],
        files: &mut MemFiles,
    ) -> Result<String, AllocError> {
        let mut out = self.sink(alloc)?;
        let mut err = self.sink(alloc)?;
        let status = llreve_alone(alloc, words, files, &mut out, &mut err);
        shown(alloc, status, &out, &err)
    }

    /// The status, a bar, what the output holds, a bar, and what the errors' output holds.
    fn told(&self, alloc: Global, words: &[&str]) -> Result<String, AllocError> {
        let mut files = self.files(alloc)?;
        let words = words_of(alloc, words)?;
        self.told_on(alloc, &words, &mut files)
    }
}

fn words_of(alloc: Global, words: &[&str]) -> Result<Vec<String>, AllocError> {
    let mut out = Vec::new(alloc);
    for word in words {
        out.push(String::from_str(alloc, word)?)?;
    }
    Ok(out)
}

fn shown(alloc: Global, status: u8, out: &MemSink, err: &MemSink) -> Result<String, AllocError> {
    let (out, err) = (str::from_utf8(out.bytes()), str::from_utf8(err.bytes()));
    format!(in alloc; "{status}|{}|{}", out.unwrap_or("?"), err.unwrap_or("?"))
}

/// What is told of two texts with these options.
fn told_with(
    alloc: Global,
    first: &str,
    second: &str,
    options: &[&str],
) -> Result<String, AllocError> {
    let mut words = Vec::new(alloc);
    words.extend_from_slice(&NAMES)?;
    words.extend_from_slice(options)?;
    Run::on(first, second).told(alloc, &words)
}

/// Two texts that are equivalent, as all samples are pairs.
const COUPLED: &str = "0|equivalent\nalignment 1\npairs 0-99\nnode ";

/// Two texts with equal results at all samples, of which nothing more is known.
const EQUAL: &str = "2|unknown\nequal 0-99\nalignment 1 ";

// A sum that leaves 3 out, by a `continue` and by a branch.
const SKIPPING: &str =
    "int f(int n){int s=0; for(int i=0; __mark(7) & (i<n); i++){if(i==3) continue; s+=i;} \
    return s;}";

const STEPPING: &str =
    "int f(int n){int s=0; int i=0; while(__mark(7) & (i<n)){if(i!=3) s=s+i; i=i+1;} return s;}";

/// The texts of the two files, and what is told of them.
const COMPARED: [(&str, &str, &str); 24] = [
    (DOUBLE, TWICE, COUPLED),
    (
        "int f(int a){return a-a;}",
        "int g(int b){return 0;}",
        COUPLED,
    ),
    ("int f(void){return 2*3+1;}", "int f(){return 7;}", COUPLED),
    (
        "int f(void){return 010;}",
        "int f(void){return 8;}",
        COUPLED,
    ),
    (
        "int f(int a, int b){\n\treturn 3*a - 2*b - a;\n}\n",
        "int f(int x, int y){ return +(2*(x-y)) ; }",
        COUPLED,
    ),
    (
        "int f(int a){return -a;}",
        "extern long f(long a){return 0-a;}",
        COUPLED,
    ),
    (
        "int f(int a){;return a;}",
        "int f(int a){return a;}",
        COUPLED,
    ),
    (
        "int f(int a){return 1125899906842623;}",
        "int f(int a){return 1125899906842623;}",
        COUPLED,
    ),
    // The least sample that tells the functions apart is told.
    (
        "int f(int a){return a+1;}",
        "int f(int a){return a-1;}",
        "1|different\nsample 0\ninput 0\nA returns 1\nB returns -1\n|",
    ),
    (
        "int f(int a,int b){return a-b;}",
        "int f(int a,int b){return b-a;}",
        "1|different\nsample 1\ninput 1 0\nA returns 1\nB returns -1\n|",
    ),
    (
        "int f(int a){int r=0; if(a>0) if(a>1) r=1; else r=2; return r;}",
        "int f(int a){int r=0; if(a>0){if(a>1) r=1;} else r=2; return r;}",
        "1|different\nsample 0\ninput 0\nA returns 0\nB returns 2\n|",
    ),
    (
        "int f(void){return 1;}",
        "int f(void){return 2;}",
        "1|different\nsample 0\ninput\nA returns 1\nB returns 2\n|",
    ),
    // A difference that no sample meets.
    (
        "int f(int a){return a;}",
        "int f(int a){if (a == 1000) return 0; return a;}",
        EQUAL,
    ),
    (
        "int f(int a){return a*a;}",
        "int f(int a){return a*a;}",
        EQUAL,
    ),
    (
        "int f(int a){return a?a:a;}",
        "int f(int a){return a;}",
        COUPLED,
    ),
    (
        "int f(int a){return 9223372036854775807;}",
        "int f(int a){return 9223372036854775807;}",
        EQUAL,
    ),
    (
        "int f(void){int x = x + 1; return x;}",
        "int f(void){return 1;}",
        COUPLED,
    ),
    (SKIPPING, STEPPING, COUPLED),
    (
        "int f(int n){int i=0; do i++; while(i<n); return i;}",
        "int f(int n){int i=1; while(i<n) i++; return i;}",
        COUPLED,
    ),
    (
        "int f(int a){int x=a; {int x=1; x=5;} return x;}",
        "int f(int a){return a;}",
        COUPLED,
    ),
    (USERS_FIRST, USERS_SECOND, COUPLED),
    (
        "int f(int a){return a;}",
        "int f(int a,int b){return a;}",
        "3||llreve: arity 1 and 2\n",
    ),
    // The texts are judged one after the other, and before the numbers of parameters.
    ("int f(int a){", "'", "3||llreve: A.c: not in the grammar\n"),
    (
        DOUBLE,
        "int f(int a,int b){return c;}",
        "3||llreve: B.c:1: undeclared c\n",
    ),
];

#[test]
fn texts_are_compared(rt: HostRuntime) -> Result<(), Fail> {
    for (first, second, want) in COMPARED.as_slice() {
        let got = Run::on(first, second).told(rt.alloc(), &NAMES)?;
        assert!(rt;
            got.as_str().starts_with(want),
            "{first} and {second}: {got}"
        );
    }
    Ok(())
}

const SQUARES: &str = "int f(int x){int i=0; while(__mark(3) & (i<60)){x=x*x; i=i+1;} return x;}";

const SQUARED: &str = "int f(int x){int i=0; while(__mark(3) & (i<60)){i=i+1; x=x*x;} return x;}";

const WAITING: &str = "int f(int x){while(__mark(3) & x); return 0;}";

const FEW: &str = "int f(void){int i=0; while(__mark(1) & (i<63)) i=i+1; return i;}";

const MANY: &str = "int f(void){int i=0; while(__mark(1) & (i<64)) i=i+1; return i;}";

const OTHER: &str = "int f(int x){if (x < -18) return 1; return 0;}";

const ONE_PAIR: &str = "0|equivalent\nalignment 1\npairs 0\nnode entry entry\nnode 1 1\n";

/// The texts of the two files, the options, and what is told of them.
const SAMPLED: [(&str, &str, &[&str], &str); 9] = [
    (
        SQUARES,
        SQUARED,
        &["--samples", "5"],
        "2|unknown\nequal 0-1 3\nwide A 2 4\nalignment 1 ",
    ),
    (
        "int f(int x){return 1;}",
        SQUARED,
        &["--samples=5"],
        "1|different\nsample 0\ninput 0\nA returns 1\nB returns 0\n|",
    ),
    // No sample that is skipped on a side can tell the functions apart.
    (
        "int f(int x){return 0*x*x;}",
        WAITING,
        &["--samples=5"],
        "0|equivalent\nalignment 1\npairs 0\nnode ",
    ),
    (
        SQUARES,
        WAITING,
        &["--samples=5"],
        "2|unknown\nequal 0\nwide A 2 4\nnot-ended B 1 3\nalignment 1 ",
    ),
    (FEW, FEW, &["--samples=1"], ONE_PAIR),
    (
        MANY,
        MANY,
        &["--samples=1"],
        "2|unknown\nnot-ended A 0\nalignment 1 ",
    ),
    (MANY, MANY, &["--samples=1", "--marks=65"], ONE_PAIR),
    (
        "int f(int x){return 0*x*x;}",
        OTHER,
        &["--samples=9"],
        "2|unknown\nequal 0-8\nalignment 1 ",
    ),
    (
        DOUBLE,
        TWICE,
        &["--rows=1", "--workers=64", "--seed=7"],
        COUPLED,
    ),
];

#[test]
fn samples_are_bounded(rt: HostRuntime) -> Result<(), Fail> {
    for (first, second, options, want) in SAMPLED.as_slice() {
        let got = told_with(rt.alloc(), first, second, options)?;
        assert!(rt;
            got.as_str().starts_with(want),
            "{first} and {second}: {got}"
        );
    }
    Ok(())
}

const GIVEN: &str = "int f(int a){return a;}";

const SIZE: &str = "int f(int a){if (a < 0) return -a; return a;}";

/// No input meets the condition, so nothing tells the functions apart.
const NO_PAIR: &str = "0|equivalent\nalignment 1\npairs none\nnode ";

/// The texts of the two files, the condition, and what is told of them.
const CONDITIONED: [(&str, &str, &str, &str); 15] = [
    (
        GIVEN,
        SIZE,
        "--seed=0",
        "1|different\nsample 3\ninput -1\nA returns -1\nB returns 1\n|",
    ),
    (
        GIVEN,
        SIZE,
        "--pre=a >= 0",
        "0|equivalent\nalignment 1\npairs 0-2 4\nnode ",
    ),
    (
        GIVEN,
        SIZE,
        "--pre=a / 2 == 0 && a",
        "1|different\nsample 3\ninput -1\nA returns -1\nB returns 1\n|",
    ),
    (GIVEN, DOUBLE, "--pre=0", NO_PAIR),
    (
        GIVEN,
        SIZE,
        "--pre=9223372036854775807 * 9223372036854775807",
        "2|unknown\nwide pre 0-4\nalignment 1 ",
    ),
    (DOUBLE, TWICE, "--pre=0", NO_PAIR),
    // The condition is over the first function's parameters, and is read after the arity.
    (
        DOUBLE,
        "int g(int b){return b+b;}",
        "--pre=a",
        "0|equivalent\nalignment 1\npairs 1-4\nnode ",
    ),
    (
        DOUBLE,
        "int f(int a,int b){return a;}",
        "--pre=@",
        "3||llreve: arity 1 and 2\n",
    ),
    (DOUBLE, TWICE, "--pre=@", "3||llreve: --pre:1:1: no token\n"),
    (
        DOUBLE,
        TWICE,
        "--pre=\nb > 0",
        "3||llreve: --pre:2: undeclared b\n",
    ),
    (
        DOUBLE,
        TWICE,
        "--pre=a / 0",
        "3||llreve: --pre:1: divisor not a nonzero constant\n",
    ),
    (
        DOUBLE,
        TWICE,
        "--pre=__mark(1) & (a > 0)",
        "3||llreve: --pre: not in the grammar\n",
    ),
    (
        DOUBLE,
        TWICE,
        "--pre=a = 1",
        "3||llreve: --pre: not in the grammar\n",
    ),
    (
        DOUBLE,
        TWICE,
        "--pre= ",
        "3||llreve: --pre: not in the grammar\n",
    ),
    (
        DOUBLE,
        TWICE,
        "--pre=",
        "3||llreve: usage: llreve [options] FIRST SECOND\n",
    ),
];

#[test]
fn conditions_bound_the_inputs(rt: HostRuntime) -> Result<(), Fail> {
    for (first, second, condition, want) in CONDITIONED.as_slice() {
        let got = told_with(rt.alloc(), first, second, &["--samples=5", condition])?;
        assert!(rt; got.as_str().starts_with(want), "{condition}: {got}");
    }
    Ok(())
}

const SQUARE: &str = "int f(int a){return a * a;}";

/// Conditions with each operator, and which of the inputs 0, 1, 2, -1 and 7 meet them in C, told of
/// two functions that are equal on all and that no family couples.
#[rattlefmt::skip]
const OPERATORS: [(&str, &str); 23] = [
    ("--pre=a * (a - 1)", "2|unknown\nequal 2-4\nunmet pre 0-1\nalignment 1 "),
    ("--pre=a / 2", "2|unknown\nequal 2 4\nunmet pre 0-1 3\nalignment 1 "),
    ("--pre=a / -2 + 1", "2|unknown\nequal 0-1 3-4\nunmet pre 2\nalignment 1 "),
    ("--pre=a % 2", "2|unknown\nequal 1 3-4\nunmet pre 0 2\nalignment 1 "),
    ("--pre=a % -2 == 1", "2|unknown\nequal 1 4\nunmet pre 0 2-3\nalignment 1 "),
    ("--pre=a + 1", "2|unknown\nequal 0-2 4\nunmet pre 3\nalignment 1 "),
    ("--pre=a - 2", "2|unknown\nequal 0-1 3-4\nunmet pre 2\nalignment 1 "),
    ("--pre=a < 1", "2|unknown\nequal 0 3\nunmet pre 1-2 4\nalignment 1 "),
    ("--pre=a <= 1", "2|unknown\nequal 0-1 3\nunmet pre 2 4\nalignment 1 "),
    ("--pre=a > 1", "2|unknown\nequal 2 4\nunmet pre 0-1 3\nalignment 1 "),
    ("--pre=a >= 1", "2|unknown\nequal 1-2 4\nunmet pre 0 3\nalignment 1 "),
    ("--pre=a == 1", "2|unknown\nequal 1\nunmet pre 0 2-4\nalignment 1 "),
    ("--pre=a != 1", "2|unknown\nequal 0 2-4\nunmet pre 1\nalignment 1 "),
    ("--pre=a && a - 1", "2|unknown\nequal 2-4\nunmet pre 0-1\nalignment 1 "),
    ("--pre=a / 2 || a + 1", "2|unknown\nequal 0-2 4\nunmet pre 3\nalignment 1 "),
    ("--pre=!a", "2|unknown\nequal 0\nunmet pre 1-4\nalignment 1 "),
    ("--pre=-a > 0", "2|unknown\nequal 3\nunmet pre 0-2 4\nalignment 1 "),
    ("--pre=+a", "2|unknown\nequal 1-4\nunmet pre 0\nalignment 1 "),
    ("--pre=a ? a - 1 : 1", "2|unknown\nequal 0 2-4\nunmet pre 1\nalignment 1 "),
    ("--pre=(a + 1) * 2", "2|unknown\nequal 0-2 4\nunmet pre 3\nalignment 1 "),
    ("--pre=a + 1 * -2", "2|unknown\nequal 0-1 3-4\nunmet pre 2\nalignment 1 "),
    ("--pre=- -a == +7 || !!a == a", "2|unknown\nequal 0-1 4\nunmet pre 2-3\nalignment 1 "),
    ("--pre=a < 0 || a > 1 && a != 7", "2|unknown\nequal 2-3\nunmet pre 0-1 4\nalignment 1 "),
];

#[test]
fn conditions_have_the_values_of_c(rt: HostRuntime) -> Result<(), Fail> {
    for (condition, want) in OPERATORS.as_slice() {
        let got = told_with(rt.alloc(), SQUARE, SQUARE, &["--samples=5", condition])?;
        assert!(rt; got.as_str().starts_with(want), "{condition}: {got}");
    }
    Ok(())
}

const USAGE: &str = "3||llreve: usage: llreve [options] FIRST SECOND\n";

/// The words, and what is told.
const WORDS: [(&[&str], &str); 13] = [
    (&["A.c", "--alone", "B.c"], COUPLED),
    (&["--seed", "+007", "B.c", "--alone", "--", "A.c"], COUPLED),
    (&["--alone", "A.c", "A.c"], COUPLED),
    (
        &["--alone", "A.c", "make"],
        "4||llreve: make: cannot be read\n",
    ),
    (
        &["--alone", "C.c", "B.c"],
        "4||llreve: C.c: cannot be read\n",
    ),
    (&["--alone", "", "-"], "4||llreve: : cannot be read\n"),
    (&["A.c", "B.c"], USAGE),
    (&["--alone", "A.c"], USAGE),
    (&["--alone", "make", "1"], USAGE),
    (
        &["--alone", "A.c", "B.c", "--history", "--samples=1"],
        "0|history 3\n0 worker 0 pair 0\n1 worker 0 mined 1 alignment 1\n\
        2 worker 0 posted equivalent\nequivalent\n",
    ),
    (&["--alone", "A.c", "B.c", "--history", "--history"], USAGE),
    (&["--alone", "A.c", "B.c", "--samples", "0"], USAGE),
    (
        &["--alone", "C.c", "B.c", "--samples=5", "--samples=5"],
        USAGE,
    ),
];

#[test]
fn words_are_judged_first(rt: HostRuntime) -> Result<(), Fail> {
    for (words, want) in WORDS.as_slice() {
        let got = Run::on(DOUBLE, TWICE).told(rt.alloc(), words)?;
        assert!(rt; got.as_str().starts_with(want), "{words:?}: {got}");
    }
    Ok(())
}

/// The text of the first file, the number of the read that fails, and what is told.
const READS: [(&str, u32, &str); 4] = [
    (DOUBLE, 0, "4||llreve: A.c: cannot be read\n"),
    (DOUBLE, 1, "4||llreve: B.c: cannot be read\n"),
    // Both files are read before a text is parsed.
    ("", 1, "4||llreve: B.c: cannot be read\n"),
    (DOUBLE, 2, COUPLED),
];

/// What is told where the read with this number fails.
fn told_after(alloc: Global, first: &str, read: u32) -> Result<String, AllocError> {
    let failing = [read];
    let run = Run {
        reads: &failing,
        ..Run::on(first, TWICE)
    };
    run.told(alloc, &NAMES)
}

#[test]
fn reads_fail(rt: HostRuntime) -> Result<(), Fail> {
    for (first, read, want) in READS.as_slice() {
        let got = told_after(rt.alloc(), first, *read)?;
        assert!(rt; got.as_str().starts_with(want), "read {read}: {got}");
    }
    Ok(())
}

/// What a run leaves where each call of a sink takes one byte, and the call with this number fails.
fn cut(alloc: Global, first: &str, call: u32) -> Result<String, AllocError> {
    let failing = [call];
    let run = Run {
        puts: &failing,
        most: 1,
        ..Run::on(first, TWICE)
    };
    run.told(alloc, &["--alone", "A.c", "B.c", "--samples=1"])
}

/// The text of the first file, and fronts of what is told on the output and on the errors' output.
const WRITTEN: [(&str, &str, &str); 4] = [
    (
        DOUBLE,
        "equivalent\nalignment 1\npairs 0\nnode entry entry\n  A.a - B.a = 0\nnode exit exit\n",
        "",
    ),
    (
        "int f(int a){return 1;}",
        "different\nsample 0\ninput 0\nA returns 1\nB returns 0\n",
        "",
    ),
    (
        "int f(int a){return a*a;}",
        "unknown\nequal 0\nalignment 1 non-linear A entry\n",
        "",
    ),
    ("", "", "llreve: A.c: no function\n"),
];

/// Whether a run that fails at each letter of a text in turn leaves the letters before it between
/// these bars.
fn leaves_fronts(
    alloc: Global,
    first: &str,
    bars: (&str, &str),
    text: &str,
) -> Result<bool, AllocError> {
    let mut want = String::from_str(alloc, bars.0)?;
    let mut call = 0_u32;
    for letter in text.chars() {
        let left = cut(alloc, first, call)?;
        if left.as_str().strip_suffix(bars.1) != Some(want.as_str()) {
            return Ok(false);
        }
        want.push(letter)?;
        call = call.saturating_add(1);
    }
    Ok(true)
}

#[test]
fn a_failed_write_leaves_a_front(rt: HostRuntime) -> Result<(), Fail> {
    for (first, out, err) in WRITTEN.as_slice() {
        assert!(rt;
            leaves_fronts(rt.alloc(), first, ("5|", "|"), out)?,
            "{first}"
        );
        assert!(rt;
            leaves_fronts(rt.alloc(), first, ("5||", ""), err)?,
            "{first}"
        );
    }
    Ok(())
}
