//! Texts that grow at random: on each, runs on the graph come to what the interpreter comes to.
use super::runs::{both_ways, function};
use c_ast::Outcome;
use rand_core::utils::NextWord;
use rand_pcg::Lcg64Xsh32;
use std::alloc::{AllocError, Global};
use std::test::Fail;

/// A capital letter stands for a piece that is still to be chosen: S for a statement, T for one
/// within a loop, E for an expression, V for a variable, D for a divisor, N for a small number, and
/// K for a mark. L is a statement without products, and C a condition of one test.
const SEED: &str = "int f(int a,int b){int s=0; int i=0; S S S S return E;}";

const STATEMENTS: [&str; 21] = [
    "V=E;",
    "V+=E;",
    "V-=E;",
    "V*=E;",
    "V/=D;",
    "V%=D;",
    "V++;",
    "--V;",
    "if(E) S",
    "if(E) S else S",
    "{S S}",
    "{int s=E; S __mark(K);}",
    "{int c; c+=E; V=c; S}",
    "__mark(K);",
    "{i=0; while(__mark(K) & (i<N)){i++; T}}",
    "{i=N; while(i){i--; T}}",
    "for(int j=0; __mark(K) & (j<N); j++) T",
    "for(int j=E; j; j/=D) T",
    "for(int j=0; j<N; j++) V*=V;",
    "{i=N; do {i-=2; T} while(__mark(K) && E && i>0);}",
    "if(E) return E;",
];

const TURNS: [&str; 9] = [
    "S",
    "{V*=V; V+=E;}",
    "{S T}",
    "{T S}",
    "if(E) T else T",
    "if(E) break;",
    "if(E) continue;",
    "{S if(E) break; S}",
    "{if(E) continue; S}",
];

const EXPRESSIONS: [&str; 20] = [
    "E + E",
    "E - E",
    "E * E",
    "E / D",
    "E % D",
    "E < E",
    "E <= E",
    "E > E",
    "E >= E",
    "E == E",
    "E != E",
    "E && E",
    "E || E",
    "(E)",
    "- E",
    "+ E",
    "!E",
    "E ? E : E",
    "(E ? E : E)",
    "(E) / D",
];

const LINEAR: [&str; 10] = [
    "V+=V;",
    "V=V-N;",
    "V-=2*V;",
    "V/=D;",
    "V%=D;",
    "if(C) L",
    "if(C) L else L",
    "if(C) return V;",
    "{L L}",
    "{int c=V; __mark(K); s-=c; L}",
];

const TESTS: [&str; 6] = ["V<N", "V>=V", "V==N", "V!=V", "V%D", "V<V && V>=N"];

const OPERANDS: [&str; 10] = [
    "a",
    "b",
    "s",
    "i",
    "a",
    "b",
    "0",
    "1",
    "7",
    "1125899906842623",
];

const VARIABLES: [&str; 4] = ["a", "b", "s", "i"];

const DIVISORS: [&str; 8] = ["2", "3", "-2", "-3", "(7)", "-(4)", "+5", "-1"];

const NUMBERS: [&str; 4] = ["2", "3", "5", "9"];

/// The pieces that a letter stands for. The last ones leave none to be chosen.
fn pieces(letter: char, last: bool) -> &'static [&'static str] {
    match (letter, last) {
        ('S', false) => STATEMENTS.as_slice(),
        ('T', false) => TURNS.as_slice(),
        ('E', false) => EXPRESSIONS.as_slice(),
        ('L', false) => LINEAR.as_slice(),
        ('C', false) => TESTS.as_slice(),
        ('S' | 'T' | 'L', true) => &["s+=i;", ";"],
        ('E', true) => OPERANDS.as_slice(),
        ('C', true) => &["a<b", "s>=i"],
        ('V', true) => VARIABLES.as_slice(),
        ('D', true) => DIVISORS.as_slice(),
        ('N', true) => NUMBERS.as_slice(),
        _ => &[],
    }
}

fn chosen(pieces: &'static [&'static str], dice: &mut Lcg64Xsh32) -> &'static str {
    if pieces.is_empty() {
        return "";
    }
    pieces[dice.next_word() as usize % pieces.len()]
}

/// Writes a piece for the letter, or the letter where it stands for none. The number of a mark is
/// its place in the text, so that none stands twice.
fn push_piece(
    out: &mut String,
    letter: char,
    last: bool,
    dice: &mut Lcg64Xsh32,
) -> Result<(), AllocError> {
    let pieces = pieces(letter, last);
    if letter == 'K' && last {
        let place = out.len();
        write!(out, "{place}")
    } else if pieces.is_empty() {
        out.push(letter)
    } else {
        out.push_str(chosen(pieces, dice))
    }
}

/// The text with a piece for each of its letters.
fn grown(
    alloc: Global,
    text: &str,
    last: bool,
    dice: &mut Lcg64Xsh32,
) -> Result<String, AllocError> {
    let mut out = String::new(alloc);
    for letter in text.chars() {
        push_piece(&mut out, letter, last, dice)?;
    }
    Ok(out)
}

/// The text of the number: pieces are chosen for the letters so many times, and then the last ones.
pub(super) fn text_from(
    alloc: Global,
    seed: &str,
    times: u32,
    number: u64,
) -> Result<String, AllocError> {
    let mut dice = Lcg64Xsh32::new(0, number);
    let mut text = String::from_str(alloc, seed)?;
    for _ in 0..times {
        text = grown(alloc, text.as_str(), false, &mut dice)?;
    }
    grown(alloc, text.as_str(), true, &mut dice)
}

pub(super) fn text_of(alloc: Global, number: u64) -> Result<String, AllocError> {
    text_from(alloc, SEED, 4, number)
}

/// How many runs came to what.
#[derive(Clone, Copy)]
struct Tally {
    returned: u32,
    wide: u32,
    cut_off: u32,
}

fn count(tally: &mut Tally, outcome: &Outcome) {
    let counted = match outcome {
        Outcome::Returned(_) => &mut tally.returned,
        Outcome::Wide => &mut tally.wide,
        Outcome::CutOff => &mut tally.cut_off,
    };
    *counted = counted.saturating_add(1);
}

pub(super) const INPUTS: [[i128; 2]; 4] = [[0, 0], [1, 2], [-3, 8], [13, -6]];

/// Counts the runs of the text, unless one comes to something else on its graph.
fn tries(alloc: Global, text: &str, tally: &mut Tally) -> Result<bool, Fail> {
    let func = function(alloc, text)?;
    for inputs in INPUTS.as_slice() {
        let Some(outcome) = both_ways(alloc, &func, inputs.as_slice())? else {
            return Ok(false);
        };
        count(tally, &outcome);
    }
    Ok(true)
}

#[test]
fn graphs_run_as_the_interpreter_does(rt: HostRuntime) -> Result<(), Fail> {
    let mut tally = Tally {
        returned: 0,
        wide: 0,
        cut_off: 0,
    };
    for number in 0..300 {
        let text = text_of(rt.alloc(), number)?;
        assert!(rt;
            tries(rt.alloc(), text.as_str(), &mut tally)?,
            "{}",
            text.as_str()
        );
    }
    let Tally {
        returned,
        wide,
        cut_off,
    } = tally;
    assert!(rt;
        returned >= 600 && wide >= 20 && cut_off >= 20,
        "{returned} {wide} {cut_off}"
    );
    Ok(())
}
