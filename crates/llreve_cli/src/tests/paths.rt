//! The cases of the segments between places, and of conditions, worked out by hand.
use super::runs::function;
use c_ast::Place;
use flow_graph::{Graph, build};
use lin_terms::{Form, Row};
use sqlite_items::Items;
use std::alloc::{AllocError, Global};
use std::test::Fail;
use sym_paths::{Case, PathLimit, condition_cases, segments};

fn put_numbers(out: &mut String, numbers: &[i64], last: i64) -> Result<(), AllocError> {
    for number in numbers {
        write!(out, "{number} ")?;
    }
    write!(out, "{last}")
}

pub(super) fn put_row(out: &mut String, row: &Row) -> Result<(), AllocError> {
    put_numbers(out, row.coefs.as_slice(), row.constant)?;
    out.push_str(if row.equality { " = 0; " } else { " >= 0; " })
}

pub(super) fn put_form(out: &mut String, form: &Form) -> Result<(), AllocError> {
    out.push_str(" ")?;
    put_numbers(out, form.coefs.as_slice(), form.constant)?;
    out.push_str(",")
}

/// The rows, the place that is met, and the forms there: coefficients first, the constant last.
fn put_case(out: &mut String, case: &Case) -> Result<(), AllocError> {
    for row in case.rows.as_slice() {
        put_row(out, row)?;
    }
    write!(out, "{:?}", case.to)?;
    for form in case.after.as_slice() {
        put_form(out, form)?;
    }
    out.push_str("\n")
}

fn put_cases(out: &mut String, cases: &Result<Vec<Case>, PathLimit>) -> Result<(), AllocError> {
    match cases {
        Ok(cases) => {
            for case in cases {
                put_case(out, case)?;
            }
            Ok(())
        }
        Err(limit) => write!(out, "{limit:?}\n"),
    }
}

/// The cases from each place of the graph but the exit.
fn told(alloc: Global, graph: &Graph) -> Result<String, AllocError> {
    let mut out = String::new(alloc);
    for place in &graph.places(alloc)? {
        match place {
            Place::Exit => {}
            Place::Entry => {
                let cases = segments(alloc, graph, Place::Entry);
                put_cases(&mut out, &cases)?;
            }
            Place::Mark(mark) => {
                let cases = segments(alloc, graph, Place::Mark(*mark));
                put_cases(&mut out, &cases)?;
            }
        }
    }
    Ok(out)
}

/// Texts, and the cases from each of their places but the exit.
#[rattlefmt::skip]
const ROWS: [(&str, &str); 27] = [
    (
        "int f(int n){int i=0; int s=0; while(__mark(42) & (i<n)){s+=i; i++;} return s;}",
        "Mark(42) 1 0, 0 0, 0 0,\n\
        1 -1 0 -1 >= 0; Mark(42) 1 0 0 0, 0 1 0 1, 0 1 1 0,\n\
        -1 1 0 0 >= 0; Exit 0 0 1 0,\n",
    ),
    (
        "int f(int n){int s=0; for(int i=0; __mark(1) & (i<n); i++){\
        for(int j=0; __mark(2) & (j<i); j++) s++;} return s;}",
        "Mark(1) 1 0, 0 0, 0 0,\n\
        1 0 -1 -1 >= 0; Mark(2) 1 0 0 0, 0 1 0 0, 0 0 1 0, 0 0 0 0,\n\
        -1 0 1 0 >= 0; Exit 0 1 0 0,\n\
        0 0 1 -1 -1 >= 0; Mark(2) 1 0 0 0 0, 0 1 0 0 1, 0 0 1 0 0, 0 0 0 1 1,\n\
        0 0 -1 1 0 >= 0; Mark(1) 1 0 0 0 0, 0 1 0 0 0, 0 0 1 0 1,\n",
    ),
    ("int f(int n){while(__mark(3) & 1) n=n+1; return n;}", "Mark(3) 1 0,\nMark(3) 1 1,\n"),
    // Each operator, and each order of its cases.
    (
        "int f(int a,int b){return !(a <= b);}",
        "-1 1 0 >= 0; Exit 0 0 0,\n1 -1 -1 >= 0; Exit 0 0 1,\n",
    ),
    (
        "int f(int a,int b){return -(a > b);}",
        "1 -1 -1 >= 0; Exit 0 0 -1,\n-1 1 0 >= 0; Exit 0 0 0,\n",
    ),
    (
        "int f(int a,int b){return a >= +b;}",
        "1 -1 0 >= 0; Exit 0 0 1,\n-1 1 -1 >= 0; Exit 0 0 0,\n",
    ),
    (
        "int f(int a,int b){return a != b;}",
        "-1 1 -1 >= 0; Exit 0 0 1,\n1 -1 -1 >= 0; Exit 0 0 1,\n1 -1 0 = 0; Exit 0 0 0,\n",
    ),
    (
        "int f(int a,int b){return a == b;}",
        "1 -1 0 = 0; Exit 0 0 1,\n-1 1 -1 >= 0; Exit 0 0 0,\n1 -1 -1 >= 0; Exit 0 0 0,\n",
    ),
    (
        "int f(int a){return !a;}",
        "1 0 = 0; Exit 0 1,\n-1 -1 >= 0; Exit 0 0,\n1 -1 >= 0; Exit 0 0,\n",
    ),
    ("int f(int a,int b){return 2*(a-b)*3 + b*0;}", "Exit 6 -6 0,\n"),
    // What is constant is decided.
    ("int f(int a){return 7*3 + 7/2 - 7%4 + (7<3) + (7>=7)*10 + !7 + -7 + +7;}", "Exit 0 31,\n"),
    ("int f(int a){return (1==1 && 2!=2 || 3<=3) && 4>3 ? a : -a;}", "Exit 1 0,\n"),
    // No whole number is half of 1.
    ("int f(int a){return 2*a == 1;}", "-1 0 >= 0; Exit 0 0,\n1 -1 >= 0; Exit 0 0,\n"),
    (
        "int f(int a,int b){if(a || b) return a-3*b; return 0;}",
        "-1 0 -1 >= 0; Exit 1 -3 0,\n\
        1 0 -1 >= 0; Exit 1 -3 0,\n\
        1 0 0 = 0; 0 -1 -1 >= 0; Exit 1 -3 0,\n\
        1 0 0 = 0; 0 1 -1 >= 0; Exit 1 -3 0,\n\
        1 0 0 = 0; 0 1 0 = 0; Exit 0 0 0,\n",
    ),
    (
        "int f(int a){return a && 1 < 2 ? 1 : a;}",
        "-1 -1 >= 0; Exit 0 1,\n1 -1 >= 0; Exit 0 1,\n1 0 = 0; Exit 1 0,\n",
    ),
    (
        "int f(int a,int b){return a ? b ? 1 : 2 : b ? 3 : 4;}",
        "-1 0 -1 >= 0; 0 -1 -1 >= 0; Exit 0 0 1,\n\
        -1 0 -1 >= 0; 0 1 -1 >= 0; Exit 0 0 1,\n\
        -1 0 -1 >= 0; 0 1 0 = 0; Exit 0 0 2,\n\
        1 0 -1 >= 0; 0 -1 -1 >= 0; Exit 0 0 1,\n\
        1 0 -1 >= 0; 0 1 -1 >= 0; Exit 0 0 1,\n\
        1 0 -1 >= 0; 0 1 0 = 0; Exit 0 0 2,\n\
        1 0 0 = 0; 0 -1 -1 >= 0; Exit 0 0 3,\n\
        1 0 0 = 0; 0 1 -1 >= 0; Exit 0 0 3,\n\
        1 0 0 = 0; 0 1 0 = 0; Exit 0 0 4,\n",
    ),
    // Quotients are unknowns.
    (
        "int f(int a){return a/2;}",
        "1 0 0 >= 0; 1 -2 0 >= 0; -1 2 1 >= 0; Exit 0 1 0,\n\
        -1 0 -1 >= 0; -1 2 0 >= 0; 1 -2 1 >= 0; Exit 0 1 0,\n",
    ),
    (
        "int f(int a){return a%-3;}",
        "1 0 0 >= 0; 1 -3 0 >= 0; -1 3 2 >= 0; Exit 1 -3 0,\n\
        -1 0 -1 >= 0; -1 3 0 >= 0; 1 -3 2 >= 0; Exit 1 -3 0,\n",
    ),
    (
        "int f(int a){return 2*a/-6;}",
        "1 0 0 >= 0; 1 -3 0 >= 0; -1 3 2 >= 0; Exit 0 -1 0,\n\
        -1 0 -1 >= 0; -1 3 0 >= 0; 1 -3 2 >= 0; Exit 0 -1 0,\n",
    ),
    (
        "int f(int a){if(a/2 < 0) return a%2 - 7/2; return a/1 + a%1;}",
        "1 0 0 0 >= 0; 1 -2 0 0 >= 0; -1 2 0 1 >= 0; 0 -1 0 -1 >= 0; \
        1 0 0 0 >= 0; 1 0 -2 0 >= 0; -1 0 2 1 >= 0; Exit 1 0 -2 -3,\n\
        1 0 0 0 >= 0; 1 -2 0 0 >= 0; -1 2 0 1 >= 0; 0 -1 0 -1 >= 0; \
        -1 0 0 -1 >= 0; -1 0 2 0 >= 0; 1 0 -2 1 >= 0; Exit 1 0 -2 -3,\n\
        1 0 0 >= 0; 1 -2 0 >= 0; -1 2 1 >= 0; 0 1 0 >= 0; Exit 1 0 0,\n\
        -1 0 0 -1 >= 0; -1 2 0 0 >= 0; 1 -2 0 1 >= 0; 0 -1 0 -1 >= 0; \
        1 0 0 0 >= 0; 1 0 -2 0 >= 0; -1 0 2 1 >= 0; Exit 1 0 -2 -3,\n\
        -1 0 0 -1 >= 0; -1 2 0 0 >= 0; 1 -2 0 1 >= 0; 0 -1 0 -1 >= 0; \
        -1 0 0 -1 >= 0; -1 0 2 0 >= 0; 1 0 -2 1 >= 0; Exit 1 0 -2 -3,\n\
        -1 0 -1 >= 0; -1 2 0 >= 0; 1 -2 1 >= 0; 0 1 0 >= 0; Exit 1 0 0,\n",
    ),
    ("int f(int a){;}", "Exit 0 0,\n"),
    // The first limit that the walk meets.
    ("int f(int a){if(a<0) return a*a; return a*1125899906842624;}", "NonLinear\n"),
    ("int f(int a){if(a<0) return a*1125899906842624; return a*a;}", "WideForm\n"),
    ("int f(int a){return 9223372036854775807;}", "WideForm\n"),
    // A row is judged before it is divided by 2.
    ("int f(int a){return 2*a + 1125899906842623 < 0;}", "WideForm\n"),
    ("int f(int a){return 2*a + 1125899906842622 < 0;}", "-1 -562949953421312 >= 0; Exit 0 1,\n\
        1 562949953421311 >= 0; Exit 0 0,\n"),
    (
        "int f(int a){int i=0; while(__mark(1) & (i<a/2+a/2+a/2+a/2+a/2+a/2+a/2+a/2+a/2+a/2+a/2+a/2\
        +a/2+a/2+a/2+a/2+a/2)) i++; return i;}",
        "Mark(1) 1 0, 0 0,\nManyUnknowns\n",
    ),
];

#[test]
fn segments_have_the_cases_that_were_worked_out(rt: HostRuntime) -> Result<(), Fail> {
    for (text, want) in ROWS.as_slice() {
        let graph = build(rt.alloc(), &function(rt.alloc(), text)?)?;
        assert_eq!(rt; told(rt.alloc(), &graph)?.as_str(), *want, "{text}");
    }
    Ok(())
}

/// The sum of so many comparisons.
fn comparisons(alloc: Global, count: u32) -> Result<String, AllocError> {
    let mut text = String::from_str(alloc, "int f(int a,int b){return 0")?;
    for _ in 0..count {
        text.push_str(" + (a < b)")?;
    }
    text.push_str(";}")?;
    Ok(text)
}

/// How many cases the function has from its entry, or the limit.
fn counted(alloc: Global, text: &str) -> Result<Result<usize, PathLimit>, Fail> {
    let graph = build(alloc, &function(alloc, text)?)?;
    match segments(alloc, &graph, Place::Entry) {
        Ok(cases) => Ok(Ok(cases.len())),
        Err(limit) => Ok(Err(limit)),
    }
}

#[test]
fn there_are_1024_cases_at_most(rt: HostRuntime) -> Result<(), Fail> {
    let most = comparisons(rt.alloc(), 10)?;
    assert_eq!(rt; counted(rt.alloc(), most.as_str())?, Ok(1024));
    let more = comparisons(rt.alloc(), 11)?;
    assert_eq!(rt;
        counted(rt.alloc(), more.as_str())?,
        Err(PathLimit::ManyPaths)
    );
    Ok(())
}

/// The cases of the condition that the text's function returns.
fn condition(alloc: Global, text: &str) -> Result<Result<Vec<Items<Row>>, PathLimit>, Fail> {
    let func = function(alloc, text)?;
    let arity = func.params();
    match func.returned() {
        Some(expr) if arity <= 64 => Ok(condition_cases(alloc, expr, arity)),
        _ => Err("no condition".into()),
    }
}

/// The rows of each case, or the limit.
fn put_condition(
    out: &mut String,
    cases: &Result<Vec<Items<Row>>, PathLimit>,
) -> Result<(), AllocError> {
    match cases {
        Ok(cases) => {
            for rows in cases {
                for row in rows.as_slice() {
                    put_row(out, row)?;
                }
                out.push_str("holds\n")?;
            }
            Ok(())
        }
        Err(limit) => write!(out, "{limit:?}\n"),
    }
}

/// Conditions, each as a function that returns it, and their cases.
#[rattlefmt::skip]
const CONDITIONS: [(&str, &str); 17] = [
    // What is constant is decided.
    ("int f(int a){return 1;}", "holds\n"),
    ("int f(int a){return 3 - 5;}", "holds\n"),
    ("int f(int a){return 0;}", ""),
    ("int f(int a){return a - a;}", ""),
    // A variable, and what is no test.
    ("int f(int a){return a;}", "-1 -1 >= 0; holds\n1 -1 >= 0; holds\n"),
    ("int f(int a,int b){return 2*a - 4*b + 2;}",
        "-1 2 -2 >= 0; holds\n1 -2 0 >= 0; holds\n"),
    ("int f(int a){return a != 0;}", "-1 -1 >= 0; holds\n1 -1 >= 0; holds\n"),
    ("int f(int a,int b){return a > 0 && b == 2;}", "1 0 -1 >= 0; 0 1 -2 = 0; holds\n"),
    (
        "int f(int a,int b){return a > 0 || b == 2;}",
        "1 0 -1 >= 0; holds\n-1 0 0 >= 0; 0 1 -2 = 0; holds\n",
    ),
    ("int f(int a,int b){return !(a <= b) ? b < 0 : 0;}", "1 -1 -1 >= 0; 0 -1 -1 >= 0; holds\n"),
    // No whole number is half of 1.
    ("int f(int a){return 2*a == 1;}", ""),
    // A quotient is an unknown, and the case of a dividend below 0 stays.
    (
        "int f(int a){return a/2 == 3;}",
        "1 0 0 >= 0; 1 -2 0 >= 0; -1 2 1 >= 0; 0 1 -3 = 0; holds\n\
        -1 0 -1 >= 0; -1 2 0 >= 0; 1 -2 1 >= 0; 0 1 -3 = 0; holds\n",
    ),
    // The first limit that the walk meets.
    ("int f(int a){return a*a > 3;}", "NonLinear\n"),
    ("int f(int a){return a > 0 && a*1125899906842624 > 0 || a*a > 3;}", "WideForm\n"),
    ("int f(int a){return a <= 0 && a*a > 3;}", "NonLinear\n"),
    (
        "int f(int a){return a/2+a/2+a/2+a/2+a/2+a/2+a/2+a/2+a/2+a/2+a/2+a/2+a/2+a/2+a/2+a/2+a/2;}",
        "ManyUnknowns\n",
    ),
    // Of 2,048 ways only those count on which it holds.
    (
        "int f(int a,int b){return \
        (a<b)+(a<b)+(a<b)+(a<b)+(a<b)+(a<b)+(a<b)+(a<b)+(a<b)+(a<b)+(a<b)==11;}",
        "-1 1 -1 >= 0; -1 1 -1 >= 0; -1 1 -1 >= 0; -1 1 -1 >= 0; -1 1 -1 >= 0; -1 1 -1 >= 0; \
        -1 1 -1 >= 0; -1 1 -1 >= 0; -1 1 -1 >= 0; -1 1 -1 >= 0; -1 1 -1 >= 0; holds\n",
    ),
];

#[test]
fn conditions_have_the_cases_that_were_worked_out(rt: HostRuntime) -> Result<(), Fail> {
    for (text, want) in CONDITIONS.as_slice() {
        let mut out = String::new(rt.alloc());
        put_condition(&mut out, &condition(rt.alloc(), text)?)?;
        assert_eq!(rt; out.as_str(), *want, "{text}");
    }
    Ok(())
}

/// How many cases the condition has that so many parameters are not 0, or the limit.
fn counted_nonzero(alloc: Global, count: u32) -> Result<Result<usize, PathLimit>, Fail> {
    let mut text = String::from_str(alloc, "int f(int p")?;
    for number in 1..count {
        write!(text, ",int p{number}")?;
    }
    text.push_str("){return p != 0")?;
    for number in 1..count {
        write!(text, " && p{number} != 0")?;
    }
    text.push_str(";}")?;
    match condition(alloc, text.as_str())? {
        Ok(cases) => Ok(Ok(cases.len())),
        Err(limit) => Ok(Err(limit)),
    }
}

#[test]
fn a_condition_has_1024_cases_at_most(rt: HostRuntime) -> Result<(), Fail> {
    assert_eq!(rt; counted_nonzero(rt.alloc(), 10)?, Ok(1024));
    assert_eq!(rt; counted_nonzero(rt.alloc(), 11)?, Err(PathLimit::ManyPaths));
    Ok(())
}
