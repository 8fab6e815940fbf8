//! Products of two functions, worked out by hand.
use super::paths::{put_form, put_row};
use super::runs::function;
use alignment::Alignment;
use c_ast::Place;
use flow_graph::{Graph, build};
use horn_clauses::{Clause, Node, Product};
use path_product::{ProductLimit, product, product_under};
use std::alloc::{AllocError, Global};
use std::test::Fail;

fn put_place(out: &mut String, place: Place) -> Result<(), AllocError> {
    match place {
        Place::Entry => out.push_str("E"),
        Place::Mark(mark) => write!(out, "{mark}"),
        Place::Exit => out.push_str("X"),
    }
}

fn put_node(out: &mut String, node: Node) -> Result<(), AllocError> {
    put_place(out, node.0)?;
    out.push_str("/")?;
    put_place(out, node.1)
}

/// The node, the rows, the node that is met, and the forms there.
fn put_clause(out: &mut String, clause: &Clause) -> Result<(), AllocError> {
    put_node(out, clause.from)?;
    out.push_str(": ")?;
    for row in clause.rows.as_slice() {
        put_row(out, row)?;
    }
    put_node(out, clause.to)?;
    for form in clause.after.as_slice() {
        put_form(out, form)?;
    }
    out.push_str("\n")
}

fn put_nodes(out: &mut String, nodes: &[Node]) -> Result<(), AllocError> {
    for (i, node) in nodes.iter().enumerate() {
        if i > 0 {
            out.push_str(" ")?;
        }
        put_node(out, *node)?;
    }
    out.push_str("\n")
}

/// The nodes, and then a line for each clause.
fn told(alloc: Global, made: &Result<Product, ProductLimit>) -> Result<String, AllocError> {
    let mut out = String::new(alloc);
    match made {
        Ok(product) => {
            put_nodes(&mut out, product.nodes.as_slice())?;
            for clause in product.clauses.as_slice() {
                put_clause(&mut out, clause)?;
            }
        }
        Err(limit) => write!(out, "{limit:?}")?,
    }
    Ok(out)
}

/// How many nodes and clauses there are, or the limit.
fn counted(alloc: Global, made: &Result<Product, ProductLimit>) -> Result<String, AllocError> {
    let mut out = String::new(alloc);
    match made {
        Ok(product) => write!(
            out,
            "{} nodes, {} clauses",
            product.nodes.len(),
            product.clauses.len()
        )?,
        Err(limit) => write!(out, "{limit:?}")?,
    }
    Ok(out)
}

pub(super) fn alignment_of(number: u32) -> Result<Alignment, Fail> {
    for alignment in Alignment::named() {
        if alignment.number() == number {
            return Ok(alignment);
        }
    }
    Err("no such alignment".into())
}

/// The product under the condition that the text's function returns; no text is no condition.
fn made_under(
    alloc: Global,
    first: &Graph,
    second: &Graph,
    condition: &str,
    alignment: Alignment,
) -> Result<Result<Product, ProductLimit>, Fail> {
    if condition.is_empty() {
        return Ok(product(alloc, first, second, alignment));
    }
    let func = function(alloc, condition)?;
    match func.returned() {
        Some(expr) if func.params() == first.params() => {
            Ok(product_under(alloc, first, second, Some(expr), alignment))
        }
        _ => Err("no condition".into()),
    }
}

pub(super) fn made(
    alloc: Global,
    first: &str,
    second: &str,
    condition: &str,
    alignment: Alignment,
) -> Result<Result<Product, ProductLimit>, Fail> {
    let first = build(alloc, &function(alloc, first)?)?;
    let second = build(alloc, &function(alloc, second)?)?;
    made_under(alloc, &first, &second, condition, alignment)
}

/// Two texts, a condition, the number of an alignment, and the product.
#[rattlefmt::skip]
const ROWS: [(&str, &str, &str, u32, &str); 4] = [
    (
        "int f(int n){int i=0; int s=0; while(__mark(42) & (i<n)){s=s+i; i=i+1;} return s;}",
        "int f(int n){int i=1; int s=0; while(__mark(42) & (i<n)){s=s+i; i=i+1;} return s;}",
        "",
        1,
        "E/E 42/42 42/X X/42 X/X\n\
        E/E: 42/42 1 0 0, 0 0 0, 0 0 0, 0 1 0, 0 0 1, 0 0 0,\n\
        42/42: 1 -1 0 0 0 0 -1 >= 0; 0 0 0 1 -1 0 -1 >= 0; 42/42 1 0 0 0 0 0 0, 0 1 0 0 0 0 1, \
        0 1 1 0 0 0 0, 0 0 0 1 0 0 0, 0 0 0 0 1 0 1, 0 0 0 0 1 1 0,\n\
        42/42: 1 -1 0 0 0 0 -1 >= 0; 0 0 0 -1 1 0 0 >= 0; 42/X 1 0 0 0 0 0 0, 0 1 0 0 0 0 1, 0 \
        1 1 0 0 0 0, 0 0 0 0 0 1 0,\n\
        42/42: -1 1 0 0 0 0 0 >= 0; 0 0 0 1 -1 0 -1 >= 0; X/42 0 0 1 0 0 0 0, 0 0 0 1 0 0 0, 0 \
        0 0 0 1 0 1, 0 0 0 0 1 1 0,\n\
        42/42: -1 1 0 0 0 0 0 >= 0; 0 0 0 -1 1 0 0 >= 0; X/X 0 0 1 0 0 0 0, 0 0 0 0 0 1 0,\n\
        42/X: 1 -1 0 0 -1 >= 0; 42/X 1 0 0 0 0, 0 1 0 0 1, 0 1 1 0 0, 0 0 0 1 0,\n\
        42/X: -1 1 0 0 0 >= 0; X/X 0 0 1 0 0, 0 0 0 1 0,\n\
        X/42: 0 1 -1 0 -1 >= 0; X/42 1 0 0 0 0, 0 1 0 0 0, 0 0 1 0 1, 0 0 1 1 0,\n\
        X/42: 0 -1 1 0 0 >= 0; X/X 1 0 0 0 0, 0 0 0 1 0,\n",
    ),
    // Side A leaves the loop after one or two segments of a move.
    (
        "int f(int n){int i=0; int s=0; while(__mark(42) & (i<n)){s=s+i; i=i+1;} return s;}",
        "int f(int n){int i=0; int s=0; while(__mark(42) & (i+1<n)){s=s+i; s=s+i+1; i=i+2;} \
        if(i<n) s=s+i; return s;}",
        "",
        7,
        "E/E 42/42 42/X X/42 X/X\n\
        E/E: 42/42 1 0 0, 0 0 0, 0 0 0, 0 1 0, 0 0 0, 0 0 0,\n\
        42/42: 1 -1 0 0 0 0 -1 >= 0; 1 -1 0 0 0 0 -2 >= 0; 0 0 0 1 -1 0 -2 >= 0; 42/42 1 0 0 0 \
        0 0 0, 0 1 0 0 0 0 2, 0 2 1 0 0 0 1, 0 0 0 1 0 0 0, 0 0 0 0 1 0 2, 0 0 0 0 2 1 1,\n\
        42/42: 1 -1 0 0 0 0 -1 >= 0; 1 -1 0 0 0 0 -2 >= 0; 0 0 0 -1 1 0 1 >= 0; 0 0 0 1 -1 0 \
        -1 >= 0; 42/X 1 0 0 0 0 0 0, 0 1 0 0 0 0 2, 0 2 1 0 0 0 1, 0 0 0 0 1 1 0,\n\
        42/42: 1 -1 0 0 0 0 -1 >= 0; 1 -1 0 0 0 0 -2 >= 0; 0 0 0 -1 1 0 1 >= 0; 0 0 0 -1 1 0 0 \
        >= 0; 42/X 1 0 0 0 0 0 0, 0 1 0 0 0 0 2, 0 2 1 0 0 0 1, 0 0 0 0 0 1 0,\n\
        42/42: 1 -1 0 0 0 0 -1 >= 0; -1 1 0 0 0 0 1 >= 0; 0 0 0 1 -1 0 -2 >= 0; X/42 0 1 1 0 0 \
        0 0, 0 0 0 1 0 0 0, 0 0 0 0 1 0 2, 0 0 0 0 2 1 1,\n\
        42/42: 1 -1 0 0 0 0 -1 >= 0; -1 1 0 0 0 0 1 >= 0; 0 0 0 -1 1 0 1 >= 0; 0 0 0 1 -1 0 -1 \
        >= 0; X/X 0 1 1 0 0 0 0, 0 0 0 0 1 1 0,\n\
        42/42: 1 -1 0 0 0 0 -1 >= 0; -1 1 0 0 0 0 1 >= 0; 0 0 0 -1 1 0 1 >= 0; 0 0 0 -1 1 0 0 \
        >= 0; X/X 0 1 1 0 0 0 0, 0 0 0 0 0 1 0,\n\
        42/42: -1 1 0 0 0 0 0 >= 0; 0 0 0 1 -1 0 -2 >= 0; X/42 0 0 1 0 0 0 0, 0 0 0 1 0 0 0, 0 \
        0 0 0 1 0 2, 0 0 0 0 2 1 1,\n\
        42/42: -1 1 0 0 0 0 0 >= 0; 0 0 0 -1 1 0 1 >= 0; 0 0 0 1 -1 0 -1 >= 0; X/X 0 0 1 0 0 0 \
        0, 0 0 0 0 1 1 0,\n\
        42/42: -1 1 0 0 0 0 0 >= 0; 0 0 0 -1 1 0 1 >= 0; 0 0 0 -1 1 0 0 >= 0; X/X 0 0 1 0 0 0 \
        0, 0 0 0 0 0 1 0,\n\
        42/X: 1 -1 0 0 -1 >= 0; 42/X 1 0 0 0 0, 0 1 0 0 1, 0 1 1 0 0, 0 0 0 1 0,\n\
        42/X: -1 1 0 0 0 >= 0; X/X 0 0 1 0 0, 0 0 0 1 0,\n\
        X/42: 0 1 -1 0 -2 >= 0; X/42 1 0 0 0 0, 0 1 0 0 0, 0 0 1 0 2, 0 0 2 1 1,\n\
        X/42: 0 -1 1 0 1 >= 0; 0 1 -1 0 -1 >= 0; X/X 1 0 0 0 0, 0 0 1 1 0,\n\
        X/42: 0 -1 1 0 1 >= 0; 0 -1 1 0 0 >= 0; X/X 1 0 0 0 0, 0 0 0 1 0,\n",
    ),
    // The condition's row comes first.
    (
        "int f(int a){return a;}",
        "int f(int a){if (a < 0) return -a; return a;}",
        "int f(int a){return a >= 0;}",
        5,
        "E/E X/X\n\
        E/E: 1 0 0 >= 0; 0 -1 -1 >= 0; X/X 1 0 0, 0 -1 0,\n\
        E/E: 1 0 0 >= 0; 0 1 0 >= 0; X/X 1 0 0, 0 1 0,\n",
    ),
    ("int f(int a){return a;}", "int f(int a){return -a;}", "", 12, "E/E X/X\n\
        E/E: X/X 1 0 0, 0 -1 0,\n"),
];

#[test]
fn products_are_those_that_were_worked_out(rt: HostRuntime) -> Result<(), Fail> {
    for (first, second, condition, number, want) in ROWS.as_slice() {
        let alignment = alignment_of(*number)?;
        let made = made(rt.alloc(), first, second, condition, alignment)?;
        assert_eq!(rt;
            told(rt.alloc(), &made)?.as_str(),
            *want,
            "{first} {second}"
        );
    }
    Ok(())
}

/// Two texts, a condition, and the first limit, or how much there is, under each alignment.
#[rattlefmt::skip]
const ALL: [(&str, &str, &str, &str); 9] = [
    (
        "int f(int a){return 9223372036854775807;}",
        "int f(int a){return 9223372036854775807;}",
        "",
        "AtPlace { side: A, place: Entry, limit: WideForm }",
    ),
    (
        "int f(int x){int i=0; while(__mark(3) & (i<60)){x=x*x; i=i+1;} return x;}",
        "int f(int x){return x;}",
        "",
        "AtPlace { side: A, place: Mark(3), limit: NonLinear }",
    ),
    // Side A's places come before side B's, and these before all nodes.
    (
        "int f(int x){while(__mark(3) & (x<60)){x=x*x;} return x;}",
        "int f(int x){return 9223372036854775807;}",
        "",
        "AtPlace { side: A, place: Mark(3), limit: NonLinear }",
    ),
    (
        "int f(int a,int b,int c,int d,int e,int g,int h,int i,int j){return a;}",
        "int f(int a,int b,int c,int d,int e,int g,int h,int i,int j){return a*b;}",
        "",
        "AtPlace { side: B, place: Entry, limit: NonLinear }",
    ),
    (
        "int f(int a,int b,int c,int d,int e,int g,int h,int i,int j){return a;}",
        "int f(int a,int b,int c,int d,int e,int g,int h,int i,int j){return a;}",
        "",
        "ManyVariables(Node(Entry, Entry))",
    ),
    (
        "int f(int a,int b,int c,int d,int e,int g,int h,int i){return a;}",
        "int f(int a,int b,int c,int d,int e,int g,int h,int i){return a;}",
        "",
        "2 nodes, 1 clauses",
    ),
    // The condition comes before both sides.
    (
        "int f(int a){return a;}",
        "int f(int a){return a;}",
        "int f(int a){return a * a > 3;}",
        "AtPre(NonLinear)",
    ),
    (
        "int f(int a){return a * a;}",
        "int f(int a){return a;}",
        "int f(int a){return a * 1125899906842624 > 3;}",
        "AtPre(WideForm)",
    ),
    ("int f(int a){return a;}", "int f(int a){return a;}", "int f(int a){return 0;}",
        "2 nodes, 0 clauses"),
];

#[test]
fn limits_are_met_in_their_order(rt: HostRuntime) -> Result<(), Fail> {
    for (first, second, condition, want) in ALL.as_slice() {
        for alignment in Alignment::named() {
            let made = made(rt.alloc(), first, second, condition, alignment)?;
            assert_eq!(rt;
                counted(rt.alloc(), &made)?.as_str(),
                *want,
                "{first} {second}"
            );
        }
    }
    Ok(())
}

/// A function with a statement so many times before its end.
fn repeated(alloc: Global, piece: &str, count: u32) -> Result<String, AllocError> {
    let mut text = String::from_str(alloc, "int f(int a){int r=0; ")?;
    for _ in 0..count {
        text.push_str(piece)?;
    }
    text.push_str("return r;}")?;
    Ok(text)
}

/// A statement, how often it stands in both texts, and what there is, or the limit.
#[rattlefmt::skip]
const COUNTS: [(&str, u32, u32, &str); 8] = [
    ("if(a>0) r++;", 11, 1, "AtPlace { side: A, place: Entry, limit: ManyPaths }"),
    ("if(a>0) r++;", 1, 11, "AtPlace { side: B, place: Entry, limit: ManyPaths }"),
    ("if(a>0) r++;", 10, 1, "ManyPaths(Node(Entry, Entry))"),
    ("if(a>0) r++;", 9, 1, "2 nodes, 1024 clauses"),
    // Each quotient has two cases, by its dividend's sign.
    ("r += a/2;", 17, 17, "AtPlace { side: A, place: Entry, limit: ManyUnknowns }"),
    ("r += a/2;", 9, 8, "ManyUnknowns(Node(Entry, Entry))"),
    ("r += a/2;", 8, 8, "ManyPaths(Node(Entry, Entry))"),
    ("r += a/2;", 5, 5, "2 nodes, 1024 clauses"),
];

#[test]
fn cases_and_unknowns_are_counted(rt: HostRuntime) -> Result<(), Fail> {
    for (piece, first, second, want) in COUNTS.as_slice() {
        let first = repeated(rt.alloc(), piece, *first)?;
        let second = repeated(rt.alloc(), piece, *second)?;
        let made = made(
            rt.alloc(),
            first.as_str(),
            second.as_str(),
            "",
            alignment_of(1)?,
        )?;
        assert_eq!(rt; counted(rt.alloc(), &made)?.as_str(), *want, "{piece}");
    }
    Ok(())
}

/// A text that stands on both sides, the number of an alignment, and what there is.
#[rattlefmt::skip]
const BOTH: [(&str, u32, &str); 3] = [
    (
        "int f(int n){int s=0; for(int i=0; __mark(1) & (i<n); i++){\
        for(int j=0; __mark(2) & (j<i); j++) s++;} return s;}",
        1,
        "10 nodes, 21 clauses",
    ),
    // A break out of both loops.
    (
        "int f(int a){while(__mark(1) & 1){while(__mark(2) & 1){if(a<0) break; a=a-1;} \
        if(a<5) break;} return a;}",
        1,
        "10 nodes, 21 clauses",
    ),
    // From the entries side A takes two segments, and side B one.
    (
        "int f(int n){int i=0; int s=0; while(__mark(42) & (i<n)){s=s+i; i=i+1;} return s;}",
        2,
        "5 nodes, 10 clauses",
    ),
];

#[test]
fn nested_loops_have_these_nodes(rt: HostRuntime) -> Result<(), Fail> {
    for (text, number, want) in BOTH.as_slice() {
        let made = made(rt.alloc(), text, text, "", alignment_of(*number)?)?;
        assert_eq!(rt; counted(rt.alloc(), &made)?.as_str(), *want, "{text}");
    }
    Ok(())
}
