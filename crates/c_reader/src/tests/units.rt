//! Files, with all their braces and brackets (6.7 to 6.9).
use super::expressions::show;
use super::{Part, Row, first_wrong, show_fault, tokens_of};
use crate::read_unit;
use c_ast::{RawCond, RawDeclarator, RawFunc, RawStmt};
use sqlite_items::Boxed;
use std::alloc::{AllocError, Global};
use std::test::Fail;

fn show_condition(cond: &RawCond, out: &mut String) -> Result<(), AllocError> {
    if let Some(mark) = &cond.mark {
        write!(out, "#{mark} ")?;
    }
    show(&cond.cond, out)
}

// The names of a declaration with their lines, each with its initialiser.
fn show_declarators(declarators: &[RawDeclarator], out: &mut String) -> Result<(), AllocError> {
    for (i, declarator) in declarators.iter().enumerate() {
        out.push_str(if i == 0 { "var " } else { ", " })?;
        write!(
            out,
            "{}@{}",
            declarator.var.name.text(),
            declarator.var.line
        )?;
        if let Some(value) = &declarator.initialiser {
            out.push_str(" = ")?;
            show(value, out)?;
        }
    }
    Ok(())
}

#[cycle(shown)]
fn show_part(part: &Option<Boxed<RawStmt>>, out: &mut String) -> Result<(), AllocError> {
    if let Some(stmt) = part {
        show_statement(stmt.get(), out)?;
    }
    Ok(())
}

#[cycle(shown)]
fn show_statements(stmts: &[RawStmt], out: &mut String) -> Result<(), AllocError> {
    out.push_str("{")?;
    for (i, stmt) in stmts.iter().enumerate() {
        out.push_str(if i == 0 { "" } else { " " })?;
        show_statement(stmt, out)?;
        out.push_str(";")?;
    }
    out.push_str("}")
}

// Writes a statement; a loop or a branch has brackets around its parts.
#[cycle(shown)]
fn show_statement(stmt: &RawStmt, out: &mut String) -> Result<(), AllocError> {
    match stmt {
        RawStmt::Declare(declarators) => show_declarators(declarators.as_slice(), out),
        RawStmt::Assign(name, line, value) => {
            write!(out, "{}@{line} = ", name.text())?;
            show(value, out)
        }
        RawStmt::If(cond, first, second) => {
            out.push_str("if ")?;
            show(cond, out)?;
            out.push_str(" [")?;
            show_statement(first.get(), out)?;
            if let Some(second) = second {
                out.push_str("] else [")?;
                show_statement(second.get(), out)?;
            }
            out.push_str("]")
        }
        RawStmt::While(cond, body) => {
            out.push_str("while ")?;
            show_condition(cond, out)?;
            out.push_str(" [")?;
            show_statement(body.get(), out)?;
            out.push_str("]")
        }
        RawStmt::Do(body, cond) => {
            out.push_str("do [")?;
            show_statement(body.get(), out)?;
            out.push_str("] while ")?;
            show_condition(cond, out)
        }
        RawStmt::For(start, cond, step, body) => {
            out.push_str("for (")?;
            show_part(start, out)?;
            out.push_str(" | ")?;
            if let Some(cond) = cond {
                show_condition(cond, out)?;
            }
            out.push_str(" | ")?;
            show_part(step, out)?;
            out.push_str(") [")?;
            show_statement(body.get(), out)?;
            out.push_str("]")
        }
        RawStmt::Break(line) => write!(out, "break@{line}"),
        RawStmt::Continue(line) => write!(out, "continue@{line}"),
        RawStmt::Return(value) => {
            out.push_str("return ")?;
            show(value, out)
        }
        RawStmt::Mark(mark) => write!(out, "#{mark}"),
        RawStmt::Block(stmts) => show_statements(stmts.as_slice(), out),
        RawStmt::Empty => out.push_str("-"),
    }
}

fn show_function(func: &RawFunc, out: &mut String) -> Result<(), AllocError> {
    write!(out, "{}@{}(", func.name.text(), func.line)?;
    for (i, var) in func.params.as_slice().iter().enumerate() {
        out.push_str(if i == 0 { "" } else { ", " })?;
        write!(out, "{}@{}", var.name.text(), var.line)?;
    }
    out.push_str(") ")?;
    show_statements(func.body.as_slice(), out)
}

fn show_functions(funcs: &[RawFunc], out: &mut String) -> Result<(), AllocError> {
    for (i, func) in funcs.iter().enumerate() {
        out.push_str(if i == 0 { "" } else { " " })?;
        show_function(func, out)?;
    }
    Ok(())
}

// Writes the functions of a text.
pub fn show_file(alloc: Global, text: &str, out: &mut String) -> Result<(), AllocError> {
    match read_unit(alloc, &tokens_of(alloc, text)?) {
        Ok(unit) => show_functions(unit.funcs.as_slice(), out),
        Err(fault) => show_fault(fault, out),
    }
}

const FILES: [Row; 44] = [
    // Items.
    ("", ""),
    ("int f() {}", "f@1() {}"),
    ("int f(void) {} int g() {}", "f@1() {} g@1() {}"),
    ("extern static int f() {}", "f@1() {}"),
    ("int __mark(int);", ""),
    ("extern int __mark(int k); int f() {}", "f@1() {}"),
    ("static long __mark(long long int k);", ""),
    ("int f(int a, long\nb) {}", "f@1(a@1, b@2) {}"),
    ("int\nf\n() {}", "f@2() {}"),
    // Types.
    (
        "long f(long int a, long long b, long long int c) {}",
        "f@1(a@1, b@1, c@1) {}",
    ),
    (
        "long int f() { long long x; long int y; }",
        "f@1() {var x@1; var y@1;}",
    ),
    // Declarations.
    ("int f() { int x; }", "f@1() {var x@1;}"),
    (
        "int f() { int x = 1, y,\nz = x + y; }",
        "f@1() {var x@1 = 1, y@1, z@2 = (x@2 +@2 y@2);}",
    ),
    // Assignments.
    ("int f() { x = y; }", "f@1() {x@1 = y;}"),
    (
        "int f() {\nx += y * 2; }",
        "f@1() {x@2 = (x@2 +@2 (y@2 *@2 2));}",
    ),
    ("int f() { x -= y - z; }", "f@1() {x@1 = (x - (y - z));}"),
    ("int f() { x *= y + z; }", "f@1() {x@1 = (x * (y + z));}"),
    ("int f() { x /= y + z; }", "f@1() {x@1 = (x / (y + z));}"),
    (
        "int f() { x\n%= y ? 1 : 2; }",
        "f@1() {x@1 = (x %@2 (y@2 ? 1 : 2));}",
    ),
    ("int f() { x /= (2); }", "f@1() {x@1 = (x / 2);}"),
    (
        "int f() { x\n++; x--; }",
        "f@1() {x@1 = (x +@2 1); x@2 = (x@2 -@2 1);}",
    ),
    (
        "int f() { ++\nx; --x; }",
        "f@1() {x@2 = (x@2 + 1); x@2 = (x@2 -@2 1);}",
    ),
    (
        "int f() { x -= y ? 1 : 2; }",
        "f@1() {x@1 = (x - (y ? 1 : 2));}",
    ),
    // Statements.
    ("int f() { ; {} {;} }", "f@1() {-; {}; {-;};}"),
    (
        "int f() { return a; return (a); }",
        "f@1() {return a; return a;}",
    ),
    (
        "int f() { break; continue; }",
        "f@1() {break@1; continue@1;}",
    ),
    ("int f() { __mark(7); }", "f@1() {#7;}"),
    ("int f() { if (a) b = 1; }", "f@1() {if a [b@1 = 1];}"),
    (
        "int f() { if (a) ; else { } }",
        "f@1() {if a [-] else [{}];}",
    ),
    (
        "int f() { while (a < b) a++; }",
        "f@1() {while (a < b) [a@1 = (a + 1)];}",
    ),
    (
        "int f() { do a--; while (a); }",
        "f@1() {do [a@1 = (a - 1)] while a;}",
    ),
    (
        "int f() { for (i = 0; i < n; i++) s += i; }",
        "f@1() {for (i@1 = 0 | (i < n) | i@1 = (i + 1)) [s@1 = (s + i)];}",
    ),
    ("int f() { for (;;) ; }", "f@1() {for ( |  | ) [-];}"),
    (
        "int f() { for (int i = 0, j; ; --j) ; }",
        "f@1() {for (var i@1 = 0, j@1 |  | j@1 = (j - 1)) [-];}",
    ),
    // Marks in conditions: the whole rest is the condition.
    (
        "int f() { while (__mark(1) & a) ; }",
        "f@1() {while #1 a [-];}",
    ),
    (
        "int f() { do ; while (__mark(2) && a || b); }",
        "f@1() {do [-] while #2 (a || b);}",
    ),
    (
        "int f() { for (; __mark(3) & (i <= n);) ; }",
        "f@1() {for ( | #3 (i <= n) | ) [-];}",
    ),
    // An `else` belongs to the nearest `if` that has none.
    (
        "int f() { if (a) if (b) ; else ; }",
        "f@1() {if a [if b [-] else [-]];}",
    ),
    (
        "int f() { if (a) if (b) ; else ; else ; }",
        "f@1() {if a [if b [-] else [-]] else [-];}",
    ),
    (
        "int f() { if (a) while (b) if (c) ; else ; }",
        "f@1() {if a [while b [if c [-] else [-]]];}",
    ),
    (
        "int f() { if (a) { if (b) ; } else ; }",
        "f@1() {if a [{if b [-];}] else [-];}",
    ),
    (
        "int f() { if (a) do if (b) ; while (c); else ; }",
        "f@1() {if a [do [if b [-]] while c] else [-];}",
    ),
    (
        "int f() { if (a) for (;;) if (b) ; else ; if (c) ; }",
        "f@1() {if a [for ( |  | ) [if b [-] else [-]]]; if c [-];}",
    ),
    // A file as users write it.
    (
        "#include <assert.h>\nextern int __mark(int);\n/* c */\n\
        int f(int n) { int i = 1; int s = 0; \
        while (__mark(42) & (i <= n)) { s += i; i++; } return s; }\n",
        "f@4(n@4) {var i@4 = 1; var s@4 = 0; while #42 (i@4 <=@4 n@4) [{s@4 = (s@4 +@4 i@4); \
        i@4 = (i@4 +@4 1);}]; return s@4;}",
    ),
];

const REFUSED: [Row; 80] = [
    // Items.
    ("f() {}", "Grammar"),
    ("int f()", "Grammar"),
    ("int f() {", "Grammar"),
    ("int f() {}}", "Grammar"),
    ("int f();", "Grammar"),
    ("int x;", "Grammar"),
    ("int int f() {}", "Grammar"),
    ("int long f() {}", "Grammar"),
    ("long long long f() {}", "Grammar"),
    ("void f() {}", "Grammar"),
    ("int extern f() {}", "Grammar"),
    ("int __mark() {}", "Grammar"),
    ("int __mark(int) {}", "Grammar"),
    ("int __mark(int k)", "Grammar"),
    ("int __mark(k);", "Grammar"),
    ("int __mark(int, int);", "Grammar"),
    ("int __mark(int (k));", "Grammar"),
    ("int f(a) {}", "Grammar"),
    ("int f(int) {}", "Grammar"),
    ("int f(int a int b) {}", "Grammar"),
    ("int f(int a,) {}", "Grammar"),
    ("int f(void, int a) {}", "Grammar"),
    ("int f(void a) {}", "Grammar"),
    ("int f(int __mark) {}", "Grammar"),
    ("int if() {}", "Grammar"),
    // Declarations.
    ("int f() { int; }", "Grammar"),
    ("int f() { int x }", "Grammar"),
    ("int f() { int x y; }", "Grammar"),
    ("int f() { int x, ; }", "Grammar"),
    ("int f() { int x = ; }", "Grammar"),
    ("int f() { int x += 1; }", "Grammar"),
    ("int f() { int x /= 1; }", "Grammar"),
    ("int f() { int x = y = 1; }", "Grammar"),
    ("int f() { static int x; }", "Grammar"),
    ("int f() { if (a) int x; }", "Grammar"),
    // Assignments.
    (
        "int f(int a){int x; int y; x = y = 1; return x;}",
        "Grammar",
    ),
    ("int f() { x; }", "Grammar"),
    ("int f() { x + 1; }", "Grammar"),
    ("int f() { x / 1; }", "Grammar"),
    ("int f() { x /= ; }", "Grammar"),
    ("int f() { x %= y = 1; }", "Grammar"),
    ("int f() { x = 1 }", "Grammar"),
    ("int f() { 1 = x; }", "Grammar"),
    ("int f() { (x) = 1; }", "Grammar"),
    ("int f() { ++x++; }", "Grammar"),
    ("int f() { ++x = 1; }", "Grammar"),
    ("int f() { x++ ++; }", "Grammar"),
    ("int f() { __mark = 1; }", "Grammar"),
    // Statements.
    ("int f() { return; }", "Grammar"),
    ("int f() { return a }", "Grammar"),
    ("int f() { break }", "Grammar"),
    ("int f() { continue 1; }", "Grammar"),
    ("int f() { else ; }", "Grammar"),
    ("int f() { if a ; }", "Grammar"),
    ("int f() { if () ; }", "Grammar"),
    ("int f() { if (a) }", "Grammar"),
    ("int f() { if (a) else ; }", "Grammar"),
    ("int f() { if (a) ; ; else ; }", "Grammar"),
    ("int f() { if (__mark(1) & a) ; }", "Grammar"),
    ("int f() { while () ; }", "Grammar"),
    ("int f() { while (a) }", "Grammar"),
    ("int f() { do ; while (a) }", "Grammar"),
    ("int f() { do while (a); }", "Grammar"),
    ("int f() { do ; }", "Grammar"),
    ("int f() { for (;) ; }", "Grammar"),
    ("int f() { for (; ; ;) ; }", "Grammar"),
    ("int f() { for (a; ;) ; }", "Grammar"),
    ("int f() { for (; ; int i) ; }", "Grammar"),
    ("int f() { for (; ; i) ; }", "Grammar"),
    ("int f() { for (;;) }", "Grammar"),
    ("int f() { __mark(a); }", "Grammar"),
    ("int f() { __mark(1) }", "Grammar"),
    ("int f() { __mark(1) & a; }", "Grammar"),
    ("int f() { __mark 1; }", "Grammar"),
    ("int f() { while (__mark(1)) ; }", "Grammar"),
    ("int f() { while (__mark(1) & ) ; }", "Grammar"),
    ("int f() { while (a & __mark(1)) ; }", "Grammar"),
    ("int f() { while ((__mark(1) & a)) ; }", "Grammar"),
    ("int f() { while (__mark(a) & b) ; }", "Grammar"),
    ("int f() { int g() {} }", "Grammar"),
];

#[test]
fn files_are_read_as_in_c(rt: HostRuntime) -> Result<(), Fail> {
    assert_eq!(rt;
        first_wrong(rt.alloc(), Part::File, FILES.as_slice())?,
        None
    );
    assert_eq!(rt;
        first_wrong(rt.alloc(), Part::File, REFUSED.as_slice())?,
        None
    );
    Ok(())
}
