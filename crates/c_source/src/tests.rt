//! Texts, and what each is read as.
use crate::{TextFault, read_condition, read_function};
use std::alloc::Global;
use std::test::Fail;

// The part that refuses a text.
fn part_of(fault: &TextFault) -> &'static str {
    match fault {
        TextFault::Token(_) => "tokens",
        TextFault::Reader(_) => "reader",
        TextFault::Check(_) => "check",
        TextFault::Memory => "memory",
    }
}

// What reading the text as a function answers.
fn function(alloc: Global, text: &str) -> &'static str {
    if text.len() > 65536 {
        return "long";
    }
    match read_function(alloc, text.as_bytes()) {
        Ok(_) => "read",
        Err(fault) => part_of(&fault),
    }
}

// What reading the text as a condition on the inputs of a function of `a` and `b` answers.
fn condition(alloc: Global, text: &str) -> &'static str {
    if text.len() > 65536 {
        return "long";
    }
    let Ok(func) = read_function(alloc, b"int f(int a,int b){int c=1; return a+b+c;}") else {
        return "no function";
    };
    match read_condition(alloc, text.as_bytes(), &func) {
        Ok(_) => "read",
        Err(fault) => part_of(&fault),
    }
}

#[test]
fn texts_are_read_as_functions(rt: HostRuntime) -> Result<(), Fail> {
    for (text, want) in [
        ("int f(int a){return a / -2;}", "read"),
        ("int f(int a){return a ^ 2;} x", "tokens"),
        ("int f(int a){return b; ", "reader"),
        ("int f(int a){return b;}", "check"),
        ("", "check"),
    ] {
        assert_eq!(rt; function(rt.alloc(), text), want, "{text}");
    }
    Ok(())
}

#[test]
fn texts_are_read_as_conditions(rt: HostRuntime) -> Result<(), Fail> {
    for (text, want) in [
        ("a >= 0 && b % 3", "read"),
        ("1", "read"),
        ("a ? b : -a", "read"),
        ("a @ c", "tokens"),
        ("", "reader"),
        ("c = a", "reader"),
        ("a; b", "reader"),
        ("__mark(1) & a", "reader"),
        // A variable of the body is no parameter.
        ("a + c", "check"),
        ("a / b", "check"),
    ] {
        assert_eq!(rt; condition(rt.alloc(), text), want, "{text}");
    }
    Ok(())
}
