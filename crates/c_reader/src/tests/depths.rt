//! The limits of depth: 400 levels at each kind of statement, declaration and expression (6.5 to
//! 6.9), and 200 open brackets.
use super::tokens_of;
use crate::expression::read_expression;
use crate::{ReadFault, read_expr, read_unit};
use std::alloc::{AllocError, Global};
use std::test::Fail;

/// Two parts, so many times around a text, between a first part and a last one: the first part, the
/// one in front, the text, the one behind, the last part, and how many times.
type Nest = (
    &'static str,
    &'static str,
    &'static str,
    &'static str,
    &'static str,
    u16,
);

fn push_times(out: &mut String, part: &str, times: u32) -> Result<(), AllocError> {
    for _ in 0..times {
        out.push_str(part)?;
    }
    Ok(())
}

fn push_nest(out: &mut String, nest: &Nest, times: u32) -> Result<(), AllocError> {
    let (first, front, middle, back, last, _) = nest;
    out.push_str(first)?;
    push_times(out, front, times)?;
    out.push_str(middle)?;
    push_times(out, back, times)?;
    out.push_str(last)
}

// The text with its parts so many times around it.
fn text_of(alloc: Global, nest: &Nest, times: u32) -> Result<String, AllocError> {
    let mut out = String::new(alloc);
    push_nest(&mut out, nest, times)?;
    Ok(out)
}

// A function with the text as its body.
fn function_of(alloc: Global, nest: &Nest, times: u32) -> Result<String, AllocError> {
    let mut out = String::from_str(alloc, "int f(int a) {")?;
    push_nest(&mut out, nest, times)?;
    out.push_str("}")?;
    Ok(out)
}

// Why there is none, if memory did not run out.
fn fault_of<T: Drop>(read: Result<T, ReadFault>) -> Result<Option<ReadFault>, AllocError> {
    match read {
        Ok(_) => Ok(None),
        Err(ReadFault::Memory) => Err(AllocError),
        Err(fault) => Ok(Some(fault)),
    }
}

fn function_fault(alloc: Global, nest: &Nest, times: u32) -> Result<Option<ReadFault>, AllocError> {
    let text = function_of(alloc, nest, times)?;
    fault_of(read_unit(alloc, &tokens_of(alloc, text.as_str())?))
}

fn expression_fault(
    alloc: Global,
    nest: &Nest,
    times: u32,
) -> Result<Option<ReadFault>, AllocError> {
    let text = text_of(alloc, nest, times)?;
    fault_of(read_expr(alloc, &tokens_of(alloc, text.as_str())?))
}

/// Functions that are read with so many parts around the text, and refused with one more.
const LIMITS: [Nest; 61] = [
    // Each kind around others.
    ("", "if (a) ", ";", "", "", 398),
    ("", "if (a) ", "; return a;", "", "", 398),
    ("", "if (a) ", ";", " else ;", "", 398),
    ("", "if (a) ; else ", ";", "", "", 398),
    ("", "while (a) ", ";", "", "", 398),
    ("", "while (__mark(1) & a) ", ";", "", "", 398),
    ("", "do ", ";", " while (a);", "", 398),
    ("", "for (;;) ", ";", "", "", 398),
    // Each kind in others.
    ("", "if (a) ", "break;", "", "", 398),
    ("", "if (a) ", "continue;", "", "", 398),
    ("", "if (a) ", "__mark(1);", "", "", 398),
    ("", "if (a) ", "return a;", "", "", 397),
    ("", "if (a) ", "a = a;", "", "", 397),
    ("", "if (a) ", "a += a;", "", "", 396),
    ("", "if (a) ", "a -= a;", "", "", 396),
    ("", "if (a) ", "a *= a;", "", "", 396),
    ("", "if (a) ", "a /= a;", "", "", 396),
    ("", "if (a) ", "a %= a;", "", "", 396),
    ("", "if (a) ", "a++;", "", "", 396),
    ("", "if (a) ", "a--;", "", "", 396),
    ("", "if (a) ", "++a;", "", "", 396),
    ("", "if (a) ", "--a;", "", "", 396),
    ("", "if (a) ", "{}", "", "", 398),
    ("", "if (a) ", "{;}", "", "", 397),
    ("", "if (a) ", "{int b;}", "", "", 397),
    ("", "if (a) ", "{int b, c;}", "", "", 397),
    ("", "if (a) ", "{int b = a;}", "", "", 396),
    ("", "if (a) ", "{int b, c = a;}", "", "", 396),
    ("", "if (a) ", "while (a) ;", "", "", 397),
    ("", "if (a) ", "do ; while (a);", "", "", 397),
    ("", "if (a) ", "for (;;) ;", "", "", 397),
    ("", "if (a) ", "for (int b; ;) ;", "", "", 397),
    ("", "if (a) ", "for (int b = a; ;) ;", "", "", 396),
    ("", "if (a) ", "for (a = a; ;) ;", "", "", 396),
    ("", "if (a) ", "for (a++; ;) ;", "", "", 395),
    ("", "if (a) ", "for (; ; a = a) ;", "", "", 396),
    ("", "if (a) ", "for (; ; a++) ;", "", "", 395),
    // Expressions of signs in each place.
    ("return ", "- ", "a", "", ";", 397),
    ("a = ", "- ", "a", "", ";", 397),
    ("a += ", "- ", "a", "", ";", 396),
    ("a -= ", "- ", "a", "", ";", 396),
    ("a *= ", "- ", "a", "", ";", 396),
    ("a /= ", "- ", "a", "", ";", 396),
    ("a %= ", "- ", "a", "", ";", 396),
    ("int b = ", "- ", "a", "", ";", 397),
    ("int b = ", "- ", "a", "", ", c;", 397),
    ("int b, c = ", "- ", "a", "", ";", 397),
    ("{int b = ", "- ", "a", "", ";}", 396),
    ("if (", "- ", "a", "", ") ;", 397),
    ("if (", "- ", "a", "", ") ; else ;", 397),
    ("while (", "- ", "a", "", ") ;", 397),
    ("while (__mark(1) & ", "- ", "a", "", ") ;", 397),
    ("do ; while (", "- ", "a", "", ");", 397),
    ("do ; while (__mark(1) & ", "- ", "a", "", ");", 397),
    ("for (a = ", "- ", "a", "", "; ;) ;", 396),
    ("for (a += ", "- ", "a", "", "; ;) ;", 395),
    ("for (int b = ", "- ", "a", "", "; ;) ;", 396),
    ("for (; ", "- ", "a", "", ";) ;", 397),
    ("for (; __mark(1) & ", "- ", "a", "", ";) ;", 397),
    ("for (; ; a = ", "- ", "a", "", ") ;", 396),
    ("for (; ; a -= ", "- ", "a", "", ") ;", 395),
];

// The first row at which another number is the limit.
fn first_other(alloc: Global, rows: &[Nest]) -> Result<Option<&'static str>, AllocError> {
    for row in rows {
        let times = u32::from(row.5);
        let read = function_fault(alloc, row, times)?;
        let refused = function_fault(alloc, row, times + 1)?;
        if read.is_some() || refused != Some(ReadFault::Grammar) {
            return Ok(Some(row.2));
        }
    }
    Ok(None)
}

/// A nest, and why it is refused, if it is. A tuple within a tuple would be dear to prove.
type FaultRow = (
    &'static str,
    &'static str,
    &'static str,
    &'static str,
    &'static str,
    u16,
    Option<ReadFault>,
);

/// A nest, and its depth.
type DepthRow = (
    &'static str,
    &'static str,
    &'static str,
    &'static str,
    &'static str,
    u16,
    u32,
);

/// The block of the function is open around the brackets. More than 200 are too many, whatever else
/// is wrong.
const BRACKETS: [FaultRow; 7] = [
    ("", "{", ";", "}", "", 199, None),
    ("", "{", ";", "}", "", 200, Some(ReadFault::Deep)),
    // Brackets that stay open.
    ("return ", "(", "", "", "", 199, Some(ReadFault::Grammar)),
    ("return ", "(", "", "", "", 200, Some(ReadFault::Deep)),
    // A closing before them makes room for one more.
    ("}", "{", "", "", "", 200, Some(ReadFault::Grammar)),
    ("}", "{", "", "", "", 201, Some(ReadFault::Deep)),
    // A list is as deep as the deepest in it.
    ("", ";", "", "", "", 5000, None),
];

/// An expression alone, with its brackets.
const EXPRESSIONS: [FaultRow; 7] = [
    ("", "(", "a", ")", "", 200, None),
    ("", "(", "a", ")", "", 201, Some(ReadFault::Deep)),
    ("", "(", "", "", "", 200, Some(ReadFault::Grammar)),
    ("", "(", "", "", "", 201, Some(ReadFault::Deep)),
    ("", "- ", "a", "", "", 399, None),
    ("", "- ", "a", "", "", 400, Some(ReadFault::Grammar)),
    ("", "", "a", " / 2", "", 400, Some(ReadFault::Grammar)),
];

// The first row with another fault.
fn first_other_fault(
    alloc: Global,
    is_function: bool,
    rows: &[FaultRow],
) -> Result<Option<&'static str>, AllocError> {
    for (first, front, middle, back, last, times, wanted) in rows {
        let nest = (*first, *front, *middle, *back, *last, *times);
        let fault = if is_function {
            function_fault(alloc, &nest, u32::from(*times))?
        } else {
            expression_fault(alloc, &nest, u32::from(*times))?
        };
        if fault != *wanted {
            return Ok(Some(*front));
        }
    }
    Ok(None)
}

/// Expressions with their depths.
const DEPTHS: [DepthRow; 16] = [
    ("", "", "a", "", "", 0, 1),
    ("", "", "a + b", "", "", 0, 2),
    ("", "", "a + b * c", "", "", 0, 3),
    ("", "", "a / b % c", "", "", 0, 3),
    ("", "", "a ? b : -c", "", "", 0, 3),
    // Brackets add nothing.
    ("", "(", "a", ")", "", 200, 1),
    ("", "(", "-a", ")", "", 200, 2),
    // Signs, operations to the left and to the right, and choices.
    ("", "- ", "a", "", "", 399, 400),
    ("", "", "a", " + a", "", 399, 400),
    ("", "a * ", "a", "", "", 399, 400),
    ("", "", "a", " / a", "", 399, 400),
    ("", "a - (", "a", ")", "", 199, 200),
    ("", "- (- ", "a", ")", "", 200, 401),
    ("", "a ? b : ", "a", "", "", 399, 400),
    ("", "a ? ", "a", " : b", "", 399, 400),
    ("", "(a ? a : a + ", "a", ")", "", 199, 399),
];

// The depth of the expression that is a whole text, if it is read in this room.
fn depth_in(alloc: Global, room: u32, text: &str) -> Result<Option<u32>, AllocError> {
    match read_expression(alloc, room, &tokens_of(alloc, text)?) {
        Ok((tree, [])) => Ok(Some(tree.depth)),
        Err(ReadFault::Memory) => Err(AllocError),
        _ => Ok(None),
    }
}

// Whether the expression has this depth, and is read in no less room.
fn has_depth(alloc: Global, nest: &Nest, depth: u32) -> Result<bool, AllocError> {
    let text = text_of(alloc, nest, u32::from(nest.5))?;
    let read = depth_in(alloc, depth, text.as_str())?;
    let refused = depth_in(alloc, depth.saturating_sub(1), text.as_str())?;
    Ok(read == Some(depth) && refused.is_none())
}

fn first_other_depth(alloc: Global, rows: &[DepthRow]) -> Result<Option<&'static str>, AllocError> {
    for (first, front, middle, back, last, times, depth) in rows {
        let nest = (*first, *front, *middle, *back, *last, *times);
        if !has_depth(alloc, &nest, *depth)? {
            return Ok(Some(*middle));
        }
    }
    Ok(None)
}

#[test]
fn depth_is_limited(rt: HostRuntime) -> Result<(), Fail> {
    let alloc = rt.alloc();
    assert_eq!(rt; first_other(alloc, LIMITS.as_slice())?, None);
    assert_eq!(rt; first_other_depth(alloc, DEPTHS.as_slice())?, None);
    Ok(())
}

#[test]
fn open_brackets_are_limited(rt: HostRuntime) -> Result<(), Fail> {
    let alloc = rt.alloc();
    assert_eq!(rt; first_other_fault(alloc, true, BRACKETS.as_slice())?, None);
    assert_eq!(rt;
        first_other_fault(alloc, false, EXPRESSIONS.as_slice())?,
        None
    );
    Ok(())
}

#[test]
fn the_longest_sum_is_refused(rt: HostRuntime) -> Result<(), Fail> {
    let alloc = rt.alloc();
    let sum = expression_fault(alloc, &("", "", "a", "+a", "", 0), 32767)?;
    assert_eq!(rt; sum, Some(ReadFault::Grammar));
    Ok(())
}
