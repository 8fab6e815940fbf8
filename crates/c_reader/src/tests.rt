//! Texts, and what C's grammar makes of them (ISO C11, 6.5 to 6.9).
mod depths;
mod expressions;
mod units;

use crate::ReadFault;
use c_tokens::{Token, tokens};
use expressions::{show_front, show_whole};
use std::alloc::{AllocError, Global};
use units::show_file;

/// What of a text is read.
#[derive(Clone, Copy)]
enum Part {
    /// The expression at its front.
    Front,
    /// The expression that it is.
    Whole,
    /// Its functions.
    File,
}

/// A text, and what is read of it.
type Row = (&'static str, &'static str);

// The tokens of a text. One with a faulty place ends its test.
fn tokens_of(alloc: Global, text: &str) -> Result<Vec<Token>, AllocError> {
    if text.len() > 65536 {
        return Err(AllocError);
    }
    tokens(alloc, text.as_bytes()).map_err(|_| AllocError)
}

fn show_fault(fault: ReadFault, out: &mut String) -> Result<(), AllocError> {
    match fault {
        ReadFault::Deep => out.push_str("Deep"),
        ReadFault::Grammar => out.push_str("Grammar"),
        ReadFault::Memory => Err(AllocError),
    }
}

fn is_right(alloc: Global, part: Part, row: &Row) -> Result<bool, AllocError> {
    let mut out = String::new(alloc);
    match part {
        Part::Front => show_front(alloc, row.0, &mut out)?,
        Part::Whole => show_whole(alloc, row.0, &mut out)?,
        Part::File => show_file(alloc, row.0, &mut out)?,
    }
    Ok(out.as_str() == row.1)
}

// The first text of which something else is read.
fn first_wrong(
    alloc: Global,
    part: Part,
    rows: &[Row],
) -> Result<Option<&'static str>, AllocError> {
    for row in rows {
        if !is_right(alloc, part, row)? {
            return Ok(Some(row.0));
        }
    }
    Ok(None)
}
