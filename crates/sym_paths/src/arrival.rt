//! What the code has for one step of a walk.
use crate::PathLimit;
use lin_terms::{Form, Row};
use sqlite_items::Items;

/// An answer of a test of a form.
#[derive(Debug, Drop)]
pub enum Answer {
    /// The answer, where the row holds, if it needs one.
    Given { row: Option<Row>, answer: bool },
    /// The row is too wide.
    Wide,
}

/// A form that an operator makes.
#[derive(Debug, Drop)]
pub enum Made {
    /// The form, where these rows hold, with so many columns in use.
    Arrives {
        rows: Items<Row>,
        columns: u32,
        form: Form,
    },
    /// A limit is met.
    Stops(PathLimit),
}
