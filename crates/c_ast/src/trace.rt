//! What is kept of a run.
use sqlite_items::Items;

/// A mark that was passed, and the values of the variables in scope there, by rising number.
#[derive(Debug, Drop)]
pub struct Event {
    pub mark: u32,
    pub values: Items<i128>,
}

/// The marks that a run passed, in their order, and its result.
#[derive(Debug, Drop)]
pub struct Trace {
    pub events: Items<Event>,
    pub result: i128,
}

/// What comes of a run that is followed for a number of steps, or up to a number of marks.
#[derive(Debug, Drop)]
pub enum Outcome {
    /// The run ended, and this is its trace.
    Returned(Trace),
    /// A part of an evaluated expression, also one that C would skip, has a value of 2^100 or more
    /// in size.
    Wide,
    /// Neither happened within the steps; or, where marks are limited, one mark more was to be
    /// passed.
    CutOff,
}

/// The runs of two functions on one input: a value for each parameter.
#[derive(Debug, Drop)]
pub struct Pair {
    pub input: Items<i128>,
    pub first: Trace,
    pub second: Trace,
}
