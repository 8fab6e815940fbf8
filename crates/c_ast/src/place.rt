//! The places of a function at which runs are compared.

/// A place: the entry, a mark by its number, or the exit. Their order is this one, marks by rising
/// number.
#[derive(Clone, Copy, Debug, PartialEq, Eq, PartialOrd, Ord)]
pub enum Place {
    Entry,
    Mark(u32),
    Exit,
}

/// Which of two functions is spoken of, or the condition on the inputs, which is asked before both.
#[derive(Clone, Copy, Debug, PartialEq, Eq)]
pub enum Side {
    A,
    B,
    Pre,
}
