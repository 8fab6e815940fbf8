//! What is solved of two functions.
use pool_core::{Item, Verdict};
use sqlite_items::Items;

/// A verdict, and how it was found.
#[derive(Debug, Drop)]
pub struct Solved {
    pub verdict: Verdict,
    /// What was found, in the order in which it was.
    pub history: Items<Item>,
    /// How many items of the history each worker added, by its number.
    pub shares: Items<u32>,
}
