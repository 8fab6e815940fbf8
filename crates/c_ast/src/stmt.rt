//! Statements (ISO C11, 6.8). All loops have one form.
use crate::Expr;
use sqlite_items::Items;

/// A statement.
#[derive(Debug, Drop)]
pub enum Stmt {
    /// The variable with this number takes the expression's value. A declaration sets its variable
    /// to 0 first.
    Set(u32, Expr),
    /// The statements where the condition is not 0, and those where it is 0.
    If(Expr, Items<Stmt>, Items<Stmt>),
    /// `while`, `do` and `for`.
    Loop {
        /// The mark that is passed each time before the condition, if there is one.
        mark: Option<u32>,
        cond: Expr,
        body: Items<Stmt>,
        /// What follows the body before the next test: the third part of a `for`.
        step: Items<Stmt>,
        /// Whether the condition is tested before the first turn; it is not in a `do`.
        test_first: bool,
    },
    Break,
    Continue,
    Return(Expr),
    /// This mark is passed.
    Mark(u32),
    Block(Items<Stmt>),
}
