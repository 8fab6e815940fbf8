//! The syntax tree of a file as it was read, before names are resolved. A line counts from 1.
use crate::{BinOp, Name, UnOp, Var};
use sqlite_items::{Boxed, Items};

/// The functions of a file, in its order (ISO C11, 6.9).
#[derive(Debug, Drop)]
pub struct RawUnit {
    pub funcs: Items<RawFunc>,
}

/// A function definition (6.9.1).
#[derive(Debug, Drop)]
pub struct RawFunc {
    pub name: Name,
    /// The line of its name.
    pub line: u32,
    pub params: Items<Var>,
    pub body: Items<RawStmt>,
}

/// The condition of a loop, with the mark that is passed each time before it, if it names one.
#[derive(Debug, Drop)]
pub struct RawCond {
    pub mark: Option<u64>,
    pub cond: RawExpr,
}

/// A declared variable, with its initialiser, if it has one (6.7.6, 6.7.9).
#[derive(Debug, Drop)]
pub struct RawDeclarator {
    pub var: Var,
    pub initialiser: Option<RawExpr>,
}

/// A statement (6.8) or a declaration (6.7). `x += e`, `x++` and their like are assignments.
#[derive(Debug, Drop)]
pub enum RawStmt {
    Declare(Items<RawDeclarator>),
    /// The variable, its line, and the value that it takes.
    Assign(Name, u32, RawExpr),
    /// The condition, the statement where it is not 0, and the one after `else`.
    If(RawExpr, Boxed<RawStmt>, Option<Boxed<RawStmt>>),
    While(RawCond, Boxed<RawStmt>),
    Do(Boxed<RawStmt>, RawCond),
    /// The three parts of the head, then the body.
    For(Option<Boxed<RawStmt>>, Option<RawCond>, Option<Boxed<RawStmt>>, Boxed<RawStmt>),
    /// `break`, with its line.
    Break(u32),
    /// `continue`, with its line.
    Continue(u32),
    Return(RawExpr),
    /// The statement that passes a mark.
    Mark(u64),
    Block(Items<RawStmt>),
    /// The statement `;`.
    Empty,
}

/// An expression (6.5), without its parentheses.
#[derive(Debug, Drop)]
pub enum RawExpr {
    Num(i64),
    /// A variable, with its line.
    Var(Name, u32),
    Un(UnOp, Boxed<RawExpr>),
    /// The operator with its line, then the left operand and the right one.
    Bin(BinOp, u32, Boxed<RawExpr>, Boxed<RawExpr>),
    /// The condition, its value where that is not 0, and its value where it is 0.
    Cond(Boxed<RawExpr>, Boxed<RawExpr>, Boxed<RawExpr>),
}
