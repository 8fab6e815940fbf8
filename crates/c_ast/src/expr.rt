//! Expressions (ISO C11, 6.5). A variable stands by its number in the function.
use sqlite_items::Boxed;

/// A unary operator (6.5.3.3).
#[derive(Clone, Copy, Debug, PartialEq, Eq)]
pub enum UnOp {
    Plus,
    Minus,
    Not,
}

/// A binary operator, from 6.5.5 to 6.5.14.
#[derive(Clone, Copy, Debug, PartialEq, Eq)]
pub enum BinOp {
    Mul,
    /// Truncated toward zero (6.5.5, paragraph 6).
    Div,
    /// What is left of the left operand, with its sign (6.5.5, paragraph 6).
    Rem,
    Add,
    Sub,
    Less,
    LessEq,
    Greater,
    GreaterEq,
    Equal,
    NotEqual,
    And,
    Or,
}

/// An expression. It has no side effects, and parentheses leave nothing in it.
#[derive(Debug, Drop)]
pub enum Expr {
    /// A constant.
    Num(i64),
    /// The variable with this number.
    Var(u32),
    Un(UnOp, Boxed<Expr>),
    /// The left operand comes first.
    Bin(BinOp, Boxed<Expr>, Boxed<Expr>),
    /// The condition, its value where that is not 0, and its value where it is 0.
    Cond(Boxed<Expr>, Boxed<Expr>, Boxed<Expr>),
}
