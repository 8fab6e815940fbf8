//! A case under way, and what is done next of it.
use crate::PathLimit;
use c_ast::{BinOp, Expr, Place, UnOp};
use flow_graph::Graph;
use lin_terms::{Form, Row};
use sqlite_items::Items;

/// What is done next of an expression; the forms of operands are on the stack.
#[derive(Clone, Copy, Debug, Drop)]
pub enum Task<'a> {
    /// The form of an expression is put on the stack.
    Value(&'a Expr),
    /// A unary operator takes its operand from the stack.
    Unary(UnOp),
    /// A binary operator takes its operands from the stack, the right one first.
    Binary(BinOp),
    /// The topmost form is divided by this number of at least 1.
    Quotient(i64),
    /// The same, with what is left.
    Rest(i64),
    /// The topmost form becomes its test, 1 or 0.
    Test,
    /// The topmost form goes: where it is true the test of the expression is put there, and else 0.
    AndThen(&'a Expr),
    /// The topmost form goes: where it is true 1 is put there, and else the test of the expression.
    OrElse(&'a Expr),
    /// The topmost form goes: where it is true the form of the first expression is put there, and
    /// else the second's.
    Choose(&'a Expr, &'a Expr),
}

/// What is walked over.
#[derive(Clone, Copy, Debug, Drop)]
pub enum Subject<'a> {
    /// The nodes of a graph.
    Graph(&'a Graph),
    /// No node: a condition over so many parameters.
    Condition(u32),
}

/// What is done with the form of an expression.
#[derive(Clone, Copy, Debug, Drop)]
pub enum Goal {
    /// The variable takes it, and the walk goes on at the node.
    ToSet { variable: u32, next: u32 },
    /// The walk goes on at the first node where it is not 0, and else at the second.
    ToBranch { first: u32, second: u32 },
    /// It is returned.
    ToReturn,
    /// The case is complete where it is not 0, and there is none where it is 0.
    ToHold,
}

/// A case under way.
#[derive(Debug, Drop)]
pub struct Pending<'a> {
    /// The next one is the last.
    pub tasks: Vec<Task<'a>>,
    /// The topmost form is the last.
    pub stack: Vec<Form>,
    pub goal: Goal,
    /// The variables' forms, by number.
    pub forms: Vec<Form>,
    /// How many nodes may still come.
    pub left: usize,
}

/// A case under way, or a complete one.
#[derive(Debug, Drop)]
pub enum Move<'a> {
    Goes(Pending<'a>),
    /// The place that is met, and the forms of the values there.
    Ends(Place, Vec<Form>),
}

/// What one step comes to: a move, where these rows hold besides, or a limit.
#[derive(Debug, Drop)]
pub enum Entry<'a> {
    Arrives {
        rows: Items<Row>,
        columns: u32,
        step: Move<'a>,
    },
    Stops(PathLimit),
}
