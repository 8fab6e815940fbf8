//! The nodes of a graph.
use c_ast::Expr;

/// What a node does, and the nodes that may come next. `next`, `yes` and `no` are below the number
/// of the graph's nodes, and `var` is below the number of its variables, as are those that its
/// expressions read.
#[derive(Debug, Drop)]
pub enum Op {
    /// The variable with this number takes the value.
    Set { var: u32, value: Expr, next: u32 },
    /// The node `yes` comes next where the condition is not 0, and `no` where it is 0.
    Branch { cond: Expr, yes: u32, no: u32 },
    /// This mark is passed.
    Mark { mark: u32, next: u32 },
    /// The run ends with the value.
    Return(Expr),
}
