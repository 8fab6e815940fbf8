//! The product of two graphs under a condition.
//!
//! The condition is judged first, then all places of side A, then those of side B, and only then
//! nodes are taken.
ghost use Rattle.std.specs.Prelude.{◌≡◌, ◌⊎◌, Ok, Err, IfOk, IfErr};
ghost use Rattle.std.specs.Option.{option_copied};
ghost use Rattle.c_ast.specs.Condition.{no_condition, given_condition};
ghost use Rattle.c_ast.specs.Value.{CanEvaluate};
ghost use Rattle.c_ast.specs.View.{expression_of};
ghost use Rattle.path_product.specs.declared.limit.ProductLimit.TheVariants.{Memory};
ghost use Rattle.path_product.specs.Product.{product_under};
ghost use Rattle.path_product.specs.Agreement.{IsProduct};
ghost use Rattle.path_product.specs.Graphs.{at_condition, at_side};

use crate::visits::product_over;
use crate::{ProductLimit, Segments, SegmentsFault};
use alignment::Alignment;
use c_ast::{Expr, Place, Side};
use flow_graph::Graph;
use horn_clauses::Product;
use std::alloc::Global;
use sym_paths::{PathLimit, condition_cases};

/// The limit of the condition's walk.
fn at_condition(limit: PathLimit) -> ProductLimit
    ensures { result ≡ at_condition limit }
{
    match limit {
        PathLimit::Memory => ProductLimit::Memory,
        _ => ProductLimit::AtPre(limit),
    }
}

/// The limit of a side's function.
fn at_side(side: Side, fault: SegmentsFault) -> ProductLimit
    ensures { result ≡ at_side side fault }
{
    match fault {
        SegmentsFault::AtPlace(place, limit) => ProductLimit::AtPlace { side, place, limit },
        SegmentsFault::Memory => ProductLimit::Memory,
    }
}

/// The product under the condition, as its definition has it.
fn made_under(
    alloc: Global,
    first: &Graph,
    second: &Graph,
    condition: &Expr,
    alignment: Alignment,
) -> Result<Product, ProductLimit>
    requires { CanEvaluate first.now.params (expression_of condition.now) }
    ensures product { IfOk result (λ product. product_under first.now second.now
        (expression_of condition.now) alignment ≡ Ok product) }
    ensures limit { IfErr result (λ why. (why ≡ Memory) ⊎ (product_under first.now second.now
        (expression_of condition.now) alignment ≡ Err why)) }
{
    // The form of the graph: it has at most 64 parameters.
    let _ = first.op(first.after(Place::Entry));
    let cases = match condition_cases(alloc, condition, first.params()) {
        Ok(cases) => cases,
        Err(limit) => return Err(at_condition(limit)),
    };
    let first = match Segments::of(alloc, first) {
        Ok(segments) => segments,
        Err(fault) => return Err(at_side(Side::A, fault)),
    };
    let second = match Segments::of(alloc, second) {
        Ok(segments) => segments,
        Err(fault) => return Err(at_side(Side::B, fault)),
    };
    product_over(
        alloc,
        first.starts(),
        second.starts(),
        cases.as_slice(),
        alignment,
    )
}

/// The same, with what a product owes.
fn lawful_under(
    alloc: Global,
    first: &Graph,
    second: &Graph,
    condition: &Expr,
    alignment: Alignment,
) -> Result<Product, ProductLimit>
    requires { CanEvaluate first.now.params (expression_of condition.now) }
    ensures product { IfOk result (λ product. product_under first.now second.now
        (expression_of condition.now) alignment ≡ Ok product) }
    ensures limit { IfErr result (λ why. (why ≡ Memory) ⊎ (product_under first.now second.now
        (expression_of condition.now) alignment ≡ Err why)) }
    ensures is { IfOk result (IsProduct first.now second.now (expression_of condition.now)
        alignment) }
{
    // What holds of each graph, and of each alignment.
    let _ = first.op(first.after(Place::Entry));
    let _ = second.op(second.after(Place::Entry));
    let _ = alignment.counts();
    made_under(alloc, first, second, condition, alignment)
}

/// The product of two functions under a condition on side A's parameters, where one is given: the
/// nodes that are reached from the two entries, and the clauses by which both sides move. Its
/// clauses and the moves of both sides agree.
///
/// The limit is the first that is met: of the condition, of the places of side A, of those of side
/// B, or of a node.
pub fn product_under(
    alloc: Global,
    first: &Graph,
    second: &Graph,
    condition: Option<&Expr>,
    alignment: Alignment,
) -> Result<Product, ProductLimit>
    requires { CanEvaluate first.now.params (given_condition (option_copied condition)) }
    ensures product { IfOk result (λ product. product_under first.now second.now
        (given_condition (option_copied condition.entry)) alignment ≡ Ok product) }
    ensures limit { IfErr result (λ why. (why ≡ Memory) ⊎ (product_under first.now second.now
        (given_condition (option_copied condition.entry)) alignment ≡ Err why)) }
    ensures is { IfOk result (IsProduct first.now second.now
        (given_condition (option_copied condition.entry)) alignment) }
{
    match condition {
        Some(condition) => lawful_under(alloc, first, second, condition, alignment),
        None => lawful_under(alloc, first, second, &Expr::Num(1), alignment),
    }
}

/// The product of two functions, without a condition.
///
/// Example: of `int f(int a){return a;}` and `int f(int a){return -a;}`, under each alignment: one
/// clause without rows from the two entries to the two exits, with the forms `a` of side A and `-a`
/// of side B, over the two parameters.
pub fn product(
    alloc: Global,
    first: &Graph,
    second: &Graph,
    alignment: Alignment,
) -> Result<Product, ProductLimit>
    ensures product { IfOk result (λ product. product_under first.now second.now no_condition
        alignment ≡ Ok product) }
    ensures limit { IfErr result (λ why. (why ≡ Memory) ⊎ (product_under first.now second.now
        no_condition alignment ≡ Err why)) }
    ensures is { IfOk result (IsProduct first.now second.now no_condition alignment) }
{
    product_under(alloc, first, second, None, alignment)
}
