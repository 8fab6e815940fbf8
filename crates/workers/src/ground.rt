//! What all alignments share.
//!
//! The condition is judged first, then the places of side A, then those of side B: a limit of one
//! of them is that of the product under each alignment.
ghost use Rattle.std.specs.Prelude.{◌≡◌, ◌⊎◌, ◌≤◌, Ok, IfOk, IfErr};
ghost use Rattle.c_ast.specs.Value.{CanEvaluate};
ghost use Rattle.c_ast.specs.View.{expression_of};
ghost use Rattle.c_ast.specs.Comparison.{condition_of};
ghost use Rattle.sym_paths.specs.Condition.{condition_cases};
ghost use Rattle.path_product.specs.declared.limit.ProductLimit.TheVariants.{Memory};
ghost use Rattle.path_product.specs.Starts.{starts_of};
ghost use Rattle.relation.specs.Coupled.{IsProductOf, HasLimit};
ghost use Rattle.trace_pair.specs.Pairs.{AreGraphsOf};
ghost use Rattle.workers.specs.Ground.{AreCasesOf, LimitsCondition, LimitsSide, LimitsAll};

use alignment::Alignment;
use c_ast::{Expr, Place, Side, Subject};
use flow_graph::Graph;
use horn_clauses::Product;
use lin_terms::Row;
use path_product::{ProductLimit, Segments, SegmentsFault, product_over};
use sqlite_items::Items;
use std::alloc::Global;
use std::marker::Model;
use sym_paths::{PathLimit, condition_cases};
use trace_pair::Graphs;

/// The cases of the condition and of all places of both functions: made once, and shared by the
/// products of all alignments.
#[derive(Debug, Drop)]
pub(crate) struct Ground {
    condition: Items<Items<Row>>,
    first: Segments,
    second: Segments,
}

impl Model for Ground {
    ghost use Rattle.workers.specs.Ground.{Cases, cases};

    ghost Value = { Cases };

    ghost view = { λ g. cases g.condition g.first g.second };
}

/// The cases of a condition over so many parameters.
fn cases_over(
    alloc: Global,
    condition: &Expr,
    params: u32,
) -> Result<Items<Items<Row>>, ProductLimit>
    requires condition { CanEvaluate params (expression_of condition.now) }
    requires few { params ≤ 64 }
    ensures cases { IfOk result (λ cases.
        condition_cases params (expression_of condition.now) ≡ Ok cases) }
    ensures limit { IfErr result (LimitsCondition params (expression_of condition.now)) }
{
    match condition_cases(alloc, condition, params) {
        Ok(cases) => Ok(Items::from_vec(cases)),
        Err(PathLimit::Memory) => Err(ProductLimit::Memory),
        Err(limit) => Err(ProductLimit::AtPre(limit)),
    }
}

/// Those of the subject's condition, all of whose inputs meet it where none is given.
fn condition_of(
    alloc: Global,
    subject: &Subject,
    first: &Graph,
) -> Result<Items<Items<Row>>, ProductLimit>
    requires { CanEvaluate first.now.params (condition_of subject.now) }
    ensures cases { IfOk result (λ cases.
        condition_cases first.now.params (condition_of subject.now) ≡ Ok cases) }
    ensures limit { IfErr result (LimitsCondition first.now.params (condition_of subject.now)) }
{
    // The form of the graph: it has at most 64 parameters.
    let _ = first.op(first.after(Place::Entry));
    match subject.condition() {
        Some(condition) => cases_over(alloc, condition, first.params()),
        None => cases_over(alloc, &Expr::Num(1), first.params()),
    }
}

/// The cases of all places of a side's graph.
fn places_of(alloc: Global, side: Side, graph: &Graph) -> Result<Segments, ProductLimit>
    ensures places { IfOk result (λ segments. starts_of graph.now ≡ Ok segments) }
    ensures limit { IfErr result (LimitsSide side graph.now) }
{
    match Segments::of(alloc, graph) {
        Ok(segments) => Ok(segments),
        Err(SegmentsFault::AtPlace(place, limit)) => {
            Err(ProductLimit::AtPlace { side, place, limit })
        }
        Err(SegmentsFault::Memory) => Err(ProductLimit::Memory),
    }
}

impl Ground {
    /// What the products of all alignments share, or the first limit, which is that of each.
    pub(crate) fn new(
        alloc: Global,
        subject: &Subject,
        graphs: &Graphs,
    ) -> Result<Ground, ProductLimit>
        requires { AreGraphsOf subject.now graphs.now }
        ensures made { IfOk result (AreCasesOf subject.now graphs.now) }
        ensures limit { IfErr result (LimitsAll subject.now) }
    {
        // What holds of each subject.
        let _ = subject.first();
        let condition = condition_of(alloc, subject, &graphs.first)?;
        let first = places_of(alloc, Side::A, &graphs.first)?;
        let second = places_of(alloc, Side::B, &graphs.second)?;
        Ok(Ground {
            condition,
            first,
            second,
        })
    }

    /// The product under the alignment, or the first limit of a node.
    pub(crate) fn product(
        &self,
        alloc: Global,
        subject: &Subject,
        graphs: &Graphs,
        alignment: Alignment,
    ) -> Result<Product, ProductLimit>
        requires graphs { AreGraphsOf subject.now graphs.now }
        requires cases { AreCasesOf subject.now graphs.now self.now }
        ensures product { IfOk result
            (IsProductOf subject.now alignment graphs.now.first graphs.now.second) }
        ensures limit { IfErr result (λ why. (why ≡ Memory) ⊎ HasLimit subject.now alignment why) }
    {
        // What holds of each subject, of each graph, and of each alignment.
        let _ = subject.first();
        let _ = graphs.first.op(graphs.first.after(Place::Entry));
        let _ = graphs.second.op(graphs.second.after(Place::Entry));
        let _ = alignment.counts();
        product_over(
            alloc,
            self.first.starts(),
            self.second.starts(),
            self.condition.as_slice(),
            alignment,
        )
    }
}
