//! The product of two functions under an alignment.
//!
//! Nodes are taken from a queue that begins with the two entries. The clauses of each are made at
//! once, and their ends join the queue, each when it is met first.
ghost use Rattle.std.specs.Prelude.{◌≡◌, ◌⊎◌, if◌then◌else◌, ◌++◌, All, map, Ok, Err, IfOk, IfErr, OnOk};
ghost use Rattle.horn_clauses.specs.Node.{node, entries, exits, is_same_node};
ghost use Rattle.sym_paths.specs.Fits.{FitsInputs};
ghost use Rattle.sym_paths.specs.declared.limit.PathLimit.TheVariants as path_limit;
ghost use Rattle.path_product.specs.declared.limit.ProductLimit.TheVariants as limit;
ghost use Rattle.path_product.specs.Starts.{width_in};
ghost use Rattle.path_product.specs.Fits.{FitStarts};
ghost use Rattle.path_product.specs.Clauses.{clauses_of, no_rows};
ghost use Rattle.path_product.specs.Coded.{path_of_side};
ghost use Rattle.path_product.specs.Product.{at_node, coupled_at, clauses_at, kept, pairs, all_places, all_nodes, product_over};
ghost use Rattle.path_product.specs.Queue.{IsMet, met_after, is_listed};

use crate::clause::{Source, clauses_of};
use crate::limit::MOST_VARIABLES;
use crate::queue::Queue;
use crate::side::{SidePath, side_cases};
use crate::starts::width_in;
use crate::{ProductLimit, Start};
use alignment::Alignment;
use c_ast::Place;
use horn_clauses::{Clause, Node, Product};
use lin_terms::Row;
use sqlite_items::Items;
use std::alloc::{AllocError, Global};
use sym_paths::PathLimit;

// ---- one node

/// The limit at a node. No walk over forms meets `NonLinear`.
fn at_node(node: Node, limit: PathLimit) -> ProductLimit
    ensures { result ≡ at_node node limit }
{
    match limit {
        PathLimit::NonLinear | PathLimit::WideForm => ProductLimit::WideForm(node),
        PathLimit::ManyUnknowns => ProductLimit::ManyUnknowns(node),
        PathLimit::ManyPaths => ProductLimit::ManyPaths(node),
        PathLimit::Memory => ProductLimit::Memory,
    }
}

fn is_entries(node: Node) -> bool
    ensures { result ≡ is_same_node node entries }
{
    matches!(node, Node(Place::Entry, Place::Entry))
}

fn is_exits(node: Node) -> bool
    ensures { result ≡ is_same_node node exits }
{
    matches!(node, Node(Place::Exit, Place::Exit))
}

/// The clauses of a node with these cases of both sides. The condition stands at the two entries.
fn clauses_under(
    alloc: Global,
    source: &Source,
    condition: &[Items<Row>],
    left: &[SidePath],
    right: &[SidePath],
) -> Result<Vec<Clause>, PathLimit>
    ensures clauses { IfOk result (λ clauses. clauses_of source.now.node source.now.first
        source.now.second (if is_same_node source.now.node entries then condition.now else no_rows)
        (map path_of_side left.now) (map path_of_side right.now) ≡ Ok clauses.items) }
    ensures limit { IfErr result (λ why. (why ≡ path_limit.Memory) ⊎ (clauses_of source.now.node
        source.now.first source.now.second
        (if is_same_node source.now.node entries then condition.now else no_rows)
        (map path_of_side left.now) (map path_of_side right.now) ≡ Err why)) }
{
    if is_entries(source.node) {
        return clauses_of(alloc, source, condition, left, right);
    }
    let none = [Items::new(alloc)];
    clauses_of(alloc, source, &none, left, right)
}

/// Side A's cases are made first, then side B's, then the coupled ones.
fn coupled_at(
    alloc: Global,
    first: &[Start],
    second: &[Start],
    condition: &[Items<Row>],
    alignment: Alignment,
    node: Node,
) -> Result<Vec<Clause>, PathLimit>
    requires first { FitStarts first.now }
    requires second { FitStarts second.now }
    requires met { IsMet first.now second.now node }
    ensures clauses { IfOk result (λ clauses.
        coupled_at first.now second.now alignment condition.now node ≡ Ok clauses.items) }
    ensures met { IfOk result (λ clauses.
        All (λ clause. IsMet first.now second.now clause.to) clauses.items) }
    ensures limit { IfErr result (λ why. (why ≡ path_limit.Memory) ⊎
        (coupled_at first.now second.now alignment condition.now node ≡ Err (at_node node why))) }
{
    let (first_count, second_count) = alignment.moves(node.0, node.1);
    let left = side_cases(alloc, first, first_count, node.0)?;
    let right = side_cases(alloc, second, second_count, node.1)?;
    let source = Source {
        node,
        first: width_in(first, node.0),
        second: width_in(second, node.1),
    };
    clauses_under(alloc, &source, condition, left.as_slice(), right.as_slice())
}

/// The clauses from a node: none from the two exits. A node of more than 16 variables is refused
/// before its cases.
fn clauses_at(
    alloc: Global,
    first: &[Start],
    second: &[Start],
    condition: &[Items<Row>],
    alignment: Alignment,
    node: Node,
) -> Result<Vec<Clause>, ProductLimit>
    requires first { FitStarts first.now }
    requires second { FitStarts second.now }
    requires met { IsMet first.now second.now node }
    ensures clauses { IfOk result (λ clauses.
        clauses_at first.now second.now alignment condition.now node ≡ Ok clauses.items) }
    ensures met { IfOk result (λ clauses.
        All (λ clause. IsMet first.now second.now clause.to) clauses.items) }
    ensures limit { IfErr result (λ why. (why ≡ limit.Memory) ⊎
        (clauses_at first.now second.now alignment condition.now node ≡ Err why)) }
{
    let variables = width_in(first, node.0) as usize + width_in(second, node.1) as usize;
    if variables > MOST_VARIABLES {
        return Err(ProductLimit::ManyVariables(node));
    }
    if is_exits(node) {
        return Ok(Vec::new(alloc));
    }
    match coupled_at(alloc, first, second, condition, alignment, node) {
        Ok(clauses) => Ok(clauses),
        Err(limit) => Err(at_node(node, limit)),
    }
}

// ---- the queue

/// The ends of the clauses join the queue.
fn join_ends(queue: &mut Queue, clauses: &[Clause]) -> Result<(), AllocError>
    ensures { OnOk result (queue.new ≡ met_after queue.old clauses.now) }
{
    for clause in clauses {
        queue.join(clause.to)?;
    }
    Ok(())
}

/// The clauses of a node join, and their ends.
fn take(
    queue: &mut Queue,
    clauses: &mut Vec<Clause>,
    mut made: Vec<Clause>,
) -> Result<(), AllocError>
    ensures queue { OnOk result (queue.new ≡ met_after queue.old made.items) }
    ensures clauses { OnOk result (clauses.new.items ≡ clauses.old.items ++ made.items) }
{
    join_ends(queue, made.as_slice())?;
    clauses.append(&mut made)
}

// ---- the nodes in their order

/// The places from which segments lead, and then the exit.
fn all_places(alloc: Global, starts: &[Start]) -> Result<Vec<Place>, AllocError>
    ensures { IfOk result (λ places. places.items ≡ all_places starts.now) }
{
    let mut places = Vec::new(alloc);
    for start in starts {
        places.push(start.place)?;
    }
    places.push(Place::Exit)?;
    Ok(places)
}

/// The nodes of a place with each of side B's join, those of them that the product has.
fn push_row(
    queue: &Queue,
    place: Place,
    second: &[Place],
    nodes: &mut Vec<Node>,
) -> Result<(), AllocError>
    ensures { OnOk result (nodes.new.items
        ≡ nodes.old.items ++ kept (is_listed queue.now) (map (node place) second.now)) }
{
    for other in second {
        let node = Node(place, *other);
        if queue.has(node) || is_exits(node) {
            nodes.push(node)?;
        }
    }
    Ok(())
}

/// The same of each of side A's places, one after another.
fn push_rows(
    queue: &Queue,
    first: &[Place],
    second: &[Place],
    nodes: &mut Vec<Node>,
) -> Result<(), AllocError>
    ensures { OnOk result (nodes.new.items
        ≡ nodes.old.items ++ kept (is_listed queue.now) (pairs first.now second.now)) }
{
    for place in first {
        push_row(queue, *place, second, nodes)?;
    }
    Ok(())
}

/// The nodes that the product has, in the order of nodes.
fn nodes_of(
    alloc: Global,
    first: &[Start],
    second: &[Start],
    queue: &Queue,
) -> Result<Vec<Node>, AllocError>
    ensures { IfOk result (λ nodes.
        nodes.items ≡ kept (is_listed queue.now) (all_nodes first.now second.now)) }
{
    let rows = all_places(alloc, first)?;
    let columns = all_places(alloc, second)?;
    let mut nodes = Vec::new(alloc);
    push_rows(queue, rows.as_slice(), columns.as_slice(), &mut nodes)?;
    Ok(nodes)
}

/// The product over the cases of all places of both sides, and of the condition's. The limit is
/// the first that is met.
pub fn product_over(
    alloc: Global,
    first: &[Start],
    second: &[Start],
    condition: &[Items<Row>],
    alignment: Alignment,
) -> Result<Product, ProductLimit>
    requires first { FitStarts first.now }
    requires second { FitStarts second.now }
    requires condition { All (FitsInputs (width_in first.now Place.Entry)) condition.now }
    ensures product { IfOk result (λ product.
        product_over first.now second.now condition.now alignment ≡ Ok product) }
    ensures limit { IfErr result (λ why. (why ≡ limit.Memory) ⊎
        (product_over first.now second.now condition.now alignment ≡ Err why)) }
{
    let mut queue = Queue::new(alloc);
    queue.join(Node(Place::Entry, Place::Entry))?;
    let mut clauses = Vec::new(alloc);
    let mut count = 0;
    while let Some(node) = queue.at(count) {
        let made = clauses_at(alloc, first, second, condition, alignment, node)?;
        take(&mut queue, &mut clauses, made)?;
        count += 1;
    }
    let nodes = nodes_of(alloc, first, second, &queue)?;
    Ok(Product {
        nodes: Items::from_vec(nodes),
        clauses: Items::from_vec(clauses),
    })
}
