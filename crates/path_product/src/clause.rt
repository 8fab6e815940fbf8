//! The clauses of a node: one for each case of the condition, for each of side A, for each of side
//! B, until a limit is met.
ghost use Rattle.std.specs.Prelude.{◌≡◌, ◌⊎◌, ◌++◌, ◌∷◌, [], map, Ok, Err, IfOk, IfErr, OnOk};
ghost use Rattle.sym_paths.specs.declared.limit.PathLimit.TheVariants.{Memory};
ghost use Rattle.path_product.specs.Clauses.{joined_clause, coupled_walk, clauses_of};
ghost use Rattle.path_product.specs.Coded.{path_of_side};
ghost use Rattle.path_product.specs.Placing.{counts_of_columns};
ghost use Rattle.path_product.specs.Making.{Adds, MeetsLimit, second_walk, both_walk};

use crate::columns::Columns;
use crate::side::SidePath;
use horn_clauses::{Clause, Node};
use lin_terms::Row;
use sqlite_items::Items;
use std::alloc::{AllocError, Global};
use sym_paths::{MOST_CASES, PathLimit};

/// The node from which clauses lead, and how many variables each side has there.
#[derive(Clone, Copy, Debug)]
pub(crate) struct Source {
    pub node: Node,
    pub first: u32,
    pub second: u32,
}

/// The clause of three cases, with these columns.
fn joined(
    alloc: Global,
    from: Node,
    columns: &Columns,
    condition: &[Row],
    left: &SidePath,
    right: &SidePath,
) -> Result<Clause, AllocError>
    ensures { IfOk result (λ clause. clause ≡ joined_clause from (counts_of_columns columns.now)
        condition.now (path_of_side left.now) (path_of_side right.now)) }
{
    let (first, second) = (columns.first_spot(), columns.second_spot());
    let mut rows = Vec::new(alloc);
    columns
        .condition_spot()
        .place_rows(alloc, &mut rows, condition)?;
    first.place_rows(alloc, &mut rows, left.rows.as_slice())?;
    second.place_rows(alloc, &mut rows, right.rows.as_slice())?;
    let mut after = Vec::new(alloc);
    first.place_forms(alloc, &mut after, left.after.as_slice())?;
    second.place_forms(alloc, &mut after, right.after.as_slice())?;
    Ok(Clause {
        from,
        rows: Items::from_vec(rows),
        to: Node(left.to, right.to),
        after: Items::from_vec(after),
    })
}

/// One more clause.
fn push(clauses: &mut Vec<Clause>, clause: Clause) -> Result<(), AllocError>
    ensures { OnOk result (clauses.new.items ≡ clauses.old.items ++ clause ∷ []) }
{
    clauses.push(clause)?;
    Ok(())
}

/// The clause of three cases joins, unless it has a 17th unknown or there are 1,024.
fn couple(
    alloc: Global,
    source: &Source,
    condition: &[Row],
    left: &SidePath,
    right: &SidePath,
    clauses: &mut Vec<Clause>,
) -> Result<(), PathLimit>
    ensures joined { OnOk result (Adds (coupled_walk source.now.node source.now.first
        source.now.second condition.now (path_of_side left.now) (path_of_side right.now))
        clauses.old.items clauses.new.items) }
    ensures limit { IfErr result (MeetsLimit (coupled_walk source.now.node source.now.first
        source.now.second condition.now (path_of_side left.now) (path_of_side right.now))
        clauses.old.items) }
{
    let Some(columns) = Columns::of(source.first, source.second, condition, left, right) else {
        return Err(PathLimit::ManyUnknowns);
    };
    if clauses.len() >= MOST_CASES {
        return Err(PathLimit::ManyPaths);
    }
    let clause = joined(alloc, source.node, &columns, condition, left, right)?;
    push(clauses, clause)?;
    Ok(())
}

/// The clauses of a case of the condition and one of side A join, in the order of side B's.
fn couple_with_second(
    alloc: Global,
    source: &Source,
    condition: &[Row],
    left: &SidePath,
    second: &[SidePath],
    clauses: &mut Vec<Clause>,
) -> Result<(), PathLimit>
    ensures joined { OnOk result (Adds (second_walk source.now.node source.now.first
        source.now.second (map path_of_side second.now) condition.now (path_of_side left.now))
        clauses.old.items clauses.new.items) }
    ensures limit { IfErr result (MeetsLimit (second_walk source.now.node source.now.first
        source.now.second (map path_of_side second.now) condition.now (path_of_side left.now))
        clauses.old.items) }
{
    for right in second {
        couple(alloc, source, condition, left, right, clauses)?;
    }
    Ok(())
}

/// The clauses of a case of the condition join, in the order of side A's.
fn couple_with_both(
    alloc: Global,
    source: &Source,
    condition: &[Row],
    first: &[SidePath],
    second: &[SidePath],
    clauses: &mut Vec<Clause>,
) -> Result<(), PathLimit>
    ensures joined { OnOk result (Adds (both_walk source.now.node source.now.first
        source.now.second (map path_of_side first.now) (map path_of_side second.now) condition.now)
        clauses.old.items clauses.new.items) }
    ensures limit { IfErr result (MeetsLimit (both_walk source.now.node source.now.first
        source.now.second (map path_of_side first.now) (map path_of_side second.now) condition.now)
        clauses.old.items) }
{
    for left in first {
        couple_with_second(alloc, source, condition, left, second, clauses)?;
    }
    Ok(())
}

/// The clauses of a node, or the first limit.
pub(crate) fn clauses_of(
    alloc: Global,
    source: &Source,
    conditions: &[Items<Row>],
    first: &[SidePath],
    second: &[SidePath],
) -> Result<Vec<Clause>, PathLimit>
    ensures clauses { IfOk result (λ clauses. clauses_of source.now.node source.now.first
        source.now.second conditions.now (map path_of_side first.now)
        (map path_of_side second.now) ≡ Ok clauses.items) }
    ensures limit { IfErr result (λ why. (why ≡ Memory) ⊎ (clauses_of source.now.node
        source.now.first source.now.second conditions.now (map path_of_side first.now)
        (map path_of_side second.now) ≡ Err why)) }
{
    let mut clauses = Vec::new(alloc);
    for condition in conditions {
        couple_with_both(
            alloc,
            source,
            condition.as_slice(),
            first,
            second,
            &mut clauses,
        )?;
    }
    Ok(clauses)
}
