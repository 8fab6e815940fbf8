//! What is left at one node of the atoms that its first point proposes.
ghost use Rattle.std.specs.Prelude.{◌≡◌, ◌++◌, [], ℕ, ◌+◌, ◌<◌, ◌≤◌, ℤ, List, length, All, IfOk, MatchOption};
ghost use Rattle.c_ast.specs.FitsRun.{FitsRun};
ghost use Rattle.miners.specs.Mined.{proposed, struck};
ghost use Rattle.miners.specs.Kept.{atoms_left, first_atoms};

use crate::atoms::{add_bounds, add_equalities};
use crate::kept::{Fixed, Least, fixed_by, leasts_by, lower_kept};
use crate::listing::listed;
use crate::point::{Point, WIDEST};
use crate::shape::Kind;
use horn_clauses::{Atom, Node};
use sqlite_items::Items;
use std::alloc::{AllocError, Global};
use std::marker::Model;

/// A node with what is kept of its points: the equalities that hold at all of them, for each
/// shape of a bound the least sum, and the last point. Contracts see the atoms that are left.
#[derive(Debug, Drop)]
pub struct Accumulator {
    node: Node,
    /// How many values the node has; 0 where nothing is mined, since it has more than 16.
    width: u8,
    fixed: Vec<Fixed>,
    least: Vec<Least>,
    last: Point,
}

impl Model for Accumulator {
    ghost use Rattle.std.specs.Prelude.{map};
    ghost use Rattle.miners.specs.Kept.{Held};

    ghost Value = { Held };

    ghost use Rattle.miners.specs.Kept.{fixed_atom, least_of, held, IsHeld};

    ghost view = { λ a. held a.node (map (fixed_atom a.width) a.fixed.items)
        (map (least_of a.width) a.least.items) };

    ghost invariant = { λ a. IsHeld a.width a.last a.fixed.items a.least.items };
}

/// How many values the sides have, where there are at most 16.
fn narrow_width(first: &[i128], second: &[i128]) -> Option<u8>
    ensures { MatchOption result (16 < length (first.now ++ second.now))
        (λ width. (width ≤ 16) × (length (first.now ++ second.now) ≡ width)) }
{
    if first.len() <= WIDEST && second.len() <= WIDEST - first.len() {
        Some((first.len() + second.len()) as u8)
    } else {
        None
    }
}

/// The node with all that is proposed by its first point, of so many values.
fn proposed(
    alloc: Global,
    node: Node,
    first: &[i128],
    second: &[i128],
    width: u8,
) -> Result<Accumulator, AllocError>
    requires narrow { width ≤ 16 }
    requires all { length (first.now ++ second.now) ≡ width }
    requires first { All FitsRun first.now }
    requires second { All FitsRun second.now }
    ensures node { IfOk result (λ made. made.node ≡ node) }
    ensures left { IfOk result (λ made. (constants : List ℤ)
        → atoms_left constants made ≡ proposed constants (first.now ++ second.now)) }
{
    let point = Point::of(first, second, width as usize);
    let equalities = listed(alloc, Kind::Equality, width)?;
    let bounds = listed(alloc, Kind::Bound, width)?;
    let fixed = fixed_by(alloc, equalities.as_slice(), &point)?;
    let least = leasts_by(alloc, bounds.as_slice(), &point)?;
    Ok(Accumulator {
        node,
        width,
        fixed,
        least,
        last: point,
    })
}

/// The node at which nothing is mined.
fn nothing(alloc: Global, node: Node) -> Accumulator
    ensures node { result.node ≡ node }
    ensures left { (constants : List ℤ) → atoms_left constants result ≡ [] }
{
    Accumulator {
        node,
        width: 0,
        fixed: Vec::new(alloc),
        least: Vec::new(alloc),
        last: Point::of(&[], &[], 0),
    }
}

impl Accumulator {
    /// The node with what its first point leaves.
    pub fn new(
        alloc: Global,
        node: Node,
        first: &[i128],
        second: &[i128],
    ) -> Result<Accumulator, AllocError>
        requires first { All FitsRun first.now }
        requires second { All FitsRun second.now }
        ensures node { IfOk result (λ made. made.node ≡ node) }
        ensures left { IfOk result (λ made. (constants : List ℤ)
            → atoms_left constants made ≡ first_atoms constants (first.now ++ second.now)) }
    {
        match narrow_width(first, second) {
            None => Ok(nothing(alloc, node)),
            Some(width) => proposed(alloc, node, first, second, width),
        }
    }

    /// The node.
    pub fn node(&self) -> Node
        ensures { result ≡ self.now.node }
    {
        self.node
    }

    /// The atoms that are left, with these constants of bounds.
    pub fn atoms(&self, alloc: Global, constants: &[i64]) -> Result<Items<Atom>, AllocError>
        ensures { IfOk result (λ atoms. atoms ≡ atoms_left constants.now self.now) }
    {
        let mut atoms = Items::new(alloc);
        add_equalities(alloc, &mut atoms, self.width, self.fixed.as_slice())?;
        add_bounds(
            alloc,
            &mut atoms,
            self.width,
            self.least.as_slice(),
            constants,
        )?;
        Ok(atoms)
    }

    /// Leaves what holds at the point too. Takes no memory.
    pub fn strike(&mut self, first: &[i128], second: &[i128])
        requires first { All FitsRun first.now }
        requires second { All FitsRun second.now }
        ensures node { self.new.node ≡ self.old.node }
        ensures left { (constants : List ℤ) → atoms_left constants self.new
            ≡ struck (atoms_left constants self.old) (first.now ++ second.now) }
    {
        let point = Point::of(first, second, self.width as usize);
        if self.last.same(&point) {
            return;
        }
        self.fixed.retain(|fixed| fixed.holds(&point));
        lower_kept(&mut self.least, &point);
        self.last = point;
    }
}
