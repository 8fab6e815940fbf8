//! The pairs of a pool at one moment.
ghost use Rattle.std.specs.Prelude.{◌≡◌, ◌↔◌, ◌<◌, Some, List, ℕ, length, take, map, slice_get, IfOk, IsTrue};

use crate::pages::Pages;
use c_ast::{Pair, Subject};
use sqlite_items::Items;
use std::alloc::{AllocError, Global};
use std::marker::Model;

/// The first pairs of a history, with their indexes, and the subject. Contracts see these.
#[derive(Debug, Drop)]
pub struct Snapshot {
    subject: Subject,
    pairs: Pages,
}

impl Model for Snapshot {
    ghost use Rattle.std.specs.Prelude.{map};
    ghost use Rattle.std.specs.Coded.{codes};
    ghost use Rattle.c_ast.specs.contracts.stmt.Stmt as stmts;
    ghost use Rattle.c_ast.specs.contracts.expr.Expr as exprs;
    ghost use Rattle.pool_core.specs.Plays.{Snapshot, IsSnapshot};

    ghost Value = { Snapshot };

    ghost coded = { Prim.hlevel (codes, stmts.the_row.coded, exprs.the_row.coded) };

    ghost view = { λ s. record {
      subject = s.subject;
      indexes = map (λ added. added.index) s.pairs;
      pairs = map (λ added. added.pair) s.pairs;
    } };

    ghost invariant = { λ s. IsSnapshot (record {
      subject = s.subject;
      indexes = map (λ added. added.index) s.pairs;
      pairs = map (λ added. added.pair) s.pairs;
    }) };
}

impl Snapshot {
    ghost use Rattle.pool_core.specs.Plays.{IsSnapshot};

    /// The subject with these pairs.
    pub(crate) fn new(subject: Subject, pairs: Pages) -> Snapshot
        requires { IsSnapshot (record {
          subject = subject;
          indexes = map (λ added. added.index) pairs;
          pairs = map (λ added. added.pair) pairs;
        }) }
        ensures { result ≡ record {
          subject = subject;
          indexes = map (λ added. added.index) pairs;
          pairs = map (λ added. added.pair) pairs;
        } }
    {
        Snapshot { subject, pairs }
    }

    /// The subject. What holds of every snapshot is handed on here.
    pub fn subject(&self) -> &Subject
        ensures subject { result.now ≡ self.now.subject }
        ensures snapshot { IsSnapshot self.now }
    {
        &self.subject
    }

    /// How many pairs there are.
    pub fn len(&self) -> u32
        ensures { result ≡ length self.now.pairs }
    {
        self.pairs.len() as u32
    }

    /// The pair at this place.
    pub fn pair(&self, at: u32) -> &Pair
        requires { at < length self.now.pairs }
        ensures { slice_get self.now.pairs at ≡ Some result.now }
    {
        self.pairs.get(at as usize).pair.pair()
    }

    /// The indexes of the pairs, in their order.
    pub fn indexes(&self, alloc: Global) -> Result<Items<u32>, AllocError>
        ensures { IfOk result (λ made. made ≡ self.now.indexes) }
    {
        let mut made = Items::new(alloc);
        for at in 0..self.pairs.len() {
            made.push(self.pairs.get(at).index)?;
        }
        Ok(made)
    }

    /// Whether they are the first of these pairs, by their indexes.
    pub(crate) fn are_first_of(&self, pairs: &Pages) -> bool
        ensures { IsTrue result ↔ (self.now.indexes
            ≡ take (length self.now.indexes) (map (λ added. added.index) pairs.now)) }
    {
        self.pairs.are_first_of(pairs)
    }
}
