//! Linear facts about the values at a node.
ghost use Rattle.std.specs.Prelude.{◌≡◌, ◌<◌, ◌≤◌, ◌^◌, ◌*ℤ◌, ◌↔◌, IsTrue, IfOk, unsigned_abs};
ghost use Rattle.c_ast.specs.FitsRun.{FitsRun};
ghost use Rattle.lin_terms.specs.Vectors.{dot};
ghost use Rattle.horn_clauses.specs.Atom.{AtomHolds, CanAdd, CanJudge, Stands};

use sqlite_items::Items;
use std::alloc::{AllocError, Global};

/// How a sum stands to its constant.
#[derive(Clone, Copy, Debug, PartialEq, Eq)]
pub enum Rel {
    /// It is equal.
    Eq,
    /// It is as great or greater.
    AtLeast,
}

/// A fact about the values at a node.
#[derive(Debug, Drop)]
pub enum Atom {
    /// It never holds: the node is not met.
    False,
    /// The sum of the values, each times its coefficient, is the constant or at least that. There
    /// is a coefficient for each value.
    Linear {
        coefs: Items<i64>,
        constant: i64,
        rel: Rel,
    },
}

fn product(coef: &i64, value: &i128) -> i128
    requires small { unsigned_abs coef.now ≤ 2 }
    requires fits { FitsRun value.now }
    ensures product { result ≡ coef.now *ℤ value.now }
    ensures below { unsigned_abs result < 2 ^ 101 }
{
    i128::from(*coef) * *value
}

fn dot(coefs: &[i64], values: &[i128]) -> i128
    requires { CanAdd coefs.now values.now }
    ensures { result ≡ dot coefs.now values.now }
{
    let mut sum = 0;
    for (i, coef) in coefs.iter().enumerate() {
        sum += product(coef, &values[i]);
    }
    sum
}

fn stands(rel: Rel, sum: i128, constant: i128) -> bool
    ensures { IsTrue result ↔ Stands rel sum constant }
{
    match rel {
        Rel::Eq => sum == constant,
        Rel::AtLeast => sum >= constant,
    }
}

fn same_coefs(first: &[i64], second: &[i64]) -> bool
    ensures { IsTrue result ↔ (first.now ≡ second.now) }
{
    first == second
}

impl Atom {
    /// Whether the atom holds of these values. Takes no memory.
    pub fn holds(&self, values: &[i128]) -> bool
        requires { CanJudge self.now values.now }
        ensures { IsTrue result ↔ AtomHolds self.now values.now }
    {
        match self {
            Atom::False => false,
            Atom::Linear {
                coefs,
                constant,
                rel,
            } => stands(*rel, dot(coefs.as_slice(), values), i128::from(*constant)),
        }
    }

    /// The same atom again.
    pub fn copy(&self, alloc: Global) -> Result<Atom, AllocError>
        ensures { IfOk result (λ made. made ≡ self.now) }
    {
        match self {
            Atom::False => Ok(Atom::False),
            Atom::Linear {
                coefs,
                constant,
                rel,
            } => {
                let coefs = Items::from_slice(alloc, coefs.as_slice())?;
                Ok(Atom::Linear {
                    coefs,
                    constant: *constant,
                    rel: *rel,
                })
            }
        }
    }

    /// Whether the two atoms are equal, coefficient by coefficient.
    pub fn same(&self, other: &Atom) -> bool
        ensures { IsTrue result ↔ (self.now ≡ other.now) }
    {
        match (self, other) {
            (Atom::False, Atom::False) => true,
            (
                Atom::Linear {
                    coefs,
                    constant,
                    rel,
                },
                Atom::Linear {
                    coefs: other_coefs,
                    constant: other_constant,
                    rel: other_rel,
                },
            ) => {
                *rel == *other_rel
                    && *constant == *other_constant
                    && same_coefs(coefs.as_slice(), other_coefs.as_slice())
            }
            _ => false,
        }
    }
}
