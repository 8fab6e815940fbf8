//! A comparison with a family that couples it.
ghost use Rattle.std.specs.Prelude.{◌≡◌, take, All, IfOk, IfErr, OnOk};
ghost use Rattle.horn_clauses.specs.declared.clause.Proofs.{Proofs};
ghost use Rattle.path_product.specs.Agreement.{HasNode};
ghost use Rattle.relation.specs.Linear.{IsFamilyOver};
ghost use Rattle.relation.specs.Coupled.{HasSmallAtoms, IsRefused, at_limit};

use crate::NotCoupled;
use crate::family::has_shape;
use alignment::Alignment;
use c_ast::Subject;
use coupling_check::check_obligations;
use flow_graph::{Graph, build};
use horn_clauses::{Family, Product, Proofs, begins_equal, ends_equal};
use path_product::{ProductLimit, product_under};
use sqlite_items::Items;
use std::alloc::{AllocError, Global};
use std::marker::Model;

/// Two functions that are compared, an alignment, a family that couples them under it, and
/// multipliers for each of the family's obligations.
#[derive(Debug, Drop)]
pub struct Coupled {
    subject: Subject,
    alignment: Alignment,
    family: Family,
    proofs: Proofs,
}

impl Model for Coupled {
    ghost use Rattle.std.specs.Coded.{codes};
    ghost use Rattle.c_ast.specs.contracts.stmt.Stmt as stmts;
    ghost use Rattle.c_ast.specs.contracts.expr.Expr as exprs;
    ghost use Rattle.relation.specs.Coupled.{Coupling, IsCoupled, coupling};

    ghost Value = { Coupling };

    ghost coded = { Prim.hlevel (codes, stmts.the_row.coded, exprs.the_row.coded) };

    ghost view = { λ c. coupling c.subject c.alignment c.family c.proofs };

    ghost invariant = { λ c. IsCoupled (coupling c.subject c.alignment c.family c.proofs) };
}

/// So many of the lists.
fn first_lists(proofs: Proofs, count: usize) -> Proofs
    ensures { result.lists ≡ take count proofs.lists }
{
    let mut lists = proofs.lists;
    while lists.len() > count {
        lists.pop();
    }
    Proofs { lists }
}

fn copy_proofs(alloc: Global, proofs: &Proofs) -> Result<Proofs, AllocError>
    ensures { IfOk result (λ made. made ≡ proofs.now) }
{
    let mut lists = Items::new(alloc);
    for multipliers in proofs.lists.as_slice() {
        lists.push(Items::from_slice(alloc, multipliers.as_slice())?)?;
    }
    Ok(Proofs { lists })
}

/// The limit of the product.
fn at_limit(limit: ProductLimit) -> NotCoupled
    ensures { result ≡ at_limit limit }
{
    match limit {
        ProductLimit::Memory => NotCoupled::Memory,
        _ => NotCoupled::Limit(limit),
    }
}

/// Whether the family has the form of a linear one over the product; else the first refusal.
fn test_form(
    first: &Graph,
    second: &Graph,
    product: &Product,
    family: &Family,
) -> Result<(), NotCoupled>
    requires nodes { All (HasNode first.now second.now) product.now.nodes }
    requires small { HasSmallAtoms family.now }
    ensures form { OnOk result
        (IsFamilyOver first.now second.now product.now family.now) }
    ensures refused { (proofs : Proofs) → IfErr result
        (IsRefused first.now second.now product.now family.now proofs) }
{
    if !has_shape(first, second, product, family) {
        return Err(NotCoupled::Shape);
    }
    if !begins_equal(first.params(), family) {
        return Err(NotCoupled::AtEntry);
    }
    if !ends_equal(family) {
        return Err(NotCoupled::AtExit);
    }
    Ok(())
}

impl Coupled {
    ghost use Rattle.relation.specs.Coupled.{IsProductOf, IsCoupled, Couples, CouplesOver};

    /// The subject with this family, where the family is linear over the product of both functions
    /// under the subject's condition and the alignment, and the proofs refute its obligations; else
    /// the first refusal, in the order of `NotCoupled`. Lists past the last obligation are dropped.
    /// Each coefficient of the family is from -2 to 2, and each constant below 2^50 in size, as
    /// `has_small_atoms` tests.
    ///
    /// Example: of `int f(int a){return a+a;}` and `int f(int a){return 2*a;}`, under each
    /// alignment: the equality of the parameters at the entries and that of the results at the
    /// exits have two obligations, with the rows `a - b = 0` and `-2a + 2b - 1 >= 0`, and with
    /// `a - b = 0` and `2a - 2b - 1 >= 0`. The lists 2, 1 and -2, 1 prove them; with 0, 0 as the
    /// first it is `Obligation(0)`.
    pub fn new(
        alloc: Global,
        subject: &Subject,
        alignment: Alignment,
        family: Family,
        proofs: Proofs,
    ) -> Result<Coupled, NotCoupled>
        requires { HasSmallAtoms family }
        ensures { Couples subject.now alignment family proofs result }
    {
        let first = build(alloc, subject.first())?;
        let second = build(alloc, subject.second())?;
        let product = match product_under(alloc, &first, &second, subject.condition(), alignment) {
            Ok(product) => product,
            Err(limit) => return Err(at_limit(limit)),
        };
        Coupled::over(
            alloc, subject, &first, &second, alignment, &product, family, proofs,
        )
    }

    /// The same over a product that was made already: of the graphs `first` and `second` of the
    /// subject's functions, under its condition and the alignment. It never answers `Limit`.
    pub fn over(
        alloc: Global,
        subject: &Subject,
        first: &Graph,
        second: &Graph,
        alignment: Alignment,
        product: &Product,
        family: Family,
        proofs: Proofs,
    ) -> Result<Coupled, NotCoupled>
        requires product { IsProductOf subject.now alignment first.now second.now product.now }
        requires small { HasSmallAtoms family }
        ensures { CouplesOver subject.now alignment first.now second.now product.now family proofs
            result }
    {
        test_form(first, second, product, &family)?;
        match check_obligations(product, &family, &proofs) {
            Err(number) => Err(NotCoupled::Obligation(number)),
            Ok(count) => {
                let proofs = first_lists(proofs, count);
                // What holds of each subject, and of each alignment.
                let _ = subject.first();
                let _ = alignment.counts();
                let subject = subject.copy(alloc)?;
                Ok(Coupled {
                    subject,
                    alignment,
                    family,
                    proofs,
                })
            }
        }
    }

    /// The subject.
    pub fn subject(&self) -> &Subject
        ensures { result.now ≡ self.now.subject }
    {
        &self.subject
    }

    /// The alignment.
    pub fn alignment(&self) -> Alignment
        ensures { result ≡ self.now.alignment }
    {
        self.alignment
    }

    /// The family. What holds of every such value is handed on here.
    pub fn family(&self) -> &Family
        ensures family { result.now ≡ self.now.family }
        ensures coupled { IsCoupled self.now }
    {
        &self.family
    }

    /// A list of multipliers for each obligation of the family, and no other.
    pub fn proofs(&self) -> &Proofs
        ensures { result.now ≡ self.now.proofs }
    {
        &self.proofs
    }

    /// An equal value.
    pub fn copy(&self, alloc: Global) -> Result<Coupled, AllocError>
        ensures { IfOk result (λ made. made ≡ self.now) }
    {
        let subject = self.subject.copy(alloc)?;
        let family = self.family.copy(alloc)?;
        let proofs = copy_proofs(alloc, &self.proofs)?;
        Ok(Coupled {
            subject,
            alignment: self.alignment,
            family,
            proofs,
        })
    }
}
