//! What a search is about: two functions with as many parameters, the settings, and a condition on
//! the inputs.
ghost use Rattle.std.specs.Prelude.{◌≡◌, ◌↔◌, IsTrue, IfOk, Some, None};
ghost use Rattle.std.specs.Option.{option_copied};

use crate::copy::copy_expr;
use crate::same::same_expr;
use crate::{Expr, Func, Settings};
use std::alloc::{AllocError, Global};
use std::marker::Model;

/// The functions have these numbers of parameters, which differ.
#[derive(Clone, Copy, Debug, PartialEq, Eq)]
pub struct Arity {
    pub first: u32,
    pub second: u32,
}

/// Two functions that are compared, the settings, and the condition that the inputs are to meet, if
/// there is one.
#[derive(Debug, Drop)]
pub struct Subject {
    first: Func,
    second: Func,
    settings: Settings,
    condition: Option<Expr>,
}

impl Model for Subject {
    ghost use Rattle.std.specs.Coded.{codes};
    ghost use Rattle.c_ast.specs.contracts.stmt.Stmt as stmts;
    ghost use Rattle.c_ast.specs.contracts.expr.Expr as exprs;
    ghost use Rattle.c_ast.specs.Comparison.{Comparison, IsComparison, comparison};

    ghost Value = { Comparison };

    ghost coded = { Prim.hlevel (codes, stmts.the_row.coded, exprs.the_row.coded) };

    ghost view = { λ s. comparison s.first s.second s.settings s.condition };

    ghost invariant = { λ s. IsComparison (comparison s.first s.second s.settings s.condition) };
}

fn same_condition(first: &Option<Expr>, second: &Option<Expr>) -> bool
    ensures { IsTrue result ↔ (first.now ≡ second.now) }
{
    match (first, second) {
        (None, None) => true,
        (Some(condition), Some(other)) => same_expr(condition, other),
        _ => false,
    }
}

fn copy_condition(alloc: Global, condition: &Option<Expr>) -> Result<Option<Expr>, AllocError>
    ensures { IfOk result (λ made. made ≡ condition.now) }
{
    match condition {
        None => Ok(None),
        Some(condition) => {
            let made = copy_expr(alloc, condition)?;
            Ok(Some(made))
        }
    }
}

impl Subject {
    ghost use Rattle.c_ast.specs.Function.{IsFunction};
    ghost use Rattle.c_ast.specs.Comparison.{IsComparison, IsCondition};
    ghost use Rattle.c_ast.specs.Compares.{Compares};

    /// The subject of these functions, unless the numbers of their parameters differ. All inputs
    /// meet its condition. Takes no memory; refused functions are dropped.
    pub fn new(first: Func, second: Func, settings: Settings) -> Result<Subject, Arity>
        ensures { Compares first second settings None result }
    {
        Subject::of_parts(first, second, settings, None)
    }

    /// The same with a condition on the inputs: an expression over the parameters of the first
    /// function.
    pub fn with_condition(
        first: Func,
        second: Func,
        settings: Settings,
        condition: Expr,
    ) -> Result<Subject, Arity>
        requires { IsCondition first condition }
        ensures { Compares first second settings (Some condition) result }
    {
        Subject::of_parts(first, second, settings, Some(condition))
    }

    fn of_parts(
        first: Func,
        second: Func,
        settings: Settings,
        condition: Option<Expr>,
    ) -> Result<Subject, Arity>
        requires { (given : Expr) → condition ≡ Some given → IsCondition first given }
        ensures { Compares first second settings condition result }
    {
        let (m, n) = (first.params(), second.params());
        if m != n {
            return Err(Arity {
                first: m,
                second: n,
            });
        }
        let _ = first.body();
        let _ = second.body();
        Ok(Subject {
            first,
            second,
            settings,
            condition,
        })
    }

    /// The first function.
    pub fn first(&self) -> &Func
        ensures function { result.now ≡ self.now.first }
        ensures formed { IsComparison self.now }
    {
        &self.first
    }

    /// The second function.
    pub fn second(&self) -> &Func
        ensures function { result.now ≡ self.now.second }
        ensures formed { IsComparison self.now }
    {
        &self.second
    }

    /// The settings.
    pub fn settings(&self) -> Settings
        ensures { result ≡ self.now.settings }
    {
        self.settings
    }

    /// The condition on the inputs, if one is given.
    pub fn condition(&self) -> Option<&Expr>
        ensures condition { option_copied result ≡ self.now.condition }
        ensures formed { IsComparison self.now }
    {
        self.condition.as_ref()
    }

    /// Whether all is equal. Takes no memory.
    pub fn same(&self, other: &Subject) -> bool
        ensures { IsTrue result ↔ (self.now ≡ other.now) }
    {
        self.first.same(&other.first)
            && self.second.same(&other.second)
            && self.settings.same(&other.settings)
            && same_condition(&self.condition, &other.condition)
    }

    /// An equal subject.
    pub fn copy(&self, alloc: Global) -> Result<Subject, AllocError>
        ensures { IfOk result (λ made. made ≡ self.now) }
    {
        let first = self.first.copy(alloc)?;
        let second = self.second.copy(alloc)?;
        let condition = copy_condition(alloc, &self.condition)?;
        Ok(Subject {
            first,
            second,
            settings: self.settings,
            condition,
        })
    }
}
