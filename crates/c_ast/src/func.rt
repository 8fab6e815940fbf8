//! A function whose names are resolved. Its variables are numbered from 0: the parameters come
//! first, then the declarations in the order of the source. `specs/Function.antt` says which parts
//! make a function.
ghost use Rattle.std.specs.Prelude.{◌≡◌, ◌↔◌, List, ℤ, length, MatchOption, IfSome, IfOk, IsTrue};
ghost use Rattle.c_ast.specs.declared.expr.Expr.{Expr};

use crate::copy::{copy_stmts, copy_vars};
use crate::same::{same_stmts, same_vars};
use crate::{Expr, Name, Stmt};
use sqlite_items::Items;
use std::alloc::{AllocError, Global};
use std::marker::Model;

/// A variable's name, and the line of its declaration, from 1.
#[derive(Debug, Drop)]
pub struct Var {
    pub name: Name,
    pub line: u32,
}

/// A function that is well formed.
#[derive(Debug, Drop)]
pub struct Func {
    name: Name,
    params: u32,
    vars: Items<Var>,
    body: Items<Stmt>,
}

impl Model for Func {
    ghost use Rattle.std.specs.Coded.{codes};
    ghost use Rattle.c_ast.specs.contracts.stmt.Stmt as stmts;
    ghost use Rattle.c_ast.specs.Function.{Function, IsFunction, function};

    ghost Value = { Function };

    ghost coded = { Prim.hlevel (codes, stmts.the_row.coded) };

    ghost view = { λ f. function f.name f.params f.vars f.body };

    ghost invariant = { λ f. IsFunction (function f.name f.params f.vars f.body) };
}

impl Func {
    ghost use Rattle.c_ast.specs.Function.{Function, IsFunction, ReturnsOne, function, program_of};
    ghost use Rattle.c_ast.specs.Returns.{Returns};
    ghost use Rattle.c_ast.specs.Value.{eval, CanEvaluate};
    ghost use Rattle.c_ast.specs.View.{expression_of};

    /// The function of these parts, of which the first `params` variables are the parameters. Takes
    /// no memory.
    pub fn new(name: Name, params: u32, vars: Vec<Var>, body: Vec<Stmt>) -> Func
        requires { IsFunction (function name params vars.items body.items) }
        ensures { result ≡ function name params vars.items body.items }
    {
        Func {
            name,
            params,
            vars: Items::from_vec(vars),
            body: Items::from_vec(body),
        }
    }

    /// The function's name.
    pub fn name(&self) -> &Name
        ensures { result.now ≡ self.now.name }
    {
        &self.name
    }

    /// The number of its parameters.
    pub fn params(&self) -> u32
        ensures { result ≡ self.now.params }
    {
        self.params
    }

    /// All its variables, by number.
    pub fn vars(&self) -> &[Var]
        ensures { result.now ≡ self.now.vars }
    {
        self.vars.as_slice()
    }

    /// Its statements.
    pub fn body(&self) -> &[Stmt]
        ensures body { result.now ≡ self.now.body }
        ensures formed { IsFunction self.now }
    {
        self.body.as_slice()
    }

    fn one_return(&self) -> Option<&Expr>
        ensures returns { MatchOption result
            ((e : Expr) → ¬ ReturnsOne self.now e) (λ e. ReturnsOne self.now e.now) }
        ensures formed { IsFunction self.now }
    {
        match self.body.as_slice() {
            [Stmt::Return(expr)] => Some(expr),
            _ => None,
        }
    }

    /// The expression of its body, where that is one `return`. Its value is then what the function
    /// returns, and nothing else is.
    pub fn returned(&self) -> Option<&Expr>
        ensures returns { MatchOption result
            ((e : Expr) → ¬ ReturnsOne self.now e) (λ e. ReturnsOne self.now e.now) }
        ensures variables { IfSome result
            (λ e. CanEvaluate self.now.params (expression_of e.now)) }
        ensures value { IfSome result (λ e. (inputs : List ℤ) (value : ℤ)
            → length inputs ≡ self.now.params
            → (Returns (program_of self.now) inputs value
            ↔ (value ≡ eval (expression_of e.now) inputs))) }
    {
        self.one_return()
    }

    /// Whether all is equal. Takes no memory.
    pub fn same(&self, other: &Func) -> bool
        ensures { IsTrue result ↔ (self.now ≡ other.now) }
    {
        self.params == other.params
            && self.name.same(&other.name)
            && same_vars(self.vars.as_slice(), other.vars.as_slice())
            && same_stmts(self.body.as_slice(), other.body.as_slice())
    }

    /// An equal function.
    pub fn copy(&self, alloc: Global) -> Result<Func, AllocError>
        ensures { IfOk result (λ made. made ≡ self.now) }
    {
        let name = self.name.copy()?;
        let vars = copy_vars(alloc, self.vars.as_slice())?;
        let body = copy_stmts(alloc, self.body.as_slice())?;
        Ok(Func {
            name,
            params: self.params,
            vars,
            body,
        })
    }
}
