//! Declarations and assignments (ISO C11, 6.7 and 6.5.16).
//!
//! A declared variable becomes 0 each time its declaration is reached, and then its initial value,
//! in which it is in scope.
ghost use Rattle.std.specs.Prelude.{◌≡◌, ◌∷◌, [], ◌++◌, Bool, map, MatchResult, IfErr, OnOk};
ghost use Rattle.c_ast.specs.RawTree as raw;
ghost use Rattle.c_ast.specs.RawView.{raw_declared_of, raw_expression_of};
ghost use Rattle.c_check.specs.declared.fault.CheckFault.TheVariants as fault;
ghost use Rattle.c_check.specs.Resolving.{Puts, Pushes, FailsIn, Declares, FailsDeclaring};

use crate::CheckFault;
use crate::resolver::Resolver;
use c_ast::{Expr, Name, RawDeclarator, RawExpr, Stmt};
use sqlite_items::Items;

/// Puts one more statement behind others.
pub(crate) fn put(made: &mut Items<Stmt>, stmt: Stmt) -> Result<(), CheckFault>
    ensures put { OnOk result (made.new ≡ made.old ++ stmt ∷ []) }
    ensures memory { IfErr result (λ first. first ≡ fault.Memory) }
{
    made.push(stmt)?;
    Ok(())
}

impl Resolver {
    /// Declares a variable, sets it to 0, and then to its initial value.
    fn declarator(
        &mut self,
        declarator: &RawDeclarator,
        made: &mut Items<Stmt>,
    ) -> Result<(), CheckFault>
        ensures { MatchResult result
            (λ _. Declares (raw_declared_of declarator.now) self.old self.new made.old made.new)
            (λ first. FailsDeclaring (raw_declared_of declarator.now) self.old first) }
    {
        let number = self.declare(&declarator.var)?;
        let value = self.initial_value(&declarator.initialiser)?;
        put(made, Stmt::Set(number, Expr::Num(0)))?;
        if let Some(value) = value {
            put(made, Stmt::Set(number, value))?;
        }
        Ok(())
    }

    /// Goes over the declarators of a declaration.
    pub(crate) fn declarators(
        &mut self,
        declarators: &[RawDeclarator],
        made: &mut Items<Stmt>,
    ) -> Result<(), CheckFault>
        ensures { MatchResult result
            (λ _. (in_loop : Bool) →
            Pushes in_loop (raw.Declare (map raw_declared_of declarators.now))
            self.old self.new made.old made.new)
            (λ first. (in_loop : Bool) →
            FailsIn in_loop (raw.Declare (map raw_declared_of declarators.now)) self.old first) }
    {
        for declared in declarators {
            self.declarator(declared, made)?;
        }
        Ok(())
    }

    /// Sets the variable that the name stands for.
    pub(crate) fn assignment(
        &self,
        name: &Name,
        line: u32,
        value: &RawExpr,
    ) -> Result<Stmt, CheckFault>
        ensures { MatchResult result
            (λ stmt. (in_loop : Bool) →
            Puts in_loop (raw.Assign name.now line (raw_expression_of value.now))
            self.now self.now stmt)
            (λ first. (in_loop : Bool) →
            FailsIn in_loop (raw.Assign name.now line (raw_expression_of value.now))
            self.now first) }
    {
        let number = self.variable(name, line)?;
        let value = self.expression(value)?;
        Ok(Stmt::Set(number, value))
    }
}
