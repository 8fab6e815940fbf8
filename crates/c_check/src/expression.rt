//! Expressions: the names of variables become their numbers, and divisors their sizes.
//!
//! An operator stands before its right operand, so a right operand that is no divisor is refused
//! at the operator, whatever is wrong within it.
ghost use Rattle.std.specs.Prelude.{◌≡◌, option_map};
ghost use Rattle.c_ast.specs.RawView.{raw_expression_of};
ghost use Rattle.c_ast.specs.View.{expression_of};
ghost use Rattle.c_check.specs.Resolving.{scope_at, variable_in, expression_in, initial_value, Gives};

use crate::CheckFault;
use crate::divisor::{divides, division};
use crate::resolver::Resolver;
use c_ast::{Expr, Name, RawExpr};
use sqlite_items::Boxed;

impl Resolver {
    /// The number of the variable that a name stands for.
    pub(crate) fn variable(&self, name: &Name, line: u32) -> Result<u32, CheckFault>
        ensures { Gives (λ number. number) result
            (variable_in (scope_at self.now) name.now line) }
    {
        match self.table.number_of(name) {
            Some(number) => Ok(number),
            None => {
                let name = name.copy()?;
                Err(CheckFault::Undeclared { name, line })
            }
        }
    }

    /// The expression, with variables in place of names.
    pub(crate) fn expression(&self, expr: &RawExpr) -> Result<Expr, CheckFault>
        ensures { Gives expression_of result
            (expression_in (scope_at self.now) (raw_expression_of expr.now)) }
    {
        match expr {
            RawExpr::Num(constant) => Ok(Expr::Num(*constant)),
            RawExpr::Var(name, line) => {
                let number = self.variable(name, *line)?;
                Ok(Expr::Var(number))
            }
            RawExpr::Un(op, operand) => {
                let operand = self.expression(operand.get())?;
                Ok(Expr::Un(*op, Boxed::new(self.alloc, operand)?))
            }
            RawExpr::Bin(op, line, left, right) => {
                let left = self.expression(left.get())?;
                if divides(*op) {
                    let made = division(self.alloc, *op, *line, left, right.get())?;
                    return Ok(made);
                }
                let right = self.expression(right.get())?;
                let left = Boxed::new(self.alloc, left)?;
                let right = Boxed::new(self.alloc, right)?;
                Ok(Expr::Bin(*op, left, right))
            }
            RawExpr::Cond(cond, first, second) => {
                let cond = self.expression(cond.get())?;
                let first = self.expression(first.get())?;
                let second = self.expression(second.get())?;
                let cond = Boxed::new(self.alloc, cond)?;
                let first = Boxed::new(self.alloc, first)?;
                let second = Boxed::new(self.alloc, second)?;
                Ok(Expr::Cond(cond, first, second))
            }
        }
    }

    /// The value of an initialiser, where there is one.
    pub(crate) fn initial_value(&self, raw: &Option<RawExpr>) -> Result<Option<Expr>, CheckFault>
        ensures { Gives (option_map expression_of) result
            (initial_value (scope_at self.now) (option_map raw_expression_of raw.now)) }
    {
        match raw {
            None => Ok(None),
            Some(raw) => {
                let value = self.expression(raw)?;
                Ok(Some(value))
            }
        }
    }
}
