//! What is known at a place of a file that is gone over in the order of the source.
//!
//! Variables and loops are numbered in that order, from 0. The methods that go over expressions,
//! loops, declarations and statements stand in files of these names.
ghost use Rattle.std.specs.Prelude.{◌≡◌, ◌<◌, ◌+◌, ◌^◌, length, MatchResult, IfOk, IfErr, OnOk, Ok};
ghost use Rattle.c_check.specs.declared.fault.CheckFault.TheVariants as fault;
ghost use Rattle.c_check.specs.Resolves.{first_automatic};
ghost use Rattle.c_check.specs.Resolving.{Fails, entered, left, with_loop, with_variable, with_variables, nothing_known, declared_at, marked_at};

use crate::CheckFault;
use crate::marks::{FIRST_AUTOMATIC, Marks};
use crate::table::Table;
use c_ast::Var;
use sqlite_items::Items;
use std::alloc::Global;

/// What the statements before a place have declared and named.
#[derive(Drop)]
pub(crate) struct Resolver {
    /// Where the trees are made.
    pub(crate) alloc: Global,
    /// The variables in scope.
    pub(crate) table: Table,
    /// All variables, by number.
    pub(crate) vars: Items<Var>,
    pub(crate) marks: Marks,
    /// The number of loops.
    pub(crate) loops: u32,
}

/// A number for what stands behind so many others. There is none from 2^32 - 1 on.
fn numbered(count: usize) -> Result<u32, CheckFault>
    ensures number { IfOk result (λ number. number ≡ count) }
    ensures memory { IfErr result (λ first. first ≡ fault.Memory) }
{
    if count < u32::MAX as usize {
        Ok(count as u32)
    } else {
        Err(CheckFault::Memory)
    }
}

impl Resolver {
    /// Nothing stands before the place.
    pub(crate) fn new(alloc: Global) -> Resolver
        ensures { result ≡ nothing_known alloc }
    {
        Resolver {
            alloc,
            table: Table::new(alloc),
            vars: Items::new(alloc),
            marks: Marks::new(alloc),
            loops: 0,
        }
    }

    /// A block begins.
    pub(crate) fn enter(&mut self) -> Result<(), CheckFault>
        ensures entered { OnOk result (self.new ≡ entered self.old) }
        ensures memory { IfErr result (λ first. first ≡ fault.Memory) }
    {
        self.table.enter(self.alloc)?;
        Ok(())
    }

    /// A block ends.
    pub(crate) fn leave(&mut self)
        ensures { self.new ≡ left self.old }
    {
        self.table.leave(self.alloc);
    }

    /// The innermost block gets a variable, whatever it has; the variable's number is answered.
    fn add(&mut self, var: &Var) -> Result<u32, CheckFault>
        ensures added { OnOk result (self.new ≡ with_variable self.old var.now) }
        ensures number { IfOk result (λ number. number ≡ length self.old.vars) }
        ensures memory { IfErr result (λ first. first ≡ fault.Memory) }
    {
        let number = numbered(self.vars.as_slice().len())?;
        self.table.declare(self.alloc, &var.name, number)?;
        let name = var.name.copy()?;
        self.vars.push(Var {
            name,
            line: var.line,
        })?;
        Ok(number)
    }

    /// The innermost block gets these variables, whatever it has.
    pub(crate) fn add_all(&mut self, vars: &[Var]) -> Result<(), CheckFault>
        ensures added { OnOk result (self.new ≡ with_variables self.old vars.now) }
        ensures memory { IfErr result (λ first. first ≡ fault.Memory) }
    {
        for var in vars {
            self.add(var)?;
        }
        Ok(())
    }

    /// The innermost block declares a variable; its number is answered.
    pub(crate) fn declare(&mut self, var: &Var) -> Result<u32, CheckFault>
        ensures { MatchResult result
            (λ number. (declared_at self.old var.now ≡ Ok self.new)
            × (number ≡ length self.old.vars))
            (Fails (declared_at self.old var.now)) }
    {
        if self.table.declares(&var.name) {
            let name = var.name.copy()?;
            return Err(CheckFault::Twice {
                name,
                line: var.line,
            });
        }
        let number = self.add(var)?;
        Ok(number)
    }

    /// A mark is named.
    pub(crate) fn mark(&mut self, mark: u64) -> Result<u32, CheckFault>
        ensures { MatchResult result
            (λ number. (marked_at self.old mark ≡ Ok self.new) × (number ≡ mark))
            (Fails (marked_at self.old mark)) }
    {
        self.marks.add(mark)
    }

    /// A loop begins; the number of loops before it is answered.
    pub(crate) fn begin_loop(&mut self) -> Result<u32, CheckFault>
        ensures number { IfOk result (λ before. before ≡ self.old.loops) }
        ensures fits { IfOk result (λ before. first_automatic + before < 2 ^ 32) }
        ensures counted { OnOk result (self.new ≡ with_loop self.old) }
        ensures memory { IfErr result (λ first. first ≡ fault.Memory) }
    {
        let before = self.loops;
        if before >= u32::MAX - FIRST_AUTOMATIC {
            return Err(CheckFault::Memory);
        }
        self.loops = before + 1;
        Ok(before)
    }
}
