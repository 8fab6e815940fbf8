//! Goes over statements in the order of the source (ISO C11, 6.8). The first fault ends it.
//!
//! A branch, the body of a loop and the third part of a `for` head are blocks of their own.
//! `in_loop` says whether a statement stands in the body of a loop.
ghost use Rattle.std.specs.Prelude.{◌≡◌, true, option_map, None, Some, MatchResult};
ghost use Rattle.c_ast.specs.RawTree as raw;
ghost use Rattle.c_ast.specs.RawView.{raw_condition_of, raw_one, raw_optional, raw_put_in_front, raw_statements_of};
ghost use Rattle.c_ast.specs.declared.stmt.Stmt.{Loop};
ghost use Rattle.c_ast.specs.View.{statements_of};
ghost use Rattle.c_check.specs.Resolving.{made, closed, entered, statements_at, Gives, Puts, Pushes, FailsIn};
ghost use Rattle.c_check.specs.Occurrences.{Jump};
ghost use Rattle.c_check.specs.Faults.{fault_of};

use crate::CheckFault;
use crate::declaration::put;
use crate::loops::loop_mark;
use crate::resolver::Resolver;
use c_ast::{Expr, RawCond, RawStmt, Stmt};
use sqlite_items::{Boxed, Items};

/// A loop that tests first.
fn tests_first(mark: Option<u32>, cond: Expr, body: Items<Stmt>, step: Items<Stmt>) -> Stmt
    ensures { result ≡ Loop mark cond body step true }
{
    Stmt::Loop {
        mark,
        cond,
        body,
        step,
        test_first: true,
    }
}

impl Resolver {
    /// A `break` or `continue` stands here.
    fn jump(&self, in_loop: bool, line: u32, stmt: Stmt) -> Result<Stmt, CheckFault>
        ensures { MatchResult result
            (λ made. (fault_of self.now.marks (Jump in_loop line) ≡ None) × (made ≡ stmt))
            (λ first. fault_of self.now.marks (Jump in_loop line) ≡ Some first) }
    {
        if in_loop {
            Ok(stmt)
        } else {
            Err(CheckFault::Outside { line })
        }
    }

    /// A list of statements.
    #[cycle(walk)]
    pub(crate) fn items(
        &mut self,
        in_loop: bool,
        stmts: &[RawStmt],
    ) -> Result<Items<Stmt>, CheckFault>
        ensures { Gives (λ found. made self.new (statements_of found)) result
            (statements_at self.old in_loop (raw_statements_of stmts.now)) }
    {
        let mut made = Items::new(self.alloc);
        for stmt in stmts {
            self.item(in_loop, stmt, &mut made)?;
        }
        Ok(made)
    }

    /// One statement, in no block of its own.
    #[cycle(walk)]
    fn one(&mut self, in_loop: bool, stmt: &RawStmt) -> Result<Items<Stmt>, CheckFault>
        ensures { Gives (λ found. made self.new (statements_of found)) result
            (statements_at self.old in_loop (raw_one (raw_put_in_front stmt.now))) }
    {
        let mut made = Items::new(self.alloc);
        self.item(in_loop, stmt, &mut made)?;
        Ok(made)
    }

    /// One statement or none, in no block of its own.
    #[cycle(walk)]
    fn one_or_none(
        &mut self,
        in_loop: bool,
        stmt: &Option<Boxed<RawStmt>>,
    ) -> Result<Items<Stmt>, CheckFault>
        ensures { Gives (λ found. made self.new (statements_of found)) result
            (statements_at self.old in_loop (raw_optional (option_map raw_put_in_front stmt.now))) }
    {
        match stmt {
            None => Ok(Items::new(self.alloc)),
            Some(stmt) => {
                let made = self.one(in_loop, stmt.get())?;
                Ok(made)
            }
        }
    }

    /// A branch, or the body of a loop.
    #[cycle(walk)]
    fn block(&mut self, in_loop: bool, stmt: &RawStmt) -> Result<Items<Stmt>, CheckFault>
        ensures { Gives (λ found. made self.new (statements_of found)) result
            (closed (statements_at (entered self.old) in_loop
            (raw_one (raw_put_in_front stmt.now)))) }
    {
        self.enter()?;
        let made = self.one(in_loop, stmt)?;
        self.leave();
        Ok(made)
    }

    /// A branch after `else` or the third part of a `for` head, where there is one.
    #[cycle(walk)]
    fn block_or_none(
        &mut self,
        in_loop: bool,
        stmt: &Option<Boxed<RawStmt>>,
    ) -> Result<Items<Stmt>, CheckFault>
        ensures { Gives (λ found. made self.new (statements_of found)) result
            (closed (statements_at (entered self.old) in_loop
            (raw_optional (option_map raw_put_in_front stmt.now)))) }
    {
        self.enter()?;
        let made = self.one_or_none(in_loop, stmt)?;
        self.leave();
        Ok(made)
    }

    /// A block that is a statement.
    #[cycle(walk)]
    fn compound(&mut self, in_loop: bool, stmts: &[RawStmt]) -> Result<Stmt, CheckFault>
        ensures { MatchResult result
            (λ stmt. Puts in_loop (raw.Block (raw_statements_of stmts.now))
            self.old self.new stmt)
            (FailsIn in_loop (raw.Block (raw_statements_of stmts.now)) self.old) }
    {
        self.enter()?;
        let made = self.items(in_loop, stmts)?;
        self.leave();
        Ok(Stmt::Block(made))
    }

    /// A loop that tests first: its condition stands before its body in the source.
    #[cycle(walk)]
    fn while_loop(
        &mut self,
        in_loop: bool,
        cond: &RawCond,
        body: &RawStmt,
    ) -> Result<Stmt, CheckFault>
        ensures { MatchResult result
            (λ stmt. Puts in_loop
            (raw.While (raw_condition_of cond.now) (raw_one (raw_put_in_front body.now)))
            self.old self.new stmt)
            (FailsIn in_loop
            (raw.While (raw_condition_of cond.now) (raw_one (raw_put_in_front body.now)))
            self.old) }
    {
        let before = self.begin_loop()?;
        let found = self.condition(cond)?;
        let made = self.block(true, body)?;
        Ok(Stmt::Loop {
            mark: loop_mark(found.mark, body, before),
            cond: found.cond,
            body: made,
            step: Items::new(self.alloc),
            test_first: true,
        })
    }

    /// A loop that tests last: its condition stands behind its body in the source.
    #[cycle(walk)]
    fn do_loop(&mut self, in_loop: bool, body: &RawStmt, cond: &RawCond) -> Result<Stmt, CheckFault>
        ensures { MatchResult result
            (λ stmt. Puts in_loop
            (raw.Do (raw_one (raw_put_in_front body.now)) (raw_condition_of cond.now))
            self.old self.new stmt)
            (FailsIn in_loop
            (raw.Do (raw_one (raw_put_in_front body.now)) (raw_condition_of cond.now))
            self.old) }
    {
        let before = self.begin_loop()?;
        let made = self.block(true, body)?;
        let found = self.condition(cond)?;
        Ok(Stmt::Loop {
            mark: loop_mark(found.mark, body, before),
            cond: found.cond,
            body: made,
            step: Items::new(self.alloc),
            test_first: false,
        })
    }

    /// Goes over a statement, and puts what it stands for behind others.
    #[cycle(walk)]
    fn item(
        &mut self,
        in_loop: bool,
        stmt: &RawStmt,
        made: &mut Items<Stmt>,
    ) -> Result<(), CheckFault>
        ensures { MatchResult result
            (λ _. Pushes in_loop (raw_put_in_front stmt.now) self.old self.new made.old made.new)
            (FailsIn in_loop (raw_put_in_front stmt.now) self.old) }
    {
        let found = match stmt {
            RawStmt::Declare(list) => {
                self.declarators(list.as_slice(), made)?;
                return Ok(());
            }
            RawStmt::Assign(name, line, value) => self.assignment(name, *line, value)?,
            RawStmt::If(cond, first, second) => {
                let cond = self.expression(cond)?;
                let first = self.block(in_loop, first.get())?;
                let second = self.block_or_none(in_loop, second)?;
                Stmt::If(cond, first, second)
            }
            RawStmt::While(cond, body) => self.while_loop(in_loop, cond, body.get())?,
            RawStmt::Do(body, cond) => self.do_loop(in_loop, body.get(), cond)?,
            // The three parts of its head stand before its body in the source. It is a block, in
            // which what its head declares is in scope.
            RawStmt::For(start, cond, step, body) => {
                let before = self.begin_loop()?;
                self.enter()?;
                let mut head = self.one_or_none(in_loop, start)?;
                let found = self.condition_option(cond)?;
                let next = self.block_or_none(in_loop, step)?;
                let inner = self.block(true, body.get())?;
                let mark = loop_mark(found.mark, body.get(), before);
                put(&mut head, tests_first(mark, found.cond, inner, next))?;
                self.leave();
                Stmt::Block(head)
            }
            RawStmt::Break(line) => self.jump(in_loop, *line, Stmt::Break)?,
            RawStmt::Continue(line) => self.jump(in_loop, *line, Stmt::Continue)?,
            RawStmt::Return(value) => Stmt::Return(self.expression(value)?),
            RawStmt::Mark(mark) => Stmt::Mark(self.mark(*mark)?),
            RawStmt::Block(list) => self.compound(in_loop, list.as_slice())?,
            RawStmt::Empty => return Ok(()),
        };
        put(made, found)
    }
}
