//! The parts of a loop: its condition, and the mark that each of its turns passes.
//!
//! A loop that names no mark, and whose body does not begin with one, gets an automatic mark by its
//! number among all the loops of the function.
ghost use Rattle.std.specs.Prelude.{◌≡◌, ◌<◌, ◌+◌, ◌^◌, option_map, IfOk};
ghost use Rattle.c_ast.specs.RawView.{raw_condition_of, raw_one, raw_put_in_front};
ghost use Rattle.c_ast.specs.View.{expression_of};
ghost use Rattle.c_check.specs.Resolves.{first_automatic, begins_with_mark, loop_mark, named_mark};
ghost use Rattle.c_check.specs.Resolving.{condition_at, condition_option_at, with_condition, Gives};

use crate::CheckFault;
use crate::marks::FIRST_AUTOMATIC;
use crate::resolver::Resolver;
use c_ast::{Expr, RawCond, RawStmt};

/// A loop's condition, with the mark that it names.
#[derive(Drop)]
pub(crate) struct LoopTest {
    pub(crate) mark: Option<u32>,
    pub(crate) cond: Expr,
}

/// Whether the body of a loop is a mark statement, or a block that begins with one. A mark within
/// an inner block does not count.
fn begins_with_mark(body: &RawStmt) -> bool
    ensures { result ≡ begins_with_mark (raw_one (raw_put_in_front body.now)) }
{
    match body {
        RawStmt::Mark(_) => true,
        RawStmt::Block(items) => match items.as_slice() {
            [RawStmt::Mark(_), ..] => true,
            _ => false,
        },
        _ => false,
    }
}

/// The mark of a loop behind so many others.
pub(crate) fn loop_mark(named: Option<u32>, body: &RawStmt, before: u32) -> Option<u32>
    requires { first_automatic + before < 2 ^ 32 }
    ensures { result ≡ loop_mark named (raw_one (raw_put_in_front body.now)) before }
{
    match named {
        Some(mark) => Some(mark),
        None => {
            if begins_with_mark(body) {
                None
            } else {
                Some(FIRST_AUTOMATIC + before)
            }
        }
    }
}

impl Resolver {
    /// A condition, behind the mark that it names.
    pub(crate) fn condition(&mut self, raw: &RawCond) -> Result<LoopTest, CheckFault>
        ensures made { Gives (λ found. with_condition self.new (expression_of found.cond)) result
            (condition_at self.old (raw_condition_of raw.now)) }
        ensures mark { IfOk result (λ found. found.mark ≡ raw.now.mark) }
    {
        match raw.mark {
            None => {
                let cond = self.expression(&raw.cond)?;
                Ok(LoopTest { mark: None, cond })
            }
            Some(mark) => {
                let mark = self.mark(mark)?;
                let cond = self.expression(&raw.cond)?;
                Ok(LoopTest {
                    mark: Some(mark),
                    cond,
                })
            }
        }
    }

    /// The condition of a `for`, which is 1 where none stands.
    pub(crate) fn condition_option(&mut self, raw: &Option<RawCond>) -> Result<LoopTest, CheckFault>
        ensures made { Gives (λ found. with_condition self.new (expression_of found.cond)) result
            (condition_option_at self.old (option_map raw_condition_of raw.now)) }
        ensures mark { IfOk result
            (λ found. found.mark ≡ named_mark (option_map raw_condition_of raw.now)) }
    {
        match raw {
            None => Ok(LoopTest {
                mark: None,
                cond: Expr::Num(1),
            }),
            Some(raw) => {
                let found = self.condition(raw)?;
                Ok(found)
            }
        }
    }
}
