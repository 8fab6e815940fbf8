//! The search.
ghost use Rattle.std.specs.Prelude.{◌≤◌, IfOk, IfErr};
ghost use Rattle.coupling_check.specs.Checks.{CanCheck};
ghost use Rattle.houdini.specs.Answers.{AnswersSearch};
ghost use Rattle.houdini.specs.Pass.{IsCause, IsOpenIn};
ghost use Rattle.houdini.specs.Round.{AnswersRound, IsStruck};

use crate::Stop;
use crate::entry_exit::{count_at_entries, may_couple};
use crate::narrow::narrow;
use crate::pass::{Ending, ask_clauses};
use crate::strike::strike;
use elimination::Limit;
use horn_clauses::{Family, Product, Proofs};
use re_base::Watch;
use sqlite_items::Items;
use std::alloc::{AllocError, Global};

/// What a search answers.
#[derive(Debug, Drop)]
pub enum Outcome {
    /// The greatest linear family of candidates, with multipliers for its obligations.
    Kept(Family, Proofs),
    /// No family of candidates is linear.
    NoCoupling,
    /// The obligation with this number, over the family that was left, has a limit in elimination.
    Limit {
        /// Its number among the obligations of `left`, from 0.
        obligation: usize,
        /// What was left of the candidates: it contains every linear family of them.
        left: Family,
        limit: Limit,
    },
}

// ---- the rounds

/// What comes of one round.
#[derive(Debug, Drop)]
pub enum Round {
    /// All obligations of the family are proved.
    Proved(Family, Proofs),
    /// An atom was struck: the family without it.
    Struck(Family),
    /// The obligation with this number over the family has a limit.
    Limited(usize, Family, Limit),
}

/// The family without the atom that a pass found open.
fn strike_open(
    product: &Product,
    family: Family,
    number: usize,
    place: usize,
) -> Result<Family, AllocError>
    requires { IsOpenIn family product.now.clauses number place }
    ensures { IfOk result (IsStruck product.now family) }
{
    let clauses = product.clauses.as_slice();
    let left = strike(family, &clauses[number].to, place)?;
    Ok(left)
}

/// Asks for the family's obligations, and strikes an atom where one is not refutable.
fn take_round<W: Watch>(
    alloc: Global,
    product: &Product,
    family: Family,
    cap: u32,
    watch: &mut W,
) -> Result<Round, Stop>
    requires { CanCheck product.now family }
    ensures answers { IfOk result (AnswersRound product.now family cap) }
    ensures later { W.stops watch.old ≤ W.stops watch.new }
    ensures cause { IfErr result (IsCause (W.stops watch.old) (W.stops watch.new)) }
{
    let mut lists = Items::new(alloc);
    let clauses = product.clauses.as_slice();
    match ask_clauses(alloc, &family, cap, clauses, watch, &mut lists) {
        Ok(()) => Ok(Round::Proved(family, Proofs { lists })),
        Err(Ending::Open { clause, atom }) => {
            let left = strike_open(product, family, clause, atom)?;
            Ok(Round::Struck(left))
        }
        Err(Ending::Limit(limit)) => Ok(Round::Limited(lists.len(), family, limit)),
        Err(Ending::Stop(why)) => Err(why),
    }
}

/// The greatest linear family of the candidates over the product, with multipliers for each of its
/// obligations; or that no family of them is linear; or the first limit that elimination meets,
/// with lists of at most `cap` rows. The watch is asked before each obligation.
///
/// Example: of `x - y = 0` and `x >= 0` at both ends of a clause from the entries to the exits that
/// adds 1 to both x and y, all is kept. Where it adds 1 to x alone, there is no coupling.
pub fn greatest<W: Watch>(
    alloc: Global,
    product: &Product,
    candidates: Family,
    cap: u32,
    watch: &mut W,
) -> Result<Outcome, Stop>
    requires { CanCheck product.now candidates }
    ensures answers { IfOk result (AnswersSearch product.now candidates cap) }

    // The count of the watch never falls, and it is stopped only where that rose.
    ensures later { W.stops watch.old ≤ W.stops watch.new }
    ensures cause { IfErr result (IsCause (W.stops watch.old) (W.stops watch.new)) }
{
    let at_entries = count_at_entries(&candidates);
    let mut left = narrow(alloc, product, candidates, at_entries, watch)?;
    while may_couple(&left, at_entries) {
        match take_round(alloc, product, left, cap, watch)? {
            Round::Proved(family, proofs) => return Ok(Outcome::Kept(family, proofs)),
            Round::Struck(fewer) => left = fewer,
            Round::Limited(obligation, left, limit) => {
                return Ok(Outcome::Limit {
                    obligation,
                    left,
                    limit,
                });
            }
        }
    }
    Ok(Outcome::NoCoupling)
}
