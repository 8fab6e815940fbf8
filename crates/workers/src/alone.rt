//! One worker alone: the samples in order, then the alignments, each on all pairs.
//!
//! Every step is a call of the pool, which is refused for want of memory at most. What has been
//! done so far is told by the history (`specs/Alone.antt`).
ghost use Rattle.std.specs.Prelude.{◌≡◌, ◌≢◌, ◌<◌, ℕ, List, suc, IfOk, IfErr, OnOk};
ghost use Rattle.c_ast.specs.declared.trace.Pair.{Pair};
ghost use Rattle.alignment.specs.Number.{IsAlignment};
ghost use Rattle.relation.specs.Coupled.{IsProductOf};
ghost use Rattle.trace_pair.specs.Pairs.{AreGraphsOf, IsPair, IsSkip};
ghost use Rattle.miners.specs.Candidates.{AreMinedFrom};
ghost use Rattle.pool_core.specs.declared.refused.PoolRefused.TheVariants.{Memory};
ghost use Rattle.pool_core.specs.declared.refused.Missing.TheVariants as missing;
ghost use Rattle.pool_core.specs.declared.verdict.Verdict.TheVariants.{Different};
ghost use Rattle.pool_core.specs.declared.verdict.Why.TheVariants as reason;
ghost use Rattle.path_product.specs.declared.limit.ProductLimit.TheVariants as product;
ghost use Rattle.workers.specs.declared.search.Found.TheVariants.{Refused};
ghost use Rattle.pool_core.specs.History.{pairs_of};
ghost use Rattle.pool_core.specs.Justified.{ArePairsAt};
ghost use Rattle.pool_core.specs.Plays.{snapshot_of, AnswersConclusion};
ghost use Rattle.pool_core.specs.Tried.{IsTried};
ghost use Rattle.workers.specs.Ground.{AreCasesOf, LimitsAll};
ghost use Rattle.workers.specs.Found.{AreMined, IsGreatestCoupling, Finds};
ghost use Rattle.workers.specs.Alone.{GoesOn, HasFirstVerdict, IsFinished, IsGroundOf, IsSampledTo, IsTriedTo};
ghost use Rattle.workers.specs.Solved.{IsSolvedAlone};

use crate::ground::Ground;
use crate::search::{Found, candidates_over, search};
use crate::solved::Solved;
use alignment::Alignment;
use c_ast::{Pair, Subject};
use horn_clauses::Product;
use houdini::Stop;
use miners::Candidates;
use path_product::ProductLimit;
use pool_core::{Missing, Pool, PoolRefused, Snapshot, Verdict, Why};
use re_base::Never;
use relation::Coupled;
use sqlite_items::Items;
use std::alloc::{AllocError, Global};
use trace_pair::{Graphs, PairRefused, Skipped, pair_on};

/// What is found is added by worker 0.
const ALONE: u32 = 0;

/// Want of memory, which alone may refuse a call.
fn for_memory(why: PoolRefused) -> AllocError
    requires { why ≡ Memory }
{
    AllocError
}

/// The verdict that the sample's pair shows a difference.
fn difference_of(alloc: Global, index: u32, pair: &Pair) -> Result<Verdict, AllocError>
    ensures { IfOk result (λ found. found
        ≡ Different index pair.now.input pair.now.first.result pair.now.second.result) }
{
    let input = Items::from_slice(alloc, pair.input.as_slice())?;
    Ok(Verdict::Different {
        index,
        input,
        first: pair.first.result,
        second: pair.second.result,
    })
}

/// Adds a pair whose results are equal.
fn add_equal(
    alloc: Global,
    pool: &mut Pool,
    subject: &Subject,
    index: u32,
    pair: Pair,
) -> Result<(), AllocError>
    requires own { pool.old.subject ≡ subject.now }
    requires below { index < subject.now.settings.samples }
    requires pair { IsPair subject.now index pair }
    requires equal { pair.first.result ≡ pair.second.result }
    requires sampled { IsSampledTo subject.now pool.old.items index }
    ensures own { OnOk result (pool.new.subject ≡ subject.now) }
    ensures sampled { OnOk result (IsSampledTo subject.now pool.new.items (suc index)) }
{
    match pool.append(alloc, ALONE, subject, index, pair) {
        Ok(_) => {
            // The history is legal.
            let _ = pool.history();
            Ok(())
        }
        Err(why) => Err(for_memory(why)),
    }
}

/// Adds that the sample is skipped.
fn add_skip(
    pool: &mut Pool,
    subject: &Subject,
    index: u32,
    skipped: Skipped,
) -> Result<(), AllocError>
    requires own { pool.old.subject ≡ subject.now }
    requires below { index < subject.now.settings.samples }
    requires skip { IsSkip subject.now index skipped }
    requires sampled { IsSampledTo subject.now pool.old.items index }
    ensures own { OnOk result (pool.new.subject ≡ subject.now) }
    ensures sampled { OnOk result (IsSampledTo subject.now pool.new.items (suc index)) }
{
    match pool.skip(ALONE, subject, index, skipped) {
        Ok(_) => {
            // The history is legal.
            let _ = pool.history();
            Ok(())
        }
        Err(why) => Err(for_memory(why)),
    }
}

/// Adds a pair whose results differ, and posts that they do.
fn add_difference(
    alloc: Global,
    pool: &mut Pool,
    subject: &Subject,
    index: u32,
    pair: Pair,
) -> Result<(), AllocError>
    requires own { pool.old.subject ≡ subject.now }
    requires below { index < subject.now.settings.samples }
    requires pair { IsPair subject.now index pair }
    requires differ { pair.first.result ≢ pair.second.result }
    requires sampled { IsSampledTo subject.now pool.old.items index }
    ensures own { OnOk result (pool.new.subject ≡ subject.now) }
    ensures first { OnOk result (HasFirstVerdict subject.now pool.new.items) }
{
    let difference = difference_of(alloc, index, &pair)?;
    if let Err(why) = pool.append(alloc, ALONE, subject, index, pair) {
        return Err(for_memory(why));
    }
    if let Err(why) = pool.post(ALONE, difference) {
        return Err(for_memory(why));
    }
    // The history is legal.
    let _ = pool.history();
    Ok(())
}

/// Adds a pair; whether its results differ, so that a verdict is posted.
fn add_pair(
    alloc: Global,
    pool: &mut Pool,
    subject: &Subject,
    index: u32,
    pair: Pair,
) -> Result<bool, AllocError>
    requires own { pool.old.subject ≡ subject.now }
    requires below { index < subject.now.settings.samples }
    requires pair { IsPair subject.now index pair }
    requires sampled { IsSampledTo subject.now pool.old.items index }
    ensures own { OnOk result (pool.new.subject ≡ subject.now) }
    ensures goes { IfOk result (λ found. GoesOn found subject.now pool.new.items
        (IsSampledTo subject.now pool.new.items (suc index))) }
{
    if pair.first.result == pair.second.result {
        add_equal(alloc, pool, subject, index, pair)?;
        return Ok(false);
    }
    add_difference(alloc, pool, subject, index, pair)?;
    Ok(true)
}

/// Takes the sample; whether a verdict is posted.
fn take_sample(
    alloc: Global,
    pool: &mut Pool,
    subject: &Subject,
    graphs: &Graphs,
    index: u32,
) -> Result<bool, AllocError>
    requires graphs { AreGraphsOf subject.now graphs.now }
    requires own { pool.old.subject ≡ subject.now }
    requires below { index < subject.now.settings.samples }
    requires sampled { IsSampledTo subject.now pool.old.items index }
    ensures own { OnOk result (pool.new.subject ≡ subject.now) }
    ensures goes { IfOk result (λ found. GoesOn found subject.now pool.new.items
        (IsSampledTo subject.now pool.new.items (suc index))) }
{
    match pair_on(alloc, subject, graphs, index) {
        Ok(pair) => add_pair(alloc, pool, subject, index, pair),
        Err(PairRefused::Skipped(skipped)) => {
            add_skip(pool, subject, index, skipped)?;
            Ok(false)
        }
        Err(PairRefused::Memory) => Err(AllocError),
    }
}

/// Takes the samples in order, up to the first whose results differ; whether there is one.
fn take_samples(
    alloc: Global,
    pool: &mut Pool,
    subject: &Subject,
    graphs: &Graphs,
) -> Result<bool, AllocError>
    requires graphs { AreGraphsOf subject.now graphs.now }
    requires own { pool.old.subject ≡ subject.now }
    requires sampled { IsSampledTo subject.now pool.old.items 0 }
    ensures own { OnOk result (pool.new.subject ≡ subject.now) }
    ensures goes { IfOk result (λ found. GoesOn found subject.now pool.new.items
        (IsTriedTo subject.now pool.new.items 1)) }
{
    let samples = subject.settings().samples();
    for index in 0..samples {
        if take_sample(alloc, pool, subject, graphs, index)? {
            return Ok(true);
        }
    }
    Ok(false)
}

// ---- the alignments

/// What is found over the product, with these candidates.
fn find_over(
    alloc: Global,
    subject: &Subject,
    graphs: &Graphs,
    product: &Product,
    alignment: Alignment,
    candidates: &Candidates,
) -> Result<Found, AllocError>
    requires product { IsProductOf subject.now alignment graphs.now.first graphs.now.second
        product.now }
    requires mined { AreMined subject.now alignment candidates.now }
    ensures found { (indexes : List ℕ) (pairs : List Pair) → ArePairsAt subject.now indexes pairs
        → AreMinedFrom subject.now alignment pairs candidates.now
        → IfOk result (Finds subject.now alignment pairs) }
{
    let family = candidates_over(alloc, product.nodes.as_slice(), candidates)?;
    match search(
        alloc, subject, graphs, product, alignment, family, &mut Never,
    ) {
        Ok(found) => Ok(found),
        Err(Stop::Memory) => Err(AllocError),
        Err(Stop::Stopped) => unreachable!(),
    }
}

/// A limit is why the alignment has no coupling; want of memory is none.
fn limited(limit: ProductLimit) -> Result<Found, AllocError>
    ensures { IfOk result (λ found.
        (found ≡ Refused (reason.Product limit)) × (limit ≢ product.Memory)) }
{
    match limit {
        ProductLimit::Memory => Err(AllocError),
        _ => Ok(Found::Refused(Why::Product(limit))),
    }
}

/// What is found under the alignment, with these candidates.
fn find_under(
    alloc: Global,
    subject: &Subject,
    graphs: &Graphs,
    ground: &Ground,
    alignment: Alignment,
    candidates: &Candidates,
) -> Result<Found, AllocError>
    requires graphs { AreGraphsOf subject.now graphs.now }
    requires cases { AreCasesOf subject.now graphs.now ground.now }
    requires mined { AreMined subject.now alignment candidates.now }
    ensures found { (indexes : List ℕ) (pairs : List Pair) → ArePairsAt subject.now indexes pairs
        → AreMinedFrom subject.now alignment pairs candidates.now
        → IfOk result (Finds subject.now alignment pairs) }
{
    match ground.product(alloc, subject, graphs, alignment) {
        Ok(product) => find_over(alloc, subject, graphs, &product, alignment, candidates),
        Err(limit) => limited(limit),
    }
}

/// What is found under the alignment, with these candidates; the limit of what all alignments
/// share, where that has one.
fn find(
    alloc: Global,
    subject: &Subject,
    graphs: &Graphs,
    ground: &Result<Ground, ProductLimit>,
    alignment: Alignment,
    candidates: &Candidates,
) -> Result<Found, AllocError>
    requires graphs { AreGraphsOf subject.now graphs.now }
    requires ground { IsGroundOf subject.now graphs.now ground.now }
    requires mined { AreMined subject.now alignment candidates.now }
    ensures found { (indexes : List ℕ) (pairs : List Pair) → ArePairsAt subject.now indexes pairs
        → AreMinedFrom subject.now alignment pairs candidates.now
        → IfOk result (Finds subject.now alignment pairs) }
{
    // What holds of each alignment.
    let _ = alignment.counts();
    match ground {
        Ok(ground) => find_under(alloc, subject, graphs, ground, alignment, candidates),
        Err(limit) => limited(*limit),
    }
}

/// Adds the candidates of all pairs, and posts that a family of them couples the functions.
fn add_coupling(
    alloc: Global,
    pool: &mut Pool,
    subject: &Subject,
    snapshot: &Snapshot,
    alignment: Alignment,
    candidates: Candidates,
    coupled: Coupled,
) -> Result<(), AllocError>
    requires own { pool.old.subject ≡ subject.now }
    requires tried { IsTriedTo subject.now pool.old.items alignment }
    requires snapshot { snapshot.now ≡ snapshot_of pool.old }
    requires mined { AreMinedFrom subject.now alignment (pairs_of pool.old.items) candidates }
    requires greatest { IsGreatestCoupling subject.now alignment (pairs_of pool.old.items)
        coupled }
    ensures own { OnOk result (pool.new.subject ≡ subject.now) }
    ensures first { OnOk result (HasFirstVerdict subject.now pool.new.items) }
{
    // What holds of each alignment.
    let _ = alignment.counts();
    let indexes = snapshot.indexes(alloc)?;
    if let Err(why) = pool.mined(ALONE, snapshot, alignment, candidates) {
        return Err(for_memory(why));
    }
    if let Err(why) = pool.post(ALONE, Verdict::Equivalent { coupled, indexes }) {
        return Err(for_memory(why));
    }
    // The history is legal.
    let _ = pool.history();
    Ok(())
}

/// Adds the candidates of all pairs, and why the alignment has no coupling with them.
fn add_reason(
    pool: &mut Pool,
    subject: &Subject,
    snapshot: &Snapshot,
    alignment: Alignment,
    candidates: Candidates,
    why: Why,
) -> Result<(), AllocError>
    requires own { pool.old.subject ≡ subject.now }
    requires tried { IsTriedTo subject.now pool.old.items alignment }
    requires snapshot { snapshot.now ≡ snapshot_of pool.old }
    requires mined { AreMinedFrom subject.now alignment (pairs_of pool.old.items) candidates }
    requires reason { IsTried subject.now alignment (pairs_of pool.old.items) why }
    ensures own { OnOk result (pool.new.subject ≡ subject.now) }
    ensures tried { OnOk result (IsTriedTo subject.now pool.new.items (suc alignment)) }
{
    // What holds of each alignment.
    let _ = alignment.counts();
    if let Err(why) = pool.mined(ALONE, snapshot, alignment, candidates) {
        return Err(for_memory(why));
    }
    if let Err(why) = pool.tried(ALONE, snapshot, alignment, why) {
        return Err(for_memory(why));
    }
    // The history is legal.
    let _ = pool.history();
    Ok(())
}

/// Tries the alignment on all pairs; whether a verdict is posted.
fn try_alignment(
    alloc: Global,
    pool: &mut Pool,
    subject: &Subject,
    graphs: &Graphs,
    ground: &Result<Ground, ProductLimit>,
    alignment: Alignment,
) -> Result<bool, AllocError>
    requires graphs { AreGraphsOf subject.now graphs.now }
    requires ground { IsGroundOf subject.now graphs.now ground.now }
    requires own { pool.old.subject ≡ subject.now }
    requires tried { IsTriedTo subject.now pool.old.items alignment }
    ensures own { OnOk result (pool.new.subject ≡ subject.now) }
    ensures goes { IfOk result (λ found. GoesOn found subject.now pool.new.items
        (IsTriedTo subject.now pool.new.items (suc alignment))) }
{
    let (snapshot, candidates) = pool.candidates(alloc, alignment)?;
    match find(alloc, subject, graphs, ground, alignment, &candidates)? {
        Found::Coupled(coupled) => {
            add_coupling(
                alloc, pool, subject, &snapshot, alignment, candidates, coupled,
            )?;
            Ok(true)
        }
        Found::Refused(why) => {
            add_reason(pool, subject, &snapshot, alignment, candidates, why)?;
            Ok(false)
        }
    }
}

/// The alignment that so many others come before.
fn alignment_after(k: u32) -> Alignment
    requires { k < 12 }
    ensures { result ≡ suc k }
{
    Alignment::named()[k as usize]
}

/// Tries the alignments in order, up to the first that has a coupling; whether there is one.
fn try_alignments(
    alloc: Global,
    pool: &mut Pool,
    subject: &Subject,
    graphs: &Graphs,
    ground: &Result<Ground, ProductLimit>,
) -> Result<bool, AllocError>
    requires graphs { AreGraphsOf subject.now graphs.now }
    requires ground { IsGroundOf subject.now graphs.now ground.now }
    requires own { pool.old.subject ≡ subject.now }
    requires tried { IsTriedTo subject.now pool.old.items 1 }
    ensures own { OnOk result (pool.new.subject ≡ subject.now) }
    ensures goes { IfOk result (λ found. GoesOn found subject.now pool.new.items
        (IsTriedTo subject.now pool.new.items 13)) }
{
    for k in 0..12 {
        let alignment = alignment_after(k);
        if try_alignment(alloc, pool, subject, graphs, ground, alignment)? {
            return Ok(true);
        }
    }
    Ok(false)
}

/// Takes the samples, and tries the alignments where their results are equal.
fn decide(
    alloc: Global,
    pool: &mut Pool,
    subject: &Subject,
    graphs: &Graphs,
) -> Result<(), AllocError>
    requires graphs { AreGraphsOf subject.now graphs.now }
    requires own { pool.old.subject ≡ subject.now }
    requires sampled { IsSampledTo subject.now pool.old.items 0 }
    ensures own { OnOk result (pool.new.subject ≡ subject.now) }
    ensures finished { OnOk result (IsFinished subject.now pool.new.items) }
{
    if take_samples(alloc, pool, subject, graphs)? {
        return Ok(());
    }
    let ground = Ground::new(alloc, subject, graphs);
    try_alignments(alloc, pool, subject, graphs, &ground)?;
    Ok(())
}

/// Want of memory, for which alone no verdict is concluded.
fn unconcluded(why: Missing) -> AllocError
    requires { why ≡ missing.Memory }
{
    AllocError
}

/// What is concluded of the pool.
fn conclude(alloc: Global, pool: Pool, subject: &Subject) -> Result<Solved, AllocError>
    requires own { pool.subject ≡ subject.now }
    requires finished { IsFinished subject.now pool.items }
    ensures { IfOk result (IsSolvedAlone subject.now) }
{
    let verdict = match pool.conclude(alloc) {
        Ok(verdict) => verdict,
        Err(why) => return Err(unconcluded(why)),
    };
    let history = Items::from_vec(pool.into_history());
    let mut shares = Items::new(alloc);
    shares.push(history.len() as u32)?;
    Ok(Solved {
        verdict,
        history,
        shares,
    })
}

/// Compares the subject's functions. Worker 0 takes the samples in order and posts the first
/// difference; else it tries the alignments in order, each on all pairs, and posts the first
/// coupling; else nothing is decided, for the reasons that stand in the history. The one error is
/// want of memory.
pub fn solve_alone(alloc: Global, subject: &Subject) -> Result<Solved, AllocError>
    ensures { IfOk result (IsSolvedAlone subject.now) }
{
    let graphs = Graphs::new(alloc, subject)?;
    let mut pool = Pool::new(alloc, subject.copy(alloc)?)?;
    decide(alloc, &mut pool, subject, &graphs)?;
    conclude(alloc, pool, subject)
}
